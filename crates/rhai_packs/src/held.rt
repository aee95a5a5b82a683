//! Errors for a held part of another type than the expected one.
ghost use Rattle.rhai_packs.specs.Held.{IsMismatch};

use rhai_text::{EvalAltResult, Position};
use rhai_value::Part;

/// Makes the error for a value of this type that is held where another type is expected. The calls
/// that borrow a held part return its name.
/// Cost: constant.
pub fn mismatch<T: Part>(found: &'static str) -> EvalAltResult
    ensures { IsMismatch T.KIND found.now result }
{
    EvalAltResult::mismatch(T::KIND.name(), found, Position::NONE)
}
