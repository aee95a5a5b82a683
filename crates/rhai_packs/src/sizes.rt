//! Limits of sizes.
ghost use Rattle.std.specs.Prelude.{◌≡◌};
ghost use Rattle.rhai_text.specs.declared.error.EvalAltResult.TheVariants.{ErrorDataTooLarge};
ghost use Rattle.rhai_packs.specs.Sizes.{may_grow as may_grow_by, no_place};

use rhai_text::{EvalAltResult, Position, SizeKind};

/// Whether a limit allows `more` beside `first`; always if nothing is added. A limit of 0 means
/// none.
pub(crate) fn may_grow(limit: usize, first: usize, more: usize) -> bool
    ensures { result ≡ may_grow_by limit first more }
{
    if more == 0 {
        true
    } else if limit == 0 {
        true
    } else if limit < first {
        false
    } else {
        more <= limit - first
    }
}

/// The error of exceeding a limit.
pub(crate) fn too_large(kind: SizeKind) -> EvalAltResult
    ensures { result ≡ ErrorDataTooLarge kind no_place }
{
    EvalAltResult::ErrorDataTooLarge(kind, Position::NONE)
}
