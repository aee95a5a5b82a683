//! Steps down into a value.
ghost use Rattle.std.specs.Prelude.{◌≡◌, ◌<◌, IfSome};
ghost use Rattle.rhai_value.specs.Steps.{item_place};

use crate::value::type_id::TypeId;
use crate::value::union::INT;

/// A step down into a held value.
#[derive(Debug, PartialEq, Eq, Copy, Clone)]
pub enum Step<'k> {
    /// To an item of an array; a negative index counts from the end.
    Index(INT),
    /// To the value of a key of a map.
    Key(&'k str),
}

/// Why the work at a place didn't happen, or why its result could not be put back, and at which
/// step: the number of steps taken before.
#[derive(Debug, PartialEq, Eq, Copy, Clone)]
pub struct PlaceError {
    /// The index of the step in the list; the number of steps if the error concerns the target
    /// itself.
    pub step: usize,
    /// What is wrong there.
    pub kind: PlaceErrorKind,
}

/// What is wrong with a step.
#[derive(Debug, PartialEq, Eq, Copy, Clone)]
pub enum PlaceErrorKind {
    /// Nothing is held there: a cell on the way is marked or not in the store, or the chain closes.
    Barred,
    /// The held value is of this type, which has no such items.
    OtherType(TypeId),
    /// The held array has only this many items.
    NoItem(usize),
    /// The held map lacks the key.
    NoKey,
    /// There are more steps than `Dynamic::with_place` takes.
    TooFar,
    /// The cell with the value before the step was no longer marked when the work was done.
    Lost,
}

/// Returns the place of an item in a list of this length, if there is one; a negative index counts
/// from the end.
#[tactic(auto, using(crate::proofs::Stepped::place_within))]
pub fn item_place(length: usize, index: INT) -> Option<usize>
    ensures place { result ≡ item_place length index }
    ensures within { IfSome result (λ k. k < length) }
{
    let distance = index.unsigned_abs() as usize;
    if index < 0 {
        if length < distance {
            return None;
        }
        Some(length - distance)
    } else if distance < length {
        Some(distance)
    } else {
        None
    }
}
