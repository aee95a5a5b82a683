//! Operators on blobs.
ghost use Rattle.std.specs.Prelude.{◌++◌, Some, nat_eq};
ghost use Rattle.std.specs.Cmp.Lexicographic.{pointwise};
ghost use Rattle.rhai_value.specs.End.{flat};
ghost use Rattle.rhai_value.specs.Parts.{blob_of, char_of};
ghost use Rattle.rhai_ops.specs.Outcome.{IsOutcome, both, bool_answer, limited_blob};
ghost use Rattle.rhai_ops.specs.Results.{Holds, blob_and_char, joined_blobs, part as part_in, unless as unless_it};

use crate::answer::{is_allowed, part, unless, value};
use rhai_text::{EvalAltResult, Limits, Position, SizeKind};
use rhai_value::{Blob, Dynamic, Store};
use std::alloc::Global;

/// Appends a blob to a blob. If one is empty, the other is copied as it is held, and no limit is
/// tested.
pub(crate) fn join(
    alloc: Global,
    store: &Store,
    limits: &Limits,
    left: &Dynamic,
    right: &Dynamic,
) -> Result<Dynamic, EvalAltResult>
    requires first { Holds blob_of store.now left.now }
    requires second { Holds blob_of store.now right.now }
    ensures { IsOutcome (Unit {0}) result (both (joined_blobs limits.now (flat store.now left.now) (flat store.now right.now)) (part_in blob_of store.now left.now) (part_in blob_of store.now right.now)) }
{
    let a = part::<Blob>(left, store);
    let b = part::<Blob>(right, store);
    if b.is_empty() {
        return Ok(left.flatten_clone(alloc, store)?);
    }
    if a.is_empty() {
        return Ok(right.flatten_clone(alloc, store)?);
    }
    appended(alloc, limits, a, b)
}

/// The bytes followed by the others, with one allocation.
fn appended(alloc: Global, limits: &Limits, a: &[u8], b: &[u8]) -> Result<Dynamic, EvalAltResult>
    ensures { IsOutcome (Unit {0}) result (limited_blob limits.now (a.now ++ b.now)) }
{
    if !is_allowed(limits.items, a.len(), b.len()) {
        return Err(EvalAltResult::ErrorDataTooLarge(SizeKind::Items, Position::NONE));
    }
    let mut bytes = Vec::with_capacity(alloc, a.len().saturating_add(b.len()))?;
    bytes.extend_from_slice(a)?;
    bytes.extend_from_slice(b)?;
    Ok(Dynamic::from_blob(bytes))
}

/// Whether two blobs have the same bytes, or the negation.
pub(crate) fn equal(
    negated: bool,
    store: &Store,
    left: &Dynamic,
    right: &Dynamic,
) -> Result<Dynamic, EvalAltResult>
    requires first { Holds blob_of store.now left.now }
    requires second { Holds blob_of store.now right.now }
    ensures { IsOutcome ⊥ result (both (λ v w. bool_answer (Some (unless_it negated (pointwise nat_eq v w)))) (part_in blob_of store.now left.now) (part_in blob_of store.now right.now)) }
{
    let same = part::<Blob>(left, store) == part::<Blob>(right, store);
    Ok(Dynamic::from_bool(unless(negated, same)))
}

/// Appends the UTF-8 bytes of a character to a blob.
pub(crate) fn join_char(
    alloc: Global,
    limits: &Limits,
    store: &Store,
    left: &Dynamic,
    right: &Dynamic,
) -> Result<Dynamic, EvalAltResult>
    requires first { Holds blob_of store.now left.now }
    requires second { Holds char_of store.now right.now }
    ensures { IsOutcome (Unit {0}) result (blob_and_char.comes_to limits.now store.now left.now right.now) }
{
    let a = part::<Blob>(left, store);
    let mut buffer = [0; 4];
    let b = value::<char>(right, store)
        .encode_utf8(&mut buffer)
        .as_bytes();
    appended(alloc, limits, a, b)
}
