//! Functions on blobs. A call works on the bytes of a blob, as `Dynamic::as_blob_mut`,
//! `InStore::blob_mut` or `Blob::own_mut` borrows them.
//!
//! A negative index counts from the end. Where rhai returns 0 or does nothing, since an index is
//! out of range or a blob is empty, these calls return `None` or `false`. An int is converted to a
//! byte by its low eight bits.
ghost use Rattle.std.specs.Prelude.{◌≡◌, ◌++◌, ◌∷◌, ◌↔◌, [], pos, length, map, replicate, reverse, is_ok, is_some, if◌then◌else◌, option_map, IfOk, IsOk, IsTrue, OnErr, OnOk, MatchOption};
ghost use Rattle.std.specs.List.{Contains};
ghost use Rattle.std.specs.Str.{chars};
ghost use Rattle.std.specs.Str.Lossy.{utf8_lossy};
ghost use Rattle.rhai_text.specs.declared.error.SizeKind.TheVariants as size;
ghost use Rattle.rhai_value.specs.Bytes.{low_byte};
ghost use Rattle.rhai_value.specs.Steps.{item_place as place_of_item};
ghost use Rattle.rhai_value.specs.Tree.{fresh, int};
ghost use Rattle.rhai_packs.specs.Places.{after, first_of, item_at, missing as missing_of, with_placed, without_placed};
ghost use Rattle.rhai_packs.specs.Sizes.{IsLimited, may_grow as may_grow_by};

mod written;

use crate::places::{at_most, cut_place, missing};
use crate::sizes::{may_grow, too_large};
use rhai_text::{EvalAltResult, ImmutableString, Limits, SizeKind};
use rhai_value::{Array, Blob, Dynamic, INT, item_place};
use std::alloc::{AllocError, Global};
pub use written::{parse_be_int, parse_le_int, write_ascii, write_be, write_le, write_utf8};

/// The low byte of an int.
fn low_byte_of(number: INT) -> u8
    ensures { result ≡ low_byte number }
{
    number.rem_euclid(256) as u8
}

/// Makes a blob that repeats a byte `count` times; empty for a negative number.
/// Errors: more bytes than the limit allows, or a failed allocation.
/// Cost: the number of bytes.
/// rhai: `blob`.
pub fn blob(alloc: Global, limits: &Limits, count: INT, byte: INT) -> Result<Blob, EvalAltResult>
    ensures answer { IsLimited size.Items (may_grow_by limits.now.items 0 (missing_of 0 count)) result }
    ensures bytes { IfOk result (λ made. made.items ≡ replicate (missing_of 0 count) (low_byte byte)) }
{
    let count = missing(0, count);
    if !may_grow(limits.items, 0, count) {
        return Err(too_large(SizeKind::Items));
    }
    Ok(Vec::from_elem(alloc, low_byte_of(byte), count)?)
}

/// Returns the number of bytes.
/// Cost: constant.
/// rhai: `len`.
pub fn len(bytes: &Blob) -> usize
    ensures { result ≡ length bytes.now.items }
{
    bytes.len()
}

/// Returns whether the blob is empty.
/// Cost: constant.
/// rhai: `is_empty`.
pub fn is_empty(bytes: &Blob) -> bool
    ensures { IsTrue result ↔ (bytes.now.items ≡ []) }
{
    bytes.is_empty()
}

/// Returns whether the blob contains a byte.
/// Cost: the number of bytes.
/// rhai: `contains`.
pub fn contains(bytes: &Blob, byte: INT) -> bool
    ensures { IsTrue result ↔ Contains bytes.now.items (low_byte byte) }
{
    bytes.contains(&low_byte_of(byte))
}

/// Removes all bytes.
/// Cost: constant.
/// rhai: `clear`.
pub fn clear(bytes: &mut Blob)
    ensures { bytes.new.items ≡ [] }
{
    bytes.clear();
}

/// Returns the byte at an index as an int, if there is one.
/// Cost: constant.
/// rhai: `get`.
pub fn get(bytes: &Blob, index: INT) -> Option<INT>
    ensures { result ≡ option_map pos (item_at bytes.now.items index) }
{
    let place = item_place(bytes.len(), index)?;
    Some(bytes[place] as INT)
}

/// Sets the byte at an index, and returns whether there is one.
/// Cost: constant.
/// rhai: `set`.
pub fn set(bytes: &mut Blob, index: INT, byte: INT) -> bool
    ensures answer { result ≡ is_some (place_of_item (length bytes.old.items) index) }
    ensures bytes { bytes.new.items ≡ with_placed bytes.old.items (place_of_item (length bytes.old.items) index) (low_byte byte) }
{
    match item_place(bytes.len(), index) {
        Some(place) => {
            bytes[place] = low_byte_of(byte);
            true
        }
        None => false,
    }
}

/// Appends a byte.
/// Errors: more bytes than the limit allows, or a failed allocation; the blob is unchanged.
/// Cost: constant, unless the blob must grow.
/// rhai: `push`.
pub fn push(bytes: &mut Blob, limits: &Limits, byte: INT) -> Result<(), EvalAltResult>
    ensures answer { IsLimited size.Items (may_grow_by limits.now.items (length bytes.old.items) 1) result }
    ensures bytes { bytes.new.items ≡ (if is_ok result then bytes.old.items ++ low_byte byte ∷ [] else bytes.old.items) }
{
    if !may_grow(limits.items, bytes.len(), 1) {
        return Err(too_large(SizeKind::Items));
    }
    bytes.reserve(1)?;
    bytes.push_reserved(low_byte_of(byte));
    Ok(())
}

/// Appends bytes; for no bytes nothing is allocated.
/// Errors: those of `push`.
/// Cost: the number of new bytes, and of all bytes if the blob must grow.
/// rhai: `append`.
pub fn append(bytes: &mut Blob, limits: &Limits, more: &[u8]) -> Result<(), EvalAltResult>
    ensures answer { IsLimited size.Items (may_grow_by limits.now.items (length bytes.old.items) (length more.now)) result }
    ensures bytes { bytes.new.items ≡ (if is_ok result then bytes.old.items ++ more.now else bytes.old.items) }
    ensures free { more.now ≡ [] → IsOk result }
{
    if !may_grow(limits.items, bytes.len(), more.len()) {
        return Err(too_large(SizeKind::Items));
    }
    if !more.is_empty() {
        bytes.extend_from_slice(more)?;
    }
    Ok(())
}

/// Removes the last byte and returns it, if there is one.
/// Cost: constant.
/// rhai: `pop`.
pub fn pop(bytes: &mut Blob) -> Option<INT>
    ensures { MatchOption result ((bytes.old.items ≡ []) × (bytes.new.items ≡ [])) (λ last. (b : _) × (last ≡ pos b) × (bytes.old.items ≡ bytes.new.items ++ b ∷ [])) }
{
    match bytes.pop() {
        Some(byte) => Some(byte as INT),
        None => None,
    }
}

/// Removes the byte at an index and returns it, if there is one.
/// Cost: the number of bytes behind it.
/// rhai: `remove`.
pub fn remove(bytes: &mut Blob, index: INT) -> Option<INT>
    ensures byte { result ≡ option_map pos (item_at bytes.old.items index) }
    ensures bytes { bytes.new.items ≡ without_placed bytes.old.items (place_of_item (length bytes.old.items) index) }
{
    let place = item_place(bytes.len(), index)?;
    Some(bytes.remove(place) as INT)
}

/// Reverses the order of the bytes.
/// Cost: the number of bytes.
/// rhai: `reverse`.
pub fn reverse(bytes: &mut Blob)
    ensures { bytes.new.items ≡ reverse bytes.old.items }
{
    bytes.reverse();
}

/// Copies up to `count` bytes from an index on; an index before the front means the front.
/// Errors: an allocation fails.
/// Cost: the number of copied bytes.
/// rhai: `extract`.
pub fn extract(alloc: Global, bytes: &Blob, index: INT, count: INT) -> Result<Blob, AllocError>
    ensures { IfOk result (λ part. part.items ≡ first_of (after bytes.now.items index) count) }
{
    let start = cut_place(bytes.len(), index);
    let len = at_most(bytes.len() - start, count);
    Vec::from_slice(alloc, &bytes.as_slice()[start..start + len])
}

/// Makes the text that the bytes spell in UTF-8; each invalid sequence becomes a replacement
/// character.
/// Errors: an allocation fails.
/// Cost: the number of bytes.
/// rhai: `as_string`.
pub fn as_string(alloc: Global, bytes: &Blob) -> Result<ImmutableString, AllocError>
    ensures { IfOk result (λ text. text ≡ chars (utf8_lossy bytes.now.items)) }
{
    let text = String::from_utf8_lossy(alloc, bytes.as_slice())?;
    ImmutableString::from_str(alloc, text.as_str())
}

/// Makes an array of the bytes as ints.
/// Errors: an allocation fails.
/// Cost: the number of bytes.
/// rhai: `to_array`.
pub fn to_array(alloc: Global, bytes: &Blob) -> Result<Array, AllocError>
    ensures { IfOk result (λ items. items.items ≡ map (λ b. fresh (int (pos b))) bytes.now.items) }
{
    let mut items = Vec::with_capacity(alloc, bytes.len())?;
    for byte in bytes {
        items.push_reserved(Dynamic::from_int(*byte as INT));
    }
    Ok(items)
}
