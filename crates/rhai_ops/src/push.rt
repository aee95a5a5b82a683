//! Assignments that append to the blob or the array of a place, in place.
ghost use Rattle.std.specs.Prelude.{◌≡◌, ◌++◌, ◌∷◌, [], Some, Err, option_map, OnOk, OnErr, IfOk, IfErr, if◌then◌else◌};
ghost use Rattle.std.specs.Char.{encode_utf8};
ghost use Rattle.rhai_text.specs.declared.error.SizeKind.TheVariants as size;
ghost use Rattle.rhai_value.specs.End.{array_moved};
ghost use Rattle.rhai_value.specs.Parts.{array_of, blob_of, int_of, text_of};
ghost use Rattle.rhai_value.specs.Rows.{trees_of};
ghost use Rattle.rhai_value.specs.Tree.{array, blob, branch, copy_trees, fresh, made, unit};
ghost use Rattle.rhai_ops.specs.Outcome.{IsOutcome, answers, both, too_large};
ghost use Rattle.rhai_value.specs.Bytes.{low_byte};
ghost use Rattle.rhai_ops.specs.Results.{Holds, appended, blob_and_text, joined_items, part as part_in, pushed};
ghost use Rattle.rhai_ops.specs.Effects.{IsAssigned, answered, assignment, stays};

use crate::answer::{is_allowed, part, value};
use rhai_text::{EvalAltResult, ImmutableString, Limits, Position, SizeKind};
use rhai_value::{Array, Blob, Dynamic, INT, InStore, Part, Store};
use std::alloc::Global;

/// Appends bytes to a blob, or leaves it unchanged on failure.
fn extend(limits: &Limits, bytes: &mut Blob, more: &[u8]) -> Result<Dynamic, EvalAltResult>
    ensures result { IsOutcome (Unit {0}) result (answered (assignment stays) (appended limits.now bytes.old.items more.now)) }
    ensures ok { OnOk result (appended limits.now bytes.old.items more.now ≡ answers (fresh (blob bytes.new.items))) }
    ensures err { OnErr result (bytes.new.items ≡ bytes.old.items) }
{
    if !is_allowed(limits.items, bytes.len(), more.len()) {
        return Err(EvalAltResult::ErrorDataTooLarge(SizeKind::Items, Position::NONE));
    }
    bytes.extend_from_slice(more)?;
    Ok(Dynamic::UNIT)
}

/// Appends bytes to the blob at the place.
pub(crate) fn push_bytes(
    limits: &Limits,
    store: &mut Store,
    left: &mut Dynamic,
    more: &[u8],
) -> Result<Dynamic, EvalAltResult>
    requires { Holds blob_of store.old left.old }
    ensures { IsAssigned (Unit {0}) result (both (appended limits.now) (part_in blob_of store.old left.old) (Some more.now)) left.old left.new store.old store.new }
{
    let mut place = InStore { value: left, store };
    extend(limits, place.held_part_mut::<Blob>(), more)
}

/// Moves an item to the end of an array, and leaves unit; on failure both are unchanged.
#[tactic(auto, using(crate::proofs::Items::item_behind, crate::proofs::Items::count_one_behind))]
fn push(limits: &Limits, items: &mut Array, right: &mut Dynamic) -> Result<Dynamic, EvalAltResult>
    ensures result { IsOutcome (Unit {0}) result (answered (assignment stays) (pushed limits.now (trees_of items.old.items) right.old)) }
    ensures ok { OnOk result (pushed limits.now (trees_of items.old.items) right.old ≡ answers (made (branch array (trees_of items.new.items)))) }
    ensures left { OnOk result (right.new ≡ fresh unit) }
    ensures err { OnErr result ((items.new.items ≡ items.old.items) × (right.new ≡ right.old)) }
{
    if !is_allowed(limits.items, items.len(), 1) {
        return Err(EvalAltResult::ErrorDataTooLarge(SizeKind::Items, Position::NONE));
    }
    items.reserve(1)?;
    items.push_reserved(std::mem::replace(right, Dynamic::UNIT));
    Ok(Dynamic::UNIT)
}

/// Moves an item to the end of the array at the place, and leaves unit.
#[inline(never)]
pub(crate) fn push_item(
    limits: &Limits,
    store: &mut Store,
    left: &mut Dynamic,
    right: &mut Dynamic,
) -> Result<Dynamic, EvalAltResult>
    requires { Holds array_of store.old left.old }
    ensures assigned { IsAssigned (Unit {0}) result (both (pushed limits.now) (part_in array_of store.old left.old) (Some right.old)) left.old left.new store.old store.new }
    ensures second { IfOk result (λ d. right.new ≡ fresh unit) }
    ensures kept { IfErr result (λ e. right.new ≡ right.old) }
{
    let mut place = InStore { value: left, store };
    push(limits, place.held_part_mut::<Array>(), right)
}

/// Moves all items to the end of an array; on failure both are unchanged.
fn append(limits: &Limits, items: &mut Array, more: &mut Array) -> Result<Dynamic, EvalAltResult>
    ensures result { IsOutcome (Unit {0}) result (answered (assignment stays) (joined_items limits.now (trees_of items.old.items) (trees_of more.old.items))) }
    ensures ok { OnOk result (joined_items limits.now (trees_of items.old.items) (trees_of more.old.items) ≡ answers (made (branch array (trees_of items.new.items)))) }
    ensures err { OnErr result ((items.new.items ≡ items.old.items) × (more.new.items ≡ more.old.items)) }
{
    if !may_join(limits, items, more) {
        return Err(EvalAltResult::ErrorDataTooLarge(SizeKind::Items, Position::NONE));
    }
    items.append(more)?;
    Ok(Dynamic::UNIT)
}

/// Whether the limit allows appending items to an array; always if there are none.
#[tactic(auto, using(crate::proofs::Items::may_join))]
fn may_join(limits: &Limits, items: &Array, more: &Array) -> bool
    ensures { joined_items limits.now (trees_of items.now.items) (trees_of more.now.items)
        ≡ (if result then answers (made (branch array (trees_of (items.now.items ++ more.now.items)))) else too_large size.Items) }
{
    items.is_empty() || more.is_empty() || is_allowed(limits.items, items.len(), more.len())
}

/// Moves all items of an array to the end of the array at the place.
fn append_at(
    limits: &Limits,
    store: &mut Store,
    left: &mut Dynamic,
    more: &mut Array,
) -> Result<Dynamic, EvalAltResult>
    requires { Holds array_of store.old left.old }
    ensures assigned { IsAssigned (Unit {0}) result (both (joined_items limits.now) (part_in array_of store.old left.old) (Some (trees_of more.old.items))) left.old left.new store.old store.new }
    ensures kept { IfErr result (λ e. more.new.items ≡ more.old.items) }
{
    let mut place = InStore { value: left, store };
    append(limits, place.held_part_mut::<Array>(), more)
}

/// Copies the items of an array, if the limit allows appending them; the limit is tested before
/// anything is copied.
#[tactic(auto, using(crate::proofs::Items::copied_refused, crate::proofs::Items::copied_answer, crate::proofs::Effects::still_answer))]
fn copies(
    alloc: Global,
    limits: &Limits,
    store: &Store,
    left: &Dynamic,
    right: &Dynamic,
) -> Result<Array, EvalAltResult>
    requires first { Holds array_of store.now left.now }
    requires second { Holds array_of store.now right.now }
    ensures ok { IfOk result (λ v. option_map copy_trees (part_in array_of store.now right.now) ≡ Some (trees_of v.items)) }
    ensures err { IfErr result (λ e. IsOutcome (Unit {0}) (Err e) (answered (assignment stays) (both (joined_items limits.now) (part_in array_of store.now left.now) (option_map copy_trees (part_in array_of store.now right.now))))) }
{
    let more = part::<Array>(right, store);
    if !may_join(limits, part::<Array>(left, store), more) {
        return Err(EvalAltResult::ErrorDataTooLarge(SizeKind::Items, Position::NONE));
    }
    Ok(more.try_clone(alloc)?)
}

/// Appends the items of the second operand to the array at the place, and leaves unit in the second
/// operand. Its own items are moved; items held in a cell are copied.
#[tactic(auto, using(crate::proofs::FromBelow::array_over))]
pub(crate) fn append_items(
    alloc: Global,
    limits: &Limits,
    store: &mut Store,
    left: &mut Dynamic,
    right: &mut Dynamic,
) -> Result<Dynamic, EvalAltResult>
    requires first { Holds array_of store.old left.old }
    requires second { Holds array_of store.old right.old }
    ensures assigned { IsAssigned (Unit {0}) result (both (joined_items limits.now) (part_in array_of store.old left.old) (array_moved store.old right.old)) left.old left.new store.old store.new }
    ensures second { IfOk result (λ d. right.new ≡ fresh unit) }
    ensures kept { IfErr result (λ e. right.new ≡ right.old) }
{
    if let Some(own) = Array::own_mut(right) {
        let done = append_at(limits, store, left, own);
        if done.is_ok() {
            leave_unit(right);
        }
        return done;
    }
    let mut copies = copies(alloc, limits, store, left, right)?;
    let done = append_at(limits, store, left, &mut copies);
    if done.is_ok() {
        leave_unit(right);
    }
    done
}

/// Replaces the second operand by unit.
fn leave_unit(right: &mut Dynamic)
    ensures { right.new ≡ fresh unit }
{
    *right = Dynamic::UNIT;
}

/// Appends the bytes of a blob to the blob at the place. The limit is tested before anything is
/// copied.
#[tactic(auto, using(crate::proofs::Bytes::own_blob))]
fn append_bytes(
    alloc: Global,
    limits: &Limits,
    store: &mut Store,
    left: &mut Dynamic,
    right: &Dynamic,
) -> Result<Dynamic, EvalAltResult>
    requires first { Holds blob_of store.old left.old }
    requires second { Holds blob_of store.old right.now }
    ensures { IsAssigned (Unit {0}) result (both (appended limits.now) (part_in blob_of store.old left.old) (part_in blob_of store.old right.now)) left.old left.new store.old store.new }
{
    if let Some(own) = Blob::own(right) {
        return push_bytes(limits, store, left, own);
    }
    let bytes = part::<Blob>(right, store);
    if !is_allowed(limits.items, part::<Blob>(left, store).len(), bytes.len()) {
        return Err(EvalAltResult::ErrorDataTooLarge(SizeKind::Items, Position::NONE));
    }
    let bytes = Vec::from_slice(alloc, bytes)?;
    push_bytes(limits, store, left, &bytes)
}

/// Appends the bytes of the second operand to the blob at the place, and leaves unit in the second
/// operand.
pub(crate) fn append_blob(
    alloc: Global,
    limits: &Limits,
    store: &mut Store,
    left: &mut Dynamic,
    right: &mut Dynamic,
) -> Result<Dynamic, EvalAltResult>
    requires first { Holds blob_of store.old left.old }
    requires second { Holds blob_of store.old right.old }
    ensures assigned { IsAssigned (Unit {0}) result (both (appended limits.now) (part_in blob_of store.old left.old) (part_in blob_of store.old right.old)) left.old left.new store.old store.new }
    ensures second { IfOk result (λ d. right.new ≡ fresh unit) }
    ensures kept { IfErr result (λ e. right.new ≡ right.old) }
{
    let done = append_bytes(alloc, limits, store, left, right);
    if done.is_ok() {
        leave_unit(right);
    }
    done
}

/// Appends the low byte of an int to the blob at the place.
#[inline(never)]
pub(crate) fn push_byte(
    limits: &Limits,
    store: &mut Store,
    left: &mut Dynamic,
    right: &Dynamic,
) -> Result<Dynamic, EvalAltResult>
    requires first { Holds blob_of store.old left.old }
    requires second { Holds int_of store.old right.now }
    ensures { IsAssigned (Unit {0}) result (both (appended limits.now) (part_in blob_of store.old left.old) (option_map (λ n. low_byte n ∷ []) (part_in int_of store.old right.now))) left.old left.new store.old store.new }
{
    let number = value::<INT>(right, store);
    let mut place = InStore { value: left, store };
    extend_by_one(
        limits,
        place.held_part_mut::<Blob>(),
        number.rem_euclid(256) as u8,
    )
}

/// Appends a byte to a blob, or leaves it unchanged on failure.
fn extend_by_one(limits: &Limits, bytes: &mut Blob, byte: u8) -> Result<Dynamic, EvalAltResult>
    ensures result { IsOutcome (Unit {0}) result (answered (assignment stays) (appended limits.now bytes.old.items (byte ∷ []))) }
    ensures ok { OnOk result (appended limits.now bytes.old.items (byte ∷ []) ≡ answers (fresh (blob bytes.new.items))) }
    ensures err { OnErr result (bytes.new.items ≡ bytes.old.items) }
{
    if !is_allowed(limits.items, bytes.len(), 1) {
        return Err(EvalAltResult::ErrorDataTooLarge(SizeKind::Items, Position::NONE));
    }
    bytes.reserve(1)?;
    bytes.push_reserved(byte);
    Ok(Dynamic::UNIT)
}

/// Appends the UTF-8 bytes of a character to the blob at the place.
pub(crate) fn push_char(
    limits: &Limits,
    store: &mut Store,
    left: &mut Dynamic,
    character: char,
) -> Result<Dynamic, EvalAltResult>
    requires { Holds blob_of store.old left.old }
    ensures { IsAssigned (Unit {0}) result (both (appended limits.now) (part_in blob_of store.old left.old) (Some (encode_utf8 character))) left.old left.new store.old store.new }
{
    let mut buffer = [0; 4];
    push_bytes(
        limits,
        store,
        left,
        character.encode_utf8(&mut buffer).as_bytes(),
    )
}

/// Appends the UTF-8 bytes of a text to the blob at the place. For an empty text no limit is
/// tested.
#[tactic(auto, using(crate::proofs::Bytes::refused_text, crate::proofs::Bytes::allowed_text))]
pub(crate) fn append_text(
    alloc: Global,
    limits: &Limits,
    store: &mut Store,
    left: &mut Dynamic,
    right: &Dynamic,
) -> Result<Dynamic, EvalAltResult>
    requires first { Holds blob_of store.old left.old }
    requires second { Holds text_of store.old right.now }
    ensures { IsAssigned (Unit {0}) result (both (blob_and_text limits.now) (part_in blob_of store.old left.old) (part_in text_of store.old right.now)) left.old left.new store.old store.new }
{
    if let Some(own) = ImmutableString::own(right) {
        return push_text(limits, store, left, own);
    }
    let text = part::<ImmutableString>(right, store);
    if text.is_empty() {
        return Ok(Dynamic::UNIT);
    }
    if !is_allowed(limits.items, part::<Blob>(left, store).len(), text.len()) {
        return Err(EvalAltResult::ErrorDataTooLarge(SizeKind::Items, Position::NONE));
    }
    let text = text.copy(alloc)?;
    push_text(limits, store, left, &text)
}

/// Appends the UTF-8 bytes of a text to the blob at the place. For an empty text no limit is
/// tested.
fn push_text(
    limits: &Limits,
    store: &mut Store,
    left: &mut Dynamic,
    text: &ImmutableString,
) -> Result<Dynamic, EvalAltResult>
    requires { Holds blob_of store.old left.old }
    ensures { IsAssigned (Unit {0}) result (both (blob_and_text limits.now) (part_in blob_of store.old left.old) (Some text.now)) left.old left.new store.old store.new }
{
    if text.is_empty() {
        return Ok(Dynamic::UNIT);
    }
    push_bytes(limits, store, left, text.as_str().as_bytes())
}
