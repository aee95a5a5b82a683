//! Functions on arrays. A call works on the items of an array, as `Dynamic::as_array_mut`,
//! `InStore::array_mut` or `Array::own_mut` borrows them.
//!
//! A negative index counts from the end. Where rhai returns `()` or does nothing, since an index is
//! out of range or an array is empty, these calls return `None` or `false`.
ghost use Rattle.std.specs.Prelude.{◌≡◌, ◌++◌, ◌∷◌, ◌+◌, ◌-◌, ◌↔◌, [], length, take, drop, replicate, reverse, is_ok, is_some, if◌then◌else◌, option_copied, slice_get, IfOk, IfSome, IfNone, IsTrue, IsOk, OnErr, OnOk, MatchOption, Some, None};
ghost use Rattle.std.specs.List.{insert, splice};
ghost use Rattle.rhai_text.specs.declared.error.SizeKind.TheVariants as size;
ghost use Rattle.rhai_value.specs.Steps.{item_place as place_of_item};
ghost use Rattle.rhai_packs.specs.Places.{cut_place as place_of_cut, part_count, item_at, with_placed, without_placed, before, after, first_of, last_of};
ghost use Rattle.rhai_packs.specs.Sizes.{IsLimited, may_grow as may_grow_by};

mod copies;
mod moved;
mod repeats;
mod search;
mod sorting;

use crate::places::{at_most, cut_place};
use crate::sizes::{may_grow, too_large};
pub use copies::{extract, pad};
pub use moved::{drain, retain};
pub use repeats::dedup;
use rhai_text::{EvalAltResult, Limits, SizeKind};
use rhai_value::{Array, Dynamic, INT, item_place};
pub use search::{contains, index_of};
pub use sorting::sort;
use std::alloc::{AllocError, Global};

/// Returns the number of items.
/// Cost: constant.
/// rhai: `len`.
pub fn len(items: &Array) -> usize
    ensures { result ≡ length items.now.items }
{
    items.len()
}

/// Returns whether the array is empty.
/// Cost: constant.
/// rhai: `is_empty`.
pub fn is_empty(items: &Array) -> bool
    ensures { IsTrue result ↔ (items.now.items ≡ []) }
{
    items.is_empty()
}

/// Borrows the item at an index, if there is one.
/// Cost: constant.
/// rhai: `get`.
pub fn get(items: &Array, index: INT) -> Option<&Dynamic>
    ensures { option_copied result ≡ item_at items.now.items index }
{
    let place = item_place(items.len(), index)?;
    items.as_slice().get(place)
}

/// Sets the item at an index, and returns whether there is one.
/// Cost: constant, and the drop of the old item.
/// rhai: `set`.
pub fn set(items: &mut Array, index: INT, item: Dynamic) -> bool
    ensures answer { result ≡ is_some (place_of_item (length items.old.items) index) }
    ensures items { items.new.items ≡ with_placed items.old.items (place_of_item (length items.old.items) index) item }
{
    match item_place(items.len(), index) {
        Some(place) => {
            items[place] = item;
            true
        }
        None => false,
    }
}

/// Appends an item.
/// Errors: more items than the limit allows, or a failed allocation; the array is unchanged, and
/// the new item is dropped.
/// Cost: constant, unless the array must grow.
/// rhai: `push`.
pub fn push(items: &mut Array, limits: &Limits, item: Dynamic) -> Result<(), EvalAltResult>
    ensures answer { IsLimited size.Items (may_grow_by limits.now.items (length items.old.items) 1) result }
    ensures items { items.new.items ≡ (if is_ok result then items.old.items ++ item ∷ [] else items.old.items) }
{
    if !may_grow(limits.items, items.len(), 1) {
        return Err(too_large(SizeKind::Items));
    }
    items.reserve(1)?;
    items.push_reserved(item);
    Ok(())
}

/// Moves all items of another array to the end.
/// Errors: more items than the limit allows, or a failed allocation; both arrays are unchanged.
/// Cost: the number of moved items, and of all items if the array must grow.
/// rhai: `append`.
pub fn append(items: &mut Array, limits: &Limits, more: &mut Array) -> Result<(), EvalAltResult>
    ensures answer { IsLimited size.Items (may_grow_by limits.now.items (length items.old.items) (length more.old.items)) result }
    ensures items { items.new.items ≡ (if is_ok result then items.old.items ++ more.old.items else items.old.items) }
    ensures free { more.old.items ≡ [] → IsOk result }
    ensures more { more.new.items ≡ (if is_ok result then [] else more.old.items) }
{
    if !may_grow(limits.items, items.len(), more.len()) {
        return Err(too_large(SizeKind::Items));
    }
    if !more.is_empty() {
        items.append(more)?;
    }
    Ok(())
}

/// Inserts an item before the one at an index; past the end it is appended, and before the front it
/// becomes the first.
/// Errors: those of `push`.
/// Cost: the number of items behind it.
/// rhai: `insert`.
pub fn insert(
    items: &mut Array,
    limits: &Limits,
    index: INT,
    item: Dynamic,
) -> Result<(), EvalAltResult>
    ensures answer { IsLimited size.Items (may_grow_by limits.now.items (length items.old.items) 1) result }
    ensures items { items.new.items ≡ (if is_ok result then insert items.old.items (place_of_cut (length items.old.items) index) item else items.old.items) }
{
    if !may_grow(limits.items, items.len(), 1) {
        return Err(too_large(SizeKind::Items));
    }
    let place = cut_place(items.len(), index);
    match items.insert(place, item) {
        Ok(()) => Ok(()),
        Err(_) => Err(EvalAltResult::ErrorMemory(AllocError)),
    }
}

/// Removes the last item and returns it, if there is one.
/// Cost: constant.
/// rhai: `pop`.
pub fn pop(items: &mut Array) -> Option<Dynamic>
    ensures { MatchOption result ((items.old.items ≡ []) × (items.new.items ≡ [])) (λ last. items.old.items ≡ items.new.items ++ last ∷ []) }
{
    items.pop()
}

/// Removes the first item and returns it, if there is one.
/// Cost: the number of items.
/// rhai: `shift`.
pub fn shift(items: &mut Array) -> Option<Dynamic>
    ensures { MatchOption result ((items.old.items ≡ []) × (items.new.items ≡ [])) (λ first. items.old.items ≡ first ∷ items.new.items) }
{
    if items.is_empty() {
        return None;
    }
    Some(items.remove(0))
}

/// Removes the item at an index and returns it, if there is one.
/// Cost: the number of items behind it.
/// rhai: `remove`.
pub fn remove(items: &mut Array, index: INT) -> Option<Dynamic>
    ensures item { result ≡ item_at items.old.items index }
    ensures items { items.new.items ≡ without_placed items.old.items (place_of_item (length items.old.items) index) }
{
    let place = item_place(items.len(), index)?;
    Some(items.remove(place))
}

/// Removes all items.
/// Cost: their drop.
/// rhai: `clear`.
pub fn clear(items: &mut Array)
    ensures { items.new.items ≡ [] }
{
    items.clear();
}

/// Keeps the first `count` items; all if there are no more, and none for a negative number.
/// Cost: the drop of the others.
/// rhai: `truncate`.
pub fn truncate(items: &mut Array, count: INT)
    ensures { items.new.items ≡ first_of items.old.items count }
{
    let kept = at_most(items.len(), count);
    items.truncate(kept);
}

/// Keeps the last `count` items; all if there are no more, and none for a negative number.
/// Cost: the number of items.
/// rhai: `chop`.
pub fn chop(items: &mut Array, count: INT)
    ensures { items.new.items ≡ last_of items.old.items count }
{
    let kept = at_most(items.len(), count);
    drop(items.drain(0..items.len() - kept));
}

/// Replaces a number of items from an index on, as many as exist, by all items of another array; an
/// index before the front means the front, and one past the end the end.
/// Errors: more items than the limit allows, or a failed allocation; the array is unchanged, and
/// the new items are dropped.
/// Cost: the number of the new items, and of those from the index on.
/// rhai: `splice`.
pub fn splice(
    items: &mut Array,
    limits: &Limits,
    index: INT,
    count: INT,
    more: Array,
) -> Result<(), EvalAltResult>
    ensures answer { let start = place_of_cut (length items.old.items) index in let gone = part_count (length items.old.items - start) count in
        IsLimited size.Items (may_grow_by limits.now.items (length items.old.items) (length more.items - gone)) result }
    ensures items { let start = place_of_cut (length items.old.items) index in let gone = part_count (length items.old.items - start) count in
        items.new.items ≡ (if is_ok result then splice items.old.items start (start + gone) more.items else items.old.items) }
{
    let start = cut_place(items.len(), index);
    let gone = at_most(items.len() - start, count);
    if !may_grow(limits.items, items.len(), more.len().saturating_sub(gone)) {
        return Err(too_large(SizeKind::Items));
    }
    drop(items.splice(start..start + gone, more)?);
    Ok(())
}

/// Reverses the order of the items.
/// Cost: the number of items.
/// rhai: `reverse`.
pub fn reverse(items: &mut Array)
    ensures { items.new.items ≡ reverse items.old.items }
{
    items.reverse();
}

/// Splits off the items from an index on, and returns them. An index past the end splits off
/// nothing, one before the front all.
/// Errors: an allocation fails; the array is unchanged.
/// Cost: the number of items split off.
/// rhai: `split`.
pub fn split(items: &mut Array, index: INT) -> Result<Array, AllocError>
    ensures left { OnOk result (items.new.items ≡ before items.old.items index) }
    ensures cut { IfOk result (λ rest. rest.items ≡ after items.old.items index) }
    ensures err { OnErr result (items.new.items ≡ items.old.items) }
{
    let place = cut_place(items.len(), index);
    items.split_off(place)
}
