//! Copies of items, and replacing items.
ghost use Rattle.std.specs.Prelude.{◌≡◌, ◌++◌, [], length, map, replicate, is_ok, if◌then◌else◌, IfOk, IsOk};
ghost use Rattle.rhai_text.specs.declared.error.SizeKind.TheVariants as size;
ghost use Rattle.rhai_value.specs.Tree.{copy};
ghost use Rattle.rhai_packs.specs.Places.{after, first_of, missing as missing_of};
ghost use Rattle.rhai_packs.specs.Sizes.{IsLimited, may_grow as may_grow_by};

use crate::places::{at_most, cut_place, missing};
use crate::sizes::{may_grow, too_large};
use rhai_text::{EvalAltResult, Limits, SizeKind};
use rhai_value::{Array, Dynamic, INT};
use std::alloc::{AllocError, Global};

/// Copies up to `count` items from an index on; an index before the front means the front.
/// Errors: an allocation fails.
/// Cost: that of the copies.
/// rhai: `extract`.
pub fn extract(alloc: Global, items: &Array, index: INT, count: INT) -> Result<Array, AllocError>
    ensures items { IfOk result (λ part. part.items ≡ map copy (first_of (after items.now.items index) count)) }
    ensures free { first_of (after items.now.items index) count ≡ [] → IsOk result }
{
    let start = cut_place(items.len(), index);
    let len = at_most(items.len() - start, count);
    copies(alloc, &items.as_slice()[start..start + len])
}

/// Copies of all items, with one allocation for the list.
fn copies(alloc: Global, items: &[Dynamic]) -> Result<Array, AllocError>
    ensures items { IfOk result (λ made. made.items ≡ map copy items.now) }
    ensures free { items.now ≡ [] → IsOk result }
{
    if items.is_empty() {
        return Ok(Vec::new(alloc));
    }
    let mut made = Vec::with_capacity(alloc, items.len())?;
    for item in items {
        made.push_reserved(item.copy(alloc)?);
    }
    Ok(made)
}

/// Appends copies of an item until the array has the wanted length; if it has that already, changes
/// and allocates nothing.
/// Errors: more items than the limit allows, or a failed allocation; the array is unchanged.
/// Cost: that of the copies, and the number of all items if the array must grow.
/// rhai: `pad`.
pub fn pad(
    alloc: Global,
    items: &mut Array,
    limits: &Limits,
    count: INT,
    item: &Dynamic,
) -> Result<(), EvalAltResult>
    ensures answer { IsLimited size.Items (may_grow_by limits.now.items (length items.old.items) (missing_of (length items.old.items) count)) result }
    ensures items { items.new.items ≡ (if is_ok result then items.old.items ++ replicate (missing_of (length items.old.items) count) (copy item.now) else items.old.items) }
    ensures free { missing_of (length items.old.items) count ≡ 0 → IsOk result }
{
    let more = missing(items.len(), count);
    if more == 0 {
        return Ok(());
    }
    if !may_grow(limits.items, items.len(), more) {
        return Err(too_large(SizeKind::Items));
    }
    let mut more = repeated(alloc, item, more)?;
    items.append(&mut more)?;
    Ok(())
}

/// `count` copies of an item.
fn repeated(alloc: Global, item: &Dynamic, count: usize) -> Result<Array, AllocError>
    ensures { IfOk result (λ made. made.items ≡ replicate count (copy item.now)) }
{
    let mut made = Vec::with_capacity(alloc, count)?;
    for _ in 0..count {
        made.push_reserved(item.copy(alloc)?);
    }
    Ok(made)
}
