//! Parts that are moved out of an array.
ghost use Rattle.std.specs.Prelude.{◌≡◌, ◌≤◌, ◌++◌, ◌+◌, ◌-◌, [], length, take, drop, vec_capacity, vec_len, IfOk, IsOk, OnErr, OnOk};
ghost use Rattle.rhai_packs.specs.Places.{after, first_of, without_part};

use crate::places::{at_most, cut_place};
use rhai_value::{Array, Dynamic, INT};
use std::alloc::{AllocError, Global};
use std::mem;

/// Removes up to `count` items from an index on, and returns them; an index before the front means
/// the front.
/// Errors: an allocation fails; the array is unchanged. If no items are removed, none is needed.
/// Cost: the number of items from the index on.
/// rhai: `drain`.
pub fn drain(alloc: Global, items: &mut Array, index: INT, count: INT) -> Result<Array, AllocError>
    ensures part { IfOk result (λ part. part.items ≡ first_of (after items.old.items index) count) }
    ensures left { OnOk result (items.new.items ≡ without_part items.old.items index count) }
    ensures err { OnErr result (items.new.items ≡ items.old.items) }
    ensures free { first_of (after items.old.items index) count ≡ [] → IsOk result }
{
    let start = cut_place(items.len(), index);
    let end = start + at_most(items.len() - start, count);
    if start == end {
        return Ok(Vec::new(alloc));
    }
    let mut part = Vec::with_capacity(alloc, end - start)?;
    cut_out(items, start, end, &mut part);
    Ok(part)
}

/// Removes all items but those that `drain` would remove, and returns them.
/// Errors: those of `drain`.
/// Cost: that of `drain`.
/// rhai: `retain`.
pub fn retain(alloc: Global, items: &mut Array, index: INT, count: INT) -> Result<Array, AllocError>
    ensures others { IfOk result (λ others. others.items ≡ without_part items.old.items index count) }
    ensures left { OnOk result (items.new.items ≡ first_of (after items.old.items index) count) }
    ensures err { OnErr result (items.new.items ≡ items.old.items) }
    ensures free { first_of (after items.old.items index) count ≡ [] → IsOk result }
{
    let part = drain(alloc, items, index, count)?;
    Ok(mem::replace(items, part))
}

/// Moves the items from a place up to another to the end of an array.
fn cut_out(items: &mut Array, start: usize, end: usize, to: &mut Array)
    requires order { start ≤ end }
    requires within { end ≤ length items.old.items }
    requires room { vec_len to.old + (end - start) ≤ vec_capacity to.old }
    ensures left { items.new.items ≡ take start items.old.items ++ drop end items.old.items }
    ensures moved { to.new.items ≡ to.old.items ++ take (end - start) (drop start items.old.items) }
{
    move_items(items, start, end, to);
    drop(items.drain(start..end));
}

/// Moves the items from a place up to another to the end of an array; unit stays in their places.
fn move_items(items: &mut Array, start: usize, end: usize, to: &mut Array)
    requires order { start ≤ end }
    requires within { end ≤ length items.old.items }
    requires room { vec_len to.old + (end - start) ≤ vec_capacity to.old }
    ensures as_long { length items.new.items ≡ length items.old.items }
    ensures front { take start items.new.items ≡ take start items.old.items }
    ensures back { drop end items.new.items ≡ drop end items.old.items }
    ensures moved { to.new.items ≡ to.old.items ++ take (end - start) (drop start items.old.items) }
{
    for place in start..end {
        to.push_reserved(items[place].take());
    }
}
