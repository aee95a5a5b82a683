//! The cost of reads and writes at places inside values, in operations.

use crate::find::{Found, find};
use crate::operator_walks::assign_cost;
use crate::properties::property_cost;
use crate::walks::key_cost;
use crate::writing::Change;
use rhai_value::{Dynamic, Store, Union};
use script_faults::{FaultKind, Key, Means, characters_cost, copy_cost, walk_cost};

/// How far keys lead through arrays and maps.
#[derive(Clone, Copy)]
struct Reached<'s> {
    /// The value held there, if it exists.
    held: Option<&'s Dynamic>,
    /// How many keys are left, which lead into that value.
    left: u64,
    /// The cost of the keys themselves.
    cost: u64,
}

/// Counts the operations that `look` costs in addition to itself: the bytes of a text whose part is
/// returned.
/// Cost: that of `look`; no memory.
pub fn look_cost(means: &Means, store: &Store, source: &Dynamic, keys: &[Key<'_>]) -> u64 {
    let reached = reach(means, store, source, keys);
    match reached.held {
        Some(held) if reached.left > 0 => {
            let parts = text_cost(held).saturating_mul(reached.left);
            reached.cost.saturating_add(parts)
        }
        Some(_) | None => reached.cost,
    }
}

/// Counts the operations that `read` costs in addition to itself: the copy, and the bytes of a text
/// whose part is read. Stops counting once the result is more than `most`.
/// Errors: the allocation of a list fails.
/// Cost: that of `look`, and the number of values that are counted.
pub fn read_cost(
    means: &Means,
    store: &Store,
    source: &Dynamic,
    keys: &[Key<'_>],
    most: u64,
) -> Result<u64, FaultKind> {
    let reached = reach(means, store, source, keys);
    let Some(held) = reached.held else {
        return Ok(reached.cost);
    };
    let moved = if reached.left == 0 {
        copy_cost(means.alloc, held, most)?
    } else {
        text_cost(held).saturating_mul(reached.left)
    };
    Ok(reached.cost.saturating_add(moved))
}

/// Counts the operations that `write` costs in addition to itself: the cost of an operator, and the
/// bytes of a text whose part is written, with those of the part. Stops counting once the result is
/// more than `most`.
/// Errors: as `assign_cost`.
/// Cost: that of `look`, and the number of values that are counted.
pub fn write_cost(
    means: &Means,
    store: &Store,
    root: &Dynamic,
    keys: &[Key<'_>],
    change: &Change,
    most: u64,
) -> Result<u64, FaultKind> {
    let reached = reach(means, store, root, keys);
    let Some(held) = reached.held else {
        return Ok(reached.cost);
    };
    let moved = match change {
        Change::Set(_) if reached.left == 0 => 0,
        Change::Set(value) => text_cost(held).saturating_add(text_cost(value)),
        Change::Assign(op, value) if reached.left == 0 => {
            assign_cost(*op, means, store, held, value, most)?
        }
        Change::Assign(_, value) => {
            let twice = text_cost(held).saturating_mul(2);
            twice.saturating_add(walk_cost(means, store, value, most)?)
        }
    };
    Ok(reached.cost.saturating_add(moved))
}

/// Follows keys through arrays and maps.
fn reach<'s>(
    means: &Means,
    store: &'s Store,
    source: &'s Dynamic,
    keys: &[Key<'_>],
) -> Reached<'s> {
    let mut place = source;
    let mut cost = 0u64;
    let mut left = keys.len() as u64;
    for key in keys {
        let Some(held) = place.held(store) else {
            return nowhere(cost);
        };
        if let Key::Name(name) = key {
            if !held.is_map(store) {
                cost = cost.saturating_add(property_cost(means, store, held, name));
            }
        }
        if !is_listing(held) {
            return Reached {
                held: Some(held),
                left,
                cost,
            };
        }
        if let Key::Index(index) = key {
            cost = cost.saturating_add(key_cost(index, store));
        }
        match find(means, store, held, key) {
            Ok(Found::Item(item)) => place = item,
            Ok(Found::Made(_)) | Err(_) => return nowhere(cost),
        }
        left = left.saturating_sub(1);
    }
    Reached {
        held: place.held(store),
        left,
        cost,
    }
}

/// The result for keys that don't lead to a value.
fn nowhere<'s>(cost: u64) -> Reached<'s> {
    Reached {
        held: None,
        left: 0,
        cost,
    }
}

/// Whether a value has items or entries.
fn is_listing(value: &Dynamic) -> bool {
    matches!(value.parts(), Union::Array(_, _, _) | Union::Map(_, _, _))
}

/// Returns the cost of the bytes of a value that is a text.
fn text_cost(value: &Dynamic) -> u64 {
    match value.parts() {
        Union::Str(_, _, text) => characters_cost(text),
        Union::Array(_, _, _)
        | Union::Map(_, _, _)
        | Union::Blob(_, _, _)
        | Union::FnPtr(_, _, _)
        | Union::Unit(_, _, _)
        | Union::Bool(_, _, _)
        | Union::Char(_, _, _)
        | Union::Int(_, _, _)
        | Union::Variant(_, _, _)
        | Union::Shared(_, _, _) => 0,
    }
}
