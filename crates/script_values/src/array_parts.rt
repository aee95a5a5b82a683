//! Parts that are removed from arrays.

use crate::argument_values::{Arguments, int, mismatched_range};
use crate::bounds::{bounds_of, piece_of};
use rhai_packs::arrays;
use rhai_value::{Array, Dynamic, INT, Store};
use script_faults::{FaultKind, Means};
use script_natives::ArrayChange;

/// Returns where a part begins, and how many items it has: those of a range, or a number of them
/// from an index on.
fn part_of(
    change: ArrayChange,
    arguments: &Arguments,
    store: &Store,
) -> Result<(INT, INT), FaultKind> {
    let first = &arguments.first;
    if let ArrayChange::DrainSome | ArrayChange::RetainSome = change {
        return Ok((int(first, store)?, int(&arguments.second, store)?));
    }
    match bounds_of(first, store) {
        Some(bounds) => Ok(piece_of(bounds)),
        None => Err(mismatched_range(first, store)),
    }
}

/// Removes the items of a part from an array, or all others, and returns them.
pub(crate) fn part_out(
    change: ArrayChange,
    means: &Means,
    store: &Store,
    items: &mut Array,
    arguments: &Arguments,
) -> Result<Dynamic, FaultKind> {
    let (index, count) = part_of(change, arguments, store)?;
    let removed = if let ArrayChange::Drain | ArrayChange::DrainSome = change {
        arrays::drain(means.alloc, items, index, count)?
    } else {
        arrays::retain(means.alloc, items, index, count)?
    };
    Ok(Dynamic::from_array(removed))
}
