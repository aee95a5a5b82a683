//! Functions on arrays.

use crate::argument_values::{Arguments, array, count, int, or_unit, place_or_none};
use crate::array_parts::part_out;
use crate::bounds::{bounds_of, span_of};
use crate::walks::span_at;
use rhai_packs::arrays;
use rhai_text::SizeKind;
use rhai_value::{Array, Dynamic, INT, Store};
use script_faults::{FaultKind, Means, check_all_ways, check_size, check_ways, cost_of};
use script_natives::{ArrayChange, ArrayFunction, ArrayQuestion};

/// Calls a function that doesn't change an array, if it is one.
pub(crate) fn ask_array(
    function: Option<ArrayFunction>,
    means: &Means,
    store: &Store,
    items: &Array,
    arguments: &Arguments,
) -> Result<Option<Dynamic>, FaultKind> {
    match function {
        Some(ArrayFunction::Ask(question)) => {
            Ok(Some(array_answer(question, means, store, items, arguments)?))
        }
        Some(ArrayFunction::Change(_)) | None => Ok(None),
    }
}

fn array_answer(
    question: ArrayQuestion,
    means: &Means,
    store: &Store,
    items: &Array,
    arguments: &Arguments,
) -> Result<Dynamic, FaultKind> {
    let first = &arguments.first;
    match question {
        ArrayQuestion::Len => Ok(count(arrays::len(items))),
        ArrayQuestion::IsEmpty => Ok(Dynamic::from_bool(arrays::is_empty(items))),
        ArrayQuestion::Get => item_at(means, store, items, int(first, store)?),
        ArrayQuestion::Extract => extract_from(means, store, items, first),
        ArrayQuestion::ExtractSome => {
            extracted(
                means,
                items,
                int(first, store)?,
                int(&arguments.second, store)?,
            )
        }
        ArrayQuestion::Contains => Ok(Dynamic::from_bool(place_of(
            means, store, items, first,
        )?.is_some())),
        ArrayQuestion::IndexOf => Ok(place_or_none(place_of(means, store, items, first)?)),
        ArrayQuestion::IndexOfFrom => {
            let start = int(&arguments.second, store)?;
            Ok(place_or_none(place_from(means, store, items, first, start)?))
        }
    }
}

/// Returns the index of the first item that is equal to a value.
fn place_of(
    means: &Means,
    store: &Store,
    items: &Array,
    wanted: &Dynamic,
) -> Result<Option<usize>, FaultKind> {
    check_ways(means, store, wanted)?;
    check_all_ways(means, store, items.as_slice())?;
    Ok(arrays::index_of(means.alloc, items, store, wanted)?)
}

/// Returns the index of the first item, from an index on, that is equal to a value.
fn place_from(
    means: &Means,
    store: &Store,
    items: &Array,
    wanted: &Dynamic,
    index: INT,
) -> Result<Option<usize>, FaultKind> {
    let start = span_at(items.len(), index, INT::MAX).start;
    let rest = arrays::extract(means.alloc, items, index, INT::MAX)?;
    match place_of(means, store, &rest, wanted)? {
        Some(place) => Ok(Some(start.saturating_add(place))),
        None => Ok(None),
    }
}

fn item_at(means: &Means, store: &Store, items: &Array, index: INT) -> Result<Dynamic, FaultKind> {
    match arrays::get(items, index) {
        Some(item) => Ok(item.flatten_clone(means.alloc, store)?),
        None => Ok(Dynamic::UNIT),
    }
}

/// Copies the items from an index on, or those of a range.
fn extract_from(
    means: &Means,
    store: &Store,
    items: &Array,
    from: &Dynamic,
) -> Result<Dynamic, FaultKind> {
    match bounds_of(from, store) {
        Some(bounds) => {
            let (start, length) = span_of(bounds, items.len())?;
            extracted(means, items, start, length)
        }
        None => extracted(means, items, int(from, store)?, INT::MAX),
    }
}

fn extracted(means: &Means, items: &Array, start: INT, length: INT) -> Result<Dynamic, FaultKind> {
    let part = arrays::extract(means.alloc, items, start, length)?;
    Ok(Dynamic::from_array(part))
}

/// Changes an array, and returns the result. If an allocation fails, the arguments are unchanged.
pub(crate) fn change_array(
    change: ArrayChange,
    means: &Means,
    store: &Store,
    items: &mut Array,
    arguments: &mut Arguments,
) -> Result<Dynamic, FaultKind> {
    let limits = &means.limits;
    let first = &mut arguments.first;
    match change {
        ArrayChange::Set => {
            arrays::set(items, int(first, store)?, arguments.second.take());
        }
        ArrayChange::Push => {
            items.reserve(1)?;
            arrays::push(items, limits, first.take())?;
        }
        ArrayChange::Append => append(means, store, items, first)?,
        ArrayChange::Insert => {
            let index = int(first, store)?;
            items.reserve(1)?;
            arrays::insert(items, limits, index, arguments.second.take())?;
        }
        ArrayChange::Pad => pad(means, items, int(first, store)?, &arguments.second)?,
        ArrayChange::Pop => return Ok(or_unit(arrays::pop(items))),
        ArrayChange::Shift => return Ok(or_unit(arrays::shift(items))),
        ArrayChange::Remove => return Ok(or_unit(arrays::remove(items, int(first, store)?))),
        ArrayChange::Clear => arrays::clear(items),
        ArrayChange::Truncate => arrays::truncate(items, int(first, store)?),
        ArrayChange::Chop => arrays::chop(items, int(first, store)?),
        ArrayChange::Reverse => arrays::reverse(items),
        ArrayChange::Split => {
            return Ok(Dynamic::from_array(arrays::split(items, int(first, store)?)?));
        }
        ArrayChange::SpliceRange | ArrayChange::Splice => splice(means, store, items, arguments)?,
        ArrayChange::Dedup => {
            check_all_ways(means, store, items.as_slice())?;
            arrays::dedup(means.alloc, items, store)?;
        }
        ArrayChange::Sort => arrays::sort(items, store)?,
        ArrayChange::Drain
        | ArrayChange::DrainSome
        | ArrayChange::Retain
        | ArrayChange::RetainSome => return part_out(change, means, store, items, arguments),
    }
    Ok(Dynamic::UNIT)
}

/// Appends the items of an argument.
fn append(
    means: &Means,
    store: &Store,
    items: &mut Array,
    argument: &mut Dynamic,
) -> Result<(), FaultKind> {
    let mut more = array(argument, store)?;
    match arrays::append(items, &means.limits, &mut more) {
        Ok(()) => Ok(()),
        Err(error) => {
            *argument = Dynamic::from_array(more);
            Err(FaultKind::from(error))
        }
    }
}

/// Replaces the items from an index on, or those of a range, by the items of the last argument.
fn splice(
    means: &Means,
    store: &Store,
    items: &mut Array,
    arguments: &mut Arguments,
) -> Result<(), FaultKind> {
    let (start, length, mut last) = match bounds_of(&arguments.first, store) {
        Some(bounds) => {
            let (start, length) = span_of(bounds, items.len())?;
            (start, length, arguments.second.copy(means.alloc)?)
        }
        None => (
            int(&arguments.first, store)?,
            int(&arguments.second, store)?,
            arguments.third.copy(means.alloc)?,
        ),
    };
    let more = array(&mut last, store)?;
    Ok(arrays::splice(items, &means.limits, start, length, more)?)
}

fn pad(means: &Means, items: &mut Array, count: INT, item: &Dynamic) -> Result<(), FaultKind> {
    may_repeat(means, items.len(), count, item)?;
    Ok(arrays::pad(means.alloc, items, &means.limits, count, item)?)
}

/// Whether appending this many copies of a value is allowed: the values inside it count, too.
fn may_repeat(means: &Means, length: usize, count: INT, item: &Dynamic) -> Result<(), FaultKind> {
    let more = u64::try_from(count)
        .unwrap_or(0)
        .saturating_sub(length as u64);
    let cost = cost_of(means.alloc, item)?.saturating_mul(more);
    let cost = usize::try_from(cost).unwrap_or(usize::MAX);
    check_size(means.limits.items, cost, SizeKind::Items)
}
