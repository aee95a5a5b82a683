//! The cost of functions of the packages, in operations.

use crate::argument_values::Arguments;
use crate::bounds::{bounds_of, piece_of, span_of};
use crate::small_walks::{blob_cost, char_cost, int_cost, pointer_cost};
use crate::text_walks::text_cost;
use rhai_value::{Array, Dynamic, INT, Map, Store, Union};
use script_faults::{
    FaultKind, Means, bytes_cost, copies_cost, copy_cost, entries_cost, operations_of, print_cost,
    values_cost, walk_cost, walks_cost,
};
use script_natives::{
    AnyFunction, ArrayChange, ArrayFunction, ArrayQuestion, MapChange, MapFunction, MapQuestion,
    Native,
};

/// What counting operations needs besides values.
#[derive(Clone, Copy)]
pub(crate) struct Counting<'c> {
    pub(crate) means: &'c Means,
    pub(crate) store: &'c Store,
    /// Counting stops once the result is more than this.
    pub(crate) most: u64,
}

/// Counts the operations that a call costs in addition to itself: nothing if that is at most a
/// constant; the receiver's own items or bytes if these are moved or searched; the receiver and
/// arguments with everything in them if they are compared, printed or copied; as many items or
/// bytes as an argument says. The size of the result isn't counted, nor what is dropped. Stops
/// counting once the result is more than `most`.
/// Errors: what is visited in cells is more than an array may have items; the allocation of a
/// list fails.
/// Cost: the number of values that are counted.
pub fn native_cost(
    native: &Native,
    means: &Means,
    store: &Store,
    receiver: &Dynamic,
    arguments: &Arguments,
    most: u64,
) -> Result<u64, FaultKind> {
    let Some(held) = receiver.held(store) else {
        return Ok(0);
    };
    let counting = Counting { means, store, most };
    let known = match held.parts() {
        Union::Array(_, _, items) => array_cost(native.array, &counting, items, arguments)?,
        Union::Map(_, _, map) => map_cost(native.map, &counting, held, map, arguments)?,
        Union::Str(_, _, text) => text_cost(native.text, &counting, text, arguments)?,
        Union::Blob(_, _, bytes) => blob_cost(native.blob, &counting, bytes, arguments),
        Union::Int(_, _, number) => int_cost(native.int, *number),
        Union::Char(_, _, _) => char_cost(native.character),
        Union::FnPtr(_, _, pointer) => pointer_cost(native.pointer, pointer),
        Union::Unit(_, _, _)
        | Union::Bool(_, _, _)
        | Union::Variant(_, _, _)
        | Union::Shared(_, _, _) => None,
    };
    match known {
        Some(cost) => Ok(cost),
        None => any_cost(native.any, &counting, held),
    }
}

fn any_cost(
    function: Option<AnyFunction>,
    counting: &Counting<'_>,
    held: &Dynamic,
) -> Result<u64, FaultKind> {
    match function {
        Some(AnyFunction::ToString | AnyFunction::ToDebug) => {
            print_cost(counting.means, counting.store, held, counting.most)
        }
        Some(AnyFunction::TypeOf) | None => Ok(0),
    }
}

/// The part of a list that a function extracts: where it begins, and how many items it has.
#[derive(Clone, Copy)]
pub(crate) struct Span {
    pub(crate) start: usize,
    pub(crate) length: usize,
}

/// Returns this many items from an index on, as far as there are any.
pub(crate) fn span_at(count: usize, index: INT, length: INT) -> Span {
    let distance = index.unsigned_abs() as usize;
    let start = if index < 0 {
        count.saturating_sub(distance)
    } else {
        distance.min(count)
    };
    Span {
        start,
        length: usize::try_from(length)
            .unwrap_or(0)
            .min(count.saturating_sub(start)),
    }
}

/// Returns the items from an index on, or those of a range; none if the argument is neither.
pub(crate) fn span_from(count: usize, from: &Dynamic, store: &Store) -> Span {
    if let Some(bounds) = bounds_of(from, store) {
        return match span_of(bounds, count) {
            Ok((start, length)) => span_at(count, start, length),
            Err(_) => span_at(count, 0, 0),
        };
    }
    match from.as_int(store) {
        Ok(index) => span_at(count, index, INT::MAX),
        Err(_) => span_at(count, 0, 0),
    }
}

/// Returns a number of items from an index on, both given as arguments; none if they are not ints.
pub(crate) fn span_between(count: usize, arguments: &Arguments, store: &Store) -> Span {
    let (Ok(index), Ok(length)) = (
        arguments.first.as_int(store),
        arguments.second.as_int(store),
    ) else {
        return span_at(count, 0, 0);
    };
    span_at(count, index, length)
}

/// Returns how many more items or characters than this an int requests.
pub(crate) fn missing(count: usize, wanted: &Dynamic, store: &Store) -> u64 {
    let wanted = wanted.as_int(store).unwrap_or(0);
    u64::try_from(wanted)
        .unwrap_or(0)
        .saturating_sub(count as u64)
}

fn array_cost(
    function: Option<ArrayFunction>,
    counting: &Counting<'_>,
    items: &Array,
    arguments: &Arguments,
) -> Result<Option<u64>, FaultKind> {
    let cost = match function {
        Some(ArrayFunction::Ask(question)) => {
            array_question_cost(question, counting, items, arguments)?
        }
        Some(ArrayFunction::Change(change)) => {
            array_change_cost(change, counting, items, arguments)?
        }
        None => return Ok(None),
    };
    Ok(Some(cost))
}

fn array_question_cost(
    question: ArrayQuestion,
    counting: &Counting<'_>,
    items: &Array,
    arguments: &Arguments,
) -> Result<u64, FaultKind> {
    let store = counting.store;
    let first = &arguments.first;
    match question {
        ArrayQuestion::Len | ArrayQuestion::IsEmpty => Ok(0),
        ArrayQuestion::Get => {
            let index = first.as_int(store).unwrap_or(INT::MAX);
            match rhai_packs::arrays::get(items, index) {
                Some(item) => held_copy_cost(counting, item),
                None => Ok(0),
            }
        }
        ArrayQuestion::Extract => span_cost(counting, items, span_from(items.len(), first, store)),
        ArrayQuestion::ExtractSome => {
            span_cost(counting, items, span_between(items.len(), arguments, store))
        }
        ArrayQuestion::Contains | ArrayQuestion::IndexOf => sought_cost(counting, items, first),
        ArrayQuestion::IndexOfFrom => {
            let span = span_from(items.len(), &arguments.second, store);
            let copied = span_cost(counting, items, span)?;
            Ok(sought_cost(counting, items, first)?.saturating_add(copied))
        }
    }
}

/// Returns the cost of searching for a value among items.
fn sought_cost(counting: &Counting<'_>, items: &Array, value: &Dynamic) -> Result<u64, FaultKind> {
    let (means, store, most) = (counting.means, counting.store, counting.most);
    let wanted = walk_cost(means, store, value, most)?;
    Ok(wanted.saturating_add(walks_cost(means, store, items.as_slice(), most)?))
}

/// Returns the cost of copying the value held by a value.
fn held_copy_cost(counting: &Counting<'_>, value: &Dynamic) -> Result<u64, FaultKind> {
    match value.held(counting.store) {
        Some(held) => Ok(copy_cost(counting.means.alloc, held, counting.most)?),
        None => Ok(0),
    }
}

/// Returns the cost of copying the items of a span.
fn span_cost(counting: &Counting<'_>, items: &Array, span: Span) -> Result<u64, FaultKind> {
    let end = span.start.saturating_add(span.length);
    match items.as_slice().get(span.start..end) {
        Some(part) => Ok(copies_cost(counting.means.alloc, part, counting.most)?),
        None => Ok(0),
    }
}

fn array_change_cost(
    change: ArrayChange,
    counting: &Counting<'_>,
    items: &Array,
    arguments: &Arguments,
) -> Result<u64, FaultKind> {
    let (means, store, most) = (counting.means, counting.store, counting.most);
    let own = values_cost(items.len());
    match change {
        ArrayChange::Set
        | ArrayChange::Push
        | ArrayChange::Pop
        | ArrayChange::Clear
        | ArrayChange::Truncate => Ok(0),
        ArrayChange::Insert
        | ArrayChange::Shift
        | ArrayChange::Remove
        | ArrayChange::Chop
        | ArrayChange::Reverse
        | ArrayChange::Split => Ok(own),
        ArrayChange::Append => match arguments.first.as_array_ref(store) {
            Ok(more) => Ok(values_cost(more.len())),
            Err(_) => Ok(0),
        },
        ArrayChange::Pad => {
            let item = copy_cost(means.alloc, &arguments.second, most)?;
            let more = missing(items.len(), &arguments.first, store);
            Ok(operations_of(more).saturating_add(item.saturating_mul(more)))
        }
        ArrayChange::SpliceRange => {
            Ok(own.saturating_add(copy_cost(means.alloc, &arguments.second, most)?))
        }
        ArrayChange::Splice => {
            Ok(own.saturating_add(copy_cost(means.alloc, &arguments.third, most)?))
        }
        ArrayChange::Drain | ArrayChange::DrainSome => {
            let span = part_span(items.len(), arguments, store);
            Ok(own.saturating_add(span_cost(counting, items, span)?))
        }
        ArrayChange::Retain | ArrayChange::RetainSome => {
            let whole = span_at(items.len(), 0, INT::MAX);
            let copied = span_cost(counting, items, whole)?;
            Ok(copied.saturating_mul(2).saturating_add(own))
        }
        ArrayChange::Dedup => walks_cost(means, store, items.as_slice(), most),
        ArrayChange::Sort => {
            let once = walks_cost(means, store, items.as_slice(), most)?;
            Ok(once.saturating_mul(rounds_of(items.len())))
        }
    }
}

/// Returns the items of a range, or a number of them from an index on, as the arguments say.
fn part_span(count: usize, arguments: &Arguments, store: &Store) -> Span {
    match bounds_of(&arguments.first, store) {
        Some(bounds) => {
            let (start, length) = piece_of(bounds);
            span_at(count, start, length)
        }
        None => span_between(count, arguments, store),
    }
}

/// Returns how often sorting compares each of this many items: the bit length of their number.
fn rounds_of(count: usize) -> u64 {
    u64::from(usize::BITS.saturating_sub(count.leading_zeros()))
}

fn map_cost(
    function: Option<MapFunction>,
    counting: &Counting<'_>,
    held: &Dynamic,
    map: &Map,
    arguments: &Arguments,
) -> Result<Option<u64>, FaultKind> {
    let alloc = counting.means.alloc;
    let first = &arguments.first;
    let cost = match function {
        Some(MapFunction::Ask(MapQuestion::Len | MapQuestion::IsEmpty)) => 0,
        Some(MapFunction::Ask(MapQuestion::Contains)) => key_cost(first, counting.store),
        Some(MapFunction::Ask(MapQuestion::Get)) => {
            let found = match first.as_immutable_string_ref(counting.store) {
                Ok(key) => match map.get(key.as_str()) {
                    Some(value) => held_copy_cost(counting, value)?,
                    None => 0,
                },
                Err(_) => 0,
            };
            found.saturating_add(key_cost(first, counting.store))
        }
        Some(MapFunction::Ask(MapQuestion::Keys | MapQuestion::Values)) => {
            // (and one operation for each key)
            copy_cost(alloc, held, counting.most)?.saturating_add(map.len() as u64)
        }
        Some(MapFunction::Ask(MapQuestion::ToJson)) => {
            let walked = walk_cost(counting.means, counting.store, held, counting.most)?;
            walked.saturating_mul(4)
        }
        Some(MapFunction::Change(MapChange::Set | MapChange::Remove)) => {
            key_cost(first, counting.store)
        }
        Some(MapFunction::Change(MapChange::Clear)) => 0,
        Some(MapFunction::Change(MapChange::MixIn | MapChange::FillWith)) => {
            let count = match first.as_map_ref(counting.store) {
                Ok(more) => more.len(),
                Err(_) => 0,
            };
            copy_cost(alloc, first, counting.most)?.saturating_add(entries_cost(count))
        }
        None => return Ok(None),
    };
    Ok(Some(cost))
}

/// Returns the cost of looking up a key.
pub(crate) fn key_cost(key: &Dynamic, store: &Store) -> u64 {
    match key.as_immutable_string_ref(store) {
        Ok(key) => bytes_cost(key.len()),
        Err(_) => 0,
    }
}
