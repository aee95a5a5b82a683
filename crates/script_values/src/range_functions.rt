//! Functions on ranges and function pointers. None changes its receiver.

use crate::argument_values::{Arguments, int};
use crate::bounds::bounds_of;
use rhai_packs::ranges;
use rhai_value::{Dynamic, ExclusiveRange, FnPtr, INT, InclusiveRange, Store};
use script_faults::{FaultKind, Means};
use script_natives::{PointerFunction, RangeFunction};

/// The prefix of an anonymous function's name.
const ANONYMOUS: &str = "anon$";

/// Calls a function on a range, if there is one and the value is one.
pub(crate) fn ask_range(
    function: Option<RangeFunction>,
    store: &Store,
    value: &Dynamic,
    arguments: &Arguments,
) -> Result<Option<Dynamic>, FaultKind> {
    let (Some(function), Some(bounds)) = (function, bounds_of(value, store)) else {
        return Ok(None);
    };
    let answer = match function {
        RangeFunction::Start => Dynamic::from_int(bounds.start),
        RangeFunction::End => Dynamic::from_int(bounds.end),
        RangeFunction::IsInclusive => Dynamic::from_bool(bounds.is_inclusive),
        RangeFunction::IsExclusive => Dynamic::from_bool(!bounds.is_inclusive),
        RangeFunction::IsEmpty => Dynamic::from_bool(is_empty(value, store)),
        RangeFunction::Contains => {
            Dynamic::from_bool(contains(value, int(&arguments.first, store)?, store))
        }
    };
    Ok(Some(answer))
}

/// Whether a range contains no int.
fn is_empty(value: &Dynamic, store: &Store) -> bool {
    if let Ok(range) = value.as_part::<ExclusiveRange>(store) {
        return ranges::is_empty(range);
    }
    match value.as_part::<InclusiveRange>(store) {
        Ok(range) => ranges::is_empty_with_end(range),
        Err(_) => false,
    }
}

/// Whether a range contains an int.
fn contains(value: &Dynamic, number: INT, store: &Store) -> bool {
    if let Ok(range) = value.as_part::<ExclusiveRange>(store) {
        return ranges::contains(range, number);
    }
    match value.as_part::<InclusiveRange>(store) {
        Ok(range) => ranges::contains_with_end(range, number),
        Err(_) => false,
    }
}

/// Calls a function on a function pointer, if there is one.
pub(crate) fn ask_pointer(
    function: Option<PointerFunction>,
    means: &Means,
    pointer: &FnPtr,
) -> Result<Option<Dynamic>, FaultKind> {
    match function {
        Some(PointerFunction::Name) => {
            Ok(Some(Dynamic::from_text(means.alloc, pointer.fn_name())?))
        }
        Some(PointerFunction::IsAnonymous) => {
            Ok(Some(Dynamic::from_bool(pointer.fn_name().starts_with(ANONYMOUS))))
        }
        None => Ok(None),
    }
}
