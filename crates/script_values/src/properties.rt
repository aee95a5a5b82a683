//! Properties of values other than maps: functions without arguments, read like fields.

use crate::argument_values::Arguments;
use crate::natives::{ask_held, without_arguments};
use crate::walks::native_cost;
use rhai_value::{Dynamic, Store, Union};
use script_faults::{FaultKind, Means, values_cost};

/// Whether a function of this name is a property, too.
fn is_property(name: &str) -> bool {
    matches!(
        name,
        "len"
            | "is_empty"
            | "bytes"
            | "chars"
            | "bits"
            | "is_odd"
            | "is_even"
            | "is_zero"
            | "start"
            | "end"
            | "is_inclusive"
            | "is_exclusive"
            | "name"
            | "is_anonymous"
    )
}

/// Reads a property of a value that is no holder.
/// Errors: values of its type have no such property.
pub(crate) fn property(
    means: &Means,
    store: &Store,
    held: &Dynamic,
    name: &str,
) -> Result<Dynamic, FaultKind> {
    if is_property(name) {
        let none = Arguments::none();
        let native = without_arguments(held, name);
        if let Some(value) = ask_held(&native, means, store, held, &none)? {
            return Ok(value);
        }
    }
    Err(FaultKind::NoParts(held.type_name(store)))
}

/// Returns the size of the result of reading a property, in operations.
pub(crate) fn property_cost(means: &Means, store: &Store, held: &Dynamic, name: &str) -> u64 {
    if !is_property(name) {
        return 0;
    }
    let none = Arguments::none();
    let native = without_arguments(held, name);
    let cost = native_cost(&native, means, store, held, &none, u64::MAX);
    cost.unwrap_or(0).saturating_add(made_cost(held, name))
}

/// Returns the size of the array that a property makes.
fn made_cost(held: &Dynamic, name: &str) -> u64 {
    let Union::Str(_, _, text) = held.parts() else {
        return 0;
    };
    if name == "chars" {
        values_cost(text.char_count())
    } else {
        0
    }
}
