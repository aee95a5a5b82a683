//! Reading at a place inside a value.

use crate::find::{Found, find};
use rhai_value::{Dynamic, Store};
use script_faults::{FaultKind, Key, Means};

/// What went wrong on the path to a place, and at which key: the number of keys before it.
#[derive(Drop)]
pub struct PlaceFault {
    /// The number of the key in the list.
    pub step: usize,
    /// What went wrong.
    pub kind: FaultKind,
}

/// Follows the keys from a value: finds a value inside it, or makes a new one. A key that a map
/// lacks leads to unit.
/// Errors: the first key that leads nowhere, and why.
/// Cost: that of `Dynamic::held` and of a look-up for each key.
pub fn look<'s>(
    means: &Means,
    store: &'s Store,
    source: &'s Dynamic,
    keys: &[Key<'_>],
) -> Result<Found<'s>, PlaceFault> {
    let mut place = source;
    for (step, key) in keys.iter().enumerate() {
        match find(means, store, place, key) {
            Ok(Found::Item(item)) => place = item,
            Ok(Found::Made(value)) => {
                return match read_on(means, store, value, keys, step) {
                    Ok(value) => Ok(Found::Made(value)),
                    Err(fault) => Err(fault),
                };
            }
            Err(kind) => return Err(PlaceFault { step, kind }),
        }
    }
    Ok(Found::Item(place))
}

/// Reads the value that the keys lead to, as `look` finds it: a copy that is no holder.
/// Errors: the first key that leads nowhere, and why.
/// Cost: that of `look`, and the copy.
/// rhai: an expression with indices and properties.
pub fn read(
    means: &Means,
    store: &Store,
    source: &Dynamic,
    keys: &[Key<'_>],
) -> Result<Dynamic, PlaceFault> {
    match look(means, store, source, keys) {
        Ok(Found::Item(item)) => match item.flatten_clone(means.alloc, store) {
            Ok(value) => Ok(value),
            Err(error) => Err(PlaceFault {
                step: 0,
                kind: FaultKind::from(error),
            }),
        },
        Ok(Found::Made(value)) => Ok(value),
        Err(fault) => Err(fault),
    }
}

/// Continues from a new value, which was made for the key of this number.
fn read_on(
    means: &Means,
    store: &Store,
    made: Dynamic,
    keys: &[Key<'_>],
    gone: usize,
) -> Result<Dynamic, PlaceFault> {
    let mut value = made;
    for (step, key) in keys.iter().enumerate() {
        if step > gone {
            value = match read_part(means, store, &value, key) {
                Ok(part) => part,
                Err(kind) => return Err(PlaceFault { step, kind }),
            };
        }
    }
    Ok(value)
}

/// Reads one part of a value.
fn read_part(
    means: &Means,
    store: &Store,
    source: &Dynamic,
    key: &Key<'_>,
) -> Result<Dynamic, FaultKind> {
    match find(means, store, source, key)? {
        Found::Item(item) => Ok(item.flatten_clone(means.alloc, store)?),
        Found::Made(value) => Ok(value),
    }
}
