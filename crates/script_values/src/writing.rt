//! Writing at a place inside a value.

use crate::argument_values::Arguments;
use crate::assigning::{Assignment, assign};
use crate::binary_operators::binary;
use crate::find::part_at;
use crate::map_functions::check_entry;
use crate::natives::change_native;
use crate::reading::PlaceFault;
use rhai_packs::maps;
use rhai_target::{ReadPart, calc_index};
use rhai_text::{ImmutableString, Position, SizeKind};
use rhai_value::{Array, Dynamic, INT, Map, Part, PlaceError, PlaceErrorKind, Step, Store, Union};
use script_faults::{FaultKind, Key, Means, check_size, in_use, index_in, mismatch, name_in};
use script_natives::Native;

/// What is written at a place.
#[derive(Drop)]
pub enum Change {
    /// This value.
    Set(Dynamic),
    /// An operator's result for the present value and this one.
    Assign(Assignment, Dynamic),
}

/// Writes to the place that the keys lead to from a value. The last key may lead to a part of a
/// text, a blob or an int, or to a key that a map lacks, which is then added; those before it lead
/// through arrays and maps. The value is moved out of the change.
/// Errors: the key that leads nowhere, and why, or the last part's refusal; the place is unchanged
/// then. If an allocation fails, the change still has its value.
/// Cost: that of `Dynamic::with_place`, and of the change.
/// rhai: an assignment to a chain of indices and properties.
pub fn write(
    means: &Means,
    store: &mut Store,
    root: &mut Dynamic,
    keys: &[Key<'_>],
    change: &mut Change,
) -> Result<(), PlaceFault> {
    let Some((last, front)) = keys.split_last() else {
        return write_whole(means, store, root, change);
    };
    let at = front.len();
    if front.is_empty() {
        let done = root.with_held(
            store,
            |held, store| write_part(means, store, held, last, change),
        );
        return match done {
            Ok(done) => done_at(done, at),
            Err(_) => Err(PlaceFault {
                step: 0,
                kind: in_use(),
            }),
        };
    }
    let steps = steps_of(means, store, front)?;
    let done = root.with_place(store, steps.as_slice(), |held, store| {
        write_part(means, store, held, last, change)
    });
    match done {
        Ok(done) => done_at(done, at),
        Err(error) => Err(fault_on_way(error, front, store)),
    }
}

/// Calls a function that may change its receiver, on the value that the keys lead to through arrays
/// and maps; `None` if the type of that value has no such function.
/// Errors: the key that leads nowhere, and why, or those of the function.
/// Cost: that of `Dynamic::with_place`, and of the function.
pub fn change_at(
    means: &Means,
    store: &mut Store,
    root: &mut Dynamic,
    keys: &[Key<'_>],
    native: Native,
    arguments: &mut Arguments,
) -> Result<Option<Dynamic>, PlaceFault> {
    let steps = steps_of(means, store, keys)?;
    let done = root.with_place(store, steps.as_slice(), |held, store| {
        change_native(&native, means, store, held, arguments)
    });
    match done {
        Ok(Ok(answer)) => Ok(answer),
        Ok(Err(kind)) => Err(PlaceFault {
            step: keys.len(),
            kind,
        }),
        Err(error) => Err(fault_on_way(error, keys, store)),
    }
}

/// Returns the result of the last step.
fn done_at(done: Result<(), FaultKind>, step: usize) -> Result<(), PlaceFault> {
    match done {
        Ok(()) => Ok(()),
        Err(kind) => Err(PlaceFault { step, kind }),
    }
}

/// Writes to a value itself.
fn write_whole(
    means: &Means,
    store: &mut Store,
    root: &mut Dynamic,
    change: &mut Change,
) -> Result<(), PlaceFault> {
    done_at(write_item(means, store, root, change), 0)
}

/// Writes to an item, or to the value that it holds.
fn write_item(
    means: &Means,
    store: &mut Store,
    item: &mut Dynamic,
    change: &mut Change,
) -> Result<(), FaultKind> {
    match change {
        Change::Set(value) => set_item(store, item, value),
        Change::Assign(op, value) => assign(*op, means, store, item, value),
    }
}

fn set_item(store: &mut Store, item: &mut Dynamic, value: &mut Dynamic) -> Result<(), FaultKind> {
    match item.held_mut(store) {
        Some(held) => {
            *held = value.take();
            Ok(())
        }
        None => Err(in_use()),
    }
}

/// Converts keys to steps. Errors: one that leads to no item and no key.
fn steps_of<'k>(
    means: &Means,
    store: &Store,
    keys: &[Key<'k>],
) -> Result<Vec<Step<'k>>, PlaceFault> {
    let mut steps = Vec::new(means.alloc);
    for (step, key) in keys.iter().enumerate() {
        let kind = match step_of(key, store) {
            Ok(down) => match steps.push(down) {
                Ok(()) => continue,
                Err(refused) => FaultKind::from(refused),
            },
            Err(kind) => kind,
        };
        return Err(PlaceFault { step, kind });
    }
    Ok(steps)
}

/// Converts a key to a step, by the value of the key itself.
fn step_of<'k>(key: &Key<'k>, store: &Store) -> Result<Step<'k>, FaultKind> {
    match *key {
        Key::Name(name) => Ok(Step::Key(name)),
        Key::Index(index) => {
            if let Some(number) = INT::own(index) {
                return Ok(Step::Index(*number));
            }
            match ImmutableString::own(index) {
                Some(text) => Ok(Step::Key(text.as_str())),
                None => Err(mismatch("i64", index.type_name(store))),
            }
        }
    }
}

/// Makes the fault for a step that failed.
fn fault_on_way(error: PlaceError, keys: &[Key<'_>], store: &Store) -> PlaceFault {
    let kind = match error.kind {
        PlaceErrorKind::Barred | PlaceErrorKind::Lost => in_use(),
        PlaceErrorKind::OtherType(found) => FaultKind::NoParts(found.name()),
        PlaceErrorKind::NoItem(count) => FaultKind::OutOfRange(
            number_at(keys, error.step, store),
            count,
        ),
        PlaceErrorKind::NoKey => FaultKind::NoKey,
        PlaceErrorKind::TooFar => FaultKind::TooFar,
    };
    PlaceFault {
        step: error.step,
        kind,
    }
}

/// Returns the int of the key with this number.
fn number_at(keys: &[Key<'_>], step: usize, store: &Store) -> INT {
    match keys.get(step) {
        Some(Key::Index(index)) => index.as_int(store).unwrap_or(0),
        Some(Key::Name(_)) | None => 0,
    }
}

/// Writes to the part at one key of a value that is no holder.
fn write_part(
    means: &Means,
    store: &mut Store,
    source: &mut Dynamic,
    key: &Key<'_>,
    change: &mut Change,
) -> Result<(), FaultKind> {
    if let Some(items) = Array::own_mut(source) {
        return write_in_array(means, store, items, key, change);
    }
    if let Some(map) = Map::own_mut(source) {
        return write_in_map(means, store, map, key, change);
    }
    let part = part_at(means, store, source, key)?;
    let value = match change {
        Change::Set(value) => value.copy(means.alloc)?,
        Change::Assign(op, value) => binary(op.plain, means, store, &part.value, value)?,
    };
    check_written(means, source, &part.value, &value)?;
    let part = ReadPart {
        place: part.place,
        value,
    };
    Ok(part.write_back(source, means.alloc, store, Position::NONE)?)
}

/// Fails if writing a value over a part of a text would make the text too long, and longer than
/// before.
fn check_written(
    means: &Means,
    source: &Dynamic,
    part: &Dynamic,
    value: &Dynamic,
) -> Result<(), FaultKind> {
    let Union::Str(_, _, text) = source.parts() else {
        return Ok(());
    };
    let rest = text.len().saturating_sub(length_in_text(part));
    let length = rest.saturating_add(length_in_text(value));
    if length > text.len() {
        check_size(means.limits.text, length, SizeKind::Text)?;
    }
    Ok(())
}

/// Returns how many bytes a text or a character adds to a text.
fn length_in_text(value: &Dynamic) -> usize {
    match value.parts() {
        Union::Str(_, _, text) => text.len(),
        Union::Char(_, _, character) => character.len_utf8(),
        Union::Array(_, _, _)
        | Union::Map(_, _, _)
        | Union::Blob(_, _, _)
        | Union::FnPtr(_, _, _)
        | Union::Unit(_, _, _)
        | Union::Bool(_, _, _)
        | Union::Int(_, _, _)
        | Union::Variant(_, _, _)
        | Union::Shared(_, _, _) => 0,
    }
}

fn write_in_array(
    means: &Means,
    store: &mut Store,
    items: &mut Array,
    key: &Key<'_>,
    change: &mut Change,
) -> Result<(), FaultKind> {
    let index = index_in(key, store, "array")?;
    let count = items.len();
    match item_mut(items, index) {
        Some(item) => write_item(means, store, item, change),
        None => Err(FaultKind::OutOfRange(index, count)),
    }
}

/// Borrows mutably the item at an index; a negative one counts from the end.
fn item_mut(items: &mut Array, index: INT) -> Option<&mut Dynamic> {
    let place = calc_index(items.len(), index, true)?;
    items.get_mut(place)
}

fn write_in_map(
    means: &Means,
    store: &mut Store,
    map: &mut Map,
    key: &Key<'_>,
    change: &mut Change,
) -> Result<(), FaultKind> {
    match *key {
        Key::Name(name) => write_at_name(means, store, map, name, change),
        Key::Index(index) => {
            let name = match index.as_immutable_string_ref(store) {
                Ok(text) => text.copy(means.alloc)?,
                Err(found) => return Err(mismatch("string", found)),
            };
            write_at_name(means, store, map, name.as_str(), change)
        }
    }
}

fn write_at_name(
    means: &Means,
    store: &mut Store,
    map: &mut Map,
    name: &str,
    change: &mut Change,
) -> Result<(), FaultKind> {
    if let Some(value) = map.get_mut(name) {
        return write_item(means, store, value, change);
    }
    if let Change::Assign(op, value) = change {
        let mut nothing = Dynamic::UNIT;
        assign(*op, means, store, &mut nothing, value)?;
    }
    check_entry(means, map, name)?;
    maps::set(map, name, Dynamic::UNIT)?;
    match map.get_mut(name) {
        Some(made) => write_item(means, store, made, change),
        None => Ok(()),
    }
}
