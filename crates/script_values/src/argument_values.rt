//! The arguments of a function, after its receiver.

use rhai_value::{Array, Blob, Dynamic, INT, Map, Part, Store};
use script_faults::{FaultKind, mismatch};

/// Up to three arguments; missing ones are unit.
#[derive(Drop)]
pub struct Arguments {
    /// The first one.
    pub first: Dynamic,
    /// The second one.
    pub second: Dynamic,
    /// The third one.
    pub third: Dynamic,
}

impl Arguments {
    /// Makes an empty argument list.
    pub fn none() -> Arguments {
        Arguments {
            first: Dynamic::UNIT,
            second: Dynamic::UNIT,
            third: Dynamic::UNIT,
        }
    }
}

/// Returns the int of an argument.
pub(crate) fn int(argument: &Dynamic, store: &Store) -> Result<INT, FaultKind> {
    match argument.as_int(store) {
        Ok(number) => Ok(number),
        Err(found) => Err(mismatch("i64", found)),
    }
}

/// Returns the text of an argument.
pub(crate) fn text<'s>(argument: &'s Dynamic, store: &'s Store) -> Result<&'s str, FaultKind> {
    match argument.as_immutable_string_ref(store) {
        Ok(text) => Ok(text.as_str()),
        Err(found) => Err(mismatch("string", found)),
    }
}

/// Returns the text of an argument, or that of a character, which is written into a buffer.
pub(crate) fn text_or_character<'s>(
    argument: &'s Dynamic,
    store: &'s Store,
    buffer: &'s mut [u8; 4],
) -> Result<&'s str, FaultKind> {
    match argument.as_char(store) {
        Ok(character) => Ok(character.encode_utf8(buffer)),
        Err(_) => text(argument, store),
    }
}

/// Returns the boolean of an argument.
pub(crate) fn boolean(argument: &Dynamic, store: &Store) -> Result<bool, FaultKind> {
    match argument.as_bool(store) {
        Ok(answer) => Ok(answer),
        Err(found) => Err(mismatch("bool", found)),
    }
}

/// Takes the array out of an argument.
pub(crate) fn array(argument: &mut Dynamic, store: &Store) -> Result<Array, FaultKind> {
    match Array::take_out(argument.take()) {
        Ok(items) => Ok(items),
        Err(other) => Err(mismatch("array", other.type_name(store))),
    }
}

/// Takes the map out of an argument.
pub(crate) fn map(argument: &mut Dynamic, store: &Store) -> Result<Map, FaultKind> {
    match Map::take_out(argument.take()) {
        Ok(map) => Ok(map),
        Err(other) => Err(mismatch("map", other.type_name(store))),
    }
}

/// Returns the bytes of an argument.
pub(crate) fn blob<'a>(argument: &'a Dynamic, store: &Store) -> Result<&'a [u8], FaultKind> {
    match Blob::own(argument) {
        Some(bytes) => Ok(bytes.as_slice()),
        None => Err(mismatch("blob", argument.type_name(store))),
    }
}

/// Makes a value of a number of parts.
pub(crate) fn count(number: usize) -> Dynamic {
    Dynamic::from_int(INT::try_from(number).unwrap_or(INT::MAX))
}

/// Makes a value of an index; -1 if there is none.
pub(crate) fn place_or_none(place: Option<usize>) -> Dynamic {
    match place {
        Some(place) => count(place),
        None => Dynamic::from_int(-1),
    }
}

/// Returns a value, or unit if there is none.
pub(crate) fn or_unit(value: Option<Dynamic>) -> Dynamic {
    value.unwrap_or(Dynamic::UNIT)
}

/// Makes the fault for an argument that isn't a range.
pub(crate) fn mismatched_range(argument: &Dynamic, store: &Store) -> FaultKind {
    mismatch("range", argument.type_name(store))
}
