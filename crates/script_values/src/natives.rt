//! Calls of the functions that the packages give to values.

use crate::any_functions::ask_any;
use crate::argument_values::Arguments;
use crate::array_functions::{ask_array, change_array};
use crate::blob_functions::{ask_blob, change_blob};
use crate::char_functions::{ask_char, change_char};
use crate::int_functions::{ask_int, change_int_by};
use crate::map_functions::{ask_map, change_map};
use crate::range_functions::{ask_pointer, ask_range};
use crate::text_functions::ask_text;
use crate::text_parts::change_text;
use rhai_value::{Dynamic, Part, Store, Union};
use script_faults::{FaultKind, Means};
use script_natives::{
    ArrayFunction, BlobFunction, CharFunction, IntFunction, MapFunction, Native, TextFunction,
    array_function, blob_function, char_function, int_function, map_function, pointer_function,
    range_function, text_function,
};

/// Finds the function with this name, without arguments, for values of the type of this one.
pub(crate) fn without_arguments(held: &Dynamic, name: &str) -> Native {
    let mut native = Native::NONE;
    match held.parts() {
        Union::Array(_, _, _) => native.array = array_function(name, 0),
        Union::Map(_, _, _) => native.map = map_function(name, 0),
        Union::Str(_, _, _) => native.text = text_function(name, 0),
        Union::Blob(_, _, _) => native.blob = blob_function(name, 0),
        Union::Int(_, _, _) => native.int = int_function(name, 0),
        Union::Char(_, _, _) => native.character = char_function(name, 0),
        Union::Variant(_, _, _) => native.range = range_function(name, 0),
        Union::FnPtr(_, _, _) => native.pointer = pointer_function(name, 0),
        Union::Unit(_, _, _) | Union::Bool(_, _, _) | Union::Shared(_, _, _) => {}
    }
    native
}

/// Returns whether the function may change a receiver that holds a value of this type.
/// Cost: that of `Dynamic::held`; no memory.
pub fn changes_receiver(native: &Native, receiver: &Dynamic, store: &Store) -> bool {
    let Some(held) = receiver.held(store) else {
        return false;
    };
    match held.parts() {
        Union::Array(_, _, _) => matches!(native.array, Some(ArrayFunction::Change(_))),
        Union::Map(_, _, _) => matches!(native.map, Some(MapFunction::Change(_))),
        Union::Str(_, _, _) => matches!(native.text, Some(TextFunction::Change(_))),
        Union::Blob(_, _, _) => matches!(native.blob, Some(BlobFunction::Change(_))),
        Union::Int(_, _, _) => matches!(native.int, Some(IntFunction::Change(_))),
        Union::Char(_, _, _) => matches!(native.character, Some(CharFunction::Change(_))),
        Union::Unit(_, _, _)
        | Union::Bool(_, _, _)
        | Union::FnPtr(_, _, _)
        | Union::Variant(_, _, _)
        | Union::Shared(_, _, _) => false,
    }
}

/// Calls the function that doesn't change its receiver, if the type of the receiver has one.
/// Errors: an argument of another type, and those of the function.
/// Cost: that of the function.
pub fn ask_native(
    native: &Native,
    means: &Means,
    store: &Store,
    receiver: &Dynamic,
    arguments: &Arguments,
) -> Result<Option<Dynamic>, FaultKind> {
    if let Some(answer) = ask_held(native, means, store, receiver, arguments)? {
        return Ok(Some(answer));
    }
    match native.any {
        Some(function) => Ok(Some(ask_any(function, means, store, receiver)?)),
        None => Ok(None),
    }
}

pub(crate) fn ask_held(
    native: &Native,
    means: &Means,
    store: &Store,
    receiver: &Dynamic,
    arguments: &Arguments,
) -> Result<Option<Dynamic>, FaultKind> {
    let Some(held) = receiver.held(store) else {
        return Ok(None);
    };
    match held.parts() {
        Union::Array(_, _, items) => ask_array(native.array, means, store, items, arguments),
        Union::Map(_, _, map) => ask_map(native.map, means, store, held, map, arguments),
        Union::Str(_, _, text) => ask_text(native.text, means, store, text, arguments),
        Union::Blob(_, _, bytes) => ask_blob(native.blob, means, store, bytes, arguments),
        Union::Int(_, _, number) => ask_int(native.int, means, store, *number, arguments),
        Union::Char(_, _, character) => Ok(ask_char(native.character, *character)),
        Union::Variant(_, _, _) => ask_range(native.range, store, held, arguments),
        Union::FnPtr(_, _, pointer) => ask_pointer(native.pointer, means, pointer),
        Union::Unit(_, _, _) | Union::Bool(_, _, _) | Union::Shared(_, _, _) => Ok(None),
    }
}

/// Calls the function that may change its receiver, which is no holder, if the type of the
/// receiver has one.
/// Errors: an argument of another type, and those of the function. If an allocation fails, the
/// arguments are unchanged.
/// Cost: that of the function.
pub fn change_native(
    native: &Native,
    means: &Means,
    store: &Store,
    receiver: &mut Dynamic,
    arguments: &mut Arguments,
) -> Result<Option<Dynamic>, FaultKind> {
    match receiver.parts_mut() {
        Union::Array(_, _, items) => {
            let Some(ArrayFunction::Change(change)) = native.array else {
                return Ok(None);
            };
            Ok(Some(change_array(change, means, store, items, arguments)?))
        }
        Union::Map(_, _, map) => {
            let Some(MapFunction::Change(change)) = native.map else {
                return Ok(None);
            };
            Ok(Some(change_map(change, means, store, map, arguments)?))
        }
        Union::Str(_, _, text) => {
            let Some(TextFunction::Change(change)) = native.text else {
                return Ok(None);
            };
            Ok(Some(change_text(change, means, store, text, arguments)?))
        }
        Union::Blob(_, _, bytes) => {
            let Some(BlobFunction::Change(change)) = native.blob else {
                return Ok(None);
            };
            Ok(Some(change_blob(change, means, store, bytes, arguments)?))
        }
        Union::Int(_, _, number) => {
            let Some(IntFunction::Change(change)) = native.int else {
                return Ok(None);
            };
            Ok(Some(change_int_by(change, store, number, arguments)?))
        }
        Union::Char(_, _, character) => {
            let Some(CharFunction::Change(change)) = native.character else {
                return Ok(None);
            };
            Ok(Some(change_char(change, character)))
        }
        Union::Unit(_, _, _)
        | Union::Bool(_, _, _)
        | Union::FnPtr(_, _, _)
        | Union::Variant(_, _, _)
        | Union::Shared(_, _, _) => Ok(None),
    }
}
