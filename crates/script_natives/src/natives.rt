//! Functions by name and number of arguments.

use crate::any::{AnyFunction, any_function};
use crate::arrays::{ArrayFunction, array_function};
use crate::blobs::{BlobFunction, blob_function};
use crate::characters::{CharFunction, char_function};
use crate::ints::{IntFunction, int_function};
use crate::maps::{MapFunction, map_function};
use crate::ranges::{PointerFunction, RangeFunction, pointer_function, range_function};
use crate::texts::{TextFunction, text_function};

/// The functions with one name and number of arguments, one for each type of the receiver that has
/// it.
#[derive(Clone, Copy)]
pub struct Native {
    pub array: Option<ArrayFunction>,
    pub map: Option<MapFunction>,
    pub text: Option<TextFunction>,
    pub blob: Option<BlobFunction>,
    pub int: Option<IntFunction>,
    pub character: Option<CharFunction>,
    pub range: Option<RangeFunction>,
    pub pointer: Option<PointerFunction>,
    pub any: Option<AnyFunction>,
}

/// Finds the functions with this name and number of arguments after the receiver.
/// Cost: constant; no memory.
pub fn native_of(name: &str, arguments: usize) -> Native {
    Native {
        array: array_function(name, arguments),
        map: map_function(name, arguments),
        text: text_function(name, arguments),
        blob: blob_function(name, arguments),
        int: int_function(name, arguments),
        character: char_function(name, arguments),
        range: range_function(name, arguments),
        pointer: pointer_function(name, arguments),
        any: any_function(name, arguments),
    }
}

impl Native {
    /// No function.
    pub const NONE: Native = Native {
        array: None,
        map: None,
        text: None,
        blob: None,
        int: None,
        character: None,
        range: None,
        pointer: None,
        any: None,
    };

    /// Returns whether one of the functions may change its receiver.
    /// Cost: constant; no memory.
    pub fn may_change(&self) -> bool {
        matches!(self.array, Some(ArrayFunction::Change(_)))
            || matches!(self.map, Some(MapFunction::Change(_)))
            || matches!(self.text, Some(TextFunction::Change(_)))
            || matches!(self.blob, Some(BlobFunction::Change(_)))
            || matches!(self.int, Some(IntFunction::Change(_)))
            || matches!(self.character, Some(CharFunction::Change(_)))
    }
}
