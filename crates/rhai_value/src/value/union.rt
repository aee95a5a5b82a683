//! The constructors of a value.

use crate::cells::cell_ref::CellRef;
use crate::map::Map;
use crate::value::access_mode::AccessMode;
use crate::value::dynamic::Dynamic;
use crate::value::fn_ptr::FnPtr;
use crate::value::host::Host;
use rhai_text::ImmutableString;

/// The integers of a script.
/// rhai: `INT`.
pub type INT = i64;

/// A number that the host may set on a value.
/// rhai: `Tag`.
pub type Tag = i32;

/// The items of an array.
/// rhai: `Array`.
pub type Array = Vec<Dynamic>;

/// The bytes of a blob.
/// rhai: `Blob`.
pub type Blob = Vec<u8>;

/// The constructors of a value, each with its tag, its mode and its content.
/// rhai: `Union`, which is private.
#[cycle(dynamic)]
#[derive(Drop)]
pub enum Union {
    /// The unit value.
    Unit(Tag, AccessMode, ()),
    /// A boolean.
    Bool(Tag, AccessMode, bool),
    /// A text.
    Str(Tag, AccessMode, ImmutableString),
    /// A character.
    Char(Tag, AccessMode, char),
    /// An integer.
    Int(Tag, AccessMode, INT),
    /// An array.
    Array(Tag, AccessMode, Array),
    /// A blob.
    Blob(Tag, AccessMode, Blob),
    /// A map.
    Map(Tag, AccessMode, Map),
    /// A function pointer.
    FnPtr(Tag, AccessMode, FnPtr),
    /// A value of one of the host's types.
    Variant(Tag, AccessMode, Host),
    /// A holder of a shared cell.
    Shared(Tag, AccessMode, CellRef),
}
