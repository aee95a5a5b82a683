//! The names of the functions that the packages of a small script language give its values.
#![tactic(auto)]

mod any;
mod arrays;
mod blobs;
mod characters;
mod ints;
mod maps;
mod natives;
mod ranges;
mod texts;

pub use any::{AnyFunction, any_function};
pub use arrays::{ArrayChange, ArrayFunction, ArrayQuestion, array_function};
pub use blobs::{BlobChange, BlobFunction, BlobQuestion, ByteOrder, blob_function};
pub use characters::{CharChange, CharFunction, CharQuestion, char_function};
pub use ints::{IntChange, IntFunction, IntQuestion, int_function};
pub use maps::{MapChange, MapFunction, MapQuestion, map_function};
pub use natives::{Native, native_of};
pub use ranges::{PointerFunction, RangeFunction, pointer_function, range_function};
pub use texts::{TextChange, TextFunction, TextQuestion, text_function};
