//! What the operators, indices and functions of a small script language do with values. Nothing
//! here depends on the language's trees.
#![tactic(auto)]

mod any_functions;
mod argument_values;
mod array_functions;
mod array_parts;
mod assigning;
mod binary_operators;
mod bit_functions;
mod blob_bytes;
mod blob_functions;
mod bounds;
mod char_functions;
mod find;
mod in_place;
mod int_functions;
mod map_functions;
mod natives;
mod operator_walks;
mod place_walks;
mod properties;
mod range_functions;
mod reading;
mod small_walks;
mod text_functions;
mod text_parts;
mod text_splits;
mod text_walks;
mod unary_operators;
mod walks;
mod writing;

pub use argument_values::Arguments;
pub use assigning::{Assignment, assign};
pub use binary_operators::binary;
pub use find::Found;
pub use in_place::{change_int, put_int};
pub use natives::{ask_native, change_native, changes_receiver};
pub use operator_walks::{assign_cost, binary_cost};
pub use place_walks::{look_cost, read_cost, write_cost};
pub use reading::{PlaceFault, look, read};
pub use unary_operators::{UnaryOperator, unary};
pub use walks::native_cost;
pub use writing::{Change, change_at, write};
