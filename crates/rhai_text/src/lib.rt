//! The texts of script values: a text with shared bytes, the edits that make a new text, and quoted
//! texts and characters. Also the operators, positions, limits and errors that all operations on
//! values share.
#![tactic(auto)]

mod bytes_order;
mod characters;
mod edits;
mod error;
mod immutable_string;
pub mod laws;
mod limits;
mod long_text;
mod position;
mod quote;
mod text_bytes;
mod token;
mod type_name;

pub use error::{ArithmeticFault, EvalAltResult, SizeKind};
pub use immutable_string::ImmutableString;
pub use limits::Limits;
pub use position::Position;
pub use quote::{quoted_char_into, quoted_text_into};
pub use token::Token;
pub use type_name::TypeName;
