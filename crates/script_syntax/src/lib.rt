//! The syntax of a small script language, a subset of rhai: parses texts to trees with resolved
//! names.
#![tactic(auto)]

mod callees;
mod cursor;
mod error;
mod lexeme;
mod literals;
mod names;
mod operators;
mod parser;
mod symbol;
mod words;

pub use error::{SyntaxError, SyntaxFault};
pub use parser::{parse, parse_with};
pub use symbol::{ReservedSign, Symbol};
pub use words::ReservedWord;
