//! What is wrong with a text.

use crate::symbol::{ReservedSign, Symbol};
use crate::words::ReservedWord;
use rhai_text::Position;
use std::alloc::{AllocError, AllocFailed};
use std::fmt;
use thiserror::Error;

/// Why a text is not a valid script, and where.
#[derive(Debug, Drop)]
pub enum SyntaxError {
    /// What is wrong, and its line and column.
    Fault(SyntaxFault, Position),
    /// An allocation failed.
    OutOfMemory,
}

/// What is wrong at a position of a text.
#[derive(Clone, Copy, Debug, PartialEq, Eq, Error)]
pub enum SyntaxFault {
    /// This symbol is expected here.
    #[error("expected {0}")]
    Expected(Symbol),
    /// No expression begins here.
    #[error("expected an expression")]
    ExpectedExpression,
    /// A name is expected here.
    #[error("expected a name")]
    ExpectedName,
    /// A key of an object map is expected here.
    #[error("expected a name or a text as the key")]
    ExpectedKey,
    /// The word is reserved: the language uses it, or rhai does.
    #[error("`{0}` is a reserved word, and no name")]
    ReservedWord(ReservedWord),
    /// The word begins something that rhai has and this language doesn't.
    #[error("`{0}` is not part of this language")]
    NotRead(ReservedWord),
    /// The sign has no meaning here, but has one in rhai.
    #[error("`{0}` is not part of this language")]
    ReservedSign(ReservedSign),
    /// `f!(..)`, which calls a function with the variables of its caller.
    #[error("`!(` behind a function is not part of this language")]
    CallerVariables,
    /// No sign begins with this character.
    #[error("this character begins nothing")]
    StrangeCharacter,
    /// A name needs a letter.
    #[error("a name has a letter behind its underscores")]
    NoLetter,
    /// The number is out of the range of ints.
    #[error("the number is too large")]
    NumberTooLarge,
    /// The number has a fraction or an exponent.
    #[error("floats are not part of this language")]
    Float,
    /// The digits are followed by something that doesn't belong to an int.
    #[error("this is no int")]
    BadNumber,
    /// The text or character has no end, or none on its line.
    #[error("the quotation mark is not closed, or not on its line")]
    OpenText,
    /// The comment has no end.
    #[error("the comment is not closed")]
    OpenComment,
    /// The escape is unknown, or denotes no character.
    #[error("the escape names no character")]
    BadEscape,
    /// Single quotation marks enclose exactly one character.
    #[error("expected one character between the quotation marks")]
    BadCharacter,
    /// The text nests deeper than a tree may.
    #[error("the script nests too deep")]
    TooDeep,
    /// Only variables, their items and their properties can be assigned to.
    #[error("this cannot be assigned to")]
    NoPlace,
    /// Nothing after `?.` or `?[` can be assigned to.
    #[error("behind `?.` and `?[` nothing is assigned to")]
    OptionalPlace,
    /// `this` is only allowed in functions.
    #[error("`this` stands in functions alone")]
    ThisOutside,
    /// Functions are only allowed at the top level.
    #[error("a function stands at the top of a script alone")]
    FunctionInside,
    /// There already is a function with this name and number of parameters.
    #[error("a function has this name and number of parameters already")]
    FunctionTwice,
    /// A name occurs twice among the parameters, or before `in`.
    #[error("the name stands here twice")]
    NameTwice,
    /// A key occurs twice in an object map.
    #[error("the key stands in the map twice")]
    KeyTwice,
    /// The cases of `switch` are literals and ranges of ints.
    #[error("expected a literal or a range of ints")]
    ExpectedCase,
    /// The case `_` has to be the last.
    #[error("no case stands behind `_`")]
    CaseBehindDefault,
    /// `break` and `continue` are only allowed in loops.
    #[error("no loop is around this")]
    OutsideLoop,
}

impl fmt::Display for SyntaxError {
    fn fmt<W: fmt::Write>(&self, f: &mut fmt::Formatter<W>) -> fmt::Result {
        match self {
            SyntaxError::Fault(fault, place) => {
                let (line, column) = (place.line(), place.position());
                write!(f, "{fault} (line {line}, column {column})")
            }
            SyntaxError::OutOfMemory => write!(f, "out of memory"),
        }
    }
}

impl std::error::Error for SyntaxError {}

impl From<AllocError> for SyntaxError {
    fn from(_error: AllocError) -> SyntaxError {
        SyntaxError::OutOfMemory
    }
}

impl<T: Drop> From<AllocFailed<T>> for SyntaxError {
    fn from(_error: AllocFailed<T>) -> SyntaxError {
        SyntaxError::OutOfMemory
    }
}
