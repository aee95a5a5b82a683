//! Why a script isn't compiled.

use rhai_text::Position;
use std::alloc::{AllocError, AllocFailed};
use std::fmt;

/// Why a script isn't compiled.
#[derive(Clone, Copy, Debug, PartialEq, Eq)]
pub enum CodeError {
    /// The script is larger than operations can address: a function needs more slots, or a table
    /// more entries. With the position.
    TooLarge(Position),
    /// An allocation failed.
    OutOfMemory,
}

impl CodeError {
    /// Returns the error with its own position, or else with the last position in the script, which
    /// may be its beginning.
    pub(crate) fn seen_at(self, seen: Position) -> CodeError {
        match self {
            CodeError::TooLarge(place) if place != Position::NONE => CodeError::TooLarge(place),
            CodeError::TooLarge(_) if seen != Position::NONE => CodeError::TooLarge(seen),
            CodeError::TooLarge(_) => CodeError::TooLarge(Position::new(1, 1)),
            CodeError::OutOfMemory => CodeError::OutOfMemory,
        }
    }
}

impl fmt::Display for CodeError {
    fn fmt<W: fmt::Write>(&self, f: &mut fmt::Formatter<W>) -> fmt::Result {
        match self {
            CodeError::TooLarge(position) => {
                let (line, column) = (position.line(), position.position());
                write!(f, "the script is too large (line {line}, column {column})")
            }
            CodeError::OutOfMemory => write!(f, "out of memory"),
        }
    }
}

impl std::error::Error for CodeError {}

impl From<AllocError> for CodeError {
    fn from(_error: AllocError) -> CodeError {
        CodeError::OutOfMemory
    }
}

impl<T: Drop> From<AllocFailed<T>> for CodeError {
    fn from(_failed: AllocFailed<T>) -> CodeError {
        CodeError::OutOfMemory
    }
}
