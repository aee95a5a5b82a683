//! The errors of evaluating a script.
ghost use Rattle.std.specs.Prelude.{◌≡◌};
ghost use Rattle.rhai_text.specs.Error.{at_place, is_memory, place_of};
ghost use Rattle.rhai_text.specs.declared.error.EvalAltResult.TheVariants.{ErrorMemory, ErrorMismatchDataType};

use crate::position::Position;
use crate::type_name::TypeName;
use std::alloc::AllocError;
use thiserror::Error;

/// Why an evaluation stopped, and at which position of the script.
/// rhai: `EvalAltResult`, of which these are the variants that occur in this layer.
#[derive(Debug, Drop, Error)]
pub enum EvalAltResult {
    /// A value has the wrong type: the name of the expected type, and of the actual one.
    #[error("data type mismatch: expected {}, found {}", .0.as_str(), .1.as_str())]
    ErrorMismatchDataType(TypeName, TypeName, Position),
    /// A shared value is in use.
    #[error("data race")]
    ErrorDataRace(Position),
    /// An arithmetic operation has no result.
    #[error("arithmetic fault: {0:?}")]
    ErrorArithmetic(ArithmeticFault, Position),
    /// A value would exceed its limit.
    #[error("too large: {0:?}")]
    ErrorDataTooLarge(SizeKind, Position),
    /// An allocation failed.
    #[error("out of memory")]
    ErrorMemory(AllocError),
}

/// Why an arithmetic operation has no result.
#[derive(Clone, Copy, Debug, PartialEq, Eq)]
pub enum ArithmeticFault {
    /// The exact result does not fit.
    Overflow,
    /// The divisor is 0.
    DivisionByZero,
    /// The exponent is negative.
    NegativePower,
    /// The exponent is above 4294967295.
    PowerTooLarge,
}

/// The limit that a value would exceed.
#[derive(Clone, Copy, Debug, PartialEq, Eq)]
pub enum SizeKind {
    /// The bytes of a text.
    Text,
    /// The items of an array, or the bytes of a blob.
    Items,
}

impl EvalAltResult {
    /// Makes the error of a value of the wrong type from the names of the expected type and the
    /// actual one.
    /// Cost: constant; no memory.
    pub fn mismatch(wanted: &'static str, found: &'static str, pos: Position) -> EvalAltResult
        ensures { result ≡ ErrorMismatchDataType wanted.now found.now pos }
    {
        EvalAltResult::ErrorMismatchDataType(TypeName::new(wanted), TypeName::new(found), pos)
    }

    /// Sets the error's position; a failed allocation has no position, and is unchanged.
    pub fn with_position(self, pos: Position) -> EvalAltResult
        ensures { result ≡ at_place pos self }
    {
        match self {
            EvalAltResult::ErrorMismatchDataType(wanted, found, _) =>
                EvalAltResult::ErrorMismatchDataType(wanted, found, pos),
            EvalAltResult::ErrorDataRace(_) => EvalAltResult::ErrorDataRace(pos),
            EvalAltResult::ErrorArithmetic(fault, _) => EvalAltResult::ErrorArithmetic(fault, pos),
            EvalAltResult::ErrorDataTooLarge(size, _) => EvalAltResult::ErrorDataTooLarge(
                size, pos,
            ),
            EvalAltResult::ErrorMemory(error) => EvalAltResult::ErrorMemory(error),
        }
    }

    /// Returns the position in the script; for a failed allocation `Position::NONE`.
    /// rhai: `EvalAltResult::position`.
    pub fn position(&self) -> Position
        ensures { result ≡ place_of self.now }
    {
        match self {
            EvalAltResult::ErrorMismatchDataType(_, _, pos)
            | EvalAltResult::ErrorDataRace(pos)
            | EvalAltResult::ErrorArithmetic(_, pos)
            | EvalAltResult::ErrorDataTooLarge(_, pos) => *pos,
            EvalAltResult::ErrorMemory(_) => Position::NONE,
        }
    }

    /// Returns whether an allocation failed. Every other error is due to what the script does.
    pub fn is_memory(&self) -> bool
        ensures { result ≡ is_memory self.now }
    {
        match self {
            EvalAltResult::ErrorMismatchDataType(..)
            | EvalAltResult::ErrorDataRace(_)
            | EvalAltResult::ErrorArithmetic(..)
            | EvalAltResult::ErrorDataTooLarge(..) => false,
            EvalAltResult::ErrorMemory(_) => true,
        }
    }
}

impl From<AllocError> for EvalAltResult {
    ghost from_gives = { λ error result. result ≡ ErrorMemory error };

    fn from(error: AllocError) -> EvalAltResult {
        EvalAltResult::ErrorMemory(error)
    }
}
