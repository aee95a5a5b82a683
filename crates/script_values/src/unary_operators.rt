//! Unary operators.

use rhai_text::{ArithmeticFault, EvalAltResult, Position};
use rhai_value::{Dynamic, Store};
use script_faults::{FaultKind, mismatch};

/// A unary operator.
#[derive(Clone, Copy, Debug, PartialEq, Eq)]
pub enum UnaryOperator {
    /// `!`, of a boolean.
    Not,
    /// `-`, of an int.
    Negate,
    /// `+`, of an int.
    Keep,
}

/// Applies an operator to a value, which is only read.
/// Errors: another type, and `Overflow` if the least int is negated. No others.
/// Cost: that of `Dynamic::held`; no memory.
pub fn unary(op: UnaryOperator, store: &Store, value: &Dynamic) -> Result<Dynamic, FaultKind> {
    match op {
        UnaryOperator::Not => match value.as_bool(store) {
            Ok(answer) => Ok(Dynamic::from_bool(!answer)),
            Err(found) => Err(mismatch("bool", found)),
        },
        UnaryOperator::Negate => match value.as_int(store) {
            Ok(number) => match number.checked_neg() {
                Some(negative) => Ok(Dynamic::from_int(negative)),
                None => Err(FaultKind::Layer(EvalAltResult::ErrorArithmetic(
                    ArithmeticFault::Overflow,
                    Position::NONE,
                ))),
            },
            Err(found) => Err(mismatch("i64", found)),
        },
        UnaryOperator::Keep => match value.as_int(store) {
            Ok(number) => Ok(Dynamic::from_int(number)),
            Err(found) => Err(mismatch("i64", found)),
        },
    }
}
