//! Faults: what goes wrong while a script runs.
ghost use Rattle.std.specs.Prelude.{◌≡◌, ◌⊎◌, ◌≢◌, ◌<◌, ◌≤◌, true, IfErr, OnOk};
ghost use Rattle.rhai_text.specs.declared.error.EvalAltResult.TheVariants as error;
ghost use Rattle.rhai_text.specs.declared.position.TheConstants.Position as position;
ghost use Rattle.script_faults.specs.Catchable.{is_catchable, is_error_catchable, is_want_of_memory};
ghost use Rattle.script_faults.specs.Names.{mismatched};
ghost use Rattle.script_faults.specs.declared.faults.FaultKind.TheVariants.{Layer};

use crate::type_names::short_name;
use rhai_show::display_text;
use rhai_text::{ArithmeticFault, EvalAltResult, ImmutableString, Position, SizeKind, Token};
use rhai_value::{Dynamic, INT, Store};
use std::alloc::{AllocError, AllocFailed, Global};

/// What went wrong, and at which position of the script.
#[derive(Drop)]
pub struct Fault {
    /// What went wrong.
    pub kind: FaultKind,
    /// Where.
    pub position: Position,
}

/// What went wrong.
#[derive(Drop)]
pub enum FaultKind {
    /// An operation on values returned this error.
    Layer(EvalAltResult),
    /// There is no variable with this name.
    UnknownName(ImmutableString),
    /// `this` is used in a function that was called without a receiver.
    UnboundThis,
    /// There is no function with this name and number of arguments.
    UnknownFunction(ImmutableString, usize),
    /// The operator isn't defined for values of these types.
    NoOperator(Token, &'static str, &'static str),
    /// A value of this type has no such parts.
    NoParts(&'static str),
    /// There is no part at this index; the second number is the length.
    OutOfRange(INT, usize),
    /// A key on the way to a place doesn't exist.
    NoKey,
    /// The path to a place has too many steps.
    TooFar,
    /// It would change a constant.
    Constant,
    /// A text isn't a number.
    NoNumber,
    /// The radix is below 2 or above 36.
    NoRadix,
    /// The step of a range is 0.
    NoStep,
    /// The script threw this value.
    Thrown(Dynamic),
    /// The script took more operations than its limit.
    TooManyOperations,
    /// A map would have more entries than its limit.
    TooManyEntries,
    /// The script printed more than its limit.
    TooMuchOutput,
    /// The script holds more bytes than its limit.
    TooMuchMemory,
    /// Calls are nested deeper than their limit.
    TooManyCalls,
}

impl FaultKind {
    /// Makes the fault of this kind at a position.
    pub fn at(self, position: Position) -> Fault
        ensures kind { result.kind ≡ self }
        ensures position { result.position ≡ position }
    {
        Fault {
            kind: self,
            position,
        }
    }

    /// Returns whether an allocation failed.
    pub fn is_want_of_memory(&self) -> bool
        ensures { result ≡ is_want_of_memory self.now }
    {
        matches!(self, FaultKind::Layer(EvalAltResult::ErrorMemory(_)))
    }

    /// Returns whether a script may catch it. Limits and failed allocations stop the script.
    pub fn is_catchable(&self) -> bool
        ensures { result ≡ is_catchable self.now }
    {
        match self {
            FaultKind::Layer(error) => is_error_catchable(error),
            FaultKind::UnknownName(_)
            | FaultKind::UnboundThis
            | FaultKind::UnknownFunction(_, _)
            | FaultKind::NoOperator(_, _, _)
            | FaultKind::NoParts(_)
            | FaultKind::OutOfRange(_, _)
            | FaultKind::NoKey
            | FaultKind::TooFar
            | FaultKind::Constant
            | FaultKind::NoNumber
            | FaultKind::NoRadix
            | FaultKind::NoStep
            | FaultKind::Thrown(_) => true,
            FaultKind::TooManyOperations
            | FaultKind::TooManyEntries
            | FaultKind::TooMuchOutput
            | FaultKind::TooMuchMemory
            | FaultKind::TooManyCalls => false,
        }
    }

    /// Returns what went wrong, without the position.
    /// Errors: the allocation of the text fails.
    /// Cost: the length of the text.
    pub fn message(&self, alloc: Global, store: &Store) -> Result<String, AllocError> {
        match self {
            FaultKind::Layer(EvalAltResult::ErrorArithmetic(fault, _)) => {
                String::from_str(alloc, arithmetic_message(*fault))
            }
            FaultKind::Layer(error) => format!(in alloc; "{error}"),
            FaultKind::UnknownName(name) => {
                let name = name.as_str();
                format!(in alloc; "variable not found: {name}")
            }
            FaultKind::UnknownFunction(name, count) => {
                let name = name.as_str();
                format!(in alloc; "function not found: {name} ({count} arguments)")
            }
            FaultKind::NoOperator(op, first, second) => {
                let op = symbol_of(*op);
                let (first, second) = (short_name(first), short_name(second));
                format!(in alloc; "no operator {op} for {first} and {second}")
            }
            FaultKind::NoParts(found) => {
                let found = short_name(found);
                format!(in alloc; "no such part of a value of type {found}")
            }
            FaultKind::OutOfRange(index, count) => {
                format!(in alloc; "index {index} out of range of {count}")
            }
            FaultKind::Thrown(value) => display_text(alloc, value, store),
            FaultKind::UnboundThis => String::from_str(alloc, "`this` is not bound"),
            FaultKind::NoKey => String::from_str(alloc, "no such key"),
            FaultKind::TooFar => String::from_str(alloc, "too many steps to a place"),
            FaultKind::Constant => String::from_str(alloc, "a constant can't be changed"),
            FaultKind::NoNumber => String::from_str(alloc, "the text is no number"),
            FaultKind::NoRadix => String::from_str(alloc, "a radix is from 2 to 36"),
            FaultKind::NoStep => String::from_str(alloc, "step value cannot be zero"),
            FaultKind::TooManyOperations => String::from_str(alloc, "too many operations"),
            FaultKind::TooManyEntries => String::from_str(alloc, "too large: Entries"),
            FaultKind::TooMuchOutput => String::from_str(alloc, "too much output"),
            FaultKind::TooMuchMemory => String::from_str(alloc, "too much memory"),
            FaultKind::TooManyCalls => String::from_str(alloc, "too many calls within each other"),
        }
    }
}

fn is_error_catchable(error: &EvalAltResult) -> bool
    ensures { result ≡ is_error_catchable error.now }
{
    match error {
        EvalAltResult::ErrorMismatchDataType(_, _, _)
        | EvalAltResult::ErrorDataRace(_)
        | EvalAltResult::ErrorArithmetic(_, _) => true,
        EvalAltResult::ErrorDataTooLarge(_, _) | EvalAltResult::ErrorMemory(_) => false,
    }
}

/// Returns how an operator is written.
fn symbol_of(op: Token) -> &'static str {
    match op {
        Token::Plus => "+",
        Token::Minus => "-",
        Token::Multiply => "*",
        Token::Divide => "/",
        Token::Modulo => "%",
        Token::PowerOf => "**",
        Token::RightShift => ">>",
        Token::LeftShift => "<<",
        Token::Ampersand => "&",
        Token::Pipe => "|",
        Token::XOr => "^",
        Token::EqualsTo => "==",
        Token::NotEqualsTo => "!=",
        Token::GreaterThan => ">",
        Token::GreaterThanEqualsTo => ">=",
        Token::LessThan => "<",
        Token::LessThanEqualsTo => "<=",
        Token::ExclusiveRange => "..",
        Token::InclusiveRange => "..=",
        Token::Equals => "=",
        Token::PlusAssign => "+=",
        Token::MinusAssign => "-=",
        Token::MultiplyAssign => "*=",
        Token::DivideAssign => "/=",
        Token::ModuloAssign => "%=",
        Token::PowerOfAssign => "**=",
        Token::RightShiftAssign => ">>=",
        Token::LeftShiftAssign => "<<=",
        Token::AndAssign => "&=",
        Token::OrAssign => "|=",
        Token::XOrAssign => "^=",
    }
}

/// Makes the fault for a value of an unexpected type.
pub fn mismatch(wanted: &'static str, found: &'static str) -> FaultKind
    ensures { result ≡ mismatched wanted.now found.now }
{
    let found = short_name(found);
    FaultKind::Layer(EvalAltResult::mismatch(wanted, found, Position::NONE))
}

/// Returns why an arithmetic operation has no result.
fn arithmetic_message(fault: ArithmeticFault) -> &'static str {
    match fault {
        ArithmeticFault::Overflow => "integer overflow",
        ArithmeticFault::DivisionByZero => "division by zero",
        ArithmeticFault::NegativePower => "the exponent is below zero",
        ArithmeticFault::PowerTooLarge => "the exponent is too large",
    }
}

/// Checks a size against a limit, of which 0 is none.
/// Errors: the size exceeds it.
pub fn check_size(limit: usize, count: usize, size: SizeKind) -> Result<(), FaultKind>
    ensures ok { OnOk result ((limit ≡ 0) ⊎ (count ≤ limit)) }
    ensures err { IfErr result (λ e. (e ≡ Layer (error.ErrorDataTooLarge size position.NONE)) × (limit ≢ 0) × (limit < count)) }
{
    if limit != 0 && count > limit {
        return Err(FaultKind::Layer(EvalAltResult::ErrorDataTooLarge(size, Position::NONE)));
    }
    Ok(())
}

/// Makes the fault for a value that is in use.
pub fn in_use() -> FaultKind
    ensures { result ≡ Layer (error.ErrorDataRace position.NONE) }
{
    FaultKind::Layer(EvalAltResult::ErrorDataRace(Position::NONE))
}

impl From<EvalAltResult> for FaultKind {
    ghost from_gives = { λ e result. result ≡ Layer e };

    fn from(error: EvalAltResult) -> FaultKind {
        FaultKind::Layer(error)
    }
}

impl From<AllocError> for FaultKind {
    ghost from_gives = { λ e result. is_want_of_memory result ≡ true };

    fn from(error: AllocError) -> FaultKind {
        FaultKind::Layer(EvalAltResult::ErrorMemory(error))
    }
}

impl<T: Drop> From<AllocFailed<T>> for FaultKind {
    ghost from_gives = { λ e result. is_want_of_memory result ≡ true };

    fn from(_failed: AllocFailed<T>) -> FaultKind {
        FaultKind::Layer(EvalAltResult::ErrorMemory(AllocError))
    }
}

impl From<AllocError> for Fault {
    ghost from_gives = { λ e result. (is_want_of_memory result.kind ≡ true) × (result.position ≡ position.NONE) };

    fn from(error: AllocError) -> Fault {
        FaultKind::from(error).at(Position::NONE)
    }
}

impl<T: Drop> From<AllocFailed<T>> for Fault {
    ghost from_gives = { λ e result. (is_want_of_memory result.kind ≡ true) × (result.position ≡ position.NONE) };

    fn from(_failed: AllocFailed<T>) -> Fault {
        FaultKind::from(AllocError).at(Position::NONE)
    }
}
