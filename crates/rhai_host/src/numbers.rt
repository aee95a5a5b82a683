//! Types and operators by number.
ghost use Rattle.std.specs.Prelude.{◌≡◌, slice_get};
ghost use Rattle.rhai_host.specs.Numbers.{operator_of, type_of};

use rhai_text::Token;
use rhai_value::TypeId;

/// The types, in the order of their numbers.
const TYPES: [TypeId; 23] = [
    TypeId::Unit,
    TypeId::Bool,
    TypeId::Char,
    TypeId::Int,
    TypeId::U8,
    TypeId::U16,
    TypeId::U32,
    TypeId::U64,
    TypeId::U128,
    TypeId::I8,
    TypeId::I16,
    TypeId::I32,
    TypeId::I128,
    TypeId::String,
    TypeId::ImmutableString,
    TypeId::Array,
    TypeId::Blob,
    TypeId::Map,
    TypeId::FnPtr,
    TypeId::ExclusiveRange,
    TypeId::InclusiveRange,
    TypeId::Dynamic,
    TypeId::Shared,
];

/// The operators, in the order of their numbers.
const OPERATORS: [Token; 31] = [
    Token::Plus,
    Token::Minus,
    Token::Multiply,
    Token::Divide,
    Token::Modulo,
    Token::PowerOf,
    Token::RightShift,
    Token::LeftShift,
    Token::Ampersand,
    Token::Pipe,
    Token::XOr,
    Token::EqualsTo,
    Token::NotEqualsTo,
    Token::GreaterThan,
    Token::GreaterThanEqualsTo,
    Token::LessThan,
    Token::LessThanEqualsTo,
    Token::ExclusiveRange,
    Token::InclusiveRange,
    Token::Equals,
    Token::PlusAssign,
    Token::MinusAssign,
    Token::MultiplyAssign,
    Token::DivideAssign,
    Token::ModuloAssign,
    Token::PowerOfAssign,
    Token::RightShiftAssign,
    Token::LeftShiftAssign,
    Token::AndAssign,
    Token::OrAssign,
    Token::XOrAssign,
];

fn type_in(types: &[TypeId], number: usize) -> Option<TypeId>
    ensures { result ≡ slice_get types.now number }
{
    if number < types.len() {
        Some(types[number])
    } else {
        None
    }
}

fn operator_in(operators: &[Token], number: usize) -> Option<Token>
    ensures { result ≡ slice_get operators.now number }
{
    if number < operators.len() {
        Some(operators[number])
    } else {
        None
    }
}

/// Returns the type of a number.
pub(crate) fn type_of(number: u32) -> Option<TypeId>
    ensures { result ≡ type_of number }
{
    type_in(&TYPES, number as usize)
}

/// Returns the operator of a number.
pub(crate) fn operator_of(number: u32) -> Option<Token>
    ensures { result ≡ operator_of number }
{
    operator_in(&OPERATORS, number as usize)
}
