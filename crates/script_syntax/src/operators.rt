//! Binary operators, by increasing precedence, and those that assign.

use crate::symbol::Symbol;
use rhai_text::Token;
use script_tree::{Assignment, Operator};

/// The lowest precedence.
pub const LOOSEST: u8 = 1;

/// The highest precedence.
pub const TIGHTEST: u8 = 11;

/// The precedence of `in` and `!in`.
pub const MEMBERSHIP: u8 = 4;

/// The precedence of `**`, which is right-associative.
pub const POWER: u8 = 10;

/// Finds the binary operator of a symbol, with its precedence.
pub fn operator_of(symbol: Symbol) -> Option<(u8, Operator)> {
    match symbol {
        Symbol::And => Some((2, Operator::And)),
        Symbol::Or => Some((1, Operator::Or)),
        Symbol::Coalesce => Some((6, Operator::Coalesce)),
        Symbol::Operator(token) => match level_of(token) {
            Some(level) => Some((level, Operator::Plain(token))),
            None => None,
        },
        _ => None,
    }
}

fn level_of(token: Token) -> Option<u8> {
    match token {
        Token::Pipe | Token::XOr => Some(1),
        Token::Ampersand => Some(2),
        Token::EqualsTo | Token::NotEqualsTo => Some(3),
        Token::LessThan
        | Token::LessThanEqualsTo
        | Token::GreaterThan
        | Token::GreaterThanEqualsTo => Some(5),
        Token::ExclusiveRange | Token::InclusiveRange => Some(7),
        Token::Plus | Token::Minus => Some(8),
        Token::Multiply | Token::Divide | Token::Modulo => Some(9),
        Token::PowerOf => Some(POWER),
        Token::LeftShift | Token::RightShift => Some(TIGHTEST),
        Token::Equals
        | Token::PlusAssign
        | Token::MinusAssign
        | Token::MultiplyAssign
        | Token::DivideAssign
        | Token::ModuloAssign
        | Token::PowerOfAssign
        | Token::RightShiftAssign
        | Token::LeftShiftAssign
        | Token::AndAssign
        | Token::OrAssign
        | Token::XOrAssign => None,
    }
}

/// Returns the operator inside an assigning one; `=` has none.
fn plain_of(whole: Token) -> Option<Token> {
    match whole {
        Token::PlusAssign => Some(Token::Plus),
        Token::MinusAssign => Some(Token::Minus),
        Token::MultiplyAssign => Some(Token::Multiply),
        Token::DivideAssign => Some(Token::Divide),
        Token::ModuloAssign => Some(Token::Modulo),
        Token::PowerOfAssign => Some(Token::PowerOf),
        Token::RightShiftAssign => Some(Token::RightShift),
        Token::LeftShiftAssign => Some(Token::LeftShift),
        Token::AndAssign => Some(Token::Ampersand),
        Token::OrAssign => Some(Token::Pipe),
        Token::XOrAssign => Some(Token::XOr),
        Token::Plus
        | Token::Minus
        | Token::Multiply
        | Token::Divide
        | Token::Modulo
        | Token::PowerOf
        | Token::RightShift
        | Token::LeftShift
        | Token::Ampersand
        | Token::Pipe
        | Token::XOr
        | Token::EqualsTo
        | Token::NotEqualsTo
        | Token::GreaterThan
        | Token::GreaterThanEqualsTo
        | Token::LessThan
        | Token::LessThanEqualsTo
        | Token::ExclusiveRange
        | Token::InclusiveRange
        | Token::Equals => None,
    }
}

/// How a symbol assigns, if it does.
#[derive(Clone, Copy, Debug, PartialEq, Eq)]
pub enum Assigning {
    /// It does not.
    No,
    /// `=`
    Plainly,
    /// As `+=` does.
    By(Assignment),
}

/// Returns how a symbol assigns.
pub fn assigning_of(symbol: Symbol) -> Assigning {
    match symbol {
        Symbol::Operator(Token::Equals) => Assigning::Plainly,
        Symbol::Operator(whole) => match plain_of(whole) {
            Some(plain) => Assigning::By(Assignment { whole, plain }),
            None => Assigning::No,
        },
        _ => Assigning::No,
    }
}
