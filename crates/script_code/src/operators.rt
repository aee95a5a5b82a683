//! Operators, as operations distinguish them.

use rhai_text::Token;

/// An operator that has operations of its own.
#[derive(Clone, Copy)]
pub(crate) enum Arithmetic {
    Add,
    Subtract,
    Multiply,
    Divide,
    Remainder,
}

/// An operator that has jumps of its own.
#[derive(Clone, Copy)]
pub(crate) enum Comparison {
    Less,
    AtMost,
    More,
    AtLeast,
    Equal,
    Unequal,
}

impl Comparison {
    /// Returns the comparison that holds for two ints exactly if this one doesn't.
    pub(crate) fn opposite(self) -> Comparison {
        match self {
            Comparison::Less => Comparison::AtLeast,
            Comparison::AtMost => Comparison::More,
            Comparison::More => Comparison::AtMost,
            Comparison::AtLeast => Comparison::Less,
            Comparison::Equal => Comparison::Unequal,
            Comparison::Unequal => Comparison::Equal,
        }
    }
}

/// How operations treat an operator.
#[derive(Clone, Copy)]
pub(crate) enum Kind {
    /// It has operations.
    Counts(Arithmetic),
    /// It has jumps.
    Compares(Comparison),
    /// It has neither.
    Other,
}

/// How operations treat an operator.
pub(crate) fn kind_of(op: Token) -> Kind {
    match op {
        Token::Plus => Kind::Counts(Arithmetic::Add),
        Token::Minus => Kind::Counts(Arithmetic::Subtract),
        Token::Multiply => Kind::Counts(Arithmetic::Multiply),
        Token::Divide => Kind::Counts(Arithmetic::Divide),
        Token::Modulo => Kind::Counts(Arithmetic::Remainder),
        Token::LessThan => Kind::Compares(Comparison::Less),
        Token::LessThanEqualsTo => Kind::Compares(Comparison::AtMost),
        Token::GreaterThan => Kind::Compares(Comparison::More),
        Token::GreaterThanEqualsTo => Kind::Compares(Comparison::AtLeast),
        Token::EqualsTo => Kind::Compares(Comparison::Equal),
        Token::NotEqualsTo => Kind::Compares(Comparison::Unequal),
        Token::PowerOf
        | Token::RightShift
        | Token::LeftShift
        | Token::Ampersand
        | Token::Pipe
        | Token::XOr
        | Token::ExclusiveRange
        | Token::InclusiveRange
        | Token::Equals
        | Token::PlusAssign
        | Token::MinusAssign
        | Token::MultiplyAssign
        | Token::DivideAssign
        | Token::ModuloAssign
        | Token::PowerOfAssign
        | Token::RightShiftAssign
        | Token::LeftShiftAssign
        | Token::AndAssign
        | Token::OrAssign
        | Token::XOrAssign => Kind::Other,
    }
}
