//! The result of a comparison, given the order of the operands.
ghost use Rattle.std.specs.Prelude.{◌≡◌, IsTrue, Some};
ghost use Rattle.rhai_ops.specs.Numbers as specs;
ghost use Rattle.rhai_ops.specs.Tokens.{is_cmp};

use rhai_text::Token;
use std::cmp::Ordering;

/// Returns whether a comparison holds for two contents in this order; `None` for another operator.
/// Cost: constant; no memory.
pub fn compared(op: Token, order: Ordering) -> Option<bool>
    ensures { result ≡ specs.compared op order }
{
    match op {
        Token::EqualsTo => Some(order.is_eq()),
        Token::NotEqualsTo => Some(order.is_ne()),
        Token::GreaterThan => Some(order.is_gt()),
        Token::GreaterThanEqualsTo => Some(order.is_ge()),
        Token::LessThan => Some(order.is_lt()),
        Token::LessThanEqualsTo => Some(order.is_le()),
        Token::Plus
        | Token::Minus
        | Token::Multiply
        | Token::Divide
        | Token::Modulo
        | Token::PowerOf
        | Token::RightShift
        | Token::LeftShift
        | Token::Ampersand
        | Token::Pipe
        | Token::XOr
        | Token::ExclusiveRange
        | Token::InclusiveRange
        | Token::Equals
        | Token::PlusAssign
        | Token::MinusAssign
        | Token::MultiplyAssign
        | Token::DivideAssign
        | Token::ModuloAssign
        | Token::PowerOfAssign
        | Token::RightShiftAssign
        | Token::LeftShiftAssign
        | Token::AndAssign
        | Token::OrAssign
        | Token::XOrAssign => None,
    }
}

/// Whether a comparison holds for two contents in this order.
#[inline(always)]
#[tactic(auto, using(crate::proofs::Questions::some_order))]
pub(crate) fn holds(op: Token, order: Ordering) -> bool
    requires { IsTrue (is_cmp op) }
    ensures { Some result ≡ specs.compared op order }
{
    compared(op, order) == Some(true)
}
