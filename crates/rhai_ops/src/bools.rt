//! Operators on booleans.
ghost use Rattle.std.specs.Prelude.{◌≡◌, IsTrue, Some, true, false};
ghost use Rattle.std.specs.Ordering.{bool_cmp};
ghost use Rattle.rhai_ops.specs.Numbers as specs;
ghost use Rattle.rhai_ops.specs.Outcome.{IsOutcome, bool_answer};
ghost use Rattle.rhai_ops.specs.Tokens as asked;
ghost use Rattle.rhai_ops.specs.Tokens.{is_bits, is_bits_assignment, is_cmp};

use crate::compare::holds;
use crate::tokens::without_assign;
use rhai_text::{EvalAltResult, Token};
use rhai_value::Dynamic;

/// `&`, `|` or `^` of two booleans.
pub(crate) fn answer(op: Token, a: bool, b: bool) -> Result<Dynamic, EvalAltResult>
    requires { IsTrue (is_bits op) }
    ensures { IsOutcome ⊥ result (bool_answer (specs.both_bits op a b)) }
{
    Ok(Dynamic::from_bool(holds_of(op, a, b)))
}

/// What an assignment by one of these operators writes.
pub(crate) fn assigned(op: Token, a: bool, b: bool) -> Result<Dynamic, EvalAltResult>
    requires { IsTrue (is_bits_assignment op) }
    ensures { IsOutcome ⊥ result (bool_answer (specs.both_bits (asked.without_assign op) a b)) }
{
    Ok(Dynamic::from_bool(holds_of(without_assign(op), a, b)))
}

/// The result of one of the three operators on two booleans.
#[tactic(auto, using(crate::proofs::Questions::some_bits))]
fn holds_of(op: Token, a: bool, b: bool) -> bool
    requires { IsTrue (is_bits op) }
    ensures { Some result ≡ specs.both_bits op a b }
{
    both_bits(op, a, b) == Some(true)
}

/// The result of one of the three operators on two booleans; `None` for another operator.
fn both_bits(op: Token, a: bool, b: bool) -> Option<bool>
    ensures { result ≡ specs.both_bits op a b }
{
    match op {
        Token::Ampersand => Some(a && b),
        Token::Pipe => Some(a || b),
        Token::XOr => Some(a != b),
        Token::Plus
        | Token::Minus
        | Token::Multiply
        | Token::Divide
        | Token::Modulo
        | Token::PowerOf
        | Token::RightShift
        | Token::LeftShift
        | Token::EqualsTo
        | Token::NotEqualsTo
        | Token::GreaterThan
        | Token::GreaterThanEqualsTo
        | Token::LessThan
        | Token::LessThanEqualsTo
        | Token::ExclusiveRange
        | Token::InclusiveRange
        | Token::Equals
        | Token::PlusAssign
        | Token::MinusAssign
        | Token::MultiplyAssign
        | Token::DivideAssign
        | Token::ModuloAssign
        | Token::PowerOfAssign
        | Token::RightShiftAssign
        | Token::LeftShiftAssign
        | Token::AndAssign
        | Token::OrAssign
        | Token::XOrAssign => None,
    }
}

/// A comparison of two booleans; false is less than true.
pub(crate) fn compare(op: Token, a: bool, b: bool) -> Result<Dynamic, EvalAltResult>
    requires { IsTrue (is_cmp op) }
    ensures { IsOutcome ⊥ result (bool_answer (specs.compared op (bool_cmp a b))) }
{
    Ok(Dynamic::from_bool(holds(op, a.cmp(&b))))
}
