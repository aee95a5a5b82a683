//! Operators on integers.
ghost use Rattle.std.specs.Prelude.{◌≡◌, IsTrue, Some, OnOk, OnErr};
ghost use Rattle.std.specs.Option.{ok_or};
ghost use Rattle.std.specs.Ordering.{int_cmp};
ghost use Rattle.rhai_text.specs.declared.error.ArithmeticFault.TheVariants.{Overflow};
ghost use Rattle.rhai_ops.specs.Numbers as specs;
ghost use Rattle.rhai_value.specs.Parts.{int_of};
ghost use Rattle.rhai_value.specs.Tree.{fresh, int};
ghost use Rattle.rhai_ops.specs.Outcome.{IsOutcome, answers, bool_answer, both, number_answer};
ghost use Rattle.rhai_ops.specs.Results.{Holds, part};
ghost use Rattle.rhai_ops.specs.Effects.{IsAssigned, answered, assignment, stays};
ghost use Rattle.rhai_ops.specs.Tokens as asked;
ghost use Rattle.rhai_ops.specs.Tokens.{is_assignment, is_cmp, is_number};

use crate::answer::value;
use crate::compare::holds;
use crate::tokens::without_assign;
use rhai_text::{ArithmeticFault, EvalAltResult, Position, Token};
use rhai_value::{Dynamic, INT, InStore, Store};

/// One of the first eleven operators on two ints.
#[inline(never)]
pub(crate) fn answer(
    op: Token,
    store: &Store,
    left: &Dynamic,
    right: &Dynamic,
) -> Result<Dynamic, EvalAltResult>
    requires number { IsTrue (is_number op) }
    requires first { Holds int_of store.now left.now }
    requires second { Holds int_of store.now right.now }
    ensures { IsOutcome ⊥ result (both (λ i j. number_answer (specs.number op i j)) (part int_of store.now left.now) (part int_of store.now right.now)) }
{
    answer_numbers(op, value(left, store), value(right, store))
}

/// The same for two numbers.
#[inline(always)]
pub(crate) fn answer_numbers(op: Token, i: INT, j: INT) -> Result<Dynamic, EvalAltResult>
    requires { IsTrue (is_number op) }
    ensures { IsOutcome ⊥ result (number_answer (specs.number op i j)) }
{
    match number(op, i, j) {
        Ok(n) => Ok(Dynamic::from_int(n)),
        Err(fault) => Err(EvalAltResult::ErrorArithmetic(fault, Position::NONE)),
    }
}

/// A comparison of two ints.
#[inline(never)]
pub(crate) fn compare(
    op: Token,
    store: &Store,
    left: &Dynamic,
    right: &Dynamic,
) -> Result<Dynamic, EvalAltResult>
    requires comparison { IsTrue (is_cmp op) }
    requires first { Holds int_of store.now left.now }
    requires second { Holds int_of store.now right.now }
    ensures { IsOutcome ⊥ result (both (λ i j. bool_answer (specs.compared op (int_cmp i j))) (part int_of store.now left.now) (part int_of store.now right.now)) }
{
    compare_numbers(op, value(left, store), value(right, store))
}

/// The same for two numbers.
#[inline(always)]
pub(crate) fn compare_numbers(op: Token, i: INT, j: INT) -> Result<Dynamic, EvalAltResult>
    requires { IsTrue (is_cmp op) }
    ensures { IsOutcome ⊥ result (bool_answer (specs.compared op (int_cmp i j))) }
{
    Ok(Dynamic::from_bool(holds(op, i.cmp(&j))))
}

/// Applies an assignment by one of these operators to the int at a place. The place and the second
/// operand are each looked up once.
#[inline(never)]
pub(crate) fn assign(
    op: Token,
    store: &mut Store,
    left: &mut Dynamic,
    right: &Dynamic,
) -> Result<Dynamic, EvalAltResult>
    requires assignment { IsTrue (is_assignment op) }
    requires first { Holds int_of store.old left.old }
    requires second { Holds int_of store.old right.now }
    ensures { IsAssigned ⊥ result (both (λ i j. number_answer (specs.number (asked.without_assign op) i j)) (part int_of store.old left.old) (part int_of store.old right.now)) left.old left.new store.old store.new }
{
    let number = value(right, store);
    assign_number(op, store, left, number)
}

/// The same for a number.
#[inline(always)]
#[tactic(auto, using(crate::proofs::Questions::base_is_number))]
pub(crate) fn assign_number(
    op: Token,
    store: &mut Store,
    left: &mut Dynamic,
    number: INT,
) -> Result<Dynamic, EvalAltResult>
    requires assignment { IsTrue (is_assignment op) }
    requires first { Holds int_of store.old left.old }
    ensures { IsAssigned ⊥ result (both (λ i j. number_answer (specs.number (asked.without_assign op) i j)) (part int_of store.old left.old) (Some number)) left.old left.new store.old store.new }
{
    let mut place = InStore { value: left, store };
    write_number(without_assign(op), place.held_part_mut::<INT>(), number)
}

/// The same for a held int and a number.
#[inline(always)]
fn write_number(op: Token, held: &mut INT, y: INT) -> Result<Dynamic, EvalAltResult>
    requires { IsTrue (is_number op) }
    ensures result { IsOutcome ⊥ result (answered (assignment stays) (number_answer (specs.number op held.old y))) }
    ensures ok { OnOk result (number_answer (specs.number op held.old y) ≡ answers (fresh (int held.new))) }
    ensures err { OnErr result (held.new ≡ held.old) }
{
    match number(op, *held, y) {
        Ok(n) => {
            *held = n;
            Ok(Dynamic::UNIT)
        }
        Err(fault) => Err(EvalAltResult::ErrorArithmetic(fault, Position::NONE)),
    }
}

/// The result of an operator that has one on any two ints.
#[inline(always)]
#[tactic(auto, using(crate::proofs::Questions::some_number))]
fn number(op: Token, x: INT, y: INT) -> Result<INT, ArithmeticFault>
    requires { IsTrue (is_number op) }
    ensures { Some result ≡ specs.number op x y }
{
    // A row can have any operator, as in the tables: the `requires` of its call, and no type, says
    // which ones suit.
    int_answer(op, x, y).unwrap()
}

/// Returns the result of an operator on two ints; `None` for an operator whose result isn't an int.
/// Errors: why there is no result.
/// Cost: constant; no memory.
/// rhai: the result of the function of `get_builtin_binary_op_fn` on two ints.
#[inline(always)]
pub fn int_answer(op: Token, x: INT, y: INT) -> Option<Result<INT, ArithmeticFault>>
    ensures { result ≡ specs.number op x y }
{
    match op {
        Token::Plus => Some(ranged(x.checked_add(y))),
        Token::Minus => Some(ranged(x.checked_sub(y))),
        Token::Multiply => Some(ranged(x.checked_mul(y))),
        Token::Divide => Some(quotient(x, y)),
        Token::Modulo => Some(remainder(x, y)),
        Token::PowerOf => Some(power(x, y)),
        Token::RightShift => Some(Ok(shifted_right(x, y))),
        Token::LeftShift => Some(Ok(shifted_left(x, y))),
        Token::Ampersand => Some(Ok(x & y)),
        Token::Pipe => Some(Ok(x | y)),
        Token::XOr => Some(Ok(x ^ y)),
        Token::EqualsTo
        | Token::NotEqualsTo
        | Token::GreaterThan
        | Token::GreaterThanEqualsTo
        | Token::LessThan
        | Token::LessThanEqualsTo
        | Token::ExclusiveRange
        | Token::InclusiveRange
        | Token::Equals
        | Token::PlusAssign
        | Token::MinusAssign
        | Token::MultiplyAssign
        | Token::DivideAssign
        | Token::ModuloAssign
        | Token::PowerOfAssign
        | Token::RightShiftAssign
        | Token::LeftShiftAssign
        | Token::AndAssign
        | Token::OrAssign
        | Token::XOrAssign => None,
    }
}

/// A checked number, or overflow.
fn ranged(value: Option<INT>) -> Result<INT, ArithmeticFault>
    ensures { result ≡ ok_or value Overflow }
{
    value.ok_or(ArithmeticFault::Overflow)
}

fn quotient(x: INT, y: INT) -> Result<INT, ArithmeticFault>
    ensures { Some result ≡ specs.number Token.Divide x y }
{
    if y == 0 {
        return Err(ArithmeticFault::DivisionByZero);
    }
    ranged(x.checked_div(y))
}

fn remainder(x: INT, y: INT) -> Result<INT, ArithmeticFault>
    ensures { Some result ≡ specs.number Token.Modulo x y }
{
    if y == 0 {
        return Err(ArithmeticFault::DivisionByZero);
    }
    ranged(x.checked_rem(y))
}

#[inline(never)]
fn power(x: INT, y: INT) -> Result<INT, ArithmeticFault>
    ensures { result ≡ specs.powered x y }
{
    if y < 0 {
        return Err(ArithmeticFault::NegativePower);
    }
    if y > 4294967295 {
        return Err(ArithmeticFault::PowerTooLarge);
    }
    ranged(x.checked_pow(y as u32))
}

fn shifted_left(x: INT, y: INT) -> INT
    ensures { result ≡ specs.shifted_left x y }
{
    let by = y.unsigned_abs();
    if y < 0 {
        floor_power(x, by)
    } else {
        times_power(x, by)
    }
}

fn shifted_right(x: INT, y: INT) -> INT
    ensures { result ≡ specs.shifted_right x y }
{
    let by = y.unsigned_abs();
    if y < 0 {
        times_power(x, by)
    } else {
        floor_power(x, by)
    }
}

fn times_power(x: INT, by: u64) -> INT
    ensures { result ≡ specs.times_power x by }
{
    if by < 64 { x << by as u32 } else { 0 }
}

fn floor_power(x: INT, by: u64) -> INT
    ensures { result ≡ specs.floor_power x by }
{
    if by < 63 { x >> by as u32 } else { x >> 63u32 }
}
