//! The look-ups.
ghost use Rattle.std.specs.Prelude.{◌≡◌, ◌∷◌, [], Option, Some, None};
ghost use Rattle.rhai_value.specs.End.{end, end_type};
ghost use Rattle.rhai_ops.specs.Table.{row_of, pick, type_line, rows_of_kinds};
ghost use Rattle.rhai_ops.specs.Table as table;
ghost use Rattle.rhai_ops.specs.Tokens as asked;

use crate::builtin::FnBuiltin;
use crate::operand_kind::{OperandKind, is_int, is_text, operand_kind_of};
use crate::tokens::{is_bits, is_cmp, is_number};
use rhai_text::Token;
use rhai_value::{Dynamic, Store, TypeId};

/// Finds the row of a binary operator for these operands; tests for two ints first, then for two
/// texts.
/// Cost: that of `Dynamic::held`; no memory.
/// rhai: `get_builtin_binary_op_fn`.
#[inline(always)]
pub fn get_builtin_binary_op_fn(
    op: &Token,
    left: &Dynamic,
    right: &Dynamic,
    store: &Store,
) -> Option<FnBuiltin>
    ensures { result ≡ row_of op.now store.now left.now right.now }
{
    if is_int(left) {
        if is_int(right) {
            return int_row(*op);
        }
    } else if is_text(left) {
        if is_text(right) {
            return two_texts_row(*op);
        }
    }
    other_row(*op, left, right, store)
}

/// Finds the row for any operands, in a separate function, so that the look-up for two ints or
/// texts stays short.
#[inline(never)]
fn other_row(op: Token, left: &Dynamic, right: &Dynamic, store: &Store) -> Option<FnBuiltin>
    ensures { result ≡ row_of op store.now left.now right.now }
{
    let (a, b) = (operand_kind_of(left), operand_kind_of(right));
    row_of_kinds(op, a, b, left, right, store)
}

fn int_row(t: Token) -> Option<FnBuiltin>
    ensures { result ≡ pick (rows_of_kinds t OperandKind.Int OperandKind.Int []) }
{
    if is_number(t) {
        Some(FnBuiltin::Int(t))
    } else if is_cmp(t) {
        Some(FnBuiltin::IntCompare(t))
    } else {
        range_row(t, FnBuiltin::IntRange(false), FnBuiltin::IntRange(true))
    }
}

fn bool_row(t: Token) -> Option<FnBuiltin>
    ensures { result ≡ pick (rows_of_kinds t OperandKind.Bool OperandKind.Bool []) }
{
    if is_cmp(t) {
        Some(FnBuiltin::BoolCompare(t))
    } else if is_bits(t) {
        Some(FnBuiltin::Bool(t))
    } else {
        None
    }
}

/// The row, if the condition holds.
pub(crate) fn row_if(asked: bool, row: FnBuiltin) -> Option<FnBuiltin>
    ensures { result ≡ pick ((asked, row) ∷ []) }
{
    if asked { Some(row) } else { None }
}

/// The row of one operator, or that of another.
pub(crate) fn one_of(
    t: Token,
    first: (Token, FnBuiltin),
    second: (Token, FnBuiltin),
) -> Option<FnBuiltin>
    ensures { result ≡ pick ((asked.is_token t first.0, first.1) ∷ (asked.is_token t second.0, second.1) ∷ []) }
{
    if t == first.0 {
        Some(first.1)
    } else if t == second.0 {
        Some(second.1)
    } else {
        None
    }
}

/// The row of `..`, or that of `..=`.
fn range_row(t: Token, exclusive: FnBuiltin, inclusive: FnBuiltin) -> Option<FnBuiltin>
    ensures { result ≡ pick ((asked.is_token t Token.ExclusiveRange, exclusive) ∷ (asked.is_token t Token.InclusiveRange, inclusive) ∷ []) }
{
    one_of(
        t,
        (Token::ExclusiveRange, exclusive),
        (Token::InclusiveRange, inclusive),
    )
}

fn two_texts_row(t: Token) -> Option<FnBuiltin>
    ensures { result ≡ pick (rows_of_kinds t OperandKind.Str OperandKind.Str []) }
{
    text_row(
        t,
        FnBuiltin::TextJoin,
        FnBuiltin::TextMinus,
        FnBuiltin::TextCompare(t),
    )
}

/// The row of one operator, or that of the comparisons.
fn one_or_comparison(t: Token, first: (Token, FnBuiltin), compare: FnBuiltin) -> Option<FnBuiltin>
    ensures { result ≡ pick ((asked.is_token t first.0, first.1) ∷ (asked.is_cmp t, compare) ∷ []) }
{
    if t == first.0 {
        Some(first.1)
    } else if is_cmp(t) {
        Some(compare)
    } else {
        None
    }
}

/// The row of `+`, of `-`, or that of the comparisons.
fn text_row(t: Token, plus: FnBuiltin, minus: FnBuiltin, compare: FnBuiltin) -> Option<FnBuiltin>
    ensures { result ≡ pick ((asked.is_token t Token.Plus, plus) ∷ (asked.is_token t Token.Minus, minus) ∷ (asked.is_cmp t, compare) ∷ []) }
{
    if t == Token::Plus {
        Some(plus)
    } else {
        one_or_comparison(t, (Token::Minus, minus), compare)
    }
}

/// The row for operands that are never equal.
fn unlike_row(t: Token) -> Option<FnBuiltin>
    ensures { result ≡ pick ((asked.is_token t Token.NotEqualsTo, FnBuiltin.ConstTrue) ∷ (asked.is_cmp t, FnBuiltin.ConstFalse) ∷ []) }
{
    one_or_comparison(
        t,
        (Token::NotEqualsTo, FnBuiltin::ConstTrue),
        FnBuiltin::ConstFalse,
    )
}

/// Finds the row by the held types.
fn type_row(t: Token, a: TypeId, b: TypeId) -> Option<FnBuiltin>
    ensures { result ≡ pick (type_line t a b) }
{
    if a == TypeId::Shared || b == TypeId::Shared {
        None
    } else if is_range_type(a) && is_range_type(b) {
        if a == b {
            let inclusive = a == TypeId::InclusiveRange;
            one_of(
                t,
                (Token::EqualsTo, FnBuiltin::RangeEqual(inclusive, false)),
                (Token::NotEqualsTo, FnBuiltin::RangeEqual(inclusive, true)),
            )
        } else {
            one_of(
                t,
                (Token::EqualsTo, FnBuiltin::ConstFalse),
                (Token::NotEqualsTo, FnBuiltin::ConstTrue),
            )
        }
    } else if a == b || (is_numeric(a) && is_numeric(b)) {
        None
    } else {
        unlike_row(t)
    }
}

fn is_numeric(a: TypeId) -> bool
    ensures { result ≡ table.is_numeric a }
{
    a == TypeId::Int || (a.is_host() && !is_range_type(a))
}

fn is_range_type(a: TypeId) -> bool
    ensures { result ≡ table.is_range_type a }
{
    matches!(a, TypeId::ExclusiveRange | TypeId::InclusiveRange)
}

#[tactic(auto, using(crate::proofs::Lines::pick_behind))]
fn row_of_kinds(
    t: Token,
    a: OperandKind,
    b: OperandKind,
    left: &Dynamic,
    right: &Dynamic,
    store: &Store,
) -> Option<FnBuiltin>
    ensures { result ≡ pick (rows_of_kinds t a b (type_line t (end_type (end store.now [] left.now)) (end_type (end store.now [] right.now)))) }
{
    match a {
        OperandKind::Unit => match b {
            OperandKind::Unit => one_or_comparison(
                t,
                (Token::EqualsTo, FnBuiltin::ConstTrue),
                FnBuiltin::ConstFalse,
            ),
            OperandKind::Int => match range_row(
                t,
                FnBuiltin::RangeTo(false),
                FnBuiltin::RangeTo(true),
            ) {
                Some(row) => Some(row),
                None => type_row(t, left.type_id(store), right.type_id(store)),
            },
            OperandKind::Str => if t == Token::Plus {
                Some(FnBuiltin::SecondCopy)
            } else {
                unlike_row(t)
            },
            OperandKind::Bool
            | OperandKind::Char
            | OperandKind::Blob
            | OperandKind::Array
            | OperandKind::Other => type_row(t, left.type_id(store), right.type_id(store)),
        },
        OperandKind::Bool => match b {
            OperandKind::Bool => bool_row(t),
            OperandKind::Unit
            | OperandKind::Int
            | OperandKind::Str
            | OperandKind::Char
            | OperandKind::Blob
            | OperandKind::Array
            | OperandKind::Other => type_row(t, left.type_id(store), right.type_id(store)),
        },
        OperandKind::Int => match b {
            OperandKind::Unit => match range_row(
                t,
                FnBuiltin::RangeFrom(false),
                FnBuiltin::RangeFrom(true),
            ) {
                Some(row) => Some(row),
                None => type_row(t, left.type_id(store), right.type_id(store)),
            },
            OperandKind::Int => int_row(t),
            OperandKind::Bool
            | OperandKind::Str
            | OperandKind::Char
            | OperandKind::Blob
            | OperandKind::Array
            | OperandKind::Other => type_row(t, left.type_id(store), right.type_id(store)),
        },
        OperandKind::Str => match b {
            OperandKind::Unit => if t == Token::Plus {
                Some(FnBuiltin::FirstCopy)
            } else {
                unlike_row(t)
            },
            OperandKind::Str => two_texts_row(t),
            OperandKind::Char => text_row(
                t,
                FnBuiltin::TextChar,
                FnBuiltin::TextMinusChar,
                FnBuiltin::TextCharCompare(t),
            ),
            OperandKind::Bool
            | OperandKind::Int
            | OperandKind::Blob
            | OperandKind::Array
            | OperandKind::Other => type_row(t, left.type_id(store), right.type_id(store)),
        },
        OperandKind::Char => match b {
            OperandKind::Str => one_or_comparison(
                t,
                (Token::Plus, FnBuiltin::CharText),
                FnBuiltin::CharTextCompare(t),
            ),
            OperandKind::Char => one_or_comparison(
                t,
                (Token::Plus, FnBuiltin::CharJoin),
                FnBuiltin::CharCompare(t),
            ),
            OperandKind::Unit
            | OperandKind::Bool
            | OperandKind::Int
            | OperandKind::Blob
            | OperandKind::Array
            | OperandKind::Other => type_row(t, left.type_id(store), right.type_id(store)),
        },
        OperandKind::Blob => match b {
            OperandKind::Char => row_if(t == Token::Plus, FnBuiltin::BlobChar),
            OperandKind::Blob => if t == Token::Plus {
                Some(FnBuiltin::BlobJoin)
            } else {
                one_of(
                    t,
                    (Token::EqualsTo, FnBuiltin::BlobEqual(false)),
                    (Token::NotEqualsTo, FnBuiltin::BlobEqual(true)),
                )
            },
            OperandKind::Unit
            | OperandKind::Bool
            | OperandKind::Int
            | OperandKind::Str
            | OperandKind::Array
            | OperandKind::Other => type_row(t, left.type_id(store), right.type_id(store)),
        },
        OperandKind::Array | OperandKind::Other => type_row(
            t,
            left.type_id(store),
            right.type_id(store),
        ),
    }
}
