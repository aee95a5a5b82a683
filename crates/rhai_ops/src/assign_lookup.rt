//! The look-up of assignments.
ghost use Rattle.std.specs.Prelude.{◌≡◌, ◌∷◌, []};
ghost use Rattle.rhai_ops.specs.AssignTable.{assign_row, assign_line};
ghost use Rattle.rhai_ops.specs.Table.{pick};
ghost use Rattle.rhai_ops.specs.Tokens as asked;

use crate::builtin::FnBuiltin;
use crate::lookup::{one_of, row_if};
use crate::operand_kind::{OperandKind, operand_kind_of};
use crate::tokens::{is_assignment, is_bits_assignment};
use rhai_text::Token;
use rhai_value::Dynamic;

/// Finds the row of an assignment on these operands, by their own constructors only.
/// So it takes no store, unlike `get_builtin_binary_op_fn`: a holder has no row, and a caller that
/// wants the row of a shared value passes that value.
/// Cost: constant; no memory.
/// rhai: `get_builtin_op_assignment_fn`.
pub fn get_builtin_op_assignment_fn(
    op: &Token,
    left: &Dynamic,
    right: &Dynamic,
) -> Option<FnBuiltin>
    ensures { result ≡ assign_row op.now left.now right.now }
{
    assigned_row(*op, operand_kind_of(left), operand_kind_of(right))
}

fn assigned_row(t: Token, a: OperandKind, b: OperandKind) -> Option<FnBuiltin>
    ensures { result ≡ pick (assign_line t a b) }
{
    match a {
        OperandKind::Bool => match b {
            OperandKind::Bool => row_if(is_bits_assignment(t), FnBuiltin::BoolAssign(t)),
            OperandKind::Unit
            | OperandKind::Int
            | OperandKind::Str
            | OperandKind::Char
            | OperandKind::Blob
            | OperandKind::Array
            | OperandKind::Other => None,
        },
        OperandKind::Int => match b {
            OperandKind::Int => row_if(is_assignment(t), FnBuiltin::IntAssign(t)),
            OperandKind::Unit
            | OperandKind::Bool
            | OperandKind::Str
            | OperandKind::Char
            | OperandKind::Blob
            | OperandKind::Array
            | OperandKind::Other => None,
        },
        OperandKind::Str => match b {
            OperandKind::Str => one_of(
                t,
                (Token::PlusAssign, FnBuiltin::TextJoinAssign),
                (Token::MinusAssign, FnBuiltin::TextMinusAssign),
            ),
            OperandKind::Char => one_of(
                t,
                (Token::PlusAssign, FnBuiltin::TextCharAssign),
                (Token::MinusAssign, FnBuiltin::TextMinusCharAssign),
            ),
            OperandKind::Unit
            | OperandKind::Bool
            | OperandKind::Int
            | OperandKind::Blob
            | OperandKind::Array
            | OperandKind::Other => None,
        },
        OperandKind::Char => match b {
            OperandKind::Str => row_if(t == Token::PlusAssign, FnBuiltin::CharTextAssign),
            OperandKind::Char => row_if(t == Token::PlusAssign, FnBuiltin::CharJoinAssign),
            OperandKind::Unit
            | OperandKind::Bool
            | OperandKind::Int
            | OperandKind::Blob
            | OperandKind::Array
            | OperandKind::Other => None,
        },
        OperandKind::Blob => match b {
            OperandKind::Int => row_if(t == Token::PlusAssign, FnBuiltin::BlobPush),
            OperandKind::Str => row_if(t == Token::PlusAssign, FnBuiltin::BlobTextAssign),
            OperandKind::Char => row_if(t == Token::PlusAssign, FnBuiltin::BlobCharAssign),
            OperandKind::Blob => row_if(t == Token::PlusAssign, FnBuiltin::BlobAppend),
            OperandKind::Unit | OperandKind::Bool | OperandKind::Array | OperandKind::Other => None,
        },
        OperandKind::Array => match b {
            OperandKind::Array => row_if(t == Token::PlusAssign, FnBuiltin::ArrayAppend),
            OperandKind::Unit
            | OperandKind::Bool
            | OperandKind::Int
            | OperandKind::Str
            | OperandKind::Char
            | OperandKind::Blob
            | OperandKind::Other => row_if(t == Token::PlusAssign, FnBuiltin::ArrayPush),
        },
        OperandKind::Unit | OperandKind::Other => None,
    }
}
