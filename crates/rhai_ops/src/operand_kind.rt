//! The constructor of a value, as far as the table distinguishes constructors.
ghost use Rattle.std.specs.Prelude.{◌≡◌, IfSome, IsTrue, List, Some};
ghost use Rattle.rhai_value.specs.declared.cells.store.Cell.{Cell};
ghost use Rattle.rhai_value.specs.Parts.{int_of, text_of};
ghost use Rattle.rhai_ops.specs.Results.{part};
ghost use Rattle.rhai_ops.specs.Table.{operand_kind};

use rhai_text::ImmutableString;
use rhai_value::{Dynamic, INT, Union};

// The constructors that the table names; a map, a function pointer, a host value and a holder are
// none of them.
#[derive(Clone, Copy)]
pub(crate) enum OperandKind {
    Unit,
    Bool,
    Int,
    Str,
    Char,
    Blob,
    Array,
    Other,
}

pub(crate) fn operand_kind_of(value: &Dynamic) -> OperandKind
    ensures { result ≡ operand_kind value.now }
{
    match value.parts() {
        Union::Unit(_, _, _) => OperandKind::Unit,
        Union::Bool(_, _, _) => OperandKind::Bool,
        Union::Int(_, _, _) => OperandKind::Int,
        Union::Str(_, _, _) => OperandKind::Str,
        Union::Char(_, _, _) => OperandKind::Char,
        Union::Blob(_, _, _) => OperandKind::Blob,
        Union::Array(_, _, _) => OperandKind::Array,
        Union::Map(_, _, _) => OperandKind::Other,
        Union::FnPtr(_, _, _) => OperandKind::Other,
        Union::Variant(_, _, _) => OperandKind::Other,
        Union::Shared(_, _, _) => OperandKind::Other,
    }
}

pub(crate) fn is_int(value: &Dynamic) -> bool
    ensures { IsTrue result → operand_kind value.now ≡ OperandKind.Int }
{
    matches!(value.parts(), Union::Int(_, _, _))
}

pub(crate) fn is_text(value: &Dynamic) -> bool
    ensures { IsTrue result → operand_kind value.now ≡ OperandKind.Str }
{
    matches!(value.parts(), Union::Str(_, _, _))
}

// The value's own int, which is then the held one in any store.
#[inline(always)]
#[tactic(auto, using(crate::proofs::Suited::own_part))]
pub(crate) fn own_int(value: &Dynamic) -> Option<INT>
    ensures { (s : List Cell) → IfSome result (λ n. part int_of s value.now ≡ Some n) }
{
    if let Union::Int(_, _, n) = value.parts() {
        return Some(*n);
    }
    None
}

// The same for a text.
#[inline(always)]
#[tactic(auto, using(crate::proofs::Suited::own_part))]
pub(crate) fn own_text(value: &Dynamic) -> Option<&ImmutableString>
    ensures { (s : List Cell) → IfSome result (λ text. part text_of s value.now ≡ Some text.now) }
{
    if let Union::Str(_, _, text) = value.parts() {
        return Some(text);
    }
    None
}
