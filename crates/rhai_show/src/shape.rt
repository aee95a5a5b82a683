//! A value by cases: a leaf, children, the fields of a map, or a holder.
ghost use Rattle.rhai_show.specs.Shape.{HasShape};

use rhai_text::ImmutableString;
use rhai_value::{Dynamic, FnPtr, Host, INT, Map, Union};

/// A content without children.
#[derive(Clone, Copy)]
pub(crate) enum Leaf<'a> {
    Unit,
    Bool(bool),
    Int(&'a INT),
    Char(char),
    Text(&'a ImmutableString),
    Blob(&'a [u8]),
    Host(&'a Host),
}

/// A content by the children it has.
#[derive(Clone, Copy)]
pub(crate) enum Shape<'a> {
    Leaf(Leaf<'a>),
    Array(&'a [Dynamic]),
    Function(&'a FnPtr),
    Map(&'a Map),
    Holder,
}

/// The shape of a value.
#[inline(always)]
pub(crate) fn shape_of(value: &Dynamic) -> Shape<'_>
    ensures { HasShape result value.now }
{
    match value.parts() {
        Union::Unit(_, _, _) => Shape::Leaf(Leaf::Unit),
        Union::Bool(_, _, truth) => Shape::Leaf(Leaf::Bool(*truth)),
        Union::Int(_, _, number) => Shape::Leaf(Leaf::Int(number)),
        Union::Char(_, _, character) => Shape::Leaf(Leaf::Char(*character)),
        Union::Str(_, _, text) => Shape::Leaf(Leaf::Text(text)),
        Union::Blob(_, _, bytes) => Shape::Leaf(Leaf::Blob(bytes.as_slice())),
        Union::Variant(_, _, host) => Shape::Leaf(Leaf::Host(host)),
        Union::Array(_, _, items) => Shape::Array(items.as_slice()),
        Union::FnPtr(_, _, function) => Shape::Function(function),
        Union::Map(_, _, map) => Shape::Map(map),
        Union::Shared(_, _, _) => Shape::Holder,
    }
}
