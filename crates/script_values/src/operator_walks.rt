//! The cost of operators, in operations.

use crate::assigning::Assignment;
use rhai_text::Token;
use rhai_value::{Dynamic, Store, Union};
use script_faults::{
    FaultKind, Means, bytes_cost, copy_cost, entries_cost, has_parts, print_cost, values_cost,
    walk_cost,
};

/// Counts the operations that an operator costs in addition to itself: nothing for ints and other
/// small values; for a value that is joined with a text, the cost of printing it; for what is
/// joined or compared, all of it. Stops counting once the result is more than `most`.
/// Errors: what is compared or printed in cells is more than an array may have items; the
/// allocation of a list fails.
/// Cost: the number of values that are counted.
pub fn binary_cost(
    op: Token,
    means: &Means,
    store: &Store,
    x: &Dynamic,
    y: &Dynamic,
    most: u64,
) -> Result<u64, FaultKind> {
    let (Some(x), Some(y)) = (x.held(store), y.held(store)) else {
        return Ok(0);
    };
    match op {
        Token::Plus => plus_cost(means, store, x, y, most),
        Token::Minus => Ok(own_bytes(x).saturating_add(own_bytes(y))),
        Token::EqualsTo | Token::NotEqualsTo if has_parts(x) || has_parts(y) => {
            walks_of_both(means, store, x, y, most)
        }
        Token::EqualsTo
        | Token::NotEqualsTo
        | Token::GreaterThan
        | Token::GreaterThanEqualsTo
        | Token::LessThan
        | Token::LessThanEqualsTo => Ok(own_bytes(x).min(own_bytes(y))),
        Token::Multiply
        | Token::Divide
        | Token::Modulo
        | Token::PowerOf
        | Token::RightShift
        | Token::LeftShift
        | Token::Ampersand
        | Token::Pipe
        | Token::XOr
        | Token::ExclusiveRange
        | Token::InclusiveRange
        | Token::Equals
        | Token::PlusAssign
        | Token::MinusAssign
        | Token::MultiplyAssign
        | Token::DivideAssign
        | Token::ModuloAssign
        | Token::PowerOfAssign
        | Token::RightShiftAssign
        | Token::LeftShiftAssign
        | Token::AndAssign
        | Token::OrAssign
        | Token::XOrAssign => Ok(0),
    }
}

/// Counts the operations that an assigning operator costs in addition to itself, as `binary_cost`
/// does; appending to a text, a blob, an array or a map doesn't count what it contained before.
/// Errors: as `binary_cost`.
/// Cost: the number of values that are counted.
pub fn assign_cost(
    op: Assignment,
    means: &Means,
    store: &Store,
    place: &Dynamic,
    value: &Dynamic,
    most: u64,
) -> Result<u64, FaultKind> {
    let (Some(place), Some(value)) = (place.held(store), value.held(store)) else {
        return Ok(0);
    };
    if op.plain != Token::Plus {
        return binary_cost(op.plain, means, store, place, value, most);
    }
    match (place.parts(), value.parts()) {
        (Union::Str(_, _, _), Union::Str(_, _, _) | Union::Char(_, _, _))
        | (Union::Blob(_, _, _), _) => Ok(own_bytes(value)),
        (Union::Array(_, _, _), Union::Array(_, _, more)) => Ok(values_cost(more.len())),
        (Union::Array(_, _, _), _) => Ok(0),
        (Union::Map(_, _, _), Union::Map(_, _, more)) => {
            Ok(copy_cost(means.alloc, value, most)?.saturating_add(entries_cost(more.len())))
        }
        (
            Union::Str(_, _, _)
            | Union::Map(_, _, _)
            | Union::Unit(_, _, _)
            | Union::Bool(_, _, _)
            | Union::Char(_, _, _)
            | Union::Int(_, _, _)
            | Union::FnPtr(_, _, _)
            | Union::Variant(_, _, _)
            | Union::Shared(_, _, _),
            _,
        ) => binary_cost(op.plain, means, store, place, value, most),
    }
}

/// Returns the cost of the bytes of a text or a blob.
fn own_bytes(value: &Dynamic) -> u64 {
    match value.parts() {
        Union::Str(_, _, text) => bytes_cost(text.len()),
        Union::Blob(_, _, bytes) => bytes_cost(bytes.len()),
        Union::Array(_, _, _)
        | Union::Map(_, _, _)
        | Union::FnPtr(_, _, _)
        | Union::Unit(_, _, _)
        | Union::Bool(_, _, _)
        | Union::Char(_, _, _)
        | Union::Int(_, _, _)
        | Union::Variant(_, _, _)
        | Union::Shared(_, _, _) => 0,
    }
}

fn walks_of_both(
    means: &Means,
    store: &Store,
    x: &Dynamic,
    y: &Dynamic,
    most: u64,
) -> Result<u64, FaultKind> {
    let first = walk_cost(means, store, x, most)?;
    Ok(first.saturating_add(walk_cost(means, store, y, most)?))
}

fn copies_of_both(means: &Means, x: &Dynamic, y: &Dynamic, most: u64) -> Result<u64, FaultKind> {
    let first = copy_cost(means.alloc, x, most)?;
    Ok(first.saturating_add(copy_cost(means.alloc, y, most)?))
}

/// Returns the cost of a sum of two values.
fn plus_cost(
    means: &Means,
    store: &Store,
    x: &Dynamic,
    y: &Dynamic,
    most: u64,
) -> Result<u64, FaultKind> {
    match (x.parts(), y.parts()) {
        (Union::Str(_, _, _), _) | (_, Union::Str(_, _, _)) => {
            let first = print_cost(means, store, x, most)?;
            Ok(first.saturating_add(print_cost(means, store, y, most)?))
        }
        (Union::Array(_, _, _), Union::Array(_, _, _)) => copies_of_both(means, x, y, most),
        (Union::Map(_, _, map), Union::Map(_, _, more)) => {
            let count = map.len().saturating_add(more.len());
            Ok(copies_of_both(means, x, y, most)?.saturating_add(entries_cost(count)))
        }
        (
            Union::Array(_, _, _)
            | Union::Map(_, _, _)
            | Union::Blob(_, _, _)
            | Union::FnPtr(_, _, _)
            | Union::Unit(_, _, _)
            | Union::Bool(_, _, _)
            | Union::Char(_, _, _)
            | Union::Int(_, _, _)
            | Union::Variant(_, _, _)
            | Union::Shared(_, _, _),
            _,
        ) => Ok(own_bytes(x).saturating_add(own_bytes(y))),
    }
}
