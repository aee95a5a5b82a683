//! The size of a value, and how many operations a walk over it counts. An operation pays for four
//! values, or for 64 bytes.
ghost use Rattle.std.specs.Prelude.{◌≡◌, ◌+◌, ◌*◌, ◌/◌, false, IsOk};
ghost use Rattle.script_faults.specs.Cost.{capped, has_parts, text_cost};

use rhai_text::ImmutableString;
use rhai_value::{Dynamic, Union};
use std::alloc::{AllocError, Global};

/// How many values one operation pays for.
const VALUES: u64 = 4;

/// How many bytes one operation pays for.
const BYTES: u64 = 64;

/// Returns how many operations a walk over this many values counts.
pub fn values_cost(count: usize) -> u64
    ensures { result ≡ count / 4 }
{
    operations_of(count as u64)
}

/// Returns how many operations a walk over this many bytes counts.
pub fn bytes_cost(count: usize) -> u64
    ensures { result ≡ count / 64 }
{
    operations_of_bytes(count as u64)
}

/// Returns the operations of a walk over the characters of a text: a text of ASCII needs no walk.
pub fn characters_cost(text: &ImmutableString) -> u64
    ensures { result ≡ text_cost text.now }
{
    let own = bytes_cost(text.len());
    if text.char_count() == text.len() {
        return own;
    }
    own.saturating_add(values_cost(text.len()))
}

/// Returns the operations for this many values.
pub fn operations_of(values: u64) -> u64
    ensures { result ≡ values / 4 }
{
    values / VALUES
}

/// Returns the operations for this many bytes.
pub fn operations_of_bytes(bytes: u64) -> u64
    ensures { result ≡ bytes / 64 }
{
    bytes / BYTES
}

/// Returns the operations for adding this many entries to maps: three each, for a search and an
/// insertion.
pub fn entries_cost(count: usize) -> u64
    ensures { result ≡ capped (3 * count) }
{
    (count as u64).saturating_mul(3)
}

/// Returns a bound on the number of values that cost at most this many operations.
pub(crate) fn values_within(operations: u64) -> u64 {
    operations.saturating_add(1).saturating_mul(VALUES)
}

/// Counts the values in a value, at any depth; a text and a blob count one for each 64 bytes. Cells
/// aren't entered.
/// Errors: the allocation of the work list fails.
/// Cost: the number of values.
pub fn cost_of(alloc: Global, value: &Dynamic) -> Result<u64, AllocError>
    ensures free { has_parts value.now ≡ false → IsOk result }
{
    if !has_parts(value) {
        return Ok(own_cost(value));
    }
    let mut cost = 0u64;
    let mut left = Vec::new(alloc);
    left.push(value)?;
    for _ in 0..u64::MAX {
        let Some(next) = left.pop() else {
            break;
        };
        cost = cost.saturating_add(own_cost(next));
        push_parts(next, &mut left)?;
    }
    Ok(cost)
}

/// Counts the operations of a copy of a value, with everything in it outside cells. A text counts
/// its bytes, since a change of the copy or of the text itself copies them. Stops counting once the
/// result is more than `most`.
/// Errors: the allocation of the work list fails.
/// Cost: the number of values that are counted.
pub fn copy_cost(alloc: Global, value: &Dynamic, most: u64) -> Result<u64, AllocError>
    ensures free { has_parts value.now ≡ false → IsOk result }
{
    let own = own_weight(value);
    if !has_parts(value) || operations_of(own) > most {
        return Ok(operations_of(own));
    }
    let mut left = Vec::new(alloc);
    push_parts(value, &mut left)?;
    Ok(operations_of(weight_of(left, own, most)?))
}

/// Counts the operations of copies of values, as `copy_cost` does for one.
/// Errors: the allocation of the work list fails.
/// Cost: the number of values that are counted.
pub fn copies_cost(alloc: Global, values: &[Dynamic], most: u64) -> Result<u64, AllocError> {
    let own = values.len() as u64;
    if operations_of(own) > most {
        return Ok(operations_of(own));
    }
    let mut left = Vec::new(alloc);
    for value in values {
        push_costly(value, &mut left)?;
    }
    Ok(operations_of(weight_of(left, own, most)?))
}

/// Returns the weight of values with everything in them, plus this weight.
fn weight_of(values: Vec<&Dynamic>, own: u64, most: u64) -> Result<u64, AllocError> {
    let mut left = values;
    let mut weight = own;
    let end = values_within(most);
    for _ in 0..u64::MAX {
        if weight > end {
            break;
        }
        let Some(next) = left.pop() else {
            break;
        };
        weight = weight.saturating_add(own_weight(next));
        push_parts(next, &mut left)?;
    }
    Ok(weight)
}

/// Whether a value contains other values.
pub fn has_parts(value: &Dynamic) -> bool
    ensures { result ≡ has_parts value.now }
{
    matches!(
        value.parts(),
        Union::Array(_, _, _) | Union::Map(_, _, _) | Union::FnPtr(_, _, _)
    )
}

/// Returns how many values are directly in a value, or how many times 64 bytes.
pub(crate) fn own_cost(value: &Dynamic) -> u64 {
    let count = match value.parts() {
        Union::Array(_, _, items) => items.len(),
        Union::Map(_, _, map) => map.len(),
        Union::FnPtr(_, _, function) => function.curry().len(),
        Union::Str(_, _, text) => text.len() / 64,
        Union::Blob(_, _, bytes) => bytes.len() / 64,
        Union::Unit(_, _, _)
        | Union::Bool(_, _, _)
        | Union::Char(_, _, _)
        | Union::Int(_, _, _)
        | Union::Variant(_, _, _)
        | Union::Shared(_, _, _) => 0,
    };
    count as u64
}

/// Returns the weight of a walk over what is directly in a value, its parts and its bytes, as a
/// number of values. An entry of a map weighs as two, and so does a function pointer without its
/// curried values.
pub(crate) fn own_weight(value: &Dynamic) -> u64 {
    match value.parts() {
        Union::Array(_, _, items) => items.len() as u64,
        Union::Map(_, _, map) => {
            let mut weight = (map.len() as u64).saturating_mul(2);
            for (key, _) in map {
                weight = weight.saturating_add(weight_of_bytes(key.len()));
            }
            weight
        }
        Union::FnPtr(_, _, function) => (function.curry().len() as u64).saturating_add(2),
        Union::Str(_, _, text) => weight_of_bytes(text.len()),
        Union::Blob(_, _, bytes) => weight_of_bytes(bytes.len()),
        Union::Unit(_, _, _)
        | Union::Bool(_, _, _)
        | Union::Char(_, _, _)
        | Union::Int(_, _, _)
        | Union::Variant(_, _, _)
        | Union::Shared(_, _, _) => 0,
    }
}

/// As `own_weight`, if a value is printed or compared: a blob's bytes then weigh more than those of
/// a text.
pub(crate) fn walk_weight(value: &Dynamic) -> u64 {
    match value.parts() {
        Union::Blob(_, _, bytes) => bytes.len() as u64,
        Union::Array(_, _, _)
        | Union::Map(_, _, _)
        | Union::FnPtr(_, _, _)
        | Union::Str(_, _, _)
        | Union::Unit(_, _, _)
        | Union::Bool(_, _, _)
        | Union::Char(_, _, _)
        | Union::Int(_, _, _)
        | Union::Variant(_, _, _)
        | Union::Shared(_, _, _) => own_weight(value),
    }
}

/// Returns the weight of this many bytes, as a number of values.
fn weight_of_bytes(count: usize) -> u64 {
    bytes_cost(count).saturating_mul(VALUES)
}

/// Adds the values in a value that have a size of their own, and those that are shared.
pub(crate) fn push_parts<'v>(
    value: &'v Dynamic,
    left: &mut Vec<&'v Dynamic>,
) -> Result<(), AllocError> {
    if let Union::Array(_, _, items) = value.parts() {
        for item in items.iter() {
            push_costly(item, left)?;
        }
    }
    if let Union::Map(_, _, map) = value.parts() {
        for (_, item) in map {
            push_costly(item, left)?;
        }
    }
    if let Union::FnPtr(_, _, function) = value.parts() {
        for item in function.curry() {
            push_costly(item, left)?;
        }
    }
    Ok(())
}

fn push_costly<'v>(value: &'v Dynamic, left: &mut Vec<&'v Dynamic>) -> Result<(), AllocError> {
    if has_parts(value) || value.is_shared() || own_cost(value) > 0 {
        left.push(value)?;
    }
    Ok(())
}
