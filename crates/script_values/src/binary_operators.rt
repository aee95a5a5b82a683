//! Binary operators.
ghost use Rattle.std.specs.Prelude.{◌≡◌, IfOk, IfSome};
ghost use Rattle.rhai_ops.specs.Outcome.{answers};
ghost use Rattle.rhai_ops.specs.Results.{outcome};
ghost use Rattle.rhai_ops.specs.Table.{row_of};

use crate::map_functions::check_entries;
use rhai_ops::get_builtin_binary_op_fn;
use rhai_ops::laws::{operators_write_nothing, rows_suit};
use rhai_packs::maps;
use rhai_show::{display_text, same_value};
use rhai_text::{ImmutableString, SizeKind, Token};
use rhai_value::{Array, Dynamic, Map, Store};
use script_faults::{FaultKind, Means, check_size, check_ways, in_use};

/// Applies an operator to two values, which are only read. The built-in operators come first. If
/// they have no row, `+` appends to a text the printed form of any value, or prepends it; arrays
/// and maps are joined; and values are compared without tags, modes and holders.
/// Errors: those of the built-in operators, `NoOperator` if the operator has no meaning here, and a
/// size past its limit.
/// Cost: that of the row; of the others the length of both operands, with everything in them.
/// rhai: a binary operator, built in or of the packages.
#[inline(always)]
pub fn binary(
    op: Token,
    means: &Means,
    store: &Store,
    x: &Dynamic,
    y: &Dynamic,
) -> Result<Dynamic, FaultKind>
    ensures built_in { IfOk result (λ d. IfSome (row_of op store.now x.now y.now) (λ row. outcome row means.now.limits store.now x.now y.now ≡ answers d)) }
{
    match get_builtin_binary_op_fn(&op, x, y, store) {
        Some(row) => {
            rows_suit();
            operators_write_nothing();
            match row.call_ref(means.alloc, store, &means.limits, x, y) {
                Ok(value) => Ok(value),
                Err(error) => Err(FaultKind::Layer(error)),
            }
        }
        None => held_binary(op, means, store, x, y),
    }
}

/// As `binary`, for the held values, if the built-in operators have no row for the values
/// themselves.
#[inline(never)]
fn held_binary(
    op: Token,
    means: &Means,
    store: &Store,
    x: &Dynamic,
    y: &Dynamic,
) -> Result<Dynamic, FaultKind> {
    let (Some(x), Some(y)) = (x.held(store), y.held(store)) else {
        return Err(in_use());
    };
    if let Some(row) = get_builtin_binary_op_fn(&op, x, y, store) {
        rows_suit();
        operators_write_nothing();
        return Ok(row.call_ref(means.alloc, store, &means.limits, x, y)?);
    }
    if op == Token::EqualsTo {
        return Ok(Dynamic::from_bool(is_same(means, store, x, y)?));
    }
    if op == Token::NotEqualsTo {
        return Ok(Dynamic::from_bool(!is_same(means, store, x, y)?));
    }
    if op == Token::Plus {
        if let Some(answer) = joined(means, store, x, y)? {
            return Ok(answer);
        }
    }
    Err(FaultKind::NoOperator(op, x.type_name(store), y.type_name(store)))
}

/// Whether two values are equal without tags, modes and holders; a value that has no such form
/// equals nothing.
fn is_same(means: &Means, store: &Store, x: &Dynamic, y: &Dynamic) -> Result<bool, FaultKind> {
    check_ways(means, store, x)?;
    check_ways(means, store, y)?;
    Ok(same_value(means.alloc, x, y, store)?.unwrap_or(false))
}

/// Joins two values, if one of them is a text or both are arrays or both are maps.
fn joined(
    means: &Means,
    store: &Store,
    x: &Dynamic,
    y: &Dynamic,
) -> Result<Option<Dynamic>, FaultKind> {
    if let Ok(first) = x.as_immutable_string_ref(store) {
        check_ways(means, store, y)?;
        let second = display_text(means.alloc, y, store)?;
        return Ok(Some(join_texts(means, first.as_str(), second.as_str())?));
    }
    if let Ok(second) = y.as_immutable_string_ref(store) {
        check_ways(means, store, x)?;
        let first = display_text(means.alloc, x, store)?;
        return Ok(Some(join_texts(means, first.as_str(), second.as_str())?));
    }
    if let (Ok(first), Ok(second)) = (x.as_array_ref(store), y.as_array_ref(store)) {
        return Ok(Some(join_arrays(means, first, second)?));
    }
    if let (Ok(first), Ok(second)) = (x.as_map_ref(store), y.as_map_ref(store)) {
        return Ok(Some(join_maps(means, first, second)?));
    }
    Ok(None)
}

fn join_texts(means: &Means, first: &str, second: &str) -> Result<Dynamic, FaultKind> {
    let length = first.len().saturating_add(second.len());
    check_size(means.limits.text, length, SizeKind::Text)?;
    let first = ImmutableString::from_str(means.alloc, first)?;
    Ok(Dynamic::from(first.concat(means.alloc, second)?))
}

fn join_arrays(means: &Means, first: &Array, second: &Array) -> Result<Dynamic, FaultKind> {
    let count = first.len().saturating_add(second.len());
    check_size(means.limits.items, count, SizeKind::Items)?;
    let mut items = Vec::new(means.alloc);
    items.reserve(count)?;
    for item in first {
        items.push(item.copy(means.alloc)?)?;
    }
    for item in second {
        items.push(item.copy(means.alloc)?)?;
    }
    Ok(Dynamic::from_array(items))
}

fn join_maps(means: &Means, first: &Map, second: &Map) -> Result<Dynamic, FaultKind> {
    check_entries(means, first, second)?;
    let mut map = Map::new(means.alloc);
    for (key, value) in first {
        maps::set(&mut map, key, value.copy(means.alloc)?)?;
    }
    for (key, value) in second {
        maps::set(&mut map, key, value.copy(means.alloc)?)?;
    }
    Ok(Dynamic::from_map(map))
}
