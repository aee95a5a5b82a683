//! Values that are reachable on many paths.
ghost use Rattle.std.specs.Prelude.{◌≡◌, ◌+◌, ◌<◌, true, length, is_some, IfOk, IfErr, IfSome, IfNone};
ghost use Rattle.rhai_value.specs.Tree.{cell_of};
ghost use Rattle.script_faults.specs.Walks.{IsRefusedWalk};

use crate::cost::{has_parts, operations_of, own_cost, push_parts, values_within, walk_weight};
use crate::faults::FaultKind;
use crate::resources::Means;
use rhai_text::{EvalAltResult, Position, SizeKind};
use rhai_value::{Dynamic, Path, Store};
use std::alloc::AllocError;
use std::mem;

/// Refuses to print or compare a value if a walk would visit more values in its cells than an array
/// may have items. A walk visits a cell on each path to it, so a small value may take very many
/// visits.
/// Errors: `ErrorDataTooLarge`, without a position; an allocation fails.
/// Cost: what is visited, as far as it is allowed; memory for work lists, one for each open cell.
pub fn check_ways(means: &Means, store: &Store, value: &Dynamic) -> Result<(), FaultKind>
    ensures err { IfErr result (IsRefusedWalk means.now.limits) }
{
    walk_cost(means, store, value, u64::MAX)?;
    Ok(())
}

/// Counts the operations of a walk over a value and everything in it, entering cells on each path
/// to them. Stops counting once the result is more than `most`.
/// Errors: as `check_ways`, as far as it is counted.
/// Cost: that of `check_ways`.
pub fn walk_cost(means: &Means, store: &Store, value: &Dynamic, most: u64) -> Result<u64, FaultKind>
    ensures err { IfErr result (IsRefusedWalk means.now.limits) }
{
    let mut first = Vec::new(means.alloc);
    if leads_on(value) {
        first.push(value)?;
        return Ok(operations_of(go_through(means, store, first, 0, most)?));
    }
    Ok(operations_of(walk_weight(value)))
}

/// Counts the operations of printing the value held by a value, as `walk_cost` counts; anything but
/// a text is written item by item, and each item counts three times.
/// Errors: as `check_ways`, as far as it is counted.
/// Cost: that of `check_ways`.
pub fn print_cost(
    means: &Means,
    store: &Store,
    value: &Dynamic,
    most: u64,
) -> Result<u64, FaultKind>
    ensures err { IfErr result (IsRefusedWalk means.now.limits) }
{
    let cost = walk_cost(means, store, value, most)?;
    if value.is_string(store) {
        return Ok(cost);
    }
    Ok(cost.saturating_mul(3))
}

/// Refuses values that are visited together, as `check_ways` does for one.
/// Errors: `ErrorDataTooLarge`, without a position; an allocation fails.
/// Cost: that of `check_ways`.
pub fn check_all_ways(means: &Means, store: &Store, values: &[Dynamic]) -> Result<(), FaultKind>
    ensures err { IfErr result (IsRefusedWalk means.now.limits) }
{
    walks_cost(means, store, values, u64::MAX)?;
    Ok(())
}

/// Counts the operations of a walk over several values, as `walk_cost` does for one.
/// Errors: as `check_ways`, as far as it is counted.
/// Cost: that of `check_ways`.
pub fn walks_cost(
    means: &Means,
    store: &Store,
    values: &[Dynamic],
    most: u64,
) -> Result<u64, FaultKind>
    ensures err { IfErr result (IsRefusedWalk means.now.limits) }
{
    let mut first = Vec::new(means.alloc);
    let mut small = values.len() as u64;
    for value in values {
        if leads_on(value) {
            first.push(value)?;
        } else {
            small = small.saturating_add(walk_weight(value));
        }
    }
    Ok(operations_of(go_through(means, store, first, small, most)?))
}

fn leads_on(value: &Dynamic) -> bool {
    has_parts(value) || value.is_shared()
}

/// Counts the visited values, plus this many; stops once they cost more than this many operations.
fn go_through<'v>(
    means: &Means,
    store: &'v Store,
    first: Vec<&'v Dynamic>,
    beside: u64,
    most: u64,
) -> Result<u64, FaultKind>
    ensures { IfErr result (IsRefusedWalk means.now.limits) }
{
    let mut level = first;
    let mut outer = Vec::new(means.alloc);
    let mut path = Path::new(means.alloc);
    let mut gone = 0u64;
    let mut weight = beside;
    let end = values_within(most);
    for _ in 0..u64::MAX {
        if weight > end {
            break;
        }
        let Some(value) = level.pop() else {
            let Some(up) = outer.pop() else {
                break;
            };
            close(&mut path);
            level = up;
            continue;
        };
        weight = weight.saturating_add(walk_weight(value));
        if !value.is_shared() {
            push_parts(value, &mut level)?;
        } else if let Some(content) = open(&mut path, store, value)? {
            let mut inner = Vec::new(means.alloc);
            inner.push(content)?;
            outer.push(mem::replace(&mut level, inner))?;
            weight = weight.saturating_add(1);
        }
        if !outer.is_empty() {
            gone = gone.saturating_add(own_cost(value)).saturating_add(1);
            check_count(means, gone)?;
        }
    }
    Ok(weight)
}

/// Enters the cell of a holder, unless it is already open or can't be read.
fn open<'s>(
    path: &mut Path,
    store: &'s Store,
    value: &Dynamic,
) -> Result<Option<&'s Dynamic>, AllocError>
    requires { is_some (cell_of value.now) ≡ true }
    ensures opened { IfOk result (λ o. IfSome o (λ _. length path.new ≡ length path.old + 1)) }
    ensures stays { IfOk result (λ o. IfNone o (length path.new ≡ length path.old)) }
{
    path.enter(store, value)
}

/// Leaves the cell that was entered last.
fn close(path: &mut Path)
    requires { 0 < length path.old }
    ensures { length path.new + 1 ≡ length path.old }
{
    path.leave();
}

/// Fails if these are more values than an array may have items.
fn check_count(means: &Means, count: u64) -> Result<(), FaultKind>
    ensures { IfErr result (IsRefusedWalk means.now.limits) }
{
    let most = means.limits.items as u64;
    if most != 0 && count > most {
        return Err(FaultKind::Layer(EvalAltResult::ErrorDataTooLarge(
            SizeKind::Items,
            Position::NONE,
        )));
    }
    Ok(())
}
