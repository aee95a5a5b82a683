//! Assigning operators.
ghost use Rattle.std.specs.Prelude.{◌≡◌, OnOk, IfSome};
ghost use Rattle.rhai_ops.specs.AssignTable.{assign_row};
ghost use Rattle.rhai_ops.specs.Effects.{first_left, effect};
ghost use Rattle.rhai_ops.specs.Results.{outcome};

use crate::binary_operators::binary;
use crate::map_functions::check_entries;
use rhai_ops::get_builtin_op_assignment_fn;
use rhai_ops::laws::rows_suit;
use rhai_packs::maps;
use rhai_text::Token;
use rhai_value::{Dynamic, Map, Part, Store};
use script_faults::{FaultKind, Means, in_use};

/// An assigning operator, and the operator that it applies: `+=` and `+`.
#[derive(Clone, Copy)]
pub struct Assignment {
    /// The assigning operator.
    pub whole: Token,
    /// The operator whose result it assigns.
    pub plain: Token,
}

/// Assigns the result of an operator, for the value held at a place and another value, to that
/// place. The built-in assignments come first; if they have no row, the place gets the operator's
/// result.
/// Errors: those of the operator; place and store are then unchanged, if the place is no holder.
/// Cost: that of the row, or of `binary`.
/// rhai: an assignment by an operator.
#[inline(always)]
pub fn assign(
    op: Assignment,
    means: &Means,
    store: &mut Store,
    place: &mut Dynamic,
    value: &mut Dynamic,
) -> Result<(), FaultKind>
    ensures built_in { OnOk result (IfSome (assign_row op.whole place.old value.old) (λ row. place.new ≡ first_left (effect row) (outcome row means.now.limits store.old place.old value.old) store.old place.old)) }
{
    match get_builtin_op_assignment_fn(&op.whole, place, value) {
        Some(row) => {
            rows_suit();
            row.call(means.alloc, store, &means.limits, place, value)?;
            Ok(())
        }
        None => assign_answer(op, means, store, place, value),
    }
}

/// As `assign`, if the built-in assignments have no row for the place itself.
#[inline(never)]
fn assign_answer(
    op: Assignment,
    means: &Means,
    store: &mut Store,
    place: &mut Dynamic,
    value: &mut Dynamic,
) -> Result<(), FaultKind> {
    let done = place.with_held(
        store,
        |held, store| assign_held(op, means, store, held, value),
    );
    match done {
        Ok(done) => done,
        Err(_) => Err(in_use()),
    }
}

/// As `assign`, for a value that is no holder.
fn assign_held(
    op: Assignment,
    means: &Means,
    store: &mut Store,
    held: &mut Dynamic,
    value: &mut Dynamic,
) -> Result<(), FaultKind> {
    if let Some(row) = get_builtin_op_assignment_fn(&op.whole, held, value) {
        rows_suit();
        row.call(means.alloc, store, &means.limits, held, value)?;
        return Ok(());
    }
    if op.plain == Token::Plus {
        let is_done = mixed_in(means, store, held, value)?;
        if is_done {
            return Ok(());
        }
    }
    let answer = binary(op.plain, means, store, held, value)?;
    *held = answer;
    Ok(())
}

/// Copies the entries of a map into the held one, and returns whether both are maps.
fn mixed_in(
    means: &Means,
    store: &Store,
    held: &mut Dynamic,
    value: &Dynamic,
) -> Result<bool, FaultKind> {
    let Ok(more) = value.as_map_ref(store) else {
        return Ok(false);
    };
    let Some(entries) = Map::own_mut(held) else {
        return Ok(false);
    };
    check_entries(means, entries, more)?;
    for (key, item) in more {
        maps::set(entries, key, item.copy(means.alloc)?)?;
    }
    Ok(true)
}
