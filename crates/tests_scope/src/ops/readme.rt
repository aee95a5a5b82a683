//! The callers in the README of `rhai_ops`.
ghost use Rattle.std.specs.Prelude.{◌≡◌, None, IfNone, IfOk, IfSome};
ghost use Rattle.rhai_ops.specs.AssignTable.{assign_row};
ghost use Rattle.rhai_ops.specs.Outcome.{answers};
ghost use Rattle.rhai_ops.specs.Results.{outcome};
ghost use Rattle.rhai_ops.specs.Table.{row_of};
ghost use Rattle.rhai_ops.specs.Effects.{first_left, effect};

use rhai_ops::laws::{operators_write_nothing, rows_suit};
use rhai_ops::{get_builtin_binary_op_fn, get_builtin_op_assignment_fn};
use rhai_text::{EvalAltResult, Limits, Token};
use rhai_value::{Dynamic, Store};
use std::alloc::Global;

/// Returns an operator's result for two values, or `None` if it isn't built in. Both are unchanged.
pub(crate) fn operate(
    op: Token,
    alloc: Global,
    store: &mut Store,
    limits: &Limits,
    left: &mut Dynamic,
    right: &mut Dynamic,
) -> Result<Option<Dynamic>, EvalAltResult>
    ensures none { IfOk result (λ d. IfNone d (row_of op store.old left.old right.old ≡ None)) }
    ensures some { IfOk result (λ d. IfSome d (λ v. IfSome (row_of op store.old left.old right.old) (λ row. outcome row limits.now store.old left.old right.old ≡ answers v))) }
    ensures first { left.new ≡ left.old }
{
    let Some(row) = get_builtin_binary_op_fn(&op, left, right, store) else {
        return Ok(None);
    };
    rows_suit();
    operators_write_nothing();
    Ok(Some(row.call(alloc, store, limits, left, right)?))
}

/// Assigns to a value, and returns whether the assignment is built in.
pub(crate) fn assign(
    op: Token,
    alloc: Global,
    store: &mut Store,
    limits: &Limits,
    left: &mut Dynamic,
    right: &mut Dynamic,
) -> Result<bool, EvalAltResult>
    ensures { IfOk result (λ d. IfSome (assign_row op left.old right.old) (λ row. left.new ≡ first_left (effect row) (outcome row limits.now store.old left.old right.old) store.old left.old)) }
{
    let Some(row) = get_builtin_op_assignment_fn(&op, left, right) else {
        return Ok(false);
    };
    rows_suit();
    row.call(alloc, store, limits, left, right)?;
    Ok(true)
}
