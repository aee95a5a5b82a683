//! The steps of the guide, one function each.
ghost use Rattle.std.specs.Prelude.{◌≡◌, ◌⊎◌, [], Err, IfErr, IfOk, IfSome, IsOk, MatchOption, None, OnErr, OnOk, Some, false, option_map, string_bytes, true};
ghost use Rattle.std.specs.Str.{chars};
ghost use Rattle.rhai_ops.specs.AssignTable.{assign_row};
ghost use Rattle.rhai_ops.specs.Effects.{effect, first_left, second_left, store_left};
ghost use Rattle.rhai_ops.specs.Outcome.{IsOutcome, answers};
ghost use Rattle.rhai_ops.specs.Results.{MayWant, outcome};
ghost use Rattle.rhai_ops.specs.Table.{row_of};
ghost use Rattle.rhai_scope.specs.Entry.{pushed, with_value};
ghost use Rattle.rhai_scope.specs.Lookup.{changed_at, last_position, value_at, value_named};
ghost use Rattle.rhai_show.specs.Text.{printed};
ghost use Rattle.rhai_show.specs.declared.form.Form.TheVariants.{Display};
ghost use Rattle.rhai_value.specs.End.{flat};
ghost use Rattle.rhai_value.specs.Places.{put_answer, put_store, put_value, way};
ghost use Rattle.rhai_value.specs.Roots.{AreCollected};
ghost use Rattle.rhai_value.specs.Store.{shared_store, shared_value};
ghost use Rattle.rhai_value.specs.Tree.{copy, mode_of};
ghost use Rattle.rhai_value.specs.declared.places.step.PlaceError.{PlaceError as Nowhere};

use rhai_ops::laws::{operators_write_nothing, rows_suit};
use rhai_ops::{get_builtin_binary_op_fn, get_builtin_op_assignment_fn};
use rhai_scope::Scope;
use rhai_scope::laws::positions_are_written_alone;
use rhai_show::display_text;
use rhai_target::ReadPart;
use rhai_text::{EvalAltResult, Limits, Position, Token};
use rhai_value::{Dynamic, INT, PlaceError, Roots, Step, Store};
use std::alloc::{AllocError, Global};

/// Formats a value.
/// Errors: the allocation of the text fails.
pub fn show(alloc: Global, value: &Dynamic, store: &Store) -> Result<String, AllocError>
    ensures { IfOk result (λ t. chars (string_bytes t) ≡ printed store.now [] value.now Display) }
{
    display_text(alloc, value, store)
}

/// Declares a variable: `let name = value`.
/// Errors: the allocation of the entry fails; the scope is unchanged.
pub fn declare(scope: &mut Scope, name: &str, value: Dynamic) -> Result<(), AllocError>
    ensures ok { OnOk result (scope.new ≡ pushed (mode_of value) (chars name.now) value scope.old) }
    ensures err { OnErr result (scope.new ≡ scope.old) }
{
    scope.push_dynamic(name, value)
}

/// Reads a variable: a copy of its value, without holders. `None` if no variable has the name.
/// Errors: the allocation of the copy fails.
pub fn read(
    alloc: Global,
    scope: &Scope,
    store: &Store,
    name: &str,
) -> Result<Option<Dynamic>, AllocError>
    ensures value { IfOk result (λ d. d ≡ option_map (flat store.now) (value_named (chars name.now) scope.now)) }
    ensures missing { value_named (chars name.now) scope.now ≡ None → IsOk result }
{
    match scope.get(name) {
        Some(value) => Ok(Some(value.flatten_clone(alloc, store)?)),
        None => Ok(None),
    }
}

/// Returns `x op y`, or `None` if the operator isn't built in for these two.
/// Errors: those of the row, or the allocation of the result fails.
pub fn operate(
    op: Token,
    alloc: Global,
    store: &Store,
    limits: &Limits,
    x: &Dynamic,
    y: &Dynamic,
) -> Result<Option<Dynamic>, EvalAltResult>
    ensures ok { IfOk result (λ d. MatchOption (row_of op store.now x.now y.now) (d ≡ None) (λ row. option_map answers d ≡ Some (outcome row limits.now store.now x.now y.now))) }
    ensures err { IfErr result (λ e. MatchOption (row_of op store.now x.now y.now) ⊥ (λ row. IsOutcome (MayWant row x.now y.now) (Err e) (outcome row limits.now store.now x.now y.now))) }
{
    let Some(row) = get_builtin_binary_op_fn(&op, x, y, store) else {
        return Ok(None);
    };
    rows_suit();
    operators_write_nothing();
    Ok(Some(row.call_ref(alloc, store, limits, x, y)?))
}

/// Captures a variable: from now on it and the result are holders of one cell. `None` if no
/// variable has the name.
/// Errors: the allocation of the cell or the holder fails.
pub fn capture(
    alloc: Global,
    scope: &mut Scope,
    store: &mut Store,
    name: &str,
) -> Result<Option<Dynamic>, AllocError>
    ensures holder { IfOk result (λ d. MatchOption (last_position (chars name.now) scope.old) (d ≡ None) (λ i. d ≡ option_map (λ t. copy (shared_value store.old t)) (value_at scope.old (Some i)))) }
    ensures scope { IfOk result (λ d. MatchOption (last_position (chars name.now) scope.old) (scope.new ≡ scope.old) (λ i. IfSome (value_at scope.old (Some i)) (λ t. scope.new ≡ changed_at (with_value (shared_value store.old t)) scope.old i))) }
    ensures store { IfOk result (λ d. MatchOption (last_position (chars name.now) scope.old) (store.new ≡ store.old) (λ i. IfSome (value_at scope.old (Some i)) (λ t. store.new ≡ shared_store store.old t))) }
    ensures missing { last_position (chars name.now) scope.old ≡ None → IsOk result }
{
    let Some(i) = scope.search(name) else {
        return Ok(None);
    };
    positions_are_written_alone();
    scope.at_mut(i).share_in_place(store)?;
    Ok(Some(scope.at(i).copy(alloc)?))
}

/// Writes to a place: `a[i].f = other`, where `a` may be captured.
/// Errors: the step that leads nowhere and why; everything is unchanged.
pub fn set_at(
    value: &mut Dynamic,
    store: &mut Store,
    steps: &[Step<'_>],
    other: Dynamic,
) -> Result<(), PlaceError>
    ensures answer { result ≡ put_answer (way steps.now store.old value.old) }
    ensures value { value.new ≡ put_value other (way steps.now store.old value.old) value.old }
    ensures store { store.new ≡ put_store other (way steps.now store.old value.old) store.old }
{
    value.put_at(store, steps, other)
}

/// Does `x op y` for an assigning operator, such as `x += y`. `Ok(false)` if the operator isn't
/// built in for these two.
/// Errors: those of the row, or the allocation of the result fails; everything is unchanged.
pub fn assign(
    op: Token,
    alloc: Global,
    store: &mut Store,
    limits: &Limits,
    x: &mut Dynamic,
    y: &mut Dynamic,
) -> Result<bool, EvalAltResult>
    ensures found { IfOk result (λ done. MatchOption (assign_row op x.old y.old) (done ≡ false) (λ row. done ≡ true)) }
    ensures first { IfOk result (λ done. MatchOption (assign_row op x.old y.old) (x.new ≡ x.old) (λ row. x.new ≡ first_left (effect row) (outcome row limits.now store.old x.old y.old) store.old x.old)) }
    ensures second { IfOk result (λ done. MatchOption (assign_row op x.old y.old) (y.new ≡ y.old) (λ row. y.new ≡ second_left (effect row) (outcome row limits.now store.old x.old y.old) y.old)) }
    ensures store { IfOk result (λ done. MatchOption (assign_row op x.old y.old) (store.new ≡ store.old) (λ row. store.new ≡ store_left (effect row) (outcome row limits.now store.old x.old y.old) store.old x.old)) }
    ensures err { IfErr result (λ e. MatchOption (assign_row op x.old y.old) ⊥ (λ row. IsOutcome (MayWant row x.old y.old) (Err e) (outcome row limits.now store.old x.old y.old))) }
    ensures stays { OnErr result ((x.new ≡ x.old) × (y.new ≡ y.old) × (store.new ≡ store.old)) }
{
    let Some(row) = get_builtin_op_assignment_fn(&op, x, y) else {
        return Ok(false);
    };
    rows_suit();
    row.call(alloc, store, limits, x, y)?;
    Ok(true)
}

/// Does the same to a place: `a[i].f += y`.
/// Errors: the step that leads nowhere and why, and everything is unchanged; inside `Ok` those of
/// `assign`.
pub fn assign_at(
    op: Token,
    alloc: Global,
    value: &mut Dynamic,
    store: &mut Store,
    limits: &Limits,
    steps: &[Step<'_>],
    y: &mut Dynamic,
) -> Result<Result<bool, EvalAltResult>, PlaceError>
    ensures { (why : Nowhere) → way steps.now store.old value.old ≡ Err why → (result ≡ Err why) × (value.new ≡ value.old) × (store.new ≡ store.old) }
{
    value.with_place(store, steps, |place, store| {
        assign(op, alloc, store, limits, place, y)
    })
}

/// Writes a character of a text: `s[i] = 'c'`. `Ok(false)` if there is none at the index.
/// Errors: the allocation of the text fails; everything is unchanged.
pub fn set_char(
    alloc: Global,
    text: &mut Dynamic,
    store: &mut Store,
    index: INT,
    character: char,
) -> Result<bool, EvalAltResult>
    ensures none { IfOk result (λ done. done ≡ false → (text.new ≡ text.old) × (store.new ≡ store.old)) }
    ensures err { OnErr result ((text.new ≡ text.old) × (store.new ≡ store.old)) }
{
    let Ok(mut part) = ReadPart::char_at(text, store, index) else {
        return Ok(false);
    };
    part.value = Dynamic::from_char(character);
    part.write_back(text, alloc, store, Position::NONE)?;
    Ok(true)
}

/// Frees the cells that no value on the stack reaches, if a collection is due.
/// Errors: an allocation of the search fails; everything is unchanged.
pub fn tidy(roots: &mut Roots, store: &mut Store) -> Result<(), AllocError>
    ensures ok { OnOk result (((roots.new ≡ roots.old) × (store.new ≡ store.old)) ⊎ AreCollected roots.old store.old roots.new store.new) }
    ensures err { OnErr result ((roots.new ≡ roots.old) × (store.new ≡ store.old)) }
{
    roots.collect_if_due(store)
}
