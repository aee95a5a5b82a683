//! Making targets.
ghost use Rattle.std.specs.Prelude.{◌≡◌, true, IfOk, IfErr, Some, None};
ghost use Rattle.std.specs.Borrow.{sem, follows_if, name_if_ok};
ghost use Rattle.rhai_text.specs.declared.error.EvalAltResult.TheVariants.{ErrorDataRace};
ghost use Rattle.rhai_value.specs.contracts.value.dynamic.Dynamic as dynamic_type;
ghost use Rattle.rhai_value.specs.End.{first_cell};
ghost use Rattle.rhai_value.specs.Store.{marked_with, is_marked_at};
ghost use Rattle.rhai_value.specs.Tree.{copy};
ghost use Rattle.rhai_target.specs.Resolved.{IsResolved, IsMarkedResolved, resolved_target};

use crate::target::Target;
use rhai_text::{EvalAltResult, Position};
use rhai_value::{AccessMode, Dynamic, Store, Union, WriteToken};

/// A value that isn't a holder.
#[derive(Drop)]
pub(crate) struct Whole<'a> {
    value: &'a mut Dynamic,
}

/// The mark of a holder's cell, with a copy of the holder.
pub(crate) struct Marked {
    pub(crate) token: WriteToken,
    pub(crate) shared_value: Dynamic,
}

/// A value that isn't a holder as it is; for a holder, marks its cell, and leaves the holder
/// unchanged.
pub(crate) fn resolve<'a>(
    value: &'a mut Dynamic,
    store: &mut Store,
) -> Result<Whole<'a>, Result<Marked, EvalAltResult>>
    ensures* stays { sem 𝓛 (follows_if dynamic_type.the_row dynamic_type.the_row value.entry.ghost_name (name_if_ok (λ w. w.value.ghost_name) result) (λ w. w) value.old) }
    ensures which { IsResolved store.old value.entry result }
    ensures marks { store.new ≡ marked_with (first_cell store.old value.old) store.old }
    ensures marked { IsMarkedResolved store.new result }
{
    if value.is_shared() {
        Err(mark_cell(value, store))
    } else {
        Ok(Whole { value })
    }
}

/// Marks the cell of a holder, and copies the holder. Fails with `ErrorDataRace`, and changes
/// nothing, exactly if there is no cell to mark: for a value that isn't a holder, and for a cell
/// that is marked or not in the store.
pub(crate) fn mark_cell(value: &Dynamic, store: &mut Store) -> Result<Marked, EvalAltResult>
    ensures ok { IfOk result (λ p. (first_cell store.old value.now ≡ Some p.token) × (p.shared_value ≡ copy value.now)) }
    ensures err { IfErr result (λ e. (first_cell store.old value.now ≡ None) × (e ≡ ErrorDataRace Position.NONE)) }
    ensures marks { store.new ≡ marked_with (first_cell store.old value.now) store.old }
    ensures marked { IfOk result (λ p. is_marked_at store.new p.token ≡ true) }
{
    if let Union::Shared(tag, _, cell) = value.parts() {
        let shared_value = Dynamic::from_parts(Union::Shared(*tag, AccessMode::ReadWrite, *cell));
        if let Some(token) = store.mark(value) {
            return Ok(Marked {
                token,
                shared_value,
            });
        }
    }
    Err(EvalAltResult::ErrorDataRace(Position::NONE))
}

/// Makes the target from the result of `resolve`.
pub(crate) fn target_from<'a>(
    resolved: Result<Whole<'a>, Result<Marked, EvalAltResult>>,
) -> Result<Target<'a>, EvalAltResult>
    ensures { result ≡ resolved_target resolved.entry }
{
    match resolved {
        Ok(Whole { value }) => Ok(Target::RefMut(value)),
        Err(
            Ok(
                Marked {
                    token,
                    shared_value,
                },
            ),
        ) => Ok(Target::SharedValue {
            token,
            shared_value,
        }),
        Err(Err(e)) => Err(e),
    }
}
