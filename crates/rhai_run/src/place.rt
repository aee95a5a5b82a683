//! Tests that hand positions and places differ.
ghost use Rattle.std.specs.Prelude.{◌≡◌, true, false, nat_eq, IfErr, OnOk};
ghost use Rattle.rhai_run.specs.declared.answer.Refusal.TheVariants.{SameValue};
ghost use Rattle.rhai_run.specs.declared.not_done.NotDone.TheVariants.{Refused};
ghost use Rattle.rhai_run.specs.Places.{is_at, place_of};

use crate::answer::Refusal;
use crate::command::PlaceRef;
use crate::not_done::NotDone;

/// Fails unless two hand positions differ.
pub(crate) fn differ(i: usize, j: usize) -> Result<(), NotDone>
    ensures ok { OnOk result (nat_eq i j ≡ false) }
    ensures err { IfErr result (λ e. (e ≡ Refused SameValue) × (nat_eq i j ≡ true)) }
{
    if i == j {
        return Err(NotDone::Refused(Refusal::SameValue));
    }
    Ok(())
}

/// Fails unless a place differs from a hand position.
pub(crate) fn is_apart(place: PlaceRef<'_>, j: usize) -> Result<(), NotDone>
    ensures ok { OnOk result (is_at (place_of place.entry) j ≡ false) }
    ensures err { IfErr result (λ e. (e ≡ Refused SameValue) × (is_at (place_of place.entry) j ≡ true)) }
{
    match place {
        PlaceRef::Hand(i) => differ(i, j),
        PlaceRef::Entry(_) => Ok(()),
    }
}
