//! The site of a place's value: looked up once, and then read and written there.
ghost use Rattle.std.specs.Prelude.{◌≡◌, [], Some, Ok, true, is_some, option_map, IfOk, IfErr};
ghost use Rattle.std.specs.Str.{chars};
ghost use Rattle.rhai_scope.specs.Lookup.{last_entry, last_position};
ghost use Rattle.rhai_run.specs.Does.{IsRefusal};
ghost use Rattle.rhai_run.specs.Places.{place_of};
ghost use Rattle.rhai_run.specs.Slots.{entry_found, slot_of, source, value_in};
ghost use Rattle.rhai_run.specs.declared.slot.Slot.TheVariants as slot;

use crate::answer::Refusal;
use crate::command::PlaceRef;
use crate::not_done::NotDone;
use rhai_scope::Scope;
use rhai_value::Dynamic;

/// Where a value is that commands write to: at a hand position, or in the entry at a position of
/// the scope.
#[derive(Clone, Copy)]
pub(crate) enum Slot {
    Hand(usize),
    Entry(usize),
}

/// The position of the last entry of a name, which must not be a constant.
fn position(scope: &Scope, name: &str) -> Result<usize, NotDone>
    ensures position { IfOk result (λ k. last_position (chars name.now) scope.now ≡ Some k) }
    ensures value { IfOk result (λ k. option_map Ok (value_in [] scope.now (slot.Entry k)) ≡ Some (entry_found (last_entry (chars name.now) scope.now))) }
    ensures err { IfErr result (λ e. IsRefusal e (entry_found (last_entry (chars name.now) scope.now))) }
{
    let k = scope.search(name).ok_or(Refusal::NoEntry)?;
    if scope.is_constant_at(k) {
        return Err(NotDone::Refused(Refusal::ConstantEntry));
    }
    Ok(k)
}

impl Slot {
    /// Finds the slot of a place, if its value may be written.
    pub(crate) fn of(hand: &[Dynamic], scope: &Scope, place: PlaceRef<'_>) -> Result<Slot, NotDone>
        ensures slot { IfOk result (λ s. slot_of scope.now (place_of place.entry) ≡ Some s) }
        ensures value { IfOk result (λ s. option_map Ok (value_in hand.now scope.now s) ≡ Some (source hand.now scope.now (place_of place.entry))) }
        ensures err { IfErr result (λ e. IsRefusal e (source hand.now scope.now (place_of place.entry))) }
    {
        match place {
            PlaceRef::Hand(i) if i < hand.len() => Ok(Slot::Hand(i)),
            PlaceRef::Hand(_) => Err(NotDone::Refused(Refusal::NoValue)),
            PlaceRef::Entry(name) => Ok(Slot::Entry(position(scope, name.as_str())?)),
        }
    }

    /// Borrows the value there.
    pub(crate) fn value<'a>(self, hand: &'a [Dynamic], scope: &'a Scope) -> &'a Dynamic
        requires { is_some (value_in hand.now scope.now self) ≡ true }
        ensures { value_in hand.now scope.now self ≡ Some result.now }
    {
        match self {
            Slot::Hand(i) => &hand[i],
            Slot::Entry(k) => scope.at(k),
        }
    }
}
