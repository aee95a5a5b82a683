//! Values written in place.
ghost use Rattle.std.specs.Prelude.{◌≡◌, is_some, Some, true};
ghost use Rattle.std.specs.Borrow.{sem, Lends};
ghost use Rattle.rhai_value.specs.contracts.value.dynamic.Dynamic as dynamic_type;
ghost use Rattle.rhai_value.specs.End.{first, value_with_first, store_with_first};
ghost use Rattle.rhai_run.specs.Lent.{placed_in, places_row};
ghost use Rattle.rhai_run.specs.Slots.{value_in};

use crate::slot::Slot;
use rhai_scope::Scope;
use rhai_value::{Dynamic, InStore, Store};

/// Replaces the first content of a value.
pub(crate) fn write_over(value: &mut Dynamic, store: &mut Store, content: Dynamic)
    requires { is_some (first store.old value.old) ≡ true }
    ensures value { value.new ≡ value_with_first content value.old }
    ensures store { store.new ≡ store_with_first content store.old value.old }
{
    let mut place = InStore { value, store };
    if let Some(whole) = place.whole_mut() {
        *whole = content;
    }
}

/// The targets of commands: the hand and the scope.
#[derive(Drop)]
pub(crate) struct Slots<'a> {
    pub(crate) hand: &'a mut Vec<Dynamic>,
    pub(crate) scope: &'a mut Scope,
}

impl<'a> Slots<'a> {
    /// Borrows the value in a slot mutably.
    pub(crate) fn at_mut(&mut self, slot: Slot) -> &mut Dynamic
        requires { is_some (value_in self.old.hand.now.items self.old.scope.now slot) ≡ true }
        ensures* writes_back { sem 𝓛 (Lends places_row dynamic_type.the_row self.entry result (placed_in self.old slot)) }
        ensures value { value_in self.old.hand.now.items self.old.scope.now slot ≡ Some result.now }
    {
        match slot {
            Slot::Hand(i) => return &mut self.hand[i],
            Slot::Entry(k) => return self.scope.at_mut(k),
        }
    }
}
