//! The write of an assignment.
ghost use Rattle.std.specs.Prelude.{◌≡◌, []};
ghost use Rattle.rhai_value.specs.End.{end, value_after, store_after};
ghost use Rattle.rhai_ops.specs.Effects.{rewritten};

use rhai_value::{Dynamic, InStore, Store};

/// Writes the content of a value where the chain ends; changes nothing if the chain is stuck or
/// closed.
pub(crate) fn write(new: Dynamic, store: &mut Store, left: &mut Dynamic)
    ensures value { left.new ≡ value_after (rewritten new) (end store.old [] left.old) left.old }
    ensures store { store.new ≡ store_after (rewritten new) (end store.old [] left.old) store.old }
{
    let mut place = InStore { value: left, store };
    if let Some(held) = place.held_mut() {
        *held = under(held, new);
    }
}

/// The new value with the tag and mode of the old one.
fn under(old: &Dynamic, new: Dynamic) -> Dynamic
    ensures { result ≡ rewritten new old.now }
{
    new.labelled(old.tag(), old.access_mode())
}
