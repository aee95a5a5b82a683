//! The caller in the README.
ghost use Rattle.std.specs.Prelude.{◌≡◌, [], pos, is_some};
ghost use Rattle.rhai_value.specs.End.{end, held_part, store_after};
ghost use Rattle.rhai_value.specs.Parts.{int_of, with_int};

use crate::values::holds;
use rhai_value::{Dynamic, Store};

fn reset(counter: &mut Dynamic, store: &mut Store) -> bool
    ensures is_int { result ≡ is_some (held_part int_of (end store.old [] counter.old)) }
    ensures store { store.new ≡ store_after (with_int (pos 0)) (end store.old [] counter.old) store.old }
{
    counter.set_int(store, 0)
}

#[test]
fn a_counter_is_reset(rt: HostRuntime) {
    let mut store = Store::new(rt.alloc());
    let mut counter = Dynamic::THREE;
    assert!(rt; reset(&mut counter, &mut store));
    assert!(rt; holds(&counter, &store, 0));
}
