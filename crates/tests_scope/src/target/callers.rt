//! Properties that callers prove from contracts and laws alone.
ghost use Rattle.std.specs.Prelude.{◌≡◌, true, is_some, OnErr, OnOk};
ghost use Rattle.rhai_value.specs.End.{store_with_first};
ghost use Rattle.rhai_value.specs.Tree.{cell_of};

use super::readme::write_flag;
use super::*;
use rhai_value::laws::{mark_is_cleared, marks_stay, sites_are_read};

/// Overwrites the content of a holder's cell: marked, written, released.
fn assign(holder: &Dynamic, store: &mut Store, new: Dynamic) -> Result<(), EvalAltResult>
    requires { is_some (cell_of holder.now) ≡ true }
    ensures ok { OnOk result (store.new ≡ store_with_first new store.old holder.now) }
    ensures err { OnErr result (store.new ≡ store.old) }
{
    sites_are_read();
    mark_is_cleared();
    match Target::marked(holder, store) {
        Ok(target) => {
            let mut target = target;
            target.put(store, new);
            target.release(store);
            Ok(())
        }
        Err(race) => Err(race),
    }
}

/// Moves a value into a cell of its own while another cell is marked.
fn share_meanwhile(holder: &Dynamic, store: &mut Store, value: Dynamic) -> Result<Dynamic, Dynamic>
    requires { is_some (cell_of holder.now) ≡ true }
{
    marks_stay();
    match Target::marked(holder, store) {
        Ok(target) => {
            let shared = value.into_shared(store);
            target.release(store);
            shared
        }
        Err(_) => Err(value),
    }
}

/// Whether a cell is made while another is marked.
fn is_made_meanwhile(holder: &Dynamic, store: &mut Store) -> bool {
    if !holder.is_shared() {
        return false;
    }
    match share_meanwhile(holder, store, Dynamic::TRUE) {
        Ok(other) => other.is_shared() && other.is_bool(store) && holder.is_int(store),
        Err(_) => false,
    }
}

/// Whether the content of a holder's cell is overwritten, and the cell is unmarked again.
fn is_assigned(holder: &Dynamic, store: &mut Store) -> bool {
    holder.is_shared()
        && assign(holder, store, Dynamic::TRUE).is_ok()
        && holder.is_bool(store)
        && !holder.is_locked(store)
}

#[test]
fn a_cell_is_written_through_its_mark(rt: HostRuntime) {
    let mut store = Store::new(rt.alloc());
    let holder = shared(Dynamic::ONE, &mut store);
    assert!(rt; is_made_meanwhile(&holder, &mut store));
    assert!(rt; is_assigned(&holder, &mut store));
}

/// Whether a flag is written if an int is held, and nowhere else.
fn is_flag(flags: &mut Dynamic, unit: &mut Dynamic, store: &mut Store) -> bool {
    matches!(write_flag(flags, store, &Dynamic::TRUE, 1), Ok(true))
        && flags.as_int(store) == Ok(6)
        && matches!(write_flag(unit, store, &Dynamic::TRUE, 1), Ok(false))
        && unit.is_unit(store)
}

#[test]
fn a_flag_is_written_where_an_int_is_held(rt: HostRuntime) {
    let mut store = Store::new(rt.alloc());
    let mut flags = Dynamic::from_int(4);
    assert!(rt; is_flag(&mut flags, &mut { Dynamic::UNIT }, &mut store));
}
