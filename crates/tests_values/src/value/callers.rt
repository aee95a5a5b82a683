//! Callers that are proved from the contracts of the calls alone.
ghost use Rattle.std.specs.Prelude.{◌≡◌, [], true, None, is_some, IfOk, IfErr, IfSome};
ghost use Rattle.std.specs.Bool.{OnTrue};
ghost use Rattle.rhai_value.specs.End.{end, first, held_in, held_part, value_after, store_after, first_cell};
ghost use Rattle.rhai_value.specs.Parts.{bool_of, text_of, blob_of, array_of, map_of, with_content, with_part};
ghost use Rattle.rhai_value.specs.Rows.{trees_of, fields_of};
ghost use Rattle.rhai_value.specs.Store.{shared_value, put};
ghost use Rattle.rhai_value.specs.Tree.{cell_of, leaf, branch, fields, bool as boolean, text, blob, array};
ghost use Rattle.rhai_value.specs.Writes.{first_written, written};

use rhai_text::ImmutableString;
use rhai_value::{Array, Blob, Dynamic, InStore, Map, Store, laws};

/// Overwrites a value that is no holder.
pub(super) fn overwrite(value: &mut Dynamic, store: &mut Store, other: Dynamic)
    requires { cell_of value.old ≡ None }
    ensures { value.new ≡ other }
{
    match value.write_whole(store) {
        Some(content) => *content = other,
        None => unreachable!(),
    }
}

/// Overwrites the first content, and returns whether there is one.
pub(super) fn write_first(place: &mut InStore<'_>, other: Dynamic) -> bool
    ensures found { result ≡ is_some (first place.old.store.now place.old.value.now) }
    ensures after { OnTrue result (place.new ≡ first_written place.old other) }
{
    match place.whole_mut() {
        Some(content) => {
            *content = other;
            true
        }
        None => false,
    }
}

/// Overwrites the held value, and returns whether there is one.
pub(super) fn write_held(place: &mut InStore<'_>, value: Dynamic) -> bool
    ensures found { result ≡ is_some (held_in (end place.old.store.now [] place.old.value.now)) }
    ensures after { OnTrue result (place.new ≡ written place.old (λ _. value)) }
{
    match place.held_mut() {
        Some(held) => {
            *held = value;
            true
        }
        None => false,
    }
}

pub(super) fn write_text(place: &mut InStore<'_>, value: ImmutableString) -> bool
    ensures found { result ≡ is_some (held_part text_of (end place.old.store.now [] place.old.value.now)) }
    ensures after { OnTrue result (place.new ≡ written place.old (with_content (leaf (text value)))) }
{
    match place.immutable_string_mut() {
        Ok(held) => {
            *held = value;
            true
        }
        Err(_) => false,
    }
}

pub(super) fn write_bytes(place: &mut InStore<'_>, value: Blob) -> bool
    ensures found { result ≡ is_some (held_part blob_of (end place.old.store.now [] place.old.value.now)) }
    ensures after { OnTrue result (place.new ≡ written place.old (with_content (leaf (blob value.items)))) }
{
    match place.blob_mut() {
        Ok(held) => {
            *held = value;
            true
        }
        Err(_) => false,
    }
}

pub(super) fn write_items(place: &mut InStore<'_>, value: Array) -> bool
    ensures found { result ≡ is_some (held_part array_of (end place.old.store.now [] place.old.value.now)) }
    ensures after { OnTrue result (place.new ≡ written place.old (with_content (branch array (trees_of value.items)))) }
{
    match place.array_mut() {
        Ok(held) => {
            *held = value;
            true
        }
        Err(_) => false,
    }
}

pub(super) fn write_fields(place: &mut InStore<'_>, value: Map) -> bool
    ensures found { result ≡ is_some (held_part map_of (end place.old.store.now [] place.old.value.now)) }
    ensures after { OnTrue result (place.new ≡ written place.old (with_content (fields (fields_of value)))) }
{
    match place.map_mut() {
        Ok(held) => {
            *held = value;
            true
        }
        Err(_) => false,
    }
}

fn turn_on(value: &mut Dynamic, store: &mut Store)
    ensures own { value.new ≡ value_after (with_part bool_of (leaf (boolean true))) (end store.old [] value.old) value.old }
    ensures store { store.new ≡ store_after (with_part bool_of (leaf (boolean true))) (end store.old [] value.old) store.old }
{
    let _ = value.put_part::<bool>(store, true);
}

/// A value is shared while the cell of another is marked.
fn share_while_marked(
    store: &mut Store,
    holder: &Dynamic,
    value: Dynamic,
) -> Result<Dynamic, Dynamic>
    ensures { IfErr result (λ back. back ≡ value) }
{
    laws::marks_stay();
    let Some(token) = store.mark(holder) else {
        return Err(value);
    };
    match value.into_shared(store) {
        Ok(shared) => {
            store.release(token);
            Ok(shared)
        }
        Err(back) => {
            store.release(token);
            Err(back)
        }
    }
}

/// A value written through a token is in the cell after the mark is cleared.
fn write_marked(store: &mut Store, holder: &Dynamic, value: Dynamic)
    ensures { IfSome (first_cell store.old holder.now) (λ c. store.new ≡ put store.old c value) }
{
    laws::marks_stay();
    laws::mark_is_cleared();
    laws::sites_are_read();
    let Some(token) = store.mark(holder) else {
        return;
    };
    *store.through_mut(&token) = value;
    store.release(token);
}

/// Makes a holder of a new cell with the value; the value itself if the allocation fails.
fn shared(value: Dynamic, store: &mut Store) -> Dynamic {
    match value.into_shared(store) {
        Ok(holder) => holder,
        Err(value) => value,
    }
}

/// Whether a cell can be read after another was made while it was marked.
fn is_unmarked_afterwards(store: &mut Store, holder: &Dynamic) -> bool {
    match share_while_marked(store, holder, Dynamic::ONE) {
        Ok(other) => other.is_int(store) && !holder.is_locked(store),
        Err(_) => false,
    }
}

/// Whether a value written to a holder, and through the mark of its cell, is held.
fn is_written_through(store: &mut Store, holder: &mut Dynamic) -> bool {
    turn_on(holder, store);
    let is_on = holder.as_bool(store) == Ok(true);
    write_marked(store, holder, Dynamic::TWO);
    is_on && holder.as_int(store) == Ok(2)
}

#[test]
fn marks_outlast_what_is_done_meanwhile(rt: HostRuntime) {
    let mut store = Store::new(rt.alloc());
    let mut holder = shared(Dynamic::FALSE, &mut store);
    assert!(rt; is_unmarked_afterwards(&mut store, &holder));
    assert!(rt; is_written_through(&mut store, &mut holder));
}
