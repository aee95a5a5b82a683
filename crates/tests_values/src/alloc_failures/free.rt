//! Calls that don't allocate: they succeed even if all allocations fail.
use crate::values::holds;
use rhai_cast::DynamicCast;
use rhai_text::ImmutableString;
use rhai_value::{AccessMode, Blob, Dynamic, ExclusiveRange, Map, Path, Store, laws};
use std::alloc::{AllocError, Global};
use std::test::Fail;

/// Whether each call returns the held type.
fn is_told(value: &Dynamic, store: &Store, name: &str) -> bool {
    let is_known = match name {
        "bool" => value.is_bool(store) && value.as_bool(store) == Ok(true),
        "i64" => value.is_int(store) && value.as_int(store) == Ok(7),
        "char" => value.is_char(store) && value.as_char(store) == Ok('x'),
        "()" => value.is_unit(store) && value.as_unit(store) == Ok(()),
        _ => value.is_string(store) && value.as_immutable_string_ref(store).is_ok(),
    };
    is_known
        && value.type_name(store) == name
        && value.type_id(store).name() == name
        && !value.is_locked(store)
        && value.held(store).is_some()
        && value.read_whole(store).is_some()
}

/// As `is_told`, for a value that is dropped.
fn is_told_of(value: Dynamic, store: &Store, name: &str) -> bool {
    is_told(&value, store, name)
}

/// Whether a value's tag and mode can be set, and the value taken out of its place.
fn is_marked_and_taken(value: &mut Dynamic, store: &Store) -> bool {
    value.set_tag(5);
    value.set_access_mode(AccessMode::ReadOnly);
    let taken = value.take();
    taken.tag() == 5 && value.is_unit(store) && value.tag() == 0
}

/// Whether an int can be written in each way, and copied.
fn is_written(alloc: Global, value: &mut Dynamic, store: &mut Store) -> bool {
    let is_set = value.set_int(store, 8) && holds(value, store, 8);
    let is_held = match value.held_mut(store) {
        Some(place) => {
            *place = Dynamic::from_int(9);
            true
        }
        None => false,
    };
    let is_whole = match value.write_whole(store) {
        Some(place) => {
            *place = Dynamic::from_int(7);
            true
        }
        None => false,
    };
    let is_copied = match value.copy(alloc) {
        Ok(copy) => holds(&copy, store, 7),
        Err(_) => false,
    };
    is_set && is_held && is_whole && is_copied
}

/// Whether a value can be locked by its type for reading and writing.
fn is_locked_by_type(value: &mut Dynamic, store: &mut Store) -> bool {
    let is_read = value.read_lock::<i64>(store).is_some()
        && value.read_lock::<bool>(store).is_none();
    is_read
        && value.write_lock::<i64>(store).is_some()
        && value.write_lock::<ImmutableString>(store).is_none()
}

/// Whether a cell can be marked, read, written and released.
fn is_passed_through(holder: &Dynamic, store: &mut Store) -> bool {
    laws::marks_stay();
    let Some(token) = store.mark(holder) else {
        return false;
    };
    let is_seen = store.through(&token).as_int(store) == Ok(7);
    *store.through_mut(&token) = Dynamic::from_int(7);
    store.release(token);
    let Some(token) = store.mark_held(holder) else {
        return false;
    };
    store.release(token);
    is_seen && !holder.is_locked(store)
}

/// Whether calls for another type return nothing.
fn is_no_other(value: &mut Dynamic, store: &mut Store) -> bool {
    let is_asked = !value.is_array(store)
        && !value.is_blob(store)
        && !value.is_map(store)
        && !value.is_fnptr(store);
    is_asked
        && value.as_array_ref(store).is_err()
        && value.as_blob_ref(store).is_err()
        && value.as_map_ref(store).is_err()
        && value.as_array_mut(store).is_err()
        && value.as_blob_mut(store).is_err()
        && value.as_map_mut(store).is_err()
        && value.as_immutable_string_mut(store).is_err()
}

/// Whether an array, a blob or a map can be read and borrowed.
fn is_lent(value: &mut Dynamic, store: &mut Store) -> bool {
    let is_array = value.is_array(store)
        && value.as_array_ref(store).is_ok()
        && value.as_array_mut(store).is_ok();
    let is_blob = value.is_blob(store)
        && value.as_blob_ref(store).is_ok()
        && value.as_blob_mut(store).is_ok();
    let is_map = value.is_map(store)
        && value.as_map_ref(store).is_ok()
        && value.as_map_mut(store).is_ok();
    is_array || is_blob || is_map
}

/// Whether a copy has the same type.
fn is_copied(alloc: Global, value: &Dynamic, store: &Store) -> bool {
    match value.copy(alloc) {
        Ok(copy) => copy.type_id(store) == value.type_id(store) && copy.tag() == value.tag(),
        Err(_) => false,
    }
}

/// As `is_copied`, for a value that is dropped.
fn is_copied_of(alloc: Global, value: Dynamic, store: &Store) -> bool {
    is_copied(alloc, &value, store)
}

/// Whether the calls for a value's own variant and mode work.
fn is_own(value: &Dynamic, store: &Store) -> bool {
    !value.is_shared() && !value.is_read_only(store) && value.access_mode() == AccessMode::ReadWrite
}

/// A path that enters the holder's cell, and is dropped.
fn is_left(path: &mut Path, holder: &Dynamic, store: &Store) -> Result<bool, AllocError> {
    if path.enter(store, holder)?.is_none() {
        return Ok(false);
    }
    path.leave();
    Ok(true)
}

#[test]
fn calls_without_memory_answer(rt: HostRuntime) -> Result<(), Fail> {
    let alloc = rt.alloc();
    let mut store = Store::new(alloc);
    let mut text = Dynamic::from_text(alloc, "hé")?;
    let Ok(mut holder) = Dynamic::from_int(7).into_shared(&mut store) else {
        return Err(Fail::from(AllocError));
    };
    let mut path = Path::new(alloc);
    assert!(rt; is_left(&mut path, &holder, &store)?);
    assert!(rt; is_told_of(Dynamic::UNIT, &store, "()"));
    assert!(rt; is_told_of(Dynamic::TRUE, &store, "bool"));
    assert!(rt; is_told_of(Dynamic::from_int(7), &store, "i64"));
    assert!(rt; is_told_of(Dynamic::from_char('x'), &store, "char"));
    assert!(rt; is_told(&text, &store, "string"));
    assert!(rt; is_told(&holder, &store, "i64"));
    assert!(rt; is_written(alloc, &mut holder, &mut store));
    assert!(rt; is_locked_by_type(&mut holder, &mut store));
    assert!(rt; is_passed_through(&holder, &mut store));
    assert!(rt; is_marked_and_taken(&mut text, &store));
    Ok(())
}

#[test]
fn containers_are_lent(rt: HostRuntime) -> Result<(), Fail> {
    let alloc = rt.alloc();
    let mut store = Store::new(alloc);
    let mut array = Dynamic::from_array(vec![in alloc; Dynamic::ONE]?);
    let mut blob = Dynamic::from_blob(Blob::from_slice(alloc, &[1])?);
    let mut map = Dynamic::from_map(Map::new(alloc));
    assert!(rt; is_own(&array, &store) && is_lent(&mut array, &mut store));
    assert!(rt; is_own(&blob, &store) && is_lent(&mut blob, &mut store));
    assert!(rt; is_own(&map, &store) && is_lent(&mut map, &mut store));
    Ok(())
}

#[test]
fn what_is_not_held_is_not_lent(rt: HostRuntime) -> Result<(), Fail> {
    let mut store = Store::new(rt.alloc());
    let Ok(mut holder) = Dynamic::from_int(7).into_shared(&mut store) else {
        return Err(Fail::from(AllocError));
    };
    assert!(rt; is_no_other(&mut holder, &mut store));
    assert!(rt; is_copied(rt.alloc(), &holder, &store));
    Ok(())
}

#[test]
fn small_values_are_copied(rt: HostRuntime) {
    let alloc = rt.alloc();
    let store = Store::new(alloc);
    let range = ExclusiveRange { start: 1, end: 3 };
    assert!(rt; is_copied_of(alloc, Dynamic::UNIT, &store));
    assert!(rt; is_copied_of(alloc, Dynamic::TRUE, &store));
    assert!(rt; is_copied_of(alloc, Dynamic::from_int(7), &store));
    assert!(rt; is_copied_of(alloc, Dynamic::from_char('x'), &store));
    assert!(rt; is_copied_of(alloc, Dynamic::from(range), &store));
}
