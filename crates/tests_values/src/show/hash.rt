//! Which values are hashable, if their cells are many, marked or foreign.

ghost use Rattle.std.specs.Prelude.{◌≡◌, ◌↔◌, [], IfOk, IfSome, IsTrue};
ghost use Rattle.rhai_show.specs.Plain.{plain};

use crate::values::{copied, pair_of, put, shared};
use rhai_show::{Hashed, hashed, is_hashable, laws};
use rhai_value::{Dynamic, Store};
use std::alloc::{AllocError, Global};
use std::hash::{DefaultHasher, Hash, Hasher};
use std::test::Fail;

/// The hash of hash bytes.
fn hash_of(bytes: &Hashed) -> u64 {
    let mut hasher = DefaultHasher::new();
    bytes.hash(&mut hasher);
    hasher.finish()
}

/// Whether two are equal and have the same hash, and a third is different.
fn are_told_apart(first: &Hashed, second: &Hashed, third: &Hashed) -> bool {
    first == second && hash_of(first) == hash_of(second) && first != third
}

#[test]
fn equal_bytes_have_equal_hashes(rt: HostRuntime) -> Result<(), Fail> {
    let alloc = rt.alloc();
    let first = Hashed::from_bytes(vec![in alloc; 1, 1]?);
    let second = Hashed::from_bytes(vec![in alloc; 1, 1]?);
    let third = Hashed::from_bytes(vec![in alloc; 1, 0]?);
    assert!(rt; are_told_apart(&first, &second, &third));
    assert!(rt; first.into_bytes(alloc)?.len() == 2);
    Ok(())
}

/// Whether two values are equal without tags, modes and holders, by their hash bytes; `None` if one
/// has none.
fn are_alike(
    alloc: Global,
    value: &Dynamic,
    other: &Dynamic,
    store: &Store,
) -> Result<Option<bool>, AllocError>
    ensures { IfOk result (λ o. IfSome o (λ same. IsTrue same ↔ (plain store.now [] value.now ≡ plain store.now [] other.now))) }
{
    laws::hashes::hash_bytes_tell_values_apart();
    let Some(first) = hashed(alloc, value, store)? else {
        return Ok(None);
    };
    let Some(second) = hashed(alloc, other, store)? else {
        return Ok(None);
    };
    Ok(Some(first == second))
}

#[test]
fn sharing_is_not_seen(rt: HostRuntime) -> Result<(), Fail> {
    let alloc = rt.alloc();
    let mut store = Store::new(alloc);
    let holder = shared(Dynamic::ONE, &mut store);
    assert!(rt; are_alike(alloc, &holder, &Dynamic::ONE, &store)? == Some(true));
    assert!(rt; are_alike(alloc, &holder, &Dynamic::ZERO, &store)? == Some(false));
    Ok(())
}

/// Makes an array of two copies of a value.
fn pair(alloc: Global, value: &Dynamic) -> Dynamic {
    pair_of(alloc, copied(alloc, value), copied(alloc, value))
}

/// Makes a holder of a pair of holders of a pair, and so on, forty levels deep, around a value.
fn layers(alloc: Global, inside: &Dynamic, store: &mut Store) -> Dynamic {
    let mut value = shared(pair(alloc, inside), store);
    for _ in 0..40 {
        value = shared(pair(alloc, &value), store);
    }
    value
}

/// Whether a value is hashable; `false` also if the search failed to allocate.
fn is_found_hashable(alloc: Global, value: &Dynamic, store: &Store) -> bool {
    matches!(is_hashable(alloc, value, store), Ok(true))
}

/// Whether both calls find that a value has no bytes.
fn has_no_bytes(alloc: Global, value: &Dynamic, store: &Store) -> bool {
    let is_none = match hashed(alloc, value, store) {
        Ok(found) => found.is_none(),
        Err(_) => false,
    };
    is_none && matches!(is_hashable(alloc, value, store), Ok(false))
}

/// A cell that two paths reach in each layer is searched once; a loop is found below all layers.
#[test]
fn forty_layers_are_searched(rt: HostRuntime) {
    let alloc = rt.alloc();
    let mut store = Store::new(alloc);
    let mut inside = shared(Dynamic::ONE, &mut store);
    let value = layers(alloc, &inside, &mut store);
    assert!(rt; is_found_hashable(alloc, &value, &store));
    assert!(rt; put(&mut inside, pair(alloc, &value), &mut store));
    assert!(rt; has_no_bytes(alloc, &value, &store));
    assert!(rt; has_no_bytes(alloc, &inside, &store));
}

/// Whether a value has no bytes while the cell of a holder is marked, and has them again
/// afterwards.
fn is_closed_by_a_mark(
    alloc: Global,
    store: &mut Store,
    holder: &Dynamic,
    value: &Dynamic,
) -> bool {
    let Some(token) = store.mark(holder) else {
        return false;
    };
    let is_closed = has_no_bytes(alloc, value, store) && has_no_bytes(alloc, holder, store);
    store.release(token);
    is_closed && is_found_hashable(alloc, value, store)
}

#[test]
fn marked_and_foreign_cells_have_no_bytes(rt: HostRuntime) {
    let alloc = rt.alloc();
    let mut store = Store::new(alloc);
    let holder = shared(Dynamic::UNIT, &mut store);
    let value = pair(alloc, &holder);
    let other = Store::new(alloc);
    assert!(rt; has_no_bytes(alloc, &value, &other));
    assert!(rt; is_closed_by_a_mark(alloc, &mut store, &holder, &value));
}
