//! Operations on values of more than 64 levels, whose walks allocate.
ghost use Rattle.std.specs.Prelude.{pos};
ghost use Rattle.rhai_value.specs.Parts.{with_int};
ghost use Rattle.rhai_value.specs.Scan.{nodes_kept};
ghost use Rattle.std.proofs.Common.{refl};

use crate::values::holds;
use rhai_show::{debug_text, hashed, is_hashable};
use rhai_text::ImmutableString;
use rhai_value::{AccessMode, Dynamic, FnPtr, INT, Map, Part, Store, Union, Visitor};
use std::alloc::{AllocError, Global};
use std::test::Fail;

/// How many arrays, each with a map and a function.
const LEVELS: usize = 50;

/// Sets each int to 9.
#[derive(Drop)]
struct Nines;

impl Visitor for Nines {
    ghost visited = { λ v t. (v, with_int (pos 9) t) };

    ghost adds_no_nodes = { λ v t. nodes_kept _ _ t refl };

    fn visit(&mut self, value: &mut Dynamic) {
        if let Some(int) = INT::own_mut(value) {
            *int = 9;
        }
    }
}

/// Makes an array of a map of a function with this value.
fn around(alloc: Global, inner: Dynamic) -> Result<Dynamic, AllocError> {
    let name = ImmutableString::from_str(alloc, "f")?;
    let function = Dynamic::from(FnPtr::new(name, vec![in alloc; inner]?));
    let mut map = Map::new(alloc);
    if map.insert(String::from_str(alloc, "k")?, function).is_err() {
        return Err(AllocError);
    }
    Ok(Dynamic::from_array(vec![in alloc; Dynamic::from_map(map)]?))
}

/// Makes an int in fifty such arrays.
fn deep(alloc: Global) -> Result<Dynamic, AllocError> {
    let mut value = Dynamic::from_int(7);
    for _ in 0..LEVELS {
        value = around(alloc, value)?;
    }
    Ok(value)
}

/// Returns the value inside another.
fn inside(value: &Dynamic) -> Option<&Dynamic> {
    match value.parts() {
        Union::Array(_, _, items) => items.first(),
        Union::Map(_, _, map) => map.get("k"),
        Union::FnPtr(_, _, function) => function.curry().first(),
        _ => None,
    }
}

/// Returns the value at the bottom.
fn bottom(value: &Dynamic) -> Option<&Dynamic> {
    let mut found = value;
    for _ in 0..3 * LEVELS {
        found = inside(found)?;
    }
    Some(found)
}

/// Whether this int is at the bottom.
fn has(value: &Dynamic, store: &Store, wanted: i64) -> bool {
    match bottom(value) {
        Some(found) => holds(found, store, wanted),
        None => false,
    }
}

/// Walks that succeed even if allocations fail.
fn always(alloc: Global, store: &Store) -> Result<bool, AllocError> {
    let mut value = deep(alloc)?;
    value.deep_scan(&mut Nines);
    let is_scanned = has(&value, store, 9);
    value.set_access_mode(AccessMode::ReadOnly);
    let is_free = !value.is_locked(store);
    let is_hashable = is_hashable(alloc, &value, store)?;
    Ok(is_scanned && is_free && is_hashable && value.is_read_only(store) && has(&value, store, 9))
}

/// Whether a dangling holder at the bottom is found.
fn finds(alloc: Global, store: &Store) -> Result<bool, AllocError> {
    let mut other = Store::new(alloc);
    let Ok(mut value) = Dynamic::from_int(7).into_shared(&mut other) else {
        return Err(AllocError);
    };
    for _ in 0..LEVELS {
        value = around(alloc, value)?;
    }
    Ok(value.is_locked(store) && !value.is_locked(&other))
}

/// Walks that may fail to allocate, and leave the value unchanged.
fn copies(alloc: Global, store: &Store) -> Result<bool, AllocError> {
    let value = deep(alloc)?;
    let copy = value.copy(alloc);
    let is_kept = has(&value, store, 7);
    Ok(has(&copy?, store, 7) && is_kept)
}

/// Its text is `[#{"k": Fn("f", ..)}]` fifty times around the int, and its hash bytes are 45 each
/// time.
fn tells(alloc: Global, store: &Store) -> Result<bool, AllocError> {
    let value = deep(alloc)?;
    let text = debug_text(alloc, &value, store)?;
    match hashed(alloc, &value, store)? {
        Some(hash) => Ok(text.len() == 19 * LEVELS + 1 && hash.bytes().len() == 45 * LEVELS + 9),
        None => Ok(false),
    }
}

#[test]
fn deep_walks_answer(rt: HostRuntime) -> Result<(), Fail> {
    let store = Store::new(rt.alloc());
    assert!(rt; always(rt.alloc(), &store)?);
    assert!(rt; finds(rt.alloc(), &store)?);
    Ok(())
}

#[test]
fn deep_copies_and_texts_answer(rt: HostRuntime) -> Result<(), Fail> {
    let store = Store::new(rt.alloc());
    assert!(rt; copies(rt.alloc(), &store)?);
    assert!(rt; tells(rt.alloc(), &store)?);
    Ok(())
}
