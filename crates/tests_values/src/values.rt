//! Values for the tests. If an allocation fails, a different value is used, so that a test fails.
use rhai_value::{Blob, Dynamic, INT, Store};
use std::alloc::Global;

/// Makes a holder of a new cell with the value; the value itself if the allocation fails.
pub(crate) fn shared(value: Dynamic, store: &mut Store) -> Dynamic {
    match value.into_shared(store) {
        Ok(holder) => holder,
        Err(value) => value,
    }
}

/// Copies a value; unit if the allocation fails.
pub(crate) fn copied(alloc: Global, value: &Dynamic) -> Dynamic {
    match value.copy(alloc) {
        Ok(copy) => copy,
        Err(_) => Dynamic::UNIT,
    }
}

/// Writes a value, which may be a holder, into the cell of a holder.
pub(crate) fn put(holder: &mut Dynamic, value: Dynamic, store: &mut Store) -> bool {
    match holder.write_whole(store) {
        Some(content) => {
            *content = value;
            true
        }
        None => false,
    }
}

/// Makes a holder of a new cell with this content, which may be a holder.
pub(crate) fn cell_with(value: Dynamic, store: &mut Store) -> Dynamic {
    let mut holder = shared(Dynamic::UNIT, store);
    let _ = put(&mut holder, value, store);
    holder
}

/// Makes a holder of its own cell.
pub(crate) fn closed(alloc: Global, store: &mut Store) -> Dynamic {
    let mut holder = shared(Dynamic::UNIT, store);
    let again = copied(alloc, &holder);
    let _ = put(&mut holder, again, store);
    holder
}

/// Makes a chain of this many holders that ends at 7.
pub(crate) fn chain(store: &mut Store, length: usize) -> Dynamic {
    let mut value = Dynamic::from_int(7);
    for _ in 0..length {
        value = cell_with(value, store);
    }
    value
}

/// Makes a holder of the first of this many cells that each hold the next one, the last one the
/// first.
pub(crate) fn ring(alloc: Global, store: &mut Store, length: usize) -> Dynamic {
    let mut first = shared(Dynamic::UNIT, store);
    let mut value = copied(alloc, &first);
    for _ in 1..length {
        value = cell_with(value, store);
    }
    let _ = put(&mut first, value, store);
    first
}

/// Makes a text; unit if the allocation fails.
pub(crate) fn text_of(alloc: Global, text: &str) -> Dynamic {
    match Dynamic::from_text(alloc, text) {
        Ok(text) => text,
        Err(_) => Dynamic::UNIT,
    }
}

/// Makes a blob of these bytes; unit if the allocation fails.
pub(crate) fn blob_of(alloc: Global, bytes: &[u8]) -> Dynamic {
    match Blob::from_slice(alloc, bytes) {
        Ok(bytes) => Dynamic::from_blob(bytes),
        Err(_) => Dynamic::UNIT,
    }
}

/// Makes an array of these two values; unit if the allocation fails.
pub(crate) fn pair_of(alloc: Global, first: Dynamic, second: Dynamic) -> Dynamic {
    match vec![in alloc; first, second] {
        Ok(items) => Dynamic::from_array(items),
        Err(_) => Dynamic::UNIT,
    }
}

/// Whether this int is held.
pub(crate) fn holds(value: &Dynamic, store: &Store, wanted: INT) -> bool {
    match value.as_int(store) {
        Ok(int) => int == wanted,
        Err(_) => false,
    }
}

/// Whether the held type has this name.
pub(crate) fn is_named(value: &Dynamic, store: &Store, name: &str) -> bool {
    value.type_name(store) == name
}

/// Whether a value is, or contains, a holder of a cell that is marked or not in the store.
pub(crate) fn is_locked(value: &Dynamic, store: &Store) -> bool {
    value.is_locked(store)
}

/// Whether a value is a holder.
pub(crate) fn is_shared(value: &Dynamic) -> bool {
    value.is_shared()
}
