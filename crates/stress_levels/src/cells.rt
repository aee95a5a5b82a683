//! A chain of cells, each with a holder of the one before; and the same closed in a loop, the first
//! one holding the last.

use crate::collected::collect;
use rhai_show::{debug_text, display_text, hashed, is_hashable};
use rhai_value::{Dynamic, Store};
use std::alloc::{AllocError, Global};

/// The int in the first cell of a chain.
const BOTTOM: i64 = 7;

/// Makes a new cell with this content.
fn cell(store: &mut Store, content: Dynamic) -> Result<Dynamic, AllocError> {
    let Ok(mut holder) = Dynamic::UNIT.into_shared(store) else {
        return Err(AllocError);
    };
    write(store, &mut holder, content);
    Ok(holder)
}

/// Writes the content of a cell.
fn write(store: &mut Store, holder: &mut Dynamic, content: Dynamic) {
    if let Some(place) = holder.write_whole(store) {
        *place = content;
    }
}

/// Makes a chain of this many cells, and returns the holders of the first and of the last.
fn chain(alloc: Global, store: &mut Store, count: usize) -> Result<(Dynamic, Dynamic), AllocError> {
    let first = cell(store, Dynamic::from_int(BOTTOM))?;
    let mut last = first.copy(alloc)?;
    for _ in 1..count {
        last = cell(store, last)?;
    }
    Ok((first, last))
}

/// Whether the text in each format has this many characters.
fn is_printed(
    alloc: Global,
    store: &Store,
    value: &Dynamic,
    characters: usize,
) -> Result<bool, AllocError> {
    let shown = display_text(alloc, value, store)?.len();
    let told = debug_text(alloc, value, store)?.len();
    Ok(shown == characters && told == characters)
}

/// Whether a value has this many hash bytes, or none.
fn is_hashed(
    alloc: Global,
    store: &Store,
    value: &Dynamic,
    bytes: Option<usize>,
) -> Result<bool, AllocError> {
    if is_hashable(alloc, value, store)? != bytes.is_some() {
        return Ok(false);
    }
    match (hashed(alloc, value, store)?, bytes) {
        (Some(hash), Some(bytes)) => Ok(hash.bytes().len() == bytes),
        (None, None) => Ok(true),
        (Some(_), None) | (None, Some(_)) => Ok(false),
    }
}

/// Returns the first thing that is wrong with a holder whose text has this many characters and
/// which has this many hash bytes, if any.
fn fault(
    alloc: Global,
    store: &Store,
    value: &Dynamic,
    characters: usize,
    bytes: Option<usize>,
) -> Result<Option<&'static str>, AllocError> {
    if !is_printed(alloc, store, value, characters)? {
        return Ok(Some("printed"));
    }
    if !is_hashed(alloc, store, value, bytes)? {
        return Ok(Some("hashed"));
    }
    if value.as_int(store).is_ok() != bytes.is_some() {
        return Ok(Some("read"));
    }
    Ok(None)
}

/// Returns the first thing that is wrong with a chain of this many cells: its text is the int with
/// a mark for each cell, its hash bytes are the int's.
pub fn chain_fault(alloc: Global, count: usize) -> Result<Option<&'static str>, AllocError> {
    let mut store = Store::new(alloc);
    let (_, mut last) = chain(alloc, &mut store, count)?;
    collect(alloc, &mut store, &mut last)?;
    let characters = count.saturating_mul(9).saturating_add(1);
    fault(alloc, &store, &last, characters, Some(9))
}

/// The same for a closed chain: its text ends where the first holder occurs again, and it has no
/// hash.
pub fn ring_fault(alloc: Global, count: usize) -> Result<Option<&'static str>, AllocError> {
    let mut store = Store::new(alloc);
    let (mut first, mut last) = chain(alloc, &mut store, count)?;
    let again = last.copy(alloc)?;
    write(&mut store, &mut first, again);
    collect(alloc, &mut store, &mut last)?;
    let characters = count.saturating_mul(9).saturating_add(8);
    fault(alloc, &store, &last, characters, None)
}
