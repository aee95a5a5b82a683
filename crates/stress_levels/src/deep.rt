//! Operations on a value of many levels, and whether their results are right.

use crate::collected::collect;
use crate::shape::{Shape, bottom, is_whole};
use crate::sizes::{debug_characters, display_characters, hash_bytes, values};
use crate::visits::Visits;
use rhai_scope::Scope;
use rhai_show::{debug_text, display_text, hashed, is_hashable};
use rhai_value::{AccessMode, Dynamic, Store};
use std::alloc::{AllocError, Global};

/// A value of many levels.
#[derive(Drop)]
pub struct Deep {
    value: Dynamic,
    shape: Shape,
    depth: usize,
}

impl Deep {
    pub fn new(alloc: Global, shape: Shape, depth: usize) -> Result<Deep, AllocError> {
        let value = shape.nested(alloc, depth)?;
        Ok(Deep {
            value,
            shape,
            depth,
        })
    }

    fn is_whole(&self, store: &Store) -> bool {
        is_whole(&self.value, self.depth, store)
    }

    pub fn is_copied(&self, alloc: Global, store: &Store) -> Result<bool, AllocError> {
        let copy = self.value.copy(alloc)?;
        Ok(is_whole(&copy, self.depth, store) && self.is_whole(store))
    }

    /// Whether painting reaches the bottom, except in curried values.
    pub fn is_painted(&mut self, store: &Store) -> bool {
        self.value.set_access_mode(AccessMode::ReadOnly);
        let Some(found) = bottom(&self.value, self.depth) else {
            return false;
        };
        match self.shape {
            Shape::Arrays | Shape::Maps | Shape::Sides => found.is_read_only(store),
            Shape::Functions | Shape::Mixed => !found.is_read_only(store),
        }
    }

    pub fn is_free(&self, store: &Store) -> bool {
        !self.value.is_locked(store)
    }

    /// Whether each value is visited once.
    pub fn is_scanned(&mut self, store: &Store) -> bool {
        let mut visits = Visits::none();
        self.value.deep_scan(&mut visits);
        visits.count() == values(self.shape, self.depth) && self.is_whole(store)
    }

    pub fn is_printed(&self, alloc: Global, store: &Store) -> Result<bool, AllocError> {
        let shown = display_text(alloc, &self.value, store)?.len();
        let told = debug_text(alloc, &self.value, store)?.len();
        Ok(
            shown == display_characters(self.shape, self.depth)
                && told == debug_characters(self.shape, self.depth),
        )
    }

    pub fn is_hashed(&self, alloc: Global, store: &Store) -> Result<bool, AllocError> {
        let is_hashable = is_hashable(alloc, &self.value, store)?;
        match hashed(alloc, &self.value, store)? {
            Some(hash) => {
                let bytes = hash_bytes(self.shape, self.depth);
                Ok(is_hashable && hash.bytes().len() == bytes)
            }
            None => Ok(false),
        }
    }

    /// Whether it can be shared, and a flat copy of its cell's content taken.
    pub fn is_flattened(&self, alloc: Global, store: &mut Store) -> Result<bool, AllocError> {
        let Ok(holder) = self.value.copy(alloc)?.into_shared(store) else {
            return Err(AllocError);
        };
        let Ok(flat) = holder.flatten(alloc, store) else {
            return Err(AllocError);
        };
        Ok(is_whole(&flat, self.depth, store))
    }

    /// Whether a scope keeps it, and returns a copy of it.
    pub fn is_kept(&self, alloc: Global, store: &Store) -> Result<bool, AllocError> {
        let mut scope = Scope::new(alloc);
        scope.push_dynamic("x", self.value.copy(alloc)?)?;
        match scope.get("x") {
            Some(found) => {
                let copy = found.flatten_clone(alloc, store)?;
                Ok(is_whole(&copy, self.depth, store))
            }
            None => Ok(false),
        }
    }

    /// Whether a collection finds its cells, and renumbers its holders.
    pub fn is_collected(&mut self, alloc: Global, store: &mut Store) -> Result<bool, AllocError> {
        collect(alloc, store, &mut self.value)?;
        Ok(self.is_whole(store))
    }
}

/// Returns the first thing that is wrong if the value is copied or searched for locks.
fn read(deep: &Deep, alloc: Global, store: &Store) -> Result<Option<&'static str>, AllocError> {
    if !deep.is_copied(alloc, store)? {
        return Ok(Some("copied"));
    }
    if !deep.is_free(store) {
        return Ok(Some("free"));
    }
    Ok(None)
}

/// The same if it is printed or hashed.
fn told(deep: &Deep, alloc: Global, store: &Store) -> Result<Option<&'static str>, AllocError> {
    if !deep.is_printed(alloc, store)? {
        return Ok(Some("printed"));
    }
    if !deep.is_hashed(alloc, store)? {
        return Ok(Some("hashed"));
    }
    Ok(None)
}

/// The same if a cell or an entry has copies of it.
fn held(deep: &Deep, alloc: Global, store: &mut Store) -> Result<Option<&'static str>, AllocError> {
    if !deep.is_flattened(alloc, store)? {
        return Ok(Some("flattened"));
    }
    if !deep.is_kept(alloc, store)? {
        return Ok(Some("kept"));
    }
    Ok(None)
}

/// The same if it is walked to be written.
fn written(
    deep: &mut Deep,
    alloc: Global,
    store: &mut Store,
) -> Result<Option<&'static str>, AllocError> {
    if !deep.is_scanned(store) {
        return Ok(Some("scanned"));
    }
    if !deep.is_collected(alloc, store)? {
        return Ok(Some("collected"));
    }
    if !deep.is_painted(store) {
        return Ok(Some("painted"));
    }
    Ok(None)
}

/// Returns the first thing that is wrong with a value of this many levels.
pub fn fault(
    alloc: Global,
    shape: Shape,
    depth: usize,
) -> Result<Option<&'static str>, AllocError> {
    let mut store = Store::new(alloc);
    let mut deep = Deep::new(alloc, shape, depth)?;
    if let Some(wrong) = read(&deep, alloc, &store)? {
        return Ok(Some(wrong));
    }
    if let Some(wrong) = told(&deep, alloc, &store)? {
        return Ok(Some(wrong));
    }
    if let Some(wrong) = held(&deep, alloc, &mut store)? {
        return Ok(Some(wrong));
    }
    written(&mut deep, alloc, &mut store)
}
