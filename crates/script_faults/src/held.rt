//! The bytes that values hold.

use crate::cost::values_cost;
use rhai_value::{Dynamic, Path, Store, Union};
use std::alloc::{AllocError, Global};

/// The bytes of a value, where it is stored.
const VALUE: u64 = 48;

/// The bytes of an entry of a map; half of the room for entries may be free.
const ENTRY: u64 = 192;

/// The bytes of a cell; half of the room for cells may be free.
const CELL: u64 = 128;

/// The bytes of a block of memory, besides those that are asked for.
const BLOCK: u64 = 32;

/// The bytes that values hold, at any depth: each cell counts once, and a text counts in each value
/// that refers to it.
#[derive(Drop)]
pub struct Held<'s> {
    store: &'s Store,
    cells: Path,
    left: Vec<&'s Dynamic>,
    bytes: u64,
    values: u64,
}

impl<'s> Held<'s> {
    /// Starts with no values.
    /// Cost: constant; no memory.
    pub fn new(alloc: Global, store: &'s Store) -> Held<'s> {
        Held {
            store,
            cells: Path::new(alloc),
            left: Vec::new(alloc),
            bytes: 0,
            values: 0,
        }
    }

    /// Adds a value with all that it holds.
    /// Errors: an allocation fails.
    /// Cost: the number of values in it, and the logarithm of the number of cells for each holder;
    /// memory for a work list and for each cell.
    pub fn add(&mut self, value: &'s Dynamic) -> Result<(), AllocError> {
        self.bytes = self.bytes.saturating_add(VALUE);
        self.left.push(value)?;
        for _ in 0..u64::MAX {
            let Some(next) = self.left.pop() else {
                break;
            };
            self.bytes = self.bytes.saturating_add(bytes_beside(next));
            self.values = self.values.saturating_add(parts_in(next));
            self.push_parts(next)?;
            if let Some(content) = self.cells.enter(self.store, next)? {
                self.bytes = self.bytes.saturating_add(VALUE + CELL);
                self.left.push(content)?;
            }
        }
        Ok(())
    }

    /// Adds the values in a value to the work list.
    fn push_parts(&mut self, value: &'s Dynamic) -> Result<(), AllocError> {
        if let Union::Array(_, _, items) = value.parts() {
            for item in items.iter() {
                self.push_larger(item)?;
            }
        }
        if let Union::Map(_, _, map) = value.parts() {
            for (_, item) in map {
                self.push_larger(item)?;
            }
        }
        if let Union::FnPtr(_, _, function) = value.parts() {
            for item in function.curry() {
                self.push_larger(item)?;
            }
        }
        Ok(())
    }

    /// Adds a value to the work list, unless it holds nothing.
    fn push_larger(&mut self, value: &'s Dynamic) -> Result<(), AllocError> {
        match value.parts() {
            Union::Array(_, _, _)
            | Union::Map(_, _, _)
            | Union::FnPtr(_, _, _)
            | Union::Str(_, _, _)
            | Union::Blob(_, _, _)
            | Union::Shared(_, _, _) => self.left.push(value)?,
            Union::Unit(_, _, _)
            | Union::Bool(_, _, _)
            | Union::Char(_, _, _)
            | Union::Int(_, _, _)
            | Union::Variant(_, _, _) => {}
        }
        Ok(())
    }

    /// Returns how many bytes the added values hold.
    pub fn bytes(&self) -> u64 {
        self.bytes
    }

    /// Returns how many operations the walk over them counts.
    pub fn cost(&self) -> u64 {
        values_cost(usize::try_from(self.values).unwrap_or(usize::MAX))
    }
}

/// Returns how many values a walk visits for this one.
fn parts_in(value: &Dynamic) -> u64 {
    let count = match value.parts() {
        Union::Array(_, _, items) => items.len(),
        Union::Map(_, _, map) => map.len(),
        Union::FnPtr(_, _, function) => function.curry().len(),
        Union::Unit(_, _, _)
        | Union::Bool(_, _, _)
        | Union::Str(_, _, _)
        | Union::Char(_, _, _)
        | Union::Int(_, _, _)
        | Union::Blob(_, _, _)
        | Union::Variant(_, _, _)
        | Union::Shared(_, _, _) => 0,
    };
    (count as u64).saturating_add(1)
}

/// Returns the bytes of a block for this many items of a size; none for no items.
fn block(count: usize, size: u64) -> u64 {
    if count == 0 {
        return 0;
    }
    (count as u64).saturating_mul(size).saturating_add(BLOCK)
}

/// Returns the bytes that a value holds besides its own, without those of its parts. Room that is
/// free counts, and as much again as is used: a list that grows takes that much.
fn bytes_beside(value: &Dynamic) -> u64 {
    match value.parts() {
        Union::Array(_, _, items) => {
            block(items.len(), VALUE).saturating_add(block(items.capacity(), VALUE))
        }
        Union::Blob(_, _, bytes) => {
            block(bytes.len(), 1).saturating_add(block(bytes.capacity(), 1))
        }
        Union::Map(_, _, map) => {
            let mut bytes = block(map.len(), ENTRY);
            for (key, _) in map {
                bytes = bytes.saturating_add(key.len() as u64);
            }
            bytes
        }
        Union::Str(_, _, text) => block(text.len(), 2),
        Union::FnPtr(_, _, function) => {
            let name = block(function.fn_name().len(), 1);
            block(function.curry().len(), VALUE).saturating_add(name)
        }
        Union::Unit(_, _, _)
        | Union::Bool(_, _, _)
        | Union::Char(_, _, _)
        | Union::Int(_, _, _)
        | Union::Variant(_, _, _)
        | Union::Shared(_, _, _) => 0,
    }
}
