//! Values that contain a holder of a locked cell.
ghost use Rattle.std.specs.Prelude.{◌≡◌, ◌+◌, ◌<◌, ◌∷◌, true, false, None};
ghost use Rattle.rhai_value.specs.Locked.{is_locked, is_one_locked, is_field_locked, any_locked};
ghost use Rattle.rhai_value.specs.Rows.{trees_of, fields_of};
ghost use Rattle.rhai_value.specs.Tree.{cell_of, nodes, nodes_trees};

use crate::cells::store::Store;
use crate::map::Map;
use crate::value::dynamic::Dynamic;
use crate::value::union::Union;
use crate::walk::near::NEAR;
use crate::walk::visits::Visits;
use std::alloc::Global;
use std::iter::Iterator;

impl Dynamic {
    /// Returns whether the value is, or contains at any depth, a holder of a cell that is marked or
    /// not in the store. It does not look into cells.
    /// Cost: the number of values inside; no memory for values of up to 64 levels. Below those it
    /// allocates a work list; if that fails, it recurses for another 64 levels.
    /// rhai: `Dynamic::is_locked`.
    pub fn is_locked(&self, store: &Store) -> bool
        ensures { result ≡ is_locked store.now self.now }
    {
        locks(self, store, NEAR)
    }
}

#[inline(always)]
#[cycle(locks)]
fn locks(value: &Dynamic, store: &Store, levels: u32) -> bool
    ensures { result ≡ is_locked store.now value.now }
{
    match &value.union {
        Union::Array(_, _, items) => {
            if levels == 0 {
                return locks_far(value, store, *items.allocator());
            }
            locks_items(items, store, levels - 1)
        }
        Union::Map(_, _, map) => {
            if levels == 0 {
                return locks_far(value, store, map.alloc);
            }
            locks_map(map, store, levels - 1)
        }
        Union::FnPtr(_, _, f) => {
            if levels == 0 {
                return locks_far(value, store, *f.curry.allocator());
            }
            locks_items(&f.curry, store, levels - 1)
        }
        Union::Shared(_, _, cell) => store.read(*cell).is_none(),
        Union::Unit(_, _, _)
        | Union::Bool(_, _, _)
        | Union::Str(_, _, _)
        | Union::Char(_, _, _)
        | Union::Int(_, _, _)
        | Union::Blob(_, _, _)
        | Union::Variant(_, _, _) => false,
    }
}

// The same with a work list of values to visit, so that calls don't nest. If its allocation fails,
// it recurses.
#[inline(never)]
#[cycle(locks)]
fn locks_far(value: &Dynamic, store: &Store, alloc: Global) -> bool
    requires { cell_of value.now ≡ None }
    ensures { result ≡ is_locked store.now value.now }
{
    let mut visits = Visits::inside(value, alloc);
    while let Some(found) = visits.next() {
        match &found.union {
            Union::Shared(_, _, cell) => {
                if store.read(*cell).is_none() {
                    return true;
                }
            }
            Union::Array(_, _, _) => {
                if is_locked_or_entered(&mut visits, found, store) {
                    return true;
                }
            }
            Union::Map(_, _, _) => {
                if is_locked_or_entered(&mut visits, found, store) {
                    return true;
                }
            }
            Union::FnPtr(_, _, _) => {
                if is_locked_or_entered(&mut visits, found, store) {
                    return true;
                }
            }
            Union::Unit(_, _, _)
            | Union::Bool(_, _, _)
            | Union::Str(_, _, _)
            | Union::Char(_, _, _)
            | Union::Int(_, _, _)
            | Union::Blob(_, _, _)
            | Union::Variant(_, _, _) => {}
        }
    }
    false
}

// Enters a value; if the allocation for that fails, returns whether it is locked.
#[cycle(locks)]
fn is_locked_or_entered<'a>(visits: &mut Visits<'a>, found: &'a Dynamic, store: &Store) -> bool
    requires { cell_of found.now ≡ None }
    ensures locked { result ≡ true → is_locked store.now found.now ≡ true }
    ensures entered { result ≡ false → any_locked store.now visits.new ≡ any_locked store.now (found.now ∷ visits.old) }
    ensures fewer { nodes_trees (trees_of visits.new) < nodes found.now + nodes_trees (trees_of visits.old) }
{
    if visits.enter(found) {
        return false;
    }
    locks(found, store, NEAR)
}

#[cycle(locks)]
fn locks_items(items: &Vec<Dynamic>, store: &Store, levels: u32) -> bool
    ensures { result ≡ is_one_locked store.now (trees_of items.now.items) }
{
    for item in items {
        if locks(item, store, levels) {
            return true;
        }
    }
    false
}

#[cycle(locks)]
fn locks_map(map: &Map, store: &Store, levels: u32) -> bool
    ensures { result ≡ is_field_locked store.now (fields_of map.now) }
{
    for (_, value) in map.iter() {
        if locks(value, store, levels) {
            return true;
        }
    }
    false
}
