//! Dropping a value with bounded stack and no allocation, in time linear in the number of values
//! inside.
ghost use Rattle.std.specs.Prelude.{◌≡◌, ◌<◌, ◌≤◌, ◌+◌, [], IfOk, IfErr, IfNone, IsTrue};
ghost use Rattle.std.specs.Option.{option_to_list};
ghost use Rattle.rhai_value.specs.Rows.{trees_of};
ghost use Rattle.rhai_value.specs.Tree.{nodes, nodes_trees};

use crate::map::{Chunk, Entry, Map, MapParts};
use crate::value::dynamic::Dynamic;
use crate::value::fn_ptr::FnPtr;
use crate::value::union::Union;
use std::mem;

/// Drops a value: the first levels recursively, deeper ones with a loop. Most values contain no
/// others, and are dropped in place: the value is taken apart here, so that none is moved as a
/// whole.
#[inline(always)]
#[cycle(shed)]
pub(crate) fn shed(value: Dynamic, levels: u32) {
    match value.into_parts() {
        Union::Array(_, _, items) => shed_items(items, levels),
        Union::Map(_, _, map) => shed_map(map, levels),
        Union::FnPtr(_, _, f) => shed_items(f.curry, levels),
        Union::Str(_, _, text) => drop(text),
        Union::Blob(_, _, bytes) => drop(bytes),
        Union::Unit(_, _, _)
        | Union::Bool(_, _, _)
        | Union::Char(_, _, _)
        | Union::Int(_, _, _)
        | Union::Variant(_, _, _)
        | Union::Shared(_, _, _) => {}
    }
}

#[inline(never)]
#[cycle(shed)]
fn shed_items(items: Vec<Dynamic>, levels: u32) {
    if levels == 0 {
        shed_far(Dynamic::from_array(items));
        return;
    }
    let mut items = items;
    while let Some(item) = items.pop() {
        shed(item, levels - 1);
    }
    items.destroy_empty();
}

#[inline(never)]
#[cycle(shed)]
fn shed_map(map: Map, levels: u32) {
    if levels == 0 {
        shed_far(Dynamic::from_map(map));
        return;
    }
    if let Some(parts) = map.parts {
        let MapParts {
            first,
            rest,
            len: _,
        } = Box::into_inner(parts);
        shed_entries(first, levels - 1);
        shed_chunks(rest, levels - 1);
    }
}

#[cycle(shed)]
fn shed_chunks(rest: Vec<Chunk>, levels: u32) {
    let mut rest = rest;
    while let Some(chunk) = rest.pop() {
        shed_entries(chunk.entries, levels);
    }
    rest.destroy_empty();
}

#[cycle(shed)]
fn shed_entries(entries: Vec<Entry>, levels: u32) {
    let mut entries = entries;
    while let Some(entry) = entries.pop() {
        let Entry { key, value } = entry;
        drop(key);
        shed(value, levels);
    }
    entries.destroy_empty();
}

// Takes the children of `whole` one after another. Most contain no others, and are dropped at once.
// If one has children, the loop enters it, and puts its parent in the place of the first of these,
// so that the way back is stored in the values themselves. The last child of a value takes the
// value's place, whether it is the way back or not; so each value is entered once.
fn shed_far(value: Dynamic) {
    let mut whole = value;
    while let Some(child) = take_child(&mut whole) {
        if is_bare(&child) {
            close(child);
        } else if is_bare(&whole) {
            close(whole);
            whole = child;
        } else {
            let mut held = child;
            loop {
                match swap_child(&mut held, whole) {
                    Ok(inner) => {
                        whole = held;
                        held = inner;
                    }
                    Err(back) => {
                        whole = back;
                        break;
                    }
                }
            }
            close(held);
        }
    }
    close(whole);
}

/// Drops a value without children.
#[tactic(auto, using(crate::proofs::Sheds::bare_trees, crate::proofs::Sheds::bare_rows))]
fn close(value: Dynamic)
    requires { nodes value ≤ 1 }
{
    match value.into_parts() {
        Union::Array(_, _, items) => items.destroy_empty(),
        Union::Map(_, _, map) => close_map(map),
        Union::FnPtr(_, _, f) => f.curry.destroy_empty(),
        Union::Str(_, _, text) => drop(text),
        Union::Blob(_, _, bytes) => drop(bytes),
        Union::Unit(_, _, _)
        | Union::Bool(_, _, _)
        | Union::Char(_, _, _)
        | Union::Int(_, _, _)
        | Union::Variant(_, _, _)
        | Union::Shared(_, _, _) => {}
    }
}

#[tactic(auto, using(crate::proofs::Sheds::bare_parts))]
fn close_map(map: Map)
    requires { map ≡ [] }
{
    if let Some(parts) = map.parts {
        let MapParts {
            first,
            rest,
            len: _,
        } = Box::into_inner(parts);
        first.destroy_empty();
        rest.destroy_empty();
    }
}

/// Whether the value has no children.
#[tactic(auto, using(crate::proofs::Sheds::no_nodes))]
fn is_bare(value: &Dynamic) -> bool
    ensures { IsTrue result → nodes value.now ≤ 1 }
{
    match &value.union {
        Union::Array(_, _, items) => items.is_empty(),
        Union::FnPtr(_, _, f) => f.curry.is_empty(),
        Union::Map(_, _, map) => map.is_empty(),
        Union::Unit(_, _, _)
        | Union::Bool(_, _, _)
        | Union::Str(_, _, _)
        | Union::Char(_, _, _)
        | Union::Int(_, _, _)
        | Union::Blob(_, _, _)
        | Union::Variant(_, _, _)
        | Union::Shared(_, _, _) => true,
    }
}

/// Takes the last child out, if there is one.
#[tactic(auto, using(crate::proofs::Sheds::nodes_append, crate::proofs::Sheds::no_nodes))]
fn take_child(value: &mut Dynamic) -> Option<Dynamic>
    ensures fewer { nodes value.new + nodes_trees (trees_of (option_to_list result)) ≡ nodes value.old }
    ensures none { IfNone result (nodes value.new ≤ 1) }
{
    match &mut value.union {
        Union::Array(_, _, items) => items.pop(),
        Union::FnPtr(_, _, f) => f.curry.pop(),
        Union::Map(_, _, map) => map.pop_last(),
        Union::Unit(_, _, _)
        | Union::Bool(_, _, _)
        | Union::Str(_, _, _)
        | Union::Char(_, _, _)
        | Union::Int(_, _, _)
        | Union::Blob(_, _, _)
        | Union::Variant(_, _, _)
        | Union::Shared(_, _, _) => None,
    }
}

/// Takes the child out that `take_child` takes last, and puts `with` in its place, if there is one.
fn swap_child(value: &mut Dynamic, with: Dynamic) -> Result<Dynamic, Dynamic>
    ensures ok { IfOk result (λ x. (nodes value.new + nodes x ≡ nodes value.old + nodes with) × (nodes x < nodes value.old)) }
    ensures err { IfErr result (λ back. (back ≡ with) × (value.new ≡ value.old)) }
    ensures none { IfErr result (λ _. nodes value.new ≤ 1) }
{
    match &mut value.union {
        Union::Array(_, _, items) => swap_item(items, with),
        Union::FnPtr(_, _, f) => swap_item(&mut f.curry, with),
        Union::Map(_, _, map) => map.swap_first(with),
        Union::Unit(_, _, _)
        | Union::Bool(_, _, _)
        | Union::Str(_, _, _)
        | Union::Char(_, _, _)
        | Union::Int(_, _, _)
        | Union::Blob(_, _, _)
        | Union::Variant(_, _, _)
        | Union::Shared(_, _, _) => Err(with),
    }
}

#[tactic(auto, using(crate::proofs::Sheds::no_nodes))]
fn swap_item(items: &mut Vec<Dynamic>, with: Dynamic) -> Result<Dynamic, Dynamic>
    ensures ok { IfOk result (λ x. (nodes_trees (trees_of items.new.items) + nodes x ≡ nodes_trees (trees_of items.old.items) + nodes with) × (nodes x < 1 + nodes_trees (trees_of items.old.items))) }
    ensures err { IfErr result (λ back. (back ≡ with) × (items.new ≡ items.old)) }
    ensures none { IfErr result (λ _. nodes_trees (trees_of items.new.items) ≡ 0) }
{
    if items.is_empty() {
        return Err(with);
    }
    Ok(mem::replace(&mut items[0], with))
}
