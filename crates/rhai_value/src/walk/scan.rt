//! Visits to a value and all values inside it.
ghost use Rattle.std.specs.Prelude.{◌≡◌, ◌+◌, ◌*◌, ◌<◌, ◌≤◌, map};
ghost use Rattle.rhai_value.specs.Frames.{unwound, sizes, AreAll};
ghost use Rattle.rhai_value.specs.RowWalks.{chunk_scanned, chunk_view, row_scanned, scanned};
ghost use Rattle.rhai_value.specs.Hollow.{hollow_after, hollow_left, hollow_scanned, IsReady, IsWaiting};
ghost use Rattle.rhai_value.specs.Lists.{rows, rows_of, IsWhole};
ghost use Rattle.rhai_value.specs.Rows.{trees_of, fields_of};
ghost use Rattle.rhai_value.specs.Scan.{each_scanned, fields_scanned, children_scanned, scan};
ghost use Rattle.rhai_value.specs.Tree.{nodes};

use crate::map::{Chunk, Entry, Map, MapParts};
use crate::value::dynamic::Dynamic;
use crate::value::union::Union;
use crate::walk::hollow::{Hollow, go_down};
use crate::walk::near::NEAR;
use std::alloc::Global;

/// The callback of `deep_scan`.
pub trait Visitor {
    ghost use Rattle.std.specs.Prelude.{◌≤◌};
    ghost use Rattle.rhai_value.specs.Tree.{Tree, nodes};

    /// The visitor and the value after a visit.
    ghost visited: { Self → Tree → Self × Tree };

    /// A visit adds no nodes, so that a scan ends.
    ghost adds_no_nodes: { (v : Self) (t : Tree) → nodes (visited v t).1 ≤ nodes t };

    /// Visits a value, before its children.
    fn visit(&mut self, value: &mut Dynamic)
        ensures { (self.new, value.new) ≡ visited self.old value.old };
}

impl Dynamic {
    /// Visits the value, and then the children of the result, recursively: the items of an array,
    /// the values of a map in the order of the keys, the curried values of a function pointer, from
    /// left to right. A holder is visited; its cell isn't entered.
    /// Cost: the number of visited values; no memory for values of up to 64 levels. Below those it
    /// allocates a work list; if that fails, it recurses for another 64 levels.
    /// rhai: `Dynamic::deep_scan`, which takes a closure.
    pub fn deep_scan<V: Visitor>(&mut self, visitor: &mut V)
        ensures { (visitor.new, self.new) ≡ scan V.visited visitor.old self.old }
    {
        scan_value(self, visitor, NEAR);
    }
}

// Inlined into callers, since most values contain no others.
#[inline(always)]
#[cycle(scan)]
fn scan_value<V: Visitor>(value: &mut Dynamic, visitor: &mut V, levels: u32)
    ensures { (visitor.new, value.new) ≡ scan V.visited visitor.old value.old }
{
    visitor.visit(value);
    scan_children(value, visitor, levels);
}

#[inline(always)]
#[cycle(scan)]
fn scan_children<V: Visitor>(value: &mut Dynamic, visitor: &mut V, levels: u32)
    ensures { (visitor.new, value.new) ≡ children_scanned (scan V.visited) visitor.old value.old }
{
    match &mut value.union {
        Union::Unit(_, _, _) => {}
        Union::Bool(_, _, _) => {}
        Union::Str(_, _, _) => {}
        Union::Char(_, _, _) => {}
        Union::Int(_, _, _) => {}
        Union::Array(_, _, items) => {
            if levels == 0 {
                let alloc = *items.allocator();
                scan_far(value, visitor, alloc);
            } else {
                scan_items(items, visitor, levels - 1);
            }
        }
        Union::Blob(_, _, _) => {}
        Union::Map(_, _, map) => {
            if levels == 0 {
                let alloc = map.alloc;
                scan_far(value, visitor, alloc);
            } else {
                scan_map(map, visitor, levels - 1);
            }
        }
        Union::FnPtr(_, _, f) => {
            if levels == 0 {
                let alloc = *f.curry.allocator();
                scan_far(value, visitor, alloc);
            } else {
                scan_items(&mut f.curry, visitor, levels - 1);
            }
        }
        Union::Variant(_, _, _) => {}
        Union::Shared(_, _, _) => {}
    }
}

#[inline(never)]
#[cycle(scan)]
fn scan_items<V: Visitor>(items: &mut Vec<Dynamic>, visitor: &mut V, levels: u32)
    ensures { (visitor.new, trees_of items.new.items) ≡ each_scanned (scan V.visited) visitor.old (trees_of items.old.items) }
{
    for item in items.iter_mut() {
        scan_value(item, visitor, levels);
    }
}

#[inline(never)]
#[cycle(scan)]
fn scan_map<V: Visitor>(map: &mut Map, visitor: &mut V, levels: u32)
    ensures { (visitor.new, fields_of map.new) ≡ fields_scanned (scan V.visited) visitor.old (fields_of map.old) }
{
    let Some(mut parts) = map.parts.take() else {
        return;
    };
    scan_parts(&mut parts, visitor, levels);
    map.parts = Some(parts);
}

#[cycle(scan)]
fn scan_parts<V: Visitor>(parts: &mut MapParts, visitor: &mut V, levels: u32)
    requires { IsWhole parts.old }
    ensures scanned { (visitor.new, fields_of (rows_of parts.new)) ≡ fields_scanned (scan V.visited) visitor.old (fields_of (rows_of parts.old)) }
    ensures whole { IsWhole parts.new }
{
    scan_entries(&mut parts.first, visitor, levels);
    scan_chunks(&mut parts.rest, visitor, levels);
}

#[cycle(scan)]
fn scan_entries<V: Visitor>(entries: &mut Vec<Entry>, visitor: &mut V, levels: u32)
    ensures { (visitor.new, rows entries.new.items) ≡ scanned (row_scanned (scan V.visited)) visitor.old (rows entries.old.items) }
{
    for entry in entries.iter_mut() {
        scan_value(&mut entry.value, visitor, levels);
    }
}

#[cycle(scan)]
fn scan_chunks<V: Visitor>(rest: &mut Vec<Chunk>, visitor: &mut V, levels: u32)
    ensures { (visitor.new, map chunk_view rest.new.items) ≡ scanned (chunk_scanned (scan V.visited)) visitor.old (map chunk_view rest.old.items) }
{
    for chunk in rest.iter_mut() {
        scan_entries(&mut chunk.entries, visitor, levels);
    }
}

// The same with the children taken out one after another, level by level, so that calls don't nest.
// If an allocation for that fails, it recurses.
#[inline(never)]
#[cycle(scan)]
fn scan_far<V: Visitor>(value: &mut Dynamic, visitor: &mut V, alloc: Global)
    ensures { (visitor.new, value.new) ≡ children_scanned (scan V.visited) visitor.old value.old }
{
    match Hollow::open(value.take()) {
        Ok(hollow) => *value = scan_hollow(hollow, visitor, alloc),
        Err(back) => {
            *value = back;
            scan_children(value, visitor, NEAR);
        }
    }
}

#[cycle(scan)]
fn scan_hollow<V: Visitor>(first: Hollow, visitor: &mut V, alloc: Global) -> Dynamic
    requires { IsReady first }
    ensures { (visitor.new, result) ≡ hollow_scanned (scan V.visited) visitor.old first }
{
    let mut frames: Vec<Hollow> = Vec::new(alloc);
    let mut top = first;
    loop {
        match top.next() {
            Some(child) => scan_child(child, &mut frames, &mut top, visitor),
            None => {
                let done = top.close();
                match frames.pop() {
                    None => return done,
                    Some(up) => {
                        top = up;
                        top.put(done);
                    }
                }
            }
        }
    }
}

// Visits a child while `top` waits, and enters it, or otherwise scans all of it.
#[cycle(scan)]
fn scan_child<V: Visitor>(
    child: Dynamic,
    frames: &mut Vec<Hollow>,
    top: &mut Hollow,
    visitor: &mut V,
)
    requires waiting { IsWaiting top.old }
    requires all { AreAll IsWaiting frames.old.items }
    ensures comes { unwound (hollow_after (scan V.visited)) frames.new.items (hollow_scanned (scan V.visited) visitor.new top.new)
        ≡ unwound (hollow_after (scan V.visited)) frames.old.items (hollow_after (scan V.visited) (scan V.visited visitor.old child).0 top.old (scan V.visited visitor.old child).1) }
    ensures ready { IsReady top.new }
    ensures all { AreAll IsWaiting frames.new.items }
    ensures fewer { sizes hollow_left frames.new.items + 2 * hollow_left top.new < sizes hollow_left frames.old.items + 2 * hollow_left top.old + 2 * nodes child }
{
    let mut value = child;
    visitor.visit(&mut value);
    if let Err(back) = go_down(frames, top, value) {
        let mut near = back;
        scan_children(&mut near, visitor, NEAR);
        top.put(near);
    }
}
