//! A caller's own visitors, and the results of scans with them.
ghost use Rattle.std.specs.Prelude.{◌≡◌, ◌+◌, ◌-◌, ◌^◌, min, pos, is_some, if◌then◌else◌};
ghost use Rattle.rhai_value.specs.Parts.{with_int};
ghost use Rattle.rhai_value.specs.Scan.{scan, nodes_kept, nodes_unit};
ghost use Rattle.rhai_value.specs.Tree.{fresh, unit, cell_of};
ghost use Rattle.std.proofs.Common.{refl};

use crate::values::{holds, is_locked, pair_of, shared};
use rhai_text::ImmutableString;
use rhai_value::{Dynamic, FnPtr, INT, Map, Part, Store, Union, Visitor};
use std::alloc::Global;

/// Sets each int to 0.
#[derive(Drop)]
struct Zeros {
    visits: u64,
}

impl Visitor for Zeros {
    ghost visited = { λ v t. (record v { visits = min (v.visits + 1) (2 ^ 64 - 1) }, with_int (pos 0) t) };

    ghost adds_no_nodes = { λ v t. nodes_kept _ _ t refl };

    fn visit(&mut self, value: &mut Dynamic) {
        self.visits = self.visits.saturating_add(1);
        if let Some(int) = INT::own_mut(value) {
            *int = 0;
        }
    }
}

/// Replaces each holder with unit.
#[derive(Drop)]
struct Unshared {
    visits: u64,
}

impl Visitor for Unshared {
    ghost visited = { λ v t. (record v { visits = min (v.visits + 1) (2 ^ 64 - 1) }, if is_some (cell_of t) then fresh unit else t) };

    ghost adds_no_nodes = { λ v t. nodes_unit _ t };

    fn visit(&mut self, value: &mut Dynamic) {
        self.visits = self.visits.saturating_add(1);
        if value.is_shared() {
            *value = Dynamic::UNIT;
        }
    }
}

/// Sets each int to the number of values visited before it.
#[derive(Drop)]
struct Numbers {
    visits: u32,
}

impl Visitor for Numbers {
    ghost visited = { λ v t. (record v { visits = min (v.visits + 1) (2 ^ 32 - 1) }, with_int (pos v.visits) t) };

    ghost adds_no_nodes = { λ v t. nodes_kept _ _ t refl };

    fn visit(&mut self, value: &mut Dynamic) {
        let number = INT::from(self.visits);
        self.visits = self.visits.saturating_add(1);
        if let Some(int) = INT::own_mut(value) {
            *int = number;
        }
    }
}

/// Returns how many values are visited when all holders are removed.
fn unshare(value: &mut Dynamic) -> u64
    ensures { (record { visits = result }, value.new) ≡ scan ⟦<Unshared as Visitor>⟧.visited (record { visits = 0 }) value.old }
{
    let mut visitor = Unshared { visits: 0 };
    value.deep_scan(&mut visitor);
    visitor.visits
}

/// Returns how many values are visited when all ints are set to 0.
fn zero(value: &mut Dynamic) -> u64 {
    let mut visitor = Zeros { visits: 0 };
    value.deep_scan(&mut visitor);
    visitor.visits
}

#[test]
fn a_visitor_counts_what_it_comes_to(rt: HostRuntime) {
    let mut store = Store::new(rt.alloc());
    let holder = shared(Dynamic::THREE, &mut store);
    let mut value = pair_of(rt.alloc(), Dynamic::ONE, holder);
    let other = Store::new(rt.alloc());
    assert!(rt; zero(&mut value) == 3);
    assert!(rt; is_locked(&value, &other));
    assert!(rt; unshare(&mut value) == 3);
    assert!(rt; !is_locked(&value, &other));
}

/// How many levels the deep value has.
const LEVELS: INT = 100;

/// Three values as a list; fewer if an allocation fails.
fn three(alloc: Global, first: Dynamic, second: Dynamic, third: Dynamic) -> Vec<Dynamic> {
    match vec![in alloc; first, second, third] {
        Ok(items) => items,
        Err(_) => Vec::new(alloc),
    }
}

fn insert(alloc: Global, map: &mut Map, key: &str, value: Dynamic) -> bool {
    match String::from_str(alloc, key) {
        Ok(key) => map.insert(key, value).is_ok(),
        Err(_) => false,
    }
}

/// Makes a map from "a" and "c" to ints and from "b" to this value, inserted in another order.
fn map_of_three(alloc: Global, value: Dynamic) -> Dynamic {
    let mut map = Map::new(alloc);
    let _ = insert(alloc, &mut map, "c", Dynamic::ONE);
    let _ = insert(alloc, &mut map, "b", value);
    let _ = insert(alloc, &mut map, "a", Dynamic::ONE);
    Dynamic::from_map(map)
}

/// Makes a function with these curried values; unit if the allocation fails.
fn function_of(alloc: Global, curry: Vec<Dynamic>) -> Dynamic {
    match ImmutableString::from_str(alloc, "f") {
        Ok(name) => Dynamic::from(FnPtr::new(name, curry)),
        Err(_) => Dynamic::UNIT,
    }
}

/// Makes an array, a map or a function that contains an int, this value, and an int.
fn around(alloc: Global, level: INT, value: Dynamic) -> Dynamic {
    match level % 3 {
        0 => Dynamic::from_array(three(alloc, Dynamic::ONE, value, Dynamic::ONE)),
        1 => map_of_three(alloc, value),
        _ => function_of(alloc, three(alloc, Dynamic::ONE, value, Dynamic::ONE)),
    }
}

/// Makes an int within arrays, maps and functions in rotation.
fn deep(alloc: Global) -> Dynamic {
    let mut value = Dynamic::ONE;
    for level in 0..LEVELS {
        value = around(alloc, level, value);
    }
    value
}

/// Returns the first, the second or the third value inside another.
fn child(value: &Dynamic, at: usize) -> Option<&Dynamic> {
    match value.parts() {
        Union::Array(_, _, items) => items.get(at),
        Union::FnPtr(_, _, f) => f.curry().get(at),
        Union::Map(_, _, map) => match at {
            0 => map.get("a"),
            1 => map.get("b"),
            _ => map.get("c"),
        },
        _ => None,
    }
}

fn is_int(value: Option<&Dynamic>, store: &Store, wanted: INT) -> bool {
    match value {
        Some(value) => holds(value, store, wanted),
        None => false,
    }
}

/// Whether each of 100 levels has its numbers: before its first int come two values for each level
/// above, and its container; before the innermost int come 200; the last ints follow from the
/// inside out, so that the outermost has 300.
fn is_numbered(value: &Dynamic, store: &Store) -> bool {
    let mut here = value;
    let mut first: INT = 1;
    let mut last: INT = 300;
    for _ in 0..LEVELS {
        if !is_int(child(here, 0), store, first) || !is_int(child(here, 2), store, last) {
            return false;
        }
        match child(here, 1) {
            Some(inner) => here = inner,
            None => return false,
        }
        first = first.wrapping_add(2);
        last = last.wrapping_sub(1);
    }
    holds(here, store, 200)
}

#[test]
fn a_deep_value_is_visited_in_order(rt: HostRuntime) {
    let store = Store::new(rt.alloc());
    let mut value = deep(rt.alloc());
    let mut visitor = Numbers { visits: 0 };
    value.deep_scan(&mut visitor);
    assert!(rt; visitor.visits == 301);
    assert!(rt; is_numbered(&value, &store));
}
