//! Maps that are filled and taken apart.
ghost use Rattle.std.specs.Prelude.{◌≡◌, ◌+◌, ◌-◌, ◌^◌, min, pos};
ghost use Rattle.rhai_value.specs.Tree.{fresh, int};

use crate::values::holds;
use rhai_value::{Dynamic, INT, Map, Store, ValueWriter};
use std::alloc::Global;

/// Counts a word, as a script's `m[word] += 1` would.
fn count(map: &mut Map, store: &mut Store, word: &str) -> bool {
    if let Some(value) = map.get_mut(word) {
        return match value.as_int(store) {
            Ok(int) => value.set_int(store, int.wrapping_add(1)),
            Err(_) => false,
        };
    }
    map.set(word, Dynamic::ONE).is_ok()
}

/// Counts each of the words.
fn count_all(map: &mut Map, store: &mut Store, words: &[&str]) -> bool {
    for word in words {
        if !count(map, store, word) {
            return false;
        }
    }
    true
}

/// Sets each value to the number of values before it.
#[derive(Drop)]
struct Numbering {
    values: u32,
}

impl ValueWriter for Numbering {
    ghost writes = { λ w t. (record w { values = min (w.values + 1) (2 ^ 32 - 1) }, fresh (int (pos w.values))) };

    fn write(&mut self, value: &mut Dynamic) {
        *value = Dynamic::from_int(INT::from(self.values));
        self.values = self.values.saturating_add(1);
    }
}

/// Sums the ints of a map that is taken apart, each times the position of its key in order, from 1.
fn weighed(map: Map, store: &Store) -> INT {
    let mut sum: INT = 0;
    let mut place: INT = 0;
    for (_, value) in map {
        place = place.wrapping_add(1);
        if let Ok(int) = value.as_int(store) {
            sum = sum.wrapping_add(int.wrapping_mul(place));
        }
    }
    sum
}

/// Whether a key had 1, before its value is replaced.
fn replaces(map: &mut Map, store: &Store, key: &str, value: Dynamic) -> bool {
    match map.set(key, value) {
        Ok(Some(old)) => holds(&old, store, 1),
        Ok(None) | Err(_) => false,
    }
}

/// Whether `b a b c b` counts 1, 3 and 1, and replaced values are returned.
fn is_counted(store: &mut Store, alloc: Global) -> bool {
    let mut map = Map::new(alloc);
    let is_full = count_all(&mut map, store, &["b", "a", "b", "c", "b"]);
    let was = replaces(&mut map, store, "c", Dynamic::TEN);
    is_full && was && map.len() == 3 && weighed(map, store) == 37
}

/// Whether the values of three keys are numbered in key order: 0, 1 and 2.
fn is_numbered(store: &mut Store, alloc: Global) -> bool {
    let mut map = Map::new(alloc);
    let is_full = count_all(&mut map, store, &["b", "c", "a"]);
    let mut numbering = Numbering { values: 0 };
    map.write_values(&mut numbering);
    is_full && numbering.values == 3 && weighed(map, store) == 8
}

#[test]
fn keys_are_set_and_taken_apart(rt: HostRuntime) {
    let mut store = Store::new(rt.alloc());
    assert!(rt; is_counted(&mut store, rt.alloc()));
    assert!(rt; is_numbered(&mut store, rt.alloc()));
}
