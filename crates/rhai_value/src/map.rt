//! Maps from texts to values, ordered by key.

pub(crate) mod edit;
pub(crate) mod entries;
pub(crate) mod exchange;
pub(crate) mod into;
pub(crate) mod key;
pub(crate) mod parts;
pub(crate) mod pop;
pub(crate) mod seat;
pub(crate) mod set;
pub(crate) mod sought;
pub(crate) mod write;

use crate::map::entries::{Entries, Keys, Values};
use crate::map::key::Key;
use crate::map::sought::Sought;
use crate::value::dynamic::Dynamic;
use std::alloc::Global;
use std::marker::Model;

/// A map from texts to values. Contracts see its rows: each key, as its bytes, with its value, by
/// ascending keys. An empty map allocates nothing until its first entry.
/// rhai: `Map`, which is a `BTreeMap<Identifier, Dynamic>`.
#[cycle(dynamic)]
#[derive(Drop)]
pub struct Map {
    pub(crate) parts: Option<Box<MapParts>>,
    pub(crate) alloc: Global,
}

/// The first entries, chunks of those that follow, and the number of entries. If there are chunks,
/// the first list may be empty.
#[cycle(dynamic)]
#[derive(Drop)]
pub(crate) struct MapParts {
    pub(crate) first: Vec<Entry>,
    pub(crate) rest: Vec<Chunk>,
    pub(crate) len: usize,
}

/// A chunk: at least one entry, and the front of the first key.
#[cycle(dynamic)]
#[derive(Drop)]
pub(crate) struct Chunk {
    pub(crate) front: u64,
    pub(crate) entries: Vec<Entry>,
}

/// A key with its value.
#[cycle(dynamic)]
#[derive(Drop)]
pub(crate) struct Entry {
    pub(crate) key: Key,
    pub(crate) value: Dynamic,
}

impl Model for Map {
    ghost use Rattle.rhai_value.specs.Rows.{Rows};

    ghost Value = { Rows };

    ghost use Rattle.std.specs.Coded.{codes, coded_list, coded×, coded_ℕ};
    ghost use Rattle.rhai_value.specs.contracts.value.access_mode.AccessMode as access_mode;
    ghost use Rattle.rhai_value.specs.contracts.value.host.Host as host_kind;
    ghost use Rattle.rhai_value.specs.Code.{tree_code};

    ghost coded = { coded_list (coded× (coded_list coded_ℕ) (tree_code (Prim.hlevel (codes, access_mode.the_row.coded, host_kind.the_row.coded)))) };

    ghost use Rattle.rhai_value.specs.Lists.{rows_in, map_size, IsWholeIn};

    ghost view = { λ m. rows_in m.parts };

    ghost invariant = { λ m. IsWholeIn m.parts };

    ghost size = { map_size };

    ghost use Rattle.std.proofs.Common.{arith};
    ghost use Rattle.rhai_value.specs.Falls.{most_parts};

    ghost size_decreases = { λ m h. Prim.omega (arith, most_parts m.parts h) };
}

impl Map {
    ghost use Rattle.std.specs.Prelude.{◌≡◌, ◌<◌, ◌+◌, ◌↔◌, [], ◌∷◌, length, option_copied, None, is_some, string_bytes, IfOk, IfErr, OnOk, OnErr, IsTrue, MatchOption};
    ghost use Rattle.std.specs.BTreeMap.{insert_entry, is_at};
    ghost use Rattle.std.specs.Borrow.{LendsIf, sem};
    ghost use Rattle.std.specs.List.Sorted.{IsStrictlySortedBy};
    ghost use Rattle.std.specs.Map.{keys_of, lookup, remove_entry, set_value, values_of};
    ghost use Rattle.std.specs.Option.{option_copied_mut};
    ghost use Rattle.rhai_value.specs.Rows.{bytes_cmp, fields_of, AreRising, AreTexts};
    ghost use Rattle.rhai_value.specs.Tree.{nodes, nodes_fields};
    ghost use Rattle.rhai_value.specs.contracts.value.dynamic.Dynamic as dynamic_type;
    ghost use Rattle.rhai_value.specs.contracts.map.Map as map_type;

    /// Makes an empty map; its first entry allocates from `alloc`.
    /// Cost: constant; no memory.
    pub fn new(alloc: Global) -> Map
        ensures { result ≡ [] }
    {
        Map { parts: None, alloc }
    }

    /// Returns the number of entries.
    /// Cost: constant.
    pub fn len(&self) -> usize
        ensures len { result ≡ length self.now }
        ensures ordered { AreRising self.now }
        ensures texts { AreTexts self.now }
    {
        match &self.parts {
            Some(parts) => parts.len(),
            None => 0,
        }
    }

    /// Returns whether the map is empty.
    pub fn is_empty(&self) -> bool
        ensures { IsTrue result ↔ (self.now ≡ []) }
    {
        self.len() == 0
    }

    /// Returns whether the map has this key.
    /// Cost: the logarithm of the number of entries.
    pub fn contains_key(&self, key: &str) -> bool
        ensures { result ≡ is_some (lookup (is_at (bytes_cmp key.now)) self.now) }
    {
        self.get(key).is_some()
    }

    /// Borrows the value of a key, if the map has it.
    /// Cost: the logarithm of the number of entries.
    pub fn get(&self, key: &str) -> Option<&Dynamic>
        ensures value { option_copied result ≡ lookup (is_at (bytes_cmp key.now)) self.now }
        ensures ordered { AreRising self.now }
        ensures texts { AreTexts self.now }
    {
        match &self.parts {
            Some(parts) => parts.get(key),
            None => None,
        }
    }

    /// Borrows the value of a key mutably, if the map has it.
    /// Cost: the logarithm of the number of entries.
    pub fn get_mut(&mut self, key: &str) -> Option<&mut Dynamic>
        ensures* writes_back { sem 𝓛 (LendsIf map_type.the_row dynamic_type.the_row self.entry result (λ w. set_value (is_at (bytes_cmp key.now)) self.old w) self.old) }
        ensures value { option_copied_mut result ≡ lookup (is_at (bytes_cmp key.now)) self.old }
    {
        match &mut self.parts {
            Some(parts) => match parts.seat(&Sought::of(key)) {
                Ok(seat) => Some(parts.value_at_mut(seat)),
                Err(_) => None,
            },
            None => None,
        }
    }

    /// Inserts a value at a key, and returns the old value. A key that exists keeps its own text,
    /// and that insertion never fails.
    /// Errors: key and value, if the key is new and the allocation of its entry fails.
    /// Cost: the logarithm of the number of entries, and moves of up to 31 entries; occasionally a
    /// list is split, in time of the number of lists.
    /// rhai: `BTreeMap::insert`, which drops the key.
    pub fn insert(
        &mut self,
        key: String,
        value: Dynamic,
    ) -> Result<Option<Dynamic>, (String, Dynamic)>
        ensures old { IfOk result (λ old. old ≡ lookup (is_at (bytes_cmp (string_bytes key))) self.old) }
        ensures inserted { OnOk result (self.new ≡ insert_entry bytes_cmp self.old (string_bytes key) value) }
        ensures err { IfErr result (λ back. (back ≡ (key, value)) × (self.new ≡ self.old)) }
        ensures absent { OnErr result (lookup (is_at (bytes_cmp (string_bytes key))) self.old ≡ None) }
        ensures ordered { AreRising self.new }
        ensures texts { AreTexts self.new }
    {
        if self.parts.is_none() {
            self.prepare();
        }
        match &mut self.parts {
            Some(parts) => parts.insert(key, value),
            None => Err((key, value)),
        }
    }

    /// Inserts a value at a ready-made `Key`, as `insert` does.
    /// Errors: key and value, if the key is new and the allocation of its entry fails.
    /// Cost: that of `insert`.
    /// rhai: `BTreeMap::insert`.
    pub fn insert_key(
        &mut self,
        key: Key,
        value: Dynamic,
    ) -> Result<Option<Dynamic>, (Key, Dynamic)>
        ensures old { IfOk result (λ old. old ≡ lookup (is_at (bytes_cmp key)) self.old) }
        ensures inserted { OnOk result (self.new ≡ insert_entry bytes_cmp self.old key value) }
        ensures err { IfErr result (λ back. (back ≡ (key, value)) × (self.new ≡ self.old)) }
        ensures absent { OnErr result (lookup (is_at (bytes_cmp key)) self.old ≡ None) }
    {
        if self.parts.is_none() {
            self.prepare();
        }
        match &mut self.parts {
            Some(parts) => parts.insert_key(key, value),
            None => Err((key, value)),
        }
    }

    /// Allocates the parts of a map that has none; this may fail.
    #[cold]
    #[inline(never)]
    pub(crate) fn prepare(&mut self)
        ensures { self.new ≡ self.old }
    {
        if self.parts.is_none() {
            if let Ok(parts) = Box::new(self.alloc, MapParts::new(self.alloc)) {
                self.parts = Some(parts);
            }
        }
    }

    /// Removes a key, and returns its value.
    /// Cost: the logarithm of the number of entries; no memory.
    pub fn remove(&mut self, key: &str) -> Option<Dynamic>
        ensures value { result ≡ lookup (is_at (bytes_cmp key.now)) self.old }
        ensures removed { self.new ≡ remove_entry (is_at (bytes_cmp key.now)) self.old }
    {
        match &mut self.parts {
            Some(parts) => parts.remove(key),
            None => None,
        }
    }

    /// Removes all entries, and frees their memory.
    /// Cost: their drop.
    pub fn clear(&mut self)
        ensures { self.new ≡ [] }
    {
        self.parts = None;
    }

    /// Iterates over the entries by ascending keys.
    /// Cost: no memory; the whole iteration takes time in the number of entries.
    pub fn iter(&self) -> Entries<'_>
        ensures entries { result ≡ self.now }
        ensures ordered { AreRising self.now }
        ensures texts { AreTexts self.now }
    {
        match &self.parts {
            Some(parts) => Entries::of_parts(parts),
            None => Entries::none(),
        }
    }

    /// Iterates over the keys in ascending order.
    /// Cost: that of `iter`.
    pub fn keys(&self) -> Keys<'_>
        ensures keys { result ≡ keys_of self.now }
        ensures ordered { IsStrictlySortedBy bytes_cmp result }
    {
        let entries = self.iter();
        Keys { entries }
    }

    /// Iterates over the values by ascending keys.
    /// Cost: that of `iter`.
    pub fn values(&self) -> Values<'_>
        ensures { result ≡ values_of self.now }
    {
        let entries = self.iter();
        Values { entries }
    }
}
