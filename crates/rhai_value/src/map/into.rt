//! Consuming a map.

use crate::map::Map;
use crate::map::key::Key;
use crate::value::dynamic::Dynamic;
use std::alloc::{AllocError, Global};
use std::iter::{ExactSizeIterator, FusedIterator, IntoIterator, Iterator};
use std::marker::Model;

/// The remaining entries of a map, each with its key as an owned `String`, by ascending keys.
/// Contracts see their rows.
#[derive(Drop)]
pub struct IntoEntries {
    map: Map,
    alloc: Global,
}

impl Model for IntoEntries {
    ghost use Rattle.rhai_value.specs.Rows.{Rows};

    ghost Value = { Rows };

    ghost use Rattle.std.specs.Coded.{codes, coded_list, coded×, coded_ℕ};
    ghost use Rattle.rhai_value.specs.contracts.value.access_mode.AccessMode as access_mode;
    ghost use Rattle.rhai_value.specs.contracts.value.host.Host as host_kind;
    ghost use Rattle.rhai_value.specs.Code.{tree_code};

    ghost coded = { coded_list (coded× (coded_list coded_ℕ) (tree_code (Prim.hlevel (codes, access_mode.the_row.coded, host_kind.the_row.coded)))) };

    ghost view = { λ a. a.map };
}

/// The remaining entries of a map, each with its `Key`, by ascending keys. Contracts see their
/// rows.
#[derive(Drop)]
pub struct IntoKeyedEntries {
    map: Map,
}

impl Model for IntoKeyedEntries {
    ghost use Rattle.rhai_value.specs.Rows.{Rows};

    ghost Value = { Rows };

    ghost use Rattle.std.specs.Coded.{codes, coded_list, coded×, coded_ℕ};
    ghost use Rattle.rhai_value.specs.contracts.value.access_mode.AccessMode as access_mode;
    ghost use Rattle.rhai_value.specs.contracts.value.host.Host as host_kind;
    ghost use Rattle.rhai_value.specs.Code.{tree_code};

    ghost coded = { coded_list (coded× (coded_list coded_ℕ) (tree_code (Prim.hlevel (codes, access_mode.the_row.coded, host_kind.the_row.coded)))) };

    ghost view = { λ a. a.map };
}

impl Map {
    ghost use Rattle.std.specs.Prelude.{◌≡◌};

    /// Consumes the map and iterates over its entries by ascending keys, each with its key as a
    /// `String`.
    /// Cost: that of `pop_first` for each entry.
    /// rhai: `BTreeMap::into_iter` of its maps.
    pub fn into_entries(self, alloc: Global) -> IntoEntries
        ensures { result ≡ self }
    {
        IntoEntries { map: self, alloc }
    }

    /// Consumes the map and iterates over its entries by ascending keys, each with its `Key`.
    /// Cost: no memory; that of `pop_first_key` for each entry.
    pub fn into_keyed_entries(self) -> IntoKeyedEntries
        ensures { result ≡ self }
    {
        IntoKeyedEntries { map: self }
    }
}

impl IntoEntries {
    ghost use Rattle.std.specs.Prelude.{◌≡◌, [], ◌∷◌, length, IfOk, OnErr, MatchOption, string_bytes};

    /// Returns the next entry.
    /// Errors: the allocation of the key's text fails, and nothing changes.
    /// Cost: that of `pop_first`.
    pub fn next(&mut self) -> Result<Option<(String, Dynamic)>, AllocError>
        ensures ok { IfOk result (λ first. MatchOption first ((self.old ≡ []) × (self.new ≡ [])) (λ x. self.old ≡ (string_bytes x.0, x.1) ∷ self.new)) }
        ensures err { OnErr result (self.new ≡ self.old) }
    {
        let alloc = self.alloc;
        self.map.pop_first(alloc)
    }

    /// Returns the number of remaining entries.
    /// Cost: constant.
    pub fn len(&self) -> usize
        ensures { result ≡ length self.now }
    {
        self.map.len()
    }
}

impl Iterator for IntoKeyedEntries {
    ghost use Rattle.std.specs.Iterator.{YieldsFirstBy, item_count};

    type Item = (Key, Dynamic);

    ghost next_gives = { YieldsFirstBy (λ x. (x.0, x.1)) (λ rest. rest) };

    ghost remaining = { item_count (λ rest. rest) };

    fn next(&mut self) -> Option<(Key, Dynamic)> {
        self.map.pop_first_key()
    }

    fn size_hint(&self) -> (usize, Option<usize>) {
        let len = self.len();
        (len, Some(len))
    }
}

impl ExactSizeIterator for IntoKeyedEntries {
    fn len(&self) -> usize {
        self.map.len()
    }
}

impl FusedIterator for IntoKeyedEntries {}

impl IntoIterator for Map {
    ghost use Rattle.std.specs.Prelude.{◌≡◌};

    type Item = (Key, Dynamic);

    type IntoIter = IntoKeyedEntries;

    ghost into_iter_gives = { λ m r. r ≡ m };

    fn into_iter(self) -> IntoKeyedEntries {
        self.into_keyed_entries()
    }
}
