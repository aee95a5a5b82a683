//! Iteration over the entries of a map.

use crate::map::{Chunk, Entry, Map, MapParts};
use crate::value::dynamic::Dynamic;
use std::iter::{ExactSizeIterator, FusedIterator, IntoIterator, Iterator};
use std::marker::Model;

/// The remaining entries of a map, by ascending keys. Contracts see their rows.
#[derive(Drop)]
pub struct Entries<'a> {
    list: &'a [Entry],
    rest: &'a [Chunk],
    len: usize,
}

impl<'a> Model for Entries<'a> {
    ghost use Rattle.rhai_value.specs.Rows.{Rows};

    ghost Value = { Rows };

    ghost use Rattle.std.specs.Coded.{codes, coded_list, coded×, coded_ℕ};
    ghost use Rattle.rhai_value.specs.contracts.value.access_mode.AccessMode as access_mode;
    ghost use Rattle.rhai_value.specs.contracts.value.host.Host as host_kind;
    ghost use Rattle.rhai_value.specs.Code.{tree_code};

    ghost coded = { coded_list (coded× (coded_list coded_ℕ) (tree_code (Prim.hlevel (codes, access_mode.the_row.coded, host_kind.the_row.coded)))) };

    ghost use Rattle.rhai_value.specs.Lists.{rows_left, AreLeft};

    ghost view = { λ a. rows_left a.list.now a.rest.now };

    ghost invariant = { λ a. AreLeft a.list.now a.rest.now a.len };
}

impl<'a> Entries<'a> {
    ghost use Rattle.std.specs.Prelude.{◌≡◌, []};
    ghost use Rattle.rhai_value.specs.Lists.{rows_of, IsWhole};

    pub(crate) fn none() -> Entries<'a>
        ensures { result ≡ [] }
    {
        Entries {
            list: &[],
            rest: &[],
            len: 0,
        }
    }

    pub(crate) fn of_parts(parts: &'a MapParts) -> Entries<'a>
        requires { IsWhole parts.now }
        ensures { result ≡ rows_of parts.now }
    {
        Entries {
            list: parts.first.as_slice(),
            rest: parts.rest.as_slice(),
            len: parts.len,
        }
    }
}

impl<'a> Iterator for Entries<'a> {
    ghost use Rattle.std.specs.Iterator.{YieldsFirstBy, item_count};
    ghost use Rattle.std.specs.Map.Iter.{deref_pair};

    type Item = (&'a str, &'a Dynamic);

    ghost next_gives = { YieldsFirstBy deref_pair (λ rest. rest) };

    ghost remaining = { item_count (λ rest. rest) };

    #[inline(always)]
    fn next(&mut self) -> Option<(&'a str, &'a Dynamic)> {
        if self.list.is_empty() {
            if let Some((chunk, rest)) = self.rest.split_first() {
                self.list = chunk.entries.as_slice();
                self.rest = rest;
            }
        }
        match self.list.split_first() {
            Some((entry, list)) => {
                self.list = list;
                self.len -= 1;
                Some((entry.key.as_str(), &entry.value))
            }
            None => None,
        }
    }

    fn size_hint(&self) -> (usize, Option<usize>) {
        let len = self.len();
        (len, Some(len))
    }
}

impl<'a> ExactSizeIterator for Entries<'a> {
    fn len(&self) -> usize {
        self.len
    }
}

impl<'a> FusedIterator for Entries<'a> {}

impl<'a> IntoIterator for &'a Map {
    ghost use Rattle.std.specs.Prelude.{◌≡◌};

    type Item = (&'a str, &'a Dynamic);

    type IntoIter = Entries<'a>;

    ghost into_iter_gives = { λ m r. r ≡ m.now };

    fn into_iter(self) -> Entries<'a> {
        self.iter()
    }
}

/// The remaining keys of a map, in ascending order.
#[derive(Drop)]
pub struct Keys<'a> {
    pub(crate) entries: Entries<'a>,
}

impl<'a> Model for Keys<'a> {
    ghost use Rattle.std.specs.Prelude.{ℕ, List};

    ghost Value = { List (List ℕ) };

    ghost use Rattle.std.specs.Map.{keys_of};

    ghost view = { λ a. keys_of a.entries };
}

impl<'a> Iterator for Keys<'a> {
    ghost use Rattle.std.specs.Iterator.{YieldsFirstRef, item_count};

    type Item = &'a str;

    ghost next_gives = { YieldsFirstRef (λ rest. rest) };

    ghost remaining = { item_count (λ rest. rest) };

    fn next(&mut self) -> Option<&'a str> {
        match self.entries.next() {
            Some((key, _)) => Some(key),
            None => None,
        }
    }

    fn size_hint(&self) -> (usize, Option<usize>) {
        self.entries.size_hint()
    }
}

impl<'a> FusedIterator for Keys<'a> {}

/// The remaining values of a map, by ascending keys.
#[derive(Drop)]
pub struct Values<'a> {
    pub(crate) entries: Entries<'a>,
}

impl<'a> Model for Values<'a> {
    ghost use Rattle.std.specs.Prelude.{List};
    ghost use Rattle.rhai_value.specs.Tree.{Tree};

    ghost Value = { List Tree };

    ghost use Rattle.std.specs.Coded.{codes, coded_list};
    ghost use Rattle.rhai_value.specs.contracts.value.access_mode.AccessMode as access_mode;
    ghost use Rattle.rhai_value.specs.contracts.value.host.Host as host_kind;
    ghost use Rattle.rhai_value.specs.Code.{tree_code};

    ghost coded = { coded_list (tree_code (Prim.hlevel (codes, access_mode.the_row.coded, host_kind.the_row.coded))) };

    ghost use Rattle.std.specs.Map.{values_of};

    ghost view = { λ a. values_of a.entries };
}

impl<'a> Iterator for Values<'a> {
    ghost use Rattle.std.specs.Iterator.{YieldsFirstRef, item_count};

    type Item = &'a Dynamic;

    ghost next_gives = { YieldsFirstRef (λ rest. rest) };

    ghost remaining = { item_count (λ rest. rest) };

    fn next(&mut self) -> Option<&'a Dynamic> {
        match self.entries.next() {
            Some((_, value)) => Some(value),
            None => None,
        }
    }

    fn size_hint(&self) -> (usize, Option<usize>) {
        self.entries.size_hint()
    }
}

impl<'a> FusedIterator for Values<'a> {}
