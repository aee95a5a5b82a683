//! The index of names.
ghost use Rattle.std.specs.Prelude.{◌≡◌, ◌+◌, ◌≤◌, ◌<◌, ◌^◌, ℕ, [], ◌∷◌, ◌++◌, List, length, take, map, IfOk, OnOk, OnErr};
ghost use Rattle.std.specs.Str.{chars};
ghost use Rattle.rhai_scope.specs.Index.{IsIndexOf, names_of};
ghost use Rattle.rhai_scope.specs.Lookup.{last_position, IsLastBehind};
ghost use Rattle.rhai_scope.specs.NameIndex.{ListsNames};
ghost use Rattle.rhai_scope.specs.NameLength.{HasLength};

use crate::heading::Named;
use crate::name_index::NameIndex;
use crate::name_length::NameLength;
use crate::records::Record;
use std::alloc::{AllocError, Global};

/// The most last entries whose names aren't indexed: a linear search of so few is as fast as the
/// index, and they need no memory for it.
pub(crate) const WALKED_ENTRIES: usize = 32;

/// The places of the names of the first entries. The others, which are few, are searched linearly.
#[derive(Drop)]
pub(crate) struct Index {
    /// The number of first entries, whose names are indexed.
    pub(crate) indexed: usize,
    pub(crate) places: NameIndex,
}

/// The position of the last entry with this name among those that aren't indexed.
#[inline(always)]
fn last_behind(entries: &[Record], first: usize, name: &str, len: NameLength) -> Option<usize>
    requires within { first ≤ length entries.now }
    requires len { HasLength len name.now }
    ensures { IsLastBehind first (chars name.now) entries.now result }
{
    let mut i = entries.len();
    while i > first {
        i -= 1;
        if entries[i].is_named(name, len) {
            return Some(i);
        }
    }
    None
}

impl Index {
    pub(crate) fn new(alloc: Global) -> Index
        ensures { IsIndexOf result [] }
    {
        Index {
            indexed: 0,
            places: NameIndex::new(alloc),
        }
    }

    /// Indexes the names of entries except the last ones, which are searched linearly.
    pub(crate) fn of(alloc: Global, entries: &[Record]) -> Result<Index, AllocError>
        ensures { IfOk result (λ x. IsIndexOf x (names_of entries.now)) }
    {
        let indexed = entries.len().saturating_sub(WALKED_ENTRIES);
        let mut places = NameIndex::new(alloc);
        places.push_all(alloc, 0, &entries[..indexed])?;
        Ok(Index { indexed, places })
    }

    pub(crate) fn clear(&mut self)
        ensures { IsIndexOf self.new [] }
    {
        self.indexed = 0;
        self.places.clear();
    }

    /// The position of the last entry of a name. Allocates nothing.
    pub(crate) fn search(&self, entries: &[Record], name: &str) -> Option<usize>
        requires { IsIndexOf self.now (names_of entries.now) }
        ensures { result ≡ last_position (chars name.now) entries.now }
    {
        match name.len() {
            4..=8 => self.search_by(entries, name, NameLength::Short),
            _ => self.search_other(entries, name),
        }
    }

    /// The same for any name; out of line, so that the search for a name of four to eight bytes
    /// keeps nothing on the stack.
    #[inline(never)]
    fn search_other(&self, entries: &[Record], name: &str) -> Option<usize>
        requires { IsIndexOf self.now (names_of entries.now) }
        ensures { result ≡ last_position (chars name.now) entries.now }
    {
        match name.len() {
            1..=3 => self.search_by(entries, name, NameLength::Few),
            _ => self.search_by(entries, name, NameLength::Any),
        }
    }

    /// The same for a name of this length.
    #[inline(always)]
    fn search_by(&self, entries: &[Record], name: &str, len: NameLength) -> Option<usize>
        requires index { IsIndexOf self.now (names_of entries.now) }
        requires len { HasLength len name.now }
        ensures { result ≡ last_position (chars name.now) entries.now }
    {
        match last_behind(entries, self.indexed, name, len) {
            Some(place) => Some(place),
            None => self.places.last(name),
        }
    }

    /// Indexes the names of all entries if one more entry requires it. If an allocation fails, the
    /// index is unchanged.
    pub(crate) fn admit_one(&mut self, alloc: Global, entries: &[Record]) -> Result<(), AllocError>
        requires { IsIndexOf self.old (names_of entries.now) }
        ensures index { IsIndexOf self.new (names_of entries.now) }
        ensures ok { OnOk result ((name : List ℕ) → IsIndexOf self.new (names_of entries.now ++ name ∷ [])) }
    {
        let walked = entries.len() - self.indexed;
        if walked < WALKED_ENTRIES {
            return Ok(());
        }
        self.list_all(alloc, entries)
    }

    /// Indexes the names of all entries.
    #[cold]
    #[inline(never)]
    fn list_all(&mut self, alloc: Global, entries: &[Record]) -> Result<(), AllocError>
        requires { IsIndexOf self.old (names_of entries.now) }
        ensures ok { OnOk result ((self.new.indexed ≡ length entries.now) × ListsNames self.new.places (names_of entries.now)) }
        ensures err { OnErr result (IsIndexOf self.new (names_of entries.now)) }
    {
        self.places
            .push_all(alloc, self.indexed, &entries[self.indexed..])?;
        self.indexed = entries.len();
        Ok(())
    }

    /// Makes room for the names of entries that are about to be appended, by indexing all names if
    /// they are many. If an allocation fails, none of the new names is in the index.
    pub(crate) fn admit_all<N: Named>(
        &mut self,
        alloc: Global,
        entries: &[Record],
        names: &[N],
    ) -> Result<(), AllocError>
        requires indexed { IsIndexOf self.old (names_of entries.now) }
        requires countable { length entries.now + length names.now < 2 ^ 64 }
        ensures ok { OnOk result (IsIndexOf self.new (names_of entries.now ++ map N.name_of names.now)) }
        ensures err { OnErr result (IsIndexOf self.new (names_of entries.now)) }
    {
        let walked = entries.len() - self.indexed;
        if names.len() <= WALKED_ENTRIES - walked {
            return Ok(());
        }
        self.list_all(alloc, entries)?;
        self.places.push_all(alloc, self.indexed, names)?;
        self.indexed += names.len();
        Ok(())
    }

    /// Keeps the names of the first entries. Allocates nothing.
    pub(crate) fn rewind(&mut self, entries: &[Record], size: usize)
        requires { IsIndexOf self.old (names_of entries.now) }
        ensures { IsIndexOf self.new (names_of (take size entries.now)) }
    {
        if size < self.indexed {
            self.rewind_listed(entries, size);
        }
    }

    /// The same if indexed names are removed. If few of many remain, they are searched linearly
    /// from now on.
    #[cold]
    fn rewind_listed(&mut self, entries: &[Record], size: usize)
        requires index { IsIndexOf self.old (names_of entries.now) }
        requires fewer { size < self.old.indexed }
        ensures { IsIndexOf self.new (names_of (take size entries.now)) }
    {
        if size <= WALKED_ENTRIES.min(self.indexed / 8) {
            return self.clear();
        }
        self.places.pop_all(&entries[size..self.indexed]);
        self.indexed = size;
    }

    /// Removes the name of the entry at a place, so that the entries behind it move down by one.
    /// Allocates nothing. If that name isn't indexed, the lists are unchanged; otherwise the time
    /// is in the number of all indexed places.
    pub(crate) fn remove(&mut self, name: &str, place: usize)
        ensures { (ms ns : List (List ℕ)) → length ms ≡ place → IsIndexOf self.old (ms ++ chars name.now ∷ ns) → IsIndexOf self.new (ms ++ ns) }
    {
        if place < self.indexed {
            self.places.remove(name, place);
            self.indexed -= 1;
        }
    }
}
