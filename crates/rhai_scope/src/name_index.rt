//! The places of each name.
ghost use Rattle.std.specs.Prelude.{◌≡◌, ◌+◌, ◌<◌, ◌^◌, ℕ, [], ◌∷◌, ◌++◌, List, length, map, option_map, option_and_then, None, OnOk, OnErr};
ghost use Rattle.std.specs.Str.{chars};
ghost use Rattle.rhai_scope.specs.NameIndex.{listed, last_item, with_place, shortened, front, others, lowered, AllPass, Relists, ListsNames};

use crate::heading::Named;
use crate::name_filter::NameFilter;
use crate::place_list::PlaceList;
use std::alloc::{AllocError, Global};
use std::collections::BTreeMap;

/// For each name the ascending list of its places; no list is empty, and each indexed name passes
/// the filter.
#[derive(Drop)]
pub(crate) struct NameIndex {
    pub(crate) lists: BTreeMap<String, PlaceList>,
    pub(crate) filter: NameFilter,
}

impl NameIndex {
    pub(crate) fn new(alloc: Global) -> NameIndex
        ensures { ListsNames result [] }
    {
        NameIndex {
            lists: BTreeMap::new(alloc),
            filter: NameFilter::new(),
        }
    }

    pub(crate) fn clear(&mut self)
        ensures { ListsNames self.new [] }
    {
        if !self.lists.is_empty() {
            self.lists.clear();
            self.filter = NameFilter::new();
        }
    }

    /// The last place of a name. Allocates nothing. If the name doesn't pass the filter, the time
    /// is constant; otherwise it is in the name's bytes and the logarithm of the number of names.
    #[inline(never)]
    pub(crate) fn last(&self, name: &str) -> Option<usize>
        requires { AllPass self.now }
        ensures { result ≡ option_and_then last_item (listed self.now name.now) }
    {
        if !self.filter.passes(name) {
            return None;
        }
        match self.lists.get(name) {
            Some(list) => Some(list.last()),
            None => None,
        }
    }

    /// Appends a place to the list of its name. A name that doesn't pass the filter isn't looked up
    /// first.
    fn push(&mut self, alloc: Global, name: &str, place: usize) -> Result<(), AllocError>
        ensures ok { OnOk result (AllPass self.old → AllPass self.new × Relists (with_place place) name.now (listed self.old) (listed self.new)) }
        ensures err { OnErr result ((q : List ℕ) → listed self.new q ≡ listed self.old q) }
        ensures err_filter { OnErr result (self.new.filter ≡ self.old.filter) }
    {
        if !self.filter.passes(name) {
            return self.push_first(alloc, name, place);
        }
        match self.lists.get_mut(name) {
            Some(list) => list.push(place),
            None => self.push_first(alloc, name, place),
        }
    }

    /// Adds the first place of a name. The last allocation is that of the map, which is unchanged
    /// if it fails.
    fn push_first(&mut self, alloc: Global, name: &str, place: usize) -> Result<(), AllocError>
        requires { AllPass self.old → listed self.old name.now ≡ None }
        ensures ok { OnOk result (AllPass self.old → AllPass self.new × Relists (with_place place) name.now (listed self.old) (listed self.new)) }
        ensures err { OnErr result ((q : List ℕ) → listed self.new q ≡ listed self.old q) }
        ensures err_filter { OnErr result (self.new.filter ≡ self.old.filter) }
    {
        let key = String::from_str(alloc, name)?;
        match self.lists.insert(key, PlaceList::new(alloc, place)) {
            Ok(_) => {
                self.filter.add(name);
                Ok(())
            }
            Err(_) => Err(AllocError),
        }
    }

    /// Drops the last place of a name, and the name if that was the only one. Allocates nothing.
    fn pop(&mut self, name: &str)
        ensures lists { Relists (shortened front) name.now (listed self.old) (listed self.new) }
        ensures filter { self.new.filter ≡ self.old.filter }
    {
        if let Some(list) = self.lists.get_mut(name) {
            if !list.pop() {
                self.lists.remove(name);
            }
        }
    }

    /// Appends names, the first of them at this place. If an allocation fails, none of them is
    /// added.
    pub(crate) fn push_all<N: Named>(
        &mut self,
        alloc: Global,
        place: usize,
        names: &[N],
    ) -> Result<(), AllocError>
        requires { place + length names.now < 2 ^ 64 }
        ensures ok { OnOk result ((ns : List (List ℕ)) → length ns ≡ place → ListsNames self.old ns → ListsNames self.new (ns ++ map N.name_of names.now)) }
        ensures err { OnErr result ((ns : List (List ℕ)) → length ns ≡ place → ListsNames self.old ns → ListsNames self.new ns) }
    {
        let mut i = 0;
        while i < names.len() {
            match self.push(alloc, names[i].name_text(), place + i) {
                Ok(()) => i += 1,
                Err(refused) => {
                    self.pop_all(&names[..i]);
                    return Err(refused);
                }
            }
        }
        Ok(())
    }

    /// Drops the last names. Allocates nothing.
    pub(crate) fn pop_all<N: Named>(&mut self, names: &[N])
        ensures { (ns : List (List ℕ)) → ListsNames self.old (ns ++ map N.name_of names.now) → ListsNames self.new ns }
    {
        let mut i = names.len();
        while i > 0 {
            i -= 1;
            self.pop(names[i].name_text());
        }
    }

    /// Drops a place of a name, and the name if that was the only one.
    fn unlist(&mut self, name: &str, place: usize)
        ensures lists { Relists (shortened (others place)) name.now (listed self.old) (listed self.new) }
        ensures filter { self.new.filter ≡ self.old.filter }
    {
        if let Some(list) = self.lists.get_mut(name) {
            if !list.take_out(place) {
                self.lists.remove(name);
            }
        }
    }

    /// Decrements all places behind a removed one.
    fn lower(&mut self, gone: usize)
        ensures lists { (q : List ℕ) → listed self.new q ≡ option_map (map (lowered gone)) (listed self.old q) }
        ensures filter { self.new.filter ≡ self.old.filter }
    {
        self.lists.retain(move |_, list| {
            list.lower(gone);
            true
        });
    }

    /// Drops a place of a name, and decrements all places behind it. Allocates nothing; the time is
    /// in the number of all places.
    pub(crate) fn remove(&mut self, name: &str, place: usize)
        ensures { (ms ns : List (List ℕ)) → length ms ≡ place → ListsNames self.old (ms ++ chars name.now ∷ ns) → ListsNames self.new (ms ++ ns) }
    {
        self.unlist(name, place);
        self.lower(place);
    }
}
