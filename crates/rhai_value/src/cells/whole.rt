//! The first content of a value: the value itself, or for a holder the content of its cell.
ghost use Rattle.std.specs.Prelude.{◌≡◌, [], true, is_some, option_map, option_copied, IfErr, IfSome, None, OnOk};
ghost use Rattle.std.specs.Borrow.{sem, follows_if, name_if_some};
ghost use Rattle.std.specs.Option.{ghost_name_of};
ghost use Rattle.rhai_value.specs.contracts.value.dynamic.Dynamic as dynamic_type;
ghost use Rattle.rhai_value.specs.End.{end, held_in, held_cell, first, first_cell, first_site, constant_in, value_with_first, store_with_first};
ghost use Rattle.rhai_value.specs.Lent.{LendsFirst, LendsHeld, own_ref, either_of};
ghost use Rattle.rhai_value.specs.Seen.{near_content, near_site};
ghost use Rattle.rhai_value.specs.Tree.{cell_of, is_constant, mode_of};

use crate::cells::chain::{Near, Site};
use crate::cells::store::Store;
use crate::parts::in_store::InStore;
use crate::places::place::Place;
use crate::value::access_mode::AccessMode;
use crate::value::dynamic::Dynamic;

impl Dynamic {
    /// Borrows the value itself, or for a holder the content of its cell; `None` if that cell is
    /// marked or not in the store.
    /// Cost: constant; no memory.
    /// rhai: `Dynamic::read_lock::<Dynamic>`.
    pub fn read_whole<'s>(&'s self, store: &'s Store) -> Option<&'s Dynamic>
        ensures { option_copied result ≡ first store.now self.now }
    {
        match self.near(store) {
            Near::Here => Some(self),
            Near::InCell(_, content) => Some(content),
            Near::Barred => None,
        }
    }

    /// Where the first content is. Most chains end there, so each search along a chain tries this
    /// before it walks.
    #[inline(always)]
    pub(crate) fn near<'s>(&'s self, store: &'s Store) -> Near<'s>
        ensures site { near_site result ≡ first_site store.now self.now }
        ensures content { near_content self.now result ≡ first store.now self.now }
    {
        let Some(cell) = self.cell() else {
            return Near::Here;
        };
        match store.read(cell) {
            None => Near::Barred,
            Some(content) => Near::InCell(cell.index, content),
        }
    }

    /// Borrows the value itself, or for a holder the content of its cell, mutably; `None` if that
    /// cell is marked or not in the store.
    ///
    /// After the write, the written value is the value itself if it isn't a holder, and otherwise
    /// the content of the holder's cell; everything else is unchanged, and if the result is `None`,
    /// nothing changes. Automatic proofs can't use the clause of a call that borrows from two
    /// arguments; for them, `InStore::whole_mut` says the same of the pair.
    /// Cost: constant; no memory.
    /// rhai: `Dynamic::write_lock::<Dynamic>`.
    pub fn write_whole<'s>(&'s mut self, store: &'s mut Store) -> Option<&'s mut Dynamic>
        ensures* writes_back { sem 𝓛 (LendsFirst self.entry store.entry (ghost_name_of result)) }
        ensures value { option_map (λ d. d.now) result ≡ first store.old self.old }
        ensures own { IfSome result (λ d. cell_of self.old ≡ None → d.ghost_name ≡ self.entry.ghost_name) }
    {
        let place = first_place_of(self, store);
        let own = own_mut(self);
        let far = store.cell_content_mut(place);
        either(own, far)
    }

    /// Replaces the value itself, or for a holder the content of its cell.
    /// Errors: returns `content`, and nothing changes, if that cell is marked or not in the store.
    /// Cost: constant, and the drop of the old value; no memory.
    /// rhai: an assignment through `Dynamic::write_lock::<Dynamic>`.
    pub fn set_whole(&mut self, store: &mut Store, content: Dynamic) -> Result<(), Dynamic>
        ensures there { OnOk result (is_some (first store.old self.old) ≡ true) }
        ensures value { OnOk result (self.new ≡ value_with_first content self.old) }
        ensures store { OnOk result (store.new ≡ store_with_first content store.old self.old) }
        ensures err { IfErr result (λ back. (back ≡ content) × (first store.old self.old ≡ None) × (self.new ≡ self.old) × (store.new ≡ store.old)) }
    {
        let mut place = InStore { value: self, store };
        match place.whole_mut() {
            Some(whole) => {
                *whole = content;
                Ok(())
            }
            None => Err(content),
        }
    }

    /// Borrows the held value mutably; `None` if the chain is stuck or closed.
    ///
    /// After the write, the value and the store are those with the held value replaced; if the
    /// result is `None`, both are unchanged. Automatic proofs can't use the clause of a call that
    /// borrows from two arguments; for them, `InStore::held_mut` says the same of the pair.
    /// Cost: that of `held`; no memory.
    pub fn held_mut<'s>(&'s mut self, store: &'s mut Store) -> Option<&'s mut Dynamic>
        ensures* writes_back { sem 𝓛 (LendsHeld dynamic_type.the_row self.entry store.entry (ghost_name_of result) (λ w _. w)) }
        ensures value { option_map (λ d. d.now) result ≡ held_in (end store.old [] self.old) }
        ensures own { IfSome result (λ d. cell_of self.old ≡ None → d.ghost_name ≡ self.entry.ghost_name) }
    {
        let place = held_place_of(self, store);
        let own = own_mut(self);
        let far = store.cell_content_mut(place);
        either(own, far)
    }

    /// The site of the first content.
    pub(crate) fn first_site(&self, store: &Store) -> Option<Site>
        ensures { result ≡ first_site store.now self.now }
    {
        match self.near(store) {
            Near::Here => Some(Site::Here),
            Near::InCell(index, _) => Some(Site::InCell(index)),
            Near::Barred => None,
        }
    }

    /// Returns whether the value is a constant, by its own mode, or for a holder by the mode of the
    /// content of its cell; `false` if that cell is marked or not in the store.
    /// Cost: constant; no memory.
    /// rhai: `Dynamic::is_read_only`.
    pub fn is_read_only(&self, store: &Store) -> bool
        ensures { result ≡ constant_in (first store.now self.now) }
    {
        match self.read_whole(store) {
            None => false,
            Some(content) => content.is_constant(),
        }
    }

    fn is_constant(&self) -> bool
        ensures { result ≡ is_constant (mode_of self.now) }
    {
        match self.access_mode() {
            AccessMode::ReadWrite => false,
            AccessMode::ReadOnly => true,
        }
    }
}

/// The site of the first content. Callers that borrow value and store mutably ask for the site
/// first, since they borrow both again afterwards.
#[inline(always)]
fn first_place_of(value: &mut Dynamic, store: &mut Store) -> Place
    ensures place { result ≡ first_cell store.old value.old }
    ensures value { value.new ≡ value.old }
    ensures store { store.new ≡ store.old }
{
    value.first_place(store)
}

/// The site of the held value.
#[inline(always)]
fn held_place_of(value: &mut Dynamic, store: &mut Store) -> Place
    ensures place { result ≡ held_cell (end store.old [] value.old) }
    ensures value { value.new ≡ value.old }
    ensures store { store.new ≡ store.old }
{
    value.held_place(store)
}

/// A value that isn't a holder.
#[derive(Drop)]
pub(crate) struct Own<'a> {
    value: &'a mut Dynamic,
}

/// A value that isn't a holder, mutably.
#[inline(always)]
fn own_mut(value: &mut Dynamic) -> Option<Own<'_>>
    ensures* stays { sem 𝓛 (follows_if dynamic_type.the_row dynamic_type.the_row value.entry.ghost_name (name_if_some (λ w. w.value.ghost_name) result) (λ w. w) value.old) }
    ensures which { option_map (λ w. w.value) result ≡ own_ref value.entry }
{
    match value.cell() {
        None => Some(Own { value }),
        Some(_) => None,
    }
}

/// The first of two references, or otherwise the second.
#[inline(always)]
fn either<'s>(own: Option<Own<'s>>, far: Option<&'s mut Dynamic>) -> Option<&'s mut Dynamic>
    ensures { result ≡ either_of (option_map (λ w. w.value) own.entry) far.entry }
{
    match own {
        Some(Own { value }) => Some(value),
        None => far,
    }
}
