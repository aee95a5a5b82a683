//! Places in a store: the site of a first content or a held value.
ghost use Rattle.std.specs.Prelude.{◌≡◌, ◌<◌, [], length, option_map, IfSome};
ghost use Rattle.std.specs.Borrow.{sem, LendsIf};
ghost use Rattle.rhai_value.specs.contracts.value.dynamic.Dynamic as dynamic_type;
ghost use Rattle.rhai_value.specs.contracts.cells.store.Store as store_type;
ghost use Rattle.rhai_value.specs.End.{end, first_cell, held_cell, site_cell};
ghost use Rattle.rhai_value.specs.Lent.{content_in, put_in, IsOpen};

use crate::cells::chain::Site;
use crate::cells::store::Store;
use crate::value::dynamic::Dynamic;
use std::marker::Model;

/// Where a first content or a held value is: in one cell of a store, or in none, if it is the value
/// itself or doesn't exist. No call reveals the cell's number, which contracts see.
#[derive(Copy, Clone)]
pub struct Place {
    cell: Option<usize>,
}

impl Model for Place {
    ghost use Rattle.std.specs.Prelude.{ℕ, Option};

    ghost Value = { Option ℕ };

    ghost view = { λ p. p.cell };

    ghost inverse = { λ o. record { cell = o } };
}

impl Place {
    /// The cell of a site, if it is in a cell.
    #[inline(always)]
    pub(crate) fn of(site: Option<Site>) -> Place
        ensures { result ≡ site_cell site }
    {
        match site {
            Some(Site::InCell(index)) => Place { cell: Some(index) },
            Some(Site::Here) | None => Place { cell: None },
        }
    }
}

/// The place of a value's first content or held value, found along its holders. None of these calls
/// allocates.
impl Dynamic {
    /// Finds the place of the first content.
    /// Cost: constant; no memory.
    #[inline(always)]
    #[tactic(auto, using(crate::proofs::MarkedCells::first_open))]
    pub fn first_place(&self, store: &Store) -> Place
        ensures which { result ≡ first_cell store.now self.now }
        ensures open { IsOpen store.now result }
    {
        Place::of(self.first_site(store))
    }

    /// Finds the place of the held value.
    /// Cost: that of `held`; no memory.
    #[tactic(auto, using(crate::proofs::MarkedCells::held_open))]
    pub fn held_place(&self, store: &Store) -> Place
        ensures which { result ≡ held_cell (end store.now [] self.now) }
        ensures open { IsOpen store.now result }
    {
        Place::of(self.held_site(store))
    }
}

impl Store {
    /// Borrows the content of a place mutably, if it is an unmarked cell. The content of a marked
    /// cell is borrowed only through its token, so a place kept from before the mark gives `None`.
    /// Cost: constant; no memory.
    #[inline(always)]
    #[tactic(auto, using(crate::proofs::MarkedCells::open_within))]
    pub fn content_at_mut(&mut self, place: Place) -> Option<&mut Dynamic>
        requires { IsOpen self.old place }
        ensures* writes_back { sem 𝓛 (LendsIf store_type.the_row dynamic_type.the_row self.entry result (put_in place self.old) self.old) }
        ensures value { option_map (λ d. d.now) result ≡ content_in place self.old }
    {
        self.cell_content_mut(place)
    }

    /// Borrows the content of a place mutably, if it is a cell.
    #[inline(always)]
    pub(crate) fn cell_content_mut(&mut self, place: Place) -> Option<&mut Dynamic>
        requires { IfSome place (λ c. c < length self.old) }
        ensures* writes_back { sem 𝓛 (LendsIf store_type.the_row dynamic_type.the_row self.entry result (put_in place self.old) self.old) }
        ensures value { option_map (λ d. d.now) result ≡ content_in place self.old }
    {
        Some(self.content_mut(place.cell?))
    }
}
