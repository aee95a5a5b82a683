//! The places of one name.
ghost use Rattle.std.specs.Prelude.{◌≡◌, [], ◌∷◌, ◌++◌, map, Some, None, if◌then◌else◌, OnOk, OnErr};
ghost use Rattle.rhai_scope.specs.NameIndex.{unless_empty, last_item, front, others, lowered};

use std::alloc::{AllocError, Global};
use std::marker::Model;

/// The ascending list of the places of one name, of which there is at least one. A single place is
/// stored inline, without an allocation.
#[derive(Drop)]
pub(crate) struct PlaceList {
    earlier: Vec<usize>,
    last: usize,
}

impl Model for PlaceList {
    ghost use Rattle.std.specs.Prelude.{ℕ, List, [], ◌∷◌, ◌++◌};

    ghost Value = { List ℕ };

    ghost view = { λ l. l.earlier.items ++ l.last ∷ [] };
}

/// The new value of a place after the one at `gone` is removed.
fn lowered(gone: usize, place: usize) -> usize
    ensures { result ≡ lowered gone place }
{
    if gone < place { place - 1 } else { place }
}

/// Decrements each place behind a removed one.
fn close_up(list: &mut Vec<usize>, gone: usize)
    ensures { list.new.items ≡ map (lowered gone) list.old.items }
{
    for i in 0..list.len() {
        let place = list[i];
        list[i] = lowered(gone, place);
    }
}

fn drop_place(list: &mut Vec<usize>, place: usize)
    ensures { list.new.items ≡ others place list.old.items }
{
    list.retain(move |own| *own != place);
}

impl PlaceList {
    pub(crate) fn new(alloc: Global, place: usize) -> PlaceList
        ensures { result ≡ place ∷ [] }
    {
        PlaceList {
            earlier: Vec::new(alloc),
            last: place,
        }
    }

    pub(crate) fn last(&self) -> usize
        ensures { Some result ≡ last_item self.now }
    {
        self.last
    }

    pub(crate) fn push(&mut self, place: usize) -> Result<(), AllocError>
        ensures ok { OnOk result (self.new ≡ self.old ++ place ∷ []) }
        ensures err { OnErr result (self.new ≡ self.old) }
    {
        match self.earlier.push(self.last) {
            Ok(()) => {
                self.last = place;
                Ok(())
            }
            Err(_) => Err(AllocError),
        }
    }

    /// Drops the last place, and returns whether there was another.
    pub(crate) fn pop(&mut self) -> bool
        ensures { (if result then Some self.new else None) ≡ unless_empty (front self.old) }
    {
        match self.earlier.pop() {
            Some(place) => {
                self.last = place;
                true
            }
            None => false,
        }
    }

    /// Drops a place, and returns whether there was another.
    pub(crate) fn take_out(&mut self, place: usize) -> bool
        ensures { (if result then Some self.new else None) ≡ unless_empty (others place self.old) }
    {
        drop_place(&mut self.earlier, place);
        if self.last == place {
            return self.pop();
        }
        true
    }

    /// Decrements each place behind a removed one.
    pub(crate) fn lower(&mut self, gone: usize)
        ensures { self.new ≡ map (lowered gone) self.old }
    {
        close_up(&mut self.earlier, gone);
        self.last = lowered(gone, self.last);
    }
}
