//! Marks on cells: exclusive write access to one cell.
ghost use Rattle.std.specs.Prelude.{◌≡◌, ◌<◌, [], true, false, length, option_map, Some, IfSome};
ghost use Rattle.std.specs.Borrow.{Lends, sem};
ghost use Rattle.rhai_value.specs.contracts.value.dynamic.Dynamic as dynamic_type;
ghost use Rattle.rhai_value.specs.contracts.cells.store.Store as store_type;
ghost use Rattle.rhai_value.specs.End.{end, first_cell, held_cell, site_cell, IsWithin};
ghost use Rattle.rhai_value.specs.Store.{set_mark, marked_with, content_at, put, is_marked_at};

use crate::cells::chain::Site;
use crate::cells::store::Store;
use crate::value::dynamic::Dynamic;
use std::marker::Model;

/// Exclusive access, to read and write, to the content of one marked cell. It must be spent by
/// `Store::release`: the compiler refuses to drop it. Contracts see the cell's number.
pub struct WriteToken {
    pub(crate) cell: usize,
}

impl Model for WriteToken {
    ghost use Rattle.std.specs.Prelude.{ℕ};

    ghost Value = { ℕ };

    ghost view = { λ t. t.cell };
}

impl Store {
    /// Marks the cell of a holder. Returns `None`, and changes nothing, for a value that isn't a
    /// holder and for a cell that is marked or not in the store.
    /// Cost: constant; no memory.
    /// rhai: `Dynamic::write_lock`, which returns a guard.
    #[tactic(auto, using(crate::proofs::MarkedCells::first_within))]
    pub fn mark(&mut self, d: &Dynamic) -> Option<WriteToken>
        ensures which { result ≡ first_cell self.old d.now }
        ensures after { self.new ≡ marked_with (first_cell self.old d.now) self.old }
        ensures marked { IfSome result (λ t. is_marked_at self.new t ≡ true) }
    {
        self.mark_at(d.first_site(self))
    }

    /// Marks the cell that contains a holder's held value. Returns `None`, and changes nothing, for
    /// a value that isn't a holder and if the chain is stuck or closed.
    /// Cost: the length of the chain, or the number of cells if the chain is closed; no memory.
    #[tactic(auto, using(crate::proofs::MarkedCells::held_within))]
    pub fn mark_held(&mut self, d: &Dynamic) -> Option<WriteToken>
        ensures which { result ≡ held_cell (end self.old [] d.now) }
        ensures after { self.new ≡ marked_with (held_cell (end self.old [] d.now)) self.old }
        ensures marked { IfSome result (λ t. is_marked_at self.new t ≡ true) }
    {
        self.mark_at(d.held_site(self))
    }

    fn mark_at(&mut self, site: Option<Site>) -> Option<WriteToken>
        requires { IsWithin self.old site }
        ensures which { result ≡ site_cell site }
        ensures after { self.new ≡ marked_with (site_cell site) self.old }
        ensures marked { IfSome result (λ t. is_marked_at self.new t ≡ true) }
    {
        match site? {
            Site::Here => None,
            Site::InCell(cell) => {
                self.set_mark(cell, true);
                Some(WriteToken { cell })
            }
        }
    }

    /// Borrows the content of the token's cell, which must be marked in this store: a token may be
    /// carried to another one.
    /// Cost: constant; no memory.
    pub fn through(&self, t: &WriteToken) -> &Dynamic
        requires { is_marked_at self.now t.now ≡ true }
        ensures { content_at self.now t.now ≡ Some result.now }
    {
        &self.cells[t.cell].content
    }

    /// Borrows the content of the token's cell mutably.
    /// Cost: constant; no memory.
    pub fn through_mut(&mut self, t: &WriteToken) -> &mut Dynamic
        requires { is_marked_at self.old t.now ≡ true }
        ensures* writes_back { sem 𝓛 (Lends store_type.the_row dynamic_type.the_row self.entry result (λ w. put self.old t.now w)) }
        ensures value { content_at self.old t.now ≡ Some result.now }
    {
        self.content_mut(t.cell)
    }

    /// Clears the mark of the token's cell, which must be marked in this store, and consumes the
    /// token.
    /// Cost: constant; no memory.
    pub fn release(&mut self, t: WriteToken)
        requires { is_marked_at self.old t ≡ true }
        ensures { self.new ≡ set_mark self.old t false }
    {
        let WriteToken { cell } = t;
        self.set_mark(cell, false);
    }

    fn set_mark(&mut self, cell: usize, is_marked: bool)
        requires { cell < length self.old }
        ensures after { self.new ≡ set_mark self.old cell is_marked }
        ensures stands { is_marked_at self.new cell ≡ is_marked }
    {
        self.cells[cell].is_marked = is_marked;
    }
}
