//! The cells that a walk has open.
ghost use Rattle.std.specs.Prelude.{◌≡◌, ◌<◌, ◌∷◌, [], length, drop, not, IfOk, IfSome, IfNone, IsOk, None, OnErr, option_copied, if◌then◌else◌};
ghost use Rattle.rhai_value.specs.End.{first};
ghost use Rattle.rhai_value.specs.Walk.{entry, holds_open, is_open};
ghost use Rattle.rhai_value.specs.Tree.{cell_of};

use crate::cells::deep_cells::DeepCells;
use crate::cells::marks::WriteToken;
use crate::cells::store::Store;
use crate::value::dynamic::Dynamic;
use arrayvec::ArrayVec;
use std::alloc::{AllocError, Global};
use std::marker::Model;

/// The number of open cells that fit without an allocation.
pub const FIRST_CELLS: usize = 8;

/// The cells that a walk over values has open, the one opened last first. It keeps a walk from
/// looping for ever.
#[derive(Drop)]
pub struct Path {
    first: ArrayVec<usize, FIRST_CELLS>,
    deep: DeepCells,
}

impl Model for Path {
    ghost use Rattle.std.specs.Prelude.{◌≡◌, ◌<◌, ◌++◌, List, ℕ, [], length, reverse};
    ghost use Rattle.rhai_value.specs.declared.cells.path.TheConstants.{FIRST_CELLS};

    ghost Value = { List ℕ };

    ghost view = { λ p. p.deep ++ reverse p.first.items };

    ghost invariant = { λ p. length p.first.items < FIRST_CELLS → p.deep ≡ [] };
}

impl Path {
    /// Makes a path with no open cell.
    /// Cost: constant; no memory.
    pub fn new(alloc: Global) -> Self
        ensures { result ≡ [] }
    {
        Path {
            first: ArrayVec::new(),
            deep: DeepCells::new(alloc),
        }
    }

    /// Opens a cell unless it is open. Returns whether it was closed before.
    #[tactic(auto, using(crate::proofs::Paths::open_either))]
    fn open(&mut self, cell: usize) -> Result<bool, AllocError>
        ensures told { IfOk result (λ is_new. is_new ≡ not (is_open cell self.old)) }
        ensures opened { IfOk result (λ is_new. self.new ≡ (if is_new then cell ∷ self.old else self.old)) }
        ensures err { OnErr result (self.new ≡ self.old) }
        ensures near { length self.old < FIRST_CELLS → IsOk result }
    {
        if self.first.as_slice().contains(&cell) {
            return Ok(false);
        }
        if self.first.is_full() {
            return self.deep.open(cell);
        }
        self.first.push(cell);
        Ok(true)
    }

    /// Opens the cell of a holder and borrows its content. Returns `None`, and changes nothing, for
    /// a value that isn't a holder and for a cell that is open, marked or not in the store.
    /// Errors: the allocation for one more open cell fails, and nothing changes.
    /// Cost: the logarithm of the number of open cells.
    pub fn enter<'s>(
        &mut self,
        store: &'s Store,
        value: &Dynamic,
    ) -> Result<Option<&'s Dynamic>, AllocError>
        ensures found { IfOk result (λ o. option_copied o ≡ entry store.now self.old value.now) }
        ensures opened { IfOk result (λ o. IfSome o (λ _. IfSome (cell_of value.now)
            (λ c. self.new ≡ c ∷ self.old))) }
        ensures stays { IfOk result (λ o. IfNone o (self.new ≡ self.old)) }
        ensures err { OnErr result (self.new ≡ self.old) }
        ensures free { cell_of value.now ≡ None → IsOk result }
        ensures barred { first store.now value.now ≡ None → IsOk result }
        ensures near { length self.old < FIRST_CELLS → IsOk result }
    {
        let Some(cell) = value.cell() else {
            return Ok(None);
        };
        let Some(content) = store.read(cell) else {
            return Ok(None);
        };
        if self.open(cell.index)? {
            Ok(Some(content))
        } else {
            Ok(None)
        }
    }

    /// Opens the marked cell of a token, which no holder enters. Returns whether it was closed
    /// before.
    /// Errors: the allocation for one more open cell fails, and nothing changes.
    /// Cost: the logarithm of the number of open cells.
    pub fn open_marked(&mut self, t: &WriteToken) -> Result<bool, AllocError>
        ensures told { IfOk result (λ is_new. is_new ≡ not (is_open t.now self.old)) }
        ensures opened { IfOk result (λ is_new. self.new ≡ (if is_new then t.now ∷ self.old else self.old)) }
        ensures err { OnErr result (self.new ≡ self.old) }
        ensures near { length self.old < FIRST_CELLS → IsOk result }
    {
        self.open(t.cell)
    }

    /// Returns whether the cell of a holder is open; `false` for a value that isn't a holder.
    /// Cost: the logarithm of the number of open cells; no memory.
    #[tactic(auto, using(crate::proofs::Paths::open_either))]
    pub fn has_open(&self, value: &Dynamic) -> bool
        ensures { result ≡ holds_open self.now value.now }
    {
        match value.cell() {
            Some(cell) => self.first.as_slice().contains(&cell.index) || self.deep.has(cell.index),
            None => false,
        }
    }

    /// Closes the cell opened last.
    /// Cost: the logarithm of the number of open cells; no memory.
    pub fn leave(&mut self)
        requires { 0 < length self.old }
        ensures { self.new ≡ drop 1 self.old }
    {
        if !self.deep.close() {
            let _ = self.first.pop();
        }
    }
}
