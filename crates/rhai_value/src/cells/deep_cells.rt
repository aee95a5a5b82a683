//! Open cells, if there are many.
ghost use Rattle.std.specs.Prelude.{◌≡◌, ◌↔◌, ◌∷◌, [], drop, not, IfOk, OnErr, IsTrue, if◌then◌else◌};
ghost use Rattle.rhai_value.specs.Walk.{is_open};

use std::alloc::{AllocError, Global};
use std::collections::BTreeSet;
use std::marker::Model;

/// The open cells of a path beyond the first few: a list in the order of opening, and a set for
/// look-ups. Contracts see the one opened last first.
#[derive(Drop)]
pub(crate) struct DeepCells {
    order: Vec<usize>,
    cells: BTreeSet<usize>,
}

impl Model for DeepCells {
    ghost use Rattle.std.specs.Prelude.{List, ℕ, reverse};
    ghost use Rattle.rhai_value.specs.Opened.{IsOpened};

    ghost Value = { List ℕ };

    ghost view = { λ p. reverse p.order.items };

    ghost invariant = { λ p. IsOpened (reverse p.order.items) p.cells };
}

impl DeepCells {
    pub(crate) fn new(alloc: Global) -> DeepCells
        ensures { result ≡ [] }
    {
        DeepCells {
            order: Vec::new(alloc),
            cells: BTreeSet::new(alloc),
        }
    }

    /// Returns whether a cell is open.
    pub(crate) fn has(&self, cell: usize) -> bool
        ensures { result ≡ is_open cell self.now }
    {
        self.cells.contains(&cell)
    }

    /// Opens a cell unless it is open. Returns whether it was closed before.
    pub(crate) fn open(&mut self, cell: usize) -> Result<bool, AllocError>
        ensures told { IfOk result (λ is_new. is_new ≡ not (is_open cell self.old)) }
        ensures opened { IfOk result (λ is_new. self.new ≡ (if is_new then cell ∷ self.old else self.old)) }
        ensures err { OnErr result (self.new ≡ self.old) }
    {
        self.order.reserve(1)?;
        let is_new = self.cells.insert(cell)?;
        if is_new {
            self.order.push_reserved(cell);
        }
        Ok(is_new)
    }

    /// Closes the cell opened last. Returns whether there was one.
    pub(crate) fn close(&mut self) -> bool
        ensures told { IsTrue (not result) ↔ (self.old ≡ []) }
        ensures closed { self.new ≡ drop 1 self.old }
    {
        match self.order.pop() {
            Some(cell) => {
                let _ = self.cells.remove(&cell);
                true
            }
            None => false,
        }
    }
}
