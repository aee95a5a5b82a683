//! Values in cells.
ghost use Rattle.std.specs.Prelude.{◌≡◌, true, IfOk, IfErr, IsOk, OnOk, OnErr, is_some};
ghost use Rattle.rhai_value.specs.Store.{shared_value, shared_store};
ghost use Rattle.rhai_value.specs.Tree.{cell_of};

use crate::cells::cell_ref::CellRef;
use crate::cells::store::{Cell, Store};
use crate::value::dynamic::Dynamic;
use crate::value::union::Union;
use std::alloc::AllocError;
use std::mem;

impl Dynamic {
    /// Moves the value into a new cell, and replaces it by a holder of that cell with tag 0 and the
    /// value's mode; the content keeps its tag and mode. A holder is left unchanged.
    /// Errors: the allocation of the cell fails, and nothing changes.
    /// Cost: constant, unless the store must grow.
    #[inline(always)]
    pub fn share_in_place(&mut self, store: &mut Store) -> Result<(), AllocError>
        ensures own { OnOk result (self.new ≡ shared_value store.old self.old) }
        ensures store { OnOk result (store.new ≡ shared_store store.old self.old) }
        ensures err { OnErr result ((self.new ≡ self.old) × (store.new ≡ store.old)) }
        ensures free { is_some (cell_of self.old) ≡ true → IsOk result }
    {
        if self.is_shared() {
            return Ok(());
        }
        let mode = self.access_mode();
        store.cells.reserve(1)?;
        let index = store.cells.len();
        let holder = Union::Shared(0, mode, CellRef { index });
        let content = mem::replace(self, Dynamic { union: holder });
        store.cells.push_reserved(Cell {
            content,
            is_marked: false,
        });
        Ok(())
    }

    /// Shares an owned value, as `share_in_place` does.
    /// Errors: the value itself, if the allocation of the cell fails.
    /// Cost: that of `share_in_place`.
    /// rhai: `Dynamic::into_shared`.
    #[inline(always)]
    pub fn into_shared(mut self, store: &mut Store) -> Result<Dynamic, Dynamic>
        ensures ok { IfOk result (λ d. (d ≡ shared_value store.old self)
            × (store.new ≡ shared_store store.old self)) }
        ensures err { IfErr result (λ d. (d ≡ self) × (store.new ≡ store.old)) }
        ensures free { is_some (cell_of self) ≡ true → IsOk result }
    {
        match self.share_in_place(store) {
            Ok(()) => Ok(self),
            Err(_) => Err(self),
        }
    }
}
