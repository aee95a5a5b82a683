//! Flattening: values without their holders.
ghost use Rattle.std.specs.Prelude.{◌≡◌, IfOk, IfErr, IsOk, OnOk, OnErr, None, [], option_copied};
ghost use Rattle.rhai_value.specs.End.{end, flat, flattened, value_ahead};
ghost use Rattle.rhai_value.specs.Seen.{flat_source};
ghost use Rattle.rhai_value.specs.Tree.{TakesNoMemory, cell_of};

use crate::cells::chain::{ChainEnd, Near};
use crate::cells::store::Store;
use crate::value::dynamic::Dynamic;
use std::alloc::{AllocError, Global};

impl Dynamic {
    /// Copies the held value. If the chain is stuck, copies the holder at which it is stuck; if it
    /// closes, the value itself.
    /// Errors: the allocation of the copy fails.
    /// Cost: that of `held` and of `copy`.
    /// rhai: `Dynamic::flatten_clone`, which looks at one cell.
    #[inline(always)]
    #[tactic(auto, using(crate::proofs::SameFlat::flat_by_source))]
    pub fn flatten_clone(&self, alloc: Global, store: &Store) -> Result<Dynamic, AllocError>
        ensures value { IfOk result (λ d. d ≡ flat store.now self.now) }
        ensures free { TakesNoMemory (flat store.now self.now) → IsOk result }
    {
        let source = self.flat_source(store).unwrap_or(self);
        source.copy(alloc)
    }

    /// Replaces a holder by what `flatten_clone` returns. A value that isn't a holder, a holder
    /// whose own cell is marked or not in the store, and one whose chain closes stay unchanged,
    /// modes included.
    /// Errors: the allocation of the copy fails; the value is unchanged.
    /// Cost: that of `flatten_clone`; for a value that isn't a holder, constant, without memory.
    #[inline(always)]
    #[tactic(auto, using(crate::proofs::SameFlat::flattened_kept, crate::proofs::SameFlat::flattened_copied))]
    pub fn flatten_in_place(&mut self, alloc: Global, store: &Store) -> Result<(), AllocError>
        ensures ok { OnOk result (self.new ≡ flattened store.now self.old) }
        ensures err { OnErr result (self.new ≡ self.old) }
        ensures free { TakesNoMemory (flattened store.now self.old) → IsOk result }
        ensures unshared { cell_of self.old ≡ None → IsOk result }
    {
        let Some(source) = self.flat_source(store) else {
            return Ok(());
        };
        *self = source.copy(alloc)?;
        Ok(())
    }

    /// Flattens an owned value, as `flatten_in_place` does.
    /// Errors: the value itself, if an allocation fails.
    /// Cost: that of `flatten_in_place`.
    /// rhai: `Dynamic::flatten`, which moves the content out of the last holder.
    #[inline(always)]
    #[tactic(auto, using(crate::proofs::SameFlat::flattened_kept, crate::proofs::SameFlat::flattened_copied))]
    pub fn flatten(self, alloc: Global, store: &Store) -> Result<Dynamic, Dynamic>
        ensures ok { IfOk result (λ d. d ≡ flattened store.now self) }
        ensures err { IfErr result (λ back. back ≡ self) }
        ensures free { TakesNoMemory (flattened store.now self) → IsOk result }
        ensures unshared { cell_of self ≡ None → IsOk result }
    {
        let Some(source) = self.flat_source(store) else {
            return Ok(self);
        };
        match source.copy(alloc) {
            Ok(flat) => Ok(flat),
            Err(_) => Err(self),
        }
    }

    /// The value that `flatten` copies.
    #[inline(always)]
    #[tactic(auto, using(crate::proofs::SameFlat::own_source, crate::proofs::SameFlat::near_source, crate::proofs::SameFlat::barred_source, crate::proofs::SameFlat::far_source))]
    fn flat_source<'s>(&'s self, store: &'s Store) -> Option<&'s Dynamic>
        ensures { option_copied result ≡ flat_source store.now self.now }
    {
        match self.near(store) {
            Near::InCell(_, content) => match content.cell() {
                None => Some(content),
                Some(_) => self.value_ahead(store),
            },
            Near::Here | Near::Barred => None,
        }
    }

    /// The value at the end of the chain, unless it closes.
    #[inline(never)]
    fn value_ahead<'s>(&'s self, store: &'s Store) -> Option<&'s Dynamic>
        ensures { option_copied result ≡ value_ahead (end store.now [] self.now) }
    {
        match self.chain_end(store) {
            ChainEnd::Held(_, value) => Some(value),
            ChainEnd::Stuck(value) => Some(value),
            ChainEnd::Closed => None,
        }
    }
}
