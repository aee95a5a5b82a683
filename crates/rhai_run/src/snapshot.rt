//! Snapshots of worlds.
ghost use Rattle.std.specs.Prelude.{◌≡◌, IfOk, IsOk};
ghost use Rattle.rhai_value.specs.Relation.{Renaming};
ghost use Rattle.rhai_run.specs.Correspondence.{Corresponds};
ghost use Rattle.rhai_run.specs.KeptWorld.{Normalizes, kept_pairs};
ghost use Rattle.rhai_run.specs.State.{State, empty_state};

use crate::laws;
use crate::world::World;
use crate::world_state::WorldState;
use rhai_scope::Scope;
use rhai_value::{Dynamic, Store};
use std::alloc::AllocError;
use std::marker::Model;

/// A world as it was, in its normal form: its cells are those that it reached, in the order in
/// which they are first reached. Worlds that correspond have equal snapshots, and worlds with equal
/// snapshots correspond (`laws`).
///
/// It shares texts with the world, and nothing else: each may change or end without the other. It
/// can't be dropped: it must be closed.
pub struct Snapshot {
    state: WorldState,
}

impl Model for Snapshot {
    ghost use Rattle.rhai_run.specs.State.{State};
    ghost use Rattle.rhai_run.specs.Fits.{Fits};

    ghost Value = { State };

    ghost use Rattle.rhai_run.specs.StateCode.{state_code};

    ghost coded = { state_code };

    ghost view = { λ s. s.state };

    ghost invariant = { λ s. Fits s.state };
}

impl World {
    /// Makes a snapshot of the world.
    /// Errors: an allocation fails.
    /// Cost: the number of values in the hand, in entries and in cells, and their memory; while it
    /// works a number, a flag and a cell more per cell. No memory for a new world.
    pub fn snapshot(&self) -> Result<Snapshot, AllocError>
        ensures ok { IfOk result (λ s. Normalizes self.now s) }
        ensures one { IfOk result (λ s. (r : Renaming) (v y : State) → Corresponds r self.now v → Normalizes v y → s ≡ y) }
        ensures free { self.now ≡ empty_state self.now.limits → IsOk result }
    {
        laws::corresponding_worlds_have_one_normal_form();
        let mut state = self.state.cloned()?;
        match state.normalize() {
            Ok(()) => Ok(Snapshot { state }),
            Err(error) => {
                state.close();
                Err(error)
            }
        }
    }
}

impl Snapshot {
    /// Makes a world of the snapshot, which stays: one that corresponds to the world that the
    /// snapshot was made of, so that runs over both give the same answers.
    /// Errors: an allocation fails.
    /// Cost: the number of values in the hand, in entries and in cells, and their memory. No memory
    /// for the snapshot of a new world.
    pub fn restore(&self) -> Result<World, AllocError>
        ensures ok { IfOk result (λ w. w ≡ self.now) }
        ensures alike { IfOk result (λ w. (v : State) (h : Normalizes v self.now) → Corresponds (kept_pairs h.cells) v w) }
        ensures free { self.now ≡ empty_state self.now.limits → IsOk result }
    {
        let state = self.state.cloned()?;
        Ok(World { state })
    }

    /// Turns the snapshot into a world.
    /// Cost: constant; no memory.
    pub fn into_world(self) -> World
        ensures { result ≡ self }
    {
        let Snapshot { state } = self;
        World { state }
    }

    /// Borrows the store.
    pub fn store(&self) -> &Store
        ensures { result.now ≡ self.now.store }
    {
        &self.state.store
    }

    /// Borrows the scope.
    pub fn scope(&self) -> &Scope
        ensures { result.now ≡ self.now.entries }
    {
        &self.state.scope
    }

    /// Borrows the values of the hand, in order.
    pub fn hand(&self) -> &[Dynamic]
        ensures { result.now ≡ self.now.hand }
    {
        &self.state.hand
    }

    /// Ends the snapshot, and releases its marks.
    /// Cost: the drop of its contents; no memory.
    pub fn close(self) {
        let Snapshot { state } = self;
        state.close();
    }
}
