//! The memory layout of a world's state.
ghost use Rattle.std.specs.Prelude.{◌≡◌, ◌≤◌, ◌<◌, length, slice_get, Some, None, IfOk, IfErr, IsOk, OnOk};
ghost use Rattle.rhai_run.specs.declared.answer.Refusal.TheVariants.{NoValue};
ghost use Rattle.rhai_run.specs.declared.not_done.NotDone.TheVariants.{Refused};
ghost use Rattle.rhai_run.specs.Outcome.{growing};
ghost use Rattle.rhai_run.specs.declared.answer.Answer.TheVariants.{Done};
ghost use Rattle.rhai_run.specs.State.{appended, empty_state};
ghost use Rattle.rhai_run.specs.Fits.{Fits};
ghost use Rattle.rhai_run.specs.Does.{Does};

use crate::answer::{Answer, Refusal};
use crate::marks::release_all;
use crate::not_done::NotDone;
use rhai_scope::Scope;
use rhai_text::Limits;
use rhai_value::{Dynamic, Store, WriteToken};
use std::alloc::{AllocError, Global};
use std::marker::Model;

/// The state of a world. A command makes its allocations before it writes, so that one whose
/// allocation fails leaves everything unchanged.
pub(crate) struct WorldState {
    pub(crate) alloc: Global,
    pub(crate) store: Store,
    pub(crate) scope: Scope,
    /// The tokens of the open marks, in the order of marking.
    pub(crate) marks: Vec<WriteToken>,
    pub(crate) hand: Vec<Dynamic>,
    pub(crate) limits: Limits,
}

impl Model for WorldState {
    ghost use Rattle.rhai_run.specs.State.{State};

    ghost Value = { State };

    ghost use Rattle.rhai_run.specs.StateCode.{state_code, state_of};

    ghost coded = { state_code };

    ghost view = { λ d. state_of d.store d.scope d.marks.items d.hand.items d.limits };
}

impl WorldState {
    pub(crate) fn new(alloc: Global, limits: Limits) -> Self
        ensures { result ≡ empty_state limits }
    {
        WorldState {
            alloc,
            store: Store::new(alloc),
            scope: Scope::new(alloc),
            marks: Vec::new(alloc),
            hand: Vec::new(alloc),
            limits,
        }
    }

    /// Copies the whole state. The marks come last, since a list of tokens can't be dropped.
    pub(crate) fn cloned(&self) -> Result<WorldState, AllocError>
        ensures value { IfOk result (λ w. w ≡ self.now) }
        ensures free { self.now ≡ empty_state self.now.limits → IsOk result }
    {
        let scope = self.scope.copy_with_modes()?;
        let hand = Dynamic::copies_with_modes(self.alloc, &self.hand)?;
        let (store, marks) = self.store.copy(self.alloc, &self.marks)?;
        Ok(WorldState {
            alloc: self.alloc,
            store,
            scope,
            marks,
            hand,
            limits: self.limits,
        })
    }

    /// Unmarks the marked cells.
    pub(crate) fn close(self)
        requires { Fits self }
    {
        let WorldState {
            alloc: _,
            mut store,
            scope: _,
            marks,
            hand: _,
            limits: _,
        } = self;
        release_all(&mut store, marks);
    }

    /// Borrows the value at a hand position.
    pub(crate) fn value(&self, i: usize) -> Result<&Dynamic, NotDone>
        ensures ok { IfOk result (λ v. slice_get self.now.hand i ≡ Some v.now) }
        ensures err { IfErr result (λ e. (e ≡ Refused NoValue) × (slice_get self.now.hand i ≡ None)) }
    {
        match self.hand.get(i) {
            None => Err(NotDone::Refused(Refusal::NoValue)),
            Some(value) => Ok(value),
        }
    }

    /// Fails unless the hand has this many values.
    pub(crate) fn has_values(&self, n: usize) -> Result<(), NotDone>
        ensures ok { OnOk result (n ≤ length self.now.hand) }
        ensures err { IfErr result (λ e. (e ≡ Refused NoValue) × (length self.now.hand < n)) }
    {
        if n > self.hand.len() {
            return Err(NotDone::Refused(Refusal::NoValue));
        }
        Ok(())
    }

    /// Appends a value to the hand.
    #[inline(always)]
    pub(crate) fn append(&mut self, value: Dynamic) -> Result<Answer, NotDone>
        ensures { Does result self.old self.new (growing Done (appended self.old value)) }
    {
        self.hand.reserve(1)?;
        self.hand.push_reserved(value);
        Ok(Answer::Done)
    }
}
