//! Commands that call operators and assignments.
ghost use Rattle.std.specs.Prelude.{◌≡◌, ◌<◌, length, IfSome, IsSomeAnd, OnOk, OnErr};
ghost use Rattle.rhai_ops.specs.Outcome.{IsOutcome};
ghost use Rattle.rhai_ops.specs.Results.{MayWant, Suits, outcome};
ghost use Rattle.rhai_ops.specs.Effects.{answered, operator, second_left, effect};
ghost use Rattle.rhai_run.specs.Slots.{assigned_in, called_in, value_in, HasOperands, Looks};
ghost use Rattle.rhai_run.specs.Places.{place_of};
ghost use Rattle.rhai_run.specs.Does.{Steps, Calls, Does, Gives};
ghost use Rattle.rhai_run.specs.declared.command.Command.TheVariants as command;
ghost use Rattle.rhai_run.specs.Step.{step};

use crate::answer::{Answer, Refusal};
use crate::command::PlaceRef;
use crate::laws;
use crate::not_done::NotDone;
use crate::place::{differ, is_apart};
use crate::slot::Slot;
use crate::slots::Slots;
use crate::vectors::replace_at;
use crate::world::{World, replied};
use crate::world_state::WorldState;
use rhai_ops::laws::{operators_write_nothing, rows_suit};
use rhai_ops::{FnBuiltin, get_builtin_binary_op_fn, get_builtin_op_assignment_fn};
use rhai_text::{EvalAltResult, Position, Token};
use rhai_value::Dynamic;
use std::alloc::AllocError;

impl WorldState {
    /// The result of an operator on two values of the hand.
    fn operate(&self, op: Token, i: usize, j: usize) -> Result<Dynamic, NotDone>
        ensures { Gives result self.now (step self.now (command.Binary op i j)) }
    {
        let x = self.value(i)?;
        let y = self.value(j)?;
        differ(i, j)?;
        let row = get_builtin_binary_op_fn(&op, x, y, &self.store).ok_or(Refusal::NoBuiltin)?;
        rows_suit();
        operators_write_nothing();
        let value = row.call_ref(self.alloc, &self.store, &self.limits, x, y)?;
        Ok(value)
    }

    pub(crate) fn binary(&mut self, op: Token, i: usize, j: usize) -> Result<Answer, NotDone>
        ensures { Does result self.old self.new (step self.old (command.Binary op i j)) }
    {
        let value = self.operate(op, i, j)?;
        self.append(value)
    }

    /// Calls a row of an assignment on the value in a slot and on another one that is in no slot.
    #[tactic(auto, using(crate::proofs::SlotValues::hand_kept, crate::proofs::SlotValues::scope_kept, crate::proofs::SlotValues::placed_length))]
    fn call_at(
        &mut self,
        row: FnBuiltin,
        slot: Slot,
        y: &mut Dynamic,
    ) -> Result<Dynamic, EvalAltResult>
        requires suits { IsSomeAnd (value_in self.old.hand self.old.entries slot) (λ x. Suits row self.old.store x y.old) }
        ensures result { IfSome (value_in self.old.hand self.old.entries slot) (λ x.
            IsOutcome (MayWant row x y.old) result (answered (effect row) (outcome row self.old.limits self.old.store x y.old))) }
        ensures written { OnOk result (IfSome (value_in self.old.hand self.old.entries slot) (λ x.
            assigned_in self.old slot (effect row) x (outcome row self.old.limits self.old.store x y.old) ≡ self.new)) }
        ensures second { OnOk result (IfSome (value_in self.old.hand self.old.entries slot) (λ x.
            y.new ≡ second_left (effect row) (outcome row self.old.limits self.old.store x y.old) y.old)) }
        ensures err { OnErr result ((self.new ≡ self.old) × (y.new ≡ y.old)) }
        ensures len { length self.new.hand ≡ length self.old.hand }
    {
        let mut places = Slots {
            hand: &mut self.hand,
            scope: &mut self.scope,
        };
        let x = places.at_mut(slot);
        row.call(self.alloc, &mut self.store, &self.limits, x, y)
    }

    /// Calls a row of an assignment on the value in a slot and on the one at another hand position.
    fn assign_by(&mut self, row: FnBuiltin, slot: Slot, j: usize) -> Result<Dynamic, EvalAltResult>
        requires { HasOperands row self.old slot j }
        ensures { Calls result self.old self.new (called_in self.old slot j row) }
    {
        let mut y = replace_at(&mut self.hand, j, Dynamic::UNIT);
        let result = self.call_at(row, slot, &mut y);
        replace_at(&mut self.hand, j, y);
        result
    }

    /// Finds the row of an assignment on the first content of the value at a place and on the one
    /// at a hand position, and the slot of the place.
    fn assignment(
        &self,
        op: Token,
        place: PlaceRef<'_>,
        j: usize,
    ) -> Result<(FnBuiltin, Slot), NotDone>
        ensures { Looks result self.now op (place_of place.entry) j }
    {
        let y = self.value(j)?;
        let slot = Slot::of(&self.hand, &self.scope, place)?;
        is_apart(place, j)?;
        let x = slot.value(&self.hand, &self.scope);
        let first = x.read_whole(&self.store).ok_or(Refusal::Fault(EvalAltResult::ErrorDataRace(
            Position::NONE,
        )))?;
        let row = get_builtin_op_assignment_fn(&op, first, y).ok_or(Refusal::NoBuiltin)?;
        rows_suit();
        operators_write_nothing();
        Ok((row, slot))
    }

    pub(crate) fn assign(
        &mut self,
        op: Token,
        place: PlaceRef<'_>,
        j: usize,
    ) -> Result<Answer, NotDone>
        ensures { Does result self.old self.new (step self.old (command.Assign op (place_of place.entry) j)) }
    {
        let (row, slot) = self.assignment(op, place, j)?;
        self.assign_by(row, slot, j)?;
        Ok(Answer::Done)
    }
}

impl World {
    /// Appends the result of the operator on the values at the two hand positions.
    /// Errors: an allocation fails; nothing changes.
    #[inline(always)]
    pub fn binary(&mut self, op: Token, i: usize, j: usize) -> Result<Answer, AllocError>
        ensures { Steps result self.old self.new (step self.old (command.Binary op i j)) }
    {
        laws::methods_fit();
        replied(self.state.binary(op, i, j))
    }

    /// Calls the assignment of the operator on the value at the place and the one at the hand
    /// position.
    /// Errors: an allocation fails; nothing changes.
    #[inline(always)]
    pub fn assign(&mut self, op: Token, place: PlaceRef<'_>, j: usize) -> Result<Answer, AllocError>
        ensures { Steps result self.old self.new (step self.old (command.Assign op (place_of place.entry) j)) }
    {
        laws::methods_fit();
        replied(self.state.assign(op, place, j))
    }
}
