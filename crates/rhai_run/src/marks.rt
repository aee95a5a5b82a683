//! Commands on the list of marks.
ghost use Rattle.std.specs.Prelude.{◌≡◌, ◌<◌, ◌+◌, true, false, slice_get, vec_len, Some, None, option_and_then, option_copied, IfOk, IfErr, IfSome};
ghost use Rattle.std.specs.List.{remove};
ghost use Rattle.rhai_value.specs.Store.{content_at, is_marked_at, put, set_mark};
ghost use Rattle.rhai_run.specs.declared.answer.Refusal.TheVariants.{NoMark};
ghost use Rattle.rhai_run.specs.declared.not_done.NotDone.TheVariants.{Refused};
ghost use Rattle.rhai_run.specs.Fits.{Fits, MarksAre};
ghost use Rattle.rhai_run.specs.Places.{place_of};
ghost use Rattle.rhai_run.specs.Does.{Steps, Does};
ghost use Rattle.rhai_run.specs.declared.command.Command.TheVariants as command;
ghost use Rattle.rhai_run.specs.Step.{step};

use crate::answer::{Answer, Refusal};
use crate::command::PlaceRef;
use crate::laws;
use crate::not_done::NotDone;
use crate::slot::Slot;
use crate::vectors::replace_at;
use crate::world::{World, replied};
use crate::world_state::WorldState;
use rhai_text::{EvalAltResult, Position};
use rhai_value::laws::mark_is_cleared;
use rhai_value::{Dynamic, Store, WriteToken};
use std::alloc::{AllocError, AllocFailed};

/// Removes a token from a list of marks, and unmarks its cell.
#[tactic(auto, using(crate::proofs::MarkLists::mark_is_set, crate::proofs::MarkLists::mark_taken))]
fn release_at(store: &mut Store, marks: &mut Vec<WriteToken>, k: usize)
    requires within { k < vec_len marks.old }
    requires marks { MarksAre store.old marks.old.items }
    ensures store { IfSome (slice_get marks.old.items k) (λ c. store.new ≡ set_mark store.old c false) }
    ensures list { marks.new.items ≡ remove marks.old.items k }
    ensures len { vec_len marks.new + 1 ≡ vec_len marks.old }
    ensures marks { MarksAre store.new marks.new.items }
{
    let token = marks.remove(k);
    store.release(token);
}

/// Unmarks the cells of all tokens of a list of marks.
pub(crate) fn release_all(store: &mut Store, mut marks: Vec<WriteToken>)
    requires { MarksAre store.old marks.items }
{
    while !marks.is_empty() {
        let last = marks.len() - 1;
        release_at(store, &mut marks, last);
    }
    marks.destroy_empty();
}

/// Replaces the content of a token's cell.
fn write_through(store: &mut Store, token: &WriteToken, value: Dynamic)
    requires { is_marked_at store.old token.now ≡ true }
    ensures { store.new ≡ put store.old token.now value }
{
    *store.through_mut(token) = value;
}

/// The token of a mark.
fn token(marks: &[WriteToken], k: usize) -> Result<&WriteToken, NotDone>
    ensures ok { IfOk result (λ t. slice_get marks.now k ≡ Some t.now) }
    ensures err { IfErr result (λ e. (e ≡ Refused NoMark) × (slice_get marks.now k ≡ None)) }
{
    match marks.get(k) {
        None => Err(NotDone::Refused(Refusal::NoMark)),
        Some(token) => Ok(token),
    }
}

impl WorldState {
    #[tactic(auto, using(crate::proofs::MarkLists::first_is_free, crate::proofs::InSlots::source_is, crate::proofs::InSlots::placed_is, crate::proofs::InSlots::placed_refused))]
    pub(crate) fn mark(&mut self, place: PlaceRef<'_>) -> Result<Answer, NotDone>
        ensures { Does result self.old self.new (step self.old (command.Mark (place_of place.entry))) }
    {
        let slot = Slot::of(&self.hand, &self.scope, place)?;
        let holder = slot.value(&self.hand, &self.scope);
        if !holder.is_shared() {
            return Err(NotDone::Refused(Refusal::WrongSource));
        }
        mark_is_cleared();
        let token = self.store.mark(holder).ok_or(Refusal::Fault(EvalAltResult::ErrorDataRace(
            Position::NONE,
        )))?;
        match self.marks.push(token) {
            Ok(()) => Ok(Answer::Done),
            Err(AllocFailed { value: token }) => {
                self.store.release(token);
                Err(NotDone::Memory)
            }
        }
    }

    pub(crate) fn unmark(&mut self, k: usize) -> Result<Answer, NotDone>
        requires { Fits self.old }
        ensures { Does result self.old self.new (step self.old (command.Unmark k)) }
    {
        token(&self.marks, k)?;
        release_at(&mut self.store, &mut self.marks, k);
        Ok(Answer::Done)
    }

    #[tactic(auto, using(crate::proofs::MarkLists::mark_is_set))]
    pub(crate) fn write_marked(&mut self, k: usize, i: usize) -> Result<Answer, NotDone>
        requires { Fits self.old }
        ensures { Does result self.old self.new (step self.old (command.WriteMarked k i)) }
    {
        self.value(i)?;
        let token = token(&self.marks, k)?;
        let value = replace_at(&mut self.hand, i, Dynamic::UNIT);
        write_through(&mut self.store, token, value);
        Ok(Answer::Done)
    }

    #[tactic(auto, using(crate::proofs::MarkLists::mark_is_set))]
    pub(crate) fn read_marked(&mut self, k: usize) -> Result<Answer, NotDone>
        requires { Fits self.old }
        ensures { Does result self.old self.new (step self.old (command.ReadMarked k)) }
    {
        let token = token(&self.marks, k)?;
        let value = self.store.through(token).copy(self.alloc)?;
        self.append(value)
    }
}

impl World {
    /// Borrows the open marks, the oldest first.
    pub fn marks(&self) -> &[WriteToken]
        ensures { result.now ≡ self.now.marks }
    {
        &self.state.marks
    }

    /// Borrows the content of the cell of the mark at this position; `None` if there is no such
    /// mark.
    /// Cost: constant; no memory.
    #[tactic(auto, using(crate::proofs::MarkLists::mark_is_set))]
    pub fn marked_content(&self, k: usize) -> Option<&Dynamic>
        ensures { option_copied result ≡ option_and_then (content_at self.now.store) (slice_get self.now.marks k) }
    {
        let token = self.state.marks.get(k)?;
        Some(self.state.store.through(token))
    }

    /// Marks the cell of the holder at the place: from then on it is read and written only through
    /// the mark. The mark is appended to the list of marks.
    /// Errors: an allocation fails; nothing changes.
    #[inline(always)]
    pub fn mark(&mut self, place: PlaceRef<'_>) -> Result<Answer, AllocError>
        ensures { Steps result self.old self.new (step self.old (command.Mark (place_of place.entry))) }
    {
        laws::methods_fit();
        replied(self.state.mark(place))
    }

    /// Removes the mark at this position from the list, and unmarks its cell; later marks move
    /// down.
    /// Errors: none; it allocates nothing.
    #[inline(always)]
    pub fn unmark(&mut self, k: usize) -> Result<Answer, AllocError>
        ensures { Steps result self.old self.new (step self.old (command.Unmark k)) }
    {
        laws::methods_fit();
        replied(self.state.unmark(k))
    }

    /// Moves the value at the hand position into the cell of the mark at this position, and leaves
    /// unit.
    /// Errors: none; it allocates nothing.
    #[inline(always)]
    pub fn write_marked(&mut self, k: usize, i: usize) -> Result<Answer, AllocError>
        ensures { Steps result self.old self.new (step self.old (command.WriteMarked k i)) }
    {
        laws::methods_fit();
        replied(self.state.write_marked(k, i))
    }

    /// Appends a copy of the content of the cell of the mark at this position.
    /// Errors: an allocation fails; nothing changes.
    #[inline(always)]
    pub fn read_marked(&mut self, k: usize) -> Result<Answer, AllocError>
        ensures { Steps result self.old self.new (step self.old (command.ReadMarked k)) }
    {
        laws::methods_fit();
        replied(self.state.read_marked(k))
    }
}
