//! Commands that change values in the hand and in cells.
ghost use Rattle.rhai_run.specs.Does.{Steps, Does};
ghost use Rattle.rhai_run.specs.declared.command.Command.TheVariants as command;
ghost use Rattle.rhai_run.specs.Step.{step};

use crate::answer::{Answer, Refusal, mismatch};
use crate::command::Scanner;
use crate::laws;
use crate::not_done::NotDone;
use crate::place::differ;
use crate::scanners::Visits;
use crate::slots::write_over;
use crate::vectors::replace_at;
use crate::world::{World, replied};
use crate::world_state::WorldState;
use rhai_text::{EvalAltResult, Position};
use rhai_value::{AccessMode, Dynamic, INT, Tag};
use std::alloc::AllocError;

impl WorldState {
    pub(crate) fn share(&mut self, i: usize) -> Result<Answer, NotDone>
        ensures { Does result self.old self.new (step self.old (command.Share i)) }
    {
        self.value(i)?;
        self.hand[i].share_in_place(&mut self.store)?;
        Ok(Answer::Done)
    }

    pub(crate) fn flatten(&mut self, i: usize) -> Result<Answer, NotDone>
        ensures { Does result self.old self.new (step self.old (command.Flatten i)) }
    {
        self.value(i)?;
        self.hand[i].flatten_in_place(self.alloc, &self.store)?;
        Ok(Answer::Done)
    }

    pub(crate) fn make_read_only(&mut self, i: usize) -> Result<Answer, NotDone>
        ensures { Does result self.old self.new (step self.old (command.MakeReadOnly i)) }
    {
        self.value(i)?;
        self.hand[i].set_access_mode(AccessMode::ReadOnly);
        Ok(Answer::Done)
    }

    pub(crate) fn set_tag(&mut self, i: usize, tag: Tag) -> Result<Answer, NotDone>
        ensures { Does result self.old self.new (step self.old (command.SetTag i tag)) }
    {
        self.value(i)?;
        self.hand[i].set_tag(tag);
        Ok(Answer::Done)
    }

    pub(crate) fn scan(&mut self, i: usize, scanner: Scanner) -> Result<Answer, NotDone>
        ensures { Does result self.old self.new (step self.old (command.Scan i scanner)) }
    {
        self.value(i)?;
        let mut visits = Visits { scanner, visits: 0 };
        self.hand[i].deep_scan(&mut visits);
        Ok(Answer::Int(i128::from(visits.visits)))
    }

    pub(crate) fn write_int(&mut self, i: usize, value: INT) -> Result<Answer, NotDone>
        ensures { Does result self.old self.new (step self.old (command.WriteInt i value)) }
    {
        self.value(i)?;
        let target = &mut self.hand[i];
        if !target.set_int(&mut self.store, value) {
            let name = target.type_name(&self.store);
            return Err(NotDone::Refused(mismatch(name)));
        }
        Ok(Answer::Done)
    }

    pub(crate) fn write(&mut self, i: usize, j: usize) -> Result<Answer, NotDone>
        ensures { Does result self.old self.new (step self.old (command.Write i j)) }
    {
        let target = self.value(i)?;
        self.value(j)?;
        differ(i, j)?;
        target.read_whole(&self.store).ok_or(Refusal::Fault(EvalAltResult::ErrorDataRace(
            Position::NONE,
        )))?;
        let content = replace_at(&mut self.hand, j, Dynamic::UNIT);
        write_over(&mut self.hand[i], &mut self.store, content);
        Ok(Answer::Done)
    }
}

impl World {
    /// Moves the value at the hand position into a new cell, and leaves a holder of it; a holder is
    /// left unchanged.
    /// Errors: an allocation fails; nothing changes.
    #[inline(always)]
    pub fn share(&mut self, i: usize) -> Result<Answer, AllocError>
        ensures { Steps result self.old self.new (step self.old (command.Share i)) }
    {
        laws::methods_fit();
        replied(self.state.share(i))
    }

    /// Replaces a holder at the hand position by the held value, flat.
    /// Errors: an allocation fails; nothing changes.
    #[inline(always)]
    pub fn flatten(&mut self, i: usize) -> Result<Answer, AllocError>
        ensures { Steps result self.old self.new (step self.old (command.Flatten i)) }
    {
        laws::methods_fit();
        replied(self.state.flatten(i))
    }

    /// Makes the value at the hand position a constant.
    /// Errors: none; it allocates nothing.
    #[inline(always)]
    pub fn make_read_only(&mut self, i: usize) -> Result<Answer, AllocError>
        ensures { Steps result self.old self.new (step self.old (command.MakeReadOnly i)) }
    {
        laws::methods_fit();
        replied(self.state.make_read_only(i))
    }

    /// Sets the tag of the value at the hand position.
    /// Errors: none; it allocates nothing.
    #[inline(always)]
    pub fn set_tag(&mut self, i: usize, tag: Tag) -> Result<Answer, AllocError>
        ensures { Steps result self.old self.new (step self.old (command.SetTag i tag)) }
    {
        laws::methods_fit();
        replied(self.state.set_tag(i, tag))
    }

    /// Overwrites the int held at the hand position.
    /// Errors: none; it allocates nothing.
    #[inline(always)]
    pub fn write_int(&mut self, i: usize, value: INT) -> Result<Answer, AllocError>
        ensures { Steps result self.old self.new (step self.old (command.WriteInt i value)) }
    {
        laws::methods_fit();
        replied(self.state.write_int(i, value))
    }

    /// Writes the value at the second hand position over the first content of the one at the first,
    /// and leaves unit at the second.
    /// Errors: none; it allocates nothing.
    #[inline(always)]
    pub fn write(&mut self, i: usize, j: usize) -> Result<Answer, AllocError>
        ensures { Steps result self.old self.new (step self.old (command.Write i j)) }
    {
        laws::methods_fit();
        replied(self.state.write(i, j))
    }

    /// Scans the value at the hand position with a scanner, and returns the number of visited
    /// values.
    /// Errors: none; it allocates nothing.
    #[inline(always)]
    pub fn scan(&mut self, i: usize, scanner: Scanner) -> Result<Answer, AllocError>
        ensures { Steps result self.old self.new (step self.old (command.Scan i scanner)) }
    {
        laws::methods_fit();
        replied(self.state.scan(i, scanner))
    }
}
