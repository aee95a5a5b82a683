//! Commands on positions in lists.
ghost use Rattle.rhai_run.specs.Does.{Steps, Does};
ghost use Rattle.rhai_run.specs.declared.command.Command.TheVariants as command;
ghost use Rattle.rhai_run.specs.Step.{step};

use crate::answer::Answer;
use crate::not_done::NotDone;
use crate::world::{World, replied};
use crate::world_state::WorldState;
use rhai_target::{calc_index, calc_offset_len};
use rhai_value::INT;
use std::alloc::AllocError;

impl WorldState {
    pub(crate) fn offset(&self, length: usize, start: INT, len: INT) -> Result<Answer, NotDone>
        ensures { Does result self.now self.now (step self.now (command.Offset length start len)) }
    {
        let (start, len) = calc_offset_len(length, start, len);
        Ok(Answer::Pair(start, len))
    }

    pub(crate) fn index(&self, length: usize, index: INT, from_end: bool) -> Result<Answer, NotDone>
        ensures { Does result self.now self.now (step self.now (command.Index length index from_end)) }
    {
        match calc_index(length, index, from_end) {
            Some(place) => Ok(Answer::Int(place as i128)),
            None => Ok(Answer::Nothing),
        }
    }
}

impl World {
    /// Returns where a slice of a list of this length starts and how many items it has, for a start
    /// and a number of items.
    /// Errors: none; it allocates nothing.
    #[inline(always)]
    pub fn offset(&self, length: usize, start: INT, len: INT) -> Result<Answer, AllocError>
        ensures { Steps result self.now self.now (step self.now (command.Offset length start len)) }
    {
        replied(self.state.offset(length, start, len))
    }

    /// Returns the position of an item in a list of this length, or `Nothing`; with the flag a
    /// negative index counts from the end.
    /// Errors: none; it allocates nothing.
    #[inline(always)]
    pub fn index(&self, length: usize, index: INT, from_end: bool) -> Result<Answer, AllocError>
        ensures { Steps result self.now self.now (step self.now (command.Index length index from_end)) }
    {
        replied(self.state.index(length, index, from_end))
    }
}
