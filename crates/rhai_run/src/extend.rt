//! Commands that add entries for a list of names, and commands that list the entries.
ghost use Rattle.std.specs.Prelude.{◌≡◌, IfOk};
ghost use Rattle.rhai_run.specs.Does.{Steps, Does};
ghost use Rattle.rhai_run.specs.declared.command.Command.TheVariants as command;
ghost use Rattle.rhai_run.specs.Step.{step};

use crate::answer::Answer;
use crate::laws;
use crate::lists::{FlaggedNames, Names};
use crate::not_done::NotDone;
use crate::vectors::{append_in_room, split_last};
use crate::world::{World, replied};
use crate::world_state::WorldState;
use rhai_show::Shown;
use rhai_text::ImmutableString;
use std::alloc::{AllocError, Global};

/// Copies of names.
fn copies_of(alloc: Global, names: &[ImmutableString]) -> Result<Vec<ImmutableString>, AllocError>
    ensures { IfOk result (λ v. v.items ≡ names.now) }
{
    let mut copies = Vec::with_capacity(alloc, names.len())?;
    for name in names {
        copies.push(name.copy(alloc)?)?;
    }
    Ok(copies)
}

/// Copies of names with their flags.
fn flagged_copies_of(
    alloc: Global,
    names: &[(ImmutableString, bool)],
) -> Result<Vec<(ImmutableString, bool)>, AllocError>
    ensures { IfOk result (λ v. v.items ≡ names.now) }
{
    let mut copies = Vec::with_capacity(alloc, names.len())?;
    for named in names {
        let (name, is_constant) = named;
        copies.push((name.copy(alloc)?, *is_constant))?;
    }
    Ok(copies)
}

impl WorldState {
    pub(crate) fn entries(&mut self) -> Result<Answer, NotDone>
        ensures { Does result self.old self.new (step self.old command.Entries) }
    {
        let mut values = self.scope.flat_values(&self.store)?;
        self.hand.append(&mut values)?;
        Ok(Answer::Done)
    }

    pub(crate) fn names(&self) -> Result<Answer, NotDone>
        ensures { Does result self.now self.now (step self.now command.Names) }
    {
        let text = self.scope.names_shown(&self.store)?.into_text();
        Ok(Answer::Text(Shown::from_text(text)))
    }

    pub(crate) fn extend(&mut self, names: &Names) -> Result<Answer, NotDone>
        ensures { Does result self.old self.new (step self.old (command.Extend names.now)) }
    {
        let names = names.as_slice();
        let count = names.len();
        self.has_values(count)?;
        let names = copies_of(self.alloc, names)?;
        let values = split_last(&mut self.hand, count)?;
        if let Err((_, values)) = self.scope.extend_moved(names, values) {
            append_in_room(&mut self.hand, values);
            return Err(NotDone::Memory);
        }
        Ok(Answer::Done)
    }

    pub(crate) fn extend_flagged(&mut self, names: &FlaggedNames) -> Result<Answer, NotDone>
        ensures { Does result self.old self.new (step self.old (command.ExtendFlagged names.now)) }
    {
        let names = names.as_slice();
        let count = names.len();
        self.has_values(count)?;
        let names = flagged_copies_of(self.alloc, names)?;
        let values = split_last(&mut self.hand, count)?;
        if let Err((_, values)) = self.scope.extend_flagged_moved(names, values) {
            append_in_room(&mut self.hand, values);
            return Err(NotDone::Memory);
        }
        Ok(Answer::Done)
    }
}

impl World {
    /// Appends flat copies of the values of all entries.
    /// Errors: an allocation fails; nothing changes.
    #[inline(always)]
    pub fn entries(&mut self) -> Result<Answer, AllocError>
        ensures { Steps result self.old self.new (step self.old command.Entries) }
    {
        laws::methods_fit();
        replied(self.state.entries())
    }

    /// Returns the names of the entries, the newest first, each followed by a line feed, and with
    /// `const ` before that of a constant.
    /// Errors: an allocation fails; nothing changes.
    #[inline(always)]
    pub fn names(&self) -> Result<Answer, AllocError>
        ensures { Steps result self.now self.now (step self.now command.Names) }
    {
        replied(self.state.names())
    }

    /// Removes as many values from the end of the hand as there are names, and adds a variable
    /// entry of each name with its value.
    /// Errors: an allocation fails; nothing changes.
    #[inline(always)]
    pub fn extend(&mut self, names: &Names) -> Result<Answer, AllocError>
        ensures { Steps result self.old self.new (step self.old (command.Extend names.now)) }
    {
        laws::methods_fit();
        replied(self.state.extend(names))
    }

    /// Removes as many values from the end of the hand as there are names, and adds an entry of
    /// each name with its value, a constant if its name is flagged.
    /// Errors: an allocation fails; nothing changes.
    #[inline(always)]
    pub fn extend_flagged(&mut self, names: &FlaggedNames) -> Result<Answer, AllocError>
        ensures { Steps result self.old self.new (step self.old (command.ExtendFlagged names.now)) }
    {
        laws::methods_fit();
        replied(self.state.extend_flagged(names))
    }
}
