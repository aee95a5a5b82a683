//! Commands on the scope as a whole, and pushes.
ghost use Rattle.rhai_run.specs.Entries.{moved_into_entry};
ghost use Rattle.rhai_run.specs.Does.{Steps, Does};
ghost use Rattle.rhai_run.specs.declared.command.Command.TheVariants as command;
ghost use Rattle.rhai_run.specs.Step.{step};

use crate::answer::{Answer, Refusal};
use crate::laws;
use crate::lists::Bytes;
use crate::not_done::NotDone;
use crate::vectors::replace_at;
use crate::world::{World, replied};
use crate::world_state::WorldState;
use rhai_show::Shown;
use rhai_text::ImmutableString;
use rhai_value::{AccessMode, Dynamic};
use std::alloc::AllocError;

impl WorldState {
    /// Moves a value of the hand into a new entry, painted with a mode.
    pub(crate) fn push_as(
        &mut self,
        name: &ImmutableString,
        access: AccessMode,
        i: usize,
    ) -> Result<Answer, NotDone>
        ensures { Does result self.old self.new (moved_into_entry (λ t. access) self.old name.now i) }
    {
        self.value(i)?;
        let name = name.copy(self.alloc)?;
        let value = replace_at(&mut self.hand, i, Dynamic::UNIT);
        if let Err((_, value)) = self.scope.push_entry(name, access, value) {
            replace_at(&mut self.hand, i, value);
            return Err(NotDone::Memory);
        }
        Ok(Answer::Done)
    }

    pub(crate) fn push_dynamic(
        &mut self,
        name: &ImmutableString,
        i: usize,
    ) -> Result<Answer, NotDone>
        ensures { Does result self.old self.new (step self.old (command.PushDynamic name.now i)) }
    {
        let access = self.value(i)?.access_mode();
        self.push_as(name, access, i)
    }

    pub(crate) fn pop(&mut self) -> Result<Answer, NotDone>
        ensures { Does result self.old self.new (step self.old command.Pop) }
    {
        if self.scope.is_empty() {
            return Err(NotDone::Refused(Refusal::EmptyScope));
        }
        self.scope.pop();
        Ok(Answer::Done)
    }

    pub(crate) fn rewind(&mut self, n: usize) -> Result<Answer, NotDone>
        ensures { Does result self.old self.new (step self.old (command.Rewind n)) }
    {
        self.scope.rewind(n);
        Ok(Answer::Done)
    }

    pub(crate) fn clear(&mut self) -> Result<Answer, NotDone>
        ensures { Does result self.old self.new (step self.old command.Clear) }
    {
        self.scope.clear();
        Ok(Answer::Done)
    }

    pub(crate) fn len(&self) -> Result<Answer, NotDone>
        ensures { Does result self.now self.now (step self.now command.Len) }
    {
        Ok(Answer::Int(self.scope.len() as i128))
    }

    pub(crate) fn is_empty(&self) -> Result<Answer, NotDone>
        ensures { Does result self.now self.now (step self.now command.IsEmpty) }
    {
        Ok(Answer::Bool(self.scope.is_empty()))
    }

    pub(crate) fn contains(&self, name: &ImmutableString) -> Result<Answer, NotDone>
        ensures { Does result self.now self.now (step self.now (command.Contains name.now)) }
    {
        Ok(Answer::Bool(self.scope.contains(name.as_str())))
    }

    pub(crate) fn search(&self, name: &ImmutableString) -> Result<Answer, NotDone>
        ensures { Does result self.now self.now (step self.now (command.Search name.now)) }
    {
        match self.scope.search(name.as_str()) {
            Some(position) => Ok(Answer::Int(position as i128)),
            None => Ok(Answer::Nothing),
        }
    }

    pub(crate) fn is_constant(&self, name: &ImmutableString) -> Result<Answer, NotDone>
        ensures { Does result self.now self.now (step self.now (command.IsConstant name.now)) }
    {
        match self.scope.is_constant(name.as_str()) {
            Some(is_constant) => Ok(Answer::Bool(is_constant)),
            None => Ok(Answer::Nothing),
        }
    }

    pub(crate) fn keep_visible(&mut self) -> Result<Answer, NotDone>
        ensures { Does result self.old self.new (step self.old command.KeepVisible) }
    {
        self.scope = self.scope.clone_visible()?;
        Ok(Answer::Done)
    }

    pub(crate) fn copy_scope(&mut self) -> Result<Answer, NotDone>
        ensures { Does result self.old self.new (step self.old command.CopyScope) }
    {
        self.scope = self.scope.copy()?;
        Ok(Answer::Done)
    }

    pub(crate) fn show_scope(&self) -> Result<Answer, NotDone>
        ensures { Does result self.now self.now (step self.now command.ShowScope) }
    {
        let text = self.scope.shown(&self.store)?.into_text();
        Ok(Answer::Text(Shown::from_text(text)))
    }

    pub(crate) fn hash_scope(&self) -> Result<Answer, NotDone>
        ensures { Does result self.now self.now (step self.now command.HashScope) }
    {
        match self.scope.hashed(&self.store)? {
            None => Err(NotDone::Refused(Refusal::NotHashable)),
            Some(hashed) => Ok(Answer::Bytes(Bytes::new(hashed.into_bytes(self.alloc)?))),
        }
    }
}

impl World {
    /// Moves the value at the hand position into a new variable entry of the name, and leaves unit.
    /// Errors: an allocation fails; nothing changes.
    #[inline(always)]
    pub fn push(&mut self, name: &ImmutableString, i: usize) -> Result<Answer, AllocError>
        ensures { Steps result self.old self.new (step self.old (command.Push name.now i)) }
    {
        laws::methods_fit();
        replied(self.state.push_as(name, AccessMode::ReadWrite, i))
    }

    /// Moves the value at the hand position into a new entry of the name, a constant if the value
    /// is one, and leaves unit.
    /// Errors: an allocation fails; nothing changes.
    #[inline(always)]
    pub fn push_dynamic(&mut self, name: &ImmutableString, i: usize) -> Result<Answer, AllocError>
        ensures { Steps result self.old self.new (step self.old (command.PushDynamic name.now i)) }
    {
        laws::methods_fit();
        replied(self.state.push_dynamic(name, i))
    }

    /// Moves the value at the hand position into a new constant entry of the name, and leaves unit.
    /// Errors: an allocation fails; nothing changes.
    #[inline(always)]
    pub fn push_constant(&mut self, name: &ImmutableString, i: usize) -> Result<Answer, AllocError>
        ensures { Steps result self.old self.new (step self.old (command.PushConstant name.now i)) }
    {
        laws::methods_fit();
        replied(self.state.push_as(name, AccessMode::ReadOnly, i))
    }

    /// Drops the last entry.
    /// Errors: none; it allocates nothing.
    #[inline(always)]
    pub fn pop(&mut self) -> Result<Answer, AllocError>
        ensures { Steps result self.old self.new (step self.old command.Pop) }
    {
        laws::methods_fit();
        replied(self.state.pop())
    }

    /// Keeps the first entries, as many as given.
    /// Errors: none; it allocates nothing.
    #[inline(always)]
    pub fn rewind(&mut self, n: usize) -> Result<Answer, AllocError>
        ensures { Steps result self.old self.new (step self.old (command.Rewind n)) }
    {
        laws::methods_fit();
        replied(self.state.rewind(n))
    }

    /// Drops all entries.
    /// Errors: none; it allocates nothing.
    #[inline(always)]
    pub fn clear(&mut self) -> Result<Answer, AllocError>
        ensures { Steps result self.old self.new (step self.old command.Clear) }
    {
        laws::methods_fit();
        replied(self.state.clear())
    }

    /// Returns the number of entries.
    /// Errors: none; it allocates nothing.
    #[inline(always)]
    pub fn len(&self) -> Result<Answer, AllocError>
        ensures { Steps result self.now self.now (step self.now command.Len) }
    {
        replied(self.state.len())
    }

    /// Returns whether the scope is empty.
    /// Errors: none; it allocates nothing.
    #[inline(always)]
    pub fn is_empty(&self) -> Result<Answer, AllocError>
        ensures { Steps result self.now self.now (step self.now command.IsEmpty) }
    {
        replied(self.state.is_empty())
    }

    /// Returns whether the name has an entry.
    /// Errors: none; it allocates nothing.
    #[inline(always)]
    pub fn contains(&self, name: &ImmutableString) -> Result<Answer, AllocError>
        ensures { Steps result self.now self.now (step self.now (command.Contains name.now)) }
    {
        replied(self.state.contains(name))
    }

    /// Returns the position of the last entry of the name, counted from 0, or `Nothing`.
    /// Errors: none; it allocates nothing.
    #[inline(always)]
    pub fn search(&self, name: &ImmutableString) -> Result<Answer, AllocError>
        ensures { Steps result self.now self.now (step self.now (command.Search name.now)) }
    {
        replied(self.state.search(name))
    }

    /// Returns whether the last entry of the name is a constant, or `Nothing`.
    /// Errors: none; it allocates nothing.
    #[inline(always)]
    pub fn is_constant(&self, name: &ImmutableString) -> Result<Answer, AllocError>
        ensures { Steps result self.now self.now (step self.now (command.IsConstant name.now)) }
    {
        replied(self.state.is_constant(name))
    }

    /// Replaces the scope by copies of the last entries of each name, the newest first.
    /// Errors: an allocation fails; nothing changes.
    #[inline(always)]
    pub fn keep_visible(&mut self) -> Result<Answer, AllocError>
        ensures { Steps result self.old self.new (step self.old command.KeepVisible) }
    {
        laws::methods_fit();
        replied(self.state.keep_visible())
    }

    /// Replaces the scope by copies of all entries.
    /// Errors: an allocation fails; nothing changes.
    #[inline(always)]
    pub fn copy_scope(&mut self) -> Result<Answer, AllocError>
        ensures { Steps result self.old self.new (step self.old command.CopyScope) }
    {
        laws::methods_fit();
        replied(self.state.copy_scope())
    }

    /// Returns the printed text of the scope.
    /// Errors: an allocation fails; nothing changes.
    #[inline(always)]
    pub fn show_scope(&self) -> Result<Answer, AllocError>
        ensures { Steps result self.now self.now (step self.now command.ShowScope) }
    {
        replied(self.state.show_scope())
    }

    /// Returns the hash bytes of the scope.
    /// Errors: an allocation fails; nothing changes.
    #[inline(always)]
    pub fn hash_scope(&self) -> Result<Answer, AllocError>
        ensures { Steps result self.now self.now (step self.now command.HashScope) }
    {
        replied(self.state.hash_scope())
    }
}
