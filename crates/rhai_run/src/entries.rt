//! Commands on the last entry of a name.
ghost use Rattle.std.specs.Prelude.{◌≡◌, ◌<◌, true, false, is_some, length, option_map, remove, slice_get, IfSome, IfOk, OnOk, OnErr};
ghost use Rattle.std.specs.Str.{chars};
ghost use Rattle.rhai_value.specs.End.{flattened};
ghost use Rattle.rhai_value.specs.Tree.{fresh, int};
ghost use Rattle.rhai_value.specs.declared.value.type_id.TypeId.TheVariants as type_id;
ghost use Rattle.rhai_variant.specs.Reads.{viewed, written_as};
ghost use Rattle.rhai_scope.specs.Entry.{with_value as holding};
ghost use Rattle.rhai_scope.specs.Lookup.{changed_at};
ghost use Rattle.rhai_run.specs.State.{with_scope, moved_from};
ghost use Rattle.rhai_run.specs.Does.{Steps, Does, GivesIfAny};
ghost use Rattle.rhai_run.specs.declared.command.Command.TheVariants as command;
ghost use Rattle.rhai_run.specs.Step.{step};

use crate::answer::{Answer, Refusal};
use crate::cast::{can_move, cast_to, moved_as};
use crate::laws;
use crate::not_done::NotDone;
use crate::vectors::replace_at;
use crate::world::{World, replied};
use crate::world_state::WorldState;
use rhai_scope::{Scope, aliases_shown};
use rhai_show::Shown;
use rhai_text::ImmutableString;
use rhai_value::{AccessMode, Dynamic, INT, Store, TypeId};
use rhai_variant::Variant;
use std::alloc::{AllocError, Global};

/// Removes the entry at a position, and returns its flat value; the entry is kept if an allocation
/// fails.
#[tactic(auto, using(rhai_scope::proofs::ForCallers::length_changed, rhai_scope::proofs::ForCallers::value_changed, rhai_scope::proofs::ForCallers::taken, rhai_scope::proofs::ForCallers::kept_there))]
fn take_flat(
    scope: &mut Scope,
    k: usize,
    alloc: Global,
    store: &Store,
) -> Result<Dynamic, AllocError>
    requires { k < length scope.old }
    ensures value { IfOk result (λ d. IfSome (option_map (λ e. e.value) (slice_get scope.old k)) (λ t. d ≡ flattened store.now t)) }
    ensures left { OnOk result (scope.new ≡ remove scope.old k) }
    ensures err { OnErr result (scope.new ≡ scope.old) }
{
    scope.at_mut(k).flatten_in_place(alloc, store)?;
    Ok(scope.remove_at(k))
}

/// Replaces the value if it is an int, and returns whether it is one.
fn overwrite_int(value: &mut Dynamic, n: INT) -> bool
    ensures own { result ≡ is_some (viewed type_id.Int value.old) }
    ensures written { result ≡ true → value.new ≡ written_as type_id.Int (fresh (int n)) value.old }
    ensures kept { result ≡ false → value.new ≡ value.old }
{
    match INT::view_mut(value) {
        Some(own) => {
            *own = n;
            true
        }
        None => false,
    }
}

/// The commands that change entries are calls, so that `apply`, into which most others are inlined,
/// stays short.
impl WorldState {
    /// Moves a value of the hand into the entry at a position of the scope.
    fn set_at(&mut self, k: usize, i: usize)
        requires entry { k < length self.old.entries }
        requires value { i < length self.old.hand }
        ensures { IfSome (slice_get self.old.hand i) (λ t.
            self.new ≡ with_scope self.old (changed_at (holding t) self.old.entries k) (moved_from self.old.hand i)) }
    {
        let value = replace_at(&mut self.hand, i, Dynamic::UNIT);
        *self.scope.at_mut(k) = value;
    }

    #[inline(never)]
    #[tactic(auto, using(crate::proofs::LastEntry::set_entry_is))]
    pub(crate) fn set_entry(&mut self, name: &ImmutableString, i: usize) -> Result<Answer, NotDone>
        ensures { Does result self.old self.new (step self.old (command.SetEntry name.now i)) }
    {
        self.value(i)?;
        let k = self.scope.search(name.as_str()).ok_or(Refusal::NoEntry)?;
        if self.scope.is_constant_at(k) {
            return Err(NotDone::Refused(Refusal::ConstantEntry));
        }
        self.set_at(k, i);
        Ok(Answer::Done)
    }

    #[inline(never)]
    #[tactic(auto, using(crate::proofs::LastEntry::set_or_push_is))]
    pub(crate) fn set_or_push(
        &mut self,
        name: &ImmutableString,
        i: usize,
    ) -> Result<Answer, NotDone>
        ensures { Does result self.old self.new (step self.old (command.SetOrPush name.now i)) }
    {
        self.value(i)?;
        match self.scope.search(name.as_str()) {
            Some(k) if !self.scope.is_constant_at(k) => {
                self.set_at(k, i);
                Ok(Answer::Done)
            }
            Some(_) | None => self.push_as(name, AccessMode::ReadWrite, i),
        }
    }

    #[inline(never)]
    #[tactic(auto, using(crate::proofs::LastEntry::set_value_is))]
    pub(crate) fn set_value(&mut self, name: &ImmutableString, i: usize) -> Result<Answer, NotDone>
        ensures { Does result self.old self.new (step self.old (command.SetValue name.now i)) }
    {
        self.value(i)?;
        let Some(k) = self.scope.search(name.as_str()) else {
            return self.push_as(name, AccessMode::ReadWrite, i);
        };
        if self.scope.is_constant_at(k) {
            return Err(NotDone::Refused(Refusal::ConstantEntry));
        }
        self.set_at(k, i);
        Ok(Answer::Done)
    }

    pub(crate) fn get(&mut self, name: &ImmutableString) -> Result<Answer, NotDone>
        ensures { Does result self.old self.new (step self.old (command.Get name.now)) }
    {
        let value = self.scope.get(name.as_str()).ok_or(Refusal::NoEntry)?;
        self.hand.reserve(1)?;
        let value = value.copy(self.alloc)?;
        self.hand.push_reserved(value);
        Ok(Answer::Done)
    }

    pub(crate) fn get_value(
        &mut self,
        name: &ImmutableString,
        kind: TypeId,
    ) -> Result<Answer, NotDone>
        ensures { Does result self.old self.new (step self.old (command.GetValue name.now kind)) }
    {
        let value = self.scope.get(name.as_str()).ok_or(Refusal::NoEntry)?;
        match cast_to(value, self.alloc, &self.store, kind)? {
            None => Ok(Answer::Nothing),
            Some(value) => self.append(value),
        }
    }

    /// A copy of the last entry's own value, borrowed as a type, if it is of the type.
    #[tactic(auto, using(crate::proofs::Casts::viewed_cast, crate::proofs::Casts::unviewed_string))]
    fn viewed(&self, name: &ImmutableString, kind: TypeId) -> Result<Option<Dynamic>, NotDone>
        ensures { GivesIfAny result self.now (step self.now (command.GetRef name.now kind)) }
    {
        let value = self.scope.get(name.as_str()).ok_or(Refusal::NoEntry)?;
        if value.is_shared() {
            return Err(NotDone::Refused(Refusal::SharedEntry));
        }
        if kind == TypeId::String {
            return Ok(None);
        }
        Ok(cast_to(value, self.alloc, &self.store, kind)?)
    }

    pub(crate) fn get_ref(
        &mut self,
        name: &ImmutableString,
        kind: TypeId,
    ) -> Result<Answer, NotDone>
        ensures { Does result self.old self.new (step self.old (command.GetRef name.now kind)) }
    {
        match self.viewed(name, kind)? {
            None => Ok(Answer::Nothing),
            Some(value) => self.append(value),
        }
    }

    #[inline(never)]
    #[tactic(auto, using(rhai_scope::proofs::ForCallers::kept_there, crate::proofs::LastEntry::set_ref_is, crate::proofs::LastEntry::set_ref_written))]
    pub(crate) fn set_ref(&mut self, name: &ImmutableString, value: INT) -> Result<Answer, NotDone>
        ensures { Does result self.old self.new (step self.old (command.SetRef name.now value)) }
    {
        let k = self.scope.search(name.as_str()).ok_or(Refusal::NoEntry)?;
        if self.scope.at(k).is_shared() {
            return Err(NotDone::Refused(Refusal::SharedEntry));
        }
        if !overwrite_int(self.scope.at_mut(k), value) {
            return Ok(Answer::Nothing);
        }
        Ok(Answer::Done)
    }

    #[inline(never)]
    #[tactic(auto, using(crate::proofs::LastEntry::remove_is))]
    pub(crate) fn remove(&mut self, name: &ImmutableString, kind: TypeId) -> Result<Answer, NotDone>
        ensures { Does result self.old self.new (step self.old (command.Remove name.now kind)) }
    {
        let k = self.scope.search(name.as_str()).ok_or(Refusal::NoEntry)?;
        if !can_move(self.scope.at(k), &self.store, kind) {
            drop(self.scope.remove_at(k));
            return Ok(Answer::Nothing);
        }
        self.hand.reserve(1)?;
        let value = take_flat(&mut self.scope, k, self.alloc, &self.store)?;
        self.hand.push_reserved(moved_as(value, kind));
        Ok(Answer::Done)
    }

    pub(crate) fn set_alias(
        &mut self,
        name: &ImmutableString,
        alias: &str,
    ) -> Result<Answer, NotDone>
        ensures { Does result self.old self.new (step self.old (command.SetAlias name.now (chars alias.now))) }
    {
        self.scope.set_alias(name.as_str(), alias)?;
        Ok(Answer::Done)
    }

    pub(crate) fn aliases(&self, name: &ImmutableString) -> Result<Answer, NotDone>
        ensures { Does result self.now self.now (step self.now (command.Aliases name.now)) }
    {
        let aliases = self.scope.aliases(name.as_str()).ok_or(Refusal::NoEntry)?;
        let text = aliases_shown(self.alloc, aliases)?.into_text();
        Ok(Answer::Text(Shown::from_text(text)))
    }
}

impl World {
    /// Moves the value at the hand position over the value of the last entry of the name, and
    /// leaves unit.
    /// Errors: none; it allocates nothing.
    #[inline(always)]
    pub fn set_entry(&mut self, name: &ImmutableString, i: usize) -> Result<Answer, AllocError>
        ensures { Steps result self.old self.new (step self.old (command.SetEntry name.now i)) }
    {
        laws::methods_fit();
        replied(self.state.set_entry(name, i))
    }

    /// Moves the value at the hand position over the value of the last entry of the name, and
    /// leaves unit; if there is no entry, or it is a constant, the value goes into a new one.
    /// Errors: an allocation fails; nothing changes.
    #[inline(always)]
    pub fn set_or_push(&mut self, name: &ImmutableString, i: usize) -> Result<Answer, AllocError>
        ensures { Steps result self.old self.new (step self.old (command.SetOrPush name.now i)) }
    {
        laws::methods_fit();
        replied(self.state.set_or_push(name, i))
    }

    /// Moves the value at the hand position over the value of the last entry of the name, and
    /// leaves unit; if there is no entry, the value goes into a new one.
    /// Errors: an allocation fails; nothing changes.
    #[inline(always)]
    pub fn set_value(&mut self, name: &ImmutableString, i: usize) -> Result<Answer, AllocError>
        ensures { Steps result self.old self.new (step self.old (command.SetValue name.now i)) }
    {
        laws::methods_fit();
        replied(self.state.set_value(name, i))
    }

    /// Appends a copy of the value of the last entry of the name.
    /// Errors: an allocation fails; nothing changes.
    #[inline(always)]
    pub fn get(&mut self, name: &ImmutableString) -> Result<Answer, AllocError>
        ensures { Steps result self.old self.new (step self.old (command.Get name.now)) }
    {
        laws::methods_fit();
        replied(self.state.get(name))
    }

    /// Appends a flat copy of the value of the last entry of the name, cast to this type; or
    /// returns `Nothing`.
    /// Errors: an allocation fails; nothing changes.
    #[inline(always)]
    pub fn get_value(&mut self, name: &ImmutableString, kind: TypeId) -> Result<Answer, AllocError>
        ensures { Steps result self.old self.new (step self.old (command.GetValue name.now kind)) }
    {
        laws::methods_fit();
        replied(self.state.get_value(name, kind))
    }

    /// Appends a copy of the last entry's own value, borrowed as this type; or returns `Nothing`.
    /// Errors: an allocation fails; nothing changes.
    #[inline(always)]
    pub fn get_ref(&mut self, name: &ImmutableString, kind: TypeId) -> Result<Answer, AllocError>
        ensures { Steps result self.old self.new (step self.old (command.GetRef name.now kind)) }
    {
        laws::methods_fit();
        replied(self.state.get_ref(name, kind))
    }

    /// Overwrites the int that the last entry's own value is; or returns `Nothing`.
    /// Errors: none; it allocates nothing.
    #[inline(always)]
    pub fn set_ref(&mut self, name: &ImmutableString, value: INT) -> Result<Answer, AllocError>
        ensures { Steps result self.old self.new (step self.old (command.SetRef name.now value)) }
    {
        laws::methods_fit();
        replied(self.state.set_ref(name, value))
    }

    /// Removes the last entry of the name, and appends its flat value, cast to this type; or
    /// returns `Nothing`.
    /// Errors: an allocation fails; nothing changes.
    #[inline(always)]
    pub fn remove(&mut self, name: &ImmutableString, kind: TypeId) -> Result<Answer, AllocError>
        ensures { Steps result self.old self.new (step self.old (command.Remove name.now kind)) }
    {
        laws::methods_fit();
        replied(self.state.remove(name, kind))
    }

    /// Adds the alias to the last entry of the name, unless it has it; an empty alias means the
    /// name.
    /// Errors: an allocation fails; nothing changes.
    #[inline(always)]
    pub fn set_alias(&mut self, name: &ImmutableString, alias: &str) -> Result<Answer, AllocError>
        ensures { Steps result self.old self.new (step self.old (command.SetAlias name.now (chars alias.now))) }
    {
        laws::methods_fit();
        replied(self.state.set_alias(name, alias))
    }

    /// Returns the aliases of the last entry of the name, each with a line feed.
    /// Errors: an allocation fails; nothing changes.
    #[inline(always)]
    pub fn aliases(&self, name: &ImmutableString) -> Result<Answer, AllocError>
        ensures { Steps result self.now self.now (step self.now (command.Aliases name.now)) }
    {
        replied(self.state.aliases(name))
    }
}
