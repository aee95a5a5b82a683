//! Commands that put values into the hand, and move them within it.
ghost use Rattle.rhai_run.specs.Does.{Steps, Does};
ghost use Rattle.rhai_run.specs.declared.command.Command.TheVariants as command;
ghost use Rattle.rhai_run.specs.Step.{step};

use crate::answer::{Answer, Refusal, mismatch};
use crate::cast::cast_to;
use crate::command::Literal;
use crate::laws;
use crate::lists::Names;
use crate::maps::{map_of_keys, move_to_keys};
use crate::not_done::NotDone;
use crate::vectors::{replace_at, take_last};
use crate::world::{World, replied};
use crate::world_state::WorldState;
use rhai_text::ImmutableString;
use rhai_value::{Dynamic, FnPtr, TypeId};
use std::alloc::AllocError;

impl WorldState {
    pub(crate) fn put(&mut self, literal: &Literal) -> Result<Answer, NotDone>
        ensures { Does result self.old self.new (step self.old (command.Put literal.now)) }
    {
        self.hand.reserve(1)?;
        // most are ints: built together with the other cases, an int would be assembled from pieces
        // (`apply_put_copy_drop`)
        if let Literal::Int(value) = literal {
            self.hand.push_reserved(Dynamic::from_int(*value));
            return Ok(Answer::Done);
        }
        self.hand.push_reserved(match literal {
            Literal::Unit => Dynamic::UNIT,
            Literal::Bool(value) => Dynamic::from_bool(*value),
            Literal::Int(value) => Dynamic::from_int(*value),
            Literal::Char(value) => Dynamic::from_char(*value),
            Literal::Text(text) => Dynamic::from(text.copy(self.alloc)?),
            Literal::Blob(bytes) => Dynamic::from_blob(Vec::from_slice(
                self.alloc,
                bytes.as_slice(),
            )?),
            Literal::Host(host) => Dynamic::from(*host),
            Literal::Range(range) => Dynamic::from(*range),
            Literal::RangeEq(range) => Dynamic::from(*range),
        });
        Ok(Answer::Done)
    }

    pub(crate) fn make_array(&mut self, n: usize) -> Result<Answer, NotDone>
        ensures { Does result self.old self.new (step self.old (command.MakeArray n)) }
    {
        self.has_values(n)?;
        let items = take_last(&mut self.hand, n)?;
        self.hand.push_reserved(Dynamic::from_array(items));
        Ok(Answer::Done)
    }

    pub(crate) fn make_map(&mut self, keys: &Names) -> Result<Answer, NotDone>
        ensures { Does result self.old self.new (step self.old (command.MakeMap keys.now)) }
    {
        let keys = keys.as_slice();
        self.has_values(keys.len())?;
        let mut map = map_of_keys(self.alloc, keys)?;
        let values = take_last(&mut self.hand, keys.len())?;
        move_to_keys(&mut map, keys, values);
        self.hand.push_reserved(Dynamic::from_map(map));
        Ok(Answer::Done)
    }

    pub(crate) fn make_fn(&mut self, name: &ImmutableString, n: usize) -> Result<Answer, NotDone>
        ensures { Does result self.old self.new (step self.old (command.MakeFn name.now n)) }
    {
        self.has_values(n)?;
        let name = name.copy(self.alloc)?;
        let curry = take_last(&mut self.hand, n)?;
        self.hand
            .push_reserved(Dynamic::from(FnPtr::new(name, curry)));
        Ok(Answer::Done)
    }

    pub(crate) fn copy(&mut self, i: usize) -> Result<Answer, NotDone>
        ensures { Does result self.old self.new (step self.old (command.Copy i)) }
    {
        self.value(i)?;
        self.hand.reserve(1)?;
        let value = self.hand[i].copy(self.alloc)?;
        self.hand.push_reserved(value);
        Ok(Answer::Done)
    }

    pub(crate) fn flatten_clone(&mut self, i: usize) -> Result<Answer, NotDone>
        ensures { Does result self.old self.new (step self.old (command.FlattenClone i)) }
    {
        self.value(i)?;
        self.hand.reserve(1)?;
        let value = self.hand[i].flatten_clone(self.alloc, &self.store)?;
        self.hand.push_reserved(value);
        Ok(Answer::Done)
    }

    pub(crate) fn cast(&mut self, i: usize, kind: TypeId) -> Result<Answer, NotDone>
        ensures { Does result self.old self.new (step self.old (command.Cast i kind)) }
    {
        let value = self.value(i)?;
        match cast_to(value, self.alloc, &self.store, kind)? {
            Some(value) => self.append(value),
            None => Err(NotDone::Refused(mismatch(value.type_name(&self.store)))),
        }
    }

    pub(crate) fn take(&mut self, i: usize) -> Result<Answer, NotDone>
        ensures { Does result self.old self.new (step self.old (command.Take i)) }
    {
        self.value(i)?;
        self.hand.reserve(1)?;
        let value = replace_at(&mut self.hand, i, Dynamic::UNIT);
        self.hand.push_reserved(value);
        Ok(Answer::Done)
    }

    pub(crate) fn drop_last(&mut self) -> Result<Answer, NotDone>
        ensures { Does result self.old self.new (step self.old command.Drop) }
    {
        let len = self.hand.len();
        if len == 0 {
            return Err(NotDone::Refused(Refusal::NoValue));
        }
        // dropped in place: a popped value is moved first
        self.hand.truncate(len - 1);
        Ok(Answer::Done)
    }
}

impl World {
    /// Appends a new value.
    /// Errors: an allocation fails; nothing changes.
    #[inline(always)]
    pub fn put(&mut self, literal: &Literal) -> Result<Answer, AllocError>
        ensures { Steps result self.old self.new (step self.old (command.Put literal.now)) }
    {
        laws::methods_fit();
        replied(self.state.put(literal))
    }

    /// Removes this many values from the end of the hand, and appends the array of them in order.
    /// Errors: an allocation fails; nothing changes.
    #[inline(always)]
    pub fn make_array(&mut self, n: usize) -> Result<Answer, AllocError>
        ensures { Steps result self.old self.new (step self.old (command.MakeArray n)) }
    {
        laws::methods_fit();
        replied(self.state.make_array(n))
    }

    /// Removes as many values from the end of the hand as there are keys, and appends the map of
    /// the keys to those in order; for equal keys the last value is kept.
    /// Errors: an allocation fails; nothing changes.
    #[inline(always)]
    pub fn make_map(&mut self, keys: &Names) -> Result<Answer, AllocError>
        ensures { Steps result self.old self.new (step self.old (command.MakeMap keys.now)) }
    {
        laws::methods_fit();
        replied(self.state.make_map(keys))
    }

    /// Removes this many values from the end of the hand, and appends the function pointer of the
    /// name with these curried in order.
    /// Errors: an allocation fails; nothing changes.
    #[inline(always)]
    pub fn make_fn(&mut self, name: &ImmutableString, n: usize) -> Result<Answer, AllocError>
        ensures { Steps result self.old self.new (step self.old (command.MakeFn name.now n)) }
    {
        laws::methods_fit();
        replied(self.state.make_fn(name, n))
    }

    /// Appends a copy of the value at the hand position.
    /// Errors: an allocation fails; nothing changes.
    #[inline(always)]
    pub fn copy(&mut self, i: usize) -> Result<Answer, AllocError>
        ensures { Steps result self.old self.new (step self.old (command.Copy i)) }
    {
        laws::methods_fit();
        replied(self.state.copy(i))
    }

    /// Moves the value at the hand position to the end, and leaves unit.
    /// Errors: an allocation fails; nothing changes.
    #[inline(always)]
    pub fn take(&mut self, i: usize) -> Result<Answer, AllocError>
        ensures { Steps result self.old self.new (step self.old (command.Take i)) }
    {
        laws::methods_fit();
        replied(self.state.take(i))
    }

    /// Drops the last value.
    /// Errors: none; it allocates nothing.
    #[inline(always)]
    pub fn drop_last(&mut self) -> Result<Answer, AllocError>
        ensures { Steps result self.old self.new (step self.old command.Drop) }
    {
        laws::methods_fit();
        replied(self.state.drop_last())
    }

    /// Appends a flat copy of the value at the hand position.
    /// Errors: an allocation fails; nothing changes.
    #[inline(always)]
    pub fn flatten_clone(&mut self, i: usize) -> Result<Answer, AllocError>
        ensures { Steps result self.old self.new (step self.old (command.FlattenClone i)) }
    {
        laws::methods_fit();
        replied(self.state.flatten_clone(i))
    }

    /// Appends a flat copy of the value at the hand position, cast to this type.
    /// Errors: an allocation fails; nothing changes.
    #[inline(always)]
    pub fn cast(&mut self, i: usize, kind: TypeId) -> Result<Answer, AllocError>
        ensures { Steps result self.old self.new (step self.old (command.Cast i kind)) }
    {
        laws::methods_fit();
        replied(self.state.cast(i, kind))
    }
}
