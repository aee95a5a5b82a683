//! Commands that read a value.
ghost use Rattle.std.specs.Prelude.{◌≡◌, IfOk};
ghost use Rattle.std.specs.Str.{chars};
ghost use Rattle.rhai_show.specs.declared.form.Form.TheVariants.{Debug};
ghost use Rattle.rhai_run.specs.Ask.{asked};
ghost use Rattle.rhai_run.specs.declared.answer.Answer.TheVariants as answer;
ghost use Rattle.rhai_run.specs.Does.{Steps, Does};
ghost use Rattle.rhai_run.specs.declared.command.Command.TheVariants as command;
ghost use Rattle.rhai_run.specs.Step.{step};

use crate::answer::{Answer, Refusal, mismatch};
use crate::cast::is_value_of;
use crate::command::Question;
use crate::lists::Bytes;
use crate::not_done::NotDone;
use crate::world::{World, replied};
use crate::world_state::WorldState;
use rhai_show::{Shown, debug_text, display_text, hashed, is_hashable};
use rhai_value::Dynamic;
use std::alloc::{AllocError, Global};

impl WorldState {
    pub(crate) fn show(&self, i: usize) -> Result<Answer, NotDone>
        ensures { Does result self.now self.now (step self.now (command.Show i)) }
    {
        let text = display_text(self.alloc, self.value(i)?, &self.store)?;
        Ok(Answer::Text(Shown::from_text(text)))
    }

    pub(crate) fn debug(&self, i: usize) -> Result<Answer, NotDone>
        ensures { Does result self.now self.now (step self.now (command.Debug i)) }
    {
        let text = debug_text(self.alloc, self.value(i)?, &self.store)?;
        Ok(Answer::Text(Shown::from_text(text)))
    }

    pub(crate) fn hash(&self, i: usize) -> Result<Answer, NotDone>
        ensures { Does result self.now self.now (step self.now (command.Hash i)) }
    {
        match hashed(self.alloc, self.value(i)?, &self.store)? {
            None => Err(NotDone::Refused(Refusal::NotHashable)),
            Some(hashed) => Ok(Answer::Bytes(Bytes::new(hashed.into_bytes(self.alloc)?))),
        }
    }

    pub(crate) fn ask(&self, i: usize, question: &Question) -> Result<Answer, NotDone>
        ensures { Does result self.now self.now (step self.now (command.Ask i question.now)) }
    {
        self.answer_to(self.value(i)?, question)
    }

    fn answer_to(&self, value: &Dynamic, question: &Question) -> Result<Answer, NotDone>
        ensures { Does result self.now self.now (asked self.now value.now question.now) }
    {
        let s = &self.store;
        match question {
            Question::Tag => Ok(Answer::Int(i128::from(value.tag()))),
            Question::Variant => Ok(Answer::Bool(value.is_variant())),
            Question::Shared => Ok(Answer::Bool(value.is_shared())),
            Question::ReadOnly => Ok(Answer::Bool(value.is_read_only(s))),
            Question::Locked => Ok(Answer::Bool(value.is_locked(s))),
            Question::TypeName => Ok(text_answer(self.alloc, value.type_name(s))?),
            Question::Held(kind) => Ok(Answer::Bool(value.type_id(s) == *kind)),
            Question::Hashable => Ok(Answer::Bool(is_hashable(self.alloc, value, s)?)),
            Question::Is(kind) => Ok(Answer::Bool(is_value_of(value, s, *kind))),
            Question::Unit => {
                value.as_unit(s).map_err(mismatch)?;
                Ok(Answer::Done)
            }
            Question::Int => {
                let int = value.as_int(s).map_err(mismatch)?;
                Ok(Answer::Int(i128::from(int)))
            }
            Question::Bool => {
                let truth = value.as_bool(s).map_err(mismatch)?;
                Ok(Answer::Bool(truth))
            }
            Question::Char => {
                let character = value.as_char(s).map_err(mismatch)?;
                Ok(text_answer(self.alloc, character.encode_utf8(&mut [0; 4]))?)
            }
        }
    }
}

fn text_answer(alloc: Global, text: &str) -> Result<Answer, AllocError>
    ensures { IfOk result (λ a. a ≡ answer.Text (chars text.now)) }
{
    let text = String::from_str(alloc, text)?;
    Ok(Answer::Text(Shown::from_text(text)))
}

impl World {
    /// Answers a question about the value at the hand position.
    /// Errors: an allocation fails; nothing changes.
    #[inline(always)]
    pub fn ask(&self, i: usize, question: &Question) -> Result<Answer, AllocError>
        ensures { Steps result self.now self.now (step self.now (command.Ask i question.now)) }
    {
        replied(self.state.ask(i, question))
    }

    /// Returns the displayed text of the value at the hand position.
    /// Errors: an allocation fails; nothing changes.
    #[inline(always)]
    pub fn show(&self, i: usize) -> Result<Answer, AllocError>
        ensures { Steps result self.now self.now (step self.now (command.Show i)) }
    {
        replied(self.state.show(i))
    }

    /// Returns the debug text of the value at the hand position.
    /// Errors: an allocation fails; nothing changes.
    #[inline(always)]
    pub fn debug(&self, i: usize) -> Result<Answer, AllocError>
        ensures { Steps result self.now self.now (step self.now (command.Debug i)) }
    {
        replied(self.state.debug(i))
    }

    /// Returns the hash bytes of the value at the hand position.
    /// Errors: an allocation fails; nothing changes.
    #[inline(always)]
    pub fn hash(&self, i: usize) -> Result<Answer, AllocError>
        ensures { Steps result self.now self.now (step self.now (command.Hash i)) }
    {
        replied(self.state.hash(i))
    }
}
