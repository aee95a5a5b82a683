//! Executes one command in the world of a handle.
ghost use Rattle.std.specs.Prelude.{◌≡◌, ◌<◌, ℕ, List, Option, None, option_map};
ghost use Rattle.std.specs.Fn.{FnOnceReturnsAtMut};
ghost use Rattle.rhai_host.specs.Content.{content};
ghost use Rattle.rhai_run.specs.Does.{Steps};
ghost use Rattle.rhai_run.specs.Outcome.{Outcome};
ghost use Rattle.rhai_run.specs.State.{State};
ghost use Rattle.rhai_run.specs.declared.command.Command.{Command};
ghost use Rattle.rhai_run.specs.declared.command.Command.TheVariants as command;
ghost use Rattle.rhai_run.specs.declared.command.Literal.{Literal};
ghost use Rattle.rhai_run.specs.declared.command.Place.{Place};
ghost use Rattle.rhai_host.specs.declared.handle.kept.Kept.{Kept};
ghost use Rattle.rhai_host.specs.Answers.{kept_answer, told_of};
ghost use Rattle.rhai_host.specs.Calls.{DoesOne, DoesOneIf, Performs, PerformsIf, Replies};
ghost use Rattle.rhai_host.specs.Methods.{Makes, MakesAt, MakesNamed, ReturnsAt, ReturnsNamed};
ghost use Rattle.rhai_host.specs.Names.{name_at, place_at};
ghost use Rattle.rhai_host.specs.declared.told.Told.{Told};

use crate::handle::Handle;
use crate::handle::kept::Kept;
use crate::names::place_in;
use crate::told::{Told, told_of};
use rhai_run::{Answer, PlaceRef, World};
use rhai_text::ImmutableString;
use std::alloc::{AllocError, Global};

/// The command is done.
pub(crate) const DONE: u32 = 0;
/// An allocation failed, and nothing has changed.
pub(crate) const OUT_OF_MEMORY: u32 = 1;
/// No world is open.
pub(crate) const CLOSED: u32 = 2;
/// The input is not a command.
pub(crate) const NO_COMMAND: u32 = 3;
/// An allocation for the command's operands failed, and nothing has changed.
pub(crate) const NO_ROOM: u32 = 4;

/// Reports an answer in numbers, and keeps the rest of it. Not inlined, so that the calls that
/// succeed most often are short.
#[inline(never)]
pub(crate) fn keep(last: &mut Answer, answer: Answer, told: &mut Told)
    ensures kept { last.new ≡ kept_answer last.old answer }
    ensures told { told.new ≡ told_of answer }
{
    *told = told_of(&answer);
    match answer {
        Answer::Text(text) => *last = Answer::Text(text),
        Answer::Bytes(bytes) => *last = Answer::Bytes(bytes),
        Answer::Refused(why) => *last = Answer::Refused(why),
        Answer::Done | Answer::Bool(_) | Answer::Int(_) | Answer::Pair(_, _) | Answer::Nothing => {}
    }
}

/// The return value of a method of the world. It is the result of a command; only its
/// implementation knows that it is one, so that methods can be passed as closures.
pub(crate) trait Reply {
    ghost use Rattle.rhai_run.specs.Outcome.{Outcome};
    ghost use Rattle.rhai_run.specs.State.{State};

    /// That it is the value for this outcome of a command, returned by a method that leads from one
    /// state to another.
    ghost is_for: { Self → State → State → Outcome → Type 0 };

    /// Reports it in numbers, and keeps the rest of it.
    fn tell(self, last: &mut Answer, told: &mut Told) -> u32
        ensures { (w v : State) (o : Outcome) → is_for self w v o → Replies result w v last.old last.new told.old told.new o };
}

impl Reply for Result<Answer, AllocError> {
    ghost is_for = { Steps };

    #[inline(always)]
    fn tell(self, last: &mut Answer, told: &mut Told) -> u32 {
        match self {
            Ok(Answer::Done) => {
                *told = told_of(&Answer::Done);
                DONE
            }
            Ok(Answer::Int(n)) => {
                *told = told_of(&Answer::Int(n));
                DONE
            }
            Ok(answer) => {
                keep(last, answer, told);
                DONE
            }
            Err(_) => OUT_OF_MEMORY,
        }
    }
}

/// Calls a method of the world in these contents.
#[inline(always)]
fn perform_in<R: Reply, F: FnOnce(&mut World) -> R>(
    kept: &mut Kept,
    told: &mut Told,
    call: F,
) -> u32
    requires { F.IsAlwaysCallable call }
    ensures { (c : Command) → Makes R.is_for (FnOnceReturnsAtMut F.FnOnce call) c → DoesOne result kept.old kept.new told.old told.new c }
{
    let done = call(&mut kept.world);
    done.tell(&mut kept.answer, told)
}

/// Calls a method of the world with the name of a number.
#[inline(always)]
fn named_in<R: Reply, F: FnOnce(&mut World, &ImmutableString) -> R>(
    kept: &mut Kept,
    number: usize,
    told: &mut Told,
    call: F,
) -> u32
    requires { F.IsAlwaysCallable call }
    ensures { (c : List ℕ → Command) → MakesNamed R.is_for (ReturnsNamed (F.post call)) c
        → DoesOneIf result kept.old kept.new told.old told.new (option_map c (name_at kept.old number)) }
{
    let Some(name) = kept.names.get(number) else {
        return NO_COMMAND;
    };
    let done = call(&mut kept.world, name);
    done.tell(&mut kept.answer, told)
}

/// Calls a method of the world with a place.
#[inline(always)]
fn placed_in<R: Reply, F: FnOnce(&mut World, PlaceRef<'_>) -> R>(
    kept: &mut Kept,
    is_entry: bool,
    at: usize,
    told: &mut Told,
    call: F,
) -> u32
    requires { F.IsAlwaysCallable call }
    ensures { (c : Place → Command) → MakesAt R.is_for (ReturnsAt (F.post call)) c
        → DoesOneIf result kept.old kept.new told.old told.new (option_map c (place_at kept.old is_entry at)) }
{
    let Some(place) = place_in(&kept.names, is_entry, at) else {
        return NO_COMMAND;
    };
    let done = call(&mut kept.world, place);
    done.tell(&mut kept.answer, told)
}

/// Calls a method of the world, if one is open.
#[inline(always)]
pub(crate) fn perform<R: Reply, F: FnOnce(&mut World) -> R>(
    alloc: Global,
    handle: &mut Handle,
    told: &mut Told,
    call: F,
) -> u32
    requires { F.IsAlwaysCallable call }
    ensures { (c : Command) → Makes R.is_for (FnOnceReturnsAtMut F.FnOnce call) c → Performs result (content handle.old) (content handle.new) told.old told.new c }
{
    let Some(mut kept) = handle.take(alloc) else {
        return CLOSED;
    };
    let status = perform_in(&mut kept, told, call);
    handle.put(kept);
    status
}

/// As `perform`, with the name of a number.
#[inline(always)]
pub(crate) fn perform_named<R: Reply, F: FnOnce(&mut World, &ImmutableString) -> R>(
    alloc: Global,
    handle: &mut Handle,
    number: usize,
    told: &mut Told,
    call: F,
) -> u32
    requires { F.IsAlwaysCallable call }
    ensures { (c : List ℕ → Command) → MakesNamed R.is_for (ReturnsNamed (F.post call)) c
        → PerformsIf result (content handle.old) (content handle.new) told.old told.new (λ k. option_map c (name_at k number)) }
{
    let Some(mut kept) = handle.take(alloc) else {
        return CLOSED;
    };
    let status = named_in(&mut kept, number, told, call);
    handle.put(kept);
    status
}

/// As `perform`, with a place: a hand position, or the newest entry with the name of a number.
#[inline(always)]
pub(crate) fn perform_at<R: Reply, F: FnOnce(&mut World, PlaceRef<'_>) -> R>(
    alloc: Global,
    handle: &mut Handle,
    is_entry: bool,
    at: usize,
    told: &mut Told,
    call: F,
) -> u32
    requires { F.IsAlwaysCallable call }
    ensures { (c : Place → Command) → MakesAt R.is_for (ReturnsAt (F.post call)) c
        → PerformsIf result (content handle.old) (content handle.new) told.old told.new (λ k. option_map c (place_at k is_entry at)) }
{
    let Some(mut kept) = handle.take(alloc) else {
        return CLOSED;
    };
    let status = placed_in(&mut kept, is_entry, at, told, call);
    handle.put(kept);
    status
}

/// Returns that there is no command.
pub(crate) fn no_command(handle: &Handle) -> u32
    ensures said { (told : Told) → PerformsIf result (content handle.now) (content handle.now) told told (λ _. None) }
    ensures status { result < 4 }
{
    if handle.is_open() { NO_COMMAND } else { CLOSED }
}

/// Returns that the allocation of a new value failed.
pub(crate) fn out_of_memory(handle: &Handle) -> u32
    ensures put { (told : Told) (l : Literal) → Performs result (content handle.now) (content handle.now) told told (command.Put l) }
{
    if handle.is_open() {
        OUT_OF_MEMORY
    } else {
        CLOSED
    }
}
