//! What a run that waits for a host function has to offer, and what the host returns.
ghost use Rattle.std.specs.Prelude.{◌≡◌};
ghost use Rattle.rhai_host.specs.Content.{content};
ghost use Rattle.rhai_host.specs.Engines.{AnswersValue, AreAnswered, IsReported, KeepsWorld, OnScripts};

use crate::engine::{ScriptStop, tell_step, tell_stop};
use crate::handle::Handle;
use crate::handle::kept::Kept;
use crate::perform::{CLOSED, DONE, NO_COMMAND, OUT_OF_MEMORY};
use crate::texts::text_in;
use crate::told::{Told, told_of};
use rhai_run::{Answer, Bytes};
use rhai_show::hashed;
use rhai_text::Position;
use rhai_value::{Array, Dynamic, INT, Store, Union};
use script_engine::{Engine, Unread, read_array, read_value};
use std::alloc::{AllocError, Global};

/// A value that crosses in numbers.
#[derive(Clone, Copy)]
pub(crate) enum Scalar {
    Unit,
    Bool(bool),
    Int(INT),
}

/// Returns a value that crosses in numbers; `None` if it doesn't.
pub(crate) fn scalar_of(value: &Dynamic) -> Option<Scalar> {
    match value.parts() {
        Union::Unit(_, _, _) => Some(Scalar::Unit),
        Union::Bool(_, _, truth) => Some(Scalar::Bool(*truth)),
        Union::Int(_, _, number) => Some(Scalar::Int(*number)),
        Union::Str(_, _, _)
        | Union::Char(_, _, _)
        | Union::Blob(_, _, _)
        | Union::Array(_, _, _)
        | Union::Map(_, _, _)
        | Union::FnPtr(_, _, _)
        | Union::Variant(_, _, _)
        | Union::Shared(_, _, _) => None,
    }
}

/// A value as a host reads it: in numbers, or else as its hash bytes.
#[derive(Drop)]
pub(crate) enum Seen {
    Scalar(Scalar),
    Bytes(Bytes),
}

/// Returns a value as a host reads it; `None` if there is no value, or if it has no hash bytes.
pub(crate) fn seen_of(
    alloc: Global,
    value: Option<&Dynamic>,
    store: &Store,
) -> Result<Option<Seen>, AllocError> {
    let Some(value) = value else {
        return Ok(None);
    };
    if let Some(scalar) = scalar_of(value) {
        return Ok(Some(Seen::Scalar(scalar)));
    }
    match hashed(alloc, value, store)? {
        Some(hashed) => Ok(Some(Seen::Bytes(Bytes::new(hashed.into_bytes(alloc)?)))),
        None => Ok(None),
    }
}

/// Reports a value.
pub(crate) fn tell_value(
    kept: &mut Kept,
    value: Result<Option<Seen>, AllocError>,
    told: &mut Told,
) -> u32
    ensures { IsReported result kept.old kept.new told.old told.new }
{
    match value {
        Ok(Some(Seen::Scalar(Scalar::Unit))) => {
            *told = told_of(&Answer::Done);
            DONE
        }
        Ok(Some(Seen::Scalar(Scalar::Bool(truth)))) => {
            *told = told_of(&Answer::Bool(truth));
            DONE
        }
        Ok(Some(Seen::Scalar(Scalar::Int(number)))) => {
            *told = told_of(&Answer::Int(i128::from(number)));
            DONE
        }
        Ok(Some(Seen::Bytes(bytes))) => tell_bytes(kept, Ok(Some(bytes)), told),
        Ok(None) => NO_COMMAND,
        Err(_) => OUT_OF_MEMORY,
    }
}

/// Keeps bytes as the answer.
pub(crate) fn tell_bytes(
    kept: &mut Kept,
    bytes: Result<Option<Bytes>, AllocError>,
    told: &mut Told,
) -> u32
    ensures { AreAnswered result kept.old kept.new told.old told.new }
{
    match bytes {
        Ok(Some(bytes)) => {
            let answer = Answer::Bytes(bytes);
            *told = told_of(&answer);
            kept.answer = answer;
            DONE
        }
        Ok(None) => NO_COMMAND,
        Err(_) => OUT_OF_MEMORY,
    }
}

/// Returns the bytes of a text.
pub(crate) fn text_bytes(alloc: Global, text: &str) -> Result<Option<Bytes>, AllocError> {
    let mut bytes = Vec::new(alloc);
    bytes.extend_from_slice(text.as_bytes())?;
    Ok(Some(Bytes::new(bytes)))
}

/// Returns an argument of the host function being called: unit, a boolean and an int as they are,
/// and others as their hash bytes.
#[unsafe(no_mangle)]
pub extern "C" fn rhai_host_script_argument(
    alloc: Global,
    handle: &mut Handle,
    number: usize,
    told: &mut Told,
) -> u32
    ensures { AnswersValue result (content handle.old) (content handle.new) told.old told.new }
{
    let Some(mut kept) = handle.take(alloc) else {
        return CLOSED;
    };
    let argument = match kept.engine.run() {
        Some(run) => run.argument(number),
        None => None,
    };
    let value = seen_of(alloc, argument, kept.engine.store());
    let status = tell_value(&mut kept, value, told);
    handle.put(kept);
    status
}

/// Returns the run's value, as `rhai_host_script_argument` does.
#[unsafe(no_mangle)]
pub extern "C" fn rhai_host_script_value(alloc: Global, handle: &mut Handle, told: &mut Told) -> u32
    ensures { AnswersValue result (content handle.old) (content handle.new) told.old told.new }
{
    let Some(mut kept) = handle.take(alloc) else {
        return CLOSED;
    };
    let value = seen_of(alloc, Some(kept.engine.value()), kept.engine.store());
    let status = tell_value(&mut kept, value, told);
    handle.put(kept);
    status
}

/// Reads a value from its hash bytes.
/// Errors: the status that says why there is none.
pub(crate) fn value_in(alloc: Global, bytes: &[u8]) -> Result<Dynamic, u32> {
    match read_value(alloc, bytes) {
        Ok(value) => Ok(value),
        Err(why) => Err(status_of_unread(why)),
    }
}

/// Reads the arguments of a call from the hash bytes of an array of them.
/// Errors: the status that says why there are none.
pub(crate) fn arguments_in(alloc: Global, bytes: &[u8]) -> Result<Array, u32> {
    match read_array(alloc, bytes) {
        Ok(arguments) => Ok(arguments),
        Err(why) => Err(status_of_unread(why)),
    }
}

fn status_of_unread(why: Unread) -> u32 {
    match why {
        Unread::Form => NO_COMMAND,
        Unread::Memory => OUT_OF_MEMORY,
    }
}

/// Returns the status of what may not be possible now.
pub(crate) fn status_of(done: Result<bool, AllocError>) -> u32 {
    match done {
        Ok(true) => DONE,
        Ok(false) => NO_COMMAND,
        Err(_) => OUT_OF_MEMORY,
    }
}

fn answer(alloc: Global, engine: &mut Engine, bytes: &[u8]) -> u32 {
    match value_in(alloc, bytes) {
        Ok(value) => status_of(engine.answer(value)),
        Err(status) => status,
    }
}

/// Passes the value of these hash bytes to the script, as the result of the host function being
/// called.
#[unsafe(no_mangle)]
pub extern "C" fn rhai_host_script_answer(alloc: Global, handle: &mut Handle, value: &[u8]) -> u32
    ensures { OnScripts result (content handle.old) (content handle.new) }
{
    let Some(mut kept) = handle.take(alloc) else {
        return CLOSED;
    };
    let status = answer(alloc, &mut kept.engine, value);
    handle.put(kept);
    status
}

/// Makes unit (kind 0), a boolean (1, true unless the number is 0) or an int (2); `None` for other
/// kinds.
pub(crate) fn number_in(kind: u32, number: i64) -> Option<Dynamic> {
    match kind {
        0 => Some(Dynamic::UNIT),
        1 => Some(Dynamic::from_bool(number != 0)),
        2 => Some(Dynamic::from_int(number)),
        _ => None,
    }
}

fn answer_and_go(
    alloc: Global,
    kept: &mut Kept,
    answer: Dynamic,
    operations: u64,
    stop: &mut ScriptStop,
) -> u32
    ensures { KeepsWorld kept.old kept.new }
{
    match kept.engine.answer(answer) {
        Ok(true) => {
            let step = kept.engine.go(operations);
            tell_step(alloc, kept, stop, step);
            DONE
        }
        Ok(false) => NO_COMMAND,
        Err(_) => OUT_OF_MEMORY,
    }
}

/// Passes unit (kind 0), a boolean (1, true unless the number is 0) or an int (2) to the script,
/// as the result of the host function being called, and continues the run for at most this many
/// operations.
#[unsafe(no_mangle)]
pub extern "C" fn rhai_host_script_answer_and_go(
    alloc: Global,
    handle: &mut Handle,
    kind: u32,
    number: i64,
    operations: u64,
    stop: &mut ScriptStop,
) -> u32
    ensures { OnScripts result (content handle.old) (content handle.new) }
{
    let Some(mut kept) = handle.take(alloc) else {
        return CLOSED;
    };
    let status = match number_in(kind, number) {
        Some(answer) => answer_and_go(alloc, &mut kept, answer, operations, stop),
        None => NO_COMMAND,
    };
    handle.put(kept);
    status
}

fn refuse(alloc: Global, kept: &mut Kept, why: &[u8], stop: &mut ScriptStop) -> u32
    ensures { KeepsWorld kept.old kept.new }
{
    let Some(why) = text_in(why) else {
        return NO_COMMAND;
    };
    match kept.engine.refuse(why) {
        Some(step) => tell_step(alloc, kept, stop, step),
        None => tell_stop(kept, stop, 1, Position::NONE, ""),
    }
    DONE
}

/// Fails the call of the host function with a text, which the script may catch: it continues then,
/// and the stop is of kind 1.
#[unsafe(no_mangle)]
pub extern "C" fn rhai_host_script_refuse(
    alloc: Global,
    handle: &mut Handle,
    why: &[u8],
    stop: &mut ScriptStop,
) -> u32
    ensures { OnScripts result (content handle.old) (content handle.new) }
{
    let Some(mut kept) = handle.take(alloc) else {
        return CLOSED;
    };
    let status = refuse(alloc, &mut kept, why, stop);
    handle.put(kept);
    status
}
