//! A look at a paused or failed run: the active functions, and the visible variables of each.
ghost use Rattle.rhai_host.specs.Content.{content};
ghost use Rattle.rhai_host.specs.Engines.{AnswersBytes, AnswersValue, AreAnswered, OnScripts};

use crate::answering::{Seen, seen_of, tell_bytes, tell_value, text_bytes};
use crate::handle::Handle;
use crate::handle::kept::Kept;
use crate::perform::{CLOSED, DONE, NO_COMMAND, OUT_OF_MEMORY};
use crate::told::Told;
use rhai_run::Bytes;
use script_engine::{Engine, Unread};
use script_run::InSight;
use std::alloc::{AllocError, Global};

/// Returns the name of an active function, and reports where it is.
fn function_at(
    alloc: Global,
    engine: &Engine,
    number: usize,
    line: &mut usize,
    column: &mut usize,
) -> Result<Option<Bytes>, AllocError> {
    let (Some(program), Some(run)) = (engine.program(), engine.run()) else {
        return Ok(None);
    };
    let Some(frame) = run.frame(program, number) else {
        return Ok(None);
    };
    *line = frame.position.line() as usize;
    *column = frame.position.position() as usize;
    text_bytes(alloc, frame.name)
}

/// Returns the name of an active function, and reports where it is: number 0 runs, or failed, and
/// each is called by the next. The name is empty for the statements outside functions, and begins
/// with `anon$` for a closure. NO_COMMAND means that there is no such function.
#[unsafe(no_mangle)]
pub extern "C" fn rhai_host_script_function(
    alloc: Global,
    handle: &mut Handle,
    number: usize,
    line: &mut usize,
    column: &mut usize,
    told: &mut Told,
) -> u32
    ensures { AnswersBytes result (content handle.old) (content handle.new) told.old told.new }
{
    let Some(mut kept) = handle.take(alloc) else {
        return CLOSED;
    };
    let bytes = function_at(alloc, &kept.engine, number, line, column);
    let status = tell_bytes(&mut kept, bytes, told);
    handle.put(kept);
    status
}

/// Writes the notes on lines of `debug`, four numbers of eight bytes each, and drops them.
fn debug_bytes(alloc: Global, engine: &mut Engine) -> Result<Option<Bytes>, AllocError> {
    let mut bytes = Vec::new(alloc);
    for line in engine.debugs() {
        bytes.extend_from_slice(&(line.begin as u64).to_le_bytes())?;
        bytes.extend_from_slice(&(line.length as u64).to_le_bytes())?;
        bytes.extend_from_slice(&u64::from(line.position.line()).to_le_bytes())?;
        bytes.extend_from_slice(&u64::from(line.position.position()).to_le_bytes())?;
    }
    engine.forget_debugs();
    Ok(Some(Bytes::new(bytes)))
}

fn tell_debugs(alloc: Global, kept: &mut Kept, told: &mut Told) -> u32
    ensures { AreAnswered result kept.old kept.new told.old told.new }
{
    let bytes = debug_bytes(alloc, &mut kept.engine);
    tell_bytes(kept, bytes, told)
}

/// Returns which lines `debug` printed of those that the last stop reported, for each four numbers
/// of eight bytes: how many printed bytes are before it, how many it has with its line feed, and
/// the line and column of the call. Each is returned once. There are none before
/// `rhai_host_script_note_debugs`.
#[unsafe(no_mangle)]
pub extern "C" fn rhai_host_script_debugs(
    alloc: Global,
    handle: &mut Handle,
    told: &mut Told,
) -> u32
    ensures { AnswersBytes result (content handle.old) (content handle.new) told.old told.new }
{
    let Some(mut kept) = handle.take(alloc) else {
        return CLOSED;
    };
    let status = tell_debugs(alloc, &mut kept, told);
    handle.put(kept);
    status
}

/// Returns the newest visible variable of an active function before the one of this number.
fn variable_before(engine: &Engine, function: usize, before: usize) -> Option<InSight<'_, '_>> {
    match (engine.program(), engine.run()) {
        (Some(program), Some(run)) => run.variable(program, function, before),
        (None, _) | (_, None) => None,
    }
}

fn name_before(
    alloc: Global,
    engine: &Engine,
    function: usize,
    before: usize,
    number: &mut usize,
) -> Result<Option<Bytes>, AllocError> {
    match variable_before(engine, function, before) {
        Some(variable) => {
            *number = variable.number;
            text_bytes(alloc, variable.name)
        }
        None => Ok(None),
    }
}

/// Returns the name of the newest visible variable of an active function before the one of this
/// number, and reports its own number: starting from the largest number, each leads to the next.
/// NO_COMMAND means that there is none.
#[unsafe(no_mangle)]
pub extern "C" fn rhai_host_script_variable(
    alloc: Global,
    handle: &mut Handle,
    function: usize,
    before: usize,
    number: &mut usize,
    told: &mut Told,
) -> u32
    ensures { AnswersBytes result (content handle.old) (content handle.new) told.old told.new }
{
    let Some(mut kept) = handle.take(alloc) else {
        return CLOSED;
    };
    let bytes = name_before(alloc, &kept.engine, function, before, number);
    let status = tell_bytes(&mut kept, bytes, told);
    handle.put(kept);
    status
}

fn value_before(
    alloc: Global,
    engine: &Engine,
    function: usize,
    before: usize,
) -> Result<Option<Seen>, AllocError> {
    match variable_before(engine, function, before) {
        Some(variable) => seen_of(alloc, Some(variable.value), engine.store()),
        None => Ok(None),
    }
}

/// Returns the value of that variable, as `rhai_host_script_argument` does. NO_COMMAND means that
/// there is none, or that its value has no hash bytes.
#[unsafe(no_mangle)]
pub extern "C" fn rhai_host_script_variable_value(
    alloc: Global,
    handle: &mut Handle,
    function: usize,
    before: usize,
    told: &mut Told,
) -> u32
    ensures { AnswersValue result (content handle.old) (content handle.new) told.old told.new }
{
    let Some(mut kept) = handle.take(alloc) else {
        return CLOSED;
    };
    let value = value_before(alloc, &kept.engine, function, before);
    let status = tell_value(&mut kept, value, told);
    handle.put(kept);
    status
}

/// Replaces the variables by those of a snapshot without functions, with everything that they
/// share. A run ends, and functions that the host kept are freed. NO_COMMAND means that the bytes
/// are no such snapshot; the variables are unchanged then.
#[unsafe(no_mangle)]
pub extern "C" fn rhai_host_script_restore(alloc: Global, handle: &mut Handle, bytes: &[u8]) -> u32
    ensures { OnScripts result (content handle.old) (content handle.new) }
{
    let Some(mut kept) = handle.take(alloc) else {
        return CLOSED;
    };
    let status = match kept.engine.restore(bytes) {
        Ok(()) => DONE,
        Err(Unread::Form) => NO_COMMAND,
        Err(Unread::Memory) => OUT_OF_MEMORY,
    };
    handle.put(kept);
    status
}
