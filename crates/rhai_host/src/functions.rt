//! Functions of scripts that the host keeps, each by a number: they can be called while a host
//! function is being called, or once a script's body is done.
ghost use Rattle.rhai_host.specs.Content.{content};
ghost use Rattle.rhai_host.specs.Engines.{AnswersValue, KeepsWorld, OnScripts};

use crate::answering::{arguments_in, seen_of, status_of, tell_value, value_in};
use crate::engine::{ScriptStop, tell_step, tell_stop};
use crate::handle::Handle;
use crate::handle::kept::Kept;
use crate::perform::{CLOSED, DONE, NO_COMMAND, OUT_OF_MEMORY};
use crate::texts::text_in;
use crate::told::Told;
use rhai_text::Position;
use script_engine::Engine;
use std::alloc::{AllocError, Global};

fn keep(engine: &mut Engine, source: u32, at: usize, number: &mut usize) -> u32 {
    let kept = match source {
        0 => engine.keep_argument(at),
        1 => engine.keep_value(),
        2 => engine.keep_variable(at),
        3.. => return NO_COMMAND,
    };
    tell_kept(kept, number)
}

fn keep_named(engine: &mut Engine, name: &[u8], number: &mut usize) -> u32 {
    match text_in(name) {
        Some(name) => tell_kept(engine.keep_named(name), number),
        None => NO_COMMAND,
    }
}

/// Reports the number of a kept function.
fn tell_kept(kept: Result<Option<usize>, AllocError>, number: &mut usize) -> u32 {
    match kept {
        Ok(Some(found)) => {
            *number = found;
            DONE
        }
        Ok(None) => NO_COMMAND,
        Err(_) => OUT_OF_MEMORY,
    }
}

/// Keeps a function of a script, with the cells that it captured, and reports its number: the
/// function in an argument of the host function being called (source 0), the value that the run or
/// a call within it has just returned (source 1), or the function in a variable (source 2).
/// NO_COMMAND means that there is no function.
#[unsafe(no_mangle)]
pub extern "C" fn rhai_host_function_keep(
    alloc: Global,
    handle: &mut Handle,
    source: u32,
    at: usize,
    number: &mut usize,
) -> u32
    ensures { OnScripts result (content handle.old) (content handle.new) }
{
    let Some(mut kept) = handle.take(alloc) else {
        return CLOSED;
    };
    let status = keep(&mut kept.engine, source, at, number);
    handle.put(kept);
    status
}

/// Keeps a pointer to the function with this name, whether a script has one or not, and reports its
/// number. NO_COMMAND means that the bytes are not a text.
#[unsafe(no_mangle)]
pub extern "C" fn rhai_host_function_of(
    alloc: Global,
    handle: &mut Handle,
    name: &[u8],
    number: &mut usize,
) -> u32
    ensures { OnScripts result (content handle.old) (content handle.new) }
{
    let Some(mut kept) = handle.take(alloc) else {
        return CLOSED;
    };
    let status = keep_named(&mut kept.engine, name, number);
    handle.put(kept);
    status
}

/// Frees the kept function of this number, which another one may get. NO_COMMAND means that there
/// is none.
#[unsafe(no_mangle)]
pub extern "C" fn rhai_host_function_let_go(
    alloc: Global,
    handle: &mut Handle,
    number: usize,
) -> u32
    ensures { OnScripts result (content handle.old) (content handle.new) }
{
    let Some(mut kept) = handle.take(alloc) else {
        return CLOSED;
    };
    let status = status_of(Ok(kept.engine.let_go(number)));
    handle.put(kept);
    status
}

/// Returns the hash bytes of the kept function of this number: its name, and its curried values.
#[unsafe(no_mangle)]
pub extern "C" fn rhai_host_function_value(
    alloc: Global,
    handle: &mut Handle,
    number: usize,
    told: &mut Told,
) -> u32
    ensures { AnswersValue result (content handle.old) (content handle.new) told.old told.new }
{
    let Some(mut kept) = handle.take(alloc) else {
        return CLOSED;
    };
    let value = seen_of(alloc, kept.engine.kept(number), kept.engine.store());
    let status = tell_value(&mut kept, value, told);
    handle.put(kept);
    status
}

/// Passes the kept function of this number to the script, as the result of the host function being
/// called. NO_COMMAND means that none is being called, or that there is no such kept function.
#[unsafe(no_mangle)]
pub extern "C" fn rhai_host_function_answer(
    alloc: Global,
    handle: &mut Handle,
    number: usize,
) -> u32
    ensures { OnScripts result (content handle.old) (content handle.new) }
{
    let Some(mut kept) = handle.take(alloc) else {
        return CLOSED;
    };
    let status = status_of(kept.engine.answer_kept(number));
    handle.put(kept);
    status
}

fn change(alloc: Global, engine: &mut Engine, value: &[u8]) -> u32 {
    match value_in(alloc, value) {
        Ok(value) => status_of(Ok(engine.change(value))),
        Err(status) => status,
    }
}

/// Replaces the first argument of the host function being called by the value of these hash bytes.
/// If the function was compiled with ` mut`, the place that the argument came from has the new
/// value once the function has returned. NO_COMMAND means that no host function is being called, or
/// that it has no arguments.
#[unsafe(no_mangle)]
pub extern "C" fn rhai_host_script_change(alloc: Global, handle: &mut Handle, value: &[u8]) -> u32
    ensures { OnScripts result (content handle.old) (content handle.new) }
{
    let Some(mut kept) = handle.take(alloc) else {
        return CLOSED;
    };
    let status = change(alloc, &mut kept.engine, value);
    handle.put(kept);
    status
}

fn call(alloc: Global, engine: &mut Engine, number: usize, arguments: &[u8]) -> u32 {
    match arguments_in(alloc, arguments) {
        Ok(mut arguments) => status_of(engine.call_kept(number, &mut arguments)),
        Err(status) => status,
    }
}

/// Starts a call of a kept function with these arguments: the hash bytes of an array of them. While
/// a host function is being called, the run continues to a stop of kind 7 or 8, after which that
/// call is open as before, or of kind 0, by `exit`, after which it is not. Otherwise the script's
/// body has to be done, and no call may be open. NO_COMMAND means that neither is the case, or that
/// no such function takes this many arguments.
#[unsafe(no_mangle)]
pub extern "C" fn rhai_host_function_call(
    alloc: Global,
    handle: &mut Handle,
    number: usize,
    arguments: &[u8],
) -> u32
    ensures { OnScripts result (content handle.old) (content handle.new) }
{
    let Some(mut kept) = handle.take(alloc) else {
        return CLOSED;
    };
    let status = call(alloc, &mut kept.engine, number, arguments);
    handle.put(kept);
    status
}

fn throw(alloc: Global, kept: &mut Kept, value: &[u8], stop: &mut ScriptStop) -> u32
    ensures { KeepsWorld kept.old kept.new }
{
    let value = match value_in(alloc, value) {
        Ok(value) => value,
        Err(status) => return status,
    };
    match kept.engine.throw(value) {
        Some(step) => tell_step(alloc, kept, stop, step),
        None => tell_stop(kept, stop, 1, Position::NONE, ""),
    }
    DONE
}

/// Fails the call of the host function with the value of these hash bytes, as if the script had
/// thrown it: the script may catch it and continues then, and the stop is of kind 1.
#[unsafe(no_mangle)]
pub extern "C" fn rhai_host_script_throw(
    alloc: Global,
    handle: &mut Handle,
    value: &[u8],
    stop: &mut ScriptStop,
) -> u32
    ensures { OnScripts result (content handle.old) (content handle.new) }
{
    let Some(mut kept) = handle.take(alloc) else {
        return CLOSED;
    };
    let status = throw(alloc, &mut kept, value, stop);
    handle.put(kept);
    status
}
