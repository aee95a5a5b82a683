//! The variables of scripts, which outlive a run. An unfinished run owns them, and there are none
//! here.
ghost use Rattle.std.specs.Prelude.{◌≡◌};
ghost use Rattle.rhai_host.specs.Content.{content};
ghost use Rattle.rhai_host.specs.Engines.{AnswersBytes, AnswersValue, OnScripts};

use crate::answering::{seen_of, status_of, tell_bytes, tell_value, text_bytes, value_in};
use crate::handle::Handle;
use crate::perform::{CLOSED, DONE, NO_COMMAND, OUT_OF_MEMORY};
use crate::texts::text_in;
use crate::told::Told;
use rhai_run::Bytes;
use script_engine::Engine;
use std::alloc::{AllocError, Global};

fn declare(alloc: Global, engine: &mut Engine, name: &[u8], value: &[u8]) -> u32 {
    let Some(name) = text_in(name) else {
        return NO_COMMAND;
    };
    if engine.run().is_some() {
        return NO_COMMAND;
    }
    match value_in(alloc, value) {
        Ok(value) => match engine.scope_mut().push(name, value) {
            Ok(()) => DONE,
            Err(_) => OUT_OF_MEMORY,
        },
        Err(status) => status,
    }
}

/// Declares a variable after the others, with the value of these hash bytes.
#[unsafe(no_mangle)]
pub extern "C" fn rhai_host_variable_push(
    alloc: Global,
    handle: &mut Handle,
    name: &[u8],
    value: &[u8],
) -> u32
    ensures { OnScripts result (content handle.old) (content handle.new) }
{
    let Some(mut kept) = handle.take(alloc) else {
        return CLOSED;
    };
    let status = declare(alloc, &mut kept.engine, name, value);
    handle.put(kept);
    status
}

fn write(alloc: Global, engine: &mut Engine, number: usize, value: &[u8]) -> u32 {
    match value_in(alloc, value) {
        Ok(value) => status_of(Ok(engine.scope_mut().set(number, value))),
        Err(status) => status,
    }
}

/// Overwrites the variable of this number, the oldest being 0, with the value of these hash bytes.
/// If closures share the variable, they see the new value.
#[unsafe(no_mangle)]
pub extern "C" fn rhai_host_variable_set(
    alloc: Global,
    handle: &mut Handle,
    number: usize,
    value: &[u8],
) -> u32
    ensures { OnScripts result (content handle.old) (content handle.new) }
{
    let Some(mut kept) = handle.take(alloc) else {
        return CLOSED;
    };
    let status = write(alloc, &mut kept.engine, number, value);
    handle.put(kept);
    status
}

/// Drops the variables from this number on.
#[unsafe(no_mangle)]
pub extern "C" fn rhai_host_variable_rewind(alloc: Global, handle: &mut Handle, count: usize) -> u32
    ensures { OnScripts result (content handle.old) (content handle.new) }
{
    let Some(mut kept) = handle.take(alloc) else {
        return CLOSED;
    };
    kept.engine.scope_mut().rewind(count);
    handle.put(kept);
    DONE
}

/// Returns the number of variables, 0 if no world is open.
#[unsafe(no_mangle)]
pub extern "C" fn rhai_host_variable_count(alloc: Global, handle: &mut Handle) -> usize
    ensures { content handle.new ≡ content handle.old }
{
    let Some(kept) = handle.take(alloc) else {
        return 0;
    };
    let count = kept.engine.scope().len();
    handle.put(kept);
    count
}

fn name_bytes(alloc: Global, engine: &Engine, number: usize) -> Result<Option<Bytes>, AllocError> {
    match engine.scope().names().get(number) {
        Some(name) => text_bytes(alloc, name.as_str()),
        None => Ok(None),
    }
}

/// Returns the name of the variable of this number.
#[unsafe(no_mangle)]
pub extern "C" fn rhai_host_variable_name(
    alloc: Global,
    handle: &mut Handle,
    number: usize,
    told: &mut Told,
) -> u32
    ensures { AnswersBytes result (content handle.old) (content handle.new) told.old told.new }
{
    let Some(mut kept) = handle.take(alloc) else {
        return CLOSED;
    };
    let bytes = name_bytes(alloc, &kept.engine, number);
    let status = tell_bytes(&mut kept, bytes, told);
    handle.put(kept);
    status
}

/// Returns the value of the variable of this number, as `rhai_host_script_argument` does.
#[unsafe(no_mangle)]
pub extern "C" fn rhai_host_variable_value(
    alloc: Global,
    handle: &mut Handle,
    number: usize,
    told: &mut Told,
) -> u32
    ensures { AnswersValue result (content handle.old) (content handle.new) told.old told.new }
{
    let Some(mut kept) = handle.take(alloc) else {
        return CLOSED;
    };
    let variable = kept.engine.scope().get(number);
    let value = seen_of(alloc, variable, kept.engine.store());
    let status = tell_value(&mut kept, value, told);
    handle.put(kept);
    status
}
