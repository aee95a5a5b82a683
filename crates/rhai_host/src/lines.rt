//! Commands as lines, runs over lines, and journals.
ghost use Rattle.std.specs.Prelude.{◌≡◌, ◌<◌, IfOk, OnErr, length};
ghost use Rattle.rhai_host.specs.Content.{content};
ghost use Rattle.rhai_lines.specs.Verbs.{command_of};
ghost use Rattle.rhai_lines.specs.Memory.{TakesMemory};
ghost use Rattle.rhai_host.specs.Calls.{DoesOne, DoesOneMade, PerformsMade};
ghost use Rattle.rhai_lines.specs.Output.{commands_in, lines_of, new_world, output};
ghost use Rattle.rhai_host.specs.Runs.{IsJournaled, IsRun, IsWritten, Journals, Runs};

use crate::handle::Handle;
use crate::handle::kept::Kept;
use crate::perform::{CLOSED, DONE, NO_COMMAND, NO_ROOM, OUT_OF_MEMORY, Reply};
use crate::told::{Told, told_of};
use rhai_lines::{command, commands_of, journal, run_lines};
use rhai_run::{Answer, Bytes, Command};
use std::alloc::{AllocError, Global};

fn applied(kept: &mut Kept, command: &Command, told: &mut Told) -> u32
    ensures { DoesOne result kept.old kept.new told.old told.new command.now }
{
    let done = kept.world.apply(command);
    done.tell(&mut kept.answer, told)
}

fn said(alloc: Global, kept: &mut Kept, line: &[u8], told: &mut Told) -> u32
    ensures { DoesOneMade result kept.old kept.new told.old told.new (TakesMemory line.now) (command_of line.now) }
{
    match command(alloc, line) {
        Ok(Some(command)) => applied(kept, &command, told),
        Ok(None) => NO_COMMAND,
        Err(_) => NO_ROOM,
    }
}

/// Executes the command of a line; `docs/LINES.md` has the lines.
#[unsafe(no_mangle)]
pub extern "C" fn rhai_host_line(
    alloc: Global,
    handle: &mut Handle,
    line: &[u8],
    told: &mut Told,
) -> u32
    ensures { PerformsMade result (content handle.old) (content handle.new) told.old told.new (λ _. TakesMemory line.now) (λ _. command_of line.now) }
{
    let Some(mut kept) = handle.take(alloc) else {
        return CLOSED;
    };
    let status = said(alloc, &mut kept, line, told);
    handle.put(kept);
    status
}

/// Returns what the lines print; without lines it doesn't allocate.
fn output_of(alloc: Global, input: &[u8]) -> Result<Vec<u8>, AllocError>
    ensures ok { IfOk result (λ v. v.items ≡ output new_world input.now) }
    ensures err { OnErr result (0 < length input.now) }
{
    let mut out = Vec::new(alloc);
    if input.is_empty() {
        return Ok(out);
    }
    let mut reader = input;
    match run_lines(alloc, &mut reader, &mut out) {
        Ok(()) => Ok(out),
        Err(_) => Err(AllocError),
    }
}

fn run_kept(alloc: Global, kept: &mut Kept, input: &[u8], told: &mut Told) -> u32
    ensures { IsRun result kept.old kept.new input.now told.old told.new }
{
    match output_of(alloc, input) {
        Ok(out) => {
            let answer = Answer::Bytes(Bytes::new(out));
            *told = told_of(&answer);
            kept.answer = answer;
            DONE
        }
        Err(_) => OUT_OF_MEMORY,
    }
}

/// Runs lines on a new world, and returns the bytes that they print; the handle's world is
/// unchanged.
#[unsafe(no_mangle)]
pub extern "C" fn rhai_host_run_lines(
    alloc: Global,
    handle: &mut Handle,
    input: &[u8],
    told: &mut Told,
) -> u32
    ensures { Runs result (content handle.old) (content handle.new) input.now told.old told.new }
{
    let Some(mut kept) = handle.take(alloc) else {
        return CLOSED;
    };
    let status = run_kept(alloc, &mut kept, input, told);
    handle.put(kept);
    status
}

/// Returns the lines of these commands as the answer.
fn written(alloc: Global, kept: &mut Kept, commands: &[Command], told: &mut Told) -> u32
    ensures { IsWritten result kept.old kept.new commands.now told.old told.new }
{
    match journal(alloc, commands) {
        Ok(Some(text)) => {
            let answer = Answer::Bytes(Bytes::new(text.into_bytes()));
            *told = told_of(&answer);
            kept.answer = answer;
            DONE
        }
        Ok(None) => NO_COMMAND,
        Err(_) => OUT_OF_MEMORY,
    }
}

fn journaled(alloc: Global, kept: &mut Kept, lines: &[u8], told: &mut Told) -> u32
    ensures { IsJournaled result kept.old kept.new (commands_in (lines_of lines.now)) told.old told.new }
{
    match commands_of(alloc, lines) {
        Ok(Some(commands)) => written(alloc, kept, &commands, told),
        Ok(None) => NO_COMMAND,
        Err(_) => NO_ROOM,
    }
}

/// Returns the journal of the commands in these lines: the lines as the library writes them, in
/// order, each with a line feed.
#[unsafe(no_mangle)]
pub extern "C" fn rhai_host_journal(
    alloc: Global,
    handle: &mut Handle,
    lines: &[u8],
    told: &mut Told,
) -> u32
    ensures { Journals result (content handle.old) (content handle.new) lines.now told.old told.new }
{
    let Some(mut kept) = handle.take(alloc) else {
        return CLOSED;
    };
    let status = journaled(alloc, &mut kept, lines, told);
    handle.put(kept);
    status
}
