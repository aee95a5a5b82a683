//! Commands written as lines, and journals of runs.

use crate::calls::inputs::answers;
use crate::rows::{are_written, commands_in, room, row_of, wanted};
use crate::sections::UNLIMITED;
use rhai_lines::{command, journal, line_of};
use rhai_run::{Command, World, run};
use std::alloc::{AllocError, Global};

/// Writes the command of a line; nothing if it is none.
fn write_back(alloc: Global, line: &str, out: &mut Vec<u8>) -> Result<(), AllocError> {
    if let Some(command) = command(alloc, line.as_bytes())? {
        if let Some(line) = line_of(alloc, &command)? {
            out.extend_from_slice(line.as_bytes())?;
        }
    }
    out.extend_from_slice(b"\n")
}

/// Whether the commands of lines are written as the rows say.
pub(crate) fn is_answered(
    alloc: Global,
    rows: &str,
    out: &mut Vec<u8>,
) -> Result<bool, AllocError> {
    for (line, _) in rows.lines().filter_map(row_of) {
        write_back(alloc, line, out)?;
    }
    Ok(out.as_slice() == wanted(alloc, rows, true)?.as_bytes())
}

/// Reads the commands of the rows, repeated this often.
pub(crate) fn long_run(
    alloc: Global,
    rows: &str,
    times: usize,
) -> Result<Vec<Command>, AllocError> {
    let mut commands = Vec::new(alloc);
    for _ in 0..times {
        commands.append(&mut commands_in(alloc, rows)?)?;
    }
    Ok(commands)
}

/// Returns the answers of a run over the commands.
fn answered(alloc: Global, commands: &[Command]) -> Result<Vec<u8>, AllocError> {
    let mut out = room(alloc)?;
    let mut world = World::new(alloc, UNLIMITED);
    let is_written = match run(&mut world, commands) {
        Ok(answers) => are_written(&answers, &mut out),
        Err(_) => false,
    };
    world.close();
    if is_written { Ok(out) } else { Err(AllocError) }
}

/// Whether a run over the journal of commands prints the same as a run over the commands.
pub(crate) fn is_replayed(alloc: Global, commands: &[Command]) -> Result<bool, AllocError> {
    let Some(text) = journal(alloc, commands)? else {
        return Ok(false);
    };
    let wanted = answered(alloc, commands)?;
    match answers(alloc, text.as_bytes()) {
        Ok(out) => Ok(out.as_slice() == wanted.as_slice()),
        Err(_) => Ok(false),
    }
}
