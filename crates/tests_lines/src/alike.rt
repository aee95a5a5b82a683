//! Lines on two worlds with different cell numbers: the answers must be the same.

use crate::rows::{are_written, commands_of, make, room, row_of, wanted};
use crate::sections::{Section, UNLIMITED, halves};
use rhai_run::{Command, World, run_both};
use std::alloc::{AllocError, Global};

/// Reads the commands of lines that may have answers.
fn commands_in(alloc: Global, rows: &str) -> Result<Vec<Command>, AllocError> {
    let mut lines = Vec::new(alloc);
    for row in rows.lines() {
        lines.push(row_of(row).unwrap_or((row, "")).0)?;
    }
    commands_of(alloc, &lines)
}

/// Runs the commands on both worlds, each after its own setup lines.
fn both_answer(
    alloc: Global,
    first: &mut World,
    second: &mut World,
    section: &Section<'_>,
    out: &mut Vec<u8>,
    other: &mut Vec<u8>,
) -> Result<bool, AllocError> {
    let (one, rest) = halves(section.rows);
    let (two, rows) = halves(rest);
    make(first, &commands_in(alloc, one)?)?;
    make(second, &commands_in(alloc, two)?)?;
    match run_both(first, second, &commands_in(alloc, rows)?) {
        Ok((answers, others)) => Ok(are_written(&answers, out) && are_written(&others, other)),
        Err(_) => Err(AllocError),
    }
}

/// Whether both worlds answer alike, and as the rows say if they have answers.
pub(crate) fn is_answered(
    alloc: Global,
    section: &Section<'_>,
    out: &mut Vec<u8>,
) -> Result<bool, AllocError> {
    let wanted = wanted(alloc, section.rows, true)?;
    let mut other = room(alloc)?;
    let mut first = World::new(alloc, UNLIMITED);
    let mut second = World::new(alloc, UNLIMITED);
    let is_done = both_answer(alloc, &mut first, &mut second, section, out, &mut other);
    first.close();
    second.close();
    let is_wanted = wanted.is_empty() || out.as_slice() == wanted.as_bytes();
    Ok(is_done? && is_wanted && out.as_slice() == other.as_slice())
}
