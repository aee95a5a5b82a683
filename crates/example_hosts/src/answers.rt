//! Answers of commands, as both hosts print them.

use anyhow::Result;
use rhai_lines::write_answer;
use rhai_run::{Command, World, apply};
use std::alloc::Global;

/// Executes a command, and returns its answer as it is printed.
pub(crate) fn answered(alloc: Global, world: &mut World, command: &Command) -> Result<Vec<u8>> {
    let answer = apply(world, command)?;
    let mut printed = Vec::new(alloc);
    write_answer(&answer, &mut printed)?;
    Ok(printed)
}

/// Prints an answer.
pub(crate) fn print_answer(rt: &(impl Print + AllocGlobal), printed: &[u8]) -> Result<()> {
    let text = String::from_utf8_lossy(rt.alloc(), printed)?;
    print!(rt; "{text}")?;
    Ok(())
}
