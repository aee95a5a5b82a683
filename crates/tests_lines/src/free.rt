//! Commands that succeed even if every allocation fails.

use crate::rows::{commands_in, make, room, wanted};
use crate::sections::{Section, UNLIMITED, halves};
use rhai_lines::write_answer;
use rhai_run::{Command, World, apply};
use std::alloc::{AllocError, Global};

fn are_applied(world: &mut World, commands: &[Command], out: &mut Vec<u8>) -> bool {
    for command in commands {
        match apply(world, command) {
            Ok(answer) if write_answer(&answer, out).is_ok() => {}
            _ => return false,
        }
    }
    true
}

/// Whether commands have the right answers after others, and after an allocation whose failure
/// doesn't matter: then also if that one and all later ones fail.
fn are_free(
    alloc: Global,
    before: &[Command],
    commands: &[Command],
    out: &mut Vec<u8>,
) -> Result<bool, AllocError> {
    let mut world = World::new(alloc, UNLIMITED);
    let made = make(&mut world, before);
    drop(room(alloc));
    let is_right = are_applied(&mut world, commands, out);
    world.close();
    match made {
        Ok(()) => Ok(is_right),
        Err(error) => Err(error),
    }
}

/// Whether the section has the answers that it says.
pub(crate) fn is_answered(
    alloc: Global,
    section: &Section<'_>,
    out: &mut Vec<u8>,
) -> Result<bool, AllocError> {
    let (before, rows) = halves(section.rows);
    let before = commands_in(alloc, before)?;
    let commands = commands_in(alloc, rows)?;
    let wanted = wanted(alloc, rows, false)?;
    Ok(are_free(alloc, &before, &commands, out)? && out.as_slice() == wanted.as_bytes())
}
