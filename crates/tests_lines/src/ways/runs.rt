//! Runs over commands, on one world or on two.

use crate::rows::{are_written, commands_of, make, room};
use crate::sections::UNLIMITED;
use crate::seen::{is_seen, seen, tell};
use rhai_run::{Command, Stopped, StoppedBoth, World, run, run_both};
use rhai_text::Limits;
use std::alloc::{AllocError, Global};
use std::io::Eprint;

/// Lines that make unreachable cells.
const UNREACHED: [&str; 6] = ["unit", "share 0", "drop", "array 0", "share 0", "drop"];

/// Whether the view of a world is that of one on which these commands ran.
fn is_as_after(alloc: Global, world: &World, commands: &[Command]) -> Result<bool, AllocError> {
    let mut other = World::new(alloc, UNLIMITED);
    let made = make(&mut other, commands);
    let text = seen(alloc, &other);
    other.close();
    made?;
    is_seen(alloc, world, &text?)
}

/// Continues after a stop with the command that was stopped, in a world that must be as after those
/// before it.
fn go_on(
    alloc: Global,
    world: &mut World,
    commands: &[Command],
    stopped: &Stopped,
    out: &mut Vec<u8>,
) -> Result<bool, AllocError> {
    let done = stopped.answers.len();
    let (Some(first), Some(rest)) = (commands.get(..done), commands.get(done..)) else {
        return Ok(false);
    };
    if !are_written(&stopped.answers, out) || !is_as_after(alloc, world, first)? {
        return Ok(false);
    }
    match run(world, rest) {
        Ok(answers) => Ok(are_written(&answers, out)),
        Err(_) => Err(AllocError),
    }
}

/// Runs the commands.
pub(super) fn run_at_last(
    rt: &impl Eprint,
    alloc: Global,
    world: &mut World,
    commands: &[Command],
    out: &mut Vec<u8>,
) -> Result<bool, AllocError> {
    match run(world, commands) {
        Ok(answers) => Ok(are_written(&answers, out)),
        Err(stopped) => {
            tell(rt, "run");
            go_on(alloc, world, commands, &stopped, out)
        }
    }
}

/// Runs on two new worlds; if the first is stopped, the second must be as new.
fn run_both_at_last(
    rt: &impl Eprint,
    alloc: Global,
    first: &mut World,
    second: &mut World,
    commands: &[Command],
    out: &mut Vec<u8>,
    other_out: &mut Vec<u8>,
) -> Result<bool, AllocError> {
    match run_both(first, second, commands) {
        Ok((one, other)) => Ok(are_written(&one, out) && are_written(&other, other_out)),
        Err(StoppedBoth::First(stopped)) => {
            tell(rt, "run_both, first");
            Ok(
                is_as_after(alloc, second, &[])?
                    && go_on(alloc, first, commands, &stopped, out)?
                    && run_at_last(rt, alloc, second, commands, other_out)?,
            )
        }
        Err(StoppedBoth::Second(answers, stopped)) => {
            tell(rt, "run_both, second");
            Ok(
                are_written(&answers, out)
                    && is_as_after(alloc, first, commands)?
                    && go_on(alloc, second, commands, &stopped, other_out)?,
            )
        }
    }
}

/// Runs the commands on this world, which gets unreachable cells, and on another; both must answer
/// the same.
pub(super) fn both_answer(
    rt: &impl Eprint,
    alloc: Global,
    first: &mut World,
    limits: Limits,
    commands: &[Command],
    out: &mut Vec<u8>,
) -> Result<bool, AllocError> {
    make(first, &commands_of(alloc, &UNREACHED)?)?;
    let mut other_out = room(alloc)?;
    let mut second = World::new(alloc, limits);
    let is_right = run_both_at_last(rt, alloc, first, &mut second, commands, out, &mut other_out);
    second.close();
    Ok(is_right? && out.as_slice() == other_out.as_slice())
}
