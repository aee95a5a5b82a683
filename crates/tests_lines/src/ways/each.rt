//! Command by command.

use crate::seen::{is_seen, seen, tell};
use rhai_lines::write_answer;
use rhai_run::{Answer, Command, World, apply};
use std::alloc::{AllocError, Global};
use std::io::Eprint;
use std::mem;

fn verb(line: &str) -> &str {
    line.split(' ').next().unwrap_or(line)
}

/// Applies a command. If an allocation fails, the view of the world must be unchanged, and the
/// command is applied once more.
fn apply_at_last(
    rt: &impl Eprint,
    alloc: Global,
    world: &mut World,
    line: &str,
    command: &Command,
) -> Result<Option<Answer>, AllocError> {
    let before = seen(alloc, world)?;
    if let Ok(answer) = apply(world, command) {
        return Ok(Some(answer));
    }
    tell(rt, verb(line));
    if !is_seen(alloc, world, &before)? {
        return Ok(None);
    }
    match apply(world, command) {
        Ok(answer) => Ok(Some(answer)),
        Err(_) => Err(AllocError),
    }
}

/// Applies each command.
pub(super) fn apply_each(
    rt: &impl Eprint,
    alloc: Global,
    world: &mut World,
    lines: &[&str],
    commands: &[Command],
    out: &mut Vec<u8>,
) -> Result<bool, AllocError> {
    for (line, command) in lines.iter().zip(commands) {
        match apply_at_last(rt, alloc, world, line, command)? {
            Some(answer) if write_answer(&answer, out).is_ok() => {}
            _ => return Ok(false),
        }
    }
    Ok(true)
}

/// What is done to a world that no answer shows.
#[derive(Clone, Copy)]
pub(super) enum Collection {
    /// A collection that keeps the order of the cells.
    Plain,
    /// One that puts them in the order in which they are first reached.
    InOrder,
    /// Another world, made of a snapshot, takes its place.
    Restored,
}

impl Collection {
    fn name(self) -> &'static str {
        match self {
            Collection::Plain => "collect",
            Collection::InOrder => "normalize",
            Collection::Restored => "restore",
        }
    }

    fn collect(self, world: &mut World) -> Result<(), AllocError> {
        match self {
            Collection::Plain => world.collect(),
            Collection::InOrder => world.normalize(),
            Collection::Restored => restore(world),
        }
    }
}

/// Replaces a world by one that is made of its snapshot.
fn restore(world: &mut World) -> Result<(), AllocError> {
    let snapshot = world.snapshot()?;
    let restored = snapshot.restore();
    snapshot.close();
    mem::replace(world, restored?).close();
    Ok(())
}

/// Collects. If an allocation fails, the world must be unchanged, and it is collected once more;
/// then its view must be as before.
fn collect_at_last(
    rt: &impl Eprint,
    alloc: Global,
    collection: Collection,
    world: &mut World,
) -> Result<bool, AllocError> {
    let before = seen(alloc, world)?;
    if collection.collect(world).is_err() {
        tell(rt, collection.name());
        if !is_seen(alloc, world, &before)? {
            return Ok(false);
        }
        collection.collect(world)?;
    }
    is_seen(alloc, world, &before)
}

/// Applies each command, and collects after each.
pub(super) fn collect_after_each(
    rt: &impl Eprint,
    alloc: Global,
    collection: Collection,
    world: &mut World,
    commands: &[Command],
    out: &mut Vec<u8>,
) -> Result<bool, AllocError> {
    for command in commands {
        let answer = apply(world, command)?;
        if write_answer(&answer, out).is_err() || !collect_at_last(rt, alloc, collection, world)? {
            return Ok(false);
        }
    }
    Ok(true)
}
