//! Worlds made of snapshots.
ghost use Rattle.std.specs.Prelude.{◌≡◌, IfOk};
ghost use Rattle.rhai_run.specs.Machine.{replies};

use crate::rows::{commands_of, make};
use crate::sections::UNLIMITED;
use crate::seen::{is_seen, seen};
use rhai_lines::write_answer;
use rhai_run::{Answer, Command, World, laws, run};
use std::alloc::{AllocError, Global};

/// Runs commands on a world made of a snapshot: the answers are those of the world, which stays.
fn run_restored(world: &World, commands: &[Command]) -> Result<Vec<Answer>, AllocError>
    ensures { IfOk result (λ answers. answers.items ≡ replies world.now commands.now) }
{
    laws::normalizing_is_not_seen();
    let snapshot = world.snapshot()?;
    let restored = snapshot.restore();
    snapshot.close();
    let mut restored = restored?;
    let answers = run(&mut restored, commands);
    restored.close();
    match answers {
        Ok(answers) => Ok(answers),
        Err(_) => Err(AllocError),
    }
}

/// Two entries with one cell, which is marked, and a constant.
const MADE: [&str; 8] = [
    "int 3",
    "share 0",
    "push x 0",
    "get x",
    "push y 1",
    "mark @y",
    "int 5",
    "readonly 2",
];

/// Releases the mark, and writes through one entry what the other has then.
const CHANGED: [&str; 5] = ["unmark 0", "int 7", "assign @x += 3", "get y", "debug 4"];

const ANSWERS: &[u8] = b"ok\nok\nok\nok\n10 (shared)\n";

fn texts(alloc: Global, answers: &[Answer]) -> Result<Vec<u8>, AllocError> {
    let mut out = Vec::new(alloc);
    for answer in answers {
        if write_answer(answer, &mut out).is_err() {
            return Err(AllocError);
        }
    }
    Ok(out)
}

/// Whether runs on worlds of two snapshots give these answers, and the world stays as it was.
fn are_restored(alloc: Global, world: &mut World) -> Result<bool, AllocError> {
    make(world, &commands_of(alloc, &MADE)?)?;
    let before = seen(alloc, world)?;
    let changed = commands_of(alloc, &CHANGED)?;
    let once = run_restored(world, &changed)?;
    let again = run_restored(world, &changed)?;
    let is_right = texts(alloc, &once)?.as_slice() == ANSWERS
        && texts(alloc, &again)?.as_slice() == ANSWERS;
    Ok(is_right && is_seen(alloc, world, &before)?)
}

pub(super) fn worlds_of_a_snapshot_answer_alike(alloc: Global) -> bool {
    let mut world = World::new(alloc, UNLIMITED);
    let is_right = are_restored(alloc, &mut world);
    world.close();
    matches!(is_right, Ok(true))
}
