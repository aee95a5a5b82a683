//! Normal forms of worlds.
ghost use Rattle.std.specs.Prelude.{◌≡◌, IfOk};
ghost use Rattle.rhai_run.specs.Machine.{replies};

use crate::rows::{commands_of, make};
use crate::sections::UNLIMITED;
use crate::seen::{is_seen, seen};
use rhai_run::{Answer, Command, Stopped, World, laws, run};
use std::alloc::{AllocError, Global};

/// Runs commands on the normal form: the answers are those of the world before.
fn normalize_and_run(world: &mut World, commands: &[Command]) -> Result<Vec<Answer>, Stopped>
    ensures { IfOk result (λ answers. answers.items ≡ replies world.old commands.now) }
{
    laws::normalizing_is_not_seen();
    let _ = world.normalize();
    run(world, commands)
}

/// Entries x and y with shared 1 and 2, the cell of x made first.
const X_FIRST: [&str; 6] = [
    "int 1", "share 0", "push x 0", "int 2", "share 1", "push y 1",
];

/// The same entries, but the cell of y made first, after one that nothing reaches.
const Y_FIRST: [&str; 9] = [
    "int 3", "share 0", "drop", "int 2", "share 0", "int 1", "share 1", "push x 1", "push y 0",
];

/// Whether a holder of x, and then a write through it, are seen alike in both worlds.
fn are_alike(alloc: Global, one: &mut World, other: &mut World) -> Result<bool, AllocError> {
    make(one, &commands_of(alloc, &X_FIRST)?)?;
    make(other, &commands_of(alloc, &Y_FIRST)?)?;
    let commands = commands_of(alloc, &["get x", "int 7", "assign @x += 3", "get y"])?;
    let are_run = normalize_and_run(one, &commands).is_ok()
        && normalize_and_run(other, &commands).is_ok();
    let is_written = seen(alloc, one)?.as_str().contains("8 (shared)");
    Ok(are_run && is_written && is_seen(alloc, other, &seen(alloc, one)?)?)
}

pub(super) fn worlds_made_in_two_orders_are_alike(alloc: Global) -> bool {
    let mut one = World::new(alloc, UNLIMITED);
    let mut other = World::new(alloc, UNLIMITED);
    let is_right = are_alike(alloc, &mut one, &mut other);
    one.close();
    other.close();
    matches!(is_right, Ok(true))
}
