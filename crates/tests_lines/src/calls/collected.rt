//! Collections of unreachable cells that a row can't show.
ghost use Rattle.std.specs.Prelude.{◌≡◌, IfOk};
ghost use Rattle.rhai_run.specs.Machine.{replies};

use super::printed::is_printed;
use crate::rows::{commands_of, make};
use crate::sections::UNLIMITED;
use rhai_run::{Answer, Command, Literal, Question, Stopped, World, apply, laws, run};
use rhai_value::TypeId;
use std::alloc::{AllocError, Global};

/// The caller in the README of `rhai_run`: the answers are those of the world before the
/// collection.
fn collect_and_run(world: &mut World, commands: &[Command]) -> Result<Vec<Answer>, Stopped>
    ensures { IfOk result (λ answers. answers.items ≡ replies world.old commands.now) }
{
    laws::collecting_is_not_seen();
    let _ = world.collect();
    run(world, commands)
}

/// Whether commands have the right answers twice after a collection.
fn run_twice(alloc: Global, world: &mut World) -> Result<bool, AllocError> {
    let commands = commands_of(alloc, &["bool true", "share 0", "drop"])?;
    Ok(collect_and_run(world, &commands).is_ok() && collect_and_run(world, &commands).is_ok())
}

pub(super) fn a_collected_world_runs(alloc: Global) -> bool {
    let mut world = World::new(alloc, UNLIMITED);
    let is_right = run_twice(alloc, &mut world);
    world.close();
    matches!(is_right, Ok(true))
}

/// Whether a command has this answer.
fn is_answered(alloc: Global, world: &mut World, command: &Command, wanted: &str) -> bool {
    match apply(world, command) {
        Ok(answer) => is_printed(alloc, &answer, wanted),
        Err(_) => false,
    }
}

/// Makes a thousand cells and drops them, and then collects if a collection is due.
fn come_and_go(world: &mut World, commands: &[Command]) -> Result<(), AllocError> {
    for _ in 0..1000 {
        make(world, commands)?;
    }
    world.collect_if_due()
}

/// Whether a holder of 7 is kept while a hundred thousand cells are made and dropped.
fn is_kept(alloc: Global, world: &mut World) -> Result<bool, AllocError> {
    make(world, &commands_of(alloc, &["int 7", "share 0"])?)?;
    let commands = commands_of(alloc, &["int 1", "share 1", "copy 1", "drop", "drop"])?;
    for _ in 0..100 {
        come_and_go(world, &commands)?;
        if !is_answered(alloc, world, &Command::Show(0), "7 (shared)") {
            return Ok(false);
        }
    }
    Ok(true)
}

pub(super) fn what_is_held_is_kept_by_collections_that_are_due(alloc: Global) -> bool {
    let mut world = World::new(alloc, UNLIMITED);
    let is_right = is_kept(alloc, &mut world);
    world.close();
    matches!(is_right, Ok(true))
}

/// Makes cells each of which holds the one before.
fn chain(world: &mut World, len: usize) -> Result<(), AllocError> {
    apply(world, &Command::Put(Literal::Int(1)))?;
    for _ in 0..len {
        apply(world, &Command::Share(0))?;
        apply(world, &Command::MakeArray(1))?;
    }
    world.collect()
}

/// Whether an array is held in the hand, and nothing after it is dropped.
fn is_held_and_dropped(alloc: Global, world: &mut World) -> Result<bool, AllocError> {
    let asked = Command::Ask(0, Question::Is(TypeId::Array));
    let is_kept = is_answered(alloc, world, &asked, "true");
    apply(world, &Command::Drop)?;
    world.collect()?;
    Ok(is_kept && is_answered(alloc, world, &Command::Show(0), "refused NoValue"))
}

/// No step recurses as deep as the chain is long.
pub(super) fn a_long_chain_is_kept_and_given_back(alloc: Global) -> bool {
    let mut world = World::new(alloc, UNLIMITED);
    let is_made = chain(&mut world, 100_000).is_ok();
    let is_right = is_held_and_dropped(alloc, &mut world);
    world.close();
    is_made && matches!(is_right, Ok(true))
}
