//! Calls of `rhai_run` that no line makes: one command, and a host's view of a world.
ghost use Rattle.std.specs.Prelude.{◌≡◌, IfOk};
ghost use Rattle.rhai_run.specs.declared.command.Command.TheVariants as command;
ghost use Rattle.rhai_run.specs.Step.{step};

use crate::sections::UNLIMITED;
use rhai_run::{Answer, Command, Literal, World, apply};
use std::alloc::{AllocError, Global};

/// The caller in the README of `rhai_run`.
fn leave_scope(world: &mut World) -> Result<Answer, AllocError>
    ensures { IfOk result (λ a. (a ≡ (step world.old command.Pop).reply) × (world.new ≡ (step world.old command.Pop).after)) }
{
    apply(world, &Command::Pop)
}

pub(super) fn an_empty_scope_is_not_left(alloc: Global) -> bool {
    let mut world = World::new(alloc, UNLIMITED);
    let answer = leave_scope(&mut world);
    world.close();
    matches!(answer, Ok(Answer::Refused(_)))
}

/// Whether the hand is one holder of a boolean.
fn has_holder(world: &World) -> bool {
    match world.hand() {
        [value] => value.is_shared() && value.type_name(world.store()) == "bool",
        _ => false,
    }
}

/// A host reads the hand and the store.
pub(super) fn one_command_is_applied(alloc: Global) -> bool {
    let mut world = World::new(alloc, UNLIMITED);
    let put = apply(&mut world, &Command::Put(Literal::Bool(true)));
    let shared = apply(&mut world, &Command::Share(0));
    let is_holder = has_holder(&world);
    world.close();
    is_holder && matches!(put, Ok(Answer::Done)) && matches!(shared, Ok(Answer::Done))
}
