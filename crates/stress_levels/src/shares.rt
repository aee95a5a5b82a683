//! Three million values that are shared one after another, in a world that collects cells when a
//! collection is due.

use rhai_run::{Command, Literal, World, apply};
use rhai_text::Limits;
use std::alloc::{AllocError, Global};

/// How often a value is shared between two checks, by some hundred commands.
const BETWEEN: usize = 33;

/// How many values are shared.
const SHARED: usize = 3_000_000;

/// Shares a value and drops it, this many times.
fn share_and_drop(world: &mut World, times: usize) -> Result<(), AllocError> {
    for _ in 0..times {
        apply(world, &Command::Put(Literal::Int(1)))?;
        apply(world, &Command::Share(0))?;
        apply(world, &Command::Drop)?;
    }
    Ok(())
}

/// Shares all values.
fn share_all(world: &mut World) -> Result<(), AllocError> {
    for _ in 0..SHARED / BETWEEN {
        share_and_drop(world, BETWEEN)?;
        world.collect_if_due()?;
    }
    share_and_drop(world, SHARED % BETWEEN)
}

/// Shares all values in a new world.
pub(crate) fn share_values(alloc: Global) -> Result<(), AllocError> {
    let mut world = World::new(alloc, Limits { text: 0, items: 0 });
    let outcome = share_all(&mut world);
    world.close();
    outcome
}
