//! Two hosts over a world of script values, which execute commands from standard input, a line
//! each. The first argument picks one: `session` or `debugger`; without it both execute all lines,
//! one after the other.
#![tactic(auto)]

mod answers;
mod debugger;
mod journal;
mod session;

use crate::debugger::debug;
use crate::session::host;
use anyhow::Result;
use rhai_run::World;
use rhai_text::Limits;
use std::rt::Env;
use std::{env, io};

/// Runs the session on lines, with a world of its own.
fn run_session(rt: &(impl Print + AllocGlobal), lines: &str) -> Result<()> {
    let mut world = World::new(rt.alloc(), Limits { text: 0, items: 0 });
    let outcome = host(rt, &mut world, lines);
    world.close();
    outcome
}

/// Runs the debugger on lines, with a world of its own.
fn run_debugger(rt: &(impl Print + AllocGlobal), lines: &str) -> Result<()> {
    let mut world = World::new(rt.alloc(), Limits { text: 0, items: 0 });
    let outcome = debug(rt, &mut world, lines);
    world.close();
    outcome
}

/// Runs the hosts that the first argument picks on lines.
fn run(rt: &(impl Print + Env + AllocGlobal), lines: &str) -> Result<()> {
    let picked = match env::args(rt)?.nth(1) {
        Some(word) => word,
        None => String::new(rt.alloc()),
    };
    if picked.as_str() != "debugger" {
        run_session(rt, lines)?;
    }
    if picked.as_str() != "session" {
        run_debugger(rt, lines)?;
    }
    Ok(())
}

fn main(rt: HostRuntime) -> Result<()> {
    let lines = io::read_to_string(rt.alloc(), rt.reader())?;
    run(&rt, lines.as_str())
}
