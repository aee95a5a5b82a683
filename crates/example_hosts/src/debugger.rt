//! Steps through commands over a world of script values, a line each, and shows the world after
//! each: the scope, the values of the hand, and which of them a mark locks.

use crate::answers::{answered, print_answer};
use anyhow::Result;
use rhai_lines::command;
use rhai_run::{Answer, Command, Question, World, apply};

/// Prints a value of the hand.
fn show_value(rt: &(impl Print + AllocGlobal), world: &mut World, at: usize) -> Result<()> {
    let is_locked = is_locked(world, at)?;
    if let Answer::Text(text) = apply(world, &Command::Debug(at))? {
        let state = if is_locked { " (closed by a mark)" } else { "" };
        println!(rt; "  hand {at}: {}{state}", text.as_str())?;
    }
    Ok(())
}

/// Whether a mark locks a value of the hand.
fn is_locked(world: &mut World, at: usize) -> Result<bool> {
    let answer = apply(world, &Command::Ask(at, Question::Locked))?;
    Ok(matches!(answer, Answer::Bool(true)))
}

/// Prints the entries of the scope.
fn show_scope(rt: &(impl Print + AllocGlobal), world: &mut World) -> Result<()> {
    if let Answer::Text(text) = apply(world, &Command::ShowScope)? {
        for line in text.as_str().lines() {
            println!(rt; "  scope: {line}")?;
        }
    }
    Ok(())
}

/// Prints the scope and the hand.
fn show(rt: &(impl Print + AllocGlobal), world: &mut World) -> Result<()> {
    show_scope(rt, world)?;
    for at in 0..world.hand().len() {
        show_value(rt, world, at)?;
    }
    Ok(())
}

/// Executes a line and prints its answer, and the world after it if the line is a command.
fn step(rt: &(impl Print + AllocGlobal), world: &mut World, line: &str) -> Result<()> {
    println!(rt; "> {line}")?;
    let Some(command) = command(rt.alloc(), line.as_bytes())? else {
        println!(rt; "no command")?;
        return Ok(());
    };
    let printed = answered(rt.alloc(), world, &command)?;
    print_answer(rt, &printed)?;
    show(rt, world)
}

/// Steps through lines.
pub(crate) fn debug(rt: &(impl Print + AllocGlobal), world: &mut World, lines: &str) -> Result<()> {
    for line in lines.lines() {
        step(rt, world, line)?;
    }
    Ok(())
}
