//! A host that keeps one world of script values between runs. It executes commands, a line each; an
//! empty line ends a run, after which it collects unreachable cells. The line `replay` executes all
//! commands again on a new world.

use crate::answers::{answered, print_answer};
use crate::journal::Journal;
use anyhow::Result;
use rhai_lines::command;
use rhai_run::World;

/// Executes the command of a line, prints its answer, and records both.
fn do_line(
    rt: &(impl Print + AllocGlobal),
    world: &mut World,
    journal: &mut Journal,
    line: &str,
) -> Result<()> {
    let Some(command) = command(rt.alloc(), line.as_bytes())? else {
        println!(rt; "no command: {line}")?;
        return Ok(());
    };
    let printed = answered(rt.alloc(), world, &command)?;
    print_answer(rt, &printed)?;
    journal.keep(command, &printed)?;
    Ok(())
}

/// Prints whether a new world answers the same to all commands.
fn replay(rt: &(impl Print + AllocGlobal), journal: &Journal) -> Result<()> {
    let count = journal.commands.len();
    match journal.replayed(rt.alloc())? {
        Some(answers) if answers.as_slice() == journal.answers.as_slice() => {
            println!(rt; "replayed {count} commands: the same answers")?;
        }
        Some(_) => println!(rt; "replayed {count} commands: other answers")?,
        None => println!(rt; "a command has no line")?,
    }
    Ok(())
}

/// Executes lines on a world.
pub(crate) fn host(rt: &(impl Print + AllocGlobal), world: &mut World, lines: &str) -> Result<()> {
    let mut journal = Journal::new(rt.alloc());
    let mut runs = 0u64;
    for line in lines.lines() {
        match line {
            "" => {
                world.collect()?;
                runs = runs.saturating_add(1);
                println!(rt; "run {runs} is done")?;
            }
            "replay" => replay(rt, &journal)?,
            command => do_line(rt, world, &mut journal, command)?,
        }
    }
    Ok(())
}
