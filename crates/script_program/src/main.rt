//! Runs a script from standard input: writes what it prints, and on standard error the error that
//! ended it, if one did. With the argument `many` it runs the scripts between lines of `----`, and
//! writes a line for each that says how it ended. `--operations N` limits the operations of a
//! script, and `--memory BYTES` what it may hold. The exit status is 0; 1 if the script failed; 2
//! if it can't be read, or the arguments are invalid.
#![tactic(auto)]

mod many;

use crate::many::run_many;
use rhai_text::Limits;
use script_run::{ScriptError, ScriptLimits, run_script};
use std::io::Eprint;
use std::process::ExitCode;
use std::rt::Env;
use std::{env, io};

/// The script failed.
const FAILED: u8 = 1;

/// The script can't be read, or the arguments are invalid.
const UNREAD: u8 = 2;

/// What a script may use here, unless arguments say otherwise.
const LIMITS: ScriptLimits = ScriptLimits {
    sizes: Limits {
        text: 1_000_000,
        items: 1_000_000,
    },
    entries: 1_000_000,
    output: 100_000_000,
    memory: 0,
    operations: 100_000_000,
    calls: 500,
};

/// What the arguments request.
#[derive(Clone, Copy)]
struct Task {
    is_many: bool,
    /// How many operations a script may take, if an argument says so.
    operations: Option<u64>,
    /// How many bytes it may hold, if an argument says so.
    memory: Option<u64>,
}

/// The argument that a number belongs to.
#[derive(Clone, Copy, PartialEq, Eq)]
enum Budget {
    Operations,
    Memory,
}

/// Returns the budget that an argument names.
fn budget_of(word: &str) -> Option<Budget> {
    match word {
        "--operations" => Some(Budget::Operations),
        "--memory" => Some(Budget::Memory),
        _ => None,
    }
}

/// Reads what the arguments request, if they are valid.
fn task_of(rt: &(impl Env + AllocGlobal)) -> io::Result<Option<Task>> {
    let mut task = Task {
        is_many: false,
        operations: None,
        memory: None,
    };
    let mut budget = None;
    for word in env::args(rt)?.skip(1) {
        if let Some(named) = budget {
            let Ok(count) = word.as_str().parse::<u64>() else {
                return Ok(None);
            };
            match named {
                Budget::Operations => task.operations = Some(count),
                Budget::Memory => task.memory = Some(count),
            }
            budget = None;
        } else if let Some(named) = budget_of(word.as_str()) {
            budget = Some(named);
        } else if word.as_str() == "many" {
            task.is_many = true;
        } else {
            return Ok(None);
        }
    }
    if budget.is_some() {
        return Ok(None);
    }
    Ok(Some(task))
}

/// The exit status for an error.
fn status_of(error: &ScriptError) -> u8 {
    match error {
        ScriptError::Syntax(_) | ScriptError::TooLarge(_) => UNREAD,
        ScriptError::Fault(_, _, _) | ScriptError::OutOfMemory(_) => FAILED,
    }
}

/// Runs a script, and returns the exit status.
fn run_one(rt: &(impl Print + Eprint + AllocGlobal), text: &str, task: Task) -> io::Result<u8> {
    let limits = ScriptLimits {
        sizes: LIMITS.sizes,
        entries: LIMITS.entries,
        output: LIMITS.output,
        memory: task.memory.unwrap_or(LIMITS.memory),
        operations: task.operations.unwrap_or(LIMITS.operations),
        calls: LIMITS.calls,
    };
    let mut out = String::new(rt.alloc());
    let mut taken = 0;
    let done = run_script(rt.alloc(), text, &mut out, &limits, &mut taken);
    print!(rt; "{out}")?;
    match done {
        Ok(()) => Ok(0),
        Err(error) => {
            tell(rt, &error)?;
            Ok(status_of(&error))
        }
    }
}

/// Writes why a script ended, and the active calls, if it called functions.
fn tell(rt: &(impl Eprint + AllocGlobal), error: &ScriptError) -> io::Result<()> {
    eprintln!(rt; "error: {error}")?;
    if let ScriptError::Fault(_, _, calls) = error {
        if calls.len() > 1 {
            for call in calls.iter() {
                eprintln!(rt; "  {call}")?;
            }
        }
    }
    Ok(())
}

/// Does what the arguments ask for, and gives the exit status.
fn run(rt: &(impl Input + Print + Eprint + Env + AllocGlobal)) -> io::Result<u8> {
    let Some(task) = task_of(rt)? else {
        eprintln!(rt; "usage: script_program [--operations N] [--memory BYTES] [many]")?;
        return Ok(UNREAD);
    };
    let text = match io::read_to_string(rt.alloc(), rt.reader()) {
        Ok(text) => text,
        Err(error) => {
            eprintln!(rt; "error: {error}")?;
            return Ok(UNREAD);
        }
    };
    if task.is_many {
        run_many(rt, text.as_str(), task.operations, task.memory)?;
        return Ok(0);
    }
    run_one(rt, text.as_str(), task)
}

fn main(rt: HostRuntime) -> ExitCode {
    match run(&rt) {
        Ok(status) => ExitCode::from(status),
        Err(error) => {
            // if standard error fails too, only the exit status is left to report it
            let _ = eprintln!(rt; "error: {error}");
            ExitCode::from(FAILED)
        }
    }
}
