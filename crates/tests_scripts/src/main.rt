//! Runs the scripts named by its arguments, and compares what each prints with the text beside it:
//! prints those that differ, and how many were as expected.
#![tactic(auto)]

use rhai_text::Limits;
use script_run::{ScriptLimits, run_script};
use std::alloc::{AllocError, Global};
use std::rt::{Env, Files};
use std::{env, fs, io};

/// What a script may use here.
const LIMITS: ScriptLimits = ScriptLimits {
    sizes: Limits {
        text: 1_000_000,
        items: 1_000_000,
    },
    entries: 1_000_000,
    output: 100_000_000,
    memory: 0,
    operations: 4_000_000,
    calls: 100,
};

/// Returns what a script prints, with the error that ended it, if one did.
fn printed(alloc: Global, text: &str) -> Result<String, AllocError> {
    let mut out = String::new(alloc);
    let mut operations = 0;
    match run_script(alloc, text, &mut out, &LIMITS, &mut operations) {
        Ok(()) => Ok(out),
        Err(error) => format!(in alloc; "{out}error: {error}\n"),
    }
}

/// Whether the script with a name prints what is expected; if not, prints its output.
fn is_as_expected(rt: &(impl Files + Print + AllocGlobal), name: &str) -> io::Result<bool> {
    let path = format!(in rt.alloc(); "{name}.rhai")?;
    let text = fs::read_to_string(rt, path.as_str())?;
    let path = format!(in rt.alloc(); "{name}.txt")?;
    let expected = fs::read_to_string(rt, path.as_str())?;
    let found = printed(rt.alloc(), text.as_str())?;
    if found.as_str() == expected.as_str() {
        return Ok(true);
    }
    println!(rt; "{name} prints:\n{found}")?;
    Ok(false)
}

/// Runs all scripts.
fn run_all(rt: &(impl Files + Print + Env + AllocGlobal)) -> io::Result<()> {
    let mut count = 0u64;
    for name in env::args(rt)?.skip(1) {
        if is_as_expected(rt, name.as_str())? {
            count = count.saturating_add(1);
        }
    }
    println!(rt; "{count} scripts print what is expected")
}

fn main(rt: HostRuntime) -> io::Result<()> {
    run_all(&rt)
}
