//! Many scripts in one run.

use rhai_text::Limits;
use script_run::{ScriptError, ScriptLimits, run_script};
use std::io;

/// The line between two scripts.
const BETWEEN: &str = "\n----\n";

/// What each script may use, unless arguments set the operations and the bytes.
const LIMITS: ScriptLimits = ScriptLimits {
    sizes: Limits {
        text: 10_000,
        items: 10_000,
    },
    entries: 10_000,
    output: 1_000_000,
    memory: 0,
    operations: 20_000,
    calls: 200,
};

/// How a script ends, as one word.
fn outcome(rt: &impl AllocGlobal, text: &str, limits: &ScriptLimits) -> &'static str {
    let mut out = String::new(rt.alloc());
    let mut operations = 0;
    match run_script(rt.alloc(), text, &mut out, limits, &mut operations) {
        Ok(()) => "ran",
        Err(ScriptError::Syntax(_) | ScriptError::TooLarge(_)) => "no script",
        Err(ScriptError::Fault(_, _, _)) => "fault",
        Err(ScriptError::OutOfMemory(_)) => "out of memory",
    }
}

/// Runs each script, and writes how it ended.
pub(crate) fn run_many(
    rt: &(impl Print + AllocGlobal),
    text: &str,
    operations: Option<u64>,
    memory: Option<u64>,
) -> io::Result<()> {
    let limits = ScriptLimits {
        sizes: LIMITS.sizes,
        entries: LIMITS.entries,
        output: LIMITS.output,
        memory: memory.unwrap_or(LIMITS.memory),
        operations: operations.unwrap_or(LIMITS.operations),
        calls: LIMITS.calls,
    };
    for script in text.split(BETWEEN) {
        let ended = outcome(rt, script, &limits);
        println!(rt; "{ended}")?;
    }
    Ok(())
}
