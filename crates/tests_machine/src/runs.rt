//! Runs of scripts, as the tests start and drive them.

use rhai_text::Limits;
use rhai_value::INT;
use script_code::{HostName, Program, compile};
use script_faults::Fault;
use script_run::{Outcome, Run};
use script_slots::RunLimits;
use script_syntax::parse;
use std::alloc::{AllocError, Global};

/// What each run may use.
pub(crate) const LIMITS: RunLimits = RunLimits {
    sizes: Limits {
        text: 1_000,
        items: 1_000,
    },
    entries: 100,
    output: 0,
    memory: 0,
    operations: u64::MAX,
    calls: 20,
};

/// Compiles a script that may call `ask(x)` of the host.
pub(crate) fn compiled(alloc: Global, text: &str) -> Option<Program> {
    let script = parse(alloc, text).ok()?;
    let mut host = Vec::new(alloc);
    let name = String::from_str(alloc, "ask").ok()?;
    host.push(HostName {
        name,
        arguments: 1,
        changes: false,
    })
    .ok()?;
    compile(alloc, &script, host.as_slice()).ok()
}

/// Starts a run of a program.
pub(crate) fn begun(alloc: Global, program: &Program) -> Option<Run> {
    Run::new(alloc, program, &LIMITS).ok()
}

/// Continues by this many operations at a time until the run is done or calls the host.
pub(crate) fn driven(run: &mut Run, program: &Program, at_once: u64) -> Outcome {
    for _ in 0..100_000 {
        let outcome = run.go(program, at_once);
        if !matches!(&outcome, Outcome::Paused) {
            return outcome;
        }
    }
    Outcome::Paused
}

/// Returns the int that is the run's value.
pub(crate) fn value_of(run: &Run, outcome: &Outcome) -> Option<INT> {
    match outcome {
        Outcome::Done(value) => value.as_int(run.store()).ok(),
        Outcome::Paused
        | Outcome::Statement
        | Outcome::Calls(_)
        | Outcome::Memory
        | Outcome::Fault(_)
        | Outcome::Answered(_)
        | Outcome::Refused(_) => None,
    }
}

/// Whether a run ended with a fault with this message, including line and column.
pub(crate) fn is_told(alloc: Global, run: &Run, outcome: &Outcome, wanted: &str) -> bool {
    match outcome {
        Outcome::Fault(fault) => match told(alloc, run, fault) {
            Ok(told) => told.as_str() == wanted,
            Err(_) => false,
        },
        Outcome::Done(_)
        | Outcome::Paused
        | Outcome::Statement
        | Outcome::Calls(_)
        | Outcome::Memory
        | Outcome::Answered(_)
        | Outcome::Refused(_) => false,
    }
}

fn told(alloc: Global, run: &Run, fault: &Fault) -> Result<String, AllocError> {
    let message = fault.kind.message(alloc, run.store())?;
    let (line, column) = (fault.position.line(), fault.position.position());
    format!(in alloc; "{message} at {line}:{column}")
}
