//! Runs commands over one world of script values: reads a command per line from standard input, and
//! prints an answer to each.
#![tactic(auto)]

ghost use Rattle.std.specs.Prelude.{◌≡◌, OnOk, OnErr};

use rhai_lines::{LinesFault, run_lines};
use std::io;
use std::io::BufWriter;
use std::process::ExitCode;

/// Answers standard input on standard output, through a buffer.
fn answer_standard_input(rt: &(impl Input + Print + AllocGlobal)) -> Result<(), LinesFault> {
    match BufWriter::new(rt.alloc(), io::writer(rt)) {
        Ok(mut writer) => run_lines(rt.alloc(), &mut rt.reader(), &mut writer),
        Err(_) => Err(LinesFault::Memory),
    }
}

/// The exit status of a run.
fn status(outcome: &Result<(), LinesFault>) -> u8
    ensures done { OnOk outcome.now (result ≡ 0) }
    ensures fault { OnErr outcome.now (result ≡ 1) }
{
    match outcome {
        Ok(()) => 0,
        Err(_) => 1,
    }
}

fn main(rt: HostRuntime) -> ExitCode {
    let outcome = answer_standard_input(&rt);
    if let Err(fault) = &outcome {
        // if standard error fails too, only the exit status remains to report it
        let _ = eprintln!(rt; "{fault}");
    }
    ExitCode::from(status(&outcome))
}
