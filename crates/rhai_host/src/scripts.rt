//! Runs of scripts.
ghost use Rattle.std.specs.Prelude.{◌≡◌, ◌++◌, IfOk, length, string_bytes};
ghost use Rattle.rhai_host.specs.Content.{content};
ghost use Rattle.rhai_host.specs.Numbers.{text_of};
ghost use Rattle.rhai_host.specs.Scripts.{IsEndOf, IsScriptRun, IsWhole, RunsScript};

use crate::handle::Handle;
use crate::handle::kept::Kept;
use crate::perform::{CLOSED, DONE, NO_COMMAND, OUT_OF_MEMORY};
use crate::texts::text_in;
use rhai_run::{Answer, Bytes};
use rhai_text::{Limits, Position};
use script_run::{ScriptError, ScriptLimits, run_script};
use script_syntax::SyntaxError;
use std::alloc::{AllocError, Global};

/// The message for a script that is too large.
const TOO_LARGE: &str = "the script is too large";

/// How a script ended. The answer is what it printed, followed by what went wrong.
#[repr(C)]
#[derive(Drop)]
pub struct ScriptEnd {
    /// 0 it ran to its end, 1 the text is not a valid script, 2 it failed while running.
    pub kind: u32,
    /// The line where it went wrong, counted from 1; else 0.
    pub line: u32,
    /// The column where it went wrong, counted from 1; else 0.
    pub column: u32,
    /// How many bytes of the answer it printed.
    pub printed: usize,
    /// How many bytes after these say what went wrong.
    pub said: usize,
}

/// How a script ended, with the text for the answer.
#[derive(Drop)]
struct Ended {
    end: ScriptEnd,
    text: String,
}

fn end_at(kind: u32, place: Position, printed: String, why: &str) -> Result<Ended, AllocError>
    ensures { IfOk result (λ e. (e.end ≡ record { kind = kind; line = place.line; column = place.position; printed = length (string_bytes printed); said = length why.now }) × (string_bytes e.text ≡ string_bytes printed ++ why.now)) }
{
    let mut text = printed;
    let printed = text.len();
    text.push_str(why)?;
    let end = ScriptEnd {
        kind,
        line: place.line(),
        column: place.position(),
        printed,
        said: why.len(),
    };
    Ok(Ended { end, text })
}

/// Reports how a run ended that printed this.
fn told_end(
    alloc: Global,
    done: Result<(), ScriptError>,
    printed: String,
) -> Result<Ended, AllocError>
    ensures end { IfOk result (λ e. IsEndOf done e.end) }
    ensures whole { IfOk result (λ e. IsWhole e.end (string_bytes e.text)) }
{
    match done {
        Ok(()) => end_at(0, Position::NONE, printed, ""),
        Err(ScriptError::Syntax(SyntaxError::Fault(fault, place))) => {
            let why = format!(in alloc; "{fault}")?;
            end_at(1, place, printed, why.as_str())
        }
        Err(ScriptError::TooLarge(place)) => end_at(1, place, printed, TOO_LARGE),
        Err(ScriptError::Fault(why, place, _)) => end_at(2, place, printed, why.as_str()),
        Err(ScriptError::Syntax(SyntaxError::OutOfMemory) | ScriptError::OutOfMemory(_)) => Err(
            AllocError,
        ),
    }
}

fn run_kept(
    alloc: Global,
    kept: &mut Kept,
    script: &[u8],
    limits: &ScriptLimits,
    end: &mut ScriptEnd,
) -> u32
    ensures { IsScriptRun result kept.old kept.new (text_of script.now) end.old end.new }
{
    let Some(script) = text_in(script) else {
        return NO_COMMAND;
    };
    let mut printed = String::new(alloc);
    let mut operations = 0;
    let done = run_script(alloc, script, &mut printed, limits, &mut operations);
    match told_end(alloc, done, printed) {
        Ok(ended) => {
            *end = ended.end;
            kept.answer = Answer::Bytes(Bytes::new(ended.text.into_bytes()));
            DONE
        }
        Err(_) => OUT_OF_MEMORY,
    }
}

/// Runs a script on values of its own, with limits on the sizes of texts and of arrays, 0 meaning
/// no limit, on operations, and on nested calls. What it prints is the answer, followed by what
/// went wrong; the handle's world is unchanged.
#[unsafe(no_mangle)]
pub extern "C" fn rhai_host_run_script(
    alloc: Global,
    handle: &mut Handle,
    script: &[u8],
    text: usize,
    items: usize,
    operations: u64,
    calls: usize,
    end: &mut ScriptEnd,
) -> u32
    ensures { RunsScript result (content handle.old) (content handle.new) script.now end.old end.new }
{
    let Some(mut kept) = handle.take(alloc) else {
        return CLOSED;
    };
    let limits = ScriptLimits {
        sizes: Limits { text, items },
        entries: 0,
        output: 0,
        memory: 0,
        operations,
        calls,
    };
    let status = run_kept(alloc, &mut kept, script, &limits, end);
    handle.put(kept);
    status
}
