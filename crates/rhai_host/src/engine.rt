//! Scripts that a host embeds: compiled for the present variables, run over them, and stopped where
//! they call the host.
ghost use Rattle.std.specs.Prelude.{◌≡◌};
ghost use Rattle.rhai_host.specs.Content.{content};
ghost use Rattle.rhai_host.specs.Engines.{KeepsWorld, OnScripts};

use crate::answering::{Scalar, arguments_in, number_in, scalar_of, status_of};
use crate::handle::Handle;
use crate::handle::kept::Kept;
use crate::perform::{CLOSED, DONE, NO_COMMAND, OUT_OF_MEMORY};
use crate::texts::text_in;
use rhai_run::{Answer, Bytes};
use rhai_text::{Limits, Position};
use rhai_value::{Dynamic, INT};
use script_code::HostName;
use script_engine::{Engine, Step};
use script_faults::Fault;
use script_run::{Run, ScriptError};
use script_slots::RunLimits;
use script_syntax::SyntaxError;
use std::alloc::{AllocError, Global};

/// Why a script stopped. The answer is what it printed, followed by what went wrong, if that isn't
/// empty.
#[repr(C)]
#[derive(Drop)]
pub struct ScriptStop {
    /// 0 it is done, 1 it executed as many operations as it might, 2 it calls the host, 3 it is
    /// before a statement, 4 an allocation failed, 5 it failed, 6 the text is not a valid script, 7
    /// a function that a host function called is done, 8 such a function failed.
    pub kind: u32,
    /// The number of the host function being called; else 0.
    pub function: u32,
    /// How many arguments it is called with; else 0.
    pub arguments: usize,
    /// The line where it is, or where it went wrong, counted from 1; else 0.
    pub line: u32,
    /// The column, counted from 1; else 0.
    pub column: u32,
    /// How many operations the run has used so far, including those for the size of values.
    pub operations: u64,
    /// How many bytes of the answer it printed.
    pub printed: usize,
    /// How many bytes after these say what went wrong.
    pub said: usize,
    /// What the value of a stop of kind 0 or 7 is, or the first argument at one of kind 2: 0 unit,
    /// 1 a boolean, 2 an int; 6 there is none, or `rhai_host_script_value` or
    /// `rhai_host_script_argument` returns it.
    pub value_kind: u32,
    /// What the second argument is.
    pub second_kind: u32,
    /// What the third argument is.
    pub third_kind: u32,
    /// That value or first argument: a boolean as 0 or 1, or an int; else 0.
    pub value: i64,
    /// The second argument.
    pub second: i64,
    /// The third argument.
    pub third: i64,
}

/// What a stop reports of a value: its kind, and a boolean or an int.
#[derive(Clone, Copy)]
struct Reported {
    kind: u32,
    number: INT,
}

/// No value, or one that a stop doesn't report.
const NOT_REPORTED: Reported = Reported { kind: 6, number: 0 };

fn report_of(value: &Dynamic) -> Reported {
    match scalar_of(value) {
        Some(Scalar::Unit) => Reported { kind: 0, number: 0 },
        Some(Scalar::Bool(truth)) => Reported {
            kind: 1,
            number: INT::from(truth),
        },
        Some(Scalar::Int(number)) => Reported { kind: 2, number },
        None => NOT_REPORTED,
    }
}

fn argument_of(run: &Run, number: usize) -> Reported {
    match run.argument(number) {
        Some(argument) => report_of(argument),
        None => NOT_REPORTED,
    }
}

/// Reports the host function being called, and its first arguments.
fn tell_call(run: &Run, function: u32, stop: &mut ScriptStop) {
    stop.function = function;
    stop.arguments = run.arguments();
    let first = argument_of(run, 0);
    stop.value_kind = first.kind;
    stop.value = first.number;
    let second = argument_of(run, 1);
    stop.second_kind = second.kind;
    stop.second = second.number;
    let third = argument_of(run, 2);
    stop.third_kind = third.kind;
    stop.third = third.number;
}

/// Reports the value of a run or a function.
fn tell_result(value: &Dynamic, stop: &mut ScriptStop) {
    let result = report_of(value);
    stop.value_kind = result.kind;
    stop.value = result.number;
}

/// Reports a stop of this kind at a position, with what was printed and the message, as far as the
/// allocations succeed.
pub(crate) fn tell_stop(
    kept: &mut Kept,
    stop: &mut ScriptStop,
    kind: u32,
    place: Position,
    why: &str,
)
    ensures { KeepsWorld kept.old kept.new }
{
    let operations = match kept.engine.run() {
        Some(run) => run.operations(),
        None => 0,
    };
    let mut text = kept.engine.take_output();
    let printed = text.len();
    let said = match text.push_str(why) {
        Ok(()) => why.len(),
        Err(_) => 0,
    };
    *stop = ScriptStop {
        kind,
        function: 0,
        arguments: 0,
        line: place.line(),
        column: place.position(),
        operations,
        printed,
        said,
        value_kind: 6,
        second_kind: 6,
        third_kind: 6,
        value: 0,
        second: 0,
        third: 0,
    };
    if !text.is_empty() {
        kept.answer = Answer::Bytes(Bytes::new(text.into_bytes()));
    }
}

/// Returns where the run is.
fn standing(engine: &Engine) -> Position {
    match (engine.program(), engine.run()) {
        (Some(program), Some(run)) => run.position(program),
        (None, _) | (_, None) => Position::NONE,
    }
}

/// Reports a stop of this kind where the run is.
fn tell_here(kept: &mut Kept, stop: &mut ScriptStop, kind: u32)
    ensures { KeepsWorld kept.old kept.new }
{
    let place = standing(&kept.engine);
    tell_stop(kept, stop, kind, place, "");
}

/// Reports why a run stopped.
pub(crate) fn tell_step(alloc: Global, kept: &mut Kept, stop: &mut ScriptStop, step: Step)
    ensures { KeepsWorld kept.old kept.new }
{
    match step {
        Step::Done => {
            tell_stop(kept, stop, 0, Position::NONE, "");
            tell_result(kept.engine.value(), stop);
        }
        Step::Paused => tell_here(kept, stop, 1),
        Step::Statement => tell_here(kept, stop, 3),
        Step::Memory => tell_here(kept, stop, 4),
        Step::Answered => {
            tell_here(kept, stop, 7);
            tell_result(kept.engine.value(), stop);
        }
        Step::Calls(number) => {
            tell_here(kept, stop, 2);
            if let Some(run) = kept.engine.run() {
                tell_call(run, number, stop);
            }
        }
        Step::Fault(fault) => tell_fault(alloc, kept, stop, 5, &fault),
        Step::Refused(fault) => tell_fault(alloc, kept, stop, 8, &fault),
    }
}

/// Reports a stop of this kind by a fault, with its message as far as the allocations succeed.
#[cold]
#[inline(never)]
fn tell_fault(alloc: Global, kept: &mut Kept, stop: &mut ScriptStop, kind: u32, fault: &Fault)
    ensures { KeepsWorld kept.old kept.new }
{
    match fault.kind.message(alloc, kept.engine.store()) {
        Ok(why) => tell_stop(kept, stop, kind, fault.position, why.as_str()),
        Err(_) => tell_stop(kept, stop, kind, fault.position, ""),
    }
}

/// Reads the host functions in a text: a line each, with a name, a space and the number of
/// arguments, then ` mut` if it changes the first one.
fn host_names(alloc: Global, text: &str) -> Result<Option<Vec<HostName>>, AllocError> {
    let mut names = Vec::new(alloc);
    for line in text.lines() {
        let Some((name, count)) = line.split_once(' ') else {
            return Ok(None);
        };
        let (count, changes) = match count.strip_suffix(" mut") {
            Some(count) => (count, true),
            None => (count, false),
        };
        let Ok(arguments) = count.parse() else {
            return Ok(None);
        };
        let name = String::from_str(alloc, name)?;
        names.push(HostName {
            name,
            arguments,
            changes,
        })?;
    }
    Ok(Some(names))
}

/// Reports why a text can't be compiled; returns `false` if an allocation failed.
fn tell_error(alloc: Global, kept: &mut Kept, stop: &mut ScriptStop, error: ScriptError) -> bool
    ensures { KeepsWorld kept.old kept.new }
{
    match error {
        ScriptError::Syntax(SyntaxError::Fault(fault, place)) => {
            match format!(in alloc; "{fault}") {
                Ok(why) => tell_stop(kept, stop, 6, place, why.as_str()),
                Err(_) => return false,
            }
            true
        }
        ScriptError::TooLarge(place) => {
            tell_stop(kept, stop, 6, place, "the script is too large");
            true
        }
        ScriptError::Fault(why, place, _) => {
            tell_stop(kept, stop, 6, place, why.as_str());
            true
        }
        ScriptError::Syntax(SyntaxError::OutOfMemory) | ScriptError::OutOfMemory(_) => false,
    }
}

fn compile(alloc: Global, kept: &mut Kept, text: &[u8], names: &[u8], stop: &mut ScriptStop) -> u32
    ensures { KeepsWorld kept.old kept.new }
{
    let (Some(text), Some(names)) = (text_in(text), text_in(names)) else {
        return NO_COMMAND;
    };
    let names = match host_names(alloc, names) {
        Ok(Some(names)) => names,
        Ok(None) => return NO_COMMAND,
        Err(_) => return OUT_OF_MEMORY,
    };
    match kept.engine.compile(text, names.as_slice()) {
        Ok(()) => {
            tell_stop(kept, stop, 0, Position::NONE, "");
            DONE
        }
        Err(error) => {
            if tell_error(alloc, kept, stop, error) {
                DONE
            } else {
                OUT_OF_MEMORY
            }
        }
    }
}

/// Compiles a script for the present variables. The host functions are a line each: the name, a
/// space and the number of arguments, then ` mut` if it may change the first one; the first
/// function has number 0. An unfinished run ends. What is wrong with the text is reported as a stop
/// of kind 6.
#[unsafe(no_mangle)]
pub extern "C" fn rhai_host_script_compile(
    alloc: Global,
    handle: &mut Handle,
    text: &[u8],
    names: &[u8],
    stop: &mut ScriptStop,
) -> u32
    ensures { OnScripts result (content handle.old) (content handle.new) }
{
    let Some(mut kept) = handle.take(alloc) else {
        return CLOSED;
    };
    let status = compile(alloc, &mut kept, text, names, stop);
    handle.put(kept);
    status
}

/// Returns the limits on sizes and calls; others are the host's.
fn limits_of(text: usize, items: usize, entries: usize, calls: usize) -> RunLimits {
    RunLimits {
        sizes: Limits { text, items },
        entries,
        output: 0,
        memory: 0,
        operations: u64::MAX,
        calls,
    }
}

/// Starts a run of the script over the variables, with the largest sizes of texts, arrays and maps,
/// 0 meaning no limit, and the deepest nesting of calls. Without its body, it has ended at once,
/// and functions can be called.
#[unsafe(no_mangle)]
pub extern "C" fn rhai_host_script_begin(
    alloc: Global,
    handle: &mut Handle,
    text: usize,
    items: usize,
    entries: usize,
    calls: usize,
    with_body: bool,
) -> u32
    ensures { OnScripts result (content handle.old) (content handle.new) }
{
    let Some(mut kept) = handle.take(alloc) else {
        return CLOSED;
    };
    let limits = limits_of(text, items, entries, calls);
    let status = status_of(kept.engine.begin(&limits, with_body));
    handle.put(kept);
    status
}

/// Sets whether the run stops before each statement.
#[unsafe(no_mangle)]
pub extern "C" fn rhai_host_script_stop_at_statements(
    alloc: Global,
    handle: &mut Handle,
    stops: bool,
) -> u32
    ensures { OnScripts result (content handle.old) (content handle.new) }
{
    let Some(mut kept) = handle.take(alloc) else {
        return CLOSED;
    };
    kept.engine.stop_at_statements(stops);
    handle.put(kept);
    DONE
}

/// Sets whether this run and later ones note which printed lines are those of `debug`, for
/// `rhai_host_script_debugs`.
#[unsafe(no_mangle)]
pub extern "C" fn rhai_host_script_note_debugs(
    alloc: Global,
    handle: &mut Handle,
    notes: bool,
) -> u32
    ensures { OnScripts result (content handle.old) (content handle.new) }
{
    let Some(mut kept) = handle.take(alloc) else {
        return CLOSED;
    };
    kept.engine.note_debugs(notes);
    handle.put(kept);
    DONE
}

/// Continues the run for at most this many operations.
#[unsafe(no_mangle)]
pub extern "C" fn rhai_host_script_go(
    alloc: Global,
    handle: &mut Handle,
    operations: u64,
    stop: &mut ScriptStop,
) -> u32
    ensures { OnScripts result (content handle.old) (content handle.new) }
{
    let Some(mut kept) = handle.take(alloc) else {
        return CLOSED;
    };
    let step = kept.engine.go(operations);
    tell_step(alloc, &mut kept, stop, step);
    handle.put(kept);
    DONE
}

fn call(alloc: Global, engine: &mut Engine, name: &[u8], arguments: &[u8]) -> u32 {
    let Some(name) = text_in(name) else {
        return NO_COMMAND;
    };
    match arguments_in(alloc, arguments) {
        Ok(mut arguments) => status_of(engine.call(name, &mut arguments)),
        Err(status) => status,
    }
}

/// Starts a call of a function of the script with these arguments: the hash bytes of an array of
/// them. The script's body has to be done, and no call may be open.
#[unsafe(no_mangle)]
pub extern "C" fn rhai_host_script_call(
    alloc: Global,
    handle: &mut Handle,
    name: &[u8],
    arguments: &[u8],
) -> u32
    ensures { OnScripts result (content handle.old) (content handle.new) }
{
    let Some(mut kept) = handle.take(alloc) else {
        return CLOSED;
    };
    let status = call(alloc, &mut kept.engine, name, arguments);
    handle.put(kept);
    status
}

fn call_at_once(
    alloc: Global,
    kept: &mut Kept,
    limits: &RunLimits,
    name: &[u8],
    arguments: &mut [Dynamic],
    operations: u64,
    stop: &mut ScriptStop,
) -> u32
    ensures { KeepsWorld kept.old kept.new }
{
    let Some(name) = text_in(name) else {
        return NO_COMMAND;
    };
    match kept
        .engine
        .call_at_once(limits, name, arguments, operations)
    {
        Ok(Some(step)) => {
            tell_step(alloc, kept, stop, step);
            DONE
        }
        Ok(None) => NO_COMMAND,
        Err(_) => OUT_OF_MEMORY,
    }
}

/// The most arguments that may be passed in numbers.
const MOST_NUMBERS: usize = 6;

/// Makes values of kinds and numbers; returns whether these are as many values, at most
/// `MOST_NUMBERS`.
fn numbers_in(kinds: &[u8], numbers: &[usize], values: &mut [Dynamic]) -> bool {
    if kinds.len() != numbers.len() || kinds.len() > values.len() {
        return false;
    }
    for (place, (kind, number)) in values.iter_mut().zip(kinds.iter().zip(numbers)) {
        match number_in(u32::from(*kind), (*number as u64).cast_signed()) {
            Some(value) => *place = value,
            None => return false,
        }
    }
    true
}

fn call_numbers(
    alloc: Global,
    kept: &mut Kept,
    limits: &RunLimits,
    name: &[u8],
    kinds: &[u8],
    numbers: &[usize],
    operations: u64,
    stop: &mut ScriptStop,
) -> u32
    ensures { KeepsWorld kept.old kept.new }
{
    let mut values = no_values();
    if !numbers_in(kinds, numbers, &mut values) {
        return NO_COMMAND;
    }
    let Some(arguments) = values.get_mut(..kinds.len()) else {
        return NO_COMMAND;
    };
    call_at_once(alloc, kept, limits, name, arguments, operations, stop)
}

fn no_values() -> [Dynamic; MOST_NUMBERS] {
    [
        Dynamic::UNIT,
        Dynamic::UNIT,
        Dynamic::UNIT,
        Dynamic::UNIT,
        Dynamic::UNIT,
        Dynamic::UNIT,
    ]
}

/// Starts a run as `rhai_host_script_begin` does, of a script that has no statements outside
/// functions, calls one of its functions as `rhai_host_script_call` does, and continues for at most
/// this many operations. NO_COMMAND means that there is no run: the script has such statements, or
/// no such function, or no operation is left for the function, or it is not a script for these
/// variables. A run of the script that is done is started again, and keeps the variables until
/// `rhai_host_script_end`.
#[unsafe(no_mangle)]
pub extern "C" fn rhai_host_script_call_at_once(
    alloc: Global,
    handle: &mut Handle,
    text: usize,
    items: usize,
    entries: usize,
    calls: usize,
    name: &[u8],
    arguments: &[u8],
    operations: u64,
    stop: &mut ScriptStop,
) -> u32
    ensures { OnScripts result (content handle.old) (content handle.new) }
{
    let Some(mut kept) = handle.take(alloc) else {
        return CLOSED;
    };
    let limits = limits_of(text, items, entries, calls);
    let status = match arguments_in(alloc, arguments) {
        Ok(mut arguments) => call_at_once(
            alloc,
            &mut kept,
            &limits,
            name,
            &mut arguments,
            operations,
            stop,
        ),
        Err(status) => status,
    };
    handle.put(kept);
    status
}

/// As `rhai_host_script_call_at_once`, with at most six arguments in numbers: each is unit (kind
/// 0), a boolean (1, true unless the number is 0) or an int (2, the number has its bits).
#[unsafe(no_mangle)]
pub extern "C" fn rhai_host_script_call_numbers(
    alloc: Global,
    handle: &mut Handle,
    text: usize,
    items: usize,
    entries: usize,
    calls: usize,
    name: &[u8],
    kinds: &[u8],
    numbers: &[usize],
    operations: u64,
    stop: &mut ScriptStop,
) -> u32
    ensures { OnScripts result (content handle.old) (content handle.new) }
{
    let Some(mut kept) = handle.take(alloc) else {
        return CLOSED;
    };
    let limits = limits_of(text, items, entries, calls);
    let status = call_numbers(
        alloc, &mut kept, &limits, name, kinds, numbers, operations, stop,
    );
    handle.put(kept);
    status
}

/// Ends the run, wherever it is: its variables can be read and written then.
#[unsafe(no_mangle)]
pub extern "C" fn rhai_host_script_end(alloc: Global, handle: &mut Handle) -> u32
    ensures { OnScripts result (content handle.old) (content handle.new) }
{
    let Some(mut kept) = handle.take(alloc) else {
        return CLOSED;
    };
    kept.engine.end();
    handle.put(kept);
    DONE
}
