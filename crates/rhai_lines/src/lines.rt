//! A run over lines: each is answered as soon as it is complete.
ghost use Rattle.std.specs.Prelude.{◌≡◌, ℕ, List, Option, [], ◌∷◌, ◌++◌, ◌==◌, false, take, Some, All, OnOk, OnErr, IfErr, IfNone, IfSome};
ghost use Rattle.std.specs.Io.KnownBytes.{Appends};
ghost use Rattle.rhai_run.specs.State.{State};
ghost use Rattle.rhai_lines.specs.Output.{line_answer, line_state, new_world, output, output_of_first};
ghost use Rattle.rhai_lines.specs.Fed.{AnswerAlike, Feeds, StopsWithin, Completes, AnswersWhatIsRead};
ghost use Rattle.rhai_lines.specs.Faults.{IsNoWriteFault, IsReadFault, IsNoReadFault};

use crate::print::{write_answer, write_bad_line};
use crate::verbs::command;
use memchr::memchr;
use rhai_run::laws::collecting_is_not_seen;
use rhai_run::{World, apply};
use rhai_text::Limits;
use std::alloc::Global;
use std::io;
use std::io::{ErrorKind, Read, Write};
use thiserror::Error;

/// Why a run over lines stopped before the end of the input.
#[derive(Debug, Drop, Error)]
pub enum LinesFault {
    /// The reader failed, or was read 2^64 - 1 times without an end.
    #[error("the input can't be read")]
    Read(io::Error),
    /// The writer failed.
    #[error("the answers can't be written")]
    Write(io::Error),
    /// An allocation failed.
    #[error("out of memory")]
    Memory,
}

/// Answers a line.
fn answer_line<W: Write>(
    alloc: Global,
    world: &mut World,
    line: &[u8],
    writer: &mut W,
) -> Result<(), LinesFault>
    ensures state { OnOk result (world.new ≡ line_state world.old line.now) }
    ensures answer { OnOk result (Appends (W.contents writer.old) (W.contents writer.new) (line_answer world.old line.now)) }
    ensures fault { IfErr result (λ e. IsNoWriteFault e → W.contents writer.new ≡ W.contents writer.old) }
    ensures kind { IfErr result IsNoReadFault }
{
    let Ok(command) = command(alloc, line) else {
        return Err(LinesFault::Memory);
    };
    let Some(command) = command else {
        return write_bad_line(writer).map_err(LinesFault::Write);
    };
    let Ok(answer) = apply(world, &command) else {
        return Err(LinesFault::Memory);
    };
    write_answer(&answer, writer).map_err(LinesFault::Write)
}

/// Splits off the first line, if a line feed ends one.
pub(crate) fn cut_line(bytes: &[u8]) -> Option<(&[u8], &[u8])>
    ensures some { IfSome result (λ p. (bytes.now ≡ p.0.now ++ 10 ∷ p.1.now) × All (λ b. (b == 10) ≡ false) p.0.now) }
    ensures none { IfNone result (All (λ b. (b == 10) ≡ false) bytes.now) }
{
    let at = memchr(b'\n', bytes)?;
    Some((&bytes[..at], &bytes[at + 1..]))
}

/// Answers a line whose first bytes may have come earlier.
fn answer_whole<W: Write>(
    alloc: Global,
    world: &mut World,
    partial: &mut Vec<u8>,
    line: &[u8],
    writer: &mut W,
) -> Result<(), LinesFault>
    ensures none { OnOk result (partial.new.items ≡ []) }
    ensures state { OnOk result (world.new ≡ line_state world.old (partial.old.items ++ line.now)) }
    ensures answer { OnOk result (Appends (W.contents writer.old) (W.contents writer.new) (line_answer world.old (partial.old.items ++ line.now))) }
    ensures fault { IfErr result (λ e. IsNoWriteFault e → W.contents writer.new ≡ W.contents writer.old) }
    ensures kind { IfErr result IsNoReadFault }
{
    if partial.is_empty() {
        return answer_line(alloc, world, line, writer);
    }
    if partial.extend_from_slice(line).is_err() {
        return Err(LinesFault::Memory);
    }
    answer_line(alloc, world, partial, writer)?;
    partial.clear();
    Ok(())
}

/// Processes input bytes: answers each line that they complete, and keeps the rest for the next
/// ones.
fn feed<W: Write>(
    alloc: Global,
    world: &mut World,
    partial: &mut Vec<u8>,
    bytes: &[u8],
    writer: &mut W,
) -> Result<(), LinesFault>
    ensures fed { OnOk result (Feeds bytes.now partial.old.items world.old (W.contents writer.old) partial.new.items world.new (W.contents writer.new)) }
    ensures fault { IfErr result (λ e. IsNoWriteFault e → StopsWithin bytes.now partial.old.items world.old (W.contents writer.old) (W.contents writer.new)) }
    ensures kind { IfErr result IsNoReadFault }
{
    let mut left = bytes;
    while let Some((line, rest)) = cut_line(left) {
        answer_whole(alloc, world, partial, line, writer)?;
        left = rest;
    }
    if partial.extend_from_slice(left).is_err() {
        return Err(LinesFault::Memory);
    }
    Ok(())
}

/// Answers a last line without a line feed, if there is one.
fn finish<W: Write>(
    alloc: Global,
    world: &mut World,
    partial: &[u8],
    writer: &mut W,
) -> Result<(), LinesFault>
    ensures done { OnOk result (Completes partial.now world.old (W.contents writer.old) (W.contents writer.new)) }
    ensures fault { IfErr result (λ e. IsNoWriteFault e → W.contents writer.new ≡ W.contents writer.old) }
    ensures kind { IfErr result IsNoReadFault }
{
    if partial.is_empty() {
        return Ok(());
    }
    answer_line(alloc, world, partial, writer)?;
    writer.flush().map_err(LinesFault::Write)
}

/// Collects cells if that is due. If an allocation for that fails, the world is unchanged.
fn give_back(world: &mut World)
    ensures { AnswerAlike world.old world.new }
{
    collecting_is_not_seen();
    let _collected = world.collect_if_due();
}

/// Answers the lines of all input of the reader.
fn answer_input<R: Read, W: Write>(
    alloc: Global,
    world: &mut World,
    reader: &mut R,
    writer: &mut W,
) -> Result<(), LinesFault>
    ensures done { OnOk result (IfSome (R.remaining reader.old) (λ input. Appends (W.contents writer.old) (W.contents writer.new) (output world.old input))) }
    ensures end { OnOk result (IfSome (R.remaining reader.old) (λ _. R.remaining reader.new ≡ Some [])) }
    ensures fault { IfErr result (λ e. IsNoWriteFault e → IfSome (R.remaining reader.old) (λ input. (n : ℕ) × Appends (W.contents writer.old) (W.contents writer.new) (output_of_first world.old n input))) }
    ensures read { IfErr result (λ e. IsReadFault e → IfSome (R.remaining reader.old) (λ input. AnswersWhatIsRead world.old input (R.remaining reader.new) (W.contents writer.old) (W.contents writer.new))) }
{
    let mut partial = Vec::new(alloc);
    let mut buffer = [0; 4096];
    for _turn in 0..u64::MAX {
        let count = match reader.read(&mut buffer) {
            Ok(count) => count,
            Err(error) if error.kind() == ErrorKind::Interrupted => continue,
            Err(error) => return Err(LinesFault::Read(error)),
        };
        if count == 0 {
            return finish(alloc, world, &partial, writer);
        }
        let bytes = &buffer[..count];
        feed(alloc, world, &mut partial, bytes, writer)?;
        // The answers are flushed before a read that may block.
        if bytes.contains(&b'\n') {
            writer.flush().map_err(LinesFault::Write)?;
        }
        give_back(world);
    }
    Err(LinesFault::Read(io::Error::other("the input has no end")))
}

/// Reads lines until the end of the input, executes the command of each on a new world, and writes
/// an answer for each: `docs/LINES.md` describes both. Lines end with a line feed; the last one may
/// end with the input. A line is answered as soon as it is complete, and the writer is flushed
/// before the next read.
/// Errors: after a `Read` or `Memory` the first lines have their answers, each complete; after a
/// `Write` the writer knows how much it took.
/// Cost: that of the commands; memory for the world and for the longest line. Unreachable cells are
/// collected after a read, if that is due (`World::collect_if_due`).
pub fn run_lines<R: Read, W: Write>(
    alloc: Global,
    reader: &mut R,
    writer: &mut W,
) -> Result<(), LinesFault>
    ensures done { OnOk result (IfSome (R.remaining reader.old) (λ input. Appends (W.contents writer.old) (W.contents writer.new) (output new_world input))) }
    ensures end { OnOk result (IfSome (R.remaining reader.old) (λ _. R.remaining reader.new ≡ Some [])) }
    ensures fault { IfErr result (λ e. IsNoWriteFault e → IfSome (R.remaining reader.old) (λ input. (n : ℕ) × Appends (W.contents writer.old) (W.contents writer.new) (output_of_first new_world n input))) }
    ensures read { IfErr result (λ e. IsReadFault e → IfSome (R.remaining reader.old) (λ input. AnswersWhatIsRead new_world input (R.remaining reader.new) (W.contents writer.old) (W.contents writer.new))) }
{
    let mut world = World::new(alloc, Limits { text: 0, items: 0 });
    let outcome = answer_input(alloc, &mut world, reader, writer);
    world.close();
    outcome
}
