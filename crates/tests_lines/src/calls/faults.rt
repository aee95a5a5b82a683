//! Readers and writers that fail, that are slow, and that wait.

use rhai_lines::{LinesFault, run_lines};
use std::alloc::{AllocError, Global};
use std::cell::Cell;
use std::io;
use std::io::{ErrorKind, Read, Write};

/// Returns a byte per call, and fails once, after this many `calls`.
#[derive(Drop)]
struct ByteReader<'a> {
    bytes: &'a [u8],
    calls: usize,
    error: ErrorKind,
}

impl Read for ByteReader<'_> {
    fn read(&mut self, buf: &mut [u8]) -> io::Result<usize> {
        if self.calls == 0 {
            self.calls = usize::MAX;
            return Err(io::Error::new(self.error, "no byte"));
        }
        self.calls -= 1;
        match (self.bytes, buf) {
            ([byte, rest @ ..], [place, ..]) => {
                *place = *byte;
                self.bytes = rest;
                Ok(1)
            }
            _ => Ok(0),
        }
    }
}

/// Takes a byte per call, and fails once, at the write or flush after this many `calls`.
#[derive(Drop)]
struct ByteWriter {
    bytes: Vec<u8>,
    calls: usize,
}

impl ByteWriter {
    fn count_call(&mut self) -> io::Result<()> {
        if self.calls == 0 {
            self.calls = usize::MAX;
            return Err(io::Error::other("no room"));
        }
        self.calls -= 1;
        Ok(())
    }
}

impl Write for ByteWriter {
    fn write(&mut self, buf: &[u8]) -> io::Result<usize> {
        self.count_call()?;
        match buf {
            [byte, ..] => {
                self.bytes.push(*byte).map_err(AllocError::from)?;
                Ok(1)
            }
            [] => Ok(0),
        }
    }

    fn flush(&mut self) -> io::Result<()> {
        self.count_call()
    }
}

const INPUT: &[u8] = b"int 7\nshow 0\nno\nshow 0";

const OUTPUT: &[u8] = b"ok\n7\nrefused BadLine\n7\n";

/// Returns the name of what stopped a run.
fn fault(outcome: &Result<(), LinesFault>) -> &'static str {
    match outcome {
        Ok(()) => "none",
        Err(LinesFault::Read(_)) => "Read",
        Err(LinesFault::Write(_)) => "Write",
        Err(LinesFault::Memory) => "Memory",
    }
}

/// Whether a run succeeds if an interrupted read is repeated, or if the reader doesn't reach its
/// fault; and whether any other fault ends it, after whole answers.
fn is_read(alloc: Global, calls: usize, error: ErrorKind) -> bool {
    let mut reader = ByteReader {
        bytes: INPUT,
        calls,
        error,
    };
    let mut out = Vec::new(alloc);
    let outcome = run_lines(alloc, &mut reader, &mut out);
    if calls > INPUT.len() || error == ErrorKind::Interrupted {
        fault(&outcome) == "none" && out.as_slice() == OUTPUT
    } else {
        fault(&outcome) == "Read"
            && OUTPUT.starts_with(&out)
            && matches!(out.last(), None | Some(b'\n'))
    }
}

pub(super) fn reads_may_fail(alloc: Global) -> bool {
    for calls in 0..30 {
        if !is_read(alloc, calls, ErrorKind::Other)
            || !is_read(alloc, calls, ErrorKind::Interrupted)
        {
            return false;
        }
    }
    true
}

/// Whether a run ends where the writer fails, after what was written, or succeeds if the writer
/// doesn't reach its fault. The input comes in one read: there is a flush after it, and one after
/// the last line.
fn is_written(alloc: Global, calls: usize) -> bool {
    let mut reader = INPUT;
    let mut writer = ByteWriter {
        bytes: Vec::new(alloc),
        calls,
    };
    let outcome = run_lines(alloc, &mut reader, &mut writer);
    if calls < OUTPUT.len() + 2 {
        fault(&outcome) == "Write" && OUTPUT.starts_with(&writer.bytes)
    } else {
        fault(&outcome) == "none" && writer.bytes.as_slice() == OUTPUT
    }
}

pub(super) fn writes_may_fail(alloc: Global) -> bool {
    for calls in 0..30 {
        if !is_written(alloc, calls) {
            return false;
        }
    }
    true
}

/// Takes no bytes.
#[derive(Drop)]
struct Full {}

impl Write for Full {
    fn write(&mut self, _buf: &[u8]) -> io::Result<usize> {
        Ok(0)
    }

    fn flush(&mut self) -> io::Result<()> {
        Ok(())
    }
}

/// A writer that takes nothing is a writer's fault.
pub(super) fn a_writer_that_takes_nothing_is_a_fault(alloc: Global) -> bool {
    let mut reader = INPUT;
    let outcome = run_lines(alloc, &mut reader, &mut Full {});
    fault(&outcome) == "Write"
}

/// Makes a line that shows the value at a very long 0.
fn long_line(alloc: Global) -> Result<Vec<u8>, AllocError> {
    let mut input = b"show ".to_vec(alloc)?;
    for _ in 0..1_000_001 {
        input.push(b'0')?;
    }
    Ok(input)
}

/// Whether a line that comes one byte per call is read to its end and answered.
fn is_answered(alloc: Global, line: &[u8], wanted: &[u8]) -> bool {
    let mut reader = ByteReader {
        bytes: line,
        calls: 10,
        error: ErrorKind::Interrupted,
    };
    let mut out = Vec::new(alloc);
    let outcome = run_lines(alloc, &mut reader, &mut out);
    fault(&outcome) == "none" && out.as_slice() == wanted
}

/// A line that comes one byte per call, in more than a million calls.
pub(super) fn a_slow_reader_is_read_to_its_end(alloc: Global) -> bool {
    match long_line(alloc) {
        Ok(line) => is_answered(alloc, &line, b"refused NoValue\n"),
        Err(_) => false,
    }
}

/// Returns a byte per call, as a person who types and waits for each answer, and fails if an answer
/// is kept back.
#[derive(Drop)]
struct WaitingReader<'a> {
    bytes: &'a [u8],
    is_kept_back: &'a Cell<bool>,
}

impl Read for WaitingReader<'_> {
    fn read(&mut self, buf: &mut [u8]) -> io::Result<usize> {
        if self.is_kept_back.get() {
            return Err(io::Error::other("an answer is kept back"));
        }
        match (self.bytes, buf) {
            ([byte, rest @ ..], [place, ..]) => {
                *place = *byte;
                self.bytes = rest;
                Ok(1)
            }
            _ => Ok(0),
        }
    }
}

/// Records whether everything written is flushed.
#[derive(Drop)]
struct FlushedWriter<'a> {
    is_kept_back: &'a Cell<bool>,
}

impl Write for FlushedWriter<'_> {
    fn write(&mut self, buf: &[u8]) -> io::Result<usize> {
        self.is_kept_back.set(true);
        Ok(buf.len())
    }

    fn flush(&mut self) -> io::Result<()> {
        self.is_kept_back.set(false);
        Ok(())
    }
}

/// A reader that waits for answers is read to its end, and no answer is kept back meanwhile.
pub(super) fn answers_are_flushed_before_the_next_read(alloc: Global) -> bool {
    let is_kept_back = Cell::new(false);
    let mut reader = WaitingReader {
        bytes: INPUT,
        is_kept_back: &is_kept_back,
    };
    let mut writer = FlushedWriter {
        is_kept_back: &is_kept_back,
    };
    let outcome = run_lines(alloc, &mut reader, &mut writer);
    fault(&outcome) == "none" && !is_kept_back.get()
}
