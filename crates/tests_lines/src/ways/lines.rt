//! A run over lines.

use crate::rows::{input_of, row_of};
use crate::seen::tell;
use rhai_lines::{LinesFault, run_lines};
use std::alloc::{AllocError, Global};
use std::io::Eprint;

/// Whether the output consists of the answers to some first lines, each complete.
fn are_first_answers(rows: &str, mut out: &[u8]) -> bool {
    for (line, answer) in rows.lines().filter_map(row_of) {
        if out.is_empty() && !line.is_empty() {
            return true;
        }
        match out
            .strip_prefix(answer.as_bytes())
            .and_then(|rest| rest.strip_prefix(b"\n"))
        {
            Some(rest) => out = rest,
            None => return false,
        }
    }
    out.is_empty()
}

/// Executes the lines of the rows; if an allocation fails, the output must consist of complete
/// answers, and the lines are executed again.
pub(super) fn run_lines_at_last(
    rt: &impl Eprint,
    alloc: Global,
    rows: &str,
    out: &mut Vec<u8>,
) -> Result<bool, AllocError> {
    let input = input_of(alloc, rows)?;
    let mut reader = input.as_bytes();
    match run_lines(alloc, &mut reader, out) {
        Ok(()) => return Ok(true),
        Err(LinesFault::Memory) => tell(rt, "run_lines"),
        Err(LinesFault::Read(_) | LinesFault::Write(_)) => return Ok(false),
    }
    if !are_first_answers(rows, out) {
        return Ok(false);
    }
    let mut reader = input.as_bytes();
    out.clear();
    match run_lines(alloc, &mut reader, out) {
        Ok(()) => Ok(true),
        Err(LinesFault::Memory) => Err(AllocError),
        Err(LinesFault::Read(_) | LinesFault::Write(_)) => Ok(false),
    }
}
