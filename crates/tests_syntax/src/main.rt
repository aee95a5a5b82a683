//! Reads rows, each a script and its parsed shape, `script -> shape`, and prints those that are
//! parsed differently. A section begins with `# name`; in one named `# name | 1000 times` the
//! script is a row's text repeated that often, and a 1.
#![tactic(auto)]

mod shape;

use crate::shape::add_program;
use script_syntax::{SyntaxError, parse};
use std::alloc::{AllocError, Global};
use std::io;
use std::process::ExitCode;

/// How many rows were parsed as they say, and how many differently.
#[derive(Drop)]
struct Tally {
    right: u64,
    wrong: u64,
}

/// Returns a text with each picture of a line feed, `␊`, replaced by one.
fn with_line_feeds(alloc: Global, text: &str) -> Result<String, AllocError> {
    let mut out = String::new(alloc);
    for c in text.chars() {
        out.push(if c == '\u{240a}' { '\n' } else { c })?;
    }
    Ok(out)
}

/// Parses a script: returns the shape of its trees, or its fault and position.
fn read(alloc: Global, script: &str) -> Result<String, AllocError> {
    let mut out = String::new(alloc);
    match parse(alloc, script) {
        Ok(program) => add_program(&mut out, &program)?,
        Err(SyntaxError::Fault(fault, place)) => {
            write!(out, " {fault:?} at {}:{}", place.line(), place.position())?;
        }
        Err(SyntaxError::OutOfMemory) => return Err(AllocError),
    }
    Ok(out)
}

/// Repeats the unit this many times, and appends a 1.
fn repeated(alloc: Global, unit: &str, count: usize) -> Result<String, AllocError> {
    let mut text = String::new(alloc);
    for _ in 0..count {
        text.push_str(unit)?;
    }
    text.push_str("1")?;
    Ok(text)
}

/// Parses a repeated script: returns its fault, if it has one.
fn read_repeated(alloc: Global, unit: &str, count: usize) -> Result<String, AllocError> {
    let script = repeated(alloc, unit, count)?;
    let mut out = String::new(alloc);
    match parse(alloc, script.as_str()) {
        Ok(_) => out.push_str(" a tree")?,
        Err(SyntaxError::Fault(fault, _)) => write!(out, " {fault:?}")?,
        Err(SyntaxError::OutOfMemory) => return Err(AllocError),
    }
    Ok(out)
}

/// Returns how often the texts of a section are repeated, if they are.
fn times(head: &str) -> Option<usize> {
    let (_, said) = head.split_once(" | ")?;
    said.strip_suffix(" times")?.parse::<usize>().ok()
}

/// Parses the script of a row, and prints a difference from the row.
fn try_row(
    rt: &(impl Print + AllocGlobal),
    count: Option<usize>,
    row: (&str, &str),
    tally: &mut Tally,
) -> io::Result<()> {
    let script = with_line_feeds(rt.alloc(), row.0)?;
    let found = match count {
        Some(count) => read_repeated(rt.alloc(), &script, count)?,
        None => read(rt.alloc(), &script)?,
    };
    if found == with_line_feeds(rt.alloc(), row.1)? {
        tally.right = tally.right.saturating_add(1);
        return Ok(());
    }
    tally.wrong = tally.wrong.saturating_add(1);
    println!(rt; "{script} ->{found}")
}

/// Tries the rows of a section.
fn try_section(
    rt: &(impl Print + AllocGlobal),
    section: &str,
    tally: &mut Tally,
) -> io::Result<()> {
    let (head, rows) = section.split_once('\n').unwrap_or((section, ""));
    let count = times(head);
    for row in rows.lines() {
        match row.split_once(" ->") {
            Some(row) => try_row(rt, count, row, tally)?,
            None => return Err(io::Error::other("a row has no arrow")),
        }
    }
    Ok(())
}

/// Whether all rows of the input are parsed as they say.
fn are_right(rt: &(impl Input + Print + AllocGlobal)) -> io::Result<bool> {
    let text = io::read_to_string(rt.alloc(), rt.reader())?;
    let mut tally = Tally { right: 0, wrong: 0 };
    for section in text.as_str().split("\n# ") {
        try_section(rt, section, &mut tally)?;
    }
    println!(rt; "{} rows, {} wrong", tally.right, tally.wrong)?;
    Ok(tally.wrong == 0)
}

fn main(rt: HostRuntime) -> io::Result<ExitCode> {
    match are_right(&rt)? {
        true => Ok(ExitCode::SUCCESS),
        false => Ok(ExitCode::from(1)),
    }
}
