//! Executes rows, each a line and its answer, on worlds of script values, and prints those with a
//! different answer. The arguments are files of rows, with a way before them if only that one is to
//! be tried, and `calls`. The README lists the ways.
#![tactic(auto)]

mod alike;
mod calls;
mod expressions;
mod free;
mod rows;
mod sections;
mod seen;
mod ways;
mod written;

use crate::rows::without_pictures;
use crate::sections::{Kind, Section, section_of};
use crate::ways::{Way, are_taken, way_named};
use std::alloc::Global;
use std::process::ExitCode;
use std::rt::{Env, Files};
use std::{env, fs, io};

/// How many sections were tried, and in how many ways one had different answers; and the rows of
/// those that a journal can contain.
#[derive(Drop)]
struct Tally {
    tried: u64,
    wrong: u64,
    journal: String,
}

/// Whether a section has the answers that it says, and the actual answers.
fn is_answered(
    rt: &(impl Eprint + AllocGlobal),
    way: Way,
    section: &Section<'_>,
    found: &mut Vec<u8>,
) -> io::Result<bool> {
    let is_right = match section.kind {
        Kind::Lines(limits) => ways::is_answered(rt, rt.alloc(), way, limits, section.rows, found),
        Kind::Alike => alike::is_answered(rt.alloc(), section, found),
        Kind::Free => free::is_answered(rt.alloc(), section, found),
        Kind::Written => written::is_answered(rt.alloc(), section.rows, found),
        Kind::Expressions => expressions::is_answered(rt, rt.alloc(), section, found),
    };
    Ok(is_right?)
}

/// Tries a section in one way.
fn try_in(
    rt: &(impl Print + Eprint + AllocGlobal),
    way: Way,
    section: &Section<'_>,
    tally: &mut Tally,
) -> io::Result<()> {
    let mut found = rows::room(rt.alloc())?;
    tally.tried = tally.tried.saturating_add(1);
    if is_answered(rt, way, section, &mut found)? {
        return Ok(());
    }
    tally.wrong = tally.wrong.saturating_add(1);
    let found = String::from_utf8_lossy(rt.alloc(), &found)?;
    println!(rt; "{} ({}) is answered:\n{found}", section.name, way.name())
}

/// Tries a section: lines in the requested ways, and others once.
fn try_section(
    rt: &(impl Print + Eprint + AllocGlobal),
    only: Option<Way>,
    section: &Section<'_>,
    tally: &mut Tally,
) -> io::Result<()> {
    let Kind::Lines(limits) = section.kind else {
        return try_in(rt, Way::Lines, section, tally);
    };
    for way in ways::ALL {
        if are_taken(way, only, limits) {
            try_in(rt, way, section, tally)?;
        }
    }
    if only.is_none() && are_taken(Way::Lines, only, limits) {
        tally.journal.push_str(section.rows)?;
        tally.journal.push_str("\n")?;
    }
    Ok(())
}

/// Tries the sections of a file.
fn try_file(
    rt: &(impl Files + Print + Eprint + AllocGlobal),
    only: Option<Way>,
    name: &str,
    tally: &mut Tally,
) -> io::Result<()> {
    let text = fs::read_to_string(rt, name)?;
    let text = without_pictures(rt.alloc(), text.as_str())?;
    for part in text.split("\n# ") {
        match section_of(part) {
            Some(section) => try_section(rt, only, &section, tally)?,
            None => return Err(io::Error::other("a section has no name, or is of no kind")),
        }
    }
    Ok(())
}

/// Tries what the arguments name: files, a way for the files after it, and `calls`.
fn try_files(
    rt: &(impl Files + Print + Eprint + Env + AllocGlobal),
    tally: &mut Tally,
) -> io::Result<()> {
    let mut only = None;
    for word in env::args(rt)?.skip(1) {
        if word.as_str() == "calls" {
            calls::try_calls(rt, tally)?;
        } else if let Some(way) = way_named(word.as_str()) {
            only = Some(way);
        } else {
            try_file(rt, only, word.as_str(), tally)?;
        }
    }
    Ok(())
}

/// Tries the journal of all lines, repeated four times.
fn try_journal(rt: &(impl Print + AllocGlobal), tally: &mut Tally) -> io::Result<()> {
    let alloc: Global = rt.alloc();
    let commands = written::long_run(alloc, tally.journal.as_str(), 4)?;
    if !written::is_replayed(alloc, &commands)? {
        tally.wrong = tally.wrong.saturating_add(1);
        println!(rt; "the journal is answered otherwise")?;
    }
    println!(rt; "{} commands in a journal", commands.len())
}

/// Whether all answers are right.
fn is_all_right(rt: &(impl Files + Print + Eprint + Env + AllocGlobal)) -> io::Result<bool> {
    let mut tally = Tally {
        tried: 0,
        wrong: 0,
        journal: String::new(rt.alloc()),
    };
    try_files(rt, &mut tally)?;
    if !tally.journal.is_empty() {
        try_journal(rt, &mut tally)?;
    }
    println!(rt; "{} tried, {} wrong", tally.tried, tally.wrong)?;
    Ok(tally.wrong == 0)
}

fn main(rt: HostRuntime) -> ExitCode {
    match is_all_right(&rt) {
        Ok(true) => ExitCode::SUCCESS,
        Ok(false) => ExitCode::from(1),
        Err(error) => {
            // if standard error fails too, only the exit status is left to report it
            let _ = eprintln!(rt; "error: {error}");
            ExitCode::from(2)
        }
    }
}
