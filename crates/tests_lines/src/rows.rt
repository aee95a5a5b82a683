//! Rows of a line and its answer, `line -> answer`.

use rhai_lines::{command, write_answer};
use rhai_run::{Answer, Command, World, run};
use std::alloc::{AllocError, Global};

const BAD_LINE: &str = "refused BadLine";

/// Returns the line and the answer of a row. If the row continues an answer, the line is empty.
pub(crate) fn row_of(row: &str) -> Option<(&str, &str)> {
    let (line, answer) = row.split_once(" ->")?;
    Some((line, answer.strip_prefix(' ').unwrap_or(answer)))
}

/// Returns the control character for a picture, or the character itself.
fn without_picture(c: char) -> char {
    match c {
        '\u{2421}' => '\u{7f}',
        '\u{2400}'..='\u{241f}' => char::from_u32(u32::from(c).wrapping_sub(0x2400)).unwrap_or(c),
        _ => c,
    }
}

/// Replaces each picture of a control character, `␀` to `␟` and `␡`, by that character.
pub(crate) fn without_pictures(alloc: Global, text: &str) -> Result<String, AllocError> {
    let mut out = String::new(alloc);
    for c in text.chars() {
        out.push(without_picture(c))?;
    }
    Ok(out)
}

/// Returns the answers of the rows, each on a line of its own; for commands only, without those of
/// lines that are no commands.
pub(crate) fn wanted(alloc: Global, rows: &str, of_all: bool) -> Result<String, AllocError> {
    let mut text = String::new(alloc);
    for (_, answer) in rows.lines().filter_map(row_of) {
        if of_all || answer != BAD_LINE {
            text.push_str(answer)?;
            text.push_str("\n")?;
        }
    }
    Ok(text)
}

/// The lines of the rows, each with a line feed.
pub(crate) fn input_of(alloc: Global, rows: &str) -> Result<String, AllocError> {
    let mut text = String::new(alloc);
    for (line, _) in rows.lines().filter_map(row_of) {
        if !line.is_empty() {
            text.push_str(line)?;
            text.push_str("\n")?;
        }
    }
    Ok(text)
}

/// Returns the lines of rows that are commands.
pub(crate) fn lines_of(alloc: Global, rows: &str) -> Result<Vec<&str>, AllocError> {
    let mut lines = Vec::new(alloc);
    for (line, answer) in rows.lines().filter_map(row_of) {
        if !line.is_empty() && answer != BAD_LINE {
            lines.push(line)?;
        }
    }
    Ok(lines)
}

/// Reads the commands of the lines, if each is one.
pub(crate) fn commands_of(alloc: Global, lines: &[&str]) -> Result<Vec<Command>, AllocError> {
    let mut commands = Vec::new(alloc);
    for line in lines {
        match command(alloc, line.as_bytes())? {
            Some(command) => commands.push(command)?,
            None => return Err(AllocError),
        }
    }
    Ok(commands)
}

/// Reads the commands of rows.
pub(crate) fn commands_in(alloc: Global, rows: &str) -> Result<Vec<Command>, AllocError> {
    let lines = lines_of(alloc, rows)?;
    commands_of(alloc, &lines)
}

/// Reserves capacity for what is written, so that writing doesn't allocate.
pub(crate) fn room(alloc: Global) -> Result<Vec<u8>, AllocError> {
    Vec::with_capacity(alloc, 1 << 14)
}

/// Writes answers as they are printed.
pub(crate) fn are_written(answers: &[Answer], out: &mut Vec<u8>) -> bool {
    for answer in answers {
        if write_answer(answer, out).is_err() {
            return false;
        }
    }
    true
}

/// Runs the commands that set up a world.
pub(crate) fn make(world: &mut World, commands: &[Command]) -> Result<(), AllocError> {
    match run(world, commands) {
        Ok(_) => Ok(()),
        Err(_) => Err(AllocError),
    }
}
