//! Commands as lines, and journals of commands.
ghost use Rattle.std.specs.Prelude.{◌≡◌, [], Some, IsOk, IfOk, IfSome, option_map, string_bytes};
ghost use Rattle.rhai_lines.specs.Verbs.{command_of};
ghost use Rattle.rhai_lines.specs.Spelling.{IsLineOf, IsJournalOf};
ghost use Rattle.rhai_lines.specs.Output.{commands_in, lines_of, output, output_of_commands, new_world};

use crate::lines::cut_line;
use crate::verbs::{add_line, command};
use rhai_run::Command;
use std::alloc::{AllocError, Global};

/// Writes the line of a command; `None` if a name in it isn't a word of a line, a text in it has a
/// line feed, or its host value is a range.
/// Errors: the allocation of the line fails.
/// Cost: the length of the line; memory for it, or for its words up to the first that can't be
/// written.
pub fn line_of(alloc: Global, command: &Command) -> Result<Option<String>, AllocError>
    ensures line { IfOk result (λ o. IsLineOf command.now (option_map string_bytes o)) }
    ensures reads_back { IfOk result (λ o. IfSome o (λ line. command_of (string_bytes line) ≡ Some command.now)) }
{
    let mut line = String::new(alloc);
    if add_line(&mut line, command)? {
        Ok(Some(line))
    } else {
        Ok(None)
    }
}

/// Reads the commands of lines in order; `None` if a line has none. Lines end with a line feed; the
/// last one may end with the bytes.
/// Errors: an allocation for the commands fails.
/// Cost: the length of the lines; memory for the commands.
pub fn commands_of(alloc: Global, lines: &[u8]) -> Result<Option<Vec<Command>>, AllocError>
    ensures { IfOk result (λ o. option_map (λ v. v.items) o ≡ commands_in (lines_of lines.now)) }
{
    let mut commands = Vec::new(alloc);
    let mut left = lines;
    while let Some((line, rest)) = cut_line(left) {
        let Some(next) = command(alloc, line)? else {
            return Ok(None);
        };
        commands.push(next)?;
        left = rest;
    }
    if left.is_empty() {
        return Ok(Some(commands));
    }
    let Some(last) = command(alloc, left)? else {
        return Ok(None);
    };
    commands.push(last)?;
    Ok(Some(commands))
}

/// Writes the lines of commands in order, each with a line feed: a run over them gives the answers
/// of the commands. `None` if a command has no line.
/// Errors: the allocation of the lines fails.
/// Cost: the length of the lines; memory for them.
pub fn journal(alloc: Global, commands: &[Command]) -> Result<Option<String>, AllocError>
    ensures lines { IfOk result (λ o. IsJournalOf commands.now (option_map string_bytes o)) }
    ensures none { commands.now ≡ [] → IsOk result }
    ensures replayed { IfOk result (λ o. IfSome o (λ text. output new_world (string_bytes text) ≡ output_of_commands new_world commands.now)) }
{
    let mut text = String::new(alloc);
    let mut left = commands;
    while let [command, rest @ ..] = left {
        if !add_line(&mut text, command)? {
            return Ok(None);
        }
        text.push_str("\n")?;
        left = rest;
    }
    Ok(Some(text))
}
