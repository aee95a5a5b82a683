//! The journal of a host: the commands that it executed, and their answers.

ghost use Rattle.std.specs.Prelude.{◌≡◌, ◌++◌, ◌∷◌, [], IfOk, IfSome, OnOk};
ghost use Rattle.rhai_lines.specs.Output.{output_of_commands, new_world};

use rhai_lines::{LinesFault, journal, run_lines};
use rhai_run::Command;
use std::alloc::{AllocError, Global};

/// The commands that a host executed, and the answers as they were printed.
#[derive(Drop)]
pub struct Journal {
    pub commands: Vec<Command>,
    pub answers: Vec<u8>,
}

impl Journal {
    /// Makes an empty journal.
    pub fn new(alloc: Global) -> Journal
        ensures commands { result.commands.items ≡ [] }
        ensures answers { result.answers.items ≡ [] }
    {
        Journal {
            commands: Vec::new(alloc),
            answers: Vec::new(alloc),
        }
    }

    /// Records a command that was executed, with its answer.
    pub fn keep(&mut self, command: Command, answer: &[u8]) -> Result<(), AllocError>
        ensures commands { OnOk result (self.new.commands.items ≡ self.old.commands.items ++ command ∷ []) }
        ensures answers { OnOk result (self.new.answers.items ≡ self.old.answers.items ++ answer.now) }
    {
        self.answers.extend_from_slice(answer)?;
        self.commands.push(command)?;
        Ok(())
    }

    /// Returns what a new world answers to the commands; `None` if one of them has no line.
    pub fn replayed(&self, alloc: Global) -> Result<Option<Vec<u8>>, LinesFault>
        ensures { IfOk result (λ o. IfSome o (λ out. out.items ≡ output_of_commands new_world self.now.commands.items)) }
    {
        let Ok(lines) = journal(alloc, &self.commands) else {
            return Err(LinesFault::Memory);
        };
        let Some(lines) = lines else {
            return Ok(None);
        };
        let mut reader = lines.as_bytes();
        let mut out = Vec::new(alloc);
        run_lines(alloc, &mut reader, &mut out)?;
        Ok(Some(out))
    }
}
