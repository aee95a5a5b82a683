//! Calls of host functions that change their first argument: the changed value returns after the
//! arguments, and is written to the argument's place.

use crate::chains::{Called, Root};
use crate::compiler::{Compiler, to_slot};
use crate::error::CodeError;
use crate::meaning::{HostName, Meaning};
use crate::operations::{Op, Slot};
use crate::program::{PathStep, Place};
use crate::quiet::known_variable;
use rhai_text::Position;
use script_tree::Expr;

/// Whether a host function changes its first argument.
pub(crate) fn host_changes(host: &[HostName], number: u32) -> bool {
    match host.get(number as usize) {
        Some(known) => known.changes,
        None => false,
    }
}

impl<'p> Compiler<'p> {
    /// Returns the host function that it means, if that changes its first argument.
    pub(crate) fn changes_first(&self, meaning: Meaning) -> Option<u32> {
        match meaning {
            Meaning::Host(number) if host_changes(self.host, number) => Some(number),
            Meaning::Host(_)
            | Meaning::Print
            | Meaning::Debug
            | Meaning::IsShared
            | Meaning::IsVariable
            | Meaning::IsFunction
            | Meaning::Call
            | Meaning::Curry
            | Meaning::Exit
            | Meaning::Each(_)
            | Meaning::Sort
            | Meaning::Sift(_)
            | Meaning::Search
            | Meaning::Native(_) => None,
        }
    }

    /// Calls such a function by name, with values that begin at the slot of the result. A variable
    /// as the first argument is written, if it is neither shared nor constant.
    pub(crate) fn call_changing(
        &mut self,
        number: u32,
        arguments: &[Expr],
        first: Slot,
        position: Position,
    ) -> Result<(), CodeError> {
        let variable = match arguments.first() {
            Some(argument) => known_variable(argument),
            None => None,
        };
        let Some(variable) = variable else {
            self.emit_at(Op::CallHost(first, number), position)?;
            return Ok(());
        };
        let variable = self.slot_of(variable)?;
        let changed = self.slot_behind(first, arguments.len())?;
        let place = Place {
            position,
            flag: true,
            moves: true,
            ..self.place()
        };
        self.emit_with(Op::CallHost(first, number), place)?;
        self.put_changed(variable, changed, Vec::new(self.alloc), position)
    }

    /// Calls such a function on the value at steps from a variable, and writes the changed value
    /// there.
    pub(crate) fn host_at(
        &mut self,
        number: u32,
        root: Slot,
        variable: Position,
        method: &Called,
        first: Slot,
    ) -> Result<Slot, CodeError> {
        self.emit_at(Op::Writable(root), variable)?;
        let path = self.copied_path(method)?;
        self.read(Root::Variable(root, variable), path, first)?;
        let changed = self.slot_behind(first, method.arguments.saturating_add(1))?;
        let place = Place {
            position: method.position,
            moves: true,
            ..self.place()
        };
        self.emit_with(Op::CallHost(first, number), place)?;
        let path = self.copied_path(method)?;
        self.put_changed(root, changed, path, variable)?;
        Ok(first)
    }

    /// Returns the slot after this many values, which nothing else uses.
    fn slot_behind(&mut self, first: Slot, count: usize) -> Result<Slot, CodeError> {
        let slot = to_slot(usize::from(first).saturating_add(count))?;
        if self.top <= slot {
            self.take_slot()?;
        }
        Ok(slot)
    }

    /// Writes a value to the place at steps from a variable.
    fn put_changed(
        &mut self,
        root: Slot,
        from: Slot,
        path: Vec<PathStep>,
        position: Position,
    ) -> Result<(), CodeError> {
        let path = self.path(path)?;
        let place = Place {
            position,
            moves: true,
            path,
            ..self.place()
        };
        self.emit_with(Op::Write(root, from, path), place)?;
        Ok(())
    }
}
