//! Which variables are in scope at which operations, and where statements begin.

use crate::compiler::{Compiler, to_slot};
use crate::error::CodeError;
use crate::operations::{Slot, Target};
use crate::program::Variable;
use rhai_text::{ImmutableString, Position};
use script_tree::Block;

/// The names of the variables of a `for`.
#[derive(Clone, Copy)]
pub(crate) struct LoopNames<'p> {
    pub(crate) item: &'p ImmutableString,
    pub(crate) index: &'p Option<ImmutableString>,
}

/// Variables.
impl<'p> Compiler<'p> {
    /// Brings a variable into scope from the next operation on.
    pub(crate) fn show(&mut self, name: &str, slot: Slot) -> Result<(), CodeError> {
        let first = self.here()?;
        let number = self.variables.len();
        self.variables.push(Variable {
            name: String::from_str(self.alloc, name)?,
            slot,
            first,
            end: Target::MAX,
        })?;
        self.in_sight.push(number)?;
        Ok(())
    }

    /// As `show`, for an own variable of this number.
    pub(crate) fn show_own(&mut self, name: &str, number: usize) -> Result<(), CodeError> {
        let slot = self.own(number)?;
        self.show(name, slot)
    }

    /// Brings the parameters into scope, and the captured variables, which have the next slots.
    pub(crate) fn show_given(&mut self, names: &[ImmutableString]) -> Result<(), CodeError> {
        for (number, name) in names.iter().enumerate() {
            self.show(name.as_str(), to_slot(number)?)?;
        }
        Ok(())
    }

    /// Brings the variables of a `for` into scope.
    pub(crate) fn show_round(
        &mut self,
        names: LoopNames<'_>,
        item: usize,
        index: Option<usize>,
    ) -> Result<(), CodeError> {
        self.show_own(names.item.as_str(), item)?;
        match (names.index, index) {
            (Some(name), Some(index)) => self.show_own(name.as_str(), index),
            (None, _) | (_, None) => Ok(()),
        }
    }

    /// Ends the variables that came into scope after this many.
    pub(crate) fn hide_variables(&mut self, outer: usize) -> Result<(), CodeError> {
        let end = self.here()?;
        for _ in outer..self.in_sight.len() {
            if let Some(number) = self.in_sight.pop() {
                if let Some(variable) = self.variables.get_mut(number) {
                    variable.end = end;
                }
            }
        }
        Ok(())
    }
}

/// Statements.
impl<'p> Compiler<'p> {
    /// Begins the statement of a number.
    pub(crate) fn begin_statement(&mut self, block: &Block, number: usize) {
        if let Some(position) = block.positions.get(number) {
            self.statement = *position;
            self.position = *position;
        }
    }

    /// Ends a statement: one without operations begins nowhere.
    pub(crate) fn end_statement(&mut self) {
        self.statement = Position::NONE;
    }
}
