//! `this`: the receiver of a function.

use crate::compiler::{Compiler, to_slot};
use crate::error::CodeError;
use crate::operations::{Op, Slot};
use rhai_text::Position;
use script_tree::{Expr, Variable};

/// Returns the position of the variable that an expression is.
pub(crate) fn position_of(expr: &Expr, otherwise: Position) -> Position {
    if let Expr::Variable { position, .. } = expr {
        *position
    } else {
        otherwise
    }
}

impl<'p> Compiler<'p> {
    /// Begins a function that uses `this`: it has no receiver if execution begins at this
    /// operation, and one if it begins after it.
    pub(crate) fn begin_this(&mut self) -> Result<(), CodeError> {
        let this = self.take_slot()?;
        let is_bound = self.take_slot()?;
        self.this = Some(this);
        self.first_free = self.top;
        self.emit(Op::Bool(is_bound, false))?;
        Ok(())
    }

    /// Fails if a variable is `this` and the function was called without a receiver.
    pub(crate) fn check_this(
        &mut self,
        slot: script_tree::Slot,
        position: Position,
    ) -> Result<(), CodeError> {
        match (slot, self.this) {
            (script_tree::Slot::This, Some(this)) => {
                self.emit_at(Op::This(this), position)?;
                Ok(())
            }
            (script_tree::Slot::This, None)
            | (script_tree::Slot::Own(_) | script_tree::Slot::Captured(_), _) => Ok(()),
        }
    }

    /// As `check_this`, for an expression that is a variable.
    pub(crate) fn check_expr(&mut self, expr: &Expr) -> Result<(), CodeError> {
        if let Expr::Variable {
            variable: Variable::Known(slot),
            position,
        } = expr
        {
            self.check_this(*slot, *position)?;
        }
        Ok(())
    }

    /// Returns `this` to the caller before the value of a slot is returned; returns the slot of
    /// that value.
    pub(crate) fn leave_this(&mut self, slot: Slot) -> Result<Slot, CodeError> {
        let Some(this) = self.this else {
            return Ok(slot);
        };
        let mut given = slot;
        if slot == this {
            given = self.take_slot()?;
            self.emit(Op::Copy(given, this))?;
        }
        self.emit(Op::LeaveThis(this))?;
        Ok(given)
    }

    /// Whether the script has functions with a name that are called on a receiver with this many
    /// arguments.
    pub(crate) fn has_method(&self, callee: usize) -> bool {
        let script = self.script;
        let Some(callee) = script.callees.get(callee) else {
            return false;
        };
        let Some(numbers) = self.program.names.get(callee.name.as_str()) else {
            return false;
        };
        for number in numbers.iter() {
            if let Some(function) = script.functions.get(*number as usize) {
                if function.parameters.saturating_add(1) == callee.arguments {
                    return true;
                }
            }
        }
        false
    }

    /// Sets the operation after the calls of a method of the table.
    pub(crate) fn end_call(&mut self, number: u32) -> Result<(), CodeError> {
        let here = self.here()?;
        if let Some(method) = self.program.methods.get_mut(number as usize) {
            method.behind = here;
        }
        Ok(())
    }

    /// Moves the arguments after a slot to the top, where no used slot follows, with one more slot
    /// after them; returns the slot before them.
    pub(crate) fn arguments_at_top(
        &mut self,
        receiver: Slot,
        count: usize,
    ) -> Result<Slot, CodeError> {
        let end = usize::from(receiver)
            .saturating_add(count)
            .saturating_add(1);
        let mut first = receiver;
        if end != usize::from(self.top) {
            first = self.take_slots(count.saturating_add(1))?;
            for number in 1..count.saturating_add(1) {
                let number = to_slot(number)?;
                self.emit(Op::Move(
                    first.saturating_add(number),
                    receiver.saturating_add(number),
                ))?;
            }
        }
        if count == 0 {
            self.take_slot()?;
        }
        Ok(first)
    }
}
