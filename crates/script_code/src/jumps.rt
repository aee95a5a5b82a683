//! Jumps out of constructs, and `try`.

use crate::compiler::Compiler;
use crate::error::CodeError;
use crate::operations::{Op, Slot};
use rhai_text::{ImmutableString, Position};
use script_tree::{Block, Expr};

impl<'p> Compiler<'p> {
    pub(crate) fn throw<P>(
        &mut self,
        value: &Option<Box<Expr>>,
        position: Position,
        levels: u32,
        parts: &P,
    ) -> Result<(), CodeError>
    where
        P: Fn(&mut Compiler, &Expr, Option<Slot>, u32) -> Result<(), CodeError>,
        requires { P.IsAlwaysCallable parts.now }
    {
        let slot = self.take_slot()?;
        self.value_or_unit(value, slot, levels, parts)?;
        self.emit_at(Op::Throw(slot), position)?;
        Ok(())
    }

    /// Ends the function's `try` blocks inside this many outer ones.
    pub(crate) fn end_tries(&mut self, outer: usize) -> Result<(), CodeError> {
        for _ in outer..self.tries {
            self.emit(Op::TryEnd)?;
        }
        Ok(())
    }

    pub(crate) fn leave_function<P>(
        &mut self,
        value: &Option<Box<Expr>>,
        levels: u32,
        parts: &P,
    ) -> Result<(), CodeError>
    where
        P: Fn(&mut Compiler, &Expr, Option<Slot>, u32) -> Result<(), CodeError>,
        requires { P.IsAlwaysCallable parts.now }
    {
        let Some(value) = value else {
            self.end_tries(0)?;
            return self.give_unit();
        };
        let slot = self.operand(value, true, levels, parts)?;
        self.end_tries(0)?;
        self.give(slot)
    }

    pub(crate) fn leave_loop<P>(
        &mut self,
        value: &Option<Box<Expr>>,
        levels: u32,
        parts: &P,
    ) -> Result<(), CodeError>
    where
        P: Fn(&mut Compiler, &Expr, Option<Slot>, u32) -> Result<(), CodeError>,
        requires { P.IsAlwaysCallable parts.now }
    {
        let (to, tries) = match self.rounds.last() {
            Some(round) => (round.to, round.tries),
            None => (None, self.tries),
        };
        match (value, to) {
            (value, Some(to)) => self.value_or_unit(value, to, levels, parts)?,
            (Some(value), None) => parts(self, value, None, levels)?,
            (None, None) => {}
        }
        self.end_tries(tries)?;
        let jump = self.emit(Op::Jump(0))?;
        if let Some(round) = self.rounds.last_mut() {
            round.breaks.push(jump)?;
        }
        Ok(())
    }

    pub(crate) fn next_round(&mut self) -> Result<(), CodeError> {
        let tries = match self.rounds.last() {
            Some(round) => round.tries,
            None => self.tries,
        };
        self.end_tries(tries)?;
        let jump = self.emit(Op::Jump(0))?;
        if let Some(round) = self.rounds.last_mut() {
            round.continues.push(jump)?;
        }
        Ok(())
    }

    pub(crate) fn attempt<P>(
        &mut self,
        body: &Block,
        error: Option<usize>,
        error_name: &Option<ImmutableString>,
        handler: &Block,
        to: Option<Slot>,
        levels: u32,
        parts: &P,
    ) -> Result<(), CodeError>
    where
        P: Fn(&mut Compiler, &Expr, Option<Slot>, u32) -> Result<(), CodeError>,
        requires { P.IsAlwaysCallable parts.now }
    {
        let slot = match error {
            Some(slot) => self.own(slot)?,
            None => self.take_slot()?,
        };
        let begin = self.emit(Op::Try(slot, 0))?;
        self.tries = self.tries.saturating_add(1);
        self.block(body, to, levels, parts)?;
        self.tries = self.tries.saturating_sub(1);
        self.emit(Op::TryEnd)?;
        let end = self.emit(Op::Jump(0))?;
        self.land(&[begin])?;
        let outer = self.in_sight.len();
        if let Some(name) = error_name {
            self.show(name.as_str(), slot)?;
        }
        self.block(handler, to, levels, parts)?;
        self.hide_variables(outer)?;
        self.land(&[end])
    }
}
