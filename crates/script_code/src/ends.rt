//! How functions and the statements outside them end.

use crate::compiler::{Compiler, to_slot};
use crate::error::CodeError;
use crate::operations::{Op, Slot};
use crate::program::Kept;
use script_tree::{Arm, Block, Expr};

/// Ends.
impl<'p> Compiler<'p> {
    /// Compiles the statements outside functions. The variables that they declare outlive them.
    pub(crate) fn body<P>(&mut self, block: &Block, levels: u32, parts: &P) -> Result<(), CodeError>
    where
        P: Fn(&mut Compiler, &Expr, Option<Slot>, u32) -> Result<(), CodeError>,
        requires { P.IsAlwaysCallable parts.now }
    {
        self.is_body = true;
        let last = block.statements.len().saturating_sub(1);
        for (number, statement) in block.statements.iter().enumerate() {
            self.begin_statement(block, number);
            if number == last && !matches!(statement, Expr::Let { .. }) {
                self.tail(statement, levels, parts)?;
            } else {
                parts(self, statement, None, levels)?;
                self.keep(statement)?;
            }
            self.end_statement();
        }
        self.give_unit()
    }

    /// Records that the variable a statement declares exists from here on.
    fn keep(&mut self, statement: &Expr) -> Result<(), CodeError> {
        if let Expr::Let { slot, .. } = statement {
            let script = self.script;
            if let Some(name) = script.variables.get(*slot) {
                let name = String::from_str(self.alloc, name.as_str())?;
                let from = self.here()?;
                self.program.kept.push(Kept { name, from })?;
            }
        }
        Ok(())
    }

    /// Brings the variables from before the statements into scope, and keeps them.
    pub(crate) fn show_outer(&mut self) -> Result<(), CodeError> {
        let script = self.script;
        for (number, name) in script.variables.iter().take(script.outer).enumerate() {
            self.show(name.as_str(), to_slot(number)?)?;
            let name = String::from_str(self.alloc, name.as_str())?;
            self.program.kept.push(Kept { name, from: 0 })?;
        }
        Ok(())
    }

    /// Returns unit to the caller.
    pub(crate) fn give_unit(&mut self) -> Result<(), CodeError> {
        if !self.is_body {
            if let Some(this) = self.this {
                self.emit(Op::LeaveThis(this))?;
            }
            self.emit(Op::ReturnUnit)?;
            return Ok(());
        }
        let top = self.top;
        let slot = self.take_slot()?;
        self.emit(Op::Unit(slot))?;
        self.emit(Op::Finish(slot))?;
        self.top = top;
        Ok(())
    }

    /// Returns the value of a slot to the caller.
    pub(crate) fn give(&mut self, slot: Slot) -> Result<(), CodeError> {
        let top = self.top;
        if !self.is_body {
            let slot = self.leave_this(slot)?;
            self.emit(Op::Return(slot))?;
            self.top = top;
            return Ok(());
        }
        if self.is_free(slot) {
            self.emit(Op::Finish(slot))?;
        } else {
            let to = self.take_slot()?;
            self.emit(Op::Copy(to, slot))?;
            self.emit(Op::Finish(to))?;
        }
        self.top = top;
        Ok(())
    }
}

/// Values that are returned to the caller.
impl<'p> Compiler<'p> {
    /// Compiles the statements of a function, and returns the value of the last to the caller.
    #[cycle(tail)]
    pub(crate) fn tail_block<P>(
        &mut self,
        block: &Block,
        levels: u32,
        parts: &P,
    ) -> Result<(), CodeError>
    where
        P: Fn(&mut Compiler, &Expr, Option<Slot>, u32) -> Result<(), CodeError>,
        requires { P.IsAlwaysCallable parts.now }
    {
        let outer = self.in_sight.len();
        let last = block.statements.len().saturating_sub(1);
        for (number, statement) in block.statements.iter().enumerate() {
            self.begin_statement(block, number);
            if number == last {
                self.tail(statement, levels, parts)?;
            } else {
                parts(self, statement, None, levels)?;
            }
            self.end_statement();
        }
        if block.statements.is_empty() {
            self.give_unit()?;
        }
        self.hide_variables(outer)
    }

    /// Compiles an expression, and returns its value to the caller.
    #[cycle(tail)]
    pub(crate) fn tail<P>(&mut self, expr: &Expr, levels: u32, parts: &P) -> Result<(), CodeError>
    where
        P: Fn(&mut Compiler, &Expr, Option<Slot>, u32) -> Result<(), CodeError>,
        requires { P.IsAlwaysCallable parts.now }
    {
        if levels == 0 {
            return Err(CodeError::TooLarge(self.position));
        }
        let levels = levels - 1;
        match expr {
            Expr::Block(block) => self.tail_block(block, levels, parts),
            Expr::If { arms, otherwise } => self.tail_arms(arms, otherwise, levels, parts),
            Expr::Let { .. } | Expr::Assign { .. } => {
                parts(self, expr, None, levels)?;
                self.give_unit()
            }
            Expr::Unit
            | Expr::Bool(_)
            | Expr::Int(_)
            | Expr::Char(_)
            | Expr::Text(_)
            | Expr::Array(_)
            | Expr::Object(_)
            | Expr::Variable { .. }
            | Expr::Unary { .. }
            | Expr::Run { .. }
            | Expr::Contains { .. }
            | Expr::Chain { .. }
            | Expr::Call { .. }
            | Expr::Closure { .. }
            | Expr::Switch(_)
            | Expr::While(_)
            | Expr::Do(_, _)
            | Expr::Loop(_)
            | Expr::For { .. }
            | Expr::Break(_)
            | Expr::Continue
            | Expr::Return(_)
            | Expr::Throw(_, _)
            | Expr::Try { .. } => {
                let top = self.top;
                let slot = self.operand(expr, true, levels, parts)?;
                self.give(slot)?;
                self.top = top;
                Ok(())
            }
        }
    }

    #[cycle(tail)]
    fn tail_arms<P>(
        &mut self,
        arms: &Vec<Arm>,
        otherwise: &Option<Block>,
        levels: u32,
        parts: &P,
    ) -> Result<(), CodeError>
    where
        P: Fn(&mut Compiler, &Expr, Option<Slot>, u32) -> Result<(), CodeError>,
        requires { P.IsAlwaysCallable parts.now }
    {
        for arm in arms {
            let mut skips = Vec::new(self.alloc);
            self.condition(
                &arm.condition,
                false,
                arm.position,
                &mut skips,
                levels,
                parts,
            )?;
            self.tail_block(&arm.body, levels, parts)?;
            self.land(skips.as_slice())?;
        }
        match otherwise {
            Some(block) => self.tail_block(block, levels, parts),
            None => self.give_unit(),
        }
    }
}
