//! Statements, blocks and conditions.

use crate::compiler::Compiler;
use crate::error::CodeError;
use crate::operations::{Op, Slot};
use crate::variables::LoopNames;
use rhai_text::{ImmutableString, Position};
use script_tree::{Arm, Block, Expr};

/// Blocks.
impl<'p> Compiler<'p> {
    /// Compiles the statements of a block; the value of the last goes to a slot if it is used.
    pub(crate) fn statements<P>(
        &mut self,
        block: &Block,
        to: Option<Slot>,
        levels: u32,
        parts: &P,
    ) -> Result<(), CodeError>
    where
        P: Fn(&mut Compiler, &Expr, Option<Slot>, u32) -> Result<(), CodeError>,
        requires { P.IsAlwaysCallable parts.now }
    {
        let outer = self.in_sight.len();
        let last = block.statements.len().saturating_sub(1);
        for (number, statement) in block.statements.iter().enumerate() {
            self.begin_statement(block, number);
            if number == last {
                parts(self, statement, to, levels)?;
            } else {
                parts(self, statement, None, levels)?;
            }
            self.end_statement();
        }
        if let (Some(to), true) = (to, block.statements.is_empty()) {
            self.emit(Op::Unit(to))?;
        }
        self.hide_variables(outer)
    }

    /// Compiles a block, whose variables end with it.
    pub(crate) fn block<P>(
        &mut self,
        block: &Block,
        to: Option<Slot>,
        levels: u32,
        parts: &P,
    ) -> Result<(), CodeError>
    where
        P: Fn(&mut Compiler, &Expr, Option<Slot>, u32) -> Result<(), CodeError>,
        requires { P.IsAlwaysCallable parts.now }
    {
        self.statements(block, to, levels, parts)?;
        self.clear_variables(block.first_slot, block.end_slot, to)
    }

    /// Compiles an expression; its value goes to a slot if it is used.
    ///
    /// The parts of the expression are compiled through `parts`, a closure that calls `evaluate`.
    /// The functions for the kinds of expressions receive it, so they don't call each other in a
    /// circle. A part has fewer levels than the whole; the closure tests that.
    pub(crate) fn evaluate(
        &mut self,
        expr: &Expr,
        to: Option<Slot>,
        levels: u32,
    ) -> Result<(), CodeError> {
        let parts = |compiler: &mut Compiler, part: &Expr, to: Option<Slot>, below: u32| {
            if below < levels {
                compiler.evaluate(part, to, below)
            } else {
                Err(CodeError::TooLarge(compiler.position))
            }
        };
        match to {
            Some(to) => self.value(expr, to, levels, &parts),
            None => self.effect(expr, levels, &parts),
        }
    }
}

/// Statements.
impl<'p> Compiler<'p> {
    /// Compiles an expression whose value isn't used.
    pub(crate) fn effect<P>(&mut self, expr: &Expr, levels: u32, parts: &P) -> Result<(), CodeError>
    where
        P: Fn(&mut Compiler, &Expr, Option<Slot>, u32) -> Result<(), CodeError>,
        requires { P.IsAlwaysCallable parts.now }
    {
        if levels == 0 {
            return Err(CodeError::TooLarge(self.position));
        }
        let levels = levels - 1;
        let top = self.top;
        match expr {
            Expr::Let {
                slot,
                is_constant,
                value,
                name,
            } => {
                self.declare(*slot, *is_constant, value, levels, parts)?;
                self.show_own(name.as_str(), *slot)?;
            }
            Expr::Assign {
                variable,
                variable_position,
                steps,
                operator,
                value,
                position,
            } => {
                self.assign(
                    variable,
                    *variable_position,
                    steps,
                    *operator,
                    value,
                    *position,
                    levels,
                    parts,
                )?;
            }
            Expr::Block(_)
            | Expr::If { .. }
            | Expr::Switch(_)
            | Expr::While(_)
            | Expr::Do(_, _)
            | Expr::Loop(_)
            | Expr::For { .. }
            | Expr::Try { .. } => self.construct(expr, None, levels, parts)?,
            Expr::Break(value) => self.leave_loop(value, levels, parts)?,
            Expr::Continue => self.next_round()?,
            Expr::Return(value) => self.leave_function(value, levels, parts)?,
            Expr::Throw(value, position) => self.throw(value, *position, levels, parts)?,
            Expr::Unit
            | Expr::Bool(_)
            | Expr::Int(_)
            | Expr::Char(_)
            | Expr::Text(_)
            | Expr::Array(_)
            | Expr::Object(_)
            | Expr::Variable { .. }
            | Expr::Unary { .. }
            | Expr::Run { .. }
            | Expr::Contains { .. }
            | Expr::Chain { .. }
            | Expr::Call { .. }
            | Expr::Closure { .. } => {
                let _slot = self.operand(expr, true, levels, parts)?;
            }
        }
        self.top = top;
        Ok(())
    }

    /// Compiles a construct that consists of blocks.
    pub(crate) fn construct<P>(
        &mut self,
        expr: &Expr,
        to: Option<Slot>,
        levels: u32,
        parts: &P,
    ) -> Result<(), CodeError>
    where
        P: Fn(&mut Compiler, &Expr, Option<Slot>, u32) -> Result<(), CodeError>,
        requires { P.IsAlwaysCallable parts.now }
    {
        match expr {
            Expr::Block(block) => self.block(block, to, levels, parts),
            Expr::If { arms, otherwise } => self.arms(arms, otherwise, to, levels, parts),
            Expr::Switch(switch) => self.switch(switch, to, levels, parts),
            Expr::While(arm) => self.while_loop(arm, to, levels, parts),
            Expr::Do(arm, goes_on) => self.do_loop(arm, *goes_on, to, levels, parts),
            Expr::Loop(body) => self.endless_loop(body, to, levels, parts),
            Expr::For {
                item,
                index,
                source,
                position,
                body,
                item_name,
                index_name,
            } => {
                let names = LoopNames {
                    item: item_name,
                    index: index_name,
                };
                self.for_loop(
                    *item, *index, names, source, *position, body, to, levels, parts,
                )
            }
            Expr::Try {
                body,
                error,
                handler,
                error_name,
            } => self.attempt(body, *error, error_name, handler, to, levels, parts),
            Expr::Unit
            | Expr::Bool(_)
            | Expr::Int(_)
            | Expr::Char(_)
            | Expr::Text(_)
            | Expr::Array(_)
            | Expr::Object(_)
            | Expr::Variable { .. }
            | Expr::Unary { .. }
            | Expr::Run { .. }
            | Expr::Contains { .. }
            | Expr::Chain { .. }
            | Expr::Call { .. }
            | Expr::Closure { .. }
            | Expr::Let { .. }
            | Expr::Assign { .. }
            | Expr::Break(_)
            | Expr::Continue
            | Expr::Return(_)
            | Expr::Throw(_, _) => Ok(()),
        }
    }

    fn declare<P>(
        &mut self,
        slot: usize,
        is_constant: bool,
        value: &Option<Box<Expr>>,
        levels: u32,
        parts: &P,
    ) -> Result<(), CodeError>
    where
        P: Fn(&mut Compiler, &Expr, Option<Slot>, u32) -> Result<(), CodeError>,
        requires { P.IsAlwaysCallable parts.now }
    {
        let to = self.own(slot)?;
        self.value_or_unit(value, to, levels, parts)?;
        if is_constant {
            self.emit(Op::Constant(to))?;
        }
        Ok(())
    }

    pub(crate) fn value_or_unit<P>(
        &mut self,
        value: &Option<Box<Expr>>,
        to: Slot,
        levels: u32,
        parts: &P,
    ) -> Result<(), CodeError>
    where
        P: Fn(&mut Compiler, &Expr, Option<Slot>, u32) -> Result<(), CodeError>,
        requires { P.IsAlwaysCallable parts.now }
    {
        match value {
            Some(value) => parts(self, value, Some(to), levels),
            None => {
                self.emit(Op::Unit(to))?;
                Ok(())
            }
        }
    }

    fn arms<P>(
        &mut self,
        arms: &Vec<Arm>,
        otherwise: &Option<Block>,
        to: Option<Slot>,
        levels: u32,
        parts: &P,
    ) -> Result<(), CodeError>
    where
        P: Fn(&mut Compiler, &Expr, Option<Slot>, u32) -> Result<(), CodeError>,
        requires { P.IsAlwaysCallable parts.now }
    {
        let mut ends = Vec::new(self.alloc);
        let last = arms.len().saturating_sub(1);
        for (number, arm) in arms.iter().enumerate() {
            let mut skips = Vec::new(self.alloc);
            self.condition(
                &arm.condition,
                false,
                arm.position,
                &mut skips,
                levels,
                parts,
            )?;
            self.block(&arm.body, to, levels, parts)?;
            if number < last || otherwise.is_some() || to.is_some() {
                ends.push(self.emit(Op::Jump(0))?)?;
            }
            self.land(skips.as_slice())?;
        }
        match (otherwise, to) {
            (Some(block), to) => self.block(block, to, levels, parts)?,
            (None, Some(to)) => {
                self.emit(Op::Unit(to))?;
            }
            (None, None) => {}
        }
        self.land(ends.as_slice())
    }
}
