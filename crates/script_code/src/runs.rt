//! Runs of operators.

use crate::compiler::Compiler;
use crate::error::CodeError;
use crate::expressions::small_int;
use crate::operations::{Op, Slot};
use crate::operators::{Arithmetic, Kind, kind_of};
use crate::program::Place;
use rhai_text::Token;
use script_tree::{Expr, Operator, Term};

/// Makes the operation of an operator on two slots.
fn operation(op: Token, to: Slot, x: Slot, y: Slot) -> Op {
    match kind_of(op) {
        Kind::Counts(Arithmetic::Add) => Op::Add(to, x, y),
        Kind::Counts(Arithmetic::Subtract) => Op::Subtract(to, x, y),
        Kind::Counts(Arithmetic::Multiply) => Op::Multiply(to, x, y),
        Kind::Counts(Arithmetic::Divide) => Op::Divide(to, x, y),
        Kind::Counts(Arithmetic::Remainder) => Op::Remainder(to, x, y),
        Kind::Compares(_) | Kind::Other => Op::Binary(to, x, y),
    }
}

/// Makes the operation of an operator with a small int on the right.
fn operation_with_int(op: Token, to: Slot, x: Slot, int: i32) -> Option<Op> {
    match kind_of(op) {
        Kind::Counts(Arithmetic::Add) => Some(Op::AddInt(to, x, int)),
        Kind::Counts(Arithmetic::Subtract) => Some(Op::SubtractInt(to, x, int)),
        Kind::Counts(Arithmetic::Multiply) => Some(Op::MultiplyInt(to, x, int)),
        Kind::Counts(Arithmetic::Divide) => Some(Op::DivideInt(to, x, int)),
        Kind::Counts(Arithmetic::Remainder) => Some(Op::RemainderInt(to, x, int)),
        Kind::Compares(_) | Kind::Other => None,
    }
}

/// Makes the operation of an operator with a small int on the left, if it is commutative on ints.
fn operation_of_int(op: Token, to: Slot, int: i32, y: Slot) -> Option<Op> {
    match kind_of(op) {
        Kind::Counts(Arithmetic::Add) => Some(Op::AddInt(to, y, int)),
        Kind::Counts(Arithmetic::Multiply) => Some(Op::MultiplyInt(to, y, int)),
        Kind::Counts(Arithmetic::Subtract | Arithmetic::Divide | Arithmetic::Remainder)
        | Kind::Compares(_)
        | Kind::Other => None,
    }
}

impl<'p> Compiler<'p> {
    /// Compiles the operators between terms.
    pub(crate) fn run<P>(
        &mut self,
        first: &Expr,
        rest: &Vec<Term>,
        to: Slot,
        levels: u32,
        parts: &P,
    ) -> Result<(), CodeError>
    where
        P: Fn(&mut Compiler, &Expr, Option<Slot>, u32) -> Result<(), CodeError>,
        requires { P.IsAlwaysCallable parts.now }
    {
        for term in rest {
            match term.operator {
                Operator::Plain(_) => {}
                Operator::And | Operator::Or | Operator::Coalesce => {
                    return self.lazy_run(first, rest, to, levels, parts);
                }
            }
        }
        if let ([term], Some(int)) = (rest.as_slice(), small_int(first)) {
            if let Operator::Plain(op) = term.operator {
                if operation_of_int(op, to, int, 0).is_some() {
                    return self.run_of_int(int, term, op, to, levels, parts);
                }
            }
        }
        let stays = self.stays_in_terms(first, rest);
        let mut left = self.operand(first, stays, levels, parts)?;
        let last = rest.len().saturating_sub(1);
        for (number, term) in rest.iter().enumerate() {
            let answer = if number == last {
                to
            } else {
                self.take_slot()?
            };
            self.term(left, term, answer, levels, parts)?;
            left = answer;
        }
        Ok(())
    }

    fn run_of_int<P>(
        &mut self,
        int: i32,
        term: &Term,
        op: Token,
        to: Slot,
        levels: u32,
        parts: &P,
    ) -> Result<(), CodeError>
    where
        P: Fn(&mut Compiler, &Expr, Option<Slot>, u32) -> Result<(), CodeError>,
        requires { P.IsAlwaysCallable parts.now }
    {
        let right = self.operand(&term.operand, true, levels, parts)?;
        let place = Place {
            position: term.position,
            token: op,
            flag: true,
            ..self.place()
        };
        if let Some(op) = operation_of_int(op, to, int, right) {
            self.emit_with(op, place)?;
        }
        Ok(())
    }

    /// Compiles the operator of a term.
    fn term<P>(
        &mut self,
        left: Slot,
        term: &Term,
        to: Slot,
        levels: u32,
        parts: &P,
    ) -> Result<(), CodeError>
    where
        P: Fn(&mut Compiler, &Expr, Option<Slot>, u32) -> Result<(), CodeError>,
        requires { P.IsAlwaysCallable parts.now }
    {
        let Operator::Plain(token) = term.operator else {
            return Ok(());
        };
        let with_int = match small_int(&term.operand) {
            Some(int) => operation_with_int(token, to, left, int),
            None => None,
        };
        let op = match with_int {
            Some(op) => op,
            None => {
                let right = self.operand(&term.operand, true, levels, parts)?;
                operation(token, to, left, right)
            }
        };
        let place = Place {
            position: term.position,
            token,
            ..self.place()
        };
        self.emit_with(op, place)?;
        Ok(())
    }

    /// Compiles operators some of which are lazy in their right operand.
    fn lazy_run<P>(
        &mut self,
        first: &Expr,
        rest: &Vec<Term>,
        to: Slot,
        levels: u32,
        parts: &P,
    ) -> Result<(), CodeError>
    where
        P: Fn(&mut Compiler, &Expr, Option<Slot>, u32) -> Result<(), CodeError>,
        requires { P.IsAlwaysCallable parts.now }
    {
        let made = if self.is_free(to) {
            to
        } else {
            self.take_slot()?
        };
        parts(self, first, Some(made), levels)?;
        for term in rest {
            let jump = match term.operator {
                Operator::Plain(_) => {
                    self.term(made, term, made, levels, parts)?;
                    continue;
                }
                Operator::Coalesce => {
                    self.coalesce(made, term, levels, parts)?;
                    continue;
                }
                Operator::And => Op::JumpUnless(made, 0),
                Operator::Or => Op::JumpIf(made, 0),
            };
            let jump = self.emit_at(jump, term.position)?;
            parts(self, &term.operand, Some(made), levels)?;
            self.emit_at(Op::Check(made), term.position)?;
            self.land(&[jump])?;
        }
        if made != to {
            self.emit(Op::Move(to, made))?;
        }
        Ok(())
    }

    /// Moves the operand of `??` into a slot if that contains `()`.
    fn coalesce<P>(
        &mut self,
        made: Slot,
        term: &Term,
        levels: u32,
        parts: &P,
    ) -> Result<(), CodeError>
    where
        P: Fn(&mut Compiler, &Expr, Option<Slot>, u32) -> Result<(), CodeError>,
        requires { P.IsAlwaysCallable parts.now }
    {
        let top = self.top;
        let unit = self.take_slot()?;
        self.emit(Op::Unit(unit))?;
        let place = Place {
            position: term.position,
            token: Token::NotEqualsTo,
            flag: true,
            ..self.place()
        };
        let jump = self.emit_with(Op::JumpUnequal(made, unit, 0), place)?;
        self.top = top;
        parts(self, &term.operand, Some(made), levels)?;
        self.land(&[jump])
    }
}
