//! Conditions: jumps if an expression is true, or if it is false.

use crate::compiler::Compiler;
use crate::error::CodeError;
use crate::expressions::small_int;
use crate::operations::{Op, Slot};
use crate::operators::{Comparison, Kind, kind_of};
use crate::program::Place;
use rhai_text::{Position, Token};
use script_tree::{Expr, Operator, Term, UnaryOperator};

/// Makes the jump for a comparison of two slots.
fn comparing(comparison: Comparison, x: Slot, y: Slot) -> Op {
    match comparison {
        Comparison::Less => Op::JumpLess(x, y, 0),
        Comparison::AtMost => Op::JumpAtMost(x, y, 0),
        Comparison::More => Op::JumpMore(x, y, 0),
        Comparison::AtLeast => Op::JumpAtLeast(x, y, 0),
        Comparison::Equal => Op::JumpEqual(x, y, 0),
        Comparison::Unequal => Op::JumpUnequal(x, y, 0),
    }
}

/// As `comparing`, with a small int on the right.
fn comparing_int(comparison: Comparison, x: Slot, y: i32) -> Op {
    match comparison {
        Comparison::Less => Op::JumpLessInt(x, y, 0),
        Comparison::AtMost => Op::JumpAtMostInt(x, y, 0),
        Comparison::More => Op::JumpMoreInt(x, y, 0),
        Comparison::AtLeast => Op::JumpAtLeastInt(x, y, 0),
        Comparison::Equal => Op::JumpEqualInt(x, y, 0),
        Comparison::Unequal => Op::JumpUnequalInt(x, y, 0),
    }
}

/// Whether each term has this operator.
fn are_all(terms: &[Term], operator: Operator) -> bool {
    for term in terms {
        if term.operator != operator {
            return false;
        }
    }
    true
}

impl<'p> Compiler<'p> {
    /// Adds jumps that are taken if an expression has this value. At a place, anything but a
    /// boolean is a fault.
    #[cycle(condition)]
    pub(crate) fn condition<P>(
        &mut self,
        expr: &Expr,
        wanted: bool,
        position: Position,
        jumps: &mut Vec<usize>,
        levels: u32,
        parts: &P,
    ) -> Result<(), CodeError>
    where
        P: Fn(&mut Compiler, &Expr, Option<Slot>, u32) -> Result<(), CodeError>,
        requires { P.IsAlwaysCallable parts.now }
    {
        if levels == 0 {
            return Err(CodeError::TooLarge(self.position));
        }
        let levels = levels - 1;
        if let Expr::Bool(value) = expr {
            if *value == wanted {
                jumps.push(self.emit(Op::Jump(0))?)?;
            }
            return Ok(());
        }
        if let Expr::Unary {
            operator: UnaryOperator::Not,
            operand,
            position,
        } = expr
        {
            return self.condition(operand, !wanted, *position, jumps, levels, parts);
        }
        if let Expr::Run { first, rest } = expr {
            if self.run_condition(first, rest, wanted, jumps, levels, parts)? {
                return Ok(());
            }
        }
        self.plain_condition(expr, wanted, position, jumps, levels, parts)
    }

    /// Jumps on the value of an expression.
    fn plain_condition<P>(
        &mut self,
        expr: &Expr,
        wanted: bool,
        position: Position,
        jumps: &mut Vec<usize>,
        levels: u32,
        parts: &P,
    ) -> Result<(), CodeError>
    where
        P: Fn(&mut Compiler, &Expr, Option<Slot>, u32) -> Result<(), CodeError>,
        requires { P.IsAlwaysCallable parts.now }
    {
        let top = self.top;
        let slot = self.operand(expr, true, levels, parts)?;
        let op = if wanted {
            Op::JumpIf(slot, 0)
        } else {
            Op::JumpUnless(slot, 0)
        };
        jumps.push(self.emit_at(op, position)?)?;
        self.top = top;
        Ok(())
    }

    /// Jumps on a comparison, or on lazy operators of one kind; returns whether the terms are such.
    #[cycle(condition)]
    fn run_condition<P>(
        &mut self,
        first: &Expr,
        rest: &Vec<Term>,
        wanted: bool,
        jumps: &mut Vec<usize>,
        levels: u32,
        parts: &P,
    ) -> Result<bool, CodeError>
    where
        P: Fn(&mut Compiler, &Expr, Option<Slot>, u32) -> Result<(), CodeError>,
        requires { P.IsAlwaysCallable parts.now }
    {
        if are_all(rest, Operator::And) {
            self.lazy_condition(first, rest, false, wanted, jumps, levels, parts)?;
            return Ok(true);
        }
        if are_all(rest, Operator::Or) {
            self.lazy_condition(first, rest, true, wanted, jumps, levels, parts)?;
            return Ok(true);
        }
        let [term] = rest.as_slice() else {
            return Ok(false);
        };
        match term.operator {
            Operator::Plain(op) => self.comparison(first, term, op, wanted, jumps, levels, parts),
            Operator::And | Operator::Or | Operator::Coalesce => Ok(false),
        }
    }

    /// Compiles lazy operators that are decided as soon as an operand has this value.
    #[cycle(condition)]
    fn lazy_condition<P>(
        &mut self,
        first: &Expr,
        rest: &Vec<Term>,
        settled: bool,
        wanted: bool,
        jumps: &mut Vec<usize>,
        levels: u32,
        parts: &P,
    ) -> Result<(), CodeError>
    where
        P: Fn(&mut Compiler, &Expr, Option<Slot>, u32) -> Result<(), CodeError>,
        requires { P.IsAlwaysCallable parts.now }
    {
        let mut settles = Vec::new(self.alloc);
        let position = match rest.first() {
            Some(term) => term.position,
            None => self.position,
        };
        self.condition(first, settled, position, &mut settles, levels, parts)?;
        let last = rest.len().saturating_sub(1);
        for (number, term) in rest.iter().enumerate() {
            if number < last || settled == wanted {
                self.condition(
                    &term.operand,
                    settled,
                    term.position,
                    &mut settles,
                    levels,
                    parts,
                )?;
            } else {
                self.condition(&term.operand, wanted, term.position, jumps, levels, parts)?;
            }
        }
        if settled == wanted {
            for jump in settles {
                jumps.push(jump)?;
            }
            return Ok(());
        }
        self.land(settles.as_slice())
    }

    /// Jumps on one operator, if it compares.
    fn comparison<P>(
        &mut self,
        first: &Expr,
        term: &Term,
        op: Token,
        wanted: bool,
        jumps: &mut Vec<usize>,
        levels: u32,
        parts: &P,
    ) -> Result<bool, CodeError>
    where
        P: Fn(&mut Compiler, &Expr, Option<Slot>, u32) -> Result<(), CodeError>,
        requires { P.IsAlwaysCallable parts.now }
    {
        let Kind::Compares(comparison) = kind_of(op) else {
            return Ok(false);
        };
        let comparison = if wanted {
            comparison
        } else {
            comparison.opposite()
        };
        let top = self.top;
        let stays = self.stays_in(first, &term.operand);
        let left = self.operand(first, stays, levels, parts)?;
        let jump = match small_int(&term.operand) {
            Some(int) => comparing_int(comparison, left, int),
            None => comparing(
                comparison,
                left,
                self.operand(&term.operand, true, levels, parts)?,
            ),
        };
        let place = Place {
            position: term.position,
            token: op,
            flag: wanted,
            ..self.place()
        };
        jumps.push(self.emit_with(jump, place)?)?;
        self.top = top;
        Ok(true)
    }
}
