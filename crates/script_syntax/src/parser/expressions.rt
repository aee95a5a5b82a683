//! Operators and their operands.

use super::{Parser, Part};
use crate::error::SyntaxError;
use crate::operators::{LOOSEST, MEMBERSHIP, POWER, operator_of};
use crate::symbol::Symbol;
use rhai_text::{Position, Token};
use script_tree::{Expr, Operator, Term, UnaryOperator};
use std::alloc::{AllocError, Global};
use std::mem;

/// `in` or `!in`, and the container behind it.
#[derive(Drop)]
struct Membership {
    is_in: bool,
    position: Position,
    container: Expr,
}

/// Makes a list of two operands.
fn pair_of(alloc: Global, first: Expr, second: Expr) -> Result<Vec<Expr>, AllocError> {
    let mut operands = Vec::new(alloc);
    operands.push(first)?;
    operands.push(second)?;
    Ok(operands)
}

impl Parser {
    /// Parses an expression with operators of at least this precedence.
    pub(super) fn expression<P>(
        &mut self,
        levels: usize,
        least: u8,
        parts: &P,
    ) -> Result<Expr, SyntaxError>
    where
        P: Fn(&mut Parser, usize, Part) -> Option<Expr>,
        requires { P.IsAlwaysCallable parts.now }
    {
        let outer = mem::replace(&mut self.lowest, levels);
        let mut read = self.unary(levels, parts)?;
        for _ in 0..self.lexemes_left() {
            let Some(level) = self.next_level(least) else {
                break;
            };
            read = if level == MEMBERSHIP {
                self.membership(levels, read, parts)?
            } else {
                self.operated(levels, level, read, parts)?
            };
        }
        self.reach(outer);
        Ok(read)
    }

    /// Parses the operators of one precedence after an operand.
    fn operated<P>(
        &mut self,
        levels: usize,
        level: u8,
        first: Expr,
        parts: &P,
    ) -> Result<Expr, SyntaxError>
    where
        P: Fn(&mut Parser, usize, Part) -> Option<Expr>,
        requires { P.IsAlwaysCallable parts.now }
    {
        let first = Box::new(self.alloc, first)?;
        self.lower()?;
        let rest = self.run(levels, level, parts)?;
        Ok(Expr::Run { first, rest })
    }

    /// Parses an expression, and this symbol after it.
    pub(super) fn closed<P>(
        &mut self,
        levels: usize,
        end: Symbol,
        parts: &P,
    ) -> Result<Expr, SyntaxError>
    where
        P: Fn(&mut Parser, usize, Part) -> Option<Expr>,
        requires { P.IsAlwaysCallable parts.now }
    {
        let read = self.inner(levels, Part::Expression(LOOSEST), parts)?;
        self.expect(end)?;
        Ok(read)
    }

    /// Parses an expression one level below this one.
    pub(super) fn boxed<P>(&mut self, levels: usize, parts: &P) -> Result<Box<Expr>, SyntaxError>
    where
        P: Fn(&mut Parser, usize, Part) -> Option<Expr>,
        requires { P.IsAlwaysCallable parts.now }
    {
        let below = self.below(levels)?;
        let part = self.inner(below, Part::Expression(LOOSEST), parts)?;
        Ok(Box::new(self.alloc, part)?)
    }

    /// Parses the following operators of one precedence, each with its right operand.
    fn run<P>(&mut self, levels: usize, level: u8, parts: &P) -> Result<Vec<Term>, SyntaxError>
    where
        P: Fn(&mut Parser, usize, Part) -> Option<Expr>,
        requires { P.IsAlwaysCallable parts.now }
    {
        let below = self.below(levels)?;
        let mut terms = Vec::new(self.alloc);
        for _ in 0..self.lexemes_left() {
            let Some(operator) = self.next_operator(level) else {
                break;
            };
            let position = self.position;
            self.advance()?;
            let operand = self.inner(below, Part::Expression(least_behind(level)), parts)?;
            terms.push(Term {
                operator,
                position,
                operand,
            })?;
        }
        Ok(terms)
    }

    /// Parses `in` or `!in` after an item, and the container.
    fn membership<P>(&mut self, levels: usize, item: Expr, parts: &P) -> Result<Expr, SyntaxError>
    where
        P: Fn(&mut Parser, usize, Part) -> Option<Expr>,
        requires { P.IsAlwaysCallable parts.now }
    {
        let test = self.container(levels, parts)?;
        let operands = pair_of(self.alloc, test.container, item)?;
        self.contains(operands, test.is_in, test.position)
    }

    /// Parses `in` or `!in`, and the container.
    fn container<P>(&mut self, levels: usize, parts: &P) -> Result<Membership, SyntaxError>
    where
        P: Fn(&mut Parser, usize, Part) -> Option<Expr>,
        requires { P.IsAlwaysCallable parts.now }
    {
        let below = self.below(levels)?;
        let is_in = self.is_next(Symbol::In);
        self.lower()?;
        let position = self.position;
        self.advance()?;
        let container = self.inner(below, Part::Expression(least_behind(MEMBERSHIP)), parts)?;
        Ok(Membership {
            is_in,
            position,
            container,
        })
    }

    /// Makes the test whether a container has an item, or lacks it.
    fn contains(
        &mut self,
        operands: Vec<Expr>,
        is_in: bool,
        position: Position,
    ) -> Result<Expr, SyntaxError> {
        let contains = Expr::Contains {
            callee: self.callees.number("contains", 2)?,
            operands,
            position,
        };
        if is_in {
            return Ok(contains);
        }
        self.lower()?;
        self.with_unary(UnaryOperator::Not, contains, position)
    }

    /// Parses an operand, with its unary operators.
    pub(super) fn unary<P>(&mut self, levels: usize, parts: &P) -> Result<Expr, SyntaxError>
    where
        P: Fn(&mut Parser, usize, Part) -> Option<Expr>,
        requires { P.IsAlwaysCallable parts.now }
    {
        self.reach(levels);
        let Some(operator) = self.next_unary() else {
            return self.chain(levels, parts);
        };
        let position = self.position;
        self.advance()?;
        let below = self.below(levels)?;
        let operand = self.inner(below, Part::Operand, parts)?;
        self.with_unary(operator, operand, position)
    }

    /// Applies a unary operator to an operand; an int literal is negated directly.
    fn with_unary(
        &mut self,
        operator: UnaryOperator,
        operand: Expr,
        position: Position,
    ) -> Result<Expr, SyntaxError> {
        if let (UnaryOperator::Minus, Expr::Int(number)) = (operator, &operand) {
            if let Some(negative) = number.checked_neg() {
                return Ok(Expr::Int(negative));
            }
        }
        Ok(Expr::Unary {
            operator,
            operand: Box::new(self.alloc, operand)?,
            position,
        })
    }

    /// Returns the precedence of the next operator, if it is at least this one.
    fn next_level(&self, least: u8) -> Option<u8> {
        let level = match self.symbol()? {
            Symbol::In | Symbol::NotIn => MEMBERSHIP,
            symbol => operator_of(symbol)?.0,
        };
        if level < least { None } else { Some(level) }
    }

    /// Returns the next operator, if it has this precedence.
    fn next_operator(&self, wanted: u8) -> Option<Operator> {
        let (level, operator) = operator_of(self.symbol()?)?;
        if level == wanted {
            Some(operator)
        } else {
            None
        }
    }

    /// Returns the next unary operator.
    fn next_unary(&self) -> Option<UnaryOperator> {
        match self.symbol()? {
            Symbol::Not => Some(UnaryOperator::Not),
            Symbol::Operator(Token::Minus) => Some(UnaryOperator::Minus),
            Symbol::Operator(Token::Plus) => Some(UnaryOperator::Plus),
            _ => None,
        }
    }
}

/// Returns the lowest precedence in the right operand of an operator with this precedence.
fn least_behind(level: u8) -> u8 {
    if level == POWER {
        level
    } else {
        level.saturating_add(1)
    }
}
