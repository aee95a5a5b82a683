//! Blocks, and the statements that only blocks contain.

use super::{Parser, Part};
use crate::error::{SyntaxError, SyntaxFault};
use crate::operators::LOOSEST;
use crate::symbol::Symbol;
use rhai_text::{ImmutableString, Position};
use script_tree::{Arm, Block, Expr};
use std::alloc::Global;

impl Parser {
    /// Parses a block, with its statements at this level.
    pub(super) fn block<P>(&mut self, levels: usize, parts: &P) -> Result<Block, SyntaxError>
    where
        P: Fn(&mut Parser, usize, Part) -> Option<Expr>,
        requires { P.IsAlwaysCallable parts.now }
    {
        self.expect(Symbol::OpenBrace)?;
        let block = self.statements(levels, parts)?;
        self.expect(Symbol::CloseBrace)?;
        Ok(block)
    }

    /// Parses statements up to a brace or the end, and leaves that as the next lexeme. Their
    /// variables end there.
    pub(super) fn statements<P>(&mut self, levels: usize, parts: &P) -> Result<Block, SyntaxError>
    where
        P: Fn(&mut Parser, usize, Part) -> Option<Expr>,
        requires { P.IsAlwaysCallable parts.now }
    {
        let first_slot = self.names.count();
        let mut statements = Vec::new(self.alloc);
        let mut positions = Vec::new(self.alloc);
        for _ in 0..self.lexemes_left() {
            if self.is_next(Symbol::CloseBrace) || self.is_next(Symbol::End) {
                break;
            }
            self.terminated_statement(levels, &mut statements, &mut positions, parts)?;
        }
        let end_slot = self.names.count();
        self.names.close(first_slot)?;
        Ok(Block {
            statements,
            positions,
            first_slot,
            end_slot,
        })
    }

    /// Parses a statement and its semicolon. The last statement of a block needs none, nor does one
    /// that ends with a block.
    pub(super) fn terminated_statement<P>(
        &mut self,
        levels: usize,
        statements: &mut Vec<Expr>,
        positions: &mut Vec<Position>,
        parts: &P,
    ) -> Result<(), SyntaxError>
    where
        P: Fn(&mut Parser, usize, Part) -> Option<Expr>,
        requires { P.IsAlwaysCallable parts.now }
    {
        if self.takes(Symbol::Semicolon)? {
            return Ok(());
        }
        let ends_itself = self.is_block_next();
        positions.push(self.position)?;
        statements.push(self.inner(levels, Part::Statement, parts)?)?;
        if ends_itself || self.takes(Symbol::Semicolon)? || self.is_statement_end() {
            return Ok(());
        }
        Err(self.fault(SyntaxFault::Expected(Symbol::Semicolon)))
    }

    /// Whether a statement that begins here ends by itself, without a semicolon.
    pub(super) fn is_block_next(&self) -> bool {
        match self.symbol() {
            Some(symbol) => symbol.begins_block(),
            None => false,
        }
    }

    /// Whether a statement ends before the next lexeme.
    pub(super) fn is_statement_end(&self) -> bool {
        self.is_next(Symbol::Semicolon)
            || self.is_next(Symbol::CloseBrace)
            || self.is_next(Symbol::End)
    }

    /// Parses a construct with blocks. Errors: the symbol begins none of them, and no other
    /// expression either.
    pub(super) fn construct<P>(
        &mut self,
        levels: usize,
        symbol: Symbol,
        parts: &P,
    ) -> Result<Expr, SyntaxError>
    where
        P: Fn(&mut Parser, usize, Part) -> Option<Expr>,
        requires { P.IsAlwaysCallable parts.now }
    {
        match symbol {
            Symbol::OpenBrace => self.inner_block(levels, parts),
            Symbol::If => self.if_else(levels, parts),
            Symbol::While => self.while_loop(levels, parts),
            Symbol::Do => self.do_loop(levels, parts),
            Symbol::Loop => self.endless_loop(levels, parts),
            Symbol::For => self.for_loop(levels, parts),
            Symbol::Switch => self.switch(levels, parts),
            Symbol::Break
            | Symbol::Catch
            | Symbol::Const
            | Symbol::Continue
            | Symbol::Else
            | Symbol::False
            | Symbol::Fn
            | Symbol::In
            | Symbol::Let
            | Symbol::Return
            | Symbol::Throw
            | Symbol::True
            | Symbol::Try
            | Symbol::Until
            | Symbol::Underscore
            | Symbol::OpenParenthesis
            | Symbol::CloseParenthesis
            | Symbol::OpenBracket
            | Symbol::CloseBracket
            | Symbol::CloseBrace
            | Symbol::OpenMap
            | Symbol::Comma
            | Symbol::Semicolon
            | Symbol::Colon
            | Symbol::Dot
            | Symbol::OptionalDot
            | Symbol::OptionalBracket
            | Symbol::Arrow
            | Symbol::Not
            | Symbol::And
            | Symbol::Or
            | Symbol::Coalesce
            | Symbol::NotIn
            | Symbol::Operator(_)
            | Symbol::End => Err(self.fault(SyntaxFault::ExpectedExpression)),
        }
    }

    fn inner_block<P>(&mut self, levels: usize, parts: &P) -> Result<Expr, SyntaxError>
    where
        P: Fn(&mut Parser, usize, Part) -> Option<Expr>,
        requires { P.IsAlwaysCallable parts.now }
    {
        let below = self.below(levels)?;
        Ok(Expr::Block(self.block(below, parts)?))
    }

    fn if_else<P>(&mut self, levels: usize, parts: &P) -> Result<Expr, SyntaxError>
    where
        P: Fn(&mut Parser, usize, Part) -> Option<Expr>,
        requires { P.IsAlwaysCallable parts.now }
    {
        let below = self.below(levels)?;
        let mut arms = Vec::new(self.alloc);
        let mut otherwise = None;
        for _ in 0..self.lexemes_left() {
            self.expect(Symbol::If)?;
            arms.push(self.arm(below, parts)?)?;
            if !self.takes(Symbol::Else)? {
                break;
            }
            if !self.is_next(Symbol::If) {
                otherwise = Some(self.block(below, parts)?);
                break;
            }
        }
        Ok(Expr::If { arms, otherwise })
    }

    fn arm<P>(&mut self, levels: usize, parts: &P) -> Result<Arm, SyntaxError>
    where
        P: Fn(&mut Parser, usize, Part) -> Option<Expr>,
        requires { P.IsAlwaysCallable parts.now }
    {
        let position = self.position;
        let condition = self.inner(levels, Part::Expression(LOOSEST), parts)?;
        let body = self.block(levels, parts)?;
        Ok(Arm {
            condition,
            position,
            body,
        })
    }

    pub(super) fn try_catch<P>(&mut self, levels: usize, parts: &P) -> Result<Expr, SyntaxError>
    where
        P: Fn(&mut Parser, usize, Part) -> Option<Expr>,
        requires { P.IsAlwaysCallable parts.now }
    {
        self.advance()?;
        let below = self.below(levels)?;
        let body = self.block(below, parts)?;
        self.expect(Symbol::Catch)?;
        let first_slot = self.names.count();
        let error_name = self.caught_name()?;
        let error = match &error_name {
            Some(name) => Some(self.names.declare(name.as_str())?),
            None => None,
        };
        let handler = self.block(below, parts)?;
        self.names.close(first_slot)?;
        Ok(Expr::Try {
            body,
            error,
            handler,
            error_name,
        })
    }

    /// Parses the name for what is caught, if there is one.
    fn caught_name(&mut self) -> Result<Option<ImmutableString>, SyntaxError> {
        if !self.takes(Symbol::OpenParenthesis)? {
            return Ok(None);
        }
        let name = self.name()?;
        self.expect(Symbol::CloseParenthesis)?;
        Ok(Some(self.kept(name.as_str())?))
    }
}

/// Makes a block of one statement.
pub(super) fn block_of(
    alloc: Global,
    statement: Expr,
    position: Position,
    first_slot: usize,
    end_slot: usize,
) -> Result<Block, SyntaxError> {
    let mut statements = Vec::new(alloc);
    statements.push(statement)?;
    let mut positions = Vec::new(alloc);
    positions.push(position)?;
    Ok(Block {
        statements,
        positions,
        first_slot,
        end_slot,
    })
}
