//! Loops.

use super::{Parser, Part};
use crate::error::{SyntaxError, SyntaxFault};
use crate::operators::LOOSEST;
use crate::symbol::Symbol;
use script_tree::{Arm, Block, Expr};

impl Parser {
    /// Parses the block of a loop.
    fn loop_body<P>(&mut self, levels: usize, parts: &P) -> Result<Block, SyntaxError>
    where
        P: Fn(&mut Parser, usize, Part) -> Option<Expr>,
        requires { P.IsAlwaysCallable parts.now }
    {
        self.names.enter_loop();
        let body = self.block(levels, parts)?;
        self.names.leave_loop();
        Ok(body)
    }

    pub(super) fn while_loop<P>(&mut self, levels: usize, parts: &P) -> Result<Expr, SyntaxError>
    where
        P: Fn(&mut Parser, usize, Part) -> Option<Expr>,
        requires { P.IsAlwaysCallable parts.now }
    {
        self.advance()?;
        let below = self.below(levels)?;
        let position = self.position;
        let condition = self.inner(below, Part::Expression(LOOSEST), parts)?;
        let body = self.loop_body(below, parts)?;
        let arm = Arm {
            condition,
            position,
            body,
        };
        Ok(Expr::While(Box::new(self.alloc, arm)?))
    }

    pub(super) fn do_loop<P>(&mut self, levels: usize, parts: &P) -> Result<Expr, SyntaxError>
    where
        P: Fn(&mut Parser, usize, Part) -> Option<Expr>,
        requires { P.IsAlwaysCallable parts.now }
    {
        self.advance()?;
        let below = self.below(levels)?;
        let body = self.loop_body(below, parts)?;
        let goes_on = self.takes(Symbol::While)?;
        if !goes_on {
            self.expect(Symbol::Until)?;
        }
        let position = self.position;
        let condition = self.inner(below, Part::Expression(LOOSEST), parts)?;
        let arm = Arm {
            condition,
            position,
            body,
        };
        Ok(Expr::Do(Box::new(self.alloc, arm)?, goes_on))
    }

    pub(super) fn endless_loop<P>(&mut self, levels: usize, parts: &P) -> Result<Expr, SyntaxError>
    where
        P: Fn(&mut Parser, usize, Part) -> Option<Expr>,
        requires { P.IsAlwaysCallable parts.now }
    {
        self.advance()?;
        let below = self.below(levels)?;
        Ok(Expr::Loop(self.loop_body(below, parts)?))
    }

    pub(super) fn for_loop<P>(&mut self, levels: usize, parts: &P) -> Result<Expr, SyntaxError>
    where
        P: Fn(&mut Parser, usize, Part) -> Option<Expr>,
        requires { P.IsAlwaysCallable parts.now }
    {
        self.advance()?;
        let (item, index) = self.loop_names()?;
        self.expect(Symbol::In)?;
        let position = self.position;
        let source = self.boxed(levels, parts)?;
        let below = self.below(levels)?;
        let first_slot = self.names.count();
        let item_name = self.kept(item.as_str())?;
        let item = self.names.declare(item.as_str())?;
        let (index, index_name) = match index {
            Some(index) => (
                Some(self.names.declare(index.as_str())?),
                Some(self.kept(index.as_str())?),
            ),
            None => (None, None),
        };
        let body = self.loop_body(below, parts)?;
        self.names.close(first_slot)?;
        Ok(Expr::For {
            item,
            index,
            source,
            position,
            body,
            item_name,
            index_name,
        })
    }

    /// Parses the names of the item and of its index: `x`, or `(x, i)`.
    fn loop_names(&mut self) -> Result<(String, Option<String>), SyntaxError> {
        if !self.takes(Symbol::OpenParenthesis)? {
            return Ok((self.name()?, None));
        }
        let item = self.name()?;
        self.expect(Symbol::Comma)?;
        let position = self.position;
        let index = self.name()?;
        if index.as_str() == item.as_str() {
            return Err(SyntaxError::Fault(SyntaxFault::NameTwice, position));
        }
        self.expect(Symbol::CloseParenthesis)?;
        Ok((item, Some(index)))
    }
}
