//! Indices, properties and methods.

ghost use Rattle.std.specs.Prelude.{◌≡◌};

use super::{Parser, Part};
use crate::error::SyntaxError;
use crate::operators::LOOSEST;
use crate::symbol::Symbol;
use crate::words::{no_method, no_name};
use rhai_text::{ImmutableString, Position};
use script_tree::{Expr, Step};

impl Parser {
    /// Parses an operand with the steps after it.
    pub(super) fn chain<P>(&mut self, levels: usize, parts: &P) -> Result<Expr, SyntaxError>
    where
        P: Fn(&mut Parser, usize, Part) -> Option<Expr>,
        requires { P.IsAlwaysCallable parts.now }
    {
        let root = self.primary(levels, parts)?;
        if !self.is_step_next() {
            return Ok(root);
        }
        let root = Box::new(self.alloc, root)?;
        self.lower()?;
        let below = self.below(levels)?;
        let steps = self.steps(below, parts)?;
        Ok(Expr::Chain { root, steps })
    }

    fn steps<P>(&mut self, levels: usize, parts: &P) -> Result<Vec<Step>, SyntaxError>
    where
        P: Fn(&mut Parser, usize, Part) -> Option<Expr>,
        requires { P.IsAlwaysCallable parts.now }
    {
        let mut steps = Vec::new(self.alloc);
        for _ in 0..self.lexemes_left() {
            if !self.is_step_next() {
                break;
            }
            if self.is_optional_next() {
                let position = self.position;
                steps.push(Step::Optional { position })?;
            }
            steps.push(self.step(levels, parts)?)?;
        }
        Ok(steps)
    }

    fn is_step_next(&self) -> bool {
        self.is_next(Symbol::OpenBracket) || self.is_next(Symbol::Dot) || self.is_optional_next()
    }

    fn is_optional_next(&self) -> bool {
        self.is_next(Symbol::OptionalBracket) || self.is_next(Symbol::OptionalDot)
    }

    fn step<P>(&mut self, levels: usize, parts: &P) -> Result<Step, SyntaxError>
    where
        P: Fn(&mut Parser, usize, Part) -> Option<Expr>,
        requires { P.IsAlwaysCallable parts.now }
    {
        let is_index = self.is_next(Symbol::OpenBracket) || self.is_next(Symbol::OptionalBracket);
        if is_index {
            self.advance()?;
            let position = self.position;
            let index = self.closed(levels, Symbol::CloseBracket, parts)?;
            return Ok(Step::Index { index, position });
        }
        if !self.takes(Symbol::OptionalDot)? {
            self.expect(Symbol::Dot)?;
        }
        let position = self.position;
        let word = self.word()?;
        if self.is_next(Symbol::OpenParenthesis) {
            self.method(levels, word, position, parts)
        } else {
            self.property(word, position)
        }
    }

    fn method<P>(
        &mut self,
        levels: usize,
        word: String,
        position: Position,
        parts: &P,
    ) -> Result<Step, SyntaxError>
    where
        P: Fn(&mut Parser, usize, Part) -> Option<Expr>,
        requires { P.IsAlwaysCallable parts.now }
    {
        if let Some(fault) = no_method(word.as_str()) {
            return Err(SyntaxError::Fault(fault, position));
        }
        let arguments = self.arguments(levels, parts)?;
        let count = arguments.len().saturating_add(1);
        let callee = self.callees.number(word.as_str(), count)?;
        Ok(Step::Method {
            callee,
            arguments,
            position,
        })
    }

    fn property(&mut self, word: String, position: Position) -> Result<Step, SyntaxError> {
        if let Some(fault) = no_name(word.as_str()) {
            return Err(SyntaxError::Fault(fault, position));
        }
        let key = ImmutableString::from_str(self.alloc, word.as_str())?;
        Ok(Step::Property { key, position })
    }

    /// Parses the arguments of a call, in parentheses.
    pub(super) fn arguments<P>(
        &mut self,
        levels: usize,
        parts: &P,
    ) -> Result<Vec<Expr>, SyntaxError>
    where
        P: Fn(&mut Parser, usize, Part) -> Option<Expr>,
        requires { P.IsAlwaysCallable parts.now }
    {
        self.expect(Symbol::OpenParenthesis)?;
        self.list(levels, Symbol::CloseParenthesis, parts)
    }

    /// Parses expressions up to this symbol.
    pub(super) fn list<P>(
        &mut self,
        levels: usize,
        end: Symbol,
        parts: &P,
    ) -> Result<Vec<Expr>, SyntaxError>
    where
        P: Fn(&mut Parser, usize, Part) -> Option<Expr>,
        requires { P.IsAlwaysCallable parts.now }
    {
        let mut items = Vec::new(self.alloc);
        for _ in 0..self.lexemes_left() {
            if self.is_next(end) {
                break;
            }
            items.push(self.inner(levels, Part::Expression(LOOSEST), parts)?)?;
            if !self.is_next(end) {
                self.expect(Symbol::Comma)?;
            }
        }
        self.expect(end)?;
        Ok(items)
    }
}
