//! Functions and anonymous functions.

ghost use Rattle.std.specs.Prelude.{◌≡◌};

use super::blocks::block_of;
use super::{Parser, Part};
use crate::error::{SyntaxError, SyntaxFault};
use crate::lexeme::Lexeme;
use crate::names::Names;
use crate::symbol::Symbol;
use rhai_text::{ImmutableString, Position, Token};
use script_tree::{Block, Expr, Function, MOST_LEVELS};
use std::mem;

impl Parser {
    /// Parses a function of the script. It sees no variables from outside.
    pub(super) fn function(&mut self) -> Result<(), SyntaxError> {
        self.advance()?;
        let position = self.position;
        let (this_type, name) = self.function_name()?;
        let outside = mem::replace(&mut self.names, Names::new(self.alloc));
        self.expect(Symbol::OpenParenthesis)?;
        let parameters = self.parameters(Symbol::CloseParenthesis)?;
        self.is_function = true;
        let parts = |parser: &mut Parser, levels: usize, part: Part| parser.part(levels, part);
        let body = self.block(MOST_LEVELS, &parts)?;
        self.is_function = false;
        let mut names = mem::replace(&mut self.names, outside);
        let known = names.leave();
        let given = known.given(parameters)?;
        let uses_this = known.uses_this();
        let (slots, _captured) = known.into_parts();
        if !self.define(&this_type, name.as_str(), parameters)? {
            return Err(SyntaxError::Fault(SyntaxFault::FunctionTwice, position));
        }
        let name = self.kept(name.as_str())?;
        self.functions.push(Function {
            name,
            captured: 0,
            parameters,
            slots,
            body,
            uses_this,
            this_type,
            names: given,
        })?;
        Ok(())
    }

    /// Records the next function of the table under its name; returns `false` if one has this name,
    /// number of parameters and type already.
    fn define(
        &mut self,
        this_type: &Option<ImmutableString>,
        name: &str,
        parameters: usize,
    ) -> Result<bool, SyntaxError> {
        let function = self.functions.len();
        let is_new = match this_type {
            Some(this_type) => self
                .callees
                .define_method(this_type.as_str(), name, parameters)?,
            None => self.callees.define(name, parameters, function)?,
        };
        Ok(is_new)
    }

    /// Parses the name of a function; before it, for a method of one type, the type of the
    /// receiver.
    fn function_name(&mut self) -> Result<(Option<ImmutableString>, String), SyntaxError> {
        if let Lexeme::Text(_) = &self.lexeme {
            let text = self.take_lexeme();
            self.advance()?;
            self.expect(Symbol::Dot)?;
            let this_type = match text {
                Lexeme::Text(text) => Some(self.kept(type_named(text.as_str()))?),
                Lexeme::Int(_)
                | Lexeme::Char(_)
                | Lexeme::TextBefore(_)
                | Lexeme::Name(_)
                | Lexeme::Symbol(_) => None,
            };
            return Ok((this_type, self.name()?));
        }
        let word = self.name()?;
        if self.takes(Symbol::Dot)? {
            let this_type = self.kept(type_named(word.as_str()))?;
            return Ok((Some(this_type), self.name()?));
        }
        Ok((None, word))
    }

    /// Parses the parameters of a function up to this symbol, declares them, and returns their
    /// number.
    fn parameters(&mut self, end: Symbol) -> Result<usize, SyntaxError> {
        for _ in 0..self.lexemes_left() {
            if self.is_next(end) {
                break;
            }
            let position = self.position;
            let name = self.name()?;
            if self.names.has_since(0, name.as_str()) {
                return Err(SyntaxError::Fault(SyntaxFault::NameTwice, position));
            }
            let _slot = self.names.declare(name.as_str())?;
            if !self.is_next(end) {
                self.expect(Symbol::Comma)?;
            }
        }
        self.expect(end)?;
        Ok(self.names.count())
    }

    /// Parses an anonymous function.
    pub(super) fn closure<P>(&mut self, levels: usize, parts: &P) -> Result<Expr, SyntaxError>
    where
        P: Fn(&mut Parser, usize, Part) -> Option<Expr>,
        requires { P.IsAlwaysCallable parts.now }
    {
        let position = self.position;
        let below = self.below(levels)?;
        self.names.enter()?;
        let parameters = if self.takes(Symbol::Or)? {
            0
        } else {
            self.advance()?;
            self.parameters(Symbol::Operator(Token::Pipe))?
        };
        let begins = self.position;
        let body = self.inner(below, Part::Statement, parts)?;
        self.made_closure(parameters, body, begins, position)
    }

    /// Returns the name of the next function, which is anonymous.
    fn closure_name(&self) -> Result<ImmutableString, SyntaxError> {
        let (stamp, function) = (self.stamp, self.functions.len());
        let name = format!(in self.alloc; "anon${stamp:016x}${function}")?;
        self.kept(name.as_str())
    }

    /// Completes an anonymous function, whose body was parsed.
    fn made_closure(
        &mut self,
        parameters: usize,
        body: Expr,
        begins: Position,
        position: Position,
    ) -> Result<Expr, SyntaxError> {
        let end_slot = self.names.count();
        let name = self.closure_name()?;
        let body = match body {
            Expr::Block(block) => block,
            statement => block_of(self.alloc, statement, begins, parameters, end_slot)?,
        };
        let mut known = self.names.leave();
        let given = known.given(parameters)?;
        let missing = known.take_missing();
        let uses_this = known.uses_this();
        let (slots, captured) = known.into_parts();
        let function = self.functions.len();
        self.functions.push(Function {
            name,
            captured: captured.len(),
            parameters,
            slots,
            body,
            uses_this,
            this_type: None,
            names: given,
        })?;
        Ok(Expr::Closure {
            function,
            captured,
            missing,
            position,
        })
    }
}

/// Returns the type that a word before the name of a function means.
fn type_named(word: &str) -> &str {
    if word == "int" { "i64" } else { word }
}
