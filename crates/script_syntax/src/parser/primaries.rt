//! Literals, variables, calls, and expressions in brackets.

ghost use Rattle.std.specs.Prelude.{◌≡◌};

use super::{Parser, Part};
use crate::error::{SyntaxError, SyntaxFault};
use crate::lexeme::Lexeme;
use crate::operators::LOOSEST;
use crate::symbol::Symbol;
use crate::words::{no_function, no_name};
use rhai_text::{ImmutableString, Position, Token};
use script_tree::{Expr, Field, Missing, Slot, Variable};
use std::collections::BTreeSet;

impl Parser {
    /// Parses an operand without the steps after it.
    pub(super) fn primary<P>(&mut self, levels: usize, parts: &P) -> Result<Expr, SyntaxError>
    where
        P: Fn(&mut Parser, usize, Part) -> Option<Expr>,
        requires { P.IsAlwaysCallable parts.now }
    {
        match self.symbol() {
            Some(Symbol::OpenParenthesis) => self.parenthesized(levels, parts),
            Some(Symbol::OpenBracket) => self.array(levels, parts),
            Some(Symbol::OpenMap) => self.object(levels, parts),
            Some(Symbol::Operator(Token::Pipe) | Symbol::Or) => self.closure(levels, parts),
            Some(Symbol::True) => self.literal(Expr::Bool(true)),
            Some(Symbol::False) => self.literal(Expr::Bool(false)),
            Some(symbol) => self.construct(levels, symbol, parts),
            None => self.operand(levels, parts),
        }
    }

    /// Moves past a literal of one lexeme.
    fn literal(&mut self, literal: Expr) -> Result<Expr, SyntaxError> {
        self.advance()?;
        Ok(literal)
    }

    /// Parses an operand that doesn't begin with a symbol.
    fn operand<P>(&mut self, levels: usize, parts: &P) -> Result<Expr, SyntaxError>
    where
        P: Fn(&mut Parser, usize, Part) -> Option<Expr>,
        requires { P.IsAlwaysCallable parts.now }
    {
        let position = self.position;
        match self.take_lexeme() {
            Lexeme::Int(number) => self.literal(Expr::Int(number)),
            Lexeme::Char(c) => self.literal(Expr::Char(c)),
            Lexeme::Text(text) => {
                let text = self.text(text.as_str())?;
                self.literal(text)
            }
            Lexeme::TextBefore(text) => self.template(levels, text.as_str(), position, parts),
            Lexeme::Name(word) => {
                self.advance()?;
                if self.is_next(Symbol::OpenParenthesis) {
                    self.call(levels, word, position, parts)
                } else if self.is_next(Symbol::Not) && self.cursor.peek() == Some('(') {
                    Err(self.fault(SyntaxFault::CallerVariables))
                } else {
                    self.variable(word, position)
                }
            }
            Lexeme::Symbol(_) => Err(self.fault(SyntaxFault::ExpectedExpression)),
        }
    }

    /// Parses the arguments of a call.
    fn call<P>(
        &mut self,
        levels: usize,
        word: String,
        position: Position,
        parts: &P,
    ) -> Result<Expr, SyntaxError>
    where
        P: Fn(&mut Parser, usize, Part) -> Option<Expr>,
        requires { P.IsAlwaysCallable parts.now }
    {
        if let Some(fault) = no_function(word.as_str()) {
            return Err(SyntaxError::Fault(fault, position));
        }
        let below = self.below(levels)?;
        let arguments = self.arguments(below, parts)?;
        let callee = self.callees.number(word.as_str(), arguments.len())?;
        Ok(Expr::Call {
            callee,
            arguments,
            position,
        })
    }

    fn variable(&mut self, word: String, position: Position) -> Result<Expr, SyntaxError> {
        if word.as_str() == "this" {
            return self.this(position);
        }
        if let Some(fault) = no_name(word.as_str()) {
            return Err(SyntaxError::Fault(fault, position));
        }
        let variable = match self.names.resolve(word.as_str())? {
            Some(slot) => Variable::Known(slot),
            None => self.unknown(word, position)?,
        };
        Ok(Expr::Variable { variable, position })
    }

    /// Returns `this`, the receiver of the current function.
    fn this(&mut self, position: Position) -> Result<Expr, SyntaxError> {
        if !self.is_function && !self.names.is_inside() {
            return Err(SyntaxError::Fault(SyntaxFault::ThisOutside, position));
        }
        self.names.note_this();
        Ok(Expr::Variable {
            variable: Variable::Known(Slot::This),
            position,
        })
    }

    /// Handles an unknown name: making an anonymous function around it is a fault.
    fn unknown(&mut self, word: String, position: Position) -> Result<Variable, SyntaxError> {
        if self.names.is_inside() {
            let name = self.kept(word.as_str())?;
            self.names.note_missing(Missing { name, position });
        }
        Ok(Variable::Unknown(self.kept(word.as_str())?))
    }

    fn parenthesized<P>(&mut self, levels: usize, parts: &P) -> Result<Expr, SyntaxError>
    where
        P: Fn(&mut Parser, usize, Part) -> Option<Expr>,
        requires { P.IsAlwaysCallable parts.now }
    {
        self.advance()?;
        if self.takes(Symbol::CloseParenthesis)? {
            return Ok(Expr::Unit);
        }
        let below = self.below(levels)?;
        self.closed(below, Symbol::CloseParenthesis, parts)
    }

    fn array<P>(&mut self, levels: usize, parts: &P) -> Result<Expr, SyntaxError>
    where
        P: Fn(&mut Parser, usize, Part) -> Option<Expr>,
        requires { P.IsAlwaysCallable parts.now }
    {
        self.advance()?;
        let below = self.below(levels)?;
        Ok(Expr::Array(self.list(below, Symbol::CloseBracket, parts)?))
    }

    fn object<P>(&mut self, levels: usize, parts: &P) -> Result<Expr, SyntaxError>
    where
        P: Fn(&mut Parser, usize, Part) -> Option<Expr>,
        requires { P.IsAlwaysCallable parts.now }
    {
        self.advance()?;
        let below = self.below(levels)?;
        let mut keys = BTreeSet::new(self.alloc);
        let mut fields = Vec::new(self.alloc);
        for _ in 0..self.lexemes_left() {
            if self.is_next(Symbol::CloseBrace) {
                break;
            }
            let key = self.key(&mut keys)?;
            let value = self.inner(below, Part::Expression(LOOSEST), parts)?;
            fields.push(Field { key, value })?;
            if !self.is_next(Symbol::CloseBrace) {
                self.expect(Symbol::Comma)?;
            }
        }
        self.expect(Symbol::CloseBrace)?;
        Ok(Expr::Object(fields))
    }

    /// Parses the key of a field with its colon; fails if the key occurred before.
    fn key(&mut self, keys: &mut BTreeSet<String>) -> Result<ImmutableString, SyntaxError> {
        let position = self.position;
        let key = match self.take_lexeme() {
            Lexeme::Text(text) => text,
            Lexeme::Name(word) => match no_name(word.as_str()) {
                Some(fault) => return Err(self.fault(fault)),
                None => word,
            },
            Lexeme::Int(_) | Lexeme::Char(_) | Lexeme::TextBefore(_) | Lexeme::Symbol(_) => {
                return Err(self.fault(SyntaxFault::ExpectedKey));
            }
        };
        let text = ImmutableString::from_str(self.alloc, key.as_str())?;
        if !keys.insert(key)? {
            return Err(SyntaxError::Fault(SyntaxFault::KeyTwice, position));
        }
        self.advance()?;
        self.expect(Symbol::Colon)?;
        Ok(text)
    }
}
