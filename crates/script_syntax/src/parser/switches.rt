//! `switch`.

ghost use Rattle.std.specs.Prelude.{◌≡◌};

use super::blocks::block_of;
use super::{Parser, Part};
use crate::error::{SyntaxError, SyntaxFault};
use crate::lexeme::Lexeme;
use crate::operators::LOOSEST;
use crate::symbol::Symbol;
use rhai_text::{ImmutableString, Token};
use script_tree::{Block, Case, Expr, INT, Pattern, Switch};

impl Parser {
    pub(super) fn switch<P>(&mut self, levels: usize, parts: &P) -> Result<Expr, SyntaxError>
    where
        P: Fn(&mut Parser, usize, Part) -> Option<Expr>,
        requires { P.IsAlwaysCallable parts.now }
    {
        self.advance()?;
        let below = self.below(levels)?;
        let position = self.position;
        let value = self.inner(below, Part::Expression(LOOSEST), parts)?;
        let (cases, otherwise) = self.cases(below, parts)?;
        let type_of = self.callees.number("type_of", 1)?;
        let switch = Switch {
            value,
            position,
            cases,
            otherwise,
            type_of,
        };
        Ok(Expr::Switch(Box::new(self.alloc, switch)?))
    }

    /// Parses the cases in braces, and the body of the case `_`, if there is one.
    fn cases<P>(
        &mut self,
        levels: usize,
        parts: &P,
    ) -> Result<(Vec<Case>, Option<Block>), SyntaxError>
    where
        P: Fn(&mut Parser, usize, Part) -> Option<Expr>,
        requires { P.IsAlwaysCallable parts.now }
    {
        self.expect(Symbol::OpenBrace)?;
        let mut cases = Vec::new(self.alloc);
        for _ in 0..self.lexemes_left() {
            if self.is_next(Symbol::CloseBrace) || self.is_next(Symbol::Underscore) {
                break;
            }
            cases.push(self.case(levels, parts)?)?;
        }
        let otherwise = self.default_case(levels, parts)?;
        self.expect(Symbol::CloseBrace)?;
        Ok((cases, otherwise))
    }

    /// Parses the case `_`, if it comes next. It has to be the last.
    fn default_case<P>(&mut self, levels: usize, parts: &P) -> Result<Option<Block>, SyntaxError>
    where
        P: Fn(&mut Parser, usize, Part) -> Option<Expr>,
        requires { P.IsAlwaysCallable parts.now }
    {
        if !self.takes(Symbol::Underscore)? {
            return Ok(None);
        }
        let body = self.case_body(levels, parts)?;
        if self.is_next(Symbol::CloseBrace) {
            Ok(Some(body))
        } else {
            Err(self.fault(SyntaxFault::CaseBehindDefault))
        }
    }

    /// Parses a case: its patterns, its guard, and its body.
    fn case<P>(&mut self, levels: usize, parts: &P) -> Result<Case, SyntaxError>
    where
        P: Fn(&mut Parser, usize, Part) -> Option<Expr>,
        requires { P.IsAlwaysCallable parts.now }
    {
        let mut patterns = Vec::new(self.alloc);
        for _ in 0..self.lexemes_left() {
            patterns.push(self.pattern()?)?;
            if !self.takes(Symbol::Operator(Token::Pipe))? {
                break;
            }
        }
        let guard_position = self.position;
        let guard = if self.takes(Symbol::If)? {
            Some(self.inner(levels, Part::Expression(LOOSEST), parts)?)
        } else {
            None
        };
        let body = self.case_body(levels, parts)?;
        Ok(Case {
            patterns,
            guard,
            guard_position,
            body,
        })
    }

    /// Parses the body of a case, with the comma after it. A statement that ends by itself needs
    /// none.
    fn case_body<P>(&mut self, levels: usize, parts: &P) -> Result<Block, SyntaxError>
    where
        P: Fn(&mut Parser, usize, Part) -> Option<Expr>,
        requires { P.IsAlwaysCallable parts.now }
    {
        self.expect(Symbol::Arrow)?;
        let ends_itself = self.is_block_next();
        let first_slot = self.names.count();
        let position = self.position;
        let statement = self.inner(levels, Part::Statement, parts)?;
        let end_slot = self.names.count();
        let body = block_of(self.alloc, statement, position, first_slot, end_slot)?;
        self.names.close(first_slot)?;
        self.end_case(ends_itself)?;
        Ok(body)
    }

    /// Moves past the comma after a case.
    fn end_case(&mut self, ends_itself: bool) -> Result<(), SyntaxError> {
        if self.takes(Symbol::Comma)? || ends_itself || self.is_next(Symbol::CloseBrace) {
            Ok(())
        } else {
            Err(self.fault(SyntaxFault::Expected(Symbol::Comma)))
        }
    }

    /// Parses a literal, or a range of ints.
    fn pattern(&mut self) -> Result<Pattern, SyntaxError> {
        if self.takes(Symbol::True)? {
            return Ok(Pattern::Literal(Expr::Bool(true)));
        }
        if self.takes(Symbol::False)? {
            return Ok(Pattern::Literal(Expr::Bool(false)));
        }
        if self.takes(Symbol::OpenParenthesis)? {
            self.expect(Symbol::CloseParenthesis)?;
            return Ok(Pattern::Literal(Expr::Unit));
        }
        if self.is_int_next() {
            return self.int_pattern();
        }
        let literal = match self.take_lexeme() {
            Lexeme::Char(c) => Expr::Char(c),
            Lexeme::Text(text) => {
                Expr::Text(ImmutableString::from_str(self.alloc, text.as_str())?)
            }
            Lexeme::Int(_) | Lexeme::TextBefore(_) | Lexeme::Name(_) | Lexeme::Symbol(_) => {
                return Err(self.fault(SyntaxFault::ExpectedCase));
            }
        };
        self.advance()?;
        Ok(Pattern::Literal(literal))
    }

    /// Whether an int comes next, or a sign that has to be followed by an int here.
    fn is_int_next(&self) -> bool {
        self.is_next(Symbol::Operator(Token::Minus)) || matches!(&self.lexeme, Lexeme::Int(_))
    }

    fn int_pattern(&mut self) -> Result<Pattern, SyntaxError> {
        let first = self.int()?;
        if self.takes(Symbol::Operator(Token::ExclusiveRange))? {
            let last = self.int()?;
            return Ok(Pattern::Range {
                first,
                last,
                is_inclusive: false,
            });
        }
        if self.takes(Symbol::Operator(Token::InclusiveRange))? {
            let last = self.int()?;
            return Ok(Pattern::Range {
                first,
                last,
                is_inclusive: true,
            });
        }
        Ok(Pattern::Literal(Expr::Int(first)))
    }

    /// Parses an int with its sign.
    fn int(&mut self) -> Result<INT, SyntaxError> {
        let is_negative = self.takes(Symbol::Operator(Token::Minus))?;
        let Lexeme::Int(number) = &self.lexeme else {
            return Err(self.fault(SyntaxFault::ExpectedCase));
        };
        let number = *number;
        self.advance()?;
        if is_negative {
            Ok(number.saturating_neg())
        } else {
            Ok(number)
        }
    }
}
