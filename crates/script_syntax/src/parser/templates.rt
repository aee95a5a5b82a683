//! Texts in back-ticks, with the statements in them.

ghost use Rattle.std.specs.Prelude.{◌≡◌};

use super::{Parser, Part};
use crate::error::{SyntaxError, SyntaxFault};
use crate::lexeme::Lexeme;
use crate::literals::template_part;
use crate::symbol::Symbol;
use rhai_text::{Position, Token};
use script_tree::{Block, Expr, Operator, Term};

impl Parser {
    /// Parses a text in back-ticks after its first `${`: a sum of texts and of the embedded blocks,
    /// whose values are printed into it.
    pub(super) fn template<P>(
        &mut self,
        levels: usize,
        begin: &str,
        start: Position,
        parts: &P,
    ) -> Result<Expr, SyntaxError>
    where
        P: Fn(&mut Parser, usize, Part) -> Option<Expr>,
        requires { P.IsAlwaysCallable parts.now }
    {
        let below = self.below(levels)?;
        self.reach(below);
        let first = self.text(begin)?;
        let first = Box::new(self.alloc, first)?;
        let rest = self.template_rest(below, start, parts)?;
        self.advance()?;
        Ok(Expr::Run { first, rest })
    }

    /// Parses the embedded blocks, with the texts after them.
    fn template_rest<P>(
        &mut self,
        levels: usize,
        start: Position,
        parts: &P,
    ) -> Result<Vec<Term>, SyntaxError>
    where
        P: Fn(&mut Parser, usize, Part) -> Option<Expr>,
        requires { P.IsAlwaysCallable parts.now }
    {
        let mut rest = Vec::new(self.alloc);
        for _ in 0..self.lexemes_left() {
            let position = self.cursor.position();
            let block = self.embedded(levels, parts)?;
            rest.push(term(Expr::Block(block), position))?;
            let (text, is_last) = self.template_text(start)?;
            if !text.is_empty() {
                rest.push(term(self.text(text.as_str())?, position))?;
            }
            if is_last {
                break;
            }
        }
        Ok(rest)
    }

    pub(super) fn text(&self, text: &str) -> Result<Expr, SyntaxError> {
        Ok(Expr::Text(self.kept(text)?))
    }

    /// Parses the statements after a `${`, up to its brace, which is left as the next lexeme.
    fn embedded<P>(&mut self, levels: usize, parts: &P) -> Result<Block, SyntaxError>
    where
        P: Fn(&mut Parser, usize, Part) -> Option<Expr>,
        requires { P.IsAlwaysCallable parts.now }
    {
        self.advance()?;
        let below = self.below(levels)?;
        let block = self.statements(below, parts)?;
        if self.is_next(Symbol::CloseBrace) {
            Ok(block)
        } else {
            Err(self.fault(SyntaxFault::Expected(Symbol::CloseBrace)))
        }
    }

    /// Reads the text after the brace that comes next, up to the end or the next `${`, and returns
    /// whether it is the last.
    fn template_text(&mut self, start: Position) -> Result<(String, bool), SyntaxError> {
        match template_part(self.alloc, &mut self.cursor, start)? {
            Lexeme::Text(text) => Ok((text, true)),
            Lexeme::TextBefore(text) => Ok((text, false)),
            Lexeme::Int(_) | Lexeme::Char(_) | Lexeme::Name(_) | Lexeme::Symbol(_) => {
                Err(SyntaxError::Fault(SyntaxFault::OpenText, start))
            }
        }
    }
}

/// Makes a summand of a text.
fn term(operand: Expr, position: Position) -> Term {
    Term {
        operator: Operator::Plain(Token::Plus),
        position,
        operand,
    }
}
