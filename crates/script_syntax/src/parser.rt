//! Parses lexemes to trees. Each function that parses a part of a tree gets the number of levels
//! that are left for it, and `parts`, through which it parses statements and expressions on lower
//! levels: so only `Parser::part` calls itself.

ghost use Rattle.std.specs.Prelude.{◌≡◌, ◌≤◌, length, IfOk};

use crate::callees::Callees;
use crate::cursor::Cursor;
use crate::error::{SyntaxError, SyntaxFault};
use crate::lexeme::{Lexeme, read_lexeme};
use crate::names::Names;
use crate::symbol::Symbol;
use crate::words::no_name;
use rhai_text::{ImmutableString, Position};
use script_tree::{Block, Expr, Function, MOST_LEVELS, Program};
use std::alloc::Global;
use std::hash::{FoldHasher, Hash, Hasher};
use std::mem;

mod blocks;
mod chains;
mod expressions;
mod functions;
mod loops;
mod primaries;
mod statements;
mod switches;
mod templates;

/// Parses a script, lexeme by lexeme.
#[derive(Drop)]
struct Parser {
    alloc: Global,
    cursor: Cursor,
    /// The next lexeme, and its position.
    lexeme: Lexeme,
    position: Position,
    names: Names,
    callees: Callees,
    functions: Vec<Function>,
    /// Whether a function of the script is being parsed.
    is_function: bool,
    /// Identifies the script, in the names of its anonymous functions.
    stamp: u64,
    /// The lowest level that the current expression has reached.
    lowest: usize,
    /// What was wrong in the part that was parsed last, if that failed.
    error: SyntaxError,
}

/// A part of a tree that a level below is parsed for.
#[derive(Clone, Copy, Drop)]
enum Part {
    Statement,
    /// An expression with operators of at least this precedence.
    Expression(u8),
    /// An operand, with its unary operators.
    Operand,
}

/// Parses a script.
/// Errors: what is wrong, with its line and column; `OutOfMemory`.
/// Cost: the length of the text times the logarithm of the number of names; memory for its
/// characters and for the trees; stack for `MOST_LEVELS` levels.
/// rhai: `Engine::compile`.
pub fn parse(alloc: Global, text: &str) -> Result<Program, SyntaxError>
    ensures first { IfOk result (λ program. program.body.first_slot ≡ 0) }
    ensures room { IfOk result (λ program. program.body.end_slot ≤ program.slots) }
{
    parse_with(alloc, text, &[])
}

/// Parses a script whose statements outside functions see variables with these names, in slots from
/// 0 on; a later one hides an earlier one of the same name.
/// Errors: as `parse`.
/// Cost: as `parse`, and the number of the variables times its logarithm.
/// rhai: `Engine::compile_with_scope`.
pub fn parse_with(alloc: Global, text: &str, outer: &[String]) -> Result<Program, SyntaxError>
    ensures first { IfOk result (λ program. program.body.first_slot ≡ 0) }
    ensures room { IfOk result (λ program. program.body.end_slot ≤ program.slots) }
    ensures outer { IfOk result (λ program. program.outer ≡ length outer.now) }
{
    let mut parser = Parser::new(alloc, text)?;
    for name in outer {
        let _slot = parser.names.declare(name.as_str())?;
    }
    let mut statements = Vec::new(alloc);
    let mut positions = Vec::new(alloc);
    for _ in 0..parser.lexemes_left() {
        if parser.is_next(Symbol::End) {
            break;
        }
        if parser.is_next(Symbol::Fn) {
            parser.function()?;
        } else {
            parser.terminated_statement(
                MOST_LEVELS,
                &mut statements,
                &mut positions,
                &|parser: &mut Parser, levels: usize, part: Part| parser.part(levels, part),
            )?;
        }
    }
    parser.expect(Symbol::End)?;
    parser.into_program(statements, positions, outer.len())
}

/// Returns a number that hardly any other text has.
fn stamp_of(text: &str) -> u64 {
    let mut hasher = FoldHasher::default();
    text.hash(&mut hasher);
    hasher.finish()
}

impl Parser {
    fn new(alloc: Global, text: &str) -> Result<Parser, SyntaxError> {
        let mut cursor = Cursor::new(text.chars().collect(alloc)?);
        let (lexeme, position) = read_lexeme(alloc, &mut cursor)?;
        Ok(Parser {
            alloc,
            cursor,
            lexeme,
            position,
            names: Names::new(alloc),
            callees: Callees::new(alloc),
            functions: Vec::new(alloc),
            is_function: false,
            stamp: stamp_of(text),
            lowest: MOST_LEVELS,
            error: SyntaxError::OutOfMemory,
        })
    }

    fn into_program(
        self,
        statements: Vec<Expr>,
        positions: Vec<Position>,
        outer: usize,
    ) -> Result<Program, SyntaxError>
        ensures first { IfOk result (λ program. program.body.first_slot ≡ 0) }
        ensures room { IfOk result (λ program. program.body.end_slot ≤ program.slots) }
        ensures outer { IfOk result (λ program. program.outer ≡ outer) }
    {
        let Parser {
            alloc: _,
            cursor: _,
            lexeme: _,
            position: _,
            mut names,
            callees,
            functions,
            is_function: _,
            stamp: _,
            lowest: _,
            error: _,
        } = self;
        let end_slot = names.count();
        let (variables, slots) = names.leave().into_names()?;
        Ok(Program {
            functions,
            callees: callees.into_vec(),
            slots,
            body: Block {
                statements,
                positions,
                first_slot: 0,
                end_slot,
            },
            variables,
            outer,
        })
    }

    /// Parses a statement or an expression. If that fails, it notes the error and returns `None`.
    fn part(&mut self, levels: usize, part: Part) -> Option<Expr> {
        let parts = |parser: &mut Parser, below: usize, part: Part| {
            if below < levels {
                parser.part(below, part)
            } else {
                let error = parser.fault(SyntaxFault::TooDeep);
                parser.noted(Err(error))
            }
        };
        let parsed = match part {
            Part::Statement => self.statement(levels, &parts),
            Part::Expression(least) => self.expression(levels, least, &parts),
            Part::Operand => self.unary(levels, &parts),
        };
        self.noted(parsed)
    }

    fn noted(&mut self, parsed: Result<Expr, SyntaxError>) -> Option<Expr> {
        match parsed {
            Ok(expr) => Some(expr),
            Err(error) => {
                self.error = error;
                None
            }
        }
    }

    /// Parses a part of the current one.
    fn inner<P>(&mut self, levels: usize, part: Part, parts: &P) -> Result<Expr, SyntaxError>
    where
        P: Fn(&mut Parser, usize, Part) -> Option<Expr>,
        requires { P.IsAlwaysCallable parts.now }
    {
        match parts(self, levels, part) {
            Some(expr) => Ok(expr),
            None => Err(mem::replace(&mut self.error, SyntaxError::OutOfMemory)),
        }
    }

    /// Makes the error for the next lexeme.
    fn fault(&self, fault: SyntaxFault) -> SyntaxError {
        SyntaxError::Fault(fault, self.position)
    }

    /// Returns an upper bound on the lexemes left, including the end.
    fn lexemes_left(&self) -> usize {
        self.cursor.left().saturating_add(2)
    }

    /// Returns the next symbol, if a symbol comes next.
    fn symbol(&self) -> Option<Symbol> {
        match &self.lexeme {
            Lexeme::Symbol(symbol) => Some(*symbol),
            Lexeme::Int(_)
            | Lexeme::Char(_)
            | Lexeme::Text(_)
            | Lexeme::TextBefore(_)
            | Lexeme::Name(_) => None,
        }
    }

    /// Whether this symbol comes next.
    fn is_next(&self, symbol: Symbol) -> bool {
        self.symbol() == Some(symbol)
    }

    /// Moves past the next lexeme.
    fn advance(&mut self) -> Result<(), SyntaxError> {
        let (lexeme, position) = read_lexeme(self.alloc, &mut self.cursor)?;
        self.lexeme = lexeme;
        self.position = position;
        Ok(())
    }

    /// Takes the next lexeme out, before `advance`.
    fn take_lexeme(&mut self) -> Lexeme {
        mem::replace(&mut self.lexeme, Lexeme::Symbol(Symbol::End))
    }

    /// Moves past this symbol, if it comes next.
    fn takes(&mut self, symbol: Symbol) -> Result<bool, SyntaxError> {
        let is_next = self.is_next(symbol);
        if is_next {
            self.advance()?;
        }
        Ok(is_next)
    }

    /// Moves past this symbol; fails if it doesn't come next.
    fn expect(&mut self, symbol: Symbol) -> Result<(), SyntaxError> {
        if self.is_next(symbol) {
            self.advance()
        } else {
            Err(self.fault(SyntaxFault::Expected(symbol)))
        }
    }

    /// Reads a word that isn't a keyword.
    fn word(&mut self) -> Result<String, SyntaxError> {
        match self.take_lexeme() {
            Lexeme::Name(word) => {
                self.advance()?;
                Ok(word)
            }
            Lexeme::Int(_)
            | Lexeme::Char(_)
            | Lexeme::Text(_)
            | Lexeme::TextBefore(_)
            | Lexeme::Symbol(_) => Err(self.fault(SyntaxFault::ExpectedName)),
        }
    }

    /// Reads a name, which is not a reserved word.
    fn name(&mut self) -> Result<String, SyntaxError> {
        let position = self.position;
        let word = self.word()?;
        if let Some(fault) = no_name(word.as_str()) {
            return Err(SyntaxError::Fault(fault, position));
        }
        Ok(word)
    }

    /// Copies a name or a text for a tree.
    fn kept(&self, name: &str) -> Result<ImmutableString, SyntaxError> {
        Ok(ImmutableString::from_str(self.alloc, name)?)
    }

    /// Returns the levels that are left below one.
    fn below(&self, levels: usize) -> Result<usize, SyntaxError> {
        match levels.checked_sub(1) {
            Some(below) => Ok(below),
            None => Err(self.fault(SyntaxFault::TooDeep)),
        }
    }

    /// Records that the current expression has a part at this level.
    fn reach(&mut self, levels: usize) {
        self.lowest = self.lowest.min(levels);
    }

    /// Moves the expression parsed so far one level down, since it is part of a larger one.
    fn lower(&mut self) -> Result<(), SyntaxError> {
        self.lowest = self.below(self.lowest)?;
        Ok(())
    }
}
