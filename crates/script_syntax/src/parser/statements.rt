//! Statements.

ghost use Rattle.std.specs.Prelude.{◌≡◌};

use super::{Parser, Part};
use crate::error::{SyntaxError, SyntaxFault};
use crate::operators::{Assigning, LOOSEST, assigning_of};
use crate::symbol::Symbol;
use rhai_text::{Position, Token};
use script_tree::{Assignment, Expr, Step, Variable};

/// The target of an assignment.
#[derive(Drop)]
struct Place {
    variable: Variable,
    position: Position,
    steps: Vec<Step>,
}

impl Parser {
    /// Parses a statement, without its semicolon.
    pub(super) fn statement<P>(&mut self, levels: usize, parts: &P) -> Result<Expr, SyntaxError>
    where
        P: Fn(&mut Parser, usize, Part) -> Option<Expr>,
        requires { P.IsAlwaysCallable parts.now }
    {
        self.reach(levels);
        match self.symbol() {
            Some(Symbol::Let) => self.declaration(levels, false, parts),
            Some(Symbol::Const) => self.declaration(levels, true, parts),
            Some(Symbol::Return) => Ok(Expr::Return(self.behind_word(levels, parts)?)),
            Some(Symbol::Throw) => {
                let position = self.position;
                Ok(Expr::Throw(self.behind_word(levels, parts)?, position))
            }
            Some(Symbol::Break) => {
                self.check_loop()?;
                Ok(Expr::Break(self.behind_word(levels, parts)?))
            }
            Some(Symbol::Continue) => {
                self.check_loop()?;
                self.advance()?;
                Ok(Expr::Continue)
            }
            Some(Symbol::Try) => self.try_catch(levels, parts),
            Some(Symbol::Fn) => Err(self.fault(SyntaxFault::FunctionInside)),
            Some(symbol) if symbol.begins_block() => self.construct(levels, symbol, parts),
            _ => self.value_or_assignment(levels, parts),
        }
    }

    fn check_loop(&self) -> Result<(), SyntaxError> {
        if self.names.is_in_loop() {
            Ok(())
        } else {
            Err(self.fault(SyntaxFault::OutsideLoop))
        }
    }

    /// Parses the value after a keyword, if there is one.
    fn behind_word<P>(&mut self, levels: usize, parts: &P) -> Result<Option<Box<Expr>>, SyntaxError>
    where
        P: Fn(&mut Parser, usize, Part) -> Option<Expr>,
        requires { P.IsAlwaysCallable parts.now }
    {
        self.advance()?;
        if self.is_statement_end() {
            Ok(None)
        } else {
            Ok(Some(self.boxed(levels, parts)?))
        }
    }

    fn declaration<P>(
        &mut self,
        levels: usize,
        is_constant: bool,
        parts: &P,
    ) -> Result<Expr, SyntaxError>
    where
        P: Fn(&mut Parser, usize, Part) -> Option<Expr>,
        requires { P.IsAlwaysCallable parts.now }
    {
        self.advance()?;
        let name = self.name()?;
        let value = if self.takes(Symbol::Operator(Token::Equals))? {
            Some(self.boxed(levels, parts)?)
        } else {
            None
        };
        let slot = self.names.declare(name.as_str())?;
        Ok(Expr::Let {
            slot,
            is_constant,
            value,
            name: self.kept(name.as_str())?,
        })
    }

    fn value_or_assignment<P>(&mut self, levels: usize, parts: &P) -> Result<Expr, SyntaxError>
    where
        P: Fn(&mut Parser, usize, Part) -> Option<Expr>,
        requires { P.IsAlwaysCallable parts.now }
    {
        let read = self.expression(levels, LOOSEST, parts)?;
        let assigning = match self.symbol() {
            Some(symbol) => assigning_of(symbol),
            None => Assigning::No,
        };
        match assigning {
            Assigning::No => Ok(read),
            Assigning::Plainly => self.assignment(levels, read, None, parts),
            Assigning::By(operator) => self.assignment(levels, read, Some(operator), parts),
        }
    }

    /// Parses the value assigned to the expression before.
    fn assignment<P>(
        &mut self,
        levels: usize,
        read: Expr,
        operator: Option<Assignment>,
        parts: &P,
    ) -> Result<Expr, SyntaxError>
    where
        P: Fn(&mut Parser, usize, Part) -> Option<Expr>,
        requires { P.IsAlwaysCallable parts.now }
    {
        let position = self.position;
        let place = self.place(read)?;
        self.advance()?;
        let value = self.boxed(levels, parts)?;
        let Place {
            variable,
            position: variable_position,
            steps,
        } = place;
        Ok(Expr::Assign {
            variable,
            variable_position,
            steps,
            operator,
            value,
            position,
        })
    }

    /// Returns the place that an expression denotes: a variable, or an item or a property at any
    /// depth of one.
    fn place(&self, read: Expr) -> Result<Place, SyntaxError> {
        match read {
            Expr::Chain { root, steps } => {
                if let Some(fault) = steps.iter().find_map(no_place) {
                    return Err(self.fault(fault));
                }
                self.rooted(Box::into_inner(root), steps)
            }
            root => self.rooted(root, Vec::new(self.alloc)),
        }
    }

    /// Returns the place at these steps from a variable.
    fn rooted(&self, root: Expr, steps: Vec<Step>) -> Result<Place, SyntaxError> {
        match root {
            Expr::Variable { variable, position } => Ok(Place {
                variable,
                position,
                steps,
            }),
            _ => Err(self.fault(SyntaxFault::NoPlace)),
        }
    }
}

/// Returns why nothing after a step can be assigned to.
fn no_place(step: &Step) -> Option<SyntaxFault> {
    match step {
        Step::Method { .. } => Some(SyntaxFault::NoPlace),
        Step::Optional { .. } => Some(SyntaxFault::OptionalPlace),
        Step::Index { .. } | Step::Property { .. } => None,
    }
}
