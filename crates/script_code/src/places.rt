//! The steps of places, and writes to places.

use crate::compiler::Compiler;
use crate::error::CodeError;
use crate::operations::{Op, Slot};
use crate::program::{PathStep, Place};
use crate::quiet::{is_variable, known_variable};
use rhai_text::{Position, Token};
use script_tree::{Assignment, Expr, Step, Variable};

/// Returns the slot of the index, if a path is exactly one index.
fn one_index(path: &[PathStep]) -> Option<Slot> {
    if let [PathStep::Index(index, _)] = path {
        Some(*index)
    } else {
        None
    }
}

impl<'p> Compiler<'p> {
    /// Compiles the indices of steps, and returns the steps with the slots of these. An index that
    /// is a variable is copied if it may be shared, is the root itself, or may be changed by
    /// another index or by what is evaluated later. Adds how many steps lead to each value that may
    /// be `()`.
    pub(crate) fn steps<P>(
        &mut self,
        steps: &[Step],
        root: &Expr,
        behind: &[Step],
        tests: &mut Vec<usize>,
        levels: u32,
        parts: &P,
    ) -> Result<Vec<PathStep>, CodeError>
    where
        P: Fn(&mut Compiler, &Expr, Option<Slot>, u32) -> Result<(), CodeError>,
        requires { P.IsAlwaysCallable parts.now }
    {
        let mut path = Vec::new(self.alloc);
        for (number, step) in steps.iter().enumerate() {
            match step {
                Step::Index { index, position } => {
                    let rest = steps.get(number.saturating_add(1)..).unwrap_or(&[]);
                    let stays = self.index_stays(index, rest, root)
                        && self.index_stays(index, behind, root);
                    let slot = self.operand(index, stays, levels, parts)?;
                    path.push(PathStep::Index(slot, *position))?;
                }
                Step::Property { key, position } => {
                    let key = self.text(key.as_str())?;
                    path.push(PathStep::Name(key, *position))?;
                }
                Step::Optional { .. } => tests.push(path.len())?,
                Step::Method { .. } => {}
            }
        }
        Ok(path)
    }

    /// Whether an index that is a variable may be read in place, after other steps and the root.
    fn index_stays(&self, index: &Expr, rest: &[Step], root: &Expr) -> bool {
        let Some(slot) = known_variable(index) else {
            return true;
        };
        let watched = self.watched(slot);
        watched.is_plain
            && !is_variable(root, slot)
            && watched.stays(root)
            && watched.stays_in_steps(rest, false)
    }

    /// Returns the slots of the indices, if a path is exactly two indices.
    pub(crate) fn two_indices(&self, path: &[PathStep]) -> Option<(Slot, Slot)> {
        if let [PathStep::Index(first, _), PathStep::Index(second, _)] = path {
            Some((*first, *second))
        } else {
            None
        }
    }
}

/// Writes.
impl<'p> Compiler<'p> {
    /// Writes to the place at steps from a variable.
    pub(crate) fn write<P>(
        &mut self,
        slot: script_tree::Slot,
        variable: Position,
        steps: &Vec<Step>,
        operator: Option<Assignment>,
        value: &Expr,
        position: Position,
        levels: u32,
        parts: &P,
    ) -> Result<(), CodeError>
    where
        P: Fn(&mut Compiler, &Expr, Option<Slot>, u32) -> Result<(), CodeError>,
        requires { P.IsAlwaysCallable parts.now }
    {
        let to = self.slot_of(slot)?;
        let stays = match known_variable(value) {
            Some(known) => self.watched(known).stays_in_steps(steps, false),
            None => true,
        };
        let from = self.operand(value, stays, levels, parts)?;
        let path = self.steps_from(slot, steps, position, levels, parts)?;
        self.check_this(slot, variable)?;
        self.write_at(to, from, path, operator, position)
    }

    /// Compiles the indices of steps from a variable, and returns the steps.
    fn steps_from<P>(
        &mut self,
        slot: script_tree::Slot,
        steps: &[Step],
        position: Position,
        levels: u32,
        parts: &P,
    ) -> Result<Vec<PathStep>, CodeError>
    where
        P: Fn(&mut Compiler, &Expr, Option<Slot>, u32) -> Result<(), CodeError>,
        requires { P.IsAlwaysCallable parts.now }
    {
        let root = Expr::Variable {
            variable: Variable::Known(slot),
            position,
        };
        let mut tests = Vec::new(self.alloc);
        self.steps(steps, &root, &[], &mut tests, levels, parts)
    }

    /// Writes the value of a slot to the place at steps from a variable.
    fn write_at(
        &mut self,
        to: Slot,
        from: Slot,
        path: Vec<PathStep>,
        operator: Option<Assignment>,
        position: Position,
    ) -> Result<(), CodeError> {
        let two = self.two_indices(path.as_slice());
        let one = one_index(path.as_slice());
        let number = self.path(path)?;
        let op = match (operator, one, two) {
            (None, Some(index), _) => Op::SetIndex(to, index, from),
            (None, None, Some((first, second))) => Op::SetIndexTwice(to, first, second, from),
            (None, None, None) | (Some(_), _, _) => Op::Write(to, from, number),
        };
        let place = Place {
            position,
            token: match operator {
                Some(operator) => operator.whole,
                None => Token::Equals,
            },
            flag: operator.is_some(),
            moves: self.is_free(from),
            path: number,
            ..self.place()
        };
        self.emit_with(op, place)?;
        Ok(())
    }
}
