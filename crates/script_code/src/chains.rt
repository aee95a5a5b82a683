//! Chains of indices, properties and methods. The indices and arguments of all steps are evaluated
//! first, and the root after them.

use crate::compiler::{Compiler, to_slot};
use crate::error::CodeError;
use crate::meaning::Meaning;
use crate::operations::{Op, Slot};
use crate::program::{PathStep, Place};
use crate::quiet::known_variable;
use rhai_text::Position;
use script_tree::{Expr, Step, Variable};

/// A method of a chain whose operands are evaluated, with the steps before it.
#[derive(Drop)]
pub(crate) struct Called {
    pub(crate) callee: usize,
    pub(crate) position: Position,
    /// The steps from the method before.
    pub(crate) path: Vec<PathStep>,
    /// How many of them lead to each value at which the chain ends if it is `()`.
    pub(crate) tests: Vec<usize>,
    /// The slot of the receiver; the arguments follow.
    pub(crate) receiver: Slot,
    pub(crate) arguments: usize,
    /// Whether it calls the variable itself that is the root: the receiver's slot then has the
    /// first argument.
    pub(crate) is_direct: bool,
}

/// Where a chain begins.
#[derive(Clone, Copy)]
pub(crate) enum Root {
    /// At a variable, which is used in place.
    Variable(Slot, Position),
    /// At a value in a slot of its own.
    Made(Slot),
}

/// Returns the number of the first method, or of the end.
fn method_from(steps: &[Step], first: usize) -> usize {
    for (number, step) in steps.iter().enumerate() {
        if number >= first && matches!(step, Step::Method { .. }) {
            return number;
        }
    }
    steps.len()
}

impl<'p> Compiler<'p> {
    /// Evaluates a chain into a slot.
    pub(crate) fn chain<P>(
        &mut self,
        root: &Expr,
        steps: &Vec<Step>,
        to: Slot,
        levels: u32,
        parts: &P,
    ) -> Result<(), CodeError>
    where
        P: Fn(&mut Compiler, &Expr, Option<Slot>, u32) -> Result<(), CodeError>,
        requires { P.IsAlwaysCallable parts.now }
    {
        let mut methods = Vec::new(self.alloc);
        if self.is_free(to) && to.saturating_add(1) == self.top {
            self.top = to;
        }
        let mut tests = Vec::new(self.alloc);
        let rest = self.operands(root, steps, &mut methods, &mut tests, levels, parts)?;
        let Some(mut at) = self.root(root, methods.as_slice(), levels, parts)? else {
            return Ok(());
        };
        let mut ends = Vec::new(self.alloc);
        for method in methods.iter() {
            self.end_early(
                at,
                method.path.as_slice(),
                method.tests.as_slice(),
                &mut ends,
            )?;
            at = Root::Made(self.method(at, method)?);
        }
        self.end_early(at, rest.as_slice(), tests.as_slice(), &mut ends)?;
        self.read(at, rest, to)?;
        self.end_chain(to, ends.as_slice())
    }

    /// Ends the chain if one of the values at these numbers of steps is `()`.
    fn end_early(
        &mut self,
        at: Root,
        steps: &[PathStep],
        tests: &[usize],
        ends: &mut Vec<usize>,
    ) -> Result<(), CodeError> {
        let (Root::Made(from) | Root::Variable(from, _)) = at;
        for count in tests {
            let mut path = Vec::new(self.alloc);
            for step in steps.iter().take(*count) {
                path.push(*step)?;
            }
            let position = match path.first() {
                Some(step) => step.position(),
                None => self.position,
            };
            let number = self.path(path)?;
            ends.push(self.emit_at(Op::JumpNone(from, number, 0), position)?)?;
        }
        Ok(())
    }

    /// Stores `()` as the value of a chain that ended early.
    fn end_chain(&mut self, to: Slot, ends: &[usize]) -> Result<(), CodeError> {
        if ends.is_empty() {
            return Ok(());
        }
        let done = self.emit(Op::Jump(0))?;
        self.land(ends)?;
        self.emit(Op::Unit(to))?;
        self.land(&[done])
    }

    /// Evaluates the indices and arguments of all steps: adds the methods, and returns the steps
    /// after the last.
    fn operands<P>(
        &mut self,
        root: &Expr,
        steps: &Vec<Step>,
        methods: &mut Vec<Called>,
        tests: &mut Vec<usize>,
        levels: u32,
        parts: &P,
    ) -> Result<Vec<PathStep>, CodeError>
    where
        P: Fn(&mut Compiler, &Expr, Option<Slot>, u32) -> Result<(), CodeError>,
        requires { P.IsAlwaysCallable parts.now }
    {
        let mut next = 0;
        let mut path = Vec::new(self.alloc);
        for number in 0..steps.len() {
            if number < next {
                continue;
            }
            let end = method_from(steps, number);
            let between = steps.as_slice().get(number..end).unwrap_or(&[]);
            let behind = steps.as_slice().get(end..).unwrap_or(&[]);
            let mut found = Vec::new(self.alloc);
            path = self.steps(between, root, behind, &mut found, levels, parts)?;
            next = end.saturating_add(1);
            if let Some(
                Step::Method {
                    callee,
                    arguments,
                    position,
                },
            ) = steps.get(end)
            {
                let is_direct = number == 0 && end == 0 && self.calls_variable(root, *callee);
                let receiver = self.top;
                if !is_direct {
                    self.take_slot()?;
                }
                self.values(arguments, levels, parts)?;
                if self.top == receiver {
                    self.take_slot()?;
                }
                methods.push(Called {
                    callee: *callee,
                    position: *position,
                    path,
                    tests: found,
                    receiver,
                    arguments: arguments.len(),
                    is_direct,
                })?;
                path = Vec::new(self.alloc);
            } else {
                *tests = found;
            }
        }
        Ok(path)
    }

    /// Whether a method calls a variable that is a function pointer.
    fn calls_variable(&self, root: &Expr, callee: usize) -> bool {
        known_variable(root).is_some() && matches!(self.meaning(callee), Meaning::Call)
    }

    /// Compiles the root of a chain; `None` if it is an unknown name.
    fn root<P>(
        &mut self,
        root: &Expr,
        methods: &[Called],
        levels: u32,
        parts: &P,
    ) -> Result<Option<Root>, CodeError>
    where
        P: Fn(&mut Compiler, &Expr, Option<Slot>, u32) -> Result<(), CodeError>,
        requires { P.IsAlwaysCallable parts.now }
    {
        if let Expr::Variable { variable, position } = root {
            return match variable {
                Variable::Known(slot) => {
                    self.check_this(*slot, *position)?;
                    let slot = self.slot_of(*slot)?;
                    Ok(Some(Root::Variable(slot, *position)))
                }
                Variable::Unknown(name) => {
                    self.unknown(name.as_str(), *position)?;
                    Ok(None)
                }
            };
        }
        let slot = match methods.first() {
            Some(method) => method.receiver,
            None => self.take_slot()?,
        };
        parts(self, root, Some(slot), levels)?;
        Ok(Some(Root::Made(slot)))
    }

    /// Reads the value at steps.
    pub(crate) fn read(
        &mut self,
        at: Root,
        path: Vec<PathStep>,
        to: Slot,
    ) -> Result<(), CodeError> {
        let position = match path.first() {
            Some(step) => step.position(),
            None => self.position,
        };
        match (at, path.as_slice()) {
            (Root::Made(from), []) => {
                if from != to {
                    self.emit(Op::Move(to, from))?;
                }
            }
            (Root::Variable(from, _), []) => {
                self.emit(Op::Copy(to, from))?;
            }
            (Root::Made(from) | Root::Variable(from, _), [PathStep::Index(index, _)]) => {
                self.emit_at(Op::Index(to, from, *index), position)?;
            }
            (Root::Made(from) | Root::Variable(from, _), _) => {
                let two = self.two_indices(path.as_slice());
                let number = self.path(path)?;
                let op = match two {
                    Some((first, second)) => Op::IndexTwice(to, from, first, second),
                    None => Op::Read(to, from, number),
                };
                let place = Place {
                    position,
                    path: number,
                    ..self.place()
                };
                self.emit_with(op, place)?;
            }
        }
        Ok(())
    }

    /// Copies the steps to a method.
    pub(crate) fn copied_path(&self, method: &Called) -> Result<Vec<PathStep>, CodeError> {
        let mut path = Vec::new(self.alloc);
        for step in method.path.iter() {
            path.push(*step)?;
        }
        Ok(path)
    }

    /// Moves a value, unless it is there already.
    pub(crate) fn moved(&mut self, to: Slot, from: Slot) -> Result<(), CodeError> {
        if to != from {
            self.emit(Op::Move(to, from))?;
        }
        Ok(())
    }

    /// Moves a slot and this many values after it to the top, where no used slot follows; returns
    /// the slot of the first.
    pub(crate) fn at_top(&mut self, first: Slot, count: usize) -> Result<Slot, CodeError> {
        let end = usize::from(first).saturating_add(count).saturating_add(1);
        if end == usize::from(self.top) {
            if count == 0 {
                self.take_slot()?;
            }
            return Ok(first);
        }
        let moved = self.take_slots(count.saturating_add(1))?;
        for number in 0..=count {
            let number = to_slot(number)?;
            self.emit(Op::Move(moved.saturating_add(number), first.saturating_add(number)))?;
        }
        if count == 0 {
            self.take_slot()?;
        }
        Ok(moved)
    }
}
