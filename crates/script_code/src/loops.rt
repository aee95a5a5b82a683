//! Loops. Their conditions are at their ends.

use crate::compiler::{Compiler, Round};
use crate::error::CodeError;
use crate::meaning::Meaning;
use crate::operations::{Op, Slot, Target};
use crate::program::Place;
use crate::variables::LoopNames;
use rhai_text::{Position, Token};
use script_tree::{Arm, Block, Expr, Operator};
use std::mem;

impl<'p> Compiler<'p> {
    fn begin_round(&mut self, to: Option<Slot>) -> Result<(), CodeError> {
        let round = Round {
            breaks: Vec::new(self.alloc),
            continues: Vec::new(self.alloc),
            tries: self.tries,
            to,
        };
        self.rounds.push(round)?;
        Ok(())
    }

    /// Sets the target of the jumps to the next iteration of the innermost loop.
    fn land_continues(&mut self, target: Target) {
        let jumps = match self.rounds.last_mut() {
            Some(round) => mem::replace(&mut round.continues, Vec::new(self.alloc)),
            None => Vec::new(self.alloc),
        };
        self.set_targets(jumps.as_slice(), target);
    }

    /// Ends a loop, whose value is unit unless `break` left it.
    fn end_round(&mut self, first_slot: usize) -> Result<(), CodeError> {
        let Some(round) = self.rounds.pop() else {
            return Ok(());
        };
        let Round { breaks, to, .. } = round;
        if let Some(to) = to {
            self.emit(Op::Unit(to))?;
        }
        self.land_breaks(breaks, first_slot, to)
    }

    /// Sets the jumps out of a loop to its end, where its variables from a number on end.
    fn land_breaks(
        &mut self,
        breaks: Vec<usize>,
        first_slot: usize,
        to: Option<Slot>,
    ) -> Result<(), CodeError> {
        let end = self.special.len();
        self.land(breaks.as_slice())?;
        self.clear_variables(first_slot, end, to)
    }

    pub(crate) fn while_loop<P>(
        &mut self,
        arm: &Arm,
        to: Option<Slot>,
        levels: u32,
        parts: &P,
    ) -> Result<(), CodeError>
    where
        P: Fn(&mut Compiler, &Expr, Option<Slot>, u32) -> Result<(), CodeError>,
        requires { P.IsAlwaysCallable parts.now }
    {
        let start = self.emit(Op::Jump(0))?;
        let body = self.here()?;
        self.begin_round(to)?;
        self.statements(&arm.body, None, levels, parts)?;
        let test = self.here()?;
        self.land_continues(test);
        self.set_target(start, test);
        self.test(arm, true, body, levels, parts)?;
        self.end_round(arm.body.first_slot)
    }

    /// Jumps back to the body if a condition has this value. A `break` or `continue` in the
    /// condition doesn't belong to the loop.
    fn test<P>(
        &mut self,
        arm: &Arm,
        wanted: bool,
        body: Target,
        levels: u32,
        parts: &P,
    ) -> Result<(), CodeError>
    where
        P: Fn(&mut Compiler, &Expr, Option<Slot>, u32) -> Result<(), CodeError>,
        requires { P.IsAlwaysCallable parts.now }
    {
        let own = self.rounds.pop();
        self.position = arm.position;
        let mut back = Vec::new(self.alloc);
        self.condition(
            &arm.condition,
            wanted,
            arm.position,
            &mut back,
            levels,
            parts,
        )?;
        self.set_targets(back.as_slice(), body);
        if let Some(own) = own {
            self.rounds.push(own)?;
        }
        Ok(())
    }

    pub(crate) fn do_loop<P>(
        &mut self,
        arm: &Arm,
        goes_on: bool,
        to: Option<Slot>,
        levels: u32,
        parts: &P,
    ) -> Result<(), CodeError>
    where
        P: Fn(&mut Compiler, &Expr, Option<Slot>, u32) -> Result<(), CodeError>,
        requires { P.IsAlwaysCallable parts.now }
    {
        let body = self.here()?;
        self.begin_round(to)?;
        self.statements(&arm.body, None, levels, parts)?;
        let test = self.here()?;
        self.land_continues(test);
        self.test(arm, goes_on, body, levels, parts)?;
        self.end_round(arm.body.first_slot)
    }

    pub(crate) fn endless_loop<P>(
        &mut self,
        block: &Block,
        to: Option<Slot>,
        levels: u32,
        parts: &P,
    ) -> Result<(), CodeError>
    where
        P: Fn(&mut Compiler, &Expr, Option<Slot>, u32) -> Result<(), CodeError>,
        requires { P.IsAlwaysCallable parts.now }
    {
        let body = self.here()?;
        self.begin_round(to)?;
        self.statements(block, None, levels, parts)?;
        self.land_continues(body);
        self.emit(Op::Jump(body))?;
        let Some(round) = self.rounds.pop() else {
            return Ok(());
        };
        let Round { breaks, to, .. } = round;
        self.land_breaks(breaks, block.first_slot, to)
    }
}

/// Loops over items.
impl<'p> Compiler<'p> {
    pub(crate) fn for_loop<P>(
        &mut self,
        item: usize,
        index: Option<usize>,
        names: LoopNames<'_>,
        source: &Expr,
        position: Position,
        body: &Block,
        to: Option<Slot>,
        levels: u32,
        parts: &P,
    ) -> Result<(), CodeError>
    where
        P: Fn(&mut Compiler, &Expr, Option<Slot>, u32) -> Result<(), CodeError>,
        requires { P.IsAlwaysCallable parts.now }
    {
        let top = self.top;
        let stepped = self.stepped(source);
        let at = self.take_slots(if stepped.is_some() { 3 } else { 2 })?;
        match stepped {
            Some((arguments, place)) => {
                self.stepped_range(arguments, at, place, index.is_none(), levels, parts)?;
            }
            None => self.source(source, at, position, index.is_none(), levels, parts)?,
        }
        self.fresh_variables(item, index)?;
        let start = self.emit(Op::Jump(0))?;
        let inside = self.here()?;
        self.begin_round(to)?;
        let given = self.give_round(item, index, at, position)?;
        let outer = self.in_sight.len();
        self.show_round(names, item, index)?;
        self.statements(body, None, levels, parts)?;
        self.hide_variables(outer)?;
        let test = self.here()?;
        self.land_continues(test);
        self.set_target(start, test);
        let place = Place {
            position,
            flag: stepped.is_some(),
            ..self.place()
        };
        self.emit_with(Op::ForNext(given, at, inside), place)?;
        self.end_round(item)?;
        self.emit(Op::Clear(at, 1))?;
        self.top = top;
        Ok(())
    }

    /// Compiles the value that a `for` iterates over; for a literal range, its two ends.
    fn source<P>(
        &mut self,
        source: &Expr,
        at: Slot,
        position: Position,
        may_count: bool,
        levels: u32,
        parts: &P,
    ) -> Result<(), CodeError>
    where
        P: Fn(&mut Compiler, &Expr, Option<Slot>, u32) -> Result<(), CodeError>,
        requires { P.IsAlwaysCallable parts.now }
    {
        let mut is_range = false;
        if let (Expr::Run { first, rest }, true) = (source, may_count) {
            if let [term] = rest.as_slice() {
                if let Operator::Plain(
                    op @ (Token::ExclusiveRange | Token::InclusiveRange),
                ) = term.operator
                {
                    parts(self, first, Some(at), levels)?;
                    parts(self, &term.operand, Some(at.saturating_add(1)), levels)?;
                    let place = Place {
                        position: term.position,
                        token: op,
                        ..self.place()
                    };
                    self.emit_with(Op::ForRange(at), place)?;
                    is_range = true;
                }
            }
        }
        if !is_range {
            parts(self, source, Some(at), levels)?;
        }
        let place = Place {
            position,
            flag: is_range,
            moves: may_count,
            ..self.place()
        };
        self.emit_with(Op::ForBegin(at), place)?;
        Ok(())
    }

    /// Returns the arguments and the position of a call of `range` with a start and an end, or with
    /// a step, if a value is one.
    fn stepped<'e>(&self, source: &'e Expr) -> Option<(&'e Vec<Expr>, Position)> {
        let Expr::Call {
            callee,
            arguments,
            position,
        } = source
        else {
            return None;
        };
        let called = self.script.callees.get(*callee)?;
        let is_built_in = called.function.is_none()
            && matches!(self.meaning(*callee), Meaning::Native(_));
        let is_range = called.name.as_str() == "range" && (2..4).contains(&arguments.len());
        if is_built_in && is_range {
            Some((arguments, *position))
        } else {
            None
        }
    }

    /// Compiles the range that a `for` iterates over, given by the arguments of `range`.
    fn stepped_range<P>(
        &mut self,
        arguments: &Vec<Expr>,
        at: Slot,
        position: Position,
        may_count: bool,
        levels: u32,
        parts: &P,
    ) -> Result<(), CodeError>
    where
        P: Fn(&mut Compiler, &Expr, Option<Slot>, u32) -> Result<(), CodeError>,
        requires { P.IsAlwaysCallable parts.now }
    {
        let mut slot = at;
        for argument in arguments {
            parts(self, argument, Some(slot), levels)?;
            slot = slot.saturating_add(1);
        }
        let place = Place {
            position,
            flag: arguments.len() > 2,
            moves: may_count,
            ..self.place()
        };
        self.emit_with(Op::ForSteps(at), place)?;
        Ok(())
    }

    /// Resets the variables of a `for`, so that earlier closures no longer share them.
    fn fresh_variables(&mut self, item: usize, index: Option<usize>) -> Result<(), CodeError> {
        let item = self.own(item)?;
        self.emit(Op::Unit(item))?;
        if let Some(index) = index {
            let index = self.own(index)?;
            self.emit(Op::Unit(index))?;
        }
        Ok(())
    }

    /// Begins an iteration: sets its variables. The item goes to the returned slot.
    fn give_round(
        &mut self,
        item: usize,
        index: Option<usize>,
        at: Slot,
        position: Position,
    ) -> Result<Slot, CodeError> {
        let variable = self.own(item)?;
        let given = if self.is_plain(script_tree::Slot::Own(item)) {
            variable
        } else {
            let given = self.take_slot()?;
            self.assign_moved(variable, given, position)?;
            given
        };
        if let Some(index) = index {
            let slot = self.own(index)?;
            let count = self.take_slot()?;
            self.emit_at(Op::SubtractInt(count, at.saturating_add(1), 1), position)?;
            self.assign_moved(slot, count, position)?;
        }
        Ok(given)
    }

    fn assign_moved(&mut self, to: Slot, from: Slot, position: Position) -> Result<(), CodeError> {
        let place = Place {
            position,
            moves: true,
            ..self.place()
        };
        self.emit_with(Op::Assign(to, from), place)?;
        Ok(())
    }
}
