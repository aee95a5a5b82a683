//! Calls of functions by name.

use crate::compiler::{Compiler, to_slot};
use crate::error::CodeError;
use crate::meaning::Meaning;
use crate::operations::{Op, Slot};
use crate::program::Place;
use crate::quiet::known_variable;
use crate::tables::to_number;
use rhai_text::Position;
use script_tree::Expr;

/// The variable that is the only argument, if it is one.
fn only_variable(arguments: &[Expr]) -> Option<script_tree::Slot> {
    if let [argument] = arguments {
        known_variable(argument)
    } else {
        None
    }
}

impl<'p> Compiler<'p> {
    /// Calls a function, with the result in a slot.
    pub(crate) fn call<P>(
        &mut self,
        callee: usize,
        arguments: &Vec<Expr>,
        position: Position,
        to: Slot,
        levels: u32,
        parts: &P,
    ) -> Result<(), CodeError>
    where
        P: Fn(&mut Compiler, &Expr, Option<Slot>, u32) -> Result<(), CodeError>,
        requires { P.IsAlwaysCallable parts.now }
    {
        let function = match self.script.callees.get(callee) {
            Some(callee) => callee.function,
            None => None,
        };
        if let Some(function) = function {
            return self.call_script(function, arguments, position, to, levels, parts);
        }
        self.call_outside(callee, arguments, position, to, levels, parts)
    }

    /// Calls a function that isn't in the script.
    pub(crate) fn call_outside<P>(
        &mut self,
        callee: usize,
        arguments: &Vec<Expr>,
        position: Position,
        to: Slot,
        levels: u32,
        parts: &P,
    ) -> Result<(), CodeError>
    where
        P: Fn(&mut Compiler, &Expr, Option<Slot>, u32) -> Result<(), CodeError>,
        requires { P.IsAlwaysCallable parts.now }
    {
        let meaning = self.meaning(callee);
        match meaning {
            Meaning::IsShared => self.ask_shared(arguments, position, to, levels, parts),
            Meaning::Print => self.print(arguments, false, position, to, levels, parts),
            Meaning::Debug => self.print(arguments, true, position, to, levels, parts),
            Meaning::Native(_) => self.call_native(callee, arguments, position, to, levels, parts),
            Meaning::Each(kind) => {
                let first = self.values(arguments, levels, parts)?;
                self.each(first, kind, arguments.len().saturating_sub(1), position)?;
                self.moved(to, first)
            }
            Meaning::Sort => self.sort_first(arguments, position, to, levels, parts),
            Meaning::Call => self.call_function(arguments, position, to, levels, parts),
            Meaning::Exit => self.exit(arguments, position, to, levels, parts),
            Meaning::Sift(_) | Meaning::Search => {
                let first = self.values(arguments, levels, parts)?;
                self.sift_or_search(meaning, callee, arguments, first, position, to)
            }
            Meaning::Host(_) | Meaning::Curry | Meaning::IsVariable | Meaning::IsFunction => {
                let first = self.values(arguments, levels, parts)?;
                if arguments.is_empty() {
                    self.take_slot()?;
                }
                if let Some(number) = self.changes_first(meaning) {
                    self.call_changing(number, arguments.as_slice(), first, position)?;
                    return self.moved(to, first);
                }
                self.call_values(meaning, callee, first, arguments.len(), position)?;
                self.moved(to, first)
            }
        }
    }

    fn call_script<P>(
        &mut self,
        function: usize,
        arguments: &Vec<Expr>,
        position: Position,
        to: Slot,
        levels: u32,
        parts: &P,
    ) -> Result<(), CodeError>
    where
        P: Fn(&mut Compiler, &Expr, Option<Slot>, u32) -> Result<(), CodeError>,
        requires { P.IsAlwaysCallable parts.now }
    {
        let is_last = self.is_free(to) && to.saturating_add(1) == self.top;
        if is_last {
            self.top = to;
        }
        let first = self.values(arguments, levels, parts)?;
        if arguments.is_empty() {
            self.take_slot()?;
        }
        let function = to_number(function)?;
        self.emit_at(Op::Call(first, function), position)?;
        self.moved(to, first)
    }

    /// Calls the function pointer in the first argument with the others.
    fn call_function<P>(
        &mut self,
        arguments: &Vec<Expr>,
        position: Position,
        to: Slot,
        levels: u32,
        parts: &P,
    ) -> Result<(), CodeError>
    where
        P: Fn(&mut Compiler, &Expr, Option<Slot>, u32) -> Result<(), CodeError>,
        requires { P.IsAlwaysCallable parts.now }
    {
        let Some((pointer, others)) = arguments.split_first() else {
            return Ok(());
        };
        let stays = match known_variable(pointer) {
            Some(slot) => self.watched(slot).stays_in_all(others),
            None => true,
        };
        let called = self.operand(pointer, stays, levels, parts)?;
        let first = self.values(others, levels, parts)?;
        if others.is_empty() {
            self.take_slot()?;
        }
        let count = to_slot(others.len())?;
        self.emit_at(Op::CallPointer(first, called, count), position)?;
        self.moved(to, first)
    }

    /// Tests whether a variable is shared; a value outside a variable isn't.
    fn ask_shared<P>(
        &mut self,
        arguments: &Vec<Expr>,
        position: Position,
        to: Slot,
        levels: u32,
        parts: &P,
    ) -> Result<(), CodeError>
    where
        P: Fn(&mut Compiler, &Expr, Option<Slot>, u32) -> Result<(), CodeError>,
        requires { P.IsAlwaysCallable parts.now }
    {
        if let Some(slot) = only_variable(arguments) {
            for argument in arguments {
                self.check_expr(argument)?;
            }
            let slot = self.slot_of(slot)?;
            let path = self.path(Vec::new(self.alloc))?;
            self.emit_at(Op::IsShared(to, slot, path), position)?;
            return Ok(());
        }
        self.values(arguments, levels, parts)?;
        self.emit_at(Op::Bool(to, false), position)?;
        Ok(())
    }

    /// Ends the whole script with the only argument, or with unit.
    fn exit<P>(
        &mut self,
        arguments: &Vec<Expr>,
        position: Position,
        to: Slot,
        levels: u32,
        parts: &P,
    ) -> Result<(), CodeError>
    where
        P: Fn(&mut Compiler, &Expr, Option<Slot>, u32) -> Result<(), CodeError>,
        requires { P.IsAlwaysCallable parts.now }
    {
        let first = self.values(arguments, levels, parts)?;
        if arguments.is_empty() {
            self.take_slot()?;
            self.emit(Op::Unit(first))?;
        }
        self.emit_at(Op::Exit(first), position)?;
        self.moved(to, first)
    }

    fn print<P>(
        &mut self,
        arguments: &Vec<Expr>,
        is_debug: bool,
        position: Position,
        to: Slot,
        levels: u32,
        parts: &P,
    ) -> Result<(), CodeError>
    where
        P: Fn(&mut Compiler, &Expr, Option<Slot>, u32) -> Result<(), CodeError>,
        requires { P.IsAlwaysCallable parts.now }
    {
        for argument in arguments {
            let slot = self.operand(argument, true, levels, parts)?;
            self.emit_at(Op::Print(slot, is_debug), position)?;
        }
        self.emit(Op::Unit(to))?;
        Ok(())
    }

    /// Calls a function of the packages; a variable as the first argument is used in place.
    fn call_native<P>(
        &mut self,
        callee: usize,
        arguments: &Vec<Expr>,
        position: Position,
        to: Slot,
        levels: u32,
        parts: &P,
    ) -> Result<(), CodeError>
    where
        P: Fn(&mut Compiler, &Expr, Option<Slot>, u32) -> Result<(), CodeError>,
        requires { P.IsAlwaysCallable parts.now }
    {
        let number = to_number(callee)?;
        if let Some((first, others)) = arguments.split_first() {
            if let Some(slot) = known_variable(first) {
                self.check_expr(first)?;
                return self.native_on(number, slot, others, position, to, levels, parts);
            }
        }
        let first = self.values(arguments, levels, parts)?;
        if arguments.is_empty() {
            self.take_slot()?;
            self.emit(Op::Unit(first))?;
        }
        self.emit_at(Op::Native(first, number), position)?;
        self.moved(to, first)
    }

    /// Calls a function of the packages on a variable, with other arguments.
    fn native_on<P>(
        &mut self,
        number: u32,
        slot: script_tree::Slot,
        others: &[Expr],
        position: Position,
        to: Slot,
        levels: u32,
        parts: &P,
    ) -> Result<(), CodeError>
    where
        P: Fn(&mut Compiler, &Expr, Option<Slot>, u32) -> Result<(), CodeError>,
        requires { P.IsAlwaysCallable parts.now }
    {
        let stays = self.watched(slot).stays_in_all(others);
        let variable = self.slot_of(slot)?;
        let base = self.take_slot()?;
        if !stays {
            self.emit(Op::Copy(base, variable))?;
        }
        self.values(others, levels, parts)?;
        let place = Place {
            position,
            flag: !stays,
            ..self.place()
        };
        self.emit_with(Op::NativeOn(base, variable, number), place)?;
        self.moved(to, base)
    }

    /// Calls something outside the script with this many values, which begin at the slot of the
    /// result.
    pub(crate) fn call_values(
        &mut self,
        meaning: Meaning,
        callee: usize,
        first: Slot,
        count: usize,
        position: Position,
    ) -> Result<(), CodeError> {
        let op = match meaning {
            Meaning::Host(number) => Op::CallHost(first, number),
            Meaning::Print => Op::Print(first, false),
            Meaning::Debug => Op::Print(first, true),
            Meaning::IsShared => Op::Bool(first, false),
            Meaning::IsVariable => Op::IsVariable(first),
            Meaning::IsFunction => Op::IsFunction(first),
            Meaning::Curry => Op::Curry(first, to_slot(count.saturating_sub(1))?),
            Meaning::Exit => Op::Exit(first),
            Meaning::Native(_)
            | Meaning::Call
            | Meaning::Each(_)
            | Meaning::Sift(_)
            | Meaning::Search
            | Meaning::Sort => Op::Native(first, to_number(callee)?),
        };
        let place = Place {
            position,
            flag: matches!(op, Op::Native(_, _)),
            ..self.place()
        };
        self.emit_with(op, place)?;
        if let Meaning::Print | Meaning::Debug = meaning {
            self.emit(Op::Unit(first))?;
        }
        Ok(())
    }
}
