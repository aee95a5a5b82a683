//! Calls of methods: those of the packages, and those of the script, which receive `this`.

use crate::chains::{Called, Root};
use crate::compiler::{Compiler, to_slot};
use crate::error::CodeError;
use crate::meaning::{EachKind, Meaning};
use crate::operations::{Op, Slot};
use crate::program::{Method, PathStep, Place};
use crate::tables::{number_in, to_number};
use rhai_text::Position;

/// Whether a function may change items in place, as `this`.
fn changes_items(kind: EachKind) -> bool {
    match kind {
        EachKind::Reduce
        | EachKind::ReduceBack
        | EachKind::All
        | EachKind::Some
        | EachKind::Find
        | EachKind::FindMap
        | EachKind::ForEach => true,
        EachKind::Map
        | EachKind::Filter
        | EachKind::IndexOf
        | EachKind::Zip
        | EachKind::Dedup
        | EachKind::Drain
        | EachKind::Retain => false,
    }
}

impl<'p> Compiler<'p> {
    /// Calls a method, and returns the slot of its result.
    pub(crate) fn method(&mut self, at: Root, method: &Called) -> Result<Slot, CodeError> {
        let meaning = self.meaning(method.callee);
        match (at, meaning) {
            (Root::Variable(root, _), Meaning::Call) if method.is_direct => {
                self.call_direct(root, method)
            }
            (Root::Variable(root, _), Meaning::IsShared) => self.is_shared(root, method),
            (_, Meaning::Native(_)) => self.call_native_at(at, method),
            (
                _,
                Meaning::Host(_)
                | Meaning::Call
                | Meaning::Each(_)
                | Meaning::Sort
                | Meaning::Sift(_)
                | Meaning::Search,
            ) => self.call_or_invoke(at, meaning, method),
            (
                _,
                Meaning::IsShared
                | Meaning::Print
                | Meaning::Debug
                | Meaning::IsVariable
                | Meaning::IsFunction
                | Meaning::Curry
                | Meaning::Exit,
            ) => {
                let path = self.copied_path(method)?;
                self.read(at, path, method.receiver)?;
                self.call_made(meaning, method, method.receiver)
            }
        }
    }

    fn is_shared(&mut self, root: Slot, method: &Called) -> Result<Slot, CodeError> {
        let path = self.copied_path(method)?;
        let number = self.path(path)?;
        self.emit_at(Op::IsShared(method.receiver, root, number), method.position)?;
        Ok(method.receiver)
    }

    /// Returns the table entry of a method that is called at a path.
    fn entry(
        &mut self,
        method: &Called,
        path: Vec<PathStep>,
        variable: Position,
    ) -> Result<u32, CodeError> {
        let path = self.path(path)?;
        let is_script = self.has_method(method.callee);
        let number = number_in(&self.program.methods)?;
        self.program.methods.push(Method {
            callee: to_number(method.callee)?,
            path,
            arguments: to_slot(method.arguments)?,
            is_script,
            is_call: false,
            behind: 0,
            variable,
        })?;
        Ok(number)
    }

    /// Returns the place of the receiver for a method of the script: a value in no variable is
    /// moved before its arguments, and used there.
    fn receiver(
        &mut self,
        at: Root,
        method: &Called,
        first: Slot,
    ) -> Result<(Slot, u32), CodeError> {
        let path = self.copied_path(method)?;
        match at {
            Root::Variable(root, variable) => Ok((root, self.entry(method, path, variable)?)),
            Root::Made(_) => {
                self.read(at, path, first)?;
                let number = self.entry(method, Vec::new(self.alloc), method.position)?;
                Ok((first, number))
            }
        }
    }

    /// Calls a function of the packages, or one of the script.
    fn call_native_at(&mut self, at: Root, method: &Called) -> Result<Slot, CodeError> {
        let first = self.arguments_at_top(method.receiver, method.arguments)?;
        let (root, number) = self.receiver(at, method, first)?;
        self.emit_at(Op::Method(first, root, number), method.position)?;
        self.emit_at(Op::PutThis(first, root, number), method.position)?;
        self.end_call(number)?;
        Ok(first)
    }

    /// Calls a function of the packages on the value at steps from a variable, if the script has no
    /// method with the name.
    pub(crate) fn native_on_place(
        &mut self,
        root: Slot,
        variable: Position,
        method: &Called,
        first: Slot,
    ) -> Result<(), CodeError> {
        let path = self.copied_path(method)?;
        let number = self.entry(method, path, variable)?;
        self.emit_at(Op::Method(first, root, number), method.position)?;
        self.emit_at(Op::PutThis(first, root, number), method.position)?;
        self.end_call(number)
    }

    /// Calls a function with operations of its own, unless the script has a method with the name.
    fn call_or_invoke(
        &mut self,
        at: Root,
        meaning: Meaning,
        method: &Called,
    ) -> Result<Slot, CodeError> {
        let first = self.arguments_at_top(method.receiver, method.arguments)?;
        let (root, number) = self.receiver(at, method, first)?;
        if let Meaning::Call = meaning {
            self.take_slot()?;
            if let Some(entry) = self.program.methods.get_mut(number as usize) {
                entry.is_call = true;
            }
        }
        self.emit_at(Op::Invoke(first, root, number), method.position)?;
        self.emit_at(Op::PutThis(first, root, number), method.position)?;
        let answer = match at {
            Root::Variable(root, variable) => {
                self.call_on_place(root, variable, meaning, method, first, number)?
            }
            Root::Made(_) => self.call_made(meaning, method, first)?,
        };
        self.moved(first, answer)?;
        self.end_call(number)?;
        Ok(first)
    }

    /// Compiles the call of a function with operations of its own on the value at steps from a
    /// variable; returns the slot of its result.
    fn call_on_place(
        &mut self,
        root: Slot,
        variable: Position,
        meaning: Meaning,
        method: &Called,
        first: Slot,
        number: u32,
    ) -> Result<Slot, CodeError> {
        if let Some(host) = self.changes_first(meaning) {
            return self.host_at(host, root, variable, method, first);
        }
        match meaning {
            Meaning::Sort => self.sort_at(root, variable, method, first),
            Meaning::Sift(kind) => self.sift_at(root, variable, kind, method, first),
            Meaning::Search => self.search_at(root, variable, method, first),
            Meaning::Each(kind) => {
                let path = self.copied_path(method)?;
                self.read(Root::Variable(root, variable), path, first)?;
                let answer = self.call_made(meaning, method, first)?;
                if changes_items(kind) {
                    self.emit_at(Op::EachPut(first, root, number), method.position)?;
                }
                Ok(answer)
            }
            Meaning::Host(_)
            | Meaning::Call
            | Meaning::Print
            | Meaning::Debug
            | Meaning::IsShared
            | Meaning::IsVariable
            | Meaning::IsFunction
            | Meaning::Curry
            | Meaning::Exit
            | Meaning::Native(_) => {
                let path = self.copied_path(method)?;
                self.read(Root::Variable(root, variable), path, first)?;
                self.call_made(meaning, method, first)
            }
        }
    }

    /// Calls the variable that is the root in place; if it isn't a function, calls the function in
    /// the first argument on it.
    fn call_direct(&mut self, root: Slot, method: &Called) -> Result<Slot, CodeError> {
        let count = to_slot(method.arguments)?;
        let last = method.arguments.saturating_sub(1);
        let first = self.at_top(method.receiver, last)?;
        if method.arguments == 0 {
            self.emit_at(Op::CallPointer(first, root, count), method.position)?;
            return Ok(first);
        }
        if method.arguments == 1 {
            self.take_slot()?;
        }
        let number = self.entry(method, Vec::new(self.alloc), method.position)?;
        let place = Place {
            position: method.position,
            flag: true,
            ..self.place()
        };
        self.emit_with(Op::CallPointer(first, root, count), place)?;
        self.emit_at(Op::PutThis(first, root, number), method.position)?;
        self.end_call(number)?;
        Ok(first)
    }

    /// Calls a method on a value in a slot, with the arguments after it.
    fn call_made(
        &mut self,
        meaning: Meaning,
        method: &Called,
        first: Slot,
    ) -> Result<Slot, CodeError> {
        match meaning {
            Meaning::Call => {
                let called = first.saturating_add(1);
                let count = to_slot(method.arguments)?;
                self.emit_at(Op::CallPointer(called, first, count), method.position)?;
                Ok(called)
            }
            Meaning::Each(kind) => {
                self.each(first, kind, method.arguments, method.position)?;
                Ok(first)
            }
            Meaning::Sort => {
                self.sort(first, method.position)?;
                Ok(first)
            }
            Meaning::Sift(kind) => {
                self.each(first, kind, method.arguments, method.position)?;
                Ok(first.saturating_add(2))
            }
            Meaning::Search => {
                self.search_made(method.callee, first, method.arguments, method.position)?;
                Ok(first)
            }
            Meaning::Host(_)
            | Meaning::Print
            | Meaning::Debug
            | Meaning::IsShared
            | Meaning::IsVariable
            | Meaning::IsFunction
            | Meaning::Curry
            | Meaning::Exit
            | Meaning::Native(_) => {
                let count = method.arguments.saturating_add(1);
                self.call_values(meaning, method.callee, first, count, method.position)?;
                Ok(first)
            }
        }
    }

    /// Sorts the value at steps from a variable, and writes it back.
    fn sort_at(
        &mut self,
        root: Slot,
        variable: Position,
        method: &Called,
        first: Slot,
    ) -> Result<Slot, CodeError> {
        self.emit_at(Op::Writable(root), variable)?;
        let path = self.copied_path(method)?;
        self.read(Root::Variable(root, variable), path, first)?;
        self.sort(first, method.position)?;
        self.put_back(root, variable, first, method)?;
        self.emit(Op::Unit(first))?;
        Ok(first)
    }
}
