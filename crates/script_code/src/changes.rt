//! Functions of arrays and maps that may change them with a callback, and searches, which may have
//! one.

use crate::callbacks::COUNTED;
use crate::chains::{Called, Root};
use crate::compiler::Compiler;
use crate::error::CodeError;
use crate::meaning::{EachKind, Meaning};
use crate::operations::{Op, Slot};
use crate::program::Place;
use crate::quiet::known_variable;
use crate::tables::to_number;
use rhai_text::Position;
use script_tree::Expr;

/// The distance from an array's slot to that of the result.
const MADE: Slot = 2;

impl<'p> Compiler<'p> {
    /// Removes items from the value at steps from a variable, and writes back what is left.
    pub(crate) fn sift_at(
        &mut self,
        root: Slot,
        variable: Position,
        kind: EachKind,
        method: &Called,
        first: Slot,
    ) -> Result<Slot, CodeError> {
        self.emit_at(Op::Writable(root), variable)?;
        let path = self.copied_path(method)?;
        self.read(Root::Variable(root, variable), path, first)?;
        self.each(first, kind, method.arguments, method.position)?;
        self.put_back(root, variable, first, method)?;
        self.moved(first, first.saturating_add(MADE))?;
        Ok(first)
    }

    /// Writes the value of a slot to the place at a method's steps from a variable, which the
    /// function didn't change itself.
    pub(crate) fn put_back(
        &mut self,
        root: Slot,
        variable: Position,
        first: Slot,
        method: &Called,
    ) -> Result<(), CodeError> {
        let path = self.copied_path(method)?;
        let path = self.path(path)?;
        let counted = first.saturating_add(COUNTED);
        self.emit_at(Op::WantCount(counted, root, path), method.position)?;
        let place = Place {
            position: variable,
            moves: true,
            path,
            ..self.place()
        };
        self.emit_with(Op::Write(root, first, path), place)?;
        Ok(())
    }

    /// Calls one of these functions by its name, with arguments that begin at a slot.
    pub(crate) fn sift_or_search(
        &mut self,
        meaning: Meaning,
        callee: usize,
        arguments: &Vec<Expr>,
        first: Slot,
        position: Position,
        to: Slot,
    ) -> Result<(), CodeError> {
        if let Meaning::Sift(kind) = meaning {
            return self.sift_first(arguments, first, kind, position, to);
        }
        let behind = arguments.len().saturating_sub(1);
        self.search_made(callee, first, behind, position)?;
        self.moved(to, first)
    }

    /// Removes items with a callback, in a call by name: if the first argument is a variable, the
    /// array is written to it.
    fn sift_first(
        &mut self,
        arguments: &Vec<Expr>,
        first: Slot,
        kind: EachKind,
        position: Position,
        to: Slot,
    ) -> Result<(), CodeError> {
        self.each(first, kind, arguments.len().saturating_sub(1), position)?;
        let root = match arguments.first() {
            Some(argument) => known_variable(argument),
            None => None,
        };
        if let Some(slot) = root {
            let variable = self.slot_of(slot)?;
            self.emit_at(Op::SortPut(first, variable), position)?;
        }
        self.moved(to, first.saturating_add(MADE))
    }

    /// Searches the value at steps from a variable, with a callback if there is one.
    pub(crate) fn search_at(
        &mut self,
        root: Slot,
        variable: Position,
        method: &Called,
        receiver: Slot,
    ) -> Result<Slot, CodeError> {
        let pointer = receiver.saturating_add(1);
        let by_function = self.emit_at(Op::JumpPointer(pointer, 0), method.position)?;
        self.native_on_place(root, variable, method, receiver)?;
        let end = self.emit_at(Op::Jump(0), method.position)?;
        self.land(&[by_function])?;
        let path = self.copied_path(method)?;
        self.read(Root::Variable(root, variable), path, receiver)?;
        self.search_by(receiver, method.arguments, method.position)?;
        self.land(&[end])?;
        Ok(receiver)
    }

    /// Searches the value in a slot, which also receives the result.
    pub(crate) fn search_made(
        &mut self,
        callee: usize,
        first: Slot,
        arguments: usize,
        position: Position,
    ) -> Result<(), CodeError> {
        let pointer = first.saturating_add(1);
        let by_function = self.emit_at(Op::JumpPointer(pointer, 0), position)?;
        self.emit_at(Op::Native(first, to_number(callee)?), position)?;
        let end = self.emit_at(Op::Jump(0), position)?;
        self.land(&[by_function])?;
        self.search_by(first, arguments, position)?;
        self.land(&[end])
    }

    /// Searches the array in a slot with the callback in the next.
    fn search_by(
        &mut self,
        first: Slot,
        arguments: usize,
        position: Position,
    ) -> Result<(), CodeError> {
        let array = self.at_top(first, arguments)?;
        self.each(array, EachKind::IndexOf, arguments, position)?;
        self.moved(first, array)
    }
}
