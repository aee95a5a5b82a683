//! Literals of ints, arrays and maps.

use crate::compiler::{Compiler, to_slot};
use crate::error::CodeError;
use crate::operations::{Op, Slot};
use crate::tables::number_in;
use script_tree::{Expr, Field, INT};

/// How many items of a literal are evaluated before they are moved into it.
const ITEMS_AT_ONCE: usize = 32;

impl<'p> Compiler<'p> {
    pub(crate) fn int(&mut self, value: INT, to: Slot) -> Result<(), CodeError> {
        let op = match i32::try_from(value) {
            Ok(small) => Op::Int(to, small),
            Err(_) => Op::Number(to, self.number(value)?),
        };
        self.emit(op)?;
        Ok(())
    }

    pub(crate) fn array<P>(
        &mut self,
        items: &Vec<Expr>,
        to: Slot,
        levels: u32,
        parts: &P,
    ) -> Result<(), CodeError>
    where
        P: Fn(&mut Compiler, &Expr, Option<Slot>, u32) -> Result<(), CodeError>,
        requires { P.IsAlwaysCallable parts.now }
    {
        if items.len() <= ITEMS_AT_ONCE {
            let first = self.values(items, levels, parts)?;
            self.emit(Op::Array(to, first, to_slot(items.len())?))?;
            return Ok(());
        }
        let made = self.take_slot()?;
        self.emit(Op::Array(made, made, 0))?;
        let first = self.top;
        for (number, item) in items.iter().enumerate() {
            let slot = self.take_slot()?;
            parts(self, item, Some(slot), levels)?;
            let count = usize::from(self.top).saturating_sub(usize::from(first));
            if count >= ITEMS_AT_ONCE || number.saturating_add(1) == items.len() {
                self.emit(Op::ArrayMore(made, first, to_slot(count)?))?;
                self.top = first;
            }
        }
        self.emit(Op::Move(to, made))?;
        Ok(())
    }

    /// Returns the number of a list of keys.
    pub(crate) fn keys(&mut self, fields: &[Field]) -> Result<u32, CodeError> {
        let mut keys = Vec::new(self.alloc);
        for field in fields {
            keys.push(self.text(field.key.as_str())?)?;
        }
        let number = number_in(&self.program.keys)?;
        self.program.keys.push(keys)?;
        Ok(number)
    }

    pub(crate) fn object<P>(
        &mut self,
        fields: &Vec<Field>,
        to: Slot,
        levels: u32,
        parts: &P,
    ) -> Result<(), CodeError>
    where
        P: Fn(&mut Compiler, &Expr, Option<Slot>, u32) -> Result<(), CodeError>,
        requires { P.IsAlwaysCallable parts.now }
    {
        let made = if fields.len() <= ITEMS_AT_ONCE {
            to
        } else {
            self.take_slot()?
        };
        let first = self.top;
        let mut begun = 0usize;
        for (number, field) in fields.iter().enumerate() {
            let slot = self.take_slot()?;
            parts(self, &field.value, Some(slot), levels)?;
            let next = number.saturating_add(1);
            if next == fields.len() || next.saturating_sub(begun) >= ITEMS_AT_ONCE {
                self.some_fields(fields, begun, next, made, first)?;
                self.top = first;
                begun = next;
            }
        }
        if fields.is_empty() {
            self.some_fields(fields, 0, 0, made, first)?;
        }
        if made != to {
            self.emit(Op::Move(to, made))?;
        }
        Ok(())
    }

    /// Moves a range of fields, whose values begin at a slot, into a map.
    fn some_fields(
        &mut self,
        fields: &Vec<Field>,
        begin: usize,
        end: usize,
        made: Slot,
        first: Slot,
    ) -> Result<(), CodeError> {
        let keys = self.keys(fields.as_slice().get(begin..end).unwrap_or(&[]))?;
        let op = if begin == 0 {
            Op::Object(made, first, keys)
        } else {
            Op::ObjectMore(made, first, keys)
        };
        self.emit(op)?;
        Ok(())
    }
}
