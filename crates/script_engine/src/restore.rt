//! Reads the variables of a snapshot.

use crate::engine::Engine;
use crate::flat::{Bytes, Cells, Unread, read_next};
use crate::snapshot::{END, MORE};
use rhai_value::Roots;
use script_run::Scope;
use std::alloc::Global;

/// Reads variables; a byte before each says that one follows.
fn read_variables(
    alloc: Global,
    bytes: &mut Bytes,
    cells: &mut Cells,
    names: &mut Vec<String>,
    values: &mut Roots,
) -> Result<(), Unread> {
    for _ in 0..bytes.rest.len() {
        match bytes.byte()? {
            MORE => {}
            END => return Ok(()),
            _ => return Err(Unread::Form),
        }
        let name = String::from_str(alloc, bytes.text()?)?;
        let value = read_next(alloc, bytes, cells)?;
        names.push(name)?;
        if values.push(value).is_err() {
            return Err(Unread::Memory);
        }
    }
    Err(Unread::Form)
}

/// Reads the contents of the cells, by their numbers.
fn read_contents(alloc: Global, bytes: &mut Bytes, cells: &mut Cells) -> Result<(), Unread> {
    for number in 0..usize::MAX {
        if number == cells.holders.len() {
            return Ok(());
        }
        let content = read_next(alloc, bytes, cells)?;
        cells.fill(number, content)?;
    }
    Err(Unread::Form)
}

/// Reads the variables of a snapshot, with what they share.
fn read_scope(alloc: Global, bytes: &[u8]) -> Result<Scope, Unread> {
    let mut bytes = Bytes { rest: bytes };
    if bytes.byte()? != END {
        return Err(Unread::Form);
    }
    let mut cells = Cells::new(alloc, true);
    let (mut names, mut values) = (Vec::new(alloc), Roots::new(alloc));
    read_variables(alloc, &mut bytes, &mut cells, &mut names, &mut values)?;
    read_contents(alloc, &mut bytes, &mut cells)?;
    if !bytes.rest.is_empty() {
        return Err(Unread::Form);
    }
    match Scope::of(alloc, names, values, cells.store) {
        Some(scope) => Ok(scope),
        None => Err(Unread::Form),
    }
}

/// Reading snapshots.
impl Engine {
    /// Replaces the variables by those of a snapshot without active functions, with the cells that
    /// they share. Ends the run, if there is one, and drops the functions that the host kept.
    /// Errors: the bytes are no such snapshot, or an allocation fails; the variables are unchanged.
    /// Cost: the number of bytes; memory for the values.
    pub fn restore(&mut self, bytes: &[u8]) -> Result<(), Unread> {
        let scope = read_scope(self.alloc, bytes)?;
        self.end();
        self.scope = scope;
        Ok(())
    }
}
