//! Copies of a scope.
ghost use Rattle.std.specs.Prelude.{◌≡◌, ◌∷◌, ◌++◌, [], map, IfOk, IsOk, OnOk};
ghost use Rattle.rhai_scope.specs.Entry.{copied_value, copied_entry};

use crate::alias::Alias;
use crate::records::Record;
use crate::scope::{Scope, make_room};
use rhai_value::Dynamic;
use std::alloc::{AllocError, Global};

/// A copy that keeps the value's own mode.
pub(crate) fn copied_value(alloc: Global, value: &Dynamic) -> Result<Dynamic, AllocError>
    ensures { IfOk result (λ d. d ≡ copied_value value.now) }
{
    let mut copied = value.copy(alloc)?;
    copied.set_access_mode(value.access_mode());
    Ok(copied)
}

pub(crate) fn copied_list(alloc: Global, list: &[Alias]) -> Result<Vec<Alias>, AllocError>
    ensures { IfOk result (λ v. v.items ≡ list.now) }
{
    let mut copied = Vec::with_capacity(alloc, list.len())?;
    for alias in list {
        if copied.push(alias.copy(alloc)?).is_err() {
            return Err(AllocError);
        }
    }
    Ok(copied)
}

/// Appends a copy of an entry.
pub(crate) fn push_copy(
    alloc: Global,
    copies: &mut Vec<Record>,
    entry: &Record,
) -> Result<(), AllocError>
    ensures { OnOk result (copies.new.items ≡ copies.old.items ++ copied_entry entry.now ∷ []) }
{
    make_room(copies)?;
    copies.push_reserved(entry.copy(alloc)?);
    Ok(())
}

fn copies_of(alloc: Global, entries: &[Record]) -> Result<Vec<Record>, AllocError>
    ensures { IfOk result (λ v. v.items ≡ map copied_entry entries.now) }
{
    let mut copies = Vec::with_capacity(alloc, entries.len())?;
    for entry in entries {
        push_copy(alloc, &mut copies, entry)?;
    }
    Ok(copies)
}

fn copies_with_modes(alloc: Global, entries: &[Record]) -> Result<Vec<Record>, AllocError>
    ensures { IfOk result (λ v. v.items ≡ entries.now) }
{
    let mut copies = Vec::with_capacity(alloc, entries.len())?;
    for entry in entries {
        copies.push_reserved(entry.copy_with_modes(alloc)?);
    }
    Ok(copies)
}

impl Scope {
    /// Copies the entries with their aliases. Each copied value is painted with its own mode; the
    /// copy of a holder refers to the same cell. Names and aliases share their bytes.
    /// Errors: an allocation fails.
    /// Cost: the number of entries, and that of `Dynamic::copy` for each value.
    /// rhai: `Clone` of `Scope`.
    pub fn copy(&self) -> Result<Scope, AllocError>
        ensures { IfOk result (λ s. s ≡ map copied_entry self.now) }
    {
        Scope::from_records(self.alloc, copies_of(self.alloc, &self.records)?)
    }
    /// Copies the entries with their aliases, and their values with all modes inside them; the copy
    /// of a holder refers to the same cell. Names and aliases share their bytes.
    /// Errors: an allocation fails.
    /// Cost: the number of entries, and that of `Dynamic::copy_with_modes` for each value; no
    /// memory without entries.
    pub fn copy_with_modes(&self) -> Result<Scope, AllocError>
        ensures value { IfOk result (λ s. s ≡ self.now) }
        ensures free { self.now ≡ [] → IsOk result }
    {
        if self.records.is_empty() {
            return Ok(Scope::new(self.alloc));
        }
        Scope::from_records(self.alloc, copies_with_modes(self.alloc, &self.records)?)
    }
}
