//! `Scope`.

ghost use Rattle.std.specs.Prelude.{◌≡◌, ◌<◌, ◌≤◌, ◌+◌, ◌↔◌, ℕ, List, [], ◌∷◌, ◌++◌, length, take, remove, vec_len, vec_capacity, IsTrue, IfOk, IfErr, OnOk, OnErr};
ghost use Rattle.std.specs.Str.{chars};
ghost use Rattle.rhai_value.specs.Tree.{mode_of, paint};
ghost use Rattle.rhai_value.specs.declared.value.access_mode.AccessMode.TheVariants.{ReadOnly};
ghost use Rattle.rhai_scope.specs.Entry.{pushed, popped};
ghost use Rattle.rhai_scope.specs.Index.{IsIndexOf, names_of};

use crate::index::Index;
use crate::records::Record;
use rhai_text::ImmutableString;
use rhai_value::{AccessMode, Dynamic};
use std::alloc::{AllocError, Global};
use std::marker::Model;

/// The least capacity of a scope that has had an entry.
pub const MIN_SCOPE_ENTRIES: usize = 8;

/// The named values of a script. Contracts see the list of entries, the newest last.
///
/// It stores the allocator that it was made with.
/// rhai: `Scope`.
#[derive(Drop)]
pub struct Scope {
    pub(crate) alloc: Global,
    pub(crate) records: Vec<Record>,
    pub(crate) index: Index,
}

impl Model for Scope {
    ghost use Rattle.std.specs.Prelude.{List};
    ghost use Rattle.std.specs.Coded.{coded_list};
    ghost use Rattle.rhai_scope.specs.Code.{entry_code};
    ghost use Rattle.rhai_scope.specs.Entry.{Entry};
    ghost use Rattle.rhai_scope.specs.Index.{IsIndexOf, names_of};

    ghost Value = { List Entry };

    ghost coded = { coded_list entry_code };

    ghost view = { λ s. s.records.items };

    ghost invariant = { λ s. IsIndexOf s.index (names_of s.records.items) };
}

/// Makes room for one more entry; the first allocation has room for the least capacity.
pub(crate) fn make_room(records: &mut Vec<Record>) -> Result<(), AllocError>
    ensures items { records.new.items ≡ records.old.items }
    ensures room { OnOk result (vec_len records.new + 1 ≤ vec_capacity records.new) }
    ensures first { OnOk result (records.old.items ≡ [] → vec_len records.new + MIN_SCOPE_ENTRIES ≤ vec_capacity records.new) }
{
    let more = if records.is_empty() {
        MIN_SCOPE_ENTRIES
    } else {
        1
    };
    records.reserve(more)
}

/// Makes all allocations that one more entry needs.
fn admit(alloc: Global, records: &mut Vec<Record>, index: &mut Index) -> Result<(), AllocError>
    requires { IsIndexOf index.old (names_of records.old.items) }
    ensures items { records.new.items ≡ records.old.items }
    ensures room { OnOk result (vec_len records.new + 1 ≤ vec_capacity records.new) }
    ensures index { IsIndexOf index.new (names_of records.old.items) }
    ensures ok { OnOk result ((name : List ℕ) → IsIndexOf index.new (names_of records.old.items ++ name ∷ [])) }
{
    make_room(records)?;
    index.admit_one(alloc, records.as_slice())
}

/// Appends an entry, given enough capacity. Its value is painted in place, so that it isn't moved
/// again after the write.
#[inline(always)]
pub(crate) fn push_in_room(
    alloc: Global,
    records: &mut Vec<Record>,
    name: ImmutableString,
    access: AccessMode,
    value: Dynamic,
)
    requires { vec_len records.old + 1 ≤ vec_capacity records.old }
    ensures items { records.new.items ≡ pushed access name value records.old.items }
    ensures len { vec_len records.new ≡ vec_len records.old + 1 }
    ensures capacity { vec_capacity records.old ≤ vec_capacity records.new }
{
    let place = records.len();
    records.push_reserved(Record::new(alloc, name, value));
    records[place].value_mut().set_access_mode(access);
}

impl Scope {
    /// Makes an empty scope.
    /// Cost: constant; no memory.
    /// rhai: `Scope::new`.
    pub fn new(alloc: Global) -> Scope
        ensures { result ≡ [] }
    {
        Scope {
            alloc,
            records: Vec::new(alloc),
            index: Index::new(alloc),
        }
    }

    /// Makes an empty scope with room for this many entries.
    /// Errors: the allocation fails.
    /// Cost: that of the allocation.
    /// rhai: `Scope::with_capacity`.
    pub fn with_capacity(alloc: Global, capacity: usize) -> Result<Scope, AllocError>
        ensures { IfOk result (λ s. s ≡ []) }
    {
        let mut scope = Scope::new(alloc);
        scope.reserve(capacity)?;
        Ok(scope)
    }

    /// Makes a scope of these entries.
    pub(crate) fn from_records(alloc: Global, records: Vec<Record>) -> Result<Scope, AllocError>
        ensures { IfOk result (λ s. s ≡ records.items) }
    {
        let index = Index::of(alloc, records.as_slice())?;
        Ok(Scope {
            alloc,
            records,
            index,
        })
    }

    /// Makes room for more entries.
    pub(crate) fn reserve(&mut self, more: usize) -> Result<(), AllocError>
        ensures { self.new ≡ self.old }
    {
        self.records.reserve(more)
    }

    /// Drops all entries with their aliases, and keeps the capacity.
    /// Cost: their drop.
    /// rhai: `Scope::clear`.
    pub fn clear(&mut self)
        ensures { self.new ≡ [] }
    {
        self.records.clear();
        self.index.clear();
    }

    /// Returns the number of entries.
    /// rhai: `Scope::len`.
    pub fn len(&self) -> usize
        ensures { result ≡ length self.now }
    {
        self.records.len()
    }

    /// Returns whether the scope is empty.
    /// rhai: `Scope::is_empty`.
    pub fn is_empty(&self) -> bool
        ensures { IsTrue result ↔ (self.now ≡ []) }
    {
        self.len() == 0
    }

    /// Appends an entry with its value painted with a mode.
    /// Errors: name and value, if an allocation fails; the scope is unchanged.
    /// Cost: constant, and that of `Dynamic::set_access_mode`; if the entry is indexed, that of a
    /// look-up in the index; occasionally the list of entries grows.
    /// rhai: `Scope::push_entry`, which is private.
    #[inline(always)]
    pub fn push_entry(
        &mut self,
        name: ImmutableString,
        access: AccessMode,
        value: Dynamic,
    ) -> Result<(), (ImmutableString, Dynamic)>
        ensures ok { OnOk result (self.new ≡ pushed access name value self.old) }
        ensures err { IfErr result (λ back. (back ≡ (name, value)) × (self.new ≡ self.old)) }
    {
        let alloc = self.alloc;
        match admit(alloc, &mut self.records, &mut self.index) {
            Ok(()) => {
                push_in_room(alloc, &mut self.records, name, access, value);
                Ok(())
            }
            Err(_) => Err((name, value)),
        }
    }

    /// Appends an entry. Its value is a constant if it was one.
    /// Errors: an allocation fails; the scope is unchanged, and the value is dropped.
    /// Cost: that of `push_entry`, and the length of the name.
    /// rhai: `Scope::push_dynamic`.
    #[inline(always)]
    pub fn push_dynamic(&mut self, name: &str, value: Dynamic) -> Result<(), AllocError>
        ensures ok { OnOk result (self.new ≡ pushed (mode_of value) (chars name.now) value self.old) }
        ensures err { OnErr result (self.new ≡ self.old) }
    {
        let access = value.access_mode();
        self.push_named(name, access, value)
    }

    /// Appends a constant.
    /// Errors: an allocation fails; the scope is unchanged, and the value is dropped.
    /// Cost: that of `push_entry`, and the length of the name.
    /// rhai: `Scope::push_constant_dynamic`.
    pub fn push_constant_dynamic(&mut self, name: &str, value: Dynamic) -> Result<(), AllocError>
        ensures ok { OnOk result (self.new ≡ pushed ReadOnly (chars name.now) value self.old) }
        ensures err { OnErr result (self.new ≡ self.old) }
    {
        self.push_named(name, AccessMode::ReadOnly, value)
    }

    #[inline(always)]
    pub(crate) fn push_named(
        &mut self,
        name: &str,
        access: AccessMode,
        value: Dynamic,
    ) -> Result<(), AllocError>
        ensures ok { OnOk result (self.new ≡ pushed access (chars name.now) value self.old) }
        ensures err { OnErr result (self.new ≡ self.old) }
    {
        // Room is made before the name, so that the value is written directly to its place.
        let alloc = self.alloc;
        admit(alloc, &mut self.records, &mut self.index)?;
        let name = ImmutableString::from_str(alloc, name)?;
        push_in_room(alloc, &mut self.records, name, access, value);
        Ok(())
    }

    /// Drops the last entry with its aliases.
    /// Cost: its drop; for an indexed entry, that of a look-up in the index.
    /// rhai: `Scope::pop`, which panics without an entry.
    pub fn pop(&mut self)
        requires { 0 < length self.old }
        ensures { self.new ≡ popped self.old }
    {
        let len = self.records.len() - 1;
        self.index.rewind(&self.records, len);
        drop(self.records.pop());
    }

    /// Drops the entry at a position with its aliases.
    #[tactic(auto, using(crate::proofs::MovedOut::last_taken))]
    pub(crate) fn drop_at(&mut self, i: usize)
        requires { i < length self.old }
        ensures { self.new ≡ remove self.old i }
    {
        if self.len() - i == 1 {
            return self.pop();
        }
        let gone = self.records.remove(i);
        self.index.remove(gone.name().as_str(), i);
    }

    /// Keeps the first `size` entries with their aliases, or all if there are no more.
    /// Cost: the number of dropped entries.
    /// rhai: `Scope::rewind`.
    pub fn rewind(&mut self, size: usize)
        ensures { self.new ≡ take size self.old }
    {
        if size < self.records.len() {
            self.index.rewind(&self.records, size);
            self.records.truncate(size);
        }
    }
}
