//! The layout of entries in memory.

use crate::alias::{Alias, AliasList};
use crate::aliases::add_once;
use crate::copy::{copied_list, copied_value};
use crate::heading::Named;
use crate::name_length::{NameLength, is_same};
use rhai_text::ImmutableString;
use rhai_value::Dynamic;
use smallvec::SmallVec;
use std::alloc::{AllocError, Global};
use std::marker::Model;

/// An entry. Contracts see its name, its value and its aliases.
#[derive(Drop)]
pub(crate) struct Record {
    // first: fields are laid out in this order, and a value is aligned to 16 bytes
    value: Dynamic,
    name: ImmutableString,
    aliases: Vec<Alias>,
}

impl Model for Record {
    ghost use Rattle.rhai_scope.specs.Code.{entry_code};
    ghost use Rattle.rhai_scope.specs.Entry.{Entry};

    ghost Value = { Entry };

    ghost coded = { entry_code };

    ghost view = { λ r. record { name = r.name; value = r.value; aliases = r.aliases.items } };
}

impl Named for Record {
    ghost name_of = { λ e. e.name };

    fn name_text(&self) -> &str {
        self.name.as_str()
    }
}

impl Record {
    ghost use Rattle.std.specs.Prelude.{◌≡◌, nat_eq, IfOk, OnOk, OnErr};
    ghost use Rattle.std.specs.Borrow.{Lends, sem};
    ghost use Rattle.std.specs.Cmp.Lexicographic.{pointwise};
    ghost use Rattle.std.specs.Str.{chars};
    ghost use Rattle.rhai_value.specs.contracts.value.dynamic.Dynamic as dynamic_type;
    ghost use Rattle.rhai_scope.specs.Alias.{aliased};
    ghost use Rattle.rhai_scope.specs.Entry.{new_entry, copied_entry, with_value};
    ghost use Rattle.rhai_scope.specs.Items.{moved_entry};
    ghost use Rattle.rhai_scope.specs.NameLength.{HasLength};
    ghost use Rattle.rhai_scope.specs.Records.{entry_of};
    ghost use Rattle.rhai_scope.specs.contracts.records.Record as record_type;

    /// A new entry without aliases.
    pub(crate) fn new(alloc: Global, name: ImmutableString, value: Dynamic) -> Record
        ensures { result ≡ new_entry name value }
    {
        Record {
            name,
            value,
            aliases: Vec::new(alloc),
        }
    }

    /// The entry with this value: its name and its aliases share their bytes.
    #[inline(always)]
    fn copied_with(&self, alloc: Global, value: Dynamic) -> Result<Record, AllocError>
        ensures { IfOk result (λ e. e ≡ with_value value self.now) }
    {
        let mut copied = Record::new(alloc, self.name.copy(alloc)?, value);
        if !self.aliases.is_empty() {
            copied.aliases = copied_list(alloc, &self.aliases)?;
        }
        Ok(copied)
    }

    /// Copies the entry, with a copy of its value.
    pub(crate) fn copy(&self, alloc: Global) -> Result<Record, AllocError>
        ensures { IfOk result (λ e. e ≡ copied_entry self.now) }
    {
        self.copied_with(alloc, copied_value(alloc, &self.value)?)
    }

    /// Copies the entry, with all modes inside its value.
    pub(crate) fn copy_with_modes(&self, alloc: Global) -> Result<Record, AllocError>
        ensures { IfOk result (λ e. e ≡ self.now) }
    {
        self.copied_with(alloc, self.value.copy_with_modes(alloc)?)
    }

    pub(crate) fn name(&self) -> &ImmutableString
        ensures { result.now ≡ self.now.name }
    {
        &self.name
    }

    pub(crate) fn value(&self) -> &Dynamic
        ensures { result.now ≡ self.now.value }
    {
        &self.value
    }

    pub(crate) fn aliases(&self) -> &[Alias]
        ensures { result.now ≡ self.now.aliases }
    {
        self.aliases.as_slice()
    }

    pub(crate) fn parts(&self) -> (&ImmutableString, &Dynamic, &[Alias])
        ensures { entry_of result ≡ self.now }
    {
        (&self.name, &self.value, self.aliases.as_slice())
    }

    pub(crate) fn into_parts(self) -> (ImmutableString, Dynamic, AliasList)
        ensures { moved_entry result ≡ self }
    {
        (self.name, self.value, SmallVec::from_vec(self.aliases))
    }

    /// Whether it has this name, which has this length.
    #[inline(always)]
    #[tactic(auto, using(crate::proofs::Names::same_bytes))]
    pub(crate) fn is_named(&self, name: &str, len: NameLength) -> bool
        requires { HasLength len name.now }
        ensures { result ≡ pointwise nat_eq self.now.name (chars name.now) }
    {
        is_same(self.name.as_str(), name, len)
    }

    /// Borrows the value mutably.
    pub(crate) fn value_mut(&mut self) -> &mut Dynamic
        ensures* writes_back { sem 𝓛 (Lends record_type.the_row dynamic_type.the_row self.entry result (λ w. with_value w self.old)) }
        ensures value { result.now ≡ self.old.value }
    {
        &mut self.value
    }

    /// Appends an alias unless the entry has it.
    pub(crate) fn add_alias(&mut self, alias: Alias) -> Result<(), AllocError>
        ensures name { self.new.name ≡ self.old.name }
        ensures ok { OnOk result (self.new ≡ aliased alias self.old) }
        ensures err { OnErr result (self.new ≡ self.old) }
    {
        add_once(&mut self.aliases, alias)
    }
}
