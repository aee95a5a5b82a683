//! Entries by name: the newest is found first.
ghost use Rattle.std.specs.Prelude.{◌≡◌, ◌<◌, length, IfSome, Some, option_copied, option_map, is_some, slice_get};
ghost use Rattle.std.specs.Borrow.{Lends, LendsIf, sem};
ghost use Rattle.std.specs.Option.{option_copied_mut};
ghost use Rattle.std.specs.Str.{chars};
ghost use Rattle.rhai_value.specs.contracts.value.dynamic.Dynamic as dynamic_type;
ghost use Rattle.rhai_scope.specs.contracts.scope.Scope as scope_type;
ghost use Rattle.rhai_value.specs.Tree.{is_constant};
ghost use Rattle.rhai_scope.specs.Entry.{is_constant_entry, with_value};
ghost use Rattle.rhai_scope.specs.Lookup.{last_position, last_entry, value_named, writable_position, value_at, changed_at, with_value_at};

use crate::records::Record;
use crate::scope::Scope;
use rhai_text::ImmutableString;
use rhai_value::{AccessMode, Dynamic};

impl Scope {
    /// Finds the position of the last entry of a name.
    /// Cost: no memory. The last entries, at most 32, are searched linearly, and then the name is
    /// looked up in the index, an ordered map: the logarithm of the number of different names. For
    /// most absent names only the linear search is needed.
    /// rhai: `Scope::search`, which is private.
    #[tactic(auto, using(crate::proofs::Found::position_within))]
    pub fn search(&self, name: &str) -> Option<usize>
        ensures position { result ≡ last_position (chars name.now) self.now }
        ensures within { IfSome result (λ i. i < length self.now) }
    {
        self.index.search(&self.records, name)
    }

    /// Borrows the last entry of a name.
    pub(crate) fn entry_named(&self, name: &str) -> Option<&Record>
        ensures { option_copied result ≡ last_entry (chars name.now) self.now }
    {
        match self.search(name) {
            Some(i) => Some(&self.records[i]),
            None => None,
        }
    }

    /// The position of the last entry of a name, if its value may be written.
    pub(crate) fn writable(&self, name: &str) -> Option<usize>
        ensures { result ≡ writable_position (chars name.now) self.now }
    {
        let i = self.search(name)?;
        if self.is_constant_at(i) {
            None
        } else {
            Some(i)
        }
    }

    /// Borrows the value at a position; `Scope::search` returns that of a name.
    /// Cost: constant.
    pub fn at(&self, i: usize) -> &Dynamic
        requires { i < length self.now }
        ensures { option_map (λ e. e.value) (slice_get self.now i) ≡ Some result.now }
    {
        self.records[i].value()
    }

    /// Borrows the name of the entry at a position.
    /// Cost: constant.
    /// rhai: the name that `Scope::get_entry_by_index` returns, which is private.
    pub fn name_at(&self, i: usize) -> &ImmutableString
        requires { i < length self.now }
        ensures { option_map (λ e. e.name) (slice_get self.now i) ≡ Some result.now }
    {
        self.records[i].name()
    }

    /// Borrows the value at a position mutably, even of a constant. No cell is written.
    /// Cost: constant.
    /// rhai: `Scope::get_mut_by_index`, which is private.
    pub fn at_mut(&mut self, i: usize) -> &mut Dynamic
        requires { i < length self.old }
        ensures* writes_back { sem 𝓛 (Lends scope_type.the_row dynamic_type.the_row self.entry result (λ w. changed_at (with_value w) self.old i)) }
        ensures value { option_map (λ e. e.value) (slice_get self.old i) ≡ Some result.now }
    {
        self.records[i].value_mut()
    }

    /// Returns whether the name has an entry.
    /// Cost: that of `search`.
    /// rhai: `Scope::contains`.
    pub fn contains(&self, name: &str) -> bool
        ensures { result ≡ is_some (last_position (chars name.now) self.now) }
    {
        self.search(name).is_some()
    }

    /// Borrows the own value of the last entry of a name.
    /// Cost: that of `search`.
    /// rhai: `Scope::get`.
    pub fn get(&self, name: &str) -> Option<&Dynamic>
        ensures { option_copied result ≡ value_named (chars name.now) self.now }
    {
        match self.entry_named(name) {
            Some(entry) => Some(entry.value()),
            None => None,
        }
    }

    /// Borrows the own value of the last entry of a name mutably, unless its own mode is ReadOnly.
    /// No cell is written.
    /// Cost: that of `search`.
    /// rhai: `Scope::get_mut`.
    pub fn get_mut(&mut self, name: &str) -> Option<&mut Dynamic>
        ensures* writes_back { sem 𝓛 (LendsIf scope_type.the_row dynamic_type.the_row self.entry result (with_value_at self.old (writable_position (chars name.now) self.old)) self.old) }
        ensures value { option_copied_mut result ≡ value_at self.old (writable_position (chars name.now) self.old) }
    {
        match self.writable(name) {
            Some(i) => Some(self.at_mut(i)),
            None => None,
        }
    }

    /// Borrows the value of the last entry of a name mutably, even of a constant.
    pub(crate) fn last_mut(&mut self, name: &str) -> Option<&mut Dynamic>
        ensures* writes_back { sem 𝓛 (LendsIf scope_type.the_row dynamic_type.the_row self.entry result (with_value_at self.old (last_position (chars name.now) self.old)) self.old) }
        ensures value { option_copied_mut result ≡ value_at self.old (last_position (chars name.now) self.old) }
    {
        match self.search(name) {
            Some(i) => Some(self.at_mut(i)),
            None => None,
        }
    }

    /// Returns whether the last entry of a name is a constant by its own mode.
    /// Cost: that of `search`.
    /// rhai: `Scope::is_constant`.
    pub fn is_constant(&self, name: &str) -> Option<bool>
        ensures { result ≡ option_map is_constant_entry (last_entry (chars name.now) self.now) }
    {
        let i = self.search(name)?;
        Some(self.is_constant_at(i))
    }

    /// Returns whether the entry at a position is a constant by its own mode.
    /// Cost: constant.
    pub fn is_constant_at(&self, i: usize) -> bool
        requires { i < length self.now }
        ensures { option_map is_constant_entry (slice_get self.now i) ≡ Some result }
    {
        is_read_only(self.at(i).access_mode())
    }
}

fn is_read_only(mode: AccessMode) -> bool
    ensures { result ≡ is_constant mode }
{
    match mode {
        AccessMode::ReadWrite => false,
        AccessMode::ReadOnly => true,
    }
}
