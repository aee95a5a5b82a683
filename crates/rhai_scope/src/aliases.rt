//! The aliases of entries, and adding some.
ghost use Rattle.std.specs.Prelude.{None, IsOk, ◌≡◌, ◌<◌, nat_eq, length, option_copied, IfOk, OnOk, OnErr};
ghost use Rattle.std.specs.Cmp.Lexicographic.{pointwise};
ghost use Rattle.std.specs.List.{list_any};
ghost use Rattle.std.specs.Str.{chars};
ghost use Rattle.rhai_scope.specs.Alias.{meant_alias, with_alias, aliased};
ghost use Rattle.rhai_scope.specs.Lookup.{aliases_named, changed_at, changed_named, last_position};

use crate::alias::Alias;
use crate::scope::Scope;
use rhai_text::ImmutableString;
use std::alloc::{AllocError, Global};

/// Whether the list has this alias; compares lengths first.
fn has_alias(list: &[Alias], alias: &Alias) -> bool
    ensures { result ≡ list_any (pointwise nat_eq alias.now) list.now }
{
    for own in list {
        if alias.is_same(own) {
            return true;
        }
    }
    false
}

/// Appends an alias unless the list has it.
pub(crate) fn add_once(list: &mut Vec<Alias>, alias: Alias) -> Result<(), AllocError>
    ensures ok { OnOk result (list.new.items ≡ with_alias alias list.old.items) }
    ensures err { OnErr result (list.new.items ≡ list.old.items) }
{
    if has_alias(list.as_slice(), &alias) {
        return Ok(());
    }
    match list.push(alias) {
        Ok(()) => Ok(()),
        Err(_) => Err(AllocError),
    }
}

/// The alias to add: the name itself, sharing its bytes, if `alias` is empty.
fn meant(alloc: Global, name: &ImmutableString, alias: &str) -> Result<Alias, AllocError>
    ensures { IfOk result (λ a. a ≡ meant_alias name.now (chars alias.now)) }
{
    let meant = ImmutableString::from_str(alloc, alias)?;
    if meant.is_empty() {
        Ok(Alias::new(name.copy(alloc)?))
    } else {
        Ok(Alias::new(meant))
    }
}

impl Scope {
    /// Adds an alias to the entry at a position unless the entry has it.
    fn add_alias(&mut self, i: usize, alias: Alias) -> Result<(), AllocError>
        requires { i < length self.old }
        ensures ok { OnOk result (self.new ≡ changed_at (aliased alias) self.old i) }
        ensures err { OnErr result (self.new ≡ self.old) }
    {
        self.records[i].add_alias(alias)
    }

    /// Borrows the aliases of the last entry of a name, oldest first.
    /// Cost: that of `search`; no memory.
    /// rhai: only its iterators show aliases.
    pub fn aliases(&self, name: &str) -> Option<&[Alias]>
        ensures { option_copied result ≡ aliases_named (chars name.now) self.now }
    {
        match self.entry_named(name) {
            Some(entry) => Some(entry.aliases()),
            None => None,
        }
    }

    /// Adds an alias to the last entry of a name; the name itself if `alias` is empty. If the name
    /// has no entry, or the entry has the alias, nothing changes.
    /// Errors: an allocation fails; nothing changes.
    /// Cost: that of `search`, and the number of the entry's aliases.
    /// rhai: `Scope::set_alias`.
    pub fn set_alias(&mut self, name: &str, alias: &str) -> Result<(), AllocError>
        ensures ok { OnOk result (self.new ≡ changed_named (aliased (meant_alias (chars name.now) (chars alias.now))) (chars name.now) self.old) }
        ensures missing { last_position (chars name.now) self.old ≡ None → IsOk result }
        ensures err { OnErr result (self.new ≡ self.old) }
    {
        match self.search(name) {
            Some(i) => {
                let alias = meant(self.alloc, self.records[i].name(), alias)?;
                self.add_alias(i, alias)
            }
            None => Ok(()),
        }
    }
}
