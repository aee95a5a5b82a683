//! The hash bytes of a scope.
ghost use Rattle.std.specs.Prelude.{◌≡◌, ◌++◌, length, IfOk, OnOk, Some, option_map};
ghost use Rattle.std.specs.List.{flat_map};
ghost use Rattle.std.specs.Str.{chars};
ghost use Rattle.rhai_show.specs.HashBytes.{count_bytes, name_bytes, sized};
ghost use Rattle.rhai_scope.specs.Entry.{Entry};
ghost use Rattle.rhai_scope.specs.ScopeBytes.{aliases_bytes, entry_bytes, scope_bytes, both_bytes};

use crate::alias::Alias;
use crate::records::Record;
use crate::rest::Rest;
use crate::scope::Scope;
use rhai_show::{Hashed, hashed};
use rhai_text::ImmutableString;
use rhai_value::{Dynamic, Store};
use std::alloc::{AllocError, Global};

fn add_bytes(out: &mut Vec<u8>, bytes: &[u8]) -> Result<(), AllocError>
    ensures { OnOk result (out.new.items ≡ out.old.items ++ bytes.now) }
{
    out.extend_from_slice(bytes)
}

/// Appends a number of entries, bytes or aliases.
fn add_count(out: &mut Vec<u8>, count: usize) -> Result<(), AllocError>
    ensures { OnOk result (out.new.items ≡ out.old.items ++ count_bytes count) }
{
    add_bytes(out, &count.to_le_bytes())
}

/// Appends bytes, prefixed by their number.
fn add_sized(out: &mut Vec<u8>, bytes: &[u8]) -> Result<(), AllocError>
    ensures { OnOk result (out.new.items ≡ out.old.items ++ sized bytes.now) }
{
    add_count(out, bytes.len())?;
    add_bytes(out, bytes)
}

/// Appends a name, prefixed by its number of bytes.
fn add_name(out: &mut Vec<u8>, name: &str) -> Result<(), AllocError>
    ensures { OnOk result (out.new.items ≡ out.old.items ++ name_bytes (chars name.now)) }
{
    add_sized(out, name.as_bytes())
}

/// Appends aliases, prefixed by their number.
fn add_aliases(out: &mut Vec<u8>, aliases: &[Alias]) -> Result<(), AllocError>
    ensures { OnOk result (out.new.items ≡ out.old.items ++ aliases_bytes aliases.now) }
{
    add_count(out, aliases.len())?;
    for alias in aliases {
        add_name(out, alias.as_str())?;
    }
    Ok(())
}

/// Appends the hash bytes of an entry, if it has some.
fn with_entry(
    alloc: Global,
    mut out: Vec<u8>,
    name: &ImmutableString,
    value: &Dynamic,
    aliases: &[Alias],
    store: &Store,
) -> Result<Option<Vec<u8>>, AllocError>
    ensures { IfOk result (λ o. option_map (λ v. v.items) o ≡ both_bytes (Some out.items) (entry_bytes store.now (record { name = name.now; value = value.now; aliases = aliases.now }))) }
{
    match hashed(alloc, value, store)? {
        None => Ok(None),
        Some(hashed) => {
            add_name(&mut out, name.as_str())?;
            add_bytes(&mut out, hashed.bytes())?;
            add_aliases(&mut out, aliases)?;
            Ok(Some(out))
        }
    }
}

fn bytes_of(alloc: Global, entries: &[Record], store: &Store) -> Result<Option<Vec<u8>>, AllocError>
    ensures { IfOk result (λ o. option_map (λ v. v.items) o ≡ scope_bytes store.now entries.now) }
{
    let mut out = Vec::new(alloc);
    let mut rest = Rest::of(entries);
    add_count(&mut out, rest.len())?;
    while let Some((name, value, aliases)) = rest.next() {
        match with_entry(alloc, out, name, value, aliases, store)? {
            None => return Ok(None),
            Some(longer) => out = longer,
        }
    }
    Ok(Some(out))
}

impl Scope {
    /// Returns the hash bytes of the scope, or `None` if a value isn't hashable: the number of
    /// entries, and for each its name, its value and its aliases, prefixed by the numbers of bytes
    /// and of aliases. Tags, modes and sharing have no effect.
    /// Errors: an allocation fails.
    /// Cost: that of `rhai_show::hashed` for each value, and the number of the bytes.
    /// rhai: `Hash` of `Scope`, which feeds any hasher.
    pub fn hashed(&self, store: &Store) -> Result<Option<Hashed>, AllocError>
        ensures { IfOk result (λ o. o ≡ scope_bytes store.now self.now) }
    {
        match bytes_of(self.alloc, &self.records, store)? {
            None => Ok(None),
            Some(bytes) => Ok(Some(Hashed::from_bytes(bytes))),
        }
    }
}
