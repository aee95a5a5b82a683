//! Iterating over the entries of a borrowed scope.
ghost use Rattle.std.specs.Prelude.{◌≡◌, length, Some, IfOk, IfSome, IsOk};
ghost use Rattle.std.specs.Iterator.{UpTo};
ghost use Rattle.std.specs.Iterator.SizeHint.{IsWithinCount};
ghost use Rattle.rhai_value.specs.End.{first, flat, constant_in};
ghost use Rattle.rhai_value.specs.Tree.{TakesNoMemory};
ghost use Rattle.rhai_scope.specs.Items.{given_flat};

use crate::alias::Alias;
use crate::rest::Rest;
use crate::scope::Scope;
use rhai_text::ImmutableString;
use rhai_value::{AccessMode, Dynamic, Store, Union};
use std::alloc::{AllocError, Global};
use std::iter::{ExactSizeIterator, FusedIterator, IntoIterator, Iterator};
use std::marker::Model;

/// The remaining entries, from the first to the last. Contracts see the list of them.
#[derive(Drop)]
pub struct Entries<'a> {
    rest: Rest<'a>,
}

impl<'a> Model for Entries<'a> {
    ghost use Rattle.std.specs.Prelude.{List};
    ghost use Rattle.std.specs.Coded.{coded_list};
    ghost use Rattle.rhai_scope.specs.Code.{entry_code};
    ghost use Rattle.rhai_scope.specs.Entry.{Entry};

    ghost Value = { List Entry };

    ghost coded = { coded_list entry_code };

    ghost view = { λ a. a.rest };
}

impl<'a> Iterator for Entries<'a> {
    ghost use Rattle.std.specs.Iterator.{YieldsFirstBy, item_count};
    ghost use Rattle.rhai_scope.specs.Items.{lent_entry};

    type Item = (&'a str, &'a Dynamic, &'a [Alias]);

    ghost next_gives = { YieldsFirstBy lent_entry (λ rest. rest) };

    ghost remaining = { item_count (λ rest. rest) };

    fn next(&mut self) -> Option<(&'a str, &'a Dynamic, &'a [Alias])> {
        match self.rest.next() {
            Some((name, value, aliases)) => Some((name.as_str(), value, aliases)),
            None => None,
        }
    }

    fn size_hint(&self) -> (usize, Option<usize>)
        ensures lower { IsWithinCount result.0 (item_count (λ rest. rest) self.now) }
        ensures upper { IfSome result.1 (UpTo (item_count (λ rest. rest) self.now)) }
        ensures exact { result ≡ (length (self.now), Some (length (self.now))) }
    {
        let len = self.len();
        (len, Some(len))
    }
}

impl<'a> ExactSizeIterator for Entries<'a> {
    fn len(&self) -> usize {
        self.rest.len()
    }
}

impl<'a> FusedIterator for Entries<'a> {}

/// Yields the name, the own value and the aliases of each entry, from the first to the last.
impl<'a> IntoIterator for &'a Scope {
    ghost use Rattle.std.specs.Prelude.{◌≡◌};

    type Item = (&'a str, &'a Dynamic, &'a [Alias]);

    type IntoIter = Entries<'a>;

    ghost into_iter_gives = { λ s r. r ≡ s.now };

    fn into_iter(self) -> Entries<'a> {
        Entries {
            rest: Rest::of(&self.records),
        }
    }
}

/// A value's flat copy. Most values aren't holders, and these are copied without reading the store.
#[inline(always)]
#[tactic(auto, using(crate::proofs::FlatItems::flat_own))]
fn flat_copy(alloc: Global, store: &Store, value: &Dynamic) -> Result<Dynamic, AllocError>
    ensures value { IfOk result (λ d. d ≡ flat store.now value.now) }
    ensures free { TakesNoMemory (flat store.now value.now) → IsOk result }
{
    if value.is_shared() {
        value.flatten_clone(alloc, store)
    } else {
        value.copy(alloc)
    }
}

#[inline(always)]
#[tactic(auto, using(crate::proofs::FlatItems::flat_own))]
fn flat_item<'a>(
    alloc: Global,
    store: &Store,
    name: &'a ImmutableString,
    value: &Dynamic,
) -> Result<(&'a str, bool, Dynamic), AllocError>
    ensures item { IfOk result (λ p. given_flat p ≡ (name.now, constant_in (first store.now value.now), flat store.now value.now)) }
    ensures free { TakesNoMemory (flat store.now value.now) → IsOk result }
{
    let is_constant = value.is_read_only(store);
    if let Union::Int(tag, _, n) = value.parts() {
        let copy = Dynamic::from_parts(Union::Int(*tag, AccessMode::ReadWrite, *n));
        return Ok((name.as_str(), is_constant, copy));
    }
    Ok((name.as_str(), is_constant, flat_copy(alloc, store, value)?))
}

/// The remaining entries of `Scope::iter`, which flattens their values.
#[derive(Drop)]
pub struct Iter<'a> {
    alloc: Global,
    store: &'a Store,
    rest: Rest<'a>,
}

impl<'a> Iterator for Iter<'a> {
    ghost use Rattle.std.specs.Iterator.{item_count};
    ghost use Rattle.rhai_scope.specs.Items.{flat_left, GivesFlat};

    type Item = Result<(&'a str, bool, Dynamic), AllocError>;

    ghost next_gives = { GivesFlat };

    ghost remaining = { item_count flat_left };

    #[inline(always)]
    fn next(&mut self) -> Option<Result<(&'a str, bool, Dynamic), AllocError>> {
        match self.rest.next() {
            Some((name, value, _)) => Some(flat_item(self.alloc, self.store, name, value)),
            None => None,
        }
    }

    fn size_hint(&self) -> (usize, Option<usize>)
        ensures lower { IsWithinCount result.0 (item_count flat_left self.now) }
        ensures upper { IfSome result.1 (UpTo (item_count flat_left self.now)) }
        ensures exact { result ≡ (length (flat_left self.now), Some (length (flat_left self.now))) }
    {
        let len = self.len();
        (len, Some(len))
    }
}

impl<'a> ExactSizeIterator for Iter<'a> {
    fn len(&self) -> usize {
        self.rest.len()
    }
}

impl<'a> FusedIterator for Iter<'a> {}

/// The remaining entries of `Scope::iter_raw`, from the last to the first.
#[derive(Drop)]
pub struct IterRaw<'a> {
    store: &'a Store,
    rest: Rest<'a>,
}

impl<'a> Iterator for IterRaw<'a> {
    ghost use Rattle.std.specs.Iterator.{YieldsFirstBy, item_count};
    ghost use Rattle.rhai_scope.specs.Items.{given_raw, raw_left};

    type Item = (&'a str, bool, &'a Dynamic);

    ghost next_gives = { YieldsFirstBy given_raw raw_left };

    ghost remaining = { item_count raw_left };

    fn next(&mut self) -> Option<(&'a str, bool, &'a Dynamic)> {
        let (name, value, _) = self.rest.next_back()?;
        Some((name.as_str(), value.is_read_only(self.store), value))
    }

    fn size_hint(&self) -> (usize, Option<usize>)
        ensures lower { IsWithinCount result.0 (item_count raw_left self.now) }
        ensures upper { IfSome result.1 (UpTo (item_count raw_left self.now)) }
        ensures exact { result ≡ (length (raw_left self.now), Some (length (raw_left self.now))) }
    {
        let len = self.len();
        (len, Some(len))
    }
}

impl<'a> ExactSizeIterator for IterRaw<'a> {
    fn len(&self) -> usize {
        self.rest.len()
    }
}

impl<'a> FusedIterator for IterRaw<'a> {}

impl Scope {
    ghost use Rattle.std.specs.Prelude.{◌≡◌, map, reverse};
    ghost use Rattle.rhai_scope.specs.Items.{flat_left, raw_left, shown_flat, shown_raw};

    /// Iterates over the entries, from the first to the last: the name, whether it is a constant by
    /// `Dynamic::is_read_only`, and the flat value. If an allocation fails, the item is an `Err`,
    /// and the next call goes on behind it.
    /// Cost: that of `Dynamic::flatten_clone` for each item.
    /// rhai: `Scope::iter`.
    pub fn iter<'a>(&'a self, store: &'a Store) -> Iter<'a>
        ensures { flat_left result ≡ map (shown_flat store.now) self.now }
    {
        Iter {
            alloc: self.alloc,
            store,
            rest: Rest::of(&self.records),
        }
    }

    /// Iterates over the entries, from the last to the first: the name, whether it is a constant by
    /// `Dynamic::is_read_only`, and the value itself.
    /// Cost: constant for each item; no memory.
    /// rhai: `Scope::iter_raw`.
    pub fn iter_raw<'a>(&'a self, store: &'a Store) -> IterRaw<'a>
        ensures { raw_left result ≡ map (shown_raw store.now) (reverse self.now) }
    {
        IterRaw {
            store,
            rest: Rest::of(&self.records),
        }
    }
}
