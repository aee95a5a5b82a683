//! Consuming a scope.

use crate::alias::AliasList;
use crate::records::Record;
use crate::scope::Scope;
use rhai_text::ImmutableString;
use rhai_value::Dynamic;
use std::iter::{ExactSizeIterator, FusedIterator, IntoIterator, Iterator};
use std::marker::Model;
use std::vec;

/// The remaining entries of a scope, from the first to the last. Contracts see the list of them.
#[derive(Drop)]
pub struct IntoIter {
    records: vec::IntoIter<Record>,
}

impl Model for IntoIter {
    ghost use Rattle.std.specs.Prelude.{◌≡◌, List, length};
    ghost use Rattle.std.specs.Coded.{coded_list};
    ghost use Rattle.std.specs.Vec.Iter.{into_iter_items, into_iter_len};
    ghost use Rattle.rhai_scope.specs.Code.{entry_code};
    ghost use Rattle.rhai_scope.specs.Entry.{Entry};

    ghost Value = { List Entry };

    ghost coded = { coded_list entry_code };

    ghost view = { λ r. into_iter_items r.records };

    ghost invariant = { λ r. into_iter_len r.records ≡ length (into_iter_items r.records) };
}

impl Iterator for IntoIter {
    ghost use Rattle.std.specs.Prelude.{◌≡◌, length, Some, IfSome};
    ghost use Rattle.std.specs.Iterator.{UpTo};
    ghost use Rattle.std.specs.Iterator.SizeHint.{IsWithinCount};
    ghost use Rattle.std.specs.Iterator.{YieldsFirstBy, item_count};
    ghost use Rattle.rhai_scope.specs.Items.{moved_entry};

    type Item = (ImmutableString, Dynamic, AliasList);

    ghost next_gives = { YieldsFirstBy moved_entry (λ rest. rest) };

    ghost remaining = { item_count (λ rest. rest) };

    fn next(&mut self) -> Option<(ImmutableString, Dynamic, AliasList)> {
        let first = self.records.next()?;
        Some(first.into_parts())
    }

    fn size_hint(&self) -> (usize, Option<usize>)
        ensures lower { IsWithinCount result.0 (item_count (λ rest. rest) self.now) }
        ensures upper { IfSome result.1 (UpTo (item_count (λ rest. rest) self.now)) }
        ensures exact { result ≡ (length (self.now), Some (length (self.now))) }
    {
        let len = self.len();
        (len, Some(len))
    }
}

impl ExactSizeIterator for IntoIter {
    fn len(&self) -> usize {
        self.records.len()
    }
}

impl FusedIterator for IntoIter {}

impl Scope {
    ghost use Rattle.std.specs.Prelude.{◌≡◌, ◌<◌, ◌∷◌, ◌++◌, [], length};
    ghost use Rattle.rhai_scope.specs.Items.{moved_entry};

    /// Removes the last entry, and returns its name, its own value and its aliases.
    /// Cost: no memory; for an indexed entry, that of a look-up in the index.
    /// rhai: `Scope::pop_entry`, which is private, and returns `None` without an entry.
    pub fn pop_last(&mut self) -> (ImmutableString, Dynamic, AliasList)
        requires { 0 < length self.old }
        ensures { self.old ≡ self.new ++ moved_entry result ∷ [] }
    {
        let last = self.records.len() - 1;
        self.index.rewind(&self.records, last);
        self.records.remove(last).into_parts()
    }
}

/// Yields the name, the own value and the aliases of each entry, from the first to the last.
impl IntoIterator for Scope {
    ghost use Rattle.std.specs.Prelude.{◌≡◌};

    type Item = (ImmutableString, Dynamic, AliasList);

    type IntoIter = IntoIter;

    ghost into_iter_gives = { λ s r. r ≡ s };

    fn into_iter(self) -> IntoIter {
        IntoIter {
            records: self.records.into_iter(),
        }
    }
}
