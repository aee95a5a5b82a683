//! Entries borrowed one by one, from either end.

use crate::alias::Alias;
use crate::records::Record;
use rhai_text::ImmutableString;
use rhai_value::Dynamic;
use std::marker::Model;

/// Consecutive entries of a scope.
#[derive(Drop)]
pub(crate) struct Rest<'a> {
    entries: &'a [Record],
}

impl<'a> Model for Rest<'a> {
    ghost use Rattle.std.specs.Prelude.{List};
    ghost use Rattle.std.specs.Coded.{coded_list};
    ghost use Rattle.rhai_scope.specs.Code.{entry_code};
    ghost use Rattle.rhai_scope.specs.Entry.{Entry};

    ghost Value = { List Entry };

    ghost coded = { coded_list entry_code };

    ghost view = { λ r. r.entries.now };
}

impl<'a> Rest<'a> {
    ghost use Rattle.std.specs.Prelude.{◌≡◌, ◌∷◌, ◌++◌, [], length, MatchOption};
    ghost use Rattle.rhai_scope.specs.Records.{entry_of};

    pub(crate) fn of(entries: &'a [Record]) -> Rest<'a>
        ensures { result ≡ entries.now }
    {
        Rest { entries }
    }

    pub(crate) fn len(&self) -> usize
        ensures { result ≡ length self.now }
    {
        self.entries.len()
    }

    /// Removes and returns the first entry.
    pub(crate) fn next(&mut self) -> Option<(&'a ImmutableString, &'a Dynamic, &'a [Alias])>
        ensures { MatchOption result ((self.old ≡ []) × (self.new ≡ [])) (λ x. self.old ≡ entry_of x ∷ self.new) }
    {
        let (first, rest) = self.entries.split_first()?;
        self.entries = rest;
        Some(first.parts())
    }

    /// Removes and returns the last entry.
    pub(crate) fn next_back(&mut self) -> Option<(&'a ImmutableString, &'a Dynamic, &'a [Alias])>
        ensures { MatchOption result ((self.old ≡ []) × (self.new ≡ [])) (λ x. self.old ≡ self.new ++ entry_of x ∷ []) }
    {
        let (last, rest) = self.entries.split_last()?;
        self.entries = rest;
        Some(last.parts())
    }
}
