//! Entries from vectors, which are returned if an allocation fails.
ghost use Rattle.std.specs.Prelude.{◌≡◌, ◌+◌, ◌≤◌, ◌++◌, length, vec_len, vec_capacity, OnOk, IfErr};
ghost use Rattle.std.specs.List.{zip};
ghost use Rattle.rhai_scope.specs.Extended.{extended, extended_flagged, flagged_values, headed};

use crate::heading::Heading;
use crate::records::Record;
use crate::scope::{Scope, push_in_room};
use rhai_text::ImmutableString;
use rhai_value::Dynamic;
use std::alloc::Global;

/// Appends an entry for each heading with the value at its index, given enough capacity.
fn add_in_room<H: Heading>(
    alloc: Global,
    records: &mut Vec<Record>,
    headings: Vec<H>,
    values: Vec<Dynamic>,
)
    requires as_many { length values.items ≡ length headings.items }
    requires room { vec_len records.old + length headings.items ≤ vec_capacity records.old }
    ensures { records.new.items ≡ records.old.items ++ headed H.name_of H.mode_of headings.items values.items }
{
    for (heading, value) in headings.into_iter().zip(values) {
        let (name, access) = heading.split();
        push_in_room(alloc, records, name, access, value);
    }
}

impl Scope {
    /// Appends an entry for each heading with the value at its index. All allocations precede all
    /// moves.
    fn extend_headed<H: Heading>(
        &mut self,
        headings: Vec<H>,
        values: Vec<Dynamic>,
    ) -> Result<(), (Vec<H>, Vec<Dynamic>)>
        requires { length values.items ≡ length headings.items }
        ensures ok { OnOk result (self.new ≡ self.old ++ headed H.name_of H.mode_of headings.items values.items) }
        ensures err { IfErr result (λ back. (back ≡ (headings, values)) × (self.new ≡ self.old)) }
    {
        let alloc = self.alloc;
        if self.records.reserve(headings.len()).is_err() {
            return Err((headings, values));
        }
        match self.index.admit_all(alloc, &self.records, &headings) {
            Ok(()) => {
                add_in_room(alloc, &mut self.records, headings, values);
                Ok(())
            }
            Err(_) => Err((headings, values)),
        }
    }

    /// Appends an entry for each name with the value at its index, painted ReadWrite, in order. No
    /// name is copied.
    /// Errors: names and values, if an allocation fails; the scope is unchanged.
    /// Cost: that of a push for each; one allocation, before all else.
    /// rhai: only `extend`, which takes an iterator.
    pub fn extend_moved(
        &mut self,
        names: Vec<ImmutableString>,
        values: Vec<Dynamic>,
    ) -> Result<(), (Vec<ImmutableString>, Vec<Dynamic>)>
        requires { length values.items ≡ length names.items }
        ensures ok { OnOk result (self.new ≡ extended self.old (zip names.items values.items)) }
        ensures err { IfErr result (λ back. (back ≡ (names, values)) × (self.new ≡ self.old)) }
    {
        self.extend_headed(names, values)
    }

    /// Appends an entry for each name with the value at its index, painted ReadOnly if the flag
    /// beside the name is `true`, and otherwise ReadWrite, as `extend_moved` does.
    /// Errors: names and values, if an allocation fails; the scope is unchanged.
    /// Cost: that of `extend_moved`.
    pub fn extend_flagged_moved(
        &mut self,
        names: Vec<(ImmutableString, bool)>,
        values: Vec<Dynamic>,
    ) -> Result<(), (Vec<(ImmutableString, bool)>, Vec<Dynamic>)>
        requires { length values.items ≡ length names.items }
        ensures ok { OnOk result (self.new ≡ extended_flagged self.old (flagged_values names.items values.items)) }
        ensures err { IfErr result (λ back. (back ≡ (names, values)) × (self.new ≡ self.old)) }
    {
        self.extend_headed(names, values)
    }
}
