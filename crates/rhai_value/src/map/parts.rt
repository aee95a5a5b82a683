//! The lists of a map that has had an entry.
ghost use Rattle.std.specs.Prelude.{◌≡◌, ◌<◌, [], None, length, option_copied, IfOk, IfErr, OnOk, OnErr, slice_set, string_bytes};
ghost use Rattle.std.specs.BTreeMap.{insert_entry, is_at};
ghost use Rattle.std.specs.Borrow.{Lends, sem};
ghost use Rattle.std.specs.Map.{lookup, remove_entry};
ghost use Rattle.rhai_value.specs.Lists.{rows_of, IsWhole};
ghost use Rattle.rhai_value.specs.Rows.{bytes_cmp};
ghost use Rattle.rhai_value.specs.Seats.{entry_at, row_at, rows_before, rows_past, with_value, IsSeated};
ghost use Rattle.rhai_value.specs.contracts.value.dynamic.Dynamic as dynamic_type;
ghost use Rattle.rhai_value.specs.contracts.map.MapParts as parts_type;

use crate::map::key::Key;
use crate::map::seat::Seat;
use crate::map::sought::Sought;
use crate::map::{Entry, MapParts};
use crate::value::dynamic::Dynamic;
use std::alloc::Global;
use std::mem;

/// Swaps a value in a list.
#[inline(always)]
fn replace_in(entries: &mut Vec<Entry>, at: usize, value: Dynamic) -> Dynamic
    requires { at < length entries.old.items }
    ensures value { result ≡ (entry_at entries.old.items at).value }
    ensures written { entries.new.items ≡ slice_set entries.old.items at (record (entry_at entries.old.items at) { value = value }) }
{
    mem::replace(&mut entries[at].value, value)
}

impl MapParts {
    pub(crate) fn new(alloc: Global) -> MapParts
        ensures rows { rows_of result ≡ [] }
        ensures whole { IsWhole result }
    {
        MapParts {
            first: Vec::new(alloc),
            rest: Vec::new(alloc),
            len: 0,
        }
    }

    #[inline(always)]
    pub(crate) fn len(&self) -> usize
        requires { IsWhole self.now }
        ensures { result ≡ length (rows_of self.now) }
    {
        self.len
    }

    pub(crate) fn get(&self, key: &str) -> Option<&Dynamic>
        requires { IsWhole self.now }
        ensures { option_copied result ≡ lookup (is_at (bytes_cmp key.now)) (rows_of self.now) }
    {
        match self.seat(&Sought::of(key)) {
            Ok(seat) => Some(self.value_at(seat)),
            Err(_) => None,
        }
    }

    /// Borrows the value at a place mutably.
    #[inline(always)]
    pub(crate) fn value_at_mut(&mut self, seat: Seat) -> &mut Dynamic
        requires { IsSeated self.old seat }
        ensures* writes_back { sem 𝓛 (Lends parts_type.the_row dynamic_type.the_row self.entry result (with_value self.old seat)) }
        ensures value { result.now ≡ (row_at self.old seat).1 }
    {
        if seat.list == 0 {
            &mut self.first[seat.at].value
        } else {
            &mut self.rest[seat.list - 1].entries[seat.at].value
        }
    }

    /// Swaps the value at a place.
    #[inline(always)]
    pub(crate) fn replace_at(&mut self, seat: Seat, value: Dynamic) -> Dynamic
        requires whole { IsWhole self.old }
        requires seated { IsSeated self.old seat }
        ensures value { result ≡ (row_at self.old seat).1 }
        ensures before { rows_before self.new seat ≡ rows_before self.old seat }
        ensures row { row_at self.new seat ≡ ((row_at self.old seat).0, value) }
        ensures past { rows_past self.new seat ≡ rows_past self.old seat }
        ensures seated { IsSeated self.new seat }
        ensures whole { IsWhole self.new }
    {
        if seat.list == 0 {
            replace_in(&mut self.first, seat.at, value)
        } else {
            replace_in(&mut self.rest[seat.list - 1].entries, seat.at, value)
        }
    }

    /// Inserts a value at a key made from a text.
    pub(crate) fn insert(
        &mut self,
        key: String,
        value: Dynamic,
    ) -> Result<Option<Dynamic>, (String, Dynamic)>
        requires { IsWhole self.old }
        ensures old { IfOk result (λ old. old ≡ lookup (is_at (bytes_cmp (string_bytes key))) (rows_of self.old)) }
        ensures inserted { OnOk result (rows_of self.new ≡ insert_entry bytes_cmp (rows_of self.old) (string_bytes key) value) }
        ensures err { IfErr result (λ back. (back ≡ (key, value)) × (rows_of self.new ≡ rows_of self.old)) }
        ensures absent { OnErr result (lookup (is_at (bytes_cmp (string_bytes key))) (rows_of self.old) ≡ None) }
        ensures whole { IsWhole self.new }
    {
        match self.seat(&Sought::of(key.as_str())) {
            Ok(seat) => Ok(Some(self.replace_at(seat, value))),
            Err(gap) => match self.room_at(gap) {
                Some(seat) => {
                    self.put(seat, Key::from_string(key), value);
                    Ok(None)
                }
                None => Err((key, value)),
            },
        }
    }

    /// Inserts a value at a key.
    pub(crate) fn insert_key(
        &mut self,
        key: Key,
        value: Dynamic,
    ) -> Result<Option<Dynamic>, (Key, Dynamic)>
        requires { IsWhole self.old }
        ensures old { IfOk result (λ old. old ≡ lookup (is_at (bytes_cmp key)) (rows_of self.old)) }
        ensures inserted { OnOk result (rows_of self.new ≡ insert_entry bytes_cmp (rows_of self.old) key value) }
        ensures err { IfErr result (λ back. (back ≡ (key, value)) × (rows_of self.new ≡ rows_of self.old)) }
        ensures absent { OnErr result (lookup (is_at (bytes_cmp key)) (rows_of self.old) ≡ None) }
        ensures whole { IsWhole self.new }
    {
        match self.seat(&Sought::of(key.as_str())) {
            Ok(seat) => Ok(Some(self.replace_at(seat, value))),
            Err(gap) => match self.room_at(gap) {
                Some(seat) => {
                    self.put(seat, key, value);
                    Ok(None)
                }
                None => Err((key, value)),
            },
        }
    }

    /// Sets the value of a text; makes a key only if the text is new.
    pub(crate) fn set(
        &mut self,
        alloc: Global,
        text: &str,
        value: Dynamic,
    ) -> Result<Option<Dynamic>, Dynamic>
        requires { IsWhole self.old }
        ensures old { IfOk result (λ old. old ≡ lookup (is_at (bytes_cmp text.now)) (rows_of self.old)) }
        ensures set { OnOk result (rows_of self.new ≡ insert_entry bytes_cmp (rows_of self.old) text.now value) }
        ensures err { IfErr result (λ back. (back ≡ value) × (rows_of self.new ≡ rows_of self.old)) }
        ensures absent { OnErr result (lookup (is_at (bytes_cmp text.now)) (rows_of self.old) ≡ None) }
        ensures whole { IsWhole self.new }
    {
        let gap = match self.seat(&Sought::of(text)) {
            Ok(seat) => return Ok(Some(self.replace_at(seat, value))),
            Err(gap) => gap,
        };
        let Some(seat) = self.room_at(gap) else {
            return Err(value);
        };
        match Key::from_str(alloc, text) {
            Ok(key) => {
                self.put(seat, key, value);
                Ok(None)
            }
            Err(_) => Err(value),
        }
    }

    pub(crate) fn remove(&mut self, key: &str) -> Option<Dynamic>
        requires { IsWhole self.old }
        ensures value { result ≡ lookup (is_at (bytes_cmp key.now)) (rows_of self.old) }
        ensures removed { rows_of self.new ≡ remove_entry (is_at (bytes_cmp key.now)) (rows_of self.old) }
        ensures whole { IsWhole self.new }
    {
        match self.seat(&Sought::of(key)) {
            Ok(seat) => {
                let Entry { key, value } = self.take(seat);
                drop(key);
                Some(value)
            }
            Err(_) => None,
        }
    }
}
