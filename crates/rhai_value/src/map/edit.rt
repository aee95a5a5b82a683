//! Inserting entries into the lists of a map, and removing them.
ghost use Rattle.std.specs.Prelude.{◌≡◌, ◌+◌, ◌<◌, ◌≤◌, ◌^◌, ◌++◌, ◌∷◌, suc, length, map, take, drop, slice_set, slice_index_or, IsTrue, IfSome, MatchOption, None, vec_len, vec_capacity};
ghost use Rattle.std.specs.List.{insert, remove};
ghost use Rattle.std.specs.Str.{IsUtf8};
ghost use Rattle.rhai_value.specs.Lists.{lists_of, row_of, rows, rows_of, AreFronted, Begins, IsWhole};
ghost use Rattle.rhai_value.specs.RowWalks.{chunk_view};
ghost use Rattle.rhai_value.specs.Rows.{AreRising};
ghost use Rattle.rhai_value.specs.Seats.{entry_at, list_at, row_at, rows_before, rows_from, rows_past, HasRoom, IsOpen, IsSeated};
ghost use Rattle.rhai_value.specs.declared.map.Chunk.{Chunk};

use crate::map::key::Key;
use crate::map::seat::Seat;
use crate::map::{Chunk, Entry, MapParts};
use crate::value::dynamic::Dynamic;

/// The most entries of a list, unless an allocation failed.
const MOST: usize = 32;

/// Ensures room for one more entry. Most maps are small, so capacity grows in small steps.
#[inline(always)]
fn make_room(entries: &mut Vec<Entry>) -> bool
    ensures room { IsTrue result → vec_len entries.new < vec_capacity entries.new }
    ensures items { entries.new.items ≡ entries.old.items }
{
    entries.len() < entries.capacity() || grow(entries)
}

#[cold]
#[inline(never)]
fn grow(entries: &mut Vec<Entry>) -> bool
    ensures room { IsTrue result → vec_len entries.new < vec_capacity entries.new }
    ensures items { entries.new.items ≡ entries.old.items }
{
    let more = if entries.len() < 10 { 5 } else { 8 };
    entries.reserve_exact(more).is_ok()
}

/// Splits off the entries of a list from an index on; `None` if their allocation fails.
fn cut(entries: &mut Vec<Entry>, from: usize) -> Option<Vec<Entry>>
    requires { from < length entries.old.items }
    ensures { MatchOption result (entries.new.items ≡ entries.old.items) (λ upper. (entries.new.items ≡ take from entries.old.items) × (upper.items ≡ drop from entries.old.items)) }
{
    let upper = entries.split_off(from).ok()?;
    entries.shrink_to(from + from / 4);
    Some(upper)
}

impl MapParts {
    /// Makes room for an entry at a place. Returns the place, which a split moves; `None` if the
    /// allocation for a list fails.
    #[inline(always)]
    pub(crate) fn room_at(&mut self, seat: Seat) -> Option<Seat>
        requires whole { IsWhole self.old }
        requires open { IsOpen self.old seat }
        ensures rows { rows_of self.new ≡ rows_of self.old }
        ensures whole { IsWhole self.new }
        ensures room { IfSome result (λ s. IsOpen self.new s × HasRoom self.new s.list × (rows_before self.new s ≡ rows_before self.old seat) × (rows_from self.new s ≡ rows_from self.old seat)) }
        ensures counted { IfSome result (λ s. self.new.len + 1 < 2 ^ 64) }
    {
        if self.len >= usize::MAX {
            return self.past_all_memory();
        }
        let seat = self.split_full(seat);
        if self.grow_list(seat.list) {
            Some(seat)
        } else {
            None
        }
    }

    /// Requests room for more entries than `usize` counts, which always fails: an entry takes 80
    /// bytes.
    #[cold]
    #[inline(never)]
    fn past_all_memory(&mut self) -> Option<Seat>
        requires { IsWhole self.old }
        ensures rows { rows_of self.new ≡ rows_of self.old }
        ensures whole { IsWhole self.new }
        ensures none { result ≡ None }
    {
        drop(self.first.reserve_exact(usize::MAX));
        None
    }

    /// Splits the list of a place if it is full. Returns the place, which a split moves.
    #[inline(always)]
    fn split_full(&mut self, seat: Seat) -> Seat
        requires whole { IsWhole self.old }
        requires open { IsOpen self.old seat }
        ensures rows { rows_of self.new ≡ rows_of self.old }
        ensures whole { IsWhole self.new }
        ensures seat { IsOpen self.new result × (rows_before self.new result ≡ rows_before self.old seat) × (rows_from self.new result ≡ rows_from self.old seat) }
        ensures len { self.new.len ≡ self.old.len }
    {
        if self.list_len(seat.list) < MOST {
            return seat;
        }
        self.split(seat)
    }

    #[inline(always)]
    fn grow_list(&mut self, number: usize) -> bool
        requires { number < length (lists_of self.old) }
        ensures room { IsTrue result → HasRoom self.new number }
        ensures first { self.new.first.items ≡ self.old.first.items }
        ensures rest { map chunk_view self.new.rest.items ≡ map chunk_view self.old.rest.items }
        ensures len { self.new.len ≡ self.old.len }
    {
        if number == 0 {
            make_room(&mut self.first)
        } else {
            make_room(&mut self.rest[number - 1].entries)
        }
    }

    /// Splits a full list. If an allocation fails, the list stays whole, and grows past its bound.
    #[cold]
    #[inline(never)]
    fn split(&mut self, seat: Seat) -> Seat
        requires whole { IsWhole self.old }
        requires open { IsOpen self.old seat }
        requires some { 1 < length (list_at self.old seat.list) }
        ensures rows { rows_of self.new ≡ rows_of self.old }
        ensures whole { IsWhole self.new }
        ensures seat { IsOpen self.new result × (rows_before self.new result ≡ rows_before self.old seat) × (rows_from self.new result ≡ rows_from self.old seat) }
        ensures len { self.new.len ≡ self.old.len }
    {
        let from = self.middle_for(seat);
        match self.cut_list(seat.list, from) {
            Some(upper) => {
                self.put_chunk(seat.list, upper);
                if seat.at <= from {
                    seat
                } else {
                    Seat {
                        list: seat.list + 1,
                        at: seat.at - from,
                    }
                }
            }
            None => seat,
        }
    }

    /// Where to split a full list for an entry at a place: near the end for an appended entry.
    fn middle_for(&self, seat: Seat) -> usize
        requires list { seat.list < length (lists_of self.now) }
        requires some { 1 < length (list_at self.now seat.list) }
        ensures { (0 < result) × (result < length (list_at self.now seat.list)) }
    {
        let len = self.list_len(seat.list);
        if seat.at == len && seat.list == self.rest.len() {
            len - 1
        } else {
            len / 2
        }
    }

    /// Inserts entries as a chunk behind the list of this number.
    fn put_chunk(&mut self, number: usize, entries: Vec<Entry>)
        requires within { number < length (lists_of self.old) }
        requires some { 0 < length entries.items }
        requires room { vec_len self.old.rest < vec_capacity self.old.rest }
        requires fronted { AreFronted self.old.rest.items }
        ensures lists { lists_of self.new ≡ insert (lists_of self.old) (suc number) (rows entries.items) }
        ensures fronted { AreFronted self.new.rest.items }
        ensures len { self.new.len ≡ self.old.len }
    {
        let front = entries[0].key.front();
        insert_chunk(&mut self.rest, number, Chunk { front, entries });
    }

    /// Splits off the entries from an index on of the list of this number, and makes room for one
    /// more chunk; `None` if an allocation for either fails.
    fn cut_list(&mut self, number: usize, from: usize) -> Option<Vec<Entry>>
        requires list { number < length (lists_of self.old) }
        requires within { (0 < from) × (from < length (list_at self.old number)) }
        requires fronted { AreFronted self.old.rest.items }
        ensures lists { MatchOption result (lists_of self.new ≡ lists_of self.old) (λ upper. (lists_of self.new ≡ slice_set (lists_of self.old) number (take from (list_at self.old number))) × (rows upper.items ≡ drop from (list_at self.old number))) }
        ensures fronted { AreFronted self.new.rest.items }
        ensures len { self.new.len ≡ self.old.len }
        ensures room { IfSome result (λ _. vec_len self.new.rest < vec_capacity self.new.rest) }
    {
        self.rest.reserve(1).ok()?;
        if number == 0 {
            cut(&mut self.first, from)
        } else {
            cut(&mut self.rest[number - 1].entries, from)
        }
    }

    /// Inserts an entry at a place of a list that has room.
    #[inline(always)]
    pub(crate) fn put(&mut self, seat: Seat, key: Key, value: Dynamic)
        requires whole { IsWhole self.old }
        requires open { IsOpen self.old seat }
        requires room { HasRoom self.old seat.list }
        requires between { AreRising (rows_before self.old seat ++ (key, value) ∷ rows_from self.old seat) }
        requires text { IsUtf8 key }
        requires counted { self.old.len + 1 < 2 ^ 64 }
        ensures rows { rows_of self.new ≡ rows_before self.old seat ++ (key, value) ∷ rows_from self.old seat }
        ensures whole { IsWhole self.new }
    {
        self.len += 1;
        if seat.list == 0 {
            put_entry(&mut self.first, seat.at, key, value);
        } else {
            put_in(&mut self.rest[seat.list - 1], seat.at, key, value);
        }
    }

    /// Removes the entry at a place, and its chunk if that becomes empty.
    #[inline(always)]
    pub(crate) fn take(&mut self, seat: Seat) -> Entry
        requires whole { IsWhole self.old }
        requires seated { IsSeated self.old seat }
        ensures entry { row_of result ≡ row_at self.old seat }
        ensures rows { rows_of self.new ≡ rows_before self.old seat ++ rows_past self.old seat }
        ensures whole { IsWhole self.new }
    {
        self.len -= 1;
        if seat.list == 0 {
            return self.first.remove(seat.at);
        }
        let entry = take_in(&mut self.rest[seat.list - 1], seat.at);
        if self.rest[seat.list - 1].entries.is_empty() {
            self.drop_chunk(seat.list - 1);
        }
        entry
    }

    #[cold]
    #[inline(never)]
    fn drop_chunk(&mut self, number: usize)
        requires within { number < length self.old.rest.items }
        requires empty { (d : Chunk) → length (slice_index_or self.old.rest.items number d).entries.items ≡ 0 }
        ensures rest { self.new.rest.items ≡ remove self.old.rest.items number }
        ensures first { self.new.first ≡ self.old.first }
        ensures len { self.new.len ≡ self.old.len }
    {
        let gone = self.rest.remove(number);
        gone.entries.destroy_empty();
    }
}

fn insert_chunk(rest: &mut Vec<Chunk>, at: usize, chunk: Chunk)
    requires within { at ≤ length rest.old.items }
    requires room { vec_len rest.old < vec_capacity rest.old }
    ensures { rest.new.items ≡ insert rest.old.items at chunk }
{
    drop(rest.insert(at, chunk));
}

/// Inserts an entry into a list that has room.
#[inline(always)]
fn put_entry(entries: &mut Vec<Entry>, at: usize, key: Key, value: Dynamic)
    requires within { at ≤ length entries.old.items }
    requires room { vec_len entries.old < vec_capacity entries.old }
    ensures { entries.new.items ≡ insert entries.old.items at (record { key = key; value = value }) }
{
    drop(entries.insert(at, Entry { key, value }));
}

/// Inserts an entry into a chunk that has room.
#[inline(always)]
fn put_in(chunk: &mut Chunk, at: usize, key: Key, value: Dynamic)
    requires within { at ≤ length chunk.old.entries.items }
    requires room { vec_len chunk.old.entries < vec_capacity chunk.old.entries }
    requires front { Begins chunk.old.front chunk.old.entries.items }
    ensures items { chunk.new.entries.items ≡ insert chunk.old.entries.items at (record { key = key; value = value }) }
    ensures front { Begins chunk.new.front chunk.new.entries.items }
{
    if at == 0 {
        chunk.front = key.front();
    }
    put_entry(&mut chunk.entries, at, key, value);
}

/// Removes an entry from a chunk.
#[inline(always)]
fn take_in(chunk: &mut Chunk, at: usize) -> Entry
    requires within { at < length chunk.old.entries.items }
    requires front { Begins chunk.old.front chunk.old.entries.items }
    ensures entry { result ≡ entry_at chunk.old.entries.items at }
    ensures items { chunk.new.entries.items ≡ remove chunk.old.entries.items at }
    ensures front { 0 < length chunk.new.entries.items → Begins chunk.new.front chunk.new.entries.items }
{
    let entry = chunk.entries.remove(at);
    if at == 0 {
        if let Some(first) = chunk.entries.first() {
            chunk.front = first.key.front();
        }
    }
    entry
}
