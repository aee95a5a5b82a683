//! Where the entries of a map are.
ghost use Rattle.std.specs.Prelude.{◌≡◌, ◌+◌, ◌<◌, ◌≤◌, ◌^◌, ◌++◌, ℕ, [], length, take, drop, map, slice_index_or, IfOk, IfErr, IfSome, MatchOption};
ghost use Rattle.rhai_value.specs.Lists.{chunk_rows, joined, lists_of, rows, rows_of, AreAbove, AreBelow, AreFronted, Begins, IsWhole, Row};
ghost use Rattle.rhai_value.specs.Rows.{bytes_cmp, AreRising, Rows};
ghost use Rattle.rhai_value.specs.Seats.{list_at, row_at, rows_before, rows_from, IsFound, IsMissing, IsOpen, IsSeated};

use crate::map::key::Key;
use crate::map::sought::{Sought, place_in};
use crate::map::{Chunk, Entry, MapParts};
use crate::value::dynamic::Dynamic;
use std::cmp::Ordering;

/// Where an entry is or would be: the number of the list, the first being 0, and the index in it.
#[derive(Copy, Clone)]
pub(crate) struct Seat {
    pub(crate) list: usize,
    pub(crate) at: usize,
}

/// Compares the sought key with the first one of a chunk.
#[inline(always)]
fn order_to_chunk(sought: &Sought, chunk: &Chunk) -> Ordering
    requires { Begins chunk.now.front chunk.now.entries.items }
    ensures some { 0 < length (chunk_rows chunk.now) }
    ensures order { (d : Row) → result ≡ bytes_cmp sought.now (slice_index_or (chunk_rows chunk.now) 0 d).0 }
{
    sought.order_to(chunk.front, &chunk.entries[0].key)
}

/// The number of chunks that don't begin past a key: if a chunk has the key, it is the last of
/// these.
#[inline(always)]
fn chunks_to(rest: &[Chunk], sought: &Sought) -> usize
    requires fronted { AreFronted rest.now }
    requires rising { AreRising (joined (map chunk_rows rest.now)) }
    ensures bound { result ≤ length rest.now }
    ensures above { AreAbove bytes_cmp sought.now (joined (drop result (map chunk_rows rest.now))) }
    ensures below { (m : ℕ) → result ≡ m + 1 → (xs : Rows) → AreRising (xs ++ joined (map chunk_rows rest.now)) → AreBelow bytes_cmp sought.now (xs ++ joined (take m (map chunk_rows rest.now))) }
{
    let mut low = 0;
    let mut high = rest.len();
    while low < high {
        let middle = low + (high - low) / 2;
        match order_to_chunk(sought, &rest[middle]) {
            Ordering::Less => high = middle,
            Ordering::Equal => low = middle + 1,
            Ordering::Greater => low = middle + 1,
        }
    }
    low
}

impl MapParts {
    /// Borrows the list of this number.
    #[inline(always)]
    fn list(&self, number: usize) -> &Vec<Entry>
        requires { number < length (lists_of self.now) }
        ensures { rows result.now.items ≡ list_at self.now number }
    {
        if number == 0 {
            &self.first
        } else {
            let chunk = &self.rest[number - 1];
            &chunk.entries
        }
    }

    /// Where a key is, or otherwise where it would be.
    #[inline(always)]
    pub(crate) fn seat(&self, sought: &Sought) -> Result<Seat, Seat>
        requires { IsWhole self.now }
        ensures found { IfOk result (IsFound sought.now self.now) }
        ensures missing { IfErr result (IsMissing sought.now self.now) }
    {
        let list = chunks_to(self.rest.as_slice(), sought);
        match place_in(self.list(list).as_slice(), sought) {
            Ok(at) => Ok(Seat { list, at }),
            Err(at) => Err(Seat { list, at }),
        }
    }

    /// Borrows the value at a place.
    #[inline(always)]
    pub(crate) fn value_at(&self, seat: Seat) -> &Dynamic
        requires { IsSeated self.now seat }
        ensures { result.now ≡ (row_at self.now seat).1 }
    {
        let entries = self.list(seat.list);
        &entries[seat.at].value
    }

    /// The place itself if it has an entry, and otherwise the place of the next entry.
    #[inline(always)]
    pub(crate) fn seat_from(&self, seat: Seat) -> Option<Seat>
        requires whole { IsWhole self.now }
        requires open { IsOpen self.now seat }
        ensures from { MatchOption result (rows_from self.now seat ≡ []) (λ s. IsSeated self.now s × (rows_before self.now s ≡ rows_before self.now seat) × (rows_from self.now s ≡ rows_from self.now seat)) }
        ensures fits { IfSome result (λ s. s.at + 1 < 2 ^ 64) }
    {
        if seat.at < self.list_len(seat.list) {
            return Some(seat);
        }
        if seat.list == self.rest.len() {
            return None;
        }
        Some(Seat {
            list: seat.list + 1,
            at: 0,
        })
    }

    /// The number of entries in the list of this number.
    #[inline(always)]
    pub(crate) fn list_len(&self, number: usize) -> usize
        requires { number < length (lists_of self.now) }
        ensures { result ≡ length (list_at self.now number) }
    {
        self.list(number).len()
    }

    /// The key at a place.
    #[inline(always)]
    pub(crate) fn key_at(&self, seat: Seat) -> &Key
        requires { IsSeated self.now seat }
        ensures { result.now ≡ (row_at self.now seat).0 }
    {
        let entries = self.list(seat.list);
        &entries[seat.at].key
    }
}
