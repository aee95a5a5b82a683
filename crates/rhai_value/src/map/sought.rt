//! Sought keys, and how they compare.
ghost use Rattle.std.specs.Prelude.{◌≡◌, ◌<◌, length, IfOk, IfErr};
ghost use Rattle.std.specs.Cmp.Lexicographic.{slice_cmp};
ghost use Rattle.std.specs.Ordering.{nat_cmp};
ghost use Rattle.std.specs.Int.{w64, from_be_bytes};
ghost use Rattle.rhai_value.specs.Lists.{rows, IsHit, IsGap};
ghost use Rattle.rhai_value.specs.Rows.{bytes_cmp, AreRising};

use crate::map::Entry;
use crate::map::key::Key;
use std::cmp::Ordering;
use std::marker::Model;

/// A sought text, with its front. Contracts see its bytes.
#[derive(Drop)]
pub(crate) struct Sought<'a> {
    front: u64,
    text: &'a str,
}

impl<'a> Model for Sought<'a> {
    ghost use Rattle.std.specs.Prelude.{◌≡◌, List, ℕ};
    ghost use Rattle.std.specs.Int.{w64, from_be_bytes};

    ghost Value = { List ℕ };

    ghost view = { λ s. s.text.now };

    ghost invariant = { λ s. s.front ≡ from_be_bytes w64 s.text.now };
}

/// The first eight bytes as a big-endian number, padded with zeros. Numbers compare as the bytes
/// do.
pub(crate) fn front_of(text: &str) -> u64
    ensures { result ≡ from_be_bytes w64 text.now }
{
    let bytes = text.as_bytes();
    if bytes.len() < 8 {
        return short_front(bytes);
    }
    u64::from_be_bytes([
        bytes[0], bytes[1], bytes[2], bytes[3], bytes[4], bytes[5], bytes[6], bytes[7],
    ])
}

/// The front of fewer than eight bytes.
fn short_front(bytes: &[u8]) -> u64
    requires { length bytes.now < 8 }
    ensures { result ≡ from_be_bytes w64 bytes.now }
{
    match bytes.len() {
        0 => 0,
        1 => u64::from_be_bytes([bytes[0], 0, 0, 0, 0, 0, 0, 0]),
        2 => u64::from_be_bytes([bytes[0], bytes[1], 0, 0, 0, 0, 0, 0]),
        3 => u64::from_be_bytes([bytes[0], bytes[1], bytes[2], 0, 0, 0, 0, 0]),
        4 => u64::from_be_bytes([bytes[0], bytes[1], bytes[2], bytes[3], 0, 0, 0, 0]),
        5 => u64::from_be_bytes([bytes[0], bytes[1], bytes[2], bytes[3], bytes[4], 0, 0, 0]),
        6 => u64::from_be_bytes([
            bytes[0], bytes[1], bytes[2], bytes[3], bytes[4], bytes[5], 0, 0,
        ]),
        _ => u64::from_be_bytes([
            bytes[0], bytes[1], bytes[2], bytes[3], bytes[4], bytes[5], bytes[6], 0,
        ]),
    }
}

/// Compares two texts whose fronts are given.
fn order(front: u64, text: &str, other_front: u64, other: &str) -> Ordering
    requires fronts { (front ≡ from_be_bytes w64 text.now) × (other_front ≡ from_be_bytes w64 other.now) }
    ensures { result ≡ slice_cmp nat_cmp text.now other.now }
{
    if front < other_front {
        return Ordering::Less;
    }
    if other_front < front {
        return Ordering::Greater;
    }
    // Two texts of at most eight bytes with the same front differ only by zero bytes at the end, so
    // their lengths decide.
    if text.len() <= 8 && other.len() <= 8 {
        return text.len().cmp(&other.len());
    }
    text.cmp(other)
}

impl<'a> Sought<'a> {
    #[inline(always)]
    pub(crate) fn of(text: &'a str) -> Sought<'a>
        ensures { result ≡ text.now }
    {
        Sought {
            front: front_of(text),
            text,
        }
    }

    /// Compares the text with a key that has this front.
    #[inline(always)]
    pub(crate) fn order_to(&self, front: u64, key: &Key) -> Ordering
        requires { front ≡ from_be_bytes w64 key.now }
        ensures { result ≡ bytes_cmp self.now key.now }
    {
        order(self.front, self.text, front, key.as_str())
    }
}

/// Where the sought key is in a sorted list of entries, or otherwise where it would be.
#[inline(always)]
pub(crate) fn place_in(entries: &[Entry], sought: &Sought) -> Result<usize, usize>
    requires { AreRising (rows entries.now) }
    ensures found { IfOk result (IsHit sought.now (rows entries.now)) }
    ensures absent { IfErr result (IsGap sought.now (rows entries.now)) }
{
    let mut low = 0;
    let mut high = entries.len();
    while low < high {
        let middle = low + (high - low) / 2;
        match order_to_entry(sought, &entries[middle]) {
            Ordering::Less => high = middle,
            Ordering::Equal => return Ok(middle),
            Ordering::Greater => low = middle + 1,
        }
    }
    Err(low)
}

#[inline(always)]
fn order_to_entry(sought: &Sought, entry: &Entry) -> Ordering
    ensures { result ≡ bytes_cmp sought.now entry.now.key }
{
    sought.order_to(entry.key.front(), &entry.key)
}
