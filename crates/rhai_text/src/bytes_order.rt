//! Equality and order of texts by their bytes; long ones are compared sixty-four and sixteen bytes
//! at a time.
ghost use Rattle.std.specs.Prelude.{◌≡◌, ◌+◌, ◌<◌, ◌≤◌, length, min, nat_eq};
ghost use Rattle.std.specs.Cmp.Lexicographic.{pointwise, slice_cmp};
ghost use Rattle.std.specs.Ordering.{nat_cmp};
ghost use Rattle.std.specs.Slice.Scan.{differ, HoldsNowhere, IsFirstPlace, Marks};

use std::cmp::Ordering;
use std::simd::prelude::*;

// The number of bytes compared at once.
const MANY: usize = 64;

const SOME: usize = 16;

const FEW: usize = 8;

// For up to this many bytes the standard library's equality is as fast. It is compiled separately
// for each range of lengths.
pub(crate) fn equal_texts(a: &str, b: &str) -> bool
    ensures { result ≡ pointwise nat_eq a.now b.now }
{
    if a.len() < FEW {
        return a == b;
    }
    if a.len() != b.len() {
        return false;
    }
    if a.len() < SOME {
        return a == b;
    }
    if a.len() <= MANY {
        return a == b;
    }
    equal_bytes(a.as_bytes(), b.as_bytes())
}

// For texts not much longer than one run, two runs, which may overlap, cover everything. Texts with
// a common beginning mostly differ at the end.
fn equal_bytes(a: &[u8], b: &[u8]) -> bool
    requires { (MANY ≤ length a.now) × (length a.now ≡ length b.now) }
    ensures { result ≡ pointwise nat_eq a.now b.now }
{
    let len = a.len();
    if marks::<MANY>(a, b, len - MANY) != 0 {
        return false;
    }
    if len <= 2 * MANY {
        return marks::<MANY>(a, b, 0) == 0;
    }
    first_apart(a, b, len) == len
}

pub(crate) fn order_of_texts(a: &str, b: &str) -> Ordering
    ensures { result ≡ slice_cmp nat_cmp a.now b.now }
{
    let both = a.len().min(b.len());
    if both < SOME {
        return a.cmp(b);
    }
    order_of_bytes(a.as_bytes(), b.as_bytes(), both)
}

fn order_of_bytes(a: &[u8], b: &[u8], both: usize) -> Ordering
    requires { (both ≡ min (length a.now) (length b.now)) × (SOME ≤ both) }
    ensures { result ≡ slice_cmp nat_cmp a.now b.now }
{
    let at = first_apart(a, b, both);
    if at < both {
        return a[at].cmp(&b[at]);
    }
    a.len().cmp(&b.len())
}

// The first place where the bytes differ, or `to`. Most texts that differ do so near the front.
fn first_apart(a: &[u8], b: &[u8], to: usize) -> usize
    requires { (SOME ≤ to) × (to ≤ length a.now) × (to ≤ length b.now) }
    ensures { IsFirstPlace (differ a.now b.now) 0 to result }
{
    let front = marks::<SOME>(a, b, 0);
    if front != 0 {
        return front.trailing_zeros() as usize;
    }
    let mut at = past_many(a, b, SOME, to);
    while SOME < to - at {
        let found = marks::<SOME>(a, b, at);
        if found != 0 {
            return at + found.trailing_zeros() as usize;
        }
        at += SOME;
    }
    let last = marks::<SOME>(a, b, to - SOME);
    if last == 0 {
        return to;
    }
    to - SOME + last.trailing_zeros() as usize
}

// Skips each run of `MANY` bytes that is equal on both sides.
fn past_many(a: &[u8], b: &[u8], from: usize, to: usize) -> usize
    requires { (from ≤ to) × (to ≤ length a.now) × (to ≤ length b.now) }
    ensures { (from ≤ result) × (result ≤ to) × HoldsNowhere (differ a.now b.now) from result }
{
    let mut at = from;
    while MANY <= to - at && marks::<MANY>(a, b, at) == 0 {
        at += MANY;
    }
    at
}

// A bit for each of the N bytes from `at` on, set if they differ, the first one lowest.
fn marks<const N: usize>(a: &[u8], b: &[u8], at: usize) -> u64
    requires { (0 < N) × (N ≤ 64) × (at + N ≤ length a.now) × (at + N ≤ length b.now) }
    ensures { Marks (differ a.now b.now) at N result }
{
    Simd::<u8, N>::from_slice(&a[at..])
        .simd_ne(Simd::from_slice(&b[at..]))
        .to_bitmask()
}
