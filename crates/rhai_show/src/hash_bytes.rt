//! The hash bytes of values without children, and of names and counts. One allocation for the bytes
//! of a value.
ghost use Rattle.std.specs.Prelude.{◌≡◌, ◌++◌, ◌∷◌, ◌+◌, ◌*◌, ◌%◌, length, take, FitsSigned, OnOk};
ghost use Rattle.std.specs.Int.{w64, to_le_bytes};
ghost use Rattle.std.specs.List.{flat_map};
ghost use Rattle.std.specs.Str.{chars};
ghost use Rattle.rhai_value.specs.Tree.{bool as a_bool, char as a_char, int as an_int, text as a_text, blob as a_blob, host as a_host};
ghost use Rattle.rhai_show.specs.HashBytes.{count_bytes, int_bytes, sized, name_bytes, leaf_bytes};
ghost use Rattle.rhai_show.specs.InRange.{IsCount, IsName, IsLeaf};
ghost use Rattle.rhai_show.specs.Shape.{leaf_of};

use crate::shape::Leaf;
use rhai_text::ImmutableString;
use rhai_value::{Host, INT};
use std::alloc::AllocError;

/// The number of bytes of a kind followed by a number.
pub(crate) const FRONT_BYTES: usize = 9;

/// The place value of the last of a number's eight bytes.
const LAST_BYTE: u64 = 0x100_0000_0000_0000;

/// Makes the bytes of a kind, a number and padding zeros, as two words.
pub(crate) fn front(kind: u8, number: u64) -> [[u8; 8]; 2]
    ensures { take FRONT_BYTES (flat_map (λ w. w) result) ≡ kind ∷ to_le_bytes w64 number }
{
    let last = (number / LAST_BYTE) as u8;
    [
        word(kind, number).to_le_bytes(),
        word(last, 0).to_le_bytes(),
    ]
}

/// A byte followed by all bytes of a number but the last. It is a call, so that they are written at
/// once, as a hasher reads them: otherwise store forwarding stalls.
#[inline(never)]
fn word(first: u8, number: u64) -> u64
    ensures { result ≡ number % LAST_BYTE * 256 + first }
{
    number % LAST_BYTE * 256 + first as u64
}

/// Appends a kind followed by a number.
fn add_front(out: &mut Vec<u8>, kind: u8, number: u64) -> Result<(), AllocError>
    ensures { OnOk result (out.new.items ≡ out.old.items ++ kind ∷ to_le_bytes w64 number) }
{
    add_bytes(out, &front(kind, number).as_flattened()[..FRONT_BYTES])
}

/// Appends the hash bytes of a leaf.
#[inline(always)]
pub(crate) fn add_leaf(out: &mut Vec<u8>, leaf: Leaf) -> Result<(), AllocError>
    ensures bytes { OnOk result (out.new.items ≡ out.old.items ++ leaf_bytes (leaf_of leaf.entry)) }
    ensures range { OnOk result (IsLeaf (leaf_of leaf.entry)) }
{
    match leaf {
        Leaf::Unit => add_bytes(out, &[0]),
        Leaf::Bool(truth) => add_bool(out, truth),
        Leaf::Int(number) => add_int(out, number),
        Leaf::Char(character) => add_char(out, character),
        Leaf::Text(text) => add_text(out, text),
        Leaf::Blob(bytes) => add_blob(out, bytes),
        Leaf::Host(host) => add_host(out, host),
    }
}

/// Appends bytes.
pub(crate) fn add_bytes(out: &mut Vec<u8>, bytes: &[u8]) -> Result<(), AllocError>
    ensures { OnOk result (out.new.items ≡ out.old.items ++ bytes.now) }
{
    out.extend_from_slice(bytes)
}

fn add_bool(out: &mut Vec<u8>, value: bool) -> Result<(), AllocError>
    ensures { OnOk result (out.new.items ≡ out.old.items ++ leaf_bytes (a_bool value)) }
{
    if value {
        add_bytes(out, &[1, 1])
    } else {
        add_bytes(out, &[1, 0])
    }
}

fn add_char(out: &mut Vec<u8>, value: char) -> Result<(), AllocError>
    ensures bytes { OnOk result (out.new.items ≡ out.old.items ++ leaf_bytes (a_char value)) }
    ensures range { OnOk result (IsLeaf (a_char value)) }
{
    out.reserve(5)?;
    out.push_reserved(3);
    add_bytes(out, &(value as u32).to_le_bytes())
}

fn add_int(out: &mut Vec<u8>, value: &INT) -> Result<(), AllocError>
    ensures bytes { OnOk result (out.new.items ≡ out.old.items ++ leaf_bytes (an_int value.now)) }
    ensures range { OnOk result (IsLeaf (an_int value.now)) }
{
    out.reserve(9)?;
    out.push_reserved(4);
    add_number(out, value)
}

fn add_text(out: &mut Vec<u8>, value: &ImmutableString) -> Result<(), AllocError>
    ensures bytes { OnOk result (out.new.items ≡ out.old.items ++ leaf_bytes (a_text value.now)) }
    ensures range { OnOk result (IsLeaf (a_text value.now)) }
{
    add_kind_sized(out, 2, value.as_str().as_bytes())
}

fn add_blob(out: &mut Vec<u8>, value: &[u8]) -> Result<(), AllocError>
    ensures bytes { OnOk result (out.new.items ≡ out.old.items ++ leaf_bytes (a_blob value.now)) }
    ensures range { OnOk result (IsLeaf (a_blob value.now)) }
{
    add_kind_sized(out, 6, value)
}

/// Appends a kind, and bytes prefixed by their number.
fn add_kind_sized(out: &mut Vec<u8>, kind: u8, bytes: &[u8]) -> Result<(), AllocError>
    ensures bytes { OnOk result (out.new.items ≡ out.old.items ++ kind ∷ sized bytes.now) }
    ensures range { OnOk result (IsCount (length bytes.now)) }
{
    out.reserve(bytes.len() + FRONT_BYTES)?;
    add_front(out, kind, bytes.len() as u64)?;
    add_bytes(out, bytes)
}

/// Appends bytes, prefixed by their number.
fn add_sized(out: &mut Vec<u8>, bytes: &[u8]) -> Result<(), AllocError>
    ensures bytes { OnOk result (out.new.items ≡ out.old.items ++ sized bytes.now) }
    ensures range { OnOk result (IsCount (length bytes.now)) }
{
    add_count(out, bytes.len())?;
    add_bytes(out, bytes)
}

/// Appends the number of bytes, items or entries that follow.
pub(crate) fn add_count(out: &mut Vec<u8>, count: usize) -> Result<(), AllocError>
    ensures bytes { OnOk result (out.new.items ≡ out.old.items ++ count_bytes count) }
    ensures range { OnOk result (IsCount count) }
{
    add_bytes(out, &count.to_le_bytes())
}

/// Appends a key or a name.
pub(crate) fn add_name(out: &mut Vec<u8>, name: &str) -> Result<(), AllocError>
    ensures bytes { OnOk result (out.new.items ≡ out.old.items ++ name_bytes (chars name.now)) }
    ensures range { OnOk result (IsName (chars name.now)) }
{
    add_sized(out, name.as_bytes())
}

/// Appends the eight bytes of an integer.
fn add_number(out: &mut Vec<u8>, value: &INT) -> Result<(), AllocError>
    ensures bytes { OnOk result (out.new.items ≡ out.old.items ++ int_bytes value.now) }
    ensures range { OnOk result (FitsSigned w64 value.now) }
{
    add_bytes(out, &value.to_le_bytes())
}

fn add_host(out: &mut Vec<u8>, value: &Host) -> Result<(), AllocError>
    ensures bytes { OnOk result (out.new.items ≡ out.old.items ++ leaf_bytes (a_host value.now)) }
    ensures range { OnOk result (IsLeaf (a_host value.now)) }
{
    match *value {
        Host::U8(n) => add_width(out, 0, &[n]),
        Host::U16(n) => add_width(out, 1, &n.to_le_bytes()),
        Host::U32(n) => add_width(out, 2, &n.to_le_bytes()),
        Host::U64(n) => add_width(out, 3, &n.to_le_bytes()),
        Host::U128(n) => add_width(out, 4, &n.to_le_bytes()),
        Host::I8(n) => add_width(out, 5, &n.to_le_bytes()),
        Host::I16(n) => add_width(out, 6, &n.to_le_bytes()),
        Host::I32(n) => add_width(out, 7, &n.to_le_bytes()),
        Host::I128(n) => add_width(out, 8, &n.to_le_bytes()),
        Host::ExclusiveRange(range) => add_range(out, 9, &range.start, &range.end),
        Host::InclusiveRange(range) => add_range(out, 10, &range.start, &range.end),
    }
}

/// Appends the kind of a host value, the kind of a number and its bytes.
fn add_width(out: &mut Vec<u8>, kind: u8, number: &[u8]) -> Result<(), AllocError>
    ensures { OnOk result (out.new.items ≡ out.old.items ++ 9 ∷ kind ∷ number.now) }
{
    out.reserve(number.len() + 2)?;
    out.push_reserved(9);
    out.push_reserved(kind);
    add_bytes(out, number)
}

/// Appends the kind of a host value, the kind of a range and its two ends.
fn add_range(out: &mut Vec<u8>, kind: u8, start: &INT, end: &INT) -> Result<(), AllocError>
    ensures bytes { OnOk result (out.new.items ≡ out.old.items ++ (9 ∷ kind ∷ int_bytes start.now ++ int_bytes end.now)) }
    ensures range { OnOk result (FitsSigned w64 start.now × FitsSigned w64 end.now) }
{
    out.reserve(18)?;
    out.push_reserved(9);
    out.push_reserved(kind);
    add_number(out, start)?;
    add_number(out, end)
}
