//! Ints and texts in the bytes of a blob. A part begins at an index and has up to `count` bytes; an
//! index before the front means the front. Bytes past the end of the blob are neither read nor
//! written.
ghost use Rattle.std.specs.Prelude.{◌≡◌, ◌<◌, ◌≤◌, ◌+◌, ◌-◌, length, min, take, nat_lt};
ghost use Rattle.std.specs.Int.{cast_signed, cast_unsigned, from_be_bytes, from_le_bytes, to_be_bytes, to_le_bytes, w64};
ghost use Rattle.std.specs.List.{filter};
ghost use Rattle.rhai_packs.specs.Places.{after, cut_place as place_of_cut, first_of, part_count};
ghost use Rattle.rhai_packs.specs.Written.{ascii_of, eight, overwritten, written};

use crate::places::{at_most, cut_place};
use rhai_value::{Blob, INT};

/// Reads an int from a part, its lowest byte first. Of the eight bytes of an int, those that the
/// part doesn't have are 0.
/// Cost: constant.
/// rhai: `parse_le_int`.
pub fn parse_le_int(bytes: &Blob, index: INT, count: INT) -> INT
    ensures { result ≡ cast_signed w64 (from_le_bytes w64 (eight (first_of (after bytes.now.items index) count))) }
{
    INT::from_le_bytes(eight_of(bytes, index, count))
}

/// Reads an int from a part, its highest byte first. Of the eight bytes of an int, those that the
/// part doesn't have are 0.
/// Cost: constant.
/// rhai: `parse_be_int`.
pub fn parse_be_int(bytes: &Blob, index: INT, count: INT) -> INT
    ensures { result ≡ cast_signed w64 (from_be_bytes w64 (eight (first_of (after bytes.now.items index) count))) }
{
    INT::from_be_bytes(eight_of(bytes, index, count))
}

/// Writes an int to a part, its lowest byte first, as far as the part goes.
/// Cost: constant.
/// rhai: `write_le`.
pub fn write_le(bytes: &mut Blob, index: INT, count: INT, number: INT)
    ensures { bytes.new.items ≡ written bytes.old.items index (first_of (to_le_bytes w64 (cast_unsigned w64 number)) count) }
{
    write(bytes, index, count, &number.to_le_bytes());
}

/// Writes an int to a part, its highest byte first, as far as the part goes.
/// Cost: constant.
/// rhai: `write_be`.
pub fn write_be(bytes: &mut Blob, index: INT, count: INT, number: INT)
    ensures { bytes.new.items ≡ written bytes.old.items index (first_of (to_be_bytes w64 (cast_unsigned w64 number)) count) }
{
    write(bytes, index, count, &number.to_be_bytes());
}

/// Writes the bytes of a text to a part, as far as the part goes.
/// Cost: the number of bytes written.
/// rhai: `write_utf8`.
pub fn write_utf8(bytes: &mut Blob, index: INT, count: INT, text: &str)
    ensures { bytes.new.items ≡ written bytes.old.items index (first_of text.now count) }
{
    write(bytes, index, count, text.as_bytes());
}

/// Writes the ASCII characters of a text to a part, as far as the part goes.
/// Cost: the length of the text.
/// rhai: `write_ascii`.
pub fn write_ascii(bytes: &mut Blob, index: INT, count: INT, text: &str)
    ensures { bytes.new.items ≡ written bytes.old.items index (first_of (ascii_of text.now) count) }
{
    let start = cut_place(bytes.len(), index);
    let end = start + at_most(bytes.len() - start, count);
    put_ascii(bytes, start, end, text);
}

/// The first eight bytes of a part, with zeros after its end.
fn eight_of(bytes: &Blob, index: INT, count: INT) -> [u8; 8]
    ensures { result ≡ eight (first_of (after bytes.now.items index) count) }
{
    let start = cut_place(bytes.len(), index);
    let len = at_most(bytes.len() - start, count).min(8);
    let mut room = [0; 8];
    room[..len].copy_from_slice(&bytes.as_slice()[start..start + len]);
    room
}

/// Writes the first `count` of these bytes from an index on, up to the end of the blob.
fn write(bytes: &mut Blob, index: INT, count: INT, part: &[u8])
    ensures { bytes.new.items ≡ written bytes.old.items index (first_of part.now count) }
{
    let start = cut_place(bytes.len(), index);
    let len = at_most(part.len(), count).min(bytes.len() - start);
    bytes.as_mut_slice()[start..start + len].copy_from_slice(&part[..len]);
}

/// Writes the ASCII characters of a text from a place on, up to another.
fn put_ascii(bytes: &mut Blob, start: usize, end: usize, text: &str)
    requires order { start ≤ end }
    requires bound { end ≤ length bytes.old.items }
    ensures { bytes.new.items ≡ overwritten bytes.old.items start (take (end - start) (ascii_of text.now)) }
{
    let mut place = start;
    for byte in text.as_bytes() {
        if place == end {
            break;
        }
        if *byte < 128 {
            bytes[place] = *byte;
            place += 1;
        }
    }
}
