//! Ints and texts in the bytes of blobs. If the part is empty, nothing is done.

use crate::argument_values::{Arguments, int, text};
use crate::bounds::{bounds_of, piece_of};
use crate::walks::span_at;
use rhai_packs::blobs;
use rhai_value::{Blob, Dynamic, INT, Store};
use script_faults::FaultKind;
use script_natives::ByteOrder;

/// The part of a blob that the arguments select, and the argument after them.
#[derive(Drop)]
struct Part<'a> {
    index: INT,
    count: INT,
    rest: &'a Dynamic,
}

/// Returns the part of a range, or a number of bytes from an index on.
fn part_of<'a>(arguments: &'a Arguments, store: &Store) -> Result<Part<'a>, FaultKind> {
    match bounds_of(&arguments.first, store) {
        Some(bounds) => {
            let (index, count) = piece_of(bounds);
            Ok(Part {
                index,
                count,
                rest: &arguments.second,
            })
        }
        None => Ok(Part {
            index: int(&arguments.first, store)?,
            count: int(&arguments.second, store)?,
            rest: &arguments.third,
        }),
    }
}

/// Reads an int from the bytes that the arguments select.
pub(crate) fn int_in(
    bytes: &Blob,
    arguments: &Arguments,
    order: ByteOrder,
    store: &Store,
) -> Result<INT, FaultKind> {
    let part = part_of(arguments, store)?;
    match order {
        ByteOrder::Little => Ok(blobs::parse_le_int(bytes, part.index, part.count)),
        ByteOrder::Big => Ok(blobs::parse_be_int(bytes, part.index, part.count)),
    }
}

/// Writes an int where the arguments say.
pub(crate) fn put_int_in(
    bytes: &mut Blob,
    arguments: &Arguments,
    order: ByteOrder,
    store: &Store,
) -> Result<(), FaultKind> {
    let part = part_of(arguments, store)?;
    let number = int(part.rest, store)?;
    match order {
        ByteOrder::Little => blobs::write_le(bytes, part.index, part.count, number),
        ByteOrder::Big => blobs::write_be(bytes, part.index, part.count, number),
    }
    Ok(())
}

/// Writes the bytes of a text where the arguments say, or only its ASCII characters.
pub(crate) fn put_text_in(
    bytes: &mut Blob,
    arguments: &Arguments,
    is_ascii: bool,
    store: &Store,
) -> Result<(), FaultKind> {
    let part = part_of(arguments, store)?;
    let put = text(part.rest, store)?;
    if is_ascii {
        blobs::write_ascii(bytes, part.index, part.count, put);
    } else {
        blobs::write_utf8(bytes, part.index, part.count, put);
    }
    Ok(())
}

/// Returns how many bytes a call of these functions visits.
pub(crate) fn bytes_meant(count: usize, arguments: &Arguments, store: &Store) -> usize {
    match part_of(arguments, store) {
        Ok(part) => span_at(count, part.index, part.count).length,
        Err(_) => 0,
    }
}
