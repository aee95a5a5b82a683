//! The 64 bits of ints. A negative bit number counts from the end.

use crate::argument_values::mismatched_range;
use crate::bounds::{bounds_of, field_of};
use rhai_packs::bits;
use rhai_value::{Dynamic, INT, Store};
use script_faults::FaultKind;

/// Returns whether a bit is set.
pub(crate) fn is_bit_set(number: INT, bit: INT) -> Result<bool, FaultKind> {
    match bits::get_bit(number, bit) {
        Some(is_set) => Ok(is_set),
        None => Err(no_bit(bit)),
    }
}

/// Returns the int of this many bits from one on.
pub(crate) fn bits_in(number: INT, bit: INT, count: INT) -> Result<INT, FaultKind> {
    match bits::get_bits(number, bit, count) {
        Some(bits) => Ok(bits),
        None => Err(no_bit(bit)),
    }
}

/// Returns the int of the bits of a range.
pub(crate) fn bits_from(number: INT, range: &Dynamic, store: &Store) -> Result<INT, FaultKind> {
    let (bit, count) = span_of(range, store)?;
    bits_in(number, bit, count)
}

/// Sets a bit of an int to this value.
pub(crate) fn set_bit(number: &mut INT, bit: INT, is_set: bool) -> Result<(), FaultKind> {
    if bits::set_bit(number, bit, is_set) {
        Ok(())
    } else {
        Err(no_bit(bit))
    }
}

/// Replaces this many bits, from one on, by the low bits of another int.
pub(crate) fn replace_bits(
    number: &mut INT,
    bit: INT,
    count: INT,
    bits: INT,
) -> Result<(), FaultKind> {
    if bits::set_bits(number, bit, count, bits) {
        Ok(())
    } else {
        Err(no_bit(bit))
    }
}

/// Replaces the bits of a range by the low bits of another int.
pub(crate) fn replace_range(
    number: &mut INT,
    range: &Dynamic,
    bits: INT,
    store: &Store,
) -> Result<(), FaultKind> {
    let (bit, count) = span_of(range, store)?;
    replace_bits(number, bit, count, bits)
}

/// Returns the first bit of a range, and how many bits it has.
fn span_of(range: &Dynamic, store: &Store) -> Result<(INT, INT), FaultKind> {
    match bounds_of(range, store) {
        Some(bounds) => Ok(field_of(bounds)),
        None => Err(mismatched_range(range, store)),
    }
}

fn no_bit(bit: INT) -> FaultKind {
    FaultKind::OutOfRange(bit, 64)
}
