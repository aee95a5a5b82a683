//! Ranges as parts of texts and ints.
ghost use Rattle.std.specs.Prelude.{◌<◌, ◌≤◌};

use rhai_packs::bits;
use rhai_target::Slice;
use rhai_value::{Dynamic, ExclusiveRange, INT, InclusiveRange, Store};
use script_faults::FaultKind;

/// Both ends of a range.
#[derive(Clone, Copy)]
pub(crate) struct Bounds {
    pub(crate) start: INT,
    pub(crate) end: INT,
    pub(crate) is_inclusive: bool,
}

/// Returns the ends of a range, if the value is one.
pub(crate) fn bounds_of(value: &Dynamic, store: &Store) -> Option<Bounds> {
    if let Ok(range) = value.as_part::<ExclusiveRange>(store) {
        return Some(Bounds {
            start: range.start,
            end: range.end,
            is_inclusive: false,
        });
    }
    if let Ok(range) = value.as_part::<InclusiveRange>(store) {
        return Some(Bounds {
            start: range.start,
            end: range.end,
            is_inclusive: true,
        });
    }
    None
}

/// Returns the part of a list that a range selects, for a list with this many items. Negative ends
/// count from the end of the list; the end is cut to the list.
/// Errors: a start before the beginning or past the end.
pub(crate) fn slice_of(bounds: Bounds, count: usize) -> Result<Slice, FaultKind> {
    let distance = bounds.start.unsigned_abs() as usize;
    if distance > count {
        return Err(FaultKind::OutOfRange(bounds.start, count));
    }
    let start = if bounds.start < 0 {
        count - distance
    } else {
        distance
    };
    Ok(Slice {
        start,
        end: end_of(bounds, count),
        exclusive: true,
    })
}

/// Returns the index after the last item of a range.
fn end_of(bounds: Bounds, count: usize) -> usize {
    let distance = bounds.end.unsigned_abs() as usize;
    let more = if bounds.is_inclusive { 1 } else { 0 };
    let end = if bounds.end < 0 {
        count.saturating_add(more).saturating_sub(distance)
    } else {
        distance.saturating_add(more)
    };
    end.min(count)
}

/// Returns where the part of a text, a blob or an int begins that a range selects, and its length:
/// negative ends count as 0; a range with its end below its start has length 0, or 1 if the end is
/// included.
/// rhai: the ranges of `sub_string`, `crop`, `write_le` and their like.
pub(crate) fn piece_of(bounds: Bounds) -> (INT, INT) {
    let start = bounds.start.max(0);
    let end = bounds.end.max(start);
    let length = end.saturating_sub(start);
    if bounds.is_inclusive {
        (start, length.saturating_add(1))
    } else {
        (start, length)
    }
}

/// Returns the bits that a range selects, as by `piece_of`; a range with its end below its start
/// selects none.
/// rhai: the ranges of `get_bits` and `set_bits`.
pub(crate) fn field_of(bounds: Bounds) -> (INT, INT) {
    let start = bounds.start.max(0);
    let end = if bounds.is_inclusive {
        bounds.end.saturating_add(1)
    } else {
        bounds.end
    };
    (start, end.max(start).saturating_sub(start))
}

/// Returns how many items a range has from its start on, and where it starts, in a list of this
/// length.
pub(crate) fn span_of(bounds: Bounds, count: usize) -> Result<(INT, INT), FaultKind> {
    let slice = slice_of(bounds, count)?;
    let length = slice.end.saturating_sub(slice.start);
    Ok((
        INT::try_from(slice.start).unwrap_or(INT::MAX),
        INT::try_from(length).unwrap_or(INT::MAX),
    ))
}

/// Bits of an int: a mask, and the number of the lowest bit.
#[derive(Clone, Copy)]
pub(crate) struct Bits {
    pub(crate) mask: INT,
    pub(crate) shift: u8,
}

/// Returns the bits of a range.
/// Errors: an end outside of 0 to 63; an excluded end may be 64.
pub(crate) fn bits_of(bounds: Bounds) -> Result<Bits, FaultKind> {
    let most = if bounds.is_inclusive { 63 } else { 64 };
    if bounds.start < 0 || bounds.start > 63 {
        return Err(FaultKind::OutOfRange(bounds.start, 64));
    }
    if bounds.end < 0 || bounds.end > most {
        return Err(FaultKind::OutOfRange(bounds.end, 64));
    }
    let shift = bounds.start.unsigned_abs();
    let end = if bounds.is_inclusive {
        bounds.end.unsigned_abs() + 1
    } else {
        bounds.end.unsigned_abs()
    };
    Ok(mask_of(shift, end))
}

/// Makes a mask of the bits from one up to another, which is excluded.
fn mask_of(start: u64, end: u64) -> Bits
    requires start { start < 64 }
    requires end { end ≤ 64 }
{
    let count = end.saturating_sub(start);
    Bits {
        mask: bits::mask(start as usize, count as usize),
        shift: start as u8,
    }
}
