//! List positions given by integers.
ghost use Rattle.std.specs.Prelude.{◌≡◌, ◌-◌};
ghost use Rattle.rhai_target.specs.Offset.{offset, count, place};

use rhai_value::INT;

/// Returns where a slice of a list of this length starts, and how many items it has. A negative
/// start counts from the end; start and length are clamped to the list.
/// rhai: `calc_offset_len`.
pub fn calc_offset_len(length: usize, start: INT, len: INT) -> (usize, usize)
    ensures start { result.0 ≡ offset length start }
    ensures len { result.1 ≡ count (length - offset length start) len }
{
    let distance = start.unsigned_abs() as usize;
    let start = if start < 0 {
        length.saturating_sub(distance)
    } else {
        distance.min(length)
    };
    let left = length - start;
    if len <= 0 {
        return (start, 0);
    }
    (start, left.min(len.unsigned_abs() as usize))
}

/// Returns the position of an item in a list of this length; `None` if there is none. A negative
/// index counts from the end if `negative_count_from_end` is set.
/// rhai: `calc_index`, which calls a function if there is no such item.
pub fn calc_index(length: usize, index: INT, negative_count_from_end: bool) -> Option<usize>
    ensures { result ≡ place length index negative_count_from_end }
{
    let distance = index.unsigned_abs() as usize;
    if index < 0 {
        if !negative_count_from_end || length < distance {
            return None;
        }
        Some(length - distance)
    } else if distance < length {
        Some(distance)
    } else {
        None
    }
}
