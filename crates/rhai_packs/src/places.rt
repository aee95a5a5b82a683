//! The meaning of a script's indices and lengths in a list.
ghost use Rattle.std.specs.Prelude.{◌≡◌, ◌≤◌};
ghost use Rattle.rhai_packs.specs.Places.{cut_place as place_of_cut, part_count, missing as missing_of};

use rhai_value::INT;

/// The place of a split: a negative index counts from the end, and one out of range means the
/// nearer end.
pub(crate) fn cut_place(length: usize, index: INT) -> usize
    ensures place { result ≡ place_of_cut length index }
    ensures bound { result ≤ length }
{
    let distance = index.unsigned_abs() as usize;
    if index < 0 {
        length.saturating_sub(distance)
    } else {
        distance.min(length)
    }
}

/// The number of items, at most `count`; 0 for a negative number.
pub(crate) fn at_most(count: usize, wanted: INT) -> usize
    ensures number { result ≡ part_count count wanted }
    ensures bound { result ≤ count }
{
    if wanted < 0 {
        return 0;
    }
    count.min(wanted.unsigned_abs() as usize)
}

/// The number of items missing up to a wanted length.
pub(crate) fn missing(length: usize, wanted: INT) -> usize
    ensures { result ≡ missing_of length wanted }
{
    if wanted < 0 {
        return 0;
    }
    (wanted.unsigned_abs() as usize).saturating_sub(length)
}
