//! Functions on ranges of ints. A range that includes its end has functions of its own.
ghost use Rattle.std.specs.Prelude.{◌≡◌, ◌↔◌, ◌<ℤ◌, ◌≤ℤ◌, IsTrue};

use rhai_value::{ExclusiveRange, INT, InclusiveRange};

/// Makes the range of the ints from a start to an end, excluding the end.
/// Cost: constant.
/// rhai: `range`.
pub fn range(start: INT, end: INT) -> ExclusiveRange
    ensures start { result.start ≡ start }
    ensures end { result.end ≡ end }
{
    ExclusiveRange { start, end }
}

/// Returns whether a range that excludes its end contains an int.
/// Cost: constant.
/// rhai: `contains`.
pub fn contains(range: &ExclusiveRange, number: INT) -> bool
    ensures { IsTrue result ↔ ((range.now.start ≤ℤ number) × (number <ℤ range.now.end)) }
{
    range.start <= number && number < range.end
}

/// Returns whether a range that includes its end contains an int.
/// Cost: constant.
/// rhai: `contains`.
pub fn contains_with_end(range: &InclusiveRange, number: INT) -> bool
    ensures { IsTrue result ↔ ((range.now.start ≤ℤ number) × (number ≤ℤ range.now.end)) }
{
    range.start <= number && number <= range.end
}

/// Returns whether a range that excludes its end contains no int.
/// Cost: constant.
/// rhai: `is_empty`.
pub fn is_empty(range: &ExclusiveRange) -> bool
    ensures { IsTrue result ↔ (range.now.end ≤ℤ range.now.start) }
{
    range.end <= range.start
}

/// Returns whether a range that includes its end contains no int.
/// Cost: constant.
/// rhai: `is_empty`.
pub fn is_empty_with_end(range: &InclusiveRange) -> bool
    ensures { IsTrue result ↔ (range.now.end <ℤ range.now.start) }
{
    range.end < range.start
}
