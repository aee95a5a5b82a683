//! Operators on ranges.
ghost use Rattle.std.specs.Prelude.{◌≡◌, ◌&&◌, true, false, option_map};
ghost use Rattle.std.specs.Ordering.{int_eq};
ghost use Rattle.rhai_value.specs.Tree.{fresh, host};
ghost use Rattle.rhai_value.specs.Parts.{typed_host_of};
ghost use Rattle.rhai_ops.specs.Outcome.{IsOutcome, answers, bool_answer, both};
ghost use Rattle.rhai_ops.specs.Results.{Holds, part as part_in, range, range_type, same_range, unless as unless_it};

use crate::answer::{unless, value};
use rhai_text::EvalAltResult;
use rhai_value::{Dynamic, ExclusiveRange, INT, InclusiveRange, Store};

/// The range between two integers, inclusive or exclusive.
pub(crate) fn between(inclusive: bool, start: INT, end: INT) -> Result<Dynamic, EvalAltResult>
    ensures { IsOutcome ⊥ result (answers (fresh (host (range inclusive start end)))) }
{
    Ok(if inclusive {
        Dynamic::from(InclusiveRange { start, end })
    } else {
        Dynamic::from(ExclusiveRange { start, end })
    })
}

/// Whether two exclusive ranges are equal, or the negation.
pub(crate) fn equal_exclusive(
    negated: bool,
    store: &Store,
    left: &Dynamic,
    right: &Dynamic,
) -> Result<Dynamic, EvalAltResult>
    requires first { Holds (typed_host_of (range_type false)) store.now left.now }
    requires second { Holds (typed_host_of (range_type false)) store.now right.now }
    ensures { IsOutcome ⊥ result (both (λ a b. bool_answer (option_map (unless_it negated) (same_range a b))) (part_in (typed_host_of (range_type false)) store.now left.now) (part_in (typed_host_of (range_type false)) store.now right.now)) }
{
    let a = value::<ExclusiveRange>(left, store);
    let b = value::<ExclusiveRange>(right, store);
    let same = same_ends((a.start, a.end), (b.start, b.end));
    Ok(Dynamic::from_bool(unless(negated, same)))
}

/// The same for two inclusive ranges.
pub(crate) fn equal_inclusive(
    negated: bool,
    store: &Store,
    left: &Dynamic,
    right: &Dynamic,
) -> Result<Dynamic, EvalAltResult>
    requires first { Holds (typed_host_of (range_type true)) store.now left.now }
    requires second { Holds (typed_host_of (range_type true)) store.now right.now }
    ensures { IsOutcome ⊥ result (both (λ a b. bool_answer (option_map (unless_it negated) (same_range a b))) (part_in (typed_host_of (range_type true)) store.now left.now) (part_in (typed_host_of (range_type true)) store.now right.now)) }
{
    let a = value::<InclusiveRange>(left, store);
    let b = value::<InclusiveRange>(right, store);
    let same = same_ends((a.start, a.end), (b.start, b.end));
    Ok(Dynamic::from_bool(unless(negated, same)))
}

fn same_ends(a: (INT, INT), b: (INT, INT)) -> bool
    ensures { result ≡ (int_eq a.0 b.0 && int_eq a.1 b.1) }
{
    a.0 == b.0 && a.1 == b.1
}
