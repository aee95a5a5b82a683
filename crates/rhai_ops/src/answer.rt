//! Shared by the rows: reading an operand's held content, making results, and the test of a limit.
ghost use Rattle.std.specs.Prelude.{◌≡◌, ◌+◌, Some};
ghost use Rattle.rhai_ops.specs.Outcome.{is_allowed as allowed};
ghost use Rattle.rhai_ops.specs.Results.{Holds, part as part_in, unless as unless_it};

use rhai_value::{Dynamic, Part, Store};

/// Borrows the held part of an operand.
pub(crate) fn part<'s, T: Part>(value: &'s Dynamic, store: &'s Store) -> &'s T
    requires { Holds T.part_of store.now value.now }
    ensures { part_in T.part_of store.now value.now ≡ Some (T.meaning result.now) }
{
    value.known_part::<T>(store)
}

/// The same, by value.
pub(crate) fn value<T: Part + Copy>(value: &Dynamic, store: &Store) -> T
    requires { Holds T.part_of store.now value.now }
    ensures { part_in T.part_of store.now value.now ≡ Some (T.meaning result) }
{
    *part::<T>(value, store)
}

/// An equality, or its negation.
pub(crate) fn unless(negated: bool, same: bool) -> bool
    ensures { result ≡ unless_it negated same }
{
    if negated { !same } else { same }
}

/// Whether a limit allows `first` and `more` together. A limit of 0 means none.
pub(crate) fn is_allowed(limit: usize, first: usize, more: usize) -> bool
    ensures { result ≡ allowed limit (first + more) }
{
    if limit == 0 {
        true
    } else if limit < first {
        false
    } else {
        more <= limit - first
    }
}
