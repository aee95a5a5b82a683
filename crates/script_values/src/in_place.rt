//! Writes in place.
ghost use Rattle.std.specs.Prelude.{◌≡◌, ◌&&◌, true, false, not, IfOk, IfSome, Some, Ok, ℤ, is_some};
ghost use Rattle.rhai_value.specs.Parts.{int_of};
ghost use Rattle.rhai_value.specs.Tree.{cell_of, fresh, int, is_constant, mode_of};
ghost use Rattle.rhai_ops.specs.Numbers as numbers;

use rhai_ops::int_answer;
use rhai_text::Token;
use rhai_value::{AccessMode, Dynamic, INT, Union};

/// Overwrites a value that is neither a holder nor constant with an int, and returns whether it
/// did. An int is written in place.
/// Cost: constant, and the drop of the previous value; no memory.
#[inline(always)]
pub fn put_int(place: &mut Dynamic, number: INT) -> bool
    ensures done { result ≡ not (is_some (cell_of place.old)) && not (is_constant (mode_of place.old)) }
    ensures written { result ≡ true → place.new ≡ fresh (int number) }
    ensures stays { result ≡ false → place.new ≡ place.old }
{
    if let Union::Int(0, AccessMode::ReadWrite, held) = place.parts_mut() {
        *held = number;
        return true;
    }
    if place.is_shared() || place.access_mode() == AccessMode::ReadOnly {
        return false;
    }
    *place = Dynamic::from_int(number);
    true
}

/// Overwrites an int that isn't constant with an operator's result for it and another int, and
/// returns whether it did: it does if there is a result.
/// Cost: constant; no memory.
#[inline(always)]
pub fn change_int(op: Token, place: &mut Dynamic, number: INT) -> bool
    ensures done { (x n : ℤ) → place.old ≡ fresh (int x) → numbers.number op x number ≡ Some (Ok n) → result ≡ true }
    ensures written { result ≡ true → IfSome (int_of place.old) (λ x. IfSome (numbers.number op x number) (λ r. IfOk r (λ n. place.new ≡ fresh (int n)))) }
    ensures stays { result ≡ false → place.new ≡ place.old }
{
    let Union::Int(0, AccessMode::ReadWrite, held) = place.parts() else {
        return false;
    };
    match int_answer(op, *held, number) {
        Some(Ok(answer)) => put_int(place, answer),
        Some(Err(_)) | None => false,
    }
}
