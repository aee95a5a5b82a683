//! Operators on characters.
ghost use Rattle.std.specs.Prelude.{IsTrue, ◌≡◌, ◌≤◌, ◌∷◌, [], length};
ghost use Rattle.std.specs.Str.{chars, encode_utf8_all};
ghost use Rattle.std.specs.Ordering.{nat_cmp};
ghost use Rattle.rhai_ops.specs.Numbers as specs;
ghost use Rattle.rhai_value.specs.Tree.{fresh, text as a_text};
ghost use Rattle.rhai_ops.specs.Outcome.{IsOutcome, answers, bool_answer, limited_text};
ghost use Rattle.rhai_ops.specs.Results.{joined_to_char, text_order};
ghost use Rattle.rhai_ops.specs.Tokens.{is_cmp};

use crate::answer::is_allowed;
use crate::compare::holds;
use rhai_text::laws::byte_order_is_character_order;
use rhai_text::{EvalAltResult, ImmutableString, Limits, Position, SizeKind, Token};
use rhai_value::Dynamic;
use std::alloc::Global;
use std::cmp::Ordering;

/// The text of a character, in the buffer.
#[tactic(auto, using(crate::proofs::Lengths::spelled_characters, crate::proofs::Lengths::spelled_bytes))]
pub(crate) fn spelled(c: char, buffer: &mut [u8]) -> &str
    requires { 4 ≤ length buffer.old }
    ensures characters { chars result.now ≡ c ∷ [] }
    ensures bytes { result.now ≡ encode_utf8_all (c ∷ []) }
{
    c.encode_utf8(buffer)
}

/// The text of two characters, if the limit allows it.
#[tactic(auto, using(crate::proofs::Lengths::joined_length))]
pub(crate) fn join(
    alloc: Global,
    limits: &Limits,
    a: char,
    b: char,
) -> Result<Dynamic, EvalAltResult>
    ensures { IsOutcome (Unit {0}) result (limited_text limits.now (a ∷ b ∷ [])) }
{
    let (mut first, mut second) = ([0; 4], [0; 4]);
    let lengths = (spelled(a, &mut first).len(), spelled(b, &mut second).len());
    if !is_allowed(limits.text, lengths.0, lengths.1) {
        return Err(EvalAltResult::ErrorDataTooLarge(SizeKind::Text, Position::NONE));
    }
    append(alloc, a, b)
}

/// The text of two characters, without a test of the limit.
pub(crate) fn append(alloc: Global, a: char, b: char) -> Result<Dynamic, EvalAltResult>
    ensures { IsOutcome (Unit {0}) result (answers (fresh (a_text (a ∷ b ∷ [])))) }
{
    let (mut first, mut second) = ([0; 4], [0; 4]);
    let front = ImmutableString::from_str(alloc, spelled(a, &mut first))?;
    Ok(Dynamic::from(front.concat(alloc, spelled(b, &mut second))?))
}

/// A comparison of two characters.
pub(crate) fn compare(op: Token, a: char, b: char) -> Result<Dynamic, EvalAltResult>
    requires { IsTrue (is_cmp op) }
    ensures { IsOutcome ⊥ result (bool_answer (specs.compared op (nat_cmp a b))) }
{
    Ok(Dynamic::from_bool(holds(op, a.cmp(&b))))
}

/// Appends a text to a character.
#[tactic(auto, using(crate::proofs::Lengths::joined_length))]
pub(crate) fn join_text(
    alloc: Global,
    limits: &Limits,
    a: char,
    b: &ImmutableString,
) -> Result<Dynamic, EvalAltResult>
    ensures { IsOutcome (Unit {0}) result (limited_text limits.now (a ∷ b.now)) }
{
    let mut buffer = [0; 4];
    let a = spelled(a, &mut buffer);
    if !is_allowed(limits.text, a.len(), b.len()) {
        return Err(EvalAltResult::ErrorDataTooLarge(SizeKind::Text, Position::NONE));
    }
    Ok(Dynamic::from(b.with_slice(alloc, 0, 0, true, a)?))
}

/// Appends a text to a character. For an empty text the result is the character, and no limit is
/// tested.
pub(crate) fn append_text(
    alloc: Global,
    limits: &Limits,
    a: char,
    b: &ImmutableString,
) -> Result<Dynamic, EvalAltResult>
    ensures { IsOutcome (Unit {0}) result (joined_to_char limits.now a b.now) }
{
    if b.is_empty() {
        return Ok(Dynamic::from_char(a));
    }
    join_text(alloc, limits, a, b)
}

/// Compares a character, as a text of its own, with a text.
pub(crate) fn compare_text(
    op: Token,
    a: char,
    b: &ImmutableString,
) -> Result<Dynamic, EvalAltResult>
    requires { IsTrue (is_cmp op) }
    ensures { IsOutcome ⊥ result (bool_answer (specs.compared op (text_order (a ∷ []) b.now))) }
{
    Ok(Dynamic::from_bool(holds(op, text_order_of(a, b))))
}

/// The order of a character, as a text of its own, and a text.
pub(crate) fn text_order_of(a: char, b: &ImmutableString) -> Ordering
    ensures { result ≡ text_order (a ∷ []) b.now }
{
    let mut buffer = [0; 4];
    let a = spelled(a, &mut buffer);
    byte_order_is_character_order();
    a.cmp(b.as_str())
}
