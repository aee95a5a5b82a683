//! Operators on texts.
ghost use Rattle.std.specs.Prelude.{◌≡◌, IsTrue, Some, ◌∷◌, [], ◌++◌};
ghost use Rattle.rhai_text.specs.Text as edits;
ghost use Rattle.rhai_value.specs.Parts.{char_of, text_of};
ghost use Rattle.rhai_value.specs.Tree.{fresh, text as a_text};
ghost use Rattle.rhai_ops.specs.Numbers as specs;
ghost use Rattle.rhai_ops.specs.Outcome.{IsOutcome, answers, bool_answer, both, limited_text};
ghost use Rattle.rhai_ops.specs.Results.{Holds, part as part_in, text_order};
ghost use Rattle.rhai_ops.specs.Tokens.{is_cmp};

use crate::answer::{is_allowed, part, value};
use crate::chars::spelled;
use crate::compare::holds;
use rhai_text::laws::byte_order_is_character_order;
use rhai_text::{EvalAltResult, ImmutableString, Limits, Position, SizeKind, Token};
use rhai_value::{Dynamic, Store};
use std::alloc::Global;
use std::cmp::Ordering;

/// A text appended to a text.
pub(crate) fn join(
    alloc: Global,
    limits: &Limits,
    store: &Store,
    left: &Dynamic,
    right: &Dynamic,
) -> Result<Dynamic, EvalAltResult>
    requires first { Holds text_of store.now left.now }
    requires second { Holds text_of store.now right.now }
    ensures { IsOutcome (Unit {0}) result (both (λ v w. limited_text limits.now (v ++ w)) (part_in text_of store.now left.now) (part_in text_of store.now right.now)) }
{
    joined(alloc, limits, part(left, store), part(right, store))
}

#[tactic(auto, using(crate::proofs::Lengths::joined_length))]
fn joined(
    alloc: Global,
    limits: &Limits,
    a: &ImmutableString,
    b: &ImmutableString,
) -> Result<Dynamic, EvalAltResult>
    ensures { IsOutcome (Unit {0}) result (limited_text limits.now (a.now ++ b.now)) }
{
    if !is_allowed(limits.text, a.len(), b.len()) {
        return Err(EvalAltResult::ErrorDataTooLarge(SizeKind::Text, Position::NONE));
    }
    Ok(Dynamic::from(a.concat(alloc, b.as_str())?))
}

/// A text without the occurrences of a text.
pub(crate) fn minus(
    alloc: Global,
    store: &Store,
    left: &Dynamic,
    right: &Dynamic,
) -> Result<Dynamic, EvalAltResult>
    requires first { Holds text_of store.now left.now }
    requires second { Holds text_of store.now right.now }
    ensures { IsOutcome (Unit {0}) result (both (λ v w. answers (fresh (a_text (edits.minus v w)))) (part_in text_of store.now left.now) (part_in text_of store.now right.now)) }
{
    let b = part::<ImmutableString>(right, store).as_str();
    let text = part::<ImmutableString>(left, store).minus(alloc, b)?;
    Ok(Dynamic::from(text))
}

/// A comparison of two texts.
#[inline(never)]
pub(crate) fn compare(
    op: Token,
    store: &Store,
    left: &Dynamic,
    right: &Dynamic,
) -> Result<Dynamic, EvalAltResult>
    requires comparison { IsTrue (is_cmp op) }
    requires first { Holds text_of store.now left.now }
    requires second { Holds text_of store.now right.now }
    ensures { IsOutcome ⊥ result (both (λ v w. bool_answer (specs.compared op (text_order v w))) (part_in text_of store.now left.now) (part_in text_of store.now right.now)) }
{
    compare_two(op, part(left, store), part(right, store))
}

/// The same for the operands' own contents.
#[inline(always)]
pub(crate) fn compare_two(
    op: Token,
    a: &ImmutableString,
    b: &ImmutableString,
) -> Result<Dynamic, EvalAltResult>
    requires { IsTrue (is_cmp op) }
    ensures { IsOutcome ⊥ result (bool_answer (specs.compared op (text_order a.now b.now))) }
{
    Ok(Dynamic::from_bool(compared_texts(op, a, b)))
}

/// Whether the comparison holds for two texts. Equality compares the lengths first.
#[inline(never)]
#[tactic(auto, using(crate::proofs::Characters::equal_by_order))]
fn compared_texts(op: Token, a: &ImmutableString, b: &ImmutableString) -> bool
    requires { IsTrue (is_cmp op) }
    ensures { Some result ≡ specs.compared op (text_order a.now b.now) }
{
    if op == Token::EqualsTo {
        return a == b;
    }
    holds(op, a.cmp(b))
}

/// A character appended to a text.
#[tactic(auto, using(crate::proofs::Lengths::joined_length))]
pub(crate) fn join_char(
    alloc: Global,
    limits: &Limits,
    store: &Store,
    left: &Dynamic,
    right: &Dynamic,
) -> Result<Dynamic, EvalAltResult>
    requires first { Holds text_of store.now left.now }
    requires second { Holds char_of store.now right.now }
    ensures { IsOutcome (Unit {0}) result (both (λ v d. limited_text limits.now (v ++ d ∷ [])) (part_in text_of store.now left.now) (part_in char_of store.now right.now)) }
{
    let a = part::<ImmutableString>(left, store);
    let mut buffer = [0; 4];
    let b = spelled(value(right, store), &mut buffer);
    if !is_allowed(limits.text, a.len(), b.len()) {
        return Err(EvalAltResult::ErrorDataTooLarge(SizeKind::Text, Position::NONE));
    }
    Ok(Dynamic::from(a.concat(alloc, b)?))
}

/// A text without a character.
pub(crate) fn minus_char(
    alloc: Global,
    store: &Store,
    left: &Dynamic,
    right: &Dynamic,
) -> Result<Dynamic, EvalAltResult>
    requires first { Holds text_of store.now left.now }
    requires second { Holds char_of store.now right.now }
    ensures { IsOutcome (Unit {0}) result (both (λ v d. answers (fresh (a_text (edits.minus_char v d)))) (part_in text_of store.now left.now) (part_in char_of store.now right.now)) }
{
    let text = part::<ImmutableString>(left, store).minus_char(alloc, value(right, store))?;
    Ok(Dynamic::from(text))
}

/// Compares a text with a character, as a text of its own.
pub(crate) fn compare_char(
    op: Token,
    store: &Store,
    left: &Dynamic,
    right: &Dynamic,
) -> Result<Dynamic, EvalAltResult>
    requires comparison { IsTrue (is_cmp op) }
    requires first { Holds text_of store.now left.now }
    requires second { Holds char_of store.now right.now }
    ensures { IsOutcome ⊥ result (both (λ v d. bool_answer (specs.compared op (text_order v (d ∷ [])))) (part_in text_of store.now left.now) (part_in char_of store.now right.now)) }
{
    let order = char_order_of(part(left, store), value(right, store));
    Ok(Dynamic::from_bool(holds(op, order)))
}

/// The order of a text and a character, as a text of its own.
pub(crate) fn char_order_of(a: &ImmutableString, b: char) -> Ordering
    ensures { result ≡ text_order a.now (b ∷ []) }
{
    let mut buffer = [0; 4];
    let b = spelled(b, &mut buffer);
    byte_order_is_character_order();
    a.as_str().cmp(b)
}
