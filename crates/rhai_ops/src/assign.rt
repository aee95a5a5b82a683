//! Assignments that write the result of their operator.
ghost use Rattle.std.specs.Prelude.{◌≡◌, ◌∷◌, [], Ok, IsTrue};
ghost use Rattle.rhai_text.specs.Text.{minus, minus_char};
ghost use Rattle.rhai_value.specs.End.{end, value_after, store_after};
ghost use Rattle.rhai_value.specs.Parts.{bool_of, char_of, text_of};
ghost use Rattle.rhai_value.specs.Tree.{fresh, text, unit};
ghost use Rattle.rhai_ops.specs.Numbers.{both_bits};
ghost use Rattle.rhai_ops.specs.Outcome.{answers, bool_answer, both};
ghost use Rattle.rhai_ops.specs.Results.{Holds, joined_to_char, part as part_in};
ghost use Rattle.rhai_ops.specs.Tokens as asked;
ghost use Rattle.rhai_ops.specs.Tokens.{is_bits_assignment};
ghost use Rattle.rhai_ops.specs.Effects.{IsAssigned, rewritten};

use crate::answer::{part, value};
use crate::write::write;
use crate::{bools, chars, texts};
use rhai_text::{EvalAltResult, Limits, Token};
use rhai_value::{Dynamic, Store};
use std::alloc::Global;

/// Replaces the first boolean by `&`, `|` or `^` of the two.
#[inline(never)]
#[tactic(auto, using(crate::proofs::Effects::still_answer))]
pub(crate) fn bits(
    op: Token,
    store: &mut Store,
    left: &mut Dynamic,
    right: &Dynamic,
) -> Result<Dynamic, EvalAltResult>
    requires bits { IsTrue (is_bits_assignment op) }
    requires first { Holds bool_of store.old left.old }
    requires second { Holds bool_of store.old right.now }
    ensures { IsAssigned ⊥ result (both (λ a b. bool_answer (both_bits (asked.without_assign op) a b)) (part_in bool_of store.old left.old) (part_in bool_of store.old right.now)) left.old left.new store.old store.new }
{
    put(
        bools::assigned(op, value(left, store), value(right, store))?,
        store,
        left,
    )
}

/// Replaces the first character by the text of both.
#[inline(never)]
#[tactic(auto, using(crate::proofs::Effects::still_answer))]
pub(crate) fn two_chars(
    alloc: Global,
    store: &mut Store,
    left: &mut Dynamic,
    right: &Dynamic,
) -> Result<Dynamic, EvalAltResult>
    requires first { Holds char_of store.old left.old }
    requires second { Holds char_of store.old right.now }
    ensures { IsAssigned (Unit {0}) result (both (λ c d. answers (fresh (text (c ∷ d ∷ [])))) (part_in char_of store.old left.old) (part_in char_of store.old right.now)) left.old left.new store.old store.new }
{
    put(
        chars::append(alloc, value(left, store), value(right, store))?,
        store,
        left,
    )
}

/// Removes the occurrences of a text from a text.
#[inline(never)]
#[tactic(auto, using(crate::proofs::Effects::still_answer))]
pub(crate) fn text_minus_text(
    alloc: Global,
    store: &mut Store,
    left: &mut Dynamic,
    right: &Dynamic,
) -> Result<Dynamic, EvalAltResult>
    requires first { Holds text_of store.old left.old }
    requires second { Holds text_of store.old right.now }
    ensures { IsAssigned (Unit {0}) result (both (λ v w. answers (fresh (text (minus v w)))) (part_in text_of store.old left.old) (part_in text_of store.old right.now)) left.old left.new store.old store.new }
{
    put(texts::minus(alloc, store, left, right)?, store, left)
}

/// Removes a character from a text.
#[inline(never)]
#[tactic(auto, using(crate::proofs::Effects::still_answer))]
pub(crate) fn text_minus_char(
    alloc: Global,
    store: &mut Store,
    left: &mut Dynamic,
    right: &Dynamic,
) -> Result<Dynamic, EvalAltResult>
    requires first { Holds text_of store.old left.old }
    requires second { Holds char_of store.old right.now }
    ensures { IsAssigned (Unit {0}) result (both (λ v d. answers (fresh (text (minus_char v d)))) (part_in text_of store.old left.old) (part_in char_of store.old right.now)) left.old left.new store.old store.new }
{
    put(texts::minus_char(alloc, store, left, right)?, store, left)
}

/// Appends a text to a character, and replaces it by the result.
#[inline(never)]
#[tactic(auto, using(crate::proofs::Effects::still_answer))]
pub(crate) fn char_and_text(
    alloc: Global,
    store: &mut Store,
    limits: &Limits,
    left: &mut Dynamic,
    right: &Dynamic,
) -> Result<Dynamic, EvalAltResult>
    requires first { Holds char_of store.old left.old }
    requires second { Holds text_of store.old right.now }
    ensures { IsAssigned (Unit {0}) result (both (joined_to_char limits.now) (part_in char_of store.old left.old) (part_in text_of store.old right.now)) left.old left.new store.old store.new }
{
    put(
        chars::append_text(alloc, limits, value(left, store), part(right, store))?,
        store,
        left,
    )
}

/// Writes a value to the place, and returns unit.
fn put(new: Dynamic, store: &mut Store, left: &mut Dynamic) -> Result<Dynamic, EvalAltResult>
    ensures result { result ≡ Ok (fresh unit) }
    ensures value { left.new ≡ value_after (rewritten new) (end store.old [] left.old) left.old }
    ensures store { store.new ≡ store_after (rewritten new) (end store.old [] left.old) store.old }
{
    write(new, store, left);
    Ok(Dynamic::UNIT)
}
