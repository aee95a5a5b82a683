//! Assignments that append to the text of a place, in place.
ghost use Rattle.std.specs.Prelude.{◌≡◌, ◌++◌, ◌∷◌, [], if◌then◌else◌, Some, OnErr, OnOk};
ghost use Rattle.std.specs.Str.{chars};
ghost use Rattle.rhai_text.specs.declared.error.SizeKind.TheVariants as size;
ghost use Rattle.rhai_value.specs.Parts.{char_of, text_of};
ghost use Rattle.rhai_value.specs.Tree.{fresh, text as a_text};
ghost use Rattle.rhai_ops.specs.Outcome.{IsOutcome, answers, both, limited_text, too_large};
ghost use Rattle.rhai_ops.specs.Results.{Holds, joined_texts, part as part_in};
ghost use Rattle.rhai_ops.specs.Effects.{IsAssigned, answered, assignment, stays};

use crate::answer::{is_allowed, part, value};
use crate::chars::spelled;
use rhai_text::{EvalAltResult, ImmutableString, Limits, Position, SizeKind};
use rhai_value::{Dynamic, InStore, Part, Store};
use std::alloc::Global;

/// Appends characters to a text, or leaves it unchanged on failure.
#[tactic(auto, using(crate::proofs::Lengths::extended_length))]
fn extend(
    alloc: Global,
    limits: &Limits,
    text: &mut ImmutableString,
    more: &str,
) -> Result<Dynamic, EvalAltResult>
    ensures result { IsOutcome (Unit {0}) result (answered (assignment stays) (limited_text limits.now (text.old ++ chars more.now))) }
    ensures ok { OnOk result (limited_text limits.now (text.old ++ chars more.now) ≡ answers (fresh (a_text text.new))) }
    ensures err { OnErr result (text.new ≡ text.old) }
{
    if !is_allowed(limits.text, text.len(), more.len()) {
        return Err(EvalAltResult::ErrorDataTooLarge(SizeKind::Text, Position::NONE));
    }
    text.push_str(alloc, more)?;
    Ok(Dynamic::UNIT)
}

/// Whether the limit allows appending a text to a text; always if one is empty.
#[tactic(auto, using(crate::proofs::Joined::none_behind, crate::proofs::Joined::behind_none, crate::proofs::Joined::both_some, crate::proofs::Lengths::joined_length))]
fn may_join(limits: &Limits, text: &ImmutableString, more: &ImmutableString) -> bool
    ensures { joined_texts limits.now text.now more.now ≡ (if result then answers (fresh (a_text (text.now ++ more.now))) else too_large size.Text) }
{
    if more.is_empty() || text.is_empty() {
        return true;
    }
    is_allowed(limits.text, text.len(), more.len())
}

/// Appends a text to a text, or leaves it unchanged on failure.
fn append(
    alloc: Global,
    limits: &Limits,
    text: &mut ImmutableString,
    more: &ImmutableString,
) -> Result<Dynamic, EvalAltResult>
    ensures result { IsOutcome (Unit {0}) result (answered (assignment stays) (joined_texts limits.now text.old more.now)) }
    ensures ok { OnOk result (joined_texts limits.now text.old more.now ≡ answers (fresh (a_text text.new))) }
    ensures err { OnErr result (text.new ≡ text.old) }
{
    if !may_join(limits, text, more) {
        return Err(EvalAltResult::ErrorDataTooLarge(SizeKind::Text, Position::NONE));
    }
    if text.is_empty() {
        *text = more.copy(alloc)?;
        return Ok(Dynamic::UNIT);
    }
    text.push_str(alloc, more.as_str())?;
    Ok(Dynamic::UNIT)
}

/// Appends a text to the text of the place.
fn append_at(
    alloc: Global,
    limits: &Limits,
    store: &mut Store,
    left: &mut Dynamic,
    more: &ImmutableString,
) -> Result<Dynamic, EvalAltResult>
    requires { Holds text_of store.old left.old }
    ensures { IsAssigned (Unit {0}) result (both (joined_texts limits.now) (part_in text_of store.old left.old) (Some more.now)) left.old left.new store.old store.new }
{
    let mut place = InStore { value: left, store };
    append(
        alloc,
        limits,
        place.held_part_mut::<ImmutableString>(),
        more,
    )
}

/// Appends the text of the second operand to the text of the place. A text held in a cell is copied
/// first, since it may be the place's own.
#[inline(never)]
#[tactic(auto, using(crate::proofs::Effects::still_answer))]
pub(crate) fn text_and_text(
    alloc: Global,
    store: &mut Store,
    limits: &Limits,
    left: &mut Dynamic,
    right: &Dynamic,
) -> Result<Dynamic, EvalAltResult>
    requires first { Holds text_of store.old left.old }
    requires second { Holds text_of store.old right.now }
    ensures { IsAssigned (Unit {0}) result (both (joined_texts limits.now) (part_in text_of store.old left.old) (part_in text_of store.old right.now)) left.old left.new store.old store.new }
{
    if let Some(own) = ImmutableString::own(right) {
        return append_at(alloc, limits, store, left, own);
    }
    let more = part::<ImmutableString>(right, store);
    if !may_join(limits, part(left, store), more) {
        return Err(EvalAltResult::ErrorDataTooLarge(SizeKind::Text, Position::NONE));
    }
    let more = more.copy(alloc)?;
    append_at(alloc, limits, store, left, &more)
}

/// Appends a character to the text of the place.
#[inline(never)]
pub(crate) fn text_and_char(
    alloc: Global,
    store: &mut Store,
    limits: &Limits,
    left: &mut Dynamic,
    right: &Dynamic,
) -> Result<Dynamic, EvalAltResult>
    requires first { Holds text_of store.old left.old }
    requires second { Holds char_of store.old right.now }
    ensures { IsAssigned (Unit {0}) result (both (λ v d. limited_text limits.now (v ++ (d ∷ []))) (part_in text_of store.old left.old) (part_in char_of store.old right.now)) left.old left.new store.old store.new }
{
    let mut buffer = [0; 4];
    let character = spelled(value(right, store), &mut buffer);
    let mut place = InStore { value: left, store };
    extend(
        alloc,
        limits,
        place.held_part_mut::<ImmutableString>(),
        character,
    )
}
