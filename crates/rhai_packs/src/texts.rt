//! Functions on texts. A call that changes a text in rhai's scripts replaces it by a new one; the
//! others return a new one. Indices and lengths count characters; `Limits` counts bytes.
ghost use Rattle.std.specs.Prelude.{◌≡◌, ◌≤◌, ◌++◌, ◌-◌, ◌↔◌, [], ℕ, List, drop, length, map, take, true, IfErr, IfOk, IfSome, IsTrue, OnErr, OnOk, string_bytes};
ghost use Rattle.std.specs.Str.{chars as characters_of, encode_utf8_all, trim as trimmed};
ghost use Rattle.std.specs.StrCase.Lower.{str_to_lowercase};
ghost use Rattle.std.specs.StrCase.Upper.{str_to_uppercase};
ghost use Rattle.rhai_value.specs.Tree.{char, fresh};
ghost use Rattle.rhai_packs.specs.Places.{after, cut_place as place_of_cut, first_of};
ghost use Rattle.rhai_text.specs.declared.error.SizeKind.TheVariants as size;
ghost use Rattle.rhai_packs.specs.Sizes.{IsLimited, may_grow as may_grow_by};
ghost use Rattle.rhai_packs.specs.Texts.{HasPart, IsFoundAt, IsFoundFrom, IsMadeText, IsRefusedText, IsReplaced};

mod cuts;
mod padding;

use crate::places::{at_most, cut_place};
use crate::sizes::{may_grow, too_large};
pub use cuts::{
    split, split_at, split_at_most, split_char, split_rev, split_rev_at_most, split_words,
};
pub use padding::{pad, pad_with_string};
use rhai_text::{EvalAltResult, ImmutableString, Limits, SizeKind};
use rhai_value::{Array, Blob, Dynamic, INT};
use std::alloc::{AllocError, Global};

/// Returns the number of characters.
/// Cost: constant for an ASCII text, otherwise its length.
/// rhai: `len`.
pub fn len(text: &ImmutableString) -> usize
    ensures { result ≡ length text.now }
{
    text.char_count()
}

/// Returns the number of bytes.
/// Cost: constant.
/// rhai: `bytes`.
pub fn bytes(text: &ImmutableString) -> usize
    ensures { result ≡ length (encode_utf8_all text.now) }
{
    text.len()
}

/// Copies the bytes.
/// Errors: more bytes than the limit allows, or a failed allocation.
/// Cost: the number of bytes.
/// rhai: `to_blob`.
pub fn to_blob(
    alloc: Global,
    limits: &Limits,
    text: &ImmutableString,
) -> Result<Blob, EvalAltResult>
    ensures answer { IsLimited size.Items (may_grow_by limits.now.items 0 (length (encode_utf8_all text.now))) result }
    ensures bytes { IfOk result (λ made. made.items ≡ encode_utf8_all text.now) }
{
    if !may_grow(limits.items, 0, text.len()) {
        return Err(too_large(SizeKind::Items));
    }
    Ok(Vec::from_slice(alloc, text.as_str().as_bytes())?)
}

fn count(text: &str) -> usize
    ensures { result ≡ length (characters_of text.now) }
{
    text.chars().count()
}

/// Returns whether the text is empty.
/// Cost: constant.
/// rhai: `is_empty`.
pub fn is_empty(text: &ImmutableString) -> bool
    ensures { IsTrue result ↔ (text.now ≡ []) }
{
    text.is_empty()
}

/// Returns whether the text contains a part.
/// Cost: the length of the text, for a given part.
/// rhai: `contains`.
pub fn contains(text: &ImmutableString, part: &str) -> bool
    ensures { IsTrue result ↔ HasPart (encode_utf8_all text.now) part.now }
{
    text.as_str().contains(part)
}

/// Returns whether the text begins with a part.
/// Cost: the length of the part.
/// rhai: `starts_with`.
pub fn starts_with(text: &ImmutableString, part: &str) -> bool
    ensures { IsTrue result ↔ ((rest : List ℕ) × (encode_utf8_all text.now ≡ part.now ++ rest)) }
{
    text.as_str().starts_with(part)
}

/// Returns whether the text ends with a part.
/// Cost: the length of the part.
/// rhai: `ends_with`.
pub fn ends_with(text: &ImmutableString, part: &str) -> bool
    ensures { IsTrue result ↔ ((front : List ℕ) × (encode_utf8_all text.now ≡ front ++ part.now)) }
{
    text.as_str().ends_with(part)
}

/// Copies up to `count` characters from an index on; an index before the front means the front.
/// Errors: an allocation fails.
/// Cost: the length of the text.
/// rhai: `sub_string`.
pub fn sub_string(
    alloc: Global,
    text: &ImmutableString,
    index: INT,
    count: INT,
) -> Result<ImmutableString, AllocError>
    ensures { IfOk result (λ part. part ≡ first_of (after text.now index) count) }
{
    let length = len(text);
    let start = cut_place(length, index);
    let kept = at_most(length - start, count);
    let front = text.with_slice(alloc, start + kept, length, true, "")?;
    if start == 0 {
        return Ok(front);
    }
    let part = front.with_slice(alloc, 0, start, true, "")?;
    Ok(part)
}

/// Keeps the characters that `sub_string` copies.
/// Errors: an allocation fails; the text is unchanged.
/// Cost: that of `sub_string`.
/// rhai: `crop`.
pub fn crop(
    alloc: Global,
    text: &mut ImmutableString,
    index: INT,
    count: INT,
) -> Result<(), AllocError>
    ensures ok { OnOk result (text.new ≡ first_of (after text.old index) count) }
    ensures err { OnErr result (text.new ≡ text.old) }
{
    *text = sub_string(alloc, text, index, count)?;
    Ok(())
}

/// Keeps the first `count` characters; all if there are no more, and none for a negative number.
/// Errors: an allocation fails; the text is unchanged.
/// Cost: the length of the text.
/// rhai: `truncate`.
pub fn truncate(alloc: Global, text: &mut ImmutableString, count: INT) -> Result<(), AllocError>
    ensures ok { OnOk result (text.new ≡ first_of text.old count) }
    ensures err { OnErr result (text.new ≡ text.old) }
{
    let length = len(text);
    let kept = at_most(length, count);
    *text = text.with_slice(alloc, kept, length, true, "")?;
    Ok(())
}

/// Removes the white space at both ends.
/// Errors: an allocation fails; the text is unchanged.
/// Cost: the length of the text.
/// rhai: `trim`.
pub fn trim(alloc: Global, text: &mut ImmutableString) -> Result<(), AllocError>
    ensures ok { OnOk result (text.new ≡ characters_of (trimmed (encode_utf8_all text.old))) }
    ensures err { OnErr result (text.new ≡ text.old) }
{
    *text = ImmutableString::from_str(alloc, text.as_str().trim())?;
    Ok(())
}

/// Makes the text in upper case, by Unicode.
/// Errors: more bytes than the limit allows, if the result is longer than the text, or a failed
/// allocation.
/// Cost: the length of the text.
/// rhai: `to_upper`.
pub fn to_upper(
    alloc: Global,
    limits: &Limits,
    text: &ImmutableString,
) -> Result<ImmutableString, EvalAltResult>
    ensures answer { IsMadeText limits.now (length (encode_utf8_all text.now)) (length (str_to_uppercase (encode_utf8_all text.now))) result }
    ensures ok { IfOk result (λ made. made ≡ characters_of (str_to_uppercase (encode_utf8_all text.now))) }
{
    let made = text.as_str().to_uppercase(alloc)?;
    kept_text(alloc, limits, text, &made)
}

/// Makes the text in lower case, by Unicode.
/// Errors: those of `to_upper`.
/// Cost: that of `to_upper`.
/// rhai: `to_lower`.
pub fn to_lower(
    alloc: Global,
    limits: &Limits,
    text: &ImmutableString,
) -> Result<ImmutableString, EvalAltResult>
    ensures answer { IsMadeText limits.now (length (encode_utf8_all text.now)) (length (str_to_lowercase (encode_utf8_all text.now))) result }
    ensures ok { IfOk result (λ made. made ≡ characters_of (str_to_lowercase (encode_utf8_all text.now))) }
{
    let made = text.as_str().to_lowercase(alloc)?;
    kept_text(alloc, limits, text, &made)
}

/// The result, if the limit allows it or it is no longer than the original.
fn kept_text(
    alloc: Global,
    limits: &Limits,
    text: &ImmutableString,
    made: &String,
) -> Result<ImmutableString, EvalAltResult>
    ensures answer { IsMadeText limits.now (length (encode_utf8_all text.now)) (length (string_bytes made.now)) result }
    ensures ok { IfOk result (λ kept. kept ≡ characters_of (string_bytes made.now)) }
{
    let length = text.len();
    if !may_grow(limits.text, length, made.len().saturating_sub(length)) {
        return Err(too_large(SizeKind::Text));
    }
    Ok(ImmutableString::from_str(alloc, made.as_str())?)
}

/// Replaces each occurrence of a part, found from left to right without overlaps; an empty part
/// occurs before each character and at the end.
/// Errors: more bytes than the limit allows, if the text becomes longer, or a failed allocation;
/// the text is unchanged.
/// Cost: the length of the text and of the new one.
/// rhai: `replace`.
pub fn replace(
    alloc: Global,
    limits: &Limits,
    text: &mut ImmutableString,
    part: &str,
    with: &str,
) -> Result<(), EvalAltResult>
    ensures ok { OnOk result ((out : List ℕ) × IsReplaced (encode_utf8_all text.old) part.entry with.now out
        × (may_grow_by limits.now.text (length (encode_utf8_all text.old)) (length out - length (encode_utf8_all text.old)) ≡ true) × (text.new ≡ characters_of out)) }
    ensures refused { IfErr result (IsRefusedText limits.now (length (encode_utf8_all text.old)) (IsReplaced (encode_utf8_all text.old) part.entry with.now)) }
    ensures err { OnErr result (text.new ≡ text.old) }
{
    let made = text.as_str().replace(alloc, part, with)?;
    match kept_text(alloc, limits, text, &made) {
        Ok(kept) => {
            *text = kept;
            Ok(())
        }
        Err(error) => Err(error),
    }
}

/// Removes each occurrence of a part, found from left to right without overlaps.
/// Errors: an allocation fails; the text is unchanged.
/// Cost: the length of the text.
/// rhai: `remove`.
pub fn remove(alloc: Global, text: &mut ImmutableString, part: &str) -> Result<(), AllocError>
    ensures ok { OnOk result ((out : List ℕ) × IsReplaced (encode_utf8_all text.old) part.entry [] out × (text.new ≡ characters_of out)) }
    ensures err { OnErr result (text.new ≡ text.old) }
{
    let made = text.as_str().replace(alloc, part, "")?;
    *text = ImmutableString::from_str(alloc, made.as_str())?;
    Ok(())
}

/// Finds the first occurrence of a part, and returns the number of characters before it; `None`
/// where rhai returns -1.
/// Cost: the length of the text, for a given part.
/// rhai: `index_of`.
pub fn index_of(text: &ImmutableString, part: &str) -> Option<usize>
    ensures { IsFoundAt (encode_utf8_all text.now) part.now result }
{
    place_of(text.as_str(), part)
}

/// Finds the first occurrence of a part from an index on, and returns the number of characters
/// before it in the text; `None` where rhai returns -1, as for an index past the last character.
/// Cost: the length of the text, for a given part.
/// rhai: `index_of`.
pub fn index_of_from(text: &ImmutableString, part: &str, index: INT) -> Option<usize>
    ensures { IsFoundFrom text.now part.now (place_of_cut (length text.now) index) result }
{
    let length = len(text);
    let start = cut_place(length, index);
    if start == length {
        return None;
    }
    let (_, rest) = split_at_character(text.as_str(), start);
    let place = place_of(rest, part)?;
    Some(start + place)
}

/// The first `count` characters, and the others.
fn split_at_character(text: &str, count: usize) -> (&str, &str)
    ensures front { result.0.now ≡ encode_utf8_all (take count (characters_of text.now)) }
    ensures back { result.1.now ≡ encode_utf8_all (drop count (characters_of text.now)) }
    ensures others { characters_of result.1.now ≡ drop count (characters_of text.now) }
{
    let mut rest = text.chars();
    for _ in 0..count {
        match rest.next() {
            Some(_) => {}
            None => return (text, ""),
        }
    }
    text.split_at(text.len() - rest.as_str().len())
}

fn place_of(text: &str, part: &str) -> Option<usize>
    ensures found { IsFoundAt text.now part.now result }
    ensures within { IfSome result (λ k. k ≤ length (characters_of text.now)) }
{
    let place = text.find(part)?;
    let (front, _) = text.split_at(place);
    Some(count(front))
}

/// Makes an array of the characters.
/// Errors: an allocation fails.
/// Cost: the length of the text; four temporary bytes for each character.
/// rhai: `chars`.
pub fn chars(alloc: Global, text: &ImmutableString) -> Result<Array, AllocError>
    ensures { IfOk result (λ items. items.items ≡ map (λ c. fresh (char c)) text.now) }
{
    let characters = characters(alloc, text.as_str())?;
    let mut items = Vec::with_capacity(alloc, characters.len())?;
    for character in &characters {
        items.push_reserved(Dynamic::from_char(*character));
    }
    Ok(items)
}

fn characters(alloc: Global, text: &str) -> Result<Vec<char>, AllocError>
    ensures { IfOk result (λ all. all.items ≡ characters_of text.now) }
{
    text.chars().collect(alloc)
}
