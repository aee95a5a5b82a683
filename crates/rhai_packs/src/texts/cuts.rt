//! Splitting a text into an array of texts.
ghost use Rattle.std.specs.Prelude.{◌≡◌, ◌<◌, ◌⊎◌, ◌∷◌, [], List, ℕ, Some, None, IfOk, IsOk, IfSome, MatchOption, drop, false, length, take, true};
ghost use Rattle.std.specs.Char.{encode_utf8};
ghost use Rattle.std.specs.Str.{chars as characters_of, encode_utf8_all, trim_start};
ghost use Rattle.std.specs.Str.Pattern.{FindsText};
ghost use Rattle.rhai_value.specs.Tree.{fresh, text as text_leaf};
ghost use Rattle.rhai_packs.specs.declared.texts.cuts.Side.TheVariants as side_of;
ghost use Rattle.rhai_packs.specs.Places.{after, before};
ghost use Rattle.rhai_packs.specs.Splits.{AreCutOff, AreParts, AreTextsOf, AreWords, IsCutOff, cuts_into as number_of_cuts, is_spent as none_left, one_less as less_by_one, read_from, single_count as number_of_singles};

use super::{characters, len};
use crate::places::cut_place;
use rhai_text::ImmutableString;
use rhai_value::{Array, Dynamic, INT};
use std::alloc::{AllocError, Global};

/// The side of a text from which parts are cut off.
#[derive(Clone, Copy)]
pub enum Side {
    /// In front of the first separator.
    Front,
    /// Behind the last separator.
    Back,
}

/// Makes an array of the two texts before an index and from it on; a negative index counts from the
/// end, and one out of range means the nearer end.
/// Errors: an allocation fails.
/// Cost: the length of the text.
/// rhai: `split`.
pub fn split_at(alloc: Global, text: &ImmutableString, index: INT) -> Result<Array, AllocError>
    ensures { IfOk result (λ parts. parts.items ≡ fresh (text_leaf (before text.now index)) ∷ fresh (text_leaf (after text.now index)) ∷ []) }
{
    let length = len(text);
    let place = cut_place(length, index);
    let front = text.slice(alloc, 0, place, true)?;
    let back = text.slice(alloc, place, length, true)?;
    let mut parts = Vec::with_capacity(alloc, 2)?;
    parts.push_reserved(Dynamic::from(front));
    parts.push_reserved(Dynamic::from(back));
    Ok(parts)
}

/// Makes an array of the texts between the occurrences of a separator, found from left to right
/// without overlaps; an empty separator occurs before each character and at the end.
/// Errors: an allocation fails.
/// Cost: the length of the text, for a given separator.
/// rhai: `split`.
pub fn split(alloc: Global, text: &ImmutableString, separator: &str) -> Result<Array, AllocError>
    ensures { IfOk result (λ parts. AreTextsOf (AreParts side_of.Front separator.now None (encode_utf8_all text.now)) parts.items) }
{
    split_from(alloc, text, separator, Side::Front, None)
}

/// As `split`, into at most this many parts, but at least one: the last has what is left.
/// Errors: an allocation fails.
/// Cost: that of `split`.
/// rhai: `split`.
pub fn split_at_most(
    alloc: Global,
    text: &ImmutableString,
    separator: &str,
    parts: INT,
) -> Result<Array, AllocError>
    ensures { IfOk result (λ made. AreTextsOf (AreParts side_of.Front separator.now (Some (number_of_cuts parts)) (encode_utf8_all text.now)) made.items) }
{
    split_from(alloc, text, separator, Side::Front, Some(cuts_into(parts)))
}

/// Makes an array of the texts between the occurrences of a separator, found from right to left
/// without overlaps, and in this order.
/// Errors: an allocation fails.
/// Cost: the length of the text, for a given separator.
/// rhai: `split_rev`.
pub fn split_rev(
    alloc: Global,
    text: &ImmutableString,
    separator: &str,
) -> Result<Array, AllocError>
    ensures { IfOk result (λ parts. AreTextsOf (AreParts side_of.Back separator.now None (encode_utf8_all text.now)) parts.items) }
{
    split_from(alloc, text, separator, Side::Back, None)
}

/// As `split_rev`, into at most this many parts, but at least one: the last has what is left.
/// Errors: an allocation fails.
/// Cost: that of `split_rev`.
/// rhai: `split_rev`.
pub fn split_rev_at_most(
    alloc: Global,
    text: &ImmutableString,
    separator: &str,
    parts: INT,
) -> Result<Array, AllocError>
    ensures { IfOk result (λ made. AreTextsOf (AreParts side_of.Back separator.now (Some (number_of_cuts parts)) (encode_utf8_all text.now)) made.items) }
{
    split_from(alloc, text, separator, Side::Back, Some(cuts_into(parts)))
}

/// Makes an array of the texts between the occurrences of a character.
/// Errors: an allocation fails.
/// Cost: the length of the text.
/// rhai: `split`.
pub fn split_char(
    alloc: Global,
    text: &ImmutableString,
    separator: char,
) -> Result<Array, AllocError>
    ensures { IfOk result (λ parts. AreTextsOf (AreCutOff side_of.Front (encode_utf8 separator) None (encode_utf8_all text.now)) parts.items) }
{
    let mut buffer = [0; 4];
    let separator = separator.encode_utf8(&mut buffer);
    split_at_each(alloc, text.as_str(), separator, Side::Front, None)
}

/// Makes an array of the words: the parts without white space, as Unicode defines it.
/// Errors: an allocation fails. If there are no words, none is needed.
/// Cost: the length of the text.
/// rhai: `split`.
pub fn split_words(alloc: Global, text: &ImmutableString) -> Result<Array, AllocError>
    ensures words { IfOk result (λ parts. AreTextsOf (AreWords (encode_utf8_all text.now)) parts.items) }
    ensures free { trim_start (encode_utf8_all text.now) ≡ [] → IsOk result }
{
    words(alloc, text.as_str())
}

fn words(alloc: Global, text: &str) -> Result<Array, AllocError>
    ensures words { IfOk result (λ parts. AreTextsOf (AreWords text.now) parts.items) }
    ensures free { trim_start text.now ≡ [] → IsOk result }
{
    if text.trim_start().is_empty() {
        return Ok(Vec::new(alloc));
    }
    let mut parts = Vec::new(alloc);
    for word in text.split_whitespace() {
        parts.push(Dynamic::from_text(alloc, word)?)?;
    }
    Ok(parts)
}

/// The number of cuts into at most this many parts.
fn cuts_into(parts: INT) -> usize
    ensures { result ≡ number_of_cuts parts }
{
    if parts < 1 {
        return 0;
    }
    parts.unsigned_abs() as usize - 1
}

/// The texts that are cut off from a side, with a limit by at most this many cuts.
fn split_from(
    alloc: Global,
    text: &ImmutableString,
    separator: &str,
    side: Side,
    most: Option<usize>,
) -> Result<Array, AllocError>
    ensures { IfOk result (λ parts. AreTextsOf (AreParts side separator.now most (encode_utf8_all text.now)) parts.items) }
{
    if separator.is_empty() {
        return split_everywhere(alloc, text, side, most);
    }
    split_at_each(alloc, text.as_str(), separator, side, most)
}

/// As `split_from`, for a separator that isn't empty.
fn split_at_each(
    alloc: Global,
    text: &str,
    separator: &str,
    side: Side,
    most: Option<usize>,
) -> Result<Array, AllocError>
    requires { 0 < length separator.now }
    ensures { IfOk result (λ parts. AreTextsOf (AreCutOff side separator.now most text.now) parts.items) }
{
    let mut parts = Vec::new(alloc);
    let mut rest = text;
    let mut left = most;
    while let Some((part, others)) = cut_off(rest, separator, side, left) {
        parts.push(Dynamic::from_text(alloc, part)?)?;
        rest = others;
        left = one_less(left);
    }
    parts.push(Dynamic::from_text(alloc, rest)?)?;
    Ok(parts)
}

/// Cuts a part off a text: returns it and the rest, if the text has the separator and a cut is
/// left.
fn cut_off<'t>(
    text: &'t str,
    separator: &str,
    side: Side,
    most: Option<usize>,
) -> Option<(&'t str, &'t str)>
    requires { 0 < length separator.now }
    ensures cut { MatchOption result ((none_left most ≡ true) ⊎ FindsText separator.now text.now None)
        (λ x. (none_left most ≡ false) × IsCutOff side separator.now text.now x.0.now x.1.now) }
    ensures shorter { IfSome result (λ x. length x.1.now < length text.now) }
{
    if is_spent(most) {
        return None;
    }
    match side {
        Side::Front => {
            let (part, rest) = text.split_once(separator)?;
            Some((part, rest))
        }
        Side::Back => {
            let (rest, part) = text.rsplit_once(separator)?;
            Some((part, rest))
        }
    }
}

/// Returns whether no cut is left.
fn is_spent(most: Option<usize>) -> bool
    ensures { result ≡ none_left most }
{
    match most {
        Some(left) => left == 0,
        None => false,
    }
}

fn one_less(most: Option<usize>) -> Option<usize>
    ensures { result ≡ less_by_one most }
{
    Some(most?.saturating_sub(1))
}

/// As `split_from`, for an empty separator: nothing, single characters, and the others together.
fn split_everywhere(
    alloc: Global,
    text: &ImmutableString,
    side: Side,
    most: Option<usize>,
) -> Result<Array, AllocError>
    ensures { IfOk result (λ parts. AreTextsOf (AreParts side [] most (encode_utf8_all text.now)) parts.items) }
{
    if is_spent(most) {
        let mut whole = Vec::with_capacity(alloc, 1)?;
        whole.push_reserved(Dynamic::from_text(alloc, text.as_str())?);
        return Ok(whole);
    }
    let count = single_count(most, len(text));
    let rest = without_first(alloc, text, side, count)?;
    let mut parts = Vec::new(alloc);
    parts.push(Dynamic::from_text(alloc, "")?)?;
    for character in &single(alloc, text.as_str(), side, count)? {
        let mut buffer = [0; 4];
        parts.push(Dynamic::from_text(alloc, character.encode_utf8(&mut buffer))?)?;
    }
    parts.push(Dynamic::from(rest))?;
    Ok(parts)
}

/// The number of characters that are parts of their own, of this many.
fn single_count(most: Option<usize>, length: usize) -> usize
    ensures { result ≡ number_of_singles most length }
{
    match most {
        Some(cuts) => cuts.saturating_sub(1),
        None => length,
    }
}

/// The text without its first characters, as read from a side.
fn without_first(
    alloc: Global,
    text: &ImmutableString,
    side: Side,
    count: usize,
) -> Result<ImmutableString, AllocError>
    ensures { IfOk result (λ rest. rest ≡ read_from side (drop count (read_from side text.now))) }
{
    let length = len(text);
    match side {
        Side::Front => text.slice(alloc, count, length, true),
        Side::Back => text.slice(alloc, 0, length.saturating_sub(count), true),
    }
}

/// The first characters, as read from a side.
fn single(alloc: Global, text: &str, side: Side, count: usize) -> Result<Vec<char>, AllocError>
    ensures { IfOk result (λ all. all.items ≡ take count (read_from side (characters_of text.now))) }
{
    let mut all = characters(alloc, text)?;
    if let Side::Back = side {
        all.reverse();
    }
    all.truncate(count);
    Ok(all)
}
