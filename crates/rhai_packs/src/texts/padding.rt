//! Padding texts to a number of characters.
ghost use Rattle.std.specs.Prelude.{◌≡◌, ◌+◌, ◌*◌, ◌^◌, ◌<◌, ◌≤◌, ◌++◌, [], ℕ, is_ok, if◌then◌else◌, length, replicate, take, IfOk, IsOk, MatchOption};
ghost use Rattle.std.specs.List.{repeat};
ghost use Rattle.std.specs.Str.{chars as characters_of, encode_utf8_all};
ghost use Rattle.rhai_text.specs.declared.error.SizeKind.TheVariants as size;
ghost use Rattle.rhai_packs.specs.Padding.{cycled};
ghost use Rattle.rhai_packs.specs.Places.{missing as missing_of};
ghost use Rattle.rhai_packs.specs.Sizes.{IsLimited, may_grow as may_grow_by};

use super::{count as characters_in, len, split_at_character};
use crate::places::missing;
use crate::sizes::{may_grow, too_large};
use rhai_text::{EvalAltResult, ImmutableString, Limits, SizeKind};
use rhai_value::INT;
use std::alloc::{AllocError, Global};

/// Appends a character until the text has the wanted number of characters; if it has that already,
/// changes and allocates nothing.
/// Errors: more bytes than the limit allows, or a failed allocation; the text is unchanged.
/// Cost: the length of the text and of the new one.
/// rhai: `pad`.
pub fn pad(
    alloc: Global,
    limits: &Limits,
    text: &mut ImmutableString,
    count: INT,
    character: char,
) -> Result<(), EvalAltResult>
    ensures answer { let more = replicate (missing_of (length text.old) count) character in
        IsLimited size.Text (may_grow_by limits.now.text (length (encode_utf8_all text.old)) (length (encode_utf8_all more))) result }
    ensures text { text.new ≡ (if is_ok result then text.old ++ replicate (missing_of (length text.old) count) character else text.old) }
    ensures free { missing_of (length text.old) count ≡ 0 → IsOk result }
{
    let mut buffer = [0; 4];
    pad_with_string(
        alloc,
        limits,
        text,
        count,
        character.encode_utf8(&mut buffer),
    )
}

/// Appends a text repeatedly, the last time truncated, until there are the wanted number of
/// characters; if there are already, or if the padding is empty, changes and allocates nothing.
/// Errors: those of `pad`.
/// Cost: that of `pad`.
/// rhai: `pad`.
pub fn pad_with_string(
    alloc: Global,
    limits: &Limits,
    text: &mut ImmutableString,
    count: INT,
    padding: &str,
) -> Result<(), EvalAltResult>
    ensures answer { let more = cycled (missing_of (length text.old) count) (characters_of padding.now) in
        IsLimited size.Text (may_grow_by limits.now.text (length (encode_utf8_all text.old)) (length (encode_utf8_all more))) result }
    ensures text { text.new ≡ (if is_ok result then text.old ++ cycled (missing_of (length text.old) count) (characters_of padding.now) else text.old) }
    ensures free { missing_of (length text.old) count ≡ 0 → IsOk result }
    ensures empty { padding.now ≡ [] → IsOk result }
{
    let more = missing(len(text), count);
    let width = characters_in(padding);
    if more == 0 || width == 0 {
        return Ok(());
    }
    match extended(alloc, limits, text, more, padding, width) {
        Ok(made) => {
            *text = made;
            Ok(())
        }
        Err(refusal) => Err(refusal),
    }
}

/// The text followed by a number of characters of a non-empty padding, whose length is given.
fn extended(
    alloc: Global,
    limits: &Limits,
    text: &ImmutableString,
    more: usize,
    padding: &str,
    width: usize,
) -> Result<ImmutableString, EvalAltResult>
    requires long { width ≡ length (characters_of padding.now) }
    requires some { 0 < width }
    ensures answer { IsLimited size.Text (may_grow_by limits.now.text (length (encode_utf8_all text.now)) (length (encode_utf8_all (cycled more (characters_of padding.now))))) result }
    ensures ok { IfOk result (λ made. made ≡ text.now ++ cycled more (characters_of padding.now)) }
{
    let whole = more / width;
    let part = first_characters(padding, more % width);
    if let Err(refusal) = may_pad(
        limits,
        text.len(),
        bytes_of(whole, padding.len(), part.len()),
    ) {
        return Err(refusal);
    }
    match padded(alloc, text, whole, padding, part) {
        Ok(made) => Ok(made),
        Err(error) => Err(EvalAltResult::ErrorMemory(error)),
    }
}

/// Fails unless `more` bytes are allowed beside `first`; `None` means more bytes than a `usize`
/// counts.
fn may_pad(limits: &Limits, first: usize, more: Option<usize>) -> Result<(), EvalAltResult>
    ensures { (n : ℕ) → MatchOption more (2 ^ 64 ≤ n) (λ k. k ≡ n) → IsLimited size.Text (may_grow_by limits.now.text first n) result }
{
    match more {
        Some(more) => {
            if !may_grow(limits.text, first, more) {
                return Err(too_large(SizeKind::Text));
            }
            Ok(())
        }
        None => {
            if limits.text == 0 {
                return Err(EvalAltResult::ErrorMemory(AllocError));
            }
            Err(too_large(SizeKind::Text))
        }
    }
}

/// The number of bytes of `whole` repetitions and a part, if a `usize` counts it.
fn bytes_of(whole: usize, bytes: usize, part: usize) -> Option<usize>
    ensures { MatchOption result (2 ^ 64 ≤ whole * bytes + part) (λ n. n ≡ whole * bytes + part) }
{
    whole.checked_mul(bytes)?.checked_add(part)
}

/// The text followed by a number of repetitions and a part.
fn padded(
    alloc: Global,
    text: &ImmutableString,
    whole: usize,
    padding: &str,
    part: &str,
) -> Result<ImmutableString, AllocError>
    ensures { IfOk result (λ made. made ≡ text.now ++ (repeat whole (characters_of padding.now) ++ characters_of part.now)) }
{
    let mut more = padding.repeat(alloc, whole)?;
    more.push_str(part)?;
    text.concat(alloc, more.as_str())
}

fn first_characters(text: &str, count: usize) -> &str
    ensures { result.now ≡ encode_utf8_all (take count (characters_of text.now)) }
{
    let (front, _) = split_at_character(text, count);
    front
}
