//! The edits: each makes a new text, and fails only if its allocation fails.
ghost use Rattle.std.specs.Prelude.{◌≡◌, ◌+◌, ◌-◌, ◌++◌, if◌then◌else◌, IfOk, IsTrue, slice_set, take, drop};
ghost use Rattle.std.specs.Str.{chars, encode_utf8_all, IsAscii};
ghost use Rattle.rhai_text.specs.Text.{minus, minus_char, slice_of, with_slice};

use crate::immutable_string::ImmutableString;
use std::alloc::{AllocError, Global};

impl ImmutableString {
    /// Concatenates this text and `text`.
    /// Errors: the allocation of the new text fails.
    /// Cost: the length of both; one allocation for the new text.
    /// rhai: `+` of two texts.
    pub fn concat(&self, alloc: Global, text: &str) -> Result<ImmutableString, AllocError>
        ensures { IfOk result (λ t. t ≡ self.now ++ chars text.now) }
    {
        joined(alloc, self.as_str(), text, "")
    }

    /// Removes the occurrences of `pattern` from this text, from left to right, without overlaps.
    /// An empty pattern removes nothing.
    /// Errors: the allocation of the new text fails.
    /// Cost: for a given pattern the length of this text; memory for the new one, none for an empty
    /// pattern.
    /// rhai: `-` of two texts.
    pub fn minus(&self, alloc: Global, pattern: &str) -> Result<ImmutableString, AllocError>
        ensures { IfOk result (λ t. t ≡ minus self.now (chars pattern.now)) }
    {
        if pattern.is_empty() {
            return self.copy(alloc);
        }
        let text = self.as_str().replace(alloc, pattern, "")?;
        ImmutableString::from_string(alloc, text)
    }

    /// Removes each `character` from this text.
    /// Errors: an allocation fails.
    /// Cost: the length of this text; one allocation of that length.
    /// rhai: `-` of a text and a character.
    pub fn minus_char(&self, alloc: Global, character: char) -> Result<ImmutableString, AllocError>
        ensures { IfOk result (λ t. t ≡ minus_char self.now character) }
    {
        let mut text = String::with_capacity(alloc, self.len())?;
        for run in self.as_str().split(character) {
            text.push_str(run)?;
        }
        ImmutableString::from_string(alloc, text)
    }

    /// Replaces the character at `index`, counted in characters from 0, by `character`; past the
    /// end it copies this text.
    /// Errors: the allocation of the new text fails.
    /// Cost: the length of this text; memory for the new one.
    /// rhai: an assignment to an index of a text.
    pub fn with_char(
        &self,
        alloc: Global,
        index: usize,
        character: char,
    ) -> Result<ImmutableString, AllocError>
        ensures { IfOk result (λ t. t ≡ slice_set self.now index character) }
    {
        let text = self.as_str();
        let (front, rest) = split_at_char(text, index, self.is_ascii());
        let mut after = rest.chars();
        match after.next() {
            Some(_) => {}
            None => return self.copy(alloc),
        }
        let mut buffer = [0; 4];
        let encoded = character.encode_utf8(&mut buffer);
        joined(alloc, front, encoded, after.as_str())
    }

    /// Replaces the characters from `start` to `end`, which is included unless `exclusive`, by
    /// `slice`. Places count characters from 0; places past the text mean its end. If `end` is
    /// before `start`, the characters between them occur twice, on both sides of `slice`.
    /// Errors: the allocation of the new text fails.
    /// Cost: the length of this text, twice if `end` is before `start`; memory for the new one.
    /// rhai: an assignment to a range of a text.
    pub fn with_slice(
        &self,
        alloc: Global,
        start: usize,
        end: usize,
        exclusive: bool,
        slice: &str,
    ) -> Result<ImmutableString, AllocError>
        ensures { IfOk result (λ t. t ≡ with_slice self.now start end exclusive (chars slice.now)) }
    {
        let (front, back) = parts_around(self.as_str(), start, end, exclusive, self.is_ascii());
        joined(alloc, front, slice, back)
    }

    /// Copies the characters from `start` to `end`, which is included unless `exclusive`: those
    /// that `with_slice` would replace. There are none if `end` is before `start`.
    /// Errors: the allocation of the new text fails.
    /// Cost: for an ASCII text the length of the new one, otherwise that of this text up to `end`;
    /// memory for the new one.
    /// rhai: a text indexed by a range.
    pub fn slice(
        &self,
        alloc: Global,
        start: usize,
        end: usize,
        exclusive: bool,
    ) -> Result<ImmutableString, AllocError>
        ensures { IfOk result (λ t. t ≡ slice_of self.now start end exclusive) }
    {
        let part = part_between(self.as_str(), start, end, exclusive, self.is_ascii());
        ImmutableString::from_str(alloc, part)
    }
}

// The concatenation of three texts.
#[inline(always)]
fn joined(
    alloc: Global,
    front: &str,
    middle: &str,
    back: &str,
) -> Result<ImmutableString, AllocError>
    ensures { IfOk result (λ t. t ≡ chars front.now ++ (chars middle.now ++ chars back.now)) }
{
    ImmutableString::of_three(alloc, front, middle, back)
}

// The first `count` characters of the text, or all if it has fewer, and the rest. This and the next
// four count bytes as characters if the text is known to be ASCII.
fn split_at_char(text: &str, count: usize, is_ascii: bool) -> (&str, &str)
    requires { IsTrue is_ascii → IsAscii text.now }
    ensures front { chars result.0.now ≡ take count (chars text.now) }
    ensures back { chars result.1.now ≡ drop count (chars text.now) }
    ensures back_bytes { result.1.now ≡ encode_utf8_all (drop count (chars text.now)) }
{
    let back = skip_chars(text, count, is_ascii);
    text.split_at(text.len() - back.len())
}

// The text before `start`, and the text from `end` on, or after the character there unless
// `exclusive`.
fn parts_around(
    text: &str,
    start: usize,
    end: usize,
    exclusive: bool,
    is_ascii: bool,
) -> (&str, &str)
    requires { IsTrue is_ascii → IsAscii text.now }
    ensures front { chars result.0.now ≡ take start (chars text.now) }
    ensures back { chars result.1.now ≡ drop (if exclusive then end else end + 1) (chars text.now) }
{
    let (front, rest) = split_at_char(text, start, is_ascii);
    if start <= end {
        (front, text_after(rest, end - start, exclusive, is_ascii))
    } else {
        (front, text_after(text, end, exclusive, is_ascii))
    }
}

// The characters from `start` to `end`, including the one there unless `exclusive`.
fn part_between(text: &str, start: usize, end: usize, exclusive: bool, is_ascii: bool) -> &str
    requires { IsTrue is_ascii → IsAscii text.now }
    ensures { chars result.now ≡ slice_of (chars text.now) start end exclusive }
{
    if end < start {
        return "";
    }
    let rest = skip_chars(text, start, is_ascii);
    let after = text_after(rest, end - start, exclusive, is_ascii);
    rest.split_at(rest.len() - after.len()).0
}

// The text from `end` on, or after the character there unless `exclusive`.
fn text_after(text: &str, end: usize, exclusive: bool, is_ascii: bool) -> &str
    requires { IsTrue is_ascii → IsAscii text.now }
    ensures characters { chars result.now ≡ drop (if exclusive then end else end + 1) (chars text.now) }
    ensures bytes { result.now ≡ encode_utf8_all (drop (if exclusive then end else end + 1) (chars text.now)) }
{
    let from_end = skip_chars(text, end, is_ascii);
    if exclusive {
        from_end
    } else {
        skip_chars(from_end, 1, is_ascii)
    }
}

// The text after its first `count` characters.
fn skip_chars(text: &str, count: usize, is_ascii: bool) -> &str
    requires { IsTrue is_ascii → IsAscii text.now }
    ensures { result.now ≡ encode_utf8_all (drop count (chars text.now)) }
{
    if is_ascii {
        return skip_bytes(text, count);
    }
    let mut rest = text.chars();
    for _ in 0..count {
        match rest.next() {
            Some(_) => {}
            None => return "",
        }
    }
    rest.as_str()
}

// The text after its first `count` bytes, each of which is a character.
fn skip_bytes(text: &str, count: usize) -> &str
    requires { IsAscii text.now }
    ensures { result.now ≡ encode_utf8_all (drop count (chars text.now)) }
{
    if text.len() <= count {
        return "";
    }
    text.split_at(count).1
}
