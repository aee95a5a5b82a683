//! The arguments of a verb: the meaning of the whole rest of the line after it.
ghost use Rattle.std.specs.Prelude.{◌≡◌, ◌<◌, ℕ, List, Option, Some, true, false, string_bytes, IfOk, IfErr};
ghost use Rattle.std.specs.Char.{is_ascii_hexdigit, digit_value};
ghost use Rattle.std.specs.List.{list_all};
ghost use Rattle.std.specs.Str.{chars};
ghost use Rattle.rhai_lines.specs.Words.{words_of, name_of};
ghost use Rattle.rhai_lines.specs.Arguments.{each_of, one as one_word, an_alias, a_text, flagged_of, text_left, only, is_hex, bytes_of_pairs};
ghost use Rattle.rhai_lines.specs.Spelling.{flagged_word};
ghost use Rattle.rhai_lines.specs.Cursor.{left_in, Yields, Finds, LacksItems, Adds};

use crate::words::{NoCommand, Word, add_name, first_word, name, strip_sigil};
use rhai_run::Bytes;
use rhai_text::ImmutableString;
use std::alloc::{AllocError, Global};

/// The value of the last word.
#[tactic(auto, unfolding(crate::specs::Arguments::says, crate::specs::Memory::takes))]
pub(crate) fn last_word<A: Word>(alloc: Global, left: Option<&str>) -> Result<A, NoCommand>
    ensures { Finds result (one_word A.word) (left_in left.entry) }
{
    let (a, left) = A::read(alloc, left)?;
    match left {
        None => Ok(a),
        Some(_) => Err(NoCommand::BadLine),
    }
}

/// A value given by one word of a list.
pub(crate) trait Item: Sized + Drop {
    ghost said: { List ℕ → Option Self };

    ghost spelled: { Self → Option (List ℕ) };

    fn of_word(alloc: Global, word: &str) -> Result<Self, NoCommand>
        ensures { Yields result (said word.now) (λ a. true) };

    fn spell(&self, line: &mut String) -> Result<bool, AllocError>
        ensures { Adds result (spelled self.now) (string_bytes line.old) (string_bytes line.new) };
}

impl Item for ImmutableString {
    ghost said = { name_of };

    ghost spelled = { name_of };

    fn of_word(alloc: Global, word: &str) -> Result<ImmutableString, NoCommand> {
        name(alloc, word)
    }

    fn spell(&self, line: &mut String) -> Result<bool, AllocError> {
        add_name(line, self)
    }
}

/// A name, flagged if an exclamation mark precedes it.
#[tactic(auto, using(crate::proofs::Sigils::flagged_behind, crate::proofs::Sigils::flagged_alone, crate::proofs::Sigils::flagged_takes))]
fn flagged(alloc: Global, word: &str) -> Result<(ImmutableString, bool), NoCommand>
    ensures { Yields result (flagged_of word.now) (λ p. true) }
{
    match strip_sigil(word, b'!') {
        Some(word) => Ok((name(alloc, word)?, true)),
        None => Ok((name(alloc, word)?, false)),
    }
}

impl Item for (ImmutableString, bool) {
    ghost said = { flagged_of };

    ghost spelled = { flagged_word };

    fn of_word(alloc: Global, word: &str) -> Result<(ImmutableString, bool), NoCommand> {
        flagged(alloc, word)
    }

    fn spell(&self, line: &mut String) -> Result<bool, AllocError> {
        let (name, is_flagged) = self;
        if *is_flagged {
            line.push_str("!")?;
        }
        add_name(line, name)
    }
}

/// Reads an item from each remaining word.
pub(crate) fn list<A: Item>(alloc: Global, left: Option<&str>) -> Result<Vec<A>, NoCommand>
    ensures ok { IfOk result (λ items. each_of A.said (words_of (left_in left.entry)) ≡ Some items.items) }
    ensures err { IfErr result (λ e. LacksItems e A.said (left_in left.entry)) }
{
    let mut items = Vec::new(alloc);
    let mut left = left;
    while let Some(text) = left {
        let (word, next) = first_word(text);
        let item = A::of_word(alloc, word)?;
        if items.push(item).is_err() {
            return Err(NoCommand::Memory);
        }
        left = next;
    }
    Ok(items)
}

/// An alias, which may be missing: then it is the empty text.
#[tactic(auto, unfolding(crate::specs::Arguments::says, crate::specs::Memory::takes))]
pub(crate) fn alias(alloc: Global, left: Option<&str>) -> Result<ImmutableString, NoCommand>
    ensures { Finds result an_alias (left_in left.entry) }
{
    match left {
        None => text(alloc, left),
        Some(_) => last_word(alloc, left),
    }
}

/// The rest, or the empty text.
pub(crate) fn text_left(left: Option<&str>) -> &str
    ensures { chars result.now ≡ text_left (left_in left.entry) }
{
    match left {
        Some(text) => text,
        None => "",
    }
}

/// A text.
#[tactic(auto, unfolding(crate::specs::Arguments::says, crate::specs::Memory::takes))]
pub(crate) fn text(alloc: Global, left: Option<&str>) -> Result<ImmutableString, NoCommand>
    ensures { Finds result a_text (left_in left.entry) }
{
    Ok(ImmutableString::from_str(alloc, text_left(left))?)
}

/// The only character of a text.
pub(crate) fn only_char(text: &str) -> Option<char>
    ensures { result ≡ only (chars text.now) }
{
    text.parse::<char>().ok()
}

/// Whether the text consists of hexadecimal digits, two for each of one or more bytes.
pub(crate) fn is_hex(digits: &[u8]) -> bool
    ensures { result ≡ is_hex digits.now }
{
    if digits.is_empty() || digits.len() % 2 != 0 {
        return false;
    }
    for digit in digits {
        if !digit.is_ascii_hexdigit() {
            return false;
        }
    }
    true
}

/// The value of a hexadecimal digit.
fn hex_digit(digit: u8) -> u8
    requires { is_ascii_hexdigit digit ≡ true }
    ensures value { result ≡ digit_value digit }
    ensures small { result < 16 }
{
    match digit {
        b'0'..=b'9' => digit - b'0',
        b'A'..=b'F' => digit - b'A' + 10,
        _ => digit - b'a' + 10,
    }
}

/// The bytes given by hexadecimal digits, two for each.
pub(crate) fn bytes_in(alloc: Global, digits: &[u8]) -> Result<Bytes, AllocError>
    requires { list_all is_ascii_hexdigit digits.now ≡ true }
    ensures { IfOk result (λ bytes. bytes ≡ bytes_of_pairs digits.now) }
{
    let mut bytes = Vec::with_capacity(alloc, digits.len() / 2)?;
    let mut left = digits;
    while let [high, low, rest @ ..] = left {
        bytes.push(hex_digit(*high) * 16 + hex_digit(*low))?;
        left = rest;
    }
    Ok(Bytes::new(bytes))
}
