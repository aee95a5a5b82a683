//! The words of a line, one after another.
ghost use Rattle.std.specs.Prelude.{◌≡◌, true, Some, None, ◌∷◌, ℕ, List, false, string_bytes, option_map, IfOk, IfErr, IfSome, IfNone};
ghost use Rattle.std.specs.Str.{chars};
ghost use Rattle.rhai_lines.specs.declared.words.NoCommand.TheVariants.{BadLine, Memory as no_memory};
ghost use Rattle.rhai_lines.specs.Words.{word_of, left_of, next_word, is_name, name_of, named, truths};
ghost use Rattle.rhai_lines.specs.Vocabulary.{a_name, a_truth, Word as word_kind};
ghost use Rattle.rhai_lines.specs.Spelling.{called, spells};
ghost use Rattle.rhai_lines.specs.Cursor.{left_in, rows, Reads, Yields, Adds};

use rhai_text::ImmutableString;
use std::alloc::{AllocError, Global};

/// Why a line gives no command: it has none, or an allocation fails.
#[derive(Drop)]
pub(crate) enum NoCommand {
    BadLine,
    Memory,
}

impl From<AllocError> for NoCommand {
    ghost from_gives = { λ error result. result ≡ no_memory };

    fn from(_error: AllocError) -> NoCommand {
        NoCommand::Memory
    }
}

/// A value given by a word, or by a word and the next one.
pub(crate) trait Word: Sized + Drop {
    ghost word: { word_kind Self };

    /// The value, and the rest after it.
    fn read(alloc: Global, left: Option<&str>) -> Result<(Self, Option<&str>), NoCommand>
        ensures { Reads result word (left_in left.entry) };

    /// Appends the words that denote the value to a line, if there are any.
    fn spell(&self, line: &mut String) -> Result<bool, AllocError>
        ensures { Adds result (spells word self.now) (string_bytes line.old) (string_bytes line.new) };
}

/// Appends a text to a line.
pub(crate) fn add(line: &mut String, text: &str) -> Result<bool, AllocError>
    ensures { Adds result (Some text.now) (string_bytes line.old) (string_bytes line.new) }
{
    line.push_str(text)?;
    Ok(true)
}

/// The first word of a text, and the rest after it.
pub(crate) fn first_word(text: &str) -> (&str, Option<&str>)
    ensures word { result.0.now ≡ word_of text.now }
    ensures left { left_in result.1 ≡ left_of text.now }
{
    match text.split_once(' ') {
        Some((word, left)) => (word, Some(left)),
        None => (text, None),
    }
}

/// The next word of the rest of a line.
pub(crate) fn next_word(left: Option<&str>) -> Result<(&str, Option<&str>), NoCommand>
    ensures ok { IfOk result (λ p. next_word (λ w. Some w) (left_in left.entry) ≡ Some (p.0.now, left_in p.1)) }
    ensures err { IfErr result (λ e. (e ≡ BadLine) × (left_in left.entry ≡ None)) }
{
    match left {
        Some(text) => Ok(first_word(text)),
        None => Err(NoCommand::BadLine),
    }
}

/// Looks a word up in a table.
pub(crate) fn named<A: Copy>(table: &[(&str, A)], word: &str) -> Option<A>
    ensures { result ≡ named (rows table.now) word.now }
{
    let mut left = table;
    while let [(name, value), rest @ ..] = left {
        if word == *name {
            return Some(*value);
        }
        left = rest;
    }
    None
}

fn truth_in(word: &str) -> Option<bool>
    ensures { result ≡ named truths word.now }
{
    match word {
        "true" => Some(true),
        "false" => Some(false),
        _ => None,
    }
}

#[tactic(auto, unfolding(crate::specs::Vocabulary::reads, crate::specs::Spelling::spells, crate::specs::Memory::takes_for))]
impl Word for bool {
    ghost word = { a_truth };

    fn read(_alloc: Global, left: Option<&str>) -> Result<(bool, Option<&str>), NoCommand> {
        let (word, left) = next_word(left)?;
        Ok((truth_in(word).ok_or(NoCommand::BadLine)?, left))
    }

    fn spell(&self, line: &mut String) -> Result<bool, AllocError> {
        add(line, if *self { "true" } else { "false" })
    }
}

/// Looks the name of a value up in a table.
pub(crate) fn called<'a, A: Copy + Eq>(table: &[(&'a str, A)], value: A) -> Option<&'a str>
    ensures { option_map (λ w. w.now) result ≡ called A.eq (rows table.now) value }
{
    let mut left = table;
    while let [(name, other), rest @ ..] = left {
        if value == *other {
            return Some(*name);
        }
        left = rest;
    }
    None
}

/// Whether the word is one or more ASCII letters, digits and underscores.
pub(crate) fn is_name(word: &[u8]) -> bool
    ensures { result ≡ is_name word.now }
{
    if word.is_empty() {
        return false;
    }
    for byte in word {
        if !byte.is_ascii_alphanumeric() && *byte != b'_' {
            return false;
        }
    }
    true
}

/// Bytes as a text, if they are valid UTF-8: those of a name are.
#[tactic(auto, using(crate::proofs::Sigils::name_is_text))]
fn text_of(bytes: &[u8]) -> Option<&str>
    ensures some { IfSome result (λ text. text.now ≡ bytes.now) }
    ensures none { IfNone result (is_name bytes.now ≡ false) }
{
    match str::from_utf8(bytes) {
        Ok(text) => Some(text),
        Err(_) => None,
    }
}

/// The text after a sigil that a word begins with.
#[tactic(auto, using(crate::proofs::Sigils::no_name_behind))]
pub(crate) fn strip_sigil(word: &str, sigil: u8) -> Option<&str>
    ensures some { IfSome result (λ name. word.now ≡ sigil ∷ name.now) }
    ensures none { IfNone result ((name : List ℕ) → word.now ≡ sigil ∷ name → is_name name ≡ false) }
{
    match word.as_bytes() {
        [first, name @ ..] if *first == sigil => text_of(name),
        _ => None,
    }
}

/// The name given by a word.
#[tactic(auto, using(crate::proofs::Names::name_chars, crate::proofs::Names::no_name))]
pub(crate) fn name(alloc: Global, word: &str) -> Result<ImmutableString, NoCommand>
    ensures { Yields result (name_of word.now) (λ n. true) }
{
    if !is_name(word.as_bytes()) {
        return Err(NoCommand::BadLine);
    }
    Ok(ImmutableString::from_str(alloc, word)?)
}

/// Appends a name to a line, if it is one.
#[tactic(auto, using(crate::proofs::Added::name_by_bytes))]
pub(crate) fn add_name(line: &mut String, name: &ImmutableString) -> Result<bool, AllocError>
    ensures { Adds result (name_of name.now) (string_bytes line.old) (string_bytes line.new) }
{
    if !is_name(name.as_str().as_bytes()) {
        return Ok(false);
    }
    add(line, name.as_str())
}

#[tactic(auto, unfolding(crate::specs::Vocabulary::reads, crate::specs::Spelling::spells, crate::specs::Memory::takes_for))]
impl Word for ImmutableString {
    ghost word = { a_name };

    fn read(
        alloc: Global,
        left: Option<&str>,
    ) -> Result<(ImmutableString, Option<&str>), NoCommand> {
        let (word, left) = next_word(left)?;
        Ok((name(alloc, word)?, left))
    }

    fn spell(&self, line: &mut String) -> Result<bool, AllocError> {
        add_name(line, self)
    }
}
