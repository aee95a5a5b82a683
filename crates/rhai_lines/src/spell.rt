//! Commands as lines: a verb, and the words of its arguments. If the verb is empty, these calls
//! append words only.
ghost use Rattle.std.specs.Prelude.{◌≡◌, ◌∷◌, ◌++◌, OnOk, option_map, string_bytes};
ghost use Rattle.std.specs.Str.{chars};
ghost use Rattle.rhai_lines.specs.Vocabulary.{a_name};
ghost use Rattle.rhai_lines.specs.Arguments.{none, one as one_word, before, names, flagged_names, an_alias, a_text, a_char, a_blob};
ghost use Rattle.rhai_show.specs.Leaves.{hex_digits};
ghost use Rattle.rhai_lines.specs.Spelling.{behind, spells, words_for, has_feed, spoken};
ghost use Rattle.rhai_lines.specs.Cursor.{Adds};

use crate::args::Item;
use crate::words::{Word, add};
use rhai_text::ImmutableString;
use std::alloc::AllocError;

/// Appends a space and the words of a value.
fn word<A: Word>(line: &mut String, a: &A) -> Result<bool, AllocError>
    ensures { Adds result (option_map (λ w. 32 ∷ w) (spells A.word a.now)) (string_bytes line.old) (string_bytes line.new) }
{
    line.push_str(" ")?;
    a.spell(line)
}

/// Appends a verb only.
#[tactic(auto, unfolding(crate::specs::Spelling::spoken, crate::specs::Spelling::writes))]
pub(crate) fn no_args(line: &mut String, verb: &str) -> Result<bool, AllocError>
    ensures { Adds result (spoken verb.now none tt) (string_bytes line.old) (string_bytes line.new) }
{
    add(line, verb)
}

/// Appends a verb and one word.
#[tactic(auto, unfolding(crate::specs::Spelling::spoken, crate::specs::Spelling::writes))]
pub(crate) fn args1<A: Word>(line: &mut String, verb: &str, a: &A) -> Result<bool, AllocError>
    ensures { Adds result (spoken verb.now (one_word A.word) a.now) (string_bytes line.old) (string_bytes line.new) }
{
    line.push_str(verb)?;
    word(line, a)
}

/// Appends a verb and two words.
pub(crate) fn args2<A: Word, B: Word>(
    line: &mut String,
    verb: &str,
    a: &A,
    b: &B,
) -> Result<bool, AllocError>
    ensures { Adds result (spoken verb.now (before A.word (one_word B.word)) (a.now, b.now)) (string_bytes line.old) (string_bytes line.new) }
{
    if !args1(line, verb, a)? {
        return Ok(false);
    }
    args1(line, "", b)
}

/// Appends a verb and three words.
pub(crate) fn args3<A: Word, B: Word, C: Word>(
    line: &mut String,
    verb: &str,
    a: &A,
    b: &B,
    c: &C,
) -> Result<bool, AllocError>
    ensures { Adds result (spoken verb.now (before A.word (before B.word (one_word C.word))) (a.now, (b.now, c.now))) (string_bytes line.old) (string_bytes line.new) }
{
    if !args1(line, verb, a)? {
        return Ok(false);
    }
    args2(line, "", b, c)
}

/// Appends a verb and four words.
pub(crate) fn args4<A: Word, B: Word, C: Word, D: Word>(
    line: &mut String,
    verb: &str,
    a: &A,
    b: &B,
    c: &C,
    d: &D,
) -> Result<bool, AllocError>
    ensures { Adds result (spoken verb.now (before A.word (before B.word (before C.word (one_word D.word)))) (a.now, (b.now, (c.now, d.now)))) (string_bytes line.old) (string_bytes line.new) }
{
    if !args1(line, verb, a)? {
        return Ok(false);
    }
    args3(line, "", b, c, d)
}

/// Appends a verb and a word for each item.
fn list<A: Item>(line: &mut String, verb: &str, items: &[A]) -> Result<bool, AllocError>
    ensures { Adds result (option_map (λ left. verb.now ++ behind left) (words_for A.spelled items.now)) (string_bytes line.old) (string_bytes line.new) }
{
    line.push_str(verb)?;
    let mut left = items;
    while let [item, rest @ ..] = left {
        line.push_str(" ")?;
        if !item.spell(line)? {
            return Ok(false);
        }
        left = rest;
    }
    Ok(true)
}

/// Appends a verb and a word for each name.
#[tactic(auto, unfolding(crate::specs::Spelling::spoken, crate::specs::Spelling::writes))]
pub(crate) fn names(
    line: &mut String,
    verb: &str,
    items: &[ImmutableString],
) -> Result<bool, AllocError>
    ensures { Adds result (spoken verb.now names items.now) (string_bytes line.old) (string_bytes line.new) }
{
    list(line, verb, items)
}

/// Appends a verb and a word for each name, flagged or not.
#[tactic(auto, unfolding(crate::specs::Spelling::spoken, crate::specs::Spelling::writes))]
pub(crate) fn flagged_names(
    line: &mut String,
    verb: &str,
    items: &[(ImmutableString, bool)],
) -> Result<bool, AllocError>
    ensures { Adds result (spoken verb.now flagged_names items.now) (string_bytes line.old) (string_bytes line.new) }
{
    list(line, verb, items)
}

/// Appends a verb, and an alias unless it is empty.
#[tactic(auto, unfolding(crate::specs::Spelling::spoken, crate::specs::Spelling::writes))]
fn add_alias(line: &mut String, verb: &str, alias: &ImmutableString) -> Result<bool, AllocError>
    ensures { Adds result (spoken verb.now an_alias alias.now) (string_bytes line.old) (string_bytes line.new) }
{
    if alias.is_empty() {
        return add(line, verb);
    }
    args1(line, verb, alias)
}

/// Appends a verb, a name, and an alias unless it is empty.
pub(crate) fn name_and_alias(
    line: &mut String,
    verb: &str,
    name: &ImmutableString,
    alias: &ImmutableString,
) -> Result<bool, AllocError>
    ensures { Adds result (spoken verb.now (before a_name an_alias) (name.now, alias.now)) (string_bytes line.old) (string_bytes line.new) }
{
    if !args1(line, verb, name)? {
        return Ok(false);
    }
    add_alias(line, "", alias)
}

fn has_feed(text: &str) -> bool
    ensures { result ≡ has_feed text.now }
{
    text.as_bytes().contains(&b'\n')
}

/// Appends a verb and a text, unless that is empty.
#[tactic(auto, unfolding(crate::specs::Spelling::spoken, crate::specs::Spelling::writes))]
pub(crate) fn text(line: &mut String, verb: &str, text: &str) -> Result<bool, AllocError>
    ensures { Adds result (spoken verb.now a_text (chars text.now)) (string_bytes line.old) (string_bytes line.new) }
{
    line.push_str(verb)?;
    if text.is_empty() {
        return Ok(true);
    }
    if has_feed(text) {
        return Ok(false);
    }
    line.push_str(" ")?;
    add(line, text)
}

/// Appends a verb and a character.
#[tactic(auto, unfolding(crate::specs::Spelling::spoken, crate::specs::Spelling::writes))]
pub(crate) fn character(line: &mut String, verb: &str, c: char) -> Result<bool, AllocError>
    ensures { Adds result (spoken verb.now a_char c) (string_bytes line.old) (string_bytes line.new) }
{
    let mut buffer = [0; 4];
    text(line, verb, c.encode_utf8(&mut buffer))
}

/// Appends a byte as two hexadecimal digits.
fn add_byte(line: &mut String, byte: u8) -> Result<(), AllocError>
    ensures { OnOk result (string_bytes line.new ≡ string_bytes line.old ++ hex_digits byte) }
{
    write!(line, "{byte:02x}")
}

/// Appends a verb and bytes as hexadecimal digits, unless there are none.
#[tactic(auto, unfolding(crate::specs::Spelling::spoken, crate::specs::Spelling::writes))]
pub(crate) fn blob(line: &mut String, verb: &str, bytes: &[u8]) -> Result<bool, AllocError>
    ensures { Adds result (spoken verb.now a_blob bytes.now) (string_bytes line.old) (string_bytes line.new) }
{
    line.push_str(verb)?;
    if bytes.is_empty() {
        return Ok(true);
    }
    line.push_str(" ")?;
    for byte in bytes {
        add_byte(line, *byte)?;
    }
    Ok(true)
}
