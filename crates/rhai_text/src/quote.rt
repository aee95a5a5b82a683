//! Quoted texts and characters, with unprintable characters escaped.
ghost use Rattle.std.specs.Prelude.{◌≡◌, [], ◌∷◌, ◌++◌, string_bytes, IsTrue, OnOk, OnErr};
ghost use Rattle.std.specs.Char.Escape.{escape_unicode};
ghost use Rattle.std.specs.List.{flat_map};
ghost use Rattle.std.specs.Str.{chars, encode_utf8_all};
ghost use Rattle.rhai_text.specs.Quote.{Extends, escaped, quoted, quoted_char, quoted_text};

use crate::immutable_string::ImmutableString;
use std::alloc::AllocError;

impl ImmutableString {
    /// Appends this text in double quotation marks, with `"`, the backslash and unprintable
    /// characters escaped. Characters past U+007F are not escaped.
    /// Errors: an allocation fails; `out` is unchanged.
    /// Cost: the length of the text; an allocation if `out` grows.
    /// rhai: `Debug` of a text.
    pub fn quoted_into(&self, out: &mut String) -> Result<(), AllocError>
        ensures characters { OnOk result (chars (string_bytes out.new) ≡ chars (string_bytes out.old) ++ quoted_text self.now) }
        ensures bytes { OnOk result (string_bytes out.new ≡ string_bytes out.old ++ encode_utf8_all (quoted_text self.now)) }
        ensures err { OnErr result (string_bytes out.new ≡ string_bytes out.old) }
    {
        quoted_text_into(self.as_str(), out)
    }
}

/// Appends a text in double quotation marks, as `ImmutableString::quoted_into` does.
/// Errors: an allocation fails; `out` is unchanged.
/// Cost: the length of the text; an allocation if `out` grows.
pub fn quoted_text_into(text: &str, out: &mut String) -> Result<(), AllocError>
    ensures characters { OnOk result (chars (string_bytes out.new) ≡ chars (string_bytes out.old) ++ quoted_text (chars text.now)) }
    ensures bytes { OnOk result (string_bytes out.new ≡ string_bytes out.old ++ encode_utf8_all (quoted_text (chars text.now))) }
    ensures err { OnErr result (string_bytes out.new ≡ string_bytes out.old) }
{
    append_quoted(text, '"', out)
}

/// Appends a character in single quotation marks, with `'`, the backslash and unprintable
/// characters escaped. Characters past U+007F are not escaped.
/// Errors: an allocation fails; `out` is unchanged.
/// rhai: `Debug` of a character.
pub fn quoted_char_into(character: char, out: &mut String) -> Result<(), AllocError>
    ensures characters { OnOk result (chars (string_bytes out.new) ≡ chars (string_bytes out.old) ++ quoted_char character) }
    ensures bytes { OnOk result (string_bytes out.new ≡ string_bytes out.old ++ encode_utf8_all (quoted_char character)) }
    ensures err { OnErr result (string_bytes out.new ≡ string_bytes out.old) }
{
    let mut buffer = [0; 4];
    append_quoted(character.encode_utf8(&mut buffer), '\'', out)
}

// Appends the whole quoted text, or nothing.
fn append_quoted(text: &str, quote: char, out: &mut String) -> Result<(), AllocError>
    ensures characters { OnOk result (chars (string_bytes out.new) ≡ chars (string_bytes out.old) ++ quoted quote (chars text.now)) }
    ensures bytes { OnOk result (string_bytes out.new ≡ string_bytes out.old ++ encode_utf8_all (quoted quote (chars text.now))) }
    ensures err { OnErr result (string_bytes out.new ≡ string_bytes out.old) }
{
    let before = out.len();
    match push_quoted(text, quote, out) {
        Ok(()) => Ok(()),
        Err(error) => {
            out.truncate(before);
            Err(error)
        }
    }
}

// The next four append their text, or a prefix of it if an allocation fails.
fn push_quoted(text: &str, quote: char, out: &mut String) -> Result<(), AllocError>
    ensures ok { OnOk result (string_bytes out.new ≡ string_bytes out.old ++ encode_utf8_all (quoted quote (chars text.now))) }
    ensures err { OnErr result (Extends (string_bytes out.old) (string_bytes out.new)) }
{
    out.push(quote)?;
    push_runs(text, quote, out)?;
    out.push(quote)
}

// Characters that aren't escaped are appended a run at a time.
fn push_runs(text: &str, quote: char, out: &mut String) -> Result<(), AllocError>
    ensures ok { OnOk result (string_bytes out.new ≡ string_bytes out.old ++ encode_utf8_all (flat_map (escaped quote) (chars text.now))) }
    ensures err { OnErr result (Extends (string_bytes out.old) (string_bytes out.new)) }
{
    let mut run = text;
    let mut rest = text.chars();
    while let Some(c) = rest.next() {
        if !stands_as_itself(c, quote) {
            let (plain, _) = run.split_at(run.len() - c.len_utf8() - rest.as_str().len());
            out.push_str(plain)?;
            push_escaped(c, quote, out)?;
            run = rest.as_str();
        }
    }
    out.push_str(run)
}

fn push_escaped(c: char, quote: char, out: &mut String) -> Result<(), AllocError>
    ensures ok { OnOk result (string_bytes out.new ≡ string_bytes out.old ++ encode_utf8_all (escaped quote c)) }
    ensures err { OnErr result (Extends (string_bytes out.old) (string_bytes out.new)) }
{
    match c {
        '\0' => out.push_str("\\0"),
        '\t' => out.push_str("\\t"),
        '\n' => out.push_str("\\n"),
        '\r' => out.push_str("\\r"),
        _ if c == '\\' || c == quote => {
            out.push('\\')?;
            out.push(c)
        }
        _ if c.is_ascii_control() => push_code(c, out),
        _ => out.push(c),
    }
}

fn push_code(c: char, out: &mut String) -> Result<(), AllocError>
    ensures ok { OnOk result (string_bytes out.new ≡ string_bytes out.old ++ encode_utf8_all (escape_unicode c)) }
    ensures err { OnErr result (Extends (string_bytes out.old) (string_bytes out.new)) }
{
    for escape in c.escape_unicode() {
        out.push(escape)?;
    }
    Ok(())
}

// Whether a character is not escaped.
fn stands_as_itself(c: char, quote: char) -> bool
    ensures { IsTrue result → escaped quote c ≡ c ∷ [] }
{
    !(c.is_ascii_control() || c == '\\' || c == quote)
}
