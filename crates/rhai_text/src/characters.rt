//! Characters of a text by index. An ASCII text has one byte per character; in any other the
//! preceding characters are counted.
ghost use Rattle.std.specs.Prelude.{◌≡◌, length, slice_get, option_copied};
ghost use Rattle.std.specs.Str.{chars};

use crate::immutable_string::ImmutableString;

impl ImmutableString {
    /// Returns the number of characters.
    /// Cost: constant for an ASCII text, otherwise its length.
    /// rhai: `str::chars` and `count`.
    pub fn char_count(&self) -> usize
        ensures { result ≡ length self.now }
    {
        let text = self.as_str();
        if self.is_ascii() {
            text.len()
        } else {
            count(text)
        }
    }

    /// Returns the character at an index, counted in characters from 0; `None` past the end.
    /// Cost: constant for an ASCII text, otherwise the length of the text up to that index.
    /// rhai: `str::chars` and `nth`.
    pub fn char_at(&self, index: usize) -> Option<char>
        ensures { result ≡ slice_get self.now index }
    {
        let text = self.as_str();
        if self.is_ascii() {
            let byte = byte_at(text.as_bytes(), index)?;
            Some(char::from(*byte))
        } else {
            nth(text, index)
        }
    }
}

fn byte_at(bytes: &[u8], index: usize) -> Option<&u8>
    ensures { option_copied result ≡ slice_get bytes.now index }
{
    bytes.get(index)
}

/// Counts the characters of a text.
fn count(text: &str) -> usize
    ensures { result ≡ length (chars text.now) }
{
    text.chars().count()
}

/// Finds the character at an index, by counting.
fn nth(text: &str, index: usize) -> Option<char>
    ensures { result ≡ slice_get (chars text.now) index }
{
    text.chars().nth(index)
}
