//! The bytes of a long text.
ghost use Rattle.std.specs.Prelude.{◌≡◌, ◌++◌, IsTrue, OnErr, OnOk, string_bytes};
ghost use Rattle.std.specs.Str.{IsAscii};

use std::alloc::AllocError;
use std::marker::Model;

/// The bytes of a long text, and whether they are known to be ASCII: each character of such a text
/// is one byte, so that a character is found by its index. Contracts see the bytes.
#[derive(Drop)]
pub(crate) struct LongText {
    text: String,
    is_ascii: bool,
}

impl Model for LongText {
    ghost use Rattle.std.specs.Prelude.{List, ℕ, IsTrue, string_bytes};
    ghost use Rattle.std.specs.Str.{IsAscii};

    ghost Value = { List ℕ };

    ghost view = { λ t. string_bytes t.text };

    ghost invariant = { λ t. IsTrue t.is_ascii → IsAscii (string_bytes t.text) };
}

impl LongText {
    pub(crate) fn new(text: String) -> LongText
        ensures { result ≡ string_bytes text }
    {
        let is_ascii = text.as_str().is_ascii();
        LongText { text, is_ascii }
    }

    #[inline(always)]
    pub(crate) fn as_str(&self) -> &str
        ensures { result.now ≡ self.now }
    {
        self.text.as_str()
    }

    /// Returns whether each character is known to be one byte.
    #[inline(always)]
    pub(crate) fn is_ascii(&self) -> bool
        ensures { IsTrue result → IsAscii self.now }
    {
        self.is_ascii
    }

    /// Appends a text.
    /// Errors: an allocation fails, and the bytes are unchanged.
    pub(crate) fn push_str(&mut self, more: &str) -> Result<(), AllocError>
        ensures ok { OnOk result (self.new ≡ self.old ++ more.now) }
        ensures err { OnErr result (self.new ≡ self.old) }
    {
        match self.text.push_str(more) {
            Ok(()) => {
                self.is_ascii = self.is_ascii && more.is_ascii();
                Ok(())
            }
            Err(_) => Err(AllocError),
        }
    }
}
