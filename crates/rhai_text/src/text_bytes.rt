//! The storage of a text's bytes.
ghost use Rattle.std.specs.Prelude.{◌≡◌, ◌++◌, ◌+◌, ◌≤◌, length, IsTrue, OnErr, OnOk};
ghost use Rattle.std.specs.Str.{chars, IsAscii};
ghost use Rattle.rhai_text.specs.Bytes.{text_bytes};

use crate::long_text::LongText;
use arrayvec::ArrayString;
use std::alloc::{AllocError, Global};

/// The most bytes of a text that needs no second allocation: a name mostly has fewer.
pub(crate) const SHORT_BYTES: usize = 24;

/// The bytes of a text: few are stored beside the reference count, more in their own allocation.
#[derive(Drop)]
pub(crate) enum TextBytes {
    Short(ArrayString<SHORT_BYTES>),
    Long(LongText),
}

impl TextBytes {
    /// Stores the concatenation of three texts inline if it is short, and returns whether it is.
    #[inline(always)]
    pub(crate) fn fill(&mut self, front: &str, middle: &str, back: &str) -> bool
        requires { length front.now + (length middle.now + length back.now) ≤ SHORT_BYTES }
        ensures { IsTrue result → text_bytes self.new ≡ front.now ++ (middle.now ++ back.now) }
    {
        match self {
            TextBytes::Short(short) => {
                short.clear();
                short.push_str(front);
                short.push_str(middle);
                short.push_str(back);
                true
            }
            TextBytes::Long(_) => false,
        }
    }

    /// Appends a text in place: few bytes stay beside the count, more get an allocation that grows.
    /// Errors: an allocation fails, and the bytes are unchanged.
    #[tactic(auto, using(crate::proofs::Texts::chars_two))]
    pub(crate) fn push_str(&mut self, alloc: Global, more: &str) -> Result<(), AllocError>
        ensures ok { OnOk result (chars (text_bytes self.new) ≡ chars (text_bytes self.old) ++ chars more.now) }
        ensures err { OnErr result (text_bytes self.new ≡ text_bytes self.old) }
    {
        let len = self.as_str().len();
        match self {
            TextBytes::Short(short) => {
                if len.saturating_add(more.len()) <= SHORT_BYTES {
                    short.push_str(more);
                    return Ok(());
                }
                let mut long = String::with_capacity(alloc, room_for(len, more.len()))?;
                long.push_str(short.as_str())?;
                long.push_str(more)?;
                *self = TextBytes::Long(LongText::new(long));
                Ok(())
            }
            TextBytes::Long(long) => long.push_str(more),
        }
    }

    /// Returns whether each character is known to be one byte. For few bytes that isn't stored:
    /// counting them is as quick.
    #[inline(always)]
    pub(crate) fn is_ascii(&self) -> bool
        ensures { IsTrue result → IsAscii (text_bytes self.now) }
    {
        match self {
            TextBytes::Short(_) => false,
            TextBytes::Long(long) => long.is_ascii(),
        }
    }

    #[inline(always)]
    pub(crate) fn as_str(&self) -> &str
        ensures { result.now ≡ text_bytes self.now }
    {
        match self {
            TextBytes::Short(short) => short.as_str(),
            TextBytes::Long(long) => long.as_str(),
        }
    }
}

/// The new capacity of a growing text: twice its length, or what is needed if that is more.
fn room_for(len: usize, more: usize) -> usize {
    len.saturating_mul(2).max(len.saturating_add(more))
}
