//! A text whose copies share its bytes, with its reads and comparisons.
ghost use Rattle.std.specs.Prelude.{◌≡◌, ◌↔◌, ◌++◌, [], length, IfOk, IsTrue, OnErr, OnOk, Some, nat_eq, refl, string_bytes};
ghost use Rattle.std.specs.Cmp.{partial_equiv_from_equiv};
ghost use Rattle.std.specs.Cmp.Lexicographic.{bytes_decides, pointwise, slice_cmp, nat_list_eq_equiv, nat_list_cmp_total, texts_po, texts_ties};
ghost use Rattle.std.specs.Hash as fed;
ghost use Rattle.std.specs.Ordering.{nat_cmp};
ghost use Rattle.std.specs.Str.{chars, encode_utf8_all, IsAscii};
ghost use Rattle.std.proofs.Common.{ap};
ghost use Rattle.rhai_text.specs.Bytes.{text_bytes};

use crate::bytes_order::{equal_texts, order_of_texts};
use crate::long_text::LongText;
use crate::text_bytes::{SHORT_BYTES, TextBytes};
use arrayvec::ArrayString;
use std::alloc::{AllocError, Global};
use std::cmp::Ordering;
use std::hash::{Hash, Hasher};
use std::marker::Model;
use std::rc::Rc;

/// A text whose copies share its bytes: it is changed in place only if no copy shares them.
/// Contracts see it as the list of its characters. It is one pointer wide.
/// rhai: `ImmutableString`.
#[derive(Drop)]
pub struct ImmutableString {
    bytes: Rc<TextBytes>,
}

impl Model for ImmutableString {
    ghost use Rattle.std.specs.Prelude.{List, ℕ};
    ghost use Rattle.std.specs.Str.{chars};
    ghost use Rattle.rhai_text.specs.Bytes.{text_bytes};

    ghost Value = { List ℕ };

    ghost view = { λ t. chars (text_bytes t.bytes.value) };
}

impl ImmutableString {
    /// Makes a text from a `&str`.
    /// Errors: an allocation fails.
    /// Cost: the length of the text; memory for the bytes and a reference count, in one allocation
    /// for at most 24 bytes.
    /// rhai: `From<&str>` of `ImmutableString`.
    pub fn from_str(alloc: Global, text: &str) -> Result<ImmutableString, AllocError>
        ensures characters { IfOk result (λ t. t ≡ chars text.now) }
        ensures bytes { IfOk result (λ t. encode_utf8_all t ≡ text.now) }
    {
        if SHORT_BYTES < text.len() {
            let long = String::from_str(alloc, text)?;
            return ImmutableString::from_string(alloc, long);
        }
        ImmutableString::of_three(alloc, text, "", "")
    }

    // The concatenation of three texts, with one allocation: a short result is written in place.
    // Inlined into each caller, so that an empty text costs nothing.
    #[inline(always)]
    pub(crate) fn of_three(
        alloc: Global,
        front: &str,
        middle: &str,
        back: &str,
    ) -> Result<ImmutableString, AllocError>
        ensures { IfOk result (λ t. t ≡ chars (front.now ++ (middle.now ++ back.now))) }
    {
        let len = front
            .len()
            .saturating_add(middle.len())
            .saturating_add(back.len());
        if len <= SHORT_BYTES {
            let Ok(mut bytes) = Rc::new(alloc, TextBytes::Short(ArrayString::new())) else {
                return Err(AllocError);
            };
            if let Some(place) = Rc::get_mut(&mut bytes) {
                if place.fill(front, middle, back) {
                    return Ok(ImmutableString { bytes });
                }
            }
        }
        let mut long = String::with_capacity(alloc, len)?;
        long.push_str(front)?;
        long.push_str(middle)?;
        long.push_str(back)?;
        ImmutableString::from_string(alloc, long)
    }

    // Makes a text from a `String`. It allocates a reference count.
    pub(crate) fn from_string(alloc: Global, text: String) -> Result<ImmutableString, AllocError>
        ensures { IfOk result (λ t. t ≡ chars (string_bytes text)) }
    {
        match Rc::new(alloc, TextBytes::Long(LongText::new(text))) {
            Ok(bytes) => Ok(ImmutableString { bytes }),
            Err(_) => Err(AllocError),
        }
    }

    /// Appends a text: in place, if no copy shares the bytes.
    /// Errors: an allocation fails, and the text is unchanged.
    /// Cost: the length of `more`, amortised, with an allocation if the capacity is exceeded; for a
    /// shared text, and for one of at most 24 bytes that becomes longer, the length of both, and
    /// memory for both.
    /// rhai: `AddAssign<&str>` of `ImmutableString`.
    pub fn push_str(&mut self, alloc: Global, more: &str) -> Result<(), AllocError>
        ensures ok { OnOk result (self.new ≡ self.old ++ chars more.now) }
        ensures err { OnErr result (self.new ≡ self.old) }
    {
        if let Some(own) = Rc::get_mut(&mut self.bytes) {
            return own.push_str(alloc, more);
        }
        *self = self.concat(alloc, more)?;
        Ok(())
    }

    /// Borrows the text as a `&str`.
    /// rhai: `ImmutableString::as_str`.
    pub fn as_str(&self) -> &str
        ensures characters { chars result.now ≡ self.now }
        ensures bytes { result.now ≡ encode_utf8_all self.now }
    {
        self.bytes.as_str()
    }

    // Whether each character is known to be one byte.
    #[inline(always)]
    pub(crate) fn is_ascii(&self) -> bool
        ensures { IsTrue result → IsAscii (encode_utf8_all self.now) }
    {
        self.bytes.is_ascii()
    }

    /// Returns the length in UTF-8 bytes.
    pub fn len(&self) -> usize
        ensures { result ≡ length (encode_utf8_all self.now) }
    {
        self.as_str().len()
    }

    /// Returns whether the text is empty.
    pub fn is_empty(&self) -> bool
        ensures { IsTrue result ↔ (self.now ≡ []) }
    {
        self.len() == 0
    }

    /// Copies the text; the copy shares its bytes.
    /// Errors: the reference count is at its limit, and the allocation of a separate text fails.
    /// Cost: constant, without memory; at that limit that of `from_str`.
    /// rhai: `Clone` of `ImmutableString`.
    pub fn copy(&self, alloc: Global) -> Result<ImmutableString, AllocError>
        ensures { IfOk result (λ t. t ≡ self.now) }
    {
        match self.bytes.clone() {
            Ok(bytes) => Ok(ImmutableString { bytes }),
            Err(_) => self.with_own_bytes(alloc),
        }
    }

    // The reference count is at its limit, so this copy gets its own bytes.
    #[cold]
    #[inline(never)]
    fn with_own_bytes(&self, alloc: Global) -> Result<ImmutableString, AllocError>
        ensures { IfOk result (λ t. t ≡ self.now) }
    {
        ImmutableString::from_str(alloc, self.as_str())
    }
}

impl PartialEq for ImmutableString {
    ghost eq = { pointwise nat_eq };

    ghost laws = { partial_equiv_from_equiv nat_list_eq_equiv };

    fn eq(&self, other: &Self) -> bool
        ensures equal { IsTrue result ↔ (self.now ≡ other.now) }
        ensures decides { result ≡ pointwise nat_eq self.now other.now }
    {
        equal_texts(self.as_str(), other.as_str())
    }
}

impl Eq for ImmutableString {
    ghost laws = { nat_list_eq_equiv };
}

impl PartialOrd for ImmutableString {
    ghost partial_cmp = { λ a b. Some (slice_cmp nat_cmp a b) };

    ghost laws = { texts_po };

    fn partial_cmp(&self, other: &Self) -> Option<Ordering> {
        Some(self.cmp(other))
    }
}

/// Texts are ordered lexicographically by their characters. That is the order of their bytes.
impl Ord for ImmutableString {
    ghost cmp = { slice_cmp nat_cmp };

    ghost total = { nat_list_cmp_total };

    ghost matches_partial_cmp = { λ a b. refl };

    ghost matches_eq = { texts_ties };

    fn cmp(&self, other: &Self) -> Ordering {
        order_of_texts(self.as_str(), other.as_str())
    }
}

/// A text hashes as the `&str` with its characters does.
impl Hash for ImmutableString {
    ghost hash_input = { λ text. fed.str (encode_utf8_all text) };

    ghost respects_eq = { λ a b same. ap (λ text. fed.str (encode_utf8_all text)) ((bytes_decides a b).0 same) };

    fn hash<H: Hasher>(&self, state: &mut H) {
        self.as_str().hash(state);
    }
}
