//! Comparing a sought name with others: by bytes at its ends if it is short, as most names are.
ghost use Rattle.std.specs.Prelude.{◌≡◌, ◌≤◌, nat_eq, length};
ghost use Rattle.std.specs.Cmp.Lexicographic.{pointwise};
ghost use Rattle.rhai_scope.specs.NameLength.{HasLength};

use crate::name_filter::word_at;

/// The length class of a name, which selects how it is compared.
#[derive(Clone, Copy)]
pub(crate) enum NameLength {
    /// One to three bytes.
    Few,
    /// Four to eight bytes.
    Short,
    /// Any number of bytes.
    Any,
}

/// Whether two texts are equal, one of which has this length class.
#[inline(always)]
pub(crate) fn is_same(own: &str, name: &str, len: NameLength) -> bool
    requires { HasLength len name.now }
    ensures { result ≡ pointwise nat_eq own.now name.now }
{
    match len {
        NameLength::Few => {
            own.len() == name.len() && is_same_by_bytes(own.as_bytes(), name.as_bytes())
        }
        NameLength::Short => {
            own.len() == name.len() && is_same_by_words(own.as_bytes(), name.as_bytes())
        }
        NameLength::Any => own == name,
    }
}

/// Compares the last byte, the middle one and the first. The last comes first, since names of one
/// script share beginnings more often than ends.
fn is_same_by_bytes(own: &[u8], name: &[u8]) -> bool
    requires { (1 ≤ length name.now) × (length name.now ≤ 3) × (length own.now ≡ length name.now) }
    ensures { result ≡ pointwise nat_eq own.now name.now }
{
    let (middle, last) = (name.len() / 2, name.len() - 1);
    own[last] == name[last] && own[middle] == name[middle] && own[0] == name[0]
}

/// Compares the last four bytes and the first four, which may overlap.
fn is_same_by_words(own: &[u8], name: &[u8]) -> bool
    requires { (4 ≤ length name.now) × (length name.now ≤ 8) × (length own.now ≡ length name.now) }
    ensures { result ≡ pointwise nat_eq own.now name.now }
{
    let last = name.len() - 4;
    word_at(own, last) == word_at(name, last) && word_at(own, 0) == word_at(name, 0)
}
