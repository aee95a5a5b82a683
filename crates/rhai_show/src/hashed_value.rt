//! Hash bytes.
ghost use Rattle.std.specs.Prelude.{◌≡◌, ◌↔◌, take, IfOk, OnErr, IsTrue, nat_eq};
ghost use Rattle.std.specs.Cmp.{partial_equiv_from_equiv};
ghost use Rattle.std.specs.Cmp.Lexicographic.{bytes_decides, pointwise, nat_list_eq_equiv};
ghost use Rattle.std.specs.Hash as fed;
ghost use Rattle.std.specs.List.{flat_map};
ghost use Rattle.std.proofs.Common.{ap};
ghost use Rattle.rhai_value.specs.Tree.{int as an_int};
ghost use Rattle.rhai_show.specs.HashBytes.{leaf_bytes};
ghost use Rattle.rhai_show.specs.HashedBytes.{hashed_bytes, AreOfInt};
ghost use Rattle.rhai_show.specs.InRange.{IsLeaf};

use crate::hash_bytes::{FRONT_BYTES, front};
use rhai_value::INT;
use std::alloc::{AllocError, Global};
use std::hash::{Hash, Hasher};
use std::marker::Model;

/// The storage of hash bytes: those of an int inline, others in an allocation.
#[derive(Drop)]
pub(crate) enum HashedBytes {
    /// The number of used bytes, and the bytes, as two words.
    Short(usize, [[u8; 8]; 2]),
    Long(Vec<u8>),
}

/// The hash bytes of a value, which contracts see as the list of them.
#[derive(Drop)]
pub struct Hashed {
    bytes: HashedBytes,
}

impl Model for Hashed {
    ghost use Rattle.std.specs.Prelude.{List, ℕ};
    ghost use Rattle.rhai_show.specs.HashedBytes.{hashed_bytes, IsShortOfInt};

    ghost Value = { List ℕ };

    ghost view = { λ h. hashed_bytes h.bytes };

    ghost invariant = { λ h. IsShortOfInt h.bytes };
}

impl Hashed {
    /// Wraps bytes.
    pub fn from_bytes(bytes: Vec<u8>) -> Hashed
        ensures { result ≡ bytes.items }
    {
        Hashed {
            bytes: HashedBytes::Long(bytes),
        }
    }

    /// Makes the hash bytes of an int, without an allocation.
    pub(crate) fn of_int(value: &INT) -> Hashed
        ensures bytes { result ≡ leaf_bytes (an_int value.now) }
        ensures range { IsLeaf (an_int value.now) }
    {
        Hashed {
            bytes: HashedBytes::Short(FRONT_BYTES, front(4, value.cast_unsigned())),
        }
    }

    /// Borrows the bytes.
    pub fn bytes(&self) -> &[u8]
        ensures { result.now ≡ self.now }
    {
        match &self.bytes {
            HashedBytes::Short(len, words) => short_bytes(*len, words),
            HashedBytes::Long(bytes) => bytes.as_slice(),
        }
    }

    /// Moves the bytes out.
    /// Errors: an allocation fails; only the bytes of an int need one, since they are stored
    /// inline.
    pub fn into_bytes(self, alloc: Global) -> Result<Vec<u8>, AllocError>
        ensures ok { IfOk result (λ bytes. bytes.items ≡ self) }
        ensures err { OnErr result (AreOfInt self) }
    {
        match self.bytes {
            HashedBytes::Short(len, words) => Vec::from_slice(alloc, short_bytes(len, &words)),
            HashedBytes::Long(bytes) => Ok(bytes),
        }
    }
}

/// The used bytes of the two words.
fn short_bytes(len: usize, words: &[[u8; 8]; 2]) -> &[u8]
    ensures { result.now ≡ take len (flat_map (λ w. w) words.now) }
{
    let bytes = words.as_flattened();
    &bytes[..len.min(bytes.len())]
}

impl PartialEq for Hashed {
    ghost eq = { pointwise nat_eq };

    ghost laws = { partial_equiv_from_equiv nat_list_eq_equiv };

    fn eq(&self, other: &Self) -> bool
        ensures equal { IsTrue result ↔ (self.now ≡ other.now) }
        ensures decides { result ≡ pointwise nat_eq self.now other.now }
    {
        self.bytes() == other.bytes()
    }
}

impl Eq for Hashed {
    ghost laws = { nat_list_eq_equiv };
}

/// Hash bytes hash as the slice of them does: equal ones feed a hasher the same.
impl Hash for Hashed {
    ghost hash_input = { fed.slice fed.u8 };

    ghost respects_eq = { λ a b same. ap (fed.slice fed.u8) ((bytes_decides a b).0 same) };

    fn hash<H: Hasher>(&self, state: &mut H) {
        self.bytes().hash(state);
    }
}
