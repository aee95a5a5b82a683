//! Aliases of entries.

use rhai_text::ImmutableString;
use smallvec::SmallVec;
use std::alloc::{AllocError, Global};
use std::default::Default;
use std::marker::Model;

/// Another name of an entry. Contracts see it as its characters.
///
/// An alias list fills its unused slots with blanks, which must not allocate; so the blank is an
/// alias of no text, which is the empty name.
#[derive(Drop)]
pub struct Alias {
    name: Option<ImmutableString>,
}

/// The aliases of an entry, up to three inline.
pub type AliasList = SmallVec<Alias, 3>;

impl Model for Alias {
    ghost use Rattle.std.specs.Prelude.{List, ℕ};

    ghost Value = { List ℕ };

    ghost use Rattle.rhai_scope.specs.Alias.{alias_of};

    ghost view = { λ a. alias_of a.name };
}

ghost use Rattle.std.specs.Prelude.{◌≡◌, [], nat_eq, IfOk};
ghost use Rattle.std.specs.Cmp.Lexicographic.{pointwise};
ghost use Rattle.std.specs.Str.{chars};

impl Alias {
    /// Makes an alias of this name.
    /// Cost: constant; no memory.
    pub fn new(name: ImmutableString) -> Alias
        ensures { result ≡ name }
    {
        Alias { name: Some(name) }
    }

    /// Borrows the name.
    /// Cost: constant; no memory.
    #[tactic(auto, using(crate::proofs::Names::no_characters))]
    pub fn as_str(&self) -> &str
        ensures { chars result.now ≡ self.now }
    {
        match &self.name {
            Some(name) => name.as_str(),
            None => "",
        }
    }

    /// Whether both names are equal; compares lengths first.
    #[tactic(auto, using(crate::proofs::Names::same_bytes))]
    pub(crate) fn is_same(&self, other: &Alias) -> bool
        ensures { result ≡ pointwise nat_eq self.now other.now }
    {
        self.as_str() == other.as_str()
    }

    /// Copies the name; the copy shares its bytes.
    /// Errors: an allocation fails, as in `ImmutableString::copy`.
    /// Cost: that of `ImmutableString::copy`.
    pub fn copy(&self, alloc: Global) -> Result<Alias, AllocError>
        ensures { IfOk result (λ a. a ≡ self.now) }
    {
        let name = match &self.name {
            Some(name) => Some(name.copy(alloc)?),
            None => None,
        };
        Ok(Alias { name })
    }
}

impl Default for Alias {
    ghost is_default = { λ a. a ≡ [] };

    fn default() -> Alias {
        Alias { name: None }
    }
}
