//! Entries from an iterator.
ghost use Rattle.std.specs.Prelude.{◌≡◌, ℕ, Bool, List, [], IfOk, OnOk, OnErr};
ghost use Rattle.std.specs.Iterator.{IsFinite, Drains};
ghost use Rattle.rhai_value.specs.Tree.{Tree};
ghost use Rattle.rhai_scope.specs.Extended.{extended, extended_flagged};

use crate::heading::mode_of_flag;
use crate::scope::Scope;
use rhai_text::ImmutableString;
use rhai_value::{AccessMode, Dynamic};
use std::alloc::{AllocError, Global};

impl Scope {
    /// Appends an entry for each name with its value, painted ReadWrite, in the iterator's order.
    /// No name is copied.
    /// Errors: an allocation fails; none of the entries is kept.
    /// Cost: that of a push for each; one allocation if the iterator knows its length.
    /// rhai: `Extend` of pairs, of `Scope`.
    #[tactic(auto, using(crate::proofs::Extended::extended_last, crate::proofs::Extended::taken_back))]
    pub fn extend<U: IntoIterator<Item = (ImmutableString, Dynamic)>>(
        &mut self,
        items: U,
    ) -> Result<(), AllocError>
        requires { (it : U.IntoIter) → U.into_iter_gives items it → U.IntoIter.can_next it × IsFinite (U.IntoIter.remaining it) }
        ensures ok { OnOk result ((it : U.IntoIter) × (xs : List (List ℕ × Tree)) × U.into_iter_gives items it × Drains U.IntoIter.next_gives it xs × self.new ≡ extended self.old xs) }
        ensures err { OnErr result (self.new ≡ self.old) }
    {
        let len = self.len();
        let items = items.into_iter();
        self.reserve(items.size_hint().0)?;
        for (name, value) in items {
            if self.push_entry(name, AccessMode::ReadWrite, value).is_err() {
                self.rewind(len);
                return Err(AllocError);
            }
        }
        Ok(())
    }

    /// Appends an entry for each name with its value, painted ReadOnly if its flag is `true`, and
    /// otherwise ReadWrite, as `extend` does.
    /// Errors: an allocation fails; none of the entries is kept.
    /// Cost: that of `extend`.
    /// rhai: `Extend` of triples, of `Scope`.
    #[tactic(auto, using(crate::proofs::Extended::flagged_last, crate::proofs::Extended::flagged_back))]
    pub fn extend_flagged<U: IntoIterator<Item = (ImmutableString, bool, Dynamic)>>(
        &mut self,
        items: U,
    ) -> Result<(), AllocError>
        requires { (it : U.IntoIter) → U.into_iter_gives items it → U.IntoIter.can_next it × IsFinite (U.IntoIter.remaining it) }
        ensures ok { OnOk result ((it : U.IntoIter) × (xs : List (List ℕ × Bool × Tree)) × U.into_iter_gives items it × Drains U.IntoIter.next_gives it xs × self.new ≡ extended_flagged self.old xs) }
        ensures err { OnErr result (self.new ≡ self.old) }
    {
        let len = self.len();
        let items = items.into_iter();
        self.reserve(items.size_hint().0)?;
        for (name, is_constant, value) in items {
            if self
                .push_entry(name, mode_of_flag(is_constant), value)
                .is_err()
            {
                self.rewind(len);
                return Err(AllocError);
            }
        }
        Ok(())
    }

    /// Makes a scope of these entries, as `extend` does.
    /// Errors: an allocation fails.
    /// Cost: that of `extend`.
    /// rhai: `FromIterator` of pairs, of `Scope`.
    pub fn from_pairs<U: IntoIterator<Item = (ImmutableString, Dynamic)>>(
        alloc: Global,
        items: U,
    ) -> Result<Scope, AllocError>
        requires { (it : U.IntoIter) → U.into_iter_gives items it → U.IntoIter.can_next it × IsFinite (U.IntoIter.remaining it) }
        ensures { IfOk result (λ s. (it : U.IntoIter) × (xs : List (List ℕ × Tree)) × U.into_iter_gives items it × Drains U.IntoIter.next_gives it xs × s ≡ extended [] xs) }
    {
        let mut scope = Scope::new(alloc);
        scope.extend(items)?;
        Ok(scope)
    }

    /// Makes a scope of these entries, as `extend_flagged` does.
    /// Errors: an allocation fails.
    /// Cost: that of `extend`.
    /// rhai: `FromIterator` of triples, of `Scope`.
    pub fn from_flagged<U: IntoIterator<Item = (ImmutableString, bool, Dynamic)>>(
        alloc: Global,
        items: U,
    ) -> Result<Scope, AllocError>
        requires { (it : U.IntoIter) → U.into_iter_gives items it → U.IntoIter.can_next it × IsFinite (U.IntoIter.remaining it) }
        ensures { IfOk result (λ s. (it : U.IntoIter) × (xs : List (List ℕ × Bool × Tree)) × U.into_iter_gives items it × Drains U.IntoIter.next_gives it xs × s ≡ extended_flagged [] xs) }
    {
        let mut scope = Scope::new(alloc);
        scope.extend_flagged(items)?;
        Ok(scope)
    }
}
