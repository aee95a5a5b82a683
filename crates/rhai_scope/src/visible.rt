//! The copy of the visible entries of a scope.
ghost use Rattle.std.specs.Prelude.{◌≡◌, ◌↔◌, ℕ, List, false, Some, IsTrue, map, option_map, IfOk};
ghost use Rattle.std.specs.Str.{chars};
ghost use Rattle.rhai_scope.specs.Entry.{copied_entry, is_constant_entry};
ghost use Rattle.rhai_scope.specs.Lookup.{last_entry, last_position, visible};
ghost use Rattle.rhai_scope.specs.NameFilter.{passes};

use crate::copy::push_copy;
use crate::name_filter::NameFilter;
use crate::records::Record;
use crate::scope::Scope;
use std::alloc::AllocError;

impl Scope {
    /// Whether the last entry of a name is at this position. It is if the name doesn't pass the
    /// filter of those behind it.
    fn is_last(&self, behind: &NameFilter, name: &str, place: usize) -> bool
        requires { passes behind.now name.now ≡ false → last_position (chars name.now) self.now ≡ Some place }
        ensures { IsTrue result ↔ (last_position (chars name.now) self.now ≡ Some place) }
    {
        if !behind.passes(name) {
            return true;
        }
        match self.search(name) {
            Some(last) => last == place,
            None => false,
        }
    }

    fn copy_visible(&self) -> Result<Vec<Record>, AllocError>
        ensures { IfOk result (λ v. v.items ≡ map copied_entry (visible self.now)) }
    {
        let mut copies = Vec::new(self.alloc);
        let mut behind = NameFilter::new();
        let mut i = self.records.len();
        while i > 0 {
            i -= 1;
            let entry = &self.records[i];
            let name = entry.name().as_str();
            if self.is_last(&behind, name, i) {
                behind.add(name);
                push_copy(self.alloc, &mut copies, entry)?;
            }
        }
        Ok(copies)
    }

    /// Copies the last entry of each name, as `copy` does, the newest first; `is_constant` of each
    /// name is unchanged.
    /// Errors: an allocation fails.
    /// Cost: that of `search` of each name, and that of the copies; only the copies allocate.
    /// rhai: `Scope::clone_visible`.
    #[tactic(auto, using(crate::proofs::Kept::constants_kept))]
    pub fn clone_visible(&self) -> Result<Scope, AllocError>
        ensures entries { IfOk result (λ s. s ≡ map copied_entry (visible self.now)) }
        ensures constants { IfOk result (λ s. (name : List ℕ) → option_map is_constant_entry (last_entry name s) ≡ option_map is_constant_entry (last_entry name self.now)) }
    {
        Scope::from_records(self.alloc, self.copy_visible()?)
    }
}
