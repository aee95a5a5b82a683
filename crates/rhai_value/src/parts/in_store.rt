//! A value together with its store, both mutable: the source of references into the held value.
ghost use Rattle.std.specs.Prelude.{◌≡◌, [], IfOk, IfErr, Some, None, option_map};
ghost use Rattle.std.specs.Borrow.{sem, LendsIf, LendsIfOk};
ghost use Rattle.rhai_text.specs.contracts.immutable_string.ImmutableString as text_type;
ghost use Rattle.rhai_value.specs.contracts.value.dynamic.Dynamic as dynamic_type;
ghost use Rattle.rhai_value.specs.contracts.map.Map as map_type;
ghost use Rattle.rhai_value.specs.End.{end, held_in, held_part, site_of, first, end_name};
ghost use Rattle.rhai_value.specs.Parts.{text_of, blob_of, array_of, map_of, with_content};
ghost use Rattle.rhai_value.specs.Rows.{trees_of, fields_of};
ghost use Rattle.rhai_value.specs.Tree.{leaf, branch, text, blob, array, fields};
ghost use Rattle.rhai_value.specs.Writes.{written, first_written, in_store_row, array_row, blob_row};

use crate::cells::chain::Site;
use crate::cells::store::Store;
use crate::map::Map;
use crate::value::dynamic::Dynamic;
use crate::value::union::{Array, Blob};
use rhai_text::ImmutableString;

/// A value and its store, both mutable. A reference that may come from either is borrowed from the
/// pair, so that its contract can give both after the write.
#[derive(Drop)]
pub struct InStore<'a> {
    /// The value.
    pub value: &'a mut Dynamic,
    /// The store whose cells its holders refer to.
    pub store: &'a mut Store,
}

impl<'a> InStore<'a> {
    /// Borrows the value itself, or for a holder the content of its cell, mutably; `None` if that
    /// cell is marked or not in the store.
    /// Cost: constant; no memory.
    /// rhai: `Dynamic::write_lock::<Dynamic>`.
    pub fn whole_mut(&mut self) -> Option<&mut Dynamic>
        ensures* writes_back { sem 𝓛 (LendsIf in_store_row dynamic_type.the_row self.entry result (first_written self.old) self.old) }
        ensures value { option_map (λ d. d.now) result ≡ first self.old.store.now self.old.value.now }
    {
        match self.value.first_site(self.store)? {
            Site::Here => Some(&mut *self.value),
            Site::InCell(index) => Some(self.store.content_mut(index)),
        }
    }

    /// Borrows the held value mutably; `None` if the chain is stuck or closed.
    /// Cost: that of `Dynamic::held`; no memory.
    pub fn held_mut(&mut self) -> Option<&mut Dynamic>
        ensures* writes_back { sem 𝓛 (LendsIf in_store_row dynamic_type.the_row self.entry result (λ w. written self.old (λ _. w)) self.old) }
        ensures value { option_map (λ d. d.now) result ≡ held_in (end self.old.store.now [] self.old.value.now) }
    {
        let site = self.value.held_site(self.store);
        self.held_at_mut(site)
    }

    /// Borrows the held value mutably, given its site.
    pub(crate) fn held_at_mut(&mut self, site: Option<Site>) -> Option<&mut Dynamic>
        requires { site ≡ site_of (end self.old.store.now [] self.old.value.now) }
        ensures* writes_back { sem 𝓛 (LendsIf in_store_row dynamic_type.the_row self.entry result (λ w. written self.old (λ _. w)) self.old) }
        ensures value { option_map (λ d. d.now) result ≡ held_in (end self.old.store.now [] self.old.value.now) }
    {
        match site? {
            Site::Here => Some(&mut *self.value),
            Site::InCell(index) => Some(self.store.content_mut(index)),
        }
    }
}

/// Mutable borrows of the held content by type; if the type differs, the error is its name. None of
/// these calls allocates.
impl<'a> InStore<'a> {
    /// Borrows the held text mutably.
    /// Errors: the name of the held type.
    /// Cost: that of `Dynamic::held`; no memory.
    /// rhai: `Dynamic::as_immutable_string_mut`.
    pub fn immutable_string_mut(&mut self) -> Result<&mut ImmutableString, &'static str>
        ensures* writes_back { sem 𝓛 (LendsIfOk in_store_row text_type.the_row self.entry result (λ w. written self.old (with_content (leaf (text w)))) self.old) }
        ensures ok { IfOk result (λ v. held_part text_of (end self.old.store.now [] self.old.value.now) ≡ Some v.now) }
        ensures err { IfErr result (λ name. (held_part text_of (end self.old.store.now [] self.old.value.now) ≡ None)
            × (name.now ≡ end_name (end self.old.store.now [] self.old.value.now))) }
    {
        Ok(self.part_mut::<ImmutableString>()?)
    }

    /// Borrows the held array mutably.
    /// Errors: the name of the held type.
    /// Cost: that of `Dynamic::held`; no memory.
    /// rhai: `Dynamic::as_array_mut`.
    pub fn array_mut(&mut self) -> Result<&mut Array, &'static str>
        ensures* writes_back { sem 𝓛 (LendsIfOk in_store_row array_row self.entry result (λ w. written self.old (with_content (branch array (trees_of w.items)))) self.old) }
        ensures ok { IfOk result (λ v. held_part array_of (end self.old.store.now [] self.old.value.now) ≡ Some (trees_of v.now.items)) }
        ensures err { IfErr result (λ name. (held_part array_of (end self.old.store.now [] self.old.value.now) ≡ None)
            × (name.now ≡ end_name (end self.old.store.now [] self.old.value.now))) }
    {
        Ok(self.part_mut::<Array>()?)
    }

    /// Borrows the held blob mutably.
    /// Errors: the name of the held type.
    /// Cost: that of `Dynamic::held`; no memory.
    /// rhai: `Dynamic::as_blob_mut`.
    pub fn blob_mut(&mut self) -> Result<&mut Blob, &'static str>
        ensures* writes_back { sem 𝓛 (LendsIfOk in_store_row blob_row self.entry result (λ w. written self.old (with_content (leaf (blob w.items)))) self.old) }
        ensures ok { IfOk result (λ v. held_part blob_of (end self.old.store.now [] self.old.value.now) ≡ Some v.now.items) }
        ensures err { IfErr result (λ name. (held_part blob_of (end self.old.store.now [] self.old.value.now) ≡ None)
            × (name.now ≡ end_name (end self.old.store.now [] self.old.value.now))) }
    {
        Ok(self.part_mut::<Blob>()?)
    }

    /// Borrows the held map mutably.
    /// Errors: the name of the held type.
    /// Cost: that of `Dynamic::held`; no memory.
    /// rhai: `Dynamic::as_map_mut`.
    pub fn map_mut(&mut self) -> Result<&mut Map, &'static str>
        ensures* writes_back { sem 𝓛 (LendsIfOk in_store_row map_type.the_row self.entry result (λ w. written self.old (with_content (fields (fields_of w)))) self.old) }
        ensures ok { IfOk result (λ v. held_part map_of (end self.old.store.now [] self.old.value.now) ≡ Some (fields_of v.now)) }
        ensures err { IfErr result (λ name. (held_part map_of (end self.old.store.now [] self.old.value.now) ≡ None)
            × (name.now ≡ end_name (end self.old.store.now [] self.old.value.now))) }
    {
        Ok(self.part_mut::<Map>()?)
    }
}
