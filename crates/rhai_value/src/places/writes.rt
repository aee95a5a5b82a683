//! Writes to what is held.
ghost use Rattle.std.specs.Prelude.{◌≡◌, [], IfOk, IfErr, Some, None, is_some};
ghost use Rattle.std.specs.Bool.{OnFalse};
ghost use Rattle.rhai_value.specs.End.{end, held_part, value_after, store_after, end_name};
ghost use Rattle.rhai_value.specs.Parts.{int_of, text_of, blob_of, array_of, map_of, with_int};
ghost use Rattle.rhai_value.specs.Rows.{trees_of, fields_of};

use crate::cells::store::Store;
use crate::map::Map;
use crate::value::dynamic::Dynamic;
use crate::value::union::{Array, Blob, INT};
use rhai_text::ImmutableString;

impl Dynamic {
    /// Replaces the held int and keeps tag and mode. Returns whether an int is held; if none is,
    /// changes nothing.
    /// Cost: that of `held`; no memory.
    pub fn set_int(&mut self, store: &mut Store, value: INT) -> bool
        ensures is_int { result ≡ is_some (held_part int_of (end store.old [] self.old)) }
        ensures own { self.new ≡ value_after (with_int value) (end store.old [] self.old) self.old }
        ensures store { store.new ≡ store_after (with_int value) (end store.old [] self.old) store.old }
        ensures stays { OnFalse result ((self.new ≡ self.old) × (store.new ≡ store.old)) }
    {
        self.put_part::<INT>(store, value).is_ok()
    }
}

/// Mutable borrows of held parts; if the type differs, the error is its name. None of these calls
/// allocates. Each is one call of `lent_part_mut` at the type, whose contract gives value and store
/// after the write. Both forms exist, since an automatic proof can't call a method of the value
/// with a clause on two sources of a borrow; such a proof uses the calls of `InStore`, which borrow
/// from the pair.
impl Dynamic {
    /// Borrows the held text mutably.
    /// Errors: the name of the held type.
    /// Cost: that of `held`; no memory.
    /// rhai: `Dynamic::as_immutable_string_mut`.
    pub fn as_immutable_string_mut<'s>(
        &'s mut self,
        store: &'s mut Store,
    ) -> Result<&'s mut ImmutableString, &'static str>
        ensures ok { IfOk result (λ v. held_part text_of (end store.old [] self.old) ≡ Some v.now) }
        ensures err { IfErr result (λ name. (held_part text_of (end store.old [] self.old) ≡ None)
            × (name.now ≡ end_name (end store.old [] self.old))) }
    {
        self.as_part_mut::<ImmutableString>(store)
    }

    /// Borrows the held array mutably.
    /// Errors: the name of the held type.
    /// Cost: that of `held`; no memory.
    /// rhai: `Dynamic::as_array_mut`.
    pub fn as_array_mut<'s>(
        &'s mut self,
        store: &'s mut Store,
    ) -> Result<&'s mut Array, &'static str>
        ensures ok { IfOk result (λ v. held_part array_of (end store.old [] self.old) ≡ Some (trees_of v.now.items)) }
        ensures err { IfErr result (λ name. (held_part array_of (end store.old [] self.old) ≡ None)
            × (name.now ≡ end_name (end store.old [] self.old))) }
    {
        self.as_part_mut::<Array>(store)
    }

    /// Borrows the held blob mutably.
    /// Errors: the name of the held type.
    /// Cost: that of `held`; no memory.
    /// rhai: `Dynamic::as_blob_mut`.
    pub fn as_blob_mut<'s>(&'s mut self, store: &'s mut Store) -> Result<&'s mut Blob, &'static str>
        ensures ok { IfOk result (λ v. held_part blob_of (end store.old [] self.old) ≡ Some v.now.items) }
        ensures err { IfErr result (λ name. (held_part blob_of (end store.old [] self.old) ≡ None)
            × (name.now ≡ end_name (end store.old [] self.old))) }
    {
        self.as_part_mut::<Blob>(store)
    }

    /// Borrows the held map mutably.
    /// Errors: the name of the held type.
    /// Cost: that of `held`; no memory.
    /// rhai: `Dynamic::as_map_mut`.
    pub fn as_map_mut<'s>(&'s mut self, store: &'s mut Store) -> Result<&'s mut Map, &'static str>
        ensures ok { IfOk result (λ v. held_part map_of (end store.old [] self.old) ≡ Some (fields_of v.now)) }
        ensures err { IfErr result (λ name. (held_part map_of (end store.old [] self.old) ≡ None)
            × (name.now ≡ end_name (end store.old [] self.old))) }
    {
        self.as_part_mut::<Map>(store)
    }
}
