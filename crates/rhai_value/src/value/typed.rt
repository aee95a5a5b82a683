//! Type tests of held values, which follow chains of holders to their end.
ghost use Rattle.std.specs.Prelude.{◌≡◌, [], IfOk, IfErr, Some, None, is_some};
ghost use Rattle.rhai_value.specs.End.{end, held_part, end_type, end_name};
ghost use Rattle.rhai_value.specs.Items.{items_of};
ghost use Rattle.rhai_value.specs.Parts.{unit_of, bool_of, int_of, char_of, text_of, blob_of, array_of, map_of, function_of};
ghost use Rattle.rhai_value.specs.Rows.{trees_of, fields_of};
ghost use Rattle.rhai_value.specs.Types.{tree_type, type_name};

use crate::cells::store::Store;
use crate::map::Map;
use crate::value::dynamic::Dynamic;
use crate::value::fn_ptr::FnPtr;
use crate::value::type_id::TypeId;
use crate::value::union::{Array, Blob, INT, Union};
use rhai_text::ImmutableString;

/// The type of the held value. Each call follows the chain of holders and allocates nothing; a
/// value that isn't a holder reads no cell.
impl Dynamic {
    /// Returns the held type, or `TypeId::Shared` if the chain is stuck or closed.
    /// Cost: that of `held`; no memory, as for each call below.
    /// rhai: `Dynamic::type_id`.
    pub fn type_id(&self, store: &Store) -> TypeId
        ensures { result ≡ end_type (end store.now [] self.now) }
    {
        match self.held(store) {
            Some(value) => value.own_type(),
            None => TypeId::Shared,
        }
    }

    /// Returns the name of the held type, or `<shared>` if the chain is stuck or closed.
    /// Cost: that of `held`; no memory.
    /// rhai: `Dynamic::type_name`.
    pub fn type_name(&self, store: &Store) -> &'static str
        ensures { result.now ≡ end_name (end store.now [] self.now) }
    {
        self.type_id(store).name()
    }

    /// The same in a separate function, since it is only called when a call fails.
    #[cold]
    #[inline(never)]
    pub(crate) fn held_name(&self, store: &Store) -> &'static str
        ensures { result.now ≡ end_name (end store.now [] self.now) }
    {
        self.type_name(store)
    }

    pub(crate) fn own_type(&self) -> TypeId
        ensures { result ≡ tree_type self.now }
    {
        match &self.union {
            Union::Unit(_, _, _) => TypeId::Unit,
            Union::Bool(_, _, _) => TypeId::Bool,
            Union::Str(_, _, _) => TypeId::ImmutableString,
            Union::Char(_, _, _) => TypeId::Char,
            Union::Int(_, _, _) => TypeId::Int,
            Union::Array(_, _, _) => TypeId::Array,
            Union::Blob(_, _, _) => TypeId::Blob,
            Union::Map(_, _, _) => TypeId::Map,
            Union::FnPtr(_, _, _) => TypeId::FnPtr,
            Union::Variant(_, _, host) => host.type_id(),
            Union::Shared(_, _, _) => TypeId::Shared,
        }
    }

    /// Returns whether unit is held.
    /// Cost: that of `held`; no memory.
    /// rhai: `Dynamic::is_unit`.
    pub fn is_unit(&self, store: &Store) -> bool
        ensures { result ≡ is_some (held_part unit_of (end store.now [] self.now)) }
    {
        self.held_part::<()>(store).is_some()
    }

    /// Returns whether a boolean is held.
    /// Cost: that of `held`; no memory.
    /// rhai: `Dynamic::is_bool`.
    pub fn is_bool(&self, store: &Store) -> bool
        ensures { result ≡ is_some (held_part bool_of (end store.now [] self.now)) }
    {
        self.held_part::<bool>(store).is_some()
    }

    /// Returns whether an int is held.
    /// Cost: that of `held`; no memory.
    /// rhai: `Dynamic::is_int`.
    pub fn is_int(&self, store: &Store) -> bool
        ensures { result ≡ is_some (held_part int_of (end store.now [] self.now)) }
    {
        self.held_part::<INT>(store).is_some()
    }

    /// Returns whether a character is held.
    /// Cost: that of `held`; no memory.
    /// rhai: `Dynamic::is_char`.
    pub fn is_char(&self, store: &Store) -> bool
        ensures { result ≡ is_some (held_part char_of (end store.now [] self.now)) }
    {
        self.held_part::<char>(store).is_some()
    }

    /// Returns whether a text is held.
    /// Cost: that of `held`; no memory.
    /// rhai: `Dynamic::is_string`.
    pub fn is_string(&self, store: &Store) -> bool
        ensures { result ≡ is_some (held_part text_of (end store.now [] self.now)) }
    {
        self.held_part::<ImmutableString>(store).is_some()
    }

    /// Returns whether an array is held.
    /// Cost: that of `held`; no memory.
    /// rhai: `Dynamic::is_array`.
    pub fn is_array(&self, store: &Store) -> bool
        ensures { result ≡ is_some (held_part array_of (end store.now [] self.now)) }
    {
        self.held_part::<Array>(store).is_some()
    }

    /// Returns whether a blob is held.
    /// Cost: that of `held`; no memory.
    /// rhai: `Dynamic::is_blob`.
    pub fn is_blob(&self, store: &Store) -> bool
        ensures { result ≡ is_some (held_part blob_of (end store.now [] self.now)) }
    {
        self.held_part::<Blob>(store).is_some()
    }

    /// Returns whether a map is held.
    /// Cost: that of `held`; no memory.
    /// rhai: `Dynamic::is_map`.
    pub fn is_map(&self, store: &Store) -> bool
        ensures { result ≡ is_some (held_part map_of (end store.now [] self.now)) }
    {
        self.held_part::<Map>(store).is_some()
    }

    /// Returns whether a function pointer is held.
    /// Cost: that of `held`; no memory.
    /// rhai: `Dynamic::is_fnptr`.
    pub fn is_fnptr(&self, store: &Store) -> bool
        ensures { result ≡ is_some (held_part function_of (end store.now [] self.now)) }
    {
        self.held_part::<FnPtr>(store).is_some()
    }
}

/// The held content by type; if the type differs, the error is its name.
impl Dynamic {
    /// Returns the held unit.
    /// Errors: the name of the held type.
    /// Cost: that of `held`; no memory.
    /// rhai: `Dynamic::as_unit`.
    pub fn as_unit(&self, store: &Store) -> Result<(), &'static str>
        ensures ok { IfOk result (λ v. held_part unit_of (end store.now [] self.now) ≡ Some v) }
        ensures err { IfErr result (λ name. (held_part unit_of (end store.now [] self.now) ≡ None)
            × (name.now ≡ end_name (end store.now [] self.now))) }
    {
        self.as_part::<()>(store).copied()
    }

    /// Returns the held boolean.
    /// Errors: the name of the held type.
    /// Cost: that of `held`; no memory.
    /// rhai: `Dynamic::as_bool`.
    pub fn as_bool(&self, store: &Store) -> Result<bool, &'static str>
        ensures ok { IfOk result (λ v. held_part bool_of (end store.now [] self.now) ≡ Some v) }
        ensures err { IfErr result (λ name. (held_part bool_of (end store.now [] self.now) ≡ None)
            × (name.now ≡ end_name (end store.now [] self.now))) }
    {
        self.as_part::<bool>(store).copied()
    }

    /// Returns the held int.
    /// Errors: the name of the held type.
    /// Cost: that of `held`; no memory.
    /// rhai: `Dynamic::as_int`.
    pub fn as_int(&self, store: &Store) -> Result<INT, &'static str>
        ensures ok { IfOk result (λ v. held_part int_of (end store.now [] self.now) ≡ Some v) }
        ensures err { IfErr result (λ name. (held_part int_of (end store.now [] self.now) ≡ None)
            × (name.now ≡ end_name (end store.now [] self.now))) }
    {
        self.as_part::<INT>(store).copied()
    }

    /// Returns the held character.
    /// Errors: the name of the held type.
    /// Cost: that of `held`; no memory.
    /// rhai: `Dynamic::as_char`.
    pub fn as_char(&self, store: &Store) -> Result<char, &'static str>
        ensures ok { IfOk result (λ v. held_part char_of (end store.now [] self.now) ≡ Some v) }
        ensures err { IfErr result (λ name. (held_part char_of (end store.now [] self.now) ≡ None)
            × (name.now ≡ end_name (end store.now [] self.now))) }
    {
        self.as_part::<char>(store).copied()
    }

    /// Borrows the held text.
    /// Errors: the name of the held type.
    /// Cost: that of `held`; no memory.
    /// rhai: `Dynamic::as_immutable_string_ref`.
    pub fn as_immutable_string_ref<'s>(
        &'s self,
        store: &'s Store,
    ) -> Result<&'s ImmutableString, &'static str>
        ensures ok { IfOk result (λ v. held_part text_of (end store.now [] self.now) ≡ Some v.now) }
        ensures err { IfErr result (λ name. (held_part text_of (end store.now [] self.now) ≡ None)
            × (name.now ≡ end_name (end store.now [] self.now))) }
    {
        self.as_part::<ImmutableString>(store)
    }

    /// Borrows the held array.
    /// Errors: the name of the held type.
    /// Cost: that of `held`; no memory.
    /// rhai: `Dynamic::as_array_ref`.
    #[tactic(auto, using(crate::proofs::Items::items_held))]
    pub fn as_array_ref<'s>(&'s self, store: &'s Store) -> Result<&'s Array, &'static str>
        ensures ok { IfOk result (λ v. held_part array_of (end store.now [] self.now) ≡ Some (trees_of v.now.items)) }
        ensures items { IfOk result (λ v. held_part items_of (end store.now [] self.now) ≡ Some v.now.items) }
        ensures err { IfErr result (λ name. (held_part array_of (end store.now [] self.now) ≡ None)
            × (name.now ≡ end_name (end store.now [] self.now))) }
    {
        self.as_part::<Array>(store)
    }

    /// Borrows the held blob.
    /// Errors: the name of the held type.
    /// Cost: that of `held`; no memory.
    /// rhai: `Dynamic::as_blob_ref`.
    pub fn as_blob_ref<'s>(&'s self, store: &'s Store) -> Result<&'s Blob, &'static str>
        ensures ok { IfOk result (λ v. held_part blob_of (end store.now [] self.now) ≡ Some v.now.items) }
        ensures err { IfErr result (λ name. (held_part blob_of (end store.now [] self.now) ≡ None)
            × (name.now ≡ end_name (end store.now [] self.now))) }
    {
        self.as_part::<Blob>(store)
    }

    /// Borrows the held map.
    /// Errors: the name of the held type.
    /// Cost: that of `held`; no memory.
    /// rhai: `Dynamic::as_map_ref`.
    pub fn as_map_ref<'s>(&'s self, store: &'s Store) -> Result<&'s Map, &'static str>
        ensures ok { IfOk result (λ v. held_part map_of (end store.now [] self.now) ≡ Some (fields_of v.now)) }
        ensures err { IfErr result (λ name. (held_part map_of (end store.now [] self.now) ≡ None)
            × (name.now ≡ end_name (end store.now [] self.now))) }
    {
        self.as_part::<Map>(store)
    }
}
