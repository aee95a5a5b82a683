//! Moving the held content out of a value.
ghost use Rattle.std.specs.Prelude.{◌≡◌, [], true, IfOk, IfErr, IsOk, Some, is_some, string_bytes};
ghost use Rattle.std.specs.Str.{chars};
ghost use Rattle.rhai_value.specs.End.{end, held_part, array_moved, IsWhyNot};
ghost use Rattle.rhai_value.specs.Parts.{text_of, blob_of, array_of};
ghost use Rattle.rhai_value.specs.Rows.{trees_of};

use crate::cells::store::Store;
use crate::parts::part::Part;
use crate::value::dynamic::Dynamic;
use crate::value::union::{Array, Blob};
use crate::walk::copy::copied_items;
use crate::walk::modes::Writable;
use crate::walk::near::NEAR;
use rhai_text::ImmutableString;
use std::alloc::{AllocError, Global};

/// Why a value's content wasn't moved out.
#[derive(Drop)]
pub enum IntoError {
    /// Another type is held; this is its name.
    Mismatch(&'static str),
    /// An allocation failed.
    Memory(AllocError),
}

impl From<AllocError> for IntoError {
    ghost use Rattle.std.specs.Prelude.{◌≡◌};
    ghost use Rattle.rhai_value.specs.declared.value.into.IntoError.TheVariants.{Memory};

    ghost from_gives = { λ refused e. e ≡ Memory refused };

    fn from(refused: AllocError) -> IntoError {
        IntoError::Memory(refused)
    }
}

/// After an `Err` the value is gone. A value's own content is moved without an allocation, except
/// by `into_string`.
impl Dynamic {
    /// Moves the held text out, as a `String`.
    /// Errors: `Mismatch` with the name of the held type; `Memory` if the allocation of the text
    /// fails.
    /// Cost: the length of the text; memory for it.
    /// rhai: `Dynamic::into_string`.
    pub fn into_string(self, alloc: Global, store: &Store) -> Result<String, IntoError>
        ensures ok { IfOk result (λ t. held_part text_of (end store.now [] self) ≡ Some (chars (string_bytes t))) }
        ensures err { IfErr result (λ e. IsWhyNot e text_of (end store.now [] self)) }
    {
        match self.as_immutable_string_ref(store) {
            Err(name) => Err(IntoError::Mismatch(name)),
            Ok(text) => Ok(String::from_str(alloc, text.as_str())?),
        }
    }

    /// Moves the held text out; the result shares its bytes.
    /// Errors: `Mismatch` with the name of the held type; `Memory` if an allocation for the copy
    /// fails.
    /// Cost: that of `Dynamic::held`, and for a holder that of `ImmutableString::copy`.
    /// rhai: `Dynamic::into_immutable_string`.
    #[tactic(auto, using(crate::proofs::InStores::own_text))]
    pub fn into_immutable_string(
        self,
        alloc: Global,
        store: &Store,
    ) -> Result<ImmutableString, IntoError>
        ensures ok { IfOk result (λ t. held_part text_of (end store.now [] self) ≡ Some t) }
        ensures err { IfErr result (λ e. IsWhyNot e text_of (end store.now [] self)) }
        ensures own { is_some (text_of self) ≡ true → IsOk result }
    {
        let value = match ImmutableString::take_out(self) {
            Ok(text) => return Ok(text),
            Err(value) => value,
        };
        match value.as_immutable_string_ref(store) {
            Err(name) => Err(IntoError::Mismatch(name)),
            Ok(text) => Ok(text.copy(alloc)?),
        }
    }

    /// Moves the items of an array out; for a holder, copies the held items.
    /// Errors: `Mismatch` with the name of the held type; `Memory` if an allocation for the copies
    /// fails.
    /// Cost: constant; for a holder that of the copies.
    /// rhai: `Dynamic::into_array`.
    #[tactic(auto, using(crate::proofs::Copies::copied_trees))]
    pub fn into_array(self, alloc: Global, store: &Store) -> Result<Array, IntoError>
        ensures ok { IfOk result (λ v. array_moved store.now self ≡ Some (trees_of v.items)) }
        ensures err { IfErr result (λ e. IsWhyNot e array_of (end store.now [] self)) }
        ensures own { is_some (array_of self) ≡ true → IsOk result }
    {
        let value = match Array::take_out(self) {
            Ok(items) => return Ok(items),
            Err(value) => value,
        };
        match value.as_array_ref(store) {
            Err(name) => Err(IntoError::Mismatch(name)),
            Ok(items) => Ok(copied_items::<Writable>(items, alloc, NEAR)?),
        }
    }

    /// Moves the bytes of a blob out; for a holder, copies the held bytes.
    /// Errors: `Mismatch` with the name of the held type; `Memory` if the allocation of the copy
    /// fails.
    /// Cost: constant; for a holder the number of bytes.
    /// rhai: `Dynamic::into_blob`.
    #[tactic(auto, using(crate::proofs::InStores::own_blob))]
    pub fn into_blob(self, alloc: Global, store: &Store) -> Result<Blob, IntoError>
        ensures ok { IfOk result (λ v. held_part blob_of (end store.now [] self) ≡ Some v.items) }
        ensures err { IfErr result (λ e. IsWhyNot e blob_of (end store.now [] self)) }
        ensures own { is_some (blob_of self) ≡ true → IsOk result }
    {
        let value = match Blob::take_out(self) {
            Ok(bytes) => return Ok(bytes),
            Err(value) => value,
        };
        match value.as_blob_ref(store) {
            Err(name) => Err(IntoError::Mismatch(name)),
            Ok(bytes) => Ok(Vec::from_slice(alloc, bytes)?),
        }
    }
}
