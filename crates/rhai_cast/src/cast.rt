//! Casts, each proved once for every type.
ghost use Rattle.std.specs.Prelude.{◌≡◌, refl, true, false, List, [], map, Some, None, IfOk, IfErr, IsOk, option_map, is_some, MatchOption};
ghost use Rattle.std.specs.Borrow.{sem, LendsIf};
ghost use Rattle.std.specs.Iterator.{IsFinite, Drains};
ghost use Rattle.rhai_value.specs.End.{end, flat, flattened};
ghost use Rattle.rhai_value.specs.Tree.{Tree, TakesNoMemory, cell_of, copy};
ghost use Rattle.rhai_value.specs.Types.{is_type};
ghost use Rattle.rhai_value.specs.declared.value.type_id.TypeId.{TypeId};
ghost use Rattle.rhai_value.specs.declared.value.type_id.TypeId.TheVariants as type_id;
ghost use Rattle.rhai_variant.specs.Reads.{held_type, read, viewed, written_as};
ghost use Rattle.rhai_cast.specs.Arrays.{typed_array, IsNoArray};
ghost use Rattle.rhai_cast.specs.Makers.{array_made, pairs, keys_alone, IsMapOf};
ghost use Rattle.rhai_cast.specs.Casts.{is_of, is_castable, cast_whole, locked, IsNotCast};

use crate::arrays::{held_bytes, read_bytes, read_items};
use crate::lock::lent_lock;
use crate::makers::{
    copied_items, made_items, map_of_btree_map, map_of_btree_set, map_of_hash_map, map_of_hash_set,
    yielded_items,
};
use rhai_value::{Dynamic, IntoError, Store, TypeId, Union};
use rhai_variant::{CastError, Variant};
use std::alloc::{AllocError, Global};
use std::collections::{BTreeMap, BTreeSet, HashMap, HashSet};

/// The casts of `Dynamic`.
pub trait DynamicCast: Sized {
    // What contracts see of a value.
    ghost tree: { Self → Tree };

    // The value after this was written over its content of a type.
    ghost written: { TypeId → Tree → Self → Self };

    ghost is_written: { (kind : TypeId) (w : Tree) (x : Self) → tree (written kind w x) ≡ written_as kind w (tree x) };

    /// Makes a value from a Rust value, with tag 0 and mode ReadWrite; a `Dynamic` is returned as
    /// it is.
    /// Errors: a `String` is returned if an allocation fails.
    /// Cost: constant; for a `String` the length of its text, which is copied.
    /// rhai: `Dynamic::from`.
    fn of<T: Variant>(alloc: Global, x: T) -> Result<Self, T>
        ensures ok { IfOk result (λ value. tree value ≡ T.tree x) }
        ensures err { IfErr result (λ back. (back ≡ x) × (is_type T.KIND type_id.String ≡ true)) };

    /// Returns whether the value is of this type. A value that isn't a holder is judged by its
    /// constructor, so that a text is both an `ImmutableString` and a `String`; a holder by the
    /// exact held type. No value is a `Dynamic`.
    /// Cost: that of `Dynamic::held`; no memory.
    /// rhai: `Dynamic::is`.
    fn is<T: Variant>(&self, store: &Store) -> bool
        ensures { result ≡ is_of T.KIND (tree self.now) (end store.now [] (tree self.now)) };

    /// Casts the value as flattened by `flatten`; the cast to `Dynamic` is the flattened value. A
    /// value that isn't a holder is moved out.
    /// Errors: `Mismatch` with the flattened value, if another type is held; `Memory` with the
    /// original value.
    /// Cost: that of `Dynamic::flatten`; to a `String` the length of the text.
    /// rhai: `Dynamic::try_cast_result`.
    fn try_cast_result<T: Variant>(self, alloc: Global, store: &Store) -> Result<T, CastError>
        ensures ok { IfOk result (λ x. read T.KIND (flattened store.now (tree self)) ≡ Some (T.tree x)) }
        ensures err { IfErr result (λ e. IsNotCast T.KIND e store.now (tree self)) };

    /// Casts the flattened value; `None` if another type is held, which is tested before anything
    /// is copied. The value is then dropped.
    /// Errors: an allocation fails.
    /// Cost: that of `try_cast_result`.
    /// rhai: `Dynamic::try_cast`.
    fn try_cast<T: Variant>(self, alloc: Global, store: &Store) -> Result<Option<T>, AllocError>
        ensures value { IfOk result (λ found. option_map T.tree found ≡ read T.KIND (flattened store.now (tree self))) }
        ensures own { cell_of (tree self) ≡ None → is_type T.KIND type_id.String ≡ false → IsOk result }
        ensures unread { read T.KIND (flattened store.now (tree self)) ≡ None → IsOk result }
        ensures free { TakesNoMemory (flattened store.now (tree self)) → is_type T.KIND type_id.String ≡ false → IsOk result };

    /// Casts a value that holds the type; the cast to `Dynamic` is the value itself, with its
    /// holders.
    /// Errors: an allocation fails.
    /// Cost: that of `try_cast_result`.
    /// rhai: `Dynamic::cast`, which panics if another type is held.
    fn cast<T: Variant>(self, alloc: Global, store: &Store) -> Result<T, AllocError>
        requires { is_castable T.KIND (end store.now [] (tree self)) ≡ true }
        ensures value { IfOk result (λ x. cast_whole T.KIND store.now (tree self) ≡ Some (T.tree x)) }
        ensures dynamic { is_type T.KIND type_id.Dynamic ≡ true → IsOk result }
        ensures own { cell_of (tree self) ≡ None → is_type T.KIND type_id.String ≡ false → IsOk result }
        ensures free { TakesNoMemory (flattened store.now (tree self)) → is_type T.KIND type_id.String ≡ false → IsOk result };

    /// Casts a flat copy, as `flatten_clone` returns it, of a value that holds the type; to
    /// `Dynamic` too.
    /// Errors: an allocation fails.
    /// Cost: that of `Dynamic::flatten_clone`.
    /// rhai: `Dynamic::clone_cast`.
    fn clone_cast<T: Variant>(&self, alloc: Global, store: &Store) -> Result<T, AllocError>
        requires { is_castable T.KIND (end store.now [] (tree self.now)) ≡ true }
        ensures value { IfOk result (λ x. read T.KIND (flat store.now (tree self.now)) ≡ Some (T.tree x)) }
        ensures free { TakesNoMemory (flat store.now (tree self.now)) → is_type T.KIND type_id.String ≡ false → IsOk result };

    /// Borrows the held value as this type; for `Dynamic` the first content, as `read_whole`
    /// returns it. No value has a `String`.
    /// Cost: that of `Dynamic::held`; no memory.
    /// rhai: `Dynamic::read_lock`, which returns a guard.
    fn read_lock<'s, T: Variant>(&'s self, store: &'s Store) -> Option<&'s T>
        ensures { option_map (λ x. T.tree x.now) result ≡ locked T.KIND store.now (tree self.now) };

    /// Borrows the held value as this type mutably; for `Dynamic` the first content.
    ///
    /// One call of `lent_lock`, whose contract gives value and store after the write. Both calls
    /// exist, since an automatic proof can't call a method of the value with a clause on two
    /// sources of a borrow; such a proof uses `write_lock` of this crate, which borrows from the
    /// pair.
    /// Cost: that of `Dynamic::held`; no memory.
    /// rhai: `Dynamic::write_lock`, which returns a guard.
    fn write_lock<'s, T: Variant>(&'s mut self, store: &'s mut Store) -> Option<&'s mut T>
        ensures { option_map (λ x. T.tree x.now) result ≡ locked T.KIND store.old (tree self.old) };

    /// Borrows the value itself as this type; for a holder `None`, except as a `Dynamic`.
    /// Cost: constant; no memory.
    /// rhai: `Dynamic::downcast_ref`, which is private.
    fn downcast_ref<T: Variant>(&self) -> Option<&T>
        ensures { option_map (λ x. T.tree x.now) result ≡ viewed T.KIND (tree self.now) };

    /// Borrows the value itself as this type mutably. A write replaces the content of the value,
    /// and keeps tag and mode; for `Dynamic` it replaces the whole value.
    /// Cost: constant; no memory.
    /// rhai: `Dynamic::downcast_mut`, which is private.
    fn downcast_mut<T: Variant>(&mut self) -> Option<&mut T>
        ensures* writes_back { sem 𝓛 (LendsIf Self.row T.row self.entry result (λ w. written T.KIND (T.tree w) self.old) self.old) }
        ensures value { option_map (λ x. T.tree x.now) result ≡ viewed T.KIND (tree self.old) };

    /// Moves the items of an array out, each cast by `try_cast`; those in a cell are copied first.
    /// For a blob, returns its bytes as values of `u8`.
    /// Errors: `Mismatch` with the type name of the first item that can't be cast, `<shared>` if
    /// that item is a holder; or with the name of the held type if that isn't an array. `Memory` if
    /// an allocation fails.
    /// Cost: the casts of the items; one allocation for the vector.
    /// rhai: `Dynamic::into_typed_array`.
    fn into_typed_array<T: Variant>(self, alloc: Global, store: &Store) -> Result<Vec<T>, IntoError>
        ensures ok { IfOk result (λ xs. typed_array T.KIND store.now (tree self) ≡ Some (map T.tree xs.items)) }
        ensures err { IfErr result (λ e. IsNoArray T.KIND e store.now (tree self)) };

    /// Makes an array of these items, each made by `of`.
    /// Errors: an allocation fails; the items are dropped, as in each maker below.
    /// Cost: that of `of` for each; one allocation for the array.
    /// rhai: `Dynamic::from` of a `Vec`.
    fn from_vec<T: Variant>(alloc: Global, items: Vec<T>) -> Result<Self, AllocError>
        ensures value { IfOk result (λ value. tree value ≡ array_made (map T.tree items.items)) }
        ensures none { items.items ≡ [] → IsOk result };

    /// Makes an array of copies of these items.
    /// Errors: an allocation fails.
    /// Cost: that of `duplicate` and `of` for each; one allocation for the array.
    /// rhai: `Dynamic::from` of a slice.
    fn from_slice<T: Variant>(alloc: Global, items: &[T]) -> Result<Self, AllocError>
        ensures value { IfOk result (λ value. tree value ≡ array_made (map (λ x. copy (T.tree x)) items.now)) }
        ensures none { items.now ≡ [] → IsOk result };

    /// Makes an array of the items that the iterator yields, which must end.
    /// Errors: an allocation fails.
    /// Cost: that of `of` for each; allocations as the array grows.
    /// rhai: `FromIterator` of `Dynamic`.
    fn from_iter<T: Variant, U: IntoIterator<Item = T>>(
        alloc: Global,
        items: U,
    ) -> Result<Self, AllocError>
        requires { (it : U.IntoIter) → U.into_iter_gives items it → U.IntoIter.can_next it × IsFinite (U.IntoIter.remaining it) }
        ensures { IfOk result (λ value. (it : U.IntoIter) × (xs : List T) × U.into_iter_gives items it × Drains U.IntoIter.next_gives it xs × (tree value ≡ array_made (map T.tree xs))) };

    /// Makes a map with the keys of a hash map, each value made by `of`.
    /// Errors: an allocation fails.
    /// Cost: n log n for n entries.
    /// rhai: `Dynamic::from` of a `HashMap`.
    fn from_hash_map<T: Variant>(
        alloc: Global,
        entries: HashMap<String, T>,
    ) -> Result<Self, AllocError>
        ensures value { IfOk result (λ value. IsMapOf (pairs T.tree entries.entries) (tree value)) }
        ensures none { entries.entries ≡ [] → IsOk result };

    /// Makes a map with the keys of an ordered map, each value made by `of`.
    /// Errors: an allocation fails.
    /// Cost: n log n for n entries.
    /// rhai: `Dynamic::from` of a `BTreeMap`.
    fn from_btree_map<T: Variant>(
        alloc: Global,
        entries: BTreeMap<String, T>,
    ) -> Result<Self, AllocError>
        ensures value { IfOk result (λ value. IsMapOf (pairs T.tree entries.entries) (tree value)) }
        ensures none { entries.entries ≡ [] → IsOk result };

    /// Makes a map with unit at each of the keys of a hash set.
    /// Errors: an allocation fails.
    /// Cost: n log n for n keys.
    /// rhai: `Dynamic::from` of a `HashSet`.
    fn from_hash_set(alloc: Global, keys: HashSet<String>) -> Result<Self, AllocError>
        ensures value { IfOk result (λ value. IsMapOf (keys_alone keys.keys) (tree value)) }
        ensures none { keys.keys ≡ [] → IsOk result };

    /// Makes a map with unit at each of the keys of an ordered set.
    /// Errors: an allocation fails.
    /// Cost: n log n for n keys.
    /// rhai: `Dynamic::from` of a `BTreeSet`.
    fn from_btree_set(alloc: Global, keys: BTreeSet<String>) -> Result<Self, AllocError>
        ensures value { IfOk result (λ value. IsMapOf (keys_alone keys.keys) (tree value)) }
        ensures none { keys.keys ≡ [] → IsOk result };
}

impl DynamicCast for Dynamic {
    ghost tree = { λ t. t };

    ghost written = { written_as };

    ghost is_written = { λ kind w x. refl };

    fn of<T: Variant>(alloc: Global, x: T) -> Result<Dynamic, T> {
        x.into_dynamic(alloc)
    }

    fn is<T: Variant>(&self, store: &Store) -> bool {
        let held = self.type_id(store);
        if self.is_shared() {
            T::KIND == held
        } else {
            held_type(T::KIND) == held
        }
    }

    fn try_cast_result<T: Variant>(self, alloc: Global, store: &Store) -> Result<T, CastError> {
        let Some(holder) = holder_again(&self) else {
            return T::from_dynamic(alloc, self);
        };
        match self.flatten(alloc, store) {
            Err(back) => Err(CastError::Memory(back)),
            Ok(flat) => match T::from_dynamic(alloc, flat) {
                Ok(x) => Ok(x),
                Err(CastError::Mismatch(flat)) => Err(CastError::Mismatch(flat)),
                Err(CastError::Memory(_)) => Err(CastError::Memory(holder)),
            },
        }
    }

    fn try_cast<T: Variant>(self, alloc: Global, store: &Store) -> Result<Option<T>, AllocError> {
        match cast_or_give_back(alloc, self, store) {
            Ok(found) => Ok(found),
            Err(_) => Err(AllocError),
        }
    }

    #[tactic(auto, using(crate::proofs::Castable::moved_castable))]
    fn cast<T: Variant>(self, alloc: Global, store: &Store) -> Result<T, AllocError> {
        if T::KIND == TypeId::Dynamic {
            return read_castable(alloc, self);
        }
        match self.flatten(alloc, store) {
            Ok(flat) => read_castable(alloc, flat),
            Err(_) => Err(AllocError),
        }
    }

    #[tactic(auto, using(crate::proofs::Castable::copied_castable))]
    fn clone_cast<T: Variant>(&self, alloc: Global, store: &Store) -> Result<T, AllocError> {
        read_castable(alloc, self.flatten_clone(alloc, store)?)
    }

    fn read_lock<'s, T: Variant>(&'s self, store: &'s Store) -> Option<&'s T> {
        if T::KIND == TypeId::Dynamic {
            T::view(self.read_whole(store)?)
        } else {
            T::view(self.held(store)?)
        }
    }

    fn write_lock<'s, T: Variant>(&'s mut self, store: &'s mut Store) -> Option<&'s mut T> {
        lent_lock::<T>(T::KIND == TypeId::Dynamic, self, store)
    }

    fn downcast_ref<T: Variant>(&self) -> Option<&T> {
        T::view(self)
    }

    fn downcast_mut<T: Variant>(&mut self) -> Option<&mut T> {
        T::view_mut(self)
    }

    #[tactic(auto, using(crate::proofs::Items::typed_bytes, crate::proofs::Items::bytes_type, crate::proofs::Items::no_array, crate::proofs::Items::array_source, crate::proofs::Items::or_true, crate::proofs::Items::own_moved, crate::proofs::Items::no_bytes, crate::proofs::Items::bytes_apart))]
    fn into_typed_array<T: Variant>(
        self,
        alloc: Global,
        store: &Store,
    ) -> Result<Vec<T>, IntoError> {
        if let Some(bytes) = held_bytes::<T>(&self, store) {
            return Ok(read_bytes(bytes, alloc)?);
        }
        read_items(self.into_array(alloc, store)?, alloc, store)
    }

    fn from_vec<T: Variant>(alloc: Global, items: Vec<T>) -> Result<Dynamic, AllocError> {
        Ok(Dynamic::from_array(made_items(alloc, items)?))
    }

    fn from_slice<T: Variant>(alloc: Global, items: &[T]) -> Result<Dynamic, AllocError> {
        Ok(Dynamic::from_array(copied_items(alloc, items)?))
    }

    fn from_iter<T: Variant, U: IntoIterator<Item = T>>(
        alloc: Global,
        items: U,
    ) -> Result<Dynamic, AllocError> {
        Ok(Dynamic::from_array(yielded_items(alloc, items)?))
    }

    fn from_hash_map<T: Variant>(
        alloc: Global,
        entries: HashMap<String, T>,
    ) -> Result<Dynamic, AllocError> {
        Ok(Dynamic::from_map(map_of_hash_map(alloc, entries)?))
    }

    fn from_btree_map<T: Variant>(
        alloc: Global,
        entries: BTreeMap<String, T>,
    ) -> Result<Dynamic, AllocError> {
        Ok(Dynamic::from_map(map_of_btree_map(alloc, entries)?))
    }

    fn from_hash_set(alloc: Global, keys: HashSet<String>) -> Result<Dynamic, AllocError> {
        Ok(Dynamic::from_map(map_of_hash_set(alloc, keys)?))
    }

    fn from_btree_set(alloc: Global, keys: BTreeSet<String>) -> Result<Dynamic, AllocError> {
        Ok(Dynamic::from_map(map_of_btree_set(alloc, keys)?))
    }
}

/// The type of the values that are read as this type.
fn held_type(kind: TypeId) -> TypeId
    ensures { result ≡ held_type kind }
{
    if kind == TypeId::String {
        TypeId::ImmutableString
    } else {
        kind
    }
}

/// Returns whether the flattened value can be cast to the type, as `cast` and `clone_cast` require.
/// Cost: that of `Dynamic::held`; no memory.
#[tactic(auto, using(crate::proofs::Castable::moved_castable, crate::proofs::Castable::copied_castable))]
pub fn is_castable<T: Variant>(value: &Dynamic, store: &Store) -> bool
    ensures castable { result ≡ is_castable T.KIND (end store.now [] value.now) }
    ensures moved { result ≡ is_some (read T.KIND (flattened store.now value.now)) }
    ensures copied { result ≡ is_some (read T.KIND (flat store.now value.now)) }
{
    T::KIND == TypeId::Dynamic || held_type(T::KIND) == value.type_id(store)
}

/// Copies a holder with its mode; `None` for any other value.
fn holder_again(value: &Dynamic) -> Option<Dynamic>
    ensures { MatchOption result (cell_of value.now ≡ None) (λ again. (again ≡ value.now) × (is_some (cell_of value.now) ≡ true)) }
{
    if let Union::Shared(tag, mode, cell) = value.parts() {
        Some(Dynamic::from_parts(Union::Shared(*tag, *mode, *cell)))
    } else {
        None
    }
}

/// Casts by move, as `DynamicCast::try_cast` does, and returns the value if an allocation fails.
/// Whether a holder's value can be cast is tested before anything is copied.
/// Errors: the value, unchanged, if an allocation fails.
/// Cost: that of `DynamicCast::try_cast`.
pub fn cast_or_give_back<T: Variant>(
    alloc: Global,
    value: Dynamic,
    store: &Store,
) -> Result<Option<T>, Dynamic>
    ensures ok { IfOk result (λ found. option_map T.tree found ≡ read T.KIND (flattened store.now value)) }
    ensures err { IfErr result (λ back. back ≡ value) }
    ensures own { cell_of value ≡ None → is_type T.KIND type_id.String ≡ false → IsOk result }
    ensures unread { read T.KIND (flattened store.now value) ≡ None → IsOk result }
    ensures free { TakesNoMemory (flattened store.now value) → is_type T.KIND type_id.String ≡ false → IsOk result }
{
    if value.is_shared() && !is_castable::<T>(&value, store) {
        return Ok(None);
    }
    match value.try_cast_result::<T>(alloc, store) {
        Ok(x) => Ok(Some(x)),
        Err(CastError::Mismatch(_)) => Ok(None),
        Err(CastError::Memory(back)) => Err(back),
    }
}

/// Casts a value that can be cast. An allocation may fail only for a `String`.
pub(crate) fn read_castable<T: Variant>(alloc: Global, value: Dynamic) -> Result<T, AllocError>
    requires { is_some (read T.KIND value) ≡ true }
    ensures value { IfOk result (λ x. read T.KIND value ≡ Some (T.tree x)) }
    ensures free { is_type T.KIND type_id.String ≡ false → IsOk result }
{
    match T::from_dynamic(alloc, value) {
        Ok(x) => Ok(x),
        // no type can exclude it: which values can be cast depends on `KIND`, a `TypeId`, for any
        // `Variant`
        Err(CastError::Mismatch(_)) => unreachable!(),
        Err(CastError::Memory(_)) => Err(AllocError),
    }
}
