//! Items of arrays and bytes of blobs as values of one type.
ghost use Rattle.std.specs.Prelude.{◌≡◌, ◌≤◌, true, List, [], ◌∷◌, ◌++◌, length, Some, None, map, option_map, vec_capacity, IfOk, IfErr, IsOk, IsTrue, OnOk};
ghost use Rattle.rhai_value.specs.declared.cells.store.Cell.{Cell};
ghost use Rattle.rhai_value.specs.End.{end};
ghost use Rattle.rhai_value.specs.Rows.{trees_of};
ghost use Rattle.rhai_value.specs.Types.{is_type, tree_type};
ghost use Rattle.rhai_value.specs.declared.value.type_id.TypeId.TheVariants as type_id;
ghost use Rattle.rhai_cast.specs.Arrays.{byte_tree, bytes_at, is_plain, read_all, IsUnread};

use crate::cast::{DynamicCast, read_castable};
use rhai_value::{Array, Blob, Dynamic, Host, IntoError, Store, TypeId};
use rhai_variant::Variant;
use std::alloc::{AllocError, Global};

/// The flat items, read as one type. One allocation; each item is moved, or read in place.
#[tactic(auto, using(crate::proofs::Items::no_items))]
pub(crate) fn read_items<T: Variant>(
    items: Array,
    alloc: Global,
    store: &Store,
) -> Result<Vec<T>, IntoError>
    ensures ok { IfOk result (λ xs. read_all T.KIND store.now (trees_of items.items) ≡ Some (map T.tree xs.items)) }
    ensures err { IfErr result (λ e. IsUnread T.KIND e store.now (trees_of items.items)) }
{
    let mut xs = Vec::with_capacity(alloc, items.len())?;
    if is_plain(T::KIND) && add_plain(&mut xs, &items, alloc) {
        return Ok(xs);
    }
    xs.clear();
    read_each(xs, items, alloc, store)
}

/// Whether the content for this type is copied bitwise, without an allocation.
fn is_plain(kind: TypeId) -> bool
    ensures { result ≡ is_plain kind }
{
    kind.is_host()
        || matches!(
            kind,
            TypeId::Unit | TypeId::Bool | TypeId::Char | TypeId::Int
        )
}

/// Reads the items in place, if each is itself a value of the type and no holder.
fn add_plain<T: Variant>(xs: &mut Vec<T>, items: &Array, alloc: Global) -> bool
    requires kind { is_plain T.KIND ≡ true }
    requires room { (xs.old.items ≡ []) × (length items.now.items ≤ vec_capacity xs.old) }
    ensures { IsTrue result → (s : List Cell) → read_all T.KIND s (trees_of items.now.items) ≡ Some (map T.tree xs.new.items) }
{
    for item in items {
        let Some(x) = T::view(item) else {
            return false;
        };
        let Ok(x) = x.duplicate(alloc) else {
            return false;
        };
        xs.push_reserved(x);
    }
    true
}

/// The flat items, read as one type, each moved.
#[tactic(auto, using(crate::proofs::Items::none_read, crate::proofs::Items::unread_here, crate::proofs::Items::no_items))]
fn read_each<T: Variant>(
    mut xs: Vec<T>,
    items: Array,
    alloc: Global,
    store: &Store,
) -> Result<Vec<T>, IntoError>
    requires { xs.items ≡ [] }
    ensures ok { IfOk result (λ xs. read_all T.KIND store.now (trees_of items.items) ≡ Some (map T.tree xs.items)) }
    ensures err { IfErr result (λ e. IsUnread T.KIND e store.now (trees_of items.items)) }
{
    for item in items {
        let kind = own_type(&item, store);
        match item.try_cast::<T>(alloc, store)? {
            Some(x) => add(&mut xs, x)?,
            None => return Err(IntoError::Mismatch(kind.name())),
        }
    }
    Ok(xs)
}

fn add<T: Drop>(xs: &mut Vec<T>, x: T) -> Result<(), AllocError>
    ensures { OnOk result (xs.new.items ≡ xs.old.items ++ x ∷ []) }
{
    Ok(xs.push(x)?)
}

/// The type of the value itself; for a holder, `TypeId::Shared`.
#[tactic(auto, using(crate::proofs::Items::own_end_type))]
fn own_type(value: &Dynamic, store: &Store) -> TypeId
    ensures { result ≡ tree_type value.now }
{
    if value.is_shared() {
        TypeId::Shared
    } else {
        value.type_id(store)
    }
}

/// The held bytes, if the type is that of a byte.
pub(crate) fn held_bytes<'s, T: Variant>(value: &'s Dynamic, store: &'s Store) -> Option<&'s Blob>
    ensures { option_map (λ bytes. map byte_tree bytes.now.items) result ≡ bytes_at T.KIND (end store.now [] value.now) }
{
    if T::KIND == TypeId::U8 {
        value.held_part::<Blob>(store)
    } else {
        None
    }
}

/// Bytes as values of the byte type, with one allocation.
pub(crate) fn read_bytes<T: Variant>(bytes: &Blob, alloc: Global) -> Result<Vec<T>, AllocError>
    requires { is_type T.KIND type_id.U8 ≡ true }
    ensures bytes { IfOk result (λ xs. map T.tree xs.items ≡ map byte_tree bytes.now.items) }
    ensures none { bytes.now.items ≡ [] → IsOk result }
{
    let mut xs = Vec::with_capacity(alloc, bytes.len())?;
    for byte in bytes {
        xs.push(read_castable(alloc, Dynamic::from(Host::U8(*byte)))?)?;
    }
    Ok(xs)
}
