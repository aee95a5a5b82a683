//! The hash bytes of a value.
ghost use Rattle.std.specs.Prelude.{ℕ, ℤ, ◌≡◌, ◌++◌, ◌∷◌, [], true, IfOk, IfSome, IsOk, IsSome, List, None, OnOk, Some, is_some, length, option_and_then, option_map};
ghost use Rattle.std.specs.List.{All, flat_map};
ghost use Rattle.rhai_value.specs.declared.value.access_mode.AccessMode.{AccessMode};
ghost use Rattle.rhai_value.specs.declared.cells.store.Cell.{Cell};
ghost use Rattle.rhai_value.specs.Tree.{holder, node};
ghost use Rattle.rhai_value.specs.End.{first};
ghost use Rattle.rhai_value.specs.Parts.{int_of};
ghost use Rattle.rhai_value.specs.Rows.{trees_of, fields_of};
ghost use Rattle.rhai_show.specs.Plain.{plain};
ghost use Rattle.rhai_show.specs.Clean.{are_plain, values_in};
ghost use Rattle.rhai_show.specs.HashBytes.{count_bytes, name_bytes, plain_bytes, hash_bytes};
ghost use Rattle.rhai_show.specs.HashRows.{row_bytes};
ghost use Rattle.rhai_show.specs.InRange.{IsCount, IsPlainInRange, IsRowInRange, IsHashed};

use crate::hash_bytes::{add_bytes, add_count, add_leaf, add_name};
use crate::hash_far::{add_far, opened_cell};
use crate::hashable::is_hashable;
use crate::hashed_value::Hashed;
use crate::shape::{Shape, shape_of};
use rhai_value::{Dynamic, INT, Map, NEAR, Part, Path, Store};
use std::alloc::{AllocError, Global};

/// The initial capacity for a value with children, so that short results need no growth.
const FIRST_ROOM: usize = 64;

/// Appends the hash bytes of a hashable value; the cells of the path are open. Inlined into the
/// loops, since most values contain no others.
#[cycle(write)]
#[inline(always)]
fn add_value(
    store: &Store,
    path: &mut Path,
    value: &Dynamic,
    levels: u32,
    out: &mut Vec<u8>,
) -> Result<(), AllocError>
    requires { is_some (plain store.now path.old value.now) ≡ true }
    ensures bytes { OnOk result (out.new.items ≡ out.old.items ++ hash_bytes store.now path.old value.now) }
    ensures range { OnOk result (IsPlainInRange store.now path.old value.now) }
    ensures path { OnOk result (path.new ≡ path.old) }
{
    match shape_of(value) {
        Shape::Leaf(leaf) => add_leaf(out, leaf),
        Shape::Array(items) => {
            if levels == 0 {
                return add_far(store, path, value, out);
            }
            add_bytes(out, &[5])?;
            add_items(store, path, items, levels - 1, out)
        }
        Shape::Map(map) => {
            if levels == 0 {
                return add_far(store, path, value, out);
            }
            add_map(store, path, map, levels - 1, out)
        }
        Shape::Function(function) => {
            if levels == 0 {
                return add_far(store, path, value, out);
            }
            add_bytes(out, &[8])?;
            add_name(out, function.fn_name())?;
            add_items(store, path, function.curry(), levels - 1, out)
        }
        Shape::Holder => {
            if levels == 0 {
                return add_far(store, path, value, out);
            }
            add_held(store, path, value, levels - 1, out)
        }
    }
}

/// Appends the hash bytes of the content of a holder's cell.
#[cycle(write)]
#[inline(never)]
fn add_held(
    store: &Store,
    path: &mut Path,
    value: &Dynamic,
    levels: u32,
    out: &mut Vec<u8>,
) -> Result<(), AllocError>
    requires plain { is_some (plain store.now path.old value.now) ≡ true }
    requires holder { (c : ℕ) × (g : ℤ) × (m : AccessMode) × (value.now ≡ node (holder c) g m) }
    ensures bytes { OnOk result (out.new.items ≡ out.old.items ++ hash_bytes store.now path.old value.now) }
    ensures range { OnOk result (IsPlainInRange store.now path.old value.now) }
    ensures path { OnOk result (path.new ≡ path.old) }
{
    let content = opened_cell(store, path, value)?;
    add_value(store, path, content, levels, out)?;
    path.leave();
    Ok(())
}

/// Appends the number of items, and then the items.
#[cycle(write)]
#[inline(never)]
fn add_items(
    store: &Store,
    path: &mut Path,
    items: &[Dynamic],
    levels: u32,
    out: &mut Vec<u8>,
) -> Result<(), AllocError>
    requires { are_plain store.now path.old (trees_of items.now) ≡ true }
    ensures bytes { OnOk result (out.new.items ≡ out.old.items ++ (count_bytes (length items.now)
        ++ flat_map (hash_bytes store.now path.old) items.now)) }
    ensures range { OnOk result (IsCount (length items.now) × All (IsPlainInRange store.now path.old) items.now) }
    ensures path { OnOk result (path.new ≡ path.old) }
{
    add_count(out, items.len())?;
    for item in items {
        add_value(store, path, item, levels, out)?;
    }
    Ok(())
}

/// Appends the number of entries, and then each key with its value.
#[cycle(write)]
#[inline(never)]
fn add_map(
    store: &Store,
    path: &mut Path,
    map: &Map,
    levels: u32,
    out: &mut Vec<u8>,
) -> Result<(), AllocError>
    requires { are_plain store.now path.old (values_in (fields_of map.now)) ≡ true }
    ensures bytes { OnOk result (out.new.items ≡ out.old.items ++ 7 ∷ (count_bytes (length map.now)
        ++ flat_map (row_bytes (hash_bytes store.now path.old)) map.now)) }
    ensures range { OnOk result (IsCount (length map.now) × All (IsRowInRange store.now path.old) map.now) }
    ensures path { OnOk result (path.new ≡ path.old) }
{
    add_bytes(out, &[7])?;
    add_count(out, map.len())?;
    for (key, value) in map.iter() {
        add_name(out, key)?;
        add_value(store, path, value, levels, out)?;
    }
    Ok(())
}

/// The hash bytes of a value with children, once it is known to be hashable.
#[inline(never)]
#[tactic(auto, using(crate::proofs::Barred::barred_plain))]
fn hashed_below(alloc: Global, value: &Dynamic, store: &Store) -> Result<Option<Hashed>, AllocError>
    ensures bytes { IfOk result (λ o. o ≡ option_map plain_bytes (plain store.now [] value.now)) }
    ensures told { IfOk result (λ o. IfSome o (IsHashed store.now value.now)) }
    ensures barred { first store.now value.now ≡ None → IsOk result }
{
    if !is_hashable(alloc, value, store)? {
        return Ok(None);
    }
    let mut bytes = Vec::with_capacity(alloc, FIRST_ROOM)?;
    let mut path = Path::new(alloc);
    add_value(store, &mut path, value, NEAR, &mut bytes)?;
    Ok(Some(Hashed::from_bytes(bytes)))
}

/// Returns the hash bytes of a value, or `None` exactly if it isn't hashable.
/// Errors: an allocation fails.
/// Cost: for an int, also as the content of a holder's cell, constant, and no memory. For a unit,
/// boolean, character, text, blob or host value the number of its bytes, with one allocation. For
/// another value that of `is_hashable`, the number of the bytes, and for each holder on the way the
/// logarithm of the number of cells then open. A cell that is reached on several ways contributes
/// its bytes each time, so that these can be very many more than the values. Each level below the
/// 64th takes memory on a work list.
/// rhai: `Hash` of `Dynamic`, which feeds any hasher.
#[tactic(auto, using(crate::proofs::Barred::barred_plain))]
pub fn hashed(alloc: Global, value: &Dynamic, store: &Store) -> Result<Option<Hashed>, AllocError>
    ensures bytes { IfOk result (λ o. o ≡ option_map plain_bytes (plain store.now [] value.now)) }
    ensures told { IfOk result (λ o. IfSome o (IsHashed store.now value.now)) }
    ensures barred { first store.now value.now ≡ None → IsOk result }
    ensures int { IsSome (option_and_then int_of (first store.now value.now)) → IsOk result }
{
    let Some(content) = value.read_whole(store) else {
        return Ok(None);
    };
    if let Some(number) = INT::own(content) {
        return Ok(Some(Hashed::of_int(number)));
    }
    hashed_content(alloc, content, value, store)
}

/// The hash bytes of a value, given its first content.
#[inline(never)]
fn hashed_content(
    alloc: Global,
    content: &Dynamic,
    value: &Dynamic,
    store: &Store,
) -> Result<Option<Hashed>, AllocError>
    requires { Some content.now ≡ first store.now value.now }
    ensures bytes { IfOk result (λ o. o ≡ option_map plain_bytes (plain store.now [] value.now)) }
    ensures told { IfOk result (λ o. IfSome o (IsHashed store.now value.now)) }
{
    let Shape::Leaf(leaf) = shape_of(content) else {
        return hashed_below(alloc, value, store);
    };
    let mut bytes = Vec::new(alloc);
    add_leaf(&mut bytes, leaf)?;
    Ok(Some(Hashed::from_bytes(bytes)))
}
