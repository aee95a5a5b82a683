//! Arrays and maps made from Rust's collections, item by item.
ghost use Rattle.std.specs.Prelude.{◌≡◌, [], List, map, string_bytes, IfOk, IsOk, OnOk};
ghost use Rattle.std.specs.BTreeMap.{insert_entry};
ghost use Rattle.std.specs.Iterator.{IsFinite, Drains};
ghost use Rattle.rhai_value.specs.Rows.{bytes_cmp, AreRising};
ghost use Rattle.rhai_value.specs.Tree.{copy};
ghost use Rattle.rhai_cast.specs.Makers.{pairs, keys_alone, HasLast};

use rhai_value::{Dynamic, Map};
use rhai_variant::Variant;
use std::alloc::{AllocError, Global};
use std::collections::{BTreeMap, BTreeSet, HashMap, HashSet};

/// The value made from a Rust value.
fn made<T: Variant>(alloc: Global, x: T) -> Result<Dynamic, AllocError>
    ensures { IfOk result (λ value. value ≡ T.tree x) }
{
    match x.into_dynamic(alloc) {
        Ok(value) => Ok(value),
        Err(_) => Err(AllocError),
    }
}

/// The items of a vector as values, with one allocation for the list.
pub(crate) fn made_items<T: Variant>(
    alloc: Global,
    items: Vec<T>,
) -> Result<Vec<Dynamic>, AllocError>
    ensures items { IfOk result (λ values. values.items ≡ map T.tree items.items) }
    ensures none { items.items ≡ [] → IsOk result }
{
    let mut values = Vec::with_capacity(alloc, items.len())?;
    for item in items {
        values.push_reserved(made(alloc, item)?);
    }
    Ok(values)
}

/// Copies of the items of a slice as values, with one allocation for the list.
pub(crate) fn copied_items<T: Variant>(
    alloc: Global,
    items: &[T],
) -> Result<Vec<Dynamic>, AllocError>
    ensures items { IfOk result (λ values. values.items ≡ map (λ x. copy (T.tree x)) items.now) }
    ensures none { items.now ≡ [] → IsOk result }
{
    let mut values = Vec::with_capacity(alloc, items.len())?;
    for item in items {
        values.push_reserved(made(alloc, item.duplicate(alloc)?)?);
    }
    Ok(values)
}

/// The items of an iterator as values.
pub(crate) fn yielded_items<T: Variant, U: IntoIterator<Item = T>>(
    alloc: Global,
    items: U,
) -> Result<Vec<Dynamic>, AllocError>
    requires { (it : U.IntoIter) → U.into_iter_gives items it → U.IntoIter.can_next it × IsFinite (U.IntoIter.remaining it) }
    ensures { IfOk result (λ values. (it : U.IntoIter) × (xs : List T) × U.into_iter_gives items it × Drains U.IntoIter.next_gives it xs × (values.items ≡ map T.tree xs)) }
{
    let mut values = Vec::new(alloc);
    for item in items {
        values.push(made(alloc, item)?)?;
    }
    Ok(values)
}

/// Inserts a value at a key, replacing an old one.
fn put(map: &mut Map, key: String, value: Dynamic) -> Result<(), AllocError>
    ensures put { OnOk result (map.new ≡ insert_entry bytes_cmp map.old (string_bytes key) value) }
    ensures rising { OnOk result (AreRising map.new) }
{
    match map.insert(key, value) {
        Ok(_old) => Ok(()),
        Err(_back) => Err(AllocError),
    }
}

/// The entries of an ordered map as values.
pub(crate) fn map_of_btree_map<T: Variant>(
    alloc: Global,
    entries: BTreeMap<String, T>,
) -> Result<Map, AllocError>
    ensures entries { IfOk result (HasLast (pairs T.tree entries.entries)) }
    ensures none { entries.entries ≡ [] → IsOk result }
{
    let mut map = Map::new(alloc);
    for (key, x) in entries {
        put(&mut map, key, made(alloc, x)?)?;
    }
    Ok(map)
}

/// The entries of a hash map as values.
pub(crate) fn map_of_hash_map<T: Variant>(
    alloc: Global,
    entries: HashMap<String, T>,
) -> Result<Map, AllocError>
    ensures entries { IfOk result (HasLast (pairs T.tree entries.entries)) }
    ensures none { entries.entries ≡ [] → IsOk result }
{
    let mut map = Map::new(alloc);
    for (key, x) in entries {
        put(&mut map, key, made(alloc, x)?)?;
    }
    Ok(map)
}

/// The keys of an ordered set, each with unit.
pub(crate) fn map_of_btree_set(alloc: Global, keys: BTreeSet<String>) -> Result<Map, AllocError>
    ensures keys { IfOk result (HasLast (keys_alone keys.keys)) }
    ensures none { keys.keys ≡ [] → IsOk result }
{
    let mut map = Map::new(alloc);
    for key in keys {
        put(&mut map, key, Dynamic::UNIT)?;
    }
    Ok(map)
}

/// The keys of a hash set, each with unit.
pub(crate) fn map_of_hash_set(alloc: Global, keys: HashSet<String>) -> Result<Map, AllocError>
    ensures keys { IfOk result (HasLast (keys_alone keys.keys)) }
    ensures none { keys.keys ≡ [] → IsOk result }
{
    let mut map = Map::new(alloc);
    for key in keys {
        put(&mut map, key, Dynamic::UNIT)?;
    }
    Ok(map)
}
