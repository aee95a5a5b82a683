//! Functions on maps. A call works on a map, as `Dynamic::as_map_mut`, `InStore::map_mut` or
//! `Map::own_mut` borrows it. Contracts see its rows, by ascending keys.
//!
//! Where rhai returns `()`, since there is no such key, these calls return `None`. No limit
//! applies: `Limits` has none for entries.
ghost use Rattle.std.specs.Prelude.{map as map_list, ◌≡◌, ◌↔◌, [], length, true, is_some, option_copied, Some, IfOk, IfErr, IsOk, IsTrue, OnErr, OnOk};
ghost use Rattle.std.specs.BTreeMap.{insert_entry, is_at};
ghost use Rattle.std.specs.Map.{keys_of, lookup, remove_entry, values_of};
ghost use Rattle.std.specs.Str.{chars};
ghost use Rattle.rhai_value.specs.Rows.{bytes_cmp};
ghost use Rattle.rhai_value.specs.Tree.{copy, fresh, text};
ghost use Rattle.rhai_packs.specs.Entries.{IsPartly, filled, mixed};

mod json;

pub use json::to_json;
use rhai_value::{Array, Dynamic, Map};
use std::alloc::{AllocError, Global};

/// Returns the number of entries.
/// Cost: constant.
/// rhai: `len`.
pub fn len(map: &Map) -> usize
    ensures { result ≡ length map.now }
{
    map.len()
}

/// Returns whether the map is empty.
/// Cost: constant.
/// rhai: `is_empty`.
pub fn is_empty(map: &Map) -> bool
    ensures { IsTrue result ↔ (map.now ≡ []) }
{
    map.is_empty()
}

/// Returns whether the map has a key.
/// Cost: the logarithm of the number of entries.
/// rhai: `contains`.
pub fn contains(map: &Map, key: &str) -> bool
    ensures { result ≡ is_some (lookup (is_at (bytes_cmp key.now)) map.now) }
{
    map.contains_key(key)
}

/// Borrows the value of a key, if the map has it.
/// Cost: the logarithm of the number of entries.
/// rhai: `get`.
pub fn get<'m>(map: &'m Map, key: &str) -> Option<&'m Dynamic>
    ensures { option_copied result ≡ lookup (is_at (bytes_cmp key.now)) map.now }
{
    map.get(key)
}

/// Sets the value of a key.
/// Errors: for a new key, an allocation fails; the map is unchanged, and the value is dropped.
/// Cost: the logarithm of the number of entries; for a new key its length.
/// rhai: `set`.
pub fn set(map: &mut Map, key: &str, value: Dynamic) -> Result<(), AllocError>
    ensures set { OnOk result (map.new ≡ insert_entry bytes_cmp map.old key.now value) }
    ensures err { OnErr result (map.new ≡ map.old) }
    ensures free { is_some (lookup (is_at (bytes_cmp key.now)) map.old) ≡ true → IsOk result }
{
    match map.set(key, value) {
        Ok(_) => Ok(()),
        Err(_) => Err(AllocError),
    }
}

/// Removes a key and returns its value, if the map has it.
/// Cost: the logarithm of the number of entries.
/// rhai: `remove`.
pub fn remove(map: &mut Map, key: &str) -> Option<Dynamic>
    ensures value { result ≡ lookup (is_at (bytes_cmp key.now)) map.old }
    ensures removed { map.new ≡ remove_entry (is_at (bytes_cmp key.now)) map.old }
{
    map.remove(key)
}

/// Removes all entries.
/// Cost: their drop.
/// rhai: `clear`.
pub fn clear(map: &mut Map)
    ensures { map.new ≡ [] }
{
    map.clear();
}

/// Makes an array of the keys, in ascending order.
/// Errors: an allocation fails.
/// Cost: the length of the keys.
/// rhai: `keys`.
pub fn keys(alloc: Global, map: &Map) -> Result<Array, AllocError>
    ensures { IfOk result (λ keys. keys.items ≡ map_list (λ k. fresh (text (chars k))) (keys_of map.now)) }
{
    let mut keys = Vec::with_capacity(alloc, map.len())?;
    for (key, _) in map {
        keys.push(Dynamic::from_text(alloc, key)?)?;
    }
    Ok(keys)
}

/// Makes an array of copies of the values, by ascending keys.
/// Errors: an allocation fails.
/// Cost: that of the copies.
/// rhai: `values`.
pub fn values(alloc: Global, map: &Map) -> Result<Array, AllocError>
    ensures { IfOk result (λ values. values.items ≡ map_list copy (values_of map.now)) }
{
    let mut values = Vec::with_capacity(alloc, map.len())?;
    for (_, value) in map {
        values.push(value.copy(alloc)?)?;
    }
    Ok(values)
}

/// Inserts the entries of another map, each replacing an entry with its key.
/// Errors: for a new key, an allocation fails; the entries before it are inserted, and the others
/// are dropped.
/// Cost: for each entry the logarithm of the number of entries.
/// rhai: `mixin`.
#[tactic(auto, using(crate::proofs::Mixed::mixed_more))]
pub fn mixin(map: &mut Map, other: Map) -> Result<(), AllocError>
    ensures ok { OnOk result (map.new ≡ mixed map.old other) }
    ensures err { OnErr result (IsPartly mixed map.old other map.new) }
{
    for (key, value) in other {
        match map.insert_key(key, value) {
            Ok(_) => {}
            Err(_) => return Err(AllocError),
        }
    }
    Ok(())
}

/// Inserts the entries of another map whose keys are absent.
/// Errors: an allocation fails; the entries before that one are inserted, and the others are
/// dropped.
/// Cost: for each entry the logarithm of the number of entries.
/// rhai: `fill_with`.
#[tactic(auto, using(crate::proofs::Mixed::filled_more))]
pub fn fill_with(map: &mut Map, other: Map) -> Result<(), AllocError>
    ensures ok { OnOk result (map.new ≡ filled map.old other) }
    ensures err { OnErr result (IsPartly filled map.old other map.new) }
{
    for (key, value) in other {
        if map.contains_key(key.as_str()) {
            continue;
        }
        match map.insert_key(key, value) {
            Ok(_) => {}
            Err(_) => return Err(AllocError),
        }
    }
    Ok(())
}
