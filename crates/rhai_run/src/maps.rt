//! Maps made from values of the hand.
ghost use Rattle.std.specs.Prelude.{◌≡◌, [], length, vec_len, is_some, true, IfOk};
ghost use Rattle.std.specs.BTreeMap.{is_at};
ghost use Rattle.std.specs.Map.{lookup, set_value};
ghost use Rattle.rhai_value.specs.Rows.{bytes_cmp};
ghost use Rattle.rhai_run.specs.Made.{rows_with, rows_of_keys};

use crate::vectors::replace_at;
use rhai_text::ImmutableString;
use rhai_value::{Dynamic, Map};
use std::alloc::{AllocError, Global};

/// The map of the keys, each with unit: makes all allocations of a new map.
pub(crate) fn map_of_keys(alloc: Global, keys: &[ImmutableString]) -> Result<Map, AllocError>
    ensures { IfOk result (λ m. m ≡ rows_of_keys keys.now) }
{
    let mut map = Map::new(alloc);
    for key in keys {
        let key = String::from_str(alloc, key.as_str())?;
        match map.insert(key, Dynamic::UNIT) {
            Ok(old) => drop(old),
            Err(_) => return Err(AllocError),
        }
    }
    Ok(map)
}

/// Moves each value to its key in the map of the keys.
pub(crate) fn move_to_keys(map: &mut Map, keys: &[ImmutableString], values: Vec<Dynamic>)
    requires keys { map.old ≡ rows_of_keys keys.now }
    requires values { vec_len values ≡ length keys.now }
    ensures { map.new ≡ rows_with [] keys.now values.items }
{
    let mut values = values;
    for i in 0..keys.len() {
        let value = replace_at(&mut values, i, Dynamic::UNIT);
        set_at(map, keys[i].as_str(), value);
    }
}

/// Replaces the value of an existing key.
fn set_at(map: &mut Map, key: &str, value: Dynamic)
    requires { is_some (lookup (is_at (bytes_cmp key.now)) map.old) ≡ true }
    ensures { map.new ≡ set_value (is_at (bytes_cmp key.now)) map.old value }
{
    if let Some(place) = map.get_mut(key) {
        *place = value;
    }
}
