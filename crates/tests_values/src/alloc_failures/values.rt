//! What operations on values, maps and paths return.
use super::{is_text, tell};
use crate::values::holds;
use rhai_value::{Dynamic, Map, Path, Store};
use std::alloc::{AllocError, Global};
use std::io::Eprint;
use std::test::Fail;

/// Whether a text is shared; if an allocation fails, it is returned, and is shared then.
fn shares(rt: &impl Eprint, alloc: Global) -> Result<bool, AllocError> {
    let mut store = Store::new(alloc);
    let text = Dynamic::from_text(alloc, "hé")?;
    let back = match text.into_shared(&mut store) {
        Ok(holder) => return Ok(holder.is_shared() && is_text(&holder, &store, "hé")),
        Err(back) => back,
    };
    tell(rt, "Dynamic::into_shared");
    if back.is_shared() || !is_text(&back, &store, "hé") {
        return Ok(false);
    }
    match back.into_shared(&mut store) {
        Ok(holder) => Ok(holder.is_shared() && is_text(&holder, &store, "hé")),
        Err(_) => Err(AllocError),
    }
}

/// Makes a holder of a new cell with the value.
fn held(value: Dynamic, store: &mut Store) -> Result<Dynamic, AllocError> {
    match value.into_shared(store) {
        Ok(holder) => Ok(holder),
        Err(_) => Err(AllocError),
    }
}

/// Makes a holder of an array of one text.
fn listed(alloc: Global, store: &mut Store) -> Result<Dynamic, AllocError> {
    let text = Dynamic::from_text(alloc, "hé")?;
    held(Dynamic::from_array(vec![in alloc; text]?), store)
}

fn is_list(value: &Dynamic, store: &Store) -> bool {
    match value.as_array_ref(store) {
        Ok(items) => matches!(items.as_slice(), [item] if is_text(item, store, "hé")),
        Err(_) => false,
    }
}

/// Whether a holder is flattened; if an allocation fails, the holder is returned, and is flattened
/// then.
fn flattens(rt: &impl Eprint, alloc: Global) -> Result<bool, AllocError> {
    let mut store = Store::new(alloc);
    let back = match listed(alloc, &mut store)?.flatten(alloc, &store) {
        Ok(flat) => return Ok(!flat.is_shared() && is_list(&flat, &store)),
        Err(back) => back,
    };
    tell(rt, "Dynamic::flatten");
    if !back.is_shared() || !is_list(&back, &store) {
        return Ok(false);
    }
    match back.flatten(alloc, &store) {
        Ok(flat) => Ok(!flat.is_shared() && is_list(&flat, &store)),
        Err(_) => Err(AllocError),
    }
}

fn has(map: &Map, store: &Store, key: &str, wanted: i64) -> bool {
    match map.get(key) {
        Some(value) => holds(value, store, wanted),
        None => false,
    }
}

/// Whether a key is inserted; if an allocation fails, key and value are returned, the map is
/// unchanged, and the key is inserted then.
fn insert_at_last(
    rt: &impl Eprint,
    map: &mut Map,
    store: &Store,
    name: String,
    key: &str,
    value: i64,
) -> Result<bool, AllocError> {
    let before = map.len();
    let (name, int) = match map.insert(name, Dynamic::from_int(value)) {
        Ok(_) => return Ok(true),
        Err(back) => back,
    };
    tell(rt, "Map::insert");
    let is_back = name.as_str() == key
        && holds(&int, store, value)
        && map.len() == before
        && !map.contains_key(key);
    match map.insert(name, int) {
        Ok(_) => Ok(is_back),
        Err(_) => Err(AllocError),
    }
}

/// Whether five keys are inserted one by one, and the first one is kept.
fn inserts(rt: &impl Eprint, alloc: Global) -> Result<bool, AllocError> {
    let store = Store::new(alloc);
    let mut map = Map::new(alloc);
    for (key, value) in [("a", 1), ("b", 2), ("c", 3), ("d", 4), ("e", 5)] {
        let name = String::from_str(alloc, key)?;
        if !insert_at_last(rt, &mut map, &store, name, key, value)?
            || !has(&map, &store, key, value)
            || !has(&map, &store, "a", 1)
        {
            return Ok(false);
        }
    }
    Ok(true)
}

/// Whether a path enters nine cells, the first eight without allocation; if one fails, the cell
/// isn't entered, and is entered then.
fn enters(rt: &impl Eprint, alloc: Global) -> Result<bool, AllocError> {
    let mut store = Store::new(alloc);
    let mut path = Path::new(alloc);
    for i in 0..9 {
        let holder = held(Dynamic::from_int(i), &mut store)?;
        let opened = match path.enter(&store, &holder) {
            Ok(opened) => opened.is_some(),
            Err(_) => {
                tell(rt, "Path::enter");
                i == 8 && path.enter(&store, &holder)?.is_some()
            }
        };
        if !opened || path.enter(&store, &holder)?.is_some() {
            return Ok(false);
        }
    }
    Ok(true)
}

/// Whether a value is unchanged if copying it, with its holders or without, fails to allocate.
fn copies(rt: &impl Eprint, alloc: Global) -> Result<bool, AllocError> {
    let mut store = Store::new(alloc);
    let holder = listed(alloc, &mut store)?;
    let list = match holder.flatten_clone(alloc, &store) {
        Ok(list) => list,
        Err(_) => {
            tell(rt, "Dynamic::flatten_clone");
            holder.flatten_clone(alloc, &store)?
        }
    };
    let copy = match list.copy(alloc) {
        Ok(copy) => copy,
        Err(_) => {
            tell(rt, "Dynamic::copy");
            list.copy(alloc)?
        }
    };
    Ok(
        holder.is_shared()
            && is_list(&holder, &store)
            && is_list(&list, &store)
            && is_list(&copy, &store),
    )
}

#[test]
fn values_come_back(rt: HostRuntime) -> Result<(), Fail> {
    assert!(rt; shares(&rt, rt.alloc())?);
    assert!(rt; flattens(&rt, rt.alloc())?);
    assert!(rt; inserts(&rt, rt.alloc())?);
    assert!(rt; enters(&rt, rt.alloc())?);
    assert!(rt; copies(&rt, rt.alloc())?);
    Ok(())
}
