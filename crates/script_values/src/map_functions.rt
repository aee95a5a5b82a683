//! Functions on maps.

use crate::argument_values::{Arguments, count, map, or_unit, text};
use rhai_packs::maps;
use rhai_text::SizeKind;
use rhai_value::{Dynamic, Map, Store};
use script_faults::{FaultKind, Means, check_size, check_ways};
use script_natives::{MapChange, MapFunction, MapQuestion};

/// Calls a function that doesn't change a map, if it is one.
pub(crate) fn ask_map(
    function: Option<MapFunction>,
    means: &Means,
    store: &Store,
    held: &Dynamic,
    entries: &Map,
    arguments: &Arguments,
) -> Result<Option<Dynamic>, FaultKind> {
    match function {
        Some(MapFunction::Ask(question)) => {
            Ok(Some(map_answer(question, means, store, held, entries, arguments)?))
        }
        Some(MapFunction::Change(_)) | None => Ok(None),
    }
}

fn map_answer(
    question: MapQuestion,
    means: &Means,
    store: &Store,
    held: &Dynamic,
    entries: &Map,
    arguments: &Arguments,
) -> Result<Dynamic, FaultKind> {
    let first = &arguments.first;
    match question {
        MapQuestion::Len => Ok(count(maps::len(entries))),
        MapQuestion::IsEmpty => Ok(Dynamic::from_bool(maps::is_empty(entries))),
        MapQuestion::Contains => {
            Ok(Dynamic::from_bool(maps::contains(entries, text(first, store)?)))
        }
        MapQuestion::Get => match maps::get(entries, text(first, store)?) {
            Some(value) => Ok(value.flatten_clone(means.alloc, store)?),
            None => Ok(Dynamic::UNIT),
        },
        MapQuestion::Keys => {
            check_size(means.limits.items, entries.len(), SizeKind::Items)?;
            Ok(Dynamic::from_array(maps::keys(means.alloc, entries)?))
        }
        MapQuestion::Values => {
            check_size(means.limits.items, entries.len(), SizeKind::Items)?;
            Ok(Dynamic::from_array(maps::values(means.alloc, entries)?))
        }
        MapQuestion::ToJson => {
            check_ways(means, store, held)?;
            let text = maps::to_json(means.alloc, store, entries)?;
            check_size(means.limits.text, text.len(), SizeKind::Text)?;
            Ok(Dynamic::from(text))
        }
    }
}

/// Changes a map, and returns the result. If an allocation fails, the arguments are unchanged; the
/// first entries of another map may be set then.
pub(crate) fn change_map(
    change: MapChange,
    means: &Means,
    store: &Store,
    entries: &mut Map,
    arguments: &mut Arguments,
) -> Result<Dynamic, FaultKind> {
    match change {
        MapChange::Set => {
            let key = text(&arguments.first, store)?;
            check_entry(means, entries, key)?;
            set(entries, key, &mut arguments.second)?;
        }
        MapChange::Remove => {
            return Ok(or_unit(maps::remove(entries, text(&arguments.first, store)?)));
        }
        MapChange::Clear => maps::clear(entries),
        MapChange::MixIn => {
            let mut other = arguments.first.copy(means.alloc)?;
            let other = map(&mut other, store)?;
            check_entries(means, entries, &other)?;
            maps::mixin(entries, other)?;
        }
        MapChange::FillWith => {
            let mut other = arguments.first.copy(means.alloc)?;
            let other = map(&mut other, store)?;
            check_entries(means, entries, &other)?;
            maps::fill_with(entries, other)?;
        }
    }
    Ok(Dynamic::UNIT)
}

/// Fails for a new key of a map that has as many entries as it may.
pub(crate) fn check_entry(means: &Means, entries: &Map, key: &str) -> Result<(), FaultKind> {
    if means.entries == 0 || entries.len() < means.entries || maps::contains(entries, key) {
        return Ok(());
    }
    Err(FaultKind::TooManyEntries)
}

/// Fails if a map would have more entries than it may with the keys of another map.
pub(crate) fn check_entries(means: &Means, entries: &Map, other: &Map) -> Result<(), FaultKind> {
    let most = entries.len().saturating_add(other.len());
    if means.entries == 0 || most <= means.entries {
        return Ok(());
    }
    let mut count = entries.len();
    for (key, _) in other {
        if !maps::contains(entries, key) {
            count = count.saturating_add(1);
        }
    }
    if count > means.entries {
        return Err(FaultKind::TooManyEntries);
    }
    Ok(())
}

/// Sets the value of a key; if an allocation fails, the value is left where it was.
fn set(entries: &mut Map, key: &str, value: &mut Dynamic) -> Result<(), FaultKind> {
    if !maps::contains(entries, key) {
        maps::set(entries, key, Dynamic::UNIT)?;
    }
    if let Some(entry) = entries.get_mut(key) {
        *entry = value.take();
    }
    Ok(())
}
