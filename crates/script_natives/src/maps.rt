//! Functions on maps.

/// A function on a map.
#[derive(Clone, Copy)]
pub enum MapFunction {
    /// It doesn't change the map.
    Ask(MapQuestion),
    /// It may change the map.
    Change(MapChange),
}

/// A function that doesn't change a map.
#[derive(Clone, Copy)]
pub enum MapQuestion {
    /// `len()`
    Len,
    /// `is_empty()`
    IsEmpty,
    /// `contains(key)`
    Contains,
    /// `get(key)`
    Get,
    /// `keys()`
    Keys,
    /// `values()`
    Values,
    /// `to_json()`
    ToJson,
}

/// A function that may change a map.
#[derive(Clone, Copy)]
pub enum MapChange {
    /// `set(key, value)`
    Set,
    /// `remove(key)`
    Remove,
    /// `clear()`
    Clear,
    /// `mixin(map)`
    MixIn,
    /// `fill_with(map)`
    FillWith,
}

/// Finds the function with this name and number of arguments after the map.
/// Cost: constant; no memory.
pub fn map_function(name: &str, count: usize) -> Option<MapFunction> {
    match (count, name) {
        (0, "len") => Some(MapFunction::Ask(MapQuestion::Len)),
        (0, "is_empty") => Some(MapFunction::Ask(MapQuestion::IsEmpty)),
        (1, "contains") => Some(MapFunction::Ask(MapQuestion::Contains)),
        (1, "get") => Some(MapFunction::Ask(MapQuestion::Get)),
        (0, "keys") => Some(MapFunction::Ask(MapQuestion::Keys)),
        (0, "values") => Some(MapFunction::Ask(MapQuestion::Values)),
        (0, "to_json") => Some(MapFunction::Ask(MapQuestion::ToJson)),
        (2, "set") => Some(MapFunction::Change(MapChange::Set)),
        (1, "remove") => Some(MapFunction::Change(MapChange::Remove)),
        (0, "clear") => Some(MapFunction::Change(MapChange::Clear)),
        (1, "mixin") => Some(MapFunction::Change(MapChange::MixIn)),
        (1, "fill_with") => Some(MapFunction::Change(MapChange::FillWith)),
        _ => None,
    }
}
