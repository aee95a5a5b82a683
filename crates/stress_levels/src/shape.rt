//! Values that are nested deep, with an int at the bottom.

use rhai_text::ImmutableString;
use rhai_value::{Dynamic, FnPtr, Map, Store, Union};
use std::alloc::{AllocError, Global};

/// The kind of each level of a value.
#[derive(Clone, Copy)]
pub enum Shape {
    /// An array of one item.
    Arrays,
    /// A map of one entry.
    Maps,
    /// A function pointer with one curried value.
    Functions,
    /// These three in rotation.
    Mixed,
    /// An array of three items: the next level, with an empty array on either side.
    Sides,
}

impl Shape {
    pub const ALL: [Shape; 5] = [
        Shape::Arrays,
        Shape::Maps,
        Shape::Functions,
        Shape::Mixed,
        Shape::Sides,
    ];

    pub fn name(self) -> &'static str {
        match self {
            Shape::Arrays => "arrays",
            Shape::Maps => "maps",
            Shape::Functions => "functions",
            Shape::Mixed => "mixed",
            Shape::Sides => "sides",
        }
    }

    /// Wraps the int in this many levels.
    pub fn nested(self, alloc: Global, depth: usize) -> Result<Dynamic, AllocError> {
        let mut value = Dynamic::from_int(BOTTOM);
        for level in 0..depth {
            value = self.around(alloc, level, value)?;
        }
        Ok(value)
    }

    fn around(self, alloc: Global, level: usize, inner: Dynamic) -> Result<Dynamic, AllocError> {
        match self {
            Shape::Arrays => array_of(alloc, inner),
            Shape::Maps => map_of(alloc, inner),
            Shape::Functions => function_of(alloc, inner),
            Shape::Mixed => match level % 3 {
                0 => array_of(alloc, inner),
                1 => map_of(alloc, inner),
                _ => function_of(alloc, inner),
            },
            Shape::Sides => sides_of(alloc, inner),
        }
    }
}

/// The int at the bottom.
pub const BOTTOM: i64 = 7;

fn array_of(alloc: Global, inner: Dynamic) -> Result<Dynamic, AllocError> {
    let mut items = Vec::with_capacity(alloc, 1)?;
    items.push(inner)?;
    Ok(Dynamic::from_array(items))
}

fn map_of(alloc: Global, inner: Dynamic) -> Result<Dynamic, AllocError> {
    let mut map = Map::new(alloc);
    match map.insert(String::from_str(alloc, "k")?, inner) {
        Ok(_) => Ok(Dynamic::from_map(map)),
        Err(_) => Err(AllocError),
    }
}

fn function_of(alloc: Global, inner: Dynamic) -> Result<Dynamic, AllocError> {
    let name = ImmutableString::from_str(alloc, "f")?;
    let mut curry = Vec::with_capacity(alloc, 1)?;
    curry.push(inner)?;
    Ok(Dynamic::from(FnPtr::new(name, curry)))
}

fn sides_of(alloc: Global, inner: Dynamic) -> Result<Dynamic, AllocError> {
    let mut items = Vec::with_capacity(alloc, 3)?;
    items.push(Dynamic::from_array(Vec::new(alloc)))?;
    items.push(inner)?;
    items.push(Dynamic::from_array(Vec::new(alloc)))?;
    Ok(Dynamic::from_array(items))
}

/// The next level of a value.
fn inside(value: &Dynamic) -> Option<&Dynamic> {
    match value.parts() {
        Union::Array(_, _, items) => items.get(items.len() / 2),
        Union::Map(_, _, map) => map.get("k"),
        Union::FnPtr(_, _, function) => function.curry().first(),
        Union::Unit(_, _, _)
        | Union::Bool(_, _, _)
        | Union::Str(_, _, _)
        | Union::Char(_, _, _)
        | Union::Int(_, _, _)
        | Union::Blob(_, _, _)
        | Union::Variant(_, _, _)
        | Union::Shared(_, _, _) => None,
    }
}

/// Returns the value this many levels down.
pub fn bottom(value: &Dynamic, depth: usize) -> Option<&Dynamic> {
    let mut found = value;
    for _ in 0..depth {
        found = inside(found)?;
    }
    Some(found)
}

/// Whether the int is this many levels down.
pub fn is_whole(value: &Dynamic, depth: usize, store: &Store) -> bool {
    match bottom(value, depth) {
        Some(found) => found.as_int(store) == Ok(BOTTOM),
        None => false,
    }
}
