//! Functions on characters.

/// A function on a character.
#[derive(Clone, Copy)]
pub enum CharFunction {
    /// It doesn't change the character.
    Ask(CharQuestion),
    /// It may replace the character by another.
    Change(CharChange),
}

/// A function that doesn't change a character.
#[derive(Clone, Copy)]
pub enum CharQuestion {
    /// `to_upper()`
    ToUpper,
    /// `to_lower()`
    ToLower,
    /// `to_int()`
    ToInt,
}

/// A function that may replace a character by another.
#[derive(Clone, Copy)]
pub enum CharChange {
    /// `make_upper()`
    MakeUpper,
    /// `make_lower()`
    MakeLower,
}

/// Finds the function with this name and number of arguments after the character.
/// Cost: constant; no memory.
pub fn char_function(name: &str, count: usize) -> Option<CharFunction> {
    match (count, name) {
        (0, "to_upper") => Some(CharFunction::Ask(CharQuestion::ToUpper)),
        (0, "to_lower") => Some(CharFunction::Ask(CharQuestion::ToLower)),
        (0, "to_int") => Some(CharFunction::Ask(CharQuestion::ToInt)),
        (0, "make_upper") => Some(CharFunction::Change(CharChange::MakeUpper)),
        (0, "make_lower") => Some(CharFunction::Change(CharChange::MakeLower)),
        _ => None,
    }
}
