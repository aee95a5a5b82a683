//! Functions on ranges and function pointers.

/// A function on a range.
#[derive(Clone, Copy)]
pub enum RangeFunction {
    /// `start()`
    Start,
    /// `end()`
    End,
    /// `is_inclusive()`
    IsInclusive,
    /// `is_exclusive()`
    IsExclusive,
    /// `is_empty()`
    IsEmpty,
    /// `contains(int)`
    Contains,
}

/// A function on a function pointer.
#[derive(Clone, Copy)]
pub enum PointerFunction {
    /// `name()`
    Name,
    /// `is_anonymous()`
    IsAnonymous,
}

/// Finds the function with this name and number of arguments after the range.
/// Cost: constant; no memory.
pub fn range_function(name: &str, count: usize) -> Option<RangeFunction> {
    match (count, name) {
        (0, "start") => Some(RangeFunction::Start),
        (0, "end") => Some(RangeFunction::End),
        (0, "is_inclusive") => Some(RangeFunction::IsInclusive),
        (0, "is_exclusive") => Some(RangeFunction::IsExclusive),
        (0, "is_empty") => Some(RangeFunction::IsEmpty),
        (1, "contains") => Some(RangeFunction::Contains),
        _ => None,
    }
}

/// Finds the function with this name and number of arguments after the function pointer.
/// Cost: constant; no memory.
pub fn pointer_function(name: &str, count: usize) -> Option<PointerFunction> {
    match (count, name) {
        (0, "name") => Some(PointerFunction::Name),
        (0, "is_anonymous") => Some(PointerFunction::IsAnonymous),
        _ => None,
    }
}
