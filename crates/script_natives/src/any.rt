//! Functions on values of any type.

/// A function on any value.
#[derive(Clone, Copy)]
pub enum AnyFunction {
    /// `type_of()`
    TypeOf,
    /// `to_string()`
    ToString,
    /// `to_debug()`
    ToDebug,
}

/// Finds the function with this name and number of arguments after the value.
/// Cost: constant; no memory.
pub fn any_function(name: &str, count: usize) -> Option<AnyFunction> {
    match (count, name) {
        (0, "type_of") => Some(AnyFunction::TypeOf),
        (0, "to_string") => Some(AnyFunction::ToString),
        (0, "to_debug") => Some(AnyFunction::ToDebug),
        _ => None,
    }
}
