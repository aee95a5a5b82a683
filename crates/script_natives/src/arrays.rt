//! Functions on arrays.

/// A function on an array.
#[derive(Clone, Copy)]
pub enum ArrayFunction {
    /// It doesn't change the array.
    Ask(ArrayQuestion),
    /// It may change the array.
    Change(ArrayChange),
}

/// A function that doesn't change an array.
#[derive(Clone, Copy)]
pub enum ArrayQuestion {
    /// `len()`
    Len,
    /// `is_empty()`
    IsEmpty,
    /// `get(index)`
    Get,
    /// `extract(index)`
    Extract,
    /// `extract(index, count)`
    ExtractSome,
    /// `contains(value)`
    Contains,
    /// `index_of(value)`
    IndexOf,
    /// `index_of(value, index)`
    IndexOfFrom,
}

/// A function that may change an array.
#[derive(Clone, Copy)]
pub enum ArrayChange {
    /// `set(index, value)`
    Set,
    /// `push(value)`
    Push,
    /// `append(array)`
    Append,
    /// `insert(index, value)`
    Insert,
    /// `pad(count, value)`
    Pad,
    /// `pop()`
    Pop,
    /// `shift()`
    Shift,
    /// `remove(index)`
    Remove,
    /// `clear()`
    Clear,
    /// `truncate(count)`
    Truncate,
    /// `chop(count)`
    Chop,
    /// `reverse()`
    Reverse,
    /// `split(index)`
    Split,
    /// `splice(range, array)`
    SpliceRange,
    /// `splice(index, count, array)`
    Splice,
    /// `dedup()`
    Dedup,
    /// `sort()`
    Sort,
    /// `drain(range)`
    Drain,
    /// `drain(index, count)`
    DrainSome,
    /// `retain(range)`
    Retain,
    /// `retain(index, count)`
    RetainSome,
}

/// Finds the function with this name and number of arguments after the array.
/// Cost: constant; no memory.
pub fn array_function(name: &str, count: usize) -> Option<ArrayFunction> {
    if let Some(question) = question_of(name, count) {
        return Some(ArrayFunction::Ask(question));
    }
    Some(ArrayFunction::Change(change_of(name, count)?))
}

fn question_of(name: &str, count: usize) -> Option<ArrayQuestion> {
    match (count, name) {
        (0, "len") => Some(ArrayQuestion::Len),
        (0, "is_empty") => Some(ArrayQuestion::IsEmpty),
        (1, "get") => Some(ArrayQuestion::Get),
        (1, "extract") => Some(ArrayQuestion::Extract),
        (2, "extract") => Some(ArrayQuestion::ExtractSome),
        (1, "contains") => Some(ArrayQuestion::Contains),
        (1, "index_of") => Some(ArrayQuestion::IndexOf),
        (2, "index_of") => Some(ArrayQuestion::IndexOfFrom),
        _ => None,
    }
}

fn change_of(name: &str, count: usize) -> Option<ArrayChange> {
    match (count, name) {
        (2, "set") => Some(ArrayChange::Set),
        (1, "push") => Some(ArrayChange::Push),
        (1, "append") => Some(ArrayChange::Append),
        (2, "insert") => Some(ArrayChange::Insert),
        (2, "pad") => Some(ArrayChange::Pad),
        (0, "pop") => Some(ArrayChange::Pop),
        (0, "shift") => Some(ArrayChange::Shift),
        (1, "remove") => Some(ArrayChange::Remove),
        (0, "clear") => Some(ArrayChange::Clear),
        (1, "truncate") => Some(ArrayChange::Truncate),
        (1, "chop") => Some(ArrayChange::Chop),
        (0, "reverse") => Some(ArrayChange::Reverse),
        (1, "split") => Some(ArrayChange::Split),
        (2, "splice") => Some(ArrayChange::SpliceRange),
        (3, "splice") => Some(ArrayChange::Splice),
        (0, "dedup") => Some(ArrayChange::Dedup),
        (0, "sort") => Some(ArrayChange::Sort),
        (1, "drain") => Some(ArrayChange::Drain),
        (2, "drain") => Some(ArrayChange::DrainSome),
        (1, "retain") => Some(ArrayChange::Retain),
        (2, "retain") => Some(ArrayChange::RetainSome),
        _ => None,
    }
}
