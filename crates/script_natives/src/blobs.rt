//! Functions on blobs.

/// A function on a blob.
#[derive(Clone, Copy)]
pub enum BlobFunction {
    /// It doesn't change the blob.
    Ask(BlobQuestion),
    /// It may change the blob.
    Change(BlobChange),
}

/// A function that doesn't change a blob.
#[derive(Clone, Copy)]
pub enum BlobQuestion {
    /// `len()`
    Len,
    /// `is_empty()`
    IsEmpty,
    /// `contains(byte)`
    Contains,
    /// `get(index)`
    Get,
    /// `extract(index)`
    Extract,
    /// `extract(index, count)`
    ExtractSome,
    /// `to_array()`
    ToArray,
    /// `as_string()`
    AsString,
    /// `parse_le_int(range)`, `parse_le_int(index, count)`, and the same with `be`
    ParseInt(ByteOrder),
}

/// A function that may change a blob.
#[derive(Clone, Copy)]
pub enum BlobChange {
    /// `set(index, byte)`
    Set,
    /// `push(byte)`
    Push,
    /// `append(blob)`
    Append,
    /// `pop()`
    Pop,
    /// `remove(index)`
    Remove,
    /// `reverse()`
    Reverse,
    /// `clear()`
    Clear,
    /// `write_le(range, int)`, `write_le(index, count, int)`, and the same with `be`
    WriteInt(ByteOrder),
    /// `write_utf8(range, text)`, `write_utf8(index, count, text)`
    WriteText,
    /// `write_ascii(range, text)`, `write_ascii(index, count, text)`
    WriteAscii,
}

/// Finds the function with this name and number of arguments after the blob.
/// Cost: constant; no memory.
pub fn blob_function(name: &str, count: usize) -> Option<BlobFunction> {
    if let Some(question) = question_of(name, count) {
        return Some(BlobFunction::Ask(question));
    }
    Some(BlobFunction::Change(change_of(name, count)?))
}

fn question_of(name: &str, count: usize) -> Option<BlobQuestion> {
    match (count, name) {
        (0, "len") => Some(BlobQuestion::Len),
        (0, "is_empty") => Some(BlobQuestion::IsEmpty),
        (1, "contains") => Some(BlobQuestion::Contains),
        (1, "get") => Some(BlobQuestion::Get),
        (1, "extract") => Some(BlobQuestion::Extract),
        (2, "extract") => Some(BlobQuestion::ExtractSome),
        (0, "to_array") => Some(BlobQuestion::ToArray),
        (0, "as_string") => Some(BlobQuestion::AsString),
        (1, "parse_le_int") | (2, "parse_le_int") => {
            Some(BlobQuestion::ParseInt(ByteOrder::Little))
        }
        (1, "parse_be_int") | (2, "parse_be_int") => Some(BlobQuestion::ParseInt(ByteOrder::Big)),
        _ => None,
    }
}

fn change_of(name: &str, count: usize) -> Option<BlobChange> {
    match (count, name) {
        (2, "set") => Some(BlobChange::Set),
        (1, "push") => Some(BlobChange::Push),
        (1, "append") => Some(BlobChange::Append),
        (0, "pop") => Some(BlobChange::Pop),
        (1, "remove") => Some(BlobChange::Remove),
        (0, "reverse") => Some(BlobChange::Reverse),
        (0, "clear") => Some(BlobChange::Clear),
        (2, "write_le") | (3, "write_le") => Some(BlobChange::WriteInt(ByteOrder::Little)),
        (2, "write_be") | (3, "write_be") => Some(BlobChange::WriteInt(ByteOrder::Big)),
        (2, "write_utf8") | (3, "write_utf8") => Some(BlobChange::WriteText),
        (2, "write_ascii") | (3, "write_ascii") => Some(BlobChange::WriteAscii),
        _ => None,
    }
}

/// Which byte of an int comes first.
#[derive(Clone, Copy, PartialEq, Eq)]
pub enum ByteOrder {
    /// The lowest.
    Little,
    /// The highest.
    Big,
}
