//! Functions on texts.

/// A function on a text.
#[derive(Clone, Copy)]
pub enum TextFunction {
    /// It doesn't change the text.
    Ask(TextQuestion),
    /// It may replace the text by another.
    Change(TextChange),
}

/// A function that doesn't change a text.
#[derive(Clone, Copy)]
pub enum TextQuestion {
    /// `len()`
    Len,
    /// `is_empty()`
    IsEmpty,
    /// `contains(part)`
    Contains,
    /// `starts_with(part)`
    StartsWith,
    /// `ends_with(part)`
    EndsWith,
    /// `index_of(part)`
    IndexOf,
    /// `index_of(part, index)`
    IndexOfFrom,
    /// `sub_string(index)`, `sub_string(range)`
    SubString,
    /// `sub_string(index, count)`
    SubStringSome,
    /// `to_upper()`
    ToUpper,
    /// `to_lower()`
    ToLower,
    /// `chars()`, `to_chars()`
    Chars,
    /// `bytes()`
    Bytes,
    /// `to_blob()`
    ToBlob,
    /// `parse_int()`
    ParseInt,
    /// `parse_int(radix)`
    ParseIntRadix,
    /// `split(index)`, `split(separator)`
    Split,
    /// `split()`
    SplitWords,
    /// `split(separator, count)`
    SplitSome,
    /// `split_rev(separator)`
    SplitBack,
    /// `split_rev(separator, count)`
    SplitBackSome,
    /// `Fn()`
    Function,
}

/// A function that may replace a text by another.
#[derive(Clone, Copy)]
pub enum TextChange {
    /// `crop(index)`, `crop(range)`
    Crop,
    /// `crop(index, count)`
    CropSome,
    /// `truncate(count)`
    Truncate,
    /// `trim()`
    Trim,
    /// `replace(part, text)`
    Replace,
    /// `pad(count, character)`, `pad(count, text)`
    Pad,
    /// `remove(part)`
    Remove,
    /// `clear()`
    Clear,
    /// `make_upper()`
    MakeUpper,
    /// `make_lower()`
    MakeLower,
}

/// Finds the function with this name and number of arguments after the text.
/// Cost: constant; no memory.
pub fn text_function(name: &str, count: usize) -> Option<TextFunction> {
    if let Some(question) = question_of(name, count) {
        return Some(TextFunction::Ask(question));
    }
    Some(TextFunction::Change(change_of(name, count)?))
}

fn question_of(name: &str, count: usize) -> Option<TextQuestion> {
    match (count, name) {
        (0, "len") => Some(TextQuestion::Len),
        (0, "is_empty") => Some(TextQuestion::IsEmpty),
        (1, "contains") => Some(TextQuestion::Contains),
        (1, "starts_with") => Some(TextQuestion::StartsWith),
        (1, "ends_with") => Some(TextQuestion::EndsWith),
        (1, "index_of") => Some(TextQuestion::IndexOf),
        (2, "index_of") => Some(TextQuestion::IndexOfFrom),
        (1, "sub_string") => Some(TextQuestion::SubString),
        (2, "sub_string") => Some(TextQuestion::SubStringSome),
        (0, "to_upper") => Some(TextQuestion::ToUpper),
        (0, "to_lower") => Some(TextQuestion::ToLower),
        (0, "chars") | (0, "to_chars") => Some(TextQuestion::Chars),
        (0, "bytes") => Some(TextQuestion::Bytes),
        (0, "to_blob") => Some(TextQuestion::ToBlob),
        (0, "parse_int") => Some(TextQuestion::ParseInt),
        (1, "parse_int") => Some(TextQuestion::ParseIntRadix),
        (1, "split") => Some(TextQuestion::Split),
        (0, "split") => Some(TextQuestion::SplitWords),
        (2, "split") => Some(TextQuestion::SplitSome),
        (1, "split_rev") => Some(TextQuestion::SplitBack),
        (2, "split_rev") => Some(TextQuestion::SplitBackSome),
        (0, "Fn") => Some(TextQuestion::Function),
        _ => None,
    }
}

fn change_of(name: &str, count: usize) -> Option<TextChange> {
    match (count, name) {
        (1, "crop") => Some(TextChange::Crop),
        (2, "crop") => Some(TextChange::CropSome),
        (1, "truncate") => Some(TextChange::Truncate),
        (0, "trim") => Some(TextChange::Trim),
        (2, "replace") => Some(TextChange::Replace),
        (2, "pad") => Some(TextChange::Pad),
        (1, "remove") => Some(TextChange::Remove),
        (0, "clear") => Some(TextChange::Clear),
        (0, "make_upper") => Some(TextChange::MakeUpper),
        (0, "make_lower") => Some(TextChange::MakeLower),
        _ => None,
    }
}
