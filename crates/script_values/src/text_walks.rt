//! The cost of functions on texts, in operations.

use crate::argument_values::{Arguments, text_or_character};
use crate::walks::{Counting, key_cost, missing};
use rhai_text::ImmutableString;
use rhai_value::{Dynamic, Store};
use script_faults::{FaultKind, bytes_cost, characters_cost, operations_of_bytes, values_cost};
use script_natives::{TextChange, TextFunction, TextQuestion};

pub(crate) fn text_cost(
    function: Option<TextFunction>,
    counting: &Counting<'_>,
    text: &ImmutableString,
    arguments: &Arguments,
) -> Result<Option<u64>, FaultKind> {
    let cost = match function {
        Some(TextFunction::Ask(question)) => {
            question_cost(question, counting.store, text, arguments)
        }
        Some(TextFunction::Change(change)) => change_cost(change, counting.store, text, arguments),
        None => return Ok(None),
    };
    Ok(Some(cost))
}

fn question_cost(
    question: TextQuestion,
    store: &Store,
    text: &ImmutableString,
    arguments: &Arguments,
) -> u64 {
    let first = &arguments.first;
    match question {
        TextQuestion::IsEmpty | TextQuestion::Bytes | TextQuestion::Function => 0,
        TextQuestion::StartsWith | TextQuestion::EndsWith => key_cost(first, store),
        TextQuestion::Contains | TextQuestion::IndexOf => {
            characters_cost(text).saturating_add(key_cost(first, store))
        }
        TextQuestion::IndexOfFrom => {
            characters_cost(text)
                .saturating_mul(3)
                .saturating_add(key_cost(first, store))
        }
        TextQuestion::Split | TextQuestion::SplitBack => {
            // the separators are counted first, and then searched
            characters_cost(text)
                .saturating_mul(2)
                .saturating_add(separated_cost(text, first, store))
        }
        TextQuestion::SplitSome | TextQuestion::SplitBackSome => {
            let most = arguments.second.as_int(store).unwrap_or(1).max(1);
            let parts = separated_cost(text, first, store).min(most.unsigned_abs());
            characters_cost(text)
                .saturating_mul(6)
                .saturating_add(parts)
        }
        TextQuestion::SplitWords => values_cost(text.len()).saturating_add(words(text)),
        TextQuestion::ToUpper | TextQuestion::ToLower => {
            characters_cost(text).saturating_add(values_cost(text.len()))
        }
        TextQuestion::Len
        | TextQuestion::SubString
        | TextQuestion::SubStringSome
        | TextQuestion::Chars
        | TextQuestion::ToBlob
        | TextQuestion::ParseInt
        | TextQuestion::ParseIntRadix => characters_cost(text),
    }
}

/// Returns how many words a text has; each costs one operation.
pub(crate) fn words(text: &ImmutableString) -> u64 {
    let mut count = 0u64;
    for _ in text.as_str().split_whitespace() {
        count = count.saturating_add(1);
    }
    count
}

/// Returns the cost of the parts between the occurrences of a separator, one operation each, and
/// that of the separator.
fn separated_cost(text: &ImmutableString, separator: &Dynamic, store: &Store) -> u64 {
    let mut buffer = [0; 4];
    match text_or_character(separator, store, &mut buffer) {
        Ok(part) => bytes_cost(part.len()).saturating_add(occurrences(text.as_str(), part)),
        Err(_) => 0,
    }
}

fn change_cost(
    change: TextChange,
    store: &Store,
    text: &ImmutableString,
    arguments: &Arguments,
) -> u64 {
    if let TextChange::Clear = change {
        return 0;
    }
    let own = characters_cost(text);
    match change {
        TextChange::Clear => 0,
        TextChange::MakeUpper | TextChange::MakeLower => {
            own.saturating_add(values_cost(text.len()))
        }
        TextChange::Crop | TextChange::CropSome | TextChange::Truncate | TextChange::Trim => own,
        TextChange::Replace | TextChange::Remove => {
            own.saturating_mul(2)
                .saturating_add(replaced_cost(change, text, arguments, store))
        }
        TextChange::Pad => {
            let more = missing(text.char_count(), &arguments.first, store);
            own.saturating_add(padding_cost(more, &arguments.second, store))
        }
    }
}

/// Returns the cost of this many characters of padding.
fn padding_cost(more: u64, padding: &Dynamic, store: &Store) -> u64 {
    if let Ok(character) = padding.as_char(store) {
        return operations_of_bytes(more.saturating_mul(character.len_utf8() as u64));
    }
    let Ok(padding) = padding.as_immutable_string_ref(store) else {
        return 0;
    };
    match more.checked_div(padding.char_count() as u64) {
        Some(whole) => operations_of_bytes(whole.saturating_mul(padding.len() as u64)),
        None => 0,
    }
}

/// Returns the cost of replacing each occurrence of a part in a text: one operation each, and the
/// bytes.
fn replaced_cost(
    change: TextChange,
    text: &ImmutableString,
    arguments: &Arguments,
    store: &Store,
) -> u64 {
    let mut buffer = [0; 4];
    let Ok(part) = text_or_character(&arguments.first, store, &mut buffer) else {
        return 0;
    };
    let count = occurrences(text.as_str(), part);
    let length = match change {
        TextChange::Replace => length_of(&arguments.second, store),
        TextChange::Crop
        | TextChange::CropSome
        | TextChange::Truncate
        | TextChange::Trim
        | TextChange::Pad
        | TextChange::Remove
        | TextChange::Clear
        | TextChange::MakeUpper
        | TextChange::MakeLower => 0,
    };
    operations_of_bytes(count.saturating_mul(length))
        .saturating_add(count)
        .saturating_add(bytes_cost(part.len()))
}

/// Returns how many bytes a text or a character has.
fn length_of(value: &Dynamic, store: &Store) -> u64 {
    let mut buffer = [0; 4];
    match text_or_character(value, store, &mut buffer) {
        Ok(text) => text.len() as u64,
        Err(_) => 0,
    }
}

/// Returns how often a part occurs in a text, without overlaps; an empty part occurs before each
/// character and at the end.
pub(crate) fn occurrences(text: &str, part: &str) -> u64 {
    if part.is_empty() {
        return (text.chars().count() as u64).saturating_add(1);
    }
    let mut count = 0u64;
    let mut rest = text;
    for _ in 0..u64::MAX {
        let Some((_, behind)) = rest.split_once(part) else {
            break;
        };
        count = count.saturating_add(1);
        rest = behind;
    }
    count
}
