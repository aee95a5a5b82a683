//! Functions on texts.

use crate::argument_values::{Arguments, count, int, place_or_none, text, text_or_character};
use crate::text_parts::{sub_string, sub_string_from};
use crate::text_splits::{split, split_at_most, split_back, split_back_at_most, split_words};
use rhai_packs::ints::ParseRadixError;
use rhai_packs::{ints, texts};
use rhai_text::{ImmutableString, SizeKind};
use rhai_value::{Dynamic, FnPtr, INT, Store};
use script_faults::{FaultKind, Means, check_size};
use script_natives::{TextFunction, TextQuestion};

/// Calls a function that doesn't change a text, if it is one.
pub(crate) fn ask_text(
    function: Option<TextFunction>,
    means: &Means,
    store: &Store,
    held: &ImmutableString,
    arguments: &Arguments,
) -> Result<Option<Dynamic>, FaultKind> {
    match function {
        Some(TextFunction::Ask(question)) => {
            Ok(Some(text_answer(question, means, store, held, arguments)?))
        }
        Some(TextFunction::Change(_)) | None => Ok(None),
    }
}

fn text_answer(
    question: TextQuestion,
    means: &Means,
    store: &Store,
    held: &ImmutableString,
    arguments: &Arguments,
) -> Result<Dynamic, FaultKind> {
    let first = &arguments.first;
    let second = &arguments.second;
    match question {
        TextQuestion::Len => Ok(count(texts::len(held))),
        TextQuestion::IsEmpty => Ok(Dynamic::from_bool(texts::is_empty(held))),
        TextQuestion::Bytes => Ok(count(texts::bytes(held))),
        TextQuestion::Contains => has_part(store, held, first),
        TextQuestion::StartsWith => {
            Ok(Dynamic::from_bool(texts::starts_with(held, text(first, store)?)))
        }
        TextQuestion::EndsWith => {
            Ok(Dynamic::from_bool(texts::ends_with(held, text(first, store)?)))
        }
        TextQuestion::IndexOf => place_of_part(store, held, first),
        TextQuestion::IndexOfFrom => place_of_part_from(store, held, first, second),
        TextQuestion::SubString => sub_string_from(means, store, held, first),
        TextQuestion::SubStringSome => {
            let (index, length) = (int(first, store)?, int(second, store)?);
            Ok(Dynamic::from(sub_string(means, held, index, length)?))
        }
        TextQuestion::ParseInt => parse_int(held, 10),
        TextQuestion::ParseIntRadix => parse_int(held, int(first, store)?),
        TextQuestion::Split => split(means, store, held, first),
        TextQuestion::SplitWords => split_words(means, held),
        TextQuestion::SplitSome => split_at_most(means, store, held, first, second),
        TextQuestion::SplitBack => split_back(means, store, held, first),
        TextQuestion::SplitBackSome => split_back_at_most(means, store, held, first, second),
        TextQuestion::ToUpper => {
            Ok(Dynamic::from(texts::to_upper(means.alloc, &means.limits, held)?))
        }
        TextQuestion::ToLower => {
            Ok(Dynamic::from(texts::to_lower(means.alloc, &means.limits, held)?))
        }
        TextQuestion::Chars => {
            check_size(means.limits.items, held.char_count(), SizeKind::Items)?;
            Ok(Dynamic::from_array(texts::chars(means.alloc, held)?))
        }
        TextQuestion::ToBlob => {
            Ok(Dynamic::from_blob(texts::to_blob(means.alloc, &means.limits, held)?))
        }
        TextQuestion::Function => {
            let name = held.copy(means.alloc)?;
            Ok(Dynamic::from(FnPtr::new(name, Vec::new(means.alloc))))
        }
    }
}

/// Whether a text contains a part: a text or a character.
fn has_part(store: &Store, held: &ImmutableString, part: &Dynamic) -> Result<Dynamic, FaultKind> {
    let mut buffer = [0; 4];
    let part = text_or_character(part, store, &mut buffer)?;
    Ok(Dynamic::from_bool(texts::contains(held, part)))
}

/// Returns the index of the first occurrence of a part in a text.
fn place_of_part(
    store: &Store,
    held: &ImmutableString,
    part: &Dynamic,
) -> Result<Dynamic, FaultKind> {
    let mut buffer = [0; 4];
    let part = text_or_character(part, store, &mut buffer)?;
    Ok(place_or_none(texts::index_of(held, part)))
}

/// Returns the index of the first occurrence of a part in a text, from a character on.
fn place_of_part_from(
    store: &Store,
    held: &ImmutableString,
    part: &Dynamic,
    start: &Dynamic,
) -> Result<Dynamic, FaultKind> {
    let mut buffer = [0; 4];
    let part = text_or_character(part, store, &mut buffer)?;
    let start = int(start, store)?;
    Ok(place_or_none(texts::index_of_from(held, part, start)))
}

fn parse_int(held: &ImmutableString, radix: INT) -> Result<Dynamic, FaultKind> {
    match ints::parse_int_radix(held.as_str(), radix) {
        Ok(number) => Ok(Dynamic::from_int(number)),
        Err(ParseRadixError::InvalidRadix) => Err(FaultKind::NoRadix),
        Err(ParseRadixError::InvalidText(_)) => Err(FaultKind::NoNumber),
    }
}
