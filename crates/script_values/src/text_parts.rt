//! Parts of texts, and texts with a part replaced.

use crate::argument_values::{Arguments, int, text, text_or_character};
use crate::bounds::{bounds_of, piece_of};
use crate::text_walks::occurrences;
use rhai_packs::texts;
use rhai_text::{ImmutableString, SizeKind};
use rhai_value::{Dynamic, INT, Store};
use script_faults::{FaultKind, Means, check_size};
use script_natives::TextChange;

/// Returns this many characters from an index on.
pub(crate) fn sub_string(
    means: &Means,
    held: &ImmutableString,
    start: INT,
    length: INT,
) -> Result<ImmutableString, FaultKind> {
    Ok(texts::sub_string(means.alloc, held, start, length)?)
}

/// Returns the characters from an index on, or those of a range.
pub(crate) fn sub_string_from(
    means: &Means,
    store: &Store,
    held: &ImmutableString,
    from: &Dynamic,
) -> Result<Dynamic, FaultKind> {
    let (start, length) = part_from(from, store)?;
    Ok(Dynamic::from(sub_string(means, held, start, length)?))
}

/// Returns where a part starts, and its maximal number of characters: from an index on, or those of
/// a range.
fn part_from(from: &Dynamic, store: &Store) -> Result<(INT, INT), FaultKind> {
    match bounds_of(from, store) {
        Some(bounds) => Ok(piece_of(bounds)),
        None => Ok((int(from, store)?, INT::MAX)),
    }
}

/// Changes a text.
pub(crate) fn change_text(
    change: TextChange,
    means: &Means,
    store: &Store,
    held: &mut ImmutableString,
    arguments: &Arguments,
) -> Result<Dynamic, FaultKind> {
    let first = &arguments.first;
    let second = &arguments.second;
    let alloc = means.alloc;
    match change {
        TextChange::Crop => {
            let (start, length) = part_from(first, store)?;
            texts::crop(alloc, held, start, length)?;
        }
        TextChange::CropSome => {
            texts::crop(alloc, held, int(first, store)?, int(second, store)?)?;
        }
        TextChange::Truncate => texts::truncate(alloc, held, int(first, store)?)?,
        TextChange::Trim => texts::trim(alloc, held)?,
        TextChange::Replace => replace(means, store, held, first, second)?,
        TextChange::Pad => pad(means, store, held, int(first, store)?, second)?,
        TextChange::Remove => remove(means, store, held, first)?,
        TextChange::Clear => *held = ImmutableString::from_str(alloc, "")?,
        TextChange::MakeUpper => *held = texts::to_upper(alloc, &means.limits, held)?,
        TextChange::MakeLower => *held = texts::to_lower(alloc, &means.limits, held)?,
    }
    Ok(Dynamic::UNIT)
}

/// Replaces each occurrence of a part.
fn replace(
    means: &Means,
    store: &Store,
    held: &mut ImmutableString,
    part: &Dynamic,
    with: &Dynamic,
) -> Result<(), FaultKind> {
    let mut buffer = [0; 4];
    let mut other_buffer = [0; 4];
    let part = text_or_character(part, store, &mut buffer)?;
    let with = text_or_character(with, store, &mut other_buffer)?;
    check_replaced(means, held, part, with)?;
    texts::replace(means.alloc, &means.limits, held, part, with)?;
    Ok(())
}

/// Removes each occurrence of a part.
fn remove(
    means: &Means,
    store: &Store,
    held: &mut ImmutableString,
    part: &Dynamic,
) -> Result<(), FaultKind> {
    let mut buffer = [0; 4];
    let part = text_or_character(part, store, &mut buffer)?;
    texts::remove(means.alloc, held, part)?;
    Ok(())
}

/// Fails if replacing each occurrence of a part would make a text too long, and longer than before.
fn check_replaced(
    means: &Means,
    held: &ImmutableString,
    part: &str,
    with: &str,
) -> Result<(), FaultKind> {
    if means.limits.text == 0 || with.len() <= part.len() {
        return Ok(());
    }
    let count = occurrences(held.as_str(), part);
    let more = count.saturating_mul(with.len().saturating_sub(part.len()) as u64);
    let length = more.saturating_add(held.len() as u64);
    let length = usize::try_from(length).unwrap_or(usize::MAX);
    if length > held.len() {
        check_size(means.limits.text, length, SizeKind::Text)?;
    }
    Ok(())
}

/// Appends a character or a text repeatedly, until a text has this many characters.
fn pad(
    means: &Means,
    store: &Store,
    held: &mut ImmutableString,
    length: INT,
    padding: &Dynamic,
) -> Result<(), FaultKind> {
    let (alloc, limits) = (means.alloc, &means.limits);
    match padding.as_char(store) {
        Ok(character) => texts::pad(alloc, limits, held, length, character)?,
        Err(_) => texts::pad_with_string(alloc, limits, held, length, text(padding, store)?)?,
    }
    Ok(())
}
