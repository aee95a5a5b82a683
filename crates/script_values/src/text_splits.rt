//! The parts of texts between separators.

use crate::argument_values::{int, text_or_character};
use crate::text_walks::{occurrences, words};
use rhai_packs::texts;
use rhai_text::{ImmutableString, SizeKind};
use rhai_value::{Dynamic, Store};
use script_faults::{FaultKind, Means, check_size};

/// Splits a text at an index, or between the occurrences of a character or of a text.
pub(crate) fn split(
    means: &Means,
    store: &Store,
    held: &ImmutableString,
    at: &Dynamic,
) -> Result<Dynamic, FaultKind> {
    if let Ok(index) = at.as_int(store) {
        return Ok(Dynamic::from_array(texts::split_at(means.alloc, held, index)?));
    }
    if let Ok(separator) = at.as_char(store) {
        let mut buffer = [0; 4];
        check_parts(means, held, separator.encode_utf8(&mut buffer), u64::MAX)?;
        return Ok(Dynamic::from_array(texts::split_char(means.alloc, held, separator)?));
    }
    let mut buffer = [0; 4];
    let separator = text_or_character(at, store, &mut buffer)?;
    check_parts(means, held, separator, u64::MAX)?;
    Ok(Dynamic::from_array(texts::split(means.alloc, held, separator)?))
}

/// Splits a text at white space.
pub(crate) fn split_words(means: &Means, held: &ImmutableString) -> Result<Dynamic, FaultKind> {
    if means.limits.items != 0 && held.len() > means.limits.items {
        check_size(means.limits.items, words(held) as usize, SizeKind::Items)?;
    }
    Ok(Dynamic::from_array(texts::split_words(means.alloc, held)?))
}

/// Splits a text at the first occurrences of a separator, into at most this many parts.
pub(crate) fn split_at_most(
    means: &Means,
    store: &Store,
    held: &ImmutableString,
    separator: &Dynamic,
    most: &Dynamic,
) -> Result<Dynamic, FaultKind> {
    let mut buffer = [0; 4];
    let separator = text_or_character(separator, store, &mut buffer)?;
    let most = int(most, store)?;
    check_parts(means, held, separator, most.max(1).unsigned_abs())?;
    Ok(Dynamic::from_array(texts::split_at_most(means.alloc, held, separator, most)?))
}

/// Splits a text at the occurrences of a separator, beginning with the last.
pub(crate) fn split_back(
    means: &Means,
    store: &Store,
    held: &ImmutableString,
    separator: &Dynamic,
) -> Result<Dynamic, FaultKind> {
    let mut buffer = [0; 4];
    let separator = text_or_character(separator, store, &mut buffer)?;
    check_parts(means, held, separator, u64::MAX)?;
    Ok(Dynamic::from_array(texts::split_rev(means.alloc, held, separator)?))
}

/// As `split_back`, into at most this many parts.
pub(crate) fn split_back_at_most(
    means: &Means,
    store: &Store,
    held: &ImmutableString,
    separator: &Dynamic,
    most: &Dynamic,
) -> Result<Dynamic, FaultKind> {
    let mut buffer = [0; 4];
    let separator = text_or_character(separator, store, &mut buffer)?;
    let most = int(most, store)?;
    check_parts(means, held, separator, most.max(1).unsigned_abs())?;
    Ok(Dynamic::from_array(texts::split_rev_at_most(means.alloc, held, separator, most)?))
}

/// Fails if a separator splits a text into more parts, and there may be more, than an array may
/// have items. Occurrences from either end are as many.
fn check_parts(
    means: &Means,
    held: &ImmutableString,
    separator: &str,
    most: u64,
) -> Result<(), FaultKind> {
    let items = means.limits.items;
    if items == 0 || held.len().saturating_add(2) <= items || most <= items as u64 {
        return Ok(());
    }
    let count = occurrences(held.as_str(), separator).saturating_add(1);
    check_size(items, count.min(most) as usize, SizeKind::Items)
}
