//! Functions on blobs.

use crate::argument_values::{Arguments, blob, count, int, text_or_character};
use crate::blob_bytes::{int_in, put_int_in, put_text_in};
use crate::bounds::{bounds_of, span_of};
use rhai_packs::blobs;
use rhai_text::SizeKind;
use rhai_value::{Blob, Dynamic, INT, Store};
use script_faults::{FaultKind, Means, check_size};
use script_natives::{BlobChange, BlobFunction, BlobQuestion};

/// Calls a function that doesn't change a blob, if it is one.
pub(crate) fn ask_blob(
    function: Option<BlobFunction>,
    means: &Means,
    store: &Store,
    bytes: &Blob,
    arguments: &Arguments,
) -> Result<Option<Dynamic>, FaultKind> {
    match function {
        Some(BlobFunction::Ask(question)) => {
            Ok(Some(blob_answer(question, means, store, bytes, arguments)?))
        }
        Some(BlobFunction::Change(_)) | None => Ok(None),
    }
}

fn blob_answer(
    question: BlobQuestion,
    means: &Means,
    store: &Store,
    bytes: &Blob,
    arguments: &Arguments,
) -> Result<Dynamic, FaultKind> {
    let first = &arguments.first;
    match question {
        BlobQuestion::Len => Ok(count(blobs::len(bytes))),
        BlobQuestion::IsEmpty => Ok(Dynamic::from_bool(blobs::is_empty(bytes))),
        BlobQuestion::Contains => {
            Ok(Dynamic::from_bool(blobs::contains(bytes, int(first, store)?)))
        }
        BlobQuestion::Get => Ok(byte_or_unit(blobs::get(bytes, int(first, store)?))),
        BlobQuestion::Extract => match bounds_of(first, store) {
            Some(bounds) => {
                let (start, length) = span_of(bounds, bytes.len())?;
                extracted(means, bytes, start, length)
            }
            None => extracted(means, bytes, int(first, store)?, INT::MAX),
        },
        BlobQuestion::ExtractSome => {
            extracted(
                means,
                bytes,
                int(first, store)?,
                int(&arguments.second, store)?,
            )
        }
        BlobQuestion::ToArray => {
            check_size(means.limits.items, bytes.len(), SizeKind::Items)?;
            Ok(Dynamic::from_array(blobs::to_array(means.alloc, bytes)?))
        }
        BlobQuestion::AsString => as_string(means, bytes),
        BlobQuestion::ParseInt(order) => {
            Ok(Dynamic::from_int(int_in(bytes, arguments, order, store)?))
        }
    }
}

/// Returns the text of a blob, with the replacement character for bytes that are not UTF-8.
fn as_string(means: &Means, bytes: &Blob) -> Result<Dynamic, FaultKind> {
    let text = blobs::as_string(means.alloc, bytes)?;
    check_size(means.limits.text, text.len(), SizeKind::Text)?;
    Ok(Dynamic::from(text))
}

fn extracted(means: &Means, bytes: &Blob, start: INT, length: INT) -> Result<Dynamic, FaultKind> {
    let part = blobs::extract(means.alloc, bytes, start, length)?;
    Ok(Dynamic::from_blob(part))
}

/// Appends the bytes of a blob, a text or a character.
fn append(
    means: &Means,
    store: &Store,
    bytes: &mut Blob,
    more: &mut Dynamic,
) -> Result<(), FaultKind> {
    let mut buffer = [0; 4];
    let more = match text_or_character(more, store, &mut buffer) {
        Ok(text) => text.as_bytes(),
        Err(_) => blob(more, store)?,
    };
    blobs::append(bytes, &means.limits, more)?;
    Ok(())
}

/// Returns a byte as a value, or unit if there is none.
fn byte_or_unit(byte: Option<INT>) -> Dynamic {
    match byte {
        Some(byte) => Dynamic::from_int(byte),
        None => Dynamic::UNIT,
    }
}

/// Changes a blob, and returns the result.
pub(crate) fn change_blob(
    change: BlobChange,
    means: &Means,
    store: &Store,
    bytes: &mut Blob,
    arguments: &mut Arguments,
) -> Result<Dynamic, FaultKind> {
    let limits = &means.limits;
    let first = &mut arguments.first;
    match change {
        BlobChange::Set => {
            blobs::set(bytes, int(first, store)?, int(&arguments.second, store)?);
        }
        BlobChange::Push => blobs::push(bytes, limits, int(first, store)?)?,
        BlobChange::Append => append(means, store, bytes, first)?,
        BlobChange::Pop => return Ok(byte_or_unit(blobs::pop(bytes))),
        BlobChange::Remove => return Ok(byte_or_unit(blobs::remove(bytes, int(first, store)?))),
        BlobChange::Reverse => blobs::reverse(bytes),
        BlobChange::Clear => blobs::clear(bytes),
        BlobChange::WriteInt(order) => put_int_in(bytes, arguments, order, store)?,
        BlobChange::WriteText => put_text_in(bytes, arguments, false, store)?,
        BlobChange::WriteAscii => put_text_in(bytes, arguments, true, store)?,
    }
    Ok(Dynamic::UNIT)
}
