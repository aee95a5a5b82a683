//! The cost of functions on ints, characters, function pointers and blobs, in operations.

use crate::argument_values::Arguments;
use crate::blob_bytes::bytes_meant;
use crate::walks::{Counting, span_between, span_from};
use rhai_value::{Blob, Dynamic, FnPtr, INT};
use script_faults::{bytes_cost, values_cost};
use script_natives::{
    BlobChange, BlobFunction, BlobQuestion, CharChange, CharFunction, CharQuestion, IntChange,
    IntFunction, IntQuestion, PointerFunction,
};

/// The cost of formatting an int, and of changing the case of a character.
const TEXT_COST: u64 = 4;

pub(crate) fn int_cost(function: Option<IntFunction>, number: INT) -> Option<u64> {
    let cost = match function? {
        IntFunction::Ask(question) => question_cost(question, number),
        IntFunction::Change(IntChange::SetBit | IntChange::SetBits | IntChange::SetBitsSome) => 0,
    };
    Some(cost)
}

fn question_cost(question: IntQuestion, number: INT) -> u64 {
    match question {
        IntQuestion::Abs
        | IntQuestion::Sign
        | IntQuestion::Min
        | IntQuestion::Max
        | IntQuestion::IsZero
        | IntQuestion::IsOdd
        | IntQuestion::IsEven
        | IntQuestion::Range
        | IntQuestion::GetBit
        | IntQuestion::GetBits
        | IntQuestion::GetBitsSome => 0,
        IntQuestion::ToHex | IntQuestion::ToOctal | IntQuestion::ToBinary => TEXT_COST,
        IntQuestion::Bits => values_cost(64),
        IntQuestion::Blob => bytes_cost(usize::try_from(number).unwrap_or(0)),
    }
}

pub(crate) fn char_cost(function: Option<CharFunction>) -> Option<u64> {
    match function? {
        CharFunction::Ask(CharQuestion::ToInt) => Some(0),
        CharFunction::Ask(CharQuestion::ToUpper | CharQuestion::ToLower)
        | CharFunction::Change(CharChange::MakeUpper | CharChange::MakeLower) => Some(TEXT_COST),
    }
}

pub(crate) fn pointer_cost(function: Option<PointerFunction>, pointer: &FnPtr) -> Option<u64> {
    match function? {
        PointerFunction::Name | PointerFunction::IsAnonymous => {
            Some(bytes_cost(pointer.fn_name().len()))
        }
    }
}

pub(crate) fn blob_cost(
    function: Option<BlobFunction>,
    counting: &Counting<'_>,
    bytes: &Blob,
    arguments: &Arguments,
) -> Option<u64> {
    let cost = match function? {
        BlobFunction::Ask(question) => blob_question_cost(question, counting, bytes, arguments),
        BlobFunction::Change(change) => blob_change_cost(change, counting, bytes, arguments),
    };
    Some(cost)
}

fn blob_question_cost(
    question: BlobQuestion,
    counting: &Counting<'_>,
    bytes: &Blob,
    arguments: &Arguments,
) -> u64 {
    let (store, own) = (counting.store, bytes.len());
    match question {
        BlobQuestion::Len | BlobQuestion::IsEmpty | BlobQuestion::Get => 0,
        BlobQuestion::ParseInt(_) => 2,
        BlobQuestion::Extract => bytes_cost(span_from(own, &arguments.first, store).length),
        BlobQuestion::ExtractSome => bytes_cost(span_between(own, arguments, store).length),
        BlobQuestion::ToArray => values_cost(own),
        BlobQuestion::Contains | BlobQuestion::AsString => values_cost(own),
    }
}

fn blob_change_cost(
    change: BlobChange,
    counting: &Counting<'_>,
    bytes: &Blob,
    arguments: &Arguments,
) -> u64 {
    let (store, own) = (counting.store, bytes.len());
    match change {
        BlobChange::Set | BlobChange::Push | BlobChange::Pop | BlobChange::Clear => 0,
        BlobChange::WriteInt(_) => 2,
        BlobChange::Append => bytes_cost(appended(counting, &arguments.first)),
        BlobChange::Remove | BlobChange::Reverse => bytes_cost(own),
        // a text that isn't ASCII may need a longer walk than the bytes written
        BlobChange::WriteText => values_cost(bytes_meant(own, arguments, store)),
        BlobChange::WriteAscii => values_cost(bytes_meant(own, arguments, store)).saturating_add(
            written_cost(counting, arguments),
        ),
    }
}

/// Returns how many bytes a blob or a text has that is appended.
fn appended(counting: &Counting<'_>, argument: &Dynamic) -> usize {
    if let Ok(bytes) = argument.as_blob_ref(counting.store) {
        return bytes.len();
    }
    match argument.as_immutable_string_ref(counting.store) {
        Ok(text) => text.len(),
        Err(_) => 0,
    }
}

/// Returns the cost of the text that is written.
fn written_cost(counting: &Counting<'_>, arguments: &Arguments) -> u64 {
    let mut cost = 0u64;
    for argument in [&arguments.second, &arguments.third] {
        if let Ok(text) = argument.as_immutable_string_ref(counting.store) {
            cost = cost.saturating_add(values_cost(text.len()));
        }
    }
    cost
}
