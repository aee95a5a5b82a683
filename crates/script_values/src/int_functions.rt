//! Functions on ints.

use crate::argument_values::{Arguments, boolean, int};
use crate::bit_functions::{bits_from, bits_in, is_bit_set, replace_bits, replace_range, set_bit};
use rhai_packs::{bits, blobs, ints, ranges};
use rhai_text::{ImmutableString, SizeKind};
use rhai_value::{Dynamic, INT, Store};
use script_faults::{FaultKind, Means, check_size};
use script_natives::{IntChange, IntFunction, IntQuestion};

/// Calls a function that doesn't change an int, if it is one.
pub(crate) fn ask_int(
    function: Option<IntFunction>,
    means: &Means,
    store: &Store,
    number: INT,
    arguments: &Arguments,
) -> Result<Option<Dynamic>, FaultKind> {
    match function {
        Some(IntFunction::Ask(question)) => {
            Ok(Some(int_answer(question, means, store, number, arguments)?))
        }
        Some(IntFunction::Change(_)) | None => Ok(None),
    }
}

fn int_answer(
    question: IntQuestion,
    means: &Means,
    store: &Store,
    number: INT,
    arguments: &Arguments,
) -> Result<Dynamic, FaultKind> {
    let first = &arguments.first;
    let alloc = means.alloc;
    match question {
        IntQuestion::Abs => Ok(Dynamic::from_int(ints::abs(number)?)),
        IntQuestion::Sign => Ok(Dynamic::from_int(ints::sign(number))),
        IntQuestion::Min => Ok(Dynamic::from_int(ints::min(number, int(first, store)?))),
        IntQuestion::Max => Ok(Dynamic::from_int(ints::max(number, int(first, store)?))),
        IntQuestion::IsZero => Ok(Dynamic::from_bool(ints::is_zero(number))),
        IntQuestion::IsOdd => Ok(Dynamic::from_bool(ints::is_odd(number))),
        IntQuestion::IsEven => Ok(Dynamic::from_bool(ints::is_even(number))),
        IntQuestion::ToHex => from_text(means, ints::to_hex(alloc, number)?),
        IntQuestion::ToOctal => from_text(means, ints::to_octal(alloc, number)?),
        IntQuestion::ToBinary => from_text(means, ints::to_binary(alloc, number)?),
        IntQuestion::Blob => Ok(Dynamic::from_blob(blobs::blob(
            alloc,
            &means.limits,
            number,
            int(first, store)?,
        )?)),
        IntQuestion::Range => { Ok(Dynamic::from(ranges::range(number, int(first, store)?))) }
        IntQuestion::Bits => {
            check_size(means.limits.items, 64, SizeKind::Items)?;
            Ok(Dynamic::from_array(bits::bits(alloc, number)?))
        }
        IntQuestion::GetBit => Ok(Dynamic::from_bool(is_bit_set(number, int(first, store)?)?)),
        IntQuestion::GetBits => Ok(Dynamic::from_int(bits_from(number, first, store)?)),
        IntQuestion::GetBitsSome => {
            let (bit, count) = (int(first, store)?, int(&arguments.second, store)?);
            Ok(Dynamic::from_int(bits_in(number, bit, count)?))
        }
    }
}

/// Makes a value of a text.
fn from_text(means: &Means, text: ImmutableString) -> Result<Dynamic, FaultKind> {
    check_size(means.limits.text, text.len(), SizeKind::Text)?;
    Ok(Dynamic::from(text))
}

/// Changes an int.
pub(crate) fn change_int_by(
    change: IntChange,
    store: &Store,
    number: &mut INT,
    arguments: &Arguments,
) -> Result<Dynamic, FaultKind> {
    let first = &arguments.first;
    let second = &arguments.second;
    match change {
        IntChange::SetBit => set_bit(number, int(first, store)?, boolean(second, store)?)?,
        IntChange::SetBits => replace_range(number, first, int(second, store)?, store)?,
        IntChange::SetBitsSome => {
            let (bit, count) = (int(first, store)?, int(second, store)?);
            replace_bits(number, bit, count, int(&arguments.third, store)?)?
        }
    }
    Ok(Dynamic::UNIT)
}
