//! Functions on ints.

/// A function on an int.
#[derive(Clone, Copy)]
pub enum IntFunction {
    /// It doesn't change the int.
    Ask(IntQuestion),
    /// It may replace the int by another.
    Change(IntChange),
}

/// A function that doesn't change an int.
#[derive(Clone, Copy)]
pub enum IntQuestion {
    /// `abs()`
    Abs,
    /// `sign()`
    Sign,
    /// `min(other)`
    Min,
    /// `max(other)`
    Max,
    /// `is_zero()`
    IsZero,
    /// `is_odd()`
    IsOdd,
    /// `is_even()`
    IsEven,
    /// `to_hex()`
    ToHex,
    /// `to_octal()`
    ToOctal,
    /// `to_binary()`
    ToBinary,
    /// `blob(byte)`
    Blob,
    /// `range(end)`
    Range,
    /// `bits()`
    Bits,
    /// `get_bit(bit)`
    GetBit,
    /// `get_bits(range)`
    GetBits,
    /// `get_bits(bit, count)`
    GetBitsSome,
}

/// A function that may replace an int by another.
#[derive(Clone, Copy)]
pub enum IntChange {
    /// `set_bit(bit, boolean)`
    SetBit,
    /// `set_bits(range, int)`
    SetBits,
    /// `set_bits(bit, count, int)`
    SetBitsSome,
}

/// Finds the function with this name and number of arguments after the int.
/// Cost: constant; no memory.
pub fn int_function(name: &str, count: usize) -> Option<IntFunction> {
    if let Some(question) = question_of(name, count) {
        return Some(IntFunction::Ask(question));
    }
    match (count, name) {
        (2, "set_bit") => Some(IntFunction::Change(IntChange::SetBit)),
        (2, "set_bits") => Some(IntFunction::Change(IntChange::SetBits)),
        (3, "set_bits") => Some(IntFunction::Change(IntChange::SetBitsSome)),
        _ => None,
    }
}

fn question_of(name: &str, count: usize) -> Option<IntQuestion> {
    match (count, name) {
        (0, "abs") => Some(IntQuestion::Abs),
        (0, "sign") => Some(IntQuestion::Sign),
        (1, "min") => Some(IntQuestion::Min),
        (1, "max") => Some(IntQuestion::Max),
        (0, "is_zero") => Some(IntQuestion::IsZero),
        (0, "is_odd") => Some(IntQuestion::IsOdd),
        (0, "is_even") => Some(IntQuestion::IsEven),
        (0, "to_hex") => Some(IntQuestion::ToHex),
        (0, "to_octal") => Some(IntQuestion::ToOctal),
        (0, "to_binary") => Some(IntQuestion::ToBinary),
        (1, "blob") => Some(IntQuestion::Blob),
        (1, "range") => Some(IntQuestion::Range),
        (0, "bits") => Some(IntQuestion::Bits),
        (1, "get_bit") => Some(IntQuestion::GetBit),
        (1, "get_bits") => Some(IntQuestion::GetBits),
        (2, "get_bits") => Some(IntQuestion::GetBitsSome),
        _ => None,
    }
}
