//! The 64 bits of a script's int.
#![tactic(auto)]

ghost use Rattle.std.specs.Prelude.{◌≡◌, ◌<◌};
ghost use Rattle.rhai_bits.specs.Bits as specs;

/// An int of a script.
pub type INT = i64;

/// Returns the number with bit `place` set, or cleared.
/// Cost: constant.
pub fn with_bit(number: INT, place: u8, is_set: bool) -> INT
    requires { place < 64 }
    ensures { result ≡ specs.with_bit place is_set number }
{
    let mask = 1 << place as u32;
    if is_set {
        number | mask
    } else {
        number & !mask
    }
}

/// Returns the number in which the bits of the mask are those of the value, from bit `shift` on.
/// Cost: constant.
pub fn with_field(number: INT, mask: INT, shift: u8, value: INT) -> INT
    requires { shift < 64 }
    ensures { result ≡ specs.with_field mask shift value number }
{
    number & !mask | value << shift as u32 & mask
}

/// Returns whether bit `place` is set.
/// Cost: constant.
pub fn bit_of(number: INT, place: u8) -> bool
    requires { place < 64 }
    ensures { result ≡ specs.bit number place }
{
    (number.cast_unsigned() >> place as u32) & 1 == 1
}

/// Returns the bits of the mask, shifted right by `shift`; the vacated bits are zero.
/// Cost: constant.
pub fn field_of(number: INT, mask: INT, shift: u8) -> INT
    requires { shift < 64 }
    ensures { result ≡ specs.field mask shift number }
{
    ((number & mask).cast_unsigned() >> shift as u32).cast_signed()
}
