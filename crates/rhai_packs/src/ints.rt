//! Ints.
ghost use Rattle.std.specs.Prelude.{◌≡◌, ◌↔◌, false, pos, negsuc, unsigned_abs, ◌^◌, ◌-◌, ◌%◌, IfErr, IfOk, IsTrue, OnErr, OnOk, string_bytes};
ghost use Rattle.std.specs.Fmt.{digits, signed_decimal};
ghost use Rattle.std.specs.Int.{cast_unsigned, int_signum, w64};
ghost use Rattle.std.specs.Str.{chars, trim};
ghost use Rattle.std.specs.Str.Parse.{ExplainsSignedError, ParsesSigned};
ghost use Rattle.std.specs.Ordering.{int_cmp, ord_max, ord_min};
ghost use Rattle.rhai_text.specs.declared.error.ArithmeticFault.TheVariants.{Overflow};
ghost use Rattle.rhai_text.specs.declared.error.EvalAltResult.TheVariants.{ErrorArithmetic};
ghost use Rattle.rhai_packs.specs.Radix.{IsRadix, IsUnread};
ghost use Rattle.rhai_packs.specs.Sizes.{no_place};

use rhai_text::{ArithmeticFault, EvalAltResult, ImmutableString, Position};
use rhai_value::INT;
use std::alloc::{AllocError, Global};
use std::num::ParseIntError;

/// Returns the absolute value of an int.
/// Errors: `Overflow` exactly for the least int, whose absolute value isn't an int.
/// Cost: constant.
/// rhai: `abs`.
pub fn abs(number: INT) -> Result<INT, EvalAltResult>
    ensures ok { IfOk result (λ n. n ≡ pos (unsigned_abs number)) }
    ensures err { IfErr result (λ e. (number ≡ negsuc (2 ^ 63 - 1)) × (e ≡ ErrorArithmetic Overflow no_place)) }
{
    if number == INT::MIN {
        return Err(EvalAltResult::ErrorArithmetic(ArithmeticFault::Overflow, Position::NONE));
    }
    Ok(number.abs())
}

/// Returns 1 for an int above 0, 0 for 0, and -1 for an int below.
/// Cost: constant.
/// rhai: `sign`.
pub fn sign(number: INT) -> INT
    ensures { result ≡ int_signum number }
{
    number.signum()
}

/// Returns whether an int is 0.
/// Cost: constant.
/// rhai: `is_zero`.
pub fn is_zero(number: INT) -> bool
    ensures { IsTrue result ↔ (number ≡ pos 0) }
{
    number == 0
}

/// Returns whether an int is odd.
/// Cost: constant.
/// rhai: `is_odd`.
pub fn is_odd(number: INT) -> bool
    ensures { IsTrue result ↔ (unsigned_abs number % 2 ≡ 1) }
{
    number.unsigned_abs() % 2 == 1
}

/// Returns whether an int is even.
/// Cost: constant.
/// rhai: `is_even`.
pub fn is_even(number: INT) -> bool
    ensures { IsTrue result ↔ (unsigned_abs number % 2 ≡ 0) }
{
    number.unsigned_abs() % 2 == 0
}

/// Returns the lesser of two ints.
/// Cost: constant.
/// rhai: `min`.
pub fn min(first: INT, second: INT) -> INT
    ensures { result ≡ ord_min int_cmp first second }
{
    first.min(second)
}

/// Returns the greater of two ints.
/// Cost: constant.
/// rhai: `max`.
pub fn max(first: INT, second: INT) -> INT
    ensures { result ≡ ord_max int_cmp first second }
{
    first.max(second)
}

/// Writes an int in decimal.
/// Errors: an allocation fails.
/// Cost: the number of digits.
/// rhai: `to_string`.
pub fn to_string(alloc: Global, number: INT) -> Result<ImmutableString, AllocError>
    ensures { IfOk result (λ text. text ≡ chars (signed_decimal number)) }
{
    let written = format!(in alloc; "{number}")?;
    ImmutableString::from_str(alloc, written.as_str())
}

/// Writes the 64 bits of an int in hexadecimal, without leading zeros.
/// Errors: an allocation fails.
/// Cost: the number of digits.
/// rhai: `to_hex`.
pub fn to_hex(alloc: Global, number: INT) -> Result<ImmutableString, AllocError>
    ensures { IfOk result (λ text. text ≡ chars (digits 16 false (cast_unsigned w64 number))) }
{
    let written = format!(in alloc; "{number:x}")?;
    ImmutableString::from_str(alloc, written.as_str())
}

/// Writes the 64 bits of an int in octal, without leading zeros.
/// Errors: an allocation fails.
/// Cost: the number of digits.
/// rhai: `to_octal`.
pub fn to_octal(alloc: Global, number: INT) -> Result<ImmutableString, AllocError>
    ensures { IfOk result (λ text. text ≡ chars (digits 8 false (cast_unsigned w64 number))) }
{
    let written = format!(in alloc; "{number:o}")?;
    ImmutableString::from_str(alloc, written.as_str())
}

/// Writes the 64 bits of an int in binary, without leading zeros.
/// Errors: an allocation fails.
/// Cost: the number of digits.
/// rhai: `to_binary`.
pub fn to_binary(alloc: Global, number: INT) -> Result<ImmutableString, AllocError>
    ensures { IfOk result (λ text. text ≡ chars (digits 2 false (cast_unsigned w64 number))) }
{
    let written = format!(in alloc; "{number:b}")?;
    ImmutableString::from_str(alloc, written.as_str())
}

/// Parses a decimal int, with or without a sign; ignores white space at both ends.
/// Errors: what is wrong with the text.
/// Cost: the length of the text.
/// rhai: `parse_int`.
pub fn parse_int(text: &str) -> Result<INT, ParseIntError>
    ensures value { ParsesSigned w64 10 (trim text.now) result }
    ensures err { ExplainsSignedError 10 (trim text.now) result }
{
    INT::from_str_radix(text.trim(), 10)
}

/// Why a text can't be parsed as an int in a radix.
#[derive(Debug, Drop)]
pub enum ParseRadixError {
    /// The radix is below 2 or above 36.
    InvalidRadix,
    /// What is wrong with the text.
    InvalidText(ParseIntError),
}

/// Parses an int in a radix from 2 to 36, with letters of either case as digits above 9, with or
/// without a sign; ignores white space at both ends.
/// Errors: another radix, or what is wrong with the text.
/// Cost: the length of the text.
/// rhai: `parse_int`.
pub fn parse_int_radix(text: &str, radix: INT) -> Result<INT, ParseRadixError>
    ensures value { IsRadix radix → ParsesSigned w64 (unsigned_abs radix) (trim text.now) result }
    ensures ok { OnOk result (IsRadix radix) }
    ensures err { IfErr result (IsUnread radix (trim text.now)) }
{
    let base = radix.unsigned_abs();
    if radix < 0 || base < 2 || base > 36 {
        return Err(ParseRadixError::InvalidRadix);
    }
    match INT::from_str_radix(text.trim(), base as u32) {
        Ok(number) => Ok(number),
        Err(error) => Err(ParseRadixError::InvalidText(error)),
    }
}
