//! The numbers of a line.
ghost use Rattle.std.specs.Prelude.{◌≡◌, ◌^◌, nat_lt, if◌then◌else◌, Some, None, option_and_then, string_bytes};
ghost use Rattle.rhai_lines.specs.Numbers.{whole_number_of, below, unsigned_of, signed_of};
ghost use Rattle.rhai_lines.specs.Vocabulary.{a_position, a_bit, an_int, a_tag};
ghost use Rattle.rhai_lines.specs.Spelling.{unsigned_word, signed_word};
ghost use Rattle.rhai_lines.specs.Cursor.{left_in, Adds};

use crate::words::{NoCommand, Word, next_word};
use rhai_value::{INT, Tag};
use std::alloc::{AllocError, Global};

/// The whole number that the digits denote, if it is below 2^128.
fn whole_number(digits: &[u8]) -> Option<u128>
    ensures { result ≡ option_and_then (below 128) (whole_number_of digits.now) }
{
    if digits.is_empty() {
        return None;
    }
    let mut number: u128 = 0;
    for digit in digits {
        if !digit.is_ascii_digit() {
            return None;
        }
        let tens = number.checked_mul(10)?;
        number = tens.checked_add(u128::from(*digit - b'0'))?;
    }
    Some(number)
}

/// An unsigned number; `-0` is 0.
pub(crate) fn unsigned(word: &str) -> Option<u128>
    ensures { result ≡ unsigned_of 128 word.now }
{
    match word.as_bytes() {
        [b'-', digits @ ..] => match whole_number(digits) {
            Some(0) => Some(0),
            _ => None,
        },
        digits => whole_number(digits),
    }
}

/// A signed number. It is accumulated from 0 in the direction of its sign, since no `i128` is
/// 2^127.
pub(crate) fn signed(word: &str) -> Option<i128>
    ensures { result ≡ signed_of 127 word.now }
{
    match word.as_bytes() {
        [b'-', digits @ ..] => 0_i128.checked_sub_unsigned(whole_number(digits)?),
        digits => 0_i128.checked_add_unsigned(whole_number(digits)?),
    }
}

pub(crate) fn u8_in(word: &str) -> Option<u8>
    ensures { result ≡ unsigned_of 8 word.now }
{
    u8::try_from(unsigned(word)?).ok()
}

pub(crate) fn u16_in(word: &str) -> Option<u16>
    ensures { result ≡ unsigned_of 16 word.now }
{
    u16::try_from(unsigned(word)?).ok()
}

pub(crate) fn u32_in(word: &str) -> Option<u32>
    ensures { result ≡ unsigned_of 32 word.now }
{
    u32::try_from(unsigned(word)?).ok()
}

pub(crate) fn u64_in(word: &str) -> Option<u64>
    ensures { result ≡ unsigned_of 64 word.now }
{
    u64::try_from(unsigned(word)?).ok()
}

pub(crate) fn usize_in(word: &str) -> Option<usize>
    ensures { result ≡ unsigned_of 64 word.now }
{
    usize::try_from(unsigned(word)?).ok()
}

pub(crate) fn i8_in(word: &str) -> Option<i8>
    ensures { result ≡ signed_of 7 word.now }
{
    i8::try_from(signed(word)?).ok()
}

pub(crate) fn i16_in(word: &str) -> Option<i16>
    ensures { result ≡ signed_of 15 word.now }
{
    i16::try_from(signed(word)?).ok()
}

pub(crate) fn i32_in(word: &str) -> Option<i32>
    ensures { result ≡ signed_of 31 word.now }
{
    i32::try_from(signed(word)?).ok()
}

pub(crate) fn i64_in(word: &str) -> Option<i64>
    ensures { result ≡ signed_of 63 word.now }
{
    i64::try_from(signed(word)?).ok()
}

/// Appends the digits of a number.
pub(crate) fn add_unsigned(line: &mut String, n: u128) -> Result<bool, AllocError>
    ensures { Adds result (unsigned_word 128 n) (string_bytes line.old) (string_bytes line.new) }
{
    write!(line, "{n}")?;
    Ok(true)
}

/// Appends a minus, if the number is negative, and the digits.
pub(crate) fn add_signed(line: &mut String, n: i128) -> Result<bool, AllocError>
    ensures { Adds result (signed_word 127 n) (string_bytes line.old) (string_bytes line.new) }
{
    write!(line, "{n}")?;
    Ok(true)
}

/// A position or a count.
#[tactic(auto, unfolding(crate::specs::Vocabulary::reads, crate::specs::Spelling::spells, crate::specs::Memory::takes_for))]
impl Word for usize {
    ghost word = { a_position };

    fn read(_alloc: Global, left: Option<&str>) -> Result<(usize, Option<&str>), NoCommand> {
        let (word, left) = next_word(left)?;
        Ok((usize_in(word).ok_or(NoCommand::BadLine)?, left))
    }

    fn spell(&self, line: &mut String) -> Result<bool, AllocError> {
        add_unsigned(line, *self as u128)
    }
}

/// The number of a bit.
#[tactic(auto, unfolding(crate::specs::Vocabulary::reads, crate::specs::Spelling::spells, crate::specs::Memory::takes_for))]
impl Word for u8 {
    ghost word = { a_bit };

    fn read(_alloc: Global, left: Option<&str>) -> Result<(u8, Option<&str>), NoCommand> {
        let (word, left) = next_word(left)?;
        Ok((u8_in(word).ok_or(NoCommand::BadLine)?, left))
    }

    fn spell(&self, line: &mut String) -> Result<bool, AllocError> {
        add_unsigned(line, *self as u128)
    }
}

/// An int.
#[tactic(auto, unfolding(crate::specs::Vocabulary::reads, crate::specs::Spelling::spells, crate::specs::Memory::takes_for))]
impl Word for INT {
    ghost word = { an_int };

    fn read(_alloc: Global, left: Option<&str>) -> Result<(INT, Option<&str>), NoCommand> {
        let (word, left) = next_word(left)?;
        Ok((i64_in(word).ok_or(NoCommand::BadLine)?, left))
    }

    fn spell(&self, line: &mut String) -> Result<bool, AllocError> {
        add_signed(line, *self as i128)
    }
}

/// A tag.
#[tactic(auto, unfolding(crate::specs::Vocabulary::reads, crate::specs::Spelling::spells, crate::specs::Memory::takes_for))]
impl Word for Tag {
    ghost word = { a_tag };

    fn read(_alloc: Global, left: Option<&str>) -> Result<(Tag, Option<&str>), NoCommand> {
        let (word, left) = next_word(left)?;
        Ok((i32_in(word).ok_or(NoCommand::BadLine)?, left))
    }

    fn spell(&self, line: &mut String) -> Result<bool, AllocError> {
        add_signed(line, *self as i128)
    }
}
