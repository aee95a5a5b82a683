//! How an answer is reported in numbers.
ghost use Rattle.std.specs.Prelude.{◌≡◌};
ghost use Rattle.rhai_host.specs.Answers.{told_of, told_refusal, told_fault, arithmetic_number, size_number, bit, in_numbers, low_word, high_word};

use rhai_run::{Answer, Refusal};
use rhai_text::{ArithmeticFault, EvalAltResult, SizeKind};

/// An answer in numbers. Further calls fetch its text, its bytes and the names of types.
#[repr(C)]
#[derive(Drop)]
pub struct Told {
    /// 0 done, 1 a boolean, 2 a number, 3 a text, 4 bytes, 5 two numbers, 6 nothing, 7 a refusal.
    pub kind: u32,
    /// Which refusal; else 0.
    pub reason: u32,
    /// A boolean as 0 or 1, the lower 64 bits of a number, a length in bytes, the first of two
    /// numbers, or which one of a kind of refusals.
    pub low: u64,
    /// The upper 64 bits of a number, the second of two numbers, or the length of a second name.
    pub high: u64,
}

#[inline(always)]
fn in_numbers(kind: u32, reason: u32, low: u64, high: u64) -> Told
    ensures { result ≡ in_numbers kind reason low high }
{
    Told {
        kind,
        reason,
        low,
        high,
    }
}

fn arithmetic_number(fault: &ArithmeticFault) -> u64
    ensures { result ≡ arithmetic_number fault.now }
{
    match fault {
        ArithmeticFault::Overflow => 0,
        ArithmeticFault::DivisionByZero => 1,
        ArithmeticFault::NegativePower => 2,
        ArithmeticFault::PowerTooLarge => 3,
    }
}

fn size_number(size: &SizeKind) -> u64
    ensures { result ≡ size_number size.now }
{
    match size {
        SizeKind::Text => 0,
        SizeKind::Items => 1,
    }
}

fn told_fault(fault: &EvalAltResult) -> Told
    ensures { result ≡ told_fault fault.now }
{
    match fault {
        EvalAltResult::ErrorMismatchDataType(wanted, found, _) => in_numbers(
            7,
            13,
            wanted.as_str().len() as u64,
            found.as_str().len() as u64,
        ),
        EvalAltResult::ErrorDataRace(_) => in_numbers(7, 14, 0, 0),
        EvalAltResult::ErrorArithmetic(why, _) => in_numbers(7, 15, arithmetic_number(why), 0),
        EvalAltResult::ErrorDataTooLarge(what, _) => in_numbers(7, 16, size_number(what), 0),
        EvalAltResult::ErrorMemory(_) => in_numbers(7, 17, 0, 0),
    }
}

fn told_refusal(why: &Refusal) -> Told
    ensures { result ≡ told_refusal why.now }
{
    match why {
        Refusal::NoValue => in_numbers(7, 0, 0, 0),
        Refusal::SameValue => in_numbers(7, 1, 0, 0),
        Refusal::NoEntry => in_numbers(7, 2, 0, 0),
        Refusal::EmptyScope => in_numbers(7, 3, 0, 0),
        Refusal::ConstantEntry => in_numbers(7, 4, 0, 0),
        Refusal::SharedEntry => in_numbers(7, 5, 0, 0),
        Refusal::NoMark => in_numbers(7, 6, 0, 0),
        Refusal::WrongSource => in_numbers(7, 7, 0, 0),
        Refusal::BitPlace => in_numbers(7, 8, 0, 0),
        Refusal::BytePlace => in_numbers(7, 9, 0, 0),
        Refusal::NoBuiltin => in_numbers(7, 10, 0, 0),
        Refusal::NotHashable => in_numbers(7, 11, 0, 0),
        Refusal::Mismatch(name) => in_numbers(7, 12, name.as_str().len() as u64, 0),
        Refusal::Fault(fault) => told_fault(fault),
    }
}

fn told_number(n: i128) -> Told
    ensures { result ≡ in_numbers 2 0 (low_word n) (high_word n) }
{
    let bits = n.cast_unsigned();
    let low = bits % (1 << 64);
    let high = bits / (1 << 64);
    in_numbers(2, 0, low as u64, high as u64)
}

/// Converts an answer to numbers.
#[inline(always)]
pub(crate) fn told_of(answer: &Answer) -> Told
    ensures { result ≡ told_of answer.now }
{
    match answer {
        Answer::Done => in_numbers(0, 0, 0, 0),
        Answer::Bool(truth) => in_numbers(1, 0, u64::from(*truth), 0),
        Answer::Int(n) => told_number(*n),
        Answer::Text(text) => in_numbers(3, 0, text.as_str().len() as u64, 0),
        Answer::Bytes(bytes) => in_numbers(4, 0, bytes.as_slice().len() as u64, 0),
        Answer::Pair(first, second) => in_numbers(5, 0, *first as u64, *second as u64),
        Answer::Nothing => in_numbers(6, 0, 0, 0),
        Answer::Refused(why) => told_refusal(why),
    }
}
