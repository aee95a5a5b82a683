//! How each answer and each refusal is printed, including those that no line returns today.

use rhai_lines::write_answer;
use rhai_run::{Answer, Bytes, Refusal, Shown};
use rhai_text::{ArithmeticFault, EvalAltResult, Position, SizeKind, TypeName};
use std::alloc::{AllocError, Global};

/// Whether an answer is printed like this, with a line feed.
pub(super) fn is_printed(alloc: Global, answer: &Answer, wanted: &str) -> bool {
    let mut line = Vec::new(alloc);
    write_answer(answer, &mut line).is_ok()
        && line.as_slice().strip_suffix(b"\n") == Some(wanted.as_bytes())
}

/// As `is_printed`, for an answer that is dropped.
fn prints(alloc: Global, answer: Answer, wanted: &str) -> bool {
    is_printed(alloc, &answer, wanted)
}

pub(super) fn answers(alloc: Global) -> bool {
    let greatest = "170141183460469231731687303715884105727";
    let least = "-170141183460469231731687303715884105728";
    prints(alloc, Answer::Done, "ok")
        && prints(alloc, Answer::Bool(true), "true")
        && prints(alloc, Answer::Bool(false), "false")
        && prints(alloc, Answer::Nothing, "none")
        && prints(alloc, Answer::Int(0), "0")
        && prints(alloc, Answer::Int(-12), "-12")
        && prints(alloc, Answer::Int(i128::MAX), greatest)
        && prints(alloc, Answer::Int(i128::MIN), least)
}

/// Whether a text of two lines is printed unchanged.
fn is_text_printed(alloc: Global, text: &str) -> bool {
    match String::from_str(alloc, text) {
        Ok(owned) => prints(alloc, Answer::Text(Shown::from_text(owned)), text),
        Err(_) => false,
    }
}

/// Whether bytes are printed like this.
fn are_bytes_printed(alloc: Global, bytes: &[u8], wanted: &str) -> bool {
    match bytes.to_vec(alloc) {
        Ok(bytes) => prints(alloc, Answer::Bytes(Bytes::new(bytes)), wanted),
        Err(_) => false,
    }
}

pub(super) fn texts_and_bytes(alloc: Global) -> bool {
    is_text_printed(alloc, "a\n\u{e9}")
        && are_bytes_printed(alloc, b"\x00\x0f\xa0\xff", "000fa0ff")
        && are_bytes_printed(alloc, b"", "")
}

/// Whether a refusal is printed like this.
fn is_refused(alloc: Global, refusal: Refusal, wanted: &str) -> bool {
    prints(alloc, Answer::Refused(refusal), wanted)
}

/// Whether the error of a call is printed like this.
fn is_fault(alloc: Global, error: EvalAltResult, wanted: &str) -> bool {
    is_refused(alloc, Refusal::Fault(error), wanted)
}

/// Whether an arithmetic fault is printed like this.
fn is_arithmetic(alloc: Global, why: ArithmeticFault, wanted: &str) -> bool {
    is_fault(
        alloc,
        EvalAltResult::ErrorArithmetic(why, Position::NONE),
        wanted,
    )
}

/// Whether the error of a value that is too large is printed like this.
fn is_size(alloc: Global, kind: SizeKind, wanted: &str) -> bool {
    is_fault(
        alloc,
        EvalAltResult::ErrorDataTooLarge(kind, Position::NONE),
        wanted,
    )
}

pub(super) fn refusals(alloc: Global) -> bool {
    is_refused(alloc, Refusal::NoValue, "refused NoValue")
        && is_refused(alloc, Refusal::SameValue, "refused SameValue")
        && is_refused(alloc, Refusal::NoEntry, "refused NoEntry")
        && is_refused(alloc, Refusal::EmptyScope, "refused EmptyScope")
        && is_refused(alloc, Refusal::ConstantEntry, "refused ConstantEntry")
        && is_refused(alloc, Refusal::SharedEntry, "refused SharedEntry")
        && is_refused(alloc, Refusal::NoBuiltin, "refused NoBuiltin")
        && is_refused(alloc, Refusal::NotHashable, "refused NotHashable")
        && is_refused(
            alloc,
            Refusal::Mismatch(TypeName::new("<shared>")),
            "refused Mismatch <shared>",
        )
}

/// Whether the other errors of calls are printed by their names.
fn are_faults(alloc: Global) -> bool {
    let wrong = EvalAltResult::mismatch("char", "i64", Position::NONE);
    is_fault(alloc, wrong, "refused ErrorMismatchDataType char i64")
        && is_fault(
            alloc,
            EvalAltResult::ErrorDataRace(Position::NONE),
            "refused ErrorDataRace",
        )
        && is_fault(
            alloc,
            EvalAltResult::ErrorMemory(AllocError),
            "refused ErrorMemory",
        )
}

pub(super) fn errors_of_calls(alloc: Global) -> bool {
    let (overflow, zero) = (ArithmeticFault::Overflow, ArithmeticFault::DivisionByZero);
    let (negative, large) = (
        ArithmeticFault::NegativePower,
        ArithmeticFault::PowerTooLarge,
    );
    are_faults(alloc)
        && is_size(alloc, SizeKind::Text, "refused ErrorDataTooLarge Text")
        && is_size(alloc, SizeKind::Items, "refused ErrorDataTooLarge Items")
        && is_arithmetic(alloc, overflow, "refused ErrorArithmetic Overflow")
        && is_arithmetic(alloc, zero, "refused ErrorArithmetic DivisionByZero")
        && is_arithmetic(alloc, negative, "refused ErrorArithmetic NegativePower")
        && is_arithmetic(alloc, large, "refused ErrorArithmetic PowerTooLarge")
}
