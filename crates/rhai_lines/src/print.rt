//! Answers as bytes.
ghost use Rattle.std.specs.Prelude.{◌++◌, ◌∷◌, [], codes, flat_map, OnOk};
ghost use Rattle.std.specs.Io.KnownBytes.{Appends};
ghost use Rattle.rhai_show.specs.Leaves.{hex_digits};
ghost use Rattle.rhai_lines.specs.Printed.{printed, reason_text, fault_text, arithmetic_text, size_text};

use rhai_run::{Answer, Refusal};
use rhai_text::{ArithmeticFault, EvalAltResult, SizeKind};
use std::io;
use std::io::Write;

/// Writes why a calculation has no result.
fn write_arithmetic<W: Write>(why: ArithmeticFault, writer: &mut W) -> io::Result<()>
    ensures { OnOk result (Appends (W.contents writer.old) (W.contents writer.new) (arithmetic_text why)) }
{
    match why {
        ArithmeticFault::Overflow => writer.write_all(b"Overflow"),
        ArithmeticFault::DivisionByZero => writer.write_all(b"DivisionByZero"),
        ArithmeticFault::NegativePower => writer.write_all(b"NegativePower"),
        ArithmeticFault::PowerTooLarge => writer.write_all(b"PowerTooLarge"),
    }
}

/// Writes the limit that a value would exceed.
fn write_size<W: Write>(size: SizeKind, writer: &mut W) -> io::Result<()>
    ensures { OnOk result (Appends (W.contents writer.old) (W.contents writer.new) (size_text size)) }
{
    match size {
        SizeKind::Text => writer.write_all(b"Text"),
        SizeKind::Items => writer.write_all(b"Items"),
    }
}

/// Writes the error of a call.
fn write_fault<W: Write>(error: &EvalAltResult, writer: &mut W) -> io::Result<()>
    ensures { OnOk result (Appends (W.contents writer.old) (W.contents writer.new) (fault_text error.now)) }
{
    match error {
        EvalAltResult::ErrorMismatchDataType(wanted, found, _) => {
            writer.write_all(b"ErrorMismatchDataType ")?;
            writer.write_all(wanted.as_str().as_bytes())?;
            writer.write_all(b" ")?;
            writer.write_all(found.as_str().as_bytes())
        }
        EvalAltResult::ErrorDataRace(_) => writer.write_all(b"ErrorDataRace"),
        EvalAltResult::ErrorArithmetic(why, _) => {
            writer.write_all(b"ErrorArithmetic ")?;
            write_arithmetic(*why, writer)
        }
        EvalAltResult::ErrorDataTooLarge(size, _) => {
            writer.write_all(b"ErrorDataTooLarge ")?;
            write_size(*size, writer)
        }
        EvalAltResult::ErrorMemory(_) => writer.write_all(b"ErrorMemory"),
    }
}

/// Writes why a command was refused.
fn write_reason<W: Write>(refusal: &Refusal, writer: &mut W) -> io::Result<()>
    ensures { OnOk result (Appends (W.contents writer.old) (W.contents writer.new) (reason_text refusal.now)) }
{
    match refusal {
        Refusal::NoValue => writer.write_all(b"NoValue"),
        Refusal::SameValue => writer.write_all(b"SameValue"),
        Refusal::NoEntry => writer.write_all(b"NoEntry"),
        Refusal::EmptyScope => writer.write_all(b"EmptyScope"),
        Refusal::ConstantEntry => writer.write_all(b"ConstantEntry"),
        Refusal::SharedEntry => writer.write_all(b"SharedEntry"),
        Refusal::NoMark => writer.write_all(b"NoMark"),
        Refusal::WrongSource => writer.write_all(b"WrongSource"),
        Refusal::BitPlace => writer.write_all(b"BitPlace"),
        Refusal::BytePlace => writer.write_all(b"BytePlace"),
        Refusal::NoBuiltin => writer.write_all(b"NoBuiltin"),
        Refusal::NotHashable => writer.write_all(b"NotHashable"),
        Refusal::Mismatch(name) => {
            writer.write_all(b"Mismatch ")?;
            writer.write_all(name.as_str().as_bytes())
        }
        Refusal::Fault(error) => write_fault(error, writer),
    }
}

/// Writes a byte as two hexadecimal digits.
fn write_byte<W: Write>(byte: u8, writer: &mut W) -> io::Result<()>
    ensures { OnOk result (Appends (W.contents writer.old) (W.contents writer.new) (hex_digits byte)) }
{
    write!(writer, "{byte:02x}")
}

/// Writes bytes as hexadecimal digits, two for each.
fn write_hex<W: Write>(bytes: &[u8], writer: &mut W) -> io::Result<()>
    ensures { OnOk result (Appends (W.contents writer.old) (W.contents writer.new) (flat_map hex_digits bytes.now)) }
{
    for byte in bytes {
        write_byte(*byte, writer)?;
    }
    Ok(())
}

/// Writes an answer. Costs the number of bytes of the answer's text.
fn write_reply<W: Write>(answer: &Answer, writer: &mut W) -> io::Result<()>
    ensures { OnOk result (Appends (W.contents writer.old) (W.contents writer.new) (printed answer.now)) }
{
    match answer {
        Answer::Done => writer.write_all(b"ok"),
        Answer::Bool(true) => writer.write_all(b"true"),
        Answer::Bool(false) => writer.write_all(b"false"),
        Answer::Int(number) => write!(writer, "{number}"),
        Answer::Text(text) => writer.write_all(text.as_str().as_bytes()),
        Answer::Bytes(bytes) => write_hex(bytes.as_slice(), writer),
        Answer::Pair(first, second) => write!(writer, "{first} {second}"),
        Answer::Nothing => writer.write_all(b"none"),
        Answer::Refused(refusal) => {
            writer.write_all(b"refused ")?;
            write_reason(refusal, writer)
        }
    }
}

/// Writes the line of an answer.
/// Errors: the writer's; a part of the line may have been written.
/// Cost: the length of the line; no memory.
pub fn write_answer<W: Write>(answer: &Answer, writer: &mut W) -> io::Result<()>
    ensures { OnOk result (Appends (W.contents writer.old) (W.contents writer.new) (printed answer.now ++ 10 ∷ [])) }
{
    write_reply(answer, writer)?;
    writer.write_all(b"\n")
}

/// Writes the answer to a line without a command.
/// Errors: the writer's; a part of the line may have been written.
pub fn write_bad_line<W: Write>(writer: &mut W) -> io::Result<()>
    ensures { OnOk result (Appends (W.contents writer.old) (W.contents writer.new) (codes "refused BadLine" ++ 10 ∷ [])) }
{
    writer.write_all(b"refused BadLine\n")
}
