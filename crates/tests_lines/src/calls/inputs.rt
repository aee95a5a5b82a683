//! Inputs that no row contains: lines that end with the input, and bytes that are not characters.
ghost use Rattle.std.specs.Prelude.{◌≡◌, IfOk};
ghost use Rattle.rhai_lines.specs.Output.{new_world, output};

use rhai_lines::{LinesFault, run_lines};
use std::alloc::{AllocError, Global};

/// Returns what is written for an input in memory.
pub(crate) fn answers(alloc: Global, input: &[u8]) -> Result<Vec<u8>, LinesFault>
    ensures { IfOk result (λ out. out.items ≡ output new_world input.now) }
{
    let mut reader = input;
    let mut out = Vec::new(alloc);
    run_lines(alloc, &mut reader, &mut out)?;
    Ok(out)
}

/// Whether an input has this output.
fn is_answered(alloc: Global, input: &[u8], wanted: &[u8]) -> bool {
    match answers(alloc, input) {
        Ok(out) => out.as_slice() == wanted,
        Err(_) => false,
    }
}

pub(super) fn the_last_line_may_end_with_the_input(alloc: Global) -> bool {
    let (asked, answered) = (
        b"bool true\nbool false\nshow 1\ndrop\nshow 1\nget y",
        b"ok\nok\nfalse\nok\nrefused NoValue\nrefused NoEntry\n",
    );
    is_answered(alloc, asked, answered)
        && is_answered(alloc, b"int 1\n\nshow 0", b"ok\nrefused BadLine\n1\n")
        && is_answered(alloc, b"int 1\n", b"ok\n")
        && is_answered(alloc, b"int 1\r", b"refused BadLine\n")
        && is_answered(alloc, b"\n", b"refused BadLine\n")
        && is_answered(alloc, b"\xff", b"refused BadLine\n")
        && is_answered(alloc, b"", b"")
}

/// Makes the line that puts ten thousand of these digits and a 7, and one that shows it.
fn many_digits(alloc: Global, digit: u8) -> Result<Vec<u8>, AllocError> {
    let mut input = b"int ".to_vec(alloc)?;
    for _ in 0..10000 {
        input.push(digit)?;
    }
    input.extend_from_slice(b"7\nshow 0\n")?;
    Ok(input)
}

/// Whether this many digits have this output.
fn are_digits_answered(alloc: Global, digit: u8, wanted: &[u8]) -> bool {
    match many_digits(alloc, digit) {
        Ok(input) => is_answered(alloc, &input, wanted),
        Err(_) => false,
    }
}

pub(super) fn any_number_of_digits_is_read(alloc: Global) -> bool {
    are_digits_answered(alloc, b'0', b"ok\n7\n")
        && are_digits_answered(alloc, b'9', b"refused BadLine\nrefused NoValue\n")
}
