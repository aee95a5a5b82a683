//! The text of a blob.
ghost use Rattle.std.specs.Prelude.{◌≡◌, ◌++◌, OnOk, string_bytes};
ghost use Rattle.std.specs.Str.{chars};
ghost use Rattle.rhai_show.specs.Leaves.{blob_printed, hex_digits, space_before};

use crate::leaf::add_text;
use std::alloc::AllocError;

/// Appends the bytes of a blob, as hexadecimal digits in groups of eight bytes.
pub(crate) fn add_blob(out: &mut String, bytes: &[u8]) -> Result<(), AllocError>
    ensures { OnOk result (chars (string_bytes out.new) ≡ chars (string_bytes out.old) ++ blob_printed bytes.now) }
{
    add_text(out, "[")?;
    for (index, byte) in bytes.iter().enumerate() {
        add_space(out, index)?;
        add_byte(out, *byte)?;
    }
    add_text(out, "]")
}

/// Appends the space before each group of bytes but the first.
fn add_space(out: &mut String, index: usize) -> Result<(), AllocError>
    ensures { OnOk result (chars (string_bytes out.new) ≡ chars (string_bytes out.old) ++ space_before index) }
{
    if index > 0 && index % 8 == 0 {
        add_text(out, " ")
    } else {
        Ok(())
    }
}

fn add_byte(out: &mut String, byte: u8) -> Result<(), AllocError>
    ensures { OnOk result (chars (string_bytes out.new) ≡ chars (string_bytes out.old) ++ hex_digits byte) }
{
    let _before = out.as_str();
    write!(out, "{byte:02x}")
}
