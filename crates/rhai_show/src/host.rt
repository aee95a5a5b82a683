//! The texts of the host's integers and ranges.
ghost use Rattle.std.specs.Prelude.{◌≡◌, ◌++◌, OnOk, string_bytes};
ghost use Rattle.std.specs.Str.{chars};
ghost use Rattle.std.specs.Fmt.{decimal, signed_decimal};
ghost use Rattle.rhai_show.specs.Leaves.{end_printed, host_printed};

use crate::leaf::{add_int, add_text};
use rhai_value::{Host, INT};
use std::alloc::AllocError;

pub(crate) fn add_host(out: &mut String, value: &Host) -> Result<(), AllocError>
    ensures { OnOk result (chars (string_bytes out.new) ≡ chars (string_bytes out.old) ++ host_printed value.now) }
{
    match *value {
        Host::U8(n) => add_unsigned(out, n as u128),
        Host::U16(n) => add_unsigned(out, n as u128),
        Host::U32(n) => add_unsigned(out, n as u128),
        Host::U64(n) => add_unsigned(out, n as u128),
        Host::U128(n) => add_unsigned(out, n),
        Host::I8(n) => add_signed(out, n as i128),
        Host::I16(n) => add_signed(out, n as i128),
        Host::I32(n) => add_signed(out, n as i128),
        Host::I128(n) => add_signed(out, n),
        Host::ExclusiveRange(range) => add_range(out, &range.start, "..", &range.end),
        Host::InclusiveRange(range) => add_range(out, &range.start, "..=", &range.end),
    }
}

fn add_unsigned(out: &mut String, value: u128) -> Result<(), AllocError>
    ensures { OnOk result (chars (string_bytes out.new) ≡ chars (string_bytes out.old) ++ decimal value) }
{
    let _before = out.as_str();
    write!(out, "{value}")
}

fn add_signed(out: &mut String, value: i128) -> Result<(), AllocError>
    ensures { OnOk result (chars (string_bytes out.new) ≡ chars (string_bytes out.old) ++ signed_decimal value) }
{
    let _before = out.as_str();
    write!(out, "{value}")
}

fn add_range(out: &mut String, start: &INT, between: &str, end: &INT) -> Result<(), AllocError>
    ensures { OnOk result (chars (string_bytes out.new) ≡ chars (string_bytes out.old) ++ (signed_decimal start.now ++ chars between.now ++ end_printed end.now)) }
{
    add_int(out, start)?;
    add_text(out, between)?;
    add_end(out, end)
}

/// Appends the end of a range; nothing if it is the greatest integer.
fn add_end(out: &mut String, end: &INT) -> Result<(), AllocError>
    ensures { OnOk result (chars (string_bytes out.new) ≡ chars (string_bytes out.old) ++ end_printed end.now) }
{
    if *end == INT::MAX {
        Ok(())
    } else {
        add_int(out, end)
    }
}
