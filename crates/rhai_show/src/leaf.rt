//! The texts of values without children.
ghost use Rattle.std.specs.Prelude.{◌≡◌, ◌++◌, ◌<◌, OnOk, string_bytes};
ghost use Rattle.std.specs.Str.{chars};
ghost use Rattle.std.specs.Fmt.{decimal, signed_decimal};
ghost use Rattle.rhai_value.specs.Tree.{unit, char as a_char, text as a_text};
ghost use Rattle.rhai_show.specs.Leaves.{bool_text, leaf_printed};
ghost use Rattle.rhai_show.specs.Shape.{leaf_of};

use crate::blob::add_blob;
use crate::form::Form;
use crate::host::add_host;
use crate::shape::Leaf;
use rhai_text::{ImmutableString, quoted_char_into};
use rhai_value::INT;
use std::alloc::AllocError;

/// Appends a text.
pub(crate) fn add_text(out: &mut String, text: &str) -> Result<(), AllocError>
    ensures { OnOk result (chars (string_bytes out.new) ≡ chars (string_bytes out.old) ++ chars text.now) }
{
    let _before = out.as_str();
    out.push_str(text)
}

/// Appends the text of a leaf.
#[inline(always)]
pub(crate) fn add_leaf(out: &mut String, leaf: Leaf, form: Form) -> Result<(), AllocError>
    ensures { OnOk result (chars (string_bytes out.new) ≡ chars (string_bytes out.old) ++ leaf_printed form (leaf_of leaf.entry)) }
{
    match leaf {
        Leaf::Unit => add_unit(out, form),
        Leaf::Bool(truth) => add_bool(out, truth),
        Leaf::Int(number) => add_int(out, number),
        Leaf::Char(character) => add_char(out, character, form),
        Leaf::Text(text) => add_string(out, text, form),
        Leaf::Blob(bytes) => add_blob(out, bytes),
        Leaf::Host(host) => add_host(out, host),
    }
}

fn add_unit(out: &mut String, form: Form) -> Result<(), AllocError>
    ensures { OnOk result (chars (string_bytes out.new) ≡ chars (string_bytes out.old) ++ leaf_printed form unit) }
{
    match form {
        Form::Display => Ok(()),
        Form::Inner => Ok(()),
        Form::Debug => add_text(out, "()"),
    }
}

fn add_bool(out: &mut String, value: bool) -> Result<(), AllocError>
    ensures { OnOk result (chars (string_bytes out.new) ≡ chars (string_bytes out.old) ++ bool_text value) }
{
    if value {
        add_text(out, "true")
    } else {
        add_text(out, "false")
    }
}

/// Appends the decimal digits of an int.
pub(crate) fn add_int(out: &mut String, value: &INT) -> Result<(), AllocError>
    ensures { OnOk result (chars (string_bytes out.new) ≡ chars (string_bytes out.old) ++ signed_decimal value.now) }
{
    let _before = out.as_str();
    let value = *value;
    if 0 <= value && value < 100 {
        return add_short(out, value as u8);
    }
    write!(out, "{value}")
}

/// Appends one digit or two as characters: reading digits back from a buffer would stall.
fn add_short(out: &mut String, number: u8) -> Result<(), AllocError>
    requires { number < 100 }
    ensures { OnOk result (string_bytes out.new ≡ string_bytes out.old ++ decimal number) }
{
    if number < 10 {
        return add_digit(out, number);
    }
    add_digit(out, number / 10)?;
    add_digit(out, number % 10)
}

#[tactic(auto, using(crate::proofs::Pushed::decimal_digit))]
fn add_digit(out: &mut String, digit: u8) -> Result<(), AllocError>
    requires { digit < 10 }
    ensures { OnOk result (string_bytes out.new ≡ string_bytes out.old ++ decimal digit) }
{
    out.push((b'0' + digit) as char)
}

fn add_char(out: &mut String, value: char, form: Form) -> Result<(), AllocError>
    ensures { OnOk result (chars (string_bytes out.new) ≡ chars (string_bytes out.old) ++ leaf_printed form (a_char value)) }
{
    let mut buffer = [0; 4];
    match form {
        Form::Display => add_text(out, value.encode_utf8(&mut buffer)),
        Form::Inner => add_text(out, value.encode_utf8(&mut buffer)),
        Form::Debug => quoted_char_into(value, out),
    }
}

fn add_string(out: &mut String, value: &ImmutableString, form: Form) -> Result<(), AllocError>
    ensures { OnOk result (chars (string_bytes out.new) ≡ chars (string_bytes out.old) ++ leaf_printed form (a_text value.now)) }
{
    match form {
        Form::Display => add_text(out, value.as_str()),
        Form::Inner => add_text(out, value.as_str()),
        Form::Debug => value.quoted_into(out),
    }
}
