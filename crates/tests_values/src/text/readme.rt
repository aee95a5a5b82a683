//! The callers in the README.
ghost use Rattle.std.specs.Prelude.{◌≡◌, ◌++◌, ◌↔◌, IfOk, OnOk, IsTrue, string_bytes};
ghost use Rattle.std.specs.Str.{chars};
ghost use Rattle.rhai_text.specs.Quote.{quoted_text};
ghost use Rattle.rhai_text.specs.Text.{minus};

use rhai_text::{EvalAltResult, ImmutableString};
use std::alloc::Global;
use std::test::Fail;

/// Whether `name` doesn't contain `part`.
pub fn lacks(
    alloc: Global,
    name: &ImmutableString,
    part: &ImmutableString,
) -> Result<bool, EvalAltResult>
    ensures { IfOk result (λ same. IsTrue same ↔ (minus name.now part.now ≡ name.now)) }
{
    let left = name.minus(alloc, part.as_str())?;
    Ok(&left == name)
}

/// Appends two texts in quotation marks, one after the other.
pub fn append_both(
    first: &ImmutableString,
    second: &ImmutableString,
    out: &mut String,
) -> Result<(), EvalAltResult>
    ensures { OnOk result (chars (string_bytes out.new) ≡ (chars (string_bytes out.old) ++ quoted_text first.now) ++ quoted_text second.now) }
{
    first.quoted_into(out)?;
    second.quoted_into(out)?;
    Ok(())
}

/// Whether "ab" lacks a text that isn't in it, and both texts are appended in quotes.
fn is_shown(alloc: Global, name: &ImmutableString, part: &ImmutableString) -> bool {
    let mut out = String::new(alloc);
    matches!(lacks(alloc, name, part), Ok(false))
        && matches!(lacks(alloc, part, name), Ok(true))
        && append_both(name, part, &mut out).is_ok()
        && out.as_str() == "\"ab\"\"b\""
}

#[test]
fn the_callers_of_texts(rt: HostRuntime) -> Result<(), Fail> {
    let alloc = rt.alloc();
    let name = ImmutableString::from_str(alloc, "ab")?;
    let part = ImmutableString::from_str(alloc, "b")?;
    assert!(rt; is_shown(alloc, &name, &part));
    Ok(())
}
