//! What is unchanged if the allocation of a text fails: each text is made or appended as a whole,
//! or not at all.
use super::tell;
use rhai_show::debug_text;
use rhai_text::{ImmutableString, quoted_char_into};
use rhai_value::{Dynamic, Store};
use std::alloc::{AllocError, Global};
use std::io::Eprint;
use std::test::Fail;

const LONG: &str = "0123456789\n0123456789\u{1}0123456789\"";

const QUOTED: &str = r#"ab"0123456789\n0123456789\u{1}0123456789\"""#;

/// Whether a text is appended in its quoted form; if an allocation fails, nothing is.
fn quotes(rt: &impl Eprint, alloc: Global) -> Result<bool, AllocError> {
    let text = ImmutableString::from_str(alloc, LONG)?;
    let mut out = String::from_str(alloc, "ab")?;
    if text.quoted_into(&mut out).is_err() {
        tell(rt, "ImmutableString::quoted_into");
        if out.as_str() != "ab" {
            return Ok(false);
        }
        text.quoted_into(&mut out)?;
    }
    Ok(out.as_str() == QUOTED)
}

/// As `quotes`, for a character.
fn quotes_char(rt: &impl Eprint, alloc: Global) -> Result<bool, AllocError> {
    let mut out = String::from_str(alloc, "ab")?;
    if quoted_char_into('\u{1f}', &mut out).is_err() {
        tell(rt, "quoted_char_into");
        if out.as_str() != "ab" {
            return Ok(false);
        }
        quoted_char_into('\u{1f}', &mut out)?;
    }
    Ok(out.as_str() == r"ab'\u{1f}'")
}

/// Whether a value is formatted for debugging, also after an allocation for its text failed.
fn debugs(rt: &impl Eprint, alloc: Global) -> Result<bool, AllocError> {
    let store = Store::new(alloc);
    let value = Dynamic::from_text(alloc, "é\n")?;
    let text = match debug_text(alloc, &value, &store) {
        Ok(text) => text,
        Err(_) => {
            tell(rt, "debug_text");
            debug_text(alloc, &value, &store)?
        }
    };
    Ok(text.as_str() == r#""é\n""#)
}

/// Whether a text grows; if an allocation fails, it is unchanged.
fn grows(rt: &impl Eprint, alloc: Global, front: &str) -> Result<bool, AllocError> {
    let mut text = ImmutableString::from_str(alloc, front)?;
    if text.push_str(alloc, LONG).is_err() {
        tell(rt, "ImmutableString::push_str");
        if text.as_str() != front {
            return Ok(false);
        }
        text.push_str(alloc, LONG)?;
    }
    Ok(text.as_str().starts_with(front) && text.as_str().ends_with(LONG))
}

#[test]
fn texts_are_whole_or_not_at_all(rt: HostRuntime) -> Result<(), Fail> {
    assert!(rt; quotes(&rt, rt.alloc())?);
    assert!(rt; quotes_char(&rt, rt.alloc())?);
    assert!(rt; debugs(&rt, rt.alloc())?);
    assert!(rt; grows(&rt, rt.alloc(), "ab")?);
    assert!(rt; grows(&rt, rt.alloc(), LONG)?);
    Ok(())
}
