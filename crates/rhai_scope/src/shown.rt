//! The printed text of a scope.
ghost use Rattle.std.specs.Prelude.{◌≡◌, ◌++◌, IfOk, OnOk, string_bytes};
ghost use Rattle.std.specs.Fmt.{decimal};
ghost use Rattle.std.specs.Str.{chars};
ghost use Rattle.rhai_scope.specs.ScopeText.{constant_mark, line, scope_text};

use crate::records::Record;
use crate::rest::Rest;
use crate::scope::Scope;
use rhai_show::{Shown, debug_text};
use rhai_value::Store;
use std::alloc::{AllocError, Global};

/// Appends a text.
pub(crate) fn add_text(out: &mut String, text: &str) -> Result<(), AllocError>
    ensures { OnOk result (chars (string_bytes out.new) ≡ chars (string_bytes out.old) ++ chars text.now) }
{
    let _before = out.as_str();
    out.push_str(text)
}

/// Appends the decimal digits of a number.
fn add_number(out: &mut String, number: usize) -> Result<(), AllocError>
    ensures { OnOk result (chars (string_bytes out.new) ≡ chars (string_bytes out.old) ++ decimal number) }
{
    let _before = out.as_str();
    write!(out, "{number}")
}

pub(crate) fn add_mark(out: &mut String, is_constant: bool) -> Result<(), AllocError>
    ensures { OnOk result (chars (string_bytes out.new) ≡ chars (string_bytes out.old) ++ constant_mark is_constant) }
{
    if is_constant {
        add_text(out, "const ")
    } else {
        Ok(())
    }
}

/// Appends the line of an entry.
fn add_line(
    out: &mut String,
    number: usize,
    is_constant: bool,
    name: &str,
    text: &str,
) -> Result<(), AllocError>
    ensures { OnOk result (chars (string_bytes out.new) ≡ chars (string_bytes out.old) ++ line number is_constant (chars name.now) (chars text.now)) }
{
    add_text(out, "[")?;
    add_number(out, number)?;
    add_text(out, "] ")?;
    add_mark(out, is_constant)?;
    add_text(out, name)?;
    add_text(out, " = ")?;
    add_text(out, text)?;
    add_text(out, "\n")
}

fn text_of(alloc: Global, entries: &[Record], store: &Store) -> Result<String, AllocError>
    ensures { IfOk result (λ t. chars (string_bytes t) ≡ scope_text store.now entries.now) }
{
    let mut out = String::new(alloc);
    let mut rest = Rest::of(entries);
    let len = rest.len();
    while let Some((name, value, _)) = rest.next() {
        let is_constant = value.is_read_only(store);
        let text = debug_text(alloc, value, store)?;
        add_line(
            &mut out,
            len - rest.len(),
            is_constant,
            name.as_str(),
            &text,
        )?;
    }
    Ok(out)
}

impl Scope {
    /// Writes the entries, one per line, from the first to the last: `[1] x = 42`, and
    /// `[2] const y = 1` for a constant by `Dynamic::is_read_only`; values are printed as
    /// `debug_text` does.
    /// Errors: an allocation fails.
    /// Cost: that of `debug_text` for each.
    /// rhai: `Display` of `Scope`.
    pub fn shown(&self, store: &Store) -> Result<Shown, AllocError>
        ensures { IfOk result (λ x. x ≡ scope_text store.now self.now) }
    {
        let text = text_of(self.alloc, &self.records, store)?;
        Ok(Shown::from_text(text))
    }
}
