//! A text to print.
ghost use Rattle.std.specs.Prelude.{◌≡◌, [], IfOk, Some, string_bytes};
ghost use Rattle.std.specs.Str.{chars, encode_utf8_all};
ghost use Rattle.rhai_show.specs.declared.form.Form.TheVariants.{Display, Debug};
ghost use Rattle.rhai_show.specs.Text.{printed};

use crate::text::{debug_text, display_text};
use rhai_value::{Dynamic, Store};
use std::alloc::{AllocError, Global};
use std::fmt;
use std::marker::Model;

/// A text made for printing, or an answer. Contracts see the list of its characters.
#[derive(Drop)]
pub struct Shown {
    text: String,
}

impl Model for Shown {
    ghost use Rattle.std.specs.Prelude.{List, ℕ, string_bytes};
    ghost use Rattle.std.specs.Str.{chars};

    ghost Value = { List ℕ };

    ghost use Rattle.std.specs.Coded.{coded_list, coded_ℕ};

    ghost coded = { coded_list coded_ℕ };

    ghost view = { λ x. chars (string_bytes x.text) };
}

impl Shown {
    /// Makes the text that `{}` prints for a value.
    /// Errors: an allocation fails.
    /// Cost: that of `display_text`.
    /// rhai: `Display` of `Dynamic`.
    pub fn display(alloc: Global, value: &Dynamic, store: &Store) -> Result<Shown, AllocError>
        ensures { IfOk result (λ x. x ≡ printed store.now [] value.now Display) }
    {
        let text = display_text(alloc, value, store)?;
        Ok(Shown { text })
    }

    /// Makes the text that `{:?}` prints for a value.
    /// Errors: an allocation fails.
    /// Cost: that of `debug_text`.
    /// rhai: `Debug` of `Dynamic`.
    pub fn debug(alloc: Global, value: &Dynamic, store: &Store) -> Result<Shown, AllocError>
        ensures { IfOk result (λ x. x ≡ printed store.now [] value.now Debug) }
    {
        let text = debug_text(alloc, value, store)?;
        Ok(Shown { text })
    }

    /// Wraps a text.
    pub fn from_text(text: String) -> Shown
        ensures { result ≡ chars (string_bytes text) }
    {
        Shown { text }
    }

    /// Borrows the text.
    pub fn as_str(&self) -> &str
        ensures characters { chars result.now ≡ self.now }
        ensures bytes { result.now ≡ encode_utf8_all self.now }
    {
        &self.text
    }

    /// Moves the text out.
    pub fn into_text(self) -> String
        ensures { chars (string_bytes result) ≡ self }
    {
        self.text
    }
}

impl fmt::Display for Shown {
    ghost output = { λ x. Some (encode_utf8_all x) };

    fn fmt<W: fmt::Write>(&self, f: &mut fmt::Formatter<W>) -> fmt::Result {
        f.write_str(self.text.as_str())
    }
}
