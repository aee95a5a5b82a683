//! What a new entry has besides its value.
ghost use Rattle.std.specs.Prelude.{◌≡◌, ℕ, List};
ghost use Rattle.std.specs.Str.{chars};
ghost use Rattle.rhai_value.specs.declared.value.access_mode.AccessMode.{AccessMode};
ghost use Rattle.rhai_value.specs.declared.value.access_mode.AccessMode.TheVariants.{ReadWrite};
ghost use Rattle.rhai_scope.specs.Extended.{flagged_mode};

use rhai_text::ImmutableString;
use rhai_value::AccessMode;

/// Something with the name of an entry.
pub(crate) trait Named: Sized + Drop {
    ghost name_of: { Self → List ℕ };

    fn name_text(&self) -> &str
        ensures { chars result.now ≡ name_of self.now };
}

/// A name, and the mode with which its value is painted.
pub(crate) trait Heading: Named {
    ghost mode_of: { Self → AccessMode };

    fn split(self) -> (ImmutableString, AccessMode)
        ensures { result ≡ (Self.name_of self, mode_of self) };
}

impl Named for ImmutableString {
    ghost name_of = { λ name. name };

    fn name_text(&self) -> &str {
        self.as_str()
    }
}

impl Heading for ImmutableString {
    ghost mode_of = { λ name. ReadWrite };

    fn split(self) -> (ImmutableString, AccessMode) {
        (self, AccessMode::ReadWrite)
    }
}

impl Named for (ImmutableString, bool) {
    ghost name_of = { λ p. p.0 };

    fn name_text(&self) -> &str {
        self.0.as_str()
    }
}

/// `true` marks the name of a constant.
impl Heading for (ImmutableString, bool) {
    ghost mode_of = { λ p. flagged_mode p.1 };

    fn split(self) -> (ImmutableString, AccessMode) {
        let (name, is_constant) = self;
        (name, mode_of_flag(is_constant))
    }
}

pub(crate) fn mode_of_flag(is_constant: bool) -> AccessMode
    ensures { result ≡ flagged_mode is_constant }
{
    if is_constant {
        AccessMode::ReadOnly
    } else {
        AccessMode::ReadWrite
    }
}
