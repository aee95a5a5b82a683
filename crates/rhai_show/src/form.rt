//! The three forms of printed text.

/// How a value is printed.
#[derive(Clone, Copy)]
pub enum Form {
    /// As `{}` does.
    Display,
    /// As `{}` does inside a shared value.
    Inner,
    /// As `{:?}` does.
    Debug,
}

impl Form {
    ghost use Rattle.std.specs.Prelude.{◌≡◌};
    ghost use Rattle.rhai_show.specs.Text.{content_form, item_form};

    /// The form of a cell's content.
    pub(crate) fn of_content(self) -> Form
        ensures { result ≡ content_form self }
    {
        match self {
            Form::Display => Form::Inner,
            Form::Inner => Form::Inner,
            Form::Debug => Form::Debug,
        }
    }

    /// The form of the values inside an array or a map.
    pub(crate) fn of_items(self) -> Form
        ensures { result ≡ item_form self }
    {
        match self {
            Form::Display | Form::Debug => Form::Debug,
            Form::Inner => Form::Inner,
        }
    }
}
