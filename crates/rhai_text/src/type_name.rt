//! The name of a type of values.
ghost use Rattle.std.specs.Prelude.{◌≡◌};

use std::marker::Model;

/// The name of a type of values, as errors and refusals carry it. Contracts see it as the list of
/// its bytes.
#[derive(Clone, Debug, Drop)]
pub struct TypeName {
    name: &'static str,
}

impl Model for TypeName {
    ghost use Rattle.std.specs.Prelude.{List, ℕ};

    ghost Value = { List ℕ };

    ghost view = { λ n. n.name.now };
}

impl TypeName {
    /// Makes the name of a type from its text.
    /// Cost: constant; no memory.
    pub fn new(name: &'static str) -> TypeName
        ensures { result ≡ name.now }
    {
        TypeName { name }
    }

    /// Borrows the text.
    pub fn as_str(&self) -> &'static str
        ensures { result.now ≡ self.now }
    {
        self.name
    }
}
