//! Lists of names as text, one per line.
ghost use Rattle.std.specs.Prelude.{◌≡◌, ◌++◌, IfOk, OnOk, string_bytes};
ghost use Rattle.std.specs.List.{flat_map};
ghost use Rattle.std.specs.Str.{chars};
ghost use Rattle.rhai_scope.specs.Items.{raw_left};
ghost use Rattle.rhai_scope.specs.NamesText.{name_line, named_line, names_text, aliases_text};

use crate::alias::Alias;
use crate::iter::IterRaw;
use crate::scope::Scope;
use crate::shown::{add_mark, add_text};
use rhai_show::Shown;
use rhai_value::Store;
use std::alloc::{AllocError, Global};

/// Appends the line of a name.
fn add_name_line(out: &mut String, is_constant: bool, name: &str) -> Result<(), AllocError>
    ensures { OnOk result (chars (string_bytes out.new) ≡ chars (string_bytes out.old) ++ name_line is_constant (chars name.now)) }
{
    add_mark(out, is_constant)?;
    add_text(out, name)?;
    add_text(out, "\n")
}

#[tactic(auto, using(crate::proofs::Names::no_characters))]
fn lines_of(alloc: Global, items: IterRaw<'_>) -> Result<String, AllocError>
    ensures { IfOk result (λ t. chars (string_bytes t) ≡ flat_map named_line (raw_left items.entry)) }
{
    let mut out = String::new(alloc);
    for (name, is_constant, _) in items {
        add_name_line(&mut out, is_constant, name)?;
    }
    Ok(out)
}

/// Writes the aliases that `Scope::aliases` returns, one per line, each followed by a line feed.
/// Errors: an allocation fails.
/// Cost: the length of the text; memory for it.
#[tactic(auto, using(crate::proofs::Names::no_characters))]
pub fn aliases_shown(alloc: Global, aliases: &[Alias]) -> Result<Shown, AllocError>
    ensures { IfOk result (λ x. x ≡ aliases_text aliases.now) }
{
    let mut out = String::new(alloc);
    for alias in aliases {
        add_name_line(&mut out, false, alias.as_str())?;
    }
    Ok(Shown::from_text(out))
}

impl Scope {
    /// Writes the names of the entries, one per line, from the last to the first: `x`, and
    /// `const y` for a constant by `Dynamic::is_read_only`. It is the result of `iter_raw` as text.
    /// Errors: an allocation fails.
    /// Cost: the length of the text; memory for it.
    pub fn names_shown(&self, store: &Store) -> Result<Shown, AllocError>
        ensures { IfOk result (λ x. x ≡ names_text store.now self.now) }
    {
        let text = lines_of(self.alloc, self.iter_raw(store))?;
        Ok(Shown::from_text(text))
    }
}
