//! The callers in the README of `rhai_scope`.
ghost use Rattle.std.specs.Prelude.{◌≡◌, false, None, option_map, IfSome, IfOk, IfErr, OnOk, pos};
ghost use Rattle.std.specs.List.{zip};
ghost use Rattle.std.specs.Str.{chars};
ghost use Rattle.rhai_value.specs.Tree.{cell_of, fresh, int, mode_of};
ghost use Rattle.rhai_scope.specs.Entry.{pushed};
ghost use Rattle.rhai_scope.specs.Extended.{extended};
ghost use Rattle.rhai_scope.specs.Lookup.{aliases_named, value_named};
ghost use Rattle.rhai_scope.specs.NamesText.{aliases_text};

use rhai_scope::{Scope, aliases_shown};
use rhai_show::Shown;
use rhai_text::ImmutableString;
use rhai_value::Dynamic;
use rhai_variant::Variant;
use std::alloc::{AllocError, Global};

/// Declares a variable of a script, with 0 as its first value.
pub fn declare(scope: &mut Scope, name: &str) -> Result<(), AllocError>
    ensures { OnOk result (scope.new ≡ pushed (mode_of (fresh (int (pos 0)))) (chars name.now) (fresh (int (pos 0))) scope.old) }
{
    scope.push_dynamic(name, Dynamic::from_int(0))
}

/// Declares variables, if there is a value for each name. Returns names and values if there isn't,
/// or if an allocation fails.
pub fn declare_all(
    scope: &mut Scope,
    names: Vec<ImmutableString>,
    values: Vec<Dynamic>,
) -> Result<(), (Vec<ImmutableString>, Vec<Dynamic>)>
    ensures ok { OnOk result (scope.new ≡ extended scope.old (zip names.items values.items)) }
    ensures err { IfErr result (λ back. (back ≡ (names, values)) × (scope.new ≡ scope.old)) }
{
    if names.len() != values.len() {
        return Err((names, values));
    }
    scope.extend_moved(names, values)
}

/// Returns the aliases of a name, one a line, if there is an entry with the name.
pub fn aliases_of(alloc: Global, scope: &Scope, name: &str) -> Result<Option<Shown>, AllocError>
    ensures { IfOk result (λ told. told ≡ option_map aliases_text (aliases_named (chars name.now) scope.now)) }
{
    match scope.aliases(name) {
        Some(aliases) => Ok(Some(aliases_shown(alloc, aliases)?)),
        None => Ok(None),
    }
}

/// Borrows the own value of a name as a type, if that value isn't shared.
pub fn own_value<'s, T: Variant>(scope: &'s Scope, name: &str) -> Option<&'s T> {
    match scope.get(name) {
        Some(value) if !value.is_shared() => scope.get_value_ref(name),
        Some(_) => None,
        None => None,
    }
}

/// Writes an int if the own value of a name is one, and returns whether it did.
pub fn write_int(scope: &mut Scope, name: &str, value: i64) -> bool {
    if is_shared(scope, name) {
        return false;
    }
    match scope.get_value_mut::<i64>(name) {
        Some(place) => {
            *place = value;
            true
        }
        None => false,
    }
}

fn is_shared(scope: &Scope, name: &str) -> bool
    ensures { result ≡ false → IfSome (value_named (chars name.now) scope.now) (λ t. cell_of t ≡ None) }
{
    match scope.get(name) {
        Some(value) => value.is_shared(),
        None => false,
    }
}

/// Sets a value unless the name is a constant.
pub fn set(scope: &mut Scope, name: &str, value: i64) -> Result<(), AllocError> {
    match scope.is_constant(name) {
        Some(true) => Ok(()),
        Some(false) => scope.set_value(name, value),
        None => scope.set_value(name, value),
    }
}
