//! A walker, which looks up a name once, and then reads, writes and names its entry by the
//! position.
ghost use Rattle.std.specs.Prelude.{◌≡◌, ◌<◌, ◌++◌, ◌∷◌, [], length, option_map, slice_get, Some, IfSome, MatchOption};
ghost use Rattle.std.specs.Str.{chars};
ghost use Rattle.rhai_scope.specs.Entry.{with_value};
ghost use Rattle.rhai_scope.specs.Items.{moved_entry};
ghost use Rattle.rhai_scope.specs.Lookup.{changed_at, last_position};

use rhai_scope::{AliasList, Scope};
use rhai_text::ImmutableString;
use rhai_value::Dynamic;
use std::mem;

/// Returns the position of a variable, if there is one with the name.
pub fn resolve(scope: &Scope, name: &str) -> Option<usize>
    ensures position { result ≡ last_position (chars name.now) scope.now }
    ensures within { IfSome result (λ i. i < length scope.now) }
{
    scope.search(name)
}

/// Replaces the value of a variable, and returns the previous one.
pub fn exchange(scope: &mut Scope, variable: usize, value: Dynamic) -> Dynamic
    requires { variable < length scope.old }
    ensures had { option_map (λ e. e.value) (slice_get scope.old variable) ≡ Some result }
    ensures has { scope.new ≡ changed_at (with_value value) scope.old variable }
{
    mem::replace(scope.at_mut(variable), value)
}

/// Returns the name of a variable.
pub fn name_of(scope: &Scope, variable: usize) -> &str
    requires { variable < length scope.now }
    ensures { option_map (λ e. e.name) (slice_get scope.now variable) ≡ Some (chars result.now) }
{
    scope.name_at(variable).as_str()
}

/// Takes the newest variable out, if there is one.
pub fn leave(scope: &mut Scope) -> Option<(ImmutableString, Dynamic, AliasList)>
    ensures { MatchOption result ((scope.old ≡ []) × (scope.new ≡ [])) (λ x. scope.old ≡ scope.new ++ moved_entry x ∷ []) }
{
    if scope.is_empty() {
        None
    } else {
        Some(scope.pop_last())
    }
}
