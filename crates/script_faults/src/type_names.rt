//! The names of types, as scripts see them.
ghost use Rattle.std.specs.Prelude.{◌≡◌, []};
ghost use Rattle.rhai_value.specs.End.{end, end_name};
ghost use Rattle.script_faults.specs.Names.{short_name};

use rhai_value::{Dynamic, Store, TypeId};

/// Returns the name of the held type, as scripts see it: those of ranges are short.
/// Cost: that of `Dynamic::held`; no memory.
/// rhai: `type_of`.
pub fn type_name_of(value: &Dynamic, store: &Store) -> &'static str
    ensures { result.now ≡ short_name (end_name (end store.now [] value.now)) }
{
    short_name(value.type_id(store).name())
}

/// Returns the name of a type as scripts see it: those of ranges are short.
pub(crate) fn short_name(name: &'static str) -> &'static str
    ensures { result.now ≡ short_name name.now }
{
    if name == TypeId::ExclusiveRange.name() {
        "range"
    } else if name == TypeId::InclusiveRange.name() {
        "range="
    } else {
        name
    }
}
