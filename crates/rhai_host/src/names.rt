//! Names that the host has passed, and places.
ghost use Rattle.std.specs.Prelude.{◌≡◌, option_map};
ghost use Rattle.rhai_run.specs.Places.{place_of};
ghost use Rattle.rhai_host.specs.Names.{place_in};

use rhai_run::PlaceRef;
use rhai_text::ImmutableString;
use slab::Slab;

/// Returns a place: a hand position, or the newest entry with the name of this number.
#[inline(always)]
pub(crate) fn place_in(
    names: &Slab<ImmutableString>,
    is_entry: bool,
    at: usize,
) -> Option<PlaceRef<'_>>
    ensures { option_map place_of result ≡ place_in names.now is_entry at }
{
    if !is_entry {
        return Some(PlaceRef::Hand(at));
    }
    match names.get(at) {
        Some(name) => Some(PlaceRef::Entry(name)),
        None => None,
    }
}
