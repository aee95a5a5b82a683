//! Parts borrowed from a value or its store, with the state of both after the write.
ghost use Rattle.std.specs.Prelude.{◌≡◌, ◌<◌, [], length, option_map, option_and_then, is_some, IfSome, IfOk, IfErr};
ghost use Rattle.std.specs.Borrow.{sem, LendsIf, name_if_ok};
ghost use Rattle.rhai_value.specs.contracts.value.dynamic.Dynamic as dynamic_type;
ghost use Rattle.rhai_value.specs.contracts.cells.store.Store as store_type;
ghost use Rattle.rhai_value.specs.End.{end, held_part, held_cell, end_type, end_name};
ghost use Rattle.rhai_value.specs.Lent.{LendsHeld, either_of, content_in, edit_in};
ghost use Rattle.rhai_value.specs.Parts.{with_content};
ghost use Rattle.rhai_value.specs.Types.{type_name};

use crate::cells::store::Store;
use crate::parts::part::Part;
use crate::places::place::Place;
use crate::value::dynamic::Dynamic;
use crate::value::type_id::TypeId;

impl Dynamic {
    /// Borrows the held part of this type mutably; `is_own` says whether the value itself has such
    /// a part. After the write, value and store are those with this content held.
    ///
    /// A parameter that isn't a reference comes first: for a method of the value, an automatic
    /// proof would take the value as the only source of the borrow, and couldn't make the call.
    /// Errors: the name of the held type; value and store are unchanged.
    /// Cost: that of `Dynamic::held`; no memory.
    #[inline(always)]
    pub fn lent_part_mut<'s, T: Part>(
        is_own: bool,
        value: &'s mut Dynamic,
        store: &'s mut Store,
    ) -> Result<&'s mut T, &'static str>
        requires { is_own ≡ is_some (T.part_of value.old) }
        ensures* writes_back { sem 𝓛 (LendsHeld T.row value.entry store.entry (name_if_ok (λ x. x.ghost_name) result) (λ w. with_content (T.content (T.meaning w)))) }
        ensures ok { IfOk result (λ v. held_part T.part_of (end store.old [] value.old) ≡ Some (T.meaning v.now)) }
        ensures err { IfErr result (λ name. (held_part T.part_of (end store.old [] value.old) ≡ None)
            × (name.now ≡ end_name (end store.old [] value.old))) }
    {
        let found = place_of::<T>(is_own, value, store);
        let own = own_part_of::<T>(value);
        let far = content_part_of::<T>(store, found);
        either_part::<T>(own, far, found)
    }
}

/// The site and the type of the held value.
#[derive(Copy, Clone)]
pub(crate) struct HeldPlace {
    place: Place,
    kind: TypeId,
}

/// The site of the held value. If the value itself has such a part, no chain is followed, so such
/// writes stay short.
#[inline(always)]
fn place_of<T: Part>(is_own: bool, value: &mut Dynamic, store: &mut Store) -> HeldPlace
    requires { is_own ≡ is_some (T.part_of value.old) }
    ensures place { result.place ≡ held_cell (end store.old [] value.old) }
    ensures kind { result.kind ≡ end_type (end store.old [] value.old) }
    ensures value { value.new ≡ value.old }
    ensures store { store.new ≡ store.old }
{
    if is_own {
        HeldPlace {
            place: Place::of(None),
            kind: T::KIND,
        }
    } else {
        far_place_of(value, store)
    }
}

/// The site, found along the chain.
#[inline(never)]
fn far_place_of(value: &Dynamic, store: &Store) -> HeldPlace
    ensures place { result.place ≡ held_cell (end store.now [] value.now) }
    ensures kind { result.kind ≡ end_type (end store.now [] value.now) }
{
    let (site, kind) = value.held_site_and_type(store);
    HeldPlace {
        place: Place::of(site),
        kind,
    }
}

/// Borrows the value's own part mutably.
#[inline(always)]
fn own_part_of<T: Part>(value: &mut Dynamic) -> Option<&mut T>
    ensures* writes_back { sem 𝓛 (LendsIf dynamic_type.the_row T.row value.entry result (λ w. with_content (T.content (T.meaning w)) value.old) value.old) }
    ensures value { option_map (λ r. T.meaning r.now) result ≡ T.part_of value.old }
{
    T::own_mut(value)
}

/// Borrows the part of a cell's content mutably, if there is one.
#[inline(always)]
fn content_part_of<T: Part>(store: &mut Store, found: HeldPlace) -> Option<&mut T>
    requires { IfSome found.place (λ c. c < length store.old) }
    ensures* writes_back { sem 𝓛 (LendsIf store_type.the_row T.row store.entry result (λ w. edit_in found.place (with_content (T.content (T.meaning w))) store.old) store.old) }
    ensures value { option_map (λ r. T.meaning r.now) result ≡ option_and_then T.part_of (content_in found.place store.old) }
{
    match T::own_mut(store.cell_content_mut(found.place)?) {
        Some(part) => Some(part),
        None => None,
    }
}

/// The first of two references, or otherwise the second; if there is neither, the name of the held
/// type.
#[inline(always)]
fn either_part<'s, T: Part>(
    own: Option<&'s mut T>,
    far: Option<&'s mut T>,
    found: HeldPlace,
) -> Result<&'s mut T, &'static str>
    ensures ok { IfOk result (λ v. either_of own.entry far.entry ≡ Some v) }
    ensures err { IfErr result (λ name. (either_of own.entry far.entry ≡ None) × (name.now ≡ type_name found.kind)) }
{
    match own {
        Some(part) => Ok(part),
        None => match far {
            Some(part) => Ok(part),
            None => Err(found.kind.name()),
        },
    }
}
