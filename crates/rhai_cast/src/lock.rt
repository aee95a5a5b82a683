//! Held values, borrowed mutably from a store.
ghost use Rattle.std.specs.Prelude.{◌≡◌, option_map, option_and_then};
ghost use Rattle.std.specs.Borrow.{sem, LendsIf};
ghost use Rattle.std.specs.Option.{ghost_name_of};
ghost use Rattle.rhai_value.specs.Lent.{either_of, content_in, edit_in, IsOpen};
ghost use Rattle.rhai_value.specs.Writes.{in_store_row};
ghost use Rattle.rhai_value.specs.contracts.value.dynamic.Dynamic as dynamic_type;
ghost use Rattle.rhai_value.specs.contracts.cells.store.Store as store_type;
ghost use Rattle.rhai_value.specs.declared.value.type_id.TypeId.TheVariants as type_id;
ghost use Rattle.rhai_value.specs.Types.{is_type};
ghost use Rattle.rhai_variant.specs.Reads.{viewed, written_as};
ghost use Rattle.rhai_cast.specs.Casts.{locked, lock_cell, lock_written, own_viewed, LendsLock};

use rhai_value::{Dynamic, InStore, Place, Store, TypeId};
use rhai_variant::Variant;

/// Borrows the held value as this type mutably; for `Dynamic` the first content, as
/// `InStore::whole_mut` returns it.
///
/// `DynamicCast::write_lock` for the pair of a value and its store; its clause gives both after the
/// write: the written content is that of the held value, with tag and mode kept, or for `Dynamic`
/// the whole first content; everything else is unchanged.
/// Cost: that of `Dynamic::held`; no memory.
/// rhai: `Dynamic::write_lock`.
#[tactic(auto, using(rhai_value::proofs::ForCallers::kept_written))]
pub fn write_lock<'s, T: Variant>(place: &'s mut InStore) -> Option<&'s mut T>
    ensures* writes_back { sem 𝓛 (LendsIf in_store_row T.row place.entry result (λ w. lock_written T.KIND place.old (T.tree w)) place.old) }
    ensures value { option_map (λ x. T.tree x.now) result ≡ locked T.KIND place.old.store.now place.old.value.now }
{
    if T::KIND == TypeId::Dynamic {
        T::view_mut(place.whole_mut()?)
    } else {
        // two separate calls: if the held value isn't of the type, everything is unchanged
        match T::view_mut(place.held_mut()?) {
            Some(x) => Some(x),
            None => None,
        }
    }
}

/// Borrows what `write_lock` does, from a value and its store passed separately; `is_first` selects
/// the first content, as for `Dynamic`. `DynamicCast::write_lock` is one call of this.
///
/// After the write, value and store are as `write_lock` of the pair leaves them; if the result is
/// `None`, both are unchanged. A parameter that isn't a reference comes first: for a method of the
/// value, an automatic proof would take the value as the only source of the borrow, and couldn't
/// make the call.
/// Cost: that of `Dynamic::held`; no memory.
pub fn lent_lock<'s, T: Variant>(
    is_first: bool,
    value: &'s mut Dynamic,
    store: &'s mut Store,
) -> Option<&'s mut T>
    requires { is_first ≡ is_type T.KIND type_id.Dynamic }
    ensures* writes_back { sem 𝓛 (LendsLock T.row T.KIND T.tree value.entry store.entry (ghost_name_of result)) }
    ensures value { option_map (λ x. T.tree x.now) result ≡ locked T.KIND store.old value.old }
{
    let place = lock_place::<T>(is_first, value, store);
    let own = own_view::<T>(value);
    let far = view_at::<T>(store, place);
    either::<T>(own, far)
}

/// The place to borrow from: that of the first content or of the held value.
fn lock_place<T: Variant>(is_first: bool, value: &mut Dynamic, store: &mut Store) -> Place
    requires { is_first ≡ is_type T.KIND type_id.Dynamic }
    ensures place { result ≡ lock_cell T.KIND store.old value.old }
    ensures open { IsOpen store.old result }
    ensures value { value.new ≡ value.old }
    ensures store { store.new ≡ store.old }
{
    if is_first {
        value.first_place(store)
    } else {
        value.held_place(store)
    }
}

/// Borrows the value itself as this type mutably, if it isn't a holder.
#[inline(always)]
fn own_view<T: Variant>(value: &mut Dynamic) -> Option<&mut T>
    ensures* writes_back { sem 𝓛 (LendsIf dynamic_type.the_row T.row value.entry result (λ w. written_as T.KIND (T.tree w) value.old) value.old) }
    ensures value { option_map (λ x. T.tree x.now) result ≡ own_viewed T.KIND value.old }
{
    if value.is_shared() {
        return None;
    }
    T::view_mut(value)
}

/// Borrows the content of a cell as this type mutably, if there is one.
#[inline(always)]
fn view_at<T: Variant>(store: &mut Store, place: Place) -> Option<&mut T>
    requires { IsOpen store.old place }
    ensures* writes_back { sem 𝓛 (LendsIf store_type.the_row T.row store.entry result (λ w. edit_in place (written_as T.KIND (T.tree w)) store.old) store.old) }
    ensures value { option_map (λ x. T.tree x.now) result ≡ option_and_then (viewed T.KIND) (content_in place store.old) }
{
    match T::view_mut(store.content_at_mut(place)?) {
        Some(x) => Some(x),
        None => None,
    }
}

/// The first of two references, or otherwise the second.
#[inline(always)]
fn either<'s, T: Variant>(own: Option<&'s mut T>, far: Option<&'s mut T>) -> Option<&'s mut T>
    ensures { result ≡ either_of own.entry far.entry }
{
    match own {
        Some(x) => Some(x),
        None => far,
    }
}
