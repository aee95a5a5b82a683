//! Work at held values, and at places inside them, with access to the store.
ghost use Rattle.std.specs.Prelude.{◌≡◌, [], Ok, Err, IfOk, IfErr};
ghost use Rattle.std.specs.Bool.{OnTrue};
ghost use Rattle.rhai_value.specs.End.{end, value_after, store_after};
ghost use Rattle.rhai_value.specs.Places.{Place, way};

use crate::values::{cell_with, closed, copied, holds, is_locked, pair_of, shared};
use rhai_value::{
    Dynamic, HeldError, INT, Map, PlaceError, PlaceErrorKind, Step, Store, TypeId, laws,
};
use std::alloc::Global;

/// Overwrites the held value, and returns whether there is one.
fn overwrite(value: &mut Dynamic, store: &mut Store, other: Dynamic) -> bool
    ensures own { OnTrue result (value.new ≡ value_after (λ _. other) (end store.old [] value.old) value.old) }
    ensures store { OnTrue result (store.new ≡ store_after (λ _. other) (end store.old [] value.old) store.old) }
{
    laws::places::what_is_lent_comes_back();
    value.with_held(store, |held, _| *held = other).is_ok()
}

/// Overwrites the value held at a place.
fn put_at(
    value: &mut Dynamic,
    store: &mut Store,
    steps: &[Step<'_>],
    other: Dynamic,
) -> Result<(), PlaceError>
    ensures placed { IfOk result (λ _. (q : Place) × (way steps.now store.old value.old ≡ Ok q) × (value.new ≡ (q.back other q.store).value) × (store.new ≡ (q.back other q.store).store)) }
    ensures refused { IfErr (way steps.now store.old value.old) (λ why. (result ≡ Err why) × (value.new ≡ value.old) × (store.new ≡ store.old)) }
{
    value.with_place(store, steps, |place, _| *place = other)
}

/// Adds to the int at a place, as `a[i].f += y` does: `Ok(false)` if another type is held there.
fn add_at(
    value: &mut Dynamic,
    store: &mut Store,
    steps: &[Step<'_>],
    more: INT,
) -> Result<bool, PlaceError> {
    value.with_place(store, steps, |place, store| match place.as_int(store) {
        Ok(int) => place.set_int(store, int.wrapping_add(more)),
        Err(_) => false,
    })
}

/// Moves the value at a place into a new cell, unless the allocation fails.
fn share_at(value: &mut Dynamic, store: &mut Store, steps: &[Step<'_>]) -> bool {
    let answer = value.with_place(
        store,
        steps,
        |place, store| place.share_in_place(store).is_ok(),
    );
    matches!(answer, Ok(true))
}

/// Makes a map of one key; unit if the allocation fails.
fn map_of(alloc: Global, key: &str, value: Dynamic) -> Dynamic {
    let mut map = Map::new(alloc);
    match map.set(key, value) {
        Ok(_) => Dynamic::from_map(map),
        Err(_) => Dynamic::UNIT,
    }
}

/// Makes a captured `[1, #{f: [2, 3]}]`, whose map is captured, too.
fn sample(alloc: Global, store: &mut Store) -> Dynamic {
    let inner = pair_of(alloc, Dynamic::TWO, Dynamic::THREE);
    let map = map_of(alloc, "f", inner);
    let map = shared(map, store);
    let outer = pair_of(alloc, Dynamic::ONE, map);
    shared(outer, store)
}

/// Whether this int is held at a place.
fn holds_at(value: &mut Dynamic, store: &mut Store, steps: &[Step<'_>], wanted: INT) -> bool {
    let answer = value.with_place(store, steps, |place, store| holds(place, store, wanted));
    matches!(answer, Ok(true))
}

/// Whether `a[1].f[-1] += 40` and `a[0] += 5` leave `[6, #{f: [2, 43]}]`.
fn is_added(store: &mut Store, a: &mut Dynamic) -> bool {
    let last = [Step::Index(1), Step::Key("f"), Step::Index(-1)];
    let first = [Step::Index(1), Step::Key("f"), Step::Index(0)];
    add_at(a, store, &last, 40) == Ok(true)
        && add_at(a, store, &[Step::Index(0)], 5) == Ok(true)
        && holds_at(a, store, &last, 43)
        && holds_at(a, store, &first, 2)
        && holds_at(a, store, &[Step::Index(-2)], 6)
        && !is_locked(a, store)
}

#[test]
fn an_int_deep_in_a_captured_array_is_added_to(rt: HostRuntime) {
    let mut store = Store::new(rt.alloc());
    let mut a = sample(rt.alloc(), &mut store);
    assert!(rt; is_added(&mut store, &mut a));
}

/// Whether the path fails at this step, for this reason.
fn is_refused(
    store: &mut Store,
    a: &mut Dynamic,
    steps: &[Step<'_>],
    step: usize,
    kind: PlaceErrorKind,
) -> bool {
    add_at(a, store, steps, 1) == Err(PlaceError { step, kind })
}

/// Whether the error names each step that fails.
fn is_told(store: &mut Store, a: &mut Dynamic) -> bool {
    let f = Step::Key("f");
    is_refused(store, a, &[Step::Index(2)], 0, PlaceErrorKind::NoItem(2))
        && is_refused(store, a, &[Step::Index(-3)], 0, PlaceErrorKind::NoItem(2))
        && is_refused(
            store,
            a,
            &[Step::Index(1), Step::Key("g")],
            1,
            PlaceErrorKind::NoKey,
        )
        && is_refused(store, a, &[f], 0, PlaceErrorKind::OtherType(TypeId::Array))
        && is_refused(
            store,
            a,
            &[Step::Index(1), Step::Index(0)],
            1,
            PlaceErrorKind::OtherType(TypeId::Map),
        )
        && is_refused(
            store,
            a,
            &[Step::Index(0), f],
            1,
            PlaceErrorKind::OtherType(TypeId::Int),
        )
        && is_refused(store, a, &[f; 65], 0, PlaceErrorKind::TooFar)
        && holds_at(a, store, &[Step::Index(0)], 1)
        && !is_locked(a, store)
}

#[test]
fn a_step_that_cannot_be_gone_is_told(rt: HostRuntime) {
    let mut store = Store::new(rt.alloc());
    let mut a = sample(rt.alloc(), &mut store);
    assert!(rt; is_told(&mut store, &mut a));
}

/// Whether reading the cell finds it marked meanwhile, also through another holder, and not
/// afterwards.
fn is_closed_meanwhile(store: &mut Store, a: &mut Dynamic, again: &Dynamic) -> bool {
    let answer = a.with_held(store, |_, m| is_locked(again, m) && again.held(m).is_none());
    answer == Ok(true) && !is_locked(again, store)
}

/// Whether a value that contains itself can't be entered twice.
fn is_barred(store: &mut Store, a: &mut Dynamic) -> bool {
    is_refused(
        store,
        a,
        &[Step::Index(0), Step::Index(0)],
        1,
        PlaceErrorKind::Barred,
    )
}

#[test]
fn a_cell_is_marked_while_work_is_done(rt: HostRuntime) {
    let mut store = Store::new(rt.alloc());
    let mut a = shared(Dynamic::UNIT, &mut store);
    let again = copied(rt.alloc(), &a);
    assert!(rt; is_closed_meanwhile(&mut store, &mut a, &again));
    let itself = copied(rt.alloc(), &a);
    assert!(rt;
        overwrite(
            &mut a,
            &mut store,
            pair_of(rt.alloc(), itself, Dynamic::ONE)
        )
    );
    assert!(rt; is_barred(&mut store, &mut a));
    let mut ring = closed(rt.alloc(), &mut store);
    assert!(rt; !overwrite(&mut ring, &mut store, Dynamic::ONE));
}

/// Whether a cell is made at a place, and its content is held there.
fn is_shared_at(store: &mut Store, a: &mut Dynamic) -> bool {
    share_at(a, store, &[Step::Index(1), Step::Key("f")])
        && add_at(
            a,
            store,
            &[Step::Index(1), Step::Key("f"), Step::Index(0)],
            5,
        ) == Ok(true)
        && holds_at(
            a,
            store,
            &[Step::Index(1), Step::Key("f"), Step::Index(0)],
            7,
        )
}

#[test]
fn cells_are_made_while_work_is_done(rt: HostRuntime) {
    let mut store = Store::new(rt.alloc());
    let outer = sample(rt.alloc(), &mut store);
    let mut a = cell_with(outer, &mut store);
    assert!(rt; is_shared_at(&mut store, &mut a));
}

/// Whether replacing the borrowed store by another is detected by the missing mark.
fn is_lost(store: &mut Store, a: &mut Dynamic, alloc: Global) -> bool {
    let held = a.with_held(store, |_, m| *m = Store::new(alloc));
    held == Err(HeldError::Lost)
}

#[test]
fn a_mark_that_is_gone_is_told(rt: HostRuntime) {
    let mut store = Store::new(rt.alloc());
    let mut a = sample(rt.alloc(), &mut store);
    assert!(rt; is_lost(&mut store, &mut a, rt.alloc()));
}
