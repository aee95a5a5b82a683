//! Work at a place inside a held value with access to the store.
ghost use Rattle.std.specs.Prelude.{◌≡◌, ◌+◌, ◌≤◌, ◌<◌, ◌∷◌, ℤ, Err, Ok, length};
ghost use Rattle.rhai_value.specs.declared.value.access_mode.AccessMode.{AccessMode};
ghost use Rattle.rhai_value.specs.declared.places.step.PlaceError.{PlaceError as Nowhere};
ghost use Rattle.rhai_value.specs.declared.places.step.Step.TheVariants.{Index, Key};
ghost use Rattle.std.specs.BTreeMap.{is_at};
ghost use Rattle.std.specs.Borrow.{LendsIf, sem};
ghost use Rattle.std.specs.Map.{set_value};
ghost use Rattle.std.specs.Option.{option_copied_mut};
ghost use Rattle.std.specs.Str.{chars};
ghost use Rattle.rhai_value.specs.contracts.value.dynamic.Dynamic as dynamic_type;
ghost use Rattle.rhai_value.specs.contracts.map.Map as map_type;
ghost use Rattle.rhai_value.specs.Items.{field_at};
ghost use Rattle.rhai_value.specs.Places.{Place, WorksAlong, WorksIn, put_answer, put_store, put_value, way, way_in, way_held};
ghost use Rattle.rhai_value.specs.Rows.{bytes_cmp, trees_of, fields_of};
ghost use Rattle.rhai_value.specs.Steps.{with_field};
ghost use Rattle.rhai_value.specs.Tree.{Tree, node, branch, array, fields};

use crate::cells::store::Store;
use crate::map::Map;
use crate::parts::part::Part;
use crate::places::step::{PlaceError, PlaceErrorKind, Step, item_place};
use crate::value::dynamic::Dynamic;
use crate::value::union::{Array, INT};

/// The most steps to a place.
const MOST_STEPS: usize = 64;

impl Dynamic {
    /// Calls `f` on the value at a place inside the held value, and the store.
    ///
    /// The steps lead down from the held value: by an index to an item of an array, by a key to a
    /// value of a map. The values on the way may be held in cells, and so may the one at the place;
    /// `f` gets the held one. Each of these cells is marked meanwhile, as in `with_held`, and the
    /// changed value is put back, whatever the result of `f`; all other items, keys and cells are
    /// as `f` left them. `f` may make cells, and read and write others; it must not collect them.
    /// Errors: the step that failed, and why, with nothing changed and `f` not called; `TooFar` for
    /// more than 64 steps; `Lost` if `f` left a store in which one of the cells isn't marked, whose
    /// content is then dropped.
    /// Cost: that of `held` for each step, of a look-up for each key, and of `f`; no memory. Each
    /// step uses some stack.
    /// rhai: an assignment to a chain of indices and properties.
    pub fn with_place<R: Drop, F: FnOnce(&mut Dynamic, &mut Store) -> R + Drop>(
        &mut self,
        store: &mut Store,
        steps: &[Step<'_>],
        f: F,
    ) -> Result<R, PlaceError>
        requires { F.IsAlwaysCallable f }
        ensures works { WorksAlong F.FnOnce f (way steps.now store.old self.old) self.old store.old result self.new store.new }
        ensures there { (q : Place) → way steps.now store.old self.old ≡ Ok q → WorksIn F.FnOnce f q result self.new store.new }
        ensures nowhere { (why : Nowhere) → way steps.now store.old self.old ≡ Err why → (result ≡ Err why) × (self.new ≡ self.old) × (store.new ≡ store.old) }
    {
        if steps.len() > MOST_STEPS {
            return Err(PlaceError {
                step: 0,
                kind: PlaceErrorKind::TooFar,
            });
        }
        work_below(self, store, steps, 0, f)
    }

    /// Replaces the value at a place inside the held value: the held one there, as `with_place`
    /// finds it.
    /// Errors: those of `with_place` except `Lost`, with nothing changed; the new value is dropped.
    /// Cost: that of `with_place`, and the drop of the old value; no memory.
    /// rhai: an assignment to a chain of indices and properties.
    #[tactic(auto, using(crate::proofs::Ways::no_mark_is_lost))]
    pub fn put_at(
        &mut self,
        store: &mut Store,
        steps: &[Step<'_>],
        other: Dynamic,
    ) -> Result<(), PlaceError>
        ensures answer { result ≡ put_answer (way steps.now store.old self.old) }
        ensures value { self.new ≡ put_value other (way steps.now store.old self.old) self.old }
        ensures store { store.new ≡ put_store other (way steps.now store.old self.old) store.old }
    {
        self.with_place(store, steps, |place, _| *place = other)
    }
}

/// Works at the place that the steps lead to from a value, after `gone` steps.
#[cycle(work)]
fn work_below<R: Drop, F: FnOnce(&mut Dynamic, &mut Store) -> R + Drop>(
    value: &mut Dynamic,
    store: &mut Store,
    steps: &[Step<'_>],
    gone: usize,
    f: F,
) -> Result<R, PlaceError>
    requires callable { F.IsAlwaysCallable f }
    requires few { gone + length steps.now ≤ 64 }
    ensures { WorksAlong F.FnOnce f (way_held (way_in steps.now gone) gone store.old value.old) value.old store.old result value.new store.new }
{
    if !value.is_shared() {
        return work_in(value, store, steps, gone, f);
    }
    let Some((token, mut content)) = store.lend_held(value) else {
        return Err(PlaceError {
            step: gone,
            kind: PlaceErrorKind::Barred,
        });
    };
    let answer = work_in(&mut content, store, steps, gone, f);
    if store.put_back(token, content) {
        answer
    } else {
        Err(PlaceError {
            step: gone,
            kind: PlaceErrorKind::Lost,
        })
    }
}

/// The same for a value that isn't a holder.
#[cycle(work)]
fn work_in<R: Drop, F: FnOnce(&mut Dynamic, &mut Store) -> R + Drop>(
    value: &mut Dynamic,
    store: &mut Store,
    steps: &[Step<'_>],
    gone: usize,
    f: F,
) -> Result<R, PlaceError>
    requires callable { F.IsAlwaysCallable f }
    requires few { gone + length steps.now ≤ 64 }
    ensures { WorksAlong F.FnOnce f (way_in steps.now gone store.old value.old) value.old store.old result value.new store.new }
{
    let Some((step, rest)) = steps.split_first() else {
        return Ok(f(value, store));
    };
    let kind = PlaceErrorKind::OtherType(value.own_type());
    match step {
        Step::Index(index) => match Array::own_mut(value) {
            Some(items) => work_in_array(items, store, *index, rest, gone, f),
            None => Err(PlaceError { step: gone, kind }),
        },
        Step::Key(key) => match Map::own_mut(value) {
            Some(map) => work_in_map(map, store, key, rest, gone, f),
            None => Err(PlaceError { step: gone, kind }),
        },
    }
}

/// The same for an array.
#[cycle(work)]
fn work_in_array<R: Drop, F: FnOnce(&mut Dynamic, &mut Store) -> R + Drop>(
    items: &mut Array,
    store: &mut Store,
    index: INT,
    rest: &[Step<'_>],
    gone: usize,
    f: F,
) -> Result<R, PlaceError>
    requires callable { F.IsAlwaysCallable f }
    requires few { gone + length rest.now < 64 }
    ensures { (g : ℤ) (n : AccessMode) → WorksAlong F.FnOnce f (way_in (Index index ∷ rest.now) gone store.old (node (branch array (trees_of items.old.items)) g n))
        (node (branch array (trees_of items.old.items)) g n) store.old result (node (branch array (trees_of items.new.items)) g n) store.new }
{
    match item_place(items.len(), index) {
        Some(place) => work_below(&mut items[place], store, rest, gone + 1, f),
        None => Err(PlaceError {
            step: gone,
            kind: PlaceErrorKind::NoItem(items.len()),
        }),
    }
}

/// The same for a map.
#[cycle(work)]
fn work_in_map<R: Drop, F: FnOnce(&mut Dynamic, &mut Store) -> R + Drop>(
    map: &mut Map,
    store: &mut Store,
    key: &&str,
    rest: &[Step<'_>],
    gone: usize,
    f: F,
) -> Result<R, PlaceError>
    requires callable { F.IsAlwaysCallable f }
    requires few { gone + length rest.now < 64 }
    ensures { (g : ℤ) (n : AccessMode) → WorksAlong F.FnOnce f (way_in (Key key.now ∷ rest.now) gone store.old (node (fields (fields_of map.old)) g n))
        (node (fields (fields_of map.old)) g n) store.old result (node (fields (fields_of map.new)) g n) store.new }
{
    match value_mut(map, key) {
        Some(value) => work_below(value, store, rest, gone + 1, f),
        None => Err(PlaceError {
            step: gone,
            kind: PlaceErrorKind::NoKey,
        }),
    }
}

/// Borrows the value of a key mutably.
fn value_mut<'m>(map: &'m mut Map, key: &str) -> Option<&'m mut Dynamic>
    ensures* writes_back { sem 𝓛 (LendsIf map_type.the_row dynamic_type.the_row map.entry result (λ w. set_value (is_at (bytes_cmp key.now)) map.old w) map.old) }
    ensures value { option_copied_mut result ≡ field_at (chars key.now) (fields_of map.old) }
    ensures written { (w : Tree) → fields_of (set_value (is_at (bytes_cmp key.now)) map.old w) ≡ with_field (chars key.now) w (fields_of map.old) }
{
    // All keys are texts.
    let _ = map.len();
    map.get_mut(key)
}
