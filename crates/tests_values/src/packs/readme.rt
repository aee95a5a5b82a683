//! The proved caller in the README.
ghost use Rattle.std.specs.Prelude.{◌≡◌, ◌++◌, ◌∷◌, [], List, OnOk, Some};
ghost use Rattle.rhai_value.specs.End.{end, held_part, value_after, store_after};
ghost use Rattle.rhai_value.specs.Items.{with_items};
ghost use Rattle.rhai_value.specs.Parts.{array_of};
ghost use Rattle.rhai_value.specs.Rows.{trees_of};
ghost use Rattle.rhai_value.specs.Tree.{Tree};

use rhai_packs::{arrays, mismatch};
use rhai_text::{EvalAltResult, Limits};
use rhai_value::{Array, Dynamic, InStore, Store};

/// Appends an item to the held array.
pub(crate) fn push_held(
    array: &mut Dynamic,
    store: &mut Store,
    limits: &Limits,
    item: Dynamic,
) -> Result<(), EvalAltResult>
    ensures { OnOk result ((ts : List Tree) × (held_part array_of (end store.old [] array.old) ≡ Some (trees_of ts))
        × (array.new ≡ value_after (with_items (ts ++ item ∷ [])) (end store.old [] array.old) array.old)
        × (store.new ≡ store_after (with_items (ts ++ item ∷ [])) (end store.old [] array.old) store.old)) }
{
    let mut place = InStore {
        value: array,
        store,
    };
    match place.array_mut() {
        Ok(items) => arrays::push(items, limits, item),
        Err(found) => Err(mismatch::<Array>(found)),
    }
}
