//! A call on arrays whose contract gives the items of the array, and one that calls it twice,
//! proved from that contract alone.
ghost use Rattle.std.specs.Prelude.{◌≡◌, ◌++◌, ◌∷◌, [], true, List, Some, IfErr, OnOk};
ghost use Rattle.rhai_value.specs.End.{end, held_part};
ghost use Rattle.rhai_value.specs.Items.{items_of};
ghost use Rattle.rhai_value.specs.Tree.{Tree};

use crate::values::shared;
use rhai_value::{Array, Dynamic, InStore, Store, laws};

/// Appends an item. The item is returned if no array is held, or if an allocation fails; nothing
/// has changed then.
fn push_item(array: &mut Dynamic, store: &mut Store, item: Dynamic) -> Result<(), Dynamic>
    ensures items { OnOk result ((xs : List Tree) × (held_part items_of (end store.old [] array.old) ≡ Some xs)
        × (held_part items_of (end store.new [] array.new) ≡ Some (xs ++ item ∷ []))) }
    ensures err { IfErr result (λ back. (back ≡ item) × (array.new ≡ array.old) × (store.new ≡ store.old)) }
{
    laws::parts::part_is_written_over_itself::<Array>();
    laws::parts::items_are_chained();
    let mut place = InStore {
        value: array,
        store,
    };
    match place.array_mut() {
        Ok(items) => match items.push(item) {
            Ok(()) => Ok(()),
            Err(refused) => Err(refused.value),
        },
        Err(_) => Err(item),
    }
}

/// Appends two items.
fn push_both(array: &mut Dynamic, store: &mut Store, one: Dynamic, other: Dynamic) -> bool
    ensures { result ≡ true → (xs : List Tree) × (held_part items_of (end store.old [] array.old) ≡ Some xs)
        × (held_part items_of (end store.new [] array.new) ≡ Some ((xs ++ one ∷ []) ++ other ∷ [])) }
{
    match push_item(array, store, one) {
        Ok(()) => push_item(array, store, other).is_ok(),
        Err(_) => false,
    }
}

/// Whether an array of this many items is held.
fn has_items(value: &Dynamic, store: &Store, count: usize) -> bool {
    match value.as_array_ref(store) {
        Ok(items) => items.len() == count,
        Err(_) => false,
    }
}

#[test]
fn two_items_are_added(rt: HostRuntime) {
    let mut store = Store::new(rt.alloc());
    let empty = Dynamic::from_array(Vec::new(rt.alloc()));
    let mut array = shared(empty, &mut store);
    assert!(rt; push_both(&mut array, &mut store, Dynamic::ONE, Dynamic::TRUE));
    assert!(rt; has_items(&array, &store, 2));
    let mut int = Dynamic::ONE;
    assert!(rt; !push_both(&mut int, &mut store, Dynamic::ONE, Dynamic::TRUE));
}
