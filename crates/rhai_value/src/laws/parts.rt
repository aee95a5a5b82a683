//! Laws of writes to parts, items and keys, each the contract of a function with an empty body.
ghost use Rattle.std.specs.Prelude.{◌≡◌, ◌↔◌, [], ℕ, List, None, Some, IsSome, slice_set};
ghost use Rattle.std.specs.BTreeMap.{insert_entry, is_at};
ghost use Rattle.std.specs.Map.{lookup, remove_entry, set_value};
ghost use Rattle.std.specs.Str.{chars, IsUtf8};
ghost use Rattle.rhai_value.specs.declared.cells.chain.Site.{Site};
ghost use Rattle.rhai_value.specs.declared.parts.in_store.InStore.{InStore};
ghost use Rattle.rhai_value.specs.declared.cells.store.Cell.{Cell};
ghost use Rattle.rhai_value.specs.End.{End, end, held, held_part, value_after, store_after};
ghost use Rattle.rhai_value.specs.Items.{items_in, items_of, with_items, map_get, with_rows, end_after, KeyBecomes};
ghost use Rattle.rhai_value.specs.Parts.{array_of, map_of, with_content};
ghost use Rattle.rhai_value.specs.Rows.{Rows, bytes_cmp, AreRising, AreTexts, trees_of, fields_of};
ghost use Rattle.rhai_value.specs.Tree.{Tree, cell_of};
ghost use Rattle.rhai_value.specs.Writes.{written};

use crate::parts::part::Part;

/// Writing a part over itself changes nothing: neither the value that has it, nor, if it is held,
/// value and store.
pub fn part_is_written_over_itself<T: Part>()
    ensures own { (t : Tree) (m : T.Meaning) → T.part_of t ≡ Some m → with_content (T.content m) t ≡ t }
    ensures value { (s : List Cell) (t : Tree) (m : T.Meaning) → held_part T.part_of (end s [] t) ≡ Some m
        → value_after (with_content (T.content m)) (end s [] t) t ≡ t }
    ensures store { (s : List Cell) (t : Tree) (m : T.Meaning) → held_part T.part_of (end s [] t) ≡ Some m
        → store_after (with_content (T.content m)) (end s [] t) s ≡ s }
    ensures lent { (h : InStore) (m : T.Meaning) → held_part T.part_of (end h.store.now [] h.value.now) ≡ Some m
        → written h (with_content (T.content m)) ≡ h }
{}

/// A value that isn't a holder, once written over a held value, is held at the same site.
#[tactic(auto, using(crate::proofs::WrittenEnds::end_written))]
pub fn what_is_written_is_held()
    ensures { (s : List Cell) (t v : Tree) (f : Tree → Tree) (site : Site) → end s [] t ≡ held site v → cell_of (f v) ≡ None
        → end_after f s t ≡ held site (f v) }
{}

/// The children that a list of items makes are these items. A held array has a list of items, and
/// after other items are written it has those; so writing one item changes the list at that index
/// only.
#[tactic(auto, using(crate::proofs::Items::items_back, crate::proofs::Items::items_held, crate::proofs::Items::items_told, crate::proofs::Items::items_written))]
pub fn items_are_chained()
    ensures children { (xs : List Tree) → items_in (trees_of xs) ≡ xs }
    ensures items { (e : End) (xs : List Tree) → (held_part array_of e ≡ Some (trees_of xs)) ↔ (held_part items_of e ≡ Some xs) }
    ensures written { (s : List Cell) (t : Tree) (xs ys : List Tree) → held_part items_of (end s [] t) ≡ Some xs
        → held_part items_of (end_after (with_items ys) s t) ≡ Some ys }
    ensures one { (s : List Cell) (t : Tree) (xs : List Tree) (i : ℕ) (x : Tree) → held_part items_of (end s [] t) ≡ Some xs
        → held_part items_of (end_after (with_items (slice_set xs i x)) s t) ≡ Some (slice_set xs i x) }
{}

/// The value that a held map has at a key is the one that a look-up in its rows finds. After
/// inserting an entry, changing the value of a key, or removing a key, the map has the result at
/// that key, and at each other key what it had. All keys are texts, as those of a `Map` are.
#[tactic(auto, using(crate::proofs::Items::key_found))]
pub fn keys_are_chained()
    ensures found { (e : End) (rs : Rows) (k : List ℕ) → AreTexts rs → IsUtf8 k → held_part map_of e ≡ Some (fields_of rs)
        → held_part (map_get (chars k)) e ≡ lookup (is_at (bytes_cmp k)) rs }
    ensures inserted { (s : List Cell) (t : Tree) (rs : Rows) (k : List ℕ) → AreTexts rs → IsUtf8 k
        → held_part map_of (end s [] t) ≡ Some (fields_of rs) → (v : Tree)
        → KeyBecomes k (Some v) (end s [] t) (end_after (with_rows (insert_entry bytes_cmp rs k v)) s t) }
    ensures changed { (s : List Cell) (t : Tree) (rs : Rows) (k : List ℕ) → AreTexts rs → IsUtf8 k
        → held_part map_of (end s [] t) ≡ Some (fields_of rs) → (v : Tree) → IsSome (lookup (is_at (bytes_cmp k)) rs)
        → KeyBecomes k (Some v) (end s [] t) (end_after (with_rows (set_value (is_at (bytes_cmp k)) rs v)) s t) }
    ensures removed { (s : List Cell) (t : Tree) (rs : Rows) (k : List ℕ) → AreTexts rs → IsUtf8 k
        → held_part map_of (end s [] t) ≡ Some (fields_of rs) → AreRising rs
        → KeyBecomes k None (end s [] t) (end_after (with_rows (remove_entry (is_at (bytes_cmp k)) rs)) s t) }
{}
