//! Laws of work at places, each the contract of a function with an empty body.
ghost use Rattle.std.specs.Prelude.{◌≡◌, ℕ, ℤ, [], ◌∷◌, true, false, List, length, Some, None, Ok, slice_get};
ghost use Rattle.std.specs.Borrow.{Bor};
ghost use Rattle.std.specs.Str.{chars};
ghost use Rattle.rhai_value.specs.declared.places.step.Step.{Step};
ghost use Rattle.rhai_value.specs.declared.places.step.Step.TheVariants.{Index, Key};
ghost use Rattle.rhai_value.specs.declared.cells.store.Cell.{Cell};
ghost use Rattle.rhai_value.specs.End.{end, held_cell, store_after};
ghost use Rattle.rhai_value.specs.Items.{items_of};
ghost use Rattle.rhai_value.specs.Places.{Place, RelatedWays, around, is_kept, lent_out, put_back, way, whole_place};
ghost use Rattle.rhai_value.specs.Relation.{IsOneToOne, Related, RelatedCells, Renaming};
ghost use Rattle.rhai_value.specs.Steps.{item_at, item_place, with_item};
ghost use Rattle.rhai_value.specs.Store.{is_marked_at};
ghost use Rattle.rhai_value.specs.Tree.{Tree, cell_of};

/// If the work leaves the store as it found it, the mark is kept, and the new content is written
/// over the held value.
#[tactic(auto, using(crate::proofs::Placed::lent_is_kept, crate::proofs::Placed::lent_comes_back))]
pub fn what_is_lent_comes_back()
    ensures kept { (s : List Cell) (t : Tree) → is_kept (held_cell (end s [] t)) (lent_out (held_cell (end s [] t)) s) ≡ true }
    ensures back { (s : List Cell) (t w : Tree) → put_back (held_cell (end s [] t)) w (lent_out (held_cell (end s [] t)) s) ≡ store_after (λ _. w) (end s [] t) s }
{}

/// A write one step down is found there, and the rest of an array or a map is unchanged; writing an
/// item over itself changes nothing.
#[tactic(auto, using(crate::proofs::Stepped::item_written, crate::proofs::Stepped::item_over_itself, crate::proofs::Stepped::other_item, crate::proofs::Stepped::other_key))]
pub fn items_are_written_alone()
    ensures written { (p : Step) (t y w : Tree) → item_at p t ≡ Ok y → item_at p (with_item p t w) ≡ Ok w }
    ensures over_itself { (p : Step) (t y : Tree) → item_at p t ≡ Ok y → with_item p t y ≡ t }
    ensures other_items { (i j : ℤ) (t w : Tree) (xs : List Tree) → items_of t ≡ Some xs → (item_place (length xs) j ≡ item_place (length xs) i → ⊥)
        → item_at (Index j) (with_item (Index i) t w) ≡ item_at (Index j) t }
    ensures other_keys { (k q : Bor (List ℕ)) (t w : Tree) → (chars q.now ≡ chars k.now → ⊥) → item_at (Key q) (with_item (Key k) t w) ≡ item_at (Key q) t }
{}

/// A cell that isn't marked during the work at a place is left as the work left it, and if the work
/// leaves the store as it found it, no mark is lost. From a value that isn't a holder, no steps
/// lead to the value itself, and one step to an item that isn't a holder leads to this item: so a
/// write there replaces the item.
#[tactic(auto, using(crate::proofs::Ways::others_stay, crate::proofs::Ways::no_mark_is_lost, crate::proofs::Ways::no_step, crate::proofs::Ways::one_step))]
pub fn places_are_written_alone()
    ensures other_cells { (ps : List Step) (s : List Cell) (t : Tree) (q : Place) → way ps s t ≡ Ok q → (w : Tree) (u : List Cell) (d : ℕ) → is_marked_at q.store d ≡ false
        → slice_get (q.back w u).store d ≡ slice_get u d }
    ensures marks { (ps : List Step) (s : List Cell) (t : Tree) (q : Place) → way ps s t ≡ Ok q → (w : Tree) → (q.back w q.store).lost ≡ None }
    ensures whole { (s : List Cell) (t : Tree) → cell_of t ≡ None → way [] s t ≡ Ok (whole_place s t) }
    ensures one_step { (p : Step) (s : List Cell) (t y : Tree) → cell_of t ≡ None → item_at p t ≡ Ok y → cell_of y ≡ None
        → way (p ∷ []) s t ≡ Ok (around (with_item p t) (whole_place s y)) }
{}

/// Neither the target of steps nor the state after a write there depends on cell numbers.
#[tactic(auto, using(crate::proofs::SameWays::same_way))]
pub fn ways_are_renamed()
    ensures { (r : Renaming) (s z : List Cell) (ps : List Step) (t u : Tree) → IsOneToOne r → RelatedCells r s z → Related r t u → RelatedWays r (way ps s t) (way ps z u) }
{}
