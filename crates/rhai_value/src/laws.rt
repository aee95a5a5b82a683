//! Laws of the definitions: each is the contract of a function with an empty body.
ghost use Rattle.std.specs.Prelude.{◌≡◌, ◌↔◌, ◌∷◌, [], ◌++◌, ℕ, ℤ, Bool, true, false, List, length, Some, None, is_some, slice_get};
ghost use Rattle.rhai_value.specs.declared.value.access_mode.AccessMode.{AccessMode};
ghost use Rattle.rhai_value.specs.declared.cells.store.Cell.{Cell};
ghost use Rattle.rhai_value.specs.declared.value.type_id.TypeId.{TypeId};
ghost use Rattle.rhai_value.specs.Parts.{unit_of, bool_of, int_of, char_of, text_of, blob_of, host_of, array_of, map_of, function_of, with_content, with_int};
ghost use Rattle.rhai_value.specs.Tree.{Tree, Content, cell_of, tag_of, mode_of, copy, paint, with_tag};
ghost use Rattle.rhai_value.specs.Copied.{SameButModes, IsWritable};
ghost use Rattle.rhai_value.specs.Store.{at, put, added, is_marked_at, set_mark, shared_value, shared_store};
ghost use Rattle.rhai_value.specs.End.{first, value_with_first, store_with_first, first_cell, held_cell, flat, flattened, End, held, stuck, closed, site_after, end_of, end, held_part, value_after, store_after, end_type};
ghost use Rattle.rhai_value.specs.Locked.{is_locked};
ghost use Rattle.rhai_value.specs.Walk.{holds_open, is_open, visit, visit_map};
ghost use Rattle.rhai_value.specs.Types.{is_type};
ghost use Rattle.rhai_value.specs.Relation.{Renaming, paired, Related, RelatedContent, AllRelated, RelatedFields, RelatedFunctions, Alike, Respect, IsOneToOne, RelatedCells, RelatedPaths, RelatedEnds, shared_pairs};

pub mod orders;
pub mod parts;
pub mod places;
pub mod scans;

/// The end of a chain, by cases: a value that isn't a holder is held; a holder is stuck, closes the
/// chain, or leads on to its cell's content. The store's length isn't mentioned.
#[tactic(auto, using(crate::proofs::Ends::end_opens))]
pub fn end_opens()
    ensures { (s : List Cell) (path : List ℕ) (t : Tree)
        → end s path t ≡ end_of path (λ c. visit_map (end s (c ∷ path)) (visit s path c)) t }
{}

/// The end of a chain, case by case: a value that isn't a holder is held; a holder of a marked or
/// foreign cell is stuck; the chain closes at a visited cell, and otherwise goes on with the cell's
/// content.
#[tactic(auto, using(crate::proofs::Ends::end_own, crate::proofs::Ends::end_stuck, crate::proofs::Ends::end_closes, crate::proofs::Ends::end_goes_on))]
pub fn end_by_cases()
    ensures unshared { (s : List Cell) (path : List ℕ) (t : Tree) → cell_of t ≡ None → end s path t ≡ held (site_after (slice_get path 0)) t }
    ensures barred { (s : List Cell) (path : List ℕ) (t : Tree) (c : ℕ) → cell_of t ≡ Some c → at s c ≡ None → end s path t ≡ stuck t }
    ensures closes { (s : List Cell) (path : List ℕ) (t u : Tree) (c : ℕ) → cell_of t ≡ Some c → at s c ≡ Some u → is_open c path ≡ true → end s path t ≡ closed }
    ensures goes_on { (s : List Cell) (path : List ℕ) (t u : Tree) (c : ℕ) → cell_of t ≡ Some c → at s c ≡ Some u → is_open c path ≡ false → end s path t ≡ end s (c ∷ path) u }
{}

/// Chains from related values, in stores equal up to a renaming, end alike: with no visited cells,
/// and with visited cells that are paired.
#[tactic(auto, using(crate::proofs::SameWalks::same_end, crate::proofs::SameWalks::same_end_from))]
pub fn end_is_renamed()
    ensures whole { (r : Renaming) (s z : List Cell) (t u : Tree)
        → IsOneToOne r → RelatedCells r s z → Related r t u → RelatedEnds r (end s [] t) (end z [] u) }
    ensures passed { (r : Renaming) (s z : List Cell) (path road : List ℕ) (t u : Tree)
        → IsOneToOne r → RelatedCells r s z → RelatedPaths r path road → Related r t u → RelatedEnds r (end s path t) (end z road u) }
{}

/// A copy has the contents and tags of the value, and its holders refer to the same cells; every
/// mode is ReadWrite.
#[tactic(auto, using(crate::proofs::Copied::same_but_modes, crate::proofs::Copied::all_writable))]
pub fn copies_keep_all_but_modes()
    ensures kept { (t : Tree) → SameButModes (copy t) t }
    ensures writable { (t : Tree) → IsWritable (copy t) }
{}

/// Copies of related values are related.
#[tactic(auto, using(crate::proofs::SameTrees::same_copy))]
pub fn copy_is_renamed()
    ensures { (r : Renaming) (t u : Tree) → Related r t u → Related r (copy t) (copy u) }
{}

/// Related values painted with one mode are related.
#[tactic(auto, using(crate::proofs::SameTrees::same_paint))]
pub fn paint_is_renamed()
    ensures { (r : Renaming) (m : AccessMode) (t u : Tree) → Related r t u → Related r (paint m t) (paint m u) }
{}

/// Stores stay related if related values are put into paired cells.
#[tactic(auto, using(crate::proofs::RelatedCells::same_put))]
pub fn put_is_renamed()
    ensures { (r : Renaming) (s z : List Cell) (a b : ℕ) (t u : Tree)
        → IsOneToOne r → RelatedCells r s z → paired r a b ≡ true → Related r t u
        → RelatedCells r (put s a t) (put z b u) }
{}

/// Stores with one more cell each, of related contents, are related by the renaming extended with
/// the pair of new cells.
#[tactic(auto, using(crate::proofs::Grow::one_more, crate::proofs::Grow::same_added))]
pub fn added_is_renamed()
    ensures one { (r : Renaming) (s z : List Cell)
        → IsOneToOne r → RelatedCells r s z → IsOneToOne (r ++ (length s, length z) ∷ []) }
    ensures cells { (r : Renaming) (s z : List Cell) (t u : Tree) → RelatedCells r s z → Related r t u
        → RelatedCells (r ++ (length s, length z) ∷ []) (added s t) (added z u) }
{}

/// Related values stay related if the renaming is extended.
#[tactic(auto, using(crate::proofs::Grow::related_more))]
pub fn more_pairs_relate()
    ensures { (r q : Renaming) (t u : Tree) → Related r t u → Related (r ++ q) t u }
{}

/// Sharing related values gives related values and related stores, by the renaming extended with
/// the pair of new cells, if there are any.
#[tactic(auto, using(crate::proofs::Grow::one_more_shared, crate::proofs::Grow::same_shared_value, crate::proofs::Grow::same_shared_store))]
pub fn sharing_is_renamed()
    ensures one { (r : Renaming) (s z : List Cell) (t : Tree) → IsOneToOne r → RelatedCells r s z → IsOneToOne (r ++ shared_pairs s z t) }
    ensures value { (r : Renaming) (s z : List Cell) (t u : Tree) → Related r t u
        → Related (r ++ shared_pairs s z t) (shared_value s t) (shared_value z u) }
    ensures store { (r : Renaming) (s z : List Cell) (t u : Tree) → RelatedCells r s z → Related r t u
        → RelatedCells (r ++ shared_pairs s z t) (shared_store s t) (shared_store z u) }
{}

/// Related values have the same tag and mode, and stay related with another tag and with related
/// contents.
#[tactic(auto, using(crate::proofs::SameTrees::same_tag, crate::proofs::SameTrees::same_mode, crate::proofs::SameTrees::same_with_tag, crate::proofs::SameTrees::same_with_content, crate::proofs::SameTrees::same_with_int))]
pub fn parts_are_renamed()
    ensures tag { (r : Renaming) (t u : Tree) → Related r t u → tag_of t ≡ tag_of u }
    ensures mode { (r : Renaming) (t u : Tree) → Related r t u → mode_of t ≡ mode_of u }
    ensures with_tag { (r : Renaming) (h : ℤ) → Respect r (with_tag h) (with_tag h) }
    ensures with_content { (r : Renaming) (c d : Content) → RelatedContent r c d → Respect r (with_content c) (with_content d) }
    ensures with_int { (r : Renaming) (n : ℤ) → Respect r (with_int n) (with_int n) }
{}

/// Ends that are alike have the same type, the same unit, boolean, int, character, text, bytes and
/// host value, and related items, fields and curried values.
#[tactic(auto, using(crate::proofs::RelatedCells::same_end_type, crate::proofs::RelatedCells::same_held_leaf, crate::proofs::RelatedCells::same_held_part))]
pub fn held_parts_are_renamed()
    ensures held_type { (r : Renaming) (e f : End) → RelatedEnds r e f → end_type e ≡ end_type f }
    ensures unit { (r : Renaming) (e f : End) → RelatedEnds r e f → held_part unit_of e ≡ held_part unit_of f }
    ensures boolean { (r : Renaming) (e f : End) → RelatedEnds r e f → held_part bool_of e ≡ held_part bool_of f }
    ensures int { (r : Renaming) (e f : End) → RelatedEnds r e f → held_part int_of e ≡ held_part int_of f }
    ensures character { (r : Renaming) (e f : End) → RelatedEnds r e f → held_part char_of e ≡ held_part char_of f }
    ensures text { (r : Renaming) (e f : End) → RelatedEnds r e f → held_part text_of e ≡ held_part text_of f }
    ensures bytes { (r : Renaming) (e f : End) → RelatedEnds r e f → held_part blob_of e ≡ held_part blob_of f }
    ensures host { (r : Renaming) (e f : End) → RelatedEnds r e f → held_part host_of e ≡ held_part host_of f }
    ensures items { (r : Renaming) (e f : End) → RelatedEnds r e f → Alike (AllRelated r) (held_part array_of e) (held_part array_of f) }
    ensures fields { (r : Renaming) (e f : End) → RelatedEnds r e f → Alike (RelatedFields r) (held_part map_of e) (held_part map_of f) }
    ensures function { (r : Renaming) (e f : End) → RelatedEnds r e f → Alike (RelatedFunctions r) (held_part function_of e) (held_part function_of f) }
{}

/// A write at ends that are alike leaves values and stores related, if it maps related values to
/// related ones.
#[tactic(auto, using(crate::proofs::RelatedCells::same_value_after, crate::proofs::RelatedCells::same_store_after))]
pub fn writes_are_renamed()
    ensures value { (r : Renaming) (f g : Tree → Tree) (t u : Tree) (e o : End) → Respect r f g → Related r t u → RelatedEnds r e o
        → Related r (value_after f e t) (value_after g o u) }
    ensures store { (r : Renaming) (f g : Tree → Tree) (s z : List Cell) (e o : End) → Respect r f g → IsOneToOne r → RelatedCells r s z → RelatedEnds r e o
        → RelatedCells r (store_after f e s) (store_after g o z) }
{}

/// A write over first contents that are alike leaves values and stores related, if it maps related
/// values to related ones.
#[tactic(auto, using(crate::proofs::SameFlat::same_value_with_first, crate::proofs::SameFlat::same_store_with_first))]
pub fn first_writes_are_renamed()
    ensures value { (r : Renaming) (v w t u : Tree) → Related r v w → Related r t u → Related r (value_with_first v t) (value_with_first w u) }
    ensures store { (r : Renaming) (s z : List Cell) (v w t u : Tree) → IsOneToOne r → RelatedCells r s z → Related r v w → Related r t u
        → RelatedCells r (store_with_first v s t) (store_with_first w z u) }
{}

/// The cells of the first contents, and of the held values, of related values are paired, or
/// neither exists.
#[tactic(auto, using(crate::proofs::SameFlat::same_first_cell, crate::proofs::SameFlat::same_held_cell))]
pub fn sites_are_renamed()
    ensures first { (r : Renaming) (s z : List Cell) (t u : Tree) → RelatedCells r s z → Related r t u
        → Alike (λ c d. paired r c d ≡ true) (first_cell s t) (first_cell z u) }
    ensures held { (r : Renaming) (e f : End) → RelatedEnds r e f → Alike (λ c d. paired r c d ≡ true) (held_cell e) (held_cell f) }
{}

/// The first contents of related values are related, or neither exists.
#[tactic(auto, using(crate::proofs::SameFlat::same_first))]
pub fn first_is_renamed()
    ensures { (r : Renaming) (s z : List Cell) (t u : Tree)
        → RelatedCells r s z → Related r t u → Alike (Related r) (first s t) (first z u) }
{}

/// Of two related values, both are locked or neither.
#[tactic(auto, using(crate::proofs::SameFlat::same_locked))]
pub fn is_locked_is_renamed()
    ensures { (r : Renaming) (s z : List Cell) (t u : Tree) → RelatedCells r s z → Related r t u → is_locked s t ≡ is_locked z u }
{}

/// Stores stay related if the marks of paired cells are set, and if they are cleared.
#[tactic(auto, using(crate::proofs::RelatedCells::same_set_mark))]
pub fn set_mark_is_renamed()
    ensures { (r : Renaming) (s z : List Cell) (a b : ℕ) (m : Bool)
        → IsOneToOne r → RelatedCells r s z → paired r a b ≡ true → RelatedCells r (set_mark s a m) (set_mark z b m) }
{}

/// Related values are related once flattened.
#[tactic(auto, using(crate::proofs::SameFlat::same_flat, crate::proofs::SameFlat::same_flattened))]
pub fn flat_is_renamed()
    ensures flat { (r : Renaming) (s z : List Cell) (t u : Tree)
        → IsOneToOne r → RelatedCells r s z → Related r t u → Related r (flat s t) (flat z u) }
    ensures flattened { (r : Renaming) (s z : List Cell) (t u : Tree)
        → IsOneToOne r → RelatedCells r s z → Related r t u → Related r (flattened s t) (flattened z u) }
{}

/// With paired cells open, of two related values both hold an open cell or neither.
#[tactic(auto, using(crate::proofs::SameWalks::same_holds_open))]
pub fn open_cells_are_renamed()
    ensures { (r : Renaming) (path road : List ℕ) (t u : Tree)
        → IsOneToOne r → RelatedPaths r path road → Related r t u → holds_open path t ≡ holds_open road u }
{}

/// A write over the first content of a holder is seen through every holder of that cell, and no
/// other cell changes.
#[tactic(auto, using(crate::proofs::SameFlat::seen_by_all, crate::proofs::SameFlat::others_stay))]
pub fn write_is_seen_by_all_holders()
    ensures seen { (s : List Cell) (t u v w : Tree) → first s t ≡ Some v → is_some (cell_of t) ≡ true → cell_of u ≡ cell_of t
        → first (store_with_first w s t) u ≡ Some w }
    ensures others { (s : List Cell) (t w : Tree) (c : ℕ) → (cell_of t ≡ Some c → ⊥)
        → slice_get (store_with_first w s t) c ≡ slice_get s c }
{}

/// Setting and clearing a cell's mark leaves the store as it was, but for what was written in
/// between.
#[tactic(auto, using(crate::proofs::MarkedCells::cleared, crate::proofs::MarkedCells::written_and_cleared))]
pub fn mark_is_cleared()
    ensures alone { (s : List Cell) (c : ℕ) → is_some (at s c) ≡ true → set_mark (set_mark s c true) c false ≡ s }
    ensures written { (s : List Cell) (c : ℕ) (w : Tree) → is_some (at s c) ≡ true → set_mark (put (set_mark s c true) c w) c false ≡ put s c w }
{}

/// The cell of a first content or a held value can be read.
#[tactic(auto, using(crate::proofs::MarkedCells::first_read, crate::proofs::MarkedCells::held_read))]
pub fn sites_are_read()
    ensures first { (s : List Cell) (t : Tree) (c : ℕ) → first_cell s t ≡ Some c → is_some (at s c) ≡ true }
    ensures held { (s : List Cell) (t : Tree) (c : ℕ) → held_cell (end s [] t) ≡ Some c → is_some (at s c) ≡ true }
{}

/// No holder of a marked cell has a first content.
#[tactic(auto, using(crate::proofs::MarkedCells::closed_by_mark))]
pub fn mark_closes_the_cell()
    ensures { (s : List Cell) (t : Tree) (c : ℕ) → cell_of t ≡ Some c → first (set_mark s c true) t ≡ None }
{}

/// A mark is unaffected by writing a value, by sharing one, and by marking or unmarking another
/// cell.
#[tactic(auto, using(crate::proofs::RelatedCells::marked_put, crate::proofs::RelatedCells::marked_store_after, crate::proofs::MarkedCells::marked_with_first, crate::proofs::MarkedCells::marked_shared, crate::proofs::MarkedCells::others_marked))]
pub fn marks_stay()
    ensures written { (s : List Cell) (c d : ℕ) (t : Tree) → is_marked_at (put s c t) d ≡ is_marked_at s d }
    ensures at_end { (s : List Cell) (f : Tree → Tree) (e : End) (d : ℕ) → is_marked_at (store_after f e s) d ≡ is_marked_at s d }
    ensures over_first { (s : List Cell) (t w : Tree) (d : ℕ) → is_marked_at (store_with_first w s t) d ≡ is_marked_at s d }
    ensures shared { (s : List Cell) (t : Tree) (d : ℕ) → is_marked_at (shared_store s t) d ≡ is_marked_at s d }
    ensures others { (s : List Cell) (c d : ℕ) (b : Bool) → (d ≡ c → ⊥) → is_marked_at (set_mark s c b) d ≡ is_marked_at s d }
{}

/// The comparison of types is equality.
pub fn types_compare_as_equal()
    ensures { (a b : TypeId) → (is_type a b ≡ true) ↔ (a ≡ b) }
{}
