//! No definition of the scope depends on cell numbers: entries equal up to a renaming give results
//! equal up to it.
ghost use Rattle.std.specs.Prelude.{◌≡◌, ℕ, Bool, List, Option, map, reverse, take, option_map};
ghost use Rattle.std.specs.List.{AllZip, zip};
ghost use Rattle.rhai_value.specs.Relation.{Renaming, Related, Alike, IsOneToOne, RelatedCells};
ghost use Rattle.rhai_value.specs.Tree.{Tree};
ghost use Rattle.rhai_value.specs.declared.value.access_mode.AccessMode.{AccessMode};
ghost use Rattle.rhai_value.specs.declared.cells.store.Cell.{Cell};
ghost use Rattle.rhai_value.specs.declared.value.type_id.TypeId.{TypeId};
ghost use Rattle.rhai_scope.specs.Alias.{aliased};
ghost use Rattle.rhai_scope.specs.Entry.{Entry, pushed, popped, is_constant_entry, with_value, copied_entry};
ghost use Rattle.rhai_scope.specs.Extended.{extended, extended_flagged, flagged_values};
ghost use Rattle.rhai_scope.specs.Items.{flat_values, shown_flat, shown_raw};
ghost use Rattle.rhai_scope.specs.Lookup.{last_position, last_entry, value_named, aliases_named, writable_position, changed_named, with_value_at, visible};
ghost use Rattle.rhai_scope.specs.NamesText.{names_text};
ghost use Rattle.rhai_scope.specs.Relation.{RelatedEntry, RelatedEntries, RelatedPair, RelatedNamed, RespectEntries};
ghost use Rattle.rhai_scope.specs.ScopeBytes.{scope_bytes};
ghost use Rattle.rhai_scope.specs.ScopeText.{scope_text};
ghost use Rattle.rhai_scope.specs.Typed.{set_or_pushed, removed_at, written_entry};

/// Look-ups find the same position, and related entries there.
#[tactic(auto, using(crate::proofs::SameEntries::same_position, crate::proofs::SameEntries::same_writable, crate::proofs::SameEntries::same_last_entry, crate::proofs::SameEntries::same_named, crate::proofs::SameEntries::same_aliases_named, crate::proofs::SameEntries::same_constant_named))]
pub fn lookups_are_renamed()
    ensures position { (r : Renaming) (name : List ℕ) (es fs : List Entry) → RelatedEntries r es fs → last_position name es ≡ last_position name fs }
    ensures writable { (r : Renaming) (name : List ℕ) (es fs : List Entry) → RelatedEntries r es fs → writable_position name es ≡ writable_position name fs }
    ensures entry { (r : Renaming) (name : List ℕ) (es fs : List Entry) → RelatedEntries r es fs → Alike (RelatedEntry r) (last_entry name es) (last_entry name fs) }
    ensures value { (r : Renaming) (name : List ℕ) (es fs : List Entry) → RelatedEntries r es fs → Alike (Related r) (value_named name es) (value_named name fs) }
    ensures aliases { (r : Renaming) (name : List ℕ) (es fs : List Entry) → RelatedEntries r es fs → aliases_named name es ≡ aliases_named name fs }
    ensures constant { (r : Renaming) (name : List ℕ) (es fs : List Entry) → RelatedEntries r es fs
        → option_map is_constant_entry (last_entry name es) ≡ option_map is_constant_entry (last_entry name fs) }
{}

/// Adding and removing entries.
#[tactic(auto, using(crate::proofs::SameEntries::same_pushed, crate::proofs::SameEntries::same_taken, crate::proofs::SameEntries::same_popped, crate::proofs::SameEntries::same_removed_at, crate::proofs::SameEntries::same_extended, crate::proofs::SameEntries::same_extended_flagged, crate::proofs::SameEntries::same_extended_values, crate::proofs::SameEntries::same_flagged_values))]
pub fn entries_that_come_and_go_are_renamed()
    ensures pushed { (r : Renaming) (m : AccessMode) (name : List ℕ) (t u : Tree) (es fs : List Entry) → Related r t u → RelatedEntries r es fs
        → RelatedEntries r (pushed m name t es) (pushed m name u fs) }
    ensures rewound { (r : Renaming) (n : ℕ) (es fs : List Entry) → RelatedEntries r es fs → RelatedEntries r (take n es) (take n fs) }
    ensures popped { (r : Renaming) (es fs : List Entry) → RelatedEntries r es fs → RelatedEntries r (popped es) (popped fs) }
    ensures removed { (r : Renaming) (o : Option ℕ) (es fs : List Entry) → RelatedEntries r es fs → RelatedEntries r (removed_at o es) (removed_at o fs) }
    ensures extended { (r : Renaming) (es fs : List Entry) (xs ys : List (List ℕ × Tree)) → RelatedEntries r es fs → AllZip (RelatedPair r) xs ys
        → RelatedEntries r (extended es xs) (extended fs ys) }
    ensures flagged { (r : Renaming) (es fs : List Entry) (xs ys : List (List ℕ × Bool × Tree)) → RelatedEntries r es fs → AllZip (RelatedNamed r) xs ys
        → RelatedEntries r (extended_flagged es xs) (extended_flagged fs ys) }
    ensures values { (r : Renaming) (ns : List (List ℕ)) (ts us : List Tree) (es fs : List Entry) → AllZip (Related r) ts us → RelatedEntries r es fs
        → RelatedEntries r (extended es (zip ns ts)) (extended fs (zip ns us)) }
    ensures flagged_values { (r : Renaming) (ns : List (List ℕ × Bool)) (ts us : List Tree) (es fs : List Entry) → AllZip (Related r) ts us → RelatedEntries r es fs
        → RelatedEntries r (extended_flagged es (flagged_values ns ts)) (extended_flagged fs (flagged_values ns us)) }
{}

/// Changing entries.
#[tactic(auto, using(crate::proofs::SameEntries::same_changed_named, crate::proofs::SameEntries::same_with_value, crate::proofs::SameEntries::same_with_value_at, crate::proofs::SameEntries::same_aliased, crate::proofs::SameEntries::same_written_entry, crate::proofs::SameEntries::same_set_or_pushed))]
pub fn changes_are_renamed()
    ensures named { (r : Renaming) (f g : Entry → Entry) (name : List ℕ) (es fs : List Entry) → RespectEntries r f g → RelatedEntries r es fs
        → RelatedEntries r (changed_named f name es) (changed_named g name fs) }
    ensures value { (r : Renaming) (o : Option ℕ) (t u : Tree) (es fs : List Entry) → Related r t u → RelatedEntries r es fs
        → RelatedEntries r (with_value_at es o t) (with_value_at fs o u) }
    ensures alias { (r : Renaming) (a : List ℕ) → RespectEntries r (aliased a) (aliased a) }
    ensures written { (r : Renaming) (k : TypeId) (v w : Tree) → Related r v w → RespectEntries r (written_entry k v) (written_entry k w) }
    ensures set { (r : Renaming) (o : Option ℕ) (name : List ℕ) (t u : Tree) (es fs : List Entry) → Related r t u → RelatedEntries r es fs
        → RelatedEntries r (set_or_pushed o name t es) (set_or_pushed o name u fs) }
{}

/// Copies, and the visible entries.
#[tactic(auto, using(crate::proofs::SameEntries::same_copied, crate::proofs::SameEntries::same_copies, crate::proofs::SameEntries::same_visible))]
pub fn copies_are_renamed()
    ensures entry { (r : Renaming) → RespectEntries r copied_entry copied_entry }
    ensures all { (r : Renaming) (es fs : List Entry) → RelatedEntries r es fs → RelatedEntries r (map copied_entry es) (map copied_entry fs) }
    ensures visible { (r : Renaming) (es fs : List Entry) → RelatedEntries r es fs → RelatedEntries r (visible es) (visible fs) }
{}

/// The printed text and the hash bytes are equal, and the iterators yield related items.
#[tactic(auto, using(crate::proofs::SamePrints::same_text, crate::proofs::SamePrints::same_bytes, crate::proofs::SamePrints::same_shown_flat, crate::proofs::SamePrints::same_shown_raw, crate::proofs::SamePrints::same_names_text, crate::proofs::SamePrints::same_flat_values))]
pub fn what_is_shown_is_renamed()
    ensures text { (r : Renaming) (s z : List Cell) (es fs : List Entry) → IsOneToOne r → RelatedCells r s z → RelatedEntries r es fs → scope_text s es ≡ scope_text z fs }
    ensures bytes { (r : Renaming) (s z : List Cell) (es fs : List Entry) → IsOneToOne r → RelatedCells r s z → RelatedEntries r es fs → scope_bytes s es ≡ scope_bytes z fs }
    ensures names { (r : Renaming) (s z : List Cell) (es fs : List Entry) → IsOneToOne r → RelatedCells r s z → RelatedEntries r es fs → names_text s es ≡ names_text z fs }
    ensures values { (r : Renaming) (s z : List Cell) (es fs : List Entry) → IsOneToOne r → RelatedCells r s z → RelatedEntries r es fs → AllZip (Related r) (flat_values s es) (flat_values z fs) }
    ensures flat { (r : Renaming) (s z : List Cell) (e f : Entry) → IsOneToOne r → RelatedCells r s z → RelatedEntry r e f → RelatedNamed r (shown_flat s e) (shown_flat z f) }
    ensures raw { (r : Renaming) (s z : List Cell) (e f : Entry) → IsOneToOne r → RelatedCells r s z → RelatedEntry r e f → RelatedNamed r (shown_raw s e) (shown_raw z f) }
{}
