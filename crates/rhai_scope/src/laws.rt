//! Laws of the scope, each the contract of a function with an empty body.
ghost use Rattle.std.specs.Prelude.{◌≡◌, ◌≢◌, ◌∷◌, ◌++◌, ℕ, List, length, map, nat_eq, slice_get, take, Some, None, option_map};
ghost use Rattle.std.specs.Cmp.Lexicographic.{pointwise};
ghost use Rattle.std.specs.List.{AllByRecursion, IsDistinct};
ghost use Rattle.rhai_value.specs.Copied.{SameButModes};
ghost use Rattle.rhai_value.specs.Tree.{Tree};
ghost use Rattle.rhai_value.specs.declared.value.access_mode.AccessMode.{AccessMode};
ghost use Rattle.rhai_scope.specs.Entry.{Entry, copied_entry, is_constant_entry, with_value};
ghost use Rattle.rhai_scope.specs.Lookup.{changed_at, last_position, last_entry, value_at, visible};
ghost use Rattle.rhai_scope.specs.Pushes.{all_pushed};

use crate::scope::MIN_SCOPE_ENTRIES;

pub mod renamed;

/// After pushes only, `rewind` to the former number of entries restores entries and aliases.
#[tactic(auto, using(crate::proofs::Rewound::rewound))]
pub fn rewind_undoes_pushes()
    ensures { (ps : List (AccessMode × List ℕ × Tree)) (es : List Entry) → take (length es) (all_pushed ps es) ≡ es }
{}

/// A name means its last entry, or nothing if no entry has it.
#[tactic(auto, using(crate::proofs::Found::found, crate::proofs::Found::found_entry, crate::proofs::Found::missing))]
pub fn a_name_means_its_last_entry()
    ensures position { (name : List ℕ) (before after : List Entry) (e : Entry) → e.name ≡ name → AllByRecursion (λ (x : Entry). x.name ≢ name) after
        → last_position name (before ++ e ∷ after) ≡ Some (length before) }
    ensures entry { (name : List ℕ) (before after : List Entry) (e : Entry) → e.name ≡ name → AllByRecursion (λ (x : Entry). x.name ≢ name) after
        → last_entry name (before ++ e ∷ after) ≡ Some e }
    ensures missing { (name : List ℕ) (es : List Entry) → AllByRecursion (λ (x : Entry). x.name ≢ name) es → last_position name es ≡ None }
{}

/// `clone_visible` has each name once, and each name means the copy of the entry that it meant.
#[tactic(auto, using(crate::proofs::Once::once, crate::proofs::Found::visible_means))]
pub fn the_visible_copy_keeps_what_names_mean()
    ensures once { (es : List Entry) → IsDistinct (pointwise nat_eq) (map (λ (e : Entry). e.name) (visible es)) }
    ensures means { (name : List ℕ) (es : List Entry) → last_entry name (map copied_entry (visible es)) ≡ option_map copied_entry (last_entry name es) }
{}

/// The copy of an entry keeps its name, its aliases, the content and tags of its value, and whether
/// it is a constant.
#[tactic(auto, using(crate::proofs::Kept::kept_value, crate::proofs::Kept::kept_constant))]
pub fn copies_keep_entries()
    ensures name { (e : Entry) → (copied_entry e).name ≡ e.name }
    ensures aliases { (e : Entry) → (copied_entry e).aliases ≡ e.aliases }
    ensures value { (e : Entry) → SameButModes (copied_entry e).value e.value }
    ensures constant { (e : Entry) → is_constant_entry (copied_entry e) ≡ is_constant_entry e }
{}

/// A write changes one position only: writing the old value again changes nothing; the number of
/// entries is unchanged; the written value is found there; and each other entry is unchanged.
#[tactic(auto, using(crate::proofs::MovedOut::kept_there, crate::proofs::MovedOut::length_changed, crate::proofs::MovedOut::value_changed, crate::proofs::MovedOut::others_stay))]
pub fn positions_are_written_alone()
    ensures same { (t : Tree) (es : List Entry) (i : ℕ) → value_at es (Some i) ≡ Some t → changed_at (with_value t) es i ≡ es }
    ensures length { (f : Entry → Entry) (es : List Entry) (i : ℕ) → length (changed_at f es i) ≡ length es }
    ensures there { (t u : Tree) (es : List Entry) (i : ℕ) → value_at es (Some i) ≡ Some t → value_at (changed_at (with_value u) es i) (Some i) ≡ Some u }
    ensures elsewhere { (f : Entry → Entry) (es : List Entry) (i j : ℕ) → (j ≡ i → ⊥) → slice_get (changed_at f es i) j ≡ slice_get es j }
{}

/// The first allocation of a scope has room for eight entries.
pub fn first_room_is_for_eight()
    ensures { MIN_SCOPE_ENTRIES ≡ 8 }
{}
