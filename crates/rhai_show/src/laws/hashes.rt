//! Laws of plain values and of hash bytes, each the contract of a function with an empty body.
ghost use Rattle.std.specs.Prelude.{◌≡◌, ◌↔◌, ◌∷◌, [], ℕ, ℤ, List, Some, map};
ghost use Rattle.rhai_value.specs.declared.value.access_mode.AccessMode.{AccessMode};
ghost use Rattle.rhai_value.specs.declared.cells.store.Cell.{Cell};
ghost use Rattle.rhai_value.specs.Store.{at};
ghost use Rattle.rhai_value.specs.Tree.{Tree, Content, node, holder};
ghost use Rattle.rhai_value.specs.Walk.{visit, visit_map, entered};
ghost use Rattle.rhai_value.specs.Relation.{Renaming, Related, IsOneToOne, RelatedCells, RelatedPaths};
ghost use Rattle.rhai_show.specs.Bare.{bare, bare_cell};
ghost use Rattle.rhai_show.specs.Plain.{Plain, plain_of, plain};
ghost use Rattle.rhai_show.specs.HashBytes.{plain_bytes};
ghost use Rattle.rhai_show.specs.InRange.{IsInRange, IsHashed};

/// The plain value of a value, by its parts; the store's length isn't mentioned.
#[tactic(auto, using(crate::proofs::Plains::plain_opens))]
pub fn plain_opens()
    ensures { (s : List Cell) (path : List ℕ) (t : Tree)
        → plain s path t ≡ plain_of path (λ c. visit_map (plain s (c ∷ path)) (visit s path c)) t }
{}

/// The plain value of a value doesn't depend on cell numbers: with no open cells, and with open
/// cells that are paired.
#[tactic(auto, using(crate::proofs::SamePlain::same_plain, crate::proofs::SamePlain::same_plain_from))]
pub fn plain_is_renamed()
    ensures whole { (r : Renaming) (s z : List Cell) (t u : Tree)
        → IsOneToOne r → RelatedCells r s z → Related r t u → plain s [] t ≡ plain z [] u }
    ensures opened { (r : Renaming) (s z : List Cell) (path road : List ℕ) (t u : Tree)
        → IsOneToOne r → RelatedCells r s z → RelatedPaths r path road → Related r t u → plain s path t ≡ plain z road u }
{}

/// The plain value of a value is composed of those of its parts; the part of a holder is the
/// content of its cell. No cell is open there, so that a part has the same plain value wherever it
/// is.
#[tactic(auto, using(crate::proofs::Unfolded::plain_parts))]
pub fn plain_is_made_of_parts()
    ensures { (s : List Cell) (t : Tree) → plain s [] t ≡ plain_of [] (λ c. visit_map (plain s []) (visit s [] c)) t }
{}

/// Tags, modes and sharing have no effect. Setting tag 0 and mode ReadWrite at every depth, in all
/// cells too, doesn't change the plain value; and a holder whose cell can be read has the plain
/// value of its content.
#[tactic(auto, using(crate::proofs::Bares::plain_bare_all, crate::proofs::Unfolded::plain_unshared, crate::proofs::Plains::plain_bare, crate::proofs::Plains::plain_shared))]
pub fn plain_values_are_bare()
    ensures deep { (s : List Cell) (path : List ℕ) (t : Tree) → plain (map bare_cell s) path (bare t) ≡ plain s path t }
    ensures unshared { (s : List Cell) (c : ℕ) (g : ℤ) (m : AccessMode) (t : Tree) → at s c ≡ Some t → plain s [] (node (holder c) g m) ≡ plain s [] t }
    ensures bare { (s : List Cell) (path : List ℕ) (c : Content) (g h : ℤ) (m n : AccessMode)
        → plain s path (node c g m) ≡ plain s path (node c h n) }
    ensures shared { (s : List Cell) (path : List ℕ) (c : ℕ) (g : ℤ) (m : AccessMode) (t : Tree)
        → visit s path c ≡ entered t → plain s path (node (holder c) g m) ≡ plain s (c ∷ path) t }
{}

/// Plain values whose numbers are in the ranges of their types, and whose lengths are below 2^64,
/// have equal hash bytes exactly if they are equal.
#[tactic(auto, using(crate::proofs::Distinct::distinct_bytes))]
pub fn hash_bytes_tell_plain_values_apart()
    ensures { (p q : Plain) → IsInRange p → IsInRange q → (plain_bytes p ≡ plain_bytes q) ↔ (p ≡ q) }
{}

/// Two values for which `hashed` returned bytes have equal bytes exactly if their plain values are
/// equal, whichever stores they are in: no bounds on the values are required, since `hashed`
/// ensures that what it read is in range.
pub fn hash_bytes_tell_values_apart()
    ensures { (s z : List Cell) (t u : Tree) (a b : List ℕ) → IsHashed s t a → IsHashed z u b → (a ≡ b) ↔ (plain s [] t ≡ plain z [] u) }
{}
