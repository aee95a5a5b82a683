//! Laws of the order in which cells are first reached.
ghost use Rattle.std.specs.Prelude.{◌≡◌, ◌<◌, ◌↔◌, ℕ, List, length, nat_eq};
ghost use Rattle.std.specs.List.{Contains, IsDistinct};
ghost use Rattle.rhai_value.specs.declared.cells.store.Cell.{Cell};
ghost use Rattle.rhai_value.specs.Order.{AreInOrder, firsts};
ghost use Rattle.rhai_value.specs.Reach.{IsReached};
ghost use Rattle.rhai_value.specs.Relation.{Renaming, IsOneToOne, RelatedCells, RelatedPaths};

/// The cells that paired roots reach in related stores are paired one by one, in the order in which
/// they are first reached.
pub fn orders_are_renamed()
    ensures { (r : Renaming) (s z : List Cell) (ms ns c d : List ℕ) → IsOneToOne r → RelatedCells r s z → RelatedPaths r ms ns
        → AreInOrder s ms c → AreInOrder z ns d → RelatedPaths r c d }
{}

/// The first occurrences are the numbers of the list below the bound, each once.
#[tactic(auto, using(crate::proofs::Firsts::firsts_distinct))]
pub fn first_occurrences_are_distinct()
    ensures distinct { (n : ℕ) (ms : List ℕ) → IsDistinct nat_eq (firsts n ms) }
    ensures each { (n : ℕ) (ms : List ℕ) (k : ℕ) → Contains (firsts n ms) k ↔ ((k < n) × Contains ms k) }
{}

/// Cells in this order are exactly the reachable ones, each once. There is one such order for each
/// list of roots.
pub fn orders_have_the_reachable_cells()
    ensures distinct { (s : List Cell) (roots c : List ℕ) → AreInOrder s roots c → IsDistinct nat_eq c }
    ensures each { (s : List Cell) (roots c : List ℕ) → AreInOrder s roots c → (n : ℕ) → Contains c n ↔ ((n < length s) × IsReached s roots n) }
    ensures exists { (s : List Cell) (roots : List ℕ) → (c : List ℕ) × AreInOrder s roots c }
    ensures one { (s : List Cell) (roots c d : List ℕ) → AreInOrder s roots c → AreInOrder s roots d → c ≡ d }
{}
