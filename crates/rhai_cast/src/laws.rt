//! Laws of casts, each the contract of a function with an empty body.
ghost use Rattle.std.specs.Prelude.{◌≡◌, true, false, List, [], Some, None, is_some};
ghost use Rattle.rhai_value.specs.End.{End, end, held_in, flat, flattened, end_type};
ghost use Rattle.rhai_value.specs.Relation.{Renaming, Related, Alike, IsOneToOne, RelatedCells};
ghost use Rattle.rhai_value.specs.Tree.{Tree, cell_of};
ghost use Rattle.rhai_value.specs.Types.{is_type, tree_type};
ghost use Rattle.rhai_value.specs.declared.cells.store.Cell.{Cell};
ghost use Rattle.rhai_value.specs.declared.value.type_id.TypeId.TheVariants as type_id;
ghost use Rattle.rhai_value.specs.declared.value.type_id.TypeId.{TypeId};
ghost use Rattle.rhai_variant.specs.Reads.{read};
ghost use Rattle.rhai_cast.specs.Casts.{is_of, is_castable, locked};

/// A flattened value is of the held type, and flattening it again changes nothing.
#[tactic(auto, using(crate::proofs::FlatValues::flat_type, crate::proofs::FlatValues::flattened_type, crate::proofs::FlatValues::flat_stays))]
pub fn what_is_flat()
    ensures copied { (s : List Cell) (t : Tree) → tree_type (flat s t) ≡ end_type (end s [] t) }
    ensures moved { (s : List Cell) (t : Tree) → tree_type (flattened s t) ≡ end_type (end s [] t) }
    ensures stays { (s : List Cell) (t : Tree) → flattened s (flat s t) ≡ flat s t }
{}

/// No value is a `Dynamic`, and no holder is a `String`.
#[tactic(auto, using(crate::proofs::Questions::no_dynamic, crate::proofs::Questions::no_string))]
pub fn what_no_value_is()
    ensures dynamic { (t : Tree) (e : End) → is_of type_id.Dynamic t e ≡ false }
    ensures string { (t : Tree) (e : End) → is_some (cell_of t) ≡ true → is_of type_id.String t e ≡ false }
{}

/// If a value can be cast, casting succeeds on the flattened value, by copy as by move; otherwise
/// both fail.
#[tactic(auto, using(crate::proofs::Castable::moved_castable, crate::proofs::Castable::copied_castable))]
pub fn what_is_castable()
    ensures moved { (k : TypeId) (s : List Cell) (t : Tree) → is_some (read k (flattened s t)) ≡ is_castable k (end s [] t) }
    ensures copied { (k : TypeId) (s : List Cell) (t : Tree) → is_some (read k (flat s t)) ≡ is_castable k (end s [] t) }
{}

/// If a chain is stuck or closed, the value is of no type, and is cast or borrowed only as a
/// `Dynamic`; every value is cast as a `Dynamic`.
#[tactic(auto, using(crate::proofs::Questions::not_of, crate::proofs::Questions::not_castable, crate::proofs::Questions::not_locked))]
pub fn what_cannot_be_looked_into()
    ensures is { (k : TypeId) (s : List Cell) (t : Tree) → is_type k type_id.Shared ≡ false → held_in (end s [] t) ≡ None → is_of k t (end s [] t) ≡ false }
    ensures cast { (k : TypeId) (s : List Cell) (t : Tree) → is_type k type_id.Shared ≡ false → is_type k type_id.Dynamic ≡ false → held_in (end s [] t) ≡ None → is_castable k (end s [] t) ≡ false }
    ensures lent { (k : TypeId) (s : List Cell) (t : Tree) → is_type k type_id.Dynamic ≡ false → held_in (end s [] t) ≡ None → locked k s t ≡ None }
    ensures dynamic { (e : End) → is_castable type_id.Dynamic e ≡ true }
{}

/// Casts of related values are related, or both fail; type tests give equal results, and borrowed
/// contents are related: nothing depends on cell numbers. Writes through a lock are covered by
/// `writes_are_renamed`, `first_writes_are_renamed` of `rhai_value` and `readings_are_renamed` of
/// `rhai_variant`.
#[tactic(auto, using(crate::proofs::SameCasts::same_moved, crate::proofs::SameCasts::same_copied, crate::proofs::SameCasts::same_is, crate::proofs::SameCasts::same_castable, crate::proofs::SameCasts::same_locked))]
pub fn casts_are_renamed()
    ensures moved { (r : Renaming) (k : TypeId) (s z : List Cell) (t u : Tree) → IsOneToOne r → RelatedCells r s z → Related r t u
        → Alike (Related r) (read k (flattened s t)) (read k (flattened z u)) }
    ensures copied { (r : Renaming) (k : TypeId) (s z : List Cell) (t u : Tree) → IsOneToOne r → RelatedCells r s z → Related r t u
        → Alike (Related r) (read k (flat s t)) (read k (flat z u)) }
    ensures is { (r : Renaming) (k : TypeId) (s z : List Cell) (t u : Tree) → IsOneToOne r → RelatedCells r s z → Related r t u
        → is_of k t (end s [] t) ≡ is_of k u (end z [] u) }
    ensures castable { (r : Renaming) (k : TypeId) (s z : List Cell) (t u : Tree) → IsOneToOne r → RelatedCells r s z → Related r t u
        → is_castable k (end s [] t) ≡ is_castable k (end z [] u) }
    ensures lent { (r : Renaming) (k : TypeId) (s z : List Cell) (t u : Tree) → IsOneToOne r → RelatedCells r s z → Related r t u
        → Alike (Related r) (locked k s t) (locked k z u) }
{}
