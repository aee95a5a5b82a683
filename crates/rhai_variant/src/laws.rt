//! Laws of reading and writing values as a type, each the contract of a function with an empty
//! body.
ghost use Rattle.std.specs.Prelude.{◌≡◌, true, false, Some, None, is_some};
ghost use Rattle.rhai_value.specs.declared.value.type_id.TypeId.{TypeId};
ghost use Rattle.rhai_value.specs.declared.value.type_id.TypeId.TheVariants as type_id;
ghost use Rattle.rhai_value.specs.Relation.{Renaming, Related, Respect, Alike};
ghost use Rattle.rhai_value.specs.Tree.{Tree, cell_of};
ghost use Rattle.rhai_value.specs.Types.{is_type, tree_type};
ghost use Rattle.rhai_variant.specs.Reads.{held_type, read, viewed, written_as};

use crate::variant::Variant;

/// Any value is read as a `Dynamic`, and is itself; another type is read exactly from the values of
/// the type, and a `String` from a text. A type other than `String` can borrow what it reads, and
/// no value has a `String`.
#[tactic(auto, using(crate::proofs::Readings::read_by_type, crate::proofs::Readings::viewed_is_read))]
pub fn what_is_read()
    ensures dynamic { (t : Tree) → read type_id.Dynamic t ≡ Some t }
    ensures typed { (k : TypeId) (t : Tree) → is_type k type_id.Dynamic ≡ false → is_some (read k t) ≡ is_type (held_type k) (tree_type t) }
    ensures string { (t : Tree) → viewed type_id.String t ≡ None }
    ensures viewed { (k : TypeId) (t : Tree) → is_type k type_id.String ≡ false → viewed k t ≡ read k t }
{}

/// A holder is read and borrowed only as a `Dynamic`.
#[tactic(auto, using(crate::proofs::Readings::no_holder_read, crate::proofs::Readings::no_holder_viewed))]
pub fn holders_are_read_as_dynamic()
    ensures read { (k : TypeId) (t : Tree) → is_type k type_id.Dynamic ≡ false → is_type k type_id.Shared ≡ false → is_some (cell_of t) ≡ true → read k t ≡ None }
    ensures viewed { (k : TypeId) (t : Tree) → is_type k type_id.Dynamic ≡ false → is_type k type_id.Shared ≡ false → is_some (cell_of t) ≡ true → viewed k t ≡ None }
{}

/// A value made from a Rust value is of its type, whatever implements `Variant` except `Dynamic`: a
/// text for `String`, and otherwise a value of `KIND`.
pub fn what_is_made<T: Variant>()
    ensures { (x : T) → is_type T.KIND type_id.Dynamic ≡ false → is_type (held_type T.KIND) (tree_type (T.tree x)) ≡ true }
{}

/// Reads and borrows of related values are related, or neither exists, and writes there leave
/// related values: nothing depends on cell numbers.
#[tactic(auto, using(crate::proofs::SameReadings::same_read, crate::proofs::SameReadings::same_viewed, crate::proofs::SameReadings::same_written_as))]
pub fn readings_are_renamed()
    ensures read { (r : Renaming) (k : TypeId) (t u : Tree) → Related r t u → Alike (Related r) (read k t) (read k u) }
    ensures viewed { (r : Renaming) (k : TypeId) (t u : Tree) → Related r t u → Alike (Related r) (viewed k t) (viewed k u) }
    ensures written { (r : Renaming) (k : TypeId) (v w : Tree) → Related r v w → Respect r (written_as k v) (written_as k w) }
{}
