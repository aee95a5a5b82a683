//! Laws of the operators, each the contract of a function with an empty body.
ghost use Rattle.std.specs.Prelude.{◌≡◌, ℕ, ℤ, Bool, true, false, [], ◌∷◌, Err, List, Some, option_map, IsTrue};
ghost use Rattle.rhai_text.specs.Error.{is_memory};
ghost use Rattle.rhai_text.specs.declared.error.EvalAltResult.{EvalAltResult};
ghost use Rattle.rhai_text.specs.declared.limits.Limits.{Limits};
ghost use Rattle.rhai_text.specs.declared.token.Token.{Token};
ghost use Rattle.rhai_value.specs.declared.value.access_mode.AccessMode.{AccessMode};
ghost use Rattle.rhai_value.specs.declared.cells.store.Cell.{Cell};
ghost use Rattle.rhai_value.specs.End.{first};
ghost use Rattle.rhai_value.specs.Relation.{Renaming, Related, IsOneToOne, RelatedCells};
ghost use Rattle.rhai_value.specs.Store.{content_at};
ghost use Rattle.rhai_value.specs.Tree.{Tree, node, leaf, char as character, text, bool as a_bool, fresh, content_of, tag_of, mode_of};
ghost use Rattle.std.specs.declared.cmp.Ordering.{Ordering};
ghost use Rattle.rhai_ops.specs.declared.builtin.FnBuiltin.{FnBuiltin as Row};
ghost use Rattle.rhai_ops.specs.declared.builtin.FnBuiltin.TheVariants as row;
ghost use Rattle.rhai_ops.specs.AssignTable.{assign_row};
ghost use Rattle.rhai_ops.specs.Outcome.{IsOutcome, IsSuited, Outcome, RelatedOutcomes, answers, is_answer, result_of};
ghost use Rattle.rhai_ops.specs.Results.{MayWant, Suits, outcome};
ghost use Rattle.rhai_ops.specs.Table.{row_of};
ghost use Rattle.rhai_ops.specs.Tokens.{without_assign};
ghost use Rattle.rhai_ops.specs.Numbers.{compared};
ghost use Rattle.rhai_ops.specs.Order.{row_order};
ghost use Rattle.rhai_ops.specs.Effects.{Effect, first_left, operator, second_left, store_left, takes_nothing, effect, writes};

/// The row found for two operands may be called on them. That of an assignment may also be called
/// on a value whose first content it was found for.
#[tactic(auto, using(crate::proofs::Suited::row_suits, crate::proofs::Suited::assigned_suits, crate::proofs::Suited::place_suits))]
pub fn rows_suit()
    ensures operator { (t : Token) (s : List Cell) (x y : Tree) (b : Row) → row_of t s x y ≡ Some b → Suits b s x y }
    ensures assignment { (t : Token) (s : List Cell) (x y : Tree) (b : Row) → assign_row t x y ≡ Some b → Suits b s x y }
    ensures place { (t : Token) (s : List Cell) (x v y : Tree) (b : Row) → first s x ≡ Some v → assign_row t v y ≡ Some b → Suits b s x y }
{}

/// The rows of operators only return a result; the rows of assignments write.
#[tactic(auto, using(crate::proofs::Roles::operators, crate::proofs::Roles::assignments))]
pub fn operators_write_nothing()
    ensures operator { (t : Token) (s : List Cell) (x y : Tree) (b : Row) → row_of t s x y ≡ Some b → effect b ≡ operator }
    ensures assignment { (t : Token) (x y : Tree) (b : Row) → assign_row t x y ≡ Some b → IsTrue (writes (effect b)) }
{}

/// A row found for two operands gives an error, or a value that isn't a constant.
#[tactic(auto, using(crate::proofs::Found::found_answers, crate::proofs::Found::assigned_answers, crate::proofs::Found::place_answers))]
pub fn found_rows_answer()
    ensures operator { (t : Token) (l : Limits) (s : List Cell) (x y : Tree) (b : Row) → row_of t s x y ≡ Some b → IsSuited (outcome b l s x y) }
    ensures assignment { (t : Token) (l : Limits) (s : List Cell) (x y : Tree) (b : Row) → assign_row t x y ≡ Some b → IsSuited (outcome b l s x y) }
    ensures place { (t : Token) (l : Limits) (s : List Cell) (x v y : Tree) (b : Row) → first s x ≡ Some v → assign_row t v y ≡ Some b → IsSuited (outcome b l s x y) }
{}

/// A call fails as its row says, or because an allocation fails, the latter only if its row gives a
/// value.
#[tactic(auto, using(crate::proofs::Effects::refused_result, crate::proofs::Effects::refused_memory))]
pub fn calls_fail_as_rows_say()
    ensures refusal { (b : Row) (l : Limits) (s : List Cell) (x y : Tree) (e : EvalAltResult) → IsOutcome (MayWant b x y) (Err e) (outcome b l s x y)
        → is_memory e ≡ false → result_of (outcome b l s x y) ≡ Some (Err e) }
    ensures memory { (b : Row) (l : Limits) (s : List Cell) (x y : Tree) (e : EvalAltResult) → IsOutcome (MayWant b x y) (Err e) (outcome b l s x y)
        → is_memory e ≡ true → is_answer (outcome b l s x y) ≡ true }
{}

/// An operator whose row orders two operands gives its result by that order. (`compare_values` is
/// the order by the row of `<`)
pub fn comparisons_go_by_the_order()
    ensures { (t : Token) (l : Limits) (s : List Cell) (x y : Tree) (b : Row) (o : Ordering) (c : Bool) → row_of t s x y ≡ Some b
        → row_order b s x y ≡ Some o → compared t o ≡ Some c → outcome b l s x y ≡ answers (fresh (a_bool c)) }
{}

/// A call keeps the tag and the mode of everything that it writes: of the first operand, and of
/// each cell's content.
#[tactic(auto, using(crate::proofs::Labels::tag_stays, crate::proofs::Labels::mode_stays, crate::proofs::Labels::cell_tag_stays, crate::proofs::Labels::cell_mode_stays))]
pub fn assignments_keep_tag_and_mode()
    ensures tag { (w : Effect) (o : Outcome) (s : List Cell) (x : Tree) → tag_of (first_left w o s x) ≡ tag_of x }
    ensures mode { (w : Effect) (o : Outcome) (s : List Cell) (x : Tree) → mode_of (first_left w o s x) ≡ mode_of x }
    ensures cell_tag { (w : Effect) (o : Outcome) (s : List Cell) (x : Tree) (c : ℕ)
        → option_map tag_of (content_at (store_left w o s x) c) ≡ option_map tag_of (content_at s c) }
    ensures cell_mode { (w : Effect) (o : Outcome) (s : List Cell) (x : Tree) (c : ℕ)
        → option_map mode_of (content_at (store_left w o s x) c) ≡ option_map mode_of (content_at s c) }
{}

/// The row of an operator or an assignment, its result, and the state after its call don't depend
/// on cell numbers.
#[tactic(auto, using(crate::proofs::SameRows::same_row, crate::proofs::SameRows::same_assign_row, crate::proofs::SameRows::same_outcome, crate::proofs::SameEffects::same_first_left, crate::proofs::SameEffects::same_second_left, crate::proofs::SameEffects::same_store_left))]
pub fn rows_are_renamed()
    ensures row { (r : Renaming) (s z : List Cell) (k : Token) (t u v w : Tree)
        → IsOneToOne r → RelatedCells r s z → Related r t u → Related r v w → row_of k s t v ≡ row_of k z u w }
    ensures assignment { (r : Renaming) (k : Token) (t u v w : Tree) → Related r t u → Related r v w → assign_row k t v ≡ assign_row k u w }
    ensures outcome { (r : Renaming) (s z : List Cell) (b : Row) (l : Limits) (t u v w : Tree)
        → IsOneToOne r → RelatedCells r s z → Related r t u → Related r v w
        → RelatedOutcomes r (outcome b l s t v) (outcome b l z u w) }
    ensures first { (r : Renaming) (s z : List Cell) (w : Effect) (o p : Outcome) (t u : Tree)
        → IsOneToOne r → RelatedCells r s z → RelatedOutcomes r o p → Related r t u → Related r (first_left w o s t) (first_left w p z u) }
    ensures second { (r : Renaming) (w : Effect) (o p : Outcome) (t u : Tree)
        → RelatedOutcomes r o p → Related r t u → Related r (second_left w o t) (second_left w p u) }
    ensures store { (r : Renaming) (s z : List Cell) (w : Effect) (o p : Outcome) (t u : Tree)
        → IsOneToOne r → RelatedCells r s z → RelatedOutcomes r o p → Related r t u → RelatedCells r (store_left w o s t) (store_left w p z u) }
{}

/// A character compared with a text is ordered as a text of its own, on either side, and two
/// characters as their texts.
#[tactic(auto, using(crate::proofs::Characters::first_as_text, crate::proofs::Characters::second_as_text, crate::proofs::Characters::both_as_texts))]
pub fn characters_compare_as_texts()
    ensures first { (t : Token) (l : Limits) (s : List Cell) (c : ℕ) (g : ℤ) (m : AccessMode) (y : Tree)
        → outcome (row.CharTextCompare t) l s (node (leaf (character c)) g m) y ≡ outcome (row.TextCompare t) l s (node (leaf (text (c ∷ []))) g m) y }
    ensures second { (t : Token) (l : Limits) (s : List Cell) (x : Tree) (d : ℕ) (g : ℤ) (m : AccessMode)
        → outcome (row.TextCharCompare t) l s x (node (leaf (character d)) g m) ≡ outcome (row.TextCompare t) l s x (node (leaf (text (d ∷ []))) g m) }
    ensures both { (t : Token) (l : Limits) (s : List Cell) (c d : ℕ) (g h : ℤ) (m n : AccessMode)
        → outcome (row.CharCompare t) l s (node (leaf (character c)) g m) (node (leaf (character d)) h n)
        ≡ outcome (row.TextCompare t) l s (node (leaf (text (c ∷ []))) g m) (node (leaf (text (d ∷ []))) h n) }
{}

/// If an operator and its assignment both have a row for two operands and both succeed, the first
/// operand then has the content of the operator's result. A character to which an empty text is
/// appended is unchanged.
#[tactic(auto, using(crate::proofs::Agree::stays))]
pub fn assignments_agree()
    ensures content { (t : Token) (l : Limits) (s : List Cell) (x y : Tree) (b a : Row) (v w : Tree)
        → row_of (without_assign t) s x y ≡ Some b → assign_row t x y ≡ Some a
        → outcome b l s x y ≡ answers v → outcome a l s x y ≡ answers w → takes_nothing x y ≡ false
        → content_of (first_left (effect a) (outcome a l s x y) s x) ≡ content_of v }
    ensures character { (l : Limits) (s : List Cell) (x y : Tree) → takes_nothing x y ≡ true
        → first_left (effect row.CharTextAssign) (outcome row.CharTextAssign l s x y) s x ≡ x }
{}
