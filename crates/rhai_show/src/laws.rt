//! Laws of printed text, each the contract of a function with an empty body.
ghost use Rattle.std.specs.Prelude.{◌≡◌, ◌∷◌, [], ◌++◌, ℕ, ℤ, true, false, List, Some, None, codes};
ghost use Rattle.rhai_value.specs.declared.value.access_mode.AccessMode.{AccessMode};
ghost use Rattle.rhai_value.specs.declared.cells.store.Cell.{Cell};
ghost use Rattle.rhai_value.specs.Rows.{Rows, trees_of, fields_of};
ghost use Rattle.rhai_value.specs.Store.{at};
ghost use Rattle.rhai_value.specs.Tree.{Tree, copy, node, Leaf, leaf, branch, fields, holder, array, function};
ghost use Rattle.rhai_value.specs.Walk.{is_open, visit, visit_map};
ghost use Rattle.rhai_value.specs.Relation.{Renaming, Related, IsOneToOne, RelatedCells, RelatedPaths};
ghost use Rattle.rhai_show.specs.declared.form.Form.{Form};
ghost use Rattle.rhai_show.specs.declared.form.Form.TheVariants.{Debug};
ghost use Rattle.rhai_show.specs.Leaves.{in_debug, leaf_printed};
ghost use Rattle.rhai_show.specs.Listed.{row_printed};
ghost use Rattle.rhai_show.specs.Text.{joined, further, item_form, content_form, name_printed, printed_of, printed};

pub mod hashes;

/// The text of a value by its parts, in all forms; the store's length isn't mentioned.
#[tactic(auto, using(crate::proofs::Printed::printed_opens))]
pub fn printed_opens()
    ensures { (s : List Cell) (path : List ℕ) (t : Tree)
        → printed s path t ≡ printed_of path (λ c. visit_map (printed s (c ∷ path)) (visit s path c)) t }
{}

/// The text of a value, kind by kind. Tags and modes have no effect.
#[tactic(auto, using(crate::proofs::Printed::leaf_text, crate::proofs::Printed::array_text, crate::proofs::Printed::map_text, crate::proofs::Printed::function_text))]
pub fn printed_by_kind()
    ensures leaf { (s : List Cell) (path : List ℕ) (form : Form) (g : ℤ) (m : AccessMode) (l : Leaf)
        → printed s path (node (leaf l) g m) form ≡ leaf_printed form l }
    ensures array { (s : List Cell) (path : List ℕ) (form : Form) (g : ℤ) (m : AccessMode) (items : List Tree)
        → printed s path (node (branch array (trees_of items)) g m) form
        ≡ codes "[" ++ joined (λ u. printed s path u (item_form form)) items ++ codes "]" }
    ensures map { (s : List Cell) (path : List ℕ) (form : Form) (g : ℤ) (m : AccessMode) (rows : Rows)
        → printed s path (node (fields (fields_of rows)) g m) form
        ≡ codes "#{" ++ joined (row_printed (item_form form) (λ u. printed s path u (item_form form))) rows ++ codes "}" }
    ensures function { (s : List Cell) (path : List ℕ) (form : Form) (g : ℤ) (m : AccessMode) (name : List ℕ) (curry : List Tree)
        → printed s path (node (branch (function name) (trees_of curry)) g m) form
        ≡ codes "Fn(" ++ name_printed form name ++ in_debug form (further (λ u. printed s path u Debug) curry) [] ++ codes ")" }
{}

/// The text of a holder: its cell's content followed by ` (shared)`; only `<shared>` if the cell is
/// marked or foreign, or is already open.
#[tactic(auto, using(crate::proofs::Printed::opened_text, crate::proofs::Printed::barred_text, crate::proofs::Printed::revisited_text))]
pub fn printed_of_holders()
    ensures opened { (s : List Cell) (path : List ℕ) (form : Form) (g : ℤ) (m : AccessMode) (c : ℕ) (u : Tree)
        → at s c ≡ Some u → is_open c path ≡ false
        → printed s path (node (holder c) g m) form ≡ printed s (c ∷ path) u (content_form form) ++ codes " (shared)" }
    ensures barred { (s : List Cell) (path : List ℕ) (form : Form) (g : ℤ) (m : AccessMode) (c : ℕ)
        → at s c ≡ None → printed s path (node (holder c) g m) form ≡ codes "<shared>" }
    ensures revisited { (s : List Cell) (path : List ℕ) (form : Form) (g : ℤ) (m : AccessMode) (c : ℕ) (u : Tree)
        → at s c ≡ Some u → is_open c path ≡ true → printed s path (node (holder c) g m) form ≡ codes "<shared>" }
{}

/// A copy prints as the value does: modes have no effect.
#[tactic(auto, using(crate::proofs::Copies::copy_printed))]
pub fn copies_print_alike()
    ensures { (s : List Cell) (path : List ℕ) (t : Tree) → printed s path (copy t) ≡ printed s path t }
{}

/// The text of a value doesn't depend on cell numbers: with no open cells, and with open cells that
/// are paired.
#[tactic(auto, using(crate::proofs::SamePrinted::same_printed, crate::proofs::SamePrinted::same_printed_from))]
pub fn printed_is_renamed()
    ensures whole { (r : Renaming) (s z : List Cell) (t u : Tree)
        → IsOneToOne r → RelatedCells r s z → Related r t u → printed s [] t ≡ printed z [] u }
    ensures opened { (r : Renaming) (s z : List Cell) (path road : List ℕ) (t u : Tree)
        → IsOneToOne r → RelatedCells r s z → RelatedPaths r path road → Related r t u → printed s path t ≡ printed z road u }
{}
