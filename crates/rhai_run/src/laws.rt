//! Laws of the machine: each is the contract of a function with an empty body.
ghost use Rattle.std.specs.Prelude.{◌≡◌, ℕ, ◌+◌, ◌<◌, ◌↔◌, Bool, nat_eq, List, [], ◌∷◌, ◌++◌, length, drop, map, reverse, Some, None, option_map, true, false, Result, Vec, Box};
ghost use Rattle.std.specs.declared.alloc.Global.{Global};
ghost use Rattle.std.specs.BTreeMap.{is_at};
ghost use Rattle.std.specs.List.{Contains, IsDistinct, zip};
ghost use Rattle.std.specs.Map.{lookup};
ghost use Rattle.std.specs.Str.{encode_utf8_all};
ghost use Rattle.rhai_value.specs.Rows.{bytes_cmp};
ghost use Rattle.rhai_run.specs.Made.{rows_with};
ghost use Rattle.rhai_text.specs.declared.limits.Limits.{Limits};
ghost use Rattle.rhai_value.specs.Tree.{Tree, copy};
ghost use Rattle.rhai_value.specs.Store.{added};
ghost use Rattle.rhai_value.specs.Relation.{Renaming, new_pairs};
ghost use Rattle.rhai_value.specs.Reach.{IsReached};
ghost use Rattle.rhai_value.specs.Scan.{SameVisits, scan};
ghost use Rattle.rhai_run.specs.declared.command.Command.{Command};
ghost use Rattle.rhai_run.specs.declared.command.Command.TheVariants as command;
ghost use Rattle.rhai_run.specs.declared.command.Literal.{Literal};
ghost use Rattle.rhai_run.specs.declared.command.Literal.TheVariants as literal;
ghost use Rattle.rhai_run.specs.declared.command.Place.TheVariants as place;
ghost use Rattle.rhai_run.specs.declared.eval.expr.Expr.{Expr};
ghost use Rattle.rhai_run.specs.declared.eval.expr.Expr.TheVariants as expr;
ghost use Rattle.rhai_text.specs.declared.token.Token.{Token};
ghost use Rattle.rhai_scope.specs.Entry.{Entry, is_constant_entry};
ghost use Rattle.rhai_scope.specs.Lookup.{last_entry};
ghost use Rattle.rhai_run.specs.Expressions.Bindings.{bindings};
ghost use Rattle.rhai_run.specs.Captures.{SharesEntry, entry_content};
ghost use Rattle.rhai_run.specs.Expressions.Programs.{all, capture, sequence, last_of, operate, program_of, refusal, set, commands_of};
ghost use Rattle.rhai_run.specs.State.{State, empty_state, with_store};
ghost use Rattle.std.specs.declared.alloc.AllocError.{AllocError};
ghost use Rattle.rhai_text.specs.declared.error.EvalAltResult.TheVariants.{ErrorMemory};
ghost use Rattle.rhai_run.specs.declared.answer.Answer.{Answer};
ghost use Rattle.rhai_run.specs.declared.answer.Answer.TheVariants.{Refused};
ghost use Rattle.rhai_run.specs.declared.answer.Refusal.{Refusal};
ghost use Rattle.rhai_run.specs.declared.answer.Refusal.TheVariants.{Fault, NotHashable};
ghost use Rattle.rhai_run.specs.Does.{Does};
ghost use Rattle.rhai_run.specs.declared.not_done.NotDone.{NotDone};
ghost use Rattle.rhai_run.specs.Step.{step};
ghost use Rattle.rhai_run.specs.Machine.{replies, state_after};
ghost use Rattle.rhai_run.specs.Stop.{StopsAfter};
ghost use Rattle.rhai_run.specs.Scanners.{visited};
ghost use Rattle.rhai_run.specs.Fits.{Fits};
ghost use Rattle.rhai_run.specs.Correspondence.{Corresponds, RunAlike};
ghost use Rattle.rhai_run.specs.KeptWorld.{Collects, KeepsAllReached, Normalizes, Reaches, kept, kept_pairs, roots};

/// The state of a new world fits.
pub fn empty_state_fits()
    ensures { (limits : Limits) → Fits (empty_state limits) }
{}

/// Each command maps a fitting state to a fitting state.
pub fn steps_fit()
    ensures { (w : State) (c : Command) → Fits w → Fits (step w c).after }
{}

/// A method of the state that executes a command's step maps a fitting state to a fitting state.
pub(crate) fn methods_fit()
    ensures { (done : Result Answer NotDone) (old new : State) (c : Command) → Fits old → Does done old new (step old c) → Fits new }
{}

/// A refused command leaves the state unchanged, and allocates only to hash a value that isn't
/// hashable; no refusal is due to a failed allocation.
pub fn refusals_change_nothing()
    ensures state { (w : State) (c : Command) (why : Refusal) → (step w c).reply ≡ Refused why → (step w c).after ≡ w }
    ensures named { (w : State) (c : Command) (e : AllocError) → (step w c).reply ≡ Refused (Fault (ErrorMemory e)) → ⊥ }
    ensures memory { (w : State) (c : Command) (why : Refusal) → (step w c).reply ≡ Refused why → (step w c).wants ≡ true → why ≡ NotHashable }
{}

/// A fitting state corresponds to itself, with each cell paired with itself.
pub fn states_correspond_to_themselves()
    ensures { (w : State) → Fits w → Corresponds (new_pairs 0 0 (length w.store)) w w }
{}

/// A state corresponds to the same state with one more cell, whatever its content: nothing reaches
/// that cell.
pub fn unreached_cells_are_not_seen()
    ensures { (w : State) (t : Tree) → Fits w → Fits (with_store w (added w.store t)) → Corresponds (new_pairs 0 0 (length w.store)) w (with_store w (added w.store t)) }
{}

/// A state corresponds to the result of removing unreachable cells and renumbering the others in
/// any order: each kept cell is paired with its new place.
pub fn kept_worlds_correspond()
    ensures { (w : State) (c : List ℕ) → Fits w → KeepsAllReached c w → Corresponds (kept_pairs c) w (kept w c) }
{}

/// A state corresponds to the same state with its cells created in another order: `c` has each of
/// its cells once.
pub fn reordered_worlds_correspond()
    ensures { (w : State) (c : List ℕ) → Fits w → IsDistinct nat_eq c → ((n : ℕ) → Contains c n ↔ (n < length w.store)) → Corresponds (kept_pairs c) w (kept w c) }
{}

/// The cells that a state reaches satisfy `KeepsAllReached`, and each list of cells that does
/// contains all of them.
pub fn reached_cells_are_kept()
    ensures kept { (w : State) → Fits w → (c : List ℕ) → Reaches w c → KeepsAllReached c w }
    ensures least { (w : State) (c d : List ℕ) (n : ℕ) → Reaches w c → KeepsAllReached d w → Contains c n → Contains d n }
{}

/// A collected world has no unreachable cell.
pub fn collected_worlds_are_reached()
    ensures { (w v : State) → Fits w → Collects w v → (n : ℕ) → n < length v.store → IsReached v.store (roots v) n }
{}

/// Collecting again changes nothing more.
pub fn collecting_again_changes_nothing()
    ensures { (w v u : State) → Fits w → Collects w v → Collects v u → u ≡ v }
{}

/// Runs over states that correspond give the same answers and end in states that correspond.
pub fn runs_are_alike()
    ensures { (r : Renaming) (w v : State) (commands : List Command) → Corresponds r w v → RunAlike r w v commands }
{}

/// No run can observe a collection: the answers are those of the world before.
pub fn collecting_is_not_seen()
    ensures { (w v : State) (h : Collects w v) (commands : List Command) → RunAlike (kept_pairs h.cells) w v commands }
{}

/// Correspondence is symmetric, and composes.
pub fn correspondence_is_an_equivalence()
    ensures symmetric { (r : Renaming) (w v : State) → Corresponds r w v → (q : Renaming) × Corresponds q v w }
    ensures composes { (r q : Renaming) (w x v : State) → Corresponds r w x → Corresponds q x v → (p : Renaming) × Corresponds p w v }
{}

/// Each fitting state has a normal form.
pub fn each_world_has_a_normal_form()
    ensures { (w : State) → Fits w → (x : State) × Normalizes w x }
{}

/// States that correspond, for whatever renaming, have the same normal form.
pub fn corresponding_worlds_have_one_normal_form()
    ensures { (r : Renaming) (w v x y : State) → Corresponds r w v → Normalizes w x → Normalizes v y → x ≡ y }
{}

/// States with the same normal form correspond.
pub fn worlds_with_one_normal_form_correspond()
    ensures { (w v x : State) → Normalizes w x → Normalizes v x → (r : Renaming) × Corresponds r w v }
{}

/// A normal form is its own normal form.
pub fn normal_forms_are_normal()
    ensures { (w x y : State) → Normalizes w x → Normalizes x y → y ≡ x }
{}

/// No run can observe that a state was brought to its normal form.
pub fn normalizing_is_not_seen()
    ensures { (w v : State) (h : Normalizes w v) (commands : List Command) → RunAlike (kept_pairs h.cells) w v commands }
{}

/// The result of a scan by a scanner doesn't depend on cell numbers; nor does its number of visits.
pub fn scanners_are_renamed()
    ensures visit { (r : Renaming) → SameVisits r visited }
    ensures scan { (r : Renaming) → SameVisits r (scan visited) }
{}

/// If states correspond, an expression stands for the same commands on both.
#[tactic(auto, using(crate::proofs::Expressions::ProgramsAlike::commands_alike))]
pub fn expressions_stand_alike()
    ensures { (r : Renaming) (w v : State) (e : Expr) → Corresponds r w v → commands_of w e ≡ commands_of v e }
{}

/// A map that a command makes has at each key, by its bytes, the last value given for it, and
/// nothing at any other key.
#[tactic(auto, using(crate::proofs::LastRows::last_found))]
pub fn maps_have_the_last_values()
    ensures { (keys : List (List ℕ)) (values : List Tree) (key : List ℕ)
        → lookup (is_at (bytes_cmp key)) (rows_with [] keys values) ≡ lookup (is_at (bytes_cmp key)) (reverse (zip (map encode_utf8_all keys) values)) }
{}

/// What each kind of expression does to a state: its parts are executed one after another, each on
/// the state that those before it left.
pub fn expressions_by_kind()
    ensures literal { (l : Literal) (w : State) → program_of (expr.Literal l) w ≡ all (command.Put l ∷ []) w }
    ensures variable { (x : List ℕ) (w : State) → program_of (expr.Var x) w ≡ all (command.Get x ∷ command.Flatten (length w.hand) ∷ []) w }
    ensures operator { (t : Token) (a b : Box Expr Global) (w : State) → program_of (expr.Op t a b) w ≡ sequence (program_of a.value ∷ program_of b.value ∷ all (operate t (length w.hand)) ∷ []) w }
    ensures array { (items : Vec Expr Global) (w : State)
        → program_of (expr.Array items) w ≡ sequence (sequence (map program_of items.items) ∷ all (command.MakeArray (length items.items) ∷ []) ∷ []) w }
    ensures variable_made { (x : List ℕ) (e : Box Expr Global) (w : State) → program_of (expr.Let x e) w ≡ sequence (program_of e.value ∷ all (command.Push x (length w.hand) ∷ []) ∷ []) w }
    ensures constant_made { (x : List ℕ) (e : Box Expr Global) (w : State) → program_of (expr.Const x e) w ≡ sequence (program_of e.value ∷ all (command.PushConstant x (length w.hand) ∷ []) ∷ []) w }
    ensures written { (x : List ℕ) (e : Box Expr Global) (w : State) → program_of (expr.Set x e) w ≡ sequence (program_of e.value ∷ set x (length w.hand) ∷ []) w }
    ensures updated { (t : Token) (x : List ℕ) (e : Box Expr Global) (w : State)
        → program_of (expr.Update t x e) w ≡ sequence (program_of e.value ∷ all (command.Assign t (place.Entry x) (length w.hand) ∷ command.Drop ∷ command.Put literal.Unit ∷ []) ∷ []) w }
    ensures captured { (x : List ℕ) (w : State) → program_of (expr.Capture x) w ≡ capture x w }
    ensures closure { (f : List ℕ) (names : Vec (List ℕ) Global) (w : State)
        → program_of (expr.Closure f names) w ≡ sequence (sequence (map capture names.items) ∷ all (command.MakeFn f (length names.items) ∷ []) ∷ []) w }
    ensures block { (parts : Vec Expr Global) (w : State)
        → program_of (expr.Block parts) w ≡ sequence (sequence (last_of (map program_of parts.items)) ∷ all (command.Rewind (length w.entries) ∷ []) ∷ []) w }
{}

/// A run, or the commands of an expression, that stopped can be continued with the rest of its
/// list: the answers so far and those of the rest are the machine's on the whole list, and so is
/// the final state.
#[tactic(auto, using(crate::proofs::GoingOn::answers_go_on, crate::proofs::GoingOn::state_goes_on))]
pub fn stopped_runs_go_on()
    ensures answers { (w v : State) (commands : List Command) (replied : List Answer) → StopsAfter w commands replied v
        → replied ++ replies v (drop (length replied) commands) ≡ replies w commands }
    ensures state { (w v : State) (commands : List Command) (replied : List Answer) → StopsAfter w commands replied v
        → state_after v (drop (length replied) commands) ≡ state_after w commands }
{}

/// Capturing a variable that has an entry is never refused. The entry's first content is unchanged
/// except for modes, of which a copy has only ReadWrite; and unless the entry is a constant, it and
/// the captured value, which is appended to the hand, refer to the same cell.
#[tactic(auto, using(crate::proofs::Captured::granted, crate::proofs::Captured::content_stays, crate::proofs::Captured::cell_shared))]
pub fn captures_share_a_cell()
    ensures granted { (w : State) (x : List ℕ) (e : Entry) → last_entry x w.entries ≡ Some e → refusal w (commands_of w (expr.Capture x)) ≡ None }
    ensures content { (w : State) (x : List ℕ) (e : Entry) → last_entry x w.entries ≡ Some e
        → option_map copy (entry_content x (state_after w (commands_of w (expr.Capture x)))) ≡ option_map copy (entry_content x w) }
    ensures shared { (w : State) (x : List ℕ) (e : Entry) → last_entry x w.entries ≡ Some e → is_constant_entry e ≡ false
        → SharesEntry x w (state_after w (commands_of w (expr.Capture x))) }
{}

/// If no command of an expression is refused, the hand has one more value at its end, and the scope
/// one more entry for each `Let` and `Const` that is in no `Block` of the expression.
pub fn expressions_leave_a_value()
    ensures hand { (w : State) (e : Expr) → refusal w (commands_of w e) ≡ None → (t : Tree) × ((state_after w (commands_of w e)).hand ≡ w.hand ++ t ∷ []) }
    ensures scope { (w : State) (e : Expr) → refusal w (commands_of w e) ≡ None → length (state_after w (commands_of w e)).entries ≡ length w.entries + bindings e }
{}

/// If one is refused, the hand is unchanged, and so is the length of the scope.
pub fn refused_expressions_leave_nothing()
    ensures hand { (w : State) (e : Expr) (why : Refusal) → refusal w (commands_of w e) ≡ Some why → (state_after w (commands_of w e)).hand ≡ w.hand }
    ensures scope { (w : State) (e : Expr) (why : Refusal) → refusal w (commands_of w e) ≡ Some why → length (state_after w (commands_of w e)).entries ≡ length w.entries }
{}
