//! The step of a search for plain values at one value that may be deeply nested.
ghost use Rattle.std.specs.Prelude.{◌≡◌, ◌<◌, ◌≤◌, ℕ, ℤ, suc, true, ◌∷◌, None, List, drop, length, map, reverse, IfOk, IsOk, MatchResult, is_some};
ghost use Rattle.rhai_value.specs.declared.value.access_mode.AccessMode.{AccessMode};
ghost use Rattle.rhai_value.specs.End.{first};
ghost use Rattle.rhai_value.specs.Tree.{holder, node, tree_then, no_trees};
ghost use Rattle.rhai_show.specs.Clean.{are_plain, has_left, Clean, HasNoHolder, HaveNoHolders, Searched};
ghost use Rattle.rhai_show.specs.Plain.{plain};
ghost use Rattle.rhai_show.specs.Rests.{rest_of, is_held, closed_by, HasOpen, rest_weight, trees_in, level_of, path_left, HaveOpen};
ghost use Rattle.rhai_show.specs.Weights.{weight};

use crate::rest::Rest;
use crate::shape::{Shape, shape_of};
use rhai_value::{Dynamic, Path, Store};
use std::alloc::AllocError;

/// Whether a value without children is plain, or otherwise its children.
pub(crate) fn opened<'a>(
    store: &'a Store,
    path: &mut Path,
    seen: &mut Path,
    value: &'a Dynamic,
) -> Result<Result<bool, Rest<'a>>, AllocError>
    requires { Clean store.now (has_left seen.old path.old) }
    ensures answer { IfOk result (λ o. MatchResult o (λ b. b ≡ is_some (plain store.now path.old value.now))
        (λ r. are_plain store.now path.new (trees_in (rest_of r)) ≡ is_some (plain store.now path.old value.now))) }
    ensures path { IfOk result (λ o. MatchResult o (λ b. path.new ≡ path.old)
        (λ r. (closed_by (is_held r) path.new ≡ path.old) × HasOpen (is_held r) path.new)) }
    ensures seen { IfOk result (λ o. MatchResult o (λ b. seen.new ≡ seen.old)
        (λ r. (closed_by (is_held r) seen.new ≡ seen.old) × HasOpen (is_held r) seen.new)) }
    ensures left { IfOk result (λ o. MatchResult o (λ b. Unit {0})
        (λ r. rest_weight (weight store.now path.new) (rest_of r) ≤ weight store.now path.old value.now)) }
    ensures searched { IfOk result (λ o. MatchResult o
        (λ b. b ≡ true → Searched store.now path.old seen.old seen.new (tree_then value.now no_trees))
        (λ r. Clean store.now (has_left seen.new path.new) × ((later : List ℕ) → Searched store.now path.new seen.new later (trees_in (rest_of r))
        → Searched store.now path.old seen.old later (tree_then value.now no_trees)))) }
    ensures none { IfOk result (λ o. MatchResult o (λ b. Unit {0}) (λ r. HasNoHolder value.now → HaveNoHolders (trees_in (rest_of r)))) }
    ensures free { HasNoHolder value.now → IsOk result }
    ensures barred { first store.now value.now ≡ None → IsOk result × IfOk result (λ o. IsOk o) }
{
    match shape_of(value) {
        Shape::Leaf(_) => Ok(Ok(true)),
        Shape::Array(items) => Ok(Err(Rest::Items(items))),
        Shape::Map(map) => Ok(Err(Rest::Fields(map.iter()))),
        Shape::Function(function) => Ok(Err(Rest::Items(function.curry()))),
        Shape::Holder => match opened_holder(store, path, seen, value)? {
            Ok(is_plain) => Ok(Ok(is_plain)),
            Err(content) => Ok(Err(Rest::Held(Some(content)))),
        },
    }
}

/// Whether a holder is plain, if that is known without its content; otherwise its content, with its
/// cell opened.
#[tactic(auto, using(crate::proofs::Barred::barred_closed))]
pub(crate) fn opened_holder<'a>(
    store: &'a Store,
    path: &mut Path,
    seen: &mut Path,
    value: &Dynamic,
) -> Result<Result<bool, &'a Dynamic>, AllocError>
    requires clean { Clean store.now (has_left seen.old path.old) }
    requires holder { (c : ℕ) × (g : ℤ) × (m : AccessMode) × (value.now ≡ node (holder c) g m) }
    ensures answer { IfOk result (λ o. MatchResult o (λ b. b ≡ is_some (plain store.now path.old value.now))
        (λ t. is_some (plain store.now path.new t.now) ≡ is_some (plain store.now path.old value.now))) }
    ensures path { IfOk result (λ o. MatchResult o (λ b. path.new ≡ path.old) (λ t. (drop 1 path.new ≡ path.old) × (0 < length path.new))) }
    ensures seen { IfOk result (λ o. MatchResult o (λ b. seen.new ≡ seen.old) (λ t. (drop 1 seen.new ≡ seen.old) × (0 < length seen.new))) }
    ensures left { IfOk result (λ o. MatchResult o (λ b. Unit {0}) (λ t. suc (weight store.now path.new t.now) ≤ weight store.now path.old value.now)) }
    ensures searched { IfOk result (λ o. MatchResult o
        (λ b. b ≡ true → Searched store.now path.old seen.old seen.new (tree_then value.now no_trees))
        (λ t. Clean store.now (has_left seen.new path.new) × ((later : List ℕ) → Searched store.now path.new seen.new later (tree_then t.now no_trees)
        → Searched store.now path.old seen.old later (tree_then value.now no_trees)))) }
    ensures barred { first store.now value.now ≡ None → IsOk result × IfOk result (λ o. IsOk o) }
{
    match path.enter(store, value)? {
        None => Ok(Ok(false)),
        Some(content) => match seen.enter(store, value)? {
            None => {
                path.leave();
                Ok(Ok(true))
            }
            Some(_) => Ok(Err(content)),
        },
    }
}

/// Closes the cells that the search has open.
pub(crate) fn leave_all<'a>(top: Rest<'a>, frames: Vec<Rest<'a>>, path: &mut Path)
    requires { HaveOpen path.old (map level_of (top ∷ reverse frames.items)) }
    ensures { path.new ≡ path_left path.old (map level_of (top.entry ∷ reverse frames.entry.items)) }
{
    top.close(path);
    let mut left = frames;
    while let Some(up) = left.pop() {
        up.close(path);
    }
}
