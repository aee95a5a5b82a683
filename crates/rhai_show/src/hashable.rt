//! Whether a value can be hashed.
ghost use Rattle.std.specs.Prelude.{ℕ, ℤ, ◌≡◌, [], true, IfOk, IsOk, None, OnOk, is_some};
ghost use Rattle.rhai_value.specs.declared.value.access_mode.AccessMode.{AccessMode};
ghost use Rattle.rhai_value.specs.End.{first};
ghost use Rattle.rhai_value.specs.Rows.{trees_of, fields_of};
ghost use Rattle.rhai_value.specs.Tree.{holder, node, tree_then, no_trees};
ghost use Rattle.rhai_show.specs.Plain.{plain};
ghost use Rattle.rhai_show.specs.Clean.{are_plain, values_in, has_left, Clean, HasNoHolder, HaveNoHolders, FieldsHaveNoHolders, Searched};

use crate::clean_far::{leave_all, opened, opened_holder};
use crate::rest::Rest;
use crate::shape::{Shape, shape_of};
use rhai_value::{Dynamic, Map, NEAR, Path, Store};
use std::alloc::{AllocError, Global};
use std::mem;

/// Whether the value is plain; the cells of `path` are open. The cells of `seen` were opened
/// before; those still open don't open again, and those left are known to be clean, so that no cell
/// is searched twice. Inlined into the loops, since most values contain no others.
#[cycle(search)]
#[inline(always)]
fn is_clean(
    store: &Store,
    path: &mut Path,
    seen: &mut Path,
    value: &Dynamic,
    levels: u32,
    alloc: Global,
) -> Result<bool, AllocError>
    requires { Clean store.now (has_left seen.old path.old) }
    ensures answer { IfOk result (λ b. b ≡ is_some (plain store.now path.old value.now)) }
    ensures path { OnOk result (path.new ≡ path.old) }
    ensures searched { IfOk result (λ b. b ≡ true → Searched store.now path.old seen.old seen.new (tree_then value.now no_trees)) }
    ensures free { HasNoHolder value.now → IsOk result }
    ensures barred { first store.now value.now ≡ None → IsOk result }
{
    match shape_of(value) {
        Shape::Leaf(_) => Ok(true),
        Shape::Array(items) => {
            if levels == 0 {
                return is_far_clean(store, path, seen, value, alloc);
            }
            are_clean(store, path, seen, items, levels - 1, alloc)
        }
        Shape::Map(map) => {
            if levels == 0 {
                return is_far_clean(store, path, seen, value, alloc);
            }
            is_map_clean(store, path, seen, map, levels - 1, alloc)
        }
        Shape::Function(function) => {
            if levels == 0 {
                return is_far_clean(store, path, seen, value, alloc);
            }
            are_clean(store, path, seen, function.curry(), levels - 1, alloc)
        }
        Shape::Holder => {
            if levels == 0 {
                return is_far_clean(store, path, seen, value, alloc);
            }
            is_held_clean(store, path, seen, value, levels - 1, alloc)
        }
    }
}

/// Whether a holder is plain.
#[cycle(search)]
#[inline(never)]
#[tactic(auto, using(crate::proofs::Barred::barred_closed))]
fn is_held_clean(
    store: &Store,
    path: &mut Path,
    seen: &mut Path,
    value: &Dynamic,
    levels: u32,
    alloc: Global,
) -> Result<bool, AllocError>
    requires clean { Clean store.now (has_left seen.old path.old) }
    requires holder { (c : ℕ) × (g : ℤ) × (m : AccessMode) × (value.now ≡ node (holder c) g m) }
    ensures answer { IfOk result (λ b. b ≡ is_some (plain store.now path.old value.now)) }
    ensures path { OnOk result (path.new ≡ path.old) }
    ensures searched { IfOk result (λ b. b ≡ true → Searched store.now path.old seen.old seen.new (tree_then value.now no_trees)) }
    ensures barred { first store.now value.now ≡ None → IsOk result }
{
    match opened_holder(store, path, seen, value)? {
        Ok(is_plain) => Ok(is_plain),
        Err(content) => {
            let is_clean = is_clean(store, path, seen, content, levels, alloc)?;
            path.leave();
            Ok(is_clean)
        }
    }
}

/// The same for a value of any depth. A work list has the rest of each level, so that calls don't
/// nest; if its allocation fails, it recurses.
#[cycle(search)]
#[inline(never)]
fn is_far_clean(
    store: &Store,
    path: &mut Path,
    seen: &mut Path,
    value: &Dynamic,
    alloc: Global,
) -> Result<bool, AllocError>
    requires { Clean store.now (has_left seen.old path.old) }
    ensures answer { IfOk result (λ b. b ≡ is_some (plain store.now path.old value.now)) }
    ensures path { OnOk result (path.new ≡ path.old) }
    ensures searched { IfOk result (λ b. b ≡ true → Searched store.now path.old seen.old seen.new (tree_then value.now no_trees)) }
    ensures free { HasNoHolder value.now → IsOk result }
    ensures barred { first store.now value.now ≡ None → IsOk result }
{
    let mut top = match opened(store, path, seen, value)? {
        Ok(is_plain) => return Ok(is_plain),
        Err(rest) => rest,
    };
    let mut frames: Vec<Rest> = Vec::new(alloc);
    loop {
        match top.next() {
            Some(child) => {
                let inner = child.value();
                match opened(store, path, seen, inner)? {
                    Ok(is_plain) => {
                        if !is_plain {
                            leave_all(top, frames, path);
                            return Ok(false);
                        }
                    }
                    Err(rest) => {
                        if frames.reserve(1).is_ok() {
                            frames.push_reserved(mem::replace(&mut top, rest));
                        } else {
                            rest.close(path);
                            rest.close(seen);
                            if !is_clean(store, path, seen, inner, NEAR, alloc)? {
                                leave_all(top, frames, path);
                                return Ok(false);
                            }
                        }
                    }
                }
            }
            None => {
                top.close(path);
                match frames.pop() {
                    None => return Ok(true),
                    Some(up) => top = up,
                }
            }
        }
    }
}

/// The same for items.
#[cycle(search)]
#[inline(never)]
fn are_clean(
    store: &Store,
    path: &mut Path,
    seen: &mut Path,
    items: &[Dynamic],
    levels: u32,
    alloc: Global,
) -> Result<bool, AllocError>
    requires { Clean store.now (has_left seen.old path.old) }
    ensures answer { IfOk result (λ b. b ≡ are_plain store.now path.old (trees_of items.now)) }
    ensures path { OnOk result (path.new ≡ path.old) }
    ensures searched { IfOk result (λ b. b ≡ true → Searched store.now path.old seen.old seen.new (trees_of items.now)) }
    ensures free { HaveNoHolders (trees_of items.now) → IsOk result }
{
    for item in items {
        if !is_clean(store, path, seen, item, levels, alloc)? {
            return Ok(false);
        }
    }
    Ok(true)
}

/// The same for the values of a map.
#[cycle(search)]
#[inline(never)]
fn is_map_clean(
    store: &Store,
    path: &mut Path,
    seen: &mut Path,
    map: &Map,
    levels: u32,
    alloc: Global,
) -> Result<bool, AllocError>
    requires { Clean store.now (has_left seen.old path.old) }
    ensures answer { IfOk result (λ b. b ≡ are_plain store.now path.old (values_in (fields_of map.now))) }
    ensures path { OnOk result (path.new ≡ path.old) }
    ensures searched { IfOk result (λ b. b ≡ true → Searched store.now path.old seen.old seen.new (values_in (fields_of map.now))) }
    ensures free { FieldsHaveNoHolders (fields_of map.now) → IsOk result }
{
    for (_, value) in map.iter() {
        if !is_clean(store, path, seen, value, levels, alloc)? {
            return Ok(false);
        }
    }
    Ok(true)
}

/// Returns whether the value can be hashed: not if that would go through a cell that is marked, not
/// in the store, or in a loop.
/// Errors: an allocation fails; never for a value that contains no holder.
/// Cost: the number of values inside and in the cells, each cell being searched once; for each
/// holder the logarithm of the number of reached cells; memory grows with that number. Below 64
/// levels it allocates a work list; if that fails, it recurses for another 64 levels.
/// rhai: `Dynamic::is_hashable`, which is private.
pub fn is_hashable(alloc: Global, value: &Dynamic, store: &Store) -> Result<bool, AllocError>
    ensures answer { IfOk result (λ b. b ≡ is_some (plain store.now [] value.now)) }
    ensures free { HasNoHolder value.now → IsOk result }
    ensures barred { first store.now value.now ≡ None → IsOk result }
{
    let mut path = Path::new(alloc);
    let mut seen = Path::new(alloc);
    is_clean(store, &mut path, &mut seen, value, NEAR, alloc)
}
