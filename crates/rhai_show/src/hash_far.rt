//! The hash bytes of a deeply nested value.
ghost use Rattle.std.specs.Prelude.{◌≡◌, ◌≤◌, ◌++◌, ◌∷◌, ℕ, ℤ, List, Some, true, IfOk, IfSome, MatchOption, OnOk, is_some};
ghost use Rattle.rhai_value.specs.declared.value.access_mode.AccessMode.{AccessMode};
ghost use Rattle.rhai_value.specs.Tree.{Tree, cell_of, holder, node};
ghost use Rattle.rhai_value.specs.Walk.{entry};
ghost use Rattle.rhai_show.specs.HashBytes.{hash_bytes};
ghost use Rattle.rhai_show.specs.HashRests.{keyed_bytes, rest_bytes, IsKeyInRange, IsKeyedInRange, IsKeyedPlain};
ghost use Rattle.rhai_show.specs.InRange.{IsPlainInRange};
ghost use Rattle.rhai_show.specs.Plain.{plain};
ghost use Rattle.rhai_show.specs.Rests.{child_of, rest_of, is_held, closed_by, HasOpen, Each, rest_weight};
ghost use Rattle.rhai_show.specs.Weights.{weight};

use crate::hash_bytes::{add_bytes, add_count, add_leaf, add_name};
use crate::rest::{Child, Rest};
use crate::shape::{Shape, shape_of};
use rhai_value::{Dynamic, Path, Store};
use std::alloc::AllocError;
use std::mem;

/// Appends the hash bytes of a value without children, or otherwise the bytes before those of its
/// children.
fn opened<'a>(
    store: &'a Store,
    path: &mut Path,
    value: &'a Dynamic,
    out: &mut Vec<u8>,
) -> Result<Option<Rest<'a>>, AllocError>
    requires { is_some (plain store.now path.old value.now) ≡ true }
    ensures bytes { IfOk result (λ o. MatchOption o
        (out.new.items ≡ out.old.items ++ hash_bytes store.now path.old value.now)
        (λ r. out.new.items ++ rest_bytes (hash_bytes store.now path.new) (rest_of r)
        ≡ out.old.items ++ hash_bytes store.now path.old value.now)) }
    ensures path { IfOk result (λ o. MatchOption o (path.new ≡ path.old)
        (λ r. closed_by (is_held r) path.new ≡ path.old)) }
    ensures left { IfOk result (λ o. IfSome o (λ r. HasOpen (is_held r) path.new
        × (rest_weight (weight store.now path.new) (rest_of r) ≤ weight store.now path.old value.now))) }
    ensures plain { IfOk result (λ o. IfSome o (λ r. Each (IsKeyedPlain store.now path.new) (rest_of r))) }
    ensures range { IfOk result (λ o. MatchOption o (IsPlainInRange store.now path.old value.now)
        (λ r. Each (IsKeyedInRange store.now path.new) (rest_of r) → IsPlainInRange store.now path.old value.now)) }
{
    match shape_of(value) {
        Shape::Leaf(leaf) => {
            add_leaf(out, leaf)?;
            Ok(None)
        }
        Shape::Array(items) => {
            add_bytes(out, &[5])?;
            add_count(out, items.len())?;
            Ok(Some(Rest::Items(items)))
        }
        Shape::Map(map) => {
            add_bytes(out, &[7])?;
            add_count(out, map.len())?;
            Ok(Some(Rest::Fields(map.iter())))
        }
        Shape::Function(function) => {
            add_bytes(out, &[8])?;
            add_name(out, function.fn_name())?;
            let items = function.curry();
            add_count(out, items.len())?;
            Ok(Some(Rest::Items(items)))
        }
        Shape::Holder => Ok(Some(opened_holder(store, path, value)?)),
    }
}

/// Opens the cell of a holder.
fn opened_holder<'a>(
    store: &'a Store,
    path: &mut Path,
    value: &Dynamic,
) -> Result<Rest<'a>, AllocError>
    requires plain { is_some (plain store.now path.old value.now) ≡ true }
    requires holder { (c : ℕ) × (g : ℤ) × (m : AccessMode) × (value.now ≡ node (holder c) g m) }
    ensures bytes { IfOk result (λ r. rest_bytes (hash_bytes store.now path.new) (rest_of r) ≡ hash_bytes store.now path.old value.now) }
    ensures path { IfOk result (λ r. closed_by (is_held r) path.new ≡ path.old) }
    ensures left { IfOk result (λ r. HasOpen (is_held r) path.new
        × (rest_weight (weight store.now path.new) (rest_of r) ≤ weight store.now path.old value.now)) }
    ensures plain { IfOk result (λ r. Each (IsKeyedPlain store.now path.new) (rest_of r)) }
    ensures range { IfOk result (λ r. Each (IsKeyedInRange store.now path.new) (rest_of r) → IsPlainInRange store.now path.old value.now) }
{
    let content = opened_cell(store, path, value)?;
    Ok(Rest::Held(Some(content)))
}

/// Opens the cell of a hashable holder, and returns its content.
pub(crate) fn opened_cell<'a>(
    store: &'a Store,
    path: &mut Path,
    value: &Dynamic,
) -> Result<&'a Dynamic, AllocError>
    requires plain { is_some (plain store.now path.old value.now) ≡ true }
    requires holder { (c : ℕ) × (g : ℤ) × (m : AccessMode) × (value.now ≡ node (holder c) g m) }
    ensures found { IfOk result (λ t. Some t.now ≡ entry store.now path.old value.now) }
    ensures opened { IfOk result (λ t. IfSome (cell_of value.now) (λ c. path.new ≡ c ∷ path.old)) }
{
    // An earlier search found the holder hashable, so its cell opens.
    Ok(path.enter(store, value)?.unwrap())
}

/// Appends the key of a value, if it has one.
fn unkeyed<'a>(child: Child<'a>, out: &mut Vec<u8>) -> Result<&'a Dynamic, AllocError>
    ensures value { IfOk result (λ v. v.now ≡ (child_of child.entry).1) }
    ensures bytes { IfOk result (λ v. (f : Tree → List ℕ) → out.new.items ++ f v.now ≡ out.old.items ++ keyed_bytes f (child_of child.entry)) }
    ensures range { IfOk result (λ _. IsKeyInRange (child_of child.entry).0) }
{
    match child {
        Child::Item(value) => Ok(value),
        Child::Entry(key, value) => {
            add_name(out, key)?;
            Ok(value)
        }
    }
}

/// Appends the hash bytes of a hashable value; the cells of the path are open. A work list has the
/// rest of each level, so that calls don't nest.
#[inline(never)]
pub(crate) fn add_far(
    store: &Store,
    path: &mut Path,
    value: &Dynamic,
    out: &mut Vec<u8>,
) -> Result<(), AllocError>
    requires { is_some (plain store.now path.old value.now) ≡ true }
    ensures bytes { OnOk result (out.new.items ≡ out.old.items ++ hash_bytes store.now path.old value.now) }
    ensures range { OnOk result (IsPlainInRange store.now path.old value.now) }
    ensures path { OnOk result (path.new ≡ path.old) }
{
    let Some(first) = opened(store, path, value, out)? else {
        return Ok(());
    };
    let mut frames: Vec<Rest> = Vec::new(*out.allocator());
    let mut top = first;
    loop {
        match top.next() {
            Some(child) => {
                let inner = unkeyed(child, out)?;
                match opened(store, path, inner, out)? {
                    None => {}
                    Some(deeper) => frames.push(mem::replace(&mut top, deeper))?,
                }
            }
            None => {
                top.close(path);
                match frames.pop() {
                    None => return Ok(()),
                    Some(up) => top = up,
                }
            }
        }
    }
}
