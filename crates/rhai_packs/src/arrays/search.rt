//! Searches for items as plain values. A value that has no plain value, such as one with a holder
//! of a marked cell, is equal to nothing.
ghost use Rattle.std.specs.Prelude.{◌≡◌, ◌↔◌, [], is_some, IfOk, IsTrue, Some, None, true};
ghost use Rattle.rhai_value.specs.Tree.{Tree};
ghost use Rattle.rhai_show.specs.InRange.{IsHashed};
ghost use Rattle.rhai_packs.specs.Same.{AreSame, IsFirst};

use rhai_show::laws::hashes::hash_bytes_tell_values_apart;
use rhai_show::{Hashed, hashed};
use rhai_value::{Array, Dynamic, Store};
use std::alloc::{AllocError, Global};

/// Returns whether an item equals a value.
/// Errors: an allocation fails.
/// Cost: the hash bytes of the value, and of the items up to the first equal one.
/// rhai: `contains`.
pub fn contains(
    alloc: Global,
    items: &Array,
    store: &Store,
    wanted: &Dynamic,
) -> Result<bool, AllocError>
    ensures { IfOk result (λ b. (o : _) × IsFirst store.now wanted.now items.now.items o × (b ≡ is_some o)) }
{
    Ok(index_of(alloc, items, store, wanted)?.is_some())
}

/// Finds the index of the first item that equals a value; `None` where rhai returns -1.
/// Errors: those of `contains`.
/// Cost: that of `contains`.
/// rhai: `index_of`.
#[tactic(auto, using(crate::proofs::Sames::same_as_nothing))]
pub fn index_of(
    alloc: Global,
    items: &Array,
    store: &Store,
    wanted: &Dynamic,
) -> Result<Option<usize>, AllocError>
    ensures { IfOk result (IsFirst store.now wanted.now items.now.items) }
{
    let Some(bytes) = hashed(alloc, wanted, store)? else {
        return Ok(None);
    };
    for (index, item) in items.iter().enumerate() {
        if is_same(alloc, item, store, &bytes)? {
            return Ok(Some(index));
        }
    }
    Ok(None)
}

/// Whether a value equals the one with these hash bytes.
#[tactic(auto, using(crate::proofs::Sames::same_where_plain, crate::proofs::Sames::same_as_nothing))]
fn is_same(
    alloc: Global,
    value: &Dynamic,
    store: &Store,
    bytes: &Hashed,
) -> Result<bool, AllocError>
    ensures { IfOk result (λ b. (y : Tree) → IsHashed store.now y bytes.now → IsTrue b ↔ AreSame store.now value.now y) }
{
    hash_bytes_tell_values_apart();
    match hashed(alloc, value, store)? {
        Some(own) => Ok(&own == bytes),
        None => Ok(false),
    }
}
