//! Items equal to the one before them.
ghost use Rattle.std.specs.Prelude.{◌≡◌, ◌≤◌, ◌<◌, ◌↔◌, [], length, slice_index, vec_capacity, IfOk, IsTrue, OnErr, OnOk};
ghost use Rattle.rhai_packs.specs.Repeats.{AreRepeats, IsDeduped, IsRepeat, unflagged};
ghost use Rattle.rhai_packs.specs.Same.{AreSame};

use rhai_show::same_value;
use rhai_value::{Array, Dynamic, Store};
use std::alloc::{AllocError, Global};
use std::mem;

/// Drops each item equal to the one before it, compared as plain values: of a run of equal items
/// the first one is kept.
/// Errors: an allocation fails; the array is unchanged.
/// Cost: the hash bytes of each item twice, and a list as long as the array.
/// rhai: `dedup`.
pub fn dedup(alloc: Global, items: &mut Array, store: &Store) -> Result<(), AllocError>
    ensures ok { OnOk result (IsDeduped store.now items.old.items items.new.items) }
    ensures err { OnErr result (items.new.items ≡ items.old.items) }
{
    let repeats = repeats(alloc, items, store)?;
    let kept = Vec::with_capacity(alloc, items.len())?;
    let all = mem::replace(items, Vec::new(alloc));
    *items = without_flagged(all, &repeats, kept);
    Ok(())
}

/// Which items are equal to the one before them.
fn repeats(alloc: Global, items: &[Dynamic], store: &Store) -> Result<Vec<bool>, AllocError>
    ensures { IfOk result (λ repeats. AreRepeats store.now items.now repeats.items) }
{
    let mut repeats = Vec::with_capacity(alloc, items.len())?;
    for i in 0..items.len() {
        repeats.push_reserved(is_repeat(alloc, items, i, store)?);
    }
    Ok(repeats)
}

/// Whether an item is equal to the one before it.
fn is_repeat(alloc: Global, items: &[Dynamic], i: usize, store: &Store) -> Result<bool, AllocError>
    requires { i < length items.now }
    ensures { IfOk result (λ b. IsTrue b ↔ IsRepeat store.now items.now i) }
{
    if i == 0 {
        return Ok(false);
    }
    are_same(alloc, &items[i - 1], &items[i], store)
}

/// Whether two values are equal as plain values.
fn are_same(alloc: Global, x: &Dynamic, y: &Dynamic, store: &Store) -> Result<bool, AllocError>
    ensures { IfOk result (λ b. IsTrue b ↔ AreSame store.now x.now y.now) }
{
    match same_value(alloc, x, y, store)? {
        Some(same) => Ok(same),
        None => Ok(false),
    }
}

/// The unflagged items, moved into a list with room for all.
fn without_flagged(items: Array, flags: &[bool], room: Array) -> Array
    requires room { length items.items ≤ vec_capacity room }
    requires empty { room.items ≡ [] }
    requires len { length flags.now ≡ length items.items }
    ensures { result.items ≡ unflagged flags.now items.items }
{
    let mut kept = room;
    let mut rest = items.into_iter();
    for flag in flags {
        if let Some(item) = rest.next()
            && !*flag
        {
            kept.push_reserved(item);
        }
    }
    kept
}
