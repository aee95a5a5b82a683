//! Whether two values are equal as plain values.
ghost use Rattle.std.specs.Prelude.{◌≡◌, ◌↔◌, ◌&&◌, [], IfOk, IfSome, IsOk, IsTrue, None, is_some};
ghost use Rattle.rhai_value.specs.End.{first};
ghost use Rattle.rhai_show.specs.Plain.{plain};

use crate::hash::hashed;
use crate::laws::hashes::hash_bytes_tell_values_apart;
use rhai_value::{Dynamic, Store};
use std::alloc::{AllocError, Global};

/// Returns whether two values are equal as plain values, as their hash bytes are; `None` exactly if
/// one of them isn't hashable.
/// Errors: an allocation fails; never if one of the values has no first content.
/// Cost: that of `hashed` of both.
#[tactic(auto, using(crate::proofs::Barred::barred_plain))]
pub fn same_value(
    alloc: Global,
    x: &Dynamic,
    y: &Dynamic,
    store: &Store,
) -> Result<Option<bool>, AllocError>
    ensures same { IfOk result (λ o. IfSome o (λ same. IsTrue same ↔ (plain store.now [] x.now ≡ plain store.now [] y.now))) }
    ensures which { IfOk result (λ o. is_some o ≡ (is_some (plain store.now [] x.now) && is_some (plain store.now [] y.now))) }
    ensures first_barred { first store.now x.now ≡ None → IsOk result }
    ensures second_barred { first store.now y.now ≡ None → IsOk result }
{
    hash_bytes_tell_values_apart();
    if x.read_whole(store).is_none() {
        return Ok(None);
    }
    if y.read_whole(store).is_none() {
        return Ok(None);
    }
    let Some(a) = hashed(alloc, x, store)? else {
        return Ok(None);
    };
    let Some(b) = hashed(alloc, y, store)? else {
        return Ok(None);
    };
    Ok(Some(a == b))
}
