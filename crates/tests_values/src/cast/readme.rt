//! The caller in the README.
ghost use Rattle.std.specs.Prelude.{◌≡◌, IfOk, unwrap_or};
ghost use Rattle.rhai_value.specs.End.{flattened};
ghost use Rattle.rhai_variant.specs.Reads.{read};

use rhai_cast::DynamicCast;
use rhai_value::{Dynamic, Store};
use rhai_variant::Variant;
use std::alloc::{AllocError, Global};

/// Returns the value cast to a Rust type, or another value instead.
pub fn cast_or<T: Variant>(
    alloc: Global,
    value: Dynamic,
    store: &Store,
    other: T,
) -> Result<T, AllocError>
    ensures { IfOk result (λ x. T.tree x ≡ unwrap_or (read T.KIND (flattened store.now value)) (T.tree other)) }
{
    match value.try_cast::<T>(alloc, store)? {
        Some(x) => Ok(x),
        None => Ok(other),
    }
}
