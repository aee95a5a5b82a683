//! Holders as operands of operators.
use rhai_value::{Dynamic, Store};

/// Makes a holder of a new cell with the value; the value itself if the allocation fails.
pub(super) fn shared(value: Dynamic, store: &mut Store) -> Dynamic {
    match value.into_shared(store) {
        Ok(holder) => holder,
        Err(value) => value,
    }
}
