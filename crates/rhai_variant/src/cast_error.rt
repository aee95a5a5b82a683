//! Why a value can't be read as a type.

use rhai_value::Dynamic;

/// Why a value can't be read as a type. Each variant returns a value to the caller.
#[derive(Drop)]
pub enum CastError {
    /// It is of another type; after a cast that flattens, this is the flat value.
    Mismatch(Dynamic),
    /// An allocation failed; the value is unchanged.
    Memory(Dynamic),
}
