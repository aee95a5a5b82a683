//! Access modes.

/// The mode of a value: whether it may be written.
/// rhai: `AccessMode`.
#[derive(Debug, PartialEq, Eq, Hash, Copy, Clone)]
pub enum AccessMode {
    /// The value may be written.
    ReadWrite,
    /// The value is a constant.
    ReadOnly,
}
