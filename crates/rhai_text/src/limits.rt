//! Limits on the size of values.

/// The largest sizes of an operator's result. 0 means no limit.
/// rhai: `Engine::max_string_size`, `Engine::max_array_size`.
#[derive(Clone, Copy, Debug, PartialEq, Eq)]
pub struct Limits {
    /// The length of a text in bytes.
    pub text: usize,
    /// The number of items of an array, or of bytes of a blob.
    pub items: usize,
}
