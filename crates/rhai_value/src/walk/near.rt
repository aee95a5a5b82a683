//! How deep a walk recurses.

/// How many levels of a value a walk recurses, which is faster; it walks deeper ones with a loop.
pub const NEAR: u32 = 64;
