//! What operations need besides values.

use rhai_text::Limits;
use std::alloc::Global;

/// The allocator, and how large values may grow.
#[derive(Clone, Copy)]
pub struct Means {
    /// The allocator.
    pub alloc: Global,
    /// The largest sizes.
    pub limits: Limits,
    /// How many entries a map may have; 0 means no limit.
    pub entries: usize,
}
