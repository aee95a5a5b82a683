//! Casts of script values to and from Rust types.
#![tactic(auto)]

mod arrays;
mod cast;
pub mod laws;
mod lock;
mod makers;

pub use cast::{DynamicCast, cast_or_give_back, is_castable};
pub use lock::{lent_lock, write_lock};
