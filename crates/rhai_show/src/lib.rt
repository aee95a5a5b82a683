//! The printed text and the hash bytes of script values.
#![tactic(auto)]

mod blob;
mod clean_far;
pub mod form;
mod hash;
mod hash_bytes;
mod hash_far;
mod hashable;
mod hashed_value;
mod host;
pub mod laws;
mod leaf;
mod rest;
mod same;
mod shape;
mod shown;
mod text;
mod text_far;

pub use form::Form;
pub use hash::hashed;
pub use hashable::is_hashable;
pub use hashed_value::Hashed;
pub use same::same_value;
pub use shown::Shown;
pub use text::{debug_text, display_text};
