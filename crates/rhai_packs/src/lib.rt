//! Script functions on arrays, maps, ints, ranges, texts, characters and blobs, by their names in
//! rhai's packages.
#![tactic(auto)]

pub mod arrays;
pub mod bits;
pub mod blobs;
pub mod chars;
mod held;
pub mod ints;
pub mod maps;
mod places;
pub mod ranges;
mod sizes;
pub mod texts;

pub use held::mismatch;
