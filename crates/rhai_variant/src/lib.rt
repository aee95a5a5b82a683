//! The Rust types to and from which script values convert.
#![tactic(auto)]

mod cast_error;
mod content;
pub mod laws;
mod variant;

pub use cast_error::CastError;
pub use content::Content;
pub use variant::Variant;
