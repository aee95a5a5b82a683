//! Proved callers of Rust types.
mod readme;
