//! Proved callers of casts.
mod readme;
