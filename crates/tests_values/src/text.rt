//! Proved callers of texts.
mod readme;
