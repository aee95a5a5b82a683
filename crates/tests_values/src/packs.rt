//! Proved callers of packages.
mod readme;
