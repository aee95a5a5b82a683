//! Proved callers of operators and assignments.
mod holders;
mod read_only;
pub(crate) mod readme;
