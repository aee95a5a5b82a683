//! Proved callers of formatting and hash bytes.
mod hash;
mod readme;
mod same;
