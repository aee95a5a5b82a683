//! Proved callers of values.
mod callers;
mod chained;
mod entries;
mod places;
mod readme;
mod scan;
