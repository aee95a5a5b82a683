//! Proved callers of the crates of values, and failing allocations. `checks/tests` has their other
//! tests.
#![tactic(auto)]

#[cfg(test)]
mod alloc_failures;
#[cfg(test)]
mod cast;
#[cfg(test)]
mod packs;
#[cfg(test)]
mod show;
#[cfg(test)]
mod text;
#[cfg(test)]
mod value;
#[cfg(test)]
mod values;
#[cfg(test)]
mod variant;
