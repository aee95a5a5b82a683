//! Proved callers of operators, targets and the scope, and failing allocations. `checks/tests` has
//! their other tests.
#![tactic(auto)]

#[cfg(test)]
mod alloc_failures;
#[cfg(test)]
mod ops;
#[cfg(test)]
mod scope;
#[cfg(test)]
mod target;
