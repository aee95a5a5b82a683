//! Failing growth of compiled scripts' memory. `checks/tests` has the other tests of scripts.
#![tactic(auto)]

#[cfg(test)]
mod alloc_failures;
#[cfg(test)]
mod runs;
