//! Walks over a value and all values inside it.

pub(crate) mod children;
pub(crate) mod coat;
pub(crate) mod copy;
pub(crate) mod copy_far;
pub(crate) mod flat_walk;
pub(crate) mod hollow;
pub(crate) mod job;
pub(crate) mod level;
pub(crate) mod locked;
pub(crate) mod modes;
pub(crate) mod near;
pub(crate) mod paint_far;
pub(crate) mod scan;
pub(crate) mod shed;
pub(crate) mod visits;
