//! Steps into a value, and work at their target.

pub(crate) mod place;
pub(crate) mod step;
pub(crate) mod with_held;
pub(crate) mod with_place;
pub(crate) mod writes;
