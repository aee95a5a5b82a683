//! Parts of held values: type tests, borrows and writes by type.

pub(crate) mod host;
pub(crate) mod in_store;
pub(crate) mod kinds;
pub(crate) mod lent;
pub(crate) mod part;
