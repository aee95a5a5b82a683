//! Cells: the store, holders, and the values they lead to.

pub(crate) mod cell_ref;
pub(crate) mod chain;
pub(crate) mod collect;
pub(crate) mod copy;
pub(crate) mod deep_cells;
pub(crate) mod flatten;
pub(crate) mod marks;
pub(crate) mod path;
pub(crate) mod reach;
pub(crate) mod renumber;
pub(crate) mod roots;
pub(crate) mod sharing;
pub(crate) mod store;
pub(crate) mod whole;
