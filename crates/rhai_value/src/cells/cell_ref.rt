//! The cell number inside a holder.

/// The cell of a holder. No call reveals its number.
#[derive(Clone, Copy)]
pub struct CellRef {
    pub(crate) index: usize,
}
