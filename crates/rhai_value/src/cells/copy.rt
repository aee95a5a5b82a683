//! Copies of a store.
ghost use Rattle.std.specs.Prelude.{◌≡◌, [], IfOk, IsOk};

use crate::cells::marks::WriteToken;
use crate::cells::store::{Cell, Store};
use std::alloc::{AllocError, Global};

fn copied_cells(cells: &[Cell], alloc: Global) -> Result<Vec<Cell>, AllocError>
    ensures value { IfOk result (λ v. v.items ≡ cells.now) }
    ensures free { cells.now ≡ [] → IsOk result }
{
    if cells.is_empty() {
        return Ok(Vec::new(alloc));
    }
    let mut copies = Vec::with_capacity(alloc, cells.len())?;
    for cell in cells {
        let content = cell.content.copy_with_modes(alloc)?;
        let is_marked = cell.is_marked;
        copies.push_reserved(Cell { content, is_marked });
    }
    Ok(copies)
}

fn copied_tokens(tokens: &[WriteToken], alloc: Global) -> Result<Vec<WriteToken>, AllocError>
    ensures value { IfOk result (λ v. v.items ≡ tokens.now) }
    ensures free { tokens.now ≡ [] → IsOk result }
{
    if tokens.is_empty() {
        return Ok(Vec::new(alloc));
    }
    let mut copies = Vec::with_capacity(alloc, tokens.len())?;
    for token in tokens {
        copies.push_reserved(WriteToken { cell: token.cell });
    }
    Ok(copies)
}

impl Store {
    /// Copies the store: the contents of its cells with their modes, and its marks. Makes a token
    /// of the copy for each of these tokens, so that its marks can be released too.
    /// Errors: an allocation fails; the partial copy is dropped.
    /// Cost: the number of cells, and that of `Dynamic::copy_with_modes` for each content.
    pub fn copy(
        &self,
        alloc: Global,
        tokens: &[WriteToken],
    ) -> Result<(Store, Vec<WriteToken>), AllocError>
        ensures store { IfOk result (λ r. r.0 ≡ self.now) }
        ensures tokens { IfOk result (λ r. r.1.items ≡ tokens.now) }
        ensures free { self.now ≡ [] → tokens.now ≡ [] → IsOk result }
    {
        let cells = copied_cells(&self.cells, alloc)?;
        let left = self.left;
        let tokens = copied_tokens(tokens, alloc)?;
        Ok((Store { cells, left }, tokens))
    }
}
