//! A collection of cells that one value reaches.
ghost use Rattle.std.specs.Prelude.{◌≡◌, length, IfOk};

use rhai_value::{Dynamic, Reach, Store};
use std::alloc::{AllocError, Global};

/// Finds the cells that the value itself refers to.
fn met(alloc: Global, store: &Store, value: &mut Dynamic) -> Result<Reach, AllocError>
    ensures { IfOk result (λ reach. length reach.0 ≡ length store.now) }
{
    let mut reach = Reach::new(alloc, store)?;
    reach.mark_reachable(value);
    Ok(reach)
}

/// Frees all cells that the value doesn't reach.
pub fn collect(alloc: Global, store: &mut Store, value: &mut Dynamic) -> Result<(), AllocError> {
    let reach = met(alloc, store, value)?;
    let kept = store.collect(reach);
    value.renumber(&kept);
    Ok(())
}
