//! The flat values of a scope.
ghost use Rattle.std.specs.Prelude.{◌≡◌, map, IfOk};
ghost use Rattle.rhai_scope.specs.Items.{flat_left, flat_values};

use crate::iter::Iter;
use crate::scope::Scope;
use rhai_value::{Dynamic, Store};
use std::alloc::{AllocError, Global};

fn values_of(alloc: Global, items: Iter<'_>) -> Result<Vec<Dynamic>, AllocError>
    ensures { IfOk result (λ v. v.items ≡ map (λ x. x.2) (flat_left items.entry)) }
{
    let mut values = Vec::with_capacity(alloc, items.len())?;
    for item in items {
        let (_, _, value) = item?;
        values.push(value)?;
    }
    Ok(values)
}

impl Scope {
    /// Copies the values that `iter` yields, from the first entry to the last.
    /// Errors: an allocation fails, for a value or for the vector.
    /// Cost: that of `Dynamic::flatten_clone` for each.
    pub fn flat_values(&self, store: &Store) -> Result<Vec<Dynamic>, AllocError>
        ensures { IfOk result (λ v. v.items ≡ flat_values store.now self.now) }
    {
        values_of(self.alloc, self.iter(store))
    }
}
