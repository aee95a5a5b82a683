//! A visitor that counts the values it visits, and sets each int to the one at the bottom.
ghost use Rattle.std.specs.Prelude.{◌^◌, ◌-◌, ◌+◌, min, pos};
ghost use Rattle.rhai_value.specs.Parts.{with_int};
ghost use Rattle.rhai_value.specs.Scan.{nodes_kept};
ghost use Rattle.std.proofs.Common.{refl};

use rhai_value::{Dynamic, INT, Part, Visitor};

#[derive(Drop)]
pub struct Visits {
    count: usize,
}

impl Visits {
    pub fn none() -> Visits {
        Visits { count: 0 }
    }

    pub fn count(&self) -> usize {
        self.count
    }
}

impl Visitor for Visits {
    ghost visited = { λ v t. (record v { count = min (v.count + 1) (2 ^ 64 - 1) }, with_int (pos 7) t) };

    ghost adds_no_nodes = { λ v t. nodes_kept _ _ t refl };

    fn visit(&mut self, value: &mut Dynamic) {
        self.count = self.count.saturating_add(1);
        if let Some(int) = INT::own_mut(value) {
            *int = 7;
        }
    }
}
