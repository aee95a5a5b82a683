//! What a scan does with each visited value.

ghost use Rattle.std.specs.Prelude.{◌≡◌, pos};
ghost use Rattle.rhai_value.specs.Tree.{branch, array};
ghost use Rattle.rhai_run.specs.Scanners.{first_trees};
ghost use Rattle.std.specs.Option.{option_map_or};
ghost use Rattle.rhai_value.specs.Parts.{array_of, with_int, with_content};

use crate::command::Scanner;
use rhai_value::{Array, Dynamic, INT, Part, Visitor};

/// A scanner, and the number of values visited so far.
#[derive(Drop)]
pub(crate) struct Visits {
    pub(crate) scanner: Scanner,
    pub(crate) visits: u64,
}

fn make_zero(value: &mut Dynamic)
    ensures { value.new ≡ with_int (pos 0) value.old }
{
    if let Some(int) = INT::own_mut(value) {
        *int = 0;
    }
}

#[tactic(auto, using(crate::proofs::Kept::first_kept))]
fn keep_first(value: &mut Dynamic, len: usize)
    ensures { value.new ≡ option_map_or (λ ts. with_content (branch array (first_trees len ts)) value.old) (array_of value.old) value.old }
{
    if let Some(items) = Array::own_mut(value) {
        items.truncate(len);
    }
}

impl Visitor for Visits {
    ghost use Rattle.rhai_run.specs.Scanners.{visited as what_is_done, no_more_nodes};

    ghost visited = { what_is_done };

    ghost adds_no_nodes = { no_more_nodes };

    fn visit(&mut self, value: &mut Dynamic) {
        self.visits = self.visits.saturating_add(1);
        match self.scanner {
            Scanner::Tags(tag) => value.set_tag(tag),
            Scanner::Zero => make_zero(value),
            Scanner::NoShare => {
                if value.is_shared() {
                    *value = Dynamic::UNIT;
                }
            }
            Scanner::Cut(len) => keep_first(value, len),
        }
    }
}
