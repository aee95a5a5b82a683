//! The ways in which the lines of a section are executed. If an allocation fails, each way
//! continues: it reports the failure on standard error, checks that the view of the world is
//! unchanged, and repeats what is left.
mod each;
mod lines;
mod runs;

use crate::rows::{commands_of, lines_of, wanted};
use crate::sections::UNLIMITED;
use each::Collection;
use rhai_run::World;
use rhai_text::Limits;
use std::alloc::{AllocError, Global};
use std::io::Eprint;

#[derive(Clone, Copy, PartialEq, Eq)]
pub(crate) enum Way {
    /// In one run over lines.
    Lines,
    /// Command by command.
    Apply,
    /// Command by command, with a collection after each.
    Collect,
    /// Command by command, each on the normal form of the world.
    Normalize,
    /// Command by command, each on a world made of a snapshot of the one before.
    Restore,
    /// In one run.
    Run,
    /// In one run over two worlds, the first of which has unreachable cells.
    Both,
}

pub(crate) const ALL: [Way; 7] = [
    Way::Lines,
    Way::Apply,
    Way::Collect,
    Way::Normalize,
    Way::Restore,
    Way::Run,
    Way::Both,
];

impl Way {
    /// Returns its name.
    pub(crate) fn name(self) -> &'static str {
        match self {
            Way::Lines => "lines",
            Way::Apply => "apply",
            Way::Collect => "collect",
            Way::Normalize => "normalize",
            Way::Restore => "restore",
            Way::Run => "run",
            Way::Both => "both",
        }
    }
}

/// Returns the way with this name.
pub(crate) fn way_named(name: &str) -> Option<Way> {
    ALL.into_iter().find(|way| way.name() == name)
}

/// Whether lines are executed in this way, if possibly only one is requested: a run over lines has
/// no limits.
pub(crate) fn are_taken(way: Way, only: Option<Way>, limits: Limits) -> bool {
    let is_asked = match only {
        Some(asked) => asked == way,
        None => true,
    };
    is_asked && (way != Way::Lines || limits == UNLIMITED)
}

/// Executes the lines of rows on a world with limits.
fn answer(
    rt: &impl Eprint,
    alloc: Global,
    way: Way,
    limits: Limits,
    rows: &str,
    out: &mut Vec<u8>,
) -> Result<bool, AllocError> {
    let lines = lines_of(alloc, rows)?;
    let commands = commands_of(alloc, &lines)?;
    let mut world = World::new(alloc, limits);
    let is_right = match way {
        Way::Lines => lines::run_lines_at_last(rt, alloc, rows, out),
        Way::Apply => each::apply_each(rt, alloc, &mut world, &lines, &commands, out),
        Way::Collect => {
            each::collect_after_each(rt, alloc, Collection::Plain, &mut world, &commands, out)
        }
        Way::Normalize => {
            each::collect_after_each(rt, alloc, Collection::InOrder, &mut world, &commands, out)
        }
        Way::Restore => {
            each::collect_after_each(rt, alloc, Collection::Restored, &mut world, &commands, out)
        }
        Way::Run => runs::run_at_last(rt, alloc, &mut world, &commands, out),
        Way::Both => runs::both_answer(rt, alloc, &mut world, limits, &commands, out),
    };
    world.close();
    is_right
}

/// Whether the lines of rows have the answers that they say, on a new world with limits.
pub(crate) fn is_answered(
    rt: &impl Eprint,
    alloc: Global,
    way: Way,
    limits: Limits,
    rows: &str,
    out: &mut Vec<u8>,
) -> Result<bool, AllocError> {
    let wanted = wanted(alloc, rows, way == Way::Lines)?;
    Ok(answer(rt, alloc, way, limits, rows, out)? && out.as_slice() == wanted.as_bytes())
}
