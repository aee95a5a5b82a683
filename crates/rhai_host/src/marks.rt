//! Marked cells.
ghost use Rattle.rhai_host.specs.Content.{content};
ghost use Rattle.rhai_run.specs.declared.command.Command.TheVariants as command;
ghost use Rattle.rhai_host.specs.Calls.{Performs};

use crate::handle::Handle;
use crate::perform::perform;
use crate::told::Told;
use std::alloc::Global;

/// Removes the mark at this position from the list, and unlocks its cell. Later marks move up.
#[unsafe(no_mangle)]
pub extern "C" fn rhai_host_unmark(
    alloc: Global,
    handle: &mut Handle,
    mark: usize,
    told: &mut Told,
) -> u32
    ensures { Performs result (content handle.old) (content handle.new) told.old told.new (command.Unmark mark) }
{
    perform(alloc, handle, told, |world| world.unmark(mark))
}

/// Moves the value at the hand position into the cell of the mark at this position, and leaves unit
/// in its place.
#[unsafe(no_mangle)]
pub extern "C" fn rhai_host_write_marked(
    alloc: Global,
    handle: &mut Handle,
    mark: usize,
    i: usize,
    told: &mut Told,
) -> u32
    ensures { Performs result (content handle.old) (content handle.new) told.old told.new (command.WriteMarked mark i) }
{
    perform(alloc, handle, told, |world| world.write_marked(mark, i))
}

/// Appends a copy of the content of the cell of the mark at this position.
#[unsafe(no_mangle)]
pub extern "C" fn rhai_host_read_marked(
    alloc: Global,
    handle: &mut Handle,
    mark: usize,
    told: &mut Told,
) -> u32
    ensures { Performs result (content handle.old) (content handle.new) told.old told.new (command.ReadMarked mark) }
{
    perform(alloc, handle, told, |world| world.read_marked(mark))
}
