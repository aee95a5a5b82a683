//! The entries of the scope, all at once.
ghost use Rattle.rhai_host.specs.Content.{content};
ghost use Rattle.rhai_run.specs.declared.command.Command.TheVariants as command;
ghost use Rattle.rhai_host.specs.Calls.{Performs};

use crate::handle::Handle;
use crate::perform::perform;
use crate::told::Told;
use std::alloc::Global;

/// Drops the last entry.
#[unsafe(no_mangle)]
pub extern "C" fn rhai_host_pop(alloc: Global, handle: &mut Handle, told: &mut Told) -> u32
    ensures { Performs result (content handle.old) (content handle.new) told.old told.new command.Pop }
{
    perform(alloc, handle, told, |world| world.pop())
}

/// Keeps the oldest entries, as many as the number says, and drops the others.
#[unsafe(no_mangle)]
pub extern "C" fn rhai_host_rewind(
    alloc: Global,
    handle: &mut Handle,
    count: usize,
    told: &mut Told,
) -> u32
    ensures { Performs result (content handle.old) (content handle.new) told.old told.new (command.Rewind count) }
{
    perform(alloc, handle, told, |world| world.rewind(count))
}

/// Drops all entries.
#[unsafe(no_mangle)]
pub extern "C" fn rhai_host_clear(alloc: Global, handle: &mut Handle, told: &mut Told) -> u32
    ensures { Performs result (content handle.old) (content handle.new) told.old told.new command.Clear }
{
    perform(alloc, handle, told, |world| world.clear())
}

/// Returns how many entries there are.
#[unsafe(no_mangle)]
pub extern "C" fn rhai_host_len(alloc: Global, handle: &mut Handle, told: &mut Told) -> u32
    ensures { Performs result (content handle.old) (content handle.new) told.old told.new command.Len }
{
    perform(alloc, handle, told, |world| world.len())
}

/// Returns whether there are no entries.
#[unsafe(no_mangle)]
pub extern "C" fn rhai_host_is_empty(alloc: Global, handle: &mut Handle, told: &mut Told) -> u32
    ensures { Performs result (content handle.old) (content handle.new) told.old told.new command.IsEmpty }
{
    perform(alloc, handle, told, |world| world.is_empty())
}

/// Keeps a copy of the newest entry of each name, newest first.
#[unsafe(no_mangle)]
pub extern "C" fn rhai_host_keep_visible(alloc: Global, handle: &mut Handle, told: &mut Told) -> u32
    ensures { Performs result (content handle.old) (content handle.new) told.old told.new command.KeepVisible }
{
    perform(alloc, handle, told, |world| world.keep_visible())
}

/// Replaces the scope with a copy of all entries.
#[unsafe(no_mangle)]
pub extern "C" fn rhai_host_copy_scope(alloc: Global, handle: &mut Handle, told: &mut Told) -> u32
    ensures { Performs result (content handle.old) (content handle.new) told.old told.new command.CopyScope }
{
    perform(alloc, handle, told, |world| world.copy_scope())
}

/// Appends copies of the values of all entries, without their holders.
#[unsafe(no_mangle)]
pub extern "C" fn rhai_host_entries(alloc: Global, handle: &mut Handle, told: &mut Told) -> u32
    ensures { Performs result (content handle.old) (content handle.new) told.old told.new command.Entries }
{
    perform(alloc, handle, told, |world| world.entries())
}

/// Returns the names of the entries, newest first, one a line, with `const ` before that of a
/// constant.
#[unsafe(no_mangle)]
pub extern "C" fn rhai_host_names(alloc: Global, handle: &mut Handle, told: &mut Told) -> u32
    ensures { Performs result (content handle.old) (content handle.new) told.old told.new command.Names }
{
    perform(alloc, handle, told, |world| world.names())
}

/// Returns the text of the scope.
#[unsafe(no_mangle)]
pub extern "C" fn rhai_host_show_scope(alloc: Global, handle: &mut Handle, told: &mut Told) -> u32
    ensures { Performs result (content handle.old) (content handle.new) told.old told.new command.ShowScope }
{
    perform(alloc, handle, told, |world| world.show_scope())
}

/// Returns the hash bytes of the scope.
#[unsafe(no_mangle)]
pub extern "C" fn rhai_host_hash_scope(alloc: Global, handle: &mut Handle, told: &mut Told) -> u32
    ensures { Performs result (content handle.old) (content handle.new) told.old told.new command.HashScope }
{
    perform(alloc, handle, told, |world| world.hash_scope())
}
