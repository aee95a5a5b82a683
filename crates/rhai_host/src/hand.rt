//! Values in the hand: made from others, copied, changed, dropped.
ghost use Rattle.rhai_host.specs.Content.{content};
ghost use Rattle.rhai_run.specs.declared.command.Command.TheVariants as command;
ghost use Rattle.rhai_run.specs.declared.command.Scanner.TheVariants as scanner;
ghost use Rattle.rhai_host.specs.Calls.{Performs};

use crate::handle::Handle;
use crate::perform::perform;
use crate::told::Told;
use rhai_run::Scanner;
use std::alloc::Global;

/// Removes this many values from the end of the hand, and appends an array of them in order.
#[unsafe(no_mangle)]
pub extern "C" fn rhai_host_make_array(
    alloc: Global,
    handle: &mut Handle,
    count: usize,
    told: &mut Told,
) -> u32
    ensures { Performs result (content handle.old) (content handle.new) told.old told.new (command.MakeArray count) }
{
    perform(alloc, handle, told, |world| world.make_array(count))
}

/// Appends a copy of the value at the hand position.
#[unsafe(no_mangle)]
pub extern "C" fn rhai_host_copy(
    alloc: Global,
    handle: &mut Handle,
    i: usize,
    told: &mut Told,
) -> u32
    ensures { Performs result (content handle.old) (content handle.new) told.old told.new (command.Copy i) }
{
    perform(alloc, handle, told, |world| world.copy(i))
}

/// Appends a copy of the value at the hand position, without its holders.
#[unsafe(no_mangle)]
pub extern "C" fn rhai_host_flatten_clone(
    alloc: Global,
    handle: &mut Handle,
    i: usize,
    told: &mut Told,
) -> u32
    ensures { Performs result (content handle.old) (content handle.new) told.old told.new (command.FlattenClone i) }
{
    perform(alloc, handle, told, |world| world.flatten_clone(i))
}

/// Moves the value at the hand position to the end, and leaves unit in its place.
#[unsafe(no_mangle)]
pub extern "C" fn rhai_host_take(
    alloc: Global,
    handle: &mut Handle,
    i: usize,
    told: &mut Told,
) -> u32
    ensures { Performs result (content handle.old) (content handle.new) told.old told.new (command.Take i) }
{
    perform(alloc, handle, told, |world| world.take(i))
}

/// Drops the last value.
#[unsafe(no_mangle)]
pub extern "C" fn rhai_host_drop(alloc: Global, handle: &mut Handle, told: &mut Told) -> u32
    ensures { Performs result (content handle.old) (content handle.new) told.old told.new command.Drop }
{
    perform(alloc, handle, told, |world| world.drop_last())
}

/// Moves the value at the hand position into a new cell, and leaves a holder of that cell. A holder
/// is left as it is.
#[unsafe(no_mangle)]
pub extern "C" fn rhai_host_share(
    alloc: Global,
    handle: &mut Handle,
    i: usize,
    told: &mut Told,
) -> u32
    ensures { Performs result (content handle.old) (content handle.new) told.old told.new (command.Share i) }
{
    perform(alloc, handle, told, |world| world.share(i))
}

/// Replaces a holder at the hand position with the held value, without its holders.
#[unsafe(no_mangle)]
pub extern "C" fn rhai_host_flatten(
    alloc: Global,
    handle: &mut Handle,
    i: usize,
    told: &mut Told,
) -> u32
    ensures { Performs result (content handle.old) (content handle.new) told.old told.new (command.Flatten i) }
{
    perform(alloc, handle, told, |world| world.flatten(i))
}

/// Makes the value at the hand position a constant.
#[unsafe(no_mangle)]
pub extern "C" fn rhai_host_make_read_only(
    alloc: Global,
    handle: &mut Handle,
    i: usize,
    told: &mut Told,
) -> u32
    ensures { Performs result (content handle.old) (content handle.new) told.old told.new (command.MakeReadOnly i) }
{
    perform(alloc, handle, told, |world| world.make_read_only(i))
}

/// Sets the tag of the value at the hand position.
#[unsafe(no_mangle)]
pub extern "C" fn rhai_host_set_tag(
    alloc: Global,
    handle: &mut Handle,
    i: usize,
    tag: i32,
    told: &mut Told,
) -> u32
    ensures { Performs result (content handle.old) (content handle.new) told.old told.new (command.SetTag i tag) }
{
    perform(alloc, handle, told, |world| world.set_tag(i, tag))
}

/// Overwrites the int held at the hand position.
#[unsafe(no_mangle)]
pub extern "C" fn rhai_host_write_int(
    alloc: Global,
    handle: &mut Handle,
    i: usize,
    n: i64,
    told: &mut Told,
) -> u32
    ensures { Performs result (content handle.old) (content handle.new) told.old told.new (command.WriteInt i n) }
{
    perform(alloc, handle, told, |world| world.write_int(i, n))
}

/// Overwrites the first content of the value at the first hand position with the value at the
/// second, and leaves unit at the second.
#[unsafe(no_mangle)]
pub extern "C" fn rhai_host_write(
    alloc: Global,
    handle: &mut Handle,
    i: usize,
    j: usize,
    told: &mut Told,
) -> u32
    ensures { Performs result (content handle.old) (content handle.new) told.old told.new (command.Write i j) }
{
    perform(alloc, handle, told, |world| world.write(i, j))
}

/// Sets the tag of each value that a scan of the hand position visits, and returns how many there
/// are.
#[unsafe(no_mangle)]
pub extern "C" fn rhai_host_scan_tags(
    alloc: Global,
    handle: &mut Handle,
    i: usize,
    tag: i32,
    told: &mut Told,
) -> u32
    ensures { Performs result (content handle.old) (content handle.new) told.old told.new (command.Scan i (scanner.Tags tag)) }
{
    perform(
        alloc,
        handle,
        told,
        |world| world.scan(i, Scanner::Tags(tag)),
    )
}

/// Sets each int that a scan of the hand position visits to 0, and returns how many values it
/// visited.
#[unsafe(no_mangle)]
pub extern "C" fn rhai_host_scan_zero(
    alloc: Global,
    handle: &mut Handle,
    i: usize,
    told: &mut Told,
) -> u32
    ensures { Performs result (content handle.old) (content handle.new) told.old told.new (command.Scan i scanner.Zero) }
{
    perform(alloc, handle, told, |world| world.scan(i, Scanner::Zero))
}

/// Replaces each holder that a scan of the hand position visits with unit, and returns how many
/// values it visited.
#[unsafe(no_mangle)]
pub extern "C" fn rhai_host_scan_no_share(
    alloc: Global,
    handle: &mut Handle,
    i: usize,
    told: &mut Told,
) -> u32
    ensures { Performs result (content handle.old) (content handle.new) told.old told.new (command.Scan i scanner.NoShare) }
{
    perform(alloc, handle, told, |world| world.scan(i, Scanner::NoShare))
}

/// Truncates each array that a scan of the hand position visits to this many items, and returns how
/// many values it visited.
#[unsafe(no_mangle)]
pub extern "C" fn rhai_host_scan_cut(
    alloc: Global,
    handle: &mut Handle,
    i: usize,
    count: usize,
    told: &mut Told,
) -> u32
    ensures { Performs result (content handle.old) (content handle.new) told.old told.new (command.Scan i (scanner.Cut count)) }
{
    perform(
        alloc,
        handle,
        told,
        |world| world.scan(i, Scanner::Cut(count)),
    )
}
