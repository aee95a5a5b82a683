//! Commands with a name, which is passed by its number.
ghost use Rattle.std.specs.Prelude.{option_map};
ghost use Rattle.rhai_host.specs.Content.{content};
ghost use Rattle.rhai_run.specs.declared.command.Command.TheVariants as command;
ghost use Rattle.rhai_host.specs.Calls.{PerformsIf};
ghost use Rattle.rhai_host.specs.Names.{name_at};

use crate::handle::Handle;
use crate::perform::perform_named;
use crate::told::Told;
use std::alloc::Global;

/// Removes this many values from the end of the hand, and appends the function pointer of the name
/// with these values curried in order.
#[unsafe(no_mangle)]
pub extern "C" fn rhai_host_make_fn(
    alloc: Global,
    handle: &mut Handle,
    name: usize,
    count: usize,
    told: &mut Told,
) -> u32
    ensures { PerformsIf result (content handle.old) (content handle.new) told.old told.new (λ k. option_map (λ n. command.MakeFn n count) (name_at k name)) }
{
    perform_named(
        alloc,
        handle,
        name,
        told,
        |world, name| world.make_fn(name, count),
    )
}

/// Moves the value at the hand position into a new writable entry with the name, and leaves unit in
/// its place.
#[unsafe(no_mangle)]
pub extern "C" fn rhai_host_push(
    alloc: Global,
    handle: &mut Handle,
    name: usize,
    i: usize,
    told: &mut Told,
) -> u32
    ensures { PerformsIf result (content handle.old) (content handle.new) told.old told.new (λ k. option_map (λ n. command.Push n i) (name_at k name)) }
{
    perform_named(alloc, handle, name, told, |world, name| world.push(name, i))
}

/// Moves the value at the hand position into a new entry with the name, and leaves unit in its
/// place. The entry is a constant if the value is.
#[unsafe(no_mangle)]
pub extern "C" fn rhai_host_push_dynamic(
    alloc: Global,
    handle: &mut Handle,
    name: usize,
    i: usize,
    told: &mut Told,
) -> u32
    ensures { PerformsIf result (content handle.old) (content handle.new) told.old told.new (λ k. option_map (λ n. command.PushDynamic n i) (name_at k name)) }
{
    perform_named(
        alloc,
        handle,
        name,
        told,
        |world, name| world.push_dynamic(name, i),
    )
}

/// Moves the value at the hand position into a new constant entry with the name, and leaves unit in
/// its place.
#[unsafe(no_mangle)]
pub extern "C" fn rhai_host_push_constant(
    alloc: Global,
    handle: &mut Handle,
    name: usize,
    i: usize,
    told: &mut Told,
) -> u32
    ensures { PerformsIf result (content handle.old) (content handle.new) told.old told.new (λ k. option_map (λ n. command.PushConstant n i) (name_at k name)) }
{
    perform_named(
        alloc,
        handle,
        name,
        told,
        |world, name| world.push_constant(name, i),
    )
}

/// Replaces the value of the newest entry with the name by the value at the hand position, and
/// leaves unit in its place.
#[unsafe(no_mangle)]
pub extern "C" fn rhai_host_set_entry(
    alloc: Global,
    handle: &mut Handle,
    name: usize,
    i: usize,
    told: &mut Told,
) -> u32
    ensures { PerformsIf result (content handle.old) (content handle.new) told.old told.new (λ k. option_map (λ n. command.SetEntry n i) (name_at k name)) }
{
    perform_named(
        alloc,
        handle,
        name,
        told,
        |world, name| world.set_entry(name, i),
    )
}

/// Moves the value at the hand position into the newest entry with the name, or into a new entry if
/// there is none or it may not be written.
#[unsafe(no_mangle)]
pub extern "C" fn rhai_host_set_or_push(
    alloc: Global,
    handle: &mut Handle,
    name: usize,
    i: usize,
    told: &mut Told,
) -> u32
    ensures { PerformsIf result (content handle.old) (content handle.new) told.old told.new (λ k. option_map (λ n. command.SetOrPush n i) (name_at k name)) }
{
    perform_named(
        alloc,
        handle,
        name,
        told,
        |world, name| world.set_or_push(name, i),
    )
}

/// Moves the value at the hand position into the newest entry with the name, or into a new entry if
/// there is none.
#[unsafe(no_mangle)]
pub extern "C" fn rhai_host_set_value(
    alloc: Global,
    handle: &mut Handle,
    name: usize,
    i: usize,
    told: &mut Told,
) -> u32
    ensures { PerformsIf result (content handle.old) (content handle.new) told.old told.new (λ k. option_map (λ n. command.SetValue n i) (name_at k name)) }
{
    perform_named(
        alloc,
        handle,
        name,
        told,
        |world, name| world.set_value(name, i),
    )
}

/// Returns whether an entry has the name.
#[unsafe(no_mangle)]
pub extern "C" fn rhai_host_contains(
    alloc: Global,
    handle: &mut Handle,
    name: usize,
    told: &mut Told,
) -> u32
    ensures { PerformsIf result (content handle.old) (content handle.new) told.old told.new (λ k. option_map (λ n. command.Contains n) (name_at k name)) }
{
    perform_named(
        alloc,
        handle,
        name,
        told,
        |world, name| world.contains(name),
    )
}

/// Returns the position of the newest entry with the name, counted from 0, or nothing.
#[unsafe(no_mangle)]
pub extern "C" fn rhai_host_search(
    alloc: Global,
    handle: &mut Handle,
    name: usize,
    told: &mut Told,
) -> u32
    ensures { PerformsIf result (content handle.old) (content handle.new) told.old told.new (λ k. option_map (λ n. command.Search n) (name_at k name)) }
{
    perform_named(alloc, handle, name, told, |world, name| world.search(name))
}

/// Returns whether the newest entry with the name is a constant, or nothing.
#[unsafe(no_mangle)]
pub extern "C" fn rhai_host_is_constant(
    alloc: Global,
    handle: &mut Handle,
    name: usize,
    told: &mut Told,
) -> u32
    ensures { PerformsIf result (content handle.old) (content handle.new) told.old told.new (λ k. option_map (λ n. command.IsConstant n) (name_at k name)) }
{
    perform_named(
        alloc,
        handle,
        name,
        told,
        |world, name| world.is_constant(name),
    )
}

/// Appends a copy of the value of the newest entry with the name.
#[unsafe(no_mangle)]
pub extern "C" fn rhai_host_get(
    alloc: Global,
    handle: &mut Handle,
    name: usize,
    told: &mut Told,
) -> u32
    ensures { PerformsIf result (content handle.old) (content handle.new) told.old told.new (λ k. option_map (λ n. command.Get n) (name_at k name)) }
{
    perform_named(alloc, handle, name, told, |world, name| world.get(name))
}

/// Overwrites the int that the newest entry with the name itself is; returns nothing if there is no
/// such int.
#[unsafe(no_mangle)]
pub extern "C" fn rhai_host_set_ref(
    alloc: Global,
    handle: &mut Handle,
    name: usize,
    value: i64,
    told: &mut Told,
) -> u32
    ensures { PerformsIf result (content handle.old) (content handle.new) told.old told.new (λ k. option_map (λ n. command.SetRef n value) (name_at k name)) }
{
    perform_named(
        alloc,
        handle,
        name,
        told,
        |world, name| world.set_ref(name, value),
    )
}

/// Returns the aliases of the newest entry with the name, one a line.
#[unsafe(no_mangle)]
pub extern "C" fn rhai_host_aliases(
    alloc: Global,
    handle: &mut Handle,
    name: usize,
    told: &mut Told,
) -> u32
    ensures { PerformsIf result (content handle.old) (content handle.new) told.old told.new (λ k. option_map (λ n. command.Aliases n) (name_at k name)) }
{
    perform_named(alloc, handle, name, told, |world, name| world.aliases(name))
}
