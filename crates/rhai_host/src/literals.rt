//! New values at the end of the hand.
ghost use Rattle.rhai_host.specs.Content.{content};
ghost use Rattle.rhai_run.specs.declared.command.Command.TheVariants as command;
ghost use Rattle.rhai_run.specs.declared.command.Literal.TheVariants as literal;
ghost use Rattle.rhai_value.specs.declared.value.host.Host.TheVariants as host;
ghost use Rattle.rhai_host.specs.Calls.{Performs};

use crate::handle::Handle;
use crate::perform::perform;
use crate::told::Told;
use rhai_run::Literal;
use rhai_value::{ExclusiveRange, Host, InclusiveRange};
use std::alloc::Global;

/// Appends the unit value.
#[unsafe(no_mangle)]
pub extern "C" fn rhai_host_put_unit(alloc: Global, handle: &mut Handle, told: &mut Told) -> u32
    ensures { Performs result (content handle.old) (content handle.new) told.old told.new (command.Put literal.Unit) }
{
    perform(alloc, handle, told, |world| world.put(&Literal::Unit))
}

/// Appends a boolean.
#[unsafe(no_mangle)]
pub extern "C" fn rhai_host_put_bool(
    alloc: Global,
    handle: &mut Handle,
    truth: bool,
    told: &mut Told,
) -> u32
    ensures { Performs result (content handle.old) (content handle.new) told.old told.new (command.Put (literal.Bool truth)) }
{
    perform(
        alloc,
        handle,
        told,
        |world| world.put(&Literal::Bool(truth)),
    )
}

/// Appends an int.
#[unsafe(no_mangle)]
pub extern "C" fn rhai_host_put_int(
    alloc: Global,
    handle: &mut Handle,
    n: i64,
    told: &mut Told,
) -> u32
    ensures { Performs result (content handle.old) (content handle.new) told.old told.new (command.Put (literal.Int n)) }
{
    perform(alloc, handle, told, |world| world.put(&Literal::Int(n)))
}

/// Appends the range from one int to another, end excluded.
#[unsafe(no_mangle)]
pub extern "C" fn rhai_host_put_range(
    alloc: Global,
    handle: &mut Handle,
    start: i64,
    end: i64,
    told: &mut Told,
) -> u32
    ensures { Performs result (content handle.old) (content handle.new) told.old told.new (command.Put (literal.Range (record { start = start; end = end }))) }
{
    perform(
        alloc,
        handle,
        told,
        |world| world.put(&Literal::Range(ExclusiveRange { start, end })),
    )
}

/// Appends the range from one int to another, end included.
#[unsafe(no_mangle)]
pub extern "C" fn rhai_host_put_range_with_end(
    alloc: Global,
    handle: &mut Handle,
    start: i64,
    end: i64,
    told: &mut Told,
) -> u32
    ensures { Performs result (content handle.old) (content handle.new) told.old told.new (command.Put (literal.RangeEq (record { start = start; end = end }))) }
{
    perform(
        alloc,
        handle,
        told,
        |world| world.put(&Literal::RangeEq(InclusiveRange { start, end })),
    )
}

/// Appends a `u8` of the host.
#[unsafe(no_mangle)]
pub extern "C" fn rhai_host_put_u8(
    alloc: Global,
    handle: &mut Handle,
    n: u8,
    told: &mut Told,
) -> u32
    ensures { Performs result (content handle.old) (content handle.new) told.old told.new (command.Put (literal.Host (host.U8 n))) }
{
    perform(
        alloc,
        handle,
        told,
        |world| world.put(&Literal::Host(Host::U8(n))),
    )
}

/// Appends a `u16` of the host.
#[unsafe(no_mangle)]
pub extern "C" fn rhai_host_put_u16(
    alloc: Global,
    handle: &mut Handle,
    n: u16,
    told: &mut Told,
) -> u32
    ensures { Performs result (content handle.old) (content handle.new) told.old told.new (command.Put (literal.Host (host.U16 n))) }
{
    perform(
        alloc,
        handle,
        told,
        |world| world.put(&Literal::Host(Host::U16(n))),
    )
}

/// Appends a `u32` of the host.
#[unsafe(no_mangle)]
pub extern "C" fn rhai_host_put_u32(
    alloc: Global,
    handle: &mut Handle,
    n: u32,
    told: &mut Told,
) -> u32
    ensures { Performs result (content handle.old) (content handle.new) told.old told.new (command.Put (literal.Host (host.U32 n))) }
{
    perform(
        alloc,
        handle,
        told,
        |world| world.put(&Literal::Host(Host::U32(n))),
    )
}

/// Appends a `u64` of the host.
#[unsafe(no_mangle)]
pub extern "C" fn rhai_host_put_u64(
    alloc: Global,
    handle: &mut Handle,
    n: u64,
    told: &mut Told,
) -> u32
    ensures { Performs result (content handle.old) (content handle.new) told.old told.new (command.Put (literal.Host (host.U64 n))) }
{
    perform(
        alloc,
        handle,
        told,
        |world| world.put(&Literal::Host(Host::U64(n))),
    )
}

/// Appends an `i8` of the host.
#[unsafe(no_mangle)]
pub extern "C" fn rhai_host_put_i8(
    alloc: Global,
    handle: &mut Handle,
    n: i8,
    told: &mut Told,
) -> u32
    ensures { Performs result (content handle.old) (content handle.new) told.old told.new (command.Put (literal.Host (host.I8 n))) }
{
    perform(
        alloc,
        handle,
        told,
        |world| world.put(&Literal::Host(Host::I8(n))),
    )
}

/// Appends an `i16` of the host.
#[unsafe(no_mangle)]
pub extern "C" fn rhai_host_put_i16(
    alloc: Global,
    handle: &mut Handle,
    n: i16,
    told: &mut Told,
) -> u32
    ensures { Performs result (content handle.old) (content handle.new) told.old told.new (command.Put (literal.Host (host.I16 n))) }
{
    perform(
        alloc,
        handle,
        told,
        |world| world.put(&Literal::Host(Host::I16(n))),
    )
}

/// Appends an `i32` of the host.
#[unsafe(no_mangle)]
pub extern "C" fn rhai_host_put_i32(
    alloc: Global,
    handle: &mut Handle,
    n: i32,
    told: &mut Told,
) -> u32
    ensures { Performs result (content handle.old) (content handle.new) told.old told.new (command.Put (literal.Host (host.I32 n))) }
{
    perform(
        alloc,
        handle,
        told,
        |world| world.put(&Literal::Host(Host::I32(n))),
    )
}
