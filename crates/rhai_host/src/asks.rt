//! Questions about values, and their printed forms.
ghost use Rattle.rhai_host.specs.Content.{content};
ghost use Rattle.rhai_run.specs.declared.command.Command.TheVariants as command;
ghost use Rattle.rhai_run.specs.declared.command.Question.TheVariants as question;
ghost use Rattle.rhai_host.specs.Calls.{Performs};

use crate::handle::Handle;
use crate::perform::perform;
use crate::told::Told;
use rhai_run::Question;
use std::alloc::Global;

/// Returns the tag of the value at the hand position.
#[unsafe(no_mangle)]
pub extern "C" fn rhai_host_tag(
    alloc: Global,
    handle: &mut Handle,
    i: usize,
    told: &mut Told,
) -> u32
    ensures { Performs result (content handle.old) (content handle.new) told.old told.new (command.Ask i question.Tag) }
{
    perform(alloc, handle, told, |world| world.ask(i, &Question::Tag))
}

/// Returns whether the value at the hand position is of one of the host's types.
#[unsafe(no_mangle)]
pub extern "C" fn rhai_host_is_variant(
    alloc: Global,
    handle: &mut Handle,
    i: usize,
    told: &mut Told,
) -> u32
    ensures { Performs result (content handle.old) (content handle.new) told.old told.new (command.Ask i question.Variant) }
{
    perform(
        alloc,
        handle,
        told,
        |world| world.ask(i, &Question::Variant),
    )
}

/// Returns whether the value at the hand position is a holder.
#[unsafe(no_mangle)]
pub extern "C" fn rhai_host_is_shared(
    alloc: Global,
    handle: &mut Handle,
    i: usize,
    told: &mut Told,
) -> u32
    ensures { Performs result (content handle.old) (content handle.new) told.old told.new (command.Ask i question.Shared) }
{
    perform(alloc, handle, told, |world| world.ask(i, &Question::Shared))
}

/// Returns whether the first content of the value at the hand position is a constant.
#[unsafe(no_mangle)]
pub extern "C" fn rhai_host_is_read_only(
    alloc: Global,
    handle: &mut Handle,
    i: usize,
    told: &mut Told,
) -> u32
    ensures { Performs result (content handle.old) (content handle.new) told.old told.new (command.Ask i question.ReadOnly) }
{
    perform(
        alloc,
        handle,
        told,
        |world| world.ask(i, &Question::ReadOnly),
    )
}

/// Returns whether the value at the hand position is, or contains, a holder of a marked cell.
#[unsafe(no_mangle)]
pub extern "C" fn rhai_host_is_locked(
    alloc: Global,
    handle: &mut Handle,
    i: usize,
    told: &mut Told,
) -> u32
    ensures { Performs result (content handle.old) (content handle.new) told.old told.new (command.Ask i question.Locked) }
{
    perform(alloc, handle, told, |world| world.ask(i, &Question::Locked))
}

/// Returns the name of the type held at the hand position.
#[unsafe(no_mangle)]
pub extern "C" fn rhai_host_type_name(
    alloc: Global,
    handle: &mut Handle,
    i: usize,
    told: &mut Told,
) -> u32
    ensures { Performs result (content handle.old) (content handle.new) told.old told.new (command.Ask i question.TypeName) }
{
    perform(
        alloc,
        handle,
        told,
        |world| world.ask(i, &Question::TypeName),
    )
}

/// Returns whether the value at the hand position can be hashed.
#[unsafe(no_mangle)]
pub extern "C" fn rhai_host_is_hashable(
    alloc: Global,
    handle: &mut Handle,
    i: usize,
    told: &mut Told,
) -> u32
    ensures { Performs result (content handle.old) (content handle.new) told.old told.new (command.Ask i question.Hashable) }
{
    perform(
        alloc,
        handle,
        told,
        |world| world.ask(i, &Question::Hashable),
    )
}

/// Succeeds if unit is held at the hand position.
#[unsafe(no_mangle)]
pub extern "C" fn rhai_host_as_unit(
    alloc: Global,
    handle: &mut Handle,
    i: usize,
    told: &mut Told,
) -> u32
    ensures { Performs result (content handle.old) (content handle.new) told.old told.new (command.Ask i question.Unit) }
{
    perform(alloc, handle, told, |world| world.ask(i, &Question::Unit))
}

/// Returns the int held at the hand position.
#[unsafe(no_mangle)]
pub extern "C" fn rhai_host_as_int(
    alloc: Global,
    handle: &mut Handle,
    i: usize,
    told: &mut Told,
) -> u32
    ensures { Performs result (content handle.old) (content handle.new) told.old told.new (command.Ask i question.Int) }
{
    perform(alloc, handle, told, |world| world.ask(i, &Question::Int))
}

/// Returns the boolean held at the hand position.
#[unsafe(no_mangle)]
pub extern "C" fn rhai_host_as_bool(
    alloc: Global,
    handle: &mut Handle,
    i: usize,
    told: &mut Told,
) -> u32
    ensures { Performs result (content handle.old) (content handle.new) told.old told.new (command.Ask i question.Bool) }
{
    perform(alloc, handle, told, |world| world.ask(i, &Question::Bool))
}

/// Returns the character held at the hand position, as a text.
#[unsafe(no_mangle)]
pub extern "C" fn rhai_host_as_char(
    alloc: Global,
    handle: &mut Handle,
    i: usize,
    told: &mut Told,
) -> u32
    ensures { Performs result (content handle.old) (content handle.new) told.old told.new (command.Ask i question.Char) }
{
    perform(alloc, handle, told, |world| world.ask(i, &Question::Char))
}

/// Returns the text of the value at the hand position, in display format.
#[unsafe(no_mangle)]
pub extern "C" fn rhai_host_show(
    alloc: Global,
    handle: &mut Handle,
    i: usize,
    told: &mut Told,
) -> u32
    ensures { Performs result (content handle.old) (content handle.new) told.old told.new (command.Show i) }
{
    perform(alloc, handle, told, |world| world.show(i))
}

/// Returns the text of the value at the hand position, in debug format.
#[unsafe(no_mangle)]
pub extern "C" fn rhai_host_debug(
    alloc: Global,
    handle: &mut Handle,
    i: usize,
    told: &mut Told,
) -> u32
    ensures { Performs result (content handle.old) (content handle.new) told.old told.new (command.Debug i) }
{
    perform(alloc, handle, told, |world| world.debug(i))
}

/// Returns the hash bytes of the value at the hand position.
#[unsafe(no_mangle)]
pub extern "C" fn rhai_host_hash(
    alloc: Global,
    handle: &mut Handle,
    i: usize,
    told: &mut Told,
) -> u32
    ensures { Performs result (content handle.old) (content handle.new) told.old told.new (command.Hash i) }
{
    perform(alloc, handle, told, |world| world.hash(i))
}

/// Returns where a slice of a list of this length starts and how many items it has, for a start and
/// a number of items.
#[unsafe(no_mangle)]
pub extern "C" fn rhai_host_offset(
    alloc: Global,
    handle: &mut Handle,
    length: usize,
    start: i64,
    count: i64,
    told: &mut Told,
) -> u32
    ensures { Performs result (content handle.old) (content handle.new) told.old told.new (command.Offset length start count) }
{
    perform(
        alloc,
        handle,
        told,
        |world| world.offset(length, start, count),
    )
}

/// Returns the position of an item in a list of this length, or nothing; with the flag a negative
/// index counts from the end.
#[unsafe(no_mangle)]
pub extern "C" fn rhai_host_index(
    alloc: Global,
    handle: &mut Handle,
    length: usize,
    index: i64,
    from_end: bool,
    told: &mut Told,
) -> u32
    ensures { Performs result (content handle.old) (content handle.new) told.old told.new (command.Index length index from_end) }
{
    perform(
        alloc,
        handle,
        told,
        |world| world.index(length, index, from_end),
    )
}
