//! Commands on a place: a hand position, or the newest entry with the name of a number.
ghost use Rattle.std.specs.Prelude.{option_map};
ghost use Rattle.rhai_host.specs.Content.{content};
ghost use Rattle.rhai_run.specs.declared.command.Command.TheVariants as command;
ghost use Rattle.rhai_host.specs.Calls.{PerformsIf};
ghost use Rattle.rhai_host.specs.Names.{place_at};

use crate::handle::Handle;
use crate::perform::perform_at;
use crate::told::Told;
use std::alloc::Global;

/// Locks the cell of the holder at the place: from then on it is read and written only through the
/// mark. Appends the mark to the list of marks.
#[unsafe(no_mangle)]
pub extern "C" fn rhai_host_mark(
    alloc: Global,
    handle: &mut Handle,
    is_entry: bool,
    at: usize,
    told: &mut Told,
) -> u32
    ensures { PerformsIf result (content handle.old) (content handle.new) told.old told.new (λ k. option_map (λ p. command.Mark p) (place_at k is_entry at)) }
{
    perform_at(
        alloc,
        handle,
        is_entry,
        at,
        told,
        |world, place| world.mark(place),
    )
}

/// Writes the boolean at the hand position to this bit of the int at the place.
#[unsafe(no_mangle)]
pub extern "C" fn rhai_host_write_bit(
    alloc: Global,
    handle: &mut Handle,
    is_entry: bool,
    at: usize,
    bit: u8,
    j: usize,
    told: &mut Told,
) -> u32
    ensures { PerformsIf result (content handle.old) (content handle.new) told.old told.new (λ k. option_map (λ p. command.WriteBit p bit j) (place_at k is_entry at)) }
{
    perform_at(
        alloc,
        handle,
        is_entry,
        at,
        told,
        |world, place| world.write_bit(place, bit, j),
    )
}

/// Writes the int at the hand position, shifted left, to the bits of the mask in the int at the
/// place.
#[unsafe(no_mangle)]
pub extern "C" fn rhai_host_write_field(
    alloc: Global,
    handle: &mut Handle,
    is_entry: bool,
    at: usize,
    mask: i64,
    shift: u8,
    j: usize,
    told: &mut Told,
) -> u32
    ensures { PerformsIf result (content handle.old) (content handle.new) told.old told.new (λ k. option_map (λ p. command.WriteField p mask shift j) (place_at k is_entry at)) }
{
    perform_at(
        alloc,
        handle,
        is_entry,
        at,
        told,
        |world, place| world.write_field(place, mask, shift, j),
    )
}

/// Writes the int at the hand position to the byte at this index of the blob at the place.
#[unsafe(no_mangle)]
pub extern "C" fn rhai_host_write_byte(
    alloc: Global,
    handle: &mut Handle,
    is_entry: bool,
    at: usize,
    index: usize,
    j: usize,
    told: &mut Told,
) -> u32
    ensures { PerformsIf result (content handle.old) (content handle.new) told.old told.new (λ k. option_map (λ p. command.WriteByte p index j) (place_at k is_entry at)) }
{
    perform_at(
        alloc,
        handle,
        is_entry,
        at,
        told,
        |world, place| world.write_byte(place, index, j),
    )
}

/// Writes the character at the hand position over the character at this index of the text at the
/// place.
#[unsafe(no_mangle)]
pub extern "C" fn rhai_host_write_char(
    alloc: Global,
    handle: &mut Handle,
    is_entry: bool,
    at: usize,
    index: usize,
    j: usize,
    told: &mut Told,
) -> u32
    ensures { PerformsIf result (content handle.old) (content handle.new) told.old told.new (λ k. option_map (λ p. command.WriteChar p index j) (place_at k is_entry at)) }
{
    perform_at(
        alloc,
        handle,
        is_entry,
        at,
        told,
        |world, place| world.write_char(place, index, j),
    )
}

/// Replaces the characters from the first index up to the second one with the printed value at the
/// hand position. The second one is replaced too, unless the slice is exclusive.
#[unsafe(no_mangle)]
pub extern "C" fn rhai_host_write_slice(
    alloc: Global,
    handle: &mut Handle,
    is_entry: bool,
    at: usize,
    start: usize,
    end: usize,
    exclusive: bool,
    j: usize,
    told: &mut Told,
) -> u32
    ensures { PerformsIf result (content handle.old) (content handle.new) told.old told.new (λ k. option_map (λ p. command.WriteSlice p start end exclusive j) (place_at k is_entry at)) }
{
    perform_at(
        alloc,
        handle,
        is_entry,
        at,
        told,
        |world, place| world.write_slice(place, start, end, exclusive, j),
    )
}
