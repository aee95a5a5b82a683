//! Functions on the 64 bits of an int, the lowest of which is bit 0. A negative index counts from
//! the end. Where rhai fails, since an index is out of range, these calls return `None` or `false`.
ghost use Rattle.std.specs.Prelude.{◌≡◌, ◌<◌, ◌≤◌, ◌+◌, is_some, map, option_map, IfOk, IfSome};
ghost use Rattle.std.specs.List.{range_with_len};
ghost use Rattle.rhai_bits.specs.Bits.{bit};
ghost use Rattle.rhai_value.specs.Steps.{item_place as place_of_item};
ghost use Rattle.rhai_value.specs.Tree.{bool, fresh};
ghost use Rattle.rhai_packs.specs.Bits.{bits_in, mask as mask_of, part_of, with_bit_at, with_bits_in};

use crate::places::at_most;
use rhai_bits::{bit_of, field_of, with_bit, with_field};
use rhai_value::{Array, Dynamic, INT, item_place};
use std::alloc::{AllocError, Global};

/// Returns whether a bit is set, if there is one at this index.
/// Cost: constant.
/// rhai: `get_bit`.
pub fn get_bit(number: INT, index: INT) -> Option<bool>
    ensures { result ≡ option_map (bit number) (place_of_item 64 index) }
{
    let place = item_place(64, index)?;
    Some(bit_of(number, place as u8))
}

/// Sets or clears the bit at an index, and returns whether there is one.
/// Cost: constant.
/// rhai: `set_bit`.
pub fn set_bit(number: &mut INT, index: INT, is_set: bool) -> bool
    ensures answer { result ≡ is_some (place_of_item 64 index) }
    ensures number { number.new ≡ with_bit_at number.old (place_of_item 64 index) is_set }
{
    match item_place(64, index) {
        Some(place) => {
            *number = with_bit(*number, place as u8, is_set);
            true
        }
        None => false,
    }
}

/// Returns the int of up to `count` bits from an index on, if there is a bit at this index or no
/// bits are wanted.
/// Cost: constant.
/// rhai: `get_bits`.
pub fn get_bits(number: INT, index: INT, count: INT) -> Option<INT>
    ensures { result ≡ option_map (bits_in number) (part_of index count) }
{
    let (place, count) = part(index, count)?;
    Some(field_of(number, mask(place, count), place as u8))
}

/// Replaces up to `count` bits from an index on by the lowest bits of another int, and returns
/// whether there is a bit at this index, or no bits are wanted.
/// Cost: constant.
/// rhai: `set_bits`.
pub fn set_bits(number: &mut INT, index: INT, count: INT, bits: INT) -> bool
    ensures answer { result ≡ is_some (part_of index count) }
    ensures number { number.new ≡ with_bits_in number.old (part_of index count) bits }
{
    match part(index, count) {
        Some((place, count)) => {
            *number = with_field(*number, mask(place, count), place as u8, bits);
            true
        }
        None => false,
    }
}

/// Makes an array of all bits as booleans.
/// Errors: an allocation fails.
/// Cost: constant.
/// rhai: `bits`.
pub fn bits(alloc: Global, number: INT) -> Result<Array, AllocError>
    ensures { IfOk result (λ items. items.items ≡ map (λ i. fresh (bool (bit number i))) (range_with_len 0 64)) }
{
    let mut items = Vec::with_capacity(alloc, 64)?;
    for place in 0..64 {
        items.push_reserved(Dynamic::from_bool(bit_of(number, place)));
    }
    Ok(items)
}

/// Returns the int in which `count` bits are set from a place on.
/// Cost: constant.
pub fn mask(place: usize, count: usize) -> INT
    requires { place + count ≤ 64 }
    ensures { result ≡ mask_of place count }
{
    if count == 0 {
        return 0;
    }
    let ones = u64::MAX >> (64 - count) as u32;
    (ones << place as u32).cast_signed()
}

/// The place of the first bit of a part, and how many bits it has.
fn part(index: INT, count: INT) -> Option<(usize, usize)>
    ensures value { result ≡ part_of index count }
    ensures bounds { IfSome result (λ p. (p.0 < 64) × (p.0 + p.1 ≤ 64)) }
{
    if count < 1 {
        return Some((0, 0));
    }
    let place = item_place(64, index)?;
    Some((place, at_most(64 - place, count)))
}
