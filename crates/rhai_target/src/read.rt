//! Reading a part of the held value of a source, with the `requires` of its write-back, and in the
//! terms of its laws. Each call follows the source's chain once.
ghost use Rattle.std.specs.Prelude.{◌≡◌, ◌<◌, [], true, length, is_some, slice_get, option_and_then, option_map, IfOk, MatchOption, Some};
ghost use Rattle.rhai_value.specs.End.{end, held_part};
ghost use Rattle.rhai_value.specs.Parts.{int_of, text_of, blob_of};
ghost use Rattle.rhai_bits.specs.Bits.{bit as bit_in, field};
ghost use Rattle.rhai_target.specs.Read.{slice_in};

use crate::slice::Slice;
use rhai_bits::{bit_of, field_of};
use rhai_text::ImmutableString;
use rhai_value::{Blob, Dynamic, INT, Store};
use std::alloc::{AllocError, Global};

/// Reads one bit of the held int: what `write_bit` writes.
/// Cost: that of `Dynamic::held`; no memory.
pub fn read_bit(source: &Dynamic, store: &Store, bit: u8) -> bool
    requires place { bit < 64 }
    requires held { is_some (held_part int_of (end store.now [] source.now)) ≡ true }
    ensures { option_map (λ n. bit_in n bit) (held_part int_of (end store.now [] source.now)) ≡ Some result }
{
    let number = source.known_part::<INT>(store);
    bit_of(*number, bit)
}

/// Reads the bits of the mask in the held int, shifted right by `shift`: what `write_field` writes.
/// The vacated bits are zero, so that a written value is read back even at the top of the int.
/// Cost: that of `Dynamic::held`; no memory.
pub fn read_field(source: &Dynamic, store: &Store, mask: INT, shift: u8) -> INT
    requires place { shift < 64 }
    requires held { is_some (held_part int_of (end store.now [] source.now)) ≡ true }
    ensures { option_map (λ n. field mask shift n) (held_part int_of (end store.now [] source.now)) ≡ Some result }
{
    let number = source.known_part::<INT>(store);
    field_of(*number, mask, shift)
}

/// Reads one byte of the held blob: what `write_byte` writes.
/// Cost: that of `Dynamic::held`; no memory.
pub fn read_byte(source: &Dynamic, store: &Store, index: usize) -> u8
    requires place { MatchOption (held_part blob_of (end store.now [] source.now)) ⊥ (λ bytes. index < length bytes) }
    ensures { option_and_then (λ bytes. slice_get bytes index) (held_part blob_of (end store.now [] source.now)) ≡ Some result }
{
    let bytes = source.known_part::<Blob>(store);
    bytes[index]
}

/// Reads one character of the held text: what `write_char` writes; `None` past the end of the text.
/// Cost: constant for an ASCII text, otherwise the length of the text up to that character; no
/// memory.
pub fn read_char(source: &Dynamic, store: &Store, index: usize) -> Option<char>
    requires { is_some (held_part text_of (end store.now [] source.now)) ≡ true }
    ensures { option_and_then (λ cs. slice_get cs index) (held_part text_of (end store.now [] source.now)) ≡ result }
{
    let text = source.known_part::<ImmutableString>(store);
    text.char_at(index)
}

/// Reads the characters of the held text that `write_slice` replaces; none if the slice ends before
/// it starts.
/// Errors: the allocation of the new text fails.
/// Cost: that of `ImmutableString::slice`; memory for one new text.
pub fn read_slice(
    alloc: Global,
    source: &Dynamic,
    store: &Store,
    slice: Slice,
) -> Result<ImmutableString, AllocError>
    requires { is_some (held_part text_of (end store.now [] source.now)) ≡ true }
    ensures { IfOk result (λ t. option_map (slice_in slice) (held_part text_of (end store.now [] source.now)) ≡ Some t) }
{
    let text = source.known_part::<ImmutableString>(store);
    text.slice(alloc, slice.start, slice.end, slice.exclusive)
}
