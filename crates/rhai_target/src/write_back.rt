//! Write-back: a working value is written to one part of the held value of a source. Each call
//! follows the source's chain once.
ghost use Rattle.std.specs.Prelude.{◌≡◌, ◌<◌, [], true, false, codes, length, is_some, MatchOption, OnOk, OnErr};
ghost use Rattle.rhai_value.specs.End.{end, end_name, held_part, value_after, store_after};
ghost use Rattle.rhai_value.specs.Parts.{int_of, text_of, blob_of};
ghost use Rattle.rhai_bits.specs.Bits.{with_field as changed_field};
ghost use Rattle.rhai_target.specs.Change.{on_int, bit_change, field_change, byte_change, char_change, value_changed, store_changed, IsAnswer};

use rhai_bits::{with_bit, with_field};
use rhai_text::{EvalAltResult, ImmutableString, Position};
use rhai_value::{Blob, Dynamic, INT, InStore, Store};
use std::alloc::Global;

/// Writes the boolean held by the working value to one bit of the held int.
/// Errors: `ErrorMismatchDataType`, at this position of the script, for a working value of another
/// type; nothing changes.
/// Cost: that of `Dynamic::held`; no memory.
/// rhai: an assignment to an index of an int.
#[inline(always)]
pub fn write_bit(
    source: &mut Dynamic,
    store: &mut Store,
    value: &Dynamic,
    bit: u8,
    pos: Position,
) -> Result<(), EvalAltResult>
    requires place { bit < 64 }
    requires held { is_some (held_part int_of (end store.old [] source.old)) ≡ true }
    ensures answer { IsAnswer false (bit_change store.old value.now bit) (codes "bool") (end_name (end store.old [] value.now)) pos result }
    ensures own { OnOk result (source.new ≡ value_changed (bit_change store.old value.now bit) (end store.old [] source.old) source.old) }
    ensures store { OnOk result (store.new ≡ store_changed (bit_change store.old value.now bit) (end store.old [] source.old) store.old) }
    ensures err { OnErr result ((source.new ≡ source.old) × (store.new ≡ store.old)) }
{
    let is_set = match value.as_bool(store) {
        Ok(is_set) => is_set,
        Err(found) => return Err(EvalAltResult::mismatch("bool", found, pos)),
    };
    let mut place = InStore {
        value: source,
        store,
    };
    let number = place.held_part_mut::<INT>();
    *number = with_bit(*number, bit, is_set);
    Ok(())
}

/// Writes the int held by the working value, shifted left, to the bits of the mask in the held int.
/// Errors: `ErrorMismatchDataType`, at this position of the script, for a working value of another
/// type; nothing changes.
/// Cost: that of `Dynamic::held`; no memory.
/// rhai: an assignment to a range of an int.
pub fn write_field(
    source: &mut Dynamic,
    store: &mut Store,
    value: &Dynamic,
    mask: INT,
    shift: u8,
    pos: Position,
) -> Result<(), EvalAltResult>
    requires place { shift < 64 }
    requires held { is_some (held_part int_of (end store.old [] source.old)) ≡ true }
    ensures answer { IsAnswer false (field_change store.old value.now mask shift) (codes "integer") (end_name (end store.old [] value.now)) pos result }
    ensures own { OnOk result (source.new ≡ value_changed (field_change store.old value.now mask shift) (end store.old [] source.old) source.old) }
    ensures store { OnOk result (store.new ≡ store_changed (field_change store.old value.now mask shift) (end store.old [] source.old) store.old) }
    ensures err { OnErr result ((source.new ≡ source.old) × (store.new ≡ store.old)) }
{
    let bits = match value.as_int(store) {
        Ok(bits) => bits,
        Err(found) => return Err(EvalAltResult::mismatch("integer", found, pos)),
    };
    put_field(source, store, mask, shift, bits);
    Ok(())
}

/// Writes bits to a field of the held int: shared by `write_field` and the write-back of a target.
#[inline(always)]
pub(crate) fn put_field(source: &mut Dynamic, store: &mut Store, mask: INT, shift: u8, bits: INT)
    requires place { shift < 64 }
    requires held { is_some (held_part int_of (end store.old [] source.old)) ≡ true }
    ensures own { source.new ≡ value_after (on_int (changed_field mask shift bits)) (end store.old [] source.old) source.old }
    ensures store { store.new ≡ store_after (on_int (changed_field mask shift bits)) (end store.old [] source.old) store.old }
{
    let mut place = InStore {
        value: source,
        store,
    };
    let number = place.held_part_mut::<INT>();
    *number = with_field(*number, mask, shift, bits);
}

/// Writes the int held by the working value, modulo 256, to one byte of the held blob.
/// Errors: `ErrorMismatchDataType`, at this position of the script, for a working value of another
/// type; nothing changes.
/// Cost: that of `Dynamic::held`; no memory.
/// rhai: an assignment to an index of a blob.
#[inline(always)]
pub fn write_byte(
    source: &mut Dynamic,
    store: &mut Store,
    value: &Dynamic,
    index: usize,
    pos: Position,
) -> Result<(), EvalAltResult>
    requires place { MatchOption (held_part blob_of (end store.old [] source.old)) ⊥ (λ bytes. index < length bytes) }
    ensures answer { IsAnswer false (byte_change store.old value.now index) (codes "INT") (end_name (end store.old [] value.now)) pos result }
    ensures own { OnOk result (source.new ≡ value_changed (byte_change store.old value.now index) (end store.old [] source.old) source.old) }
    ensures store { OnOk result (store.new ≡ store_changed (byte_change store.old value.now index) (end store.old [] source.old) store.old) }
    ensures err { OnErr result ((source.new ≡ source.old) × (store.new ≡ store.old)) }
{
    let number = match value.as_int(store) {
        Ok(number) => number,
        Err(found) => return Err(EvalAltResult::mismatch("INT", found, pos)),
    };
    let byte = number.rem_euclid(256) as u8;
    let mut place = InStore {
        value: source,
        store,
    };
    place.held_part_mut::<Blob>()[index] = byte;
    Ok(())
}

/// Writes the character held by the working value over one character of the held text; past the end
/// of the text nothing changes.
/// Errors: `ErrorMismatchDataType`, at this position of the script, for a working value of another
/// type; `ErrorMemory`; nothing changes.
/// Cost: the length of the text; memory for one new text.
/// rhai: an assignment to an index of a text.
#[inline(never)]
pub fn write_char(
    source: &mut Dynamic,
    alloc: Global,
    store: &mut Store,
    value: &Dynamic,
    index: usize,
    pos: Position,
) -> Result<(), EvalAltResult>
    requires held { is_some (held_part text_of (end store.old [] source.old)) ≡ true }
    ensures answer { IsAnswer true (char_change store.old value.now index) (codes "char") (end_name (end store.old [] value.now)) pos result }
    ensures own { OnOk result (source.new ≡ value_changed (char_change store.old value.now index) (end store.old [] source.old) source.old) }
    ensures store { OnOk result (store.new ≡ store_changed (char_change store.old value.now index) (end store.old [] source.old) store.old) }
    ensures err { OnErr result ((source.new ≡ source.old) × (store.new ≡ store.old)) }
{
    let character = match value.as_char(store) {
        Ok(character) => character,
        Err(found) => return Err(EvalAltResult::mismatch("char", found, pos)),
    };
    let mut place = InStore {
        value: source,
        store,
    };
    let text = place.held_part_mut::<ImmutableString>();
    match text.with_char(alloc, index, character) {
        Ok(changed) => {
            *text = changed;
            Ok(())
        }
        Err(refused) => Err(EvalAltResult::ErrorMemory(refused)),
    }
}
