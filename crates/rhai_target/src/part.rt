//! Parts of a source given by an index: read, changed beside the source, and written back.
ghost use Rattle.std.specs.Prelude.{◌≡◌, [], true, false, length, option_and_then, IfOk, OnOk, OnErr};
ghost use Rattle.rhai_value.specs.End.{end, end_name, held_part};
ghost use Rattle.rhai_value.specs.Parts.{int_of, text_of, blob_of};
ghost use Rattle.rhai_target.specs.Change.{value_changed, store_changed, IsAnswer};
ghost use Rattle.rhai_target.specs.Part.{IsRead, HasPlace, bit_part, field_part, byte_part, char_part, char_read, slice_part, part_change, wanted_at, wants_memory, target_at};

use crate::offset::calc_index;
use crate::slice::{Slice, write_slice};
use crate::target::Target;
use crate::write_back::{write_bit, write_byte, write_char, write_field};
use rhai_bits::{bit_of, field_of};
use rhai_text::{EvalAltResult, ImmutableString, Position};
use rhai_value::{Dynamic, INT, Store};
use std::alloc::{AllocError, Global};

/// The place of a part in the held value of a source.
#[derive(Clone, Copy)]
pub enum PartPlace {
    /// One bit of an int, the lowest being 0.
    Bit(u8),
    /// The bits of the mask in an int; the value's lowest bit is bit `shift`.
    BitField { mask: INT, shift: u8 },
    /// One byte of a blob.
    BlobByte(usize),
    /// One character of a text.
    StringChar(usize),
    /// A slice of a text.
    StringSlice(Slice),
}

/// A part of a source: its place, and its working value, which is read, overwritten, and then
/// written back. It has no mark, so it may be dropped at any time, and the source is then
/// unchanged.
#[derive(Drop)]
pub struct ReadPart {
    /// Its place in the held value of the source.
    pub place: PartPlace,
    /// The working value.
    pub value: Dynamic,
}

/// Why a part wasn't read.
#[derive(Debug, Drop)]
pub enum NoPart {
    /// The source holds another type, of this name.
    Mismatch(&'static str),
    /// There is no part at this place.
    OutOfRange,
    /// The allocation of its working value failed.
    Memory(AllocError),
}

/// Reading parts. A source that holds another type is refused first, by the name of that type; then
/// a place outside the value.
impl ReadPart {
    /// Reads the bit at a place of the held int, as a boolean.
    /// Errors: `Mismatch` for another type; `OutOfRange` for a place other than 0 to 63: a negative
    /// one doesn't count from the end.
    /// Cost: that of `Dynamic::held`; no memory.
    /// rhai: an int indexed by an int.
    pub fn bit_at(source: &Dynamic, store: &Store, index: INT) -> Result<ReadPart, NoPart>
        ensures read { IsRead (held_part int_of (end store.now [] source.now)) (end_name (end store.now [] source.now)) (bit_part index) false result }
        ensures place { IfOk result (λ p. HasPlace store.now source.now p.place) }
    {
        let number = match source.as_int(store) {
            Ok(number) => number,
            Err(found) => return Err(NoPart::Mismatch(found)),
        };
        if index < 0 || index > 63 {
            return Err(NoPart::OutOfRange);
        }
        let bit = index as u8;
        Ok(ReadPart {
            place: PartPlace::Bit(bit),
            value: Dynamic::from_bool(bit_of(number, bit)),
        })
    }

    /// Reads the bits of the mask in the held int, shifted right by `shift`, as an int.
    /// Errors: `Mismatch` for another type; `OutOfRange` for a shift above 63.
    /// Cost: that of `Dynamic::held`; no memory.
    /// rhai: an int indexed by a range.
    pub fn field_at(
        source: &Dynamic,
        store: &Store,
        mask: INT,
        shift: u8,
    ) -> Result<ReadPart, NoPart>
        ensures read { IsRead (held_part int_of (end store.now [] source.now)) (end_name (end store.now [] source.now)) (field_part mask shift) false result }
        ensures place { IfOk result (λ p. HasPlace store.now source.now p.place) }
    {
        let number = match source.as_int(store) {
            Ok(number) => number,
            Err(found) => return Err(NoPart::Mismatch(found)),
        };
        if shift > 63 {
            return Err(NoPart::OutOfRange);
        }
        Ok(ReadPart {
            place: PartPlace::BitField { mask, shift },
            value: Dynamic::from_int(field_of(number, mask, shift)),
        })
    }

    /// Reads the byte at a place of the held blob, as an int. A negative place counts from the end.
    /// Errors: `Mismatch` for another type; `OutOfRange` if there is no such byte.
    /// Cost: that of `Dynamic::held`; no memory.
    /// rhai: a blob indexed by an int.
    pub fn byte_at(source: &Dynamic, store: &Store, index: INT) -> Result<ReadPart, NoPart>
        ensures read { IsRead (held_part blob_of (end store.now [] source.now)) (end_name (end store.now [] source.now)) (byte_part index) false result }
        ensures place { IfOk result (λ p. HasPlace store.now source.now p.place) }
    {
        let bytes = match source.as_blob_ref(store) {
            Ok(bytes) => bytes,
            Err(found) => return Err(NoPart::Mismatch(found)),
        };
        let Some(place) = calc_index(bytes.len(), index, true) else {
            return Err(NoPart::OutOfRange);
        };
        let Some(byte) = bytes.get(place) else {
            return Err(NoPart::OutOfRange);
        };
        Ok(ReadPart {
            place: PartPlace::BlobByte(place),
            value: Dynamic::from_int(INT::from(*byte)),
        })
    }

    /// Reads the character at a place of the held text. A negative place counts from the end.
    /// Errors: `Mismatch` for another type; `OutOfRange` if there is no such character.
    /// Cost: constant for an ASCII text, otherwise the length of the text up to the character, and
    /// for a negative place all of it first; no memory.
    /// rhai: a text indexed by an int.
    pub fn char_at(source: &Dynamic, store: &Store, index: INT) -> Result<ReadPart, NoPart>
        ensures read { IsRead (held_part text_of (end store.now [] source.now)) (end_name (end store.now [] source.now)) (char_part index) false result }
        ensures place { IfOk result (λ p. HasPlace store.now source.now p.place) }
    {
        let text = match source.as_immutable_string_ref(store) {
            Ok(text) => text,
            Err(found) => return Err(NoPart::Mismatch(found)),
        };
        let Some(place) = char_place(text, index) else {
            return Err(NoPart::OutOfRange);
        };
        let Some(character) = text.char_at(place) else {
            return Err(NoPart::OutOfRange);
        };
        Ok(ReadPart {
            place: PartPlace::StringChar(place),
            value: Dynamic::from_char(character),
        })
    }

    /// Reads the characters of a slice of the held text, as a text; none if it ends before it
    /// starts.
    /// Errors: `Mismatch` for another type; `Memory` if the allocation of the new text fails.
    /// Cost: the length of the text up to the end of the slice; memory for one new text.
    /// rhai: a text indexed by a range.
    pub fn slice_at(
        alloc: Global,
        source: &Dynamic,
        store: &Store,
        slice: Slice,
    ) -> Result<ReadPart, NoPart>
        ensures read { IsRead (held_part text_of (end store.now [] source.now)) (end_name (end store.now [] source.now)) (slice_part slice) true result }
        ensures place { IfOk result (λ p. HasPlace store.now source.now p.place) }
    {
        let text = match source.as_immutable_string_ref(store) {
            Ok(text) => text,
            Err(found) => return Err(NoPart::Mismatch(found)),
        };
        match text.slice(alloc, slice.start, slice.end, slice.exclusive) {
            Ok(part) => Ok(ReadPart {
                place: PartPlace::StringSlice(slice),
                value: Dynamic::from(part),
            }),
            Err(refused) => Err(NoPart::Memory(refused)),
        }
    }
}

/// Writing parts back.
impl ReadPart {
    /// Writes the working value back into the source, by the call for this kind of part, and
    /// consumes the part, even on an error.
    /// Errors: those of `write_bit`, `write_field`, `write_byte`, `write_char` and `write_slice`;
    /// source and store are then unchanged.
    /// Cost: that of the write-back.
    /// rhai: `Target::propagate_changed_value`.
    pub fn write_back(
        self,
        source: &mut Dynamic,
        alloc: Global,
        store: &mut Store,
        pos: Position,
    ) -> Result<(), EvalAltResult>
        requires { HasPlace store.old source.old self.place }
        ensures answer { IsAnswer (wants_memory self.place) (part_change store.old source.old self) (wanted_at self.place) (end_name (end store.old [] self.value)) pos result }
        ensures own { OnOk result (source.new ≡ value_changed (part_change store.old source.old self) (end store.old [] source.old) source.old) }
        ensures store { OnOk result (store.new ≡ store_changed (part_change store.old source.old self) (end store.old [] source.old) store.old) }
        ensures err { OnErr result ((source.new ≡ source.old) × (store.new ≡ store.old)) }
    {
        match self.place {
            PartPlace::Bit(bit) => write_bit(source, store, &self.value, bit, pos),
            PartPlace::BitField { mask, shift } => write_field(
                source,
                store,
                &self.value,
                mask,
                shift,
                pos,
            ),
            PartPlace::BlobByte(index) => write_byte(source, store, &self.value, index, pos),
            PartPlace::StringChar(index) => write_char(
                source,
                alloc,
                store,
                &self.value,
                index,
                pos,
            ),
            PartPlace::StringSlice(slice) => {
                write_slice(source, alloc, store, &self.value, slice)?;
                Ok(())
            }
        }
    }
}

impl<'a> Target<'a> {
    /// Makes the target that is this part of the source.
    /// Cost: constant; no memory.
    pub fn of_part(source: &'a mut Dynamic, part: ReadPart) -> Target<'a>
        ensures { result ≡ target_at source.entry part }
    {
        let value = part.value;
        match part.place {
            PartPlace::Bit(bit) => Target::Bit { source, value, bit },
            PartPlace::BitField { mask, shift } => Target::BitField {
                source,
                value,
                mask,
                shift,
            },
            PartPlace::BlobByte(index) => Target::BlobByte {
                source,
                value,
                index,
            },
            PartPlace::StringChar(index) => Target::StringChar {
                source,
                value,
                index,
            },
            PartPlace::StringSlice(
                Slice {
                    start,
                    end,
                    exclusive,
                },
            ) => Target::StringSlice {
                source,
                value,
                start,
                end,
                exclusive,
            },
        }
    }
}

/// The index of a character in a text; a negative place counts from the end, for which the
/// characters are counted. A place past the end is returned as it is.
fn char_place(text: &ImmutableString, index: INT) -> Option<usize>
    ensures { option_and_then (char_read text.now) result ≡ char_part index text.now }
{
    if index < 0 {
        calc_index(text.char_count(), index, true)
    } else {
        Some(index.unsigned_abs() as usize)
    }
}
