//! Parts of values that are written back.
ghost use Rattle.std.specs.Prelude.{◌≡◌, [], true, is_some, Some, None, if◌then◌else◌, OnOk, OnErr};
ghost use Rattle.rhai_text.specs.declared.error.EvalAltResult.TheVariants.{ErrorMismatchDataType};
ghost use Rattle.rhai_text.specs.contracts.position.Position;
ghost use Rattle.rhai_value.specs.End.{end, held_part};
ghost use Rattle.rhai_value.specs.Parts.{int_of, blob_of, text_of};
ghost use Rattle.rhai_target.specs.Change.{value_changed, store_changed};
ghost use Rattle.rhai_run.specs.declared.answer.Refusal.TheVariants.{Fault, WrongSource};
ghost use Rattle.rhai_run.specs.declared.not_done.NotDone.TheVariants.{Refused};
ghost use Rattle.rhai_run.specs.WriteBack.{no_bit, no_byte, rule, IsWorking};
ghost use Rattle.rhai_run.specs.Does.{Tests};

use crate::answer::Refusal;
use crate::not_done::NotDone;
use rhai_show::laws::copies_print_alike;
use rhai_target::{Slice, write_bit, write_byte, write_char, write_field, write_slice};
use rhai_text::{EvalAltResult, Position};
use rhai_value::{Blob, Dynamic, INT, Store};
use std::alloc::{AllocError, Global};

/// A part of a value that is written back.
#[derive(Copy, Clone)]
pub(crate) enum Piece {
    /// A bit of an int.
    Bit(u8),
    /// The bits of a mask in an int, for a value that is shifted left.
    Field(INT, u8),
    /// A byte of a blob.
    Byte(usize),
    /// A character of a text.
    Character(usize),
    /// Consecutive characters of a text.
    Characters(Slice),
}

fn wrong_type(wanted: &'static str, found: &'static str) -> NotDone
    ensures { result ≡ Refused (Fault (ErrorMismatchDataType wanted.now found.now Position.NONE)) }
{
    NotDone::Refused(Refusal::Fault(EvalAltResult::mismatch(wanted, found, Position::NONE)))
}

/// Fails unless a source holds an int, and an int has the bit.
fn has_bit(source: &Dynamic, store: &Store, place: u8) -> Result<(), NotDone>
    ensures { Tests result (no_bit (held_part int_of (end store.now [] source.now)) place) }
{
    if !source.is_int(store) {
        return Err(NotDone::Refused(Refusal::WrongSource));
    }
    if place >= 64 {
        return Err(NotDone::Refused(Refusal::BitPlace));
    }
    Ok(())
}

/// Fails unless a source holds a blob that has the byte.
fn has_byte(source: &Dynamic, store: &Store, index: usize) -> Result<(), NotDone>
    ensures { Tests result (no_byte (held_part blob_of (end store.now [] source.now)) index) }
{
    match source.held_part::<Blob>(store) {
        None => Err(NotDone::Refused(Refusal::WrongSource)),
        Some(bytes) if index >= bytes.len() => Err(NotDone::Refused(Refusal::BytePlace)),
        Some(_) => Ok(()),
    }
}

/// Fails unless a source holds a text.
fn has_text(source: &Dynamic, store: &Store) -> Result<(), NotDone>
    ensures { Tests result (if is_some (held_part text_of (end store.now [] source.now)) then None else Some WrongSource) }
{
    if !source.is_string(store) {
        return Err(NotDone::Refused(Refusal::WrongSource));
    }
    Ok(())
}

impl Piece {
    /// Fails unless a source has the piece.
    pub(crate) fn is_in(self, source: &Dynamic, store: &Store) -> Result<(), NotDone>
        ensures { Tests result ((rule self).lack (end store.now [] source.now)) }
    {
        match self {
            Piece::Bit(place) => has_bit(source, store, place),
            Piece::Field(_, shift) => has_bit(source, store, shift),
            Piece::Byte(index) => has_byte(source, store, index),
            Piece::Character(_) => has_text(source, store),
            Piece::Characters(_) => has_text(source, store),
        }
    }

    /// Makes a value with the same effect on a source as this one, but distinct from the source,
    /// which may be this one itself.
    #[tactic(auto, using(crate::proofs::WorkingValues::working_bit, crate::proofs::WorkingValues::working_field, crate::proofs::WorkingValues::working_byte, crate::proofs::WorkingValues::working_character))]
    pub(crate) fn working(
        self,
        value: &Dynamic,
        alloc: Global,
        store: &Store,
    ) -> Result<Dynamic, NotDone>
        ensures { IsWorking self result store.now value.now }
    {
        match self {
            Piece::Bit(_) => match value.as_bool(store) {
                Ok(is_set) => Ok(Dynamic::from_bool(is_set)),
                Err(found) => Err(wrong_type("bool", found)),
            },
            Piece::Field(..) => match value.as_int(store) {
                Ok(bits) => Ok(Dynamic::from_int(bits)),
                Err(found) => Err(wrong_type("integer", found)),
            },
            Piece::Byte(_) => match value.as_int(store) {
                Ok(number) => Ok(Dynamic::from_int(number)),
                Err(found) => Err(wrong_type("INT", found)),
            },
            Piece::Character(_) => match value.as_char(store) {
                Ok(character) => Ok(Dynamic::from_char(character)),
                Err(found) => Err(wrong_type("char", found)),
            },
            Piece::Characters(_) => {
                copies_print_alike();
                Ok(value.copy(alloc)?)
            }
        }
    }

    /// Writes a working value to the piece of a source.
    pub(crate) fn write(
        self,
        source: &mut Dynamic,
        alloc: Global,
        store: &mut Store,
        value: &Dynamic,
    ) -> Result<(), AllocError>
        requires there { (rule self).lack (end store.old [] source.old) ≡ None }
        requires working { is_some ((rule self).change store.old source.old value.now) ≡ true }
        ensures own { OnOk result (source.new ≡ value_changed ((rule self).change store.old source.old value.now) (end store.old [] source.old) source.old) }
        ensures store { OnOk result (store.new ≡ store_changed ((rule self).change store.old source.old value.now) (end store.old [] source.old) store.old) }
        ensures err { OnErr result ((source.new ≡ source.old) × (store.new ≡ store.old) × ((rule self).makes_text ≡ true)) }
    {
        let done = match self {
            Piece::Bit(place) => write_bit(source, store, value, place, Position::NONE),
            Piece::Field(mask, shift) => {
                write_field(source, store, value, mask, shift, Position::NONE)
            }
            Piece::Byte(index) => write_byte(source, store, value, index, Position::NONE),
            Piece::Character(index) => write_char(
                source,
                alloc,
                store,
                value,
                index,
                Position::NONE,
            ),
            Piece::Characters(slice) => return write_slice(source, alloc, store, value, slice),
        };
        match done {
            Ok(()) => Ok(()),
            Err(_) => Err(AllocError),
        }
    }
}
