//! Commands that write back one part of a value.
ghost use Rattle.std.specs.Prelude.{◌≡◌, [], true, is_some, None, IfSome, IsSomeAnd, OnOk, OnErr};
ghost use Rattle.rhai_value.specs.End.{end};
ghost use Rattle.rhai_run.specs.declared.pieces.Piece.TheVariants.{Bit, Field, Byte, Character};
ghost use Rattle.rhai_run.specs.Slots.{changed_in, value_in};
ghost use Rattle.rhai_run.specs.WriteBack.{rule, step_write_back};
ghost use Rattle.rhai_run.specs.Places.{place_of};
ghost use Rattle.rhai_run.specs.Does.{Steps, Does};
ghost use Rattle.rhai_run.specs.declared.command.Command.TheVariants as command;
ghost use Rattle.rhai_run.specs.Step.{step};

use crate::answer::Answer;
use crate::command::PlaceRef;
use crate::laws;
use crate::not_done::NotDone;
use crate::pieces::Piece;
use crate::slot::Slot;
use crate::slots::Slots;
use crate::world::{World, replied};
use crate::world_state::WorldState;
use rhai_target::Slice;
use rhai_value::{Dynamic, INT};
use std::alloc::AllocError;

impl WorldState {
    /// Writes a working value to a piece of the value in a slot.
    #[tactic(auto, using(crate::proofs::SlotValues::hand_kept, crate::proofs::SlotValues::scope_kept))]
    fn put_piece(&mut self, slot: Slot, piece: Piece, value: &Dynamic) -> Result<(), AllocError>
        requires suits { IsSomeAnd (value_in self.old.hand self.old.entries slot) (λ t.
            ((rule piece).lack (end self.old.store [] t) ≡ None) × (is_some ((rule piece).change self.old.store t value.now) ≡ true)) }
        ensures ok { OnOk result (IfSome (value_in self.old.hand self.old.entries slot) (λ t.
            self.new ≡ changed_in self.old slot ((rule piece).change self.old.store t value.now) t)) }
        ensures err { OnErr result ((self.new ≡ self.old) × ((rule piece).makes_text ≡ true)) }
    {
        let mut places = Slots {
            hand: &mut self.hand,
            scope: &mut self.scope,
        };
        let source = places.at_mut(slot);
        piece.write(source, self.alloc, &mut self.store, value)
    }

    /// Writes the value at a hand position to a piece of the one at a place.
    #[tactic(auto, using(crate::proofs::InSlots::source_is, crate::proofs::InSlots::placed_is, crate::proofs::InSlots::placed_refused, crate::proofs::InSlots::same_change))]
    fn write_back(&mut self, place: PlaceRef<'_>, piece: Piece, j: usize) -> Result<Answer, NotDone>
        ensures { Does result self.old self.new (step_write_back self.old (place_of place.entry) piece j) }
    {
        let value = self.value(j)?;
        let slot = Slot::of(&self.hand, &self.scope, place)?;
        piece.is_in(slot.value(&self.hand, &self.scope), &self.store)?;
        let value = piece.working(value, self.alloc, &self.store)?;
        self.put_piece(slot, piece, &value)?;
        Ok(Answer::Done)
    }

    pub(crate) fn write_bit(
        &mut self,
        place: PlaceRef<'_>,
        bit: u8,
        j: usize,
    ) -> Result<Answer, NotDone>
        ensures { Does result self.old self.new (step self.old (command.WriteBit (place_of place.entry) bit j)) }
    {
        self.write_back(place, Piece::Bit(bit), j)
    }

    pub(crate) fn write_field(
        &mut self,
        place: PlaceRef<'_>,
        mask: INT,
        shift: u8,
        j: usize,
    ) -> Result<Answer, NotDone>
        ensures { Does result self.old self.new (step self.old (command.WriteField (place_of place.entry) mask shift j)) }
    {
        self.write_back(place, Piece::Field(mask, shift), j)
    }

    pub(crate) fn write_byte(
        &mut self,
        place: PlaceRef<'_>,
        index: usize,
        j: usize,
    ) -> Result<Answer, NotDone>
        ensures { Does result self.old self.new (step self.old (command.WriteByte (place_of place.entry) index j)) }
    {
        self.write_back(place, Piece::Byte(index), j)
    }

    pub(crate) fn write_char(
        &mut self,
        place: PlaceRef<'_>,
        index: usize,
        j: usize,
    ) -> Result<Answer, NotDone>
        ensures { Does result self.old self.new (step self.old (command.WriteChar (place_of place.entry) index j)) }
    {
        self.write_back(place, Piece::Character(index), j)
    }

    pub(crate) fn write_slice(
        &mut self,
        place: PlaceRef<'_>,
        start: usize,
        end: usize,
        exclusive: bool,
        j: usize,
    ) -> Result<Answer, NotDone>
        ensures { Does result self.old self.new (step self.old (command.WriteSlice (place_of place.entry) start end exclusive j)) }
    {
        let slice = Slice {
            start,
            end,
            exclusive,
        };
        self.write_back(place, Piece::Characters(slice), j)
    }
}

impl World {
    /// Writes the boolean at the hand position to this bit of the int at the place.
    /// Errors: none; it allocates nothing.
    #[inline(always)]
    pub fn write_bit(
        &mut self,
        place: PlaceRef<'_>,
        bit: u8,
        j: usize,
    ) -> Result<Answer, AllocError>
        ensures { Steps result self.old self.new (step self.old (command.WriteBit (place_of place.entry) bit j)) }
    {
        laws::methods_fit();
        replied(self.state.write_bit(place, bit, j))
    }

    /// Writes the int at the hand position, shifted left, to the bits of the mask in the int at the
    /// place.
    /// Errors: none; it allocates nothing.
    #[inline(always)]
    pub fn write_field(
        &mut self,
        place: PlaceRef<'_>,
        mask: INT,
        shift: u8,
        j: usize,
    ) -> Result<Answer, AllocError>
        ensures { Steps result self.old self.new (step self.old (command.WriteField (place_of place.entry) mask shift j)) }
    {
        laws::methods_fit();
        replied(self.state.write_field(place, mask, shift, j))
    }

    /// Writes the int at the hand position to the byte of this index of the blob at the place.
    /// Errors: none; it allocates nothing.
    #[inline(always)]
    pub fn write_byte(
        &mut self,
        place: PlaceRef<'_>,
        index: usize,
        j: usize,
    ) -> Result<Answer, AllocError>
        ensures { Steps result self.old self.new (step self.old (command.WriteByte (place_of place.entry) index j)) }
    {
        laws::methods_fit();
        replied(self.state.write_byte(place, index, j))
    }

    /// Writes the character at the hand position over the one at this index of the text at the
    /// place.
    /// Errors: an allocation fails; nothing changes.
    #[inline(always)]
    pub fn write_char(
        &mut self,
        place: PlaceRef<'_>,
        index: usize,
        j: usize,
    ) -> Result<Answer, AllocError>
        ensures { Steps result self.old self.new (step self.old (command.WriteChar (place_of place.entry) index j)) }
    {
        laws::methods_fit();
        replied(self.state.write_char(place, index, j))
    }

    /// Writes the printed text of the value at the hand position over the characters from the first
    /// index to the second; the one at the second is replaced too unless the slice is exclusive.
    /// Errors: an allocation fails; nothing changes.
    #[inline(always)]
    pub fn write_slice(
        &mut self,
        place: PlaceRef<'_>,
        start: usize,
        end: usize,
        exclusive: bool,
        j: usize,
    ) -> Result<Answer, AllocError>
        ensures { Steps result self.old self.new (step self.old (command.WriteSlice (place_of place.entry) start end exclusive j)) }
    {
        laws::methods_fit();
        replied(self.state.write_slice(place, start, end, exclusive, j))
    }
}
