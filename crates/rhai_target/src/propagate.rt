//! Write-back of a target: its working value is written to the part of its source.
ghost use Rattle.std.specs.Prelude.{◌≡◌, OnOk, OnErr};
ghost use Rattle.rhai_target.specs.Target.{write_back_of, HasPart, IsMarkedIn, target_written, store_written, IsWrittenBack, IsField};

use crate::slice::{Slice, write_slice};
use crate::target::Target;
use crate::write_back::{put_field, write_bit, write_byte, write_char};
use rhai_text::{EvalAltResult, Position};
use rhai_value::Store;
use std::alloc::Global;

impl<'a> Target<'a> {
    /// Writes the working value of a part back into its source; does nothing for any other target.
    /// Errors: a working value of the wrong type, at this position of the script, before anything
    /// is written; `ErrorMemory` for a character or a slice. Target and store are unchanged.
    /// Cost: that of `Dynamic::held`; no memory for a bit, a field and a byte, one new text for a
    /// character and a slice.
    /// rhai: `Target::propagate_changed_value`.
    #[inline(always)]
    pub fn propagate_changed_value(
        &mut self,
        alloc: Global,
        store: &mut Store,
        pos: Position,
    ) -> Result<(), EvalAltResult>
        requires { HasPart store.old self.old }
        ensures answer { IsWrittenBack store.old pos (write_back_of store.old self.old) result }
        ensures own { OnOk result (self.new ≡ target_written store.old (write_back_of store.old self.old) self.old) }
        ensures store { OnOk result (store.new ≡ store_written (write_back_of store.old self.old) store.old) }
        ensures err { OnErr result ((self.new ≡ self.old) × (store.new ≡ store.old)) }
        ensures marked { IsMarkedIn store.old self.old → IsMarkedIn store.new self.new }
    {
        match self {
            Target::RefMut(_) | Target::SharedValue { .. } | Target::TempValue(_) => Ok(()),
            Target::Bit { source, value, bit } => write_bit(source, store, value, *bit, pos),
            Target::BitField { .. } => self.propagate_field(store, pos),
            Target::BlobByte {
                source,
                value,
                index,
            } => write_byte(source, store, value, *index, pos),
            Target::StringChar {
                source,
                value,
                index,
            } => write_char(source, alloc, store, value, *index, pos),
            Target::StringSlice {
                source,
                value,
                start,
                end,
                exclusive,
            } => {
                let slice = Slice {
                    start: *start,
                    end: *end,
                    exclusive: *exclusive,
                };
                write_slice(source, alloc, store, value, slice)?;
                Ok(())
            }
        }
    }

    /// The same for a field, which is read before the source is borrowed.
    #[inline(always)]
    fn propagate_field(&mut self, store: &mut Store, pos: Position) -> Result<(), EvalAltResult>
        requires part { HasPart store.old self.old }
        requires field { IsField self.old }
        ensures answer { IsWrittenBack store.old pos (write_back_of store.old self.old) result }
        ensures own { OnOk result (self.new ≡ target_written store.old (write_back_of store.old self.old) self.old) }
        ensures store { OnOk result (store.new ≡ store_written (write_back_of store.old self.old) store.old) }
        ensures err { OnErr result ((self.new ≡ self.old) × (store.new ≡ store.old)) }
        ensures marked { IsMarkedIn store.new self.new }
    {
        if let Target::BitField {
            value,
            mask,
            shift,
            ..
        } = &*self
        {
            let (mask, shift) = (*mask, *shift);
            let bits = match value.as_int(store) {
                Ok(bits) => bits,
                Err(found) => return Err(EvalAltResult::mismatch("integer", found, pos)),
            };
            if let Target::BitField { source, .. } = self {
                put_field(source, store, mask, shift, bits);
                return Ok(());
            }
        }
        // A field is matched twice, since no pattern borrows two parts of a variant that contains a
        // signed number.
        unreachable!()
    }
}
