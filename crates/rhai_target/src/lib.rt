//! Places being changed: write-back of a part of a value, targets, and list positions given by
//! integers.
#![tactic(auto)]

pub mod laws;
mod lent;
mod offset;
mod part;
mod propagate;
mod read;
mod resolve;
mod slice;
mod spent;
mod target;
mod write_back;

pub use offset::{calc_index, calc_offset_len};
pub use part::{NoPart, PartPlace, ReadPart};
pub use read::{read_bit, read_byte, read_char, read_field, read_slice};
pub use slice::{Slice, write_slice};
pub use target::Target;
pub use write_back::{write_bit, write_byte, write_char, write_field};
