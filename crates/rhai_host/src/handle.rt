//! The handle in which a host in C or Rust keeps a world.

pub mod address;
pub mod kept;
mod loose;

ghost use Rattle.std.specs.Prelude.{◌≡◌};
ghost use Rattle.rhai_host.specs.Owned.{has};

use crate::handle::address::Held;
use crate::handle::kept::Kept;
use std::alloc::Global;
use std::mem::{align_of, replace, size_of};

/// A world and what belongs to it, or nothing: a handle is open or closed. Memory that is all zeros
/// is a closed one.
///
/// The host provides its memory, and reads no field of it. Dropping an open one leaks it.
#[repr(C)]
#[derive(Drop)]
pub struct Handle {
    is_open: bool,
    held: Held,
    ghost agrees: { is_open ≡ has held.value },
}

impl Handle {
    ghost use Rattle.std.specs.Prelude.{◌≡◌, Some, None, option_map, true, false};
    ghost use Rattle.rhai_host.specs.Content.{content};

    /// Makes a closed handle.
    #[inline(always)]
    pub fn closed(alloc: Global) -> Handle
        ensures { content result ≡ None }
    {
        Handle {
            is_open: false,
            held: Held::none(alloc),
        }
    }

    /// Returns whether the handle has a world.
    #[inline(always)]
    pub fn is_open(&self) -> bool
        ensures { result ≡ has (content self.now) }
    {
        self.is_open
    }

    /// Returns how many bytes a handle takes.
    pub fn size() -> usize
        ensures { result ≡ 16 }
    {
        size_of::<Handle>()
    }

    /// Returns the alignment of a handle.
    pub fn align() -> usize
        ensures { result ≡ 8 }
    {
        align_of::<Handle>()
    }

    /// Takes the contents out, and leaves the handle closed.
    #[inline(always)]
    pub fn take(&mut self, alloc: Global) -> Option<Box<Kept>>
        ensures kept { option_map (λ b. b.value) result ≡ content self.old }
        ensures closed { content self.new ≡ None }
    {
        if !self.is_open {
            return None;
        }
        let Handle { is_open: _, held } = replace(self, Handle::closed(alloc));
        Some(held.into_box())
    }

    /// Opens a closed handle with these contents; the contents of an open one would leak.
    #[inline(always)]
    pub fn put(&mut self, kept: Box<Kept>)
        requires { content self.old ≡ None }
        ensures { content self.new ≡ Some kept.value }
    {
        *self = Handle {
            is_open: true,
            held: Held::of_box(kept),
        };
    }
}
