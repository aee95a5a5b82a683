//! The address of the contents.
ghost use Rattle.std.specs.Prelude.{◌≡◌, ℕ, Option, Some, None};
ghost use Rattle.rhai_host.specs.declared.handle.kept.Kept.{Kept};
ghost use Rattle.rhai_host.specs.Owned.{held_owns, is_full, kept_coded};

use crate::handle::kept::Kept;
use crate::handle::loose::Loose;
use std::alloc::Global;
use std::marker::Model;
use std::ptr::null_mut;

/// The address of a box, or of none. It owns the box; its type contains no type that C must not
/// see.
#[repr(C)]
#[derive(Drop)]
pub struct Held {
    at: *mut u8,
    alloc: Global,
    pub ghost value: { Option Kept } by { kept_coded },
}

impl Model for Held {
    ghost also_owns = { λ h. held_owns h.alloc h.at h.value };
}

impl Held {
    /// Makes an address without a box.
    #[inline(always)]
    pub fn none(alloc: Global) -> Held
        ensures { result.value ≡ None }
    {
        let at = null_mut();
        Held::none_at(alloc, at)
    }

    #[inline(always)]
    fn none_at(alloc: Global, at: *mut u8) -> Held
        ensures { result.value ≡ None }
    {
        Held { at, alloc }
    }

    /// Takes ownership of the box.
    #[inline(always)]
    pub fn of_box(kept: Box<Kept>) -> Held
        ensures { result.value ≡ Some kept.value }
    {
        Held::of(Loose::of(kept))
    }

    /// Returns the box.
    #[inline(always)]
    pub fn into_box(self) -> Box<Kept>
        requires { is_full self.value }
        ensures { Some result.value ≡ self.value }
    {
        self.into_loose().into_box()
    }

    #[inline(always)]
    fn of(loose: Loose<Kept, Global>) -> Held
        ensures { result.value ≡ Some loose.value }
    {
        let Loose { at, alloc } = loose;
        Held {
            at: at as *mut u8,
            alloc,
        }
    }

    #[inline(always)]
    fn into_loose(self) -> Loose<Kept, Global>
        requires { is_full self.value }
        ensures { Some result.value ≡ self.value }
    {
        let Held { at, alloc } = self;
        Loose {
            at: at as *mut Kept,
            alloc,
        }
    }
}
