//! The modes inside a copy.
ghost use Rattle.std.specs.Prelude.{◌≡◌};

use crate::value::access_mode::AccessMode;

/// What a copy has in place of each mode.
pub(crate) trait Modes {
    ghost use Rattle.rhai_value.specs.declared.value.access_mode.AccessMode.{AccessMode};

    ghost after: { AccessMode → AccessMode };

    fn after(mode: AccessMode) -> AccessMode
        ensures { result ≡ after mode };
}

/// Every mode becomes ReadWrite.
#[derive(Drop)]
pub(crate) struct Writable;

impl Modes for Writable {
    ghost use Rattle.rhai_value.specs.Tree.{writable};

    ghost after = { writable };

    #[inline(always)]
    fn after(_mode: AccessMode) -> AccessMode {
        AccessMode::ReadWrite
    }
}

/// Every mode stays.
#[derive(Drop)]
pub(crate) struct Unchanged;

impl Modes for Unchanged {
    ghost after = { λ m. m };

    #[inline(always)]
    fn after(mode: AccessMode) -> AccessMode {
        mode
    }
}
