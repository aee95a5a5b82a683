//! Values from Rust types, each with tag 0 and mode ReadWrite.
ghost use Rattle.std.specs.Prelude.{◌≡◌};
ghost use Rattle.rhai_value.specs.Rows.{trees_of};
ghost use Rattle.rhai_value.specs.Tree.{made, fresh, unit, bool as boolean, int, char as character, text, host, branch, function};
ghost use Rattle.rhai_value.specs.declared.value.host.Host.TheVariants as host_kind;

use crate::value::access_mode::AccessMode;
use crate::value::dynamic::Dynamic;
use crate::value::fn_ptr::FnPtr;
use crate::value::host::{ExclusiveRange, Host, InclusiveRange};
use crate::value::union::{INT, Union};
use rhai_text::ImmutableString;

impl From<()> for Dynamic {
    ghost from_gives = { λ u d. d ≡ fresh unit };

    fn from(_value: ()) -> Dynamic {
        Dynamic::UNIT
    }
}

impl From<bool> for Dynamic {
    ghost from_gives = { λ b d. d ≡ fresh (boolean b) };

    fn from(value: bool) -> Dynamic {
        Dynamic::from_bool(value)
    }
}

impl From<INT> for Dynamic {
    ghost from_gives = { λ n d. d ≡ fresh (int n) };

    fn from(value: INT) -> Dynamic {
        Dynamic::from_int(value)
    }
}

impl From<char> for Dynamic {
    ghost from_gives = { λ c d. d ≡ fresh (character c) };

    fn from(value: char) -> Dynamic {
        Dynamic::from_char(value)
    }
}

impl From<ImmutableString> for Dynamic {
    ghost from_gives = { λ s d. d ≡ fresh (text s) };

    fn from(value: ImmutableString) -> Dynamic {
        Dynamic {
            union: Union::Str(0, AccessMode::ReadWrite, value),
        }
    }
}

impl From<FnPtr> for Dynamic {
    ghost from_gives = { λ f d. d ≡ made (branch (function f.0) (trees_of f.1)) };

    fn from(value: FnPtr) -> Dynamic {
        Dynamic {
            union: Union::FnPtr(0, AccessMode::ReadWrite, value),
        }
    }
}

impl From<Host> for Dynamic {
    ghost from_gives = { λ h d. d ≡ fresh (host h) };

    fn from(value: Host) -> Dynamic {
        Dynamic {
            union: Union::Variant(0, AccessMode::ReadWrite, value),
        }
    }
}

impl From<ExclusiveRange> for Dynamic {
    ghost from_gives = { λ r d. d ≡ fresh (host (host_kind.ExclusiveRange r)) };

    fn from(value: ExclusiveRange) -> Dynamic {
        Dynamic::from(Host::ExclusiveRange(value))
    }
}

impl From<InclusiveRange> for Dynamic {
    ghost from_gives = { λ r d. d ≡ fresh (host (host_kind.InclusiveRange r)) };

    fn from(value: InclusiveRange) -> Dynamic {
        Dynamic::from(Host::InclusiveRange(value))
    }
}
