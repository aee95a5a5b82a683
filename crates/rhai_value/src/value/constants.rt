//! Named constants.

use crate::value::access_mode::AccessMode;
use crate::value::dynamic::Dynamic;
use crate::value::union::Union;

/// The constants of rhai's `Dynamic` other than floats, each with tag 0 and mode ReadWrite.
impl Dynamic {
    ghost use Rattle.std.specs.Prelude.{◌≡◌, ◌∷◌, [], map, true, false, pos, negsuc};
    ghost use Rattle.rhai_value.specs.Tree.{fresh, unit, bool, int};

    /// The unit value.
    pub const UNIT: Dynamic = Dynamic {
        union: Union::Unit(0, AccessMode::ReadWrite, ()),
    };

    /// The boolean `true`.
    pub const TRUE: Dynamic = Dynamic {
        union: Union::Bool(0, AccessMode::ReadWrite, true),
    };

    /// The boolean `false`.
    pub const FALSE: Dynamic = Dynamic {
        union: Union::Bool(0, AccessMode::ReadWrite, false),
    };

    /// The integer 0.
    pub const ZERO: Dynamic = Dynamic {
        union: Union::Int(0, AccessMode::ReadWrite, 0),
    };

    /// The integer 1.
    pub const ONE: Dynamic = Dynamic {
        union: Union::Int(0, AccessMode::ReadWrite, 1),
    };

    /// The integer 2.
    pub const TWO: Dynamic = Dynamic {
        union: Union::Int(0, AccessMode::ReadWrite, 2),
    };

    /// The integer 3.
    pub const THREE: Dynamic = Dynamic {
        union: Union::Int(0, AccessMode::ReadWrite, 3),
    };

    /// The integer 10.
    pub const TEN: Dynamic = Dynamic {
        union: Union::Int(0, AccessMode::ReadWrite, 10),
    };

    /// The integer 100.
    pub const HUNDRED: Dynamic = Dynamic {
        union: Union::Int(0, AccessMode::ReadWrite, 100),
    };

    /// The integer 1000.
    pub const THOUSAND: Dynamic = Dynamic {
        union: Union::Int(0, AccessMode::ReadWrite, 1000),
    };

    /// The integer 1000000.
    pub const MILLION: Dynamic = Dynamic {
        union: Union::Int(0, AccessMode::ReadWrite, 1000000),
    };

    /// The integer -1.
    pub const NEGATIVE_ONE: Dynamic = Dynamic {
        union: Union::Int(0, AccessMode::ReadWrite, -1),
    };

    /// The integer -2.
    pub const NEGATIVE_TWO: Dynamic = Dynamic {
        union: Union::Int(0, AccessMode::ReadWrite, -2),
    };

    /// Returns all the constants, in this order: a law that says what they are.
    /// rhai: `Dynamic::UNIT` and its kin.
    pub fn constants() -> [Dynamic; 13]
        ensures { result ≡ map fresh (unit ∷ bool true ∷ bool false ∷ int (pos 0) ∷ int (pos 1)
            ∷ int (pos 2) ∷ int (pos 3) ∷ int (pos 10) ∷ int (pos 100) ∷ int (pos 1000)
            ∷ int (pos 1000000) ∷ int (negsuc 0) ∷ int (negsuc 1) ∷ []) }
    {
        [
            Dynamic::UNIT,
            Dynamic::TRUE,
            Dynamic::FALSE,
            Dynamic::ZERO,
            Dynamic::ONE,
            Dynamic::TWO,
            Dynamic::THREE,
            Dynamic::TEN,
            Dynamic::HUNDRED,
            Dynamic::THOUSAND,
            Dynamic::MILLION,
            Dynamic::NEGATIVE_ONE,
            Dynamic::NEGATIVE_TWO,
        ]
    }
}
