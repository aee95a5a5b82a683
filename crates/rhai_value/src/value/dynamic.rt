//! A value of a script, and its own properties: constructor, tag and mode.

use crate::cells::cell_ref::CellRef;
use crate::map::Map;
use crate::value::access_mode::AccessMode;
use crate::value::mode::set_own_mode;
use crate::value::union::{Array, Blob, INT, Tag, Union};
use crate::walk::near::NEAR;
use crate::walk::shed::shed;
use rhai_text::ImmutableString;
use std::alloc::{AllocError, Global};
use std::default::Default;
use std::marker::Model;

/// A value of a script, which contracts see as a tree.
/// rhai: `Dynamic`.
#[cycle(dynamic)]
pub struct Dynamic {
    pub(crate) union: Union,
}

impl Drop for Dynamic {
    /// Allocates nothing, and uses a bounded piece of the stack, however deep the value is.
    #[inline(always)]
    fn drop(self) {
        shed(self, NEAR);
    }
}

impl Model for Dynamic {
    ghost use Rattle.std.specs.Prelude.{◌*◌};
    ghost use Rattle.rhai_value.specs.Tree.{Tree, nodes};

    ghost Value = { Tree };

    ghost use Rattle.std.specs.Coded.{codes};
    ghost use Rattle.rhai_value.specs.contracts.value.access_mode.AccessMode as access_mode;
    ghost use Rattle.rhai_value.specs.contracts.value.host.Host as host_kind;
    ghost use Rattle.rhai_value.specs.Code.{tree_code};

    ghost coded = { tree_code (Prim.hlevel (codes, access_mode.the_row.coded, host_kind.the_row.coded)) };

    ghost use Rattle.rhai_value.specs.View.{tree_of};

    ghost view = { λ d. tree_of d.union };

    ghost size = { λ t. 2 * nodes t };

    ghost use Rattle.std.proofs.Common.{arith};
    ghost use Rattle.rhai_value.specs.Falls.{falls};

    ghost size_decreases = { λ d h. Prim.omega (arith, falls d.union) };
}

/// Constructors.
impl Dynamic {
    ghost use Rattle.std.specs.Prelude.{◌≡◌, IfOk};
    ghost use Rattle.std.specs.Str.{chars};
    ghost use Rattle.rhai_value.specs.Rows.{trees_of, fields_of};
    ghost use Rattle.rhai_value.specs.Tree.{made, fresh, bool, int, char, text, blob, branch, array, fields};

    /// Makes a boolean, with tag 0 and mode ReadWrite.
    /// rhai: `Dynamic::from_bool`.
    pub const fn from_bool(value: bool) -> Dynamic
        ensures { result ≡ fresh (bool value) }
    {
        Dynamic {
            union: Union::Bool(0, AccessMode::ReadWrite, value),
        }
    }

    /// Makes an integer, with tag 0 and mode ReadWrite.
    /// rhai: `Dynamic::from_int`.
    pub const fn from_int(value: INT) -> Dynamic
        ensures { result ≡ fresh (int value) }
    {
        Dynamic {
            union: Union::Int(0, AccessMode::ReadWrite, value),
        }
    }

    /// Makes a character, with tag 0 and mode ReadWrite.
    /// rhai: `Dynamic::from_char`.
    pub const fn from_char(value: char) -> Dynamic
        ensures { result ≡ fresh (char value) }
    {
        Dynamic {
            union: Union::Char(0, AccessMode::ReadWrite, value),
        }
    }

    /// Makes a text, with tag 0 and mode ReadWrite.
    /// Errors: an allocation fails.
    /// Cost: the length of the text; memory for it.
    /// rhai: `FromStr` and `From<&str>` of `Dynamic`.
    #[inline(always)]
    pub fn from_text(alloc: Global, value: &str) -> Result<Dynamic, AllocError>
        ensures { IfOk result (λ d. d ≡ fresh (text (chars value.now))) }
    {
        Ok(Dynamic::from(ImmutableString::from_str(alloc, value)?))
    }

    /// Makes an array of these items, which keep their tags and modes; the array has tag 0 and mode
    /// ReadWrite.
    /// Cost: constant; no memory.
    /// rhai: `Dynamic::from_array`.
    pub fn from_array(items: Array) -> Dynamic
        ensures { result ≡ made (branch array (trees_of items.items)) }
    {
        Dynamic {
            union: Union::Array(0, AccessMode::ReadWrite, items),
        }
    }

    /// Makes a blob, with tag 0 and mode ReadWrite.
    /// Cost: constant; no memory.
    /// rhai: `Dynamic::from_blob`.
    pub fn from_blob(bytes: Blob) -> Dynamic
        ensures { result ≡ fresh (blob bytes.items) }
    {
        Dynamic {
            union: Union::Blob(0, AccessMode::ReadWrite, bytes),
        }
    }

    /// Makes a map of these values, which keep their tags and modes; the map has tag 0 and mode
    /// ReadWrite.
    /// Cost: constant; no memory.
    /// rhai: `Dynamic::from_map`.
    pub fn from_map(map: Map) -> Dynamic
        ensures { result ≡ made (fields (fields_of map)) }
    {
        Dynamic {
            union: Union::Map(0, AccessMode::ReadWrite, map),
        }
    }
}

/// The constructor inside.
impl Dynamic {
    ghost use Rattle.std.specs.Prelude.{◌≡◌};
    ghost use Rattle.std.specs.Borrow.{Lends, sem};
    ghost use Rattle.rhai_value.specs.contracts.value.dynamic.Dynamic as dynamic_type;
    ghost use Rattle.rhai_value.specs.contracts.value.union.Union as union_type;
    ghost use Rattle.rhai_value.specs.Tree.{node, content_of};
    ghost use Rattle.rhai_value.specs.View.{tree_of};

    /// Borrows the constructor with its content, for a crate that reads values by cases.
    pub const fn parts(&self) -> &Union
        ensures { tree_of result.now ≡ self.now }
    {
        &self.union
    }

    /// Borrows the constructor with its content mutably.
    pub fn parts_mut(&mut self) -> &mut Union
        ensures* writes_back { sem 𝓛 (Lends dynamic_type.the_row union_type.the_row self.entry result tree_of) }
        ensures value { tree_of result.now ≡ self.old }
    {
        &mut self.union
    }

    /// Moves the constructor with its content out.
    pub fn into_parts(self) -> Union
        ensures { tree_of result ≡ self }
    {
        let Dynamic { union } = self;
        union
    }

    /// Makes the value with this constructor.
    pub fn from_parts(union: Union) -> Dynamic
        ensures { result ≡ tree_of union }
    {
        Dynamic { union }
    }

    /// Sets the value's tag and mode; the values inside keep theirs.
    /// Cost: constant; no memory.
    #[tactic(auto, using(crate::proofs::Labels::under_label))]
    pub fn labelled(mut self, tag: Tag, mode: AccessMode) -> Dynamic
        ensures { result ≡ node (content_of self) tag mode }
    {
        self.set_tag(tag);
        set_own_mode(&mut self, mode);
        self
    }
}

/// Tag, mode and type of the value itself.
impl Dynamic {
    ghost use Rattle.std.specs.Prelude.{◌≡◌, option_map, is_some};
    ghost use Rattle.rhai_value.specs.Tree.{fresh, unit, tag_of, mode_of, cell_of, with_tag, is_host};

    /// Returns the tag, which the host may use freely.
    /// rhai: `Dynamic::tag`.
    pub const fn tag(&self) -> Tag
        ensures { result ≡ tag_of self.now }
    {
        match &self.union {
            Union::Unit(tag, _, _)
            | Union::Bool(tag, _, _)
            | Union::Str(tag, _, _)
            | Union::Char(tag, _, _)
            | Union::Int(tag, _, _)
            | Union::Array(tag, _, _)
            | Union::Blob(tag, _, _)
            | Union::Map(tag, _, _)
            | Union::FnPtr(tag, _, _)
            | Union::Variant(tag, _, _)
            | Union::Shared(tag, _, _) => *tag,
        }
    }

    /// Sets the tag; for a holder, not that of the content.
    /// rhai: `Dynamic::set_tag`.
    pub fn set_tag(&mut self, tag: Tag)
        ensures { self.new ≡ with_tag tag self.old }
    {
        match &mut self.union {
            Union::Unit(own, _, _) => *own = tag,
            Union::Bool(own, _, _) => *own = tag,
            Union::Str(own, _, _) => *own = tag,
            Union::Char(own, _, _) => *own = tag,
            Union::Int(own, _, _) => *own = tag,
            Union::Array(own, _, _) => *own = tag,
            Union::Blob(own, _, _) => *own = tag,
            Union::Map(own, _, _) => *own = tag,
            Union::FnPtr(own, _, _) => *own = tag,
            Union::Variant(own, _, _) => *own = tag,
            Union::Shared(own, _, _) => *own = tag,
        }
    }

    /// Returns the value's own mode; for a holder, not that of the content.
    /// rhai: `Dynamic::access_mode`.
    pub const fn access_mode(&self) -> AccessMode
        ensures { result ≡ mode_of self.now }
    {
        match &self.union {
            Union::Unit(_, mode, _)
            | Union::Bool(_, mode, _)
            | Union::Str(_, mode, _)
            | Union::Char(_, mode, _)
            | Union::Int(_, mode, _)
            | Union::Array(_, mode, _)
            | Union::Blob(_, mode, _)
            | Union::Map(_, mode, _)
            | Union::FnPtr(_, mode, _)
            | Union::Variant(_, mode, _)
            | Union::Shared(_, mode, _) => *mode,
        }
    }

    /// Moves the value out, and leaves unit with tag 0 and mode ReadWrite.
    /// Cost: constant; no memory.
    /// rhai: `Dynamic::take`.
    #[inline(always)]
    pub fn take(&mut self) -> Dynamic
        ensures value { result ≡ self.old }
        ensures left { self.new ≡ fresh unit }
    {
        // Copy an int field by field: reading a value just written as a whole would stall on store
        // forwarding.
        if let Union::Int(tag, mode, n) = &self.union {
            let union = Union::Int(*tag, *mode, *n);
            *self = Dynamic::UNIT;
            return Dynamic { union };
        }
        std::mem::replace(self, Dynamic::UNIT)
    }

    /// Returns whether the value is of one of the host's types.
    /// rhai: `Dynamic::is_variant`.
    pub const fn is_variant(&self) -> bool
        ensures { result ≡ is_host self.now }
    {
        matches!(&self.union, Union::Variant(_, _, _))
    }

    /// Returns whether the value is a holder of a shared cell.
    /// rhai: `Dynamic::is_shared`.
    pub fn is_shared(&self) -> bool
        ensures { result ≡ is_some (cell_of self.now) }
    {
        self.cell().is_some()
    }

    /// The cell that a holder refers to.
    pub(crate) fn cell(&self) -> Option<CellRef>
        ensures { option_map (λ c. c.index) result ≡ cell_of self.now }
    {
        match &self.union {
            Union::Shared(_, _, cell) => Some(*cell),
            _ => None,
        }
    }
}

impl Default for Dynamic {
    ghost use Rattle.std.specs.Prelude.{◌≡◌};
    ghost use Rattle.rhai_value.specs.Tree.{fresh, unit};

    ghost is_default = { λ d. d ≡ fresh unit };

    fn default() -> Dynamic {
        Dynamic::UNIT
    }
}
