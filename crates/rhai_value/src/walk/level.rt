//! Values being copied.

use crate::map::Map;
use crate::map::entries::Entries;
use crate::value::access_mode::AccessMode;
use crate::value::dynamic::Dynamic;
use crate::value::union::Tag;
use rhai_text::ImmutableString;

/// Frame of a copy: its tag and mode, a function's name, and the children.
#[derive(Drop)]
pub(crate) enum Level<'a> {
    Array(Tag, AccessMode, CopiedItems<'a>),
    Function(Tag, AccessMode, ImmutableString, CopiedItems<'a>),
    Fields(Tag, AccessMode, CopiedFields<'a>),
}

/// The remaining items, and the copies of those before.
#[derive(Drop)]
pub(crate) struct CopiedItems<'a> {
    pub(crate) rest: &'a [Dynamic],
    pub(crate) done: Vec<Dynamic>,
}

/// The remaining entries, the copies of those before, and the key of the one in progress.
#[derive(Drop)]
pub(crate) struct CopiedFields<'a> {
    pub(crate) key: &'a str,
    pub(crate) rest: Entries<'a>,
    pub(crate) done: Map,
}
