//! Commands that have no line, and those whose lists are empty.

use rhai_lines::line_of;
use rhai_run::{Bytes, Command, Literal, Names, Place};
use rhai_text::ImmutableString;
use rhai_value::{ExclusiveRange, Host};
use std::alloc::Global;

/// Whether a command has a line; `None` if an allocation failed.
fn has_line(alloc: Global, command: Command) -> Option<bool> {
    match line_of(alloc, &command) {
        Ok(line) => Some(line.is_some()),
        Err(_) => None,
    }
}

/// Whether a name that isn't a word has no line.
fn is_unwritten(alloc: Global, name: &str) -> bool {
    let (Ok(entry), Ok(place)) = (
        ImmutableString::from_str(alloc, name),
        ImmutableString::from_str(alloc, name),
    ) else {
        return false;
    };
    has_line(alloc, Command::Get(entry)) == Some(false)
        && has_line(alloc, Command::Mark(Place::Entry(place))) == Some(false)
}

pub(super) fn names_that_are_no_words_have_no_line(alloc: Global) -> bool {
    for name in ["", "a b", "é", "a-b", "@a", "a\n"] {
        if !is_unwritten(alloc, name) {
            return false;
        }
    }
    true
}

/// Whether no line puts a text of two lines.
fn is_text_unwritten(alloc: Global) -> bool {
    match ImmutableString::from_str(alloc, "a\nb") {
        Ok(text) => has_line(alloc, Command::Put(Literal::Text(text))) == Some(false),
        Err(_) => false,
    }
}

pub(super) fn some_literals_have_no_line(alloc: Global) -> bool {
    let range = Host::ExclusiveRange(ExclusiveRange { start: 0, end: 1 });
    is_text_unwritten(alloc)
        && has_line(alloc, Command::Put(Literal::Char('\n'))) == Some(false)
        && has_line(alloc, Command::Put(Literal::Host(range))) == Some(false)
}

pub(super) fn empty_lists_have_a_line(alloc: Global) -> bool {
    let bytes = Literal::Blob(Bytes::new(Vec::new(alloc)));
    has_line(alloc, Command::Put(bytes)) == Some(true)
        && has_line(alloc, Command::MakeMap(Names::new(Vec::new(alloc)))) == Some(true)
}
