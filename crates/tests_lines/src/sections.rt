//! Sections of rows: a header, `# name` or `# name | kind`, and the rows up to the next one.

use rhai_text::Limits;

pub(crate) const UNLIMITED: Limits = Limits { text: 0, items: 0 };

/// Separates the rows that set up a world from those that are tested.
const BETWEEN: &str = "---\n";

/// The kind of a section's rows.
#[derive(Clone, Copy)]
pub(crate) enum Kind {
    /// Lines and their answers, on a world with these limits: `texts 3`, `items 2`, or none.
    Lines(Limits),
    /// Lines that two worlds answer alike, with answers or without them: `alike`. The lines that
    /// set up each world come before.
    Alike,
    /// Commands that never allocate, and their answers: `free`. The lines that set up the world
    /// come before.
    Free,
    /// Lines, and how their commands are written: `written`.
    Written,
    /// Expressions, and their outcomes: `expressions`. The lines that set up the world may come
    /// before.
    Expressions,
}

/// A section of rows.
#[derive(Clone, Copy)]
pub(crate) struct Section<'a> {
    pub(crate) name: &'a str,
    pub(crate) kind: Kind,
    pub(crate) rows: &'a str,
}

/// Returns the kind for a word and a number.
fn kind_of(word: &str, count: usize) -> Option<Kind> {
    match word {
        "texts" => Some(Kind::Lines(Limits {
            text: count,
            items: 0,
        })),
        "items" => Some(Kind::Lines(Limits {
            text: 0,
            items: count,
        })),
        "alike" => Some(Kind::Alike),
        "free" => Some(Kind::Free),
        "written" => Some(Kind::Written),
        "expressions" => Some(Kind::Expressions),
        _ => None,
    }
}

/// Returns the kind after the name.
fn said_kind(said: &str) -> Option<Kind> {
    match said.split_once(' ') {
        Some((word, count)) => kind_of(word, count.parse::<usize>().ok()?),
        None => kind_of(said, 0),
    }
}

/// Returns the section that begins with its name; `None` if it has no rows or no valid kind.
pub(crate) fn section_of(part: &str) -> Option<Section<'_>> {
    let (head, rows) = part.strip_prefix("# ").unwrap_or(part).split_once('\n')?;
    match head.split_once(" | ") {
        Some((name, said)) => Some(Section {
            name,
            kind: said_kind(said)?,
            rows,
        }),
        None => Some(Section {
            name: head,
            kind: Kind::Lines(UNLIMITED),
            rows,
        }),
    }
}

/// Returns the rows that set up the world, and those that are tested.
pub(crate) fn halves(rows: &str) -> (&str, &str) {
    rows.split_once(BETWEEN).unwrap_or(("", rows))
}
