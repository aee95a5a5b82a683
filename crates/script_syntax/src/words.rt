//! The words that rhai reserves.

use crate::error::SyntaxFault;
use std::fmt;

/// How many of `RESERVED`, the first, name what rhai has and this language doesn't.
const NOT_READ: usize = 5;

/// The reserved words other than keywords.
static RESERVED: [&str; 41] = [
    "as",
    "eval",
    "export",
    "import",
    "private",
    "async",
    "await",
    "call",
    "case",
    "curry",
    "debug",
    "default",
    "go",
    "goto",
    "is",
    "is_def_fn",
    "is_def_var",
    "is_shared",
    "match",
    "module",
    "new",
    "nil",
    "null",
    "package",
    "print",
    "protected",
    "public",
    "shared",
    "spawn",
    "static",
    "super",
    "sync",
    "this",
    "thread",
    "type_of",
    "use",
    "var",
    "void",
    "with",
    "yield",
    "Fn",
];

/// A word that is reserved, and no keyword.
#[derive(Clone, Copy, PartialEq, Eq)]
pub struct ReservedWord {
    /// Its place in `RESERVED`.
    number: usize,
}

impl ReservedWord {
    fn of(word: &str) -> Option<ReservedWord> {
        for (number, known) in RESERVED.iter().enumerate() {
            if *known == word {
                return Some(ReservedWord { number });
            }
        }
        None
    }
}

impl fmt::Debug for ReservedWord {
    fn fmt<W: fmt::Write>(&self, f: &mut fmt::Formatter<W>) -> fmt::Result {
        write!(f, "\"{self}\"")
    }
}

impl fmt::Display for ReservedWord {
    fn fmt<W: fmt::Write>(&self, f: &mut fmt::Formatter<W>) -> fmt::Result {
        match RESERVED.get(self.number) {
            Some(word) => write!(f, "{word}"),
            None => Ok(()),
        }
    }
}

/// The reserved words that can be called as functions.
static FUNCTIONS: [&str; 9] = [
    "Fn",
    "call",
    "curry",
    "debug",
    "is_def_fn",
    "is_def_var",
    "is_shared",
    "print",
    "type_of",
];

/// The reserved words that can be called as methods.
static METHODS: [&str; 4] = ["call", "curry", "is_shared", "type_of"];

/// Returns what is wrong with a word as the name of a variable, a function, a parameter or a
/// property.
pub fn no_name(word: &str) -> Option<SyntaxFault> {
    let known = ReservedWord::of(word)?;
    if known.number < NOT_READ {
        Some(SyntaxFault::NotRead(known))
    } else {
        Some(SyntaxFault::ReservedWord(known))
    }
}

/// Returns what is wrong with a word that is called as a function.
pub fn no_function(word: &str) -> Option<SyntaxFault> {
    if FUNCTIONS.iter().any(|name| *name == word) {
        None
    } else {
        no_name(word)
    }
}

/// Returns what is wrong with a word that is called as a method.
pub fn no_method(word: &str) -> Option<SyntaxFault> {
    if METHODS.iter().any(|name| *name == word) {
        None
    } else {
        no_name(word)
    }
}
