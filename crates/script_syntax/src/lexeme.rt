//! The lexemes of a script.

use crate::cursor::Cursor;
use crate::error::{SyntaxError, SyntaxFault};
use crate::literals::{quoted, raw_text, read_char, read_int, template};
use crate::symbol::{ReservedSign, SIGNS, Symbol, keyword};
use rhai_text::Position;
use script_tree::INT;
use std::alloc::Global;

/// A lexeme of a script.
#[derive(Drop)]
pub enum Lexeme {
    /// An int.
    Int(INT),
    /// A character in single quotation marks.
    Char(char),
    /// A text in double quotation marks or back-ticks, or a raw one.
    Text(String),
    /// The part of a text in back-ticks before a `${`.
    TextBefore(String),
    /// A word that isn't a keyword.
    Name(String),
    /// A keyword, a sign, or the end.
    Symbol(Symbol),
}

/// Skips blanks and comments.
fn skip_blanks(cursor: &mut Cursor) -> Result<(), SyntaxError> {
    for _ in 0..cursor.left() {
        match (cursor.peek(), cursor.peek_second()) {
            (Some('/'), Some('/')) => skip_line(cursor),
            (Some('/'), Some('*')) => skip_comment(cursor)?,
            (Some(c), _) if c.is_ascii_whitespace() => cursor.advance(),
            _ => return Ok(()),
        }
    }
    Ok(())
}

/// Skips the rest of the line.
fn skip_line(cursor: &mut Cursor) {
    for _ in 0..cursor.left() {
        if cursor.peek() == Some('\n') {
            return;
        }
        cursor.advance();
    }
}

/// Skips a comment, with those nested in it.
fn skip_comment(cursor: &mut Cursor) -> Result<(), SyntaxError> {
    let start = cursor.position();
    let mut open = 0usize;
    for _ in 0..cursor.left() {
        match (cursor.peek(), cursor.peek_second()) {
            (Some('/'), Some('*')) => {
                cursor.advance_by(2);
                open = open.saturating_add(1);
            }
            (Some('*'), Some('/')) => {
                cursor.advance_by(2);
                open = open.saturating_sub(1);
                if open == 0 {
                    return Ok(());
                }
            }
            _ => cursor.advance(),
        }
    }
    Err(SyntaxError::Fault(SyntaxFault::OpenComment, start))
}

/// Reads a word: a keyword or a name.
fn read_word(alloc: Global, cursor: &mut Cursor) -> Result<Lexeme, SyntaxError> {
    let start = cursor.position();
    let mut word = String::new(alloc);
    for _ in 0..cursor.left() {
        match cursor.peek() {
            Some(c) if is_of_word(c) => word.push(c)?,
            _ => break,
        }
        cursor.advance();
    }
    if let Some(keyword) = keyword(word.as_str()) {
        return Ok(Lexeme::Symbol(keyword));
    }
    match word.chars().find(|c| *c != '_') {
        Some(first) if first.is_ascii_alphabetic() => Ok(Lexeme::Name(word)),
        _ => Err(SyntaxError::Fault(SyntaxFault::NoLetter, start)),
    }
}

/// Whether a character may be part of a word.
fn is_of_word(c: char) -> bool {
    c.is_ascii_alphanumeric() || c == '_'
}

/// Whether the operator `!in` comes next, and not a word that begins with it.
fn is_not_in(cursor: &Cursor) -> bool {
    let ends = match cursor.peek_behind(3) {
        Some(c) => !is_of_word(c),
        None => true,
    };
    cursor.comes_behind("in") && ends
}

/// Whether a raw text comes next: a number of `#` before a quotation mark.
fn is_raw_text(cursor: &Cursor) -> bool {
    for count in 1..cursor.left() {
        match cursor.peek_behind(count) {
            Some('#') => {}
            Some('"') => return true,
            _ => return false,
        }
    }
    false
}

/// Reads the longest sign that begins with this character.
fn read_sign(cursor: &mut Cursor, next: char) -> Result<Lexeme, SyntaxError> {
    if next == '!' && is_not_in(cursor) {
        cursor.advance_by(3);
        return Ok(Lexeme::Symbol(Symbol::NotIn));
    }
    for (number, (first, rest, symbol)) in SIGNS.iter().enumerate() {
        if *first == next && cursor.comes_behind(rest) {
            let Some(symbol) = symbol else {
                let fault = SyntaxFault::ReservedSign(ReservedSign::new(number));
                return Err(SyntaxError::Fault(fault, cursor.position()));
            };
            cursor.advance();
            cursor.advance_by(rest.len());
            return Ok(Lexeme::Symbol(*symbol));
        }
    }
    Err(SyntaxError::Fault(SyntaxFault::StrangeCharacter, cursor.position()))
}

/// Reads the next lexeme, and returns its position.
/// Errors: what is wrong with the lexeme, and where; `OutOfMemory`.
/// Cost: its length, with the blanks and comments before it.
pub fn read_lexeme(alloc: Global, cursor: &mut Cursor) -> Result<(Lexeme, Position), SyntaxError> {
    skip_blanks(cursor)?;
    let position = cursor.position();
    let lexeme = match cursor.peek() {
        None => Lexeme::Symbol(Symbol::End),
        Some('"') => Lexeme::Text(quoted(alloc, cursor, '"')?),
        Some('`') => template(alloc, cursor)?,
        Some('#') if is_raw_text(cursor) => Lexeme::Text(raw_text(alloc, cursor)?),
        Some('\'') => Lexeme::Char(read_char(alloc, cursor)?),
        Some(c) if c.is_ascii_digit() => Lexeme::Int(read_int(cursor)?),
        Some(c) if c.is_ascii_alphabetic() || c == '_' => read_word(alloc, cursor)?,
        Some(c) => read_sign(cursor, c)?,
    };
    Ok((lexeme, position))
}
