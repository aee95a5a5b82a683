//! Literals of ints, characters and texts.

ghost use Rattle.std.specs.Prelude.{◌≤◌};

use crate::cursor::Cursor;
use crate::error::{SyntaxError, SyntaxFault};
use crate::lexeme::Lexeme;
use rhai_text::Position;
use script_tree::INT;
use std::alloc::Global;

/// Reads an int in decimal digits, or its bits after `0x`, `0o` or `0b`.
/// Errors: `NumberTooLarge`, `Float` and `BadNumber`, at its beginning.
/// Cost: its length.
pub fn read_int(cursor: &mut Cursor) -> Result<INT, SyntaxError> {
    let start = cursor.position();
    match (cursor.peek(), cursor.peek_second()) {
        (Some('0'), Some('x' | 'X')) => {
            cursor.advance_by(2);
            Ok(read_digits(cursor, start, 16)?.cast_signed())
        }
        (Some('0'), Some('o' | 'O')) => {
            cursor.advance_by(2);
            Ok(read_digits(cursor, start, 8)?.cast_signed())
        }
        (Some('0'), Some('b' | 'B')) => {
            cursor.advance_by(2);
            Ok(read_digits(cursor, start, 2)?.cast_signed())
        }
        _ => match INT::try_from(read_digits(cursor, start, 10)?) {
            Ok(number) => Ok(number),
            Err(_) => Err(SyntaxError::Fault(SyntaxFault::NumberTooLarge, start)),
        },
    }
}

/// Reads the digits of a number, with `_` between them; fails if a letter or a fraction follows.
fn read_digits(cursor: &mut Cursor, start: Position, radix: u32) -> Result<u64, SyntaxError>
    requires least { 2 ≤ radix }
    requires most { radix ≤ 16 }
{
    let mut number = 0u64;
    let mut has_digit = false;
    for _ in 0..cursor.left() {
        match cursor.peek() {
            Some('_') => {}
            Some(c) => match c.to_digit(radix) {
                Some(digit) => {
                    number = with_digit(number, radix, digit).ok_or(SyntaxError::Fault(
                        SyntaxFault::NumberTooLarge,
                        start,
                    ))?;
                    has_digit = true;
                }
                None => break,
            },
            None => break,
        }
        cursor.advance();
    }
    if has_digit && radix == 10 && is_float(cursor) {
        return Err(SyntaxError::Fault(SyntaxFault::Float, start));
    }
    if !has_digit || goes_on(cursor) {
        return Err(SyntaxError::Fault(SyntaxFault::BadNumber, start));
    }
    Ok(number)
}

/// Appends a digit to the number, if the result fits.
fn with_digit(number: u64, radix: u32, digit: u32) -> Option<u64> {
    number
        .checked_mul(u64::from(radix))?
        .checked_add(u64::from(digit))
}

/// Whether decimal digits are followed by a fraction or an exponent.
fn is_float(cursor: &Cursor) -> bool {
    match (cursor.peek(), cursor.peek_second()) {
        (Some('.'), Some(c)) => c.is_ascii_digit(),
        (Some('e' | 'E'), Some(c)) => c.is_ascii_digit() || c == '+' || c == '-',
        (Some(_), _) | (None, _) => false,
    }
}

/// Whether the digits are followed by a letter, another digit or a fraction.
fn goes_on(cursor: &Cursor) -> bool {
    match (cursor.peek(), cursor.peek_second()) {
        (Some('.'), Some(c)) => c.is_ascii_digit(),
        (Some(c), _) => c.is_ascii_alphanumeric(),
        (None, _) => false,
    }
}

/// Reads a character in single quotation marks.
/// Errors: what is wrong with it, and where; `OutOfMemory`.
/// Cost: its length.
pub fn read_char(alloc: Global, cursor: &mut Cursor) -> Result<char, SyntaxError> {
    let start = cursor.position();
    let text = quoted(alloc, cursor, '\'')?;
    let mut chars = text.chars();
    match (chars.next(), chars.next()) {
        (Some(c), None) => Ok(c),
        _ => Err(SyntaxError::Fault(SyntaxFault::BadCharacter, start)),
    }
}

/// Reads a text between these quotation marks; two of them in a row are one. After a
/// backslash at the end of a line the text continues on the next line, without the blanks up to the
/// column of the mark.
/// Errors: what is wrong with it, and where; `OutOfMemory`.
/// Cost: its length.
pub fn quoted(alloc: Global, cursor: &mut Cursor, mark: char) -> Result<String, SyntaxError> {
    let start = cursor.position();
    cursor.advance();
    let mut text = String::new(alloc);
    for _ in 0..cursor.left() {
        match cursor.peek() {
            Some('\\') if cursor.peek_second() == Some('\n') => continue_line(cursor, start),
            Some('\\') => text.push(read_escape(cursor)?)?,
            Some('\n') | None => break,
            Some(c) => {
                cursor.advance();
                if c == mark {
                    if cursor.peek() != Some(mark) {
                        return Ok(text);
                    }
                    cursor.advance();
                }
                text.push(c)?;
            }
        }
    }
    Err(SyntaxError::Fault(SyntaxFault::OpenText, start))
}

/// Skips the end of a line, and the blanks of the next one up to this column.
fn continue_line(cursor: &mut Cursor, start: Position) {
    cursor.advance_by(2);
    for _ in 0..cursor.left() {
        match cursor.peek() {
            Some(c) if c.is_whitespace() && cursor.column() <= start.position => cursor.advance(),
            _ => return,
        }
    }
}

/// Reads a raw text: everything between equal numbers of `#` is taken literally.
/// Errors: `OpenText`, at its beginning; `OutOfMemory`.
/// Cost: its length.
pub fn raw_text(alloc: Global, cursor: &mut Cursor) -> Result<String, SyntaxError> {
    let start = cursor.position();
    let mut signs = 0usize;
    for _ in 0..cursor.left() {
        if cursor.peek() != Some('#') {
            break;
        }
        cursor.advance();
        signs = signs.saturating_add(1);
    }
    cursor.advance();
    let mut text = String::new(alloc);
    for _ in 0..cursor.left() {
        let Some(c) = cursor.peek() else {
            break;
        };
        if c == '"' && ends_raw(cursor, signs) {
            cursor.advance_by(signs.saturating_add(1));
            return Ok(text);
        }
        text.push(c)?;
        cursor.advance();
    }
    Err(SyntaxError::Fault(SyntaxFault::OpenText, start))
}

/// Whether this many `#` follow the quotation mark that comes next.
fn ends_raw(cursor: &Cursor, signs: usize) -> bool {
    for count in 0..signs {
        if cursor.peek_behind(count.saturating_add(1)) != Some('#') {
            return false;
        }
    }
    true
}

/// Reads a text in back-ticks, from its beginning to its end or to a `${`. A line end directly
/// after the back-tick isn't part of it.
/// Errors: `OpenText`, at its beginning; `OutOfMemory`.
/// Cost: its length.
pub fn template(alloc: Global, cursor: &mut Cursor) -> Result<Lexeme, SyntaxError> {
    let start = cursor.position();
    cursor.advance();
    if (cursor.peek(), cursor.peek_second()) == (Some('\r'), Some('\n')) {
        cursor.advance();
    }
    if cursor.peek() == Some('\n') {
        cursor.advance();
    }
    template_part(alloc, cursor, start)
}

/// Continues a text in back-ticks that began at this position, up to its end or to a `${`. Two
/// back-ticks in a row are one.
/// Errors: `OpenText`, at its beginning; `OutOfMemory`.
/// Cost: its length.
pub fn template_part(
    alloc: Global,
    cursor: &mut Cursor,
    start: Position,
) -> Result<Lexeme, SyntaxError> {
    let mut text = String::new(alloc);
    for _ in 0..cursor.left() {
        match (cursor.peek(), cursor.peek_second()) {
            (Some('`'), Some('`')) => {
                cursor.advance_by(2);
                text.push('`')?;
            }
            (Some('`'), _) => {
                cursor.advance();
                return Ok(Lexeme::Text(text));
            }
            (Some('$'), Some('{')) => {
                cursor.advance_by(2);
                return Ok(Lexeme::TextBefore(text));
            }
            (Some(c), _) => {
                cursor.advance();
                text.push(c)?;
            }
            (None, _) => break,
        }
    }
    Err(SyntaxError::Fault(SyntaxFault::OpenText, start))
}

/// Reads an escape, from its backslash on.
fn read_escape(cursor: &mut Cursor) -> Result<char, SyntaxError> {
    let start = cursor.position();
    cursor.advance();
    let letter = cursor.peek();
    cursor.advance();
    let meant = match letter {
        Some('n') => Some('\n'),
        Some('t') => Some('\t'),
        Some('r') => Some('\r'),
        Some('0') => Some('\0'),
        Some('\\') => Some('\\'),
        Some('"') => Some('"'),
        Some('\'') => Some('\''),
        Some('x') => read_code(cursor, 2),
        Some('u') => read_code(cursor, 4),
        Some('U') => read_code(cursor, 8),
        _ => None,
    };
    match meant {
        Some(c) => Ok(c),
        None => Err(SyntaxError::Fault(SyntaxFault::BadEscape, start)),
    }
}

/// Reads the character whose code is written in this many hexadecimal digits.
fn read_code(cursor: &mut Cursor, digits: u32) -> Option<char> {
    let mut code = 0u32;
    for _ in 0..digits {
        let digit = cursor.peek()?.to_digit(16)?;
        code = code.checked_mul(16)?.checked_add(digit)?;
        cursor.advance();
    }
    char::from_u32(code)
}
