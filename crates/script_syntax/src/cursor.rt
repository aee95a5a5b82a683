//! A position in a text, which moves on a character at a time.

ghost use Rattle.std.specs.Prelude.{◌≡◌, ◌≤◌, length};

use rhai_text::Position;

/// The characters of a text, and the index of the next one.
#[derive(Drop)]
pub struct Cursor {
    chars: Vec<char>,
    at: usize,
    line: u32,
    column: u32,
}

impl Cursor {
    /// Begins at the start of a text.
    pub fn new(chars: Vec<char>) -> Cursor {
        Cursor {
            chars,
            at: 0,
            line: 1,
            column: 1,
        }
    }

    /// Returns the next character.
    pub fn peek(&self) -> Option<char> {
        self.chars.get(self.at).copied()
    }

    /// Returns the character after the next one.
    pub fn peek_second(&self) -> Option<char> {
        self.peek_behind(1)
    }

    /// Returns the character at this distance after the next one.
    pub fn peek_behind(&self, count: usize) -> Option<char> {
        self.chars.get(self.at.saturating_add(count)).copied()
    }

    /// Returns how many characters are left.
    pub fn left(&self) -> usize {
        self.chars.len().saturating_sub(self.at)
    }

    /// Returns whether these characters follow the next one.
    pub fn comes_behind(&self, rest: &str) -> bool {
        let mut at = self.at;
        for wanted in rest.chars() {
            at = at.saturating_add(1);
            if self.chars.get(at) != Some(&wanted) {
                return false;
            }
        }
        true
    }

    /// Returns the line and column of the next character.
    pub fn position(&self) -> Position {
        Position {
            line: self.line,
            position: self.column,
        }
    }

    /// Returns the column of the next character.
    pub fn column(&self) -> u32 {
        self.column
    }

    /// Moves past the next character.
    pub fn advance(&mut self) {
        match self.peek() {
            Some('\n') => {
                self.line = self.line.saturating_add(1);
                self.column = 1;
            }
            Some(_) => self.column = self.column.saturating_add(1),
            None => return,
        }
        self.at = self.at.saturating_add(1);
    }

    /// Moves past this many characters.
    pub fn advance_by(&mut self, count: usize) {
        for _ in 0..count {
            self.advance();
        }
    }
}
