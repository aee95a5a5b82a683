//! Positions in a script.
ghost use Rattle.std.specs.Prelude.{◌≡◌};

/// A position in a script: a line, and a column. It is only passed through; nothing here depends on
/// it.
/// rhai: `Position`.
#[derive(Clone, Copy, Debug, PartialEq, Eq)]
pub struct Position {
    pub line: u32,
    pub position: u32,
}

impl Position {
    /// No position: line and position are 0.
    pub const NONE: Position = Position {
        line: 0,
        position: 0,
    };

    /// Makes a position from a line and a position on it, counted from 1.
    /// rhai: `Position::new`.
    pub fn new(line: u16, position: u16) -> Position
        ensures { result ≡ record { line = line; position = position } }
    {
        Position {
            line: u32::from(line),
            position: u32::from(position),
        }
    }

    /// Returns the line, 0 if there is no position.
    /// rhai: `Position::line`.
    pub fn line(self) -> u32
        ensures { result ≡ self.line }
    {
        self.line
    }

    /// Returns the position on the line, 0 if there is none.
    /// rhai: `Position::position`.
    pub fn position(self) -> u32
        ensures { result ≡ self.position }
    {
        self.position
    }
}
