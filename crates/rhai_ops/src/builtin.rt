//! The rows of the tables.
ghost use Rattle.std.specs.Prelude.{◌≡◌};
ghost use Rattle.rhai_ops.specs.Results.{is_limited};

use rhai_text::Token;

/// A built-in operator on operands of certain types: a row of the tables, as look-ups return it.
/// The first 25 are operators on two values; the others are assignments, which write the place
/// where the chain of the first operand ends.
/// rhai: the function, with a flag, that its look-ups return.
#[derive(Clone, Copy, Debug, PartialEq, Eq)]
pub enum FnBuiltin {
    /// Two ints, by one of the first eleven operators.
    Int(Token),
    /// Two ints, compared.
    IntCompare(Token),
    /// The range between two ints; inclusive if the flag is set.
    IntRange(bool),
    /// Two booleans, compared: false is less than true.
    BoolCompare(Token),
    /// Two booleans, by `&`, `|` or `^`.
    Bool(Token),
    /// A text appended to a text.
    TextJoin,
    /// A text without the occurrences of a text.
    TextMinus,
    /// Two texts, compared by their characters in order.
    TextCompare(Token),
    /// The text of two characters.
    CharJoin,
    /// Two characters, compared.
    CharCompare(Token),
    /// A blob appended to a blob.
    BlobJoin,
    /// Whether two blobs have the same bytes; negated if the flag is set.
    BlobEqual(bool),
    /// `true`.
    ConstTrue,
    /// `false`.
    ConstFalse,
    /// The range from an int to the greatest one; inclusive if the flag is set.
    RangeFrom(bool),
    /// The range from 0 to an int; inclusive if the flag is set.
    RangeTo(bool),
    /// A text appended to a character.
    CharText,
    /// A character, as a text of its own, compared with a text.
    CharTextCompare(Token),
    /// A character appended to a text.
    TextChar,
    /// A text without a character.
    TextMinusChar,
    /// A text compared with a character, as a text of its own.
    TextCharCompare(Token),
    /// A copy of the first operand.
    FirstCopy,
    /// A copy of the second operand.
    SecondCopy,
    /// The UTF-8 bytes of a character appended to a blob.
    BlobChar,
    /// Whether two ranges, inclusive if the first flag is set, are equal; negated if the second one
    /// is.
    RangeEqual(bool, bool),
    /// Two ints, by one of the eleven assignments.
    IntAssign(Token),
    /// Two booleans, by `&=`, `|=` or `^=`.
    BoolAssign(Token),
    /// Replaces the first character by the text of both.
    CharJoinAssign,
    /// Appends a text to a text.
    TextJoinAssign,
    /// Removes the occurrences of a text from a text.
    TextMinusAssign,
    /// Appends the items of an array to an array.
    ArrayAppend,
    /// Appends a blob to a blob.
    BlobAppend,
    /// Appends a character to a text.
    TextCharAssign,
    /// Removes a character from a text.
    TextMinusCharAssign,
    /// Appends a text to a character, and replaces it by the result.
    CharTextAssign,
    /// Appends a value to an array.
    ArrayPush,
    /// Appends the low byte of an int to a blob.
    BlobPush,
    /// Appends the UTF-8 bytes of a character to a blob.
    BlobCharAssign,
    /// Appends the UTF-8 bytes of a text to a blob.
    BlobTextAssign,
}

impl FnBuiltin {
    /// Returns whether the row reads the limits.
    pub fn uses_limits(&self) -> bool
        ensures { result ≡ is_limited self.now }
    {
        matches!(
            self,
            FnBuiltin::TextJoin
                | FnBuiltin::CharJoin
                | FnBuiltin::BlobJoin
                | FnBuiltin::CharText
                | FnBuiltin::TextChar
                | FnBuiltin::BlobChar
                | FnBuiltin::TextJoinAssign
                | FnBuiltin::ArrayAppend
                | FnBuiltin::BlobAppend
                | FnBuiltin::TextCharAssign
                | FnBuiltin::CharTextAssign
                | FnBuiltin::ArrayPush
                | FnBuiltin::BlobPush
                | FnBuiltin::BlobCharAssign
                | FnBuiltin::BlobTextAssign
        )
    }
}
