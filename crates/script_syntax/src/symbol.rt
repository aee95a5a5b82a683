//! Keywords and signs.

use rhai_text::Token;
use std::fmt;

/// A keyword or a sign of the language, or the end of the text.
#[derive(Clone, Copy, Debug, PartialEq, Eq)]
pub enum Symbol {
    /// `break`
    Break,
    /// `catch`
    Catch,
    /// `const`
    Const,
    /// `continue`
    Continue,
    /// `do`
    Do,
    /// `else`
    Else,
    /// `false`
    False,
    /// `fn`
    Fn,
    /// `for`
    For,
    /// `if`
    If,
    /// `in`
    In,
    /// `let`
    Let,
    /// `loop`
    Loop,
    /// `return`
    Return,
    /// `switch`
    Switch,
    /// `throw`
    Throw,
    /// `true`
    True,
    /// `try`
    Try,
    /// `until`
    Until,
    /// `while`
    While,
    /// `_`
    Underscore,
    /// `(`
    OpenParenthesis,
    /// `)`
    CloseParenthesis,
    /// `[`
    OpenBracket,
    /// `]`
    CloseBracket,
    /// `{`
    OpenBrace,
    /// `}`
    CloseBrace,
    /// `#{`
    OpenMap,
    /// `,`
    Comma,
    /// `;`
    Semicolon,
    /// `:`
    Colon,
    /// `.`
    Dot,
    /// `?.`
    OptionalDot,
    /// `?[`
    OptionalBracket,
    /// `=>`
    Arrow,
    /// `!`
    Not,
    /// `&&`
    And,
    /// `||`
    Or,
    /// `??`
    Coalesce,
    /// `!in`
    NotIn,
    /// An operator on values.
    Operator(Token),
    /// The end of the text.
    End,
}

/// The keywords of the language. Other words are names, or are reserved.
static KEYWORDS: [(&str, Symbol); 21] = [
    ("break", Symbol::Break),
    ("catch", Symbol::Catch),
    ("const", Symbol::Const),
    ("continue", Symbol::Continue),
    ("do", Symbol::Do),
    ("else", Symbol::Else),
    ("false", Symbol::False),
    ("fn", Symbol::Fn),
    ("for", Symbol::For),
    ("if", Symbol::If),
    ("in", Symbol::In),
    ("let", Symbol::Let),
    ("loop", Symbol::Loop),
    ("return", Symbol::Return),
    ("switch", Symbol::Switch),
    ("throw", Symbol::Throw),
    ("true", Symbol::True),
    ("try", Symbol::Try),
    ("until", Symbol::Until),
    ("while", Symbol::While),
    ("_", Symbol::Underscore),
];

/// The signs of rhai by their first character and the rest, longer ones first; signs that this
/// language lacks have no symbol.
pub static SIGNS: [(char, &str, Option<Symbol>); 73] = [
    ('.', ".=", Some(Symbol::Operator(Token::InclusiveRange))),
    ('*', "*=", Some(Symbol::Operator(Token::PowerOfAssign))),
    ('<', "<=", Some(Symbol::Operator(Token::LeftShiftAssign))),
    ('>', ">=", Some(Symbol::Operator(Token::RightShiftAssign))),
    ('.', "..", None),
    ('=', "==", None),
    ('!', "==", None),
    (':', ":<", None),
    ('.', ".", Some(Symbol::Operator(Token::ExclusiveRange))),
    ('*', "*", Some(Symbol::Operator(Token::PowerOf))),
    ('<', "<", Some(Symbol::Operator(Token::LeftShift))),
    ('>', ">", Some(Symbol::Operator(Token::RightShift))),
    ('=', "=", Some(Symbol::Operator(Token::EqualsTo))),
    ('!', "=", Some(Symbol::Operator(Token::NotEqualsTo))),
    ('<', "=", Some(Symbol::Operator(Token::LessThanEqualsTo))),
    ('>', "=", Some(Symbol::Operator(Token::GreaterThanEqualsTo))),
    ('+', "=", Some(Symbol::Operator(Token::PlusAssign))),
    ('-', "=", Some(Symbol::Operator(Token::MinusAssign))),
    ('*', "=", Some(Symbol::Operator(Token::MultiplyAssign))),
    ('/', "=", Some(Symbol::Operator(Token::DivideAssign))),
    ('%', "=", Some(Symbol::Operator(Token::ModuloAssign))),
    ('&', "=", Some(Symbol::Operator(Token::AndAssign))),
    ('|', "=", Some(Symbol::Operator(Token::OrAssign))),
    ('^', "=", Some(Symbol::Operator(Token::XOrAssign))),
    ('&', "&", Some(Symbol::And)),
    ('|', "|", Some(Symbol::Or)),
    ('#', "{", Some(Symbol::OpenMap)),
    ('#', "!", None),
    ('=', ">", Some(Symbol::Arrow)),
    ('-', ">", None),
    ('<', "-", None),
    ('<', "|", None),
    ('|', ">", None),
    ('+', "+", None),
    ('-', "-", None),
    (':', ":", None),
    (':', "=", None),
    (':', ";", None),
    ('?', "?", Some(Symbol::Coalesce)),
    ('?', ".", Some(Symbol::OptionalDot)),
    ('?', "[", Some(Symbol::OptionalBracket)),
    ('(', "*", None),
    ('*', ")", None),
    ('!', ".", None),
    ('+', "", Some(Symbol::Operator(Token::Plus))),
    ('-', "", Some(Symbol::Operator(Token::Minus))),
    ('*', "", Some(Symbol::Operator(Token::Multiply))),
    ('/', "", Some(Symbol::Operator(Token::Divide))),
    ('%', "", Some(Symbol::Operator(Token::Modulo))),
    ('&', "", Some(Symbol::Operator(Token::Ampersand))),
    ('|', "", Some(Symbol::Operator(Token::Pipe))),
    ('^', "", Some(Symbol::Operator(Token::XOr))),
    ('<', "", Some(Symbol::Operator(Token::LessThan))),
    ('>', "", Some(Symbol::Operator(Token::GreaterThan))),
    ('=', "", Some(Symbol::Operator(Token::Equals))),
    ('!', "", Some(Symbol::Not)),
    ('(', "", Some(Symbol::OpenParenthesis)),
    (')', "", Some(Symbol::CloseParenthesis)),
    ('[', "", Some(Symbol::OpenBracket)),
    (']', "", Some(Symbol::CloseBracket)),
    ('{', "", Some(Symbol::OpenBrace)),
    ('}', "", Some(Symbol::CloseBrace)),
    (',', "", Some(Symbol::Comma)),
    (';', "", Some(Symbol::Semicolon)),
    (':', "", Some(Symbol::Colon)),
    ('.', "", Some(Symbol::Dot)),
    ('#', "", None),
    ('?', "", None),
    ('@', "", None),
    ('$', "", None),
    ('~', "", None),
    ('`', "", None),
    ('\\', "", None),
];

/// A sign that rhai has and this language doesn't.
#[derive(Clone, Copy, PartialEq, Eq)]
pub struct ReservedSign {
    /// Its place in `SIGNS`.
    number: usize,
}

impl ReservedSign {
    pub(crate) fn new(number: usize) -> ReservedSign {
        ReservedSign { number }
    }
}

impl fmt::Debug for ReservedSign {
    fn fmt<W: fmt::Write>(&self, f: &mut fmt::Formatter<W>) -> fmt::Result {
        write!(f, "\"{self}\"")
    }
}

impl fmt::Display for ReservedSign {
    fn fmt<W: fmt::Write>(&self, f: &mut fmt::Formatter<W>) -> fmt::Result {
        match SIGNS.get(self.number) {
            Some((first, rest, _)) => write!(f, "{first}{rest}"),
            None => Ok(()),
        }
    }
}

/// Finds the keyword that a word is.
pub fn keyword(word: &str) -> Option<Symbol> {
    for (spelling, symbol) in KEYWORDS.iter() {
        if *spelling == word {
            return Some(*symbol);
        }
    }
    None
}

impl Symbol {
    /// Returns whether a statement that begins with this symbol ends by itself, without a
    /// semicolon.
    pub fn begins_block(self) -> bool {
        matches!(
            self,
            Symbol::OpenBrace
                | Symbol::For
                | Symbol::If
                | Symbol::Loop
                | Symbol::Switch
                | Symbol::Try
                | Symbol::While
        )
    }
}

/// Formats a symbol as it is written, in back-ticks.
impl fmt::Display for Symbol {
    fn fmt<W: fmt::Write>(&self, f: &mut fmt::Formatter<W>) -> fmt::Result {
        for (spelling, symbol) in KEYWORDS.iter() {
            if symbol == self {
                return write!(f, "`{spelling}`");
            }
        }
        for (first, rest, symbol) in SIGNS.iter() {
            if *symbol == Some(*self) {
                return write!(f, "`{first}{rest}`");
            }
        }
        if *self == Symbol::NotIn {
            return write!(f, "`!in`");
        }
        write!(f, "the end")
    }
}
