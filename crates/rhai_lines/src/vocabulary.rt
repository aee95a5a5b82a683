//! The types, operators, questions, scanners, host numbers and places of a line.
ghost use Rattle.std.specs.Prelude.{◌≡◌, ◌++◌, option_map, string_bytes};
ghost use Rattle.rhai_lines.specs.Words.{named};
ghost use Rattle.rhai_lines.specs.Vocabulary.{kinds, operators, plain_questions, host_of, place_of, a_kind, a_token, a_question, a_scanner, a_host, a_place};
ghost use Rattle.rhai_lines.specs.Memory.{names_entry};
ghost use Rattle.rhai_lines.specs.Spelling.{called, unsigned_word, signed_word};
ghost use Rattle.rhai_lines.specs.Cursor.{left_in, rows, Yields, Adds};

use crate::numbers::{
    add_signed, add_unsigned, i8_in, i16_in, i32_in, signed, u8_in, u16_in, u32_in, u64_in,
    unsigned, usize_in,
};
use crate::words::{NoCommand, Word, add, called, name, named, next_word, strip_sigil};
use rhai_run::{Place, Question, Scanner};
use rhai_text::Token;
use rhai_value::{Host, TypeId};
use std::alloc::{AllocError, Global};

/// The names of types.
const KINDS: [(&str, TypeId); 23] = [
    ("()", TypeId::Unit),
    ("bool", TypeId::Bool),
    ("char", TypeId::Char),
    ("i64", TypeId::Int),
    ("u8", TypeId::U8),
    ("u16", TypeId::U16),
    ("u32", TypeId::U32),
    ("u64", TypeId::U64),
    ("u128", TypeId::U128),
    ("i8", TypeId::I8),
    ("i16", TypeId::I16),
    ("i32", TypeId::I32),
    ("i128", TypeId::I128),
    ("String", TypeId::String),
    ("string", TypeId::ImmutableString),
    ("array", TypeId::Array),
    ("blob", TypeId::Blob),
    ("map", TypeId::Map),
    ("Fn", TypeId::FnPtr),
    ("range", TypeId::ExclusiveRange),
    ("rangeeq", TypeId::InclusiveRange),
    ("Dynamic", TypeId::Dynamic),
    ("<shared>", TypeId::Shared),
];

/// Appends the name of a value in a table.
fn add_called<A: Copy + Eq>(
    line: &mut String,
    table: &[(&str, A)],
    value: A,
) -> Result<bool, AllocError>
    ensures { Adds result (called A.eq (rows table.now) value) (string_bytes line.old) (string_bytes line.new) }
{
    match called(table, value) {
        Some(word) => add(line, word),
        None => Ok(false),
    }
}

#[tactic(auto, unfolding(crate::specs::Vocabulary::kinds))]
fn kind_in(word: &str) -> Option<TypeId>
    ensures { result ≡ named kinds word.now }
{
    named(&KINDS, word)
}

/// A type.
#[tactic(auto, unfolding(crate::specs::Vocabulary::reads, crate::specs::Spelling::spells, crate::specs::Memory::takes_for))]
impl Word for TypeId {
    ghost word = { a_kind };

    fn read(_alloc: Global, left: Option<&str>) -> Result<(TypeId, Option<&str>), NoCommand> {
        let (word, left) = next_word(left)?;
        Ok((kind_in(word).ok_or(NoCommand::BadLine)?, left))
    }

    #[tactic(auto, unfolding(crate::specs::Spelling::spells, crate::specs::Vocabulary::kinds))]
    fn spell(&self, line: &mut String) -> Result<bool, AllocError> {
        add_called(line, &KINDS, *self)
    }
}

/// The binary operators, and the assignments.
const OPERATORS: [(&str, Token); 31] = [
    ("+", Token::Plus),
    ("-", Token::Minus),
    ("*", Token::Multiply),
    ("/", Token::Divide),
    ("%", Token::Modulo),
    ("**", Token::PowerOf),
    (">>", Token::RightShift),
    ("<<", Token::LeftShift),
    ("&", Token::Ampersand),
    ("|", Token::Pipe),
    ("^", Token::XOr),
    ("==", Token::EqualsTo),
    ("!=", Token::NotEqualsTo),
    (">", Token::GreaterThan),
    (">=", Token::GreaterThanEqualsTo),
    ("<", Token::LessThan),
    ("<=", Token::LessThanEqualsTo),
    ("..", Token::ExclusiveRange),
    ("..=", Token::InclusiveRange),
    ("=", Token::Equals),
    ("+=", Token::PlusAssign),
    ("-=", Token::MinusAssign),
    ("*=", Token::MultiplyAssign),
    ("/=", Token::DivideAssign),
    ("%=", Token::ModuloAssign),
    ("**=", Token::PowerOfAssign),
    (">>=", Token::RightShiftAssign),
    ("<<=", Token::LeftShiftAssign),
    ("&=", Token::AndAssign),
    ("|=", Token::OrAssign),
    ("^=", Token::XOrAssign),
];

#[tactic(auto, unfolding(crate::specs::Vocabulary::operators))]
fn token_in(word: &str) -> Option<Token>
    ensures { result ≡ named operators word.now }
{
    named(&OPERATORS, word)
}

/// An operator.
#[tactic(auto, unfolding(crate::specs::Vocabulary::reads, crate::specs::Spelling::spells, crate::specs::Memory::takes_for))]
impl Word for Token {
    ghost word = { a_token };

    fn read(_alloc: Global, left: Option<&str>) -> Result<(Token, Option<&str>), NoCommand> {
        let (word, left) = next_word(left)?;
        Ok((token_in(word).ok_or(NoCommand::BadLine)?, left))
    }

    #[tactic(auto, unfolding(crate::specs::Spelling::spells, crate::specs::Vocabulary::operators))]
    fn spell(&self, line: &mut String) -> Result<bool, AllocError> {
        add_called(line, &OPERATORS, *self)
    }
}

fn plain_question_in(word: &str) -> Option<Question>
    ensures { result ≡ named plain_questions word.now }
{
    match word {
        "tag" => Some(Question::Tag),
        "variant" => Some(Question::Variant),
        "shared" => Some(Question::Shared),
        "readonly" => Some(Question::ReadOnly),
        "locked" => Some(Question::Locked),
        "type" => Some(Question::TypeName),
        "hashable" => Some(Question::Hashable),
        "unit" => Some(Question::Unit),
        "int" => Some(Question::Int),
        "bool" => Some(Question::Bool),
        "char" => Some(Question::Char),
        _ => None,
    }
}

/// A question.
#[tactic(auto, unfolding(crate::specs::Vocabulary::reads, crate::specs::Spelling::spells, crate::specs::Memory::takes_for))]
impl Word for Question {
    ghost word = { a_question };

    fn read(alloc: Global, left: Option<&str>) -> Result<(Question, Option<&str>), NoCommand> {
        let (word, left) = next_word(left)?;
        match word {
            "is" => {
                let (kind, left) = Word::read(alloc, left)?;
                Ok((Question::Is(kind), left))
            }
            "held" => {
                let (kind, left) = Word::read(alloc, left)?;
                Ok((Question::Held(kind), left))
            }
            _ => Ok((plain_question_in(word).ok_or(NoCommand::BadLine)?, left)),
        }
    }

    fn spell(&self, line: &mut String) -> Result<bool, AllocError> {
        match self {
            Question::Tag => add(line, "tag"),
            Question::Variant => add(line, "variant"),
            Question::Shared => add(line, "shared"),
            Question::ReadOnly => add(line, "readonly"),
            Question::Locked => add(line, "locked"),
            Question::TypeName => add(line, "type"),
            Question::Held(kind) => {
                line.push_str("held ")?;
                kind.spell(line)
            }
            Question::Hashable => add(line, "hashable"),
            Question::Is(kind) => {
                line.push_str("is ")?;
                kind.spell(line)
            }
            Question::Unit => add(line, "unit"),
            Question::Int => add(line, "int"),
            Question::Bool => add(line, "bool"),
            Question::Char => add(line, "char"),
        }
    }
}

/// A scanner.
#[tactic(auto, unfolding(crate::specs::Vocabulary::reads, crate::specs::Spelling::spells, crate::specs::Memory::takes_for))]
impl Word for Scanner {
    ghost word = { a_scanner };

    fn read(alloc: Global, left: Option<&str>) -> Result<(Scanner, Option<&str>), NoCommand> {
        let (word, left) = next_word(left)?;
        match word {
            "tags" => {
                let (tag, left) = Word::read(alloc, left)?;
                Ok((Scanner::Tags(tag), left))
            }
            "zero" => Ok((Scanner::Zero, left)),
            "noshare" => Ok((Scanner::NoShare, left)),
            "cut" => {
                let (n, left) = Word::read(alloc, left)?;
                Ok((Scanner::Cut(n), left))
            }
            _ => Err(NoCommand::BadLine),
        }
    }

    fn spell(&self, line: &mut String) -> Result<bool, AllocError> {
        match self {
            Scanner::Tags(tag) => {
                line.push_str("tags ")?;
                tag.spell(line)
            }
            Scanner::Zero => add(line, "zero"),
            Scanner::NoShare => add(line, "noshare"),
            Scanner::Cut(n) => {
                line.push_str("cut ")?;
                n.spell(line)
            }
        }
    }
}

/// A number of one of the host's types, which precedes it.
fn host_in(kind: &str, word: &str) -> Option<Host>
    ensures { result ≡ host_of kind.now word.now }
{
    match kind {
        "u8" => Some(Host::U8(u8_in(word)?)),
        "u16" => Some(Host::U16(u16_in(word)?)),
        "u32" => Some(Host::U32(u32_in(word)?)),
        "u64" => Some(Host::U64(u64_in(word)?)),
        "u128" => Some(Host::U128(unsigned(word)?)),
        "i8" => Some(Host::I8(i8_in(word)?)),
        "i16" => Some(Host::I16(i16_in(word)?)),
        "i32" => Some(Host::I32(i32_in(word)?)),
        "i128" => Some(Host::I128(signed(word)?)),
        _ => None,
    }
}

fn unsigned_behind(line: &mut String, kind: &str, n: u128) -> Result<bool, AllocError>
    ensures { Adds result (option_map (λ w. kind.now ++ w) (unsigned_word 128 n)) (string_bytes line.old) (string_bytes line.new) }
{
    line.push_str(kind)?;
    add_unsigned(line, n)
}

fn signed_behind(line: &mut String, kind: &str, n: i128) -> Result<bool, AllocError>
    ensures { Adds result (option_map (λ w. kind.now ++ w) (signed_word 127 n)) (string_bytes line.old) (string_bytes line.new) }
{
    line.push_str(kind)?;
    add_signed(line, n)
}

/// The name of one of the host's types, and a number of it.
#[tactic(auto, unfolding(crate::specs::Vocabulary::reads, crate::specs::Spelling::spells, crate::specs::Memory::takes_for))]
impl Word for Host {
    ghost word = { a_host };

    fn read(_alloc: Global, left: Option<&str>) -> Result<(Host, Option<&str>), NoCommand> {
        let (kind, left) = next_word(left)?;
        let (number, left) = next_word(left)?;
        Ok((host_in(kind, number).ok_or(NoCommand::BadLine)?, left))
    }

    fn spell(&self, line: &mut String) -> Result<bool, AllocError> {
        match *self {
            Host::U8(n) => unsigned_behind(line, "u8 ", n as u128),
            Host::U16(n) => unsigned_behind(line, "u16 ", n as u128),
            Host::U32(n) => unsigned_behind(line, "u32 ", n as u128),
            Host::U64(n) => unsigned_behind(line, "u64 ", n as u128),
            Host::U128(n) => unsigned_behind(line, "u128 ", n),
            Host::I8(n) => signed_behind(line, "i8 ", n as i128),
            Host::I16(n) => signed_behind(line, "i16 ", n as i128),
            Host::I32(n) => signed_behind(line, "i32 ", n as i128),
            Host::I128(n) => signed_behind(line, "i128 ", n),
            Host::ExclusiveRange(_) => Ok(false),
            Host::InclusiveRange(_) => Ok(false),
        }
    }
}

/// The place given by a word.
#[tactic(auto, using(crate::proofs::Sigils::place_behind, crate::proofs::Sigils::place_alone, crate::proofs::Sigils::place_takes))]
fn place_in(alloc: Global, word: &str) -> Result<Place, NoCommand>
    ensures { Yields result (place_of word.now) names_entry }
{
    match strip_sigil(word, b'@') {
        Some(entry) => Ok(Place::Entry(name(alloc, entry)?)),
        None => Ok(Place::Hand(usize_in(word).ok_or(NoCommand::BadLine)?)),
    }
}

#[tactic(auto, using(crate::proofs::Added::added_behind), unfolding(crate::specs::Vocabulary::reads, crate::specs::Spelling::spells, crate::specs::Memory::takes_for))]
impl Word for Place {
    ghost word = { a_place };

    fn read(alloc: Global, left: Option<&str>) -> Result<(Place, Option<&str>), NoCommand> {
        let (word, left) = next_word(left)?;
        Ok((place_in(alloc, word)?, left))
    }

    fn spell(&self, line: &mut String) -> Result<bool, AllocError> {
        match self {
            Place::Hand(i) => i.spell(line),
            Place::Entry(name) => {
                line.push_str("@")?;
                name.spell(line)
            }
        }
    }
}
