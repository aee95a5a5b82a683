//! Commands made from the arguments of a verb.
//!
//! The function with an arm for each verb would reserve, and clear, a stack slot for each argument
//! that it passes by value. So no function here is inlined, and the rest of the line is borrowed.
#![tactic(auto, unfolding(crate::specs::Arguments::says, crate::specs::Memory::takes))]

ghost use Rattle.std.specs.Prelude.{◌≡◌};
ghost use Rattle.rhai_run.specs.declared.command.Command.TheVariants.{Put, ExtendFlagged, SetAlias};
ghost use Rattle.rhai_run.specs.declared.command.Literal.TheVariants.{Char, Text, Blob};
ghost use Rattle.rhai_lines.specs.Vocabulary.{a_name};
ghost use Rattle.rhai_lines.specs.Arguments.{none, one as one_word, before, names as some_names, flagged_names as some_flagged_names, an_alias, a_text, a_blob, a_char};
ghost use Rattle.rhai_lines.specs.Cursor.{left_in, Makes};

use crate::args::{alias, bytes_in, is_hex, last_word, list, only_char, text, text_left};
use crate::words::{NoCommand, Word};
use rhai_run::{Bytes, Command, FlaggedNames, Literal, Names};
use std::alloc::Global;

/// The command of a verb without arguments.
#[inline(never)]
pub(crate) fn of_none<F: FnOnce(()) -> Command>(
    left: &Option<&str>,
    make: F,
) -> Result<Command, NoCommand>
    requires { F.IsAlwaysCallable make }
    ensures { Makes result (λ u. tt) (F.post make) none (left_in left.now) }
{
    match *left {
        None => Ok(make(())),
        Some(_) => Err(NoCommand::BadLine),
    }
}

/// The command made from the value of one word.
#[inline(never)]
pub(crate) fn of_one<A: Word, F: FnOnce(A) -> Command>(
    alloc: Global,
    left: &Option<&str>,
    make: F,
) -> Result<Command, NoCommand>
    requires { F.IsAlwaysCallable make }
    ensures { Makes result (λ a. a) (F.post make) (one_word A.word) (left_in left.now) }
{
    Ok(make(last_word(alloc, *left)?))
}

/// The command made from the values of two words.
#[inline(never)]
pub(crate) fn of_two<A: Word, B: Word, F: FnOnce((A, B)) -> Command>(
    alloc: Global,
    left: &Option<&str>,
    make: F,
) -> Result<Command, NoCommand>
    requires { F.IsAlwaysCallable make }
    ensures { Makes result (λ a. a) (F.post make) (before A.word (one_word B.word)) (left_in left.now) }
{
    let (a, left) = A::read(alloc, *left)?;
    let b = last_word(alloc, left)?;
    Ok(make((a, b)))
}

/// The command made from the values of three words.
#[inline(never)]
pub(crate) fn of_three<A: Word, B: Word, C: Word, F: FnOnce((A, B, C)) -> Command>(
    alloc: Global,
    left: &Option<&str>,
    make: F,
) -> Result<Command, NoCommand>
    requires { F.IsAlwaysCallable make }
    ensures { Makes result (λ t. (t.0, (t.1, t.2))) (F.post make) (before A.word (before B.word (one_word C.word))) (left_in left.now) }
{
    let (a, left) = A::read(alloc, *left)?;
    let (b, left) = B::read(alloc, left)?;
    let c = last_word(alloc, left)?;
    Ok(make((a, b, c)))
}

/// The command made from the values of four words.
#[inline(never)]
pub(crate) fn of_four<A: Word, B: Word, C: Word, D: Word, F: FnOnce((A, B, C, D)) -> Command>(
    alloc: Global,
    left: &Option<&str>,
    make: F,
) -> Result<Command, NoCommand>
    requires { F.IsAlwaysCallable make }
    ensures { Makes result (λ t. (t.0, (t.1, (t.2, t.3)))) (F.post make) (before A.word (before B.word (before C.word (one_word D.word)))) (left_in left.now) }
{
    let (a, left) = A::read(alloc, *left)?;
    let (b, left) = B::read(alloc, left)?;
    let (c, left) = C::read(alloc, left)?;
    let d = last_word(alloc, left)?;
    Ok(make((a, b, c, d)))
}

/// The command made from names.
#[inline(never)]
pub(crate) fn of_names<F: FnOnce(Names) -> Command>(
    alloc: Global,
    left: &Option<&str>,
    make: F,
) -> Result<Command, NoCommand>
    requires { F.IsAlwaysCallable make }
    ensures { Makes result (λ a. a) (F.post make) some_names (left_in left.now) }
{
    Ok(make(Names::new(list(alloc, *left)?)))
}

/// The command that extends the scope by names with flags.
#[inline(never)]
pub(crate) fn of_flagged_names(alloc: Global, left: &Option<&str>) -> Result<Command, NoCommand>
    ensures { Makes result (λ a. a) (λ names c. c ≡ ExtendFlagged names) some_flagged_names (left_in left.now) }
{
    Ok(Command::ExtendFlagged(FlaggedNames::new(list(alloc, *left)?)))
}

/// The command that adds an alias to a name.
#[inline(never)]
pub(crate) fn of_alias(alloc: Global, left: &Option<&str>) -> Result<Command, NoCommand>
    ensures { Makes result (λ a. a) (λ p c. c ≡ SetAlias p.0 p.1) (before a_name an_alias) (left_in left.now) }
{
    let (name, left) = Word::read(alloc, *left)?;
    let alias = alias(alloc, left)?;
    Ok(Command::SetAlias(name, alias))
}

/// The command that puts a character.
#[inline(never)]
pub(crate) fn put_char(left: &Option<&str>) -> Result<Command, NoCommand>
    ensures { Makes result (λ a. a) (λ character c. c ≡ Put (Char character)) a_char (left_in left.now) }
{
    match only_char(text_left(*left)) {
        Some(c) => Ok(Command::Put(Literal::Char(c))),
        None => Err(NoCommand::BadLine),
    }
}

/// The command that puts a text.
#[inline(never)]
pub(crate) fn put_text(alloc: Global, left: &Option<&str>) -> Result<Command, NoCommand>
    ensures { Makes result (λ a. a) (λ text c. c ≡ Put (Text text)) a_text (left_in left.now) }
{
    Ok(Command::Put(Literal::Text(text(alloc, *left)?)))
}

/// The command that puts a blob.
#[inline(never)]
pub(crate) fn put_blob(alloc: Global, left: &Option<&str>) -> Result<Command, NoCommand>
    ensures { Makes result (λ a. a) (λ bytes c. c ≡ Put (Blob bytes)) a_blob (left_in left.now) }
{
    let Some(digits) = *left else {
        return Ok(Command::Put(Literal::Blob(Bytes::new(Vec::new(alloc)))));
    };
    if !is_hex(digits.as_bytes()) {
        return Err(NoCommand::BadLine);
    }
    Ok(Command::Put(Literal::Blob(bytes_in(alloc, digits.as_bytes())?)))
}
