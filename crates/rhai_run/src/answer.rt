//! The answers of a world.
ghost use Rattle.std.specs.Prelude.{◌≡◌};
ghost use Rattle.rhai_run.specs.declared.answer.Refusal.TheVariants.{Mismatch};

use crate::lists::Bytes;
use rhai_show::Shown;
use rhai_text::{EvalAltResult, TypeName};

/// Why a command was refused. A refused command changes nothing.
#[derive(Drop)]
pub enum Refusal {
    /// The hand has no value at a hand position, or too few values.
    NoValue,
    /// Two hand positions that must differ are the same.
    SameValue,
    /// The scope has no entry of the name.
    NoEntry,
    /// The scope has no entry at all.
    EmptyScope,
    /// The last entry of the name is a constant.
    ConstantEntry,
    /// The last entry of the name is a holder.
    SharedEntry,
    /// The list of marks has no such position.
    NoMark,
    /// The value at the place isn't a holder, or holds another type than the one the command writes
    /// to.
    WrongSource,
    /// No int has this bit.
    BitPlace,
    /// The blob has no such byte.
    BytePlace,
    /// The operator isn't built in for the types of the two values.
    NoBuiltin,
    /// The value has no hash bytes.
    NotHashable,
    /// Another type is held; this is its name.
    Mismatch(TypeName),
    /// A call that the command made failed with this error.
    Fault(EvalAltResult),
}

/// The refusal for a held type of another name.
pub(crate) fn mismatch(name: &'static str) -> Refusal
    ensures { result ≡ Mismatch name.now }
{
    Refusal::Mismatch(TypeName::new(name))
}

/// The answer to one command.
#[derive(Drop)]
pub enum Answer {
    /// The command was done.
    Done,
    /// A boolean.
    Bool(bool),
    /// A number.
    Int(i128),
    /// A text.
    Text(Shown),
    /// Bytes.
    Bytes(Bytes),
    /// Two numbers.
    Pair(usize, usize),
    /// There is no result.
    Nothing,
    /// The command was refused.
    Refused(Refusal),
}
