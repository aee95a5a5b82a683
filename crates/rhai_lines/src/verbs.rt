//! The verbs: the command of a line with each, and the line of each command.
#![tactic(auto, using(crate::proofs::Lookups::says_word), unfolding(crate::specs::Verbs::said_by, crate::specs::Memory::takes_by))]

ghost use Rattle.std.specs.Prelude.{◌≡◌, length, IfOk, OnErr, string_bytes};
ghost use Rattle.rhai_run.specs.declared.command.Command.TheVariants.{Put};
ghost use Rattle.rhai_lines.specs.Verbs.{command_of};
ghost use Rattle.rhai_lines.specs.Memory.{TakesMemory};
ghost use Rattle.rhai_lines.specs.Cursor.{left_in, Says, AddsLine};

use crate::made::{
    of_alias, of_flagged_names, of_four, of_names, of_none, of_one, of_three, of_two, put_blob,
    put_char, put_text,
};
use crate::spell;
use crate::words::{NoCommand, first_word};
use rhai_run::{Command, Literal};
use rhai_value::{ExclusiveRange, InclusiveRange};
use std::alloc::{AllocError, Global};

/// The command of a verb of three letters.
fn three_letters(alloc: Global, verb: &str, left: &Option<&str>) -> Result<Command, NoCommand>
    requires { length verb.now ≡ 3 }
    ensures { Says result verb.now (left_in left.now) }
{
    match verb {
        "ask" => of_two(alloc, left, |(i, q)| Command::Ask(i, q)),
        "bit" => of_three(alloc, left, |(p, b, j)| Command::WriteBit(p, b, j)),
        "get" => of_one(alloc, left, |a| Command::Get(a)),
        "int" => of_one(alloc, left, |a| Command::Put(Literal::Int(a))),
        "len" => of_none(left, |_| Command::Len),
        "map" => of_names(alloc, left, |names| Command::MakeMap(names)),
        "pop" => of_none(left, |_| Command::Pop),
        "ref" => of_two(alloc, left, |(name, k)| Command::GetRef(name, k)),
        "set" => of_two(alloc, left, |(name, i)| Command::SetEntry(name, i)),
        "tag" => of_two(alloc, left, |(i, t)| Command::SetTag(i, t)),
        _ => Err(NoCommand::BadLine),
    }
}

/// The command of a verb of four letters.
fn four_letters(alloc: Global, verb: &str, left: &Option<&str>) -> Result<Command, NoCommand>
    requires { length verb.now ≡ 4 }
    ensures { Says result verb.now (left_in left.now) }
{
    match verb {
        "blob" => put_blob(alloc, left),
        "bool" => of_one(alloc, left, |a| Command::Put(Literal::Bool(a))),
        "byte" => of_three(alloc, left, |(p, n, j)| Command::WriteByte(p, n, j)),
        "cast" => of_two(alloc, left, |(i, k)| Command::Cast(i, k)),
        "char" => put_char(left),
        "copy" => of_one(alloc, left, |a| Command::Copy(a)),
        "drop" => of_none(left, |_| Command::Drop),
        "hash" => of_one(alloc, left, |a| Command::Hash(a)),
        "host" => of_one(alloc, left, |a| Command::Put(Literal::Host(a))),
        "iter" => of_none(left, |_| Command::Entries),
        "mark" => of_one(alloc, left, |a| Command::Mark(a)),
        "push" => of_two(alloc, left, |(name, i)| Command::Push(name, i)),
        "scan" => of_two(alloc, left, |(i, s)| Command::Scan(i, s)),
        "show" => of_one(alloc, left, |a| Command::Show(a)),
        "take" => of_one(alloc, left, |a| Command::Take(a)),
        "text" => put_text(alloc, left),
        "unit" => of_none(left, |_| Command::Put(Literal::Unit)),
        _ => Err(NoCommand::BadLine),
    }
}

/// The command of a verb of five letters.
fn five_letters(alloc: Global, verb: &str, left: &Option<&str>) -> Result<Command, NoCommand>
    requires { length verb.now ≡ 5 }
    ensures { Says result verb.now (left_in left.now) }
{
    match verb {
        "alias" => of_alias(alloc, left),
        "array" => of_one(alloc, left, |a| Command::MakeArray(a)),
        "clear" => of_none(left, |_| Command::Clear),
        "debug" => of_one(alloc, left, |a| Command::Debug(a)),
        "empty" => of_none(left, |_| Command::IsEmpty),
        "field" => of_four(alloc, left, |(p, m, s, j)| Command::WriteField(p, m, s, j)),
        "index" => of_three(alloc, left, |(l, n, e)| Command::Index(l, n, e)),
        "names" => of_none(left, |_| Command::Names),
        "range" => of_two(
            alloc,
            left,
            |(start, end)| Command::Put(Literal::Range(ExclusiveRange { start, end })),
        ),
        "share" => of_one(alloc, left, |a| Command::Share(a)),
        "slice" => of_four(
            alloc,
            left,
            |(p, a, b, j)| Command::WriteSlice(p, a, b, true, j),
        ),
        "store" => of_two(alloc, left, |(i, j)| Command::Write(i, j)),
        "value" => of_two(alloc, left, |(name, k)| Command::GetValue(name, k)),
        "write" => of_two(alloc, left, |(i, n)| Command::WriteInt(i, n)),
        _ => Err(NoCommand::BadLine),
    }
}

/// The command of a verb of six letters.
fn six_letters(alloc: Global, verb: &str, left: &Option<&str>) -> Result<Command, NoCommand>
    requires { length verb.now ≡ 6 }
    ensures { Says result verb.now (left_in left.now) }
{
    match verb {
        "assign" => of_three(alloc, left, |(p, op, j)| Command::Assign(op, p, j)),
        "charat" => of_three(alloc, left, |(p, n, j)| Command::WriteChar(p, n, j)),
        "extend" => of_names(alloc, left, |names| Command::Extend(names)),
        "offset" => of_three(alloc, left, |(l, s, n)| Command::Offset(l, s, n)),
        "refint" => of_two(alloc, left, |(name, n)| Command::SetRef(name, n)),
        "remove" => of_two(alloc, left, |(name, k)| Command::Remove(name, k)),
        "rewind" => of_one(alloc, left, |a| Command::Rewind(a)),
        "search" => of_one(alloc, left, |a| Command::Search(a)),
        "unmark" => of_one(alloc, left, |a| Command::Unmark(a)),
        _ => Err(NoCommand::BadLine),
    }
}

/// The command of a verb of seven letters.
fn seven_letters(alloc: Global, verb: &str, left: &Option<&str>) -> Result<Command, NoCommand>
    requires { length verb.now ≡ 7 }
    ensures { Says result verb.now (left_in left.now) }
{
    match verb {
        "aliases" => of_one(alloc, left, |a| Command::Aliases(a)),
        "flatten" => of_one(alloc, left, |a| Command::Flatten(a)),
        "pushdyn" => of_two(alloc, left, |(name, i)| Command::PushDynamic(name, i)),
        "rangeeq" => of_two(
            alloc,
            left,
            |(start, end)| Command::Put(Literal::RangeEq(InclusiveRange { start, end })),
        ),
        "sliceeq" => of_four(
            alloc,
            left,
            |(p, a, b, j)| Command::WriteSlice(p, a, b, false, j),
        ),
        "visible" => of_none(left, |_| Command::KeepVisible),
        _ => Err(NoCommand::BadLine),
    }
}

/// The command of a verb of eight letters.
fn eight_letters(alloc: Global, verb: &str, left: &Option<&str>) -> Result<Command, NoCommand>
    requires { length verb.now ≡ 8 }
    ensures { Says result verb.now (left_in left.now) }
{
    match verb {
        "constant" => of_one(alloc, left, |a| Command::IsConstant(a)),
        "contains" => of_one(alloc, left, |a| Command::Contains(a)),
        "readonly" => of_one(alloc, left, |a| Command::MakeReadOnly(a)),
        "setvalue" => of_two(alloc, left, |(name, i)| Command::SetValue(name, i)),
        _ => Err(NoCommand::BadLine),
    }
}

/// The command of a verb of nine letters.
fn nine_letters(alloc: Global, verb: &str, left: &Option<&str>) -> Result<Command, NoCommand>
    requires { length verb.now ≡ 9 }
    ensures { Says result verb.now (left_in left.now) }
{
    match verb {
        "copyscope" => of_none(left, |_| Command::CopyScope),
        "flatclone" => of_one(alloc, left, |a| Command::FlattenClone(a)),
        "hashscope" => of_none(left, |_| Command::HashScope),
        "pushconst" => of_two(alloc, left, |(name, i)| Command::PushConstant(name, i)),
        "setorpush" => of_two(alloc, left, |(name, i)| Command::SetOrPush(name, i)),
        "showscope" => of_none(left, |_| Command::ShowScope),
        _ => Err(NoCommand::BadLine),
    }
}

/// The command of a verb and the rest of its line. Selects by the length of the verb first, so that
/// texts are compared as numbers.
fn read(alloc: Global, verb: &str, left: &Option<&str>) -> Result<Command, NoCommand>
    ensures { Says result verb.now (left_in left.now) }
{
    match verb.len() {
        3 => three_letters(alloc, verb, left),
        4 => four_letters(alloc, verb, left),
        5 => five_letters(alloc, verb, left),
        6 => six_letters(alloc, verb, left),
        7 => seven_letters(alloc, verb, left),
        8 => eight_letters(alloc, verb, left),
        9 => nine_letters(alloc, verb, left),
        _ => match verb {
            "fn" => of_two(alloc, left, |(name, n)| Command::MakeFn(name, n)),
            "op" => of_three(alloc, left, |(i, op, j)| Command::Binary(op, i, j)),
            "extendflagged" => of_flagged_names(alloc, left),
            "readmarked" => of_one(alloc, left, |a| Command::ReadMarked(a)),
            "writemarked" => of_two(alloc, left, |(k, i)| Command::WriteMarked(k, i)),
            _ => Err(NoCommand::BadLine),
        },
    }
}

/// Reads the command of a line; `None` if it has none.
/// Errors: the allocation of a name, a text or a blob fails.
/// Cost: the length of the line; memory only for names, texts and blobs.
pub fn command(alloc: Global, line: &[u8]) -> Result<Option<Command>, AllocError>
    ensures command { IfOk result (λ o. o ≡ command_of line.now) }
    ensures memory { OnErr result (TakesMemory line.now) }
{
    let Ok(text) = str::from_utf8(line) else {
        return Ok(None);
    };
    let (verb, left) = first_word(text);
    match read(alloc, verb, &left) {
        Ok(command) => Ok(Some(command)),
        Err(NoCommand::BadLine) => Ok(None),
        Err(NoCommand::Memory) => Err(AllocError),
    }
}

/// Appends the line of a literal.
#[tactic(auto, using(crate::proofs::Spoken::adds_line), unfolding(crate::specs::Verbs::form_of))]
fn add_literal(line: &mut String, literal: &Literal) -> Result<bool, AllocError>
    ensures { AddsLine result (Put literal.now) (string_bytes line.old) (string_bytes line.new) }
{
    match literal {
        Literal::Unit => spell::no_args(line, "unit"),
        Literal::Bool(b) => spell::args1(line, "bool", b),
        Literal::Int(n) => spell::args1(line, "int", n),
        Literal::Char(c) => spell::character(line, "char", *c),
        Literal::Text(characters) => spell::text(line, "text", characters.as_str()),
        Literal::Blob(bytes) => spell::blob(line, "blob", bytes.as_slice()),
        Literal::Host(number) => spell::args1(line, "host", number),
        Literal::Range(range) => spell::args2(line, "range", &range.start, &range.end),
        Literal::RangeEq(range) => spell::args2(line, "rangeeq", &range.start, &range.end),
    }
}

/// Appends the line of a command.
#[tactic(auto, using(crate::proofs::Spoken::adds_line), unfolding(crate::specs::Verbs::form_of))]
pub(crate) fn add_line(line: &mut String, command: &Command) -> Result<bool, AllocError>
    ensures { AddsLine result command.now (string_bytes line.old) (string_bytes line.new) }
{
    match command {
        Command::Put(literal) => add_literal(line, literal),
        Command::MakeArray(n) => spell::args1(line, "array", n),
        Command::MakeMap(names) => spell::names(line, "map", names.as_slice()),
        Command::MakeFn(name, n) => spell::args2(line, "fn", name, n),
        Command::Copy(i) => spell::args1(line, "copy", i),
        Command::Take(i) => spell::args1(line, "take", i),
        Command::Drop => spell::no_args(line, "drop"),
        Command::Share(i) => spell::args1(line, "share", i),
        Command::Flatten(i) => spell::args1(line, "flatten", i),
        Command::FlattenClone(i) => spell::args1(line, "flatclone", i),
        Command::Cast(i, k) => spell::args2(line, "cast", i, k),
        Command::MakeReadOnly(i) => spell::args1(line, "readonly", i),
        Command::SetTag(i, t) => spell::args2(line, "tag", i, t),
        Command::Ask(i, q) => spell::args2(line, "ask", i, q),
        Command::WriteInt(i, n) => spell::args2(line, "write", i, n),
        Command::Write(i, j) => spell::args2(line, "store", i, j),
        Command::Binary(op, i, j) => spell::args3(line, "op", i, op, j),
        Command::Assign(op, p, j) => spell::args3(line, "assign", p, op, j),
        Command::Scan(i, s) => spell::args2(line, "scan", i, s),
        Command::Push(name, i) => spell::args2(line, "push", name, i),
        Command::PushDynamic(name, i) => spell::args2(line, "pushdyn", name, i),
        Command::PushConstant(name, i) => spell::args2(line, "pushconst", name, i),
        Command::SetEntry(name, i) => spell::args2(line, "set", name, i),
        Command::SetOrPush(name, i) => spell::args2(line, "setorpush", name, i),
        Command::SetValue(name, i) => spell::args2(line, "setvalue", name, i),
        Command::Pop => spell::no_args(line, "pop"),
        Command::Rewind(n) => spell::args1(line, "rewind", n),
        Command::Clear => spell::no_args(line, "clear"),
        Command::Len => spell::no_args(line, "len"),
        Command::IsEmpty => spell::no_args(line, "empty"),
        Command::Contains(name) => spell::args1(line, "contains", name),
        Command::Search(name) => spell::args1(line, "search", name),
        Command::IsConstant(name) => spell::args1(line, "constant", name),
        Command::Get(name) => spell::args1(line, "get", name),
        Command::GetValue(name, k) => spell::args2(line, "value", name, k),
        Command::GetRef(name, k) => spell::args2(line, "ref", name, k),
        Command::SetRef(name, n) => spell::args2(line, "refint", name, n),
        Command::Remove(name, k) => spell::args2(line, "remove", name, k),
        Command::SetAlias(name, alias) => spell::name_and_alias(line, "alias", name, alias),
        Command::Aliases(name) => spell::args1(line, "aliases", name),
        Command::KeepVisible => spell::no_args(line, "visible"),
        Command::CopyScope => spell::no_args(line, "copyscope"),
        Command::Entries => spell::no_args(line, "iter"),
        Command::Names => spell::no_args(line, "names"),
        Command::Extend(names) => spell::names(line, "extend", names.as_slice()),
        Command::ExtendFlagged(names) => spell::flagged_names(
            line,
            "extendflagged",
            names.as_slice(),
        ),
        Command::ShowScope => spell::no_args(line, "showscope"),
        Command::HashScope => spell::no_args(line, "hashscope"),
        Command::Mark(place) => spell::args1(line, "mark", place),
        Command::Unmark(k) => spell::args1(line, "unmark", k),
        Command::WriteMarked(k, i) => spell::args2(line, "writemarked", k, i),
        Command::ReadMarked(k) => spell::args1(line, "readmarked", k),
        Command::WriteBit(p, b, j) => spell::args3(line, "bit", p, b, j),
        Command::WriteField(p, m, s, j) => spell::args4(line, "field", p, m, s, j),
        Command::WriteByte(p, n, j) => spell::args3(line, "byte", p, n, j),
        Command::WriteChar(p, n, j) => spell::args3(line, "charat", p, n, j),
        Command::WriteSlice(p, a, b, true, j) => spell::args4(line, "slice", p, a, b, j),
        Command::WriteSlice(p, a, b, false, j) => spell::args4(line, "sliceeq", p, a, b, j),
        Command::Offset(l, s, n) => spell::args3(line, "offset", l, s, n),
        Command::Index(l, n, e) => spell::args3(line, "index", l, n, e),
        Command::Show(i) => spell::args1(line, "show", i),
        Command::Debug(i) => spell::args1(line, "debug", i),
        Command::Hash(i) => spell::args1(line, "hash", i),
    }
}
