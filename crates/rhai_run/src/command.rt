//! The commands of a world, and the call that each makes.
ghost use Rattle.std.specs.Prelude.{◌≡◌, ℕ, ℤ, Bool, List, IfOk};
ghost use Rattle.rhai_run.specs.declared.command.Command.TheVariants as command;
ghost use Rattle.rhai_run.specs.declared.command.Place.{Place};
ghost use Rattle.rhai_run.specs.declared.command.Scanner.{Scanner};
ghost use Rattle.rhai_run.specs.Places.{place_of};
ghost use Rattle.rhai_run.specs.Stop.{NeverWants};
ghost use Rattle.rhai_run.specs.Step.{step};
ghost use Rattle.rhai_run.specs.Fits.{Fits};
ghost use Rattle.rhai_run.specs.Does.{Does, Steps};

use crate::answer::Answer;
use crate::laws;
use crate::lists::{Bytes, FlaggedNames, Names};
use crate::not_done::NotDone;
use crate::world::{World, replied};
use crate::world_state::WorldState;
use rhai_text::{ImmutableString, Token};
use rhai_value::{AccessMode, ExclusiveRange, Host, INT, InclusiveRange, Tag, TypeId};
use std::alloc::{AllocError, Global};

/// A value that a command makes.
#[derive(Drop)]
pub enum Literal {
    /// The unit value.
    Unit,
    /// A boolean.
    Bool(bool),
    /// An integer.
    Int(INT),
    /// A character.
    Char(char),
    /// A text.
    Text(ImmutableString),
    /// A blob.
    Blob(Bytes),
    /// A value of one of the host's types.
    Host(Host),
    /// A range that excludes its end.
    Range(ExclusiveRange),
    /// A range that includes its end.
    RangeEq(InclusiveRange),
}

impl Literal {
    /// Copies the literal. Costs the bytes of a blob.
    pub(crate) fn copy(&self, alloc: Global) -> Result<Literal, AllocError>
        ensures { IfOk result (λ l. l ≡ self.now) }
    {
        Ok(match self {
            Literal::Unit => Literal::Unit,
            Literal::Bool(b) => Literal::Bool(*b),
            Literal::Int(n) => Literal::Int(*n),
            Literal::Char(c) => Literal::Char(*c),
            Literal::Text(text) => Literal::Text(text.copy(alloc)?),
            Literal::Blob(bytes) => Literal::Blob(bytes.copy(alloc)?),
            Literal::Host(host) => Literal::Host(*host),
            Literal::Range(range) => Literal::Range(*range),
            Literal::RangeEq(range) => Literal::RangeEq(*range),
        })
    }
}

/// A question about a value.
#[derive(Drop)]
pub enum Question {
    /// Its own tag, as a number.
    Tag,
    /// Whether it is of one of the host's types.
    Variant,
    /// Whether it is a holder.
    Shared,
    /// Whether its first content is a constant.
    ReadOnly,
    /// Whether it is, or contains, a holder of a marked cell.
    Locked,
    /// The name of the held type, as a text.
    TypeName,
    /// Whether this is the held type.
    Held(TypeId),
    /// Whether it can be hashed.
    Hashable,
    /// Whether it is of this type: by its constructor, or for a holder by the held type.
    Is(TypeId),
    /// The held unit.
    Unit,
    /// The held int, as a number.
    Int,
    /// The held boolean.
    Bool,
    /// The held character, as a text.
    Char,
}

/// What a scan does with each visited value.
#[derive(Copy, Clone)]
pub enum Scanner {
    /// Sets the tag.
    Tags(Tag),
    /// Sets an int to 0.
    Zero,
    /// Turns a holder into unit.
    NoShare,
    /// Keeps the first items of an array, as many as given.
    Cut(usize),
}

/// The target of a command's write.
#[derive(Drop)]
pub enum Place {
    /// The value at a hand position.
    Hand(usize),
    /// The value of the last entry of a name. A constant is refused.
    Entry(ImmutableString),
}

/// A place with a borrowed name.
#[derive(Copy, Clone)]
pub enum PlaceRef<'a> {
    /// The value at a hand position.
    Hand(usize),
    /// The value of the last entry of a name. A constant is refused.
    Entry(&'a ImmutableString),
}

impl Place {
    pub(crate) fn lend(&self) -> PlaceRef<'_>
        ensures { place_of result ≡ self.now }
    {
        match self {
            Place::Hand(i) => PlaceRef::Hand(*i),
            Place::Entry(name) => PlaceRef::Entry(name),
        }
    }
}

/// A command. Hand positions count from 0, and new values are appended to the hand.
#[derive(Drop)]
pub enum Command {
    /// Appends a new value.
    Put(Literal),
    /// Removes this many values from the end of the hand, and appends the array of them in order.
    MakeArray(usize),
    /// Removes as many values from the end of the hand as there are keys, and appends the map of
    /// the keys to those in order; for equal keys the last value is kept.
    MakeMap(Names),
    /// Removes this many values from the end of the hand, and appends the function pointer of the
    /// name with these curried in order.
    MakeFn(ImmutableString, usize),
    /// Appends a copy of the value at the hand position.
    Copy(usize),
    /// Moves the value at the hand position to the end, and leaves unit.
    Take(usize),
    /// Drops the last value.
    Drop,
    /// Moves the value at the hand position into a new cell, and leaves a holder of it; a holder is
    /// left unchanged.
    Share(usize),
    /// Replaces a holder at the hand position by the held value, flat.
    Flatten(usize),
    /// Appends a flat copy of the value at the hand position.
    FlattenClone(usize),
    /// Appends a flat copy of the value at the hand position, cast to this type.
    Cast(usize, TypeId),
    /// Makes the value at the hand position a constant.
    MakeReadOnly(usize),
    /// Sets the tag of the value at the hand position.
    SetTag(usize, Tag),
    /// Answers a question about the value at the hand position.
    Ask(usize, Question),
    /// Overwrites the int held at the hand position.
    WriteInt(usize, INT),
    /// Writes the value at the second hand position over the first content of the one at the first,
    /// and leaves unit at the second.
    Write(usize, usize),
    /// Appends the result of the operator on the values at the two hand positions.
    Binary(Token, usize, usize),
    /// Calls the assignment of the operator on the value at the place and the one at the hand
    /// position.
    Assign(Token, Place, usize),
    /// Scans the value at the hand position with a scanner, and returns the number of visited
    /// values.
    Scan(usize, Scanner),
    /// Moves the value at the hand position into a new variable entry of the name, and leaves unit.
    Push(ImmutableString, usize),
    /// Moves the value at the hand position into a new entry of the name, a constant if the value
    /// is one, and leaves unit.
    PushDynamic(ImmutableString, usize),
    /// Moves the value at the hand position into a new constant entry of the name, and leaves unit.
    PushConstant(ImmutableString, usize),
    /// Moves the value at the hand position over the value of the last entry of the name, and
    /// leaves unit.
    SetEntry(ImmutableString, usize),
    /// Moves the value at the hand position over the value of the last entry of the name, and
    /// leaves unit; if there is no entry, or it is a constant, the value goes into a new one.
    SetOrPush(ImmutableString, usize),
    /// Moves the value at the hand position over the value of the last entry of the name, and
    /// leaves unit; if there is no entry, the value goes into a new one.
    SetValue(ImmutableString, usize),
    /// Drops the last entry.
    Pop,
    /// Keeps the first entries, as many as given.
    Rewind(usize),
    /// Drops all entries.
    Clear,
    /// Returns the number of entries.
    Len,
    /// Returns whether the scope is empty.
    IsEmpty,
    /// Returns whether the name has an entry.
    Contains(ImmutableString),
    /// Returns the position of the last entry of the name, counted from 0, or `Nothing`.
    Search(ImmutableString),
    /// Returns whether the last entry of the name is a constant, or `Nothing`.
    IsConstant(ImmutableString),
    /// Appends a copy of the value of the last entry of the name.
    Get(ImmutableString),
    /// Appends a flat copy of the value of the last entry of the name, cast to this type; or
    /// returns `Nothing`.
    GetValue(ImmutableString, TypeId),
    /// Appends a copy of the last entry's own value, borrowed as this type; or returns `Nothing`.
    GetRef(ImmutableString, TypeId),
    /// Overwrites the int that the last entry's own value is; or returns `Nothing`.
    SetRef(ImmutableString, INT),
    /// Removes the last entry of the name, and appends its flat value, cast to this type; or
    /// returns `Nothing`.
    Remove(ImmutableString, TypeId),
    /// Adds the alias to the last entry of the name, unless it has it; an empty alias means the
    /// name.
    SetAlias(ImmutableString, ImmutableString),
    /// Returns the aliases of the last entry of the name, each with a line feed.
    Aliases(ImmutableString),
    /// Replaces the scope by copies of the last entries of each name, the newest first.
    KeepVisible,
    /// Replaces the scope by copies of all entries.
    CopyScope,
    /// Appends flat copies of the values of all entries.
    Entries,
    /// Returns the names of the entries, the newest first, each followed by a line feed, and with
    /// `const ` before that of a constant.
    Names,
    /// Removes as many values from the end of the hand as there are names, and adds a variable
    /// entry of each name with its value.
    Extend(Names),
    /// Removes as many values from the end of the hand as there are names, and adds an entry of
    /// each name with its value, a constant if its name is flagged.
    ExtendFlagged(FlaggedNames),
    /// Returns the printed text of the scope.
    ShowScope,
    /// Returns the hash bytes of the scope.
    HashScope,
    /// Marks the cell of the holder at the place: from then on it is read and written only through
    /// the mark. The mark is appended to the list of marks.
    Mark(Place),
    /// Removes the mark at this position from the list, and unmarks its cell; later marks move
    /// down.
    Unmark(usize),
    /// Moves the value at the hand position into the cell of the mark at this position, and leaves
    /// unit.
    WriteMarked(usize, usize),
    /// Appends a copy of the content of the cell of the mark at this position.
    ReadMarked(usize),
    /// Writes the boolean at the hand position to this bit of the int at the place.
    WriteBit(Place, u8, usize),
    /// Writes the int at the hand position, shifted left, to the bits of the mask in the int at the
    /// place.
    WriteField(Place, INT, u8, usize),
    /// Writes the int at the hand position to the byte of this index of the blob at the place.
    WriteByte(Place, usize, usize),
    /// Writes the character at the hand position over the one at this index of the text at the
    /// place.
    WriteChar(Place, usize, usize),
    /// Writes the printed text of the value at the hand position over the characters from the first
    /// index to the second; the one at the second is replaced too unless the slice is exclusive.
    WriteSlice(Place, usize, usize, bool, usize),
    /// Returns where a slice of a list of this length starts and how many items it has, for a start
    /// and a number of items.
    Offset(usize, INT, INT),
    /// Returns the position of an item in a list of this length, or `Nothing`; with the flag a
    /// negative index counts from the end.
    Index(usize, INT, bool),
    /// Returns the displayed text of the value at the hand position.
    Show(usize),
    /// Returns the debug text of the value at the hand position.
    Debug(usize),
    /// Returns the hash bytes of the value at the hand position.
    Hash(usize),
}

impl WorldState {
    /// Executes a command.
    #[inline(always)]
    pub(crate) fn apply(&mut self, command: &Command) -> Result<Answer, NotDone>
        requires { Fits self.old }
        ensures { Does result self.old self.new (step self.old command.now) }
    {
        match command {
            Command::Put(literal) => self.put(literal),
            Command::MakeArray(n) => self.make_array(*n),
            Command::MakeMap(keys) => self.make_map(keys),
            Command::MakeFn(name, n) => self.make_fn(name, *n),
            Command::Copy(i) => self.copy(*i),
            Command::Take(i) => self.take(*i),
            Command::Drop => self.drop_last(),
            Command::Share(i) => self.share(*i),
            Command::Flatten(i) => self.flatten(*i),
            Command::FlattenClone(i) => self.flatten_clone(*i),
            Command::Cast(i, kind) => self.cast(*i, *kind),
            Command::MakeReadOnly(i) => self.make_read_only(*i),
            Command::SetTag(i, tag) => self.set_tag(*i, *tag),
            Command::Ask(i, question) => self.ask(*i, question),
            Command::WriteInt(i, value) => self.write_int(*i, *value),
            Command::Write(i, j) => self.write(*i, *j),
            Command::Binary(op, i, j) => self.binary(*op, *i, *j),
            Command::Assign(op, place, j) => self.assign(*op, place.lend(), *j),
            Command::Scan(i, scanner) => self.scan(*i, *scanner),
            Command::Push(name, i) => self.push_as(name, AccessMode::ReadWrite, *i),
            Command::PushDynamic(name, i) => self.push_dynamic(name, *i),
            Command::PushConstant(name, i) => self.push_as(name, AccessMode::ReadOnly, *i),
            Command::SetEntry(name, i) => self.set_entry(name, *i),
            Command::SetOrPush(name, i) => self.set_or_push(name, *i),
            Command::SetValue(name, i) => self.set_value(name, *i),
            Command::Pop => self.pop(),
            Command::Rewind(n) => self.rewind(*n),
            Command::Clear => self.clear(),
            Command::Len => self.len(),
            Command::IsEmpty => self.is_empty(),
            Command::Contains(name) => self.contains(name),
            Command::Search(name) => self.search(name),
            Command::IsConstant(name) => self.is_constant(name),
            Command::Get(name) => self.get(name),
            Command::GetValue(name, kind) => self.get_value(name, *kind),
            Command::GetRef(name, kind) => self.get_ref(name, *kind),
            Command::SetRef(name, value) => self.set_ref(name, *value),
            Command::Remove(name, kind) => self.remove(name, *kind),
            Command::SetAlias(name, alias) => self.set_alias(name, alias.as_str()),
            Command::Aliases(name) => self.aliases(name),
            Command::KeepVisible => self.keep_visible(),
            Command::CopyScope => self.copy_scope(),
            Command::Entries => self.entries(),
            Command::Names => self.names(),
            Command::Extend(names) => self.extend(names),
            Command::ExtendFlagged(names) => self.extend_flagged(names),
            Command::ShowScope => self.show_scope(),
            Command::HashScope => self.hash_scope(),
            Command::Mark(place) => self.mark(place.lend()),
            Command::Unmark(k) => self.unmark(*k),
            Command::WriteMarked(k, i) => self.write_marked(*k, *i),
            Command::ReadMarked(k) => self.read_marked(*k),
            Command::WriteBit(place, bit, j) => self.write_bit(place.lend(), *bit, *j),
            Command::WriteField(place, mask, shift, j) => {
                self.write_field(place.lend(), *mask, *shift, *j)
            }
            Command::WriteByte(place, index, j) => self.write_byte(place.lend(), *index, *j),
            Command::WriteChar(place, index, j) => self.write_char(place.lend(), *index, *j),
            Command::WriteSlice(place, start, end, exclusive, j) => {
                self.write_slice(place.lend(), *start, *end, *exclusive, *j)
            }
            Command::Offset(length, start, len) => self.offset(*length, *start, *len),
            Command::Index(length, index, from_end) => self.index(*length, *index, *from_end),
            Command::Show(i) => self.show(*i),
            Command::Debug(i) => self.debug(*i),
            Command::Hash(i) => self.hash(*i),
        }
    }
}

impl World {
    /// Executes a command, as the free `apply` does.
    /// Errors: an allocation fails; nothing changes.
    #[inline(always)]
    pub fn apply(&mut self, command: &Command) -> Result<Answer, AllocError>
        ensures { Steps result self.old self.new (step self.old command.now) }
    {
        laws::methods_fit();
        replied(self.state.apply(command))
    }
}

/// The commands that never allocate, whatever the state is. (Others allocate nothing in some
/// states: see `step`.)
#[tactic(auto, using(crate::proofs::Free::free_either, crate::proofs::Free::free_given, crate::proofs::Free::free_unless, crate::proofs::Free::free_value, crate::proofs::Free::free_two, crate::proofs::Free::free_write_back))]
pub fn free_commands_are_granted()
    ensures drop_last { NeverWants command.Drop }
    ensures set_tag { (i : ℕ) (tag : ℤ) → NeverWants (command.SetTag i tag) }
    ensures make_read_only { (i : ℕ) → NeverWants (command.MakeReadOnly i) }
    ensures write_int { (i : ℕ) (n : ℤ) → NeverWants (command.WriteInt i n) }
    ensures write { (i j : ℕ) → NeverWants (command.Write i j) }
    ensures scan { (i : ℕ) (scanner : Scanner) → NeverWants (command.Scan i scanner) }
    ensures set_entry { (name : List ℕ) (i : ℕ) → NeverWants (command.SetEntry name i) }
    ensures set_ref { (name : List ℕ) (n : ℤ) → NeverWants (command.SetRef name n) }
    ensures pop { NeverWants command.Pop }
    ensures rewind { (n : ℕ) → NeverWants (command.Rewind n) }
    ensures clear { NeverWants command.Clear }
    ensures len { NeverWants command.Len }
    ensures is_empty { NeverWants command.IsEmpty }
    ensures contains { (name : List ℕ) → NeverWants (command.Contains name) }
    ensures search_for { (name : List ℕ) → NeverWants (command.Search name) }
    ensures is_constant { (name : List ℕ) → NeverWants (command.IsConstant name) }
    ensures unmark { (k : ℕ) → NeverWants (command.Unmark k) }
    ensures write_marked { (k i : ℕ) → NeverWants (command.WriteMarked k i) }
    ensures write_bit { (place : Place) (bit j : ℕ) → NeverWants (command.WriteBit place bit j) }
    ensures write_field { (place : Place) (mask : ℤ) (shift j : ℕ) → NeverWants (command.WriteField place mask shift j) }
    ensures write_byte { (place : Place) (index j : ℕ) → NeverWants (command.WriteByte place index j) }
    ensures offset { (length : ℕ) (start len : ℤ) → NeverWants (command.Offset length start len) }
    ensures index { (length : ℕ) (index : ℤ) (from_end : Bool) → NeverWants (command.Index length index from_end) }
{}
