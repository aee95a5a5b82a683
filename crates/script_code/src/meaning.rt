//! What names mean that are not functions of the script.
ghost use Rattle.std.specs.Prelude.{◌≡◌, ◌<◌, length, IfSome, string_bytes};
ghost use Rattle.std.specs.List.{HoldsAt};
ghost use Rattle.script_code.specs.Meaning.{host_number};

use script_natives::{Native, native_of};

/// A function that the host implements, by its name and number of arguments.
#[derive(Drop)]
pub struct HostName {
    /// The name.
    pub name: String,
    /// How many arguments it takes.
    pub arguments: usize,
    /// Whether it changes the first one.
    pub changes: bool,
}

/// What a callback over the items of an array computes; `Filter`, `Drain` and `Retain` also work on
/// the entries of a map.
#[derive(Clone, Copy, Debug, PartialEq, Eq)]
pub enum EachKind {
    /// The array of its results.
    Map,
    /// The array of the items for which it returns true.
    Filter,
    /// Its last result; it is called with its previous result and an item.
    Reduce,
    /// Whether it returns true for all items.
    All,
    /// Whether it returns true for one item.
    Some,
    /// Nothing; it is called on each item, and may change it.
    ForEach,
    /// As `Reduce`, from the last item on.
    ReduceBack,
    /// The first item for which it returns true.
    Find,
    /// Its first result that isn't unit.
    FindMap,
    /// The index of the first item for which it returns true.
    IndexOf,
    /// The array of its results for the items of two arrays.
    Zip,
    /// The items without those for which, with the one before, it returns true.
    Dedup,
    /// The array of the items for which it returns true; they are removed.
    Drain,
    /// The array of the other items; they are removed.
    Retain,
}

/// What a name with a number of arguments means, apart from functions of the script. The receiver
/// of a method is an argument.
#[derive(Clone, Copy)]
pub enum Meaning {
    /// A host function, by its number.
    Host(u32),
    /// Writes a line.
    Print,
    /// Writes a line in the form of `debug`.
    Debug,
    /// Returns whether a variable is shared.
    IsShared,
    /// Returns whether a variable with a name is in scope.
    IsVariable,
    /// Returns whether the script has a function with a name and this many arguments.
    IsFunction,
    /// Calls a function pointer.
    Call,
    /// Curries values in a function pointer.
    Curry,
    /// Ends the whole script with a value.
    Exit,
    /// Calls a function pointer for each item.
    Each(EachKind),
    /// Sorts by a function pointer.
    Sort,
    /// Removes items by a function pointer, or by a range.
    Sift(EachKind),
    /// Finds the index of an item, or of the first one for which a function pointer returns true;
    /// in texts that of a part.
    Search,
    /// Functions of the packages; there may be none.
    Native(Native),
}

/// Finds what a name means with this many arguments.
/// Cost: the number of the host's names; no memory.
pub fn meaning_of(name: &str, arguments: usize, host: &[HostName]) -> Meaning
    ensures is_there { IfSome (host_number result) (λ number. number < length host.now) }
    ensures named { IfSome (host_number result)
        (λ number. HoldsAt (λ known. string_bytes known.name ≡ name.now) host.now number) }
    ensures takes { IfSome (host_number result)
        (λ number. HoldsAt (λ known. known.arguments ≡ arguments) host.now number) }
{
    for (number, known) in host.iter().enumerate() {
        if known.name.as_str() == name && known.arguments == arguments {
            if let Ok(number) = u32::try_from(number) {
                return Meaning::Host(number);
            }
        }
    }
    if name == "exit" && arguments <= 1 {
        return Meaning::Exit;
    }
    if arguments == 0 {
        return Meaning::Native(native_of(name, usize::MAX));
    }
    match (name, arguments) {
        ("call", _) => Meaning::Call,
        ("curry", _) => Meaning::Curry,
        ("print", 1) => Meaning::Print,
        ("debug", 1) => Meaning::Debug,
        ("is_shared", 1) => Meaning::IsShared,
        ("is_def_var", 1) => Meaning::IsVariable,
        ("is_def_fn", 2) => Meaning::IsFunction,
        ("map", 2) => Meaning::Each(EachKind::Map),
        ("filter", 2) => Meaning::Each(EachKind::Filter),
        ("all", 2) => Meaning::Each(EachKind::All),
        ("some", 2) => Meaning::Each(EachKind::Some),
        ("reduce", 2) | ("reduce", 3) => Meaning::Each(EachKind::Reduce),
        ("reduce_rev", 2) | ("reduce_rev", 3) => Meaning::Each(EachKind::ReduceBack),
        ("find", 2) | ("find", 3) => Meaning::Each(EachKind::Find),
        ("find_map", 2) | ("find_map", 3) => Meaning::Each(EachKind::FindMap),
        ("for_each", 2) => Meaning::Each(EachKind::ForEach),
        ("zip", 3) => Meaning::Each(EachKind::Zip),
        ("dedup", 2) => Meaning::Sift(EachKind::Dedup),
        ("drain", 2) => Meaning::Sift(EachKind::Drain),
        ("retain", 2) => Meaning::Sift(EachKind::Retain),
        ("index_of", 2) | ("index_of", 3) => Meaning::Search,
        ("sort", 2) => Meaning::Sort,
        _ => Meaning::Native(native_of(name, arguments.wrapping_sub(1))),
    }
}
