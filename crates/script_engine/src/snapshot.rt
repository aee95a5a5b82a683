//! Snapshots: variables as bytes, with all that they share. Cells are numbered in the order in
//! which they are first reached, so equal scopes have equal bytes, whatever the order of cells.

use crate::engine::Engine;
use rhai_show::hashed;
use rhai_text::Position;
use rhai_value::{AccessMode, Dynamic, Entries, Path, Store, Tag, Union, WriteToken};
use script_code::Program;
use script_run::{Run, Scope};
use std::alloc::{AllocError, Global};

/// The kind of a cell, with its number behind it.
pub(crate) const CELL: u8 = 10;

/// The kind of a cell that can't be looked into.
pub(crate) const CLOSED: u8 = 11;

/// Precedes a value that has a tag or is constant.
pub(crate) const LABEL: u8 = 12;

/// Precedes a function, and a variable.
pub(crate) const MORE: u8 = 1;

/// Follows the last one.
pub(crate) const END: u8 = 0;

/// The cells that were reached, in their order.
#[derive(Drop)]
struct Cells<'s> {
    /// The content of each.
    contents: Vec<&'s Dynamic>,
    /// All are open here.
    all: Path,
    /// In the path of each bit those are open in whose numbers it is set.
    bits: Vec<Path>,
}

/// How a cell is opened.
#[derive(Clone, Copy)]
enum Key<'k> {
    /// By a holder.
    Holder(&'k Store, &'k Dynamic),
    /// By its mark.
    Mark(&'k WriteToken),
}

/// What is left of the values inside of one.
#[derive(Drop)]
enum Rest<'s> {
    Items(&'s [Dynamic]),
    Fields(Entries<'s>),
}

/// A value inside of another, with its key in a map.
#[derive(Clone, Copy)]
enum Child<'s> {
    Item(&'s Dynamic),
    Field(&'s str, &'s Dynamic),
}

impl<'s> Rest<'s> {
    fn next(&mut self) -> Option<Child<'s>> {
        match self {
            Rest::Items(items) => match items.split_first() {
                None => None,
                Some((first, rest)) => {
                    *items = rest;
                    Some(Child::Item(first))
                }
            },
            Rest::Fields(entries) => match entries.next() {
                None => None,
                Some((key, value)) => Some(Child::Field(key, value)),
            },
        }
    }
}

/// Opens a cell in a path.
fn open_in(path: &mut Path, key: Key) -> Result<(), AllocError> {
    match key {
        Key::Holder(store, holder) => {
            let _content = path.enter(store, holder)?;
        }
        Key::Mark(token) => {
            let _is_new = path.open_marked(token)?;
        }
    }
    Ok(())
}

impl<'s> Cells<'s> {
    fn new(alloc: Global) -> Cells<'s> {
        Cells {
            contents: Vec::new(alloc),
            all: Path::new(alloc),
            bits: Vec::new(alloc),
        }
    }

    /// The number of a holder's cell, which it gets if it has none; `None` for an unreadable cell.
    fn number(
        &mut self,
        alloc: Global,
        store: &'s Store,
        holder: &Dynamic,
    ) -> Result<Option<usize>, AllocError> {
        if self.all.has_open(holder) {
            return Ok(Some(self.known(holder)));
        }
        let Some(content) = self.all.enter(store, holder)? else {
            return Ok(None);
        };
        let number = self.contents.len();
        self.note_bits(alloc, Key::Holder(store, holder), number)?;
        self.contents.push(content)?;
        Ok(Some(number))
    }

    /// Gives a marked cell the next number.
    fn note_mark(
        &mut self,
        alloc: Global,
        token: &WriteToken,
        content: &'s Dynamic,
    ) -> Result<(), AllocError> {
        let number = self.contents.len();
        let _is_new = self.all.open_marked(token)?;
        self.note_bits(alloc, Key::Mark(token), number)?;
        self.contents.push(content)?;
        Ok(())
    }

    /// The number of a cell that has one.
    fn known(&self, holder: &Dynamic) -> usize {
        let mut number = 0usize;
        let mut worth = 1usize;
        for path in self.bits.iter() {
            if path.has_open(holder) {
                number = number.saturating_add(worth);
            }
            worth = worth.saturating_mul(2);
        }
        number
    }

    /// Opens a new cell in the paths of the bits of its number.
    fn note_bits(&mut self, alloc: Global, key: Key, number: usize) -> Result<(), AllocError> {
        let mut left = number;
        for bit in 0..usize::BITS as usize {
            if left == 0 {
                break;
            }
            if bit >= self.bits.len() {
                self.bits.push(Path::new(alloc))?;
            }
            if left % 2 == 1 {
                if let Some(path) = self.bits.get_mut(bit) {
                    open_in(path, key)?;
                }
            }
            left /= 2;
        }
        Ok(())
    }
}

fn add_count(out: &mut Vec<u8>, count: usize) -> Result<(), AllocError> {
    out.extend_from_slice(&(count as u64).to_le_bytes())
}

fn add_text(out: &mut Vec<u8>, text: &str) -> Result<(), AllocError> {
    add_count(out, text.len())?;
    out.extend_from_slice(text.as_bytes())
}

/// Adds the tag and the mode of a value, unless they are those of a new value.
fn add_label(out: &mut Vec<u8>, value: &Dynamic) -> Result<(), AllocError> {
    let tag: Tag = value.tag();
    let mode = match value.access_mode() {
        AccessMode::ReadWrite => 0,
        AccessMode::ReadOnly => 1,
    };
    if tag == 0 && mode == 0 {
        return Ok(());
    }
    out.push(LABEL)?;
    out.push(mode)?;
    out.extend_from_slice(&tag.to_le_bytes())
}

/// Adds a value that contains no others, or else the head of one that does.
fn opened<'s>(
    alloc: Global,
    out: &mut Vec<u8>,
    cells: &mut Cells<'s>,
    store: &'s Store,
    value: &'s Dynamic,
) -> Result<Option<Rest<'s>>, AllocError> {
    add_label(out, value)?;
    match value.parts() {
        Union::Array(_, _, items) => {
            out.push(5)?;
            add_count(out, items.len())?;
            Ok(Some(Rest::Items(items.as_slice())))
        }
        Union::Map(_, _, map) => {
            out.push(7)?;
            add_count(out, map.len())?;
            Ok(Some(Rest::Fields(map.iter())))
        }
        Union::FnPtr(_, _, function) => {
            out.push(8)?;
            add_text(out, function.fn_name())?;
            let given = function.curry();
            add_count(out, given.len())?;
            Ok(Some(Rest::Items(given)))
        }
        Union::Shared(_, _, _) => {
            match cells.number(alloc, store, value)? {
                Some(number) => {
                    out.push(CELL)?;
                    add_count(out, number)?;
                }
                None => out.push(CLOSED)?,
            }
            Ok(None)
        }
        Union::Unit(_, _, _)
        | Union::Bool(_, _, _)
        | Union::Str(_, _, _)
        | Union::Char(_, _, _)
        | Union::Int(_, _, _)
        | Union::Blob(_, _, _)
        | Union::Variant(_, _, _) => {
            // (each of these has hash bytes)
            if let Some(bytes) = hashed(alloc, value, store)? {
                let bytes = bytes.into_bytes(alloc)?;
                out.extend_from_slice(bytes.as_slice())?;
            }
            Ok(None)
        }
    }
}

/// Adds a value. A work list has what is left of each level, so nesting takes no stack.
fn add_value<'s>(
    alloc: Global,
    out: &mut Vec<u8>,
    cells: &mut Cells<'s>,
    store: &'s Store,
    value: &'s Dynamic,
) -> Result<(), AllocError> {
    let mut levels = Vec::new(alloc);
    if let Some(rest) = opened(alloc, out, cells, store, value)? {
        levels.push(rest)?;
    }
    for _ in 0..usize::MAX {
        let Some(top) = levels.last_mut() else {
            break;
        };
        let Some(child) = top.next() else {
            let _done = levels.pop();
            continue;
        };
        let inner = match child {
            Child::Item(value) => value,
            Child::Field(key, value) => {
                add_text(out, key)?;
                value
            }
        };
        if let Some(rest) = opened(alloc, out, cells, store, inner)? {
            levels.push(rest)?;
        }
    }
    Ok(())
}

/// Adds what the cells hold that were reached so far, and what is reached by them, each cell once.
fn add_contents<'s>(
    alloc: Global,
    out: &mut Vec<u8>,
    cells: &mut Cells<'s>,
    store: &'s Store,
) -> Result<(), AllocError> {
    for number in 0..usize::MAX {
        let Some(content) = cells.contents.get(number) else {
            break;
        };
        let content: &'s Dynamic = *content;
        add_value(alloc, out, cells, store, content)?;
    }
    Ok(())
}

/// Adds an active function, with its visible variables.
fn add_function<'s>(
    alloc: Global,
    out: &mut Vec<u8>,
    cells: &mut Cells<'s>,
    program: &'s Program,
    run: &'s Run,
    number: usize,
) -> Result<(), AllocError> {
    let Some(frame) = run.frame(program, number) else {
        return Ok(());
    };
    out.push(MORE)?;
    add_text(out, frame.name)?;
    add_place(out, frame.position)?;
    let mut before = usize::MAX;
    for _ in 0..usize::MAX {
        let Some(variable) = run.variable(program, number, before) else {
            break;
        };
        before = variable.number;
        out.push(MORE)?;
        add_text(out, variable.name)?;
        add_value(alloc, out, cells, run.store(), variable.value)?;
    }
    out.push(END)?;
    Ok(())
}

fn add_place(out: &mut Vec<u8>, place: Position) -> Result<(), AllocError> {
    let (line, column) = (place.line(), place.position());
    out.extend_from_slice(&u64::from(line).to_le_bytes())?;
    out.extend_from_slice(&u64::from(column).to_le_bytes())
}

/// Adds the variables of a scope, from the oldest to the newest.
fn add_variables<'s>(
    alloc: Global,
    out: &mut Vec<u8>,
    cells: &mut Cells<'s>,
    scope: &'s Scope,
) -> Result<(), AllocError> {
    for number in 0..scope.len() {
        if let (Some(name), Some(value)) = (scope.names().get(number), scope.get(number)) {
            out.push(MORE)?;
            add_text(out, name.as_str())?;
            add_value(alloc, out, cells, scope.store(), value)?;
        }
    }
    out.push(END)?;
    Ok(())
}

/// A snapshot that is being written: first the values that the host adds, then the content of each
/// cell.
/// `Engine::snapshot` describes the bytes of values.
#[derive(Drop)]
pub struct Snapshot<'s> {
    alloc: Global,
    store: &'s Store,
    out: Vec<u8>,
    cells: Cells<'s>,
}

impl<'s> Snapshot<'s> {
    /// Starts a snapshot of values whose cells are in this store. The first byte says the kind: 0
    /// and 1 are those of `Engine::snapshot`.
    /// Errors: an allocation fails.
    pub fn new(alloc: Global, store: &'s Store, kind: u8) -> Result<Snapshot<'s>, AllocError> {
        let mut out = Vec::new(alloc);
        out.push(kind)?;
        Ok(Snapshot {
            alloc,
            store,
            out,
            cells: Cells::new(alloc),
        })
    }

    /// Adds the byte 1 for an open mark. Its cell, with this content, has the next number; add all
    /// marks before any value.
    /// Errors: an allocation fails.
    pub fn add_mark(&mut self, token: &WriteToken, content: &'s Dynamic) -> Result<(), AllocError> {
        self.out.push(MORE)?;
        self.cells.note_mark(self.alloc, token, content)
    }

    /// Adds the byte 1, and a value.
    /// Errors: an allocation fails.
    pub fn add(&mut self, value: &'s Dynamic) -> Result<(), AllocError> {
        self.out.push(MORE)?;
        add_value(
            self.alloc,
            &mut self.out,
            &mut self.cells,
            self.store,
            value,
        )
    }

    /// Adds the byte 1, a name, and its value.
    /// Errors: an allocation fails.
    pub fn add_named(&mut self, name: &str, value: &'s Dynamic) -> Result<(), AllocError> {
        self.out.push(MORE)?;
        add_text(&mut self.out, name)?;
        add_value(
            self.alloc,
            &mut self.out,
            &mut self.cells,
            self.store,
            value,
        )
    }

    /// Adds the byte 0, which ends a list of values.
    /// Errors: an allocation fails.
    pub fn end(&mut self) -> Result<(), AllocError> {
        self.out.push(END)?;
        Ok(())
    }

    /// Adds what the cells hold, and returns the bytes.
    /// Errors: an allocation fails.
    pub fn into_bytes(self) -> Result<Vec<u8>, AllocError> {
        let Snapshot {
            alloc,
            store,
            mut out,
            mut cells,
        } = self;
        add_contents(alloc, &mut out, &mut cells, store)?;
        Ok(out)
    }
}

/// Snapshots of an engine's values.
impl Engine {
    /// Takes a snapshot: during a run, of the active functions, the innermost first, each with its
    /// visible variables, from the newest to the oldest; otherwise of the variables alone, from the
    /// oldest to the newest, which `restore` reads.
    ///
    /// The bytes: 0 and the variables; or 1 and the functions, each with its name, line and column
    /// (eight bytes each) and its variables. A variable has its name and its value. A byte 1
    /// precedes each of these, and 0 follows the last one. At the end is the content of each cell,
    /// in the order of their numbers. Values have their hash bytes; a cell is 10 and its number,
    /// and 11 a cell that can't be read. A value that is constant or has a tag is preceded by 12,
    /// then 1 for a constant or 0, and the tag in four bytes.
    /// Errors: an allocation fails.
    /// Cost: the number of values, and for each holder the square of the logarithm of the number
    /// of cells; memory for the bytes, and for each cell.
    pub fn snapshot(&self) -> Result<Vec<u8>, AllocError> {
        let alloc = self.alloc;
        let mut out = Vec::new(alloc);
        let mut cells = Cells::new(alloc);
        match &self.program {
            Some(program) if self.is_running => {
                out.push(MORE)?;
                for number in 0..self.run.depth() {
                    add_function(alloc, &mut out, &mut cells, program, &self.run, number)?;
                }
                out.push(END)?;
            }
            Some(_) | None => {
                out.push(END)?;
                add_variables(alloc, &mut out, &mut cells, &self.scope)?;
            }
        }
        add_contents(alloc, &mut out, &mut cells, self.store())?;
        Ok(out)
    }
}
