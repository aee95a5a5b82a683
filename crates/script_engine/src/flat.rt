//! Reads values from their hash bytes: the host passes values in the form in which `rhai_show`
//! returns them.

use crate::snapshot::{CELL, LABEL};
use rhai_text::ImmutableString;
use rhai_value::{
    AccessMode, Array, Dynamic, ExclusiveRange, FnPtr, Host, INT, InclusiveRange, Map, Part, Store,
    Tag,
};
use std::alloc::{AllocError, AllocFailed, Global};
use std::{mem, str};

/// The kind of an int.
const INT_KIND: u8 = 4;

/// The kind of an array.
const ARRAY_KIND: u8 = 5;

/// How many bytes an int has, with its kind.
const INT_SIZE: usize = 9;

/// Why bytes are not a value.
#[derive(Clone, Copy, Debug, PartialEq, Eq)]
pub enum Unread {
    /// They are not the hash bytes of one value.
    Form,
    /// An allocation failed.
    Memory,
}

impl From<AllocError> for Unread {
    fn from(_error: AllocError) -> Unread {
        Unread::Memory
    }
}

impl<T: Drop> From<AllocFailed<T>> for Unread {
    fn from(_failed: AllocFailed<T>) -> Unread {
        Unread::Memory
    }
}

/// Bytes that are read from the front.
#[derive(Drop)]
pub(crate) struct Bytes<'a> {
    pub(crate) rest: &'a [u8],
}

impl<'a> Bytes<'a> {
    fn take(&mut self, count: usize) -> Result<&'a [u8], Unread> {
        match self.rest.split_at_checked(count) {
            Some((front, rest)) => {
                self.rest = rest;
                Ok(front)
            }
            None => Err(Unread::Form),
        }
    }

    fn array<const N: usize>(&mut self) -> Result<[u8; N], Unread> {
        match <[u8; N]>::try_from(self.take(N)?) {
            Ok(bytes) => Ok(bytes),
            Err(_) => Err(Unread::Form),
        }
    }

    pub(crate) fn byte(&mut self) -> Result<u8, Unread> {
        let [byte]: [u8; 1] = self.array()?;
        Ok(byte)
    }

    fn int(&mut self) -> Result<INT, Unread> {
        Ok(INT::from_le_bytes(self.array()?))
    }

    fn count(&mut self) -> Result<usize, Unread> {
        match usize::try_from(u64::from_le_bytes(self.array()?)) {
            Ok(count) => Ok(count),
            Err(_) => Err(Unread::Form),
        }
    }

    fn sized(&mut self) -> Result<&'a [u8], Unread> {
        let count = self.count()?;
        self.take(count)
    }

    pub(crate) fn text(&mut self) -> Result<&'a str, Unread> {
        match str::from_utf8(self.sized()?) {
            Ok(text) => Ok(text),
            Err(_) => Err(Unread::Form),
        }
    }
}

/// What the values inside are collected into.
#[derive(Drop)]
enum Kind {
    Array,
    /// With the keys read so far.
    Map(Vec<String>),
    FnPtr(ImmutableString),
}

/// The tag and the mode of a value.
#[derive(Clone, Copy)]
struct Label {
    tag: Tag,
    mode: AccessMode,
}

/// No tag, and no constant.
const NO_LABEL: Label = Label {
    tag: 0,
    mode: AccessMode::ReadWrite,
};

/// The cells of a snapshot by their numbers, a holder of each.
#[derive(Drop)]
pub(crate) struct Cells {
    pub(crate) store: Store,
    pub(crate) holders: Vec<Dynamic>,
    /// Whether bytes may name cells and labels.
    are_read: bool,
}

impl Cells {
    pub(crate) fn new(alloc: Global, are_read: bool) -> Cells {
        Cells {
            store: Store::new(alloc),
            holders: Vec::new(alloc),
            are_read,
        }
    }

    /// A holder of the cell of a number; the next one is made.
    fn holder(&mut self, alloc: Global, number: usize) -> Result<Dynamic, Unread> {
        if !self.are_read || number > self.holders.len() {
            return Err(Unread::Form);
        }
        if number == self.holders.len() {
            match Dynamic::UNIT.into_shared(&mut self.store) {
                Ok(holder) => self.holders.push(holder)?,
                Err(_) => return Err(Unread::Memory),
            }
        }
        match self.holders.get(number) {
            Some(holder) => Ok(holder.copy(alloc)?),
            None => Err(Unread::Form),
        }
    }

    /// Writes what the cell of a number holds.
    pub(crate) fn fill(&mut self, number: usize, content: Dynamic) -> Result<(), Unread> {
        let Some(holder) = self.holders.get_mut(number) else {
            return Err(Unread::Form);
        };
        match holder.held_mut(&mut self.store) {
            Some(held) => {
                *held = content;
                Ok(())
            }
            None => Err(Unread::Form),
        }
    }
}

/// A value whose children are being read.
#[derive(Drop)]
struct Open {
    kind: Kind,
    label: Label,
    /// How many values were there before.
    first: usize,
    /// How many children it has.
    count: usize,
}

/// What the first bytes say.
#[derive(Drop)]
enum Head {
    Whole(Dynamic),
    Open(Kind, Label, usize),
}

/// Reads a value from its hash bytes. It contains no holders.
/// Errors: the bytes are not those of one value; an allocation fails.
/// Cost: the number of bytes; memory for the value, and for each value inside another.
pub fn read_value(alloc: Global, bytes: &[u8]) -> Result<Dynamic, Unread> {
    if let Some(number) = int_in(bytes) {
        return Ok(Dynamic::from_int(number));
    }
    let mut bytes = Bytes { rest: bytes };
    let mut cells = Cells::new(alloc, false);
    let value = read_next(alloc, &mut bytes, &mut cells)?;
    if bytes.rest.is_empty() {
        Ok(value)
    } else {
        Err(Unread::Form)
    }
}

/// Reads an array from its hash bytes, as `read_value` does.
/// Errors: the bytes are not those of one array; an allocation fails.
pub fn read_array(alloc: Global, bytes: &[u8]) -> Result<Array, Unread> {
    if let Some(numbers) = read_int_array(alloc, bytes)? {
        return Ok(numbers);
    }
    let mut value = read_value(alloc, bytes)?;
    match Array::own_mut(&mut value) {
        Some(items) => Ok(mem::replace(items, Vec::new(alloc))),
        None => Err(Unread::Form),
    }
}

/// Returns the int with these hash bytes, if they are an int's: the most frequent value.
fn int_in(bytes: &[u8]) -> Option<INT> {
    let (kind, number) = bytes.split_first()?;
    if *kind != INT_KIND {
        return None;
    }
    match <[u8; 8]>::try_from(number) {
        Ok(number) => Some(INT::from_le_bytes(number)),
        Err(_) => None,
    }
}

/// Reads an array of ints, if the bytes are one: the most frequent arguments of functions.
fn read_int_array(alloc: Global, bytes: &[u8]) -> Result<Option<Array>, Unread> {
    let mut bytes = Bytes { rest: bytes };
    let (Ok(ARRAY_KIND), Ok(count)) = (bytes.byte(), bytes.count()) else {
        return Ok(None);
    };
    let mut numbers = Vec::new(alloc);
    if bytes.rest.len() / INT_SIZE != count {
        return Ok(None);
    }
    numbers.reserve(count)?;
    take_ints(&mut bytes, count, &mut numbers)?;
    if numbers.len() == count && bytes.rest.is_empty() {
        Ok(Some(numbers))
    } else {
        Ok(None)
    }
}

/// Reads ints at the front, at most this many.
fn take_ints(bytes: &mut Bytes, most: usize, numbers: &mut Vec<Dynamic>) -> Result<(), Unread> {
    for _ in 0..most {
        let Some((front, rest)) = bytes.rest.split_at_checked(INT_SIZE) else {
            break;
        };
        let Some(number) = int_in(front) else {
            break;
        };
        numbers.push(Dynamic::from_int(number))?;
        bytes.rest = rest;
    }
    Ok(())
}

/// Reads the value at the front.
pub(crate) fn read_next(
    alloc: Global,
    bytes: &mut Bytes,
    cells: &mut Cells,
) -> Result<Dynamic, Unread> {
    match read_head(alloc, bytes, cells)? {
        Head::Whole(value) => Ok(value),
        Head::Open(kind, label, count) => {
            let first = 0;
            let outer = Open {
                kind,
                label,
                first,
                count,
            };
            read_inside(alloc, bytes, cells, outer)
        }
    }
}

/// Reads a value that contains others. What is left of each level is in a list, so that no nesting
/// takes stack.
fn read_inside(
    alloc: Global,
    bytes: &mut Bytes,
    cells: &mut Cells,
    outer: Open,
) -> Result<Dynamic, Unread> {
    let mut values = Vec::new(alloc);
    // (each child takes a byte)
    values.reserve(outer.count.min(bytes.rest.len()))?;
    let mut open = Vec::new(alloc);
    open.push(outer)?;
    let steps = bytes.rest.len().saturating_mul(2).saturating_add(1);
    for _ in 0..steps {
        if is_whole(&open, &values) {
            if let Some(whole) = open.pop() {
                let value = made(alloc, whole, &mut values)?;
                if open.is_empty() {
                    return Ok(value);
                }
                values.push(value)?;
            }
            continue;
        }
        if read_ints(bytes, &open, &mut values)? {
            continue;
        }
        read_key(alloc, bytes, &mut open)?;
        match read_head(alloc, bytes, cells)? {
            Head::Whole(value) => values.push(value)?,
            Head::Open(kind, label, count) => {
                let first = values.len();
                open.push(Open {
                    kind,
                    label,
                    first,
                    count,
                })?;
            }
        }
    }
    Err(Unread::Form)
}

/// Reads the ints at the front, as far as they are the next items of an array: the most frequent
/// items. Returns whether there were any.
fn read_ints(
    bytes: &mut Bytes,
    open: &Vec<Open>,
    values: &mut Vec<Dynamic>,
) -> Result<bool, Unread> {
    let Some(
        Open {
            kind: Kind::Array,
            first,
            count,
            ..
        },
    ) = open.last()
    else {
        return Ok(false);
    };
    let before = values.len();
    let left = count.saturating_sub(before.saturating_sub(*first));
    take_ints(bytes, left, values)?;
    Ok(values.len() > before)
}

/// Whether all children of the innermost value were read.
fn is_whole(open: &Vec<Open>, values: &Vec<Dynamic>) -> bool {
    match open.last() {
        Some(open) => values.len().saturating_sub(open.first) >= open.count,
        None => false,
    }
}

/// Reads the key of the next value, if that is in a map.
fn read_key(alloc: Global, bytes: &mut Bytes, open: &mut Vec<Open>) -> Result<(), Unread> {
    if let Some(
        Open {
            kind: Kind::Map(keys),
            ..
        },
    ) = open.last_mut()
    {
        keys.push(String::from_str(alloc, bytes.text()?)?)?;
    }
    Ok(())
}

/// Makes a value from the last ones.
fn made(alloc: Global, whole: Open, values: &mut Vec<Dynamic>) -> Result<Dynamic, Unread> {
    let Open {
        kind,
        label,
        first,
        ..
    } = whole;
    let inside = last_of(alloc, values, first)?;
    let value = match kind {
        Kind::Array => Dynamic::from_array(inside),
        Kind::FnPtr(name) => Dynamic::from(FnPtr::new(name, inside)),
        Kind::Map(keys) => {
            let mut map = Map::new(alloc);
            for (key, value) in keys.into_iter().zip(inside) {
                if map.insert(key, value).is_err() {
                    return Err(Unread::Memory);
                }
            }
            Dynamic::from_map(map)
        }
    };
    Ok(value.labelled(label.tag, label.mode))
}

/// Removes the values from a position on.
fn last_of(alloc: Global, values: &mut Vec<Dynamic>, first: usize) -> Result<Array, Unread> {
    if first == 0 {
        return Ok(mem::replace(values, Vec::new(alloc)));
    }
    let mut last = Array::new(alloc);
    let count = values.len();
    if first < count {
        last.reserve(count - first)?;
        for value in values.drain(first..) {
            last.push(value)?;
        }
    }
    Ok(last)
}

/// Reads the label before a value, if there is one.
fn read_label(bytes: &mut Bytes, cells: &Cells) -> Result<Label, Unread> {
    match bytes.rest.first() {
        Some(kind) if *kind == LABEL && cells.are_read => {}
        Some(_) | None => return Ok(NO_LABEL),
    }
    let _kind = bytes.byte()?;
    let mode = match bytes.byte()? {
        0 => AccessMode::ReadWrite,
        1 => AccessMode::ReadOnly,
        _ => return Err(Unread::Form),
    };
    let tag = Tag::from_le_bytes(bytes.array()?);
    Ok(Label { tag, mode })
}

#[inline(always)]
fn read_head(alloc: Global, bytes: &mut Bytes, cells: &mut Cells) -> Result<Head, Unread> {
    let label = read_label(bytes, cells)?;
    let value = match bytes.byte()? {
        ARRAY_KIND => return Ok(Head::Open(Kind::Array, label, bytes.count()?)),
        7 => return Ok(Head::Open(Kind::Map(Vec::new(alloc)), label, bytes.count()?)),
        8 => {
            let name = ImmutableString::from_str(alloc, bytes.text()?)?;
            return Ok(Head::Open(Kind::FnPtr(name), label, bytes.count()?));
        }
        CELL => cells.holder(alloc, bytes.count()?)?,
        kind => read_leaf(alloc, bytes, kind)?,
    };
    match label {
        Label {
            tag: 0,
            mode: AccessMode::ReadWrite,
        } => Ok(Head::Whole(value)),
        Label { tag, mode } => Ok(Head::Whole(value.labelled(tag, mode))),
    }
}

/// Reads a value that holds no others, behind its kind.
fn read_leaf(alloc: Global, bytes: &mut Bytes, kind: u8) -> Result<Dynamic, Unread> {
    Ok(match kind {
        0 => Dynamic::UNIT,
        1 => Dynamic::from_bool(bytes.byte()? != 0),
        2 => Dynamic::from_text(alloc, bytes.text()?)?,
        3 => match char::from_u32(u32::from_le_bytes(bytes.array()?)) {
            Some(character) => Dynamic::from_char(character),
            None => return Err(Unread::Form),
        },
        INT_KIND => Dynamic::from_int(bytes.int()?),
        6 => {
            let mut blob = Vec::new(alloc);
            blob.extend_from_slice(bytes.sized()?)?;
            Dynamic::from_blob(blob)
        }
        9 => Dynamic::from(host(bytes)?),
        _ => return Err(Unread::Form),
    })
}

/// Reads a number or a range of the host.
fn host(bytes: &mut Bytes) -> Result<Host, Unread> {
    match bytes.byte()? {
        0 => Ok(Host::U8(bytes.byte()?)),
        1 => Ok(Host::U16(u16::from_le_bytes(bytes.array()?))),
        2 => Ok(Host::U32(u32::from_le_bytes(bytes.array()?))),
        3 => Ok(Host::U64(u64::from_le_bytes(bytes.array()?))),
        4 => Ok(Host::U128(u128::from_le_bytes(bytes.array()?))),
        5 => Ok(Host::I8(i8::from_le_bytes(bytes.array()?))),
        6 => Ok(Host::I16(i16::from_le_bytes(bytes.array()?))),
        7 => Ok(Host::I32(i32::from_le_bytes(bytes.array()?))),
        8 => Ok(Host::I128(i128::from_le_bytes(bytes.array()?))),
        9 => {
            let (start, end) = (bytes.int()?, bytes.int()?);
            Ok(Host::ExclusiveRange(ExclusiveRange { start, end }))
        }
        10 => {
            let (start, end) = (bytes.int()?, bytes.int()?);
            Ok(Host::InclusiveRange(InclusiveRange { start, end }))
        }
        _ => Err(Unread::Form),
    }
}
