//! Writing to all values of a map.
ghost use Rattle.std.specs.Prelude.{◌≡◌, map};
ghost use Rattle.rhai_value.specs.RowWalks.{chunk_scanned, chunk_view, row_scanned, scanned};
ghost use Rattle.rhai_value.specs.Lists.{rows, rows_of, IsWhole};
ghost use Rattle.rhai_value.specs.Rows.{fields_of};
ghost use Rattle.rhai_value.specs.Scan.{fields_scanned};

use crate::map::{Chunk, Entry, Map, MapParts};
use crate::value::dynamic::Dynamic;

/// The callback of `Map::write_values`: a closure, or a mutable iterator, would need far more
/// proof.
pub trait ValueWriter {
    ghost use Rattle.rhai_value.specs.Tree.{Tree};

    /// The writer and the value after a write.
    ghost writes: { Self → Tree → Self × Tree };

    /// Writes to a value.
    fn write(&mut self, value: &mut Dynamic)
        ensures { (self.new, value.new) ≡ writes self.old value.old };
}

impl Map {
    /// Calls the writer on each value, by ascending keys, and passes it along; keys are unchanged.
    /// Cost: the number of entries, and that of the writer; allocates nothing itself.
    /// rhai: `BTreeMap::values_mut` of its maps.
    pub fn write_values<W: ValueWriter>(&mut self, writer: &mut W)
        ensures { (writer.new, fields_of self.new) ≡ fields_scanned W.writes writer.old (fields_of self.old) }
    {
        let Some(mut parts) = self.parts.take() else {
            return;
        };
        write_parts(&mut parts, writer);
        self.parts = Some(parts);
    }
}

fn write_parts<W: ValueWriter>(parts: &mut MapParts, writer: &mut W)
    requires { IsWhole parts.old }
    ensures written { (writer.new, fields_of (rows_of parts.new)) ≡ fields_scanned W.writes writer.old (fields_of (rows_of parts.old)) }
    ensures whole { IsWhole parts.new }
{
    write_entries(&mut parts.first, writer);
    write_chunks(&mut parts.rest, writer);
}

fn write_entries<W: ValueWriter>(entries: &mut Vec<Entry>, writer: &mut W)
    ensures { (writer.new, rows entries.new.items) ≡ scanned (row_scanned W.writes) writer.old (rows entries.old.items) }
{
    for entry in entries.iter_mut() {
        writer.write(&mut entry.value);
    }
}

fn write_chunks<W: ValueWriter>(rest: &mut Vec<Chunk>, writer: &mut W)
    ensures { (writer.new, map chunk_view rest.new.items) ≡ scanned (chunk_scanned W.writes) writer.old (map chunk_view rest.old.items) }
{
    for chunk in rest.iter_mut() {
        write_entries(&mut chunk.entries, writer);
    }
}
