//! Setting the value of a key.
ghost use Rattle.std.specs.Prelude.{◌≡◌, Some, None, IfOk, IfErr, OnOk, OnErr};
ghost use Rattle.std.specs.BTreeMap.{insert_entry, is_at};
ghost use Rattle.std.specs.Map.{lookup};
ghost use Rattle.rhai_value.specs.Rows.{bytes_cmp};

use crate::map::Map;
use crate::value::dynamic::Dynamic;

impl Map {
    /// Sets the value of a key, and returns the old one. An existing key keeps its own text; only a
    /// new one is made from the passed text.
    /// Errors: the value itself, if the key is new and the allocation of the key or the entry
    /// fails; nothing changes.
    /// Cost: that of `get_mut` for an existing key, without memory; otherwise that of `insert`, and
    /// the length of the key. A key of up to 30 bytes allocates only for its entry, if its list has
    /// no room.
    pub fn set(&mut self, key: &str, value: Dynamic) -> Result<Option<Dynamic>, Dynamic>
        ensures old { IfOk result (λ old. old ≡ lookup (is_at (bytes_cmp key.now)) self.old) }
        ensures set { OnOk result (self.new ≡ insert_entry bytes_cmp self.old key.now value) }
        ensures err { IfErr result (λ back. (back ≡ value) × (self.new ≡ self.old)) }
        ensures absent { OnErr result (lookup (is_at (bytes_cmp key.now)) self.old ≡ None) }
    {
        if self.parts.is_none() {
            self.prepare();
        }
        let alloc = self.alloc;
        match &mut self.parts {
            Some(parts) => parts.set(alloc, key, value),
            None => Err(value),
        }
    }
}
