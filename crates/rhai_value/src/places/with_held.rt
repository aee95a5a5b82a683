//! Work at a held value with access to the store. The content is moved out of its marked cell, and
//! lent to a closure beside the store, so the closure needs no `requires` and no trait with a law.
ghost use Rattle.std.specs.Prelude.{◌≡◌, [], true, None, Some, Err, IfSome, IfNone, is_some};
ghost use Rattle.rhai_value.specs.End.{end, held_in};
ghost use Rattle.rhai_value.specs.Places.{WorksAt, IsLent, put_back};
ghost use Rattle.rhai_value.specs.Store.{is_marked_at};
ghost use Rattle.rhai_value.specs.Tree.{cell_of};
ghost use Rattle.rhai_value.specs.declared.places.with_held.HeldError.TheVariants.{Barred};

use crate::cells::marks::WriteToken;
use crate::cells::store::Store;
use crate::value::dynamic::Dynamic;

/// Why the work at a held value didn't happen, or why its result could not be put back.
#[derive(Debug, PartialEq, Eq, Copy, Clone)]
pub enum HeldError {
    /// Nothing is held: a cell on the way is marked or not in the store, or the chain closes.
    Barred,
    /// The cell was no longer marked when the work was done.
    Lost,
}

impl Dynamic {
    /// Calls `f` on the held value and the store.
    ///
    /// Meanwhile the cell of the held value is marked, and its content is outside: code that looks
    /// at the cell finds it marked, as rhai finds a borrowed cell. A value that isn't a holder has
    /// no cell, and nothing is marked. When `f` returns, whatever its result, the changed value is
    /// put back. `f` may make cells, and read and write others; it must not collect them, since
    /// then the cell may have another number.
    /// Errors: `Barred`, with nothing changed and `f` not called; `Lost` if `f` left a store in
    /// which the cell isn't marked: the store stays as `f` left it, and the changed value is
    /// dropped.
    /// Cost: that of `held`, and of `f`; no memory.
    /// rhai: what `Dynamic::write_lock` guards.
    pub fn with_held<R: Drop, F: FnOnce(&mut Dynamic, &mut Store) -> R + Drop>(
        &mut self,
        store: &mut Store,
        f: F,
    ) -> Result<R, HeldError>
        requires { F.IsAlwaysCallable f }
        ensures barred { held_in (end store.old [] self.old) ≡ None → (result ≡ Err Barred) × (self.new ≡ self.old) × (store.new ≡ store.old) }
        ensures works { IfSome (held_in (end store.old [] self.old)) (λ v. WorksAt F.FnOnce f (end store.old [] self.old) v store.old self.old result self.new store.new) }
    {
        if !self.is_shared() {
            return Ok(f(self, store));
        }
        let Some((token, mut content)) = store.lend_held(self) else {
            return Err(HeldError::Barred);
        };
        let answer = f(&mut content, store);
        if store.put_back(token, content) {
            Ok(answer)
        } else {
            Err(HeldError::Lost)
        }
    }
}

impl Store {
    /// Marks the cell of a holder's held value, and takes the value out; changes nothing if none is
    /// held.
    #[tactic(auto, using(crate::proofs::Placed::none_held))]
    pub(crate) fn lend_held(&mut self, holder: &Dynamic) -> Option<(WriteToken, Dynamic)>
        requires { is_some (cell_of holder.now) ≡ true }
        ensures lent { IfSome result (λ p. IsLent p.0 p.1 self.old holder.now self.new) }
        ensures none { IfNone result ((held_in (end self.old [] holder.now) ≡ None) × (self.new ≡ self.old)) }
    {
        let token = self.mark_held(holder)?;
        let content = self.through_mut(&token).take();
        Some((token, content))
    }

    /// Puts a content into the token's cell, and clears its mark. Returns whether the mark was
    /// there; if not, changes nothing.
    #[tactic(auto, using(crate::proofs::RelatedCells::marked_put))]
    pub(crate) fn put_back(&mut self, token: WriteToken, content: Dynamic) -> bool
        ensures kept { result ≡ is_marked_at self.old token }
        ensures back { self.new ≡ put_back (Some token) content self.old }
    {
        if !self.is_marked(&token) {
            let WriteToken { cell: _ } = token;
            return false;
        }
        *self.through_mut(&token) = content;
        self.release(token);
        true
    }

    fn is_marked(&self, token: &WriteToken) -> bool
        ensures { result ≡ is_marked_at self.now token.now }
    {
        match self.cells.get(token.cell) {
            Some(cell) => cell.is_marked,
            None => false,
        }
    }
}
