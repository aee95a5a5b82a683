//! Where a chain of holders ends.
ghost use Rattle.std.specs.Prelude.{◌≡◌, [], Some, option_copied};
ghost use Rattle.rhai_value.specs.End.{end, held_in, site_of, end_type};
ghost use Rattle.rhai_value.specs.Seen.{end_seen};

use crate::cells::store::Store;
use crate::value::dynamic::Dynamic;
use crate::value::type_id::TypeId;

/// Where the value at the end of a chain is: the chain's first value itself, or a cell. Contracts
/// name this type; no public call returns one.
#[derive(Copy, Clone)]
pub enum Site {
    /// The first value itself.
    Here,
    /// The cell of this number.
    InCell(usize),
}

/// What a value and its own cell say about its first content, without a walk.
pub(crate) enum Near<'s> {
    /// The value itself, which isn't a holder.
    Here,
    /// The first content is in the cell of this number.
    InCell(usize, &'s Dynamic),
    /// There is no first content: the holder's cell is marked or not in the store.
    Barred,
}

/// Where a chain ends, the held value there, and its site.
pub(crate) enum ChainEnd<'s> {
    Held(Site, &'s Dynamic),
    Stuck(&'s Dynamic),
    Closed,
}

impl Dynamic {
    /// The site of the held value.
    pub(crate) fn held_site(&self, store: &Store) -> Option<Site>
        ensures { result ≡ site_of (end store.now [] self.now) }
    {
        match self.chain_end(store) {
            ChainEnd::Held(site, _) => Some(site),
            ChainEnd::Stuck(_) | ChainEnd::Closed => None,
        }
    }

    /// The site and the type of the held value.
    pub(crate) fn held_site_and_type(&self, store: &Store) -> (Option<Site>, TypeId)
        ensures site { result.0 ≡ site_of (end store.now [] self.now) }
        ensures kind { result.1 ≡ end_type (end store.now [] self.now) }
    {
        match self.chain_end(store) {
            ChainEnd::Held(site, value) => (Some(site), value.own_type()),
            ChainEnd::Stuck(_) | ChainEnd::Closed => (None, TypeId::Shared),
        }
    }

    /// Finds the end of the chain. Most chains have at most one holder, so their end is found
    /// without tracking visited cells.
    #[inline(always)]
    #[tactic(auto, using(crate::proofs::Chains::end_at_first, crate::proofs::Chains::end_first, crate::proofs::Chains::end_barred))]
    pub(crate) fn chain_end<'s>(&'s self, store: &'s Store) -> ChainEnd<'s>
        ensures { end_seen result ≡ end store.now [] self.now }
    {
        match self.near(store) {
            Near::Here => ChainEnd::Held(Site::Here, self),
            Near::InCell(index, content) => match content.cell() {
                None => ChainEnd::Held(Site::InCell(index), content),
                Some(_) => self.long_chain_end(store),
            },
            Near::Barred => ChainEnd::Stuck(self),
        }
    }

    /// Follows holders from cell to cell. Brent's cycle detection: it remembers one visited cell,
    /// and replaces it after 1, 2, 4, 8, .. steps, so a chain that returns to a cell soon meets the
    /// remembered one. A chain with more holders than there are cells is closed in any case.
    #[inline(never)]
    fn long_chain_end<'s>(&'s self, store: &'s Store) -> ChainEnd<'s>
        ensures { end_seen result ≡ end store.now [] self.now }
    {
        let mut at = self;
        let mut site = Site::Here;
        let mut left = store.cells.len();
        let mut kept = None;
        let mut steps = 0usize;
        let mut turn = 1usize;
        loop {
            let Some(cell) = at.cell() else {
                return ChainEnd::Held(site, at);
            };
            let Some(next) = store.read(cell) else {
                return ChainEnd::Stuck(at);
            };
            if left == 0 {
                return ChainEnd::Closed;
            }
            if kept == Some(cell.index) {
                return ChainEnd::Closed;
            }
            if steps == 0 {
                kept = Some(cell.index);
                steps = turn;
                turn = turn.saturating_mul(2);
            } else {
                steps -= 1;
            }
            left -= 1;
            site = Site::InCell(cell.index);
            at = next;
        }
    }

    /// Borrows the value at the end of the chain of holders; `None` if the chain is stuck or
    /// closed.
    /// Cost: the length of the chain, or the number of cells if the chain is closed; no memory.
    /// rhai: `Dynamic::read_lock`, which looks at one cell.
    #[inline(always)]
    #[tactic(auto, using(crate::proofs::Chains::held_at_first, crate::proofs::Chains::held_first, crate::proofs::Chains::held_barred))]
    pub fn held<'s>(&'s self, store: &'s Store) -> Option<&'s Dynamic>
        ensures { option_copied result ≡ held_in (end store.now [] self.now) }
    {
        match self.near(store) {
            Near::Here => Some(self),
            Near::InCell(_, content) => match content.cell() {
                None => Some(content),
                Some(_) => self.held_far(store),
            },
            Near::Barred => None,
        }
    }

    /// The held value, in a separate function, so that callers that find it nearby stay short.
    #[inline(never)]
    pub(crate) fn held_far<'s>(&'s self, store: &'s Store) -> Option<&'s Dynamic>
        ensures { option_copied result ≡ held_in (end store.now [] self.now) }
    {
        match self.long_chain_end(store) {
            ChainEnd::Held(_, value) => Some(value),
            ChainEnd::Stuck(_) | ChainEnd::Closed => None,
        }
    }
}
