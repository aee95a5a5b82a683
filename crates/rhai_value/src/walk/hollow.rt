//! A value whose children are taken out and scanned one after another.
ghost use Rattle.std.specs.Prelude.{◌≡◌, ◌+◌, ◌-◌, ◌<◌, ◌≤◌, ◌∷◌, ◌++◌, [], List, length, slice_set, slice_index_or, IfErr, OnOk, MatchOption, MatchResult};
ghost use Rattle.rhai_value.specs.Children.{listed_fields};
ghost use Rattle.rhai_value.specs.Hollow.{hollow_left, with_children, with_fields, AreTakenOut};
ghost use Rattle.rhai_value.specs.Rows.{fields_of};
ghost use Rattle.rhai_value.specs.Tree.{Tree, nodes, fresh, unit};

use crate::map::Map;
use crate::map::exchange::{exchange_values, units};
use crate::value::dynamic::Dynamic;
use crate::value::union::Union;
use std::mem;

/// Frame of a scan: the emptied container, its children, and how many of them were taken.
#[derive(Drop)]
pub(crate) struct Hollow {
    pub(crate) shell: Dynamic,
    pub(crate) children: Vec<Dynamic>,
    pub(crate) next: usize,
}

impl Hollow {
    /// Takes a value's children out. Returns the value if it can't have children, and if the
    /// allocation for the values of a map fails.
    #[tactic(auto, using(crate::proofs::Hollows::taken_left))]
    pub(crate) fn open(value: Dynamic) -> Result<Hollow, Dynamic>
        ensures { MatchResult result (λ h. (h.next ≡ 0) × AreTakenOut value h.shell h.children.items × (hollow_left h < nodes value)) (λ back. back ≡ value) }
    {
        let mut shell = value;
        match take_children(&mut shell) {
            Some(children) => Ok(Hollow {
                shell,
                children,
                next: 0,
            }),
            None => Err(shell),
        }
    }

    /// Takes the next child, if there is one, and leaves unit in its place.
    pub(crate) fn next(&mut self) -> Option<Dynamic>
        requires { self.old.next ≤ length self.old.children.items }
        ensures { MatchOption result
            ((self.new ≡ self.old) × (self.old.next ≡ length self.old.children.items))
            (λ t. (t ≡ slice_index_or self.old.children.items self.old.next (fresh unit))
            × (self.new.children.items ≡ slice_set self.old.children.items self.old.next (fresh unit))
            × (self.new.next ≡ self.old.next + 1) × (self.old.next < length self.old.children.items) × (self.new.shell ≡ self.old.shell)) }
    {
        if self.next == self.children.len() {
            return None;
        }
        let at = self.next;
        self.next = at + 1;
        Some(mem::replace(&mut self.children[at], Dynamic::UNIT))
    }

    /// Puts the child taken last back.
    pub(crate) fn put(&mut self, child: Dynamic)
        requires { (0 < self.old.next) × (self.old.next ≤ length self.old.children.items) }
        ensures children { self.new.children.items ≡ slice_set self.old.children.items (self.old.next - 1) child }
        ensures next { self.new.next ≡ self.old.next }
        ensures shell { self.new.shell ≡ self.old.shell }
    {
        self.children[self.next - 1] = child;
    }

    /// Rebuilds the value with its children.
    pub(crate) fn close(self) -> Dynamic
        ensures { result ≡ with_children self.shell self.children.items }
    {
        let Hollow {
            shell,
            children,
            next: _,
        } = self;
        let mut whole = shell;
        put_children(&mut whole, children);
        whole
    }
}

#[tactic(auto, using(crate::proofs::Childrens::listed_trees))]
fn take_children(value: &mut Dynamic) -> Option<Vec<Dynamic>>
    ensures { MatchOption result (value.new ≡ value.old) (λ ts. AreTakenOut value.old value.new ts.items) }
{
    match &mut value.union {
        Union::Unit(_, _, _) => None,
        Union::Bool(_, _, _) => None,
        Union::Str(_, _, _) => None,
        Union::Char(_, _, _) => None,
        Union::Int(_, _, _) => None,
        Union::Array(_, _, items) => Some(take_items(items)),
        Union::Blob(_, _, _) => None,
        Union::Map(_, _, map) => take_values(map),
        Union::FnPtr(_, _, f) => Some(take_items(&mut f.curry)),
        Union::Variant(_, _, _) => None,
        Union::Shared(_, _, _) => None,
    }
}

fn take_items(items: &mut Vec<Dynamic>) -> Vec<Dynamic>
    ensures { result.items ≡ items.old.items }
{
    let alloc = *items.allocator();
    mem::replace(items, Vec::new(alloc))
}

/// Takes the values of a map, and leaves unit in the place of each; `None` if an allocation fails.
#[tactic(auto, using(crate::proofs::Hollows::listed_length, crate::proofs::Hollows::fields_twice))]
fn take_values(map: &mut Map) -> Option<Vec<Dynamic>>
    ensures { MatchOption result (map.new ≡ map.old) (λ ts. (ts.items ≡ listed_fields (fields_of map.old))
        × ((us : List Tree) → length us ≡ length (listed_fields (fields_of map.old)) → with_fields (fields_of map.new) us ≡ with_fields (fields_of map.old) us)) }
{
    let mut values = units(map.len(), map.alloc)?;
    exchange_values(map, &mut values);
    Some(values)
}

fn put_children(value: &mut Dynamic, children: Vec<Dynamic>)
    ensures { value.new ≡ with_children value.old children.items }
{
    match &mut value.union {
        Union::Unit(_, _, _) => {}
        Union::Bool(_, _, _) => {}
        Union::Str(_, _, _) => {}
        Union::Char(_, _, _) => {}
        Union::Int(_, _, _) => {}
        Union::Array(_, _, items) => *items = children,
        Union::Blob(_, _, _) => {}
        Union::Map(_, _, map) => {
            let mut values = children;
            exchange_values(map, &mut values);
        }
        Union::FnPtr(_, _, f) => f.curry = children,
        Union::Variant(_, _, _) => {}
        Union::Shared(_, _, _) => {}
    }
}

/// Enters a child while `top` waits for it. Returns the child if it can't have children, and if an
/// allocation fails.
#[tactic(auto, using(crate::proofs::Hollows::children_kept))]
pub(crate) fn go_down(
    frames: &mut Vec<Hollow>,
    top: &mut Hollow,
    child: Dynamic,
) -> Result<(), Dynamic>
    ensures ok { OnOk result ((frames.new.items ≡ frames.old.items ++ top.old ∷ []) × (top.new.next ≡ 0) × AreTakenOut child top.new.shell top.new.children.items × (hollow_left top.new < nodes child)) }
    ensures err { IfErr result (λ back. (back ≡ child) × (frames.new.items ≡ frames.old.items) × (top.new ≡ top.old)) }
{
    let inner = Hollow::open(child)?;
    if frames.reserve(1).is_err() {
        return Err(inner.close());
    }
    frames.push_reserved(mem::replace(top, inner));
    Ok(())
}
