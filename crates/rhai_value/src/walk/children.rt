//! The children of a value, one after another.

use crate::map::entries::Values;
use crate::value::dynamic::Dynamic;
use crate::value::union::Union;
use std::marker::Model;

/// The remaining children of a value: items, curried values, or values by ascending keys. Contracts
/// see the list of them.
#[derive(Drop)]
pub(crate) struct Children<'a> {
    left: ChildrenLeft<'a>,
}

#[derive(Drop)]
pub(crate) enum ChildrenLeft<'a> {
    Nothing,
    Items(&'a [Dynamic]),
    Values(Values<'a>),
}

impl<'a> Model for Children<'a> {
    ghost use Rattle.std.specs.Prelude.{List};
    ghost use Rattle.rhai_value.specs.Tree.{Tree};

    ghost Value = { List Tree };

    ghost use Rattle.std.specs.Coded.{codes, coded_list};
    ghost use Rattle.rhai_value.specs.contracts.value.access_mode.AccessMode as access_mode;
    ghost use Rattle.rhai_value.specs.contracts.value.host.Host as host_kind;
    ghost use Rattle.rhai_value.specs.Code.{tree_code};

    ghost coded = { coded_list (tree_code (Prim.hlevel (codes, access_mode.the_row.coded, host_kind.the_row.coded))) };

    ghost use Rattle.rhai_value.specs.ChildrenLeft.{children_left};

    ghost view = { λ c. children_left c.left };
}

impl<'a> Children<'a> {
    ghost use Rattle.std.specs.Prelude.{◌≡◌, ◌↔◌, [], ◌∷◌, IsTrue, MatchOption};
    ghost use Rattle.rhai_value.specs.Children.{children_of};

    /// The children of this value; none for a leaf or a holder.
    #[tactic(auto, using(crate::proofs::Childrens::listed_trees, crate::proofs::Childrens::listed_values))]
    pub(crate) fn of(value: &'a Dynamic) -> Children<'a>
        ensures { result ≡ children_of value.now }
    {
        let left = match &value.union {
            Union::Array(_, _, items) => ChildrenLeft::Items(items.as_slice()),
            Union::FnPtr(_, _, f) => ChildrenLeft::Items(f.curry()),
            Union::Map(_, _, map) => ChildrenLeft::Values(map.values()),
            Union::Unit(_, _, _)
            | Union::Bool(_, _, _)
            | Union::Str(_, _, _)
            | Union::Char(_, _, _)
            | Union::Int(_, _, _)
            | Union::Blob(_, _, _)
            | Union::Variant(_, _, _)
            | Union::Shared(_, _, _) => ChildrenLeft::Nothing,
        };
        Children { left }
    }

    /// The next one.
    pub(crate) fn next(&mut self) -> Option<&'a Dynamic>
        ensures { MatchOption result ((self.old ≡ []) × (self.new ≡ [])) (λ v. self.old ≡ v.now ∷ self.new) }
    {
        match &mut self.left {
            ChildrenLeft::Nothing => None,
            ChildrenLeft::Items(items) => match items.split_first() {
                None => None,
                Some((first, rest)) => {
                    *items = rest;
                    Some(first)
                }
            },
            ChildrenLeft::Values(values) => values.next(),
        }
    }
}
