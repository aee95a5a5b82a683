//! The names in calls, and the functions with these names.

use rhai_text::ImmutableString;
use script_tree::Callee;
use std::alloc::{AllocError, Global};
use std::collections::btree_map::Entry;
use std::collections::{BTreeMap, BTreeSet};

/// A name and a number of arguments.
#[derive(PartialEq, Eq, PartialOrd, Ord, Drop)]
struct Signature {
    name: String,
    arguments: usize,
}

/// The names in a script's calls, each name with its number of arguments once.
#[derive(Drop)]
pub struct Callees {
    callees: Vec<Callee>,
    numbers: BTreeMap<Signature, usize>,
    /// The methods of one type, by types, names and numbers of parameters.
    methods: BTreeSet<String>,
}

impl Callees {
    /// Makes an empty table.
    pub fn new(alloc: Global) -> Callees {
        Callees {
            callees: Vec::new(alloc),
            numbers: BTreeMap::new(alloc),
            methods: BTreeSet::new(alloc),
        }
    }

    /// Returns the index of this name and number of arguments; assigns the next index if they have
    /// none.
    /// Errors: an allocation fails.
    /// Cost: the logarithm of the number of names.
    pub fn number(&mut self, name: &str, arguments: usize) -> Result<usize, AllocError> {
        let alloc = *self.callees.allocator();
        let called = Callee {
            name: ImmutableString::from_str(alloc, name)?,
            arguments,
            function: None,
        };
        let signature = Signature {
            name: String::from_str(alloc, name)?,
            arguments,
        };
        match self.numbers.entry(signature)? {
            Entry::Occupied(entry) => Ok(*entry.get()),
            Entry::Vacant(entry) => {
                let number = self.callees.len();
                self.callees.push(called)?;
                let _number = entry.insert(number);
                Ok(number)
            }
        }
    }

    /// Records the function with this name and number of arguments; returns `false` if one has them
    /// already.
    /// Errors: an allocation fails.
    /// Cost: that of `number`.
    pub fn define(
        &mut self,
        name: &str,
        arguments: usize,
        function: usize,
    ) -> Result<bool, AllocError> {
        let number = self.number(name, arguments)?;
        match self.callees.get_mut(number) {
            Some(callee) => Ok(callee.function.replace(function).is_none()),
            None => Ok(false),
        }
    }

    /// Records a method of one type; returns `false` if that type has one with this name and number
    /// of parameters already.
    /// Errors: an allocation fails.
    /// Cost: the logarithm of the number of methods.
    pub fn define_method(
        &mut self,
        this_type: &str,
        name: &str,
        arguments: usize,
    ) -> Result<bool, AllocError> {
        let alloc = *self.callees.allocator();
        let key = format!(in alloc; "{arguments} {name} {this_type}")?;
        Ok(self.methods.insert(key)?)
    }

    /// Moves out the callees, by their numbers.
    pub fn into_vec(self) -> Vec<Callee> {
        let Callees {
            callees,
            numbers: _,
            methods: _,
        } = self;
        callees
    }
}
