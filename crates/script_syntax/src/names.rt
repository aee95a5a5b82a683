//! The names of variables, and their slots in the frames of functions.

ghost use Rattle.std.specs.Prelude.{◌≡◌, ◌≤◌, IfOk, vec_len};

use rhai_text::{ImmutableString, Position};
use script_tree::{Missing, Slot};
use std::alloc::{AllocError, Global};
use std::collections::BTreeMap;
use std::mem;

/// A declared variable, and the earlier one with the same name, which it hides.
#[derive(Drop)]
struct Declared {
    name: String,
    hidden: Option<usize>,
}

/// The variables of one function, while it is being parsed.
#[derive(Drop)]
pub struct FunctionNames {
    /// The live variables, by slot.
    declared: Vec<Declared>,
    /// The newest variable of each name.
    newest: BTreeMap<String, usize>,
    /// The captured variables' slots in the enclosing function, by their numbers.
    captured: Vec<Slot>,
    captured_numbers: BTreeMap<String, usize>,
    /// Their names, by their numbers.
    captured_names: Vec<ImmutableString>,
    /// The most variables that were live at the same time.
    slots: usize,
    /// How many loops enclose the current position.
    loops: usize,
    /// The first unknown name in an anonymous function, and its position.
    missing: Option<Missing>,
    /// Whether it uses `this`.
    uses_this: bool,
    ghost room: { vec_len declared ≤ slots },
}

impl FunctionNames {
    fn new(alloc: Global) -> FunctionNames {
        FunctionNames {
            declared: Vec::new(alloc),
            newest: BTreeMap::new(alloc),
            captured: Vec::new(alloc),
            captured_numbers: BTreeMap::new(alloc),
            captured_names: Vec::new(alloc),
            slots: 0,
            loops: 0,
            missing: None,
            uses_this: false,
        }
    }

    fn declare(&mut self, name: &str) -> Result<usize, AllocError> {
        let alloc = *self.declared.allocator();
        let slot = self.declared.len();
        let hidden = self.newest.insert(String::from_str(alloc, name)?, slot)?;
        let declared = Declared {
            name: String::from_str(alloc, name)?,
            hidden,
        };
        self.slots = self.slots.max(slot.saturating_add(1));
        self.declared.push(declared)?;
        Ok(slot)
    }

    fn close(&mut self, first: usize) -> Result<(), AllocError> {
        for _ in first..self.declared.len() {
            if let Some(Declared { name, hidden }) = self.declared.pop() {
                match hidden {
                    Some(slot) => {
                        let _closed = self.newest.insert(name, slot)?;
                    }
                    None => {
                        let _closed = self.newest.remove(name.as_str());
                    }
                }
            }
        }
        Ok(())
    }

    fn slot(&self, name: &str) -> Option<Slot> {
        match self.newest.get(name) {
            Some(slot) => Some(Slot::Own(*slot)),
            None => match self.captured_numbers.get(name) {
                Some(number) => Some(Slot::Captured(*number)),
                None => None,
            },
        }
    }

    /// Returns the slot of a name; if the function lacks it, captures it from this slot of the
    /// enclosing function.
    fn slot_or_captured(
        &mut self,
        name: &str,
        outside: Option<Slot>,
    ) -> Result<Option<Slot>, AllocError> {
        let slot = self.slot(name);
        match (slot, outside) {
            (None, Some(outside)) => Ok(Some(self.capture(name, outside)?)),
            _ => Ok(slot),
        }
    }

    fn capture(&mut self, name: &str, outside: Slot) -> Result<Slot, AllocError> {
        let alloc = *self.declared.allocator();
        let number = self.captured.len();
        let _none = self
            .captured_numbers
            .insert(String::from_str(alloc, name)?, number)?;
        self.captured.push(outside)?;
        self.captured_names
            .push(ImmutableString::from_str(alloc, name)?)?;
        Ok(Slot::Captured(number))
    }

    /// Copies the names of this many parameters, then those of the captured variables.
    /// Errors: an allocation fails.
    /// Cost: their number.
    pub fn given(&self, parameters: usize) -> Result<Vec<ImmutableString>, AllocError> {
        let alloc = *self.declared.allocator();
        let mut given = Vec::new(alloc);
        for declared in self.declared.iter().take(parameters) {
            given.push(ImmutableString::from_str(alloc, declared.name.as_str())?)?;
        }
        for name in self.captured_names.iter() {
            given.push(name.copy(alloc)?)?;
        }
        Ok(given)
    }

    /// Moves out the first unknown name, if the anonymous function has one.
    pub fn take_missing(&mut self) -> Option<Missing> {
        self.missing.take()
    }

    /// Returns whether the function uses `this`.
    pub fn uses_this(&self) -> bool {
        self.uses_this
    }

    /// Records an unknown name, unless one is recorded already.
    fn note_missing(&mut self, missing: Missing) {
        if self.missing.is_none() {
            self.missing = Some(missing);
        }
    }

    /// Moves out how many variables were live at the same time at most, and the captured variables'
    /// slots in the enclosing function.
    pub fn into_parts(self) -> (usize, Vec<Slot>)
        ensures { vec_len self.declared ≤ result.0 }
    {
        let FunctionNames {
            declared: _,
            newest: _,
            captured,
            captured_numbers: _,
            captured_names: _,
            slots,
            loops: _,
            missing: _,
            uses_this: _,
        } = self;
        (slots, captured)
    }

    /// Moves out the names of the live variables, by slot, and how many were live at the same time
    /// at most.
    /// Errors: an allocation fails.
    pub fn into_names(self) -> Result<(Vec<String>, usize), AllocError>
        ensures { IfOk result (λ r. vec_len self.declared ≤ r.1) }
    {
        let alloc = *self.declared.allocator();
        let FunctionNames {
            declared,
            newest: _,
            captured: _,
            captured_numbers: _,
            captured_names: _,
            slots,
            loops: _,
            missing: _,
            uses_this: _,
        } = self;
        let mut names = Vec::new(alloc);
        for declared in declared {
            names.push(declared.name)?;
        }
        Ok((names, slots))
    }
}

/// The variables of the function being parsed, and of those around it.
#[derive(Drop)]
pub struct Names {
    function: FunctionNames,
    outer: Vec<FunctionNames>,
}

impl Names {
    /// Begins with one function without variables.
    pub fn new(alloc: Global) -> Names {
        Names {
            function: FunctionNames::new(alloc),
            outer: Vec::new(alloc),
        }
    }

    /// Begins an anonymous function inside the current one.
    /// Errors: an allocation fails.
    pub fn enter(&mut self) -> Result<(), AllocError> {
        let inner = FunctionNames::new(*self.outer.allocator());
        self.outer.push(mem::replace(&mut self.function, inner))?;
        Ok(())
    }

    /// Ends the current function, and returns to the enclosing one, or to a new one if there is
    /// none.
    pub fn leave(&mut self) -> FunctionNames
        ensures { result ≡ self.old.function }
    {
        match self.outer.pop() {
            Some(outer) => mem::replace(&mut self.function, outer),
            None => {
                let alloc = *self.outer.allocator();
                mem::replace(&mut self.function, FunctionNames::new(alloc))
            }
        }
    }

    /// Declares a variable, which hides those of the same name, and returns its slot.
    /// Errors: an allocation fails.
    /// Cost: the logarithm of the number of names.
    pub fn declare(&mut self, name: &str) -> Result<usize, AllocError> {
        self.function.declare(name)
    }

    /// Returns how many variables of the function are live: the slot of the next one.
    pub fn count(&self) -> usize
        ensures { result ≡ vec_len self.now.function.declared }
    {
        self.function.declared.len()
    }

    /// Returns whether one of the variables from this slot on has the name.
    /// Cost: the number of these variables.
    pub fn has_since(&self, first: usize, name: &str) -> bool {
        match self.function.newest.get(name) {
            Some(slot) => *slot >= first,
            None => false,
        }
    }

    /// Ends the variables from this slot on.
    /// Errors: an allocation fails.
    /// Cost: their number, times the logarithm of the number of names.
    pub fn close(&mut self, first: usize) -> Result<(), AllocError> {
        self.function.close(first)
    }

    /// Finds the slot of the variable with a name, if there is one; a variable of an enclosing
    /// function is captured.
    /// Errors: an allocation fails.
    /// Cost: the logarithm of the number of names, for each function around the name.
    pub fn resolve(&mut self, name: &str) -> Result<Option<Slot>, AllocError> {
        let mut slot = self.function.slot(name);
        if slot.is_some() {
            return Ok(slot);
        }
        let nearest = self
            .outer
            .iter()
            .rposition(|names| names.slot(name).is_some());
        let Some(nearest) = nearest else {
            return Ok(None);
        };
        for names in self.outer.iter_mut().skip(nearest) {
            slot = names.slot_or_captured(name, slot)?;
        }
        self.function.slot_or_captured(name, slot)
    }

    /// Returns whether an anonymous function is being parsed, which sees the variables around it.
    pub fn is_inside(&self) -> bool {
        !self.outer.is_empty()
    }

    /// Records an unknown name in anonymous functions: making the outermost of them is a fault.
    pub fn note_missing(&mut self, missing: Missing) {
        match self.outer.get_mut(1) {
            Some(outermost) => outermost.note_missing(missing),
            None => self.function.note_missing(missing),
        }
    }

    /// Records that the current function uses `this`.
    pub fn note_this(&mut self) {
        self.function.uses_this = true;
    }

    /// Begins a loop.
    pub fn enter_loop(&mut self) {
        self.function.loops = self.function.loops.saturating_add(1);
    }

    /// Ends a loop.
    pub fn leave_loop(&mut self) {
        self.function.loops = self.function.loops.saturating_sub(1);
    }

    /// Returns whether a loop of the function encloses the current position.
    pub fn is_in_loop(&self) -> bool {
        self.function.loops > 0
    }
}
