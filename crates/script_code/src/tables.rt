//! The tables of a program.
ghost use Rattle.std.specs.Prelude.{◌≡◌, IfOk, map, vec_len};

use crate::compiler::Compiler;
use crate::error::CodeError;
use crate::meaning::{HostName, Meaning, meaning_of};
use crate::operations::Slot;
use crate::program::{Callee, NO_STEPS, Path, PathStep, Program, Shape};
use rhai_text::Position;
use script_natives::{Native, native_of};
use script_tree::INT;
use std::alloc::Global;
use std::collections::BTreeMap;

/// Makes an empty program.
pub(crate) fn empty_program(alloc: Global) -> Program {
    Program {
        functions: Vec::new(alloc),
        names: BTreeMap::new(alloc),
        texts: Vec::new(alloc),
        numbers: Vec::new(alloc),
        paths: Vec::new(alloc),
        shapes: Vec::new(alloc),
        keys: Vec::new(alloc),
        callees: Vec::new(alloc),
        methods: Vec::new(alloc),
        host: Vec::new(alloc),
        kept: Vec::new(alloc),
        outer: 0,
    }
}

/// Returns the number of the next entry of a table.
pub(crate) fn number_in<T>(table: &Vec<T>) -> Result<u32, CodeError> {
    to_number(table.len())
}

/// Converts a number to a table number.
pub(crate) fn to_number(number: usize) -> Result<u32, CodeError> {
    match u32::try_from(number) {
        Ok(number) => Ok(number),
        Err(_) => Err(CodeError::TooLarge(Position::NONE)),
    }
}

impl<'p> Compiler<'p> {
    /// Returns the number of a text.
    pub(crate) fn text(&mut self, text: &str) -> Result<u32, CodeError> {
        if let Some(number) = self.text_numbers.get(text) {
            return Ok(*number);
        }
        let number = number_in(&self.program.texts)?;
        self.program
            .texts
            .push(String::from_str(self.alloc, text)?)?;
        let _none = self
            .text_numbers
            .insert(String::from_str(self.alloc, text)?, number)?;
        Ok(number)
    }

    /// Returns the number of a large int.
    pub(crate) fn number(&mut self, value: INT) -> Result<u32, CodeError> {
        let number = number_in(&self.program.numbers)?;
        self.program.numbers.push(value)?;
        Ok(number)
    }

    /// Returns the number of a path.
    pub(crate) fn path(&mut self, steps: Vec<PathStep>) -> Result<u32, CodeError> {
        if self.program.paths.is_empty() {
            self.program.paths.push(Path {
                steps: Vec::new(self.alloc),
            })?;
        }
        if steps.is_empty() {
            return Ok(NO_STEPS);
        }
        let number = number_in(&self.program.paths)?;
        self.program.paths.push(Path { steps })?;
        Ok(number)
    }

    /// Returns the number of an anonymous function that shares these variables.
    pub(crate) fn shape(&mut self, function: usize, captured: Vec<Slot>) -> Result<u32, CodeError> {
        let script = self.script;
        let name = match script.functions.get(function) {
            Some(function) => self.text(function.name.as_str())?,
            None => self.text("")?,
        };
        let number = number_in(&self.program.shapes)?;
        self.program.shapes.push(Shape { name, captured })?;
        Ok(number)
    }

    /// Returns what a callee means, apart from functions of the script.
    pub(crate) fn meaning(&self, callee: usize) -> Meaning {
        match self.script.callees.get(callee) {
            Some(callee) => meaning_of(callee.name.as_str(), callee.arguments, self.host),
            None => Meaning::Native(native_of("", usize::MAX)),
        }
    }
}

/// Collects the functions of the script by their names.
pub(crate) fn names_of(
    alloc: Global,
    script: &script_tree::Program,
) -> Result<BTreeMap<String, Vec<u32>>, CodeError> {
    let mut names = BTreeMap::new(alloc);
    for (number, function) in script.functions.iter().enumerate() {
        add_name(
            alloc,
            &mut names,
            function.name.as_str(),
            to_number(number)?,
        )?;
    }
    Ok(names)
}

/// Adds a function under a name.
fn add_name(
    alloc: Global,
    names: &mut BTreeMap<String, Vec<u32>>,
    name: &str,
    function: u32,
) -> Result<(), CodeError> {
    if let Some(numbers) = names.get_mut(name) {
        numbers.push(function)?;
        return Ok(());
    }
    let mut numbers = Vec::new(alloc);
    numbers.push(function)?;
    let _none = names.insert(String::from_str(alloc, name)?, numbers)?;
    Ok(())
}

/// Lists what the script calls by name, by the parser's numbers.
pub(crate) fn callees_of(
    alloc: Global,
    script: &script_tree::Program,
) -> Result<Vec<Callee>, CodeError>
    ensures { IfOk result (λ callees. vec_len callees ≡ vec_len script.now.callees) }
{
    let mut callees = Vec::new(alloc);
    for callee in script.callees.iter() {
        let name = String::from_str(alloc, callee.name.as_str())?;
        callees.push(Callee {
            name,
            arguments: callee.arguments,
            native: native_for(callee.name.as_str(), callee.arguments),
        })?;
    }
    Ok(callees)
}

/// Lists how many arguments each host function takes.
pub(crate) fn arguments_of(alloc: Global, host: &[HostName]) -> Result<Vec<usize>, CodeError>
    ensures { IfOk result
        (λ arguments. arguments.items ≡ map (λ known. known.arguments) host.now) }
{
    Ok(host.iter().map(|known| known.arguments).collect(alloc)?)
}

/// Finds the functions of the packages with a name and this many arguments, including the receiver.
fn native_for(name: &str, arguments: usize) -> Native {
    native_of(name, arguments.wrapping_sub(1))
}
