//! Does everything that can be done with values and expressions of very many levels, and with very
//! many shared values. The first argument says which: `values`, `expressions`, `shares` or `all`;
//! the second one is the number of levels.
#![tactic(auto)]

mod cells;
mod collected;
mod deep;
mod expressions;
mod shape;
mod shares;
mod sizes;
mod visits;

use crate::cells::{chain_fault, ring_fault};
use crate::deep::fault;
use crate::expressions::{Level, outcome};
use crate::shape::Shape;
use crate::shares::share_values;
use std::alloc::AllocError;
use std::process::ExitCode;
use std::rt::Env;
use std::{env, io};

/// A word for an outcome.
fn told(outcome: Result<Option<&'static str>, AllocError>) -> &'static str {
    match outcome {
        Ok(None) => "all is right",
        Ok(Some(wrong)) => wrong,
        Err(_) => "memory is refused",
    }
}

/// Prints the outcome of values of this many levels, and of chains of this many cells.
fn tell_values(rt: &(impl Print + AllocGlobal), depth: usize) -> io::Result<()> {
    for shape in Shape::ALL {
        let outcome = told(fault(rt.alloc(), shape, depth));
        println!(rt; "{depth} levels of {}: {outcome}", shape.name())?;
    }
    let chain = told(chain_fault(rt.alloc(), depth));
    println!(rt; "{depth} cells in a chain: {chain}")?;
    let ring = told(ring_fault(rt.alloc(), depth));
    println!(rt; "{depth} cells in a ring: {ring}")
}

/// Prints the results of expressions of this many levels.
fn tell_expressions(rt: &(impl Print + AllocGlobal), depth: usize) -> io::Result<()> {
    for level in Level::ALL {
        match outcome(rt.alloc(), level, depth) {
            Ok(text) => println!(rt; "{depth} levels, each {}: {text}", level.name())?,
            Err(_) => println!(rt; "{depth} levels, each {}: memory is refused", level.name())?,
        }
    }
    Ok(())
}

/// Prints the outcome of very many shared values; returns whether the allocations succeeded.
fn tell_shares(rt: &(impl Print + AllocGlobal)) -> io::Result<bool> {
    let shared = share_values(rt.alloc());
    let is_right = shared.is_ok();
    let outcome = match shared {
        Ok(()) => "all is right",
        Err(_) => "memory is refused",
    };
    println!(rt; "three million shares: {outcome}")?;
    Ok(is_right)
}

/// Does what the arguments say; returns whether the allocations for shared values succeeded, if
/// these were requested.
fn run(rt: &(impl Print + Env + AllocGlobal)) -> io::Result<bool> {
    let mut words = env::args(rt)?.skip(1);
    let what = match words.next() {
        Some(word) => word,
        None => String::from_str(rt.alloc(), "all")?,
    };
    let depth = match words.next() {
        Some(word) => word.parse().unwrap_or(1),
        None => 1,
    };
    let is_all = what.as_str() == "all";
    if is_all || what.as_str() == "values" {
        tell_values(rt, depth)?;
    }
    if is_all || what.as_str() == "expressions" {
        tell_expressions(rt, depth)?;
    }
    if is_all || what.as_str() == "shares" {
        return tell_shares(rt);
    }
    Ok(true)
}

fn main(rt: HostRuntime) -> ExitCode {
    match run(&rt) {
        Ok(true) => ExitCode::SUCCESS,
        Ok(false) | Err(_) => ExitCode::FAILURE,
    }
}
