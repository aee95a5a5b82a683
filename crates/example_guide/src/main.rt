//! The program of the guide: each step once, over one store and one scope.
#![tactic(auto)]

mod steps;

use crate::steps::{assign_at, capture, declare, operate, read, set_at, set_char, show, tidy};
use anyhow::{Result, bail};
use rhai_scope::Scope;
use rhai_text::{Limits, Token};
use rhai_value::{Dynamic, Roots, Step, Store};
use std::alloc::{AllocError, Global};

const LIMITS: Limits = Limits {
    text: 1000,
    items: 1000,
};

/// The array `[1, 2, 3]`.
fn one_two_three(alloc: Global) -> Result<Dynamic, AllocError> {
    let mut items = Vec::with_capacity(alloc, 3)?;
    for number in 1..=3 {
        items.push(Dynamic::from_int(number))?;
    }
    Ok(Dynamic::from_array(items))
}

/// Prints a value on a line.
fn print_line(rt: &(impl Print + AllocGlobal), value: &Dynamic, store: &Store) -> Result<()> {
    let text = show(rt.alloc(), value, store)?;
    println!(rt; "{text}")?;
    Ok(())
}

/// Writes to the captured array: `a[-1] = 40` and `a[0] += 5`.
fn write_captured(alloc: Global, captured: &mut Dynamic, store: &mut Store) -> Result<()> {
    let Ok(()) = set_at(captured, store, &[Step::Index(-1)], Dynamic::from_int(40)) else {
        bail!("there is no last item");
    };
    let mut five = Dynamic::from_int(5);
    let steps = [Step::Index(0)];
    let plus = Token::PlusAssign;
    match assign_at(plus, alloc, captured, store, &LIMITS, &steps, &mut five) {
        Ok(Ok(true)) => Ok(()),
        Ok(Ok(false)) => bail!("`+=` isn't built in there"),
        Ok(Err(error)) => Err(error.into()),
        Err(_) => bail!("there is no first item"),
    }
}

/// Shows a variable that a closure shares, from both sides.
fn share(rt: &(impl Print + AllocGlobal), scope: &mut Scope, store: &mut Store) -> Result<()> {
    let alloc = rt.alloc();
    declare(scope, "a", one_two_three(alloc)?)?;
    let Some(mut captured) = capture(alloc, scope, store, "a")? else {
        bail!("nothing is called a");
    };
    write_captured(alloc, &mut captured, store)?;
    match read(alloc, scope, store, "a")? {
        Some(value) => print_line(rt, &value, store),
        None => Ok(()),
    }
}

/// Applies an operator, and reads a character of a text.
fn compute(rt: &(impl Print + AllocGlobal), store: &mut Store) -> Result<()> {
    let alloc = rt.alloc();
    let (x, y) = (Dynamic::from_int(6), Dynamic::from_int(40));
    if let Some(sum) = operate(Token::Plus, alloc, store, &LIMITS, &x, &y)? {
        print_line(rt, &sum, store)?;
    }
    let mut text = Dynamic::from_text(alloc, "cat")?;
    if set_char(alloc, &mut text, store, 0, 'h')? {
        print_line(rt, &text, store)?;
    }
    Ok(())
}

/// Drops ten thousand cells at once, and keeps one that a value on the stack refers to.
fn let_go(rt: &(impl Print + AllocGlobal), store: &mut Store) -> Result<()> {
    let alloc = rt.alloc();
    let mut roots = Roots::new(alloc);
    let mut kept = one_two_three(alloc)?;
    kept.share_in_place(store)?;
    if roots.push(kept).is_err() {
        bail!("no room for a value");
    }
    for number in 0..10_000 {
        let mut short = Dynamic::from_int(number);
        short.share_in_place(store)?;
        tidy(&mut roots, store)?;
    }
    match roots.get(0) {
        Some(value) => print_line(rt, value, store),
        None => Ok(()),
    }
}

fn main(rt: HostRuntime) -> Result<()> {
    let mut store = Store::new(rt.alloc());
    let mut scope = Scope::new(rt.alloc());
    share(&rt, &mut scope, &mut store)?;
    compute(&rt, &mut store)?;
    let_go(&rt, &mut store)
}
