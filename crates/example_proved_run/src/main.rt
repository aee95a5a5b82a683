//! Runs scripts of `example_proved`, and prints the final values of their variables, or why they
//! failed.
#![tactic(auto)]

use anyhow::{Result, bail};
use example_proved::script::{Expr, Function, Script, Stmt};
use example_proved::stop::{Fault, Stop};
use example_proved::walker::Walker;
use rhai_scope::Scope;
use rhai_show::display_text;
use rhai_text::{ImmutableString, Limits, Token};
use rhai_value::{Dynamic, Store};
use std::alloc::{AllocError, Global};

fn name(alloc: Global, text: &str) -> Result<ImmutableString, AllocError> {
    ImmutableString::from_str(alloc, text)
}

fn names(alloc: Global, texts: &[&str]) -> Result<Vec<ImmutableString>, AllocError> {
    let mut all = Vec::new(alloc);
    for text in texts {
        all.push(name(alloc, text)?)?;
    }
    Ok(all)
}

fn read(alloc: Global, text: &str) -> Result<Expr, AllocError> {
    Ok(Expr::Name(name(alloc, text)?))
}

fn binary(alloc: Global, op: Token, a: Expr, b: Expr) -> Result<Expr, AllocError> {
    Ok(Expr::Binary(op, Box::new(alloc, a)?, Box::new(alloc, b)?))
}

/// `fn add(x, n) { x += n; x }`
fn add(alloc: Global) -> Result<Function, AllocError> {
    let mut body = Vec::new(alloc);
    body.push(Stmt::Update(Token::PlusAssign, name(alloc, "x")?, read(alloc, "n")?))?;
    Ok(Function {
        name: name(alloc, "add")?,
        params: names(alloc, &["x", "n"])?,
        body,
        result: read(alloc, "x")?,
    })
}

/// `fn again(f) { let y = f(f); true }`
fn again(alloc: Global) -> Result<Function, AllocError> {
    let mut args = Vec::new(alloc);
    args.push(read(alloc, "f")?)?;
    let mut body = Vec::new(alloc);
    body.push(Stmt::Call(name(alloc, "y")?, name(alloc, "f")?, args))?;
    Ok(Function {
        name: name(alloc, "again")?,
        params: names(alloc, &["f"])?,
        body,
        result: Expr::Bool(true),
    })
}

/// `while x < 10 { let y = f(2); }`
fn loop_of_calls(alloc: Global) -> Result<Stmt, AllocError> {
    let mut args = Vec::new(alloc);
    args.push(Expr::Int(2))?;
    let mut body = Vec::new(alloc);
    body.push(Stmt::Call(name(alloc, "y")?, name(alloc, "f")?, args))?;
    let test = binary(alloc, Token::LessThan, read(alloc, "x")?, Expr::Int(10))?;
    Ok(Stmt::While(test, body))
}

/// `x = 3; a = [1, "two"]; let f = add, which captures x; while .. a[-1] = x;
/// if x == 11 { x = true } else { }`
fn counts(alloc: Global) -> Result<Vec<Stmt>, AllocError> {
    let mut items = Vec::new(alloc);
    items.push(Expr::Int(1))?;
    items.push(Expr::Text(name(alloc, "two")?))?;
    let mut parts = Vec::new(alloc);
    parts.push(Stmt::Set(name(alloc, "x")?, Expr::Int(3)))?;
    parts.push(Stmt::Set(name(alloc, "a")?, Expr::Array(items)))?;
    parts.push(Stmt::Close(
        name(alloc, "f")?,
        name(alloc, "add")?,
        names(alloc, &["x"])?,
    ))?;
    parts.push(loop_of_calls(alloc)?)?;
    parts.push(Stmt::Put(name(alloc, "a")?, Expr::Int(-1), read(alloc, "x")?))?;
    let test = binary(alloc, Token::EqualsTo, read(alloc, "x")?, Expr::Int(11))?;
    let mut yes = Vec::new(alloc);
    yes.push(Stmt::Set(name(alloc, "x")?, Expr::Bool(true)))?;
    parts.push(Stmt::If(test, yes, Vec::new(alloc)))?;
    Ok(parts)
}

/// `let f = again; let y = f(f);`
fn recurs(alloc: Global) -> Result<Vec<Stmt>, AllocError> {
    let mut parts = Vec::new(alloc);
    parts.push(Stmt::Close(name(alloc, "f")?, name(alloc, "again")?, Vec::new(alloc)))?;
    let mut args = Vec::new(alloc);
    args.push(read(alloc, "f")?)?;
    parts.push(Stmt::Call(name(alloc, "y")?, name(alloc, "f")?, args))?;
    Ok(parts)
}

/// `while true { }`
fn forever(alloc: Global) -> Result<Vec<Stmt>, AllocError> {
    let mut parts = Vec::new(alloc);
    parts.push(Stmt::While(Expr::Bool(true), Vec::new(alloc)))?;
    Ok(parts)
}

fn script(alloc: Global, body: Vec<Stmt>) -> Result<Script, AllocError> {
    let mut functions = Vec::new(alloc);
    functions.push(add(alloc)?)?;
    functions.push(again(alloc)?)?;
    Ok(Script { functions, body })
}

fn why(stop: &Stop) -> &'static str {
    match stop {
        Stop::Memory => "memory",
        Stop::Refused(Fault::NoVariable) => "no variable",
        Stop::Refused(Fault::Spent) => "spent",
        Stop::Refused(Fault::Deep) => "too deep",
        Stop::Refused(_) => "another refusal",
    }
}

fn main(rt: HostRuntime) -> Result<()> {
    let alloc = rt.alloc();
    let mut walker = Walker {
        alloc,
        scope: Scope::new(alloc),
        store: Store::new(alloc),
        limits: Limits { text: 0, items: 0 },
        rounds: 100,
        levels: 20,
    };
    walker.scope.push_dynamic("x", Dynamic::UNIT)?;
    walker.scope.push_dynamic("a", Dynamic::UNIT)?;
    if let Err(stop) = walker.run_script(&script(alloc, counts(alloc)?)?) {
        bail!("{}", why(&stop));
    }
    for text in ["x", "a", "f"] {
        match walker.eval(&read(alloc, text)?) {
            Ok(value) => {
                let shown = display_text(alloc, &value, &walker.store)?;
                println!(rt; "{text} = {shown}")?;
            }
            Err(stop) => println!(rt; "{text}: {}", why(&stop))?,
        }
    }
    for body in [forever(alloc)?, recurs(alloc)?] {
        match walker.run_script(&script(alloc, body)?) {
            Ok(()) => println!(rt; "done")?,
            Err(stop) => println!(rt; "{}", why(&stop))?,
        }
    }
    println!(rt; "{} variables", walker.scope.len())?;
    Ok(())
}
