//! Expressions, one after another on a world, and the outcome of each: its value or its refusal,
//! and how many values the hand and how many entries the scope has then.
mod words;

use crate::rows::{commands_in, make, row_of};
use crate::sections::{Section, UNLIMITED, halves};
use crate::seen::{is_seen, seen, tell};
use rhai_lines::write_answer;
use rhai_run::eval::eval;
use rhai_run::{Answer, Command, Expr, Refusal, World, apply};
use std::alloc::{AllocError, Global};
use std::io::Eprint;
use words::expr_of;

/// Removes what an evaluation left beyond this many values and entries.
fn clean(world: &mut World, values: usize, entries: usize) -> Result<(), AllocError> {
    for _ in values..world.hand().len() {
        apply(world, &Command::Drop)?;
    }
    apply(world, &Command::Rewind(entries))?;
    Ok(())
}

/// Evaluates. If an allocation fails, what was there before must still be there, and the expression
/// is evaluated once more.
fn eval_at_last(
    rt: &impl Eprint,
    alloc: Global,
    world: &mut World,
    expr: &Expr,
) -> Result<Option<Option<Refusal>>, AllocError> {
    let before = seen(alloc, world)?;
    let (values, entries) = (world.hand().len(), world.scope().len());
    if let Ok(outcome) = eval(world, expr) {
        return Ok(Some(outcome));
    }
    tell(rt, "eval");
    clean(world, values, entries)?;
    if !is_seen(alloc, world, &before)? {
        return Ok(None);
    }
    match eval(world, expr) {
        Ok(outcome) => Ok(Some(outcome)),
        Err(_) => Err(AllocError),
    }
}

/// Returns the text of the last value of the hand.
fn last_text(world: &mut World) -> Result<Answer, AllocError> {
    match world.hand().len().checked_sub(1) {
        Some(last) => apply(world, &Command::Debug(last)),
        None => Err(AllocError),
    }
}

/// Returns the text of an expression's outcome, and how many values and entries there are then.
fn outcome_text(
    alloc: Global,
    world: &mut World,
    outcome: Option<Refusal>,
) -> Result<String, AllocError> {
    let answer = match outcome {
        None => last_text(world)?,
        Some(why) => Answer::Refused(why),
    };
    let mut out = Vec::new(alloc);
    if write_answer(&answer, &mut out).is_err() {
        return Err(AllocError);
    }
    let text = String::from_utf8_lossy(alloc, &out)?;
    let values = world.hand().len();
    let entries = world.scope().len();
    format!(in alloc; "{} in {values}, {entries}", text.trim_end())
}

/// Whether an expression has the expected outcome; writes its actual one.
fn comes_to(
    rt: &impl Eprint,
    alloc: Global,
    world: &mut World,
    row: (&str, &str),
    out: &mut Vec<u8>,
) -> Result<bool, AllocError> {
    let expr = expr_of(alloc, row.0)?;
    let Some(outcome) = eval_at_last(rt, alloc, world, &expr)? else {
        return Ok(false);
    };
    let found = outcome_text(alloc, world, outcome)?;
    out.extend_from_slice(found.as_bytes())?;
    out.extend_from_slice(b"\n")?;
    Ok(found.as_str() == row.1)
}

/// Whether each of the rows has the outcome that it says.
fn all_come(
    rt: &impl Eprint,
    alloc: Global,
    world: &mut World,
    section: &Section<'_>,
    out: &mut Vec<u8>,
) -> Result<bool, AllocError> {
    let (before, rows) = halves(section.rows);
    make(world, &commands_in(alloc, before)?)?;
    for row in rows.lines().filter_map(row_of) {
        if !comes_to(rt, alloc, world, row, out)? {
            return Ok(false);
        }
    }
    Ok(true)
}

/// Whether the section has the outcomes that it says.
pub(crate) fn is_answered(
    rt: &impl Eprint,
    alloc: Global,
    section: &Section<'_>,
    out: &mut Vec<u8>,
) -> Result<bool, AllocError> {
    let mut world = World::new(alloc, UNLIMITED);
    let is_right = all_come(rt, alloc, &mut world, section, out);
    world.close();
    is_right
}
