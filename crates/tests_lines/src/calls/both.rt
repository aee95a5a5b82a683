//! Runs over two worlds.

use super::printed::is_printed;
use crate::rows::{commands_of, make};
use crate::sections::UNLIMITED;
use rhai_run::{Answer, World, run_both};
use std::alloc::{AllocError, Global};

/// Whether the answers are this text, then done, then that there is no value.
fn are_answers(alloc: Global, answers: &[Answer], text: &str) -> bool {
    match answers {
        [shown, dropped, gone] => {
            is_printed(alloc, shown, text)
                && is_printed(alloc, dropped, "ok")
                && is_printed(alloc, gone, "refused NoValue")
        }
        _ => false,
    }
}

/// Whether the first world answers 1, and the second 2, to the same question.
fn answer_for_themselves(
    alloc: Global,
    first: &mut World,
    second: &mut World,
) -> Result<bool, AllocError> {
    make(first, &commands_of(alloc, &["int 1"])?)?;
    make(second, &commands_of(alloc, &["int 2"])?)?;
    match run_both(
        first,
        second,
        &commands_of(alloc, &["show 0", "drop", "show 0"])?,
    ) {
        Ok((one, other)) => { Ok(are_answers(alloc, &one, "1") && are_answers(alloc, &other, "2")) }
        Err(_) => Err(AllocError),
    }
}

/// Each world returns its own answers.
pub(super) fn each_world_gives_its_own_answers(alloc: Global) -> bool {
    let mut first = World::new(alloc, UNLIMITED);
    let mut second = World::new(alloc, UNLIMITED);
    let is_right = answer_for_themselves(alloc, &mut first, &mut second);
    first.close();
    second.close();
    matches!(is_right, Ok(true))
}
