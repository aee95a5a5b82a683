//! Calls that no row makes, each with its name.
mod both;
mod collected;
mod expressions;
mod faults;
pub(crate) mod inputs;
mod journals;
mod machine;
mod normalized;
mod printed;
mod restored;

use crate::Tally;
use std::io;

/// Counts a call, and reports it if it is wrong.
fn tell(rt: &impl Print, name: &str, is_right: bool, tally: &mut Tally) -> io::Result<()> {
    tally.tried = tally.tried.saturating_add(1);
    if is_right {
        return Ok(());
    }
    tally.wrong = tally.wrong.saturating_add(1);
    println!(rt; "wrong: {name}")
}

/// Tries all calls.
pub(crate) fn try_calls(rt: &(impl Print + AllocGlobal), tally: &mut Tally) -> io::Result<()> {
    tell(
        rt,
        "each world gives its own answers",
        both::each_world_gives_its_own_answers(rt.alloc()),
        tally,
    )?;
    tell(
        rt,
        "a collected world runs",
        collected::a_collected_world_runs(rt.alloc()),
        tally,
    )?;
    tell(
        rt,
        "what is held is kept by collections that are due",
        collected::what_is_held_is_kept_by_collections_that_are_due(rt.alloc()),
        tally,
    )?;
    tell(
        rt,
        "a long chain is kept and given back",
        collected::a_long_chain_is_kept_and_given_back(rt.alloc()),
        tally,
    )?;
    tell(
        rt,
        "worlds made in two orders are alike in normal form",
        normalized::worlds_made_in_two_orders_are_alike(rt.alloc()),
        tally,
    )?;
    tell(
        rt,
        "worlds of a snapshot answer alike",
        restored::worlds_of_a_snapshot_answer_alike(rt.alloc()),
        tally,
    )?;
    tell(
        rt,
        "closures share a counter",
        expressions::closures_share_a_counter(rt.alloc()),
        tally,
    )?;
    tell(
        rt,
        "reads may fail",
        faults::reads_may_fail(rt.alloc()),
        tally,
    )?;
    tell(
        rt,
        "writes may fail",
        faults::writes_may_fail(rt.alloc()),
        tally,
    )?;
    tell(
        rt,
        "a writer that takes nothing is a fault",
        faults::a_writer_that_takes_nothing_is_a_fault(rt.alloc()),
        tally,
    )?;
    tell(
        rt,
        "a slow reader is read to its end",
        faults::a_slow_reader_is_read_to_its_end(rt.alloc()),
        tally,
    )?;
    tell(
        rt,
        "answers are flushed before the next read",
        faults::answers_are_flushed_before_the_next_read(rt.alloc()),
        tally,
    )?;
    tell(
        rt,
        "the last line may end with the input",
        inputs::the_last_line_may_end_with_the_input(rt.alloc()),
        tally,
    )?;
    tell(
        rt,
        "any number of digits is read",
        inputs::any_number_of_digits_is_read(rt.alloc()),
        tally,
    )?;
    tell(
        rt,
        "names that are no words have no line",
        journals::names_that_are_no_words_have_no_line(rt.alloc()),
        tally,
    )?;
    tell(
        rt,
        "some literals have no line",
        journals::some_literals_have_no_line(rt.alloc()),
        tally,
    )?;
    tell(
        rt,
        "empty lists have a line",
        journals::empty_lists_have_a_line(rt.alloc()),
        tally,
    )?;
    tell(
        rt,
        "an empty scope is not left",
        machine::an_empty_scope_is_not_left(rt.alloc()),
        tally,
    )?;
    tell(
        rt,
        "one command is applied",
        machine::one_command_is_applied(rt.alloc()),
        tally,
    )?;
    tell(
        rt,
        "answers are printed",
        printed::answers(rt.alloc()),
        tally,
    )?;
    tell(
        rt,
        "texts and bytes are printed",
        printed::texts_and_bytes(rt.alloc()),
        tally,
    )?;
    tell(
        rt,
        "refusals are printed",
        printed::refusals(rt.alloc()),
        tally,
    )?;
    tell(
        rt,
        "errors of calls are printed",
        printed::errors_of_calls(rt.alloc()),
        tally,
    )?;
    Ok(())
}
