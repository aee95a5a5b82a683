//! The same commands on two worlds.
ghost use Rattle.std.specs.Prelude.{◌≡◌, IfOk, IfErr, OnOk};
ghost use Rattle.rhai_value.specs.Relation.{Renaming};
ghost use Rattle.rhai_run.specs.Machine.{replies, state_after};
ghost use Rattle.rhai_run.specs.Both.{StopsBoth};
ghost use Rattle.rhai_run.specs.Correspondence.{Corresponds, EndAlike};

use crate::answer::Answer;
use crate::command::Command;
use crate::laws;
use crate::world::{Stopped, World, run};

/// In which of two runs an allocation failed.
#[derive(Drop)]
pub enum StoppedBoth {
    /// In the first; the second world was not run.
    First(Stopped),
    /// In the second; these are the answers of the first.
    Second(Vec<Answer>, Stopped),
}

/// Runs commands in order on one world, and then on another. If the worlds corresponded, the
/// answers are equal, and the worlds correspond at the end.
/// Errors: in which run an allocation failed, with the answers until then; both worlds can be run
/// again.
/// Cost: two runs.
#[tactic(auto, using(crate::proofs::Runs::ends_alike))]
pub fn run_both(
    first: &mut World,
    second: &mut World,
    commands: &[Command],
) -> Result<(Vec<Answer>, Vec<Answer>), StoppedBoth>
    ensures answers { IfOk result (λ p. (p.0.items ≡ replies first.old commands.now) × (p.1.items ≡ replies second.old commands.now)) }
    ensures states { OnOk result ((first.new ≡ state_after first.old commands.now) × (second.new ≡ state_after second.old commands.now)) }
    ensures alike { IfOk result (λ p. (r : Renaming) → Corresponds r first.old second.old → EndAlike r first.old second.old p.0.items p.1.items first.new second.new) }
    ensures stopped { IfErr result (λ s. StopsBoth s first.old second.old commands.now first.new second.new) }
{
    laws::runs_are_alike();
    let answers = match run(first, commands) {
        Ok(answers) => answers,
        Err(stopped) => return Err(StoppedBoth::First(stopped)),
    };
    match run(second, commands) {
        Ok(others) => Ok((answers, others)),
        Err(stopped) => Err(StoppedBoth::Second(answers, stopped)),
    }
}
