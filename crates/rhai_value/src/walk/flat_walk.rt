//! Runs a job over everything that a frame leads to, with a work list of frames.
ghost use Rattle.std.specs.Prelude.{◌≡◌, ◌+◌, ◌≤◌, IfOk};

use crate::walk::job::{Job, Search};
use std::alloc::{AllocError, Global};
use std::mem;

/// Runs a job over everything that a frame leads to.
/// Errors: the job fails, or the allocation of the work list fails.
/// Cost: a step for each node; memory for a frame per level.
pub(crate) fn walked<J: Job>(
    job: &mut J,
    first: J::Frame,
    alloc: Global,
) -> Result<J::Done, AllocError>
    requires { J.is_ready first }
    ensures { IfOk result (λ done. J.run (J.seen job.old) first ≡ (J.seen job.new, done)) }
{
    let mut frames: Vec<J::Frame> = Vec::new(alloc);
    let mut top = first;
    loop {
        match job.step(&mut top)? {
            Some(child) => frames.push(mem::replace(&mut top, child))?,
            None => {
                let done = job.finish(top)?;
                match frames.pop() {
                    None => return Ok(done),
                    Some(up) => {
                        top = up;
                        job.add(&mut top, done)?;
                    }
                }
            }
        }
    }
}

/// Runs a search over everything that a frame leads to. If the allocation of a frame fails, it
/// recurses for that child.
/// Cost: a step for each node; memory for a frame per level, if it can be allocated.
pub(crate) fn searched<J: Search>(job: &mut J, first: J::Frame, alloc: Global) -> J::Done
    requires { J.is_ready first }
    ensures done { J.run (J.seen job.old) first ≡ (J.seen job.new, result) }
    ensures left { J.left (J.seen job.new) ≤ J.left (J.seen job.old) + J.size first }
{
    let mut frames: Vec<J::Frame> = Vec::new(alloc);
    let mut top = first;
    loop {
        match job.step(&mut top) {
            Some(child) => {
                if frames.reserve(1).is_ok() {
                    frames.push_reserved(mem::replace(&mut top, child));
                } else {
                    let done = searched(job, child, alloc);
                    job.add(&mut top, done);
                }
            }
            None => {
                let done = job.finish(top);
                match frames.pop() {
                    None => return done,
                    Some(up) => {
                        top = up;
                        job.add(&mut top, done);
                    }
                }
            }
        }
    }
}
