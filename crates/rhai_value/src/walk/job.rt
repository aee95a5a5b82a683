//! The work at one node.
ghost use Rattle.std.specs.Prelude.{◌≡◌, ℕ, ◌+◌, ◌<◌, ◌≤◌, IfOk, OnOk, MatchOption};

use std::alloc::AllocError;

/// A job over nested data, given by its work at one node. It may allocate, and may fail.
///
/// A frame is a node in progress: its remaining part, and the result of the part that is done.
pub(crate) trait Job {
    /// A node in progress.
    type Frame: Drop;

    /// The result of a node.
    type Done: Drop;

    // What contracts see of the job.
    ghost Seen: { Type 0 };

    ghost seen: { Self → Seen };

    // The result of the job and a frame.
    ghost run: { Seen → Self.Frame → Seen × Self.Done };

    // The same for a frame that waits for a child with this result.
    ghost after: { Seen → Self.Frame → Self.Done → Seen × Self.Done };

    // The invariants of a frame that can go on, of one that waits for a child, and of one that has
    // nothing left.
    ghost is_ready: { Self.Frame → Type 0 };

    ghost is_waiting: { Self.Frame → Type 0 };

    ghost is_ended: { Self.Frame → Type 0 };

    // A bound on the remaining part of a frame, and one on what the job itself still allows, such
    // as cells not yet visited.
    ghost size: { Self.Frame → ℕ };

    ghost left: { Seen → ℕ };

    /// Advances a frame: down to a child, for which the frame then waits, or to its end.
    /// Errors: the job's own, such as a failed allocation; the walk ends.
    fn step(&mut self, frame: &mut Self::Frame) -> Result<Option<Self::Frame>, AllocError>
        requires { is_ready frame.old }
        ensures { IfOk result (λ next. MatchOption next
            ((run (seen self.old) frame.old ≡ run (seen self.new) frame.new) × is_ended frame.new × (left (seen self.new) ≤ left (seen self.old)))
            (λ child. (run (seen self.old) frame.old ≡ after (run (seen self.new) child).0 frame.new (run (seen self.new) child).1) × (left (seen self.new) + size frame.new + size child < left (seen self.old) + size frame.old) × is_waiting frame.new × is_ready child)) };

    /// Adds the result of the child for which a frame waits.
    /// Errors: the job's own; the walk ends.
    fn add(&mut self, frame: &mut Self::Frame, done: Self::Done) -> Result<(), AllocError>
        requires { is_waiting frame.old }
        ensures { OnOk result ((run (seen self.new) frame.new ≡ after (seen self.old) frame.old done) × (left (seen self.new) + size frame.new ≤ left (seen self.old) + size frame.old) × is_ready frame.new) };

    /// Finishes a frame that has nothing left.
    /// Errors: the job's own; the walk ends.
    fn finish(&mut self, frame: Self::Frame) -> Result<Self::Done, AllocError>
        requires { is_ended frame }
        ensures { IfOk result (λ done. (run (seen self.old) frame ≡ (seen self.new, done)) × (left (seen self.new) ≤ left (seen self.old))) };
}

/// A job that never fails.
pub(crate) trait Search {
    /// A node in progress.
    type Frame: Drop;

    /// The result of a node.
    type Done: Drop;

    // What contracts see of the job.
    ghost Seen: { Type 0 };

    ghost seen: { Self → Seen };

    // The result of the job and a frame.
    ghost run: { Seen → Self.Frame → Seen × Self.Done };

    // The same for a frame that waits for a child with this result.
    ghost after: { Seen → Self.Frame → Self.Done → Seen × Self.Done };

    // The invariants of a frame that can go on, of one that waits for a child, and of one that has
    // nothing left.
    ghost is_ready: { Self.Frame → Type 0 };

    ghost is_waiting: { Self.Frame → Type 0 };

    ghost is_ended: { Self.Frame → Type 0 };

    // A bound on the remaining part of a frame, and one on what the job itself still allows, such
    // as cells not yet visited.
    ghost size: { Self.Frame → ℕ };

    ghost left: { Seen → ℕ };

    /// Advances a frame: down to a child, for which the frame then waits, or to its end.
    fn step(&mut self, frame: &mut Self::Frame) -> Option<Self::Frame>
        requires { is_ready frame.old }
        ensures { MatchOption result
            ((run (seen self.old) frame.old ≡ run (seen self.new) frame.new) × is_ended frame.new × (left (seen self.new) ≤ left (seen self.old)))
            (λ child. (run (seen self.old) frame.old ≡ after (run (seen self.new) child).0 frame.new (run (seen self.new) child).1) × (left (seen self.new) + size frame.new + size child < left (seen self.old) + size frame.old) × is_waiting frame.new × is_ready child) };

    /// Adds the result of the child for which a frame waits.
    fn add(&mut self, frame: &mut Self::Frame, done: Self::Done)
        requires { is_waiting frame.old }
        ensures { (run (seen self.new) frame.new ≡ after (seen self.old) frame.old done) × (left (seen self.new) + size frame.new ≤ left (seen self.old) + size frame.old) × is_ready frame.new };

    /// Finishes a frame that has nothing left.
    fn finish(&mut self, frame: Self::Frame) -> Self::Done
        requires { is_ended frame }
        ensures { (run (seen self.old) frame ≡ (seen self.new, result)) × (left (seen self.new) ≤ left (seen self.old)) };
}
