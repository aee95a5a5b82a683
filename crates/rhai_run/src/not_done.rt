//! Why a command is not done.
ghost use Rattle.std.specs.Prelude.{◌≡◌};
ghost use Rattle.rhai_run.specs.declared.not_done.NotDone.TheVariants.{Refused, Memory as no_memory};
ghost use Rattle.rhai_run.specs.Does.{not_done_of};

use crate::answer::Refusal;
use rhai_text::EvalAltResult;
use std::alloc::{AllocError, AllocFailed};

/// Why a command is not done: it is refused, or an allocation fails.
#[derive(Drop)]
pub(crate) enum NotDone {
    Refused(Refusal),
    Memory,
}

impl From<Refusal> for NotDone {
    ghost from_gives = { λ why result. result ≡ Refused why };

    fn from(why: Refusal) -> NotDone {
        NotDone::Refused(why)
    }
}

impl From<EvalAltResult> for NotDone {
    ghost from_gives = { λ error result. result ≡ not_done_of error };

    fn from(error: EvalAltResult) -> NotDone {
        if error.is_memory() {
            NotDone::Memory
        } else {
            NotDone::Refused(Refusal::Fault(error))
        }
    }
}

impl From<AllocError> for NotDone {
    ghost from_gives = { λ error result. result ≡ no_memory };

    fn from(_error: AllocError) -> NotDone {
        NotDone::Memory
    }
}

impl<T: Drop> From<AllocFailed<T>> for NotDone {
    ghost from_gives = { λ error result. result ≡ no_memory };

    fn from(_error: AllocFailed<T>) -> NotDone {
        NotDone::Memory
    }
}
