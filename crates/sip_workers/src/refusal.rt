//! Why there is no run.
ghost use Rattle.std.specs.Prelude.{◌≡◌};
ghost use Rattle.sip_workers.specs.declared.refusal.RunRefusal.TheVariants as refusals;
ghost use Rattle.sip_workers.specs.Runs.{of_gather};

use crate::gather_refusal::GatherRefusal;
use std::alloc::{AllocError, AllocFailed};
use thiserror::Error;

/// Why there was no run, in the order of the checks.
#[derive(Clone, Copy, Debug, PartialEq, Eq, Error)]
pub enum RunRefusal {
    /// There are no seats or not as many wires as seats, a batch is not of 1 to 8 jobs, the numbers
    /// of the jobs do not rise strictly, or there are over 10,000 jobs.
    #[error("a run needs a wire for each seat, batches of 1 to 8, and up to 10,000 jobs in order")]
    BadCount,
    /// A thread could not be made.
    #[error("a thread could not be made")]
    NoThread,
    /// Memory was refused.
    #[error("out of memory")]
    Memory,
    /// The results were not those of the jobs: the queue of the batches failed.
    #[error("the queue of the batches failed")]
    Gathering(GatherRefusal),
}

impl From<AllocError> for RunRefusal {
    ghost from_gives = { λ _ refusal. refusal ≡ refusals.Memory };

    fn from(_: AllocError) -> RunRefusal {
        RunRefusal::Memory
    }
}

impl<T: Drop> From<AllocFailed<T>> for RunRefusal {
    ghost from_gives = { λ _ refusal. refusal ≡ refusals.Memory };

    fn from(_: AllocFailed<T>) -> RunRefusal {
        RunRefusal::Memory
    }
}

/// Want of memory is the run's own.
impl From<GatherRefusal> for RunRefusal {
    ghost from_gives = { λ refusal run. run ≡ of_gather refusal };

    fn from(refusal: GatherRefusal) -> RunRefusal {
        match refusal {
            GatherRefusal::Memory => RunRefusal::Memory,
            GatherRefusal::Stranger | GatherRefusal::Double | GatherRefusal::Missing => {
                RunRefusal::Gathering(refusal)
            }
        }
    }
}
