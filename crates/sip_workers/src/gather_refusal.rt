//! Why results are not those of some jobs.
ghost use Rattle.std.specs.Prelude.{◌≡◌};
ghost use Rattle.sip_workers.specs.declared.gather_refusal.GatherRefusal.TheVariants as refusals;

use std::alloc::{AllocError, AllocFailed};
use thiserror::Error;

/// Why results are not those of some jobs, in the order of the checks.
#[derive(Clone, Copy, Debug, PartialEq, Eq, Error)]
pub enum GatherRefusal {
    /// A result is of none of the jobs.
    #[error("a result is of none of the jobs")]
    Stranger,
    /// A job has a second result.
    #[error("a job has a second result")]
    Double,
    /// A job has no result.
    #[error("a job has no result")]
    Missing,
    /// Memory was refused.
    #[error("out of memory")]
    Memory,
}

impl From<AllocError> for GatherRefusal {
    ghost from_gives = { λ _ refusal. refusal ≡ refusals.Memory };

    fn from(_: AllocError) -> GatherRefusal {
        GatherRefusal::Memory
    }
}

impl<T: Drop> From<AllocFailed<T>> for GatherRefusal {
    ghost from_gives = { λ _ refusal. refusal ≡ refusals.Memory };

    fn from(_: AllocFailed<T>) -> GatherRefusal {
        GatherRefusal::Memory
    }
}
