//! Why a request is not taken.
ghost use Rattle.std.specs.Prelude.{◌≡◌};
ghost use Rattle.sip_resolver.specs.declared.refusal.SubmitRefusal.TheVariants as refusals;

use std::alloc::{AllocError, AllocFailed};
use thiserror::Error;

/// Why a request is not taken, in the order of the checks.
#[derive(Clone, Copy, Debug, PartialEq, Eq, Error)]
pub enum SubmitRefusal {
    /// As many requests as the limit allows are inside, or have an outcome that was not taken.
    #[error("too many requests are inside")]
    Full,
    /// A request of this number is inside, or has an outcome that was not taken.
    #[error("the number is taken")]
    NumberTaken,
    /// Memory was refused.
    #[error("out of memory")]
    Memory,
}

impl From<AllocError> for SubmitRefusal {
    ghost from_gives = { λ _ refusal. refusal ≡ refusals.Memory };

    fn from(_: AllocError) -> SubmitRefusal {
        SubmitRefusal::Memory
    }
}

impl<T: Drop> From<AllocFailed<T>> for SubmitRefusal {
    ghost from_gives = { λ _ refusal. refusal ≡ refusals.Memory };

    fn from(_: AllocFailed<T>) -> SubmitRefusal {
        SubmitRefusal::Memory
    }
}
