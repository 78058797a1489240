//! Why there is no cache, and why an answer was not stored.
ghost use Rattle.std.specs.Prelude.{◌≡◌};
ghost use Rattle.answer_cache.specs.declared.refusal.StoreRefusal.TheVariants as refusals;

use crate::node::ShelfRefusal;
use std::alloc::{AllocError, AllocFailed};
use thiserror::Error;

/// Why no shared cache was made.
#[derive(Clone, Copy, Debug, PartialEq, Eq, Error)]
pub enum CacheRefusal {
    /// The number of seats is not from 1 to 64, or that of groups is no power of two from 64 to
    /// 65,536.
    #[error("a cache has from 1 to 64 seats, and a power of two from 64 to 65,536 of groups")]
    BadCount,
    /// Memory was refused.
    #[error("out of memory")]
    Memory,
}

/// Why an answer was not stored. A life of 0 is checked first; memory may be needed before the
/// other two checks.
#[derive(Clone, Copy, Debug, PartialEq, Eq, Error)]
pub enum StoreRefusal {
    /// The life of the answer is 0.
    #[error("the answer may not be kept")]
    Lifeless,
    /// There are 128 stores in the group of the question.
    #[error("the group of the question is full")]
    GenerationFull,
    /// Other stores came in between, 16 times.
    #[error("other stores came in between")]
    Contended,
    /// Memory was refused.
    #[error("out of memory")]
    Memory,
}

impl From<AllocError> for StoreRefusal {
    ghost from_gives = { λ _ refusal. refusal ≡ refusals.Memory };

    fn from(_: AllocError) -> StoreRefusal {
        StoreRefusal::Memory
    }
}

impl From<ShelfRefusal> for StoreRefusal {
    ghost from_gives = { λ _ refusal. refusal ≡ refusals.Memory };

    fn from(_: ShelfRefusal) -> StoreRefusal {
        StoreRefusal::Memory
    }
}

impl<T: Drop> From<AllocFailed<T>> for StoreRefusal {
    ghost from_gives = { λ _ refusal. refusal ≡ refusals.Memory };

    fn from(_: AllocFailed<T>) -> StoreRefusal {
        StoreRefusal::Memory
    }
}
