//! Whether an answer was stored.
ghost use Rattle.std.specs.Prelude.{◌≡◌, MatchResult};

use answer_cache::StoreRefusal;

/// Whether the book stored an answer. The answer counts for its locator either way.
#[derive(Clone, Copy, Debug, PartialEq, Eq)]
pub enum Kept {
    /// The answer is stored.
    Yes,
    /// The answer is not stored, for this reason.
    No(StoreRefusal),
}

impl Kept {
    /// What became of a store.
    pub(crate) fn of(stored: Result<(), StoreRefusal>) -> Kept
        ensures { MatchResult stored (λ _. result ≡ Kept.Yes)
            (λ refusal. result ≡ Kept.No refusal) }
    {
        match stored {
            Ok(()) => Kept::Yes,
            Err(refusal) => Kept::No(refusal),
        }
    }
}
