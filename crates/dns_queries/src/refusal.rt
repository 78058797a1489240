//! Why a question is not taken.
use thiserror::Error;

/// Why a question is not taken, in the order of the checks.
#[derive(Clone, Copy, Debug, PartialEq, Eq, Error)]
pub enum AskRefusal {
    /// A question with this id waits for its reply.
    #[error("the id is open")]
    IdTaken,
    /// As many questions as the limit allows wait for their replies.
    #[error("too many questions are open")]
    Full,
    /// The numbers of the asker's tickets are used up.
    #[error("no number is left")]
    Spent,
    /// Memory was refused.
    #[error("out of memory")]
    Memory,
}
