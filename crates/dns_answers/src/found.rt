//! Answers that were found where they are kept.
ghost use Rattle.std.specs.Prelude.{◌≡◌, IfOk, OnErr};
ghost use Rattle.std.specs.Arc.{arc_value};
ghost use Rattle.dns_answers.specs.Found.{IsBorrowed, answer_in};

use crate::answer::Answer;
use std::alloc::AllocError;
use std::sync::Arc;

/// An answer that was found where it is kept.
#[derive(Drop)]
pub enum FoundAnswer<'a> {
    /// It is lent: no count of owners was touched.
    Borrowed(&'a Arc<Answer>),
    /// The caller is one of its owners.
    Owned(Arc<Answer>),
}

impl<'a> FoundAnswer<'a> {
    /// The answer, to read: no count of owners is touched.
    #[must_use]
    pub fn as_arc(&self) -> &Arc<Answer>
        ensures { arc_value result.now ≡ answer_in self.now }
    {
        match self {
            FoundAnswer::Borrowed(answer) => answer,
            FoundAnswer::Owned(answer) => answer,
        }
    }

    /// The same answer once more: a borrowed one is lent again, of another the caller becomes an
    /// owner once more.
    ///
    /// # Errors
    /// Where an owned answer has as many owners as can be counted.
    pub fn try_clone(&self) -> Result<FoundAnswer<'a>, AllocError>
        ensures same { IfOk result (λ again. answer_in again ≡ answer_in self.now) }
    {
        match self {
            FoundAnswer::Borrowed(answer) => Ok(FoundAnswer::Borrowed(answer)),
            FoundAnswer::Owned(answer) => Ok(FoundAnswer::Owned(Arc::try_clone(answer)?)),
        }
    }

    /// The answer, to keep: of a borrowed one the caller becomes an owner.
    ///
    /// # Errors
    /// Where a borrowed answer has as many owners as can be counted.
    pub fn into_arc(self) -> Result<Arc<Answer>, AllocError>
        ensures same { IfOk result (λ kept. arc_value kept ≡ answer_in self.entry) }
        ensures refused { OnErr result (IsBorrowed self.entry) }
    {
        match self {
            FoundAnswer::Borrowed(answer) => Arc::try_clone(answer),
            FoundAnswer::Owned(answer) => Ok(answer),
        }
    }
}
