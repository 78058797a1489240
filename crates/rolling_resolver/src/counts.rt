//! What is counted of a resolver.

use sip_resolver::ReplyOutcome;

/// What a resolver did since it was opened. The counts stay at the greatest number of 64 bits.
#[derive(Clone, Copy)]
pub(crate) struct Counts {
    /// Queries that were handed out, each send of a question.
    pub(crate) queries: u64,
    /// Messages that ended the wait for a reply.
    pub(crate) replies: u64,
    /// Messages that were no reply to a question that was out.
    pub(crate) ignored: u64,
}

impl Counts {
    /// Nothing yet.
    pub(crate) fn none() -> Counts {
        Counts {
            queries: 0,
            replies: 0,
            ignored: 0,
        }
    }

    /// With one query more.
    pub(crate) fn sent_too(self) -> Counts {
        Counts {
            queries: self.queries.saturating_add(1),
            ..self
        }
    }

    /// With one message more that came in.
    pub(crate) fn heard_too(self, heard: ReplyOutcome) -> Counts {
        match heard {
            ReplyOutcome::Reply | ReplyOutcome::Cut => Counts {
                replies: self.replies.saturating_add(1),
                ..self
            },
            ReplyOutcome::Ignored(_) => Counts {
                ignored: self.ignored.saturating_add(1),
                ..self
            },
        }
    }
}

/// What is counted of a resolver. C may read it.
#[repr(C)]
#[derive(Drop)]
pub struct Stats {
    /// The requests that are inside, also those that ended and were not told.
    pub requests: u64,
    /// The questions that are out.
    pub questions: u64,
    /// The answers that are kept, also those that live no longer.
    pub answers: u64,
    /// The queries that were handed out since it was opened.
    pub queries: u64,
    /// The messages since then that ended the wait for a reply.
    pub replies: u64,
    /// The messages since then that were no reply to a question that was out.
    pub ignored: u64,
}
