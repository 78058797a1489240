//! What threads count.

/// What a thread counted, or all of them together.
#[derive(Clone, Copy)]
pub(crate) struct Counted {
    /// The requests.
    pub requests: u64,
    /// The requests that have targets.
    pub targets: u64,
    /// The requests that were refused or given up, and what there was no memory for.
    pub others: u64,
    /// The queries, without those that were sent again.
    pub sent: u64,
    /// The queries that were sent again, since no reply had come in time.
    pub again: u64,
    /// The most queries of one question by one thread in one life of its answer, at one generation.
    pub most: u64,
    /// The queries of a question that the same thread had asked in the same life, at a generation
    /// before: the answer was stored while that was carried.
    pub lost: u64,
    /// The queries of a question that some thread had asked in the same life.
    pub repeated: u64,
    /// The generations that were begun.
    pub begun: u64,
    /// The requests that began anew, since their seat went over to another generation.
    pub anew: u64,
    /// The milliseconds of the longest change to another generation.
    pub longest: u64,
}

impl Counted {
    /// Nothing is counted yet.
    pub fn nothing() -> Counted {
        Counted {
            requests: 0,
            targets: 0,
            others: 0,
            sent: 0,
            again: 0,
            most: 0,
            lost: 0,
            repeated: 0,
            begun: 0,
            anew: 0,
            longest: 0,
        }
    }

    /// With what was counted beside it.
    pub fn with(self, other: Counted) -> Counted {
        Counted {
            requests: self.requests.wrapping_add(other.requests),
            targets: self.targets.wrapping_add(other.targets),
            others: self.others.wrapping_add(other.others),
            sent: self.sent.wrapping_add(other.sent),
            again: self.again.wrapping_add(other.again),
            most: self.most.max(other.most),
            lost: self.lost.wrapping_add(other.lost),
            repeated: self.repeated.wrapping_add(other.repeated),
            begun: self.begun.wrapping_add(other.begun),
            anew: self.anew.wrapping_add(other.anew),
            longest: self.longest.max(other.longest),
        }
    }
}
