//! How much went over a wire.
ghost use Rattle.std.specs.Prelude.{◌≡◌};
ghost use Rattle.dns_transport.specs.WireCounts as spec;

/// How much went over a wire, each number up to `u64::MAX`.
#[derive(Clone, Copy, Debug, Default, PartialEq, Eq)]
pub struct WireCounts {
    /// Queries that went out for the first time.
    pub questions: u64,
    /// Queries that went out once more, to any server.
    pub again: u64,
    /// Queries that went over TCP, for the first time or once more.
    pub over_tcp: u64,
    /// Replies that came in: messages from a server with the id of a query that it was sent.
    pub replies: u64,
}

impl WireCounts {
    /// With a query more.
    pub(crate) fn with_query(self, is_first: bool, over_tcp: bool) -> WireCounts
        ensures { result ≡ spec.with_query is_first over_tcp self }
    {
        WireCounts {
            questions: self.questions.saturating_add(u64::from(is_first)),
            again: self.again.saturating_add(u64::from(!is_first)),
            over_tcp: self.over_tcp.saturating_add(u64::from(over_tcp)),
            ..self
        }
    }

    /// With a reply more.
    pub(crate) fn with_reply(self) -> WireCounts
        ensures { result ≡ spec.with_reply self }
    {
        WireCounts {
            replies: self.replies.saturating_add(1),
            ..self
        }
    }
}
