//! How long replies are waited for.
ghost use Rattle.std.specs.Prelude.{◌≡◌};
ghost use Rattle.dns_transport.specs.Deadlines.{time_over};

/// How many milliseconds a reply is waited for, from the send of its query. What comes later does
/// not count.
#[derive(Clone, Copy, Debug, PartialEq, Eq)]
pub struct ReplyTimes {
    /// The reply to a query in a datagram.
    pub over_udp: u64,
    /// The reply to a query over TCP, for which a connection may have to be opened.
    pub over_tcp: u64,
}

impl ReplyTimes {
    /// The times of a caller that has no others: three seconds for a datagram, and two over TCP.
    pub const DEFAULT: ReplyTimes = ReplyTimes {
        over_udp: 3_000,
        over_tcp: 2_000,
    };

    /// The time of a query over TCP, or of one in a datagram.
    pub(crate) fn of(self, over_tcp: bool) -> u64
        ensures { result ≡ time_over self over_tcp }
    {
        if over_tcp {
            self.over_tcp
        } else {
            self.over_udp
        }
    }
}
