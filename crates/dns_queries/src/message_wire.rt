//! What DNS messages are sent and received through.
ghost use Rattle.std.specs.Prelude.{ℕ, IfNone, IfSome, IsTrue, List};
ghost use Rattle.dns_queries.specs.MessageWires.{Event, IfMessage, left, nothing, receipt_of, sent};

/// What a wire gives.
#[derive(Debug, Drop)]
pub enum Received {
    /// The octets of a message, at most 65,535 (RFC 1035 4.2.2).
    Message(Vec<u8>),
    /// No server takes the query of this id, and nothing more comes for it.
    Closed(u16),
    /// No reply to the query of this id came in time, and nothing more comes for it: the wire sent
    /// it as often as it was to.
    TimedOut(u16),
}

/// A wire to DNS servers. It gives whole messages.
///
/// A message may be lost, and may come twice or late.
pub trait MessageWire {
    // What it may give.
    ghost gives: { List ℕ → Type 0 };

    // Its time is over.
    ghost over: { Self → Type 0 };

    // What a call does takes it from one state to another. Of most wires nothing is known.
    ghost does: { Self → Event → Self → Type 0 } = { λ _ _ _. Unit {0} };

    /// Sends the octets of a query. What can't be sent is lost.
    fn send(&mut self, query: &[u8])
        ensures did { does self.old (sent query.now) self.new };

    /// Lets the query of an id go, which nobody waits for any more: nothing need come for it.
    fn leave(&mut self, id: u16)
        ensures did { does self.old (left id) self.new };

    /// What came in the time that the wire waits, if anything did.
    fn receive(&mut self) -> Option<Received>
        ensures given { IfSome result (λ received. IfMessage received gives) }
        ensures did { IfSome result (λ received. does self.old (receipt_of received) self.new) }
        ensures waited { IfNone result (does self.old nothing self.new) };

    /// Whether the time of the wire is over, so that the caller waits for nothing more.
    fn is_over(&self) -> bool
        ensures { IsTrue result → over self.now };
}
