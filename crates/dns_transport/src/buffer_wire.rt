//! A wire of whole messages as a wire of datagrams.
ghost use Rattle.std.specs.Prelude.{◌≡◌, ◌≤◌, ◌<◌, IfNone, IfSome, length, take};
ghost use Rattle.dns_transport.specs.BufferWires.{Carries};

use dns_queries::{DATAGRAM_LIMIT, MessageWire, Received, Wire, WireFault};

/// A wire of whole messages, which puts what it gives into a buffer of the caller. A message of
/// more than 4,096 octets is lost. Nor is it told that no server takes a query: the caller waits in
/// vain for the reply.
#[derive(Drop)]
pub struct BufferWire<W> {
    wire: W,
}

impl<W> BufferWire<W> {
    /// This wire, which puts what it gives into a buffer.
    #[must_use]
    pub fn new(wire: W) -> BufferWire<W>
        ensures { result.wire ≡ wire }
    {
        BufferWire { wire }
    }
}

/// Puts a message in front of a buffer, if it fits, and gives its length.
fn put_in_front(message: &[u8], buffer: &mut [u8; DATAGRAM_LIMIT]) -> Option<usize>
    ensures fits { IfSome result (λ count. count ≤ 4096) }
    ensures put { IfSome result (λ count. take count buffer.new ≡ message.now) }
    ensures longer { IfNone result (4096 < length message.now) }
{
    let count = message.len();
    if count > DATAGRAM_LIMIT {
        return None;
    }
    buffer[..count].copy_from_slice(message);
    Some(count)
}

impl<W: MessageWire> Wire for BufferWire<W> {
    ghost gives = { W.gives };

    ghost failed = { λ _. 0 };

    ghost does = { λ old event new. Carries W.does old.wire event new.wire };

    fn send(&mut self, octets: &[u8]) -> Result<(), WireFault> {
        self.wire.send(octets);
        Ok(())
    }

    fn receive(&mut self, buffer: &mut [u8; DATAGRAM_LIMIT]) -> Result<Option<usize>, WireFault> {
        match self.wire.receive() {
            Some(Received::Message(message)) => Ok(put_in_front(message.as_slice(), buffer)),
            Some(Received::Closed(_) | Received::TimedOut(_)) | None => Ok(None),
        }
    }

    fn failures(&self) -> u64 {
        0
    }
}
