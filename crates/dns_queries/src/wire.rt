//! What datagrams are sent and received through.
ghost use Rattle.std.specs.Prelude.{◌≡◌, ℕ, ◌+◌, ◌-◌, ◌^◌, ◌<◌, IfOk, IfSome, OnErr, OnOk, List};
ghost use Rattle.dns_queries.specs.Wires.{Event, IsGiven, dispatch, receipt, receipt_of_one};

use thiserror::Error;

/// The most octets of a datagram that a wire gives.
pub const DATAGRAM_LIMIT: usize = 4096;

/// A send or a receive failed. The wire counts these.
#[derive(Clone, Copy, Debug, PartialEq, Eq, Error)]
#[error("the wire failed")]
pub struct WireFault;

/// A wire to one peer: datagrams go to it and come from it alone.
///
/// A datagram may be lost, and may come twice or late. The wire counts its faults, and neither call
/// may be made once they have reached `u64::MAX`.
pub trait Wire {
    // What it may give.
    ghost gives: { List ℕ → Type 0 };

    // How often it has failed.
    ghost failed: { Self → ℕ };

    // What a call does takes it from one state to another. Of most wires nothing is known.
    ghost does: { Self → Event (Unit {0}) → Self → Type 0 } = { λ _ _ _. Unit {0} };

    /// Sends a datagram to the peer.
    fn send(&mut self, octets: &[u8]) -> Result<(), WireFault>
        requires { failed self.old < 2 ^ 64 - 1 }
        ensures fault { OnErr result (failed self.new ≡ failed self.old + 1) }
        ensures no_fault { OnOk result (failed self.new ≡ failed self.old) }
        ensures did { does self.old (dispatch result octets.now tt) self.new };

    /// Receives a datagram, and puts it in front of the buffer. The result is the number of its
    /// octets, or `None` where none came in the time that the wire waits.
    fn receive(&mut self, buffer: &mut [u8; DATAGRAM_LIMIT]) -> Result<Option<usize>, WireFault>
        requires { failed self.old < 2 ^ 64 - 1 }
        ensures fault { OnErr result (failed self.new ≡ failed self.old + 1) }
        ensures no_fault { OnOk result (failed self.new ≡ failed self.old) }
        ensures given { IfOk result
            (λ given. IfSome given (λ count. IsGiven gives count buffer.new)) }
        ensures did { does self.old (receipt_of_one result buffer.new) self.new };

    /// How many calls have failed.
    fn failures(&self) -> u64
        ensures { result ≡ failed self.now };
}

/// A wire to many peers, as `Wire` is to one.
pub trait PeerWire {
    /// Where a datagram comes from, or goes to.
    type Peer: Copy;

    // What it may give.
    ghost gives: { List ℕ → Type 0 };

    // How often it has failed.
    ghost failed: { Self → ℕ };

    // What a call does takes it from one state to another.
    ghost does: { Self → Event Self.Peer → Self → Type 0 };

    /// Sends a datagram to this peer.
    fn send(&mut self, octets: &[u8], peer: Self::Peer) -> Result<(), WireFault>
        requires { failed self.old < 2 ^ 64 - 1 }
        ensures fault { OnErr result (failed self.new ≡ failed self.old + 1) }
        ensures no_fault { OnOk result (failed self.new ≡ failed self.old) }
        ensures did { does self.old (dispatch result octets.now peer) self.new };

    /// Receives a datagram, and puts it in front of the buffer. The result is the number of its
    /// octets and the peer that sent it, or `None` where none came in the time that the wire waits.
    fn receive(
        &mut self,
        buffer: &mut [u8; DATAGRAM_LIMIT],
    ) -> Result<Option<(usize, Self::Peer)>, WireFault>
        requires { failed self.old < 2 ^ 64 - 1 }
        ensures fault { OnErr result (failed self.new ≡ failed self.old + 1) }
        ensures no_fault { OnOk result (failed self.new ≡ failed self.old) }
        ensures given { IfOk result (λ given. IfSome given (λ it. IsGiven gives it.0 buffer.new)) }
        ensures did { does self.old (receipt result buffer.new) self.new };

    /// How many calls have failed.
    fn failures(&self) -> u64
        ensures { result ≡ failed self.now };
}
