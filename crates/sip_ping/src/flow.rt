//! What stands between a request and the system.
ghost use Rattle.std.specs.Prelude.{◌≡◌, IfOk, Some};
ghost use Rattle.sip_ping.specs.Flows.{Event, looked, dispatch, receipt};

use crate::answer::Answer;
use std::alloc::{AllocError, Global};
use thiserror::Error;

/// Why a flow failed.
#[derive(Clone, Copy, Debug, PartialEq, Eq, Error)]
pub enum Fault {
    /// Memory was refused.
    #[error("memory was refused")]
    Memory,
    /// The port is closed, or the connection failed or was cut, or the system refuses it.
    #[error("the port is closed, or the connection failed or was cut")]
    Closed,
}

/// What a flow gives.
#[derive(Debug, Drop)]
pub enum Received {
    /// These octets came: a datagram, or a part of a stream.
    Octets(Vec<u8>),
    /// Nothing came in the time.
    Nothing,
    /// It failed.
    Failed(Fault),
}

/// A flow to one server: over UDP from a socket that takes datagrams of this server alone, or over
/// TCP by a connection of its own.
pub trait Flow {
    // What a call does takes it from one state to another.
    ghost does: { Self → Event → Self → Type 0 };

    /// The milliseconds since it began to open.
    fn now(&mut self) -> u64
        ensures { does self.old (looked result) self.new };

    /// Sends a datagram, or these octets of a stream.
    fn send(&mut self, octets: &[u8]) -> Result<(), Fault>
        ensures { does self.old (dispatch result octets.now) self.new };

    /// Waits until octets came, or so many milliseconds are over.
    fn receive(&mut self, alloc: Global, most: u64) -> Received
        ensures { does self.old (receipt most result) self.new };
}

/// What becomes of a request whose flow failed.
pub(crate) fn refused(fault: Fault) -> Result<Option<Answer>, AllocError>
    ensures closed { IfOk result (λ it. fault ≡ Fault.Closed) }
    ensures answer { IfOk result (λ it. it ≡ Some Answer.Refused) }
{
    match fault {
        Fault::Closed => Ok(Some(Answer::Refused)),
        Fault::Memory => Err(AllocError),
    }
}
