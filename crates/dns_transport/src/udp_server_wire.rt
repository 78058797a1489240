//! A server's wire over UDP.
ghost use Rattle.std.specs.Prelude.{◌≡◌, ◌↔◌, ◌+◌, ◌-◌, ◌^◌, ◌<◌, IfErr, IfOk, IsOk, IsTrue, None, Ok, OnErr, OnOk, Some};
ghost use Rattle.std.specs.IoError.{error_kind};
ghost use Rattle.dns_transport.specs.Datagrams.{IsWait};

use dns_queries::{DATAGRAM_LIMIT, PeerWire, WireFault};
use std::io::{self, ErrorKind};
use std::marker::Model;
use std::net::{Net, SocketAddr, UdpSocket};
use std::time::Duration;

/// How long a receive waits, in milliseconds.
const RECEIVE_WAIT: u64 = 100;

/// Whether the system says that nothing came in the time that a socket waits.
fn is_wait(kind: ErrorKind) -> bool
    ensures { IsTrue result ↔ IsWait kind }
{
    matches!(kind, ErrorKind::WouldBlock | ErrorKind::TimedOut)
}

/// A wire to many peers over UDP, as a server has it.
///
/// A receive waits for at most 100 milliseconds. A datagram of more than 4,096 octets is cut to its
/// first 4,096, as the socket does it: the octets after them are lost, and nothing shows that they
/// were there.
#[derive(Drop)]
pub struct UdpServerWire {
    socket: UdpSocket,
    failures: u64,
}

// It is seen as how often it has failed.
impl Model for UdpServerWire {
    ghost use Rattle.std.specs.Prelude.{ℕ};

    ghost Value = { ℕ };

    ghost view = { λ wire. wire.failures };
}

impl UdpServerWire {
    /// A wire of this address and port; the system chooses a port in place of 0.
    ///
    /// # Errors
    ///
    /// Those of the system, where the address is not one of this host or the port is taken.
    pub fn bind<R: Net>(rt: &R, address: SocketAddr) -> io::Result<UdpServerWire>
        ensures { IfOk result (λ wire. ⟦<UdpServerWire as PeerWire>⟧.failed wire ≡ 0) }
    {
        let socket = UdpSocket::bind(rt, address)?;
        socket.set_read_timeout(Some(Duration::from_millis(RECEIVE_WAIT)))?;
        Ok(UdpServerWire {
            socket,
            failures: 0,
        })
    }

    /// The address and port of the wire.
    ///
    /// # Errors
    ///
    /// Those of the system.
    pub fn address(&self) -> io::Result<SocketAddr> {
        self.socket.local_addr()
    }

    /// Counts a fault.
    fn fault(&mut self) -> WireFault
        requires { self.old < 2 ^ 64 - 1 }
        ensures { self.new ≡ self.old + 1 }
    {
        self.failures += 1;
        WireFault
    }

    /// What a send did: a fault where it failed, or sent another number of octets.
    fn sent(&mut self, sent: io::Result<usize>, count: usize) -> Result<(), WireFault>
        requires { self.old < 2 ^ 64 - 1 }
        ensures fault { OnErr result (self.new ≡ self.old + 1) }
        ensures no_fault { OnOk result (self.new ≡ self.old) }
        ensures whole { IsOk result ↔ (sent ≡ Ok count) }
    {
        match sent {
            Ok(sent) if sent == count => Ok(()),
            _ => Err(self.fault()),
        }
    }

    /// What a receive did: nothing came where it waited long enough, and any other error is a
    /// fault.
    fn received(
        &mut self,
        datagram: io::Result<(usize, SocketAddr)>,
    ) -> Result<Option<(usize, SocketAddr)>, WireFault>
        requires { self.old < 2 ^ 64 - 1 }
        ensures fault { OnErr result (self.new ≡ self.old + 1) }
        ensures no_fault { OnOk result (self.new ≡ self.old) }
        ensures came { IfOk datagram (λ it. result ≡ Ok (Some it)) }
        ensures waited { IfErr datagram (λ error. IsOk result ↔ IsWait (error_kind error)) }
        ensures none { IfErr datagram (λ error. IfOk result (λ it. it ≡ None)) }
    {
        match datagram {
            Ok(datagram) => Ok(Some(datagram)),
            Err(error) if is_wait(error.kind()) => Ok(None),
            Err(_) => Err(self.fault()),
        }
    }
}

impl PeerWire for UdpServerWire {
    type Peer = SocketAddr;

    ghost use Rattle.std.specs.Prelude.{⊤};

    ghost gives = { λ _. ⊤ };

    ghost failed = { λ wire. wire };

    // Nothing is known of what the network does.
    ghost does = { λ _ _ _. ⊤ };

    fn send(&mut self, octets: &[u8], peer: SocketAddr) -> Result<(), WireFault> {
        let sent = self.socket.send_to(octets, peer);
        self.sent(sent, octets.len())
    }

    fn receive(
        &mut self,
        buffer: &mut [u8; DATAGRAM_LIMIT],
    ) -> Result<Option<(usize, SocketAddr)>, WireFault> {
        let datagram = self.socket.recv_from(buffer);
        self.received(datagram)
    }

    fn failures(&self) -> u64 {
        self.failures
    }
}
