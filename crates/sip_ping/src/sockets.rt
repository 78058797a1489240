//! Flows over the sockets of this host.
ghost use Rattle.std.specs.Prelude.{◌≤◌, IfOk, length};

use crate::flow::{Fault, Flow, Received};
use std::alloc::Global;
use std::io::{self, ErrorKind, Read, Write};
use std::net::{IpAddr, Ipv4Addr, Ipv6Addr, Net, OpenStream, SocketAddr, UdpSocket};
use std::time::{Clock, Duration, Instant};

/// The most octets of a datagram.
const DATAGRAM_LIMIT: usize = 65_535;

/// The most octets of a part of a stream.
const PART_LIMIT: usize = 4_096;

/// The address of every interface, in the family of a server.
fn any_address_for(server: SocketAddr) -> IpAddr {
    match server {
        SocketAddr::V4(_) => IpAddr::V4(Ipv4Addr::UNSPECIFIED),
        SocketAddr::V6(_) => IpAddr::V6(Ipv6Addr::UNSPECIFIED),
    }
}

/// What a flow has that failed so.
fn fault_of(kind: ErrorKind) -> Fault {
    match kind {
        ErrorKind::OutOfMemory => Fault::Memory,
        _ => Fault::Closed,
    }
}

/// What a flow gives where its socket failed so.
fn without(kind: ErrorKind) -> Received {
    match kind {
        ErrorKind::WouldBlock | ErrorKind::TimedOut | ErrorKind::Interrupted => Received::Nothing,
        _ => Received::Failed(fault_of(kind)),
    }
}

/// What a flow gives where these octets came.
fn given(alloc: Global, octets: &[u8]) -> Received {
    match Vec::from_slice(alloc, octets) {
        Ok(octets) => Received::Octets(octets),
        Err(_) => Received::Failed(Fault::Memory),
    }
}

/// The time for which a socket waits: a millisecond where none is left, since it has to be some.
fn time_of(most: u64) -> Duration {
    Duration::from_millis(most.max(1))
}

/// The milliseconds since a start; the most that there are where the clock can't be read.
fn millis_since<R: Clock>(rt: &R, start: Instant) -> u64 {
    match start.elapsed(rt) {
        Ok(time) => u64::try_from(time.as_millis()).unwrap_or(u64::MAX),
        Err(_) => u64::MAX,
    }
}

/// A flow over UDP, from a port that the system chooses. It takes datagrams of its server alone.
#[derive(Drop)]
pub struct DatagramFlow<'a, R> {
    rt: &'a R,
    socket: UdpSocket,
    buffer: Vec<u8>,
    start: Instant,
}

impl<'a, R: Net + Clock> DatagramFlow<'a, R> {
    /// Opens it to a server.
    ///
    /// # Errors
    ///
    /// Those of the system, as where there is no way to the server, and `OutOfMemory`.
    pub fn open(rt: &'a R, alloc: Global, server: SocketAddr) -> io::Result<DatagramFlow<'a, R>> {
        let start = Instant::now(rt)?;
        let socket = UdpSocket::bind(rt, SocketAddr::new(any_address_for(server), 0))?;
        socket.connect(server)?;
        let buffer = vec![in alloc; 0; DATAGRAM_LIMIT]?;
        Ok(DatagramFlow {
            rt,
            socket,
            buffer,
            start,
        })
    }

    /// The address and port that it sends from.
    ///
    /// # Errors
    ///
    /// Those of the system.
    pub fn local_address(&self) -> io::Result<SocketAddr> {
        self.socket.local_addr()
    }

    /// Waits for a datagram.
    fn receive_for(&mut self, most: u64) -> io::Result<usize>
        ensures { IfOk result (λ count. count ≤ length self.new.buffer.items) }
    {
        self.socket.set_read_timeout(Some(time_of(most)))?;
        self.socket.recv(&mut self.buffer)
    }
}

impl<'a, R: Net + Clock> Flow for DatagramFlow<'a, R> {
    ghost use Rattle.std.specs.Prelude.{⊤};

    // Nothing is known of what the system does.
    ghost does = { λ _ _ _. ⊤ };

    fn now(&mut self) -> u64 {
        millis_since(self.rt, self.start)
    }

    fn send(&mut self, octets: &[u8]) -> Result<(), Fault> {
        match self.socket.send(octets) {
            Ok(count) if count == octets.len() => Ok(()),
            Ok(_) => Err(Fault::Closed),
            Err(error) => Err(fault_of(error.kind())),
        }
    }

    fn receive(&mut self, alloc: Global, most: u64) -> Received {
        match self.receive_for(most) {
            Ok(count) => given(alloc, &self.buffer[..count]),
            Err(error) => without(error.kind()),
        }
    }
}

/// A flow over TCP, by a connection of its own.
#[derive(Drop)]
pub struct StreamFlow<'a, R: Net> {
    rt: &'a R,
    stream: R::Stream,
    start: Instant,
}

impl<'a, R: Net + Clock> StreamFlow<'a, R> {
    /// Opens it to a server, in so many milliseconds at most.
    ///
    /// # Errors
    ///
    /// Those of the system, as `TimedOut` where the server did not take the connection in time.
    pub fn open(rt: &'a R, server: SocketAddr, most: u32) -> io::Result<StreamFlow<'a, R>> {
        let start = Instant::now(rt)?;
        let time = time_of(u64::from(most));
        let stream = rt.connect_timeout(server, time)?;
        stream.set_write_timeout(Some(time))?;
        Ok(StreamFlow { rt, stream, start })
    }

    /// The address and port that it sends from.
    ///
    /// # Errors
    ///
    /// Those of the system.
    pub fn local_address(&self) -> io::Result<SocketAddr> {
        self.stream.local_addr()
    }

    /// Waits for a part.
    fn receive_for(&mut self, buffer: &mut [u8], most: u64) -> io::Result<usize>
        ensures { IfOk result (λ count. count ≤ length buffer.new) }
    {
        self.stream.set_read_timeout(Some(time_of(most)))?;
        self.stream.read(buffer)
    }
}

impl<'a, R: Net + Clock> Flow for StreamFlow<'a, R> {
    ghost use Rattle.std.specs.Prelude.{⊤};

    // Nothing is known of what the system does.
    ghost does = { λ _ _ _. ⊤ };

    fn now(&mut self) -> u64 {
        millis_since(self.rt, self.start)
    }

    fn send(&mut self, octets: &[u8]) -> Result<(), Fault> {
        match self.stream.write_all(octets) {
            Ok(()) => Ok(()),
            Err(error) => Err(fault_of(error.kind())),
        }
    }

    fn receive(&mut self, alloc: Global, most: u64) -> Received {
        let mut buffer = [0; PART_LIMIT];
        match self.receive_for(&mut buffer, most) {
            Ok(0) => Received::Failed(Fault::Closed),
            Ok(count) => given(alloc, &buffer[..count]),
            Err(error) => without(error.kind()),
        }
    }
}
