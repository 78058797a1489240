//! The sockets of the system.
ghost use Rattle.std.specs.Prelude.{◌≡◌, ◌≤◌, ◌+◌, ◌%◌};

use crate::framing::{Framing, Heard, Part, would_wait};
use crate::link::{Link, Step, System};
use crate::route::Route;
use dns_queries::DATAGRAM_LIMIT;
use mio::net::{TcpStream, UdpSocket};
use mio::{Events, Interest, Poll, Token};
use rand_core::Rng;
use std::alloc::Global;
use std::boxed::Box;
use std::io::{self, ErrorKind};
use std::net::{IpAddr, Ipv4Addr, Ipv6Addr, Net, SocketAddr};
use std::time::{Clock, Duration, Instant};

/// How many links that are ready are told at one wait.
const EVENT_LIMIT: usize = 256;

/// The first port that is drawn: those before it are the system's (RFC 6056 3.2).
const FIRST_PORT: u16 = 1_024;

/// How many ports are drawn for a socket before the system chooses one.
const DRAW_LIMIT: usize = 8;

/// A socket. What is half written or half read is in memory of its own, so that the socket of a
/// datagram takes little room.
#[derive(Drop)]
enum Socket {
    Udp(UdpSocket),
    Tcp(TcpStream, Box<Framing>),
}

/// A socket to a server.
#[derive(Drop)]
pub struct SystemLink {
    route: Route,
    socket: Socket,
}

/// The sockets of the system, and when they are ready.
///
/// A datagram goes from a socket of its own, whose port is drawn from 1,024 to 65,535 (RFC 5452
/// 9.2): where eight that were drawn are taken, the system chooses one.
#[derive(Drop)]
pub struct SystemSockets<'a, R, G> {
    rt: &'a R,
    local: Option<IpAddr>,
    ports: G,
    poll: Poll,
    events: Events,
    start: Instant,
}

/// The port that is drawn by this number.
fn port_of(number: u32) -> u16
    ensures range { 1024 ≤ result }
    ensures drawn { result ≡ 1024 + number % 64512 }
{
    FIRST_PORT + (number % 64_512) as u16
}

/// The address of every interface, in the family of a server.
fn any_address_for(server: SocketAddr) -> IpAddr {
    match server {
        SocketAddr::V4(_) => IpAddr::V4(Ipv4Addr::UNSPECIFIED),
        SocketAddr::V6(_) => IpAddr::V6(Ipv6Addr::UNSPECIFIED),
    }
}

/// A datagram that has come, without waiting.
fn receive(alloc: Global, socket: &UdpSocket) -> Step {
    let mut buffer = [0; DATAGRAM_LIMIT];
    match socket.recv(&mut buffer) {
        Ok(count) => match Vec::from_slice(alloc, &buffer[..count]) {
            Ok(octets) => Step::Message(octets),
            Err(_) => Step::More,
        },
        Err(error) if would_wait(&error) => Step::Waits,
        Err(_) => Step::Failed,
    }
}

/// Goes on over a connection without waiting.
fn step_over(alloc: Global, stream: &mut TcpStream, framing: &mut Framing) -> Step {
    if framing.write(stream) == Part::Failed {
        return Step::Failed;
    }
    match framing.read(alloc, stream) {
        Heard::Waits => Step::Waits,
        Heard::More => Step::More,
        Heard::Message(message) => Step::Message(message),
        Heard::Failed => Step::Failed,
    }
}

impl Link for SystemLink {
    ghost use Rattle.std.specs.Prelude.{⊤};

    ghost goes = { λ link. link.route };

    // Nothing is known of what the network gives.
    ghost hears = { λ _ _. ⊤ };

    fn route(&self) -> Route {
        self.route
    }

    fn step(&mut self, alloc: Global) -> Step {
        match &mut self.socket {
            Socket::Udp(socket) => receive(alloc, socket),
            Socket::Tcp(stream, framing) => step_over(alloc, stream, framing),
        }
    }
}

impl<'a, R: Net + Clock, G: Rng + Drop> SystemSockets<'a, R, G> {
    /// No socket yet. Datagrams go from this local address, where one is named.
    ///
    /// # Errors
    ///
    /// Those of the system, and `OutOfMemory`.
    pub fn new(
        rt: &'a R,
        alloc: Global,
        local: Option<IpAddr>,
        ports: G,
    ) -> io::Result<SystemSockets<'a, R, G>> {
        Ok(SystemSockets {
            rt,
            local,
            ports,
            poll: Poll::new(rt)?,
            events: Events::with_capacity(alloc, EVENT_LIMIT)?,
            start: Instant::now(rt)?,
        })
    }

    /// A socket for datagrams to a server, of a port that is drawn, or else of one that the system
    /// chooses.
    fn bind(&mut self, server: SocketAddr) -> io::Result<UdpSocket> {
        let address = match self.local {
            Some(address) => address,
            None => any_address_for(server),
        };
        for _draw in 0..DRAW_LIMIT {
            let port = port_of(self.ports.next_u32());
            match UdpSocket::bind(self.rt, SocketAddr::new(address, port)) {
                Ok(socket) => return Ok(socket),
                Err(error) if error.kind() == ErrorKind::AddrInUse => {}
                Err(error) => return Err(error),
            }
        }
        UdpSocket::bind(self.rt, SocketAddr::new(address, 0))
    }

    /// A socket for datagrams to a server, from which these octets went.
    fn open_udp(&mut self, server: SocketAddr, token: Token, octets: &[u8]) -> io::Result<Socket> {
        let mut socket = self.bind(server)?;
        socket.connect(server)?;
        self.poll
            .registry()
            .register(&mut socket, token, Interest::READABLE)?;
        if socket.send(octets)? != octets.len() {
            return Err(io::Error::from(ErrorKind::WriteZero));
        }
        Ok(Socket::Udp(socket))
    }

    /// A connection to a server, over which these octets are to be written.
    fn open_tcp(
        &self,
        alloc: Global,
        server: SocketAddr,
        token: Token,
        octets: &[u8],
    ) -> io::Result<Socket> {
        let mut framing = Framing::new(alloc);
        framing.push(alloc, octets)?;
        let framing = Box::new(alloc, framing)?;
        let mut stream = TcpStream::connect(self.rt, server)?;
        self.poll.registry().register(&mut stream, token, Interest::READABLE | Interest::WRITABLE)?;
        Ok(Socket::Tcp(stream, framing))
    }
}

impl<'a, R: Net + Clock, G: Rng + Drop> System for SystemSockets<'a, R, G> {
    ghost use Rattle.std.specs.Prelude.{⊤};

    type Link = SystemLink;

    // Nothing is known of what the system says.
    ghost shows = { λ _. ⊤ };

    // Nor of what it sends.
    ghost sends = { λ _ _ _ _. ⊤ };

    fn open(
        &mut self,
        alloc: Global,
        route: Route,
        key: usize,
        octets: &[u8],
    ) -> io::Result<SystemLink> {
        let socket = if route.over_tcp {
            self.open_tcp(alloc, route.server, Token(key), octets)?
        } else {
            self.open_udp(route.server, Token(key), octets)?
        };
        Ok(SystemLink { route, socket })
    }

    fn send(&mut self, alloc: Global, link: &mut SystemLink, octets: &[u8]) -> io::Result<()> {
        match &mut link.socket {
            Socket::Udp(socket) => {
                let _count = socket.send(octets)?;
                Ok(())
            }
            Socket::Tcp(_stream, framing) => framing.push(alloc, octets),
        }
    }

    fn wait(&mut self, most: u64, ready: &mut Vec<usize>) -> io::Result<()> {
        // (what is told of a link is told once, and must not be lost)
        ready.reserve(EVENT_LIMIT)?;
        self.poll
            .poll(&mut self.events, Some(Duration::from_millis(most)))?;
        for event in &self.events {
            ready.push(event.token().0)?;
        }
        Ok(())
    }

    fn now(&self) -> u64 {
        let time = self.start.elapsed(self.rt).unwrap_or(Duration::MAX);
        u64::try_from(time.as_millis()).unwrap_or(u64::MAX)
    }
}
