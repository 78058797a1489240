//! Queries that went over a wire, and what came back.
ghost use Rattle.std.specs.Prelude.{◌≡◌, ◌↔◌, IsTrue};
ghost use Rattle.std.specs.List.{All};
ghost use Rattle.dns_transport.specs.WireTries as spec;

use dns_message::{Asked, Message};
use std::net::SocketAddr;
use std::time::Duration;

/// How a query goes to a server.
#[derive(Clone, Copy, Debug, PartialEq, Eq)]
pub struct TryRoute {
    /// The server.
    pub server: SocketAddr,
    /// Whether it goes over TCP, and not over UDP.
    pub over_tcp: bool,
    /// Whether it has an OPT record (RFC 6891).
    pub has_edns: bool,
}

/// A message that came back.
#[derive(Debug, Drop)]
pub struct WireReply {
    /// The RCODE of the message, with the upper bits of its OPT record (RFC 6891 6.1.3).
    pub rcode: u16,
    /// How many octets the message has.
    pub octets: usize,
    /// The message in front of the octets; none where they begin with no message (RFC 1035 4.1).
    pub message: Option<Message>,
    /// When the message came, since the wire was opened.
    pub came_at: Duration,
}

/// A query that went out, and the message that came back to it.
#[derive(Debug, Drop)]
pub struct WireTry {
    /// What the query asks.
    pub asked: Option<Asked>,
    /// The id of the query.
    pub id: u16,
    /// How the query went.
    pub route: TryRoute,
    /// When the query went, since the wire was opened.
    pub sent_at: Duration,
    /// What came back, if anything did.
    pub reply: Option<WireReply>,
}

/// The id of a message; 0 where it has none.
pub(crate) fn id_of(message: &[u8]) -> u16
    ensures { result ≡ spec.id_of message.now }
{
    match message {
        [high, low, ..] => u16::from_be_bytes([*high, *low]),
        _ => 0,
    }
}

impl WireTry {
    /// Whether a message of this id, which came from this server, may be its reply.
    pub(crate) fn awaits(&self, id: u16, server: SocketAddr, over_tcp: bool) -> bool
        ensures { IsTrue result ↔ spec.Awaits id server over_tcp self.now }
    {
        self.reply.is_none()
            && self.id == id
            && self.route.server == server
            && self.route.over_tcp == over_tcp
    }
}

/// A wire that keeps the queries that went out, and which server replied last.
pub trait Tracer {
    /// Gives the queries that went out since the last call, in their order.
    fn take_tries(&mut self) -> Vec<WireTry>
        ensures { All spec.IsTry result.items };

    /// The server from which a message came last, if one came.
    fn last_server(&self) -> Option<SocketAddr>;
}
