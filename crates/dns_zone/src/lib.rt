//! A small DNS server for loopback: the records of its zone, what it replies, and its loop.
//!
//! A `Zone` is read from a text of records, and replies to the octets of a query as an
//! authoritative server does (RFC 1034 4.3.2): it follows its own aliases, and has records of types
//! A, AAAA, SRV, NAPTR and SOA in class IN. Where it has no record of the type, it says by its SOA
//! record for how long that may be kept (RFC 2308 3). What it gives is a whole message, or a part
//! of one with TC set. Octets that are no query get no reply. `serve` replies from a zone over a
//! `PeerWire` (`dns_queries`) until it is told to stop, and gives the count of replies. For tests
//! and measurements `ZoneWire` is a wire in memory to the server of a zone. Nothing here opens a
//! socket: octets are handed in, and octets to send are handed out.
//!
//! ```
//! let zone = Zone::read(
//!     alloc,
//!     "a.example. 60 CNAME b.example.\nb.example. 300 A 192.0.2.7",
//! )?;
//! // octets that ask for A of a.example.
//! if let Some(reply) = zone.answer_datagram(alloc, octets)? {
//!     assert!(rt; reply.ends_with(b"\xc0\x00\x02\x07"));
//! }
//! ```
//!
//! Read `specs/Zones.antt`, `specs/Authorities.antt`, `specs/Replies.antt` and `specs/Lines.antt`
//! first: what a zone has, which SOA record is about a name, what it replies, and what its text
//! says. Then `specs/Servers.antt`: what the loop does.
#![tactic(auto)]

mod authority;
mod datagram;
mod field;
mod laws;
mod line;
mod rdata;
mod refusal;
mod reply;
mod server;
mod text;
mod zone;
mod zone_wire;

pub use laws::{law_zone_follows_cnames, law_zone_names_its_authority};
pub use refusal::ZoneRefusal;
pub use server::serve;
pub use zone::{Zone, ZoneEntry};
pub use zone_wire::ZoneWire;
