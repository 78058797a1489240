//! DNS queries over sockets that don't block: one loop, in which no server holds another one up.
//!
//! `ServerWire` is a wire to DNS servers: it takes queries, asks the servers in turn, and gives
//! replies. It retries over TCP what was cut (RFC 1035 4.2.1, RFC 7766), goes on to the next server
//! where one fails, asks without EDNS where a server refuses that (RFC 6891), and asks CNAME chains
//! on that a server cut short. `WireOptions`, `Attempts`, `QueryForm` and `ReplyTimes` say how it
//! asks; `WireCounts` and `WireTry` say what went over it. Like any `MessageWire` (`dns_queries`)
//! it gives whole messages.
//!
//! Below it `Transport` has queries out side by side, and gives for each at most one end: a reply,
//! silence until its deadline, or that it failed. A query in a datagram has a socket of its own,
//! whose port is drawn, and queries to one server over TCP share a connection. `Transport` stands
//! over two traits: `System`, which opens sockets, waits for them and knows the time, and `Link`, a
//! socket. `SystemSockets` is the system of this host.
//!
//! `open_wire` opens a `ServerWire` over the sockets of this host, whose ids and ports are drawn of
//! a key (`random_draws`, `random_ports`). `RunClock` is a clock that counts from its start, and a
//! `Timer`; `SystemClock` shows the time of the system. `BufferWire` makes a `MessageWire` a
//! `Wire` (`dns_queries`), for what takes datagrams. `UdpServerWire` is a `PeerWire` over UDP, as a
//! server has it.
//!
//! Read `specs/Replies.antt` first: which octets are a reply to a query (RFC 5452 9.1).
//! `specs/Ends.antt` says what the end of a query says, `specs/Sends.antt` what goes out, and
//! `specs/Frames.antt` what goes over a connection (RFC 1035 4.2.2).
#![tactic(auto)]

mod attempts;
mod boxed;
mod buffer_wire;
mod draws;
mod exchange;
mod exchanges;
mod framing;
mod host_wire;
mod letters;
mod link;
mod links;
mod lookup;
mod lookups;
mod open_chain;
mod query;
mod query_form;
mod reply;
mod reply_bits;
mod reply_times;
mod route;
mod run_clock;
mod server;
mod server_order;
mod server_wire;
mod system;
mod system_clock;
mod transport;
mod try_log;
mod udp_server_wire;
mod wire_counts;
mod wire_try;

pub use attempts::Attempts;
pub use buffer_wire::BufferWire;
pub use draws::{random_draws, random_ports};
pub use host_wire::{HostWire, open_wire};
pub use link::{Link, Step, System};
pub use query::{End, Outcome, Query};
pub use query_form::QueryForm;
pub use reply_times::ReplyTimes;
pub use route::Route;
pub use run_clock::{RunClock, Timer};
pub use server_wire::{ServerWire, WireOptions};
pub use system::{SystemLink, SystemSockets};
pub use system_clock::SystemClock;
pub use transport::{LINK_LIMIT, QUERY_LIMIT, Transport};
pub use udp_server_wire::UdpServerWire;
pub use wire_counts::WireCounts;
pub use wire_try::{Tracer, TryRoute, WireReply, WireTry};
