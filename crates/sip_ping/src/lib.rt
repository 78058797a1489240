//! Whether a SIP server is there: one OPTIONS request to a target, and its final reply.
//!
//! `ping` opens a socket to a server, sends the request, and waits for a final reply until a
//! deadline. Any final reply means that the server is there, as a 404 or a 503 does; `Answer` says
//! what else may become of the request. A caller that goes through the targets of a URI does so
//! with each in turn (RFC 3263 4.3).
//!
//! Over UDP the request goes out again by Timer E (RFC 3261 17.1.2.2): after 500 milliseconds, then
//! each time after twice as long, up to 4 seconds; after a provisional reply, each 4 seconds. Over
//! TCP it goes out once, and messages are read of the connection (`sip_options::frame`). What is no
//! reply to the request is passed over. At most 65,535 octets of a message are kept, beside the
//! part that came last.
//!
//! Below it `ping_by_datagrams` and `ping_by_stream` do so over any `Flow`, which sends, receives
//! and knows the time. `DatagramFlow` and `StreamFlow` are those of this host. Each tells the
//! address and port that it sends from: a caller that opens one itself puts these in the request,
//! as `ping` does, since Via and Contact have to name them.
//!
//! Read `specs/Timers.antt` first: when a request is sent. `specs/Datagrams.antt` says what goes
//! out over UDP, and what an answer says; `specs/Streams.antt` says it for TCP.
#![tactic(auto)]

mod answer;
mod datagrams;
mod flow;
mod heard;
mod messages;
mod probe;
mod sending;
mod sockets;
mod streams;
mod timer;

pub use answer::{Answer, Reply};
pub use datagrams::ping_by_datagrams;
pub use flow::{Fault, Flow, Received};
pub use probe::{Probe, ping};
pub use sockets::{DatagramFlow, StreamFlow};
pub use streams::ping_by_stream;
