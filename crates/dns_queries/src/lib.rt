//! Questions to DNS servers until they end, and the wires that they go through.
//!
//! Nothing here opens a socket, reads a clock or draws a random number: octets and moments are
//! handed in, and octets to send are handed out.
//!
//! An `Asker` keeps the questions that were sent and have no reply yet, each under the id of its
//! messages (RFC 1035 4.1.1). `ask` opens a ticket for a question and gives the octets to send.
//! `incoming` takes octets that came in: it says which question they end, by an answer or by a
//! fault of the server, or why they are no reply to any. A message whose id fits and whose question
//! does not is no reply, and the question waits on. `due` says which question is to be sent once
//! more, and which one is given up; it is called again until it gives nothing. A `Schedule` says
//! how often a question is sent and how long each send is waited for: three times and one second by
//! `Asker::new`, what the caller gives by `Asker::with_schedule`.
//!
//! ```
//! let mut asker = Asker::new(alloc, 8, 0).ok()?;
//! // the octets to send, which begin with the id
//! let query = asker.ask(question, 0x1234, now).ok()?;
//! let sent = query.starts_with(b"\x12\x34");
//! // a second later nothing came in
//! let again = matches!(asker.due(later), Some(Due::Resend(0x1234, _)));
//! // the octets of a reply
//! let heard = asker.incoming(octets).ok()?;
//! let answered = matches!(heard, Incoming::Ended(0x1234, _, Ending::Answered(_)));
//! ```
//!
//! `Wire` and `PeerWire` say what may be known of a wire that carries datagrams, to one server or
//! to many peers, `MessageWire` of one that gives whole messages of many servers, and `Clock` what
//! may be known of a clock. For tests and measurements there is a clock that stands
//! (`StandingClock`).
//!
//! Read `specs/Tickets.antt` and `specs/Events.antt` first: what waits, and what each event does to
//! it. Then `specs/Wires.antt` and `specs/MessageWires.antt`: what wires do.
#![tactic(auto)]

mod asker;
mod asker_laws;
mod clock;
mod id_table;
mod incoming;
mod message_wire;
mod refusal;
mod schedule;
mod ticket;
mod tickets;
mod wire;

pub use asker::Asker;
pub use asker_laws::law_asking_stays_in_order;
pub use clock::{Clock, StandingClock};
pub use incoming::{Due, Ending, Incoming, Why};
pub use message_wire::{MessageWire, Received};
pub use refusal::AskRefusal;
pub use schedule::Schedule;
pub use wire::{DATAGRAM_LIMIT, PeerWire, Wire, WireFault};
