//! A resolver core without I/O (RFC 3263 4 and 5): many requests at once, over DNS messages that
//! its caller sends and receives.
//!
//! A `Resolver` takes requests, octets that came in, and moments. It gives the octets to send, the
//! moment at which to come again if nothing else happens, and what became of each request. It opens
//! no socket, reads no clock and starts no thread, so an event loop or a thread can drive it. The
//! book of answers (`answer_cache`) and the caller's seat at it are lent to each call.
//!
//! ```
//! let Ok(mut resolver) = Resolver::new(alloc, limits, CountingIds::new()) else {
//!     return None;
//! };
//! let words = RandomWords::Drawn {
//!     key: [0; 32],
//!     number: 1,
//! };
//! resolver.submit(1, request, caps, &words, until).ok()?;
//! // the octets of a query, which begin with its id
//! let asked = rounded_up(now);
//! let query = resolver.poll_transmit(book, seat, now, asked)?.octets;
//! // the octets of its reply, and what they meant
//! let heard = resolver.handle(rt, book, seat, now, DnsTransport::Datagram, &REPLY);
//! // the request's number, and what became of it
//! let ended = resolver.poll_outcome()?;
//! ```
//!
//! Moments are whole seconds. `now` is the time rounded down: what was due by then is sent again or
//! given up. `asked` is the time rounded up, at which a question that is sent counts as sent: so no
//! query is sent again before its full wait is over. A `Schedule` says how often a question is sent
//! and how long each send is waited for: three times and one second by `Resolver::new`, what the
//! caller gives by `Resolver::with_schedule`.
//!
//! A loop over it goes on so: `submit` what is to be resolved; call `poll_transmit` until it gives
//! nothing, and send what it gives; take what `poll_outcome` gives; wait for a datagram until the
//! moment that `next_timeout` names, and hand it to `handle`.
//!
//! A request may have a moment by which it ends (`submit`): whatever replies come or don't, a
//! `poll_transmit` from then on ends it, also where it is held. A loop that calls when
//! `next_timeout` says so ends each request in time. What is sent says which send of its question
//! it is (`Transmit::send`), by which a caller with several servers takes the next one.
//!
//! A request that is held, since as many questions are out as can be, goes on before those that
//! can go on: so requests that come do not starve it.
//!
//! `cancel` takes a request out that is no longer wanted, by its number: no outcome comes of it.
//! Where it waits for a reply it is found by its number, and no other request is moved.
//!
//! `restart` lets all requests begin their choices anew, so that they may go on at another book:
//! `specs/Restarts.antt` says what is left.
//!
//! Where the caller can ask over streams (`Limits`), the question of a reply that was cut goes on
//! over one: `poll_transmit` says over what it goes, and the caller says over what octets came.
//!
//! A question that many requests ask at once is sent once. Its reply is read once and stored once,
//! and all that wait for it get its answer, in the order in which they came to wait.
//!
//! `next_outcome` drives a resolver over a wire to DNS servers until a request ends: it sends what
//! the resolver has to send, and hands it what comes back; `poll_over` does so once. They work over
//! any `MessageWire` and any `Clock` of `dns_queries`; what is known of these are `WireFacts`.
//!
//! `random_ids` and `draw_words` make ids of queries and random words of a key, which `random_key`
//! takes from the system's entropy; `law_id_streams_are_apart` says that they come of streams of
//! their own.
//!
//! Read `specs/Outcomes.antt` first: what an outcome says. Then `specs/Resolvers.antt`: what a
//! resolver holds, `specs/Works.antt`: what it does at a seat, `specs/Cancels.antt`: what is left
//! after a request was cancelled, and `specs/Expiries.antt`: after the time of some was over.
//! `specs/Driven.antt` says what the loop over a wire gives,
//! and what it does at the wire.
#![tactic(auto)]

mod asks;
mod cancels;
mod draw;
mod drive;
mod earliest;
mod expiries;
mod facts;
mod id_streams;
mod ids;
mod key;
mod laws;
mod number_filter;
mod outcome;
mod question_table;
mod questions;
mod queue;
mod ready;
mod refusal;
mod requests;
mod resolver;
mod restarts;
mod rounding;
mod slot_index;
mod slot_links;
mod submitted;
mod task;
mod transmit;
mod waiting_queue;
mod waiting_slots;
mod waits;
mod wire_facts;

pub use dns_queries::Schedule;
pub use draw::draw_words;
pub use drive::{cancel_over, next_outcome, poll_over};
pub use facts::{Facts, NoFacts};
pub use id_streams::{law_id_streams_are_apart, random_ids};
pub use ids::{CountingIds, Ids, RandomIds};
pub use key::random_key;
pub use laws::{
    law_may_change_threads, law_questions_are_dealt_with, law_requests_are_awaited,
    law_requests_are_kept, law_requests_stand_as_seats_go_on,
};
pub use outcome::{Outcome, Resolved, TargetList};
pub use queue::least_of;
pub use refusal::SubmitRefusal;
pub use resolver::{Limits, ReplyOutcome, Resolver};
pub use rounding::rounded_up;
pub use transmit::{DnsTransport, Transmit};
pub use wire_facts::WireFacts;
