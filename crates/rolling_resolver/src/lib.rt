//! A resolver for one thread that is never full of answers, without I/O: `sip_resolver` over a book
//! that is left before it is full.
//!
//! A `RollingResolver` is a line of generations, each a resolver core over the book of one thread,
//! which begins with the answers that live of the one before it and is left before it is full.
//! Requests that come in go to the youngest; one that is older goes on until its last request has
//! ended.
//!
//! Read `specs/Rolling.antt` first: what calls leave of the generations. `specs/Rests.antt` says on
//! which octets the answers in their books rest, and so the outcomes that are told.
#![tactic(auto)]

mod counts;
mod generation;
mod instant;
mod laws;
mod resolver;

pub use answer_cache::is_group_count;
pub use counts::Stats;
pub use generation::{Ended, QueryIds, Sent};
pub use instant::{Instant, instant_of, left_until};
pub use laws::law_may_change_threads;
pub use resolver::RollingResolver;
