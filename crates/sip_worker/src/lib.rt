//! A worker: it resolves requests over a wire of its own (RFC 3263 4 and 5), over a cache that it
//! shares with others.
//!
//! A `Job` is a request with what its sender can do. A `Worker` has a seat at a `SharedCache` and a
//! wire to a DNS server. It takes a batch of jobs at a time and drives a `sip_resolver` with all of
//! them at once: what the cache has is looked up, and what it lacks is asked, up to three times. A
//! question that many of them ask is asked once, and its answer is stored once. In the end each job
//! has its `Outcome`.
//!
//! ```
//! let Ok((cache, mut seats)) = SharedCache::new(alloc, 1) else {
//!     return None;
//! };
//! let worker = Worker::new(alloc, seats.pop()?, wire).ok()?;
//! ```
//!
//! It then takes one batch after the other:
//!
//! ```
//! let made = worker.batch(rt, cache, jobs, &clock, &OpenGate).ok()?;
//! // each job has what became of it: its targets, a refusal by name, or why there is no answer
//! Some(made.iter().all(|it| copy_goes(rt.alloc(), it)))
//! ```
//!
//! A result has its job, the outcome and a notice of what the seat had seen by then. Here
//! `copy_goes` says of a copy whether its outcome is the target that was wanted.
//!
//! `sip_workers` runs many of them, each in a thread of its own.
//!
//! Read `specs/Outcomes.antt`: what an outcome says.
#![tactic(auto)]

mod drive;
mod gate;
mod job;
mod open_batch;
mod outcome;
mod wire_facts;
mod worker;

pub use gate::{Gate, OpenGate};
pub use job::Job;
pub use outcome::JobResult;
pub use sip_resolver::{Outcome, TargetList};
pub use worker::Worker;
