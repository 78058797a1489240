//! Many workers at once: each resolves requests over a wire of its own (RFC 3263 4 and 5), in a
//! thread of its own, and all share one cache.
//!
//! `run_workers` runs a `Worker` (`sip_worker`) for each seat, and gives what became of each job,
//! in order. The batches go through a bounded channel under a rule, from which a worker that is
//! free takes the next one. `gather` puts results in the order of their jobs. The names of
//! `sip_worker` are here too.
//!
//! Read `specs/Runs.antt` first: what a run of many workers gives, then `specs/Rules.antt`: the
//! rule of the channel, and `specs/Gathers.antt`: when results are those of some jobs.
#![tactic(auto)]

mod batch;
mod gather_refusal;
mod gathering;
mod history;
mod part;
mod putting;
mod queue;
mod refusal;
mod report;
mod run;
mod threads;

pub use gather_refusal::GatherRefusal;
pub use gathering::gather;
pub use refusal::RunRefusal;
pub use run::run_workers;
pub use sip_worker::{Gate, Job, JobResult, OpenGate, Outcome, TargetList, Worker};
