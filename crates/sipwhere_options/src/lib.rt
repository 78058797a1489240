//! What `sipwhere` is asked to do: its command line, its options, and whom and how it asks by them.
//!
//! `command` is the command line, and `read_options` gives the `Options` that its words say.
//! `read_plan` gives the `Plan`: which servers are asked, and how, by these and by the resolver
//! file. `reply_times_of` is how long replies are waited for by a plan, and `schedule_of` how long
//! a resolver waits. `RunFault` is what ends a run before anything is asked.
//!
//! Read `specs/CommandLine.antt` first: what each word says. `specs/Plans.antt` says whom to ask,
//! and `specs/Timings.antt` how often, and for how long.
#![tactic(auto)]

mod command_line;
mod options;
mod pinging;
mod plan;
mod run_fault;
mod seed;
mod server_text;
mod terminals;
mod timing;

pub use command_line::command;
pub use options::{Detail, OptionFault, Options, Timing, read_options};
pub use pinging::Pinging;
pub use plan::{Plan, read_plan, resolver_path};
pub use run_fault::RunFault;
pub use terminals::Terminals;
pub use timing::{reply_times_of, schedule_of};
