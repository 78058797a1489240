//! The tries of a request's targets, one after the other (RFC 3263 4.3): which of the servers are
//! there.
//!
//! `try_targets` asks the server at each target in turn by a `Pinger`. A 503, a closed port, a
//! connection that failed, what is no message, and silence lead to the next target; any other final
//! reply ends the tries, since that server is there. Or each target is tried, as `Extent` says. A
//! target over TLS or SCTP is not asked: its try says so, and the next one follows.
//!
//! `ServerPinger` asks over the sockets of this host: an OPTIONS request (RFC 3261 11.1) to the URI
//! of the server itself, which has its address and port and no user.
//!
//! The tries are those of `sip_selection::Failover`: its definitions say which targets are tried by
//! the events so far, and where the tries end. `Tries::succeeded` says whether all is well.
//!
//! Read `specs/Turns.antt`: what a try tells, and which targets are tried.
#![tactic(auto)]

mod found;
mod pinger;
mod server_pinger;
mod server_uri;
mod tries;
mod turns;

pub use found::{Found, TargetTry};
pub use pinger::{Pinger, over_of};
pub use server_pinger::{PingForm, ServerPinger, random_pings};
pub use tries::{Extent, Tries};
pub use turns::try_targets;
