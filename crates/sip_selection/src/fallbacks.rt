//! A large request over UDP after all (RFC 3261 18.1.1).
ghost use Rattle.std.specs.Prelude.{◌≡◌, IfOk};
ghost use Rattle.std.specs.List.{filter_map};
ghost use Rattle.sip_selection.specs.Fallbacks as spec;

use crate::target::Target;
use sip_uri::Transport;
use std::alloc::{AllocError, Global};

/// A target over TCP, over UDP.
fn over_udp(target: Target) -> Option<Target>
    ensures { result ≡ spec.over_udp target }
{
    match target.transport {
        Transport::Tcp => Some(Target {
            transport: Transport::Udp,
            ..target
        }),
        Transport::Udp | Transport::Sctp | Transport::Tls => None,
    }
}

/// Those of targets that go over TCP, over UDP.
fn all_over_udp(alloc: Global, targets: &[Target]) -> Result<Vec<Target>, AllocError>
    ensures { IfOk result (λ all. all.items ≡ filter_map spec.over_udp targets.now) }
{
    let mut all = Vec::new(alloc);
    for target in targets {
        if let Some(target) = over_udp(*target) {
            all.push(target)?;
        }
    }
    Ok(all)
}

/// These targets, and behind them all those over TCP once more, over UDP: for a request that goes
/// over TCP because of its length alone. Where a server refuses the connection, it is to be tried
/// over UDP after all (RFC 3261 18.1.1). A `Failover` then gives those targets last.
pub fn with_udp_last(mut targets: Vec<Target>) -> Result<Vec<Target>, AllocError>
    ensures { IfOk result (λ all. all.items ≡ spec.with_udp_last targets.items) }
{
    let last = all_over_udp(*targets.allocator(), targets.as_slice())?;
    targets.extend_from_slice(last.as_slice())?;
    Ok(targets)
}
