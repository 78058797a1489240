//! The server: one datagram after the other is answered from a zone.
ghost use Rattle.std.specs.Prelude.{◌-◌, ◌^◌, ◌<◌};
ghost use Rattle.dns_zone.specs.Servers.{RepliesTo, Round, Serves};

use crate::zone::Zone;
use dns_queries::{DATAGRAM_LIMIT, PeerWire};
use std::alloc::Global;
use std::sync::Wait;
use std::sync::atomic::{AtomicBool, Ordering};

/// Receives once, sends the zone's reply to what came, and tells whether one was sent.
fn round<W: PeerWire>(
    alloc: Global,
    wire: &mut W,
    zone: &Zone,
    buffer: &mut [u8; DATAGRAM_LIMIT],
) -> bool
    requires { W.failed wire.old < 2 ^ 64 - 1 }
    ensures { Round W.does (RepliesTo zone.now) wire.old wire.new result }
{
    let Ok(Some((count, peer))) = wire.receive(buffer) else {
        return false;
    };
    let Ok(Some(reply)) = zone.answer_datagram(alloc, &buffer[..count]) else {
        return false;
    };
    wire.send(&reply, peer).is_ok()
}

/// Answers what the wire receives from the zone, until `stop` is set, and gives the number of
/// replies that were sent.
///
/// After each receive, and the reply to what came, `stop` is read, and where it is set the run
/// ends. So what came last is still answered, and the wire has to come back from a receive now and
/// then. A datagram is left unanswered where the zone has no reply, and where the wire or the
/// memory fails. The run also ends where the faults of the wire, or the replies, have reached
/// `u64::MAX`.
pub fn serve<R: Wait, W: PeerWire>(
    rt: &R,
    alloc: Global,
    wire: &mut W,
    zone: &Zone,
    stop: &AtomicBool,
) -> u64
    ensures { Serves W.does (RepliesTo zone.now) wire.old result wire.new }
{
    let mut buffer = [0; DATAGRAM_LIMIT];
    let mut sent = 0;
    for _ in rt.forever() {
        if wire.failures() == u64::MAX || sent == u64::MAX {
            break;
        }
        if round(alloc, wire, zone, &mut buffer) {
            sent += 1;
        }
        if stop.load(Ordering::SeqCst) {
            break;
        }
    }
    sent
}
