//! A wire in memory to a server of a zone.
ghost use Rattle.std.specs.Prelude.{◌≡◌, IfOk, IfSome, length};
ghost use Rattle.dns_zone.specs.Servers.{RepliesTo};
ghost use Rattle.dns_queries.specs.Wires.{IsGiven};
ghost use Rattle.dns_zone.specs.ZoneWires.{IsReply};

use crate::zone::Zone;
use dns_queries::{DATAGRAM_LIMIT, Wire, WireFault};
use std::alloc::{AllocError, Global};
use std::collections::VecDeque;
use std::marker::Model;
use std::sync::atomic::{AtomicU64, Ordering};

/// The reply of a zone to octets that were sent.
#[derive(Drop)]
struct Reply {
    octets: Vec<u8>,
}

impl Model for Reply {
    ghost use Rattle.std.specs.Prelude.{List, ℕ};
    ghost use Rattle.dns_zone.specs.ZoneWires.{IsReply};

    ghost Value = { List ℕ };

    ghost view = { λ it. it.octets.items };

    ghost invariant = { λ it. IsReply it.octets.items };
}

impl Reply {
    /// The zone's reply to these octets, if it has one and there is memory for it.
    fn new(alloc: Global, zone: &Zone, sent: &[u8]) -> Option<Reply>
        ensures { IfSome result (RepliesTo zone.now sent.now) }
    {
        match zone.answer_datagram(alloc, sent) {
            Ok(Some(octets)) => Some(Reply { octets }),
            _ => None,
        }
    }

    /// Puts it in front of the buffer, and gives the number of its octets.
    fn copy_to(&self, buffer: &mut [u8; DATAGRAM_LIMIT]) -> usize
        ensures { IsGiven IsReply result buffer.new }
    {
        let count = self.octets.len().min(DATAGRAM_LIMIT);
        buffer[..count].copy_from_slice(&self.octets[..count]);
        count
    }
}

/// A wire in memory to a server of a zone, for tests and measurements.
///
/// It counts the datagrams that are sent. The zone's reply to each is given at once, each reply
/// once and in the order of what was sent; it is lost where there is no memory for it. No call
/// fails.
#[derive(Drop)]
pub struct ZoneWire<'a> {
    alloc: Global,
    zone: &'a Zone,
    sent: &'a AtomicU64,
    replies: VecDeque<Reply>,
}

impl<'a> Wire for ZoneWire<'a> {
    ghost use Rattle.dns_zone.specs.ZoneWires.{IsReply};

    ghost gives = { IsReply };

    ghost failed = { λ _. 0 };

    fn send(&mut self, octets: &[u8]) -> Result<(), WireFault> {
        self.sent.fetch_add(1, Ordering::SeqCst);
        if let Some(reply) = Reply::new(self.alloc, self.zone, octets) {
            let _ = self.replies.push_back(reply);
        }
        Ok(())
    }

    fn receive(&mut self, buffer: &mut [u8; DATAGRAM_LIMIT]) -> Result<Option<usize>, WireFault> {
        let Some(reply) = self.replies.pop_front() else {
            return Ok(None);
        };
        Ok(Some(reply.copy_to(buffer)))
    }

    fn failures(&self) -> u64 {
        0
    }
}

impl<'a> ZoneWire<'a> {
    /// A wire to this zone, which adds what is sent to this count.
    #[must_use]
    pub fn new(alloc: Global, zone: &'a Zone, sent: &'a AtomicU64) -> ZoneWire<'a> {
        ZoneWire {
            alloc,
            zone,
            sent,
            replies: VecDeque::new(alloc),
        }
    }

    /// This number of wires to one zone, all with the same count.
    pub fn several(
        alloc: Global,
        zone: &'a Zone,
        sent: &'a AtomicU64,
        count: usize,
    ) -> Result<Vec<ZoneWire<'a>>, AllocError>
        ensures { IfOk result (λ wires. length wires.items ≡ count) }
    {
        let mut wires = Vec::new(alloc);
        for _ in 0..count {
            wires.push(ZoneWire::new(alloc, zone, sent))?;
        }
        Ok(wires)
    }
}
