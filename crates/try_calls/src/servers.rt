//! The server of `dns_zone`, over a wire that gives what lines say.
ghost use Rattle.std.specs.Prelude.{◌≡◌, ◌+◌, ◌-◌, ◌^◌, ◌<◌, ◌≤◌};

use crate::fields::keep;
use crate::lookups::{push_line, zone_of};
use dns_queries::{DATAGRAM_LIMIT, PeerWire, WireFault};
use dns_zone::{Zone, serve};
use row_fields::{Fault, Output, number64, octets, split_word};
use std::alloc::Global;
use std::sync::Wait;
use std::sync::atomic::{AtomicBool, Ordering};

/// What a receive does.
#[derive(Drop)]
enum Receipt {
    /// It gives the octets of a peer.
    Datagram(u8, Vec<u8>),
    /// It gives nothing.
    Nothing,
    /// It fails.
    Fault,
}

/// What lines say of a wire, and of the server's zone.
#[derive(Drop)]
struct Setting {
    zone: String,
    receipts: Vec<Receipt>,
    /// The peer to whom each send fails.
    unreachable: u8,
    /// How often the wire has failed before.
    failures: u64,
}

/// A wire whose receives are given. The last one sets `stop`.
#[derive(Drop)]
struct LineWire<'a> {
    receipts: &'a [Receipt],
    stop: &'a AtomicBool,
    unreachable: u8,
    failures: u64,
    /// What was sent, as lines.
    sent: Output,
}

/// Puts a datagram in front of the buffer.
fn put(buffer: &mut [u8; DATAGRAM_LIMIT], octets: &[u8]) -> usize
    ensures { result ≤ 4096 }
{
    let count = octets.len().min(DATAGRAM_LIMIT);
    buffer[..count].copy_from_slice(&octets[..count]);
    count
}

/// Writes what is sent to a peer.
fn push_sent(sent: &mut Output, octets: &[u8], peer: u8) {
    sent.push("to ");
    sent.push_number(u64::from(peer));
    sent.push(" ");
    sent.push_octets_line(octets);
}

impl<'a> LineWire<'a> {
    /// Counts a failure.
    fn fault(&mut self) -> WireFault
        requires { self.old.failures < 2 ^ 64 - 1 }
        ensures { self.new.failures ≡ self.old.failures + 1 }
    {
        self.failures += 1;
        WireFault
    }

    /// What the next receive does.
    fn next_receipt(&mut self) -> Option<&'a Receipt>
        ensures { self.new.failures ≡ self.old.failures }
    {
        let (first, rest) = self.receipts.split_first()?;
        self.receipts = rest;
        if rest.is_empty() {
            self.stop.store(true, Ordering::SeqCst);
        }
        Some(first)
    }

    /// Notes what is sent to a peer.
    fn note(&mut self, octets: &[u8], peer: u8)
        ensures { self.new.failures ≡ self.old.failures }
    {
        push_sent(&mut self.sent, octets, peer);
    }
}

impl<'a> PeerWire for LineWire<'a> {
    type Peer = u8;

    ghost use Rattle.std.specs.Prelude.{⊤};

    ghost gives = { λ _. ⊤ };

    ghost failed = { λ wire. wire.failures };

    ghost does = { λ _ _ _. ⊤ };

    fn send(&mut self, octets: &[u8], peer: u8) -> Result<(), WireFault> {
        if peer == self.unreachable {
            return Err(self.fault());
        }
        self.note(octets, peer);
        Ok(())
    }

    fn receive(
        &mut self,
        buffer: &mut [u8; DATAGRAM_LIMIT],
    ) -> Result<Option<(usize, u8)>, WireFault> {
        match self.next_receipt() {
            Some(Receipt::Datagram(peer, octets)) => Ok(Some((put(buffer, octets), *peer))),
            Some(Receipt::Fault) => Err(self.fault()),
            _ => Ok(None),
        }
    }

    fn failures(&self) -> u64 {
        self.failures
    }
}

/// The number of a peer.
fn peer_of(field: &str) -> Result<u8, Fault> {
    field.parse::<u8>().map_err(|_| Fault::Form)
}

/// The receipt of a datagram: its peer, and its octets.
fn datagram(alloc: Global, rest: &str) -> Result<Receipt, Fault> {
    let (peer, field) = split_word(rest);
    let peer = peer_of(peer)?;
    Ok(Receipt::Datagram(peer, octets(alloc, field)?))
}

impl Setting {
    /// A wire that gives nothing, and a zone without records.
    fn new(alloc: Global) -> Setting {
        Setting {
            zone: String::new(alloc),
            receipts: Vec::new(alloc),
            unreachable: 0,
            failures: 0,
        }
    }

    /// Takes a receipt.
    fn receive(&mut self, receipt: Receipt) -> Result<(), Fault> {
        keep(&mut self.receipts, receipt)
    }

    /// Takes what a line says.
    fn take(&mut self, alloc: Global, line: &str) -> Result<(), Fault> {
        let (word, rest) = split_word(line);
        match word {
            "zone" => return push_line(&mut self.zone, rest),
            "unreachable" => self.unreachable = peer_of(rest)?,
            "failures" => self.failures = number64(rest)?,
            "from" => return self.receive(datagram(alloc, rest)?),
            "nothing" => return self.receive(Receipt::Nothing),
            "fault" => return self.receive(Receipt::Fault),
            _ => return Err(Fault::Form),
        }
        Ok(())
    }

    /// What lines say.
    fn read(alloc: Global, input: &str) -> Result<Setting, Fault> {
        let mut setting = Setting::new(alloc);
        for line in input.lines() {
            setting.take(alloc, line)?;
        }
        Ok(setting)
    }
}

/// What a server sends over such a wire, as lines, and in the end how much it says that it sent,
/// and how often the wire failed.
pub(crate) fn served<R: Wait>(rt: &R, output: &mut Output, input: &str) -> Result<(), Fault> {
    let alloc = output.alloc();
    let setting = Setting::read(alloc, input)?;
    let zone = zone_of(alloc, &setting.zone)?;
    let stop = AtomicBool::new(false);
    let wire = LineWire {
        receipts: setting.receipts.as_slice(),
        stop: &stop,
        unreachable: setting.unreachable,
        failures: setting.failures,
        sent: Output::new(alloc),
    };
    let text = served_over(rt, alloc, wire, &zone, &stop);
    output.push_done(text);
    drop(zone);
    drop(setting);
    Ok(())
}

/// The same over this wire.
fn served_over<R: Wait>(
    rt: &R,
    alloc: Global,
    mut wire: LineWire<'_>,
    zone: &Zone,
    stop: &AtomicBool,
) -> Result<String, Fault> {
    let count = serve(rt, alloc, &mut wire, zone, stop);
    let LineWire {
        mut sent,
        failures,
        ..
    } = wire;
    sent.push_made(format!(in alloc; "replies {count}, failures {failures}\n"));
    sent.finish()
}
