//! A worker over wires in memory that lose what is sent, give it twice or late, forge it and fail.
ghost use Rattle.std.specs.Prelude.{◌≡◌, ◌+◌, ◌-◌, ◌^◌, ◌<◌, ◌≤◌};
ghost use Rattle.answer_cache.specs.Shared.{Belongs};

use crate::seats::both;
use crate::worker_jobs::{job_by, push_job, zone_with};
use crate::workers::one_worker;
use answer_cache::SharedCache;
use dns_answers::{Moment, ReplyRefusal};
use dns_message::{Kind, Question};
use dns_queries::{Clock, DATAGRAM_LIMIT, Wire, WireFault};
use dns_zone::Zone;
use sip_resolver::draw_words;
use sip_selection::{Caps, Families, Target};
use sip_uri::Address;
use sip_uri::Transport::Udp;
use sip_workers::{Job, OpenGate, Outcome, Worker};
use std::alloc::Global;
use std::collections::VecDeque;
use std::sync::Wait;
use std::sync::atomic::{AtomicU64, Ordering};

/// What a wire does with what it carries.
#[derive(Clone, Copy, Debug, PartialEq, Eq)]
enum Fault {
    /// It loses the first queries, so many of them.
    Loses(u64),
    /// It gives each reply twice.
    Doubles,
    /// Before each reply it gives one to another question, under the same id.
    Forges,
    /// Before each reply it gives random octets, half of the reply, and the reply with QR clear.
    Garbles,
    /// It gives nothing until a query is sent under another id than the first one.
    Holds,
    /// The send of this number fails.
    FailsSend(u64),
    /// The receive of this number fails.
    FailsReceive(u64),
}

/// What a wire has carried, and what it will give.
#[derive(Drop)]
struct Line<'a> {
    alloc: Global,
    zone: &'a Zone,
    fault: Fault,
    /// How many sends and how many receives there were.
    sends: u64,
    receives: u64,
    /// The id of the first query, and whether nothing is given yet.
    first: Option<[u8; 2]>,
    held: bool,
    replies: VecDeque<Vec<u8>>,
}

/// A wire with such a fault to a server of a zone.
#[derive(Drop)]
struct FaultyWire<'a> {
    line: Line<'a>,
    failures: u64,
}

/// The id of a message (RFC 1035 4.1.1).
fn id_of(octets: &[u8]) -> Option<[u8; 2]> {
    match octets {
        [high, low, ..] => Some([*high, *low]),
        _ => None,
    }
}

/// These octets with another one at this place, if there is memory for them.
fn changed(alloc: Global, octets: &[u8], place: usize, octet: u8) -> Option<Vec<u8>> {
    let mut all = Vec::from_slice(alloc, octets).ok()?;
    if place < all.len() {
        all[place] = octet;
    }
    Some(all)
}

/// The random octets of a number.
fn noise(alloc: Global, number: u64) -> Option<Vec<u8>> {
    let mut octets = Vec::new(alloc);
    for word in draw_words([7; 32], number).0.iter() {
        octets.extend_from_slice(&word.to_be_bytes()).ok()?;
    }
    Some(octets)
}

/// Puts a datagram in front of the buffer, and gives the number of its octets.
fn put(buffer: &mut [u8; DATAGRAM_LIMIT], octets: &[u8]) -> usize
    ensures { result ≤ 4096 }
{
    let count = octets.len().min(DATAGRAM_LIMIT);
    buffer[..count].copy_from_slice(&octets[..count]);
    count
}

impl<'a> Line<'a> {
    /// The zone's reply to a query.
    fn reply(&self, query: &[u8]) -> Option<Vec<u8>> {
        self.zone.answer_datagram(self.alloc, query).ok()?
    }

    /// Gives these octets later.
    fn give(&mut self, octets: Option<Vec<u8>>) {
        if let Some(octets) = octets {
            let _ = self.replies.push_back(octets);
        }
    }

    /// Gives the reply to a query, if there is one.
    fn give_reply(&mut self, query: &[u8]) {
        self.give(self.reply(query));
    }

    /// Gives the reply to another question under the id of this query. Its name is `a.example.`,
    /// whose `a` is its 14th octet (RFC 1035 4.1.2).
    fn forge(&mut self, query: &[u8]) {
        if let Some(other) = changed(self.alloc, query, 13, b'b') {
            self.give_reply(&other);
        }
    }

    /// Gives random octets, half of a reply, and the reply with QR clear, which is in its third
    /// octet (RFC 1035 4.1.1).
    fn garble(&mut self, reply: &[u8]) {
        self.give(noise(self.alloc, self.sends));
        self.give(Vec::from_slice(self.alloc, &reply[..reply.len() / 2]).ok());
        self.give(changed(self.alloc, reply, 2, 0));
    }

    /// Gives what is no reply to this query.
    fn disturb(&mut self, query: &[u8]) {
        match self.fault {
            Fault::Doubles => self.give_reply(query),
            Fault::Forges => self.forge(query),
            Fault::Garbles => {
                let reply = self.reply(query).unwrap_or(Vec::new(self.alloc));
                self.garble(&reply);
            }
            _ => {}
        }
    }

    /// Carries a query to the server, and tells whether it could be sent.
    fn send(&mut self, query: &[u8]) -> bool {
        self.sends = self.sends.wrapping_add(1);
        match self.fault {
            Fault::FailsSend(number) if self.sends == number => return false,
            Fault::Loses(count) if self.sends <= count => return true,
            Fault::Holds => self.hold(query),
            _ => {}
        }
        self.disturb(query);
        self.give_reply(query);
        true
    }

    /// Holds what there is, until a query comes under another id than the first one.
    fn hold(&mut self, query: &[u8]) {
        let id = id_of(query);
        if self.first.is_none() {
            self.first = id;
            self.held = true;
        }
        if id != self.first {
            self.held = false;
        }
    }

    /// Whether the next receive fails.
    fn fails(&mut self) -> bool {
        self.receives = self.receives.wrapping_add(1);
        self.fault == Fault::FailsReceive(self.receives)
    }

    /// What is given next.
    fn next(&mut self) -> Option<Vec<u8>> {
        if self.held {
            None
        } else {
            self.replies.pop_front()
        }
    }
}

impl<'a> FaultyWire<'a> {
    /// Counts a failure.
    fn fault(&mut self) -> WireFault
        requires { self.old.failures < 2 ^ 64 - 1 }
        ensures { self.new.failures ≡ self.old.failures + 1 }
    {
        self.failures += 1;
        WireFault
    }
}

impl<'a> Wire for FaultyWire<'a> {
    ghost use Rattle.std.specs.Prelude.{⊤};

    ghost gives = { λ _. ⊤ };

    ghost failed = { λ wire. wire.failures };

    fn send(&mut self, octets: &[u8]) -> Result<(), WireFault> {
        if self.line.send(octets) {
            Ok(())
        } else {
            Err(self.fault())
        }
    }

    fn receive(&mut self, buffer: &mut [u8; DATAGRAM_LIMIT]) -> Result<Option<usize>, WireFault> {
        if self.line.fails() {
            return Err(self.fault());
        }
        match self.line.next() {
            Some(octets) => Ok(Some(put(buffer, &octets))),
            None => Ok(None),
        }
    }

    fn failures(&self) -> u64 {
        self.failures
    }
}

/// A clock that moves on by a second with each 1,000 calls.
#[derive(Drop)]
struct CallClock {
    calls: AtomicU64,
}

impl Clock for CallClock {
    ghost use Rattle.std.specs.Prelude.{⊤};

    ghost shows = { λ _. ⊤ };

    fn now(&self) -> Moment {
        let calls = self.calls.fetch_add(1, Ordering::SeqCst);
        match Moment::new(calls / 1_000) {
            Some(moment) => moment,
            None => Moment::new(0).unwrap(),
        }
    }
}

/// A wire with this fault to the zone.
fn wire_to(alloc: Global, zone: &Zone, fault: Fault) -> FaultyWire<'_> {
    FaultyWire {
        line: Line {
            alloc,
            zone,
            fault,
            sends: 0,
            receives: 0,
            first: None,
            held: false,
            replies: VecDeque::new(alloc),
        },
        failures: 0,
    }
}

/// Such a clock, which begins now.
fn call_clock() -> CallClock {
    CallClock {
        calls: AtomicU64::new(0),
    }
}

/// What becomes of a request.
#[derive(Clone, Copy, Debug, PartialEq, Eq)]
enum End {
    /// It goes to 192.0.2 and this octet, over UDP, at the port of its URI.
    Goes(u8),
    /// Its question for A of a.example. was given up.
    GaveUp,
    /// The reply to its question was cut.
    Cut,
    /// Something else became of it.
    Other,
}

/// The name a.example. (RFC 1035 3.1)
const NAME: &[u8] = b"\x01a\x07example\x00";

/// What becomes of a request that goes to this address, at this port.
fn end_at(octets: [u8; 4], port: u16) -> End {
    if octets.starts_with(&[192, 0, 2]) && port == 5070 {
        End::Goes(octets[3])
    } else {
        End::Other
    }
}

/// What becomes of a request with these targets.
fn target_end(targets: &[Target]) -> End {
    let [target] = targets else {
        return End::Other;
    };
    match target.address {
        Address::V4(octets) => end_at(octets, target.port),
        Address::V6(_) => End::Other,
    }
}

/// What becomes of a request whose question has no answer.
fn given_up(question: &Question) -> End {
    if question.kind == Kind::A && question.name.wire() == NAME {
        End::GaveUp
    } else {
        End::Other
    }
}

/// What an outcome is.
fn end_of(outcome: &Outcome) -> End {
    match outcome {
        Outcome::Targets(list) => target_end(list.as_slice()),
        Outcome::NoAnswer(question) => given_up(question),
        Outcome::BadReply(_, ReplyRefusal::Truncated) => End::Cut,
        _ => End::Other,
    }
}

/// A job over UDP and both families, of which each is asked for.
fn job_to(alloc: Global, number: u64, text: &str) -> Option<Job> {
    job_by(alloc, number, text, Caps::new(&[Udp], Families::V4ThenV6)?)
}

/// A job to each of these.
fn jobs_to(alloc: Global, texts: &[&str]) -> Option<Vec<Job>> {
    let mut jobs = Vec::new(alloc);
    for (place, text) in texts.iter().enumerate() {
        push_job(&mut jobs, job_to(alloc, place as u64, text))?;
    }
    Some(jobs)
}

/// Whether these jobs end so in one batch.
fn batch_ends<R: Wait + AllocGlobal>(
    rt: &R,
    cache: &SharedCache,
    worker: &mut Worker<FaultyWire<'_>>,
    jobs: &[Job],
    clock: &CallClock,
    ends: &[End],
) -> bool
    requires { Belongs cache.now worker.old }
    ensures { Belongs cache.now worker.new }
{
    match worker.batch(rt, cache, jobs, clock, &OpenGate) {
        Ok(made) => {
            made.len() == ends.len()
                && made
                    .iter()
                    .zip(ends.iter())
                    .all(|(it, end)| end_of(it.outcome()) == *end)
        }
        Err(_) => false,
    }
}

/// Whether the first jobs end so in one batch, and the later ones in the next.
fn both_end<R: Wait + AllocGlobal>(
    rt: &R,
    cache: &SharedCache,
    worker: &mut Worker<FaultyWire<'_>>,
    first: &[Job],
    later: &[Job],
) -> bool
    requires { Belongs cache.now worker.old }
{
    let clock = call_clock();
    batch_ends(rt, cache, worker, first, &clock, &FIRST_ENDS)
        && batch_ends(rt, cache, worker, later, &clock, &LATER_ENDS)
}

/// Whether this job ends so in a batch of its own.
fn one_ends<R: Wait + AllocGlobal>(
    rt: &R,
    cache: &SharedCache,
    worker: &mut Worker<FaultyWire<'_>>,
    jobs: &[Job],
    end: End,
) -> bool
    requires { Belongs cache.now worker.old }
{
    batch_ends(rt, cache, worker, jobs, &call_clock(), &[end])
}

/// Whether the job ends so over this wire, where there is memory for a worker.
fn ends_over<R: Wait + AllocGlobal>(rt: &R, wire: FaultyWire<'_>, jobs: &[Job], end: End) -> bool {
    match one_worker(rt.alloc(), wire) {
        Some((cache, mut worker)) => one_ends(rt, &cache, &mut worker, jobs, end),
        None => false,
    }
}

/// Whether the first jobs and then the later ones end so over this wire.
fn both_over<R: Wait + AllocGlobal>(
    rt: &R,
    wire: FaultyWire<'_>,
    first: &[Job],
    later: &[Job],
) -> bool {
    match one_worker(rt.alloc(), wire) {
        Some((cache, mut worker)) => both_end(rt, &cache, &mut worker, first, later),
        None => false,
    }
}

/// Whether a request ends so over such a wire to this zone.
fn ends<R: Wait + AllocGlobal>(
    rt: &R,
    zone: &str,
    request: &str,
    fault: Fault,
    end: End,
) -> Option<bool> {
    let alloc = rt.alloc();
    match zone_with(alloc, zone, jobs_to(alloc, &[request])) {
        Some((zone, jobs)) => {
            let ends = ends_over(rt, wire_to(alloc, &zone, fault), &jobs, end);
            drop(jobs);
            drop(zone);
            Some(ends)
        }
        None => None,
    }
}

/// A zone with the name that is asked for, and another one for forged replies.
const ZONE: &str = "a.example. 300 A 192.0.2.7\nb.example. 300 A 192.0.2.8\n";

/// The request, which is ended by two questions: A and AAAA.
const REQUEST: &str = "sip:a.example:5070";

/// Faults, and what they leave of the request.
const ROWS: [(Fault, End); 7] = [
    (Fault::Loses(0), End::Goes(7)),
    (Fault::Loses(2), End::Goes(7)),
    (Fault::Loses(3), End::GaveUp),
    (Fault::Loses(u64::MAX), End::GaveUp),
    (Fault::Doubles, End::Goes(7)),
    (Fault::Forges, End::Goes(7)),
    (Fault::Garbles, End::Goes(7)),
];

/// The query for A of a.example. (RFC 1035 4.1.2)
const QUERY: &[u8] =
    b"\x12\x34\x01\x00\x00\x01\x00\x00\x00\x00\x00\x00\x01a\x07example\x00\x00\x01\x00\x01";

/// How many datagrams a wire gives after it has sent a query.
fn given_by(mut wire: FaultyWire<'_>) -> usize {
    wire.line.send(QUERY);
    let count = wire.line.replies.len();
    drop(wire);
    count
}

/// The same of such a wire to the zone.
fn given_after(alloc: Global, fault: Fault) -> Option<usize> {
    match Zone::read(alloc, ZONE) {
        Ok(zone) => {
            let count = given_by(wire_to(alloc, &zone, fault));
            drop(zone);
            Some(count)
        }
        Err(_) => None,
    }
}

/// The wires do what their faults say.
#[test]
fn datagrams_of_wires(rt: HostRuntime) {
    let rows = [
        (Fault::Loses(0), 1),
        (Fault::Loses(1), 0),
        (Fault::Doubles, 2),
        (Fault::Forges, 2),
        (Fault::Garbles, 4),
        (Fault::FailsSend(1), 0),
    ];
    for (fault, count) in rows {
        let given = given_after(rt.alloc(), fault);
        assert_eq!(rt; given, Some(count), "{fault:?}");
    }
}

#[test]
fn faulty_wires(rt: HostRuntime) {
    for (fault, end) in ROWS {
        let ended = ends(&rt, ZONE, REQUEST, fault, end);
        assert_eq!(rt; ended, Some(true), "{fault:?}");
    }
}

/// More calls than the request needs, so that in the end none fails.
const CALLS: u64 = 6;

#[test]
fn one_call_fails(rt: HostRuntime) {
    for number in 1..=CALLS {
        for fault in [Fault::FailsSend(number), Fault::FailsReceive(number)] {
            let ended = ends(&rt, ZONE, REQUEST, fault, End::Goes(7));
            assert_eq!(rt; ended, Some(true), "{fault:?}");
        }
    }
}

/// Twenty addresses, whose reply is longer than the 512 octets of a datagram (RFC 1035 4.2.1).
const TWENTY: &str = "\
m.example. 300 A 192.0.2.1
m.example. 300 A 192.0.2.2
m.example. 300 A 192.0.2.3
m.example. 300 A 192.0.2.4
m.example. 300 A 192.0.2.5
m.example. 300 A 192.0.2.6
m.example. 300 A 192.0.2.7
m.example. 300 A 192.0.2.8
m.example. 300 A 192.0.2.9
m.example. 300 A 192.0.2.10
m.example. 300 A 192.0.2.11
m.example. 300 A 192.0.2.12
m.example. 300 A 192.0.2.13
m.example. 300 A 192.0.2.14
m.example. 300 A 192.0.2.15
m.example. 300 A 192.0.2.16
m.example. 300 A 192.0.2.17
m.example. 300 A 192.0.2.18
m.example. 300 A 192.0.2.19
m.example. 300 A 192.0.2.20
";

#[test]
fn reply_that_is_cut(rt: HostRuntime) {
    let ended = ends(&rt, TWENTY, "sip:m.example:5060", Fault::Loses(0), End::Cut);
    assert_eq!(rt; ended, Some(true));
}

/// A request that is given up, and seven without a question.
const FIRST: [&str; 8] = [
    "sip:a.example:5070",
    "sip:192.0.2.1:5070",
    "sip:192.0.2.2:5070",
    "sip:192.0.2.3:5070",
    "sip:192.0.2.4:5070",
    "sip:192.0.2.5:5070",
    "sip:192.0.2.6:5070",
    "sip:192.0.2.9:5070",
];

/// What becomes of them.
const FIRST_ENDS: [End; 8] = [
    End::GaveUp,
    End::Goes(1),
    End::Goes(2),
    End::Goes(3),
    End::Goes(4),
    End::Goes(5),
    End::Goes(6),
    End::Goes(9),
];

/// Two whose questions are out when the replies to its queries come.
const LATER: [&str; 2] = ["sip:b.example:5070", "sip:a.example:5070"];

/// What becomes of them.
const LATER_ENDS: [End; 2] = [End::Goes(8), End::Goes(7)];

/// Whether these jobs and then the later ones end so.
fn late_ends_of<R: Wait + AllocGlobal>(rt: &R, first: &[Job], later: &[Job]) -> Option<bool> {
    match Zone::read(rt.alloc(), ZONE) {
        Ok(zone) => {
            let wire = wire_to(rt.alloc(), &zone, Fault::Holds);
            let end = both_over(rt, wire, first, later);
            drop(zone);
            Some(end)
        }
        Err(_) => None,
    }
}

/// Whether the first requests and then the later ones end so.
fn late_ends<R: Wait + AllocGlobal>(rt: &R) -> Option<bool> {
    let alloc = rt.alloc();
    match both(jobs_to(alloc, &FIRST), jobs_to(alloc, &LATER)) {
        Some((first, later)) => {
            let ends = late_ends_of(rt, &first, &later);
            drop(first);
            drop(later);
            ends
        }
        None => None,
    }
}

#[test]
fn late_replies(rt: HostRuntime) {
    assert_eq!(rt; late_ends(&rt), Some(true));
}
