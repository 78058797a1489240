//! The example of the page of `dns_asker`: a question to a server in memory.
use crate::pages::answers::question;
use crate::seats::both;
use dns_answers::Moment;
use dns_asker::{Asker, DATAGRAM_LIMIT, Ending, Incoming, Wire, Zone, ZoneWire};
use dns_message::Question;
use std::alloc::Global;
use std::sync::atomic::AtomicU64;

/// A name and its address, as a line of a zone (RFC 1035 5.1).
const ZONE: &str = "a.example. 300 A 192.0.2.7";

/// Whether a server in memory answers a question from a zone.
fn is_answered(alloc: Global, zone: &Zone, question: Question, now: Moment) -> Option<bool> {
    let sent = AtomicU64::new(0);
    // a wire in memory to a server of the zone
    let mut wire = ZoneWire::new(alloc, zone, &sent);
    let heard = heard_over(alloc, &mut wire, question, now);
    drop(wire);
    is_answer(heard)
}

/// Whether something was heard, and is an answer.
fn is_answer(heard: Option<Incoming>) -> Option<bool> {
    match heard {
        Some(heard) => {
            let answered = matches!(&heard, Incoming::Ended(0x1234, _, Ending::Answered(_)));
            drop(heard);
            Some(answered)
        }
        None => None,
    }
}

/// What a new asker hears over a wire for a question, where there is memory for it.
fn heard_over(
    alloc: Global,
    wire: &mut ZoneWire<'_>,
    question: Question,
    now: Moment,
) -> Option<Incoming> {
    match Asker::new(alloc, 8, 0) {
        Ok(mut asker) => {
            let heard = exchange(wire, &mut asker, question, now);
            drop(asker);
            heard
        }
        Err(_) => None,
    }
}

/// What comes back over a wire for a question that is sent over it, where anything does.
fn exchange(
    wire: &mut ZoneWire<'_>,
    asker: &mut Asker,
    question: Question,
    now: Moment,
) -> Option<Incoming> {
    let mut buffer = [0; DATAGRAM_LIMIT];
    // what an asker sends for a question goes over the wire
    let query = asker.ask(question, 0x1234, now).ok()?;
    wire.send(query).ok()?;
    // and so does the reply, which the asker hears
    let count = wire.receive(&mut buffer).ok()??;
    let heard = asker.incoming(&buffer[..count]).ok()?;
    Some(heard)
}

/// The same of A of a.example.
fn example(alloc: Global) -> Option<bool> {
    let now = Moment::new(10)?;
    match both(Zone::read(alloc, ZONE).ok(), question(alloc)) {
        Some((zone, question)) => {
            let answered = is_answered(alloc, &zone, question, now);
            drop(zone);
            answered
        }
        None => None,
    }
}

#[test]
fn server_in_memory_answers(rt: HostRuntime) {
    assert_eq!(rt; example(rt.alloc()), Some(true));
}
