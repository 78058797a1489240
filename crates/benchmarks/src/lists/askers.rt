//! How long an asker of many open questions takes to hear a reply.
use dns_answers::Moment;
use dns_message::{Kind, Question};
use dns_name::Name;
use dns_queries::{Asker, Ending, Incoming};
use std::alloc::Global;
use std::time::{Clock, Instant};

/// How many questions are open.
pub(crate) const OPEN: [usize; 4] = [1, 16, 64, 256];

/// How many rounds are measured.
const ROUNDS: usize = 2_000;

/// How far the next id is from the last one. It is odd, so that each question has its own.
const STRIDE: usize = 40_503;

/// A reply for the A records of a.example. under the id 0.
const REPLY: [u8; 43] =
    *b"\x00\x00\x81\x80\x00\x01\x00\x01\x00\x00\x00\x00\x01a\x07example\x00\x00\x01\x00\x01\xc0\x0c\
    \x00\x01\x00\x01\x00\x00\x01\x2c\x00\x04\xc0\x00\x02\x07";

/// The id of a question.
fn id_at(at: usize) -> u16 {
    (at % 256 * STRIDE % 65_536) as u16
}

/// Asks for the A records of a.example.
fn ask(alloc: Global, asker: &mut Asker, id: u16) -> Option<()> {
    let name = Name::from_text(alloc, "a.example").ok()?;
    let question = Question {
        name,
        kind: Kind::A,
    };
    asker.ask(question, id, Moment::new(0)?).ok()?;
    Some(())
}

/// Whether octets are the answer to a question.
fn is_answer(asker: &mut Asker, octets: &[u8]) -> bool {
    matches!(
        asker.incoming(octets),
        Ok(Incoming::Ended(_, _, Ending::Answered(_)))
    )
}

/// The reply under an id.
fn reply_of(id: u16) -> [u8; 43] {
    let mut reply = REPLY;
    [reply[0], reply[1]] = id.to_be_bytes();
    reply
}

/// Hears a reply. Gives how long that took, in nanoseconds, with a reading of the clock.
fn hear<R: Clock>(rt: &R, asker: &mut Asker, reply: &[u8; 43]) -> Option<u128> {
    let start = Instant::now(rt).ok()?;
    let answered = is_answer(asker, reply);
    let time = start.elapsed(rt).ok()?;
    answered.then_some(time.as_nanos())
}

/// Hears a reply to each question and asks it anew. Gives how long the hearing took, in
/// nanoseconds, each with a reading of the clock.
fn round<R: Clock + AllocGlobal>(rt: &R, asker: &mut Asker, open: usize) -> Option<u128> {
    let mut nanoseconds = 0u128;
    for at in 0..open {
        let id = id_at(at);
        let time = hear(rt, asker, &reply_of(id))?;
        nanoseconds = nanoseconds.saturating_add(time);
        ask(rt.alloc(), asker, id)?;
    }
    Some(nanoseconds)
}

/// The nanoseconds of the fastest round of an asker, with so many open questions.
fn measured_by<R: Clock + AllocGlobal>(rt: &R, asker: &mut Asker, open: usize) -> Option<u128> {
    for at in 0..open {
        ask(rt.alloc(), asker, id_at(at))?;
    }
    let mut least = round(rt, asker, open)?;
    for _ in 1..ROUNDS {
        least = least.min(round(rt, asker, open)?);
    }
    Some(least)
}

/// The nanoseconds of the fastest round, with so many open questions, at most 256.
pub(crate) fn measured<R: Clock + AllocGlobal>(rt: &R, open: usize) -> Option<u128> {
    match Asker::new(rt.alloc(), 256, 0) {
        Ok(mut asker) => measured_by(rt, &mut asker, open),
        Err(_) => None,
    }
}
