//! The example of the page of `dns_queries`.
use crate::pages::answers::{REPLY, question};
use dns_answers::Moment;
use dns_message::Question;
use dns_queries::{Asker, Due, Ending, Incoming};
use std::alloc::Global;

/// An asker of at most eight questions at once.
fn asker_of(alloc: Global) -> Option<Asker> {
    let mut asker = Asker::new(alloc, 8, 0).ok()?;
    Some(asker)
}

/// Whether the query of a question begins with its id.
fn is_sent(asker: &mut Asker, question: Question, now: Moment) -> Option<bool> {
    // the octets to send, which begin with the id
    let query = asker.ask(question, 0x1234, now).ok()?;
    let sent = query.starts_with(b"\x12\x34");
    Some(sent)
}

/// Whether it is sent again later.
fn is_resent(asker: &mut Asker, later: Moment) -> bool {
    // a second later nothing came in
    let again = matches!(asker.due(later), Some(Due::Resend(0x1234, _)));
    again
}

/// Whether octets answer it.
fn is_answered(asker: &mut Asker, octets: &[u8]) -> Option<bool> {
    // the octets of a reply
    let heard = asker.incoming(octets).ok()?;
    let answered = matches!(heard, Incoming::Ended(0x1234, _, Ending::Answered(_)));
    Some(answered)
}

/// Whether a question that is asked is sent again later, and then answered by octets, where there
/// is memory for it.
fn is_resent_and_answered(
    asker: &mut Asker,
    question: Question,
    octets: &[u8],
    now: Moment,
    later: Moment,
) -> Option<[bool; 3]> {
    let sent = is_sent(asker, question, now)?;
    let again = is_resent(asker, later);
    let answered = is_answered(asker, octets)?;
    Some([sent, again, answered])
}

/// The same a second later, by a new asker.
fn is_answered_by_new(alloc: Global, question: Question, octets: &[u8]) -> Option<[bool; 3]> {
    let (now, later) = (Moment::new(10)?, Moment::new(11)?);
    match asker_of(alloc) {
        Some(mut asker) => {
            let seen = is_resent_and_answered(&mut asker, question, octets, now, later);
            drop(asker);
            seen
        }
        None => None,
    }
}

/// The same of A of a.example.
fn example(alloc: Global) -> Option<[bool; 3]> {
    is_answered_by_new(alloc, question(alloc)?, REPLY)
}

#[test]
fn query_is_resent_and_answered(rt: HostRuntime) {
    assert_eq!(rt; example(rt.alloc()), Some([true; 3]));
}
