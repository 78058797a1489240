//! The example of the page of `sip_selection`.
use crate::pages::answers::{answer, request};
use crate::seats::both;
use dns_answers::Answer;
use dns_message::Question;
use sip_selection::{Caps, Families, Next, Request, Selection};
use sip_uri::Transport::Udp;
use srv_choice::{WORD_COUNT, Words};
use std::alloc::Global;
use std::sync::Arc;

/// Random words, of which a request to a host with a port uses none.
const WORDS: Words = Words([0; WORD_COUNT]);

/// A caller that sends over UDP and IPv4 alone.
fn caller() -> Option<Caps> {
    let caps = Caps::new(&[Udp], Families::V4)?;
    Some(caps)
}

/// The choice of a request.
fn selection_of(alloc: Global, request: Request, caps: Caps, words: Words) -> Option<Selection> {
    let mut selection = Selection::new(alloc, request, caps, words).ok()?;
    Some(selection)
}

/// The question that is asked next.
fn asked(selection: &Selection) -> Option<Question> {
    // it asks for A of a.example., and a name server answers 192.0.2.7
    if let Next::Ask(question) = selection.next() {
        let question = question.try_clone().ok()?;
        return Some(question);
    }
    None
}

/// Gives the answer to a question.
fn give(
    alloc: Global,
    selection: &mut Selection,
    question: &Question,
    answer: Arc<Answer>,
) -> Option<()> {
    selection.give(alloc, question, answer).ok()?;
    Some(())
}

/// The port of the one target.
fn port_of(selection: &Selection) -> Option<u16> {
    match selection.next() {
        Next::Targets([target]) => Some(target.port),
        _ => None,
    }
}

/// That of a choice, once its question has its answer.
fn port_by(alloc: Global, selection: &mut Selection) -> Option<u16> {
    match both(asked(selection), answer(alloc, 60)) {
        Some((question, answer)) => {
            let given = give(alloc, selection, &question, answer);
            drop(question);
            given.and(port_of(selection))
        }
        None => None,
    }
}

/// That of a request.
fn port_to(alloc: Global, request: Request, caps: Caps) -> Option<u16> {
    match selection_of(alloc, request, caps, WORDS) {
        Some(mut selection) => {
            let port = port_by(alloc, &mut selection);
            drop(selection);
            port
        }
        None => None,
    }
}

/// That of `sip:a.example:5070`.
fn port(alloc: Global) -> Option<u16> {
    let caps = caller()?;
    port_to(alloc, request(alloc)?, caps)
}

#[test]
fn target_has_port(rt: HostRuntime) {
    assert_eq!(rt; port(rt.alloc()), Some(5070));
}
