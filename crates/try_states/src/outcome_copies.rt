//! Copies of what became of a request.
use dns_message::{Kind, Question};
use dns_name::Name;
use sip_workers::Outcome;
use std::alloc::Global;

/// A question.
fn question(alloc: Global) -> Option<Question> {
    Some(Question {
        name: Name::from_text(alloc, "a.example").ok()?,
        kind: Kind::Naptr,
    })
}

/// The question that a copy says has no answer.
fn copied(alloc: Global, outcome: &Outcome) -> Option<Question> {
    match outcome.try_clone(alloc).ok()? {
        Outcome::NoAnswer(question) => Some(question),
        _ => None,
    }
}

#[test]
fn no_answer_is_copied(rt: HostRuntime) {
    let outcome = question(rt.alloc()).map(Outcome::NoAnswer);
    let copy = outcome.and_then(|outcome| copied(rt.alloc(), &outcome));
    assert!(rt; copy.is_some() && copy == question(rt.alloc()));
}
