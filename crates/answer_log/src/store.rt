//! Stores of answers.
use dns_answers::{Answer, Moment};
use dns_message::Question;
use std::sync::Arc;

/// A store: the number of its seat, the question, the answer, and the moment at which it was
/// stored. A log says so; no value of it is made.
#[derive(Drop)]
pub struct Store {
    pub seat: u64,
    pub question: Question,
    pub answer: Answer,
    pub moment: Moment,
}

/// A store that is to be made: the number of its node, and what the store says.
#[derive(Clone, Copy)]
pub struct NewStore<'a> {
    pub node: u64,
    pub seat: u64,
    pub question: &'a Question,
    pub answer: &'a Arc<Answer>,
    pub moment: Moment,
}
