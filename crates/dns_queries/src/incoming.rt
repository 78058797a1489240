//! What octets that came in mean, and what a moment asks for.
use dns_answers::{Answer, ReplyRefusal};
use dns_message::Question;

/// What octets that came in mean for the questions that wait.
#[derive(Debug, Drop)]
pub enum Incoming {
    /// The question of this id waits no longer.
    Ended(u16, Question, Ending),
    /// The octets are no reply to a question that waits. All stays as it was.
    Ignored(Why),
}

/// How the wait for a reply ends.
#[derive(Debug, Drop)]
pub enum Ending {
    /// The reply has this answer.
    Answered(Answer),
    /// The reply was cut (`Truncated`), or its RCODE is neither 0 nor 3 (`ServerFault`).
    Faulty(ReplyRefusal),
}

/// Why octets are no reply to a question that waits, in the order of the checks.
#[derive(Clone, Copy, Debug, PartialEq, Eq)]
pub enum Why {
    /// There are more than 65,535 octets, or the octets begin with no message.
    NotSpelled,
    /// No question of the message's id waits.
    UnknownId,
    /// The message is no reply to a standard query.
    NotReply,
    /// The message does not repeat the question of this id alone.
    OtherQuestion,
}

/// What is to be done about a question whose reply did not come in time.
#[derive(Debug, Drop)]
pub enum Due<'a> {
    /// The octets of the question of this id are to be sent once more.
    Resend(u16, &'a [u8]),
    /// The question of this id was sent as often as the schedule says, and waits no longer.
    GaveUp(u16, &'a Question),
}
