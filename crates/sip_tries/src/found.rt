//! What the try of a target found.
ghost use Rattle.std.specs.Prelude.{◌≡◌};
ghost use Rattle.sip_tries.specs.Turns as spec;

use sip_ping::{Answer, Reply};
use sip_selection::{Event, Failure, Target};

/// The status of a server that takes no request now (RFC 3261 21.5.4).
const UNAVAILABLE: u16 = 503;

/// What the try of a target found.
#[derive(Clone, Copy, Debug, PartialEq, Eq)]
pub enum Found {
    /// The server was asked, with this answer.
    Asked(Answer),
    /// It was not asked, since requests go neither over TLS nor over SCTP.
    Untried,
}

/// The try of a target.
#[derive(Clone, Copy, Debug, PartialEq, Eq)]
pub struct TargetTry {
    /// The target.
    pub target: Target,
    /// What was found there.
    pub found: Found,
}

/// What a final reply means for the tries.
fn event_of_reply(reply: Reply) -> Event
    ensures { result ≡ spec.event_of_reply reply }
{
    if reply.status == UNAVAILABLE {
        Event::Failed(Failure::Status503)
    } else {
        Event::Responded
    }
}

/// What an answer means for the tries.
fn event_of_answer(answer: Answer) -> Event
    ensures { result ≡ spec.event_of_answer answer }
{
    match answer {
        Answer::Replied(reply) => event_of_reply(reply),
        Answer::Silent => Event::Failed(Failure::Timeout),
        Answer::Refused => Event::Failed(Failure::Transport),
        Answer::Unreadable => Event::Failed(Failure::Transport),
    }
}

/// The milliseconds after which a final reply was there that is no 503.
fn time_of_reply(reply: Reply) -> Option<u64>
    ensures { result ≡ spec.time_of_reply reply }
{
    if reply.status == UNAVAILABLE {
        None
    } else {
        Some(reply.after)
    }
}

impl Found {
    /// What it means for the tries (RFC 3263 4.3): the next target follows, or this server is
    /// there.
    pub fn event(self) -> Event
        ensures { result ≡ spec.event_of self }
    {
        match self {
            Found::Asked(answer) => event_of_answer(answer),
            Found::Untried => Event::Failed(Failure::Transport),
        }
    }

    /// Whether the server is there: a final reply came, and no 503.
    pub fn is_there(self) -> bool
        ensures { result ≡ spec.is_there self }
    {
        match self.event() {
            Event::Responded => true,
            Event::Failed(_) => false,
        }
    }

    /// Whether the server was asked, and is not there.
    pub fn is_missing(self) -> bool
        ensures { result ≡ spec.is_missing self }
    {
        match self {
            Found::Asked(_) => !self.is_there(),
            Found::Untried => false,
        }
    }

    /// The milliseconds after which the final reply was there of a server that is there.
    pub fn time(self) -> Option<u64>
        ensures { result ≡ spec.time_of self }
    {
        match self {
            Found::Asked(Answer::Replied(reply)) => time_of_reply(reply),
            _ => None,
        }
    }
}
