//! A question that was sent and has no reply yet.
ghost use Rattle.std.specs.Prelude.{◌≡◌, ◌↔◌, ◌<◌, IfOk, IsTrue};
ghost use Rattle.dns_queries.specs.Events.{sent_again, sent_octets};

use dns_message::{Question, write_query};
use std::alloc::{AllocError, Global};
use std::marker::Model;

/// A question that was sent, its octets, and how many times it was sent.
#[derive(Drop)]
pub(crate) struct Ticket {
    id: u16,
    question: Question,
    octets: Vec<u8>,
    sends: u8,
}

impl Model for Ticket {
    ghost use Rattle.dns_queries.specs.Tickets.{Sent};

    ghost Value = { Sent };

    ghost use Rattle.dns_queries.specs.Kept.{HasItsOctets};

    ghost view = { λ it. record { id = it.id; question = it.question; sends = it.sends } };

    ghost invariant = { λ it. HasItsOctets it };
}

impl Ticket {
    /// A question that is sent for the first time.
    pub(crate) fn new(alloc: Global, id: u16, question: Question) -> Result<Ticket, AllocError>
        ensures { IfOk result (λ it. it ≡ record { id = id; question = question; sends = 1 }) }
    {
        let octets = write_query(alloc, id, &question)?;
        Ok(Ticket {
            id,
            question,
            octets,
            sends: 1,
        })
    }

    /// Its id.
    pub(crate) fn id(&self) -> u16
        ensures { result ≡ self.now.id }
    {
        self.id
    }

    /// The question.
    pub(crate) fn question(&self) -> &Question
        ensures { result.now ≡ self.now.question }
    {
        &self.question
    }

    /// The octets that are sent.
    pub(crate) fn octets(&self) -> &[u8]
        ensures { result.now ≡ sent_octets self.now.id self.now.question }
    {
        self.octets.as_slice()
    }

    /// How many times it was sent.
    pub(crate) fn sends(&self) -> u8
        ensures { result ≡ self.now.sends }
    {
        self.sends
    }

    /// Whether it may be sent once more, where a question is sent so many times at most.
    pub(crate) fn may_be_sent_again(&self, limit: u8) -> bool
        ensures { IsTrue result ↔ (self.now.sends < limit) }
    {
        self.sends < limit
    }

    /// Counts one send more.
    pub(crate) fn send_again(&mut self)
        requires { self.old.sends < 255 }
        ensures { self.new ≡ sent_again self.old }
    {
        self.sends += 1;
    }

    /// Its id and its question.
    pub(crate) fn into_parts(self) -> (u16, Question)
        ensures { result ≡ (self.id, self.question) }
    {
        (self.id, self.question)
    }
}
