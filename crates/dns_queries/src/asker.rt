//! The questions that were sent, from the first time until the wait for a reply ends.
ghost use Rattle.std.specs.Prelude.{◌≡◌, ◌≤◌, ◌↔◌, [], None, slice_get, IfErr, IfNone, IfOk, IfSome, IsSome, IsTrue, MatchOption, OnErr, length};
ghost use Rattle.std.specs.List.{All};
ghost use Rattle.std.specs.Option.{option_map};
ghost use Rattle.dns_answers.specs.Replies.{reply_refusal};
ghost use Rattle.dns_queries.specs.Events.{Asks, Dues, EndsBy, IsNoReply, MayWant, Means, closed, left_by};
ghost use Rattle.dns_queries.specs.Out.{HasQuestion, IsOctetsOf, LacksQuestion, sends_in};
ghost use Rattle.dns_queries.specs.Tickets.{IsAsking, ticket_of, usual};

use crate::incoming::{Due, Ending, Incoming, Why};
use crate::refusal::AskRefusal;
use crate::schedule::Schedule;
use crate::tickets::Tickets;
use dns_answers::{Moment, ReplyRefusal, answer_of};
use dns_message::{Message, Question, message_in};
use std::alloc::{AllocError, Global};
use std::marker::Model;

/// The questions that wait for their replies, each known by the id of its messages.
#[derive(Drop)]
pub struct Asker {
    alloc: Global,
    tickets: Tickets,
}

impl Model for Asker {
    ghost use Rattle.dns_queries.specs.Tickets.{Asking};
    ghost use Rattle.dns_queries.specs.Listed.{asking_of};

    ghost Value = { Asking };

    ghost view = { λ it. asking_of it.tickets.schedule it.tickets.list };
}

impl Asker {
    ghost use Rattle.std.specs.Borrow.{sem};
    ghost use Rattle.std.specs.Io.BufRead.{Rests};
    ghost use Rattle.dns_queries.specs.contracts.asker.Asker.{the_row};

    /// An asker without questions, which sends by the usual schedule (`Schedule::USUAL`). At most
    /// this number of questions wait at once; the tickets are numbered from the serial on.
    pub fn new(alloc: Global, limit: usize, serial: u64) -> Result<Asker, AllocError>
        requires some { 1 ≤ limit }
        requires few { limit ≤ 4096 }
        ensures { IfOk result (λ it. it
            ≡ record { tickets = []; limit = limit; serial = serial; schedule = usual }) }
    {
        Asker::with_schedule(alloc, limit, serial, Schedule::USUAL)
    }

    /// An asker without questions, which sends by this schedule. At most this number of questions
    /// wait at once; the tickets are numbered from the serial on.
    pub fn with_schedule(
        alloc: Global,
        limit: usize,
        serial: u64,
        schedule: Schedule,
    ) -> Result<Asker, AllocError>
        requires some { 1 ≤ limit }
        requires few { limit ≤ 4096 }
        requires sends { (1 ≤ schedule.sends) × (schedule.sends ≤ 15) }
        requires wait { (1 ≤ schedule.wait) × (schedule.wait ≤ 60) }
        ensures { IfOk result (λ it. it
            ≡ record { tickets = []; limit = limit; serial = serial; schedule = schedule }) }
    {
        Ok(Asker {
            alloc,
            tickets: Tickets::new(alloc, limit, serial, schedule)?,
        })
    }

    /// A law: the tickets are ordered by deadline, each has an id of its own and was sent at least
    /// once and at most as often as the schedule says, and they are no more than the limit. A call
    /// does nothing; its contract states this.
    pub fn law_stands_in_order(&self)
        ensures { IsAsking self.now }
    {
        self.tickets.law_stands_in_order();
    }

    /// Whether a question waits for its reply under this id.
    #[must_use]
    pub fn is_open(&self, id: u16) -> bool
        ensures { IsTrue result ↔ IsSome (ticket_of id self.now.tickets) }
    {
        self.tickets.pending_id_of(id).is_some()
    }

    /// How many questions wait for their replies.
    #[must_use]
    pub fn len(&self) -> usize
        ensures { result ≡ length self.now.tickets }
    {
        self.tickets.len()
    }

    /// Whether as many questions wait as the limit allows.
    #[must_use]
    pub fn is_full(&self) -> bool
        ensures { IsTrue result ↔ (length self.now.tickets ≡ self.now.limit) }
    {
        self.tickets.is_full()
    }

    /// The id under which this question waits for its reply, if it does.
    #[must_use]
    pub fn id_of(&self, question: &Question) -> Option<u16>
        ensures { MatchOption result (LacksQuestion question.now self.now.tickets)
            (λ id. HasQuestion question.now id self.now.tickets) }
    {
        self.tickets.id_of(question)
    }

    /// The octets of the question that waits for its reply under this id.
    #[must_use]
    pub fn octets_of(&self, id: u16) -> Option<&[u8]>
        ensures { MatchOption result (ticket_of id self.now.tickets ≡ None)
            (λ octets. IsOctetsOf octets.now id self.now.tickets) }
    {
        match self.tickets.pending_id_of(id) {
            Some(at) => Some(self.tickets.octets_at(at)),
            None => None,
        }
    }

    /// How many times the question was sent that waits for its reply under this id. 0: none does.
    #[must_use]
    pub fn sends_of(&self, id: u16) -> u8
        ensures { result ≡ sends_in (ticket_of id self.now.tickets) }
    {
        match self.tickets.pending_id_of(id) {
            Some(at) => self.tickets.sends_at(at),
            None => 0,
        }
    }

    /// The least deadline of the questions that wait: the second at which `due` next has something
    /// to say, counted as moments are. It may be 2^48, which is no moment.
    #[must_use]
    pub fn next_due(&self) -> Option<u64>
        ensures first { result ≡ option_map (λ it. it.deadline) (slice_get self.now.tickets 0) }
        ensures least { IfSome result
            (λ it. All (λ ticket. it ≤ ticket.deadline) self.now.tickets) }
    {
        self.tickets.first_deadline()
    }

    /// Asks a question under an id that is not open, and gives the octets to send for it.
    pub fn ask(&mut self, question: Question, id: u16, now: Moment) -> Result<&[u8], AskRefusal>
        ensures* asks { sem 𝓛 (Rests the_row self.entry
            (λ ended. Asks self.old ended id question now result)) }
    {
        match self.tickets.open(self.alloc, question, id, now) {
            Ok(at) => Ok(self.tickets.octets_at(at)),
            Err(refusal) => Err(refusal),
        }
    }

    /// Takes octets that came in, and says what they mean for the questions that wait.
    pub fn incoming(&mut self, octets: &[u8]) -> Result<Incoming, AllocError>
        ensures means { IfOk result (λ it. Means self.old octets.now it) }
        ensures left { IfOk result (λ it. self.new ≡ left_by it self.old) }
        ensures unchanged { OnErr result (self.new ≡ self.old) }
        ensures wanted { OnErr result (MayWant self.old octets.now) }
    {
        let Some(message) = message_in(self.alloc, octets)? else {
            return Ok(Incoming::Ignored(Why::NotSpelled));
        };
        let Some(at) = self.tickets.pending_id_of(message.header.id) else {
            return Ok(Incoming::Ignored(Why::UnknownId));
        };
        let ending = match ending_of(self.alloc, self.tickets.question_at(at), &message)? {
            Ok(ending) => ending,
            Err(why) => return Ok(Incoming::Ignored(why)),
        };
        let (id, question) = self.tickets.close(at);
        Ok(Incoming::Ended(id, question, ending))
    }

    /// Ends the wait for the reply to the question that waits under this id, and gives the
    /// question. None where no question waits under it: then all stays as it was. A reply that
    /// comes later is ignored. Takes no memory.
    pub fn cancel(&mut self, id: u16) -> Option<Question>
        ensures given { MatchOption result (ticket_of id self.old.tickets ≡ None)
            (λ question. HasQuestion question id self.old.tickets) }
        ensures left { self.new ≡ closed id self.old }
        ensures unchanged { IfNone result (self.new ≡ self.old) }
    {
        match self.tickets.pending_id_of(id) {
            Some(at) => {
                let (_, question) = self.tickets.close(at);
                Some(question)
            }
            None => None,
        }
    }

    /// What is to be done at a moment about the first question whose reply did not come in time.
    /// There may be more such questions: the caller calls it again until it gives nothing. Takes no
    /// memory.
    #[must_use]
    pub fn due(&mut self, now: Moment) -> Option<Due<'_>>
        ensures* dues { sem 𝓛 (Rests the_row self.entry (λ ended. Dues self.old ended now result)) }
    {
        match self.tickets.take_overdue(now) {
            Some(overdue) => Some(self.tickets.due_of(overdue)),
            None => None,
        }
    }
}

/// How the wait for a reply to a question ends by a message, or why the message is no reply to it.
fn ending_of(
    alloc: Global,
    question: &Question,
    message: &Message,
) -> Result<Result<Ending, Why>, AllocError>
    ensures ends { IfOk result (λ it. IfOk it (EndsBy question.now message.now)) }
    ensures ignored { IfOk result (λ it. IfErr it (IsNoReply question.now message.now)) }
    ensures wanted { OnErr result (reply_refusal question.now message.now ≡ None) }
{
    match answer_of(alloc, question, message) {
        Ok(answer) => Ok(Ok(Ending::Answered(answer))),
        Err(ReplyRefusal::NotReply) => Ok(Err(Why::NotReply)),
        Err(ReplyRefusal::OtherQuestion) => Ok(Err(Why::OtherQuestion)),
        Err(ReplyRefusal::Memory) => Err(AllocError),
        Err(fault) => Ok(Ok(Ending::Faulty(fault))),
    }
}
