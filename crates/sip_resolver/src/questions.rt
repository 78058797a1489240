//! The questions that are out, over datagrams and over streams.
ghost use Rattle.std.specs.Prelude.{◌≡◌, ◌⊎◌, ℕ, ◌≤◌, ◌↔◌, [], None, Err, IfErr, IfNone, IfOk, IfSome, IsTrue, MatchOption, OnErr};
ghost use Rattle.answer_cache.specs.Seats.{SeatView};
ghost use Rattle.std.specs.List.{All};
ghost use Rattle.dns_queries.specs.Events.{MayWant, Means, Refuses, asked as asked_too, closed as closed_in, left_by};
ghost use Rattle.dns_queries.specs.Out.{HasQuestion, LacksQuestion};
ghost use Rattle.dns_queries.specs.Tickets.{ticket_of};
ghost use Rattle.sip_resolver.specs.Ends.{EndsMore};
ghost use Rattle.dns_queries.specs.declared.refusal.AskRefusal.TheVariants as refusals;
ghost use Rattle.sip_resolver.specs.Idle.{AreAwaited, AreTaken, HasMore, HasNoRoom, IsFull, IsInWait, IsOut, MayRefuse};
ghost use Rattle.sip_resolver.specs.Questions.{AreDistinct, IsLeast, IsScheduled, IsSent, Lacks, asked_over, asking_over, closed_both, closed_over, count_out, deadlines_of, left_over, none_out, schedule_of};
ghost use Rattle.sip_resolver.specs.QuestionTables.{IsIndex, id_in};
ghost use Rattle.sip_resolver.specs.Requests.{AreSame, Stand};
ghost use Rattle.sip_resolver.specs.Sends.{GivesUpBoth, IsInTime, SendsAfter, tickets_of};

use crate::facts::Facts;
use crate::ids::Ids;
use crate::question_table::QuestionTable;
use crate::requests::Requests;
use crate::rounding::later_of;
use crate::transmit::{DnsTransport, Transmit};
use crate::waits::next_resend;
use answer_cache::AnswerBook;
use dns_answers::Moment;
use dns_message::{Question, law_same_questions_are_equal};
use dns_queries::{AskRefusal, Asker, Incoming, Schedule};
use std::alloc::{AllocError, Global};
use std::marker::Model;

/// How many ids are drawn at most for a question: one more than the questions that can be out.
const DRAW_LIMIT: usize = 8_193;

/// The questions that are out. No two have one id, no two are one question, and all are sent by one
/// schedule.
#[derive(Drop)]
pub(crate) struct Questions {
    datagrams: Asker,
    streams: Asker,
    /// The ids of those over datagrams.
    datagram_ids: QuestionTable,
    /// The ids of those over streams.
    stream_ids: QuestionTable,
}

impl Model for Questions {
    ghost use Rattle.sip_resolver.specs.Idle.{AreAwaited, AreTaken, IsFull, IsInWait, IsOut, MayRefuse};
    ghost use Rattle.sip_resolver.specs.Questions.{QuestionsView};
    ghost use Rattle.sip_resolver.specs.QuestionTables.{AreIndexed};

    ghost Value = { QuestionsView };

    ghost view = { λ it. record { datagrams = it.datagrams; streams = it.streams } };

    ghost invariant = { λ it. AreIndexed
        (record { datagrams = it.datagrams; streams = it.streams })
        it.datagram_ids it.stream_ids };
}

impl Questions {
    /// None. At most so many are out over datagrams, and as many over streams.
    pub(crate) fn new(
        alloc: Global,
        limit: usize,
        schedule: Schedule,
    ) -> Result<Questions, AllocError>
        requires some { 1 ≤ limit }
        requires few { limit ≤ 4096 }
        requires sends { (1 ≤ schedule.sends) × (schedule.sends ≤ 15) }
        requires wait { (1 ≤ schedule.wait) × (schedule.wait ≤ 60) }
        ensures { IfOk result (λ it. it ≡ none_out limit schedule) }
    {
        Ok(Questions {
            datagrams: Asker::with_schedule(alloc, limit, 0, schedule)?,
            streams: Asker::with_schedule(alloc, limit, 0, schedule)?,
            datagram_ids: QuestionTable::new(alloc),
            stream_ids: QuestionTable::new(alloc),
        })
    }

    /// A law: no two of them have one id, no two are one question, and all are sent by one
    /// schedule.
    pub(crate) fn law_stand_in_order(&self)
        ensures distinct { AreDistinct self.now }
        ensures scheduled { IsScheduled self.now }
    {
        let _ = &self.datagrams;
    }

    /// How many there are.
    pub(crate) fn len(&self) -> usize
        ensures is { result ≡ count_out self.now }
        ensures few { result ≤ 8192 }
    {
        self.datagrams.law_stands_in_order();
        self.streams.law_stands_in_order();
        self.datagrams.len() + self.streams.len()
    }

    /// Whether as many are out over datagrams, or over streams, as can be.
    pub(crate) fn is_full(&self) -> bool
        ensures { IsTrue result ↔ IsFull self.now }
    {
        self.datagrams.is_full() || self.streams.is_full()
    }

    /// Whether as many are out over this as can be.
    fn is_full_over(&self, over: DnsTransport) -> bool
        ensures { IsTrue result ↔ HasNoRoom (asking_over over self.now) }
    {
        match over {
            DnsTransport::Datagram => self.datagrams.is_full(),
            DnsTransport::Stream => self.streams.is_full(),
        }
    }

    /// Whether a question is out under this id.
    pub(crate) fn is_out(&self, id: u16) -> bool
        ensures { IsTrue result ↔ IsOut id self.now }
    {
        self.datagrams.is_open(id) || self.streams.is_open(id)
    }

    /// The id under which this question is out, if it is.
    pub(crate) fn id_of(&self, question: &Question) -> Option<u16>
        ensures lacks { result ≡ None → Lacks question.now self.now }
        ensures out { IfSome result (λ id. IsOut id self.now) }
    {
        if let Some(id) = self.datagram_ids.get(question) {
            return Some(id);
        }
        self.stream_ids.get(question)
    }

    /// Asks a question that is not out, and gives its id. Where as many are out as can be, no id is
    /// drawn.
    pub(crate) fn ask<I: Ids>(
        &mut self,
        over: DnsTransport,
        ids: &mut I,
        question: &Question,
        now: Moment,
    ) -> Result<u16, AskRefusal>
        requires { Lacks question.now self.old }
        ensures asked { IfOk result
            (λ id. self.new ≡ asked_over over id question.now now self.old) }
        ensures unchanged { OnErr result (self.new ≡ self.old) }
        ensures full { HasNoRoom (asking_over over self.old)
            → (result ≡ Err refusals.Full) × (ids.new ≡ ids.old) }
        ensures refused { IfErr result (MayRefuse I.draws self.old) }
    {
        if self.is_full_over(over) {
            return Err(AskRefusal::Full);
        }
        let Some(id) = self.free_id(ids) else {
            return Err(AskRefusal::IdTaken);
        };
        match over {
            DnsTransport::Datagram => asked(
                &mut self.datagrams,
                &mut self.datagram_ids,
                question,
                id,
                now,
            ),
            DnsTransport::Stream => {
                asked(&mut self.streams, &mut self.stream_ids, question, id, now)
            }
        }
    }

    /// The first id that is drawn and that no question is out under, if one is among so many.
    fn free_id<I: Ids>(&self, ids: &mut I) -> Option<u16>
        ensures datagrams { IfSome result
            (λ id. ticket_of id self.now.datagrams.tickets ≡ None) }
        ensures streams { IfSome result
            (λ id. ticket_of id self.now.streams.tickets ≡ None) }
        ensures taken { IfNone result (AreTaken I.draws self.now) }
    {
        self.datagrams.law_stands_in_order();
        self.streams.law_stands_in_order();
        'draws: for _draw in 0..DRAW_LIMIT {
            let id = ids.draw();
            if !self.is_out(id) {
                return Some(id);
            }
        }
        None
    }

    /// Takes octets that came in over this.
    pub(crate) fn incoming(
        &mut self,
        over: DnsTransport,
        octets: &[u8],
    ) -> Result<Incoming, AllocError>
        ensures means { IfOk result (Means (asking_over over self.old) octets.now) }
        ensures left { IfOk result (λ it. self.new ≡ left_over over it self.old) }
        ensures unchanged { OnErr result (self.new ≡ self.old) }
        ensures wanted { OnErr result (MayWant (asking_over over self.old) octets.now) }
    {
        match over {
            DnsTransport::Datagram => heard(&mut self.datagrams, &mut self.datagram_ids, octets),
            DnsTransport::Stream => heard(&mut self.streams, &mut self.stream_ids, octets),
        }
    }

    /// Closes the question of this id, if one is out under it, and gives it, and over what it was
    /// out.
    pub(crate) fn take(&mut self, id: u16) -> Option<(DnsTransport, Question)>
        ensures { MatchOption result ((self.new ≡ self.old) × (IsOut id self.old → ⊥))
            (λ taken. (self.new ≡ closed_over taken.0 id self.old)
            × HasQuestion taken.1 id (asking_over taken.0 self.old).tickets) }
    {
        if let Some(question) = taken(&mut self.datagrams, &mut self.datagram_ids, id) {
            return Some((DnsTransport::Datagram, question));
        }
        match taken(&mut self.streams, &mut self.stream_ids, id) {
            Some(question) => Some((DnsTransport::Stream, question)),
            None => None,
        }
    }

    /// Closes the question of this id, over what it is out.
    pub(crate) fn close(&mut self, id: u16)
        ensures { self.new ≡ closed_both id self.old }
    {
        let _over_datagrams = taken(&mut self.datagrams, &mut self.datagram_ids, id);
        let _over_streams = taken(&mut self.streams, &mut self.stream_ids, id);
    }

    /// Gives up the questions that were sent as often as the schedule says and whose replies did
    /// not come in time, until one is to be sent once more, and gives its id. It counts as sent at
    /// the later one of the moments.
    pub(crate) fn next_resend<B: AnswerBook, F: Facts>(
        &mut self,
        requests: &mut Requests<B>,
        now: Moment,
        asked: Moment,
    ) -> Option<u16>
        ensures stand { (seat : SeatView) → Stand F.gives F.shows seat requests.old
            → Stand F.gives F.shows seat requests.new }
        ensures same { AreSame requests.old requests.new }
        ensures ready { HasMore requests.old.ready requests.new.ready }
        ensures ends { EndsMore (IsInTime (schedule_of self.old) (tickets_of self.old) now)
            requests.old.ended requests.new.ended }
        ensures sends { MatchOption result (GivesUpBoth now self.old self.new)
            (λ id. SendsAfter now asked id requests.new.waiting self.old self.new) }
        ensures datagrams { IfNone result (All (IsInWait now) self.new.datagrams.tickets) }
        ensures streams { IfNone result (All (IsInWait now) self.new.streams.tickets) }
        ensures awaited { AreAwaited requests.old self.old → AreAwaited requests.new self.new }
    {
        self.datagrams.law_stands_in_order();
        self.streams.law_stands_in_order();
        let sent = later_of(now, asked);
        if let Some(id) = next_resend::<B, F>(
            &mut self.datagrams,
            &mut self.datagram_ids,
            requests,
            now,
            sent,
        ) {
            return Some(id);
        }
        next_resend::<B, F>(&mut self.streams, &mut self.stream_ids, requests, now, sent)
    }

    /// The octets of the question that is out under this id, and over what it is.
    pub(crate) fn transmit_of(&self, id: u16) -> Option<Transmit<'_>>
        ensures { IsSent id self.now result }
    {
        if let Some(octets) = self.datagrams.octets_of(id) {
            return Some(Transmit {
                octets,
                id,
                over: DnsTransport::Datagram,
                send: self.datagrams.sends_of(id),
            });
        }
        let octets = self.streams.octets_of(id)?;
        Some(Transmit {
            octets,
            id,
            over: DnsTransport::Stream,
            send: self.streams.sends_of(id),
        })
    }

    /// The least deadline of those that are out.
    pub(crate) fn next_due(&self) -> Option<u64>
        ensures { IsLeast (deadlines_of self.now) result }
    {
        let Some(datagram) = self.datagrams.next_due() else {
            return self.streams.next_due();
        };
        let Some(stream) = self.streams.next_due() else {
            return Some(datagram);
        };
        if datagram <= stream {
            Some(datagram)
        } else {
            Some(stream)
        }
    }
}

/// Asks a question under an id that is not open, and gives it this id in the table. The table has
/// its memory before.
fn asked(
    asker: &mut Asker,
    ids: &mut QuestionTable,
    question: &Question,
    id: u16,
    now: Moment,
) -> Result<u16, AskRefusal>
    ensures asked { IfOk result
        (λ it. (it ≡ id) × (asker.new ≡ asked_too id question.now now asker.old)) }
    ensures unchanged { OnErr result (asker.new ≡ asker.old) }
    ensures refused { IfErr result
        (λ refusal. Refuses asker.old id refusal ⊎ (refusal ≡ refusals.Memory)) }
    ensures index { LacksQuestion question.now asker.old.tickets
        → ticket_of id asker.old.tickets ≡ None → IsIndex (id_in ids.old) asker.old.tickets
        → IsIndex (id_in ids.new) asker.new.tickets }
{
    law_same_questions_are_equal();
    let Ok(key) = question.try_clone() else {
        return Err(AskRefusal::Memory);
    };
    let Ok(question) = question.try_clone() else {
        return Err(AskRefusal::Memory);
    };
    if ids.reserve().is_err() {
        return Err(AskRefusal::Memory);
    }
    match asker.ask(question, id, now) {
        Ok(_) => {
            ids.insert(key, id);
            Ok(id)
        }
        Err(refusal) => Err(refusal),
    }
}

/// Takes octets that came in. Where they end the wait for a reply, its question leaves the table.
fn heard(asker: &mut Asker, ids: &mut QuestionTable, octets: &[u8]) -> Result<Incoming, AllocError>
    ensures means { IfOk result (Means asker.old octets.now) }
    ensures left { IfOk result (λ it. asker.new ≡ left_by it asker.old) }
    ensures unchanged { OnErr result (asker.new ≡ asker.old) }
    ensures wanted { OnErr result (MayWant asker.old octets.now) }
    ensures index { IsIndex (id_in ids.old) asker.old.tickets
        → IsIndex (id_in ids.new) asker.new.tickets }
{
    law_same_questions_are_equal();
    let heard = asker.incoming(octets)?;
    if let Incoming::Ended(_, question, _) = &heard {
        ids.remove(question);
    }
    Ok(heard)
}

/// Closes the question of this id, if one is open under it, and gives it. It leaves the table.
fn taken(asker: &mut Asker, ids: &mut QuestionTable, id: u16) -> Option<Question>
    ensures given { MatchOption result (ticket_of id asker.old.tickets ≡ None)
        (λ question. HasQuestion question id asker.old.tickets) }
    ensures left { asker.new ≡ closed_in id asker.old }
    ensures unchanged { IfNone result (asker.new ≡ asker.old) }
    ensures index { IsIndex (id_in ids.old) asker.old.tickets
        → IsIndex (id_in ids.new) asker.new.tickets }
{
    law_same_questions_are_equal();
    let question = asker.cancel(id)?;
    ids.remove(&question);
    Some(question)
}
