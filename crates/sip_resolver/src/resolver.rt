//! The machine: what comes in, and what it leads to.
ghost use Rattle.std.specs.Prelude.{◌≡◌, ◌↔◌, ◌+◌, ◌<◌, ℕ, ◌≤◌, ◌⊎◌, [], IfErr, IfNone, IfOk, IfSome, IsTrue, MatchOption, OnErr, OnOk};
ghost use Rattle.std.specs.Bool.{OnFalse};
ghost use Rattle.std.specs.List.{All, Contains, sum_by};
ghost use Rattle.answer_cache.specs.Seats.{GoesOn, SeatView, StoresNothing};
ghost use Rattle.dns_answers.specs.Records.{kind_of};
ghost use Rattle.dns_answers.specs.declared.refusal.ReplyRefusal.TheVariants as refusals;
ghost use Rattle.dns_queries.specs.Events.{MayWant};
ghost use Rattle.dns_queries.specs.Tickets.{usual};
ghost use Rattle.dns_queries.specs.declared.incoming.Ending.TheVariants as endings;
ghost use Rattle.sip_locator.specs.Replies.{Answers};
ghost use Rattle.srv_choice.specs.Draws.{words_of};
ghost use Rattle.sip_resolver.specs.Cancels.{questions_left, requests_with, requests_without};
ghost use Rattle.sip_resolver.specs.Ends.{EndsMore, IsByChoice, IsByReply, IsMemory};
ghost use Rattle.sip_resolver.specs.Expiries.{timeouts_of};
ghost use Rattle.sip_resolver.specs.Idle.{AreAwaited, CannotAsk, IsIdle, IsOut, IsTurn};
ghost use Rattle.sip_resolver.specs.Outcomes.{IsOutcome, Sought};
ghost use Rattle.sip_resolver.specs.Questions.{IsLeast, asking_over, count_out, schedule_of};
ghost use Rattle.sip_resolver.specs.Requests.{AreSame, IsAwaitedBy, IsBack, Stand, count_of, numbers_of, weight};
ghost use Rattle.sip_resolver.specs.Restarts.{restarted};
ghost use Rattle.sip_resolver.specs.Resolvers.{Closes, Expires, GivesUpOn, HandsIn, HasRoomFor, Hears, IsCut, IsEnded, IsTaken, LeavesSeat, Polls, RefusesSubmit, begun_of, with_request};
ghost use Rattle.sip_resolver.specs.Sends.{GivesUpBoth, IsInTime, SendsAfter, SendsFirst, tickets_of};
ghost use Rattle.sip_resolver.specs.Settles.{GetsAnswer, GoesByReply, SettlesAll};
ghost use Rattle.sip_resolver.specs.Tasks.{IsCounted, sought_of};
ghost use Rattle.sip_resolver.specs.Works.{HandsBy, IsAtMostOne, MayHand, Works};

use crate::asks::wait_for_answer;
use crate::cancels::{remove_not_waiting, remove_waiting};
use crate::expiries::{expire_held, expire_ready, expire_waiting};
use crate::facts::Facts;
use crate::ids::Ids;
use crate::outcome::Resolved;
use crate::questions::Questions;
use crate::queue::least_of;
use crate::ready::{Lead, Ready};
use crate::refusal::SubmitRefusal;
use crate::requests::Requests;
use crate::restarts::restart_all;
use crate::transmit::{DnsTransport, Transmit};
use crate::waits::{WaitEnd, settle_all};
use answer_cache::{AnswerBook, Stores};
use dns_answers::{Answer, Moment, ReplyRefusal, law_answers_are_bounded};
use dns_message::Question;
use dns_queries::{Ending, Incoming, Schedule, Why};
use sip_selection::{Caps, Request};
use srv_choice::RandomWords;
use std::alloc::{AllocError, Global};
use std::marker::{Model, PhantomData};
use std::snapshot::Snapshot;
use std::sync::Arc;

/// How many requests and questions a resolver has at once.
#[derive(Clone, Copy, Debug)]
pub struct Limits {
    /// The most requests that are inside, from 1 to 65,536. One that ended counts until its outcome
    /// is taken.
    pub requests: usize,
    /// The most questions that are out over datagrams, and the most over streams, from 1 to 4,096.
    pub questions: usize,
    /// Whether a question goes on over a stream where the reply to it over a datagram was cut. Else
    /// the requests that wait for it end.
    pub streams: bool,
}

/// What octets that came in meant.
#[derive(Clone, Copy, Debug, PartialEq, Eq)]
pub enum ReplyOutcome {
    /// The octets ended the wait for the reply to a question.
    Reply,
    /// The octets are a reply that was cut: its question goes over a stream next.
    Cut,
    /// The octets are no reply to a question that is out, and all stays as it was.
    Ignored(Why),
}

/// Whether the reply was cut.
fn is_cut(ending: &Ending) -> bool
    ensures { IsTrue result ↔ (ending.now ≡ endings.Faulty refusals.Truncated) }
{
    matches!(ending, Ending::Faulty(ReplyRefusal::Truncated))
}

/// Many requests at once, each on its way to its targets.
#[derive(Drop)]
pub struct Resolver<B, F, I> {
    alloc: Global,
    questions: Questions,
    ids: I,
    requests: Requests<B>,
    streams: bool,
    facts: PhantomData<F>,
}

impl<B, F, I> Model for Resolver<B, F, I> {
    ghost use Rattle.sip_resolver.specs.Resolvers.{ResolverView};

    ghost Value = { ResolverView };

    ghost view = { λ it. record {
      requests = it.requests;
      questions = it.questions;
      streams = it.streams;
    } };
}

impl<B: AnswerBook, F: Facts, I: Ids + Drop> Resolver<B, F, I> {
    ghost use Rattle.std.specs.Borrow.{sem};
    ghost use Rattle.std.specs.Io.BufRead.{Rests};
    ghost use Rattle.sip_resolver.specs.contracts.resolver.Resolver.{the_row};

    /// A resolver with no request inside and no question out, which sends by the usual schedule
    /// (`Schedule::USUAL`).
    pub fn new(alloc: Global, limits: Limits, ids: I) -> Result<Resolver<B, F, I>, AllocError>
        requires requests { (1 ≤ limits.requests) × (limits.requests ≤ 65536) }
        requires questions { (1 ≤ limits.questions) × (limits.questions ≤ 4096) }
        ensures { IfOk result
            (λ it. it ≡ begun_of limits.requests limits.questions limits.streams usual) }
    {
        Resolver::with_schedule(alloc, limits, Schedule::USUAL, ids)
    }

    /// A resolver with no request inside and no question out, which sends by this schedule.
    pub fn with_schedule(
        alloc: Global,
        limits: Limits,
        schedule: Schedule,
        ids: I,
    ) -> Result<Resolver<B, F, I>, AllocError>
        requires requests { (1 ≤ limits.requests) × (limits.requests ≤ 65536) }
        requires questions { (1 ≤ limits.questions) × (limits.questions ≤ 4096) }
        requires sends { (1 ≤ schedule.sends) × (schedule.sends ≤ 15) }
        requires wait { (1 ≤ schedule.wait) × (schedule.wait ≤ 60) }
        ensures { IfOk result
            (λ it. it ≡ begun_of limits.requests limits.questions limits.streams schedule) }
    {
        Ok(Resolver {
            alloc,
            questions: Questions::new(alloc, limits.questions, schedule)?,
            ids,
            requests: Requests::new(alloc, limits.requests)?,
            streams: limits.streams,
            facts: PhantomData,
        })
    }

    /// Whether there is room for one more request.
    #[must_use]
    pub fn has_room(&self) -> bool
        ensures { IsTrue result ↔ (count_of self.now.requests < self.now.requests.limit) }
    {
        self.requests.has_room()
    }

    /// Whether no request is inside: the outcome of each that was submitted was taken.
    #[must_use]
    pub fn is_empty(&self) -> bool
        ensures { IsTrue result ↔ (count_of self.now.requests ≡ 0) }
    {
        self.requests.is_empty()
    }

    /// How many requests are inside. One that ended counts until its outcome is taken.
    #[must_use]
    pub fn request_count(&self) -> usize
        ensures is { result ≡ count_of self.now.requests }
        ensures few { result ≤ 65536 }
    {
        self.requests.len()
    }

    /// How many questions are out, over datagrams and over streams.
    #[must_use]
    pub fn question_count(&self) -> usize
        ensures is { result ≡ count_out self.now.questions }
        ensures few { result ≤ 8192 }
    {
        self.questions.len()
    }

    /// Whether a request of this number is inside, or has an outcome that was not taken.
    #[must_use]
    pub fn has(&self, number: u64) -> bool
        ensures { IsTrue result ↔ Contains (numbers_of self.now.requests) number }
    {
        self.requests.has(number)
    }

    /// Takes a request in, under a number that its outcome will have.
    ///
    /// `until` is the moment by which it ends: a `poll_transmit` at that moment or later ends it,
    /// whatever replies came, by the answers that it has, or with `NoAnswer` and the question whose
    /// answer it needs next. `None`: it ends when its questions do.
    pub fn submit(
        &mut self,
        number: u64,
        request: Request,
        caps: Caps,
        words: &RandomWords<'_>,
        until: Option<Moment>,
    ) -> Result<(), SubmitRefusal>
        ensures submitted { OnOk result
            (self.new ≡ with_request number request caps (words_of words.now) until self.old) }
        ensures room { OnOk result (HasRoomFor self.old number) }
        ensures refused { IfErr result (RefusesSubmit self.old number) }
        ensures stand { (seat : SeatView) → Stand F.gives F.shows seat self.old.requests
            → Stand F.gives F.shows seat self.new.requests }
        ensures unchanged { OnErr result (self.new ≡ self.old) }
    {
        if !self.requests.has_room() {
            return Err(SubmitRefusal::Full);
        }
        if self.requests.has(number) {
            return Err(SubmitRefusal::NumberTaken);
        }
        let task = Ready::new(self.alloc, number, request, caps, words, until)?;
        self.requests.add(task);
        Ok(())
    }

    /// The octets to send next, if there are any now. The caller calls it again until it gives
    /// none.
    ///
    /// First each request ends whose moment (`submit`) has come by `now`. The question that it
    /// waited for is closed, and not sent again, where no other request waits for it. Then
    /// questions whose replies did not come in time are sent once more, or given up where they were
    /// sent as often as the schedule says. Then each request that is held goes on, while another
    /// question can be asked, and then each that can, by what the book has.
    ///
    /// Moments are whole seconds, and most calls come between two of them. `now` is the time
    /// rounded down: what was due by then is due, and the book is read at it. `asked` is the time
    /// rounded up (`rounded_up`): a question that is sent counts as sent then, and is due when the
    /// wait of the schedule is over. So it is not sent again in less than that many full seconds.
    /// Where `asked` comes before `now`, one that is sent again counts as sent at `now`.
    pub fn poll_transmit(
        &mut self,
        book: &B,
        seat: &mut B::Seat,
        now: Moment,
        asked: Moment,
    ) -> Option<Transmit<'_>>
        requires made_here { B.belongs book.now seat.old }
        requires shown { F.shows now }
        requires stand { Stand F.gives F.shows (B.shown seat.old) self.old.requests }
        ensures stays { B.belongs book.now seat.new }
        ensures goes_on { GoesOn (B.shown seat.old) (B.shown seat.new) }
        ensures stores_nothing { StoresNothing (B.shown seat.old) (B.shown seat.new) }
        ensures* polls { sem 𝓛 (Rests (the_row B.row F.row I.row) self.entry (λ ended.
            Polls F.gives F.shows I.draws (B.shown seat.new) now asked self.old ended result)) }
    {
        self.expire(book, seat, now);
        let id = self.next_transmit(book, seat, now, asked);
        self.questions.law_stand_in_order();
        self.questions.transmit_of(id?)
    }

    /// Takes octets that came in. The answer of a reply is stored once, and all requests that wait
    /// for it get it, in the order in which they came to wait; they go on when
    /// `poll_transmit` is called. Where memory is refused all is as before.
    pub fn handle<R>(
        &mut self,
        rt: &R,
        book: &B,
        seat: &mut B::Seat,
        now: Moment,
        over: DnsTransport,
        octets: &[u8],
    ) -> Result<ReplyOutcome, AllocError>
    where
        B: Stores<R>,
        requires made_here { B.belongs book.now seat.old }
        requires given { F.gives octets.now }
        requires shown { F.shows now }
        requires stand { Stand F.gives F.shows (B.shown seat.old) self.old.requests }
        ensures stays { B.belongs book.now seat.new }
        ensures works { Works F.gives F.shows (B.shown seat.old) (B.shown seat.new) }
        ensures stand { Stand F.gives F.shows (B.shown seat.new) self.new.requests }
        ensures once { IsAtMostOne (B.shown seat.old) (B.shown seat.new) }
        ensures hands { HandsIn over octets.now now self.old.questions
            (B.shown seat.old) (B.shown seat.new) }
        ensures same { AreSame self.old.requests self.new.requests }
        ensures awaited { AreAwaited self.old.requests self.old.questions
            → AreAwaited self.new.requests self.new.questions }
        ensures hears { IfOk result (Hears self.old self.new over octets.now) }
        ensures untouched { IfOk result (LeavesSeat seat.old seat.new) }
        ensures unchanged { OnErr result ((self.new ≡ self.old) × (seat.new ≡ seat.old)) }
        ensures wanted { OnErr result
            (MayWant (asking_over over self.old.questions) octets.now) }
    {
        match self.questions.incoming(over, octets)? {
            Incoming::Ignored(why) => Ok(ReplyOutcome::Ignored(why)),
            Incoming::Ended(id, question, ending) => {
                if self.retries_over_stream(over, &ending) {
                    settle_all::<B, F>(&mut self.requests, id, &WaitEnd::Cut);
                    return Ok(ReplyOutcome::Cut);
                }
                self.hear(rt, book, seat, now, octets, id, &question, ending);
                Ok(ReplyOutcome::Reply)
            }
        }
    }

    /// The next request that ended, with what became of it, if there is one. Each comes once, in
    /// the order in which they ended.
    pub fn poll_outcome(&mut self) -> Option<Resolved<B>>
        ensures taken { MatchOption result ((self.old.requests.ended ≡ []) × (self.new ≡ self.old))
            (λ ended. IsTaken ended self.old self.new) }
        ensures outcome { (seat : SeatView) → Stand F.gives F.shows seat self.old.requests
            → IfSome result
            (λ ended. IsOutcome F.gives F.shows seat ended.sought ended.outcome) }
        ensures stand { (seat : SeatView) → Stand F.gives F.shows seat self.old.requests
            → Stand F.gives F.shows seat self.new.requests }
    {
        self.requests.next_ended()
    }

    /// Cancels the request of this number, wherever it is inside, and says whether there was one.
    /// No outcome comes of it, also where it has ended and its outcome was not taken. All other
    /// requests stay, in their order.
    ///
    /// The question that it waited for is closed, and not sent again, where no other request waits
    /// for it. A reply that comes later is ignored, and stores nothing. Takes no memory.
    pub fn cancel(&mut self, number: u64) -> bool
        ensures found { IsTrue result ↔ Contains (numbers_of self.old.requests) number }
        ensures requests { self.new.requests ≡ requests_without number self.old.requests }
        ensures questions { self.new.questions ≡ questions_left self.old.requests.waiting
            self.new.requests.waiting self.old.questions }
        ensures streams { self.new.streams ≡ self.old.streams }
        ensures gone { Contains (numbers_of self.new.requests) number → ⊥ }
        ensures kept { (h : Sought → ℕ) → weight h self.old.requests
            ≡ weight h self.new.requests + sum_by h (requests_with number self.old.requests) }
        ensures unchanged { OnFalse result (self.new ≡ self.old) }
        ensures stand { (seat : SeatView) → Stand F.gives F.shows seat self.old.requests
            → Stand F.gives F.shows seat self.new.requests }
        ensures awaited { AreAwaited self.old.requests self.old.questions
            → AreAwaited self.new.requests self.new.questions }
    {
        if !self.requests.has(number) {
            return false;
        }
        remove_waiting(&mut self.requests, &mut self.questions, number);
        remove_not_waiting(&mut self.requests, number);
        true
    }

    /// Lets each request that has not ended begin its choice anew. It has used no answer then, so
    /// its next step may look up in another book, or in another history of one. Takes no memory.
    ///
    /// To go on at another seat take all outcomes first (`poll_outcome` until it gives none), and
    /// then call this: what is left inside stands at any seat. So a resolver over a `RollingCache`
    /// need not be drained where `catch_up` says `Moved` or `Renewed`: take all outcomes, then call
    /// `catch_up`, then this.
    ///
    /// The questions that are out stay out. A request that needs the answer to one waits for it
    /// again by the next `poll_transmit`. A reply that comes before that is handed to the book, as
    /// any is, and the request looks there. A question that no request waits for is sent as often
    /// as the schedule says. A request whose question was to go over a stream asks it in a datagram
    /// first.
    pub fn restart(&mut self)
        ensures restarts { self.new
            ≡ record self.old { requests = restarted self.old.requests } }
        ensures anywhere { self.old.requests.ended ≡ []
            → (seat : SeatView) → Stand F.gives F.shows seat self.new.requests }
        ensures stand { (seat : SeatView) → Stand F.gives F.shows seat self.old.requests
            → Stand F.gives F.shows seat self.new.requests }
        ensures same { AreSame self.old.requests self.new.requests }
        ensures awaited { AreAwaited self.new.requests self.new.questions }
    {
        restart_all(&mut self.requests);
    }

    /// Ends the wait for the reply to the question of this id, which no server takes: each request
    /// that waits for it ends with `NoServer`. It says whether a question is out under the id. A
    /// reply that comes later is ignored, and stores nothing.
    pub fn close(&mut self, id: u16) -> bool
        ensures found { IsTrue result ↔ IsOut id self.old.questions }
        ensures closes { IsTrue result → Closes id self.old self.new }
        ensures unchanged { OnFalse result (self.new ≡ self.old) }
        ensures same { AreSame self.old.requests self.new.requests }
        ensures stand { (seat : SeatView) → Stand F.gives F.shows seat self.old.requests
            → Stand F.gives F.shows seat self.new.requests }
        ensures awaited { AreAwaited self.old.requests self.old.questions
            → AreAwaited self.new.requests self.new.questions }
    {
        let Some((_, question)) = self.questions.take(id) else {
            return false;
        };
        settle_all::<B, F>(&mut self.requests, id, &WaitEnd::Closed(&question));
        true
    }

    /// Ends the wait for the reply to the question of this id, to which none came in time, where
    /// the caller counts the time: each request that waits for it ends with `NoAnswer`. It says
    /// whether a question is out under the id. A reply that comes later is ignored, and stores
    /// nothing.
    pub fn give_up(&mut self, id: u16) -> bool
        ensures found { IsTrue result ↔ IsOut id self.old.questions }
        ensures gives_up { IsTrue result → GivesUpOn id self.old self.new }
        ensures unchanged { OnFalse result (self.new ≡ self.old) }
        ensures same { AreSame self.old.requests self.new.requests }
        ensures stand { (seat : SeatView) → Stand F.gives F.shows seat self.old.requests
            → Stand F.gives F.shows seat self.new.requests }
        ensures awaited { AreAwaited self.old.requests self.old.questions
            → AreAwaited self.new.requests self.new.questions }
    {
        let Some((_, question)) = self.questions.take(id) else {
            return false;
        };
        settle_all::<B, F>(&mut self.requests, id, &WaitEnd::GivenUp(&question));
        true
    }

    /// Whether a question is out under this id.
    #[must_use]
    pub fn is_out(&self, id: u16) -> bool
        ensures { IsTrue result ↔ IsOut id self.now.questions }
    {
        self.questions.is_out(id)
    }

    /// The id of the question whose reply the request of this number waits for, if it waits for
    /// one.
    #[must_use]
    pub fn awaited_id(&self, number: u64) -> Option<u16>
        ensures { MatchOption result
            (All (λ it. it.task.number ≡ number → ⊥) self.now.requests.waiting)
            (λ id. IsAwaitedBy number id self.now.requests.waiting) }
    {
        self.requests.awaited_id(number)
    }

    /// The second at which `poll_transmit` next has something to send, to give up or to end, if
    /// nothing else happens, counted as moments are: the least of the deadlines of the questions
    /// that are out and of the moments by which requests end. None where there is neither.
    #[must_use]
    pub fn next_timeout(&self) -> Option<u64>
        ensures { IsLeast (timeouts_of self.now.requests self.now.questions) result }
    {
        least_of(self.questions.next_due(), self.requests.next_until())
    }

    /// Whether the question of a reply that ends so and came over this goes over a stream next.
    fn retries_over_stream(&self, over: DnsTransport, ending: &Ending) -> bool
        ensures { IsTrue result ↔ IsCut self.now over ending.now }
    {
        match over {
            DnsTransport::Datagram => self.streams && is_cut(ending),
            DnsTransport::Stream => false,
        }
    }

    /// Ends each request whose time is over.
    fn expire(&mut self, book: &B, seat: &mut B::Seat, now: Moment)
        requires made_here { B.belongs book.now seat.old }
        requires shown { F.shows now }
        requires stand { Stand F.gives F.shows (B.shown seat.old) self.old.requests }
        ensures stays { B.belongs book.now seat.new }
        ensures goes_on { GoesOn (B.shown seat.old) (B.shown seat.new) }
        ensures stores_nothing { StoresNothing (B.shown seat.old) (B.shown seat.new) }
        ensures stand { Stand F.gives F.shows (B.shown seat.new) self.new.requests }
        ensures expires { Expires now self.old self.new }
        ensures awaited { AreAwaited self.old.requests self.old.questions
            → AreAwaited self.new.requests self.new.questions }
    {
        if self.requests.has_late(now) {
            self.expire_late(book, seat, now);
        }
    }

    /// Ends the requests whose time is over, and closes the questions that none waits for any more.
    fn expire_late(&mut self, book: &B, seat: &mut B::Seat, now: Moment)
        requires made_here { B.belongs book.now seat.old }
        requires shown { F.shows now }
        requires stand { Stand F.gives F.shows (B.shown seat.old) self.old.requests }
        ensures stays { B.belongs book.now seat.new }
        ensures goes_on { GoesOn (B.shown seat.old) (B.shown seat.new) }
        ensures stores_nothing { StoresNothing (B.shown seat.old) (B.shown seat.new) }
        ensures stand { Stand F.gives F.shows (B.shown seat.new) self.new.requests }
        ensures expires { Expires now self.old self.new }
        ensures awaited { AreAwaited self.old.requests self.old.questions
            → AreAwaited self.new.requests self.new.questions }
    {
        expire_waiting::<B, F>(&mut self.requests, &mut self.questions, now);
        expire_ready::<B, F>(&mut self.requests, self.alloc, book, seat, now);
        expire_held::<B, F>(&mut self.requests, self.alloc, book, seat, now);
    }

    /// The id of the question to send next.
    fn next_transmit(
        &mut self,
        book: &B,
        seat: &mut B::Seat,
        now: Moment,
        asked: Moment,
    ) -> Option<u16>
        requires made_here { B.belongs book.now seat.old }
        requires shown { F.shows now }
        requires stand { Stand F.gives F.shows (B.shown seat.old) self.old.requests }
        ensures stays { B.belongs book.now seat.new }
        ensures goes_on { GoesOn (B.shown seat.old) (B.shown seat.new) }
        ensures stores_nothing { StoresNothing (B.shown seat.old) (B.shown seat.new) }
        ensures stand { Stand F.gives F.shows (B.shown seat.new) self.new.requests }
        ensures same { AreSame self.old.requests self.new.requests }
        ensures ends { EndsMore
            (IsInTime (schedule_of self.old.questions) (tickets_of self.old.questions) now)
            self.old.requests.ended self.new.requests.ended }
        ensures sends { MatchOption result
            (GivesUpBoth now self.old.questions self.new.questions)
            (λ id. SendsAfter now asked id self.new.requests.waiting
            self.old.questions self.new.questions) }
        ensures awaited { AreAwaited self.old.requests self.old.questions
            → AreAwaited self.new.requests self.new.questions }
        ensures turn { IsTurn I.draws asked result self.old.requests self.new.requests
            self.new.questions }
        ensures idle { IfNone result
            (IsIdle I.draws now self.new.requests self.new.questions) }
    {
        if let Some(id) = self
            .questions
            .next_resend::<B, F>(&mut self.requests, now, asked)
        {
            return Some(id);
        }
        if let Some(id) = self.run_held(book, seat, now, asked) {
            return Some(id);
        }
        self.run_ready(book, seat, now, asked)
    }

    /// Lets each request go on that is ready, until a question is sent for one, and gives its id.
    fn run_ready(&mut self, book: &B, seat: &mut B::Seat, now: Moment, asked: Moment) -> Option<u16>
        requires made_here { B.belongs book.now seat.old }
        requires shown { F.shows now }
        requires stand { Stand F.gives F.shows (B.shown seat.old) self.old.requests }
        ensures stays { B.belongs book.now seat.new }
        ensures goes_on { GoesOn (B.shown seat.old) (B.shown seat.new) }
        ensures stores_nothing { StoresNothing (B.shown seat.old) (B.shown seat.new) }
        ensures stand { Stand F.gives F.shows (B.shown seat.new) self.new.requests }
        ensures same { AreSame self.old.requests self.new.requests }
        ensures ends { EndsMore IsByChoice
            self.old.requests.ended self.new.requests.ended }
        ensures sends { MatchOption result (self.new.questions ≡ self.old.questions)
            (λ id. SendsFirst asked id self.new.requests.waiting
            self.old.questions self.new.questions) }
        ensures awaited { AreAwaited self.old.requests self.old.questions
            → AreAwaited self.new.requests self.new.questions }
        ensures ready { IfNone result (self.new.requests.ready ≡ []) }
        ensures held { (self.new.requests.held ≡ self.old.requests.held)
            ⊎ CannotAsk I.draws self.old.questions }
    {
        'tasks: while let Some(task) = self.requests.next_ready() {
            if let Some(id) = self.advance(book, seat, now, asked, task) {
                return Some(id);
            }
        }
        None
    }

    /// Lets each request go on that is held, while there is room for another question, until one is
    /// sent, and gives its id.
    fn run_held(&mut self, book: &B, seat: &mut B::Seat, now: Moment, asked: Moment) -> Option<u16>
        requires made_here { B.belongs book.now seat.old }
        requires shown { F.shows now }
        requires stand { Stand F.gives F.shows (B.shown seat.old) self.old.requests }
        ensures stays { B.belongs book.now seat.new }
        ensures goes_on { GoesOn (B.shown seat.old) (B.shown seat.new) }
        ensures stores_nothing { StoresNothing (B.shown seat.old) (B.shown seat.new) }
        ensures stand { Stand F.gives F.shows (B.shown seat.new) self.new.requests }
        ensures same { AreSame self.old.requests self.new.requests }
        ensures ends { EndsMore IsByChoice
            self.old.requests.ended self.new.requests.ended }
        ensures sends { MatchOption result (self.new.questions ≡ self.old.questions)
            (λ id. SendsFirst asked id self.new.requests.waiting
            self.old.questions self.new.questions) }
        ensures ready { self.new.requests.ready ≡ self.old.requests.ready }
        ensures awaited { AreAwaited self.old.requests self.old.questions
            → AreAwaited self.new.requests self.new.questions }
        ensures held { IfNone result
            ((self.new.requests.held ≡ []) ⊎ CannotAsk I.draws self.new.questions) }
    {
        'tasks: for _held in 0..self.requests.held_len() {
            if self.questions.is_full() {
                return None;
            }
            let Some(task) = self.requests.next_held() else {
                return None;
            };
            if let Some(id) = self.advance(book, seat, now, asked, Ready::of(task)) {
                return Some(id);
            }
        }
        None
    }

    /// Lets a request go on that was taken out. Then it is inside again, and where its question is
    /// sent for the first time, the result is the id.
    fn advance(
        &mut self,
        book: &B,
        seat: &mut B::Seat,
        now: Moment,
        asked: Moment,
        task: Ready<B>,
    ) -> Option<u16>
        requires made_here { B.belongs book.now seat.old }
        requires shown { F.shows now }
        requires stand { Stand F.gives F.shows (B.shown seat.old) self.old.requests }
        requires counted { IsCounted F.gives F.shows (B.shown seat.old) task }
        requires room { count_of self.old.requests < self.old.requests.limit }
        ensures stays { B.belongs book.now seat.new }
        ensures goes_on { GoesOn (B.shown seat.old) (B.shown seat.new) }
        ensures stores_nothing { StoresNothing (B.shown seat.old) (B.shown seat.new) }
        ensures stand { Stand F.gives F.shows (B.shown seat.new) self.new.requests }
        ensures back { IsBack (sought_of task) self.old.requests self.new.requests }
        ensures ready { self.new.requests.ready ≡ self.old.requests.ready }
        ensures ends { EndsMore IsByChoice
            self.old.requests.ended self.new.requests.ended }
        ensures sends { MatchOption result (self.new.questions ≡ self.old.questions)
            (λ id. SendsFirst asked id self.new.requests.waiting
            self.old.questions self.new.questions) }
        ensures awaited { AreAwaited self.old.requests self.old.questions
            → AreAwaited self.new.requests self.new.questions }
        ensures held { (self.new.requests.held ≡ self.old.requests.held)
            ⊎ CannotAsk I.draws self.old.questions }
    {
        let (was, number) = (Snapshot::of(&task), task.number());
        match task.step::<F>(self.alloc, book, seat, now) {
            Lead::Ended(outcome) => {
                let ended = Resolved::new(was, number, outcome);
                self.requests.put_ended(ended);
                None
            }
            Lead::Asks(task) => wait_for_answer::<B, F, I>(
                &mut self.requests,
                &mut self.questions,
                &mut self.ids,
                task,
                asked,
            ),
        }
    }

    /// Takes the end of the wait for the reply to a question.
    fn hear<R>(
        &mut self,
        rt: &R,
        book: &B,
        seat: &mut B::Seat,
        now: Moment,
        octets: &[u8],
        id: u16,
        question: &Question,
        ending: Ending,
    )
    where
        B: Stores<R>,
        requires made_here { B.belongs book.now seat.old }
        requires given { F.gives octets.now }
        requires shown { F.shows now }
        requires stand { Stand F.gives F.shows (B.shown seat.old) self.old.requests }
        requires ends { IsEnded question.now octets.now ending }
        ensures stays { B.belongs book.now seat.new }
        ensures works { Works F.gives F.shows (B.shown seat.old) (B.shown seat.new) }
        ensures stand { Stand F.gives F.shows (B.shown seat.new) self.new.requests }
        ensures once { IsAtMostOne (B.shown seat.old) (B.shown seat.new) }
        ensures hands { HandsBy question.now ending now (B.shown seat.old) (B.shown seat.new) }
        ensures asking { self.new.questions ≡ self.old.questions }
        ensures same { AreSame self.old.requests self.new.requests }
        ensures settles { SettlesAll id (GoesByReply question.now ending)
            (IsByReply question.now ending) self.old.requests self.new.requests }
    {
        match ending {
            Ending::Answered(answer) => {
                law_answers_are_bounded();
                self.take(rt, book, seat, now, octets, id, question, answer);
            }
            Ending::Faulty(refusal) => {
                let end = WaitEnd::Faulty(question, refusal);
                settle_all::<B, F>(&mut self.requests, id, &end);
            }
        }
    }

    /// Takes the answer that a reply has: it is stored, and given to all that wait for it.
    fn take<R>(
        &mut self,
        rt: &R,
        book: &B,
        seat: &mut B::Seat,
        now: Moment,
        octets: &[u8],
        id: u16,
        question: &Question,
        answer: Answer,
    )
    where
        B: Stores<R>,
        requires made_here { B.belongs book.now seat.old }
        requires given { F.gives octets.now }
        requires shown { F.shows now }
        requires stand { Stand F.gives F.shows (B.shown seat.old) self.old.requests }
        requires answers { Answers question.now octets.now answer }
        requires kind { kind_of answer.records ≡ question.now.kind }
        ensures stays { B.belongs book.now seat.new }
        ensures works { Works F.gives F.shows (B.shown seat.old) (B.shown seat.new) }
        ensures stand { Stand F.gives F.shows (B.shown seat.new) self.new.requests }
        ensures once { IsAtMostOne (B.shown seat.old) (B.shown seat.new) }
        ensures hands { MayHand question.now answer now (B.shown seat.old) (B.shown seat.new) }
        ensures asking { self.new.questions ≡ self.old.questions }
        ensures same { AreSame self.old.requests self.new.requests }
        ensures settles { SettlesAll id (GetsAnswer question.now answer) IsMemory
            self.old.requests self.new.requests }
    {
        let Ok(answer) = Arc::new(self.alloc, answer) else {
            settle_all::<B, F>(&mut self.requests, id, &WaitEnd::NoMemory);
            return;
        };
        let _kept = book.store(rt, seat, question, &answer, now);
        let end = WaitEnd::Answered(question, &answer);
        settle_all::<B, F>(&mut self.requests, id, &end);
    }
}
