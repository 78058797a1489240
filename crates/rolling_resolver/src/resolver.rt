//! A resolver whose book begins anew before it is full.
ghost use Rattle.std.specs.Prelude.{◌≡◌, ◌↔◌, ◌≤◌, ◌+◌, ◌⊎◌, ℕ, [], None, false, IsSomeAnd, IsTrue, MatchOption, Some, IfErr, IfNone, IfOk, IfSome, OnErr, OnOk, length};
ghost use Rattle.std.specs.Bool.{OnFalse};
ghost use Rattle.std.specs.List.{Contains};
ghost use Rattle.answer_cache.specs.Lists.{IsGroupCount};
ghost use Rattle.dns_queries.specs.declared.incoming.Why.{Why};
ghost use Rattle.sip_resolver.specs.Outcomes.{Sought};
ghost use Rattle.sip_resolver.specs.Questions.{IsLeast, count_out};
ghost use Rattle.sip_resolver.specs.Requests.{count_of, numbers_of};
ghost use Rattle.sip_resolver.specs.declared.resolver.ReplyOutcome.TheVariants.{Ignored};
ghost use Rattle.rolling_resolver.specs.Inside.{GainsOne, LosesNumber, RefusesRequest, SameInside, count_inside, weight_of, weight_with};
ghost use Rattle.rolling_resolver.specs.Rests.{AllRestOn, GainsFrom, KeepsAnswers, TellsOf};
ghost use Rattle.rolling_resolver.specs.Rolling.{AreQuiet, Begins, GivesUpOf, GivesUpOlder, HasNone, HasNoneOlder, HasRequest, IsOutOf, IsQueryOut, IsQuiet, IsWrittenOf, MayWantIn, MayWantOver, Receives, ReceivesOlder, Renews, SameSeats, Takes, TakesIn, TakesOlder, Tells, begun_rolling, dues_in, older_dues, older_seat};
ghost use Rattle.rolling_resolver.specs.Stats.{AreCounted, of_older};

use crate::counts::{Counts, Stats};
use crate::generation::{Ended, Generation, QueryIds, Sent};
use crate::instant::Instant;
use dns_answers::Moment;
use dns_message::law_same_questions_are_equal;
use dns_queries::Why;
use sip_resolver::{DnsTransport, Ids, Limits, ReplyOutcome, SubmitRefusal, least_of};
use sip_selection::{Caps, Request};
use srv_choice::RandomWords;
use std::alloc::{AllocError, Global};
use std::marker::Model;

/// The numbers of draws, and those of generations, are below this one.
const DRAWS: u64 = 1 << 63;

/// Many requests at once, each on its way to its targets, over a book that never fills: a line of
/// generations, each a resolver core over a book of its own.
#[derive(Drop)]
pub struct RollingResolver {
    limits: Limits,
    seed: [u8; 32],
    /// How many requests have words of their own.
    drawn: u64,
    /// How many generations began.
    begun: u64,
    /// Requests that come in go to this one.
    current: Generation,
    /// The one before it, while requests are inside.
    draining: Option<Generation>,
    told: Option<Ended>,
    counts: Counts,
}

impl Model for RollingResolver {
    ghost use Rattle.std.specs.Prelude.{◌≡◌};
    ghost use Rattle.rolling_resolver.specs.Rolling.{AreApart, AreInRange, RollingView};

    ghost Value = { RollingView };

    ghost view = { λ it. record {
      told = it.told;
      current = it.current;
      draining = it.draining;
    } };

    ghost invariant = { λ it. AreInRange it.limits
        × (it.current.core.requests.limit ≡ it.limits.requests)
        × AreApart it.current it.draining };
}

impl RollingResolver {
    /// A resolver in which no request is, over an empty book of so many groups, a power of two from
    /// 64 to 65,536. The ids of its queries and its random words come of this seed.
    pub fn new(
        alloc: Global,
        limits: Limits,
        groups: u32,
        seed: [u8; 32],
    ) -> Result<RollingResolver, AllocError>
        requires requests { (1 ≤ limits.requests) × (limits.requests ≤ 65536) }
        requires questions { (1 ≤ limits.questions) × (limits.questions ≤ 4096) }
        requires groups { IsGroupCount groups }
        ensures begun { IfOk result (λ it. it ≡ begun_rolling groups limits) }
        ensures answers { IfOk result (λ it. AllRestOn [] it) }
    {
        let current = Generation::first(alloc, limits, groups, seed)?;
        Ok(RollingResolver {
            limits,
            seed,
            drawn: 0,
            begun: 1,
            current,
            draining: None,
            told: None,
            counts: Counts::none(),
        })
    }

    /// The same in a box of its own.
    pub fn boxed(
        alloc: Global,
        limits: Limits,
        groups: u32,
        seed: [u8; 32],
    ) -> Result<Box<RollingResolver>, AllocError>
        requires requests { (1 ≤ limits.requests) × (limits.requests ≤ 65536) }
        requires questions { (1 ≤ limits.questions) × (limits.questions ≤ 4096) }
        requires groups { IsGroupCount groups }
        ensures begun { IfOk result (λ it. it.value ≡ begun_rolling groups limits) }
        ensures answers { IfOk result (λ it. AllRestOn [] it.value) }
    {
        let resolver = RollingResolver::new(alloc, limits, groups, seed)?;
        match Box::new(alloc, resolver) {
            Ok(resolver) => Ok(resolver),
            Err(refused) => {
                drop(refused.value);
                Err(AllocError)
            }
        }
    }

    /// Whether an older generation is there, and no request is inside it.
    fn is_drained(&self) -> bool
        ensures { IsTrue result
            ↔ IsSomeAnd self.now.draining (λ older. count_of older.core.requests ≡ 0) }
    {
        match &self.draining {
            Some(draining) => draining.is_empty(),
            None => false,
        }
    }

    /// Lets go of the older generation, where no request is inside it.
    fn let_go(&mut self)
        ensures told { self.new.told ≡ self.old.told }
        ensures current { self.new.current ≡ self.old.current }
        ensures older { (self.new.draining ≡ self.old.draining) ⊎ (self.new.draining ≡ None) }
        ensures inside { SameInside self.old self.new }
        ensures answers { KeepsAnswers self.old self.new }
    {
        if !self.is_drained() {
            return;
        }
        drop(self.draining.take());
    }

    /// Begins a generation, and the younger one is the older then. Where memory is refused this one
    /// goes on.
    // Inlined, it would clear room for a book in each `submit`.
    #[inline(never)]
    fn begin_next(&mut self, alloc: Global)
        ensures told { self.new.told ≡ self.old.told }
        ensures begins { (self.new ≡ self.old) ⊎ Begins self.old self.new }
        ensures inside { self.old.draining ≡ None → SameInside self.old self.new }
    {
        let next = self
            .current
            .successor(alloc, self.limits, self.seed, self.begun);
        let Ok(next) = next else {
            return;
        };
        self.begun = self.begun.wrapping_add(1) % DRAWS;
        let before = std::mem::replace(&mut self.current, next);
        drop(self.draining.replace(before));
    }

    /// Begins a generation, where the book of this one may soon be full and no older one is there.
    fn renew(&mut self, alloc: Global)
        ensures told { self.new.told ≡ self.old.told }
        ensures renews { Renews self.old self.new }
        ensures inside { SameInside self.old self.new }
        ensures answers { KeepsAnswers self.old self.new }
    {
        self.let_go();
        if self.current.is_old() && self.draining.is_none() {
            self.begin_next(alloc);
        }
    }

    /// Whether a request of this number is inside the older generation.
    fn has_older(&self, number: u64) -> bool
        ensures { MatchOption self.now.draining (result ≡ false)
            (λ older. IsTrue result ↔ Contains (numbers_of older.core.requests) number) }
    {
        match &self.draining {
            Some(draining) => draining.has(number),
            None => false,
        }
    }

    /// Whether a request of this number is inside, or has an outcome that was not taken.
    #[must_use]
    pub fn has(&self, number: u64) -> bool
        ensures { IsTrue result ↔ HasRequest number self.now }
    {
        self.current.has(number) || self.has_older(number)
    }

    /// Why a request of this number would be refused where memory is: memory is needed only for
    /// what would be taken in.
    #[must_use]
    pub fn refusal(&self, number: u64) -> SubmitRefusal
        ensures { RefusesRequest self.now number result }
    {
        if self.request_count() >= self.limits.requests {
            return SubmitRefusal::Full;
        }
        if self.has(number) {
            return SubmitRefusal::NumberTaken;
        }
        SubmitRefusal::Memory
    }

    /// Takes a request in, under this number. It ends by the moment `until`, if it has one.
    pub fn submit(
        &mut self,
        alloc: Global,
        number: u64,
        request: Request,
        caps: Caps,
        until: Option<Moment>,
    ) -> Result<(), SubmitRefusal>
        ensures told { self.new.told ≡ self.old.told }
        ensures taken_in { OnOk result (TakesIn number request caps until self.new) }
        ensures gains { OnOk result (GainsOne number request caps until self.old self.new) }
        ensures refused { IfErr result (RefusesRequest self.new number) }
        ensures inside { OnErr result (SameInside self.old self.new) }
        ensures renews { Renews self.old self.new }
        ensures answers { KeepsAnswers self.old self.new }
    {
        self.renew(alloc);
        if self.request_count() >= self.limits.requests {
            return Err(SubmitRefusal::Full);
        }
        if self.has_older(number) {
            return Err(SubmitRefusal::NumberTaken);
        }
        let words = RandomWords::Drawn {
            key: self.seed,
            number: self.drawn,
        };
        self.drawn = self.drawn.wrapping_add(1) % DRAWS;
        self.current.submit(number, request, caps, &words, until)?;
        Ok(())
    }

    /// Cancels the request of this number in the older generation, and says whether there was one.
    fn cancel_older(&mut self, number: u64) -> bool
        ensures told { self.new.told ≡ self.old.told }
        ensures current { self.new.current ≡ self.old.current }
        ensures found { IsTrue result ↔ IsSomeAnd self.old.draining
            (λ older. Contains (numbers_of older.core.requests) number) }
        ensures gone { IfSome self.new.draining
            (λ older. Contains (numbers_of older.core.requests) number → ⊥) }
        ensures seat { older_seat self.new ≡ older_seat self.old }
        ensures kept { (h : Sought → ℕ) → of_older (weight_of h) self.old.draining
            ≡ of_older (weight_of h) self.new.draining
            + of_older (weight_with h number) self.old.draining }
        ensures unchanged { OnFalse result (self.new ≡ self.old) }
    {
        match &mut self.draining {
            Some(draining) => draining.cancel(number),
            None => false,
        }
    }

    /// Cancels the request of this number, and says whether there was one.
    pub fn cancel(&mut self, number: u64) -> bool
        ensures told { self.new.told ≡ self.old.told }
        ensures found { IsTrue result ↔ HasRequest number self.old }
        ensures gone { HasRequest number self.new → ⊥ }
        ensures kept { LosesNumber number self.old self.new }
        ensures seats { SameSeats self.old self.new }
        ensures unchanged { OnFalse result (self.new ≡ self.old) }
        ensures answers { KeepsAnswers self.old self.new }
    {
        let younger = self.current.cancel(number);
        if self.cancel_older(number) {
            return true;
        }
        younger
    }

    /// Writes what the older generation sends next into a buffer.
    fn transmit_older(&mut self, at: &Instant, octets: &mut [u8]) -> Option<Sent>
        ensures told { self.new.told ≡ self.old.told }
        ensures current { self.new.current ≡ self.old.current }
        ensures query { IfSome result (λ sent. IsWrittenOf sent octets.new self.new) }
        ensures quiet { IfNone result (IfSome self.new.draining
            (IsQuiet ⟦<QueryIds as Ids>⟧.draws at.now.second (length octets.old))) }
        ensures seats { SameSeats self.old self.new }
        ensures inside { SameInside self.old self.new }
    {
        let Some(draining) = &mut self.draining else {
            return None;
        };
        draining.transmit(at, octets)
    }

    /// Writes what either generation sends next into a buffer.
    fn transmit_both(&mut self, at: &Instant, octets: &mut [u8]) -> Option<Sent>
        ensures told { self.new.told ≡ self.old.told }
        ensures query { IfSome result (λ sent. IsWrittenOf sent octets.new self.new) }
        ensures quiet { IfNone result
            (AreQuiet ⟦<QueryIds as Ids>⟧.draws at.now.second (length octets.old) self.new) }
        ensures seats { SameSeats self.old self.new }
        ensures inside { SameInside self.old self.new }
    {
        if let Some(sent) = self.transmit_older(at, octets) {
            return Some(sent);
        }
        self.current.transmit(at, octets)
    }

    /// Writes what is to be sent next into a buffer, and counts it.
    pub fn transmit(&mut self, at: &Instant, octets: &mut [u8]) -> Option<Sent>
        ensures told { self.new.told ≡ self.old.told }
        ensures query { IfSome result (λ sent. IsWrittenOf sent octets.new self.new) }
        ensures quiet { IfNone result
            (AreQuiet ⟦<QueryIds as Ids>⟧.draws at.now.second (length octets.old) self.new) }
        ensures seats { SameSeats self.old self.new }
        ensures inside { SameInside self.old self.new }
        ensures answers { KeepsAnswers self.old self.new }
    {
        let Some(sent) = self.transmit_both(at, octets) else {
            return None;
        };
        self.counts = self.counts.sent_too();
        Some(sent)
    }

    /// How many requests are inside the older generation.
    fn older_request_count(&self) -> usize
        ensures is { result ≡ of_older (λ one. count_of one.core.requests) self.now.draining }
        ensures few { result ≤ 65536 }
    {
        match &self.draining {
            Some(draining) => draining.request_count(),
            None => 0,
        }
    }

    /// How many questions are out of the older generation.
    fn older_question_count(&self) -> usize
        ensures is { result ≡ of_older (λ one. count_out one.core.questions) self.now.draining }
        ensures few { result ≤ 8192 }
    {
        match &self.draining {
            Some(draining) => draining.question_count(),
            None => 0,
        }
    }

    /// How many answers the book of the older generation has.
    fn older_answer_count(&self) -> usize
        ensures { result ≡ of_older (λ one. length one.seat.seen) self.now.draining }
    {
        match &self.draining {
            Some(draining) => draining.answer_count(),
            None => 0,
        }
    }

    /// How many requests are inside both generations, also those whose outcome was not taken.
    fn request_count(&self) -> usize
        ensures { result ≡ count_inside self.now }
    {
        self.current.request_count() + self.older_request_count()
    }

    /// What is counted of it.
    pub fn stats(&self) -> Stats
        ensures { AreCounted result self.now }
    {
        let answers = self.current.answer_count() as u64;
        Stats {
            answers: answers.saturating_add(self.older_answer_count() as u64),
            requests: self.request_count() as u64,
            questions: (self.current.question_count() + self.older_question_count()) as u64,
            queries: self.counts.queries,
            replies: self.counts.replies,
            ignored: self.counts.ignored,
        }
    }

    /// Hands octets that came in to the older generation, where the other one ignored them.
    fn receive_older(
        &mut self,
        at: &Instant,
        over: DnsTransport,
        octets: &[u8],
        why: Why,
    ) -> Result<ReplyOutcome, AllocError>
        ensures receives { IfOk result
            (λ heard. ReceivesOlder over octets.now at.now.second why heard self.old self.new) }
        ensures unchanged { OnErr result (self.new ≡ self.old) }
        ensures wanted { OnErr result
            (IsSomeAnd self.old.draining (MayWantOver over octets.now)) }
        ensures inside { SameInside self.old self.new }
    {
        let Some(draining) = &mut self.draining else {
            return Ok(ReplyOutcome::Ignored(why));
        };
        draining.receive(at, over, octets)
    }

    /// Hands octets that came in to both generations.
    fn receive_both(
        &mut self,
        at: &Instant,
        over: DnsTransport,
        octets: &[u8],
    ) -> Result<ReplyOutcome, AllocError>
        ensures receives { IfOk result
            (λ heard. Receives over octets.now at.now.second heard self.old self.new) }
        ensures unchanged { OnErr result (self.new ≡ self.old) }
        ensures wanted { OnErr result (MayWantIn over octets.now self.old) }
        ensures inside { SameInside self.old self.new }
    {
        match self.current.receive(at, over, octets)? {
            ReplyOutcome::Ignored(why) => self.receive_older(at, over, octets, why),
            heard => Ok(heard),
        }
    }

    /// Takes octets that came in, and counts them.
    pub fn receive(
        &mut self,
        at: &Instant,
        over: DnsTransport,
        octets: &[u8],
    ) -> Result<ReplyOutcome, AllocError>
        ensures receives { IfOk result
            (λ heard. Receives over octets.now at.now.second heard self.old self.new) }
        ensures unchanged { OnErr result (self.new ≡ self.old) }
        ensures wanted { OnErr result (MayWantIn over octets.now self.old) }
        ensures inside { SameInside self.old self.new }
        ensures ignored { IfOk result (λ heard. (why : Why) → heard ≡ Ignored why
            → self.new ≡ self.old) }
        ensures answers { OnOk result (GainsFrom octets.now self.old self.new) }
    {
        let heard = self.receive_both(at, over, octets)?;
        self.counts = self.counts.heard_too(heard);
        Ok(heard)
    }

    /// Ends the wait for the reply to the question of this query of the older generation, and says
    /// whether it was out.
    fn give_up_older(&mut self, query: u32) -> bool
        ensures told { self.new.told ≡ self.old.told }
        ensures gives_up { IsTrue result → GivesUpOlder query self.old self.new }
        ensures none { OnFalse result (IsSomeAnd self.old.draining (IsOutOf query) → ⊥) }
        ensures seats { SameSeats self.old self.new }
        ensures inside { SameInside self.old self.new }
        ensures unchanged { OnFalse result (self.new ≡ self.old) }
    {
        match &mut self.draining {
            Some(draining) => draining.give_up(query),
            None => false,
        }
    }

    /// Ends the wait for the reply to the question of this query, which no server takes, and says
    /// whether it was out.
    pub fn give_up(&mut self, query: u32) -> bool
        ensures told { self.new.told ≡ self.old.told }
        ensures gives_up { IsTrue result → GivesUpOf query self.old self.new }
        ensures none { OnFalse result (IsQueryOut query self.old → ⊥) }
        ensures seats { SameSeats self.old self.new }
        ensures inside { SameInside self.old self.new }
        ensures unchanged { OnFalse result (self.new ≡ self.old) }
        ensures answers { KeepsAnswers self.old self.new }
    {
        if self.current.give_up(query) {
            return true;
        }
        self.give_up_older(query)
    }

    /// The second at which the older generation has something to do next, if nothing else happens.
    fn older_deadline(&self) -> Option<u64>
        ensures { IsLeast (older_dues self.now) result }
    {
        match &self.draining {
            Some(draining) => draining.deadline(),
            None => None,
        }
    }

    /// The second at which there is something to do next, if nothing else happens.
    pub fn deadline(&self) -> Option<u64>
        ensures { IsLeast (dues_in self.now) result }
    {
        least_of(self.older_deadline(), self.current.deadline())
    }

    /// The next request of the older generation that ended.
    fn next_older(&mut self) -> Option<Ended>
        ensures none { IfNone result (self.new ≡ self.old) }
        ensures empty { IfNone result (HasNoneOlder self.old) }
        ensures some { IfSome result (λ ended. TakesOlder ended self.old self.new) }
    {
        let Some(draining) = &mut self.draining else {
            return None;
        };
        draining.next_ended()
    }

    /// The next request that ended.
    fn next_ended(&mut self) -> Option<Ended>
        ensures none { IfNone result (self.new ≡ self.old) }
        ensures empty { IfNone result (HasNone self.old) }
        ensures some { IfSome result (λ ended. Takes ended self.old self.new) }
    {
        if let Some(ended) = self.next_older() {
            return Some(ended);
        }
        self.current.next_ended()
    }

    /// Takes the next request that ended out, and keeps it as the one that was told last; and says
    /// whether there was one.
    fn keep_next(&mut self) -> bool
        ensures none { OnFalse result (self.new ≡ self.old) }
        ensures empty { OnFalse result (HasNone self.old) }
        ensures tells { IsTrue result → Tells self.old self.new }
    {
        let Some(ended) = self.next_ended() else {
            return false;
        };
        self.told = Some(ended);
        true
    }

    /// Goes to the next request that ended, which `told` gives from then on, and says whether there
    /// was one. Where none has ended, `told` gives the one before still.
    pub fn tell_next(&mut self) -> bool
        ensures none { OnFalse result (self.new ≡ self.old) }
        ensures empty { OnFalse result (HasNone self.old) }
        ensures tells { IsTrue result → Tells self.old self.new }
        ensures chosen { IsTrue result → TellsOf self.old self.new }
        ensures answers { KeepsAnswers self.old self.new }
    {
        law_same_questions_are_equal();
        self.keep_next()
    }

    /// The request that was told last, with what became of it.
    pub fn told(&self) -> Option<&Ended>
        ensures { MatchOption result (self.now.told ≡ None)
            (λ ended. self.now.told ≡ Some ended.now) }
    {
        self.told.as_ref()
    }
}
