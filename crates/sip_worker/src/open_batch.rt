//! A batch of jobs while they are resolved.
ghost use Rattle.std.specs.Prelude.{◌≡◌, ◌⊎◌, ◌+◌, ◌<◌, ◌≤◌, ℕ, IfOk, IsTrue, get_or, length, replicate};
ghost use Rattle.answer_cache.specs.Seats.{SeatView};
ghost use Rattle.answer_cache.specs.Shared.{Belongs};
ghost use Rattle.sip_resolver.specs.Outcomes.{Sought};
ghost use Rattle.sip_resolver.specs.Requests.{AreSame, Stand, weight};
ghost use Rattle.sip_resolver.specs.Works.{Works};
ghost use Rattle.sip_resolver.specs.declared.outcome.Outcome.TheVariants as outcomes;
ghost use Rattle.sip_worker.specs.Gates.{begins, is_answered};
ghost use Rattle.sip_worker.specs.Batches.{AreReported, IsDone, Stands, at_number, sought_at};

use crate::drive::{receive_once, send_all};
use crate::gate::Gate;
use crate::job::Job;
use crate::wire_facts::WireFacts;
use answer_cache::{AnswerBook, Seat, SharedCache};
use dns_queries::{Clock, DATAGRAM_LIMIT, Wire};
use sip_resolver::{CountingIds, Facts, Ids, Limits, Outcome, Resolver};
use srv_choice::RandomWords;
use std::alloc::{AllocError, Global};
use std::marker::Model;
use std::sync::Wait;

/// How many questions a worker has out at once.
const QUESTION_LIMIT: usize = 8;

/// How many requests a worker works on at once.
const REQUEST_LIMIT: usize = 1_024;

/// What a worker has inside at most for so many jobs.
fn limits_for(jobs: usize) -> Limits
    ensures requests { (1 ≤ result.requests) × (result.requests ≤ 1024) }
    ensures questions { (1 ≤ result.questions) × (result.questions ≤ 256) }
{
    Limits {
        requests: jobs.min(REQUEST_LIMIT).max(1),
        questions: QUESTION_LIMIT,
        streams: false,
    }
}

/// So many outcomes of which nothing is known yet.
fn unknown(alloc: Global, count: usize) -> Result<Vec<Outcome>, AllocError>
    ensures { IfOk result (λ made. made.items ≡ replicate count outcomes.Memory) }
{
    let mut made = Vec::with_capacity(alloc, count)?;
    'outcomes: for _outcome in 0..count {
        made.push(Outcome::Memory)?;
    }
    Ok(made)
}

/// The job at this place.
fn job_at(jobs: &[Job], place: usize) -> &Job
    requires { place < length jobs.now }
    ensures { result.now ≡ get_or jobs.now place result.now }
{
    &jobs[place]
}

/// Hands the request of a job to a resolver, under the place of the job, and tells whether it took
/// it: nothing but memory can be wanting.
fn submit<B: AnswerBook, F: Facts, I: Ids + Drop>(
    resolver: &mut Resolver<B, F, I>,
    place: usize,
    job: &Job,
) -> bool
    ensures stand { (seat : SeatView) → Stand F.gives F.shows seat resolver.old.requests
        → Stand F.gives F.shows seat resolver.new.requests }
    ensures weighs { (h : Sought → ℕ) → h (sought_at place job.now) ≡ 0
        → weight h resolver.new.requests ≡ weight h resolver.old.requests }
    ensures inside { IsTrue result → (h : Sought → ℕ) → weight h resolver.new.requests
        ≡ weight h resolver.old.requests + h (sought_at place job.now) }
{
    let Ok(request) = job.request.try_clone() else {
        return false;
    };
    let words = RandomWords::Given(&job.words);
    resolver
        .submit(place as u64, request, job.caps, &words, None)
        .is_ok()
}

/// Begins a job under its place, and tells the gate. Its request is inside then, or the gate was
/// told that it has its outcome.
fn begin<B: AnswerBook, F: Facts, I: Ids + Drop, G: Gate>(
    resolver: &mut Resolver<B, F, I>,
    gate: &G,
    place: usize,
    job: &Job,
)
    ensures stand { (seat : SeatView) → Stand F.gives F.shows seat resolver.old.requests
        → Stand F.gives F.shows seat resolver.new.requests }
    ensures weighs { (h : Sought → ℕ) → h (sought_at place job.now) ≡ 0
        → weight h resolver.new.requests ≡ weight h resolver.old.requests }
    ensures began { G.told gate.now (begins job.now.number) }
    ensures ended { G.told gate.now (is_answered job.now.number)
        ⊎ (0 < weight (at_number place) resolver.new.requests) }
{
    gate.begun(job.number);
    if submit(resolver, place, job) {
        return;
    }
    gate.answered(job.number);
}

/// The jobs of a batch. The request of each is inside a resolver under the place of its job, or
/// has its outcome.
#[derive(Drop)]
pub(crate) struct OpenBatch<'a, W, C> {
    jobs: &'a [Job],
    /// How many of the jobs were begun.
    begun: usize,
    resolver: Resolver<SharedCache, WireFacts<W, C>, &'a mut CountingIds>,
    /// What became of each job: want of memory, as long as nothing else did.
    outcomes: Vec<Outcome>,
}

impl<'a, W, C> Model for OpenBatch<'a, W, C> {
    ghost use Rattle.sip_worker.specs.Batches.{BatchView, Fits};

    ghost Value = { BatchView };

    ghost view = { λ it. record {
      jobs = it.jobs.now;
      begun = it.begun;
      requests = it.resolver.requests;
      outcomes = it.outcomes.items;
    } };

    ghost invariant = { λ it. Fits it.jobs.now it.begun it.resolver.requests it.outcomes.items };
}

impl<'a, W: Wire, C: Clock> OpenBatch<'a, W, C> {
    /// None of the jobs has begun.
    pub(crate) fn new(
        alloc: Global,
        jobs: &'a [Job],
        ids: &'a mut CountingIds,
    ) -> Result<OpenBatch<'a, W, C>, AllocError>
        ensures jobs { IfOk result (λ it. it.jobs ≡ jobs.now) }
        ensures stands { IfOk result
            (λ it. (seat : SeatView) → Stands W.gives C.shows seat it) }
        ensures none { IfOk result (λ it. it.begun ≡ 0) }
    {
        let outcomes = unknown(alloc, jobs.len())?;
        let resolver = Resolver::new(alloc, limits_for(jobs.len()), ids)?;
        Ok(OpenBatch {
            jobs,
            begun: 0,
            resolver,
            outcomes,
        })
    }

    /// Whether each job has its outcome.
    pub(crate) fn is_done(&self) -> bool
        ensures { IsTrue result → IsDone self.now }
    {
        self.begun == self.jobs.len() && self.resolver.is_empty()
    }

    /// What became of the jobs.
    pub(crate) fn into_outcomes(self) -> Vec<Outcome>
        ensures { result.items ≡ self.entry.outcomes }
    {
        let OpenBatch {
            jobs: _,
            begun: _,
            resolver: _resolver,
            outcomes,
        } = self;
        outcomes
    }

    /// Begins the next job, if there is one and there is room for its request, and tells whether
    /// there was.
    fn begin_next<G: Gate>(&mut self, gate: &G) -> bool
        ensures jobs { self.new.jobs ≡ self.old.jobs }
        ensures stands { (seat : SeatView) → Stands W.gives C.shows seat self.old
            → Stands W.gives C.shows seat self.new }
        ensures reported { AreReported (G.told gate.now) self.old.jobs self.old.begun
            self.old.requests
            → AreReported (G.told gate.now) self.new.jobs self.new.begun self.new.requests }
    {
        let place = self.begun;
        if place == self.jobs.len() || !self.resolver.has_room() {
            return false;
        }
        let jobs = self.jobs;
        let job = &jobs[place];
        self.begun = place + 1;
        begin(&mut self.resolver, gate, place, job);
        true
    }

    /// Begins as many jobs as there is room for.
    fn begin_all<G: Gate>(&mut self, gate: &G)
        ensures jobs { self.new.jobs ≡ self.old.jobs }
        ensures stands { (seat : SeatView) → Stands W.gives C.shows seat self.old
            → Stands W.gives C.shows seat self.new }
        ensures reported { AreReported (G.told gate.now) self.old.jobs self.old.begun
            self.old.requests
            → AreReported (G.told gate.now) self.new.jobs self.new.begun self.new.requests }
    {
        'jobs: for _job in 0..self.jobs.len() {
            if !self.begin_next(gate) {
                break;
            }
        }
    }

    /// Takes what became of the request that ended next, and tells whether there was one.
    fn take_next<G: Gate>(&mut self, gate: &G) -> bool
        ensures jobs { self.new.jobs ≡ self.old.jobs }
        ensures stands { (seat : SeatView) → Stands W.gives C.shows seat self.old
            → Stands W.gives C.shows seat self.new }
        ensures reported { AreReported (G.told gate.now) self.old.jobs self.old.begun
            self.old.requests
            → AreReported (G.told gate.now) self.new.jobs self.new.begun self.new.requests }
    {
        let Some(ended) = self.resolver.poll_outcome() else {
            return false;
        };
        let place = ended.number() as usize;
        self.outcomes[place] = ended.into_outcome();
        gate.answered(job_at(self.jobs, place).number);
        true
    }

    /// Takes what became of all requests that ended.
    fn take_all<G: Gate>(&mut self, gate: &G)
        ensures jobs { self.new.jobs ≡ self.old.jobs }
        ensures stands { (seat : SeatView) → Stands W.gives C.shows seat self.old
            → Stands W.gives C.shows seat self.new }
        ensures reported { AreReported (G.told gate.now) self.old.jobs self.old.begun
            self.old.requests
            → AreReported (G.told gate.now) self.new.jobs self.new.begun self.new.requests }
    {
        'jobs: for _job in 0..self.jobs.len() {
            if !self.take_next(gate) {
                break;
            }
        }
    }

    /// Lets each job go on that can, and sends what there is to send.
    pub(crate) fn advance<G: Gate>(
        &mut self,
        cache: &SharedCache,
        seat: &mut Seat,
        wire: &mut W,
        clock: &C,
        gate: &G,
    )
        requires made_here { Belongs cache.now seat.old }
        requires stands { Stands W.gives C.shows seat.old.seat self.old }
        ensures stays { Belongs cache.now seat.new }
        ensures works { Works W.gives C.shows seat.old.seat seat.new.seat }
        ensures jobs { self.new.jobs ≡ self.old.jobs }
        ensures stands { Stands W.gives C.shows seat.new.seat self.new }
        ensures reported { AreReported (G.told gate.now) self.old.jobs self.old.begun
            self.old.requests
            → AreReported (G.told gate.now) self.new.jobs self.new.begun self.new.requests }
    {
        self.begin_all(gate);
        send_all(&mut self.resolver, cache, seat, wire, clock);
        self.take_all(gate);
    }

    /// Takes what the wire gives, where it gives something. Where another job can begin, it waits
    /// for nothing.
    pub(crate) fn listen<R: Wait>(
        &mut self,
        rt: &R,
        cache: &SharedCache,
        seat: &mut Seat,
        wire: &mut W,
        clock: &C,
        buffer: &mut [u8; DATAGRAM_LIMIT],
    )
        requires made_here { Belongs cache.now seat.old }
        requires stands { Stands W.gives C.shows seat.old.seat self.old }
        ensures stays { Belongs cache.now seat.new }
        ensures works { Works W.gives C.shows seat.old.seat seat.new.seat }
        ensures jobs { self.new.jobs ≡ self.old.jobs }
        ensures stands { Stands W.gives C.shows seat.new.seat self.new }
        ensures begun { self.new.begun ≡ self.old.begun }
        ensures same { AreSame self.old.requests self.new.requests }
    {
        if self.begun < self.jobs.len() && self.resolver.has_room() {
            return;
        }
        let _ = receive_once(rt, &mut self.resolver, cache, seat, wire, clock, buffer);
    }
}
