//! A worker: it resolves a batch of requests at once, over its wire and the shared cache.
ghost use Rattle.std.specs.Prelude.{◌≡◌, IfOk, map};
ghost use Rattle.std.specs.List.{All};
ghost use Rattle.answer_cache.specs.Shared.{Belongs};
ghost use Rattle.sip_resolver.specs.Works.{Works};
ghost use Rattle.sip_worker.specs.Batches.{AreReported, AreTold, Stands};
ghost use Rattle.sip_worker.specs.Gates.{IsToldOf};
ghost use Rattle.sip_worker.specs.Outcomes.{IsOutcomeAt};

use crate::gate::Gate;
use crate::job::Job;
use crate::open_batch::OpenBatch;
use crate::outcome::JobResult;
use answer_cache::{Seat, SharedCache};
use dns_queries::{Clock, DATAGRAM_LIMIT, Wire};
use sip_resolver::{CountingIds, Outcome};
use std::alloc::{AllocError, Global};
use std::marker::Model;
use std::sync::Wait;

/// A seat at a shared cache, with a wire to a DNS server.
///
/// The ids of its queries count up from 0, along all its batches.
#[derive(Drop)]
pub struct Worker<W> {
    alloc: Global,
    seat: Seat,
    wire: W,
    ids: CountingIds,
}

impl<W> Model for Worker<W> {
    ghost use Rattle.answer_cache.specs.Shared.{SharedView};

    ghost Value = { SharedView };

    ghost view = { λ it. it.seat };
}

/// Works on the jobs of a batch until each has its outcome.
fn resolve<R: Wait, W: Wire, C: Clock, G: Gate>(
    rt: &R,
    cache: &SharedCache,
    seat: &mut Seat,
    wire: &mut W,
    clock: &C,
    gate: &G,
    batch: &mut OpenBatch<'_, W, C>,
)
    requires made_here { Belongs cache.now seat.old }
    requires stands { Stands W.gives C.shows seat.old.seat batch.old }
    requires none { batch.old.begun ≡ 0 }
    ensures stays { Belongs cache.now seat.new }
    ensures works { Works W.gives C.shows seat.old.seat seat.new.seat }
    ensures jobs { batch.new.jobs ≡ batch.old.jobs }
    ensures stands { Stands W.gives C.shows seat.new.seat batch.new }
    ensures told { All (IsToldOf (G.told gate.now)) batch.new.jobs }
{
    let mut buffer = [0; DATAGRAM_LIMIT];
    'rounds: for _ in rt.forever() {
        batch.advance(cache, seat, wire, clock, gate);
        if batch.is_done() {
            return;
        }
        batch.listen(rt, cache, seat, wire, clock, &mut buffer);
    }
    unreachable!()
}

impl<W: Wire + Drop> Worker<W> {
    /// A worker with no question out.
    pub fn new(alloc: Global, seat: Seat, wire: W) -> Result<Worker<W>, AllocError>
        ensures { IfOk result (λ it. it ≡ seat) }
    {
        Ok(Worker {
            alloc,
            seat,
            wire,
            ids: CountingIds::new(),
        })
    }

    /// Its seat, once it takes no more.
    #[must_use]
    pub fn into_seat(self) -> Seat
        ensures { result ≡ self }
    {
        let Worker { seat, .. } = self;
        seat
    }

    /// What became of these jobs, in their order.
    fn results<'a, C: Clock>(
        &self,
        jobs: &'a [Job],
        outcomes: Vec<Outcome>,
    ) -> Result<Vec<JobResult<'a, W, C>>, AllocError>
        requires told { AreTold W.gives C.shows self.now.seat jobs.now outcomes.items }
        ensures jobs { IfOk result (λ made. map (λ it. it.job) made.items ≡ jobs.now) }
        ensures notices { IfOk result (λ made. All (λ it. (it.notice.cache ≡ self.now.cache)
            × (it.notice.seen ≡ self.now.seat.seen)) made.items) }
        ensures outcomes { IfOk result (λ made. All (λ it.
            IsOutcomeAt W.gives C.shows self.now.seat it.job it.outcome) made.items) }
    {
        let mut results = Vec::with_capacity(self.alloc, jobs.len())?;
        'outcomes: for outcome in outcomes {
            let job = &jobs[results.len()];
            results.push(JobResult::new(job, outcome, self.seat.notice()))?;
        }
        Ok(results)
    }

    /// Resolves these jobs, all at once, and gives what became of each, in their order. The gate is
    /// told of each that it begins, and that it has its outcome. Where memory is refused, what was
    /// stored stays stored.
    pub fn batch<'a, R: Wait, C: Clock, G: Gate>(
        &mut self,
        rt: &R,
        cache: &SharedCache,
        jobs: &'a [Job],
        clock: &C,
        gate: &G,
    ) -> Result<Vec<JobResult<'a, W, C>>, AllocError>
        requires made_here { Belongs cache.now self.old }
        ensures stays { Belongs cache.now self.new }
        ensures works { Works W.gives C.shows self.old.seat self.new.seat }
        ensures jobs { IfOk result (λ made. map (λ it. it.job) made.items ≡ jobs.now) }
        ensures notices { IfOk result (λ made. All (λ it. (it.notice.cache ≡ cache.now)
            × (it.notice.seen ≡ self.new.seat.seen)) made.items) }
        ensures outcomes { IfOk result (λ made. All (λ it.
            IsOutcomeAt W.gives C.shows self.new.seat it.job it.outcome) made.items) }
        ensures told { IfOk result (λ _. All (IsToldOf (G.told gate.now)) jobs.now) }
    {
        let mut batch = OpenBatch::new(self.alloc, jobs, &mut self.ids)?;
        resolve(
            rt,
            cache,
            &mut self.seat,
            &mut self.wire,
            clock,
            gate,
            &mut batch,
        );
        let outcomes = batch.into_outcomes();
        self.results(jobs, outcomes)
    }
}
