//! What a worker makes of the batches that it takes: it takes until an end comes, or the queue says
//! that its other ends are gone.
ghost use Rattle.std.specs.Prelude.{OnOk, ◌≡◌, ◌++◌, false, [], IfOk, IsOkAnd, IsSomeAnd, map};
ghost use Rattle.std.specs.List.{All};
ghost use Rattle.crossbeam_channel.specs.Claims.{IsSeatAt, view};
ghost use Rattle.crossbeam_channel.specs.Ends.{sends_on};
ghost use Rattle.answer_cache.specs.Shared.{Belongs};
ghost use Rattle.sip_workers.specs.Deals.{AreTaken, ComesHome, IsInside, IsReport, IsTaken, StoresReplies, jobs_of};
ghost use Rattle.sip_workers.specs.Gathers.{job_in};
ghost use Rattle.sip_workers.specs.Rules.{pass_view};

use crate::batch::Batch;
use crate::queue::{Dealt, Queue, Right};
use crate::report::{Report, reports_of};
use answer_cache::{Seat, SharedCache};
use dns_queries::{Clock, Wire};
use sip_worker::{Gate, Job, Worker};
use std::alloc::{AllocError, Global};
use std::marker::PhantomData;
use std::sync::Wait;

/// What all workers of a run share.
#[derive(Drop)]
pub(crate) struct Plan<'a, J: Dealt, C, G> {
    pub(crate) alloc: Global,
    pub(crate) cache: &'a SharedCache,
    pub(crate) queue: &'a Queue<J>,
    pub(crate) jobs: &'a [Job],
    pub(crate) batches: &'a [Batch],
    pub(crate) clock: &'a C,
    pub(crate) gate: &'a G,
}

/// The reports of the jobs that a worker took.
type Reports<'a> = Result<Vec<Report<'a>>, AllocError>;

/// What a worker brings home: its seat, too, unless it could not be made.
#[derive(Drop)]
pub(crate) struct Part<'a, W> {
    pub(crate) right: Right,
    pub(crate) made: Reports<'a>,
    pub(crate) ended: bool,
    pub(crate) seat: Option<Seat>,
    pub(crate) over: PhantomData<W>,
}

/// The jobs of a batch.
fn jobs_at(jobs: &[Job], batch: Batch) -> &[Job]
    requires { IsInside jobs.now batch }
    ensures { result.now ≡ jobs_of jobs.now batch }
{
    &jobs[batch.first..batch.first + batch.count]
}

/// What was made, and the results of these jobs; without memory nothing.
fn more<'a, J: Dealt, R: Wait, W: Wire + Drop, C: Clock, G: Gate>(
    rt: &R,
    plan: &Plan<'a, J, C, G>,
    worker: &mut Worker<W>,
    made: Reports<'a>,
    jobs: &'a [Job],
) -> Reports<'a>
    requires made_here { Belongs plan.now.cache.now worker.old }
    requires here { IfOk made (λ all. All (IsReport W.gives C.shows plan.now.cache.now
        (G.told plan.now.gate.now)) all.items) }
    ensures made_here { Belongs plan.now.cache.now worker.new }
    ensures stored { StoresReplies W.gives C.shows worker.old.seat worker.new.seat }
    ensures jobs { IfOk result (λ after. IsOkAnd made.entry (λ before.
        map job_in after.items ≡ map job_in before.items ++ jobs.now)) }
    ensures here { IfOk result (λ all. All (IsReport W.gives C.shows plan.now.cache.now
        (G.told plan.now.gate.now)) all.items) }
{
    let mut all = made?;
    let results = worker.batch(rt, plan.cache, jobs, plan.clock, plan.gate)?;
    let mut new = reports_of(plan.alloc, results)?;
    all.append(&mut new)?;
    Ok(all)
}

/// What a worker makes of what it takes. After want of memory it goes on taking, and drops what it
/// takes.
fn work_off<'a, J: Dealt, R: Wait, W: Wire + Drop, C: Clock, G: Gate>(
    rt: &R,
    plan: &Plan<'a, J, C, G>,
    mut worker: Worker<W>,
    mut right: Right,
) -> Part<'a, W>
    requires made_here { Belongs plan.now.cache.now worker }
    requires queue { IsSeatAt (sends_on plan.now.queue.now.sender) right }
    requires fresh { view right ≡ pass_view false 1 [] [] }
    requires inside { All (IsInside plan.now.jobs.now) J.batches }
    ensures queue { IsSeatAt (sends_on plan.now.queue.now.sender) result.right }
    ensures taken { IsTaken (view result.right) result.ended }
    ensures made { IfOk result.made (λ all.
        AreTaken W.gives C.shows plan.now.cache.now (G.told plan.now.gate.now) plan.now.jobs.now
        (view result.right) all.items) }
    ensures seat { IsSomeAnd result.seat
        (ComesHome W.gives C.shows plan.now.cache.now worker) }
{
    let mut made = Ok(Vec::new(plan.alloc));
    let mut ended = false;
    'batches: for _ in rt.forever() {
        let Some(batch) = plan.queue.take(rt, &mut right) else {
            break;
        };
        if batch.count == 0 {
            ended = true;
            break;
        }
        made = more(rt, plan, &mut worker, made, jobs_at(plan.jobs, batch));
    }
    Part {
        right,
        made,
        ended,
        seat: Some(worker.into_seat()),
        over: PhantomData,
    }
}

/// What a worker that can't be made takes: until its end, and drops it.
fn drain<'a, J: Dealt, R: Wait, W, C, G>(
    rt: &R,
    plan: &Plan<'a, J, C, G>,
    error: AllocError,
    mut right: Right,
) -> Part<'a, W>
    requires queue { IsSeatAt (sends_on plan.now.queue.now.sender) right }
    requires fresh { view right ≡ pass_view false 1 [] [] }
    ensures queue { IsSeatAt (sends_on plan.now.queue.now.sender) result.right }
    ensures taken { IsTaken (view result.right) result.ended }
    ensures none { OnOk result.made ⊥ }
{
    let mut ended = false;
    'batches: for _ in rt.forever() {
        let Some(batch) = plan.queue.take(rt, &mut right) else {
            break;
        };
        if batch.count == 0 {
            ended = true;
            break;
        }
    }
    Part {
        right,
        made: Err(error),
        ended,
        seat: None,
        over: PhantomData,
    }
}

/// What a worker at this seat and over this wire makes of what it takes.
pub(crate) fn work<'a, J: Dealt, R: Wait, W: Wire + Drop, C: Clock, G: Gate>(
    rt: &R,
    plan: &Plan<'a, J, C, G>,
    seat: Seat,
    wire: W,
    right: Right,
) -> Part<'a, W>
    requires made_here { Belongs plan.now.cache.now seat }
    requires queue { IsSeatAt (sends_on plan.now.queue.now.sender) right }
    requires fresh { view right ≡ pass_view false 1 [] [] }
    requires inside { All (IsInside plan.now.jobs.now) J.batches }
    ensures queue { IsSeatAt (sends_on plan.now.queue.now.sender) result.right }
    ensures taken { IsTaken (view result.right) result.ended }
    ensures made { IfOk result.made (λ all.
        AreTaken W.gives C.shows plan.now.cache.now (G.told plan.now.gate.now) plan.now.jobs.now
        (view result.right) all.items) }
    ensures seat { OnOk result.made (IsSomeAnd result.seat
        (ComesHome W.gives C.shows plan.now.cache.now seat)) }
{
    match Worker::new(plan.alloc, seat, wire) {
        Ok(worker) => work_off(rt, plan, worker, right),
        Err(error) => drain(rt, plan, error, right),
    }
}
