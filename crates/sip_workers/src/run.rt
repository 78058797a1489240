//! Many workers at once, each in a thread of its own, over one shared cache.
ghost use Rattle.std.specs.Prelude.{⊤, ◌≡◌, ◌<◌, ◌≤◌, true, List, [], Decides, IsTrue, IfErr, IfOk, OnOk, length};
ghost use Rattle.std.specs.List.{All, AllZip};
ghost use Rattle.crossbeam_channel.specs.Claims.{IsSeatAt, view};
ghost use Rattle.crossbeam_channel.specs.Ends.{sends_on};
ghost use Rattle.answer_cache.specs.Shared.{Belongs, SharedView};
ghost use Rattle.sip_worker.specs.Gates.{IsToldOf};
ghost use Rattle.sip_workers.specs.Deals.{AreSized, ComesHome, EachOnce, IsCut, IsReport};
ghost use Rattle.sip_workers.specs.Rules.{all_parts, pass_view};
ghost use Rattle.sip_workers.specs.Runs.{AreMade, HaveOneHistory, MayRun, RefusesRun, Rises};
ghost use Rattle.sip_workers.specs.declared.refusal.RunRefusal.TheVariants.{Memory};

use crate::batch::Batch;
use crate::gathering::gather;
use crate::history::see_one_history;
use crate::part::Plan;
use crate::putting::{put_all, put_ends};
use crate::queue::{Dealt, Queue, Right};
use crate::refusal::RunRefusal;
use crate::report::results_of;
use crate::threads::{Home, join_all, join_rest, start_all};
use answer_cache::{Notice, Seat, SharedCache};
use dns_queries::{Clock, Wire};
use sip_resolver::Outcome;
use sip_worker::{Gate, Job};
use std::alloc::{AllocError, Global};
use std::marker::Brand;
use std::sync::Wait;
use std::thread;
use std::thread::{Scope, Threads};

/// How many jobs a run has at most.
const JOB_LIMIT: usize = 10_000;

/// How many jobs a batch has at most.
const BATCH_LIMIT: usize = 8;

/// Whether the number of each job is below the number of the next.
pub(crate) fn rises(jobs: &[Job]) -> bool
    ensures { Decides result (Rises jobs.now) }
{
    jobs.is_sorted_by(|first, second| first.number < second.number)
}

/// Whether a run of these is one.
fn may_run(seats: usize, wires: usize, jobs: &[Job], batch: usize) -> bool
    ensures { Decides result (MayRun seats wires jobs.now batch) }
{
    seats > 0
        && wires == seats
        && batch > 0
        && batch <= BATCH_LIMIT
        && jobs.len() <= JOB_LIMIT
        && rises(jobs)
}

/// Cuts jobs into batches of this size; the last one may be smaller.
fn cut(alloc: Global, jobs: &[Job], size: usize) -> Result<Vec<Batch>, AllocError>
    requires { 0 < size }
    ensures cut { IfOk result (λ batches. IsCut jobs.now (length jobs.now) batches.items) }
    ensures sized { IfOk result (λ batches.
        AreSized size (length jobs.now) 0 batches.items) }
{
    let mut batches = Vec::new(alloc);
    let mut first = 0;
    'cuts: while first < jobs.len() {
        let count = size.min(jobs.len() - first);
        batches.push(Batch { first, count })?;
        first += count;
    }
    Ok(batches)
}

/// What the workers brought home, and whether the queue failed nowhere: each batch and each end was
/// put, and each worker took an end. Where a thread could not be started, those that run get an end
/// each.
fn deal_out<
    's,
    E: 's,
    J: Dealt + Send + Sync + 's,
    R: Threads + Wait + Sync + 's,
    W: Wire + Drop + Send + 's,
    C: Clock + Sync + 's,
    G: Gate + Sync + 's,
>(
    scope: &Scope<'s, E>,
    rt: &'s R,
    plan: &'s Plan<'s, J, C, G>,
    mut own: Right,
    seats: Vec<Seat>,
    wires: Vec<W>,
) -> Result<(Home<'s>, bool), RunRefusal>
    requires made_here { All (Belongs plan.now.cache.now) seats.items }
    requires alike { length wires.items ≡ length seats.items }
    requires some { 0 < length seats.items }
    requires queue { IsSeatAt (sends_on plan.now.queue.now.sender) own }
    requires fresh { view own ≡ pass_view true all_parts [] [] }
    requires batches { plan.now.batches.now ≡ J.batches }
    requires cut { IsCut plan.now.jobs.now (length plan.now.jobs.now) J.batches }
    ensures told { IfOk result (λ it. All (IsReport W.gives C.shows plan.now.cache.now
        (G.told plan.now.gate.now)) it.0.reports.items) }
    ensures once { IfOk result (λ it.
        IsTrue it.1 → EachOnce plan.now.jobs.now it.0.reports.items) }
    ensures seats { IfOk result (λ it.
        AllZip (ComesHome W.gives C.shows plan.now.cache.now) seats.items it.0.seats.items) }
    ensures refused { IfErr result (RefusesRun ⊤) }
{
    let (threads, started) = start_all(scope, rt, plan, &mut own, seats, wires)?;
    if !started {
        put_ends(rt, plan.queue, &mut own, threads.len());
        join_rest(rt, threads);
        return Err(RunRefusal::NoThread);
    }
    let dealt = put_all(rt, plan.queue, &mut own, plan.batches);
    let ended = put_ends(rt, plan.queue, &mut own, threads.len());
    let (home, took) = join_all(rt, plan, &mut own, threads)?;
    plan.queue.tell_whole(&mut own);
    Ok((home, dealt & ended & took))
}

/// What became of each job, in order, over one history of the seats that come home. Where the queue
/// failed nowhere, each job has one result, and memory alone can be wanted.
fn put_in_order<J: Dealt, W: Wire + Drop, C: Clock, G: Gate>(
    plan: &Plan<'_, J, C, G>,
    home: Home<'_>,
    whole: bool,
) -> Result<Vec<(Outcome, Notice)>, RunRefusal>
    requires rises { Rises plan.now.jobs.now }
    requires told { All (IsReport W.gives C.shows plan.now.cache.now
        (G.told plan.now.gate.now)) home.reports.items }
    requires once { IsTrue whole → EachOnce plan.now.jobs.now home.reports.items }
    requires some { 0 < length home.seats.items }
    requires here { All (Belongs plan.now.cache.now) home.seats.items }
    ensures outcomes { IfOk result (λ made.
        AreMade W.gives C.shows plan.now.cache.now plan.now.jobs.now made.items) }
    ensures gate { IfOk result (λ _. All (IsToldOf (G.told plan.now.gate.now)) plan.now.jobs.now) }
    ensures refused { IfErr result (RefusesRun ⊤) }
    ensures memory { IsTrue whole → IfErr result (λ refusal. refusal ≡ Memory) }
    ensures one_history { (firsts : List SharedView)
        → AllZip (ComesHome W.gives C.shows plan.now.cache.now) firsts home.entry.seats.items
        → IfOk result (λ made.
        HaveOneHistory W.gives C.shows plan.now.cache.now firsts made.items) }
{
    let Home { reports, seats } = home;
    let results = results_of::<W, C>(plan.alloc, reports)?;
    let made = gather(plan.alloc, plan.jobs, results)?;
    see_one_history(plan.cache, seats, made.as_slice());
    Ok(made)
}

/// Works on the jobs of this plan, each worker in a thread of its own.
fn run_plan<
    J: Dealt + Send + Sync,
    R: Threads + Wait + Sync,
    W: Wire + Drop + Send,
    C: Clock + Sync,
    G: Gate + Sync,
>(
    rt: &R,
    plan: &Plan<'_, J, C, G>,
    own: Right,
    seats: Vec<Seat>,
    wires: Vec<W>,
) -> Result<Vec<(Outcome, Notice)>, RunRefusal>
    requires made_here { All (Belongs plan.now.cache.now) seats.items }
    requires alike { length wires.items ≡ length seats.items }
    requires some { 0 < length seats.items }
    requires rises { Rises plan.now.jobs.now }
    requires queue { IsSeatAt (sends_on plan.now.queue.now.sender) own }
    requires fresh { view own ≡ pass_view true all_parts [] [] }
    requires batches { plan.now.batches.now ≡ J.batches }
    requires cut { IsCut plan.now.jobs.now (length plan.now.jobs.now) J.batches }
    ensures outcomes { IfOk result (λ made.
        AreMade W.gives C.shows plan.now.cache.now plan.now.jobs.now made.items) }
    ensures one_history { IfOk result (λ made.
        HaveOneHistory W.gives C.shows plan.now.cache.now seats.items made.items) }
    ensures gate { IfOk result (λ _. All (IsToldOf (G.told plan.now.gate.now)) plan.now.jobs.now) }
    ensures refused { IfErr result (RefusesRun ⊤) }
{
    thread::scope(
        thread::scope_env(),
        rt,
        |scope| -> Result<Vec<(Outcome, Notice)>, RunRefusal>
            requires { All (Belongs plan.now.cache.now) seats.items
                × (length wires.items ≡ length seats.items) × (0 < length seats.items)
                × Rises plan.now.jobs.now × IsSeatAt (sends_on plan.now.queue.now.sender) own
                × (view own ≡ pass_view true all_parts [] [])
                × (plan.now.batches.now ≡ J.batches)
                × IsCut plan.now.jobs.now (length plan.now.jobs.now) J.batches }
            ensures outcomes { IfOk result (λ made. AreMade W.gives C.shows
                plan.entry.now.cache.now plan.entry.now.jobs.now made.items) }
            ensures one_history { IfOk result (λ made. HaveOneHistory W.gives C.shows
                plan.entry.now.cache.now seats.items made.items) }
            ensures gate { IfOk result (λ _.
                All (IsToldOf (G.told plan.entry.now.gate.now)) plan.entry.now.jobs.now) }
            ensures refused { IfErr result (RefusesRun ⊤) }
        {
            let (home, whole) = deal_out::<_, J, R, W, C, G>(scope, rt, plan, own, seats, wires)?;
            put_in_order::<J, W, C, G>(plan, home, whole)
        },
    )
}

/// Works on these jobs in these batches, of which the rule of the queue tells.
fn run_batches<
    J: Dealt + Send + Sync,
    R: Threads + Wait + Sync,
    W: Wire + Drop + Send,
    C: Clock + Sync,
    G: Gate + Sync,
>(
    rt: &R,
    alloc: Global,
    cache: &SharedCache,
    seats: Vec<Seat>,
    wires: Vec<W>,
    jobs: &[Job],
    batches: &[Batch],
    clock: &C,
    gate: &G,
) -> Result<Vec<(Outcome, Notice)>, RunRefusal>
    requires made_here { All (Belongs cache.now) seats.items }
    requires alike { length wires.items ≡ length seats.items }
    requires some { 0 < length seats.items }
    requires rises { Rises jobs.now }
    requires batches { batches.now ≡ J.batches }
    requires cut { IsCut jobs.now (length jobs.now) J.batches }
    ensures outcomes { IfOk result (λ made.
        AreMade W.gives C.shows cache.now jobs.now made.items) }
    ensures one_history { IfOk result (λ made.
        HaveOneHistory W.gives C.shows cache.now seats.items made.items) }
    ensures gate { IfOk result (λ _. All (IsToldOf (G.told gate.now)) jobs.now) }
    ensures refused { IfErr result (RefusesRun ⊤) }
{
    let (queue, own) = Queue::<J>::new(alloc, seats.len())?;
    let plan = Plan {
        alloc,
        cache,
        queue: &queue,
        jobs,
        batches,
        clock,
        gate,
    };
    run_plan(rt, &plan, own, seats, wires)
}

/// Resolves these jobs by many workers at once, one for each seat, each over a wire and in a thread
/// of its own. What one worker stores the others find, too.
///
/// The jobs are cut into batches of this many, in order, and a worker that is free takes the next
/// one. The result has what became of each job, in order, with its worker's notice taken then. What
/// the notices tell is of one history. Of each seat it has the stores that the seat had made, and
/// then answers of replies alone, once each and in the order in which the seat stored them. The
/// gate is told of each job that it begins, and that it has its outcome. The seats and the wires
/// are given up in each case.
///
/// `BadCount` exactly where there are no seats or not as many wires as seats, a batch is not of 1
/// to 8 jobs, the numbers of the jobs do not rise strictly, or there are over 10,000 jobs;
/// `NoThread` where a thread could not be made, and `Memory` where memory was refused. `Gathering`
/// needs a channel that says that its other ends are gone, which they are not. The threads that run
/// are waited for in each case.
pub fn run_workers<
    R: Threads + Wait + Sync,
    W: Wire + Drop + Send,
    C: Clock + Sync,
    G: Gate + Sync,
>(
    rt: &R,
    alloc: Global,
    cache: &SharedCache,
    seats: Vec<Seat>,
    wires: Vec<W>,
    jobs: Vec<Job>,
    batch: usize,
    clock: &C,
    gate: &G,
) -> Result<Vec<(Outcome, Notice)>, RunRefusal>
    requires made_here { All (Belongs cache.now) seats.items }
    ensures good { OnOk result
        (MayRun (length seats.items) (length wires.items) jobs.items batch) }
    ensures refused { IfErr result (RefusesRun
        (MayRun (length seats.items) (length wires.items) jobs.items batch)) }
    ensures gate { IfOk result (λ _. All (IsToldOf (G.told gate.now)) jobs.items) }
    ensures outcomes { IfOk result (λ made.
        AreMade W.gives C.shows cache.now jobs.items made.items) }
    ensures one_history { IfOk result (λ made.
        HaveOneHistory W.gives C.shows cache.now seats.items made.items) }
{
    if !may_run(seats.len(), wires.len(), jobs.as_slice(), batch) {
        return Err(RunRefusal::BadCount);
    }
    let jobs = jobs.as_slice();
    let batches = cut(alloc, jobs, batch)?;
    let batches = batches.as_slice();
    run_batches::<Brand, R, W, C, G>(rt, alloc, cache, seats, wires, jobs, batches, clock, gate)
}
