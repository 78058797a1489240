//! The threads of a run's workers: they are started, and what they bring home is joined.
ghost use Rattle.std.specs.Prelude.{◌≡◌, ◌+◌, ◌≤◌, ◌<◌, false, [], IsTrue, IfOk, IfSome, OnOk, length, map};
ghost use Rattle.std.specs.List.{All, AllZip, sum_by};
ghost use Rattle.crossbeam_channel.specs.Claims.{IsSeatAt, view};
ghost use Rattle.crossbeam_channel.specs.Ends.{sends_on};
ghost use Rattle.answer_cache.specs.Shared.{Belongs};
ghost use Rattle.sip_workers.specs.Deals.{AreTaken, BringsHome, ComesHome, IsInside, IsPromise, end_of};
ghost use Rattle.sip_workers.specs.Rules.{pass_view};

use crate::part::{Part, Plan, work};
use crate::queue::{Dealt, Queue, Right};
use crate::report::Report;
use answer_cache::{Seat, SharedCache};
use dns_queries::{Clock, Wire};
use sip_worker::{Gate, Job};
use std::alloc::AllocError;
use std::marker::PhantomData;
use std::snapshot::Snapshot;
use std::sync::Wait;
use std::thread::{Promise, PromisedHandle, Scope, Threads};

/// What the thread of a worker is to give.
#[derive(Drop)]
pub(crate) struct Promised<'a, J: Dealt, W: Wire, C: Clock, G> {
    queue: &'a Queue<J>,
    jobs: &'a [Job],
    cache: &'a SharedCache,
    gate: &'a G,
    first: Snapshot<Seat>,
    over: PhantomData<(W, C)>,
}

impl<'a, J: Dealt, W: Wire, C: Clock, G: Gate> Promise<Part<'a, W>> for Promised<'a, J, W, C, G> {
    ghost use Rattle.std.specs.Prelude.{IfOk, IsSomeAnd, OnOk};
    ghost use Rattle.crossbeam_channel.specs.Claims.{IsSeatAt, view};
    ghost use Rattle.crossbeam_channel.specs.Ends.{sends_on};
    ghost use Rattle.sip_workers.specs.Deals.{AreTaken, ComesHome, IsTaken};

    ghost kept_by = { λ it part. IsSeatAt (sends_on it.queue.now.sender) part.right
        × IsTaken (view part.right) part.ended
        × IfOk part.made (λ all.
        AreTaken W.gives C.shows it.cache.now (G.told it.gate.now) it.jobs.now
        (view part.right) all.items)
        × OnOk part.made (IsSomeAnd part.seat
        (ComesHome W.gives C.shows it.cache.now it.first.value)) };
}

/// What the workers brought home: their reports and their seats.
#[derive(Drop)]
pub(crate) struct Home<'a> {
    pub(crate) reports: Vec<Report<'a>>,
    pub(crate) seats: Vec<Seat>,
}

/// The thread of a worker.
pub(crate) type Running<'a, J, W, C, G> = PromisedHandle<Part<'a, W>, Promised<'a, J, W, C, G>>;

/// Starts the thread of a worker.
fn start<
    's,
    E: 's,
    J: Dealt + Send + Sync + 's,
    R: Threads + Wait + Sync + 's,
    W: Wire + Drop + Send + 's,
    C: Clock + Sync + 's,
    G: Gate + Sync + 's,
>(
    scope: &Scope<'s, E>,
    rt: &'s R,
    plan: &'s Plan<'s, J, C, G>,
    seat: Seat,
    wire: W,
    right: Right,
) -> Option<Running<'s, J, W, C, G>>
    requires made_here { Belongs plan.now.cache.now seat }
    requires queue { IsSeatAt (sends_on plan.now.queue.now.sender) right }
    requires fresh { view right ≡ pass_view false 1 [] [] }
    requires inside { All (IsInside plan.now.jobs.now) J.batches }
    ensures promised { IfSome result (λ thread.
        IsPromise plan.now.queue.now thread.promise.queue.now plan.now.jobs.now
        thread.promise.jobs.now plan.now.cache.now thread.promise.cache.now
        plan.now.gate.now thread.promise.gate.now) }
    ensures first { IfSome result (λ thread. thread.promise.first.value ≡ seat) }
{
    let promise = Promised {
        queue: plan.queue,
        jobs: plan.jobs,
        cache: plan.cache,
        gate: plan.gate,
        first: Snapshot::of(&seat),
        over: PhantomData,
    };
    scope
        .spawn_with(promise, move || work(rt, plan, seat, wire, right))
        .ok()
}

/// Starts a thread for each seat, and tells whether each could be.
pub(crate) fn start_all<
    's,
    E: 's,
    J: Dealt + Send + Sync + 's,
    R: Threads + Wait + Sync + 's,
    W: Wire + Drop + Send + 's,
    C: Clock + Sync + 's,
    G: Gate + Sync + 's,
>(
    scope: &Scope<'s, E>,
    rt: &'s R,
    plan: &'s Plan<'s, J, C, G>,
    own: &mut Right,
    seats: Vec<Seat>,
    mut wires: Vec<W>,
) -> Result<(Vec<Running<'s, J, W, C, G>>, bool), AllocError>
    requires made_here { All (Belongs plan.now.cache.now) seats.items }
    requires alike { length wires.items ≡ length seats.items }
    requires queue { IsSeatAt (sends_on plan.now.queue.now.sender) own.old }
    requires parts { length seats.items < (view own.old).parts }
    requires inside { All (IsInside plan.now.jobs.now) J.batches }
    ensures queue { IsSeatAt (sends_on plan.now.queue.now.sender) own.new }
    ensures stays { pass_view (view own.old).deals (view own.new).parts (view own.old).put
        (view own.old).taken ≡ view own.new }
    ensures promised { IfOk result (λ it. All (λ thread.
        IsPromise plan.now.queue.now thread.promise.queue.now plan.now.jobs.now
        thread.promise.jobs.now plan.now.cache.now thread.promise.cache.now
        plan.now.gate.now thread.promise.gate.now) it.0.items) }
    ensures all { IfOk result (λ it. IsTrue it.1 → (length it.0.items ≡ length seats.items)
        × ((view own.new).parts + length it.0.items ≡ (view own.old).parts)) }
    ensures firsts { IfOk result (λ it. IsTrue it.1
        → map (λ thread. thread.promise.first.value) it.0.items ≡ seats.items) }
{
    let mut threads = Vec::with_capacity(plan.alloc, seats.len())?;
    'seats: for seat in seats {
        let Some(wire) = wires.pop() else {
            unreachable!()
        };
        let right = plan.queue.cut(own);
        let Some(thread) = start(scope, rt, plan, seat, wire, right) else {
            return Ok((threads, false));
        };
        threads.push_reserved(thread);
    }
    Ok((threads, true))
}

/// Joins a worker, adds what it made and its seat to the rest, and tells whether it took an end.
fn join_one<'s, J: Dealt, R: Threads, W: Wire + Drop, C: Clock, G: Gate>(
    rt: &R,
    plan: &Plan<'s, J, C, G>,
    own: &mut Right,
    thread: Running<'s, J, W, C, G>,
    home: &mut Home<'s>,
) -> Result<bool, AllocError>
    requires queue { IsSeatAt (sends_on plan.now.queue.now.sender) own.old }
    requires promised { IsPromise plan.now.queue.now thread.promise.queue.now plan.now.jobs.now
        thread.promise.jobs.now plan.now.cache.now thread.promise.cache.now
        plan.now.gate.now thread.promise.gate.now }
    requires made { AreTaken W.gives C.shows plan.now.cache.now (G.told plan.now.gate.now)
        plan.now.jobs.now (view own.old) home.old.reports.items }
    ensures queue { IsSeatAt (sends_on plan.now.queue.now.sender) own.new }
    ensures stays { ((view own.new).deals ≡ (view own.old).deals)
        × ((view own.new).put ≡ (view own.old).put) }
    ensures part { (view own.new).parts ≡ (view own.old).parts + 1 }
    ensures made { OnOk result
        (AreTaken W.gives C.shows plan.now.cache.now (G.told plan.now.gate.now) plan.now.jobs.now
        (view own.new) home.new.reports.items) }
    ensures seat { OnOk result (BringsHome W.gives C.shows plan.now.cache.now
        thread.entry.promise.first.value home.old.seats.items home.new.seats.items) }
    ensures ended { IfOk result (λ ended. IsTrue ended
        → sum_by end_of (view own.old).taken + 1 ≤ sum_by end_of (view own.new).taken) }
{
    let Part {
        right,
        made,
        ended,
        seat,
        ..
    } = thread.join(rt);
    plan.queue.take_in(own, right);
    let mut made = made?;
    home.reports.append(&mut made)?;
    let Some(seat) = seat else { unreachable!() };
    home.seats.push(seat)?;
    Ok(ended)
}

/// What all workers brought home, and whether each took an end.
pub(crate) fn join_all<'s, J: Dealt, R: Threads, W: Wire + Drop, C: Clock, G: Gate>(
    rt: &R,
    plan: &Plan<'s, J, C, G>,
    own: &mut Right,
    mut threads: Vec<Running<'s, J, W, C, G>>,
) -> Result<(Home<'s>, bool), AllocError>
    requires queue { IsSeatAt (sends_on plan.now.queue.now.sender) own.old }
    requires none { (view own.old).taken ≡ [] }
    requires promised { All (λ thread.
        IsPromise plan.now.queue.now thread.promise.queue.now plan.now.jobs.now
        thread.promise.jobs.now plan.now.cache.now thread.promise.cache.now
        plan.now.gate.now thread.promise.gate.now) threads.items }
    ensures queue { IsSeatAt (sends_on plan.now.queue.now.sender) own.new }
    ensures stays { ((view own.new).deals ≡ (view own.old).deals)
        × ((view own.new).put ≡ (view own.old).put) }
    ensures parts { IfOk result (λ it.
        (view own.new).parts ≡ (view own.old).parts + length threads.entry.items) }
    ensures made { IfOk result (λ it.
        AreTaken W.gives C.shows plan.now.cache.now (G.told plan.now.gate.now) plan.now.jobs.now
        (view own.new) it.0.reports.items) }
    ensures seats { IfOk result (λ it. AllZip (ComesHome W.gives C.shows plan.now.cache.now)
        (map (λ thread. thread.promise.first.value) threads.entry.items) it.0.seats.items) }
    ensures ended { IfOk result (λ it. IsTrue it.1
        → length threads.entry.items ≤ sum_by end_of (view own.new).taken) }
{
    let mut home = Home {
        reports: Vec::new(plan.alloc),
        seats: Vec::with_capacity(plan.alloc, threads.len())?,
    };
    let mut ended = true;
    'threads: for thread in threads {
        ended &= join_one(rt, plan, own, thread, &mut home)?;
    }
    Ok((home, ended))
}

/// Waits for the threads, and drops what they made.
pub(crate) fn join_rest<J: Dealt, R: Threads, W: Wire + Drop, C: Clock, G: Gate>(
    rt: &R,
    mut threads: Vec<Running<'_, J, W, C, G>>,
) {
    'threads: while let Some(thread) = threads.pop() {
        thread.join(rt);
    }
}
