//! Many requests at once, from their text to what is printed.
ghost use Rattle.std.specs.Prelude.{◌≤◌, IfErr, IfOk, OnOk, length};
ghost use Rattle.std.specs.List.{All};
ghost use Rattle.std.specs.String.{string_bytes};
ghost use Rattle.answer_cache.specs.Shared.{Belongs};
ghost use Rattle.siplocate.specs.Runs.{FitsSeats, HasTooMany, IsRun, RefusesText};

use crate::line_outcome::{line_outcomes_of, printed, status};
use crate::requests::{Requests, read_requests};
use answer_cache::{Seat, SharedCache};
use dns_queries::{Clock, Wire};
use sip_workers::{Gate, RunRefusal, run_workers};
use std::alloc::Global;
use std::sync::Wait;
use std::thread::Threads;

/// How many requests a worker takes at a time.
const BATCH: usize = 8;

/// What is printed of the requests of a text, and the status, where a worker for each seat asks
/// over a wire of its own.
///
/// `BadCount` exactly where there are no seats, or not as many wires as seats, or over 10,000
/// requests, but for want of memory; `NoThread` where a thread could not be made, and `Memory`
/// where memory was refused. `Gathering` is one of `run_workers`.
pub fn run_text<R: Threads + Wait + Sync, W: Wire + Drop + Send, C: Clock + Sync, G: Gate + Sync>(
    rt: &R,
    alloc: Global,
    text: &str,
    cache: &SharedCache,
    seats: Vec<Seat>,
    wires: Vec<W>,
    clock: &C,
    gate: &G,
) -> Result<(String, u8), RunRefusal>
    requires made_here { All (Belongs cache.now) seats.items }
    ensures run { IfOk result (λ told.
        IsRun W.gives C.shows cache.now seats.items text.now (string_bytes told.0) told.1) }
    ensures range { IfOk result (λ told. told.1 ≤ 5) }
    ensures good { OnOk result (FitsSeats (length seats.items) (length wires.items)) }
    ensures few { IfOk result (λ _. HasTooMany text.now → ⊥) }
    ensures refused { IfErr result
        (RefusesText text.now (length seats.items) (length wires.items)) }
{
    let Requests { entries, jobs } = read_requests(alloc, text)?;
    let made = run_workers(rt, alloc, cache, seats, wires, jobs, BATCH, clock, gate)?;
    let line_outcomes = line_outcomes_of(alloc, entries, made)?;
    let lines = printed(alloc, line_outcomes.as_slice())?;
    Ok((lines, status(line_outcomes.as_slice())))
}
