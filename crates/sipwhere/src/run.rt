//! A run, from its options to its status.
ghost use Rattle.std.specs.Prelude.{◌≡◌, ◌⊎◌, ◌*◌, ◌≤◌, IfErr, IfOk, IfSome, Ok, unwrap_or};
ghost use Rattle.std.specs.Duration.{as_nanos};
ghost use Rattle.sipwhere_options.specs.Timings.{AreReplyTimes, IsScheduleOf};
ghost use Rattle.sipwhere.specs.Accounts as spec;
ghost use Rattle.sipwhere.specs.LineOutcomes.{extent_of};
ghost use Rattle.sipwhere.specs.Runs.{IsKey, IsRunOfOptions, IsRunOnHost, IsRunWith};

use crate::counting_book::CountingBook;
use crate::locate_run::LocateRun;
use crate::locate_settings::LocateSettings;
use crate::noting_wire::NotingWire;
use crate::progress::Progress;
use crate::run_system::RunSystem;
use crate::stats::tell_stats;
use answer_cache::ListCache;
use dns_queries::Clock;
use dns_transport::{HostWire, RunClock, Timer, WireOptions};
use sip_report::Report;
use sip_tries::{Extent, PingForm, ServerPinger, random_pings};
use sipwhere_options::{Options, Pinging, Plan, RunFault, reply_times_of, schedule_of};
use std::alloc::Global;
use std::io;
use std::net::Net;
use std::sync::Wait;
use std::time::{self, Duration};

/// How long one text may take.
fn total_of(options: &Options<'_>) -> Duration
    ensures { as_nanos result ≡ options.now.total * 1000000 }
{
    Duration::from_millis(u64::from(options.total))
}

/// How far the targets of URIs are tried, if they are.
fn extent_of(pinging: Option<Pinging>) -> Option<Extent>
    ensures { result ≡ extent_of pinging }
{
    match pinging {
        Some(pinging) => Some(pinging.extent),
        None => None,
    }
}

/// How servers are asked, where they are; else it makes no difference.
fn form_of(pinging: Option<Pinging>) -> PingForm
    ensures { IfSome pinging (λ it. result ≡ it.form) }
{
    match pinging {
        Some(pinging) => pinging.form,
        None => PingForm {
            max_forwards: 0,
            wait: 1,
        },
    }
}

/// Whether it is told how targets came: where lines of it are asked for, and as an object.
fn accounts_of(options: &Options<'_>) -> bool
    ensures { result ≡ spec.accounts options.now }
{
    options.detail.explains || options.detail.draws.is_some() || options.report == Report::Json
}

/// The settings by which the texts are located.
fn settings_of(options: &Options<'_>, plan: &Plan, key: [u8; 32]) -> LocateSettings
    ensures caps { result.caps ≡ options.now.caps }
    ensures key { result.key ≡ key }
    ensures schedule { plan.now.attempts.time ≤ 60_000
        → IsScheduleOf plan.now.attempts result.schedule }
    ensures total { as_nanos result.total ≡ options.now.total * 1000000 }
    ensures extent { result.extent ≡ extent_of options.now.pinging }
    ensures sent_by { result.by_sent_by ≡ options.now.by_sent_by }
    ensures accounts { result.accounts ≡ spec.accounts options.now }
    ensures draws { result.draws ≡ unwrap_or options.now.detail.draws 0 }
{
    LocateSettings {
        caps: options.caps,
        key,
        schedule: schedule_of(plan.attempts),
        total: total_of(options),
        extent: extent_of(options.pinging),
        by_sent_by: options.by_sent_by,
        accounts: accounts_of(options),
        draws: options.detail.draws.unwrap_or(0),
    }
}

/// How the wire asks.
fn wire_options(options: &Options<'_>, plan: &Plan) -> WireOptions
    ensures tcp { result.over_tcp ≡ plan.now.over_tcp }
    ensures form { result.form ≡ options.now.query_form }
    ensures attempts { result.attempts ≡ plan.now.attempts }
    ensures times { AreReplyTimes plan.now.attempts result.reply_times }
    ensures rotates { result.rotates ≡ plan.now.rotates }
    ensures tries { result.keeps_tries ≡ options.now.detail.traced }
    ensures total { as_nanos result.total ≡ options.now.total * 1000000 }
{
    WireOptions {
        over_tcp: plan.over_tcp,
        form: options.query_form,
        attempts: plan.attempts,
        reply_times: reply_times_of(plan.attempts),
        rotates: plan.rotates,
        keeps_tries: options.detail.traced,
        total: total_of(options),
    }
}

/// Does what the options ask for, over a wire, and gives the status.
fn run_wire<R: Wait + Input + Print + Eprint + Net + time::Clock>(
    rt: &R,
    alloc: Global,
    options: &Options<'_>,
    settings: LocateSettings,
    wire: NotingWire<HostWire<'_, R>>,
    clock: &RunClock<'_, R>,
) -> u8
    ensures run { (result ≡ 5) ⊎ IsRunOnHost settings options.now result }
    ensures range { result ≤ 5 }
{
    let (book, seat) = ListCache::new(alloc);
    let (book, seat) = CountingBook::new(book, seat);
    let mut run = LocateRun {
        alloc,
        settings,
        book,
        seat,
        wire,
        clock,
        pinger: ServerPinger::new(rt, random_pings(settings.key), form_of(options.pinging)),
        progress: Progress::new(options.shows_progress),
        output: io::writer(rt),
    };
    let told = run.locate_all(rt, options, rt.reader());
    run.progress.wipe(rt);
    if options.stats {
        tell_stats(
            rt,
            run.wire.wire().counts(),
            run.seat.found(),
            clock.elapsed(),
        );
    }
    drop(run);
    told.status
}

/// Does what the options ask for, over a wire to the servers of the plan, and gives the status.
fn run_over<R: Wait + Input + Print + Eprint + Net + time::Clock>(
    rt: &R,
    alloc: Global,
    options: &Options<'_>,
    plan: &Plan,
    key: [u8; 32],
    wire: HostWire<'_, R>,
    clock: &RunClock<'_, R>,
) -> u8
    ensures run { (result ≡ 5) ⊎ IsRunWith options.now plan.now key result }
    ensures range { result ≤ 5 }
{
    let wire = NotingWire::new(alloc, wire);
    let settings = settings_of(options, plan, key);
    run_wire(rt, alloc, options, settings, wire, clock)
}

/// The key of a run: that of the options, or one that is drawn.
fn key_for<W, C, S: RunSystem<W, C>>(
    system: &S,
    seed: Option<[u8; 32]>,
) -> Result<[u8; 32], RunFault>
    ensures key { IfOk result (IsKey S.drew seed) }
    ensures given { IfSome seed (λ key. result ≡ Ok key) }
    ensures failed { IfErr result S.failed }
{
    match seed {
        Some(key) => Ok(key),
        None => system.draw_key(),
    }
}

/// Does what the options ask for, and gives the status.
///
/// # Errors
///
/// Those of the system alone: of the resolver file, of the local address, of its random octets, of
/// the clock and of the sockets, and want of memory.
pub fn run<
    'a,
    R: Wait + Input + Print + Eprint + Net + time::Clock + AllocGlobal,
    S: RunSystem<HostWire<'a, R>, RunClock<'a, R>>,
>(rt: &'a R, system: &S, options: &Options<'_>) -> Result<u8, RunFault>
    ensures run { IfOk result
        (λ status. (status ≡ 5) ⊎ IsRunOfOptions S.drew options.now status) }
    ensures range { IfOk result (λ status. status ≤ 5) }
    ensures failed { IfErr result S.failed }
{
    let plan = system.plan(options)?;
    let key = key_for::<HostWire<'_, R>, RunClock<'_, R>, S>(system, options.seed)?;
    let clock = system.start_clock()?;
    let asks = wire_options(options, &plan);
    let wire = system.open_wire(plan.servers.as_slice(), options.local, asks, key)?;
    Ok(run_over(rt, rt.alloc(), options, &plan, key, wire, &clock))
}
