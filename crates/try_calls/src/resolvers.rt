//! Calls of `sip_resolver`: what happens to a resolver, and what it gives.
ghost use Rattle.std.specs.Prelude.{◌≤◌, ℕ, IfSome, IsTrue, List};
ghost use Rattle.answer_cache.specs.Seats.{SeatView};
ghost use Rattle.sip_resolver.specs.Requests.{Stand};

use crate::clients;
use crate::fields::moment;
use crate::lookups::{push_number_line, push_yes, zone_of};
use crate::resolver_calls::{
    cancel, close, hear, leave_book, outcome, poll, poll_octets, poll_send, push_awaited, restart,
    serve, submit,
};
use crate::resolver_steps::{LineIds, Setting, Step, Steps, setting_of, steps_of, zone_text};
use crate::schedules::is_in_range;
use answer_cache::{AnswerBook, ListCache, Stores};
use dns_zone::Zone;
use row_fields::{Fault, Output, first_line, only_line};
use sip_resolver::{Facts, Limits, NoFacts, Resolver, Schedule, rounded_up};
use std::alloc::Global;
use std::sync::Wait;

/// What a call gives for a row's lines.
pub(crate) fn told<R: Wait>(
    rt: &R,
    output: &mut Output,
    call: &str,
    input: &str,
) -> Result<(), Fault> {
    match call {
        "script" => script(rt, output, input),
        "rounded_up" => rounded(output, only_line(input)),
        "draw_words" | "random_ids" => clients::told(output, call, input),
        _ => Err(Fault::Call),
    }
}

/// The next moment of a clock.
fn rounded(output: &mut Output, line: &str) -> Result<(), Fault> {
    let now = moment(line)?;
    push_number_line(output, Some(rounded_up(now).get()));
    Ok(())
}

/// The zone of the lines that begin with `zone `.
fn zone_in(alloc: Global, lines: &str) -> Result<Zone, Fault> {
    let text = zone_text(alloc, lines)?;
    zone_of(alloc, &text)
}

/// What a resolver gives for what happens to it, line by line, where a zone replies.
fn script_with<R: Wait>(
    rt: &R,
    output: &mut Output,
    first: &str,
    lines: &str,
    zone: &Zone,
) -> Result<(), Fault> {
    let setting = setting_of(output.alloc(), first)?;
    if !are_limits(setting.limits) || !is_in_range(setting.schedule) {
        return Err(Fault::Form);
    }
    match steps_of(output.alloc(), lines) {
        Ok(steps) => play_new(rt, output, setting, zone, steps),
        Err(fault) => output.fail(fault),
    }
    Ok(())
}

/// What a resolver gives for what happens to it, line by line.
fn script<R: Wait>(rt: &R, output: &mut Output, input: &str) -> Result<(), Fault> {
    let (first, lines) = first_line(input)?;
    let zone = zone_in(output.alloc(), lines)?;
    let done = script_with(rt, output, first, lines, &zone);
    drop(zone);
    done
}

/// Whether a resolver can have these limits.
fn are_limits(limits: Limits) -> bool
    ensures requests { IsTrue result → (1 ≤ limits.requests) × (limits.requests ≤ 1024) }
    ensures questions { IsTrue result → (1 ≤ limits.questions) × (limits.questions ≤ 256) }
{
    limits.requests >= 1
        && limits.requests <= 1024
        && limits.questions >= 1
        && limits.questions <= 256
}

/// A resolver in which no request is, where there is memory for it.
fn empty<B: AnswerBook, F: Facts>(
    alloc: Global,
    limits: Limits,
    schedule: Schedule,
    ids: LineIds,
) -> Option<Resolver<B, F, LineIds>>
    requires requests { (1 ≤ limits.requests) × (limits.requests ≤ 1024) }
    requires questions { (1 ≤ limits.questions) × (limits.questions ≤ 256) }
    requires sends { (1 ≤ schedule.sends) × (schedule.sends ≤ 15) }
    requires wait { (1 ≤ schedule.wait) × (schedule.wait ≤ 60) }
    ensures { (seat : SeatView) → IfSome result
        (λ made. Stand F.gives F.shows seat made.requests) }
{
    let Ok(resolver) = Resolver::with_schedule(alloc, limits, schedule, ids) else {
        return None;
    };
    Some(resolver)
}

/// Plays steps to a new resolver.
fn play_new<R: Wait>(rt: &R, output: &mut Output, setting: Setting, zone: &Zone, steps: Steps)
    requires requests { (1 ≤ setting.limits.requests) × (setting.limits.requests ≤ 1024) }
    requires questions { (1 ≤ setting.limits.questions) × (setting.limits.questions ≤ 256) }
    requires sends { (1 ≤ setting.schedule.sends) × (setting.schedule.sends ≤ 15) }
    requires wait { (1 ≤ setting.schedule.wait) × (setting.schedule.wait ≤ 60) }
{
    let alloc = output.alloc();
    let Setting {
        limits,
        schedule,
        ids,
    } = setting;
    let Some(mut resolver) = empty::<ListCache, NoFacts>(alloc, limits, schedule, ids) else {
        output.fail(Fault::Memory);
        return;
    };
    let Steps { here, there } = steps;
    let (book, mut seat) = ListCache::new(alloc);
    play(rt, output, &mut resolver, &book, &mut seat, zone, here);
    if !there.is_empty() && leave_book(output, &mut resolver) {
        play_there(rt, output, &mut resolver, zone, there);
    }
    drop(resolver);
    drop(seat);
    drop(book);
}

/// Plays steps to a resolver at a new book.
fn play_there<F: Facts, R: Wait>(
    rt: &R,
    output: &mut Output,
    resolver: &mut Resolver<ListCache, F, LineIds>,
    zone: &Zone,
    steps: Vec<Step>,
)
    requires given { (octets : List ℕ) → F.gives octets }
    requires shown { (now : ℕ) → F.shows now }
    requires stand { (seat : SeatView) → Stand F.gives F.shows seat resolver.old.requests }
{
    let (book, mut seat) = ListCache::new(output.alloc());
    play(rt, output, resolver, &book, &mut seat, zone, steps);
    drop(seat);
    drop(book);
}

/// Plays steps to a resolver.
fn play<B: Stores<R>, F: Facts, R>(
    rt: &R,
    output: &mut Output,
    resolver: &mut Resolver<B, F, LineIds>,
    book: &B,
    seat: &mut B::Seat,
    zone: &Zone,
    steps: Vec<Step>,
)
    requires made_here { B.belongs book.now seat.old }
    requires given { (octets : List ℕ) → F.gives octets }
    requires shown { (now : ℕ) → F.shows now }
    requires stand { Stand F.gives F.shows (B.shown seat.old) resolver.old.requests }
{
    'steps: for step in steps {
        does(rt, output, resolver, book, seat, zone, step);
    }
}

/// What a resolver gives for a step.
fn does<B: Stores<R>, F: Facts, R>(
    rt: &R,
    output: &mut Output,
    resolver: &mut Resolver<B, F, LineIds>,
    book: &B,
    seat: &mut B::Seat,
    zone: &Zone,
    step: Step,
)
    requires made_here { B.belongs book.now seat.old }
    requires given { (octets : List ℕ) → F.gives octets }
    requires shown { (now : ℕ) → F.shows now }
    requires stand { Stand F.gives F.shows (B.shown seat.old) resolver.old.requests }
    ensures stays { B.belongs book.now seat.new }
    ensures stand { Stand F.gives F.shows (B.shown seat.new) resolver.new.requests }
{
    match step {
        Step::Submit(submitted) => submit(output, resolver, submitted),
        Step::Poll(now, asked) => poll(output, resolver, book, seat, now, asked),
        Step::PollOctets(now, asked) => poll_octets(output, resolver, book, seat, now, asked),
        Step::PollSend(now, asked) => poll_send(output, resolver, book, seat, now, asked),
        Step::Hear(now, over, octets) => {
            hear(rt, output, resolver, book, seat, now, over, &octets);
        }
        Step::Serve(now) => serve(rt, output, resolver, book, seat, zone, now),
        Step::Cancel(number) => cancel(output, resolver, number),
        Step::Close(id) => close(output, resolver, id),
        Step::Restart => restart(output, resolver),
        Step::AwaitedId(number) => push_awaited(output, resolver, number),
        Step::IsOut(id) => push_yes(output, resolver.is_out(id)),
        Step::PollOutcome => outcome(output, resolver),
        Step::NextTimeout => push_number_line(output, resolver.next_timeout()),
        Step::HasRoom => push_yes(output, resolver.has_room()),
        Step::IsEmpty => push_yes(output, resolver.is_empty()),
        Step::Zone => {}
    }
}
