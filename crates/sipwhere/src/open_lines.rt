//! Texts that are located side by side.
ghost use Rattle.std.specs.Prelude.{◌≡◌, ◌+◌, ◌/◌, ◌^◌, ◌<◌, ◌≤◌, IfOk, IfSome, None, length};
ghost use Rattle.std.specs.Prelude.{◌↔◌, ◌⊎◌, ◌++◌, ℕ, List, Option, IsFalse, IsTrue, replicate, set, slice_index_or};
ghost use Rattle.std.specs.Duration.{as_nanos};
ghost use Rattle.answer_cache.specs.Seats.{GoesOn, SeatView, StoresNothing};
ghost use Rattle.sip_resolver.specs.Outcomes.{IsOutcome};
ghost use Rattle.sipwhere.specs.Accounts.{IsAccountOfText, IsEmpty, IsEndAccount};
ghost use Rattle.sipwhere.specs.OpenLines.{HasTold, IsMeant, Stands, TellsFirst};
ghost use Rattle.sipwhere.specs.Runs.{IsGravest, StaysSo};

use crate::account::{account_of, no_account};
use crate::line::Line;
use crate::line_result::LineResult;
use crate::locate_settings::LocateSettings;
use crate::noting_wire::NameNotes;
use crate::submitted_lines::{line_outcome_of, submit, timed_out};
use crate::tell::{FAULT_TOLD, NOTHING_TOLD, TimedText, Told, tell};
use answer_cache::{AnswerBook, Stores};
use dns_answers::Moment;
use dns_queries::{Clock, MessageWire, Schedule};
use dns_transport::{Timer, Tracer};
use rand_chacha::ChaCha20Rng;
use sip_report::{Account, LineOutcome, Style};
use sip_resolver::{
    Limits, RandomIds, Resolved, Resolver, WireFacts, cancel_over,
    law_requests_stand_as_seats_go_on, poll_over, random_ids,
};
use sip_tries::Pinger;
use std::alloc::{AllocError, Global};
use std::io::Write;
use std::marker::Model;
use std::net::SocketAddr;
use std::time::Duration;

/// How many requests are inside at once. A resolver goes through all that wait at each reply.
const REQUEST_LIMIT: usize = 64;

/// How many questions are out at once. So all of them are among those that a wire keeps.
const QUESTION_LIMIT: usize = 64;

/// What is inside a resolver at most for so many lines. The wire asks again over TCP by itself, so
/// no question goes over a stream here.
fn limits_for(lines: usize) -> Limits
    ensures requests { (1 ≤ result.requests) × (result.requests ≤ 1024) }
    ensures questions { (1 ≤ result.questions) × (result.questions ≤ 256) }
{
    Limits {
        requests: lines.min(REQUEST_LIMIT).max(1),
        questions: QUESTION_LIMIT,
        streams: false,
    }
}

/// A schedule within the bounds of a resolver.
fn bounded(schedule: Schedule) -> Schedule
    ensures sends { (1 ≤ result.sends) × (result.sends ≤ 15) }
    ensures wait { (1 ≤ result.wait) × (result.wait ≤ 60) }
    ensures same { (1 ≤ schedule.sends) × (schedule.sends ≤ 15) → (1 ≤ schedule.wait)
        × (schedule.wait ≤ 60) → result ≡ schedule }
{
    Schedule {
        sends: schedule.sends.max(1).min(15),
        wait: schedule.wait.max(1).min(60),
    }
}

/// When a line was begun, and how long it took, as far as that is known.
#[derive(Clone, Copy, Debug)]
struct LineTimes {
    begun: Duration,
    took: Duration,
}

/// The whole milliseconds of a time.
fn whole_milliseconds(time: Duration) -> u64
    ensures { as_nanos time / 1_000_000 < 2 ^ 64 → result ≡ as_nanos time / 1_000_000 }
{
    u64::try_from(time.as_millis()).unwrap_or(u64::MAX)
}

/// So many things of which none is known.
fn unknown<T: Drop>(alloc: Global, count: usize) -> Result<Vec<Option<T>>, AllocError>
    ensures { IfOk result (λ made. made.items ≡ replicate count None) }
{
    let mut made = Vec::with_capacity(alloc, count)?;
    'things: for _thing in 0..count {
        made.push(None)?;
    }
    Ok(made)
}

/// Puts an item into a place in front of the end.
fn put<T: Drop>(items: &mut Vec<T>, place: usize, item: T)
    requires inside { place < length items.old.items }
    ensures { items.new.items ≡ set items.old.items place item }
{
    items[place] = item;
}

/// Lines that are located side by side. The request of each that was begun is inside a resolver
/// under the place of its line, or came out.
#[derive(Drop)]
pub struct OpenLines<'a, B, W, C> {
    alloc: Global,
    settings: LocateSettings,
    lines: &'a [Line<'a>],
    /// The times of each line that was begun.
    times: Vec<LineTimes>,
    /// How many of the lines were looked at whose time is over.
    late: usize,
    /// How many of the lines were reported.
    told: usize,
    resolver: Resolver<B, WireFacts<W, C>, RandomIds<ChaCha20Rng>>,
    /// What is reported of each line, as far as it is known.
    results: Vec<Option<LineResult>>,
}

impl<'a, B, W, C> Model for OpenLines<'a, B, W, C> {
    ghost use Rattle.std.specs.Prelude.{length};
    ghost use Rattle.sipwhere.specs.OpenLines.{Fits, OpenView};

    ghost Value = { OpenView };

    ghost view = { λ it. record {
      settings = it.settings;
      lines = it.lines.now;
      told = it.told;
      requests = it.resolver.requests;
      results = it.results.items;
    } };

    ghost invariant = { λ it.
        Fits it.settings it.lines.now (length it.times.items) it.resolver.requests
        it.results.items };
}

impl<'a, B: AnswerBook + Drop, W: MessageWire, C: Clock> OpenLines<'a, B, W, C> {
    /// Lines of which none was begun.
    pub fn new(
        alloc: Global,
        settings: LocateSettings,
        lines: &'a [Line<'a>],
    ) -> Result<OpenLines<'a, B, W, C>, AllocError>
        ensures made { IfOk result (λ it.
            (it.told ≡ 0) × (it.lines ≡ lines.now) × (it.settings ≡ settings)) }
        ensures stands { IfOk result (λ it. (seat : SeatView) → Stands W.gives C.shows seat it) }
    {
        let first = lines.first().map_or(0, |line| line.number);
        let ids = random_ids(settings.key, first);
        let limits = limits_for(lines.len());
        let schedule = bounded(settings.schedule);
        Ok(OpenLines {
            alloc,
            settings,
            lines,
            times: Vec::with_capacity(alloc, lines.len())?,
            late: 0,
            told: 0,
            results: unknown(alloc, lines.len())?,
            resolver: Resolver::with_schedule(alloc, limits, schedule, ids)?,
        })
    }

    /// How many lines were reported.
    pub fn told(&self) -> usize
        ensures { result ≡ self.now.told }
    {
        self.told
    }

    /// Whether nothing more is to be done after this was told: all lines were reported, or the
    /// output takes no more.
    pub fn is_done(&self, told: Told) -> bool
        ensures { IsTrue result ↔
            (self.now.told ≡ length self.now.lines ⊎ IsTrue told.is_closed) }
    {
        self.told == self.lines.len() || told.is_closed
    }

    /// Begins the next line, if there is one and there is room for its request, and tells whether
    /// there was.
    fn begin_next(&mut self, now: Duration) -> Result<bool, AllocError>
        ensures same { (self.new.told ≡ self.old.told) × (self.new.lines ≡ self.old.lines)
            × (self.new.settings ≡ self.old.settings) }
        ensures stands { (seat : SeatView) → Stands W.gives C.shows seat self.old
            → Stands W.gives C.shows seat self.new }
    {
        let place = self.times.len();
        if place == self.lines.len() || !self.resolver.has_room() {
            return Ok(false);
        }
        let lines = self.lines;
        self.times.push(LineTimes {
            begun: now,
            took: Duration::ZERO,
        })?;
        let line_outcome = submit(
            self.alloc,
            &mut self.resolver,
            place as u64,
            &self.settings,
            &lines[place],
        );
        if let Some(line_outcome) = line_outcome {
            let result = LineResult::without_reply(self.alloc, line_outcome);
            put(&mut self.results, place, Some(result));
        }
        Ok(true)
    }

    /// Begins as many lines as there is room for.
    pub fn begin_all(&mut self, now: Duration) -> Result<(), AllocError>
        ensures same { (self.new.told ≡ self.old.told) × (self.new.lines ≡ self.old.lines)
            × (self.new.settings ≡ self.old.settings) }
        ensures stands { (seat : SeatView) → Stands W.gives C.shows seat self.old
            → Stands W.gives C.shows seat self.new }
    {
        'lines: for _line in 0..self.lines.len() {
            if !self.begin_next(now)? {
                break;
            }
        }
        Ok(())
    }

    /// Notes how long the line at a place took, of which it is known now what became of it.
    fn note_time(&mut self, place: usize, now: Duration)
        ensures { self.new ≡ self.old }
    {
        if let Some(times) = self.times.get_mut(place) {
            times.took = now.saturating_sub(times.begun);
        }
    }

    /// The moment in front of that at which the line at a place was begun, where this is the moment
    /// now: the answers that it used lived then, or came later.
    fn moment_of(&self, place: usize, now: Moment) -> Moment
        ensures { result ≤ now }
    {
        match self.times.get(place) {
            Some(times) => {
                let took = times.took.as_secs().saturating_add(1);
                Moment::new(now.get().saturating_sub(took)).unwrap_or(now)
            }
            None => now,
        }
    }

    /// How the targets of the line at a place came, if that is told: by what the book has at a
    /// moment, and by the server whose reply came last.
    fn account_at(
        &self,
        book: &B,
        seat: &mut B::Seat,
        server: Option<SocketAddr>,
        now: Moment,
        place: usize,
    ) -> Result<Account, AllocError>
        requires made_here { B.belongs book.now seat.old }
        requires inside { place < length self.now.lines }
        ensures stays { B.belongs book.now seat.new }
        ensures goes_on { GoesOn (B.shown seat.old) (B.shown seat.new) }
        ensures stores_nothing { StoresNothing (B.shown seat.old) (B.shown seat.new) }
        ensures not_asked { IsFalse self.now.settings.accounts → IfOk result IsEmpty }
        ensures asked { IsTrue self.now.settings.accounts → (line : Line) → IfOk result
            (IsAccountOfText (B.shown seat.old) (B.shown seat.new) self.now.settings now
            (slice_index_or self.now.lines place line).text.now) }
    {
        if !self.settings.accounts {
            return Ok(no_account(self.alloc));
        }
        let text = self.lines[place].text;
        account_of(self.alloc, book, seat, &self.settings, text, now, server)
    }

    /// Gives the line at a place up, whose time is over: its request is cancelled, and so has no
    /// room any more. Nothing is waited for at the wire that nobody else waits for.
    fn give_up(&mut self, wire: &mut W, place: usize)
        requires inside { place < length self.old.lines }
        ensures same { (self.new.told ≡ self.old.told) × (self.new.lines ≡ self.old.lines)
            × (self.new.settings ≡ self.old.settings) }
        ensures stands { (seat : SeatView) → Stands W.gives C.shows seat self.old
            → Stands W.gives C.shows seat self.new }
    {
        let _was_inside = cancel_over(&mut self.resolver, wire, place as u64);
        let text = self.lines[place].text;
        let line_outcome = timed_out(self.alloc, &self.settings, text);
        let result = LineResult::without_reply(self.alloc, line_outcome);
        put(&mut self.results, place, Some(result));
    }

    /// Whether the time of the line at a place is over by now.
    fn is_over(&self, place: usize, now: Duration) -> bool {
        match self.times.get(place) {
            Some(times) => times.begun.saturating_add(self.settings.total) <= now,
            None => false,
        }
    }

    /// Looks at the next line, if its time is over by now, and tells whether it was. It is given up
    /// where it is not known what became of it.
    fn give_next_up(&mut self, wire: &mut W, now: Duration) -> bool
        ensures same { (self.new.told ≡ self.old.told) × (self.new.lines ≡ self.old.lines)
            × (self.new.settings ≡ self.old.settings) }
        ensures stands { (seat : SeatView) → Stands W.gives C.shows seat self.old
            → Stands W.gives C.shows seat self.new }
    {
        let place = self.late;
        if place >= self.times.len() || !self.is_over(place, now) {
            return false;
        }
        self.late = place + 1;
        if self.results[place].is_none() {
            self.give_up(wire, place);
            self.note_time(place, now);
        }
        true
    }

    /// Gives the lines up whose time is over by now and of which it is not known what became of
    /// them. The time of a line that was begun later is over later.
    pub fn give_late_up(&mut self, wire: &mut W, now: Duration)
        ensures same { (self.new.told ≡ self.old.told) × (self.new.lines ≡ self.old.lines)
            × (self.new.settings ≡ self.old.settings) }
        ensures stands { (seat : SeatView) → Stands W.gives C.shows seat self.old
            → Stands W.gives C.shows seat self.new }
    {
        'lines: for _line in 0..self.lines.len() {
            if !self.give_next_up(wire, now) {
                break;
            }
        }
    }
}

impl<'a, B: AnswerBook + Drop, W: NameNotes + Tracer, C: Clock + Timer> OpenLines<'a, B, W, C> {
    /// Takes what became of a request, and how its targets came, unless the time of its line was
    /// over. Its targets are tried then, where they are to be.
    fn settle<P: Pinger>(
        &mut self,
        wire: &W,
        pinger: &mut P,
        ended: Resolved<B>,
        account: Result<Account, AllocError>,
    )
        requires inside { ended.sought.number < length self.old.lines }
        requires own { IsMeant self.old.settings self.old.lines ended.sought }
        ensures same { (self.new.told ≡ self.old.told) × (self.new.lines ≡ self.old.lines)
            × (self.new.settings ≡ self.old.settings) }
        ensures stands { (seat : SeatView) → Stands W.gives C.shows seat self.old
            → IsOutcome W.gives C.shows seat ended.sought ended.outcome
            → ((line : Line) → IfOk account (IsEndAccount C.shows seat self.old.settings
            (slice_index_or self.old.lines ended.sought.number line).text.now))
            → Stands W.gives C.shows seat self.new }
    {
        let place = ended.number() as usize;
        let outcome = ended.into_outcome();
        if self.results[place].is_some() {
            drop(outcome);
            drop(account);
            return;
        }
        let text = self.lines[place].text;
        let line_outcome = line_outcome_of(self.alloc, wire, pinger, &self.settings, text, outcome);
        let result = LineResult {
            line_outcome,
            account,
        };
        put(&mut self.results, place, Some(result));
    }

    /// Goes on with the requests inside, until one comes out or something came over the wire. The
    /// targets of one that came out are tried, where they are to be.
    pub fn advance<R, P: Pinger>(
        &mut self,
        rt: &R,
        book: &B,
        seat: &mut B::Seat,
        wire: &mut W,
        clock: &C,
        pinger: &mut P,
    )
    where
        B: Stores<R>,
        requires made_here { B.belongs book.now seat.old }
        requires stands { Stands W.gives C.shows (B.shown seat.old) self.old }
        ensures stays { B.belongs book.now seat.new }
        ensures stands { Stands W.gives C.shows (B.shown seat.new) self.new }
        ensures same { (self.new.told ≡ self.old.told) × (self.new.lines ≡ self.old.lines)
            × (self.new.settings ≡ self.old.settings) }
        ensures later { StaysSo W.gives C.shows (B.shown seat.old) (B.shown seat.new) }
    {
        if let Some(ended) = poll_over(rt, &mut self.resolver, book, seat, wire, clock) {
            let place = ended.number() as usize;
            self.note_time(place, clock.elapsed());
            let begun = self.moment_of(place, clock.now());
            let account = self.account_at(book, seat, wire.last_server(), begun, place);
            law_requests_stand_as_seats_go_on::<WireFacts<W, C>>();
            self.settle(wire, pinger, ended, account);
        }
    }
}

impl<'a, B: AnswerBook + Drop, W: MessageWire + Tracer, C: Clock> OpenLines<'a, B, W, C> {
    /// Prints what became of the first line that was not reported, if it is known. Nothing is
    /// printed where memory was refused for how its targets came.
    fn tell_first<O: Write>(
        &mut self,
        style: Style<'_>,
        wire: &mut W,
        output: &mut O,
    ) -> Option<Told>
        ensures stands { (seat : SeatView) → Stands W.gives C.shows seat self.old
            → Stands W.gives C.shows seat self.new }
        ensures tells { (seat : SeatView) → Stands W.gives C.shows seat self.old
            → IfSome result (λ told. TellsFirst W.gives C.shows seat style.entry self.old
            (O.contents output.old) (O.contents output.new) told.status) }
        ensures next { IfSome result (λ told. self.new.told ≡ self.old.told + 1) }
        ensures same { (self.new.lines ≡ self.old.lines) × (self.new.settings ≡ self.old.settings) }
        ensures none { result ≡ None → (O.contents output.new ≡ O.contents output.old)
            × (self.new.told ≡ self.old.told) }
        ensures range { IfSome result (λ told. told.status ≤ 5) }
        ensures closed { IfSome result (λ told. IsTrue told.is_closed → told.status ≡ 5) }
    {
        let place = self.told;
        let line = self.lines.get(place)?;
        let result = self.results[place].as_ref()?;
        let timed = TimedText {
            text: line.text,
            took: whole_milliseconds(self.times.get(place)?.took),
        };
        let tries = wire.take_tries();
        let next = place + 1;
        let Ok(account) = &result.account else {
            self.told = next;
            return Some(FAULT_TOLD);
        };
        let told = tell(
            self.alloc,
            output,
            style,
            tries.as_slice(),
            timed,
            account,
            &result.line_outcome,
        );
        self.told = next;
        Some(told)
    }

    /// Reports what became of lines in their order, as far as it is known and the output takes it.
    pub fn tell_all<O: Write>(&mut self, style: Style<'_>, wire: &mut W, output: &mut O) -> Told
        ensures stands { (seat : SeatView) → Stands W.gives C.shows seat self.old
            → Stands W.gives C.shows seat self.new }
        ensures same { (self.new.lines ≡ self.old.lines) × (self.new.settings ≡ self.old.settings) }
        ensures tells { (seat : SeatView) → Stands W.gives C.shows seat self.old
            → (start : Option (List ℕ)) (before : List ℕ)
            → HasTold W.gives C.shows seat style.entry self.old start (O.contents output.old)
            before
            → (more : List ℕ) × HasTold W.gives C.shows seat style.entry self.new start
            (O.contents output.new) (before ++ more) × IsGravest more result.status }
        ensures range { result.status ≤ 5 }
        ensures closed { IsTrue result.is_closed → result.status ≡ 5 }
    {
        let mut told = NOTHING_TOLD;
        'lines: for _line in 0..self.lines.len() {
            let Some(first) = self.tell_first(style, wire, output) else {
                break;
            };
            told = told.and(first);
            if told.is_closed {
                break;
            }
        }
        told
    }
}
