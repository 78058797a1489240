//! A run: texts that are located over one book and one wire.
ghost use Rattle.std.specs.Prelude.{◌≡◌, ◌⊎◌, ◌↔◌, ◌≤◌, IsTrue, List, map, ℕ};
ghost use Rattle.sipwhere.specs.LineInputs.{AreInputTexts};
ghost use Rattle.sipwhere.specs.OpenLines.{Stands};
ghost use Rattle.sipwhere.specs.Runs.{AreRun, IsRun, IsRunBy, IsRunOf, StaysSo, from_input};

use crate::line::{Line, lines_of, numbered};
use crate::line_input::LineInput;
use crate::locate_settings::LocateSettings;
use crate::noting_wire::NameNotes;
use crate::open_lines::OpenLines;
use crate::progress::Progress;
use crate::tell::{FAULT_TOLD, NOTHING_TOLD, Told};
use answer_cache::{AnswerBook, Stores};
use dns_queries::Clock;
use dns_transport::{Timer, Tracer};
use sip_report::Style;
use sip_tries::Pinger;
use sipwhere_options::Options;
use std::alloc::Global;
use std::io::{Read, Write};
use std::marker::Model;
use std::sync::Wait;

/// Whether the lines of the input are to be located.
fn is_from_input(texts: &[&str]) -> bool
    ensures { IsTrue result ↔ (map (λ text. text.now) texts.now ≡ from_input) }
{
    match texts {
        ["-"] => true,
        _ => false,
    }
}

/// What the texts of a run share: by what settings they are located, and over what.
#[derive(Drop)]
pub struct LocateRun<'a, B: AnswerBook<Seat: Drop>, W, C, P, O: Write> {
    /// Where its memory comes from.
    pub alloc: Global,
    /// By what settings texts are located.
    pub settings: LocateSettings,
    /// The book of the answers.
    pub book: B,
    /// A seat at the book.
    pub seat: B::Seat,
    /// The wire to the servers.
    pub wire: W,
    /// The clock.
    pub clock: &'a C,
    /// Who tries targets.
    pub pinger: P,
    /// How many texts are done.
    pub progress: Progress,
    /// Where it is printed what became of texts.
    pub output: O,
}

impl<'a, B: AnswerBook<Seat: Drop>, W, C, P, O: Write> Model for LocateRun<'a, B, W, C, P, O> {
    ghost use Rattle.sipwhere.specs.Runs.{RunView};

    ghost Value = { RunView };

    ghost view = { λ it. record {
      settings = it.settings;
      seat = B.shown it.seat;
      printed = O.contents it.output;
    } };

    ghost invariant = { λ it. B.belongs it.book it.seat };
}

impl<
    'a,
    B: AnswerBook<Seat: Drop> + Drop,
    W: NameNotes + Tracer,
    C: Clock + Timer,
    P: Pinger,
    O: Write,
> LocateRun<'a, B, W, C, P, O> {
    /// Goes on with lines that are open, until what became of each is printed, in their order, or
    /// the output takes no more.
    fn locate_open<R: Wait + Eprint>(
        &mut self,
        rt: &R,
        style: Style<'_>,
        lines: &mut OpenLines<'_, B, W, C>,
    ) -> Told
    where
        B: Stores<R>,
        requires stands { Stands W.gives C.shows self.old.seat lines.old }
        requires told { lines.old.told ≡ 0 }
        ensures run { AreRun W.gives C.shows self.new.seat lines.old.settings style.entry
            lines.old.lines self.old.printed self.new.printed result.status }
        ensures later { StaysSo W.gives C.shows self.old.seat self.new.seat }
        ensures settings { self.new.settings ≡ self.old.settings }
        ensures range { result.status ≤ 5 }
        ensures closed { IsTrue result.is_closed → result.status ≡ 5 }
    {
        let mut told = NOTHING_TOLD;
        'rounds: for _ in rt.forever() {
            let now = self.clock.elapsed();
            lines.give_late_up(&mut self.wire, now);
            if lines.begin_all(now).is_err() {
                return FAULT_TOLD;
            }
            told = told.and(lines.tell_all(style, &mut self.wire, &mut self.output));
            self.progress.tell(rt, now, lines.told());
            if lines.is_done(told) {
                return told;
            }
            let (book, seat, clock) = (&self.book, &mut self.seat, self.clock);
            lines.advance(rt, book, seat, &mut self.wire, clock, &mut self.pinger);
        }
        unreachable!()
    }

    /// Locates lines side by side, and prints what became of each, in their order, until the output
    /// takes no more.
    fn locate_side_by_side<R: Wait + Eprint>(
        &mut self,
        rt: &R,
        style: Style<'_>,
        lines: &[Line<'_>],
    ) -> Told
    where
        B: Stores<R>,
        ensures run { AreRun W.gives C.shows self.new.seat self.old.settings style.entry lines.now
            self.old.printed self.new.printed result.status }
        ensures later { StaysSo W.gives C.shows self.old.seat self.new.seat }
        ensures settings { self.new.settings ≡ self.old.settings }
        ensures range { result.status ≤ 5 }
        ensures closed { IsTrue result.is_closed → result.status ≡ 5 }
    {
        self.progress.begin(lines.len());
        let Ok(mut open) = OpenLines::<B, W, C>::new(self.alloc, self.settings, lines) else {
            return FAULT_TOLD;
        };
        let told = self.locate_open(rt, style, &mut open);
        drop(open);
        told
    }

    /// Locates lines one after the other, so that what went over the wire for each is with it, and
    /// no line waits while the targets of another one are tried; and prints what became of each,
    /// until the output takes no more.
    fn locate_in_turn<R: Wait + Eprint>(
        &mut self,
        rt: &R,
        style: Style<'_>,
        lines: &[Line<'_>],
    ) -> Told
    where
        B: Stores<R>,
        ensures run { IsRun W.gives C.shows self.new.seat self.old.settings style.entry lines.now
            self.old.printed self.new.printed result.status }
        ensures later { StaysSo W.gives C.shows self.old.seat self.new.seat }
        ensures settings { self.new.settings ≡ self.old.settings }
        ensures range { result.status ≤ 5 }
        ensures closed { IsTrue result.is_closed → result.status ≡ 5 }
    {
        let mut told = NOTHING_TOLD;
        'lines: for line in lines {
            let part = [*line];
            told = told.and(self.locate_side_by_side(rt, style, &part));
            if told.is_closed {
                break;
            }
        }
        told
    }

    /// Locates lines, and prints what became of each, until the output takes no more.
    fn locate_lines<R: Wait + Eprint>(
        &mut self,
        rt: &R,
        style: Style<'_>,
        lines: &[Line<'_>],
    ) -> Told
    where
        B: Stores<R>,
        ensures run { IsRun W.gives C.shows self.new.seat self.old.settings style.entry lines.now
            self.old.printed self.new.printed result.status }
        ensures later { StaysSo W.gives C.shows self.old.seat self.new.seat }
        ensures settings { self.new.settings ≡ self.old.settings }
        ensures range { result.status ≤ 5 }
        ensures closed { IsTrue result.is_closed → result.status ≡ 5 }
    {
        if style.traced || self.settings.extent.is_some() {
            return self.locate_in_turn(rt, style, lines);
        }
        self.locate_side_by_side(rt, style, lines)
    }

    /// Locates the lines of the input as they come, until the output takes no more.
    fn locate_input<R: Wait + Eprint, I: Read + Drop>(
        &mut self,
        rt: &R,
        style: Style<'_>,
        input: I,
    ) -> Told
    where
        B: Stores<R>,
        ensures run { (result.status ≡ 5) ⊎ ((texts : List (List ℕ))
            × AreInputTexts (I.remaining input) texts
            × IsRunOf W.gives C.shows self.new.seat self.old.settings style.entry texts
            self.old.printed self.new.printed result.status) }
        ensures settings { self.new.settings ≡ self.old.settings }
        ensures range { result.status ≤ 5 }
    {
        let alloc = self.alloc;
        let Ok(mut input) = LineInput::new(alloc, input) else {
            return FAULT_TOLD;
        };
        let mut first = 1;
        let mut told = NOTHING_TOLD;
        'parts: for _ in rt.forever() {
            let Ok(texts) = input.next_texts() else {
                return FAULT_TOLD;
            };
            if texts.is_empty() {
                return told;
            }
            let Ok(lines) = lines_of(alloc, first, texts.as_slice()) else {
                return FAULT_TOLD;
            };
            let lines = lines.as_slice();
            first = first.saturating_add(lines.len() as u64);
            told = told.and(self.locate_lines(rt, style, lines));
            if told.is_closed {
                return told;
            }
        }
        unreachable!()
    }

    /// Locates texts that are given, until the output takes no more.
    fn locate_texts<R: Wait + Eprint>(&mut self, rt: &R, style: Style<'_>, texts: &[&str]) -> Told
    where
        B: Stores<R>,
        ensures run { (result.status ≡ 5) ⊎ IsRunOf W.gives C.shows self.new.seat
            self.old.settings style.entry (map (λ text. text.now) texts.now) self.old.printed
            self.new.printed result.status }
        ensures settings { self.new.settings ≡ self.old.settings }
        ensures range { result.status ≤ 5 }
    {
        let Ok(lines) = numbered(self.alloc, 1, texts) else {
            return FAULT_TOLD;
        };
        self.locate_lines(rt, style, lines.as_slice())
    }

    /// Locates the texts of the options, or the lines of the input, until the output takes no more.
    pub fn locate_all<R: Wait + Eprint, I: Read + Drop>(
        &mut self,
        rt: &R,
        options: &Options<'_>,
        input: I,
    ) -> Told
    where
        B: Stores<R>,
        ensures run { (result.status ≡ 5) ⊎ IsRunBy W.gives C.shows self.new.seat
            self.old.settings options.now (I.remaining input) self.old.printed self.new.printed
            result.status }
        ensures settings { self.new.settings ≡ self.old.settings }
        ensures range { result.status ≤ 5 }
    {
        let texts = options.texts.as_slice();
        if is_from_input(texts) {
            return self.locate_input(rt, options.style(true), input);
        }
        self.locate_texts(rt, options.style(texts.len() > 1), texts)
    }
}
