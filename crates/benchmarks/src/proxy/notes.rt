//! What one thread of the run notes.
use crate::proxy::asked::{Asked, is_first};
use crate::proxy::counted::Counted;
use crate::proxy::replies::{KINDS, place_of, reply_to};
use dns_answers::Moment;
use rolling_cache::Change;
use sip_resolver::{Outcome, Transmit};
use std::alloc::{AllocError, Global};
use std::sync::atomic::AtomicU64;

/// How many domains there are.
const DOMAINS: u64 = 100_000;

/// How many questions there are.
pub(crate) const QUESTIONS: usize = DOMAINS as usize * KINDS;

/// Of how many queries one has a reply that comes late.
const LATE: u64 = 8;

/// What all threads share in a second.
#[derive(Clone, Copy)]
pub(crate) struct Load<'a> {
    /// A word for each question (`new_words`).
    pub words: &'a [AtomicU64],
    pub now: Moment,
    /// How many requests each thread makes.
    pub share: u64,
}

/// What a thread notes.
#[derive(Drop)]
pub(crate) struct Notes {
    /// What the next domain is drawn from.
    drawn: u64,
    /// The generation of its seat.
    generation: u64,
    /// The replies that come late.
    pub late: Vec<Vec<u8>>,
    /// How often it asked each question.
    asked: Vec<Asked>,
    pub counted: Counted,
}

impl Notes {
    /// The notes of the thread of this number.
    pub fn new(alloc: Global, number: u64) -> Option<Notes> {
        Some(Notes {
            drawn: number.wrapping_add(1),
            generation: 0,
            late: Vec::new(alloc),
            asked: Asked::none(alloc, QUESTIONS).ok()?,
            counted: Counted::nothing(),
        })
    }

    /// Draws the domain of the next request, by a linear congruence.
    pub fn draw(&mut self) -> u64 {
        let next = self.drawn.wrapping_mul(6_364_136_223_846_793_005);
        self.drawn = next.wrapping_add(1_442_695_040_888_963_407);
        (self.drawn >> 33) % DOMAINS
    }

    /// Counts a request, and gives its number.
    pub fn count_request(&mut self) -> u64 {
        let number = self.counted.requests;
        self.counted.requests = number.wrapping_add(1);
        number
    }

    /// Counts what could not be done, where it was not.
    pub fn count_done(&mut self, is_done: bool) {
        self.counted.others = self.counted.others.wrapping_add(u64::from(!is_done));
    }

    /// Counts what became of a request.
    pub fn count_outcome(&mut self, outcome: &Outcome) {
        let has_targets = matches!(outcome, Outcome::Targets(_));
        self.counted.targets = self.counted.targets.wrapping_add(u64::from(has_targets));
        self.count_done(has_targets);
    }

    /// Counts what became of the seat in so many milliseconds. It is at this generation then.
    pub fn count_change(
        &mut self,
        change: Result<Change, AllocError>,
        generation: u64,
        milliseconds: Option<u64>,
    ) {
        self.generation = generation;
        self.counted.longest = self.counted.longest.max(milliseconds.unwrap_or(0));
        let is_begun = matches!(change, Ok(Change::Renewed));
        self.counted.begun = self.counted.begun.wrapping_add(u64::from(is_begun));
        self.count_done(change.is_ok());
    }

    /// Counts requests that begin anew.
    pub fn count_anew(&mut self, count: usize) {
        self.counted.anew = self.counted.anew.wrapping_add(count as u64);
    }

    /// Counts the query of the question of a place.
    fn count_query(&mut self, load: &Load<'_>, place: usize) -> Option<()> {
        let now = load.now.get();
        let is_first = is_first(load.words.get(place)?, now);
        let asked = self.asked.get_mut(place)?;
        let is_lost = asked.ask(now, self.generation);
        let it = &mut self.counted;
        it.sent = it.sent.wrapping_add(1);
        it.most = it.most.max(asked.times());
        it.lost = it.lost.wrapping_add(u64::from(is_lost));
        it.repeated = it.repeated.wrapping_add(u64::from(!is_first));
        Some(())
    }

    /// Counts what is sent.
    fn count_sent(&mut self, load: &Load<'_>, query: &Transmit<'_>) -> Option<()> {
        if query.send > 1 {
            self.counted.again = self.counted.again.wrapping_add(1);
            return Some(());
        }
        self.count_query(load, place_of(query.octets)?)
    }

    /// Counts what is sent, and gives the reply to it.
    pub fn reply_to(
        &mut self,
        alloc: Global,
        load: &Load<'_>,
        query: &Transmit<'_>,
    ) -> Option<Vec<u8>> {
        self.count_sent(load, query)?;
        reply_to(alloc, query.octets)
    }

    /// Whether the reply to the query that was counted last comes late.
    pub fn is_late(&self) -> bool {
        self.counted.sent % LATE == 0
    }

    /// Notes a reply that comes late.
    pub fn push_late(&mut self, reply: Vec<u8>) {
        let is_done = self.late.push(reply).is_ok();
        self.count_done(is_done);
    }
}
