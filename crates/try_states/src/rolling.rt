//! Threads that share one cache while its generations change.
ghost use Rattle.std.specs.Prelude.{◌≡◌, IfSome};
ghost use Rattle.std.specs.Arc.{arc_value};
ghost use Rattle.std.specs.List.{All};
ghost use Rattle.dns_answers.specs.Records.{kind_of};
ghost use Rattle.dns_message.specs.declared.kind.Kind.TheVariants.{A};
ghost use Rattle.rolling_cache.specs.Rolling.{IsSeatOf, RollingView};

use crate::seats::question;
use answer_cache::{AnswerBook, Stores};
use dns_answers::{Answer, Moment, Records, Section};
use dns_message::{Kind, Question};
use rolling_cache::{RollingCache, RollingSeat};
use std::alloc::Global;
use std::sync::atomic::{AtomicU64, Ordering};
use std::sync::{Arc, Wait};
use std::thread::{Threads, map_vec};

/// How many names there are.
const NAMES: u16 = 2_000;

/// How many stores each thread makes.
const STORES: u64 = 25_000;

/// How many look-ups a thread makes in each second of its clock.
const LOOKUPS_A_SECOND: u64 = 500;

/// How many look-ups it makes at most.
const LOOKUPS: u64 = 10_000_000;

/// How many stores were made, and how many look-ups found an answer that was stored for another
/// name, or whose life was over.
#[derive(Clone, Copy, Debug, PartialEq, Eq)]
struct Met {
    stored: u64,
    wrong: u64,
}

/// The questions for the addresses of all names.
fn questions(alloc: Global) -> Option<Vec<Question>> {
    let mut made = Vec::with_capacity(alloc, usize::from(NAMES)).ok()?;
    for name in 0..NAMES {
        let text = format!(in alloc; "host{name}.example").ok()?;
        made.push(question(alloc, Kind::A, &text)?).ok()?;
    }
    Some(made)
}

/// The address that is stored for a name at a moment: it tells both.
fn address_of(name: u16, now: Moment) -> [u8; 4] {
    let [a, b] = name.to_be_bytes();
    let [_, _, _, _, _, _, c, d] = now.get().to_be_bytes();
    [a, b, c, d]
}

/// The answer of this address, with a life of a second.
fn answer_of(alloc: Global, address: [u8; 4]) -> Option<Arc<Answer>>
    ensures { IfSome result (λ made. kind_of (arc_value made).records ≡ A) }
{
    let addresses = Vec::from_slice(alloc, &[address]).ok()?;
    let records = Records::V4(Section::from_vec(addresses));
    Arc::new(alloc, Answer::new(records, 1)?).ok()
}

/// Whether what is found at a moment was stored for this name, with a life of a second that is not
/// over.
fn is_right(found: &Answer, name: u16, now: Moment) -> bool {
    let Records::V4(addresses) = found.records() else {
        return false;
    };
    let [[a, b, c, d]] = addresses.as_slice() else {
        return false;
    };
    let stored = u16::from_be_bytes([*c, *d]);
    u16::from_be_bytes([*a, *b]) == name && now.get() <= u64::from(stored)
}

/// What a look-up finds, once the seat has caught up.
fn found<R: Wait>(
    rt: &R,
    cache: &RollingCache,
    seat: &mut RollingSeat,
    question: &Question,
    now: Moment,
) -> Option<Option<Arc<Answer>>>
    requires { IsSeatOf cache.now seat.old }
    ensures { IsSeatOf cache.now seat.new }
{
    match cache.catch_up(rt, seat, now) {
        Ok(_) => cache.lookup(seat, question, now).ok(),
        Err(_) => None,
    }
}

/// Stores the address of a name. What is refused, as where another thread changes the generation
/// just now, is asked again.
fn store<R: Wait>(
    rt: &R,
    cache: &RollingCache,
    seat: &mut RollingSeat,
    question: &Question,
    answer: &Arc<Answer>,
    now: Moment,
) -> bool
    requires at { IsSeatOf cache.now seat.old }
    requires kind { kind_of (arc_value answer.now).records ≡ question.now.kind }
    ensures { IsSeatOf cache.now seat.new }
{
    cache.store(rt, seat, question, answer, now).is_ok()
}

/// Looks a name up, and stores its address where none is found.
fn ask<R: Wait>(
    rt: &R,
    alloc: Global,
    cache: &RollingCache,
    seat: &mut RollingSeat,
    question: &Question,
    name: u16,
    now: Moment,
    met: &mut Met,
) -> Option<()>
    requires at { IsSeatOf cache.now seat.old }
    requires kind { question.now.kind ≡ A }
    ensures { IsSeatOf cache.now seat.new }
{
    if let Some(found) = found(rt, cache, seat, question, now)? {
        met.wrong = met
            .wrong
            .wrapping_add(u64::from(!is_right(&found, name, now)));
        return Some(());
    }
    let answer = answer_of(alloc, address_of(name, now))?;
    let is_stored = store(rt, cache, seat, question, &answer, now);
    met.stored = met.stored.wrapping_add(u64::from(is_stored));
    Some(())
}

/// The same of the name of a number.
fn ask_name<R: Wait>(
    rt: &R,
    alloc: Global,
    cache: &RollingCache,
    seat: &mut RollingSeat,
    questions: &[Question],
    name: u16,
    now: Moment,
    met: &mut Met,
) -> Option<()>
    requires { IsSeatOf cache.now seat.old }
    ensures { IsSeatOf cache.now seat.new }
{
    match questions.get(usize::from(name)) {
        Some(question) if question.kind == Kind::A => {
            ask(rt, alloc, cache, seat, question, name, now, met)
        }
        _ => None,
    }
}

/// The work of one thread, which begins with this name.
fn ask_all<R: Wait>(
    rt: &R,
    alloc: Global,
    cache: &RollingCache,
    seat: &mut RollingSeat,
    questions: &[Question],
    first: u64,
) -> Option<Met>
    requires { IsSeatOf cache.now seat.old }
{
    let mut met = Met {
        stored: 0,
        wrong: 0,
    };
    'lookups: for count in 0..LOOKUPS {
        if met.stored >= STORES {
            break;
        }
        let now = Moment::new(count / LOOKUPS_A_SECOND + 100)?;
        let name = (first.wrapping_add(count) % u64::from(NAMES)) as u16;
        ask_name(rt, alloc, cache, seat, questions, name, now, &mut met)?;
    }
    Some(met)
}

/// What a thread does with its seat.
trait Work {
    // The seats that it works with.
    ghost takes: { Self → RollingView → Type 0 };

    /// What it met.
    fn work<R: Wait + AllocGlobal>(&self, rt: &R, seat: RollingSeat) -> Option<Met>
        requires { takes self.now seat };
}

/// A cache, what is asked of it, and where the next thread begins.
#[derive(Drop)]
struct Load<'a> {
    cache: &'a RollingCache,
    questions: &'a [Question],
    first: &'a AtomicU64,
}

impl Work for Load<'_> {
    ghost use Rattle.rolling_cache.specs.Rolling.{IsSeatOf};

    ghost takes = { λ load seat. IsSeatOf load.cache.now seat };

    fn work<R: Wait + AllocGlobal>(&self, rt: &R, seat: RollingSeat) -> Option<Met>
        requires { IsSeatOf self.now.cache.now seat }
    {
        let mut seat = seat;
        let first = self.first.fetch_add(500, Ordering::SeqCst);
        ask_all(rt, rt.alloc(), self.cache, &mut seat, self.questions, first)
    }
}

/// What all threads met together.
fn sum(met: &[Option<Met>]) -> Option<Met> {
    let mut all = Met {
        stored: 0,
        wrong: 0,
    };
    for it in met {
        let it = (*it)?;
        all.stored = all.stored.wrapping_add(it.stored);
        all.wrong = all.wrong.wrapping_add(it.wrong);
    }
    Some(all)
}

/// What all threads met together, each with one of these seats.
fn all_met<R: Threads + Wait + AllocGlobal + Sync, W: Work + Sync>(
    rt: &R,
    load: &W,
    seats: Vec<RollingSeat>,
) -> Option<Met>
    requires { All (W.takes load.now) seats.items }
{
    let job = |seat: RollingSeat| -> Option<Met>
        requires { W.takes load.now seat }
    { load.work(rt, seat) };
    match map_vec(rt, seats, &job) {
        Ok(met) => sum(&met),
        Err(_) => None,
    }
}

/// What all threads met with this load.
fn load_met<R: Threads + Wait + AllocGlobal + Sync>(
    rt: &R,
    load: &Load<'_>,
    seats: Vec<RollingSeat>,
) -> Option<Met>
    requires { All (IsSeatOf load.now.cache.now) seats.items }
{
    all_met(rt, load, seats)
}

/// What so many threads met that ask these questions and share one cache.
fn met_by<R: Threads + Wait + AllocGlobal + Sync>(
    rt: &R,
    questions: &[Question],
    threads: usize,
    now: Moment,
) -> Option<Met> {
    match RollingCache::new(rt.alloc(), threads, now) {
        Ok((cache, seats)) => {
            let first = AtomicU64::new(0);
            let load = Load {
                cache: &cache,
                questions,
                first: &first,
            };
            load_met(rt, &load, seats)
        }
        Err(_) => None,
    }
}

/// What so many threads met, which share one cache.
fn shared<R: Threads + Wait + AllocGlobal + Sync>(rt: &R, threads: usize) -> Option<Met> {
    let now = Moment::new(100)?;
    match questions(rt.alloc()) {
        Some(questions) => met_by(rt, &questions, threads, now),
        None => None,
    }
}

#[test]
fn threads_find_what_was_stored_and_lives(rt: HostRuntime) {
    let wanted = Met {
        stored: 4 * STORES,
        wrong: 0,
    };
    assert_eq!(rt; shared(&rt, 4), Some(wanted));
}
