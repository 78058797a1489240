//! How long a miss takes: a reply is read, its answer is taken out of it, and is stored in a book.
use crate::requests::books::one_seat;
use answer_cache::{ListCache, Stores};
use dns_answers::{Answer, Moment, answer_of};
use dns_message::{Kind, Message, Question, read_message};
use dns_name::Name;
use std::alloc::Global;
use std::fs;
use std::rt::Files;
use std::sync::{Arc, Wait};
use std::time::{Clock, Instant};

/// How many slices of time are measured. Each has a book of its own, into which an answer is stored
/// under each of so many questions.
const SLICES: usize = 101;

const QUESTIONS: u64 = 1_000;

/// The books that answers are stored in.
#[derive(Clone, Copy)]
enum Sort {
    Shared,
    List,
}

/// A reply, its question, and the questions under which its answer is stored.
#[derive(Clone, Copy)]
struct Reply<'a> {
    octets: &'a [u8],
    question: &'a Question,
    stored: &'a [Question],
    now: Moment,
}

/// The kind of this number (RFC 1035 3.2.2, 3596 2.1, 2782, 3403 4.1).
fn kind_of(code: u16) -> Option<Kind> {
    match code {
        1 => Some(Kind::A),
        28 => Some(Kind::Aaaa),
        33 => Some(Kind::Srv),
        35 => Some(Kind::Naptr),
        _ => None,
    }
}

/// The first question of a message.
fn first_question(message: &Message) -> Option<Question> {
    let asked = message.questions.as_slice().first()?;
    Some(Question {
        name: asked.name.try_clone().ok()?,
        kind: kind_of(asked.type_number)?,
    })
}

/// Questions of a kind, which stand in all groups.
fn questions_of(alloc: Global, kind: Kind) -> Option<Vec<Question>> {
    let mut all = Vec::new(alloc);
    for number in 0..QUESTIONS {
        let text = format!(in alloc; "host{number}.example").ok()?;
        let name = Name::from_text(alloc, text.as_str()).ok()?;
        all.push(Question { name, kind }).ok()?;
    }
    Some(all)
}

/// The answer of a message to the question of a reply.
fn answer_by(alloc: Global, reply: &Reply<'_>, message: &Message) -> Option<Arc<Answer>> {
    match answer_of(alloc, reply.question, message) {
        Ok(answer) => Arc::new(alloc, answer).ok(),
        Err(_) => None,
    }
}

/// Reads the reply, and takes its answer out of it.
fn answer_in(alloc: Global, reply: &Reply<'_>) -> Option<Arc<Answer>> {
    match read_message(alloc, reply.octets) {
        Ok(message) => answer_by(alloc, reply, &message),
        Err(_) => None,
    }
}

/// Stores an answer under a question: how many records it has.
fn store_answer<R, B: Stores<R>>(
    rt: &R,
    question: &Question,
    answer: &Arc<Answer>,
    book: &B,
    seat: &mut B::Seat,
    now: Moment,
) -> Option<usize>
    requires { B.belongs book.now seat.old }
    ensures { B.belongs book.now seat.new }
{
    if answer.records().kind() != question.kind {
        return None;
    }
    match book.store(rt, seat, question, answer, now) {
        Ok(()) => Some(answer.records().len()),
        Err(_) => None,
    }
}

/// Reads the reply, and stores its answer under a question: how many records it has.
fn store_one<R: AllocGlobal, B: Stores<R>>(
    rt: &R,
    reply: &Reply<'_>,
    question: &Question,
    book: &B,
    seat: &mut B::Seat,
) -> Option<usize>
    requires { B.belongs book.now seat.old }
    ensures { B.belongs book.now seat.new }
{
    match answer_in(rt.alloc(), reply) {
        Some(answer) => store_answer(rt, question, &answer, book, seat, reply.now),
        None => None,
    }
}

/// Does so for each question.
fn store_all<R: AllocGlobal, B: Stores<R>>(
    rt: &R,
    reply: &Reply<'_>,
    book: &B,
    seat: &mut B::Seat,
) -> Option<usize>
    requires { B.belongs book.now seat.old }
    ensures { B.belongs book.now seat.new }
{
    let mut count = 0;
    'questions: for question in reply.stored {
        let Some(found) = store_one(rt, reply, question, book, seat) else {
            return None;
        };
        count = found;
    }
    Some(count)
}

/// How many nanoseconds it takes to store all in a book.
fn timed<R: Clock + AllocGlobal, B: Stores<R>>(
    rt: &R,
    reply: &Reply<'_>,
    book: &B,
    seat: &mut B::Seat,
) -> Option<u128>
    requires { B.belongs book.now seat.old }
{
    let start = Instant::now(rt).ok()?;
    store_all(rt, reply, book, seat)?;
    Some(start.elapsed(rt).ok()?.as_nanos())
}

/// The same in a new book.
fn slice<R: Clock + Wait + AllocGlobal>(rt: &R, reply: &Reply<'_>, sort: Sort) -> Option<u128> {
    match sort {
        Sort::Shared => {
            let (cache, mut seat) = one_seat(rt.alloc())?;
            timed(rt, reply, &cache, &mut seat)
        }
        Sort::List => {
            let (list, mut seat) = ListCache::new(rt.alloc());
            timed(rt, reply, &list, &mut seat)
        }
    }
}

/// The nanoseconds of each slice, the least first.
fn slices<R: Clock + Wait + AllocGlobal>(
    rt: &R,
    reply: &Reply<'_>,
    sort: Sort,
) -> Option<Vec<u128>> {
    let mut times = Vec::new(rt.alloc());
    for _slice in 0..SLICES {
        let time = slice(rt, reply, sort)?;
        times.push(time).ok()?;
    }
    times.sort().ok()?;
    Some(times)
}

/// Measures the misses of a reply over a book, and prints them: the reply, the book, how many
/// records answer, and the nanoseconds of one miss in the fastest slice and in the middle one.
fn print_misses<R: Clock + Print + Wait + AllocGlobal>(
    rt: &R,
    label: &str,
    reply: &Reply<'_>,
    sort: Sort,
    records: usize,
) -> Option<()> {
    let times = slices(rt, reply, sort)?;
    let of_one = |time: &u128| time.checked_div(u128::from(QUESTIONS)).unwrap_or(0);
    let name = match sort {
        Sort::Shared => "shared",
        Sort::List => "list",
    };
    let least = times.first().map(of_one)?;
    let middle = times.get(SLICES / 2).map(of_one)?;
    println!(rt; "{label}\t{name}\t{records}\t{least}\t{middle}").ok()
}

/// The question of the message in octets.
fn question_in(alloc: Global, octets: &[u8]) -> Option<Question> {
    let message = read_message(alloc, octets).ok()?;
    first_question(&message)
}

/// How many records answer a question in a message.
fn count_answers(alloc: Global, question: &Question, message: &Message) -> Option<usize> {
    match answer_of(alloc, question, message) {
        Ok(answer) => Some(answer.records().len()),
        Err(_) => None,
    }
}

/// How many records the reply in octets has for a question.
fn count_records(alloc: Global, question: &Question, octets: &[u8]) -> Option<usize> {
    match read_message(alloc, octets) {
        Ok(message) => count_answers(alloc, question, &message),
        Err(_) => None,
    }
}

/// Stores the answer of a reply in so many shared caches.
fn store_rounds<R: Clock + Wait + AllocGlobal>(
    rt: &R,
    reply: &Reply<'_>,
    rounds: u64,
) -> Option<()> {
    for _round in 0..rounds {
        slice(rt, reply, Sort::Shared)?;
    }
    Some(())
}

/// Measures the misses of a reply over both books, or stores its answer in a number of shared
/// caches.
fn run_reply<R: Clock + Print + Wait + AllocGlobal>(
    rt: &R,
    label: &str,
    reply: &Reply<'_>,
    rounds: Option<u64>,
) -> Option<()> {
    if let Some(rounds) = rounds {
        return store_rounds(rt, reply, rounds);
    }
    let records = count_records(rt.alloc(), reply.question, reply.octets)?;
    print_misses(rt, label, reply, Sort::Shared, records)?;
    print_misses(rt, label, reply, Sort::List, records)
}

/// The same of the reply in octets to a question.
fn run_octets<R: Clock + Print + Wait + AllocGlobal>(
    rt: &R,
    label: &str,
    octets: &[u8],
    question: &Question,
    rounds: Option<u64>,
) -> Option<()> {
    let now = Moment::new(100)?;
    let stored = questions_of(rt.alloc(), question.kind)?;
    let reply = Reply {
        octets,
        question,
        stored: stored.as_slice(),
        now,
    };
    run_reply(rt, label, &reply, rounds)
}

/// Measures the misses of the reply in a file over both books, or stores its answer in a number of
/// shared caches.
pub fn run<R: Clock + Files + Print + Wait + AllocGlobal>(
    rt: &R,
    label: &str,
    path: &str,
    rounds: Option<u64>,
) -> Option<()> {
    let octets = fs::read(rt, path).ok()?;
    let question = question_in(rt.alloc(), octets.as_slice())?;
    run_octets(rt, label, octets.as_slice(), &question, rounds)
}
