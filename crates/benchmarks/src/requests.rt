//! How long it takes to locate a request whose answers are all in a book, and to store an answer
//! that was missing; and what memory both take.
//!
//! With the word `times` it prints a line for each request, book and form: the request, the book,
//! whether it is located from its text or after it was read, how many targets it has, and the
//! nanoseconds of one time in the fastest slice and in the middle one. With `miss`, a label and the
//! path of a reply it prints a line for each book: the label, the book, how many records answer,
//! and the nanoseconds of reading and storing.
//!
//! What two runs of other words differ by is what one takes (`bench/run`). `locate`, the name of a
//! request and a number: locates that one so many times, from its text, over a shared cache.
//! `misses`, the path of a reply and a number: stores its answer a thousand times in so many shared
//! caches. `hold`, a word, a book and a number: holds so many of what the word says.
ghost use Rattle.sip_selection.specs.Requests.{IsRequestView};

mod books;
mod held;
mod known;
mod misses;
mod rows;

use crate::requests::books::{fill, one_seat};
use crate::requests::known::Known;
use crate::requests::rows::{Row, large_row, small_rows};
use answer_cache::{AnswerBook, ListCache, Stores};
use dns_answers::Moment;
use sip_locator::{Located, locate};
use sip_selection::{Caps, Request, RequestView};
use sip_uri::Transport::{Sctp, Tcp, Tls, Udp};
use srv_choice::{RandomWords, WORD_COUNT, Words};
use std::alloc::Global;
use std::rt::Files;
use std::sync::Wait;
use std::time::{Clock, Instant};

/// How many slices of time are measured.
const SLICES: usize = 101;

/// How many questions the large requests have about: 9 and 16 for each of these servers.
const SERVERS: [usize; 4] = [4, 8, 16, 32];

/// The random words of each choice.
const WORDS: Words = Words([7; WORD_COUNT]);

/// What the sender of a request can do.
fn caps_of(row: &Row) -> Option<Caps> {
    Caps::new(&[Udp, Tcp, Tls, Sctp], row.families)
}

/// Whether a request is read anew each time.
#[derive(Clone, Copy, PartialEq, Eq)]
enum Form {
    Text,
    Request,
}

/// What is measured: a request, in a form, at one moment, with what its sender has at hand.
#[derive(Clone, Copy)]
struct Load<'a> {
    row: &'a Row,
    form: Form,
    read: &'a Request,
    caps: &'a Caps,
    words: &'a Words,
    now: Moment,
}

/// How many targets a request has.
fn targets_of<B: AnswerBook>(
    alloc: Global,
    load: &Load<'_>,
    request: &RequestView<'_>,
    book: &B,
    seat: &mut B::Seat,
) -> usize
    requires made_here { B.belongs book.now seat.old }
    requires view { IsRequestView request.now }
    ensures { B.belongs book.now seat.new }
{
    let (caps, now) = (load.caps, load.now);
    let words = RandomWords::Given(load.words);
    match locate(alloc, book, seat, request, caps, &words, now) {
        Ok(Located::Targets(found)) => found.len(),
        _ => 0,
    }
}

/// How many targets the request of a load has. In the form of text it is read first.
fn targets_of_load<B: AnswerBook>(
    alloc: Global,
    load: &Load<'_>,
    book: &B,
    seat: &mut B::Seat,
) -> Option<usize>
    requires { B.belongs book.now seat.old }
    ensures { B.belongs book.now seat.new }
{
    if load.form == Form::Request {
        let request = RequestView::Read(load.read);
        return Some(targets_of(alloc, load, &request, book, seat));
    }
    match load.row.view() {
        Some(request) => Some(targets_of(alloc, load, &request, book, seat)),
        None => None,
    }
}

/// Locates a request so many times, and gives how many targets it has.
fn locate_times<B: AnswerBook>(
    alloc: Global,
    load: &Load<'_>,
    book: &B,
    seat: &mut B::Seat,
    rounds: u64,
) -> Option<usize>
    requires { B.belongs book.now seat.old }
    ensures { B.belongs book.now seat.new }
{
    let mut found = 0;
    'rounds: for _round in 0..rounds {
        let Some(count) = targets_of_load(alloc, load, book, seat) else {
            return None;
        };
        found = count;
    }
    Some(found)
}

/// How many nanoseconds it takes to locate a request so many times.
fn slice<R: Clock + AllocGlobal, B: AnswerBook>(
    rt: &R,
    load: &Load<'_>,
    book: &B,
    seat: &mut B::Seat,
    rounds: u64,
) -> Option<u128>
    requires { B.belongs book.now seat.old }
    ensures { B.belongs book.now seat.new }
{
    let Ok(start) = Instant::now(rt) else {
        return None;
    };
    let _ = locate_times(rt.alloc(), load, book, seat, rounds);
    let Ok(time) = start.elapsed(rt) else {
        return None;
    };
    Some(time.as_nanos())
}

/// The nanoseconds of each slice of so many rounds, the least first.
fn slices<R: Clock + AllocGlobal, B: AnswerBook>(
    rt: &R,
    load: &Load<'_>,
    book: &B,
    seat: &mut B::Seat,
    rounds: u64,
) -> Option<Vec<u128>>
    requires { B.belongs book.now seat.old }
    ensures { B.belongs book.now seat.new }
{
    let mut times = Vec::new(rt.alloc());
    'slices: for _slice in 0..SLICES {
        let Some(time) = slice(rt, load, book, seat, rounds) else {
            return None;
        };
        if times.push(time).is_err() {
            return None;
        }
    }
    times.sort().ok()?;
    Some(times)
}

/// How many rounds take a tenth of a millisecond at least, where one takes so many nanoseconds.
fn rounds_of(nanoseconds: u128) -> u64 {
    let times = 100_000_u128.checked_div(nanoseconds).unwrap_or(1_000);
    u64::try_from(times).unwrap_or(1_000).clamp(1, 1_000)
}

/// What was measured.
#[derive(Clone, Copy)]
struct Measured {
    targets: usize,
    least: u128,
    middle: u128,
}

/// Measures a request.
fn measure<R: Clock + AllocGlobal, B: AnswerBook>(
    rt: &R,
    load: &Load<'_>,
    book: &B,
    seat: &mut B::Seat,
) -> Option<Measured>
    requires { B.belongs book.now seat.old }
    ensures { B.belongs book.now seat.new }
{
    let Some(targets) = locate_times(rt.alloc(), load, book, seat, 1) else {
        return None;
    };
    let Some(once) = slice(rt, load, book, seat, 1) else {
        return None;
    };
    let rounds = rounds_of(once);
    let Some(times) = slices(rt, load, book, seat, rounds) else {
        return None;
    };
    let of_one = |time: &u128| time.checked_div(u128::from(rounds)).unwrap_or(0);
    Some(Measured {
        targets,
        least: times.first().map(of_one)?,
        middle: times.get(SLICES / 2).map(of_one)?,
    })
}

/// Measures a request in both forms over a book, and prints it.
fn print_forms<R: Clock + Print + AllocGlobal, B: Stores<R>>(
    rt: &R,
    name: &str,
    load: &Load<'_>,
    book: &B,
    seat: &mut B::Seat,
) -> Option<()>
    requires { B.belongs book.now seat.old }
{
    let of_text = measure(rt, load, book, seat)?;
    println!(rt;
        "{}\t{name}\ttext\t{}\t{}\t{}",
        load.row.name, of_text.targets, of_text.least, of_text.middle
    )
    .ok()?;
    let load = Load {
        form: Form::Request,
        ..*load
    };
    let it = measure(rt, &load, book, seat)?;
    println!(rt;
        "{}\t{name}\trequest\t{}\t{}\t{}",
        load.row.name, it.targets, it.least, it.middle
    )
    .ok()
}

/// Fills a book, measures a request in both forms over it, and prints it.
fn print_filled<R: Clock + Print + AllocGlobal, B: Stores<R>>(
    rt: &R,
    name: &str,
    load: &Load<'_>,
    known: &[Known],
    book: &B,
    seat: &mut B::Seat,
) -> Option<()>
    requires { B.belongs book.now seat.old }
{
    fill(rt, book, seat, known, load.now);
    print_forms(rt, name, load, book, seat)
}

/// Measures a request over a book that threads can share, and prints it.
fn print_shared<R: Clock + Print + Wait + AllocGlobal>(
    rt: &R,
    load: &Load<'_>,
    known: &[Known],
) -> Option<()> {
    match one_seat(rt.alloc()) {
        Some((cache, mut seat)) => print_filled(rt, "shared", load, known, &cache, &mut seat),
        None => None,
    }
}

/// Measures a request over a book of one thread, and prints it.
fn print_list<R: Clock + Print + Wait + AllocGlobal>(
    rt: &R,
    load: &Load<'_>,
    known: &[Known],
) -> Option<()> {
    let (list, mut seat) = ListCache::new(rt.alloc());
    print_filled(rt, "list", load, known, &list, &mut seat)
}

/// Measures a request over books of both kinds, and prints it.
fn print_books<R: Clock + Print + Wait + AllocGlobal>(
    rt: &R,
    row: &Row,
    read: &Request,
    known: &[Known],
) -> Option<()> {
    let load = Load {
        row,
        form: Form::Text,
        read,
        caps: &caps_of(row)?,
        words: &WORDS,
        now: Moment::new(100)?,
    };
    print_shared(rt, &load, known)?;
    print_list(rt, &load, known)
}

/// The same of a row.
fn print_row<R: Clock + Print + Wait + AllocGlobal>(rt: &R, row: &Row) -> Option<()> {
    let read = row.request(rt.alloc())?;
    match row.domain.known(rt.alloc()) {
        Some(known) => print_books(rt, row, &read, known.as_slice()),
        None => None,
    }
}

/// Measures all requests, and prints them.
fn print_rows<R: Clock + Print + Wait + AllocGlobal>(rt: &R) -> Option<()> {
    for row in small_rows() {
        print_row(rt, &row)?;
    }
    for servers in SERVERS {
        print_row(rt, &large_row(servers))?;
    }
    Some(())
}

/// Locates a request so many times, over a filled book that threads can share.
fn locate_shared<R: Wait + AllocGlobal>(
    rt: &R,
    load: &Load<'_>,
    known: &[Known],
    rounds: u64,
) -> Option<usize> {
    match one_seat(rt.alloc()) {
        Some((cache, mut seat)) => {
            fill(rt, &cache, &mut seat, known, load.now);
            locate_times(rt.alloc(), load, &cache, &mut seat, rounds)
        }
        None => None,
    }
}

/// Locates the request of a row so many times, by these answers.
fn locate_known<R: Wait + AllocGlobal>(
    rt: &R,
    row: &Row,
    read: &Request,
    known: &[Known],
    rounds: u64,
) -> Option<usize> {
    let load = Load {
        row,
        form: Form::Text,
        read,
        caps: &caps_of(row)?,
        words: &WORDS,
        now: Moment::new(100)?,
    };
    locate_shared(rt, &load, known, rounds)
}

/// Locates the request of a row so many times.
fn locate_row<R: Wait + AllocGlobal>(rt: &R, row: &Row, rounds: u64) -> Option<usize> {
    let read = row.request(rt.alloc())?;
    match row.domain.known(rt.alloc()) {
        Some(known) => locate_known(rt, row, &read, known.as_slice(), rounds),
        None => None,
    }
}

/// Locates the request of a name so many times.
fn locate_named<R: Wait + AllocGlobal>(rt: &R, name: &str, rounds: u64) -> Option<usize> {
    for row in small_rows() {
        if row.name == name {
            return locate_row(rt, &row, rounds);
        }
    }
    None
}

/// Does what a task asks for that has a number.
fn run_counted<R: Files + Clock + Print + Wait + AllocGlobal>(
    rt: &R,
    task: &str,
    first: &str,
    words: &[String],
    number: u64,
) -> Option<()> {
    match task {
        "misses" => misses::run(rt, "", first, Some(number)),
        "hold" => held::run(rt, first, words.get(1)?.as_str(), number),
        "locate" => {
            locate_named(rt, first, number)?;
            Some(())
        }
        _ => None,
    }
}

/// Does what four words ask for, or three.
fn run_task<R: Files + Clock + Print + Wait + AllocGlobal>(
    rt: &R,
    task: &str,
    words: &[String],
) -> Option<()> {
    let last = words.last()?.as_str();
    let first = words.first()?.as_str();
    if task == "miss" {
        return misses::run(rt, first, last, None);
    }
    run_counted(rt, task, first, words, last.parse::<u64>().ok()?)
}

/// Does what the words ask for.
pub(crate) fn run_words<R: Files + Clock + Print + Wait + AllocGlobal>(
    rt: &R,
    words: &[String],
) -> Option<()> {
    match words {
        [_times] => print_rows(rt),
        [task, rest @ ..] => run_task(rt, task.as_str(), rest),
        [] => None,
    }
}
