//! Calls of `sip_locator`.
ghost use Rattle.sip_selection.specs.Requests.{IsRequestView};

use crate::books::{book_line, one_seat, push_both};
use crate::fields::{keep, moment};
use crate::replies::{Reply, read_reply};
use crate::requests::{Sending, push_next, read_sending, view};
use crate::shown::push_debug_line;
use answer_cache::{AnswerBook, ListCache, Stores};
use dns_answers::Moment;
use row_fields::{Fault, Output, count, octets, split_word};
use sip_locator::{Kept, Located, Locator, LocatorRefusal, locate};
use sip_selection::{GiveRefusal, Next, RequestView};
use srv_choice::RandomWords;
use std::alloc::{AllocError, Global};
use std::sync::Wait;

/// What a call gives for a row's lines.
pub(crate) fn told<R: Wait>(rt: &R, output: &mut Output, call: &str, input: &str) {
    let alloc = output.alloc();
    match call {
        "next" => push_both(
            output,
            over_list(rt, alloc, input),
            over_shared(rt, alloc, input),
        ),
        _ => output.fail(Fault::Call),
    }
}

/// A locator of a request.
fn locator_of<B: AnswerBook>(alloc: Global, sending: Sending) -> Result<Locator<B>, Fault> {
    let Sending {
        request,
        caps,
        words,
    } = sending;
    match Locator::new(alloc, request, caps, words) {
        Ok(locator) => Ok(locator),
        Err(_) => Err(Fault::Memory),
    }
}

/// A locator of the request of a line.
fn locator<B: AnswerBook>(alloc: Global, line: &str) -> Result<Locator<B>, Fault> {
    match read_sending(alloc, line) {
        Ok(sending) => locator_of(alloc, sending),
        Err(fault) => Err(fault),
    }
}

/// Does the next step of a locator, and writes what it gives.
fn push_step<B: AnswerBook>(
    output: &mut Output,
    locator: &mut Locator<B>,
    book: &B,
    seat: &mut B::Seat,
    now: Moment,
)
    requires { B.belongs book.now seat.old }
    ensures { B.belongs book.now seat.new }
{
    match locator.step(book, seat, now) {
        Ok(next) => push_next(output, next),
        Err(_) => output.fail(Fault::Memory),
    }
}

/// A locator does its next step at the moment of a field.
fn step<B: AnswerBook>(
    output: &mut Output,
    locator: &mut Locator<B>,
    book: &B,
    seat: &mut B::Seat,
    now: &str,
)
    requires { B.belongs book.now seat.old }
    ensures { B.belongs book.now seat.new }
{
    match moment(now) {
        Ok(now) => push_step(output, locator, book, seat, now),
        Err(fault) => output.fail(fault),
    }
}

/// What comes of a reply.
fn replied<R, B: Stores<R>>(
    rt: &R,
    locator: &mut Locator<B>,
    book: &B,
    seat: &mut B::Seat,
    now: Moment,
    octets: &[u8],
) -> Result<Kept, LocatorRefusal>
    requires { B.belongs book.now seat.old }
    ensures { B.belongs book.now seat.new }
{
    locator.reply(rt, book, seat, now, octets)
}

/// Writes whether the answer of a reply is kept, or why the reply is not taken.
fn push_taken(output: &mut Output, taken: Result<Kept, LocatorRefusal>) {
    match taken {
        Ok(Kept::Yes) => output.push_line("kept"),
        Ok(Kept::No(refusal)) => {
            output.push("not kept: ");
            push_debug_line(output, &refusal);
        }
        Err(refusal) => push_debug_line(output, &refusal),
    }
}

/// Writes why an answer is not taken.
fn push_given(output: &mut Output, given: Result<(), GiveRefusal>) {
    match given {
        Ok(()) => output.push_line("taken"),
        Err(refusal) => push_debug_line(output, &refusal),
    }
}

/// Hands a question and its answer to a locator.
fn given<B: AnswerBook>(locator: &mut Locator<B>, reply: Reply) -> Result<(), GiveRefusal> {
    let Reply { question, answer } = reply;
    locator.give(&question, answer)
}

/// Hands the question and the answer of a line to a locator, and writes why they are not taken.
fn give<B: AnswerBook>(output: &mut Output, locator: &mut Locator<B>, line: &str) {
    match read_reply(output.alloc(), line) {
        Ok(reply) => push_given(output, given(locator, reply)),
        Err(fault) => output.fail(fault),
    }
}

/// Octets that come in at a moment.
#[derive(Drop)]
struct Heard {
    now: Moment,
    octets: Vec<u8>,
}

/// The moment and the octets of a line.
fn heard_of(alloc: Global, line: &str) -> Result<Heard, Fault> {
    let (now, field) = split_word(line);
    let now = moment(now)?;
    Ok(Heard {
        now,
        octets: octets(alloc, field)?,
    })
}

/// What a locator gives for the octets that came in at a moment.
fn reply<R, B: Stores<R>>(
    rt: &R,
    output: &mut Output,
    locator: &mut Locator<B>,
    book: &B,
    seat: &mut B::Seat,
    line: &str,
)
    requires { B.belongs book.now seat.old }
    ensures { B.belongs book.now seat.new }
{
    match heard_of(output.alloc(), line) {
        Ok(Heard { now, octets }) => {
            push_taken(output, replied(rt, locator, book, seat, now, &octets));
        }
        Err(fault) => output.fail(fault),
    }
}

/// What a locator gives for a line.
fn locator_line<R, B: Stores<R>>(
    rt: &R,
    output: &mut Output,
    locator: &mut Locator<B>,
    book: &B,
    seat: &mut B::Seat,
    line: &str,
)
    requires { B.belongs book.now seat.old }
    ensures { B.belongs book.now seat.new }
{
    let (word, rest) = split_word(line);
    match word {
        "step" => step(output, locator, book, seat, rest),
        "reply" => reply(rt, output, locator, book, seat, rest),
        "give" => give(output, locator, rest),
        "next" => push_next(output, locator.next()),
        _ => output.fail(Fault::Form),
    }
}

/// Adds a locator, and writes what is next for it.
fn add<B: AnswerBook>(output: &mut Output, locators: &mut Vec<Locator<B>>, locator: Locator<B>) {
    push_next(output, locator.next());
    output.end(keep(locators, locator));
}

/// Adds the locator of the request of a line, and writes what is next for it.
fn begin<B: AnswerBook>(output: &mut Output, locators: &mut Vec<Locator<B>>, line: &str) {
    match locator(output.alloc(), line) {
        Ok(locator) => add(output, locators, locator),
        Err(fault) => output.fail(fault),
    }
}

/// A request that is located at a moment.
#[derive(Drop)]
struct Timed {
    now: Moment,
    sending: Sending,
}

/// The moment and the request of a line.
fn timed_request(alloc: Global, line: &str) -> Result<Timed, Fault> {
    let (now, rest) = split_word(line);
    match moment(now) {
        Ok(now) => match read_sending(alloc, rest) {
            Ok(sending) => Ok(Timed { now, sending }),
            Err(fault) => Err(fault),
        },
        Err(fault) => Err(fault),
    }
}

/// Where a request goes, as far as a book has the answers.
fn located<B: AnswerBook>(
    alloc: Global,
    book: &B,
    seat: &mut B::Seat,
    it: &Timed,
    request: &RequestView<'_>,
) -> Result<Located<B>, AllocError>
    requires seat { B.belongs book.now seat.old }
    requires view { IsRequestView request.now }
    ensures { B.belongs book.now seat.new }
{
    let Sending { caps, words, .. } = &it.sending;
    let words = RandomWords::Given(words);
    locate(alloc, book, seat, request, caps, &words, it.now)
}

/// Writes where a request goes; the locator of one whose answers are not all there is added.
fn push_located<B: AnswerBook>(
    output: &mut Output,
    locators: &mut Vec<Locator<B>>,
    located: Result<Located<B>, AllocError>,
) {
    match located {
        Ok(Located::Targets(targets)) => push_next(output, Next::Targets(targets.as_slice())),
        Ok(Located::Refused(reason)) => push_next(output, Next::Refused(reason)),
        Ok(Located::Missing(locator)) => add(output, locators, locator.into_locator()),
        Err(_) => output.fail(Fault::Memory),
    }
}

/// Writes where a request goes at its moment, by one call.
fn locate_timed<B: AnswerBook>(
    output: &mut Output,
    locators: &mut Vec<Locator<B>>,
    book: &B,
    seat: &mut B::Seat,
    it: &Timed,
    request: &RequestView<'_>,
)
    requires seat { B.belongs book.now seat.old }
    requires view { IsRequestView request.now }
    ensures { B.belongs book.now seat.new }
{
    let located = located(output.alloc(), book, seat, it, request);
    push_located(output, locators, located);
}

/// The same of the request of a line.
fn locate_at<B: AnswerBook>(
    output: &mut Output,
    locators: &mut Vec<Locator<B>>,
    book: &B,
    seat: &mut B::Seat,
    line: &str,
)
    requires { B.belongs book.now seat.old }
    ensures { B.belongs book.now seat.new }
{
    match timed_request(output.alloc(), line) {
        Ok(it) => {
            let request = RequestView::Read(&it.sending.request);
            locate_timed(output, locators, book, seat, &it, &request);
            drop(it);
        }
        Err(fault) => output.fail(fault),
    }
}

/// The same of a request as it stands in the text of a field.
fn locate_timed_view<B: AnswerBook>(
    output: &mut Output,
    locators: &mut Vec<Locator<B>>,
    book: &B,
    seat: &mut B::Seat,
    it: &Timed,
    field: &str,
)
    requires { B.belongs book.now seat.old }
    ensures { B.belongs book.now seat.new }
{
    match view(field.as_bytes()) {
        Ok(request) => locate_timed(output, locators, book, seat, it, &request),
        Err(fault) => output.fail(fault),
    }
}

/// The same of the request of a line.
fn locate_view_at<B: AnswerBook>(
    output: &mut Output,
    locators: &mut Vec<Locator<B>>,
    book: &B,
    seat: &mut B::Seat,
    line: &str,
)
    requires { B.belongs book.now seat.old }
    ensures { B.belongs book.now seat.new }
{
    let (field, _) = split_word(split_word(line).1);
    match timed_request(output.alloc(), line) {
        Ok(it) => {
            locate_timed_view(output, locators, book, seat, &it, field);
            drop(it);
        }
        Err(fault) => output.fail(fault),
    }
}

/// The locator of a number.
fn numbered<'a, B: AnswerBook>(
    locators: &'a mut Vec<Locator<B>>,
    number: &str,
) -> Option<&'a mut Locator<B>> {
    match count(number) {
        Ok(number) => locators.get_mut(number),
        Err(_) => None,
    }
}

/// What the locator of a number gives for a line.
fn numbered_line<R, B: Stores<R>>(
    rt: &R,
    output: &mut Output,
    locators: &mut Vec<Locator<B>>,
    book: &B,
    seat: &mut B::Seat,
    number: &str,
    line: &str,
)
    requires { B.belongs book.now seat.old }
    ensures { B.belongs book.now seat.new }
{
    match numbered(locators, number) {
        Some(locator) => locator_line(rt, output, locator, book, seat, line),
        None => output.fail(Fault::Form),
    }
}

/// What the locators over a book give for a line, or the book itself.
fn said<R, B: Stores<R>>(
    rt: &R,
    output: &mut Output,
    locators: &mut Vec<Locator<B>>,
    book: &B,
    seat: &mut B::Seat,
    line: &str,
)
    requires { B.belongs book.now seat.old }
    ensures { B.belongs book.now seat.new }
{
    let (word, rest) = split_word(line);
    match word {
        "locate" => begin(output, locators, rest),
        "at" => locate_at(output, locators, book, seat, rest),
        "view" => locate_view_at(output, locators, book, seat, rest),
        "book" => book_line(rt, output, book, seat, rest),
        _ => numbered_line(rt, output, locators, book, seat, word, rest),
    }
}

/// What a book and the locators over it give for lines.
fn talk<R, B: Stores<R>>(rt: &R, output: &mut Output, book: &B, seat: &mut B::Seat, input: &str)
    requires { B.belongs book.now seat.old }
{
    let mut locators = Vec::new(output.alloc());
    'lines: for line in input.lines() {
        said(rt, output, &mut locators, book, seat, line);
    }
}

/// The same of a new book of one thread.
fn over_list<R: Wait>(rt: &R, alloc: Global, input: &str) -> Result<String, Fault> {
    let mut output = Output::new(alloc);
    let (book, mut seat) = ListCache::new(alloc);
    talk(rt, &mut output, &book, &mut seat, input);
    output.finish()
}

/// The same of a new book that threads can share.
fn over_shared<R: Wait>(rt: &R, alloc: Global, input: &str) -> Result<String, Fault> {
    let mut output = Output::new(alloc);
    match one_seat(alloc) {
        Some((book, mut seat)) => {
            talk(rt, &mut output, &book, &mut seat, input);
            drop(seat);
            drop(book);
        }
        None => output.fail(Fault::Memory),
    }
    output.finish()
}
