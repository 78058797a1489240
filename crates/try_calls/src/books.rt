//! What is stored in a book of either kind, and found there.
ghost use Rattle.std.specs.Prelude.{◌≡◌, IfSome};
ghost use Rattle.std.specs.Arc.{arc_value};
ghost use Rattle.std.specs.List.{All};
ghost use Rattle.dns_answers.specs.Records.{kind_of};
ghost use Rattle.answer_cache.specs.Shared.{Belongs};

use crate::fields::{moment, question_of};
use crate::replies::{Reply, absent, push_answer, read_reply};
use crate::shown::push_debug_line;
use answer_cache::{AnswerBook, Seat, SharedCache, StoreRefusal, Stores, group};
use dns_answers::{Answer, FoundAnswer, Moment};
use dns_message::Question;
use row_fields::{Fault, Output, number32, split_word};
use std::alloc::{AllocError, Global};
use std::sync::Arc;

/// What a book says to a store.
fn stored<R, B: Stores<R>>(
    rt: &R,
    book: &B,
    seat: &mut B::Seat,
    question: &Question,
    answer: &Arc<Answer>,
    now: Moment,
) -> Result<(), StoreRefusal>
    requires made_here { B.belongs book.now seat.old }
    requires kind { kind_of (arc_value answer.now).records ≡ question.now.kind }
    ensures { B.belongs book.now seat.new }
{
    book.store(rt, seat, question, answer, now)
}

/// What a book says to a store of a reply, whose records have to be of the kind of its question:
/// `None` where they are not.
pub(crate) fn reply_stored<R, B: Stores<R>>(
    rt: &R,
    book: &B,
    seat: &mut B::Seat,
    reply: &Reply,
    now: Moment,
) -> Option<Result<(), StoreRefusal>>
    requires { B.belongs book.now seat.old }
    ensures { B.belongs book.now seat.new }
{
    if reply.answer.records().kind() != reply.question.kind {
        return None;
    }
    Some(stored(rt, book, seat, &reply.question, &reply.answer, now))
}

/// What a book finds.
pub(crate) fn found<B: AnswerBook>(
    book: &B,
    seat: &mut B::Seat,
    question: &Question,
    now: Moment,
) -> Result<Option<Arc<Answer>>, AllocError>
    requires { B.belongs book.now seat.old }
    ensures { B.belongs book.now seat.new }
{
    book.lookup(seat, question, now)
}

/// What a book finds, lent where it can be.
fn looked<'a, B: AnswerBook>(
    book: &'a B,
    seat: &mut B::Seat,
    question: &Question,
    now: Moment,
) -> Result<Option<FoundAnswer<'a>>, AllocError>
    requires { B.belongs book.now seat.old }
    ensures { B.belongs book.now seat.new }
{
    book.look(seat, question, now)
}

/// Writes an answer that was found, or `nothing`.
pub(crate) fn push_found(output: &mut Output, found: Result<Option<Arc<Answer>>, AllocError>) {
    match found {
        Ok(Some(answer)) => push_answer(output, &answer),
        Ok(None) => output.push("nothing"),
        Err(_) => output.fail(Fault::Memory),
    }
    output.push("\n");
}

/// Writes an answer where it lies, or `nothing`.
fn push_looked(output: &mut Output, found: Result<Option<FoundAnswer<'_>>, AllocError>) {
    match found {
        Ok(Some(found)) => {
            push_answer(output, found.as_arc());
            drop(found);
        }
        Ok(None) => output.push("nothing"),
        Err(_) => output.fail(Fault::Memory),
    }
    output.push("\n");
}

/// Writes what became of a store.
fn push_stored(output: &mut Output, stored: Option<Result<(), StoreRefusal>>) {
    match stored {
        Some(Ok(())) => output.push_line("stored"),
        Some(Err(refusal)) => push_debug_line(output, &refusal),
        None => output.fail(Fault::Form),
    }
}

/// A moment, and a reply that is stored then.
#[derive(Drop)]
struct DatedReply {
    now: Moment,
    reply: Reply,
}

/// The moment and the reply of a line.
fn store_of(alloc: Global, line: &str) -> Result<DatedReply, Fault> {
    let (now, line) = split_word(line);
    let now = moment(now)?;
    match read_reply(alloc, line) {
        Ok(reply) => Ok(DatedReply { now, reply }),
        Err(fault) => Err(fault),
    }
}

/// A moment, a question and its answer are stored.
fn store<R, B: Stores<R>>(rt: &R, output: &mut Output, book: &B, seat: &mut B::Seat, line: &str)
    requires { B.belongs book.now seat.old }
    ensures { B.belongs book.now seat.new }
{
    match store_of(output.alloc(), line) {
        Ok(store) => {
            let stored = reply_stored(rt, book, seat, &store.reply, store.now);
            drop(store);
            push_stored(output, stored);
        }
        Err(fault) => output.fail(fault),
    }
}

/// Stores a reply, and counts it where it is stored.
fn count_reply<R, B: Stores<R>>(
    rt: &R,
    book: &B,
    seat: &mut B::Seat,
    reply: &Reply,
    now: Moment,
    count: &mut usize,
)
    requires { B.belongs book.now seat.old }
    ensures { B.belongs book.now seat.new }
{
    if let Some(Ok(())) = reply_stored(rt, book, seat, reply, now) {
        *count = count.wrapping_add(1);
    }
}

/// A moment, and a question that is asked then.
#[derive(Drop)]
pub(crate) struct DatedQuestion {
    pub(crate) now: Moment,
    pub(crate) question: Question,
}

/// The moment and the question of three fields.
fn dated(alloc: Global, now: &str, kind: &str, name: &str) -> Result<DatedQuestion, Fault> {
    let now = moment(now)?;
    match question_of(alloc, name, kind) {
        Ok(question) => Ok(DatedQuestion { now, question }),
        Err(fault) => Err(fault),
    }
}

/// A question, and the answer without records to it that lives as long as a field says.
fn absence(alloc: Global, question: &Question, life: &str) -> Result<Reply, Fault> {
    let life = number32(life)?;
    absent(alloc, question, life)
}

/// Stores an answer without records with a life, and counts it where it is stored.
fn store_absence<R, B: Stores<R>>(
    rt: &R,
    output: &mut Output,
    book: &B,
    seat: &mut B::Seat,
    dated: &DatedQuestion,
    life: &str,
    count: &mut usize,
)
    requires { B.belongs book.now seat.old }
    ensures { B.belongs book.now seat.new }
{
    match absence(output.alloc(), &dated.question, life) {
        Ok(reply) => {
            count_reply(rt, book, seat, &reply, dated.now, count);
            drop(reply);
        }
        Err(fault) => output.fail(fault),
    }
}

/// Stores answers without records with lives, and writes how many are stored.
fn store_absences<R, B: Stores<R>>(
    rt: &R,
    output: &mut Output,
    book: &B,
    seat: &mut B::Seat,
    dated: &DatedQuestion,
    lives: &str,
)
    requires { B.belongs book.now seat.old }
    ensures { B.belongs book.now seat.new }
{
    let mut count = 0usize;
    'lives: for life in lives.split(' ') {
        store_absence(rt, output, book, seat, dated, life, &mut count);
    }
    output.push_length(count);
    output.push_line(" stored");
}

/// A moment, a kind and a name, and lives: an answer without records is stored with each of these.
/// Gives how many are stored.
fn stores<R, B: Stores<R>>(rt: &R, output: &mut Output, book: &B, seat: &mut B::Seat, line: &str)
    requires { B.belongs book.now seat.old }
    ensures { B.belongs book.now seat.new }
{
    let (now, rest) = split_word(line);
    let (kind, rest) = split_word(rest);
    let (name, lives) = split_word(rest);
    match dated(output.alloc(), now, kind, name) {
        Ok(dated) => {
            store_absences(rt, output, book, seat, &dated, lives);
            drop(dated);
        }
        Err(fault) => output.fail(fault),
    }
}

/// The moment, the kind and the name of a line.
pub(crate) fn lookup_of(alloc: Global, line: &str) -> Result<DatedQuestion, Fault> {
    let (now, rest) = split_word(line);
    let (kind, name) = split_word(rest);
    dated(alloc, now, kind, name)
}

/// A moment, a kind and a name are looked up.
fn lookup<B: AnswerBook>(output: &mut Output, book: &B, seat: &mut B::Seat, line: &str)
    requires { B.belongs book.now seat.old }
    ensures { B.belongs book.now seat.new }
{
    match lookup_of(output.alloc(), line) {
        Ok(lookup) => {
            push_found(output, found(book, seat, &lookup.question, lookup.now));
            drop(lookup);
        }
        Err(fault) => output.fail(fault),
    }
}

/// A moment, a kind and a name are looked at.
fn look<B: AnswerBook>(output: &mut Output, book: &B, seat: &mut B::Seat, line: &str)
    requires { B.belongs book.now seat.old }
    ensures { B.belongs book.now seat.new }
{
    match lookup_of(output.alloc(), line) {
        Ok(lookup) => {
            push_looked(output, looked(book, seat, &lookup.question, lookup.now));
            drop(lookup);
        }
        Err(fault) => output.fail(fault),
    }
}

/// Writes the group of a question.
fn push_group(output: &mut Output, question: &Question) {
    output.push_number(u64::from(group(question)));
    output.push("\n");
}

/// The group of a kind and a name.
fn group_line(output: &mut Output, line: &str) {
    let (kind, name) = split_word(line);
    match question_of(output.alloc(), name, kind) {
        Ok(question) => {
            push_group(output, &question);
            drop(question);
        }
        Err(fault) => output.fail(fault),
    }
}

/// What a book gives for a line.
pub(crate) fn book_line<R, B: Stores<R>>(
    rt: &R,
    output: &mut Output,
    book: &B,
    seat: &mut B::Seat,
    line: &str,
)
    requires { B.belongs book.now seat.old }
    ensures { B.belongs book.now seat.new }
{
    let (word, rest) = split_word(line);
    match word {
        "store" => store(rt, output, book, seat, rest),
        "stores" => stores(rt, output, book, seat, rest),
        "look" => look(output, book, seat, rest),
        "lookup" => lookup(output, book, seat, rest),
        "group" => group_line(output, rest),
        _ => output.fail(Fault::Form),
    }
}

/// The last of the seats of a cache.
pub(crate) fn last_of(cache: &SharedCache, seats: &mut Vec<Seat>) -> Option<Seat>
    requires { All (Belongs cache.now) seats.old.items }
    ensures left { All (Belongs cache.now) seats.new.items }
    ensures last { IfSome result (Belongs cache.now) }
{
    seats.pop()
}

/// The one seat of a cache.
fn only_seat(cache: SharedCache, mut seats: Vec<Seat>) -> Option<(SharedCache, Seat)>
    requires { All (Belongs cache) seats.items }
    ensures { IfSome result (λ made. Belongs made.0 made.1) }
{
    let seat = last_of(&cache, &mut seats);
    drop(seats);
    match seat {
        Some(seat) => Some((cache, seat)),
        None => {
            drop(cache);
            None
        }
    }
}

/// A cache with one seat.
pub(crate) fn one_seat(alloc: Global) -> Option<(SharedCache, Seat)>
    ensures { IfSome result (λ made. Belongs made.0 made.1) }
{
    match SharedCache::new(alloc, 1) {
        Ok((cache, seats)) => only_seat(cache, seats),
        Err(_) => None,
    }
}

/// Writes how many seats there are.
pub(crate) fn push_seats(output: &mut Output, count: usize) {
    output.push_length(count);
    output.push_line(" seats");
}

/// Writes what both books give, once where it is the same.
pub(crate) fn push_both(
    output: &mut Output,
    list: Result<String, Fault>,
    shared: Result<String, Fault>,
) {
    match (list, shared) {
        (Ok(list), Ok(shared)) => push_either(output, &list, &shared),
        (Err(fault), _) | (_, Err(fault)) => output.fail(fault),
    }
}

/// Writes two texts, and one where they are the same.
fn push_either(output: &mut Output, list: &str, shared: &str) {
    output.push(list);
    if list != shared {
        output.push_line("the shared cache differs:");
        output.push(shared);
    }
}
