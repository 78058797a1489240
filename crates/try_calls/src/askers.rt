//! Calls of `dns_queries`: what happens to an asker, and what it gives.
use crate::fields::{moment, question_of};
use crate::lookups::{push_answer, push_number_line, push_yes};
use crate::replies::push_question;
use crate::schedules::{is_in_range, schedule_of};
use crate::shown::push_debug_line;
use dns_answers::{Answer, Moment, ReplyRefusal};
use dns_message::Question;
use dns_queries::{Asker, Due, Ending, Incoming, Schedule, Why};
use row_fields::{Fault, Output, first_line, number16, number64, octets, split_word};
use std::alloc::{AllocError, Global};

/// What a call gives for a row's lines.
pub(crate) fn told(output: &mut Output, call: &str, input: &str) -> Result<(), Fault> {
    match call {
        "script" => script(output, input),
        _ => Err(Fault::Call),
    }
}

/// What an asker gives for what happens to it, line by line. The first line has the most questions
/// that wait at once, the number of the first ticket, and the schedule, if it is another than the
/// usual one.
fn script(output: &mut Output, input: &str) -> Result<(), Fault> {
    let (first, lines) = first_line(input)?;
    let (limit, rest) = split_word(first);
    let (serial, schedule) = split_word(rest);
    let limit = usize::from(number16(limit)?);
    let schedule = schedule_of(schedule)?;
    play_new(output, limit, number64(serial)?, schedule, lines)
}

/// Plays lines to a new asker.
fn play_new(
    output: &mut Output,
    limit: usize,
    serial: u64,
    schedule: Schedule,
    lines: &str,
) -> Result<(), Fault> {
    if limit < 1 || limit > 256 || !is_in_range(schedule) {
        return Err(Fault::Form);
    }
    match Asker::with_schedule(output.alloc(), limit, serial, schedule) {
        Ok(mut asker) => {
            play(output, &mut asker, lines);
            drop(asker);
        }
        Err(_) => output.fail(Fault::Memory),
    }
    Ok(())
}

/// Plays lines to an asker.
fn play(output: &mut Output, asker: &mut Asker, lines: &str) {
    for line in lines.lines() {
        let done = step(output, asker, line);
        output.end(done);
    }
}

/// What an asker gives for a line.
fn step(output: &mut Output, asker: &mut Asker, line: &str) -> Result<(), Fault> {
    let (word, rest) = split_word(line);
    match word {
        "ask" => ask(output, asker, rest),
        "asks" => ask_range(output, asker, rest),
        "hear" => hear(output, asker, rest),
        "cancel" => cancel(output, asker, rest),
        "due" => due(output, asker, rest),
        _ => seen(output, asker, word, rest),
    }
}

/// What an asker says of itself.
fn seen(output: &mut Output, asker: &Asker, word: &str, rest: &str) -> Result<(), Fault> {
    match word {
        "next_due" => push_number_line(output, asker.next_due()),
        "is_open" => push_yes(output, asker.is_open(number16(rest)?)),
        "is_full" => push_yes(output, asker.is_full()),
        "id_of" => return push_id(output, asker, rest),
        "sends_of" => {
            let sends = asker.sends_of(number16(rest)?);
            push_number_line(output, Some(u64::from(sends)));
        }
        "octets_of" => push_open_octets(output, asker.octets_of(number16(rest)?)),
        _ => return Err(Fault::Form),
    }
    Ok(())
}

/// Writes the id under which a question waits.
fn push_id(output: &mut Output, asker: &Asker, rest: &str) -> Result<(), Fault> {
    let (kind, name) = split_word(rest);
    let question = question_of(output.alloc(), name, kind)?;
    push_number_line(output, asker.id_of(&question).map(u64::from));
    drop(question);
    Ok(())
}

/// Writes the octets of a question that waits, or `none`.
fn push_open_octets(output: &mut Output, octets: Option<&[u8]>) {
    match octets {
        Some(octets) => output.push_octets_line(octets),
        None => output.push_line("none"),
    }
}

/// A question that is asked.
#[derive(Drop)]
struct Asking {
    question: Question,
    id: u16,
    now: Moment,
}

/// The question of a line: its id, its type, its name and the moment.
fn asking_of(alloc: Global, rest: &str) -> Result<Asking, Fault> {
    let (id, rest) = split_word(rest);
    let (kind, rest) = split_word(rest);
    let (name, now) = split_word(rest);
    let (id, now) = (number16(id)?, moment(now)?);
    match question_of(alloc, name, kind) {
        Ok(question) => Ok(Asking { question, id, now }),
        Err(fault) => Err(fault),
    }
}

/// Asks a question, and writes the octets to send, or the refusal.
fn push_asked(output: &mut Output, asker: &mut Asker, asking: Asking) {
    match asker.ask(asking.question, asking.id, asking.now) {
        Ok(octets) => output.push_octets_line(octets),
        Err(refusal) => push_debug_line(output, &refusal),
    }
}

/// Asks the question of a line.
fn ask(output: &mut Output, asker: &mut Asker, rest: &str) -> Result<(), Fault> {
    let asking = asking_of(output.alloc(), rest)?;
    push_asked(output, asker, asking);
    Ok(())
}

/// Whether a question is taken.
fn is_taken(asker: &mut Asker, question: Question, id: u16, now: Moment) -> bool {
    asker.ask(question, id, now).is_ok()
}

/// Whether a copy of a question is taken.
fn is_asked(asker: &mut Asker, asking: &Asking, id: u16) -> bool {
    match asking.question.try_clone() {
        Ok(question) => is_taken(asker, question, id, asking.now),
        Err(_) => false,
    }
}

/// How many times one question is taken, under each id from its own to another one.
fn count_asked(asker: &mut Asker, asking: &Asking, last: u16) -> u32 {
    let mut count = 0u32;
    for id in asking.id..=last {
        let taken = is_asked(asker, asking, id);
        count = count.saturating_add(u32::from(taken));
    }
    count
}

/// Asks the question of a line under each id from its own to the one in front of it, and writes how
/// many of them are taken.
fn ask_range(output: &mut Output, asker: &mut Asker, rest: &str) -> Result<(), Fault> {
    let (last, rest) = split_word(rest);
    let last = number16(last)?;
    let asking = asking_of(output.alloc(), rest)?;
    let count = count_asked(asker, &asking, last);
    drop(asking);
    push_number_line(output, Some(u64::from(count)));
    Ok(())
}

/// Hands octets in, and writes what they mean.
fn hear(output: &mut Output, asker: &mut Asker, rest: &str) -> Result<(), Fault> {
    let octets = octets(output.alloc(), rest)?;
    push_heard(output, asker.incoming(&octets));
    Ok(())
}

/// Writes what octets mean.
fn push_heard(output: &mut Output, heard: Result<Incoming, AllocError>) {
    match heard {
        Ok(Incoming::Ended(id, question, ending)) => {
            push_ended(output, id, &question, &ending);
            drop(question);
            drop(ending);
        }
        Ok(Incoming::Ignored(why)) => push_ignored(output, why),
        Err(_) => output.fail(Fault::Memory),
    }
}

/// Writes why octets are ignored.
fn push_ignored(output: &mut Output, why: Why) {
    output.push("ignored ");
    push_debug_line(output, &why);
}

/// Writes how the wait for a reply ended.
fn push_ended(output: &mut Output, id: u16, question: &Question, ending: &Ending) {
    match ending {
        Ending::Answered(answer) => push_answered(output, id, question, answer),
        Ending::Faulty(fault) => push_faulty(output, id, question, *fault),
    }
}

/// Writes a word, an id and a question.
fn push_waiting(output: &mut Output, word: &str, id: u16, question: &Question) {
    output.push(word);
    output.push_number(u64::from(id));
    output.push(" ");
    push_question(output, question);
}

/// Writes a question that has its answer.
fn push_answered(output: &mut Output, id: u16, question: &Question, answer: &Answer) {
    push_waiting(output, "answered ", id, question);
    output.push(": ");
    push_answer(output, answer);
    output.push("\n");
}

/// Writes a question whose server failed.
fn push_faulty(output: &mut Output, id: u16, question: &Question, fault: ReplyRefusal) {
    push_waiting(output, "faulty ", id, question);
    output.push(": ");
    push_debug_line(output, &fault);
}

/// Cancels the question of an id, and writes it.
fn cancel(output: &mut Output, asker: &mut Asker, rest: &str) -> Result<(), Fault> {
    let id = number16(rest)?;
    push_cancelled(output, asker.cancel(id));
    Ok(())
}

/// Writes a question that was cancelled, or `none`.
fn push_cancelled(output: &mut Output, cancelled: Option<Question>) {
    match cancelled {
        Some(question) => {
            output.push("cancelled ");
            push_question(output, &question);
            drop(question);
        }
        None => output.push("none"),
    }
    output.push("\n");
}

/// Lets a moment come, and writes what is to be done.
fn due(output: &mut Output, asker: &mut Asker, rest: &str) -> Result<(), Fault> {
    let now = moment(rest)?;
    match asker.due(now) {
        Some(Due::Resend(id, octets)) => push_resent(output, id, octets),
        Some(Due::GaveUp(id, question)) => push_given_up(output, id, question),
        None => output.push_line("nothing"),
    }
    Ok(())
}

/// Writes a question that is sent once more.
fn push_resent(output: &mut Output, id: u16, octets: &[u8]) {
    output.push("resend ");
    output.push_number(u64::from(id));
    output.push(" ");
    output.push_octets_line(octets);
}

/// Writes a question that is given up.
fn push_given_up(output: &mut Output, id: u16, question: &Question) {
    push_waiting(output, "give up ", id, question);
    output.push("\n");
}
