//! Calls of `dns_answers`.
use crate::chains::{followed, joined_replies, replied};
use crate::fields::{joined, moment, question};
use crate::shown::{push_debug_line, push_naptr, push_servers, push_type, push_v4, push_v6};
use dns_answers::{Answer, Moment, Records, answer_of};
use dns_message::{Message, NaptrRecord, Question, Section, read_message};
use row_fields::{Fault, Output, count, first_line, number32, number64, only_line, split_word};

/// What a call gives for a row's lines.
pub(crate) fn told(output: &mut Output, call: &str, input: &str) -> Result<(), Fault> {
    match call {
        "answer_of" => answered(output, input),
        "follow_up" => followed(output, input),
        "is_reply_to" => replied(output, input),
        "join_replies" => joined_replies(output, input),
        "new_answer" => new_answer(output, only_line(input)),
        "new_moment" => new_moment(output, only_line(input)),
        "is_before" => is_before(output, only_line(input)),
        _ => Err(Fault::Call),
    }
}

/// Writes rules, a line each.
fn push_rules(output: &mut Output, rules: &[NaptrRecord]) {
    for rule in rules {
        push_naptr(output, rule);
        output.push("\n");
    }
}

/// Writes an answer: its kind, how many records it has and its life, and its records, a line each.
fn push_answer(output: &mut Output, answer: &Answer) {
    let records = answer.records();
    push_type(output, records.kind().type_number());
    output.push(" ");
    output.push_length(records.len());
    output.push(" for ");
    output.push_number(u64::from(answer.life()));
    output.push(" seconds\n");
    match records {
        Records::V4(addresses) => push_v4(output, "", addresses.as_slice(), "\n"),
        Records::V6(addresses) => push_v6(output, "", addresses.as_slice(), "\n"),
        Records::Srv(servers) => push_servers(output, "", servers.as_slice(), "\n"),
        Records::Naptr(rules) => push_rules(output, rules.as_slice()),
    }
}

/// Writes the answer that a message has for a question, or the refusal.
fn push_answer_of(output: &mut Output, question: &Question, message: &Message) {
    match answer_of(output.alloc(), question, message) {
        Ok(answer) => {
            push_answer(output, &answer);
            drop(answer);
        }
        Err(refusal) => push_debug_line(output, &refusal),
    }
}

/// Writes the answer that octets have for a question, or the refusal.
fn push_answered(output: &mut Output, question: &Question, octets: &[u8]) {
    match read_message(output.alloc(), octets) {
        Ok(message) => {
            push_answer_of(output, question, &message);
            drop(message);
        }
        Err(_) => output.fail(Fault::Form),
    }
}

/// A line with a name and a kind, and lines with the octets of a message, give the answer.
fn answered(output: &mut Output, input: &str) -> Result<(), Fault> {
    let (line, lines) = first_line(input)?;
    let octets = joined(output.alloc(), lines)?;
    let question = question(output.alloc(), line)?;
    push_answered(output, &question, &octets);
    drop(question);
    Ok(())
}

/// Writes the number of records and the life of an answer.
fn push_size(output: &mut Output, answer: &Answer) {
    output.push_length(answer.records().len());
    output.push(" ");
    output.push_number(u64::from(answer.life()));
    output.push("\n");
}

/// Writes the same of an answer with these addresses and this life, or `none`.
fn push_answer_with(output: &mut Output, addresses: Vec<[u8; 4]>, life: u32) {
    match Answer::new(Records::V4(Section::from_vec(addresses)), life) {
        Some(answer) => {
            push_size(output, &answer);
            drop(answer);
        }
        None => output.push_line("none"),
    }
}

/// Fields with a number of addresses and a life give both as the answer has them, or `none`.
fn new_answer(output: &mut Output, line: &str) -> Result<(), Fault> {
    let alloc = output.alloc();
    let (size, life) = split_word(line);
    let life = number32(life)?;
    let addresses = vec![in alloc; [192u8, 0, 2, 7]; count(size)?]?;
    push_answer_with(output, addresses, life);
    Ok(())
}

/// A field with a number of seconds gives those of the moment, or `none`.
fn new_moment(output: &mut Output, line: &str) -> Result<(), Fault> {
    match Moment::new(number64(line)?) {
        Some(moment) => output.push_number(moment.get()),
        None => output.push("none"),
    }
    output.push("\n");
    Ok(())
}

/// Writes a word, and whether what it says is so.
fn push_truth(output: &mut Output, word: &str, is_so: bool) {
    output.push(word);
    output.push(if is_so { "true" } else { "false" });
}

/// Fields with two moments give whether the first comes before the second, and whether they are
/// equal.
fn is_before(output: &mut Output, line: &str) -> Result<(), Fault> {
    let (first, second) = split_word(line);
    let first = moment(first)?;
    let second = moment(second)?;
    push_truth(output, "before ", first.is_before(second));
    push_truth(output, " equal ", first == second);
    output.push("\n");
    Ok(())
}
