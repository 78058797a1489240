//! What a resolver gives, as lines.
use crate::replies::push_question;
use crate::requests::push_target;
use crate::shown::{push_debug, push_debug_line, push_name, push_type};
use dns_answers::ReplyRefusal;
use dns_message::{Asked, Message, Question, read_message};
use row_fields::{Fault, Output};
use sip_resolver::{DnsTransport, Outcome, ReplyOutcome};
use sip_selection::{Reason, Target};
use std::alloc::AllocError;

/// Writes what octets meant.
pub(crate) fn push_heard(output: &mut Output, heard: Result<ReplyOutcome, AllocError>) {
    match heard {
        Ok(ReplyOutcome::Reply) => output.push_line("reply"),
        Ok(ReplyOutcome::Cut) => output.push_line("cut"),
        Ok(ReplyOutcome::Ignored(why)) => {
            output.push("ignored ");
            push_debug_line(output, &why);
        }
        Err(_) => output.fail(Fault::Memory),
    }
}

/// The word for what octets go over.
fn over_word(over: DnsTransport) -> &'static str {
    match over {
        DnsTransport::Datagram => "datagram ",
        DnsTransport::Stream => "stream ",
    }
}

/// Writes octets that are sent.
pub(crate) fn push_sent_octets(output: &mut Output, octets: &[u8], over: DnsTransport) {
    output.push(over_word(over));
    output.push_octets_line(octets);
}

/// Writes what is asked.
fn push_asked(output: &mut Output, asked: &Asked) {
    push_type(output, asked.type_number);
    output.push(" ");
    push_name(output, &asked.name);
}

/// Writes the one question of a message.
fn push_asked_of(output: &mut Output, questions: &[Asked]) {
    match questions {
        [asked] => push_asked(output, asked),
        _ => output.fail(Fault::Form),
    }
}

/// Writes a message: what it goes over, its id, and its question.
fn push_message(output: &mut Output, message: &Message, over: DnsTransport) {
    output.push(over_word(over));
    output.push_number(u64::from(message.header.id));
    output.push(" ");
    push_asked_of(output, message.questions.as_slice());
    output.push("\n");
}

/// Writes the message that is sent in octets.
pub(crate) fn push_sent(output: &mut Output, octets: &[u8], over: DnsTransport) {
    match read_message(output.alloc(), octets) {
        Ok(message) => {
            push_message(output, &message, over);
            drop(message);
        }
        Err(_) => output.fail(Fault::Form),
    }
}

/// Writes targets, each behind a comma.
fn push_targets(output: &mut Output, targets: &[Target]) {
    output.push(" goes");
    for target in targets {
        output.push(", ");
        push_target(output, target);
    }
}

/// Writes why a request goes nowhere.
fn push_reason(output: &mut Output, reason: Reason) {
    output.push(" refused ");
    push_debug(output, &reason);
}

/// Writes words, and the question to which there is no answer.
fn push_asked_in_vain(output: &mut Output, words: &str, question: &Question) {
    output.push(words);
    push_question(output, question);
}

/// Writes the question to which there is a bad reply.
fn push_bad_reply(output: &mut Output, question: &Question, refusal: ReplyRefusal) {
    output.push(" has a bad reply to ");
    push_question(output, question);
    output.push(": ");
    push_debug(output, &refusal);
}

/// Writes what became of the request of a number.
pub(crate) fn push_outcome(output: &mut Output, number: u64, outcome: &Outcome) {
    output.push_number(number);
    match outcome {
        Outcome::Targets(list) => push_targets(output, list.as_slice()),
        Outcome::Refused(reason) => push_reason(output, *reason),
        Outcome::NoAnswer(question) => push_asked_in_vain(output, " has no answer to ", question),
        Outcome::NoServer(question) => push_asked_in_vain(output, " has no server for ", question),
        Outcome::BadReply(question, refusal) => push_bad_reply(output, question, *refusal),
        Outcome::Memory => output.fail(Fault::Memory),
    }
    output.push("\n");
}
