//! Calls of `dns_answers` for chains that a server cuts short.
use crate::fields::{joined, question_of};
use crate::messages::push_message;
use crate::replies::push_question;
use dns_answers::{follow_up, is_reply_to, join_replies};
use dns_message::{Message, Question, read_message};
use row_fields::{Fault, Output, count, first_line, split_word};
use std::alloc::Global;

/// The message of the octets of lines.
fn message_of(alloc: Global, lines: &str) -> Result<Message, Fault> {
    let octets = joined(alloc, lines)?;
    match read_message(alloc, &octets) {
        Ok(message) => Ok(message),
        Err(_) => Err(Fault::Form),
    }
}

/// Writes the question that goes on, and how many links lead to it, or `none`.
fn push_follow_up(output: &mut Output, question: &Question, reply: &Message, before: usize) {
    match follow_up(output.alloc(), question, reply, before) {
        Ok(Some(further)) => {
            push_question(output, &further.question);
            output.push(" behind ");
            output.push_length(further.links);
            output.push("\n");
            drop(further);
        }
        Ok(None) => output.push_line("none"),
        Err(_) => output.fail(Fault::Memory),
    }
}

/// The same of the question of a name and a kind.
fn push_followed(output: &mut Output, name: &str, kind: &str, reply: &Message, before: usize) {
    match question_of(output.alloc(), name, kind) {
        Ok(question) => {
            push_follow_up(output, &question, reply, before);
            drop(question);
        }
        Err(fault) => output.fail(fault),
    }
}

/// A line with a name, a kind and how many links were known, and lines with the octets of a reply,
/// give the question that goes on.
pub(crate) fn followed(output: &mut Output, input: &str) -> Result<(), Fault> {
    let (line, lines) = first_line(input)?;
    let (name, rest) = split_word(line);
    let (kind, before) = split_word(rest);
    let before = count(before)?;
    let reply = message_of(output.alloc(), lines)?;
    push_followed(output, name, kind, &reply, before);
    drop(reply);
    Ok(())
}

/// Writes whether a message is a reply to the question of a name and a kind.
fn push_replied(output: &mut Output, name: &str, kind: &str, message: &Message) {
    match question_of(output.alloc(), name, kind) {
        Ok(question) => {
            output.push_line(if is_reply_to(&question, message) {
                "yes"
            } else {
                "no"
            });
            drop(question);
        }
        Err(fault) => output.fail(fault),
    }
}

/// A line with a name and a kind, and lines with the octets of a message, give whether it is a
/// reply to that question.
pub(crate) fn replied(output: &mut Output, input: &str) -> Result<(), Fault> {
    let (line, lines) = first_line(input)?;
    let (name, kind) = split_word(line);
    let message = message_of(output.alloc(), lines)?;
    push_replied(output, name, kind, &message);
    drop(message);
    Ok(())
}

/// Writes the reply that two together are.
fn push_joined(output: &mut Output, first: Message, last: Message) {
    match join_replies(output.alloc(), first, last) {
        Ok(message) => {
            push_message(output, &message);
            drop(message);
        }
        Err(_) => output.fail(Fault::Memory),
    }
}

/// The same of the reply of these lines as the last one.
fn push_joined_with(output: &mut Output, first: Message, lines: &str) {
    match message_of(output.alloc(), lines) {
        Ok(last) => push_joined(output, first, last),
        Err(fault) => {
            drop(first);
            output.fail(fault);
        }
    }
}

/// A line with the octets of a reply, and lines with those of another, give what both together are.
pub(crate) fn joined_replies(output: &mut Output, input: &str) -> Result<(), Fault> {
    let (line, lines) = first_line(input)?;
    let first = message_of(output.alloc(), line)?;
    push_joined_with(output, first, lines);
    Ok(())
}
