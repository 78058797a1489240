//! Calls of `dns_zone`.
use crate::servers::served;
use crate::shown::push_debug_line;
use dns_zone::Zone;
use row_fields::{Fault, Output, count, octets, only_line, split_word, text};
use std::alloc::Global;
use std::sync::Wait;

/// What a call gives for a row's lines.
pub(crate) fn told<R: Wait>(
    rt: &R,
    output: &mut Output,
    call: &str,
    input: &str,
) -> Result<(), Fault> {
    let input = only_line(input);
    match call {
        "read" => read(output, input),
        "reply" => replies(output, input),
        "repeated" => repeated(output, input),
        "zeros" => zeros(output, input),
        "serve" => served(rt, output, input),
        _ => Err(Fault::Call),
    }
}

/// Lines of a zone give `read`, or why they are not.
fn read(output: &mut Output, input: &str) -> Result<(), Fault> {
    let text = text(output.alloc(), input)?;
    match Zone::read(output.alloc(), &text) {
        Ok(zone) => {
            drop(zone);
            output.push_line("read");
        }
        Err(refusal) => push_debug_line(output, &refusal),
    }
    Ok(())
}

/// Writes the octets of a zone's reply to octets, or `nothing`.
fn push_reply(output: &mut Output, zone: &Zone, query: &[u8]) {
    match zone.answer_datagram(output.alloc(), query) {
        Ok(Some(reply)) => output.push_octets_line(&reply),
        Ok(None) => output.push_line("nothing"),
        Err(_) => output.fail(Fault::Memory),
    }
}

/// Writes what a zone replies to the query of a field.
fn push_field_reply(output: &mut Output, zone: &Zone, query: &str) {
    match octets(output.alloc(), query) {
        Ok(query) => push_reply(output, zone, &query),
        Err(fault) => output.fail(fault),
    }
}

/// Writes what a zone replies to each of these queries, which ` ? ` parts.
fn push_replies(output: &mut Output, zone: &Zone, queries: &str) {
    for query in queries.split("\n? ") {
        push_field_reply(output, zone, query);
    }
}

/// Lines of a zone, and lines of `? ` and the octets of a query, give the reply to each query, or
/// why the zone is not read.
fn replies(output: &mut Output, input: &str) -> Result<(), Fault> {
    let (zone, queries) = input.split_once("\n? ").ok_or(Fault::Form)?;
    let text = text(output.alloc(), zone)?;
    match Zone::read(output.alloc(), &text) {
        Ok(zone) => {
            push_replies(output, &zone, queries);
            drop(zone);
        }
        Err(refusal) => push_debug_line(output, &refusal),
    }
    Ok(())
}

/// Writes the length of a zone's reply to octets, or `nothing`.
fn push_reply_length(output: &mut Output, zone: &Zone, query: &[u8]) {
    match zone.answer_datagram(output.alloc(), query) {
        Ok(Some(reply)) => output.push_length(reply.len()),
        Ok(None) => output.push("nothing"),
        Err(_) => output.fail(Fault::Memory),
    }
    output.push("\n");
}

/// Writes the length of the reply to octets by the zone of a text, or why it is not read.
fn push_length_by(output: &mut Output, text: &str, query: &[u8]) {
    match Zone::read(output.alloc(), text) {
        Ok(zone) => {
            push_reply_length(output, &zone, query);
            drop(zone);
        }
        Err(refusal) => push_debug_line(output, &refusal),
    }
}

/// Adds the text of a field, so many times.
fn push_field(all: &mut String, alloc: Global, field: &str, count: usize) -> Result<(), Fault> {
    let part = text(alloc, field)?;
    for _ in 0..count {
        all.push_str(&part)?;
    }
    Ok(())
}

/// The text of three fields, of which the second stands so many times between the others: they and
/// the number come as a text, a part, the number and a text.
fn push_repeated(all: &mut String, alloc: Global, line: &str) -> Result<(), Fault> {
    let (front, rest) = split_word(line);
    let (part, rest) = split_word(rest);
    let (times, back) = split_word(rest);
    push_field(all, alloc, front, 1)?;
    push_field(all, alloc, part, count(times)?)?;
    push_field(all, alloc, back, 1)
}

/// The octets of a query, and fields with a text, a part that stands so many times behind it, and a
/// text behind that, give the length of the reply by the zone of the whole text.
fn repeated(output: &mut Output, line: &str) -> Result<(), Fault> {
    let (query, rest) = split_word(line);
    let query = octets(output.alloc(), query)?;
    let mut text = String::new(output.alloc());
    push_repeated(&mut text, output.alloc(), rest)?;
    push_length_by(output, &text, &query);
    Ok(())
}

/// A number gives the length of the reply to so many octets of 0.
fn zeros(output: &mut Output, line: &str) -> Result<(), Fault> {
    let alloc = output.alloc();
    let query = vec![in alloc; 0u8; count(line)?]?;
    push_length_by(output, "", &query);
    Ok(())
}
