//! Calls of `srv_choice`.
use crate::fields::{Part, name, parts};
use crate::requests::words_from;
use dns_message::SrvRecord;
use row_fields::{Fault, Output, count, first_line, number16, only_line, split_word};
use srv_choice::{Indexes, RECORD_LIMIT, SrvOutcome, WORD_COUNT, Words, fixed_order, order};
use std::alloc::Global;

/// What a call gives for a row's lines.
pub(crate) fn told(output: &mut Output, call: &str, input: &str) -> Result<(), Fault> {
    match call {
        "order" => ordered(output, input),
        "fixed_order" => ordered_so(output, input),
        _ => Err(Fault::Call),
    }
}

impl Part for SrvRecord {
    /// A server: priority, weight, port and target.
    fn read(alloc: Global, part: &str) -> Result<SrvRecord, Fault> {
        let (priority, rest) = split_word(part);
        let (weight, rest) = split_word(rest);
        let (port, target) = split_word(rest);
        Ok(SrvRecord {
            priority: number16(priority)?,
            weight: number16(weight)?,
            port: number16(port)?,
            target: name(alloc, target)?,
        })
    }
}

/// The records of lines.
fn servers_of(alloc: Global, lines: &str) -> Result<Vec<SrvRecord>, Fault> {
    if lines.is_empty() {
        return Ok(Vec::new(alloc));
    }
    parts(alloc, lines, "\n")
}

/// The outcome for records, by words from an index on.
fn outcome(records: &[SrvRecord], words: &Words, from: usize) -> Result<SrvOutcome, Fault> {
    if records.len() <= RECORD_LIMIT && from <= WORD_COUNT - records.len() {
        Ok(order(records, words, from))
    } else {
        Err(Fault::Form)
    }
}

/// Writes indexes, and the index of the next word.
fn push_listed(output: &mut Output, indexes: &Indexes, next: usize) {
    for index in indexes.as_slice() {
        output.push_length(usize::from(*index));
        output.push(" ");
    }
    output.push("next word ");
    output.push_length(next);
    output.push("\n");
}

/// Writes an outcome.
fn push_outcome(output: &mut Output, outcome: &SrvOutcome) {
    match outcome {
        SrvOutcome::Listed(indexes, next) => push_listed(output, indexes, *next),
        SrvOutcome::Absent => output.push_line("absent"),
        SrvOutcome::Denied => output.push_line("denied"),
    }
}

/// A line with an index and words, and lines with records, give the indexes of the records in their
/// order, and the index of the next word; or `absent` or `denied`.
fn ordered(output: &mut Output, input: &str) -> Result<(), Fault> {
    let (line, lines) = first_line(input)?;
    let (from, words) = split_word(line);
    let from = count(from)?;
    let words = words_from(from, words)?;
    let records = servers_of(output.alloc(), only_line(lines))?;
    let outcome = outcome(&records, &words, from)?;
    push_outcome(output, &outcome);
    Ok(())
}

/// The outcome for records in the fixed order, where this index is that of the next word.
fn fixed_outcome(records: &[SrvRecord], from: usize) -> Result<SrvOutcome, Fault> {
    if records.len() <= RECORD_LIMIT && from <= WORD_COUNT - records.len() {
        Ok(fixed_order(records, from))
    } else {
        Err(Fault::Form)
    }
}

/// A line with an index, and lines with records, give the indexes of the records in the fixed
/// order, and the index of the next word; or `absent` or `denied`.
fn ordered_so(output: &mut Output, input: &str) -> Result<(), Fault> {
    let (line, lines) = first_line(input)?;
    let records = servers_of(output.alloc(), only_line(lines))?;
    let outcome = fixed_outcome(&records, count(line)?)?;
    push_outcome(output, &outcome);
    Ok(())
}
