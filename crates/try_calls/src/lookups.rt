//! What a lookup asks and finds, as text.
use crate::replies::push_records;
use dns_answers::Answer;
use dns_zone::Zone;
use row_fields::{Fault, Output, octets};
use std::alloc::Global;

/// The key of 32 octets that a field spells.
pub(crate) fn key_of(alloc: Global, field: &str) -> Result<[u8; 32], Fault> {
    let octets = octets(alloc, field)?;
    if octets.len() != 32 {
        return Err(Fault::Form);
    }
    let mut key = [0; 32];
    key.copy_from_slice(&octets);
    Ok(key)
}

/// Writes a line with a number, or with `none`.
pub(crate) fn push_number_line(output: &mut Output, number: Option<u64>) {
    match number {
        Some(number) => output.push_number(number),
        None => output.push("none"),
    }
    output.push("\n");
}

/// Writes a line with `yes` or `no`.
pub(crate) fn push_yes(output: &mut Output, is_so: bool) {
    output.push_line(if is_so { "yes" } else { "no" });
}

/// Writes the life of an answer, and its records, each behind a comma.
pub(crate) fn push_answer(output: &mut Output, answer: &Answer) {
    output.push_number(u64::from(answer.life()));
    output.push(" s");
    push_records(output, ", ", answer.records());
}

/// The zone of a text.
pub(crate) fn zone_of(alloc: Global, text: &str) -> Result<Zone, Fault> {
    match Zone::read(alloc, text) {
        Ok(zone) => Ok(zone),
        Err(_) => Err(Fault::Form),
    }
}

/// Adds a line to a text.
pub(crate) fn push_line(text: &mut String, line: &str) -> Result<(), Fault> {
    text.push_str(line)?;
    text.push_str("\n")?;
    Ok(())
}
