//! What a field stands for: octets that are joined, names, kinds, questions and moments.
//!
//! Where octets are joined of all fields of all lines, `20*FIELD` is a field twenty times.
use dns_answers::Moment;
use dns_message::{Kind, Question};
use dns_name::Name;
use row_fields::{Fault, number64, octets, only_line, split_word, text};
use std::alloc::Global;

/// How often a field counts, and the field.
fn counted(field: &str) -> (u32, &str) {
    let Some((count, repeated)) = field.split_once('*') else {
        return (1, field);
    };
    match count.parse::<u32>() {
        Ok(count) => (count, repeated),
        Err(_) => (1, field),
    }
}

/// Adds octets, so many times.
fn push_times(all: &mut Vec<u8>, octets: &[u8], count: u32) -> Result<(), Fault> {
    for _ in 0..count {
        all.extend_from_slice(octets)?;
    }
    Ok(())
}

/// Adds the octets of a field, as often as it counts.
pub(crate) fn push_field(alloc: Global, all: &mut Vec<u8>, field: &str) -> Result<(), Fault> {
    let (count, field) = counted(field);
    let octets = octets(alloc, field)?;
    push_times(all, &octets, count)
}

/// Adds the octets of the fields of a line.
fn push_fields(alloc: Global, all: &mut Vec<u8>, line: &str) -> Result<(), Fault> {
    for field in line.split(' ') {
        push_field(alloc, all, field)?;
    }
    Ok(())
}

/// The octets of all fields of all lines.
pub(crate) fn joined(alloc: Global, lines: &str) -> Result<Vec<u8>, Fault> {
    let mut all = Vec::new(alloc);
    for line in only_line(lines).split('\n') {
        push_fields(alloc, &mut all, line)?;
    }
    Ok(all)
}

/// What stands between two separators of a text.
pub(crate) trait Part: Sized {
    /// The value of a part.
    fn read(alloc: Global, part: &str) -> Result<Self, Fault>;
}

/// Adds a value.
pub(crate) fn keep<T: Drop>(all: &mut Vec<T>, value: T) -> Result<(), Fault> {
    match all.push(value) {
        Ok(()) => Ok(()),
        Err(_) => Err(Fault::Memory),
    }
}

/// Adds the value of a part.
fn push_part<T: Part + Drop>(alloc: Global, all: &mut Vec<T>, part: &str) -> Result<(), Fault> {
    keep(all, T::read(alloc, part)?)
}

/// The values of the parts of a text.
pub(crate) fn parts<T: Part + Drop>(
    alloc: Global,
    text: &str,
    separator: &str,
) -> Result<Vec<T>, Fault> {
    let mut all = Vec::new(alloc);
    for part in text.split(separator) {
        push_part(alloc, &mut all, part)?;
    }
    Ok(all)
}

/// The name of a text.
fn name_of(alloc: Global, text: &str) -> Result<Name, Fault> {
    match Name::from_text(alloc, text) {
        Ok(name) => Ok(name),
        Err(_) => Err(Fault::Form),
    }
}

/// The name of a field.
pub(crate) fn name(alloc: Global, field: &str) -> Result<Name, Fault> {
    let text = text(alloc, field)?;
    name_of(alloc, &text)
}

/// The kind of a field: `A`, `AAAA`, `SRV` or `NAPTR`.
pub(crate) fn kind(field: &str) -> Result<Kind, Fault> {
    match field {
        "A" => Ok(Kind::A),
        "AAAA" => Ok(Kind::Aaaa),
        "SRV" => Ok(Kind::Srv),
        "NAPTR" => Ok(Kind::Naptr),
        _ => Err(Fault::Form),
    }
}

/// The question of two fields: a name and a kind.
pub(crate) fn question_of(alloc: Global, name: &str, kind: &str) -> Result<Question, Fault> {
    let kind = self::kind(kind)?;
    Ok(Question {
        name: self::name(alloc, name)?,
        kind,
    })
}

/// The question of a line with a name and a kind.
pub(crate) fn question(alloc: Global, line: &str) -> Result<Question, Fault> {
    let (name, kind) = split_word(line);
    question_of(alloc, name, kind)
}

/// The moment of a field, by its number of seconds.
pub(crate) fn moment(field: &str) -> Result<Moment, Fault> {
    match Moment::new(number64(field)?) {
        Some(moment) => Ok(moment),
        None => Err(Fault::Form),
    }
}
