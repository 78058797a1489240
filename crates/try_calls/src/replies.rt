//! Questions and the answers to them, as lines.
//!
//! `A b.example. 60 | 192.0.2.5 | 192.0.2.6` is the question for addresses of b.example. and an
//! answer of two records, which lives for 60 seconds. The fields of a record are those of a line of
//! a zone (RFC 2782, RFC 3403 4.1); `none` after the life says that there is no record, and `of
//! SRV` that the records are of that kind.
use crate::fields::{Part, kind, name, parts, question_of};
use crate::shown::{push_name, push_number, push_servers, push_type, push_v4, push_v6};
use dns_answers::{Answer, Records};
use dns_message::{CharString, Kind, NaptrRecord, Question, Section};
use ip_text::{ipv4_octets, ipv6_octets};
use row_fields::{Fault, Output, number16, number32, octets, split_word};
use std::alloc::Global;
use std::sync::Arc;

/// A question, and the answer to it.
#[derive(Drop)]
pub(crate) struct Reply {
    pub(crate) question: Question,
    pub(crate) answer: Arc<Answer>,
}

impl Part for [u8; 4] {
    /// The octets of an address of IPv4.
    fn read(_alloc: Global, part: &str) -> Result<[u8; 4], Fault> {
        ipv4_octets(part.as_bytes()).ok_or(Fault::Form)
    }
}

impl Part for [u8; 16] {
    /// The octets of an address of IPv6.
    fn read(_alloc: Global, part: &str) -> Result<[u8; 16], Fault> {
        ipv6_octets(part.as_bytes()).ok_or(Fault::Form)
    }
}

/// A character string.
fn string(alloc: Global, field: &str) -> Result<CharString, Fault> {
    CharString::new(octets(alloc, field)?).ok_or(Fault::Form)
}

/// The three strings of a rule.
#[derive(Drop)]
struct RuleStrings {
    flags: CharString,
    services: CharString,
    regexp: CharString,
}

/// The strings of three fields.
fn strings(alloc: Global, flags: &str, services: &str, regexp: &str) -> Result<RuleStrings, Fault> {
    let flags = string(alloc, flags)?;
    let services = string(alloc, services)?;
    let regexp = string(alloc, regexp)?;
    Ok(RuleStrings {
        flags,
        services,
        regexp,
    })
}

/// A rule with these numbers: flags, services, regular expression and replacement.
fn rule_of(alloc: Global, order: u16, preference: u16, rest: &str) -> Result<NaptrRecord, Fault> {
    let (flags, rest) = split_word(rest);
    let (services, rest) = split_word(rest);
    let (regexp, replacement) = split_word(rest);
    let replacement = name(alloc, replacement)?;
    let RuleStrings {
        flags,
        services,
        regexp,
    } = strings(alloc, flags, services, regexp)?;
    Ok(NaptrRecord {
        order,
        preference,
        flags,
        services,
        regexp,
        replacement,
    })
}

impl Part for NaptrRecord {
    /// A rule: order, preference, flags, services, regular expression and replacement.
    fn read(alloc: Global, part: &str) -> Result<NaptrRecord, Fault> {
        let (order, rest) = split_word(part);
        let (preference, rest) = split_word(rest);
        rule_of(alloc, number16(order)?, number16(preference)?, rest)
    }
}

/// No records of a kind.
fn no_records(alloc: Global, kind: Kind) -> Records {
    match kind {
        Kind::A => Records::V4(Section::from_vec(Vec::new(alloc))),
        Kind::Aaaa => Records::V6(Section::from_vec(Vec::new(alloc))),
        Kind::Srv => Records::Srv(Section::from_vec(Vec::new(alloc))),
        Kind::Naptr => Records::Naptr(Section::from_vec(Vec::new(alloc))),
    }
}

/// Records of a kind, if there are any.
fn records(alloc: Global, kind: Kind, records: &str) -> Result<Records, Fault> {
    if records.is_empty() {
        return Ok(no_records(alloc, kind));
    }
    Ok(match kind {
        Kind::A => Records::V4(Section::from_vec(parts(alloc, records, " | ")?)),
        Kind::Aaaa => Records::V6(Section::from_vec(parts(alloc, records, " | ")?)),
        Kind::Srv => Records::Srv(Section::from_vec(parts(alloc, records, " | ")?)),
        Kind::Naptr => Records::Naptr(Section::from_vec(parts(alloc, records, " | ")?)),
    })
}

/// An answer that can be shared.
fn shared(alloc: Global, answer: Answer) -> Result<Arc<Answer>, Fault> {
    match Arc::new(alloc, answer) {
        Ok(answer) => Ok(answer),
        Err(refused) => {
            drop(refused);
            Err(Fault::Memory)
        }
    }
}

/// An answer of records with a life.
fn answer_of(alloc: Global, records: Records, life: u32) -> Result<Arc<Answer>, Fault> {
    match Answer::new(records, life) {
        Some(answer) => shared(alloc, answer),
        None => Err(Fault::Form),
    }
}

/// An answer of records of a kind with a life.
fn answer(alloc: Global, kind: Kind, lines: &str, life: u32) -> Result<Arc<Answer>, Fault> {
    match records(alloc, kind, lines) {
        Ok(records) => answer_of(alloc, records, life),
        Err(fault) => Err(fault),
    }
}

/// The kind of an answer's records: that of its question, or the one that is written.
fn answer_kind(question: &str, written: &str) -> Result<Kind, Fault> {
    match written {
        "" | "none" => kind(question),
        _ => match written.strip_prefix("of ") {
            Some(other) => kind(other),
            None => Err(Fault::Form),
        },
    }
}

/// A question with its answer.
fn answered(question: Question, answer: Result<Arc<Answer>, Fault>) -> Result<Reply, Fault> {
    match answer {
        Ok(answer) => Ok(Reply { question, answer }),
        Err(fault) => Err(fault),
    }
}

/// The question and the answer of the fields in front of the records, and of these.
fn reply_of(alloc: Global, front: &str, lines: &str) -> Result<Reply, Fault> {
    let (kind_field, rest) = split_word(front);
    let (name_field, rest) = split_word(rest);
    let (life, written) = split_word(rest);
    let life = number32(life)?;
    let kind = answer_kind(kind_field, written)?;
    let question = question_of(alloc, name_field, kind_field)?;
    answered(question, answer(alloc, kind, lines, life))
}

/// The question and the answer of a line.
pub(crate) fn read_reply(alloc: Global, line: &str) -> Result<Reply, Fault> {
    match line.split_once(" | ") {
        Some((front, lines)) => reply_of(alloc, front, lines),
        None => reply_of(alloc, line, ""),
    }
}

/// Writes a string as a field, and a blank.
fn push_field(output: &mut Output, string: &CharString) {
    output.push_octets(string.octets());
    output.push(" ");
}

/// Writes a rule.
fn push_rule(output: &mut Output, rule: &NaptrRecord) {
    push_number(output, u32::from(rule.order));
    push_number(output, u32::from(rule.preference));
    push_field(output, &rule.flags);
    push_field(output, &rule.services);
    push_field(output, &rule.regexp);
    push_name(output, &rule.replacement);
}

/// Writes rules, each behind a text.
fn push_rules(output: &mut Output, before: &str, all: &[NaptrRecord]) {
    for rule in all {
        output.push(before);
        push_rule(output, rule);
    }
}

/// Writes records, each behind a text.
pub(crate) fn push_records(output: &mut Output, before: &str, records: &Records) {
    match records {
        Records::V4(all) => push_v4(output, before, all.as_slice(), ""),
        Records::V6(all) => push_v6(output, before, all.as_slice(), ""),
        Records::Srv(all) => push_servers(output, before, all.as_slice(), ""),
        Records::Naptr(all) => push_rules(output, before, all.as_slice()),
    }
}

/// Writes the life of an answer and its records, as they are read.
pub(crate) fn push_answer(output: &mut Output, answer: &Answer) {
    output.push_number(u64::from(answer.life()));
    if answer.records().is_empty() {
        output.push(" none");
    }
    push_records(output, " | ", answer.records());
}

/// A copy of a question, and the answer to it that there are no records, with a life.
pub(crate) fn absent(alloc: Global, question: &Question, life: u32) -> Result<Reply, Fault> {
    let answer = answer_of(alloc, no_records(alloc, question.kind), life)?;
    match question.try_clone() {
        Ok(question) => Ok(Reply { question, answer }),
        Err(_) => Err(Fault::Memory),
    }
}

/// Writes a question: its kind and its name.
pub(crate) fn push_question(output: &mut Output, question: &Question) {
    push_type(output, question.kind.type_number());
    output.push(" ");
    push_name(output, &question.name);
}
