//! The lines of the records of a reply.
ghost use Rattle.std.specs.Prelude.{◌≡◌, ◌++◌, IfOk, OnOk};
ghost use Rattle.std.specs.List.{count_by, flat_map};
ghost use Rattle.std.specs.String.{string_bytes};
ghost use Rattle.sip_report.specs.RecordLines as spec;

use crate::address::AddressForm;
use crate::record_words::{push_name_word, push_number, push_rdata};
use dns_answers::{ReplyRefusal, answer_of};
use dns_message::{Asked, CLASS_IN, Kind, Message, Question, Rdata, Record};
use std::alloc::{AllocError, Global};

/// Adds the line of a record: its owner, for how many seconds it may be kept, and what it says.
fn push_record(
    alloc: Global,
    form: AddressForm,
    entry: &Record,
    lines: &mut String,
) -> Result<(), AllocError>
    ensures { OnOk result (string_bytes lines.new
        ≡ string_bytes lines.old ++ spec.record_line form entry.now) }
{
    lines.push_str(";   ")?;
    push_name_word(&entry.owner, lines)?;
    push_number(alloc, u64::from(entry.ttl), lines)?;
    push_rdata(alloc, form, &entry.rdata, lines)?;
    lines.push_str("\n")
}

/// Adds the lines of records.
fn push_records(
    alloc: Global,
    form: AddressForm,
    records: &[Record],
    lines: &mut String,
) -> Result<(), AllocError>
    ensures { OnOk result (string_bytes lines.new
        ≡ string_bytes lines.old ++ flat_map (spec.record_line form) records.now) }
{
    for entry in records {
        push_record(alloc, form, entry, lines)?;
    }
    Ok(())
}

/// Adds the line of a record of the authority section, if it is an SOA record.
fn push_authority(
    alloc: Global,
    form: AddressForm,
    entry: &Record,
    lines: &mut String,
) -> Result<(), AllocError>
    ensures { OnOk result (string_bytes lines.new
        ≡ string_bytes lines.old ++ spec.authority_line form entry.now) }
{
    match &entry.rdata {
        Rdata::Soa(_) => push_record(alloc, form, entry, lines),
        _ => Ok(()),
    }
}

/// Adds the lines of the SOA records of an authority section.
fn push_authorities(
    alloc: Global,
    form: AddressForm,
    records: &[Record],
    lines: &mut String,
) -> Result<(), AllocError>
    ensures { OnOk result (string_bytes lines.new
        ≡ string_bytes lines.old ++ flat_map (spec.authority_line form) records.now) }
{
    for entry in records {
        push_authority(alloc, form, entry, lines)?;
    }
    Ok(())
}

/// The kind of question of a type.
fn kind_of(type_number: u16) -> Option<Kind>
    ensures { result ≡ spec.kind_of type_number }
{
    match type_number {
        1 => Some(Kind::A),
        28 => Some(Kind::Aaaa),
        33 => Some(Kind::Srv),
        35 => Some(Kind::Naptr),
        _ => None,
    }
}

/// Whether a record has this type, in class IN.
fn is_of_type(type_number: u16, entry: &Record) -> bool
    ensures { result ≡ spec.is_of_type type_number entry.now }
{
    entry.rdata.type_number() == type_number && entry.rdata.class_number() == CLASS_IN
}

/// How many of these records have this type.
fn count_of_type(type_number: u16, records: &[Record]) -> usize
    ensures { result ≡ count_by (spec.is_of_type type_number) records.now }
{
    let mut count = 0;
    for entry in records {
        if is_of_type(type_number, entry) {
            count += 1;
        }
    }
    count
}

/// How many records of a message are used as the answer to a question.
fn used_in(alloc: Global, question: &Question, message: &Message) -> Result<usize, AllocError>
    ensures { IfOk result (λ used. used ≡ spec.used_in question.now message.now) }
{
    match answer_of(alloc, question, message) {
        Ok(answer) => Ok(answer.records().len()),
        Err(ReplyRefusal::Memory) => Err(AllocError),
        Err(ReplyRefusal::NotReply) => Ok(0),
        Err(ReplyRefusal::OtherQuestion) => Ok(0),
        Err(ReplyRefusal::Truncated) => Ok(0),
        Err(ReplyRefusal::ServerFault(_)) => Ok(0),
    }
}

/// Adds the line of how many records are used, where not all are.
fn push_used(alloc: Global, used: usize, count: usize, lines: &mut String) -> Result<(), AllocError>
    ensures { OnOk result (string_bytes lines.new
        ≡ string_bytes lines.old ++ spec.used_line used count) }
{
    if used >= count {
        return Ok(());
    }
    lines.push_str(";   ")?;
    push_number(alloc, used as u64, lines)?;
    lines.push_str("of these ")?;
    push_number(alloc, count as u64, lines)?;
    lines.push_str("records are used\n")
}

/// Adds the line of how many records of a message are used, where not all are that have the type
/// that is asked.
fn push_used_of(
    alloc: Global,
    asked: &Asked,
    message: &Message,
    lines: &mut String,
) -> Result<(), AllocError>
    ensures { OnOk result (string_bytes lines.new ≡ string_bytes lines.old
        ++ spec.used_of asked.now message.now (spec.kind_of asked.now.type_number)) }
{
    let Some(kind) = kind_of(asked.type_number) else {
        return Ok(());
    };
    let question = Question {
        name: asked.name.try_clone()?,
        kind,
    };
    let used = used_in(alloc, &question, message)?;
    let count = count_of_type(asked.type_number, message.answers.as_slice());
    push_used(alloc, used, count, lines)
}

/// Adds the lines of a message: the records of its answer section, how many of them are used, where
/// not all are, and the SOA records of its authority section.
pub fn push_message(
    alloc: Global,
    form: AddressForm,
    asked: &Asked,
    message: &Message,
    lines: &mut String,
) -> Result<(), AllocError>
    ensures { OnOk result (string_bytes lines.new
        ≡ string_bytes lines.old ++ spec.message_lines form asked.now message.now) }
{
    push_records(alloc, form, message.answers.as_slice(), lines)?;
    push_used_of(alloc, asked, message, lines)?;
    push_authorities(alloc, form, message.authority.as_slice(), lines)
}
