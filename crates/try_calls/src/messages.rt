//! Calls of `dns_message`.
use crate::fields::{joined, kind, question};
use crate::shown::{push_asked, push_counted, push_debug_line, push_rdata, push_record};
use dns_message::{
    Asked, CharString, Header, Message, MessageRefusal, OtherData, Question, Record, message_in,
    read_message, write_message, write_query, write_reply,
};
use row_fields::{Fault, Output, number16, octets, only_line, split_word};
use std::alloc::Global;

/// What a call gives for a row's lines.
pub(crate) fn told(output: &mut Output, call: &str, input: &str) -> Result<(), Fault> {
    match call {
        "read_data" => data(output, input),
        "write_query" => query(output, only_line(input)),
        "type_number" => type_number(output, only_line(input)),
        "new_other_data" => other_data(output, only_line(input)),
        "new_char_string" => char_string(output, input),
        _ => {
            let octets = joined(output.alloc(), input)?;
            told_of_octets(output, call, &octets)
        }
    }
}

/// What a call gives for the octets of a row's lines.
fn told_of_octets(output: &mut Output, call: &str, octets: &[u8]) -> Result<(), Fault> {
    match call {
        "read_message" => read(output, octets),
        "count_answers" => count_answers(output, octets),
        "message_in" => read_in(output, octets),
        "cut_message" => cut(output, octets),
        "write_reply" => reply(output, octets),
        "write_message" => whole(output, octets),
        _ => return Err(Fault::Call),
    }
    Ok(())
}

/// Writes the word of a flag that is set.
fn push_flag(output: &mut Output, flag: bool, word: &str) {
    if flag {
        output.push(word);
    }
}

/// Writes a header: its number, the flags that are set, OPCODE and RCODE.
fn push_header(output: &mut Output, header: &Header) {
    push_counted(output, "id ", header.id);
    push_flag(output, header.reply, " qr");
    push_flag(output, header.authoritative, " aa");
    push_flag(output, header.truncated, " tc");
    push_flag(output, header.recursion_desired, " rd");
    push_flag(output, header.recursion_available, " ra");
    push_counted(output, " opcode ", u16::from(header.opcode));
    push_counted(output, " rcode ", u16::from(header.rcode));
    output.push("\n");
}

/// Writes questions, a line each.
fn push_questions(output: &mut Output, questions: &[Asked]) {
    for asked in questions {
        output.push("question ");
        push_asked(output, asked);
        output.push("\n");
    }
}

/// Writes the records of a section, a line each, behind a word.
fn push_section(output: &mut Output, word: &str, records: &[Record]) {
    for entry in records {
        output.push(word);
        push_record(output, entry);
        output.push("\n");
    }
}

/// Writes a message as lines.
pub(crate) fn push_message(output: &mut Output, message: &Message) {
    push_header(output, &message.header);
    push_questions(output, message.questions.as_slice());
    push_section(output, "answer ", message.answers.as_slice());
    push_section(output, "authority ", message.authority.as_slice());
    push_section(output, "additional ", message.additional.as_slice());
}

/// Octets give the message in front of them, or the refusal.
fn read(output: &mut Output, octets: &[u8]) {
    match read_message(output.alloc(), octets) {
        Ok(message) => {
            push_message(output, &message);
            drop(message);
        }
        Err(refusal) => push_debug_line(output, &refusal),
    }
}

/// Octets give how many answers the message in front of them has, or the refusal.
fn count_answers(output: &mut Output, octets: &[u8]) {
    match read_message(output.alloc(), octets) {
        Ok(message) => {
            push_count(output, message.answers.len());
            drop(message);
        }
        Err(refusal) => push_debug_line(output, &refusal),
    }
}

/// Writes a length as a line.
fn push_count(output: &mut Output, length: usize) {
    output.push_length(length);
    output.push("\n");
}

/// Octets give the message in front of them, or `none`.
fn read_in(output: &mut Output, octets: &[u8]) {
    match message_in(output.alloc(), octets) {
        Ok(Some(message)) => {
            push_message(output, &message);
            drop(message);
        }
        Ok(None) => output.push_line("none"),
        Err(_) => output.fail(Fault::Memory),
    }
}

/// The type, the class and the data of a record.
#[derive(Clone, Copy)]
struct RecordData<'a> {
    type_number: u16,
    class_number: u16,
    octets: &'a str,
}

/// The data of a line.
fn data_of(line: &str) -> Result<RecordData<'_>, Fault> {
    let (type_number, rest) = split_word(line);
    let (class_number, octets) = split_word(rest);
    Ok(RecordData {
        type_number: number16(type_number)?,
        class_number: number16(class_number)?,
        octets,
    })
}

/// Writes a reply whose one record is the root's, with this data.
fn write_reply_with(
    all: &mut Vec<u8>,
    type_number: u16,
    class_number: u16,
    data: &[u8],
) -> Result<(), Fault> {
    let Ok(size) = u16::try_from(data.len()) else {
        return Err(Fault::Form);
    };
    for part in [
        b"\0\x01\x80\0\0\0\0\x01\0\0\0\0\0".as_slice(),
        type_number.to_be_bytes().as_slice(),
        class_number.to_be_bytes().as_slice(),
        b"\0\0\0\x3c".as_slice(),
        size.to_be_bytes().as_slice(),
        data,
    ] {
        all.extend_from_slice(part)?;
    }
    Ok(())
}

/// A reply whose one record is the root's, with the data of a line.
fn reply_of(alloc: Global, line: &str) -> Result<Vec<u8>, Fault> {
    let data = data_of(line)?;
    let mut all = Vec::new(alloc);
    let octets = octets(alloc, data.octets)?;
    write_reply_with(&mut all, data.type_number, data.class_number, &octets)?;
    Ok(all)
}

/// Writes the data of the first of these records as a line.
fn push_first(output: &mut Output, records: &[Record]) {
    match records.first() {
        Some(entry) => push_rdata(output, &entry.rdata),
        None => output.fail(Fault::Form),
    }
    output.push("\n");
}

/// Writes what the data of a reply's one record says, or the refusal.
fn push_data(output: &mut Output, reply: &[u8]) {
    match read_message(output.alloc(), reply) {
        Ok(message) => {
            push_first(output, message.answers.as_slice());
            drop(message);
        }
        Err(refusal) => push_debug_line(output, &refusal),
    }
}

/// Each line with a type, a class and data gives what the data says as that of the one answer of a
/// reply, or the refusal.
fn data(output: &mut Output, input: &str) -> Result<(), Fault> {
    for line in input.lines() {
        let reply = reply_of(output.alloc(), line)?;
        push_data(output, &reply);
    }
    Ok(())
}

/// What is said of octets that are cut there: `None` where they are read.
fn beginning(alloc: Global, octets: &[u8], end: usize) -> Option<MessageRefusal> {
    match read_message(alloc, octets.get(..end)?) {
        Ok(message) => {
            drop(message);
            None
        }
        Err(refusal) => Some(refusal),
    }
}

/// Writes what is said of a beginning, behind its length.
fn push_beginning(output: &mut Output, end: usize, found: Option<MessageRefusal>) {
    output.push_length(end);
    output.push(" ");
    match found {
        Some(refusal) => push_debug_line(output, &refusal),
        None => output.push_line("read"),
    }
}

/// Octets give what is said of each of their beginnings, in lines with the length from which it is
/// said.
fn cut(output: &mut Output, octets: &[u8]) {
    let mut said = None;
    for end in 0..=octets.len() {
        let found = beginning(output.alloc(), octets, end);
        if end == 0 || found != said {
            push_beginning(output, end, found);
            said = found;
        }
    }
}

/// Writes the octets of a query.
fn push_query(output: &mut Output, id: u16, question: &Question) {
    match write_query(output.alloc(), id, question) {
        Ok(octets) => output.push_octets_line(&octets),
        Err(_) => output.fail(Fault::Memory),
    }
}

/// Fields with a number, a name and a kind give the octets of the query.
fn query(output: &mut Output, line: &str) -> Result<(), Fault> {
    let (id, rest) = split_word(line);
    let id = number16(id)?;
    let question = question(output.alloc(), rest)?;
    push_query(output, id, &question);
    drop(question);
    Ok(())
}

/// The octets of a reply.
fn reply_octets(alloc: Global, message: &Message) -> Result<Vec<u8>, Fault> {
    let header = message.header;
    if header.opcode < 16 && header.rcode < 16 && message.questions.len() <= 1 {
        Ok(write_reply(alloc, message)?)
    } else {
        Err(Fault::Form)
    }
}

/// Writes the octets of a reply.
fn push_reply(output: &mut Output, message: &Message) {
    match reply_octets(output.alloc(), message) {
        Ok(octets) => output.push_octets_line(&octets),
        Err(fault) => output.fail(fault),
    }
}

/// The octets of a message give those that are written of it.
fn reply(output: &mut Output, octets: &[u8]) {
    match read_message(output.alloc(), octets) {
        Ok(message) => {
            push_reply(output, &message);
            drop(message);
        }
        Err(_) => output.fail(Fault::Form),
    }
}

/// Writes the octets of a message of any length, or why there are none.
fn push_whole(output: &mut Output, message: &Message) {
    if message.header.opcode > 15 || message.header.rcode > 15 {
        output.fail(Fault::Form);
        return;
    }
    match write_message(output.alloc(), message) {
        Ok(octets) => output.push_octets_line(&octets),
        Err(refusal) => push_debug_line(output, &refusal),
    }
}

/// The octets of a message give those that are written of it, however many they are.
fn whole(output: &mut Output, octets: &[u8]) {
    match read_message(output.alloc(), octets) {
        Ok(message) => {
            push_whole(output, &message);
            drop(message);
        }
        Err(_) => output.fail(Fault::Form),
    }
}

/// A field with a kind gives the number of its type.
fn type_number(output: &mut Output, line: &str) -> Result<(), Fault> {
    let kind = kind(line)?;
    push_counted(output, "", kind.type_number());
    output.push("\n");
    Ok(())
}

/// Writes a type, a class and the length of data, or `none`.
fn push_other(output: &mut Output, other: Option<OtherData>) {
    match other {
        Some(other) => {
            push_counted(output, "", other.type_number());
            push_counted(output, " ", other.class_number());
            output.push(" ");
            push_count(output, other.octets().len());
        }
        None => output.push_line("none"),
    }
}

/// Fields with a type, a class and data give the type, the class and the length of the data, or
/// `none`.
fn other_data(output: &mut Output, line: &str) -> Result<(), Fault> {
    let data = data_of(line)?;
    let octets = joined(output.alloc(), data.octets)?;
    push_other(
        output,
        OtherData::new(data.type_number, data.class_number, octets),
    );
    Ok(())
}

/// Octets give the length of their string, or `none`.
fn char_string(output: &mut Output, input: &str) -> Result<(), Fault> {
    match CharString::new(joined(output.alloc(), input)?) {
        Some(string) => push_count(output, string.octets().len()),
        None => output.push_line("none"),
    }
    Ok(())
}
