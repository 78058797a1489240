//! The replies of a server that has the same records for each domain: a NAPTR record, an SRV record
//! and an address, each for a minute.
use std::alloc::Global;

/// The life of each answer, in seconds.
pub(crate) const LIFE: u8 = 60;

/// How many kinds of questions there are.
pub(crate) const KINDS: usize = 3;

/// How many octets the header of a message has (RFC 1035 4.1.1).
const HEADER: usize = 12;

/// How many octets follow the name in a question (RFC 1035 4.1.2).
const QUESTION_END: usize = 4;

/// The data of each NAPTR record (RFC 3403 4.1), to the first labels of its replacement.
const NAPTR: [u8; 25] = *b"\x00\x0a\x00\x32\x01s\x07SIP+D2U\x00\x04_sip\x04_udp";

/// The data of each SRV record (RFC 2782), without its target.
const SRV: [u8; 6] = *b"\x00\x0a\x00\x3c\x13\xc4";

/// How many octets the labels `_sip` and `_udp` take.
const LABELS: usize = 10;

/// A question out of a query: its name as octets, and the number of its type.
#[derive(Clone, Copy)]
struct Question<'a> {
    name: &'a [u8],
    kind: u8,
}

/// The question of a query.
fn question_in(query: &[u8]) -> Option<Question<'_>> {
    let end = query.len().checked_sub(QUESTION_END)?;
    Some(Question {
        name: query.get(HEADER..end)?,
        kind: *query.get(end.checked_add(1)?)?,
    })
}

/// The number of the domain in a name: all digits of it.
fn domain_in(name: &[u8]) -> usize {
    let mut number = 0_usize;
    for octet in name {
        if octet.is_ascii_digit() {
            let digit = usize::from(octet.wrapping_sub(b'0'));
            number = number.wrapping_mul(10).wrapping_add(digit);
        }
    }
    number
}

/// The place of the question of a query among all questions.
pub(crate) fn place_of(query: &[u8]) -> Option<usize> {
    let question = question_in(query)?;
    let place = match question.kind {
        35 => 0,
        33 => 1,
        _ => 2,
    };
    Some(
        domain_in(question.name)
            .wrapping_mul(KINDS)
            .wrapping_add(place),
    )
}

/// The data of the record that answers a question.
fn data_of(alloc: Global, question: Question<'_>) -> Option<Vec<u8>> {
    let mut data = Vec::new(alloc);
    match question.kind {
        35 => {
            data.extend_from_slice(&NAPTR).ok()?;
            data.extend_from_slice(question.name).ok()?;
        }
        33 => {
            data.extend_from_slice(&SRV).ok()?;
            data.extend_from_slice(question.name.get(LABELS..)?).ok()?;
        }
        _ => data.extend_from_slice(&[192, 0, 2, 1]).ok()?,
    }
    Some(data)
}

/// The reply to a query.
pub(crate) fn reply_to(alloc: Global, query: &[u8]) -> Option<Vec<u8>> {
    let question = question_in(query)?;
    let data = data_of(alloc, question)?;
    let length = u8::try_from(data.len()).ok()?;
    let mut reply = Vec::with_capacity(alloc, 128).ok()?;
    reply.extend_from_slice(query.get(..2)?).ok()?;
    // RD, RA; a question and an answer
    reply
        .extend_from_slice(&[0x81, 0x80, 0, 1, 0, 1, 0, 0, 0, 0])
        .ok()?;
    reply.extend_from_slice(query.get(HEADER..)?).ok()?;
    let head = [0xc0, 0x0c, 0, question.kind, 0, 1, 0, 0, 0, LIFE, 0, length];
    reply.extend_from_slice(&head).ok()?;
    reply.extend_from_slice(data.as_slice()).ok()?;
    Some(reply)
}
