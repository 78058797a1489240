//! Messages as they are written, without pointers (RFC 1035 4.1).
ghost use Rattle.std.specs.Prelude.{◌≡◌, ◌+◌, ◌≤◌, ◌<◌, ◌++◌, length, IfOk, OnOk, OnErr};
ghost use Rattle.dns_message.specs.Fits.{MessageFits};
ghost use Rattle.dns_message.specs.Messages.{Spells};
ghost use Rattle.dns_message.specs.Written.{plain, cut, fitted, query_of};

use crate::codes::CLASS_IN;
use crate::datagram::{Datagram, TooLong};
use crate::header::{Counts, Header, push_header};
use crate::message::Message;
use crate::question::{Question, push_question, push_questions};
use crate::resource::push_records;
use crate::section::Section;
use dns_name::law_written_name_is_read;
use std::alloc::{AllocError, Global};

/// How many questions or records a section has, as a header says it.
fn count_of<T>(section: &Section<T>) -> Result<u16, TooLong>
    ensures ok { IfOk result (λ count. count ≡ length section.now) }
    ensures too_long { OnErr result (65535 < length section.now) }
{
    u16::try_from(section.len()).map_err(|_| TooLong)
}

/// How many questions and records a message has in each section.
#[tactic(auto, using(crate::proofs::WrittenOctets::counts))]
fn counts_of(message: &Message) -> Result<Counts, TooLong>
    ensures ok { IfOk result (λ counts. (counts.questions ≡ length message.now.questions)
        × (counts.answers ≡ length message.now.answers)
        × (counts.authority ≡ length message.now.authority)
        × (counts.additional ≡ length message.now.additional)) }
    ensures too_long { OnErr result (512 < length (plain message.now)) }
{
    Ok(Counts {
        questions: count_of(&message.questions)?,
        answers: count_of(&message.answers)?,
        authority: count_of(&message.authority)?,
        additional: count_of(&message.additional)?,
    })
}

/// Appends a message.
fn push_message(message: &Message, out: &mut Datagram) -> Result<(), TooLong>
    requires opcode { message.now.header.opcode < 16 }
    requires rcode { message.now.header.rcode < 16 }
    ensures ok { OnOk result (out.new.items ≡ out.old.items ++ plain message.now) }
    ensures fits { OnOk result (MessageFits message.now) }
    ensures too_long { OnErr result (512 < length out.old.items + length (plain message.now)) }
{
    push_header(message.header, counts_of(message)?, out)?;
    push_questions(message.questions.as_slice(), out)?;
    push_records(message.answers.as_slice(), out)?;
    push_records(message.authority.as_slice(), out)?;
    push_records(message.additional.as_slice(), out)
}

/// The octets of a message with TC set and without its records, for which a datagram has room.
#[tactic(auto, using(crate::proofs::WrittenOctets::room), unfolding(crate::specs::Written::plain))]
fn write_cut(alloc: Global, message: &Message) -> Result<Vec<u8>, AllocError>
    requires opcode { message.now.header.opcode < 16 }
    requires rcode { message.now.header.rcode < 16 }
    requires one_question { length message.now.questions ≤ 1 }
    ensures written { IfOk result (λ octets. octets.items ≡ plain (cut message.now)) }
    ensures fits { IfOk result (λ _. MessageFits (cut message.now)) }
{
    let header = Header {
        truncated: true,
        ..message.header
    };
    let counts = Counts {
        questions: message.questions.len() as u16,
        answers: 0,
        authority: 0,
        additional: 0,
    };
    let mut out = Datagram::new();
    let Ok(()) = push_header(header, counts, &mut out) else {
        unreachable!()
    };
    let Ok(()) = push_questions(message.questions.as_slice(), &mut out) else {
        unreachable!()
    };
    Vec::from_slice(alloc, out.as_slice())
}

/// The octets of a reply for a datagram of UDP, without pointers: the message itself, where it has
/// at most 512 octets, and else its header with TC set and its question, without records (RFC 1035
/// 4.1.1, 4.2.1, 2181 9). The three bits of Z are 0.
pub fn write_reply(alloc: Global, message: &Message) -> Result<Vec<u8>, AllocError>
    requires opcode { message.now.header.opcode < 16 }
    requires rcode { message.now.header.rcode < 16 }
    requires one_question { length message.now.questions ≤ 1 }
    ensures written { IfOk result (λ octets. octets.items ≡ plain (fitted message.now)) }
    ensures short { IfOk result (λ octets. length octets.items ≤ 512) }
    ensures spells { IfOk result (λ octets. Spells octets.items (fitted message.now)) }
{
    law_written_name_is_read();
    let mut out = Datagram::new();
    match push_message(message, &mut out) {
        Ok(()) => Vec::from_slice(alloc, out.as_slice()),
        Err(TooLong) => write_cut(alloc, message),
    }
}

/// The octets of a query: the question in class IN, with RD set and no records (RFC 1035 4.1.1,
/// 4.1.2).
#[tactic(auto, using(crate::proofs::WrittenOctets::room))]
pub fn write_query(alloc: Global, id: u16, question: &Question) -> Result<Vec<u8>, AllocError>
    ensures written { IfOk result (λ octets. octets.items ≡ plain (query_of id question.now)) }
    ensures spells { IfOk result (λ octets. Spells octets.items (query_of id question.now)) }
{
    law_written_name_is_read();
    let header = Header {
        id,
        reply: false,
        opcode: 0,
        authoritative: false,
        truncated: false,
        recursion_desired: true,
        recursion_available: false,
        rcode: 0,
    };
    let counts = Counts {
        questions: 1,
        answers: 0,
        authority: 0,
        additional: 0,
    };
    let mut out = Datagram::new();
    let Ok(()) = push_header(header, counts, &mut out) else {
        unreachable!()
    };
    let Ok(()) = push_question(
        &question.name,
        question.kind.type_number(),
        CLASS_IN,
        &mut out,
    ) else {
        unreachable!()
    };
    Vec::from_slice(alloc, out.as_slice())
}
