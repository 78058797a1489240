//! Chains of CNAME records that a server cuts short (RFC 1034 5.2.2, RFC 2308 2.2).
ghost use Rattle.std.specs.Prelude.{◌≡◌, ◌↔◌, IfOk, IsTrue, MatchOption};
ghost use Rattle.std.specs.List.{All};
ghost use Rattle.dns_answers.specs.CutChains.{AsksOn, IsEmptyAnswer, IsWhole};
ghost use Rattle.dns_answers.specs.CutChains as spec;
ghost use Rattle.dns_answers.specs.Lives.{IsNoSoa};

use crate::chain::chain_end;
use crate::refusal::{ReplyRefusal, asks_this_alone};
use crate::reply::answer_of;
use dns_message::{Header, Message, Question, Rdata, Record, Section};
use std::alloc::{AllocError, Global};

/// The question that goes on where a reply was cut short, and how many CNAME records lead to its
/// name.
#[derive(Debug, Drop)]
pub struct FollowUp {
    /// The question.
    pub question: Question,
    /// How many CNAME records lead from the name that was asked to that of the question.
    pub links: usize,
}

/// Whether a record is an SOA record.
fn is_soa(entry: &Record) -> bool
    ensures { IsTrue result ↔ (IsNoSoa entry.now → ⊥) }
{
    matches!(&entry.rdata, Rdata::Soa(_))
}

/// Whether none of these records is an SOA record.
fn has_no_soa(section: &[Record]) -> bool
    ensures { IsTrue result ↔ All IsNoSoa section.now }
{
    !section.iter().any(is_soa)
}

/// Whether a reply to a question, whole and without a fault, has no record for it.
fn is_empty_answer(alloc: Global, question: &Question, reply: &Message) -> Result<bool, AllocError>
    ensures { IfOk result (λ is. IsTrue is ↔ IsEmptyAnswer question.now reply.now) }
{
    match answer_of(alloc, question, reply) {
        Ok(answer) => Ok(answer.records().is_empty()),
        Err(ReplyRefusal::Memory) => Err(AllocError),
        Err(ReplyRefusal::NotReply) => Ok(false),
        Err(ReplyRefusal::OtherQuestion) => Ok(false),
        Err(ReplyRefusal::Truncated) => Ok(false),
        Err(ReplyRefusal::ServerFault(_)) => Ok(false),
    }
}

/// The question that goes on where a reply to a question is cut short behind more than so many
/// CNAME records; none where the reply is whole.
///
/// A reply without a fault is cut short where its CNAME records, at most eight, lead from the name
/// that is asked to one about which it says nothing: it has no records of the kind there, and no
/// SOA record (RFC 1034 5.2.2, RFC 2308 2.2).
pub fn follow_up(
    alloc: Global,
    question: &Question,
    reply: &Message,
    before: usize,
) -> Result<Option<FollowUp>, AllocError>
    ensures { IfOk result (λ it. MatchOption it (IsWhole question.now reply.now before)
        (λ further. AsksOn question.now reply.now before further.question further.links)) }
{
    if reply.header.rcode != 0 || !has_no_soa(reply.authority.as_slice()) {
        return Ok(None);
    }
    let Some(end) = chain_end(reply.answers.as_slice(), &question.name) else {
        return Ok(None);
    };
    if end.links <= before || !is_empty_answer(alloc, question, reply)? {
        return Ok(None);
    }
    let question = Question {
        name: end.name.try_clone()?,
        kind: question.kind,
    };
    Ok(Some(FollowUp {
        question,
        links: end.links,
    }))
}

/// Whether a message is a reply to this question, whatever it says (RFC 1035 4.1.1).
#[must_use]
pub fn is_reply_to(question: &Question, message: &Message) -> bool
    ensures { result ≡ spec.is_reply_to question.now message.now }
{
    message.header.reply
        && message.header.opcode == 0
        && asks_this_alone(question, message.questions.as_slice())
}

/// The header of a reply that is put together of two.
fn joined_header(first: Header, last: Header) -> Header
    ensures { result ≡ spec.joined_header first last }
{
    Header {
        truncated: last.truncated,
        rcode: last.rcode,
        ..first
    }
}

/// The reply to the question of the first of these that both are together: the answers of both, and
/// what the last one says of its RCODE and of an authority.
pub fn join_replies(alloc: Global, first: Message, last: Message) -> Result<Message, AllocError>
    ensures { IfOk result (λ message. message ≡ spec.joined first last) }
{
    let mut answers = first.answers.into_vec();
    let mut others = last.answers.into_vec();
    answers.append(&mut others)?;
    Ok(Message {
        header: joined_header(first.header, last.header),
        questions: first.questions,
        answers: Section::from_vec(answers),
        authority: last.authority,
        additional: Section::from_vec(Vec::new(alloc)),
    })
}
