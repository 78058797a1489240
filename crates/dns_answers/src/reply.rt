//! The answer that a reply has.
ghost use Rattle.std.specs.Prelude.{◌≡◌, ◌⊎◌, Some, None, IfOk, IfErr, MatchResult};
ghost use Rattle.dns_answers.specs.Answers as spec;
ghost use Rattle.dns_answers.specs.Records.{kind_of};
ghost use Rattle.dns_answers.specs.Replies.{reply_refusal as refusal_of};
ghost use Rattle.dns_answers.specs.declared.refusal.ReplyRefusal as refusals;

use crate::absence::negative_ttl_of;
use crate::answer::Answer;
use crate::chain::chain_end;
use crate::kept::{no_records, records_for};
use crate::refusal::{ReplyRefusal, reply_refusal};
use dns_message::{Message, Question};
use std::alloc::{AllocError, Global};

/// The answer of the answer section of a message.
fn answer_in(alloc: Global, question: &Question, message: &Message) -> Result<Answer, AllocError>
    ensures { IfOk result (λ answer. answer ≡ spec.answer question.now message.now) }
{
    let section = message.answers.as_slice();
    let Some(end) = chain_end(section, &question.name) else {
        return Ok(Answer::of(no_records(alloc, question.kind), 0));
    };
    let (records, life) = records_for(alloc, question.kind, section, end.name, end.life)?;
    if records.is_empty() {
        let limit = negative_ttl_of(message.authority.as_slice());
        return Ok(Answer::of(records, end.life.min(limit)));
    }
    Ok(Answer::of(records, life))
}

/// The answer that a message has for a question.
///
/// From the name that is asked the first CNAME record of each name is followed in the answer
/// section, up to eight of them (RFC 1034 3.6.2, 5.2.2); the answer has the records of the asked
/// kind there, in the order of the message, the first 32. It lives as long as the one of these
/// records and of those followed that lasts least (of one set of records: RFC 2181 5.2).
///
/// An answer without records lives as long as the CNAME records followed, the first SOA record of
/// the authority section and its MINIMUM let it (RFC 2308 5). The owner of the SOA record is not
/// looked at. Without an SOA record, and where more than eight CNAME records could be followed, the
/// life is 0. The number of the message is not looked at.
pub fn answer_of(
    alloc: Global,
    question: &Question,
    message: &Message,
) -> Result<Answer, ReplyRefusal>
    // Each other refusal comes exactly where the message gives it; memory is wanted only where none
    // of them comes.
    ensures refused { (refusal : refusals.ReplyRefusal)
        → refusal_of question.now message.now ≡ Some refusal
        → result ≡ Err refusal }
    ensures answered { refusal_of question.now message.now ≡ None
        → MatchResult result (λ answer. answer ≡ spec.answer question.now message.now)
        (λ refusal. refusal ≡ ReplyRefusal.Memory) }
    // The same, from what it gives.
    ensures found { IfOk result (λ found. (refusal_of question.now message.now ≡ None)
        × (found ≡ spec.answer question.now message.now)) }
    ensures said { IfErr result (λ refusal. (refusal ≡ ReplyRefusal.Memory)
        ⊎ (refusal_of question.now message.now ≡ Some refusal)) }
    ensures kind { IfOk result (λ answer. kind_of answer.records ≡ question.now.kind) }
{
    if let Some(refusal) = reply_refusal(question, message) {
        return Err(refusal);
    }
    Ok(answer_in(alloc, question, message)?)
}
