//! The answer that the octets of a reply have.
ghost use Rattle.std.specs.Prelude.{◌≡◌, IfErr, IfOk};
ghost use Rattle.dns_answers.specs.Records.{kind_of};
ghost use Rattle.sip_locator.specs.Readings.{NoAnswer};
ghost use Rattle.sip_locator.specs.Replies.{Answers};

use crate::refusal::LocatorRefusal;
use dns_answers::{Answer, answer_of};
use dns_message::{Question, read_message};
use std::alloc::Global;

/// The answer of the message in front of these octets to the question.
pub(crate) fn read_answer(
    alloc: Global,
    question: &Question,
    octets: &[u8],
) -> Result<Answer, LocatorRefusal>
    ensures found { IfOk result (Answers question.now octets.now) }
    ensures kind { IfOk result (λ found. kind_of found.records ≡ question.now.kind) }
    ensures refused { IfErr result (NoAnswer question.now octets.now) }
{
    let message = read_message(alloc, octets)?;
    Ok(answer_of(alloc, question, &message)?)
}
