//! Why a message is no reply to a question.
ghost use Rattle.std.specs.Prelude.{◌≡◌};
ghost use Rattle.dns_answers.specs.Replies as spec;
ghost use Rattle.dns_answers.specs.declared.refusal.ReplyRefusal.TheVariants as refusals;

use dns_message::{Asked, CLASS_IN, Message, Question};
use std::alloc::AllocError;
use thiserror::Error;

/// Why a message gives no answer to a question, in the order of the checks.
#[derive(Clone, Copy, Debug, PartialEq, Eq, Error)]
pub enum ReplyRefusal {
    /// The message is no reply to a standard query: QR is clear, or OPCODE is not 0 (RFC 1035
    /// 4.1.1).
    #[error("it is no reply to a standard query")]
    NotReply,
    /// The questions of the message are not this one alone, in class IN.
    #[error("it does not repeat the question")]
    OtherQuestion,
    /// The message was cut: TC is set.
    #[error("it was cut")]
    Truncated,
    /// The server gave no answer: RCODE, which this variant has, is neither 0 nor 3, a name that
    /// does not exist.
    #[error("the server could not say")]
    ServerFault(u8),
    /// Memory was refused.
    #[error("out of memory")]
    Memory,
}

impl From<AllocError> for ReplyRefusal {
    ghost from_gives = { λ _ refusal. refusal ≡ refusals.Memory };

    fn from(_: AllocError) -> ReplyRefusal {
        ReplyRefusal::Memory
    }
}

/// Whether the question of a message is this one.
fn is_asked(question: &Question, asked: &Asked) -> bool
    ensures { result ≡ spec.is_asked question.now asked.now }
{
    asked.name == question.name
        && asked.type_number == question.kind.type_number()
        && asked.class_number == CLASS_IN
}

/// Whether the questions of a message are this one alone.
pub(crate) fn asks_this_alone(question: &Question, questions: &[Asked]) -> bool
    ensures { result ≡ spec.asks_this_alone question.now questions.now }
{
    match questions {
        [asked] => is_asked(question, asked),
        _ => false,
    }
}

/// Why a message is no reply to a question, if it is none.
pub(crate) fn reply_refusal(question: &Question, message: &Message) -> Option<ReplyRefusal>
    ensures { result ≡ spec.reply_refusal question.now message.now }
{
    let header = message.header;
    if !(header.reply && header.opcode == 0) {
        return Some(ReplyRefusal::NotReply);
    }
    if !asks_this_alone(question, message.questions.as_slice()) {
        return Some(ReplyRefusal::OtherQuestion);
    }
    if header.truncated {
        return Some(ReplyRefusal::Truncated);
    }
    if header.rcode == 0 || header.rcode == 3 {
        None
    } else {
        Some(ReplyRefusal::ServerFault(header.rcode))
    }
}
