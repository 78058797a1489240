//! What the program prints.
ghost use Rattle.std.specs.Prelude.{◌≡◌, ◌≤◌, IfOk};
ghost use Rattle.std.specs.List.{flat_map};
ghost use Rattle.std.specs.String.{string_bytes};
ghost use Rattle.sip_selection.specs.Nexts.{next_of};
ghost use Rattle.siplocate_one.specs.Words as spec;

use crate::reply::BadReply;
use dns_answers::ReplyRefusal;
use dns_message::Question;
use sip_report::{AddressForm, question_words, reason_word, request_word, target_words};
use sip_selection::{Next, Target};
use sip_uri::UriRefusal;
use std::alloc::{AllocError, Global};

/// The line of a target.
pub fn target_line(alloc: Global, target: &Target) -> Result<String, AllocError>
    ensures { IfOk result (λ line. string_bytes line ≡ spec.target_line target.now) }
{
    let mut line = target_words(alloc, AddressForm::Full, target)?;
    line.push_str("\n")?;
    Ok(line)
}

/// The lines of targets.
fn target_lines(alloc: Global, targets: &[Target]) -> Result<String, AllocError>
    ensures { IfOk result (λ lines. string_bytes lines ≡ flat_map spec.target_line targets.now) }
{
    let mut lines = String::new(alloc);
    for target in targets {
        lines.push_str(&target_line(alloc, target)?)?;
    }
    Ok(lines)
}

/// The line of a question.
fn question_line(alloc: Global, question: &Question) -> Result<String, AllocError>
    ensures { IfOk result (λ line. string_bytes line ≡ spec.question_line question.now) }
{
    let words = question_words(alloc, question)?;
    format!(in alloc; "ask {words}\n")
}

/// The lines of what is next for a request.
pub(crate) fn shown(alloc: Global, next: Next<'_>) -> Result<String, AllocError>
    ensures { IfOk result (λ lines. string_bytes lines ≡ spec.shown (next_of next.entry)) }
{
    match next {
        Next::Targets(targets) => target_lines(alloc, targets),
        Next::Ask(question) => question_line(alloc, question),
        Next::Refused(reason) => {
            let reason = reason_word(reason);
            format!(in alloc; "refused {reason}\n")
        }
    }
}

/// The exit status of what is next for a request.
pub(crate) fn status_of(next: Next<'_>) -> u8
    ensures status { result ≡ spec.status_of (next_of next.entry) }
    ensures range { result ≤ 5 }
{
    match next {
        Next::Targets(_) => 0,
        Next::Ask(_) => 1,
        Next::Refused(_) => 2,
    }
}

/// The word that is printed for why a message gives no answer.
pub fn refusal_word(refusal: ReplyRefusal) -> &'static str
    ensures { result.now ≡ spec.refusal_word refusal }
{
    match refusal {
        ReplyRefusal::NotReply => "NotReply",
        ReplyRefusal::OtherQuestion => "OtherQuestion",
        ReplyRefusal::Truncated => "Truncated",
        ReplyRefusal::ServerFault(_) => "ServerFault",
        ReplyRefusal::Memory => "Memory",
    }
}

/// The word that is printed for why a line is no reply.
fn reply_word(reply: BadReply) -> &'static str
    ensures { result.now ≡ spec.reply_word reply }
{
    match reply {
        BadReply::NotHex => "NotHex",
        BadReply::NothingAsked => "NothingAsked",
        BadReply::TooLong => "TooLong",
        BadReply::Malformed => "Malformed",
        BadReply::NoAnswer(refusal) => refusal_word(refusal),
        BadReply::Memory => "Memory",
    }
}

/// The line for a first line that is no request.
pub(crate) fn bad_request(alloc: Global, refusal: UriRefusal) -> Result<String, AllocError>
    ensures { IfOk result (λ line. string_bytes line ≡ spec.bad_request_line refusal) }
{
    let word = request_word(refusal);
    format!(in alloc; "bad request {word}\n")
}

/// The line for a further line that is no reply.
pub(crate) fn bad_reply(alloc: Global, reply: BadReply) -> Result<String, AllocError>
    ensures { IfOk result (λ line. string_bytes line ≡ spec.bad_reply_line reply) }
{
    let word = reply_word(reply);
    format!(in alloc; "bad reply {word}\n")
}
