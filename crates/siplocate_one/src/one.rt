//! One request, from its text to what is printed.
ghost use Rattle.std.specs.Prelude.{◌≡◌, ◌≤◌, ◌⊎◌, List, Some, IfOk, IfErr, MatchResult};
ghost use Rattle.std.specs.List.{AllZip};
ghost use Rattle.std.specs.String.{string_bytes};
ghost use Rattle.dns_message.specs.declared.message.Message as message;
ghost use Rattle.sip_selection.specs.Choice as choice;
ghost use Rattle.sip_selection.specs.Known as known;
ghost use Rattle.sip_selection.specs.Selections.{now_of};
ghost use Rattle.siplocate_one.specs.Talks as spec;
ghost use Rattle.siplocate_one.specs.Replies.{ReplyLine, FailsAt};
ghost use Rattle.siplocate_one.specs.Requests.{LocatesTo, first_line as first_line_of, other_lines};
ghost use Rattle.siplocate_one.specs.Refusals.{of_request, of_reply, RefusedAs};
ghost use Rattle.siplocate_one.specs.declared.one.OneRefusal.TheVariants as refusals;
ghost use Rattle.siplocate_one.specs.Words as words;

use crate::output::{bad_reply, bad_request};
use crate::reply::BadReply;
use crate::talk::Talk;
use sip_selection::{Families, Request, read_request};
use sip_uri::UriRefusal;
use std::alloc::{AllocError, Global};
use std::sync::Wait;

/// The status of what is no request, or has a reply that is none.
const BAD_STATUS: u8 = 3;

/// Why a text is no request with replies.
#[derive(Clone, Copy)]
enum OneRefusal {
    /// The first line is no request.
    Request(UriRefusal),
    /// A further line is no reply.
    Reply(BadReply),
    /// Memory was refused.
    Memory,
}

impl From<UriRefusal> for OneRefusal {
    ghost from_gives = { λ refusal one. one ≡ of_request refusal };

    fn from(refusal: UriRefusal) -> OneRefusal {
        match refusal {
            UriRefusal::Memory => OneRefusal::Memory,
            _ => OneRefusal::Request(refusal),
        }
    }
}

impl From<BadReply> for OneRefusal {
    ghost from_gives = { λ reply one. one ≡ of_reply reply };

    fn from(reply: BadReply) -> OneRefusal {
        match reply {
            BadReply::Memory => OneRefusal::Memory,
            _ => OneRefusal::Reply(reply),
        }
    }
}

impl From<AllocError> for OneRefusal {
    ghost from_gives = { λ _ one. one ≡ refusals.Memory };

    fn from(_: AllocError) -> OneRefusal {
        OneRefusal::Memory
    }
}

/// The first line of a text, which is empty where there is none.
fn first_line(text: &str) -> &str
    ensures { result.now ≡ first_line_of text.now }
{
    text.lines().next().unwrap_or("")
}

/// The talk of a request, with the replies in the lines after the first one.
fn talk<R: Wait>(
    rt: &R,
    alloc: Global,
    families: Families,
    request: Request,
    text: &str,
) -> Result<Talk, BadReply>
    ensures found { IfOk result (λ it. (messages : List message.Message)
        × (given : List known.Given)
        × AllZip ReplyLine (other_lines text.now) messages
        × (spec.talk families request messages ≡ Some given)
        × (it ≡ spec.selected families request given)) }
    ensures read { (messages : List message.Message) (given : List known.Given)
        → AllZip ReplyLine (other_lines text.now) messages
        → spec.talk families request messages ≡ Some given
        → MatchResult result (λ it. it ≡ spec.selected families request given)
        (λ reply. reply ≡ BadReply.Memory) }
    ensures bad { IfErr result (λ reply. (reply ≡ BadReply.Memory)
        ⊎ FailsAt families request (other_lines text.now) reply) }
{
    let mut talk = Talk::new(alloc, families, request)?;
    for line in text.lines().skip(1) {
        talk.take(rt, alloc, line)?;
    }
    Ok(talk)
}

/// The talk of the request in the first line of a text, with the replies in the others.
fn located<R: Wait>(
    rt: &R,
    alloc: Global,
    families: Families,
    text: &str,
) -> Result<Talk, OneRefusal>
    ensures found { IfOk result (λ it. LocatesTo families text.now (now_of it)) }
    ensures read { (resolution : choice.Resolution) → LocatesTo families text.now resolution
        → MatchResult result (λ it. now_of it ≡ resolution)
        (λ refusal. refusal ≡ OneRefusal.Memory) }
    ensures bad { IfErr result (λ refusal. RefusedAs refusal families text.now) }
{
    let request = read_request(alloc, first_line(text))?;
    Ok(talk(rt, alloc, families, request, text)?)
}

/// What the program prints for a request with replies, and its status.
pub fn one_text<R: Wait>(
    rt: &R,
    alloc: Global,
    families: Families,
    text: &str,
) -> Result<(String, u8), AllocError>
    ensures status { IfOk result (λ told. told.1 ≤ 5) }
    // What becomes of the request is printed.
    ensures located { (resolution : choice.Resolution) → LocatesTo families text.now resolution
        → IfOk result (λ told. (string_bytes told.0 ≡ words.shown resolution)
        × (told.1 ≡ words.status_of resolution)) }
    // Nothing else is printed but what is wrong, under status 3: the first line where that is no
    // request, and else the first fault of the first line that is no reply.
    ensures only { IfOk result
        (λ told. ((told.1 ≡ 3) × words.IsBadLine families text.now (string_bytes told.0))
        ⊎ ((resolution : choice.Resolution) × LocatesTo families text.now resolution
        × (string_bytes told.0 ≡ words.shown resolution) × (told.1 ≡ words.status_of resolution))) }
{
    match located(rt, alloc, families, text) {
        Ok(talk) => talk.told(alloc),
        Err(OneRefusal::Memory) => Err(AllocError),
        Err(OneRefusal::Request(refusal)) => Ok((bad_request(alloc, refusal)?, BAD_STATUS)),
        Err(OneRefusal::Reply(reply)) => Ok((bad_reply(alloc, reply)?, BAD_STATUS)),
    }
}
