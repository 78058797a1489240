//! Replies to a request (RFC 3261 8.1.3.3, 17.1.3, 18.3).
ghost use Rattle.std.specs.Prelude.{◌≡◌, ◌↔◌, ◌≤◌, ℕ, length, IsTrue, IfSome, Some};
ghost use Rattle.sip_options.specs.Readers.Fits.{ViaFits, CallIdFits, CSeqFits, BodyFits};
ghost use Rattle.sip_options.specs.Replies.{IsReply};

use crate::field::Field;
use crate::lines::status_line;
use crate::numbers::{MESSAGE_LIMIT, is_options_cseq, length_said};
use crate::tokens::{branch, token};
use crate::values::{first_value, only_value, values_of};
use crate::via::first_has_branch;
use crate::words::is_alone;

/// Whether the first Via has the branch of a number.
fn via_fits(text: &[u8], number: u64) -> bool
    ensures { IsTrue result ↔ ViaFits number text.now }
{
    match first_value(text, Field::Via) {
        Some(via) => first_has_branch(via, &branch(number)),
        None => false,
    }
}

/// Whether the only Call-ID is that of a number.
fn call_id_fits(text: &[u8], number: u64) -> bool
    ensures { IsTrue result ↔ CallIdFits number text.now }
{
    match only_value(text, Field::CallId) {
        Some(call_id) => is_alone(call_id, &token(number)),
        None => false,
    }
}

/// Whether the only CSeq is that of an OPTIONS request.
fn cseq_fits(text: &[u8]) -> bool
    ensures { IsTrue result ↔ CSeqFits text.now }
{
    match only_value(text, Field::CSeq) {
        Some(cseq) => is_options_cseq(cseq),
        None => false,
    }
}

/// Whether the body has as many octets as Content-Length says.
fn body_fits(text: &[u8]) -> bool
    requires { length text.now ≤ 65535 }
    ensures { IsTrue result ↔ BodyFits text.now }
{
    match values_of(text, Field::ContentLength) {
        Some((values, body)) => match length_said(values) {
            Some(size) => size as usize <= body.len(),
            None => false,
        },
        None => false,
    }
}

/// The status of a message, where it is a reply to the request with these numbers.
pub(crate) fn reply_status(message: &[u8], branch: u64, call_id: u64) -> Option<u16>
    ensures found { IfSome result (λ status. IsReply branch call_id message.now status) }
    ensures read { (status : ℕ) → IsReply branch call_id message.now status
        → result ≡ Some status }
{
    if message.len() > MESSAGE_LIMIT {
        return None;
    }
    let (status, text) = status_line(message)?;
    if !via_fits(text, branch) {
        return None;
    }
    if !call_id_fits(text, call_id) {
        return None;
    }
    if !cseq_fits(text) {
        return None;
    }
    if !body_fits(text) {
        return None;
    }
    Some(status)
}
