//! Which octets are a reply to a query.
ghost use Rattle.std.specs.Prelude.{◌≡◌, ◌↔◌, ◌≤◌, IsTrue, length, take};
ghost use Rattle.dns_name.specs.Labels.{small_letters};
ghost use Rattle.dns_transport.specs.Replies.{HasId, HasQuestion, HasSameName, IsAnswering, IsReplyInOtherLetters, IsReplyTo, IsWhole};

/// The octets of a header (RFC 1035 4.1.1).
const HEADER_LENGTH: usize = 12;

/// Whether a query has a header, and a message as many octets as it at least.
fn is_whole(query: &[u8], message: &[u8]) -> bool
    ensures { IsTrue result ↔ IsWhole query.now message.now }
{
    HEADER_LENGTH <= query.len() && query.len() <= message.len()
}

/// Whether a message has the id of a query.
fn has_id(query: &[u8], message: &[u8]) -> bool
    requires { IsWhole query.now message.now }
    ensures { IsTrue result ↔ HasId query.now message.now }
{
    message[..2] == query[..2]
}

/// Whether octets begin with these.
fn begins_with(octets: &[u8], start: &[u8]) -> bool
    ensures { IsTrue result ↔ (take (length start.now) octets.now ≡ start.now) }
{
    octets.starts_with(start)
}

/// Whether a message has the question of a query.
fn has_question(query: &[u8], message: &[u8]) -> bool
    requires { IsWhole query.now message.now }
    ensures { IsTrue result ↔ HasQuestion query.now message.now }
{
    begins_with(&message[HEADER_LENGTH..], &query[HEADER_LENGTH..])
}

/// Whether a message has the opcode of a query, and QR is set in it.
fn is_answering(query: &[u8], message: &[u8]) -> bool
    requires { IsWhole query.now message.now }
    ensures { IsTrue result ↔ IsAnswering query.now message.now }
{
    message[2] / 8 == 16 + query[2] / 8
}

/// Whether a message has the id, the opcode and the question of a query, octet for octet, and QR is
/// set in it.
pub(crate) fn is_reply_to(query: &[u8], message: &[u8]) -> bool
    ensures { IsTrue result ↔ IsReplyTo query.now message.now }
{
    is_whole(query, message)
        && has_id(query, message)
        && is_answering(query, message)
        && has_question(query, message)
}

/// Whether octets begin with these, in letters of any case.
fn begins_in_any_letters(octets: &[u8], start: &[u8]) -> bool
    requires { length start.now ≤ length octets.now }
    ensures { IsTrue result
        ↔ (small_letters (take (length start.now) octets.now) ≡ small_letters start.now) }
{
    octets[..start.len()].eq_ignore_ascii_case(start)
}

/// Whether a message has the question of a query, in letters of any case.
fn has_same_name(query: &[u8], message: &[u8]) -> bool
    requires { IsWhole query.now message.now }
    ensures { IsTrue result ↔ HasSameName query.now message.now }
{
    begins_in_any_letters(&message[HEADER_LENGTH..], &query[HEADER_LENGTH..])
}

/// Whether a message would be a reply to a query, but for the letters in its question.
pub(crate) fn is_reply_in_other_letters(query: &[u8], message: &[u8]) -> bool
    ensures { IsTrue result ↔ IsReplyInOtherLetters query.now message.now }
{
    is_whole(query, message)
        && has_id(query, message)
        && is_answering(query, message)
        && has_same_name(query, message)
        && !has_question(query, message)
}
