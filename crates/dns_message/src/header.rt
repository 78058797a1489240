//! The header of a message (RFC 1035 4.1.1).
ghost use Rattle.std.specs.Prelude.{◌<◌, length, MatchOption, ◌≡◌, ◌+◌, ◌++◌, OnOk, OnErr};
ghost use Rattle.dns_message.specs.Headers.{HeaderAt, CountsAt};
ghost use Rattle.dns_message.specs.Fits.{HeaderFits};
ghost use Rattle.dns_message.specs.Written.{header_octets, count_octets};
ghost use Rattle.dns_message.specs.Headers as headers;
ghost use Rattle.dns_message.specs.Written as spec;

use crate::datagram::{Datagram, TooLong, push_octets};
use crate::number::{push_u16, u16_at};

/// What a header says, other than how many questions and records there are.
#[derive(Clone, Copy, Debug, PartialEq, Eq)]
pub struct Header {
    /// ID: the number by which a reply is known as one to its query.
    pub id: u16,
    /// QR: it is a reply.
    pub reply: bool,
    /// OPCODE: the kind of query, 0 for a standard one.
    pub opcode: u8,
    /// AA: the server is an authority for the name that is asked.
    pub authoritative: bool,
    /// TC: the message was cut.
    pub truncated: bool,
    /// RD: the server is to ask others.
    pub recursion_desired: bool,
    /// RA: the server is ready to ask others.
    pub recursion_available: bool,
    /// RCODE: 0 no error, 2 server failure, 3 name error, 5 refused.
    pub rcode: u8,
}

/// The counts of a header.
#[derive(Clone, Copy)]
pub(crate) struct Counts {
    pub(crate) questions: u16,
    pub(crate) answers: u16,
    pub(crate) authority: u16,
    pub(crate) additional: u16,
}

/// The number and the flags.
fn flags_at(bytes: &[u8]) -> Option<Header>
    ensures { MatchOption result (length bytes.now < 4) (λ header. HeaderAt bytes.now header) }
{
    let id = u16_at(bytes, 0)?;
    let high = *bytes.get(2)?;
    let low = *bytes.get(3)?;
    Some(Header {
        id,
        reply: high >= 128,
        opcode: high / 8 % 16,
        authoritative: high / 4 % 2 == 1,
        truncated: high / 2 % 2 == 1,
        recursion_desired: high % 2 == 1,
        recursion_available: low >= 128,
        rcode: low % 16,
    })
}

/// The counts.
fn counts_at(bytes: &[u8]) -> Option<Counts>
    ensures { MatchOption result (length bytes.now < 12) (λ counts. CountsAt bytes.now counts) }
{
    Some(Counts {
        questions: u16_at(bytes, 4)?,
        answers: u16_at(bytes, 6)?,
        authority: u16_at(bytes, 8)?,
        additional: u16_at(bytes, 10)?,
    })
}

/// The header, in the first 12 octets.
pub(crate) fn header_at(bytes: &[u8]) -> Option<(Header, Counts)>
    ensures { MatchOption result (length bytes.now < 12)
        (λ found. HeaderAt bytes.now found.0 × CountsAt bytes.now found.1) }
{
    Some((flags_at(bytes)?, counts_at(bytes)?))
}

/// A flag as a bit.
fn bit(flag: bool) -> u8
    ensures { result ≡ headers.bit flag }
{
    u8::from(flag)
}

/// The octet of QR, OPCODE, AA, TC and RD.
fn high_flags(header: Header) -> u8
    requires { header.opcode < 16 }
    ensures { result ≡ spec.high_flags header }
{
    128 * bit(header.reply)
        + 8 * header.opcode
        + 4 * bit(header.authoritative)
        + 2 * bit(header.truncated)
        + bit(header.recursion_desired)
}

/// The octet of RA, Z and RCODE.
fn low_flags(header: Header) -> u8
    requires { header.rcode < 16 }
    ensures { result ≡ spec.low_flags header }
{
    128 * bit(header.recursion_available) + header.rcode
}

/// Appends the number and the flags.
#[tactic(auto, unfolding(crate::specs::Written::header_octets))]
fn push_flags(header: Header, out: &mut Datagram) -> Result<(), TooLong>
    requires opcode { header.opcode < 16 }
    requires rcode { header.rcode < 16 }
    ensures ok { OnOk result (out.new.items ≡ out.old.items ++ header_octets header) }
    ensures fits { HeaderFits header }
    ensures too_long { OnErr result
        (512 < length out.old.items + length (header_octets header)) }
{
    push_u16(header.id, out)?;
    push_octets(&[high_flags(header), low_flags(header)], out)
}

/// Appends the counts.
#[tactic(auto, unfolding(crate::specs::Written::count_octets))]
fn push_counts(counts: Counts, out: &mut Datagram) -> Result<(), TooLong>
    ensures ok { OnOk result (out.new.items ≡ out.old.items
        ++ count_octets counts.questions counts.answers counts.authority counts.additional) }
    ensures too_long { OnErr result (512 < length out.old.items + length
        (count_octets counts.questions counts.answers counts.authority counts.additional)) }
{
    push_u16(counts.questions, out)?;
    push_u16(counts.answers, out)?;
    push_u16(counts.authority, out)?;
    push_u16(counts.additional, out)
}

/// Appends the header.
pub(crate) fn push_header(header: Header, counts: Counts, out: &mut Datagram) -> Result<(), TooLong>
    requires opcode { header.opcode < 16 }
    requires rcode { header.rcode < 16 }
    ensures ok { OnOk result (out.new.items ≡ out.old.items ++ header_octets header
        ++ count_octets counts.questions counts.answers counts.authority counts.additional) }
    ensures fits { HeaderFits header }
    ensures too_long { OnErr result (512 < length out.old.items + length (header_octets header)
        + length (count_octets counts.questions counts.answers counts.authority
        counts.additional)) }
{
    push_flags(header, out)?;
    push_counts(counts, out)
}
