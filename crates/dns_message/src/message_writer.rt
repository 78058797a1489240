//! Messages of any length as they are written, without pointers (RFC 1035 4.1).
ghost use Rattle.std.specs.Prelude.{◌≡◌, ◌<◌, ◌≤◌, ◌++◌, ◌∷◌, [], IfOk, OnOk, length};
ghost use Rattle.std.specs.List.{flat_map};
ghost use Rattle.dns_message.specs.Headers as headers;
ghost use Rattle.dns_message.specs.Written.{count_octets, four_octets, header_octets, naptr_octets, plain, question_octets, rdata_octets, record_octets, soa_octets, srv_octets, string_octets, two_octets};
ghost use Rattle.dns_message.specs.Written as spec;
ghost use Rattle.dns_name.specs.Labels.{wire_of};
ghost use Rattle.dns_message.specs.declared.message_writer.WriteRefusal.TheVariants as refusals;

use crate::char_string::CharString;
use crate::header::Header;
use crate::message::Message;
use crate::naptr::NaptrRecord;
use crate::question::Asked;
use crate::rdata::Rdata;
use crate::resource::Record;
use crate::soa::SoaRecord;
use crate::srv::SrvRecord;
use dns_name::Name;
use std::alloc::{AllocError, Global};
use thiserror::Error;

/// The most octets of a message (RFC 1035 4.2.2).
const MESSAGE_LIMIT: usize = 65_535;

/// Why a message is not written.
#[derive(Clone, Copy, Debug, PartialEq, Eq, Error)]
pub enum WriteRefusal {
    /// It has more octets than a message can have.
    #[error("it is too long")]
    TooLong,
    /// Memory was refused.
    #[error("out of memory")]
    Memory,
}

impl From<AllocError> for WriteRefusal {
    ghost from_gives = { λ _ refusal. refusal ≡ refusals.Memory };

    fn from(_: AllocError) -> WriteRefusal {
        WriteRefusal::Memory
    }
}

/// How many there are of something, as two octets say it.
fn count_of(count: usize) -> Result<u16, WriteRefusal>
    ensures { IfOk result (λ number. number ≡ count) }
{
    u16::try_from(count).map_err(|_| WriteRefusal::TooLong)
}

/// Appends a number of two octets.
#[tactic(auto, unfolding(crate::specs::Written::two_octets))]
fn push_u16(number: u16, out: &mut Vec<u8>) -> Result<(), AllocError>
    ensures { OnOk result (out.new.items ≡ out.old.items ++ two_octets number) }
{
    out.extend_from_slice(&number.to_be_bytes())
}

/// Appends a number of four octets.
#[tactic(auto, unfolding(crate::specs::Written::four_octets))]
fn push_u32(number: u32, out: &mut Vec<u8>) -> Result<(), AllocError>
    ensures { OnOk result (out.new.items ≡ out.old.items ++ four_octets number) }
{
    out.extend_from_slice(&number.to_be_bytes())
}

/// Appends a name.
fn push_name(name: &Name, out: &mut Vec<u8>) -> Result<(), AllocError>
    ensures { OnOk result (out.new.items ≡ out.old.items ++ wire_of name.now) }
{
    out.extend_from_slice(name.wire())
}

/// Appends a character string.
#[tactic(auto, unfolding(crate::specs::Written::string_octets))]
fn push_string(string: &CharString, out: &mut Vec<u8>) -> Result<(), AllocError>
    ensures { OnOk result (out.new.items ≡ out.old.items ++ string_octets string.now) }
{
    let octets = string.octets();
    out.push(octets.len() as u8)?;
    out.extend_from_slice(octets)
}

/// Appends the data of a server.
#[tactic(auto, unfolding(crate::specs::Written::srv_octets))]
fn push_srv(server: &SrvRecord, out: &mut Vec<u8>) -> Result<(), AllocError>
    ensures { OnOk result (out.new.items ≡ out.old.items ++ srv_octets server.now) }
{
    push_u16(server.priority, out)?;
    push_u16(server.weight, out)?;
    push_u16(server.port, out)?;
    push_name(&server.target, out)
}

/// Appends the data of a rule.
#[tactic(auto, unfolding(crate::specs::Written::naptr_octets))]
fn push_naptr(rule: &NaptrRecord, out: &mut Vec<u8>) -> Result<(), AllocError>
    ensures { OnOk result (out.new.items ≡ out.old.items ++ naptr_octets rule.now) }
{
    push_u16(rule.order, out)?;
    push_u16(rule.preference, out)?;
    push_string(&rule.flags, out)?;
    push_string(&rule.services, out)?;
    push_string(&rule.regexp, out)?;
    push_name(&rule.replacement, out)
}

/// Appends the data of a start of authority.
#[tactic(auto, unfolding(crate::specs::Written::soa_octets))]
fn push_soa(authority: &SoaRecord, out: &mut Vec<u8>) -> Result<(), AllocError>
    ensures { OnOk result (out.new.items ≡ out.old.items ++ soa_octets authority.now) }
{
    push_name(&authority.mname, out)?;
    push_name(&authority.rname, out)?;
    push_u32(authority.serial, out)?;
    push_u32(authority.refresh, out)?;
    push_u32(authority.retry, out)?;
    push_u32(authority.expire, out)?;
    push_u32(authority.minimum, out)
}

/// Appends data.
fn push_rdata(rdata: &Rdata, out: &mut Vec<u8>) -> Result<(), AllocError>
    ensures { OnOk result (out.new.items ≡ out.old.items ++ rdata_octets rdata.now) }
{
    match rdata {
        Rdata::Addr4(octets) => out.extend_from_slice(octets),
        Rdata::Addr6(octets) => out.extend_from_slice(octets),
        Rdata::Srv(server) => push_srv(server, out),
        Rdata::Naptr(rule) => push_naptr(rule, out),
        Rdata::Cname(name) => push_name(name, out),
        Rdata::Soa(authority) => push_soa(authority, out),
        Rdata::Other(other) => out.extend_from_slice(other.octets()),
    }
}

/// Appends RDLENGTH and RDATA.
fn push_data(alloc: Global, rdata: &Rdata, out: &mut Vec<u8>) -> Result<(), WriteRefusal>
    ensures { OnOk result (out.new.items
        ≡ out.old.items ++ two_octets (length (rdata_octets rdata.now)) ++ rdata_octets rdata.now) }
{
    let mut data = Vec::new(alloc);
    push_rdata(rdata, &mut data)?;
    push_u16(count_of(data.len())?, out)?;
    out.extend_from_slice(data.as_slice())?;
    Ok(())
}

/// Appends a record.
#[tactic(auto, unfolding(crate::specs::Written::record_octets))]
fn push_record(alloc: Global, entry: &Record, out: &mut Vec<u8>) -> Result<(), WriteRefusal>
    ensures { OnOk result (out.new.items ≡ out.old.items ++ record_octets entry.now) }
{
    push_name(&entry.owner, out)?;
    push_u16(entry.rdata.type_number(), out)?;
    push_u16(entry.rdata.class_number(), out)?;
    push_u32(entry.ttl, out)?;
    push_data(alloc, &entry.rdata, out)
}

/// Appends records.
fn push_records(alloc: Global, records: &[Record], out: &mut Vec<u8>) -> Result<(), WriteRefusal>
    ensures { OnOk result (out.new.items ≡ out.old.items ++ flat_map record_octets records.now) }
{
    for entry in records {
        push_record(alloc, entry, out)?;
    }
    Ok(())
}

/// Appends a question.
#[tactic(auto, unfolding(crate::specs::Written::question_octets))]
fn push_question(asked: &Asked, out: &mut Vec<u8>) -> Result<(), AllocError>
    ensures { OnOk result (out.new.items ≡ out.old.items ++ question_octets asked.now) }
{
    push_name(&asked.name, out)?;
    push_u16(asked.type_number, out)?;
    push_u16(asked.class_number, out)
}

/// Appends questions.
fn push_questions(questions: &[Asked], out: &mut Vec<u8>) -> Result<(), AllocError>
    ensures { OnOk result
        (out.new.items ≡ out.old.items ++ flat_map question_octets questions.now) }
{
    for asked in questions {
        push_question(asked, out)?;
    }
    Ok(())
}

/// A flag as a bit.
fn bit(flag: bool) -> u8
    ensures { result ≡ headers.bit flag }
{
    u8::from(flag)
}

/// The octet of QR, OPCODE, AA, TC and RD.
fn high_flags(header: Header) -> u8
    requires { header.opcode < 16 }
    ensures { result ≡ spec.high_flags header }
{
    128 * bit(header.reply)
        + 8 * header.opcode
        + 4 * bit(header.authoritative)
        + 2 * bit(header.truncated)
        + bit(header.recursion_desired)
}

/// The octet of RA, Z and RCODE.
fn low_flags(header: Header) -> u8
    requires { header.rcode < 16 }
    ensures { result ≡ spec.low_flags header }
{
    128 * bit(header.recursion_available) + header.rcode
}

/// Appends the number and the flags.
#[tactic(auto, unfolding(crate::specs::Written::header_octets))]
fn push_flags(header: Header, out: &mut Vec<u8>) -> Result<(), AllocError>
    requires opcode { header.opcode < 16 }
    requires rcode { header.rcode < 16 }
    ensures { OnOk result (out.new.items ≡ out.old.items ++ header_octets header) }
{
    push_u16(header.id, out)?;
    out.extend_from_slice(&[high_flags(header), low_flags(header)])
}

/// Appends the counts.
#[tactic(auto, unfolding(crate::specs::Written::count_octets))]
fn push_counts(message: &Message, out: &mut Vec<u8>) -> Result<(), WriteRefusal>
    ensures { OnOk result (out.new.items ≡ out.old.items
        ++ count_octets (length message.now.questions) (length message.now.answers)
        (length message.now.authority) (length message.now.additional)) }
{
    push_u16(count_of(message.questions.len())?, out)?;
    push_u16(count_of(message.answers.len())?, out)?;
    push_u16(count_of(message.authority.len())?, out)?;
    push_u16(count_of(message.additional.len())?, out)?;
    Ok(())
}

/// Appends a message.
#[tactic(auto, unfolding(crate::specs::Written::plain))]
fn push_message(alloc: Global, message: &Message, out: &mut Vec<u8>) -> Result<(), WriteRefusal>
    requires opcode { message.now.header.opcode < 16 }
    requires rcode { message.now.header.rcode < 16 }
    ensures { OnOk result (out.new.items ≡ out.old.items ++ plain message.now) }
{
    push_flags(message.header, out)?;
    push_counts(message, out)?;
    push_questions(message.questions.as_slice(), out)?;
    push_records(alloc, message.answers.as_slice(), out)?;
    push_records(alloc, message.authority.as_slice(), out)?;
    push_records(alloc, message.additional.as_slice(), out)
}

/// The octets of a message of any length, without pointers (RFC 1035 4.1). The three bits of Z are
/// 0. `TooLong`: they are more than 65,535, or a section has more entries than a header can count.
pub fn write_message(alloc: Global, message: &Message) -> Result<Vec<u8>, WriteRefusal>
    requires opcode { message.now.header.opcode < 16 }
    requires rcode { message.now.header.rcode < 16 }
    ensures written { IfOk result (λ octets. octets.items ≡ plain message.now) }
    ensures short { IfOk result (λ octets. length octets.items ≤ 65535) }
{
    let mut out = Vec::new(alloc);
    push_message(alloc, message, &mut out)?;
    if out.len() > MESSAGE_LIMIT {
        return Err(WriteRefusal::TooLong);
    }
    Ok(out)
}
