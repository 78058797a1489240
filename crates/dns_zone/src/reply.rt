//! What is replied from a zone (RFC 1034 3.6.2, 4.3.2, RFC 1035 4.1.1, RFC 2308 3).
ghost use Rattle.std.specs.Prelude.{◌≡◌, ◌≤◌, ◌++◌, IfOk, OnOk, length, map, take};
ghost use Rattle.std.specs.List.{filter};
ghost use Rattle.dns_zone.specs.Zones as zones;
ghost use Rattle.dns_zone.specs.Authorities.{is_of};
ghost use Rattle.dns_zone.specs.Replies as spec;
ghost use Rattle.dns_zone.specs.Views.{bounded};

use crate::authority::authority_at;
use crate::zone::{Zone, ZoneEntry};
use dns_message::{Asked, CLASS_IN, Header, Message, Rdata, Record, Section};
use dns_name::Name;
use std::alloc::{AllocError, Global};

/// The most CNAME records that are followed.
const LINK_LIMIT: u8 = 8;

/// So many records never fit into a datagram, since each has 11 octets at least (RFC 1035 4.1.3,
/// 4.2.1).
const ANSWER_LIMIT: usize = 46;

/// RCODE of a name that does not exist (RFC 1035 4.1.1).
const NAME_ERROR: u8 = 3;

/// RCODE of a query that is refused (RFC 1035 4.1.1).
const REFUSED: u8 = 5;

/// The CNAME records that lead from a name, and the name where they lead.
fn path<'a>(
    zone: &'a Zone,
    alloc: Global,
    start: &'a Name,
) -> Result<(Vec<Record>, &'a Name), AllocError>
    ensures { IfOk result (λ found. (found.0.items ≡ (zones.path zone.now start.now).links)
        × (found.1.now ≡ (zones.path zone.now start.now).last) × (length found.0.items ≤ 8)) }
{
    let mut links = Vec::new(alloc);
    let mut name = start;
    for _ in 0..LINK_LIMIT {
        let Some(cname) = zone.cname_at(name) else {
            return Ok((links, name));
        };
        links.push(Record {
            owner: name.try_clone()?,
            ttl: cname.ttl,
            rdata: Rdata::Cname(cname.target.try_clone()?),
        })?;
        name = cname.target;
    }
    Ok((links, name))
}

/// Whether questions of a type are answered: A, SOA, AAAA, SRV and NAPTR.
fn is_answered(type_number: u16) -> bool
    ensures { result ≡ spec.is_answered type_number }
{
    matches!(type_number, 1 | 6 | 28 | 33 | 35)
}

/// Adds the records of a type that an owner has, until there are 46.
fn push_records(
    records: &mut Vec<Record>,
    owner: &Name,
    entries: &[ZoneEntry],
    type_number: u16,
) -> Result<(), AllocError>
    requires { length records.old.items ≤ 46 }
    ensures { OnOk result (records.new.items
        ≡ take 46 (records.old.items
        ++ filter (is_of type_number) (map (zones.record_of owner.now) entries.now))) }
{
    for entry in entries {
        if records.len() == ANSWER_LIMIT {
            return Ok(());
        }
        if entry.rdata.type_number() == type_number {
            records.push(Record {
                owner: owner.try_clone()?,
                ttl: entry.ttl,
                rdata: entry.rdata.try_clone()?,
            })?;
        }
    }
    Ok(())
}

/// RCODE of what a name has.
fn name_rcode(entries: &[ZoneEntry]) -> u8
    ensures { result ≡ spec.name_rcode entries.now }
{
    if entries.is_empty() { NAME_ERROR } else { 0 }
}

/// What a zone has for a question in class IN.
#[derive(Drop)]
struct ReplyBody {
    rcode: u8,
    answers: Vec<Record>,
    authority: Vec<Record>,
}

/// RCODE of a question in class IN, the records that answer it, the first 46, and the authority
/// section.
fn found(zone: &Zone, alloc: Global, asked: &Asked) -> Result<ReplyBody, AllocError>
    ensures rcode { IfOk result (λ found. found.rcode ≡ spec.rcode zone.now asked.now) }
    ensures answers { IfOk result
        (λ found. found.answers.items ≡ take 46 (spec.answers zone.now asked.now)) }
    ensures authority { IfOk result
        (λ found. found.authority.items ≡ spec.authority zone.now asked.now) }
{
    let (mut answers, last) = path(zone, alloc, &asked.name)?;
    let entries = zone.entries_at(last);
    let rcode = name_rcode(entries);
    let authority = authority_at(zone, alloc, last, asked.type_number)?;
    if is_answered(asked.type_number) {
        push_records(&mut answers, last, entries, asked.type_number)?;
    } else {
        answers.clear();
    }
    Ok(ReplyBody {
        rcode,
        answers,
        authority,
    })
}

/// The reply to a query of this header.
fn reply_of(alloc: Global, query: Header, questions: Section<Asked>, body: ReplyBody) -> Message
    ensures { result ≡ spec.reply_of query body.rcode questions body.answers.items
        body.authority.items }
{
    Message {
        header: Header {
            reply: true,
            authoritative: true,
            truncated: false,
            recursion_available: false,
            rcode: body.rcode,
            ..query
        },
        questions,
        answers: Section::from_vec(body.answers),
        authority: Section::from_vec(body.authority),
        additional: Section::from_vec(Vec::new(alloc)),
    }
}

/// A refusal of a query of this header (RFC 1035 4.1.1).
fn refusal(alloc: Global, query: Header, questions: Section<Asked>) -> Message
    ensures { result ≡ spec.refusal query questions }
{
    let body = ReplyBody {
        rcode: REFUSED,
        answers: Vec::new(alloc),
        authority: Vec::new(alloc),
    };
    reply_of(alloc, query, questions, body)
}

/// The reply to a query of this header and with these questions, with at most 46 records that
/// answer.
fn reply_about(
    zone: &Zone,
    alloc: Global,
    header: Header,
    questions: Section<Asked>,
) -> Result<Message, AllocError>
    ensures { IfOk result (λ reply. reply
        ≡ bounded (spec.reply_about zone.now header questions)) }
{
    let [asked] = questions.as_slice() else {
        let none = Section::from_vec(Vec::new(alloc));
        return Ok(refusal(alloc, header, none));
    };
    if header.opcode != 0 || asked.class_number != CLASS_IN {
        return Ok(refusal(alloc, header, questions));
    }
    let body = found(zone, alloc, asked)?;
    Ok(reply_of(alloc, header, questions, body))
}

/// The reply to a query, with at most 46 records that answer.
pub(crate) fn reply_to(zone: &Zone, alloc: Global, query: Message) -> Result<Message, AllocError>
    ensures { IfOk result (λ reply. reply ≡ bounded (spec.reply_to zone.now query)) }
{
    reply_about(zone, alloc, query.header, query.questions)
}
