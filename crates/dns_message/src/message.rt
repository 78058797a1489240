//! Messages (RFC 1035 4.1).
ghost use Rattle.std.specs.Prelude.{◌≡◌, ◌↔◌, ◌≤◌, ◌<◌, ℕ, length, take, IfOk, IfErr, MatchOption, MatchResult, OnErr};
ghost use Rattle.dns_message.specs.Messages.{Begins, Spells, RefusedWhere};
ghost use Rattle.dns_message.specs.Offsets.{NamedAt};
ghost use Rattle.dns_message.specs.declared.refusal.Part as part;
ghost use Rattle.dns_message.specs.declared.message.Message as message;

use crate::entry::{Counted, read_section, read_section_if_any};
use crate::header::{Header, header_at};
use crate::owner::AskedName;
use crate::question::Asked;
use crate::refusal::{MessageRefusal, Part};
use crate::resource::Record;
use crate::section::Section;
use dns_name::{Landings, law_name_rests_before_its_end, law_one_name_at_an_offset};
use std::alloc::{AllocError, Global};

/// The most octets of a message (RFC 1035 4.2.2).
const MESSAGE_LIMIT: usize = 65_535;

/// The offset after the header.
const HEADER_END: usize = 12;

/// A message.
#[derive(Debug, Drop)]
pub struct Message {
    /// What the header says.
    pub header: Header,
    /// What is asked.
    pub questions: Section<Asked>,
    /// The records that answer.
    pub answers: Section<Record>,
    /// The records that point to an authority.
    pub authority: Section<Record>,
    /// The additional records.
    pub additional: Section<Record>,
}

/// Reads the message in front of these octets. What comes after its counted questions and records
/// is ignored.
///
/// Memory is taken for as many questions or records at once as the header counts, but for 32 at
/// most, and for no more than the octets that are left can hold; for more it is taken as they are
/// read.
#[inline(always)]
pub fn read_message(alloc: Global, bytes: &[u8]) -> Result<Message, MessageRefusal>
    // What is read stands in front of the octets.
    ensures found { IfOk result (λ found.
        (end : ℕ) × (end ≤ length bytes.now) × Spells (take end bytes.now) found) }
    // A message that stands in front of them is read, unless memory is refused: so `Malformed`
    // comes only where none does.
    ensures read { (end : ℕ) (found : message.Message) → Spells (take end bytes.now) found
        → length bytes.now ≤ 65535
        → MatchResult result (λ found'. found' ≡ found)
        (λ refusal. refusal ≡ MessageRefusal.Memory) }
    ensures malformed { (part : part.Part) → result ≡ Err (MessageRefusal.Malformed part)
        → (end : ℕ) (message : message.Message) → Spells (take end bytes.now) message → ⊥ }
    // Each refusal tells what is so of the octets, and these two come exactly there.
    ensures refused { IfErr result (λ refusal. RefusedWhere refusal bytes.now) }
    ensures too_long { (result ≡ Err MessageRefusal.TooLong) ↔ (65535 < length bytes.now) }
    ensures header { (result ≡ Err (MessageRefusal.Malformed Part.Header))
        ↔ (length bytes.now < 12) }
{
    law_one_name_at_an_offset();
    law_name_rests_before_its_end();
    if bytes.len() > MESSAGE_LIMIT {
        return Err(MessageRefusal::TooLong);
    }
    let (header, counts) = header_at(bytes).ok_or(MessageRefusal::Malformed(Part::Header))?;
    let mut landings = Landings::none(alloc);
    let mut questions = Vec::new(alloc);
    let mut answers = Vec::new(alloc);
    let mut authority = Vec::new(alloc);
    let mut additional = Vec::new(alloc);
    let offset = read_section(
        alloc,
        bytes,
        &mut landings,
        HEADER_END,
        Counted {
            part: Part::Questions,
            count: counts.questions,
        },
        None,
        &mut questions,
    )?;
    let asked = AskedName::of(&questions, offset);
    let asked = asked.as_ref();
    let offset = read_section(
        alloc,
        bytes,
        &mut landings,
        offset,
        Counted {
            part: Part::Answers,
            count: counts.answers,
        },
        asked,
        &mut answers,
    )?;
    let offset = read_section_if_any(
        alloc,
        bytes,
        &mut landings,
        offset,
        Counted {
            part: Part::Authority,
            count: counts.authority,
        },
        asked,
        &mut authority,
    )?;
    let _ = read_section_if_any(
        alloc,
        bytes,
        &mut landings,
        offset,
        Counted {
            part: Part::Additional,
            count: counts.additional,
        },
        asked,
        &mut additional,
    )?;
    Ok(Message {
        header,
        questions: Section::from_vec(questions),
        answers: Section::from_vec(answers),
        authority: Section::from_vec(authority),
        additional: Section::from_vec(additional),
    })
}

/// The message in front of these octets, for a caller that need not know why there is none: `None`
/// where they begin with no message, or are more than 65,535. What comes after its counted
/// questions and records is ignored (RFC 1035 4.1).
pub fn message_in(alloc: Global, octets: &[u8]) -> Result<Option<Message>, AllocError>
    ensures read { IfOk result
        (λ it. MatchOption it ((it : message.Message) → Begins octets.now it → ⊥)
        (Begins octets.now)) }
    // A lack of memory is told only where a name stands after the header.
    ensures wanted_short { OnErr result (length octets.now ≤ 65535) }
    ensures wanted_name { OnErr result (NamedAt octets.now 12) }
{
    match read_message(alloc, octets) {
        Ok(message) => Ok(Some(message)),
        Err(MessageRefusal::Memory) => Err(AllocError),
        Err(MessageRefusal::TooLong) => Ok(None),
        Err(MessageRefusal::Malformed(_)) => Ok(None),
    }
}
