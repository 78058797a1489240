//! NAPTR records (RFC 3403 4.1).
ghost use Rattle.std.specs.Prelude.{◌≡◌, ◌<◌, ◌≤◌, ℕ, length, ◌+◌, List, IfOk, IfErr, MatchResult, ◌++◌, OnOk, OnErr};
ghost use Rattle.dns_name.specs.Landings.{AreLandings};
ghost use Rattle.dns_message.specs.Layouts.{CharStringAt, NaptrAt};
ghost use Rattle.dns_message.specs.Written.{naptr_octets};
ghost use Rattle.dns_message.specs.Fits.{NaptrFits};
ghost use Rattle.dns_message.specs.declared.naptr.NaptrRecord as naptr;

use crate::char_string::{CharString, char_string_at, push_string};
use crate::datagram::{Datagram, TooLong};
use crate::name::push_name;
use crate::number::{push_u16, two_u16_at};
use crate::refusal::EntryRefusal;
use dns_name::{Landings, Name, law_one_name_at_an_offset, read_name_into_by};
use std::alloc::{AllocError, Global};

/// A rule that leads from a name to a service (RFC 3403 4.1).
#[derive(Debug, PartialEq, Eq, Drop)]
pub struct NaptrRecord {
    /// ORDER: rules of the lowest one come first, and no others do.
    pub order: u16,
    /// PREFERENCE: of rules of one order, those of the lowest one come first.
    pub preference: u16,
    /// FLAGS: what the result of the rule is; `s` where it is the name of SRV records.
    pub flags: CharString,
    /// SERVICES: which service and protocol the rule leads to.
    pub services: CharString,
    /// REGEXP: how the name is rewritten, if it is.
    pub regexp: CharString,
    /// REPLACEMENT: the name that is asked for next.
    pub replacement: Name,
}

impl NaptrRecord {
    /// One that is still to be read.
    pub(crate) fn unread(alloc: Global) -> NaptrRecord {
        NaptrRecord {
            order: 0,
            preference: 0,
            flags: CharString::empty(alloc),
            services: CharString::empty(alloc),
            regexp: CharString::empty(alloc),
            replacement: Name::root(alloc),
        }
    }

    /// A copy of the rule.
    pub fn try_clone(&self) -> Result<NaptrRecord, AllocError>
        ensures { IfOk result (λ copy. copy ≡ self.now) }
    {
        Ok(NaptrRecord {
            order: self.order,
            preference: self.preference,
            flags: self.flags.try_clone()?,
            services: self.services.try_clone()?,
            regexp: self.regexp.try_clone()?,
            replacement: self.replacement.try_clone()?,
        })
    }
}

/// Reads the record at an offset over another one, and gives the offset after it.
pub(crate) fn read_naptr(
    alloc: Global,
    bytes: &[u8],
    landings: &Landings,
    offset: usize,
    rule: &mut NaptrRecord,
) -> Result<usize, EntryRefusal>
    requires within { offset ≤ length bytes.now }
    requires known { AreLandings bytes.now landings.now }
    ensures found { IfOk result (λ end. NaptrAt bytes.now offset rule.new end) }
    ensures read { (rule' : naptr.NaptrRecord) (end : ℕ) → NaptrAt bytes.now offset rule' end
        → MatchResult result (λ found. (rule.new ≡ rule') × (found ≡ end))
        (λ refusal. refusal ≡ EntryRefusal.Memory) }
    ensures memory { IfErr result (λ refusal. refusal ≡ EntryRefusal.Memory
        → (flags : List ℕ) × (end : ℕ) × CharStringAt bytes.now (offset + 4) flags end) }
{
    law_one_name_at_an_offset();
    let (order, preference) = two_u16_at(bytes, offset).ok_or(EntryRefusal::Malformed)?;
    rule.order = order;
    rule.preference = preference;
    let (flags, offset) = char_string_at(alloc, bytes, offset + 4)?;
    rule.flags = flags;
    let (services, offset) = char_string_at(alloc, bytes, offset)?;
    rule.services = services;
    let (regexp, offset) = char_string_at(alloc, bytes, offset)?;
    rule.regexp = regexp;
    let end = read_name_into_by(alloc, bytes, landings, offset, &mut rule.replacement)?;
    Ok(end)
}

/// Appends the data of a rule.
#[tactic(auto, unfolding(crate::specs::Written::naptr_octets))]
pub(crate) fn push_naptr(rule: &NaptrRecord, out: &mut Datagram) -> Result<(), TooLong>
    ensures ok { OnOk result (out.new.items ≡ out.old.items ++ naptr_octets rule.now) }
    ensures fits { OnOk result (NaptrFits rule.now) }
    ensures too_long { OnErr result
        (512 < length out.old.items + length (naptr_octets rule.now)) }
{
    push_u16(rule.order, out)?;
    push_u16(rule.preference, out)?;
    push_string(&rule.flags, out)?;
    push_string(&rule.services, out)?;
    push_string(&rule.regexp, out)?;
    push_name(&rule.replacement, out)
}
