//! SOA records (RFC 1035 3.3.13).
ghost use Rattle.std.specs.Prelude.{◌≡◌, ◌+◌, ◌<◌, ◌≤◌, ℕ, length, IfOk, IfErr, MatchOption, MatchResult, ◌++◌, OnOk, OnErr};
ghost use Rattle.dns_name.specs.Landings.{AreLandings};
ghost use Rattle.std.specs.Int.{w32};
ghost use Rattle.dns_message.specs.Layouts.{SoaAt};
ghost use Rattle.dns_message.specs.Offsets.{NumberAt, NamedAt};
ghost use Rattle.dns_message.specs.Written.{soa_octets};
ghost use Rattle.dns_message.specs.Fits.{SoaFits};
ghost use Rattle.dns_message.specs.declared.soa.SoaRecord as soa;

use crate::datagram::{Datagram, TooLong};
use crate::name::push_name;
use crate::number::{push_u32, u32_at};
use crate::refusal::EntryRefusal;
use dns_name::{
    Landings, Name, law_name_rests_before_its_end, law_one_name_at_an_offset, read_name_by,
};
use std::alloc::{AllocError, Global};

/// The start of a zone of authority (RFC 1035 3.3.13).
#[derive(Debug, PartialEq, Eq, Drop)]
pub struct SoaRecord {
    /// MNAME: the server that the zone comes from.
    pub mname: Name,
    /// RNAME: the mailbox of who is responsible for the zone, as a name.
    pub rname: Name,
    /// SERIAL: the number of this version of the zone.
    pub serial: u32,
    /// REFRESH: after how many seconds another server of the zone looks for a new version.
    pub refresh: u32,
    /// RETRY: after how many seconds it looks again where that failed.
    pub retry: u32,
    /// EXPIRE: after how many seconds without success it no longer answers.
    pub expire: u32,
    /// MINIMUM: for how many seconds it may be kept that something is not there (RFC 2308 4).
    pub minimum: u32,
}

impl SoaRecord {
    /// A copy of the record.
    pub fn try_clone(&self) -> Result<SoaRecord, AllocError>
        ensures { IfOk result (λ copy. copy ≡ self.now) }
    {
        Ok(SoaRecord {
            mname: self.mname.try_clone()?,
            rname: self.rname.try_clone()?,
            serial: self.serial,
            refresh: self.refresh,
            retry: self.retry,
            expire: self.expire,
            minimum: self.minimum,
        })
    }
}

/// The numbers after the names of a start of authority.
#[derive(Clone, Copy)]
struct Numbers {
    serial: u32,
    refresh: u32,
    retry: u32,
    expire: u32,
    minimum: u32,
}

/// These numbers, in twenty octets at an offset.
fn numbers_at(bytes: &[u8], offset: usize) -> Option<Numbers>
    requires { offset ≤ length bytes.now }
    ensures { MatchOption result (length bytes.now < offset + 20)
        (λ numbers. NumberAt w32 bytes.now offset numbers.serial
        × NumberAt w32 bytes.now (offset + 4) numbers.refresh
        × NumberAt w32 bytes.now (offset + 8) numbers.retry
        × NumberAt w32 bytes.now (offset + 12) numbers.expire
        × NumberAt w32 bytes.now (offset + 16) numbers.minimum) }
{
    Some(Numbers {
        serial: u32_at(bytes, offset)?,
        refresh: u32_at(bytes, offset + 4)?,
        retry: u32_at(bytes, offset + 8)?,
        expire: u32_at(bytes, offset + 12)?,
        minimum: u32_at(bytes, offset + 16)?,
    })
}

/// Reads the record at an offset, and gives the offset after it.
pub(crate) fn soa_at(
    alloc: Global,
    bytes: &[u8],
    landings: &Landings,
    offset: usize,
) -> Result<(SoaRecord, usize), EntryRefusal>
    requires { AreLandings bytes.now landings.now }
    ensures found { IfOk result (λ found. SoaAt bytes.now offset found.0 found.1) }
    ensures read { (authority : soa.SoaRecord) (end : ℕ) → SoaAt bytes.now offset authority end
        → MatchResult result (λ found. (found.0 ≡ authority) × (found.1 ≡ end))
        (λ refusal. refusal ≡ EntryRefusal.Memory) }
    ensures memory { IfErr result (λ refusal. refusal ≡ EntryRefusal.Memory
        → NamedAt bytes.now offset) }
{
    law_one_name_at_an_offset();
    law_name_rests_before_its_end();
    let (mname, offset) = read_name_by(alloc, bytes, landings, offset)?;
    let (rname, offset) = read_name_by(alloc, bytes, landings, offset)?;
    let numbers = numbers_at(bytes, offset).ok_or(EntryRefusal::Malformed)?;
    Ok((
        SoaRecord {
            mname,
            rname,
            serial: numbers.serial,
            refresh: numbers.refresh,
            retry: numbers.retry,
            expire: numbers.expire,
            minimum: numbers.minimum,
        },
        offset + 20,
    ))
}

/// Appends the data of a start of authority.
#[tactic(auto, unfolding(crate::specs::Written::soa_octets))]
pub(crate) fn push_soa(authority: &SoaRecord, out: &mut Datagram) -> Result<(), TooLong>
    ensures ok { OnOk result (out.new.items ≡ out.old.items ++ soa_octets authority.now) }
    ensures fits { OnOk result (SoaFits authority.now) }
    ensures too_long { OnErr result
        (512 < length out.old.items + length (soa_octets authority.now)) }
{
    push_name(&authority.mname, out)?;
    push_name(&authority.rname, out)?;
    push_u32(authority.serial, out)?;
    push_u32(authority.refresh, out)?;
    push_u32(authority.retry, out)?;
    push_u32(authority.expire, out)?;
    push_u32(authority.minimum, out)
}
