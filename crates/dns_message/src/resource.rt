//! Resource records (RFC 1035 4.1.3).
ghost use Rattle.std.specs.Prelude.{◌≡◌, ◌+◌, ◌<◌, ◌≤◌, ℕ, List, length, IfOk, MatchOption, ◌++◌, OnOk, OnErr};
ghost use Rattle.dns_message.specs.Records.{FixedAt, RecordAt};
ghost use Rattle.dns_message.specs.Written.{two_octets, rdata_octets, record_octets};
ghost use Rattle.dns_message.specs.Fits.{RdataFits, RecordFits};
ghost use Rattle.std.specs.List.{flat_map, AllByRecursion};

use crate::datagram::{Datagram, TooLong, set_u16};
use crate::entry::Entry;
use crate::name::push_name;
use crate::number::{push_u16, push_u32, u16_at, u32_at};
use crate::owner::{AskedName, read_owner};
use crate::rdata::{Rdata, push_rdata, read_rdata};
use crate::refusal::EntryRefusal;
use dns_name::{Landings, Name, law_name_rests_before_its_end, law_one_name_at_an_offset};
use std::alloc::{AllocError, Global};

/// A resource record.
#[derive(Debug, Drop)]
pub struct Record {
    /// NAME: the name that it is about.
    pub owner: Name,
    /// TTL: for how many seconds it may be kept, as it was read.
    pub ttl: u32,
    /// TYPE, CLASS and RDATA: what it says.
    pub rdata: Rdata,
}

impl Record {
    /// A copy of the record.
    pub fn try_clone(&self) -> Result<Record, AllocError>
        ensures { IfOk result (λ copy. copy ≡ self.now) }
    {
        Ok(Record {
            owner: self.owner.try_clone()?,
            ttl: self.ttl,
            rdata: self.rdata.try_clone()?,
        })
    }
}

/// The numbers between the owner and the data of a record.
#[derive(Clone, Copy)]
struct Fixed {
    type_number: u16,
    class_number: u16,
    ttl: u32,
    size: u16,
}

/// These numbers, in ten octets at an offset.
fn fixed_at(bytes: &[u8], offset: usize) -> Option<Fixed>
    requires { offset ≤ length bytes.now }
    ensures { MatchOption result (length bytes.now < offset + 10)
        (λ fixed. FixedAt bytes.now offset fixed.type_number fixed.class_number fixed.ttl
        fixed.size) }
{
    let octets = bytes.get(offset..offset + 10)?;
    Some(Fixed {
        type_number: u16_at(octets, 0)?,
        class_number: u16_at(octets, 2)?,
        ttl: u32_at(octets, 4)?,
        size: u16_at(octets, 8)?,
    })
}

impl Entry for Record {
    ghost stands = { RecordAt };

    ghost named = { λ message offset end entry there. (entry.owner, there.after, there.owner) };

    fn unread(alloc: Global) -> Record {
        Record {
            owner: Name::root(alloc),
            ttl: 0,
            rdata: Rdata::Addr4([0; 4]),
        }
    }

    fn read_over(
        &mut self,
        alloc: Global,
        bytes: &[u8],
        landings: &Landings,
        offset: usize,
        asked: Option<&AskedName<'_>>,
    ) -> Result<usize, EntryRefusal> {
        law_name_rests_before_its_end();
        law_one_name_at_an_offset();
        let offset = read_owner(alloc, bytes, landings, offset, asked, &mut self.owner)?;
        let fixed = fixed_at(bytes, offset).ok_or(EntryRefusal::Malformed)?;
        self.ttl = fixed.ttl;
        let start = offset + 10;
        let end = start + usize::from(fixed.size);
        read_rdata(
            alloc,
            bytes,
            landings,
            start,
            end,
            fixed.type_number,
            fixed.class_number,
            &mut self.rdata,
        )?;
        Ok(end)
    }
}

/// Appends RDLENGTH and RDATA: the length is set when the data stands.
#[tactic(auto, using(crate::proofs::WrittenOctets::room))]
fn push_data(rdata: &Rdata, out: &mut Datagram) -> Result<(), TooLong>
    ensures ok { OnOk result (out.new.items
        ≡ out.old.items ++ two_octets (length (rdata_octets rdata.now)) ++ rdata_octets rdata.now) }
    ensures fits { OnOk result (RdataFits rdata.now) }
    ensures too_long { OnErr result (512 < length out.old.items
        + length (two_octets (length (rdata_octets rdata.now))) + length (rdata_octets rdata.now)) }
{
    let offset = out.len();
    push_u16(0, out)?;
    push_rdata(rdata, out)?;
    let size = out.len() - offset - 2;
    set_u16(size as u16, offset, out);
    Ok(())
}

/// Appends a record.
#[tactic(auto, unfolding(crate::specs::Written::record_octets))]
fn push_record(entry: &Record, out: &mut Datagram) -> Result<(), TooLong>
    ensures ok { OnOk result (out.new.items ≡ out.old.items ++ record_octets entry.now) }
    ensures fits { OnOk result (RecordFits entry.now) }
    ensures too_long { OnErr result
        (512 < length out.old.items + length (record_octets entry.now)) }
{
    push_name(&entry.owner, out)?;
    push_u16(entry.rdata.type_number(), out)?;
    push_u16(entry.rdata.class_number(), out)?;
    push_u32(entry.ttl, out)?;
    push_data(&entry.rdata, out)
}

/// Appends records.
pub(crate) fn push_records(records: &[Record], out: &mut Datagram) -> Result<(), TooLong>
    ensures ok { OnOk result (out.new.items ≡ out.old.items ++ flat_map record_octets records.now) }
    ensures fits { OnOk result (AllByRecursion RecordFits records.now) }
    ensures too_long { OnErr result
        (512 < length out.old.items + length (flat_map record_octets records.now)) }
{
    for entry in records {
        push_record(entry, out)?;
    }
    Ok(())
}
