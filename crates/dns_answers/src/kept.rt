//! The records of an answer, kept as they stand in a section.
ghost use Rattle.std.specs.Prelude.{◌≡◌, [], ◌∷◌, ◌++◌, Option, IfOk, OnOk};
ghost use Rattle.std.specs.Option.{option_copied};
ghost use Rattle.dns_message.specs.declared.rdata.Rdata as rdata;
ghost use Rattle.dns_answers.specs.Kept as spec;
ghost use Rattle.dns_answers.specs.Lives.{least_from, ttls};

use crate::answer::RECORD_LIMIT;
use crate::chain::life_with;
use crate::records::Records;
use dns_message::{Kind, NaptrRecord, Rdata, Record, Section, SrvRecord};
use dns_name::Name;
use std::alloc::{AllocError, Global};

/// The data that a kind of question asks for.
trait Wanted: Drop + Sized {
    ghost data_in: { rdata.Rdata → Option Self };

    /// The data of this kind that a record has.
    fn in_rdata(rdata: &Rdata) -> Option<&Self>
        ensures { option_copied result ≡ data_in rdata.now };

    /// Adds a copy to a list, behind the others.
    fn copy_into(&self, items: &mut Vec<Self>) -> Result<(), AllocError>
        ensures { OnOk result (items.new.items ≡ items.old.items ++ self.now ∷ []) };
}

impl Wanted for [u8; 4] {
    ghost data_in = { spec.address4_in };

    fn in_rdata(rdata: &Rdata) -> Option<&[u8; 4]> {
        match rdata {
            Rdata::Addr4(address) => Some(address),
            _ => None,
        }
    }

    fn copy_into(&self, items: &mut Vec<[u8; 4]>) -> Result<(), AllocError> {
        Ok(items.push(*self)?)
    }
}

impl Wanted for [u8; 16] {
    ghost data_in = { spec.address6_in };

    fn in_rdata(rdata: &Rdata) -> Option<&[u8; 16]> {
        match rdata {
            Rdata::Addr6(address) => Some(address),
            _ => None,
        }
    }

    fn copy_into(&self, items: &mut Vec<[u8; 16]>) -> Result<(), AllocError> {
        Ok(items.push(*self)?)
    }
}

impl Wanted for SrvRecord {
    ghost data_in = { spec.server_in };

    fn in_rdata(rdata: &Rdata) -> Option<&SrvRecord> {
        match rdata {
            Rdata::Srv(server) => Some(server),
            _ => None,
        }
    }

    // It is made a copy where it lies in the list, so that no record is moved.
    fn copy_into(&self, items: &mut Vec<SrvRecord>) -> Result<(), AllocError> {
        items.push(SrvRecord::unread(*items.allocator()))?;
        match items.as_mut_slice().last_mut() {
            Some(place) => place.copy_from(self),
            None => Ok(()),
        }
    }
}

impl Wanted for NaptrRecord {
    ghost data_in = { spec.rule_in };

    fn in_rdata(rdata: &Rdata) -> Option<&NaptrRecord> {
        match rdata {
            Rdata::Naptr(rule) => Some(rule),
            _ => None,
        }
    }

    fn copy_into(&self, items: &mut Vec<NaptrRecord>) -> Result<(), AllocError> {
        Ok(items.push(self.try_clone()?)?)
    }
}

/// The data that a record has for a name.
fn data_for<'a, T: Wanted>(name: &Name, entry: &'a Record) -> Option<&'a T>
    ensures { option_copied result ≡ spec.data_for T.data_in name.now entry.now }
{
    let data = T::in_rdata(&entry.rdata)?;
    if entry.owner == *name {
        Some(data)
    } else {
        None
    }
}

/// Adds a copy of such data. Where it is the first, memory is taken for so many at once.
fn push_copy<T: Wanted>(items: &mut Vec<T>, item: &T, room: usize) -> Result<(), AllocError>
    ensures { OnOk result (items.new.items ≡ items.old.items ++ item.now ∷ []) }
{
    if items.is_empty() {
        items.reserve_exact(room)?;
    }
    item.copy_into(items)
}

/// The first 32 records of a section that have such data for a name: their data, and the life of
/// records that last so long together with these.
fn kept<T: Wanted>(
    alloc: Global,
    section: &[Record],
    name: &Name,
    limit: u32,
) -> Result<(Vec<T>, u32), AllocError>
    ensures { IfOk result (λ found.
        (found.0.items ≡ spec.data_of T.data_in (spec.kept_with T.data_in name.now section.now))
        × (found.1 ≡ least_from limit (ttls (spec.kept_with T.data_in name.now section.now)))) }
{
    let room = section.len().min(RECORD_LIMIT);
    let mut items = Vec::new(alloc);
    let mut life = limit;
    for entry in section {
        if items.len() == RECORD_LIMIT {
            return Ok((items, life));
        }
        if let Some(data) = data_for::<T>(name, entry) {
            push_copy(&mut items, data, room)?;
            life = life_with(life, entry.ttl);
        }
    }
    Ok((items, life))
}

/// The records of a kind that a section has for a name, the first 32, and the life of records that
/// last so long together with these.
pub(crate) fn records_for(
    alloc: Global,
    kind: Kind,
    section: &[Record],
    name: &Name,
    life: u32,
) -> Result<(Records, u32), AllocError>
    ensures { IfOk result
        (λ found. (found.0 ≡ spec.records_of kind (spec.kept kind name.now section.now))
        × (found.1 ≡ least_from life (ttls (spec.kept kind name.now section.now)))) }
{
    match kind {
        Kind::A => {
            let (addresses, life) = kept::<[u8; 4]>(alloc, section, name, life)?;
            Ok((Records::V4(Section::from_vec(addresses)), life))
        }
        Kind::Aaaa => {
            let (addresses, life) = kept::<[u8; 16]>(alloc, section, name, life)?;
            Ok((Records::V6(Section::from_vec(addresses)), life))
        }
        Kind::Srv => {
            let (servers, life) = kept::<SrvRecord>(alloc, section, name, life)?;
            Ok((Records::Srv(Section::from_vec(servers)), life))
        }
        Kind::Naptr => {
            let (rules, life) = kept::<NaptrRecord>(alloc, section, name, life)?;
            Ok((Records::Naptr(Section::from_vec(rules)), life))
        }
    }
}

/// No records of a kind.
pub(crate) fn no_records(alloc: Global, kind: Kind) -> Records
    ensures { result ≡ spec.records_of kind [] }
{
    match kind {
        Kind::A => Records::V4(Section::from_vec(Vec::new(alloc))),
        Kind::Aaaa => Records::V6(Section::from_vec(Vec::new(alloc))),
        Kind::Srv => Records::Srv(Section::from_vec(Vec::new(alloc))),
        Kind::Naptr => Records::Naptr(Section::from_vec(Vec::new(alloc))),
    }
}
