//! The authority section of a negative reply (RFC 2308 3).
ghost use Rattle.std.specs.Prelude.{◌≡◌, ◌==◌, ◌∷◌, [], IfOk, MatchOption};
ghost use Rattle.std.specs.List.{find};
ghost use Rattle.std.specs.Option.{option_map};
ghost use Rattle.dns_zone.specs.Authorities.{nearest_start};
ghost use Rattle.dns_zone.specs.Replies as spec;
ghost use Rattle.dns_zone.specs.Views.{entry_value, says};
ghost use Rattle.dns_zone.specs.Zones as zones;

use crate::zone::{Zone, ZoneEntry};
use dns_message::Record;
use dns_name::Name;
use std::alloc::{AllocError, Global};

/// TYPE of the start of a zone of authority (RFC 1035 3.2.2).
const TYPE_SOA: u16 = 6;

/// The first of these of a type.
fn first_of(entries: &[ZoneEntry], type_number: u16) -> Option<&ZoneEntry>
    ensures { option_map entry_value result ≡ find (says type_number) entries.now }
{
    for entry in entries {
        if entry.rdata.type_number() == type_number {
            return Some(entry);
        }
    }
    None
}

/// What an owner has, as a record.
fn record_of(owner: Name, entry: &ZoneEntry) -> Result<Record, AllocError>
    ensures { IfOk result (λ record'. record' ≡ zones.record_of owner entry.now) }
{
    Ok(Record {
        ttl: entry.ttl,
        rdata: entry.rdata.try_clone()?,
        owner,
    })
}

/// The first SOA record of a name, or else of the nearest name above it that has one.
fn nearest_start(zone: &Zone, name: &Name) -> Result<Option<Record>, AllocError>
    ensures { IfOk result (λ start. MatchOption start (nearest_start zone.now name.now ≡ [])
        (λ start. nearest_start zone.now name.now ≡ start ∷ [])) }
{
    let mut owner = name.try_clone()?;
    loop {
        if let Some(entry) = first_of(zone.entries_at(&owner), TYPE_SOA) {
            return Ok(Some(record_of(owner, entry)?));
        }
        let Some(parent) = owner.parent()? else {
            return Ok(None);
        };
        owner = parent;
    }
}

/// About a name without records of a type, the SOA record of the zone that it is in.
pub(crate) fn authority_at(
    zone: &Zone,
    alloc: Global,
    name: &Name,
    type_number: u16,
) -> Result<Vec<Record>, AllocError>
    ensures { IfOk result (λ records. records.items
        ≡ spec.authority_at zone.now name.now type_number) }
{
    if first_of(zone.entries_at(name), type_number).is_some() {
        return Ok(Vec::new(alloc));
    }
    let mut records = Vec::new(alloc);
    if let Some(start) = nearest_start(zone, name)? {
        records.push(start)?;
    }
    Ok(records)
}
