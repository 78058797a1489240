//! The records of a zone, by their owners (RFC 1034 3.6).
ghost use Rattle.std.specs.Prelude.{◌≡◌, ◌++◌, ◌∷◌, [], ℕ, List, OnOk, if◌then◌else◌};
ghost use Rattle.std.specs.Option.{option_map};
ghost use Rattle.dns_name.specs.Labels.{same_name};
ghost use Rattle.dns_zone.specs.Zones as spec;
ghost use Rattle.dns_zone.specs.Zones.{entries_at};
ghost use Rattle.dns_zone.specs.Views.{cname_value};

use dns_message::Rdata;
use dns_name::{Name, law_same_names_are_equal};
use indexmap::IndexMap;
use std::alloc::{AllocError, Global};
use std::marker::Model;

/// What a record of a zone says of its owner, in class IN.
#[derive(Debug, Drop)]
pub struct ZoneEntry {
    /// TTL: for how many seconds it may be kept.
    pub ttl: u32,
    /// TYPE and RDATA: what it says.
    pub rdata: Rdata,
}

/// The records of a small DNS server: for each owner what its records say, in the order of the
/// zone.
#[derive(Drop)]
pub struct Zone {
    owners: IndexMap<Name, Vec<ZoneEntry>>,
}

impl Model for Zone {
    ghost use Rattle.std.specs.Prelude.{List, map};
    ghost use Rattle.dns_zone.specs.Zones.{Owned};
    ghost use Rattle.dns_zone.specs.Views.{owned_of};

    ghost Value = { List Owned };

    ghost view = { λ zone. map owned_of zone.owners.entries };
}

/// A CNAME of a zone: its TTL, and the canonical name.
#[derive(Clone, Copy)]
pub(crate) struct CnameRecord<'a> {
    pub(crate) ttl: u32,
    pub(crate) target: &'a Name,
}

/// The CNAME that this is, if it is one.
fn cname_in(entry: &ZoneEntry) -> Option<CnameRecord<'_>>
    ensures { option_map cname_value result ≡ spec.cname_in entry.now }
{
    match &entry.rdata {
        Rdata::Cname(target) => Some(CnameRecord {
            ttl: entry.ttl,
            target,
        }),
        _ => None,
    }
}

/// The first CNAME of these.
fn first_cname(entries: &[ZoneEntry]) -> Option<CnameRecord<'_>>
    ensures { option_map cname_value result ≡ spec.first_cname entries.now }
{
    for entry in entries {
        if let Some(cname) = cname_in(entry) {
            return Some(cname);
        }
    }
    None
}

impl Zone {
    /// Without records.
    pub(crate) fn new(alloc: Global) -> Zone
        ensures { result ≡ [] }
    {
        Zone {
            owners: IndexMap::new(alloc),
        }
    }

    /// Adds what a record says of an owner, after its others.
    pub(crate) fn add(
        &mut self,
        alloc: Global,
        owner: Name,
        entry: ZoneEntry,
    ) -> Result<(), AllocError>
        ensures { OnOk result ((name : List (List ℕ)) → entries_at self.new name
            ≡ entries_at self.old name ++ (if same_name owner name then entry ∷ [] else [])) }
    {
        law_same_names_are_equal();
        if let Some(entries) = self.owners.get_mut(&owner) {
            entries.push(entry)?;
            return Ok(());
        }
        let mut entries = Vec::new(alloc);
        entries.push(entry)?;
        self.owners.insert(owner, entries)?;
        Ok(())
    }

    /// What it has for a name, in the order of the zone.
    pub(crate) fn entries_at(&self, name: &Name) -> &[ZoneEntry]
        ensures { result.now ≡ entries_at self.now name.now }
    {
        match self.owners.get(name) {
            Some(entries) => entries.as_slice(),
            None => &[],
        }
    }

    /// The first CNAME of a name.
    pub(crate) fn cname_at(&self, name: &Name) -> Option<CnameRecord<'_>>
        ensures { option_map cname_value result ≡ spec.first_cname (entries_at self.now name.now) }
    {
        first_cname(self.entries_at(name))
    }
}
