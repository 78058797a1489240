//! The data of records (RFC 1035 3.2.1, 3.3, 3.4).
ghost use Rattle.std.specs.Prelude.{◌≡◌, ◌≢◌, ◌+◌, ◌<◌, ◌≤◌, List, ℕ, length, IfOk, MatchResult, ◌++◌, OnOk, OnErr};
ghost use Rattle.dns_name.specs.Landings.{AreLandings};
ghost use Rattle.dns_name.specs.Offsets.{NameAt};
ghost use Rattle.dns_message.specs.Layouts.{SrvAt, NaptrAt, SoaAt, RdataAt};
ghost use Rattle.dns_message.specs.Written.{type_of_rdata, rdata_class, rdata_octets};
ghost use Rattle.dns_message.specs.Fits.{RdataFits};
ghost use Rattle.dns_message.specs.Data.{CanBeOther};
ghost use Rattle.dns_message.specs.Data as spec;
ghost use Rattle.dns_message.specs.declared.rdata.Rdata as declared;
ghost use Rattle.dns_message.specs.declared.rdata.Rdata.TheVariants as variant;
ghost use Rattle.dns_message.specs.declared.naptr.NaptrRecord as naptr;
ghost use Rattle.dns_message.specs.declared.soa.SoaRecord as soa;
ghost use Rattle.dns_message.specs.declared.srv.SrvRecord as srv;

use crate::codes::{CLASS_IN, TYPE_A, TYPE_AAAA, TYPE_CNAME, TYPE_NAPTR, TYPE_SOA, TYPE_SRV};
use crate::datagram::{Datagram, TooLong, push_octets};
use crate::name::push_name;
use crate::naptr::{NaptrRecord, push_naptr, read_naptr};
use crate::other_data::OtherData;
use crate::refusal::EntryRefusal;
use crate::soa::{SoaRecord, push_soa, soa_at};
use crate::srv::{SrvRecord, push_srv, read_srv};
use dns_name::{Landings, Name, law_name_rests_before_its_end, read_name_into_by};
use std::alloc::{AllocError, Global};

/// The data of a record.
#[derive(Debug, Drop)]
pub enum Rdata {
    /// An address of IPv4, of type A in class IN (RFC 1035 3.4.1).
    Addr4([u8; 4]),
    /// An address of IPv6, of type AAAA in class IN (RFC 3596 2.2).
    Addr6([u8; 16]),
    /// A server of a service, of type SRV in class IN (RFC 2782).
    Srv(SrvRecord),
    /// A rule that leads to a service, of type NAPTR in class IN (RFC 3403 4.1).
    Naptr(NaptrRecord),
    /// The canonical name of an alias, of type CNAME in class IN (RFC 1035 3.3.1).
    Cname(Name),
    /// The start of a zone of authority, of type SOA in class IN (RFC 1035 3.3.13).
    Soa(SoaRecord),
    /// The data of any other type or class, as its octets.
    Other(OtherData),
}

impl Rdata {
    /// The number of the type of the data (RFC 1035 3.2.2, 3596 2.1, 2782, 3403 4.1).
    pub fn type_number(&self) -> u16
        ensures { result ≡ type_of_rdata self.now }
    {
        match self {
            Rdata::Addr4(_) => TYPE_A,
            Rdata::Addr6(_) => TYPE_AAAA,
            Rdata::Srv(_) => TYPE_SRV,
            Rdata::Naptr(_) => TYPE_NAPTR,
            Rdata::Cname(_) => TYPE_CNAME,
            Rdata::Soa(_) => TYPE_SOA,
            Rdata::Other(other) => other.type_number(),
        }
    }

    /// The number of the class of the data (RFC 1035 3.2.4).
    pub fn class_number(&self) -> u16
        ensures { result ≡ rdata_class self.now }
    {
        match self {
            Rdata::Other(other) => other.class_number(),
            _ => CLASS_IN,
        }
    }

    /// A copy of the data.
    pub fn try_clone(&self) -> Result<Rdata, AllocError>
        ensures { IfOk result (λ copy. copy ≡ self.now) }
    {
        match self {
            Rdata::Addr4(octets) => Ok(Rdata::Addr4(*octets)),
            Rdata::Addr6(octets) => Ok(Rdata::Addr6(*octets)),
            Rdata::Srv(server) => Ok(Rdata::Srv(server.try_clone()?)),
            Rdata::Naptr(rule) => Ok(Rdata::Naptr(rule.try_clone()?)),
            Rdata::Cname(name) => Ok(Rdata::Cname(name.try_clone()?)),
            Rdata::Soa(authority) => Ok(Rdata::Soa(authority.try_clone()?)),
            Rdata::Other(other) => Ok(Rdata::Other(other.try_clone()?)),
        }
    }
}

/// How data is laid out.
#[derive(Clone, Copy)]
pub(crate) enum DataFormat {
    A,
    Aaaa,
    Srv,
    Naptr,
    Cname,
    Soa,
    Other,
}

/// How the data of a type is laid out in class IN.
fn internet_format(type_number: u16) -> DataFormat
    ensures { result ≡ spec.internet_format type_number }
{
    match type_number {
        TYPE_A => DataFormat::A,
        TYPE_CNAME => DataFormat::Cname,
        TYPE_SOA => DataFormat::Soa,
        TYPE_AAAA => DataFormat::Aaaa,
        TYPE_SRV => DataFormat::Srv,
        TYPE_NAPTR => DataFormat::Naptr,
        _ => DataFormat::Other,
    }
}

/// How the data of a type and class is laid out.
pub(crate) fn data_format(type_number: u16, class_number: u16) -> DataFormat
    ensures { result ≡ spec.data_format type_number class_number }
{
    if class_number == CLASS_IN {
        internet_format(type_number)
    } else {
        DataFormat::Other
    }
}

/// An address that is these octets.
fn address_of<const N: usize>(octets: &[u8]) -> Result<[u8; N], EntryRefusal>
    ensures { MatchResult result (λ address. (address ≡ octets.now) × (length octets.now ≡ N))
        (λ refusal. (refusal ≡ EntryRefusal.Malformed) × (length octets.now ≢ N)) }
{
    match <[u8; N]>::try_from(octets) {
        Ok(address) => Ok(address),
        Err(_) => Err(EntryRefusal::Malformed),
    }
}

/// What was read, if it ends where the data does.
fn ending_at<T: Drop>(found: (T, usize), end: usize) -> Result<T, EntryRefusal>
    ensures { MatchResult result (λ value. (value ≡ found.0) × (found.1 ≡ end))
        (λ refusal. (refusal ≡ EntryRefusal.Malformed) × (found.1 ≢ end)) }
{
    if found.1 == end {
        Ok(found.0)
    } else {
        Err(EntryRefusal::Malformed)
    }
}

/// Refuses data that ends elsewhere than at this offset.
fn check_end(found: usize, end: usize) -> Result<(), EntryRefusal>
    ensures { MatchResult result (λ _. found ≡ end)
        (λ refusal. (refusal ≡ EntryRefusal.Malformed) × (found ≢ end)) }
{
    if found == end {
        Ok(())
    } else {
        Err(EntryRefusal::Malformed)
    }
}

/// Puts data in the place of other data. Where an address of IPv4 was there, as in a record that is
/// still to be read, there is nothing to let go of.
#[inline(always)]
fn replace_data(rdata: &mut Rdata, newer: Rdata)
    ensures { rdata.new ≡ newer }
{
    if let Rdata::Addr4(_) = rdata {
        *rdata = newer;
    } else {
        *rdata = newer;
    }
}

/// Reads the data of a server between two offsets over other data.
fn read_server(
    alloc: Global,
    bytes: &[u8],
    landings: &Landings,
    offset: usize,
    end: usize,
    rdata: &mut Rdata,
) -> Result<(), EntryRefusal>
    requires within { offset ≤ length bytes.now }
    requires known { AreLandings bytes.now landings.now }
    ensures found { OnOk result ((server : srv.SrvRecord) × (rdata.new ≡ variant.Srv server)
        × SrvAt bytes.now offset server end) }
    ensures read { (server : srv.SrvRecord) → SrvAt bytes.now offset server end
        → MatchResult result (λ _. rdata.new ≡ variant.Srv server)
        (λ refusal. refusal ≡ EntryRefusal.Memory) }
{
    // As `replace_data`, in its place, so that no data is moved.
    if let Rdata::Addr4(_) = rdata {
        *rdata = Rdata::Srv(SrvRecord::unread(alloc));
    } else {
        *rdata = Rdata::Srv(SrvRecord::unread(alloc));
    }
    let Rdata::Srv(server) = rdata else {
        return Err(EntryRefusal::Malformed);
    };
    let found = read_srv(alloc, bytes, landings, offset, server)?;
    check_end(found, end)
}

/// Reads the data of a rule between two offsets over other data.
fn read_rule(
    alloc: Global,
    bytes: &[u8],
    landings: &Landings,
    offset: usize,
    end: usize,
    rdata: &mut Rdata,
) -> Result<(), EntryRefusal>
    requires within { offset ≤ length bytes.now }
    requires known { AreLandings bytes.now landings.now }
    ensures found { OnOk result ((rule : naptr.NaptrRecord) × (rdata.new ≡ variant.Naptr rule)
        × NaptrAt bytes.now offset rule end) }
    ensures read { (rule : naptr.NaptrRecord) → NaptrAt bytes.now offset rule end
        → MatchResult result (λ _. rdata.new ≡ variant.Naptr rule)
        (λ refusal. refusal ≡ EntryRefusal.Memory) }
{
    replace_data(rdata, Rdata::Naptr(NaptrRecord::unread(alloc)));
    let Rdata::Naptr(rule) = rdata else {
        return Err(EntryRefusal::Malformed);
    };
    let found = read_naptr(alloc, bytes, landings, offset, rule)?;
    check_end(found, end)
}

/// Reads the canonical name of an alias between two offsets over other data.
fn read_alias(
    alloc: Global,
    bytes: &[u8],
    landings: &Landings,
    offset: usize,
    end: usize,
    rdata: &mut Rdata,
) -> Result<(), EntryRefusal>
    requires { AreLandings bytes.now landings.now }
    ensures found { OnOk result ((name : List (List ℕ)) × (rdata.new ≡ variant.Cname name)
        × NameAt bytes.now offset offset name end) }
    ensures read { (name : List (List ℕ)) → NameAt bytes.now offset offset name end
        → MatchResult result (λ _. rdata.new ≡ variant.Cname name)
        (λ refusal. refusal ≡ EntryRefusal.Memory) }
{
    replace_data(rdata, Rdata::Cname(Name::root(alloc)));
    let Rdata::Cname(name) = rdata else {
        return Err(EntryRefusal::Malformed);
    };
    let found = read_name_into_by(alloc, bytes, landings, offset, name)?;
    check_end(found, end)
}

/// Reads an address of IPv4, which has these octets, over other data.
fn read_addr4(octets: &[u8], rdata: &mut Rdata) -> Result<(), EntryRefusal>
    ensures { MatchResult result
        (λ _. (rdata.new ≡ variant.Addr4 octets.now) × (length octets.now ≡ 4))
        (λ _. length octets.now ≢ 4) }
{
    let address = address_of(octets)?;
    if let Rdata::Addr4(place) = rdata {
        *place = address;
    } else {
        *rdata = Rdata::Addr4(address);
    }
    Ok(())
}

/// Reads an address of IPv6, which has these octets, over other data.
fn read_addr6(octets: &[u8], rdata: &mut Rdata) -> Result<(), EntryRefusal>
    ensures { MatchResult result
        (λ _. (rdata.new ≡ variant.Addr6 octets.now) × (length octets.now ≡ 16))
        (λ _. length octets.now ≢ 16) }
{
    let address = address_of(octets)?;
    // As `replace_data`, in its place, so that no data is moved.
    if let Rdata::Addr4(_) = rdata {
        *rdata = Rdata::Addr6(address);
    } else {
        *rdata = Rdata::Addr6(address);
    }
    Ok(())
}

/// Reads the start of a zone of authority between two offsets over other data.
fn read_authority(
    alloc: Global,
    bytes: &[u8],
    landings: &Landings,
    offset: usize,
    end: usize,
    rdata: &mut Rdata,
) -> Result<(), EntryRefusal>
    requires { AreLandings bytes.now landings.now }
    ensures found { OnOk result ((authority : soa.SoaRecord)
        × (rdata.new ≡ variant.Soa authority) × SoaAt bytes.now offset authority end) }
    ensures read { (authority : soa.SoaRecord) → SoaAt bytes.now offset authority end
        → MatchResult result (λ _. rdata.new ≡ variant.Soa authority)
        (λ refusal. refusal ≡ EntryRefusal.Memory) }
{
    let authority = ending_at(soa_at(alloc, bytes, landings, offset)?, end)?;
    replace_data(rdata, Rdata::Soa(authority));
    Ok(())
}

/// Reads data of a type and class that has no layout of its own, which are these octets, over
/// other data.
fn read_other(
    alloc: Global,
    octets: &[u8],
    type_number: u16,
    class_number: u16,
    rdata: &mut Rdata,
) -> Result<(), EntryRefusal>
    ensures { MatchResult result
        (λ _. (rdata.new ≡ variant.Other (record {
          type_number = type_number;
          class_number = class_number;
          octets =
              octets.now;
        })) × (length octets.now ≤ 65535))
        (λ refusal. CanBeOther type_number class_number octets.now
        → refusal ≡ EntryRefusal.Memory) }
{
    let octets = Vec::from_slice(alloc, octets)?;
    let Some(other) = OtherData::new(type_number, class_number, octets) else {
        return Err(EntryRefusal::Malformed);
    };
    replace_data(rdata, Rdata::Other(other));
    Ok(())
}

/// Reads the data of a type and class between two offsets over other data.
pub(crate) fn read_rdata(
    alloc: Global,
    bytes: &[u8],
    landings: &Landings,
    offset: usize,
    end: usize,
    type_number: u16,
    class_number: u16,
    rdata: &mut Rdata,
) -> Result<(), EntryRefusal>
    requires { AreLandings bytes.now landings.now }
    ensures found { OnOk result (RdataAt bytes.now offset type_number class_number rdata.new end) }
    ensures read { (data' : declared.Rdata)
        → RdataAt bytes.now offset type_number class_number data' end
        → MatchResult result (λ _. rdata.new ≡ data')
        (λ refusal. refusal ≡ EntryRefusal.Memory) }
{
    law_name_rests_before_its_end();
    let octets = bytes.get(offset..end).ok_or(EntryRefusal::Malformed)?;
    match data_format(type_number, class_number) {
        DataFormat::A => read_addr4(octets, rdata),
        DataFormat::Aaaa => read_addr6(octets, rdata),
        DataFormat::Srv => read_server(alloc, bytes, landings, offset, end, rdata),
        DataFormat::Naptr => read_rule(alloc, bytes, landings, offset, end, rdata),
        DataFormat::Cname => read_alias(alloc, bytes, landings, offset, end, rdata),
        DataFormat::Soa => read_authority(alloc, bytes, landings, offset, end, rdata),
        DataFormat::Other => read_other(alloc, octets, type_number, class_number, rdata),
    }
}

/// Appends data.
pub(crate) fn push_rdata(rdata: &Rdata, out: &mut Datagram) -> Result<(), TooLong>
    ensures ok { OnOk result (out.new.items ≡ out.old.items ++ rdata_octets rdata.now) }
    ensures fits { OnOk result (RdataFits rdata.now) }
    ensures too_long { OnErr result (512 < length out.old.items + length (rdata_octets rdata.now)) }
{
    match rdata {
        Rdata::Addr4(octets) => push_octets(octets, out),
        Rdata::Addr6(octets) => push_octets(octets, out),
        Rdata::Srv(server) => push_srv(server, out),
        Rdata::Naptr(rule) => push_naptr(rule, out),
        Rdata::Cname(name) => push_name(name, out),
        Rdata::Soa(authority) => push_soa(authority, out),
        Rdata::Other(other) => push_octets(other.octets(), out),
    }
}
