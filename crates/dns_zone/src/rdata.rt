//! The data of a zone's line, by its type (RFC 1035 3.4.1, 3.3.1, 3.3.13, RFC 3596 2.1, RFC 2782,
//! RFC 3403 4.1).
ghost use Rattle.std.specs.Prelude.{◌≡◌, List, ℕ, Ok, IfErr, IfOk, MatchResult};
ghost use Rattle.dns_name.specs.Texts.{TextOf};
ghost use Rattle.ip_text.specs.Addresses.{AddressText};
ghost use Rattle.ip_text.specs.declared.address.Address.TheVariants as address;
ghost use Rattle.dns_zone.specs.Lines as spec;
ghost use Rattle.dns_zone.specs.Views.{texts};
ghost use Rattle.dns_message.specs.declared.rdata.Rdata as rdata;
ghost use Rattle.dns_message.specs.declared.srv.SrvRecord as srv;
ghost use Rattle.dns_message.specs.declared.naptr.NaptrRecord as naptr;
ghost use Rattle.dns_message.specs.declared.soa.SoaRecord as soa;

use crate::field::{char_string, number_of_16_bits, number_of_32_bits};
use crate::refusal::LineRefusal;
use dns_message::{NaptrRecord, Rdata, SoaRecord, SrvRecord};
use dns_name::Name;
use ip_text::{Address, address_from_text};
use std::alloc::Global;

/// The address of IPv4 in the one field.
fn ipv4(fields: &[&str]) -> Result<[u8; 4], LineRefusal>
    ensures found { IfOk result
        (λ octets. spec.OneField
        (λ text. AddressText text (address.V4 octets)) (texts fields.now)) }
    ensures read { (octets : List ℕ)
        → spec.OneField (λ text. AddressText text (address.V4 octets)) (texts fields.now)
        → result ≡ Ok octets }
    ensures bad { IfErr result (λ refusal. refusal ≡ LineRefusal.Bad) }
{
    let [text] = fields else {
        return Err(LineRefusal::Bad);
    };
    match address_from_text(text) {
        Some(Address::V4(octets)) => Ok(octets),
        Some(Address::V6(_)) => Err(LineRefusal::Bad),
        None => Err(LineRefusal::Bad),
    }
}

/// The address of IPv6 in the one field.
fn ipv6(fields: &[&str]) -> Result<[u8; 16], LineRefusal>
    ensures found { IfOk result
        (λ octets. spec.OneField
        (λ text. AddressText text (address.V6 octets)) (texts fields.now)) }
    ensures read { (octets : List ℕ)
        → spec.OneField (λ text. AddressText text (address.V6 octets)) (texts fields.now)
        → result ≡ Ok octets }
    ensures bad { IfErr result (λ refusal. refusal ≡ LineRefusal.Bad) }
{
    let [text] = fields else {
        return Err(LineRefusal::Bad);
    };
    match address_from_text(text) {
        Some(Address::V6(octets)) => Ok(octets),
        Some(Address::V4(_)) => Err(LineRefusal::Bad),
        None => Err(LineRefusal::Bad),
    }
}

/// The name in the one field.
fn name(alloc: Global, fields: &[&str]) -> Result<Name, LineRefusal>
    ensures found { IfOk result (λ name. spec.OneField (TextOf name) (texts fields.now)) }
    ensures read { (name : List (List ℕ)) → spec.OneField (TextOf name) (texts fields.now)
        → MatchResult result (λ it. it ≡ name) (λ refusal. refusal ≡ LineRefusal.Memory) }
{
    let [text] = fields else {
        return Err(LineRefusal::Bad);
    };
    Ok(Name::from_text(alloc, text)?)
}

/// The data of an SRV record: priority, weight, port and target.
fn srv(alloc: Global, fields: &[&str]) -> Result<SrvRecord, LineRefusal>
    ensures found { IfOk result (spec.SrvFields (texts fields.now)) }
    ensures read { (server : srv.SrvRecord) → spec.SrvFields (texts fields.now) server
        → MatchResult result (λ it. it ≡ server) (λ refusal. refusal ≡ LineRefusal.Memory) }
{
    let [priority, weight, port, target] = fields else {
        return Err(LineRefusal::Bad);
    };
    Ok(SrvRecord {
        priority: number_of_16_bits(priority)?,
        weight: number_of_16_bits(weight)?,
        port: number_of_16_bits(port)?,
        target: Name::from_text(alloc, target)?,
    })
}

/// The data of a NAPTR record: order, preference, flags, services, regular expression and
/// replacement.
fn naptr(alloc: Global, fields: &[&str]) -> Result<NaptrRecord, LineRefusal>
    ensures found { IfOk result (spec.NaptrFields (texts fields.now)) }
    ensures read { (rule : naptr.NaptrRecord) → spec.NaptrFields (texts fields.now) rule
        → MatchResult result (λ it. it ≡ rule) (λ refusal. refusal ≡ LineRefusal.Memory) }
{
    let [order, preference, flags, services, regexp, replacement] = fields else {
        return Err(LineRefusal::Bad);
    };
    Ok(NaptrRecord {
        order: number_of_16_bits(order)?,
        preference: number_of_16_bits(preference)?,
        flags: char_string(alloc, flags)?,
        services: char_string(alloc, services)?,
        regexp: char_string(alloc, regexp)?,
        replacement: Name::from_text(alloc, replacement)?,
    })
}

/// The data of an SOA record: the server and the mailbox of a zone, serial, refresh, retry, expire
/// and minimum. Memory is asked for after the numbers are read.
fn soa(alloc: Global, fields: &[&str]) -> Result<SoaRecord, LineRefusal>
    ensures found { IfOk result (spec.SoaFields (texts fields.now)) }
    ensures read { (authority : soa.SoaRecord) → spec.SoaFields (texts fields.now) authority
        → MatchResult result (λ it. it ≡ authority) (λ refusal. refusal ≡ LineRefusal.Memory) }
{
    let [mname, rname, serial, refresh, retry, expire, minimum] = fields else {
        return Err(LineRefusal::Bad);
    };
    Ok(SoaRecord {
        serial: number_of_32_bits(serial)?,
        refresh: number_of_32_bits(refresh)?,
        retry: number_of_32_bits(retry)?,
        expire: number_of_32_bits(expire)?,
        minimum: number_of_32_bits(minimum)?,
        mname: Name::from_text(alloc, mname)?,
        rname: Name::from_text(alloc, rname)?,
    })
}

/// The data of a type, from the fields after it.
pub(crate) fn rdata(alloc: Global, kind: &str, fields: &[&str]) -> Result<Rdata, LineRefusal>
    ensures found { IfOk result (spec.DataFields kind.now (texts fields.now)) }
    ensures read { (found : rdata.Rdata) → spec.DataFields kind.now (texts fields.now) found
        → MatchResult result (λ it. it ≡ found) (λ refusal. refusal ≡ LineRefusal.Memory) }
{
    match kind {
        "A" => Ok(Rdata::Addr4(ipv4(fields)?)),
        "AAAA" => Ok(Rdata::Addr6(ipv6(fields)?)),
        "CNAME" => Ok(Rdata::Cname(name(alloc, fields)?)),
        "SRV" => Ok(Rdata::Srv(srv(alloc, fields)?)),
        "NAPTR" => Ok(Rdata::Naptr(naptr(alloc, fields)?)),
        "SOA" => Ok(Rdata::Soa(soa(alloc, fields)?)),
        _ => Err(LineRefusal::Bad),
    }
}
