//! Aliases, followed inside a section (RFC 1034 3.6.2, 5.2.2).
ghost use Rattle.std.specs.Prelude.{◌≡◌, List, length, Some, None, MatchOption, min};
ghost use Rattle.std.specs.Option.{option_map};
ghost use Rattle.dns_message.specs.declared.resource.Record as resource;
ghost use Rattle.dns_answers.specs.Chains as spec;
ghost use Rattle.dns_answers.specs.Lives as lives;
ghost use Rattle.dns_answers.specs.Lives.{least_from, ttls};
ghost use Rattle.dns_answers.specs.Views.{cname_value};

use crate::answer::LIFE_LIMIT;
use dns_message::{Rdata, Record};
use dns_name::Name;

/// The most links that are followed.
const LINK_LIMIT: usize = 8;

/// A CNAME record, and the canonical name that it gives its owner.
#[derive(Clone, Copy)]
struct CnameRecord<'a> {
    entry: &'a Record,
    target: &'a Name,
}

/// Where a chain of aliases ends, how many these are, and the life of their records together.
#[derive(Clone, Copy)]
pub(crate) struct ChainEnd<'a> {
    pub(crate) name: &'a Name,
    pub(crate) links: usize,
    pub(crate) life: u32,
}

/// For how long a record of this TTL may be kept: not at all where its highest bit is set (RFC 2181
/// 8).
fn effective_ttl(ttl: u32) -> u32
    ensures { result ≡ lives.effective_ttl ttl }
{
    if ttl <= LIFE_LIMIT { ttl } else { 0 }
}

/// The life of records of this life together with one of this TTL (of one set: RFC 2181 5.2).
pub(crate) fn life_with(life: u32, ttl: u32) -> u32
    ensures { result ≡ min life (lives.effective_ttl ttl) }
{
    life.min(effective_ttl(ttl))
}

/// The alias of this name that a record is, if it is one.
fn cname_of<'a>(name: &Name, entry: &'a Record) -> Option<CnameRecord<'a>>
    ensures { option_map cname_value result ≡ spec.cname_of name.now entry.now }
{
    match &entry.rdata {
        Rdata::Cname(target) if entry.owner == *name => Some(CnameRecord { entry, target }),
        _ => None,
    }
}

/// The first alias of this name in a section.
fn first_cname<'a>(name: &Name, section: &'a [Record]) -> Option<CnameRecord<'a>>
    ensures { option_map cname_value result ≡ spec.first_cname name.now section.now }
{
    for entry in section {
        if let Some(cname) = cname_of(name, entry) {
            return Some(cname);
        }
    }
    None
}

/// The end of the chain from a name, unless it has more than eight links.
pub(crate) fn chain_end<'a>(section: &'a [Record], start: &'a Name) -> Option<ChainEnd<'a>>
    ensures { MatchOption result (spec.chain section.now start.now ≡ None)
        (λ end. (links : List resource.Record)
        × (spec.chain section.now start.now ≡ Some (record { links = links; last = end.name.now }))
        × (end.life ≡ least_from 2147483647 (ttls links))
        × (end.links ≡ length links)) }
{
    let mut name = start;
    let mut life = LIFE_LIMIT;
    for links in 0..=LINK_LIMIT {
        match first_cname(name, section) {
            None => return Some(ChainEnd { name, links, life }),
            Some(cname) => {
                name = cname.target;
                life = life_with(life, cname.entry.ttl);
            }
        }
    }
    None
}
