//! What the caller can do.
ghost use Rattle.std.specs.Prelude.{◌≡◌, ◌↔◌, ◌<◌, ◌≤◌, ◌∷◌, [], Some, false, true, length, take, Decides, IsSome, IfSome};
ghost use Rattle.std.specs.List.{list_any};
ghost use Rattle.sip_uri.specs.Same.{same_transport};
ghost use Rattle.sip_selection.specs.Callers.{AreOffered, are_distinct, held_in, holds, kinds_of, offers, slots_of};
ghost use Rattle.sip_selection.specs.Callers.{IsTooLarge, sized, without_udp};

use dns_message::Kind;
use sip_uri::Transport;
use std::marker::Model;

/// How near to the path's MTU a request may not come over UDP, in octets.
const WITHIN_MTU: usize = 200;

/// The most octets of a request over UDP, where the path's MTU is not known.
const UNKNOWN_MTU_LIMIT: usize = 1_300;

/// The families of addresses that are asked for, in this order.
#[derive(Clone, Copy, Debug, PartialEq, Eq)]
pub enum Families {
    /// IPv4 alone.
    V4,
    /// IPv6 alone.
    V6,
    /// IPv4, then IPv6.
    V4ThenV6,
    /// IPv6, then IPv4.
    V6ThenV4,
}

/// What the caller can do: 1 to 4 distinct transports, in order of preference, and its families of
/// addresses; for any request, or for one that is too large for UDP; and whether it wants records
/// that tie in one fixed order.
#[derive(Clone, Copy, Debug, PartialEq, Eq)]
pub struct Caps {
    slots: [Option<Transport>; 4],
    families: Families,
    is_large: bool,
    is_fixed: bool,
}

impl Model for Caps {
    ghost use Rattle.std.proofs.Common.{ap};
    ghost use Rattle.sip_selection.specs.Callers.{AreSlots, CapsValue, held_in, slots_of};

    ghost Value = { CapsValue };

    ghost view = { λ it. record {
      transports = held_in it.slots;
      families = it.families;
      is_large = it.is_large;
      is_fixed = it.is_fixed;
    } };

    ghost invariant = { λ it. AreSlots it.slots };

    ghost inverse = { λ it. record {
      slots = slots_of it.transports;
      families = it.families;
      is_large = it.is_large;
      is_fixed = it.is_fixed;
    } };

    ghost inverse_ok = { λ it are.
        ap (λ slots. record {
          slots = slots;
          families = it.families;
          is_large = it.is_large;
          is_fixed = it.is_fixed;
        }) are.packed };
}

/// Whether a transport is among these.
fn contains(transports: &[Transport], transport: Transport) -> bool
    ensures { result ≡ list_any (λ other. same_transport other transport) transports.now }
{
    transports.iter().any(|other| *other == transport)
}

/// Whether a slot holds this transport.
fn holds(slot: Option<Transport>, transport: Transport) -> bool
    ensures { result ≡ holds slot transport }
{
    match slot {
        Some(offered) => offered == transport,
        None => false,
    }
}

/// Whether one of these slots holds this transport.
fn is_held(slots: &[Option<Transport>], transport: Transport) -> bool
    ensures { result ≡ list_any (λ slot. holds slot transport) slots.now }
{
    slots.iter().any(|slot| holds(*slot, transport))
}

/// Whether no two of these are the same.
fn are_distinct(transports: &[Transport]) -> bool
    ensures { result ≡ are_distinct transports.now }
{
    match transports {
        [] => true,
        [first, others @ ..] => !contains(others, *first) && are_distinct(others),
    }
}

/// Slots that hold these transports, unless there are none or more than four.
fn slots_of(transports: &[Transport]) -> Option<[Option<Transport>; 4]>
    ensures made { IsSome result
        ↔ ((0 < length transports.now) × (length transports.now ≤ 4)) }
    ensures are { IfSome result (λ slots. slots ≡ slots_of transports.now) }
    ensures hold { IfSome result (λ slots. held_in slots ≡ transports.now) }
{
    match transports {
        [a] => Some([Some(*a), None, None, None]),
        [a, b] => Some([Some(*a), Some(*b), None, None]),
        [a, b, c] => Some([Some(*a), Some(*b), Some(*c), None]),
        [a, b, c, d] => Some([Some(*a), Some(*b), Some(*c), Some(*d)]),
        _ => None,
    }
}

/// Whether a request of so many octets is too large for UDP, over a path of this MTU.
fn is_too_large(octets: usize, mtu: Option<u16>) -> bool
    ensures { Decides result (IsTooLarge octets mtu) }
{
    match mtu {
        Some(mtu) => usize::from(mtu) <= octets.saturating_add(WITHIN_MTU),
        None => octets > UNKNOWN_MTU_LIMIT,
    }
}

/// The transport that a slot holds, unless that is UDP.
fn other_than_udp(slot: Option<Transport>) -> Option<Transport>
    ensures { held_in (result ∷ []) ≡ without_udp (held_in (slot ∷ [])) }
{
    match slot {
        Some(Transport::Udp) => None,
        _ => slot,
    }
}

/// The transports that slots hold without UDP, and how many they are.
fn others_than_udp(slots: &[Option<Transport>]) -> ([Transport; 4], usize)
    requires { length slots.now ≡ 4 }
    ensures four { length result.0 ≡ 4 }
    ensures few { result.1 ≤ 4 }
    ensures are { take result.1 result.0 ≡ without_udp (held_in slots.now) }
{
    let mut others = [Transport::Tcp; 4];
    let mut count = 0;
    'slots: for slot in slots {
        match other_than_udp(*slot) {
            None => {}
            Some(transport) => {
                others[count] = transport;
                count += 1;
            }
        }
    }
    (others, count)
}

impl Caps {
    /// These transports and families, unless there are no transports, more than four, or one of
    /// them twice.
    pub fn new(transports: &[Transport], families: Families) -> Option<Caps>
        ensures made { IsSome result ↔ AreOffered transports.now }
        ensures is { IfSome result (λ caps. caps ≡ record {
          transports = transports.now;
          families = families;
          is_large = false;
          is_fixed = false;
        }) }
    {
        if !are_distinct(transports) {
            return None;
        }
        let slots = slots_of(transports)?;
        Some(Caps {
            slots,
            families,
            is_large: false,
            is_fixed: false,
        })
    }

    /// What the caller can do for a request of so many octets over a path of this MTU, if it is
    /// known (RFC 3261 18.1.1). One that is within 200 octets of the MTU, or larger than 1,300
    /// octets where that is not known, does not go over UDP: it goes over TCP where it would go
    /// over UDP. There is none where the caller has no other transport.
    ///
    /// Where a server has no TCP, such a request is to be tried over UDP after all: that is another
    /// choice, by what the caller can do for any request. A response goes by its Via, whatever its
    /// length.
    pub fn for_length(&self, octets: usize, mtu: Option<u16>) -> Option<Caps>
        ensures small { (IsTooLarge octets mtu → ⊥) → result ≡ Some self.now }
        ensures made { IsTooLarge octets mtu
            → (IsSome result ↔ AreOffered (without_udp self.now.transports)) }
        ensures is { IsTooLarge octets mtu → IfSome result (λ caps. caps ≡ record {
          transports = without_udp self.now.transports;
          families = self.now.families;
          is_large = true;
          is_fixed = self.now.is_fixed;
        }) }
    {
        if !is_too_large(octets, mtu) {
            return Some(*self);
        }
        let (others, count) = others_than_udp(self.slots());
        let caps = Caps::new(&others[..count], self.families)?;
        Some(Caps {
            is_large: true,
            is_fixed: self.is_fixed,
            ..caps
        })
    }

    /// The same, with one fixed order for records that tie, as a stateless proxy needs it (RFC 3263
    /// 4.4): servers of one priority come by weight, the largest first, then by name and port;
    /// services of one order and preference by the octets of their records, and addresses by
    /// theirs. Random words then count for nothing, and neither does the order in which a reply has
    /// its records. It takes memory for copies of NAPTR records.
    pub fn with_fixed_order(self) -> Caps
        ensures { result ≡ record self { is_fixed = true } }
    {
        Caps {
            is_fixed: true,
            ..self
        }
    }

    /// Whether a transport is among the caller's.
    pub fn offers(&self, transport: Transport) -> bool
        ensures { result ≡ offers self.now transport }
    {
        is_held(&self.slots, transport)
    }

    /// The families of addresses.
    pub fn families(&self) -> Families
        ensures { result ≡ self.now.families }
    {
        self.families
    }

    /// The caller has one to four transports, none of them twice. A call does nothing; its contract
    /// states this.
    pub fn law_transports_are_few(&self)
        ensures { AreOffered self.now.transports }
    {
        let _slots = &self.slots;
    }

    /// The transport of a request that means this one: TCP in place of UDP, where it is too large.
    pub(crate) fn sized(&self, transport: Transport) -> Transport
        ensures { result ≡ sized self.now.is_large transport }
    {
        match transport {
            Transport::Udp if self.is_large => Transport::Tcp,
            _ => transport,
        }
    }

    /// Whether records that tie come in one fixed order.
    pub(crate) fn is_fixed(&self) -> bool
        ensures { result ≡ self.now.is_fixed }
    {
        self.is_fixed
    }

    /// The slots of its transports, in order of preference.
    pub(crate) fn slots(&self) -> &[Option<Transport>]
        ensures hold { held_in result.now ≡ self.now.transports }
        ensures four { length result.now ≡ 4 }
    {
        &self.slots
    }
}

/// The kinds of address question, in the order in which they are asked.
pub(crate) fn kinds_of(families: Families) -> &'static [Kind]
    ensures { result.now ≡ kinds_of families }
{
    match families {
        Families::V4 => &[Kind::A],
        Families::V6 => &[Kind::Aaaa],
        Families::V4ThenV6 => &[Kind::A, Kind::Aaaa],
        Families::V6ThenV4 => &[Kind::Aaaa, Kind::A],
    }
}
