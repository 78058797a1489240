//! IPv6 addresses as texts (RFC 3261 25.1, RFC 4291 2.2).
ghost use Rattle.std.specs.Prelude.{◌≡◌, ◌<◌, ◌+◌, ◌++◌, ◌∷◌, ◌/◌, ◌%◌, ℕ, List, [], length, true, Some, MatchOption};
ghost use Rattle.std.specs.Option.{option_map};
ghost use Rattle.ip_text.specs.Readers as spec;

use crate::ipv4::ipv4;
use crate::numbers::hexadecimal_digit;
use crate::parts::behind_front;
use arrayvec::ArrayVec;

/// What follows two colons in front.
#[inline(always)]
fn behind_colons(text: &[u8]) -> Option<&[u8]>
    ensures { option_map (λ rest. rest.now) result ≡ spec.behind_colons text.now }
{
    behind_front(behind_front(text, b':')?, b':')
}

/// Adds octets, where there is room for them.
fn push_octets(octets: &mut ArrayVec<u8, 16>, more: &[u8]) -> Option<()>
    ensures { MatchOption result (16 < length octets.old.items + length more.now)
        (λ _. octets.new.items ≡ octets.old.items ++ more.now) }
{
    octets.try_extend_from_slice(more).ok()
}

/// Adds the two octets of a group, where there is room for them.
#[inline(always)]
fn push_group(octets: &mut ArrayVec<u8, 16>, group: u16) -> Option<()>
    ensures { MatchOption result (16 < length octets.old.items + 2)
        (λ _. octets.new.items ≡ octets.old.items ++ group / 256 ∷ group % 256 ∷ []) }
{
    if octets.len() > 14 {
        return None;
    }
    octets.push((group / 256) as u8);
    octets.push((group % 256) as u8);
    Some(())
}

/// The number of the hexadecimal digits in front, one to four, and what follows them.
#[inline(always)]
fn group_in_front(text: &[u8]) -> Option<(u16, &[u8])>
    ensures { option_map (λ found. (found.0, found.1.now)) result ≡ spec.group_in_front text.now }
{
    let mut number = 0u32;
    for (at, octet) in text.iter().enumerate() {
        match hexadecimal_digit(*octet) {
            None => {
                return if at == 0 {
                    None
                } else {
                    Some((number as u16, &text[at..]))
                };
            }
            Some(digit) => {
                if at > 3 {
                    return None;
                }
                number = 16 * number + u32::from(digit);
            }
        }
    }
    if text.is_empty() {
        None
    } else {
        Some((number as u16, &text[text.len()..]))
    }
}

/// Puts the octets of groups with colons between them where there are none, at most sixteen. What
/// is given is what follows the first two colons in a row, if there are some.
#[inline(always)]
fn groups_in_front<'a>(octets: &mut ArrayVec<u8, 16>, text: &'a [u8]) -> Option<Option<&'a [u8]>>
    requires { octets.old.items ≡ [] }
    ensures { MatchOption result (spec.NoFront text.now)
        (λ found. spec.IsFront text.now octets.new.items (option_map (λ right. right.now) found)) }
{
    let mut rest = text;
    loop {
        let (number, behind) = group_in_front(rest)?;
        if let Some(_) = behind_front(behind, b'.') {
            push_octets(octets, &ipv4(rest)?)?;
            return Some(None);
        }
        push_group(octets, number)?;
        if behind.is_empty() {
            return Some(None);
        }
        if let Some(right) = behind_colons(behind) {
            return Some(Some(right));
        }
        rest = behind_front(behind, b':')?;
    }
}

/// The octets of what stands behind two colons: groups, or nothing.
#[inline(always)]
fn side(text: &[u8]) -> Option<ArrayVec<u8, 16>>
    ensures { MatchOption result
        ((octets : List ℕ) → spec.side true text.now ≡ Some octets → 16 < length octets)
        (λ octets. spec.side true text.now ≡ Some octets.items) }
{
    if text.is_empty() {
        return Some(ArrayVec::new());
    }
    let mut octets = ArrayVec::new();
    match groups_in_front(&mut octets, text)? {
        None => Some(octets),
        Some(_) => None,
    }
}

/// Sixteen octets, with zeros between those in front and those at the end, which lack a group at
/// least.
fn filled(front: ArrayVec<u8, 16>, end: &[u8]) -> Option<[u8; 16]>
    ensures { result ≡ spec.filled front.items end.now }
{
    let written = front.len() + end.len();
    if written > 14 {
        return None;
    }
    let mut octets = front;
    octets.try_extend_from_slice(&[0; 16][written..]).ok()?;
    octets.try_extend_from_slice(end).ok()?;
    octets.into_inner().ok()
}

/// The sixteen octets of eight groups.
fn whole(octets: ArrayVec<u8, 16>) -> Option<[u8; 16]>
    ensures { result ≡ spec.sixteen octets.items }
{
    octets.into_inner().ok()
}

/// The address of an IPv6 text.
pub(crate) fn ipv6(text: &[u8]) -> Option<[u8; 16]>
    ensures { result ≡ spec.ipv6 text.now }
{
    if let Some(right) = behind_colons(text) {
        return filled(ArrayVec::new(), side(right)?.as_slice());
    }
    let mut front = ArrayVec::new();
    match groups_in_front(&mut front, text)? {
        None => whole(front),
        Some(right) => filled(front, side(right)?.as_slice()),
    }
}
