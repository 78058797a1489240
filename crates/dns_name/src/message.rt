//! Names in messages (RFC 1035 3.1, 4.1.4).
ghost use Rattle.std.specs.Prelude.{◌≡◌, ◌++◌, List, [], ℕ, IfOk, OnOk, OnErr, IsOk, ◌+◌, ◌≤◌, length, take, drop, vec_len, vec_capacity, Err, None, MatchResult, MatchOption, IfSome};
ghost use Rattle.dns_name.specs.Labels.{small_letters, wire_of, IsName};
ghost use Rattle.dns_name.specs.Pieces.{PieceAt, NothingAt};
ghost use Rattle.dns_name.specs.Offsets.{NameAt};
ghost use Rattle.dns_name.specs.Octets.{IsPadded};
ghost use Rattle.dns_name.specs.ShortNames.{AreLabels, ShortNameAt};
ghost use Rattle.dns_name.specs.Landings.{AreLandings};

use crate::builder::NAME_LIMIT;
use crate::landing::Landings;
use crate::name::Name;
use crate::octets::{INLINE_LIMIT, Octets};
use crate::refusal::NameReadRefusal;
use std::alloc::{AllocError, Global};

/// What stands at an offset of a run of labels.
#[derive(Clone, Copy)]
pub(crate) enum Piece<'a> {
    /// The 0 that closes a name.
    Root,
    /// A label, without its length.
    Label(&'a [u8]),
    /// A pointer to an offset.
    Pointer(usize),
}

/// What stands at an offset of these octets, if it is whole.
pub(crate) fn piece_at(octets: &[u8], offset: usize) -> Option<Piece<'_>>
    ensures { MatchOption result (NothingAt octets.now offset) (PieceAt octets.now offset) }
{
    let behind = octets.get(offset..)?;
    let (first, behind) = behind.split_first()?;
    match *first {
        0 => Some(Piece::Root),
        length @ 1..=63 => Some(Piece::Label(behind.get(..usize::from(length))?)),
        64..=191 => None,
        high => {
            let low = behind.first()?;
            Some(Piece::Pointer(usize::from(high - 192) * 256 + usize::from(*low)))
        }
    }
}

/// Puts a run of labels behind so many octets.
fn put_run(front: &mut [u8; NAME_LIMIT], passed: usize, run: &[u8])
    requires { passed + length run.now ≤ 255 }
    ensures { take (passed + length run.now) front.new ≡ take passed front.old ++ run.now }
{
    if !run.is_empty() {
        front[passed..passed + run.len()].copy_from_slice(run);
    }
}

/// Writes a run of labels over octets, as many, with capitals as small letters.
pub(crate) fn write_small(octets: &mut [u8], run: &[u8])
    requires { length octets.old ≡ length run.now }
    ensures { octets.new ≡ small_letters run.now }
{
    for at in 0..run.len() {
        octets[at] = run[at].to_ascii_lowercase();
    }
}

/// Writes the runs that were passed and then the last one over octets, as many, with capitals as
/// small letters.
fn write_runs(octets: &mut [u8], passed: &[u8], last: &[u8])
    requires { length octets.old ≡ length passed.now + length last.now }
    ensures { octets.new ≡ small_letters (passed.now ++ last.now) }
{
    let (front, behind) = octets.split_at_mut(passed.len());
    write_small(front, passed);
    write_small(behind, last);
}

/// The octets of the runs that were passed and of the last one, with capitals as small letters.
fn small_octets(alloc: Global, passed: &[u8], last: &[u8]) -> Result<Octets, AllocError>
    requires { length passed.now + length last.now ≤ 255 }
    ensures { IfOk result (λ octets. octets ≡ small_letters (passed.now ++ last.now)) }
{
    let count = passed.len() + last.len();
    if count > INLINE_LIMIT {
        let mut octets = Vec::from_elem(alloc, 0, count)?;
        write_runs(octets.as_mut_slice(), passed, last);
        return Ok(Octets::from_vec(octets));
    }
    let mut octets = [0; INLINE_LIMIT];
    write_runs(&mut octets[..count], passed, last);
    Ok(Octets::inline(alloc, octets, count))
}

/// The name of the runs that were passed and of the last one, with capitals as small letters.
fn small_name(alloc: Global, passed: &[u8], last: &[u8]) -> Result<Name, AllocError>
    requires short { length passed.now + length last.now ≤ 255 }
    requires name { (labels : List (List ℕ)) × IsName labels
        × (small_letters (passed.now ++ last.now) ≡ wire_of labels) }
    ensures { IfOk result (λ name. wire_of name ≡ small_letters (passed.now ++ last.now)) }
{
    Ok(Name::from_wire(small_octets(alloc, passed, last)?))
}

/// Reads the name at offset `at` of a message, as `read_name` says, by what is known of where its
/// pointers lead.
pub fn read_name_by(
    alloc: Global,
    bytes: &[u8],
    landings: &Landings,
    at: usize,
) -> Result<(Name, usize), NameReadRefusal>
    requires { AreLandings bytes.now landings.now }
    // What is read is the name that stands there.
    ensures found { IfOk result (λ found. NameAt bytes.now at at found.0 found.1) }
    // A name that stands there is read, unless memory is refused: so `Malformed` comes only where
    // none does.
    ensures read { (name : List (List ℕ)) (end : ℕ) → NameAt bytes.now at at name end
        → MatchResult result (λ found. (found.0 ≡ name) × (found.1 ≡ end))
        (λ refusal. refusal ≡ NameReadRefusal.Memory) }
    // Memory is asked for where a name stands, and nowhere else.
    ensures memory { result ≡ Err NameReadRefusal.Memory
        → (name : List (List ℕ)) × (end : ℕ) × NameAt bytes.now at at name end }
{
    let mut front = [0; NAME_LIMIT];
    let mut passed = 0;
    let mut count = 0;
    let mut start = at;
    let mut limit = bytes.len();
    let mut offset = at;
    let mut after = None;
    let mut followed = 0u32;
    loop {
        match piece_at(&bytes[..limit], offset) {
            None => return Err(NameReadRefusal::Malformed),
            Some(Piece::Root) => {
                landings.note(followed);
                let name = small_name(alloc, &front[..passed], &bytes[start..offset + 1])?;
                return Ok((name, after.unwrap_or(offset + 1)));
            }
            Some(Piece::Label(label)) => {
                count += 1 + label.len();
                if count >= NAME_LIMIT {
                    return Err(NameReadRefusal::Malformed);
                }
                offset += 1 + label.len();
            }
            Some(Piece::Pointer(target)) => {
                let Some(run) = landings.run_at(bytes, target, start) else {
                    return Err(NameReadRefusal::Malformed);
                };
                put_run(&mut front, passed, &bytes[start..offset]);
                passed = count;
                after = Some(after.unwrap_or(offset + 2));
                followed = followed.wrapping_add(1);
                limit = run.limit;
                start = run.start;
                offset = run.start;
            }
        }
    }
}

/// Reads the name at offset `at` of a message, and gives the offset after it: after its closing 0,
/// or after its first pointer. A pointer leads to a run of labels that lies, its closing 0 or
/// pointer included, before the run that the pointer closes.
pub fn read_name(alloc: Global, bytes: &[u8], at: usize) -> Result<(Name, usize), NameReadRefusal>
    // What is read is the name that stands there.
    ensures found { IfOk result (λ found. NameAt bytes.now at at found.0 found.1) }
    // A name that stands there is read, unless memory is refused: so `Malformed` comes only where
    // none does.
    ensures read { (name : List (List ℕ)) (end : ℕ) → NameAt bytes.now at at name end
        → MatchResult result (λ found. (found.0 ≡ name) × (found.1 ≡ end))
        (λ refusal. refusal ≡ NameReadRefusal.Memory) }
    // Memory is asked for where a name stands, and nowhere else.
    ensures memory { result ≡ Err NameReadRefusal.Memory
        → (name : List (List ℕ)) × (end : ℕ) × NameAt bytes.now at at name end }
{
    read_name_by(alloc, bytes, &Landings::none(alloc), at)
}

/// A name in the first octets of others, and the offset after it in its message.
#[derive(Clone, Copy)]
struct ShortName {
    length: usize,
    after: usize,
}

/// Writes a run of labels behind so many octets, with capitals as small letters.
fn put_small(octets: &mut [u8; INLINE_LIMIT], passed: usize, run: &[u8])
    requires { passed + length run.now ≤ 31 }
    ensures { octets.new ≡ take passed octets.old ++ small_letters run.now
        ++ drop (passed + length run.now) octets.old }
{
    write_small(&mut octets[passed..passed + run.len()], run);
}

/// The offset behind the labels from an offset on, of which the last ends at `last` or before.
fn behind_labels(bytes: &[u8], offset: usize, last: usize) -> usize
    requires { last ≤ length bytes.now }
    ensures labels { AreLabels bytes.now offset result }
    ensures forward { offset ≤ result }
    ensures within { offset ≤ last → result ≤ last }
{
    let mut end = offset;
    while let Some(length) = bytes.get(end) {
        let length = usize::from(*length);
        if length == 0 || length > 63 || end + 1 + length > last {
            return end;
        }
        end += 1 + length;
    }
    end
}

/// Reads the run of labels at an offset over zeros, and gives how many octets it has, if these are
/// at most 31, and the run closes with a 0 before a limit.
#[inline(always)]
fn read_plain_run(
    bytes: &[u8],
    start: usize,
    limit: usize,
    octets: &mut [u8; INLINE_LIMIT],
) -> Option<usize>
    requires limit { limit ≤ length bytes.now }
    requires zeros { IsPadded octets.old 0 }
    ensures name { IfSome result
        (λ count. ShortNameAt bytes.now start octets.new count (start + count)) }
    ensures within { IfSome result (λ count. start + count ≤ limit) }
{
    if start >= limit {
        return None;
    }
    let end = behind_labels(bytes, start, limit.min(start + (INLINE_LIMIT - 1)));
    if end == limit || bytes[end] != 0 {
        return None;
    }
    put_small(octets, 0, &bytes[start..end + 1]);
    Some(end + 1 - start)
}

/// Reads the name at offset `at` of a message over zeros, if it has at most 31 octets and is one
/// run of labels, or a pointer to one: most names are.
fn read_plain(bytes: &[u8], at: usize, octets: &mut [u8; INLINE_LIMIT]) -> Option<ShortName>
    requires { IsPadded octets.old 0 }
    ensures { IfSome result
        (λ short. ShortNameAt bytes.now at octets.new short.length short.after) }
{
    if let Some(Piece::Pointer(target)) = piece_at(bytes, at) {
        let length = read_plain_run(bytes, target, at, octets)?;
        return Some(ShortName {
            length,
            after: at + 2,
        });
    }
    let length = read_plain_run(bytes, at, bytes.len(), octets)?;
    Some(ShortName {
        length,
        after: at + length,
    })
}

/// Reads the name at offset `at` of a message over zeros, if one of at most 31 octets is there.
fn read_short(
    bytes: &[u8],
    landings: &Landings,
    at: usize,
    octets: &mut [u8; INLINE_LIMIT],
) -> Option<ShortName>
    requires known { AreLandings bytes.now landings.now }
    requires zeros { IsPadded octets.old 0 }
    ensures { IfSome result
        (λ short. ShortNameAt bytes.now at octets.new short.length short.after) }
{
    let mut passed = 0;
    let mut count = 0;
    let mut run_start = at;
    let mut limit = bytes.len();
    let mut offset = at;
    let mut end = None;
    let mut followed = 0u32;
    loop {
        match piece_at(&bytes[..limit], offset)? {
            Piece::Root => {
                landings.note(followed);
                put_small(octets, passed, &bytes[run_start..offset + 1]);
                return Some(ShortName {
                    length: count + 1,
                    after: end.unwrap_or(offset + 1),
                });
            }
            Piece::Label(label) => {
                count += 1 + label.len();
                if count >= INLINE_LIMIT {
                    return None;
                }
                offset += 1 + label.len();
            }
            Piece::Pointer(target) => {
                let run = landings.run_at(bytes, target, run_start)?;
                put_small(octets, passed, &bytes[run_start..offset]);
                passed = count;
                end = Some(end.unwrap_or(offset + 2));
                followed = followed.wrapping_add(1);
                limit = run.limit;
                run_start = run.start;
                offset = run.start;
            }
        }
    }
}

/// Reads the name at offset `at` of a message over the octets of another name, if one of at most 31
/// octets is there, and gives the offset after it. Else the octets are those of the root.
fn read_short_over(
    alloc: Global,
    bytes: &[u8],
    landings: &Landings,
    at: usize,
    octets: &mut Octets,
) -> Option<usize>
    requires { AreLandings bytes.now landings.now }
    ensures some { IfSome result (λ end. (name : List (List ℕ)) × NameAt bytes.now at at name end
        × (octets.new ≡ wire_of name)) }
    ensures none { result ≡ None → octets.new ≡ wire_of [] }
{
    octets.heap = Vec::new(alloc);
    octets.inline = [0; INLINE_LIMIT];
    if let Some(short) = read_plain(bytes, at, &mut octets.inline) {
        octets.length = short.length as u8;
        return Some(short.after);
    }
    octets.inline = [0; INLINE_LIMIT];
    match read_short(bytes, landings, at, &mut octets.inline) {
        Some(short) => {
            octets.length = short.length as u8;
            Some(short.after)
        }
        None => {
            octets.inline = [0; INLINE_LIMIT];
            octets.length = 1;
            None
        }
    }
}

/// Reads the name at offset `at` of a message over another name, as `read_name_into` says, by what
/// is known of where its pointers lead.
pub fn read_name_into_by(
    alloc: Global,
    bytes: &[u8],
    landings: &Landings,
    at: usize,
    name: &mut Name,
) -> Result<usize, NameReadRefusal>
    requires { AreLandings bytes.now landings.now }
    // What is read is the name that stands there.
    ensures found { IfOk result (λ end. NameAt bytes.now at at name.new end) }
    // A name that stands there is read, unless memory is refused.
    ensures read { (labels : List (List ℕ)) (end : ℕ) → NameAt bytes.now at at labels end
        → MatchResult result (λ found. (name.new ≡ labels) × (found ≡ end))
        (λ refusal. refusal ≡ NameReadRefusal.Memory) }
    // Memory is asked for where a name stands, and nowhere else.
    ensures memory { result ≡ Err NameReadRefusal.Memory
        → (labels : List (List ℕ)) × (end : ℕ) × NameAt bytes.now at at labels end }
    ensures refused { OnErr result (name.new ≡ []) }
{
    if let Some(after) = read_short_over(alloc, bytes, landings, at, &mut name.octets) {
        return Ok(after);
    }
    let (found, after) = read_name_by(alloc, bytes, landings, at)?;
    *name = found;
    Ok(after)
}

/// Reads the name at offset `at` of a message over another name, as `read_name` reads it, and gives
/// the offset after it. After a refusal the other name is the root.
pub fn read_name_into(
    alloc: Global,
    bytes: &[u8],
    at: usize,
    name: &mut Name,
) -> Result<usize, NameReadRefusal>
    // What is read is the name that stands there.
    ensures found { IfOk result (λ end. NameAt bytes.now at at name.new end) }
    // A name that stands there is read, unless memory is refused.
    ensures read { (labels : List (List ℕ)) (end : ℕ) → NameAt bytes.now at at labels end
        → MatchResult result (λ found. (name.new ≡ labels) × (found ≡ end))
        (λ refusal. refusal ≡ NameReadRefusal.Memory) }
    // Memory is asked for where a name stands, and nowhere else.
    ensures memory { result ≡ Err NameReadRefusal.Memory
        → (labels : List (List ℕ)) × (end : ℕ) × NameAt bytes.now at at labels end }
    ensures refused { OnErr result (name.new ≡ []) }
{
    read_name_into_by(alloc, bytes, &Landings::none(alloc), at, name)
}

/// Appends the octets of a name without pointers. After an error `out` is as before; where it has
/// room for them, there is none.
pub fn write_name(name: &Name, out: &mut Vec<u8>) -> Result<(), AllocError>
    ensures ok { OnOk result (out.new.items ≡ out.old.items ++ wire_of name.now) }
    ensures err { OnErr result (out.new.items ≡ out.old.items) }
    ensures room { vec_len out.old + length (wire_of name.now) ≤ vec_capacity out.old
        → IsOk result }
{
    out.extend_from_slice(name.wire())
}
