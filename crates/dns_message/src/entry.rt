//! What a section of a message has, one after the other: questions or records (RFC 1035 4.1).
ghost use Rattle.std.specs.Prelude.{◌≡◌, ℕ, List, [], length, IfOk, IfErr, IfSome, MatchResult};
ghost use Rattle.dns_name.specs.Landings.{AreLandings};
ghost use Rattle.dns_message.specs.Owners.{IsAskedName};
ghost use Rattle.dns_message.specs.Offsets.{NamedAt, AllAt};
ghost use Rattle.dns_message.specs.Refusals.{IsOfPart};

use crate::owner::AskedName;
use crate::refusal::{EntryRefusal, MessageRefusal, Part};
use dns_name::Landings;
use std::alloc::Global;

/// A question or a record.
pub(crate) trait Entry: Sized + Drop {
    // It stands in a message from an offset to another.
    ghost stands: { List ℕ → ℕ → Self → ℕ → Type 0 };

    /// One that is still to be read.
    fn unread(alloc: Global) -> Self;

    /// Reads the one at an offset over this one, and gives the offset after it. The name of the
    /// question may be known by then.
    fn read_over(
        &mut self,
        alloc: Global,
        bytes: &[u8],
        landings: &Landings,
        offset: usize,
        asked: Option<&AskedName<'_>>,
    ) -> Result<usize, EntryRefusal>
        requires asked { IfSome asked (λ it. IsAskedName bytes.now it.now) }
        requires known { AreLandings bytes.now landings.now }
        ensures found { IfOk result (λ end. stands bytes.now offset self.new end) }
        ensures read { (entry : Self) (end : ℕ) → stands bytes.now offset entry end
            → MatchResult result (λ found. (self.new ≡ entry) × (found ≡ end))
            (λ refusal. refusal ≡ EntryRefusal.Memory) }
        ensures memory { IfErr result (λ refusal. refusal ≡ EntryRefusal.Memory
            → NamedAt bytes.now offset) };

    // It begins with a name.
    ghost named: { (message : List ℕ) (offset end : ℕ) (entry : Self)
        → stands message offset entry end → NamedAt message offset };
}

/// Why the one at an offset is not read where there is no memory for it.
#[cold]
#[inline(never)]
fn refusal_at<E: Entry>(
    alloc: Global,
    bytes: &[u8],
    landings: &Landings,
    offset: usize,
    asked: Option<&AskedName<'_>>,
) -> EntryRefusal
    requires asked { IfSome asked (λ it. IsAskedName bytes.now it.now) }
    requires known { AreLandings bytes.now landings.now }
    ensures read { (entry : E) (end : ℕ) → E.stands bytes.now offset entry end
        → result ≡ EntryRefusal.Memory }
    ensures memory { result ≡ EntryRefusal.Memory → NamedAt bytes.now offset }
{
    let mut entry = E::unread(alloc);
    match entry.read_over(alloc, bytes, landings, offset, asked) {
        Ok(_) => EntryRefusal::Memory,
        Err(refusal) => refusal,
    }
}

/// For how many room is made at once.
const MOST_ROOM: usize = 32;

/// How many octets each has at least: the root, a type and a class (RFC 1035 4.1.2).
const LEAST_OCTETS: usize = 5;

/// Makes room for so many at once, in so many octets. Where there is no memory for that, each
/// asks for its own.
fn make_room<E: Entry>(entries: &mut Vec<E>, count: u16, octets: usize)
    ensures { entries.new.items ≡ entries.old.items }
{
    let most = (octets / LEAST_OCTETS).min(MOST_ROOM);
    let _ = entries.reserve_exact(usize::from(count).min(most));
}

/// Reads so many from an offset on into an empty list, and gives the offset after them.
fn read_entries<E: Entry>(
    alloc: Global,
    bytes: &[u8],
    landings: &mut Landings,
    offset: usize,
    count: u16,
    asked: Option<&AskedName<'_>>,
    entries: &mut Vec<E>,
) -> Result<usize, EntryRefusal>
    requires empty { entries.old.items ≡ [] }
    requires asked { IfSome asked (λ it. IsAskedName bytes.now it.now) }
    requires known { AreLandings bytes.now landings.old }
    ensures known { AreLandings bytes.now landings.new }
    ensures found { IfOk result (λ end. AllAt (E.stands bytes.now) offset entries.new.items end
        × (length entries.new.items ≡ count)) }
    ensures read { (all : List E) (end : ℕ) → AllAt (E.stands bytes.now) offset all end
        → length all ≡ count
        → MatchResult result (λ found. (entries.new.items ≡ all) × (found ≡ end))
        (λ refusal. refusal ≡ EntryRefusal.Memory) }
    ensures memory { IfErr result (λ refusal. refusal ≡ EntryRefusal.Memory
        → NamedAt bytes.now offset) }
{
    make_room(entries, count, bytes.len().saturating_sub(offset));
    let mut offset = offset;
    for _ in 0..count {
        let place = entries.len();
        let Ok(()) = entries.push(E::unread(alloc)) else {
            return Err(refusal_at::<E>(alloc, bytes, landings, offset, asked));
        };
        offset = entries[place].read_over(alloc, bytes, landings, offset, asked)?;
        if landings.are_wanted() {
            landings.find(alloc, bytes);
        }
    }
    Ok(offset)
}

/// A section of a message: which part it is, and how many the header counts there.
#[derive(Clone, Copy)]
pub(crate) struct Counted {
    pub part: Part,
    pub count: u16,
}

/// Reads a section into an empty list, and gives the offset after it.
pub(crate) fn read_section<E: Entry>(
    alloc: Global,
    bytes: &[u8],
    landings: &mut Landings,
    offset: usize,
    section: Counted,
    asked: Option<&AskedName<'_>>,
    entries: &mut Vec<E>,
) -> Result<usize, MessageRefusal>
    requires empty { entries.old.items ≡ [] }
    requires asked { IfSome asked (λ it. IsAskedName bytes.now it.now) }
    requires known { AreLandings bytes.now landings.old }
    ensures known { AreLandings bytes.now landings.new }
    ensures found { IfOk result (λ end. AllAt (E.stands bytes.now) offset entries.new.items end
        × (length entries.new.items ≡ section.count)) }
    ensures read { (all : List E) (end : ℕ) → AllAt (E.stands bytes.now) offset all end
        → length all ≡ section.count
        → MatchResult result (λ found. (entries.new.items ≡ all) × (found ≡ end))
        (λ refusal. refusal ≡ MessageRefusal.Memory) }
    ensures refused { IfErr result (λ refusal. IsOfPart refusal section.part) }
    ensures memory { IfErr result
        (λ refusal. refusal ≡ MessageRefusal.Memory → NamedAt bytes.now offset) }
{
    match read_entries(
        alloc,
        bytes,
        landings,
        offset,
        section.count,
        asked,
        entries,
    ) {
        Ok(after) => Ok(after),
        Err(refusal) => Err(refusal.of_part(section.part)),
    }
}

/// The same, for a section that few messages have: where none is counted, nothing is called.
#[inline]
pub(crate) fn read_section_if_any<E: Entry>(
    alloc: Global,
    bytes: &[u8],
    landings: &mut Landings,
    offset: usize,
    section: Counted,
    asked: Option<&AskedName<'_>>,
    entries: &mut Vec<E>,
) -> Result<usize, MessageRefusal>
    requires empty { entries.old.items ≡ [] }
    requires asked { IfSome asked (λ it. IsAskedName bytes.now it.now) }
    requires known { AreLandings bytes.now landings.old }
    ensures known { AreLandings bytes.now landings.new }
    ensures found { IfOk result (λ end. AllAt (E.stands bytes.now) offset entries.new.items end
        × (length entries.new.items ≡ section.count)) }
    ensures read { (all : List E) (end : ℕ) → AllAt (E.stands bytes.now) offset all end
        → length all ≡ section.count
        → MatchResult result (λ found. (entries.new.items ≡ all) × (found ≡ end))
        (λ refusal. refusal ≡ MessageRefusal.Memory) }
    ensures refused { IfErr result (λ refusal. IsOfPart refusal section.part) }
    ensures memory { IfErr result
        (λ refusal. refusal ≡ MessageRefusal.Memory → NamedAt bytes.now offset) }
{
    if section.count == 0 {
        return Ok(offset);
    }
    read_section(alloc, bytes, landings, offset, section, asked, entries)
}
