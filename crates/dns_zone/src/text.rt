//! A zone, from its text.
ghost use Rattle.std.specs.Prelude.{◌≡◌, ◌<◌, ◌≤◌, ◌+◌, ◌++◌, ◌∷◌, [], ◌⊎◌, min, ℕ, length, List, IfErr, IfOk, MatchResult, OnOk};
ghost use Rattle.std.specs.Str.Lines.{lines};
ghost use Rattle.dns_message.specs.declared.resource.Record as resource;
ghost use Rattle.dns_zone.specs.Lines.{Holds, IsFirstBad, LinesSay};
ghost use Rattle.dns_zone.specs.Refusals.{RefusedFor};

use crate::line::line_record;
use crate::refusal::{LineRefusal, ZoneRefusal};
use crate::zone::{Zone, ZoneEntry};
use dns_message::Record;
use dns_name::law_same_names_are_equal;
use std::alloc::{AllocError, Global};

/// The most records of a zone.
const RECORD_LIMIT: usize = 4_096;

/// A zone whose text is read, and how many records there were, counted up to one more than the
/// limit. Those past the limit are not kept.
#[derive(Drop)]
struct ZoneBuilder {
    zone: Zone,
    count: usize,
    ghost few: { count ≤ 4097 },
}

impl ZoneBuilder {
    /// Adds a record.
    fn add(&mut self, alloc: Global, entry: Record) -> Result<(), AllocError>
        ensures count { OnOk result (self.new.count ≡ min (self.old.count + 1) 4097) }
        ensures holds { OnOk result (self.old.count < 4096 → (records : List resource.Record)
            → Holds self.old.zone records → Holds self.new.zone (records ++ entry ∷ [])) }
    {
        law_same_names_are_equal();
        let Record { owner, ttl, rdata } = entry;
        if self.count < RECORD_LIMIT {
            self.zone.add(alloc, owner, ZoneEntry { ttl, rdata })?;
        }
        if self.count <= RECORD_LIMIT {
            self.count += 1;
        }
        Ok(())
    }
}

impl Zone {
    /// The zone of a text: a record on each line.
    ///
    /// The fields of a line are between blanks (U+0020): an owner, a TTL, and one of
    ///
    /// - `A` and an address of IPv4, `AAAA` and one of IPv6
    /// - `CNAME` and a name
    /// - `SRV`, priority, weight, port and target
    /// - `NAPTR`, order, preference, flags, services, regular expression and replacement
    /// - `SOA`, server, mailbox, serial, refresh, retry, expire and minimum
    ///
    /// Numbers are decimal, a TTL and those of SOA up to 4294967295, the others up to 65535. The
    /// three strings of NAPTR are `-` for the empty one, or 1 to 255 octets from 33 to 126. Names,
    /// the mailbox too, are those of `Name::from_text`, addresses those of `address_from_text`. The
    /// class is IN. A line that begins with `#` is passed over, and so is one without octets.
    ///
    /// Where lines are bad, the refusal names the first one, also where there are too many records.
    /// Memory is asked for lines that are to say a record, and no others.
    pub fn read(alloc: Global, text: &str) -> Result<Zone, ZoneRefusal>
        // The zone that is read has the records that the lines say, and no others.
        ensures found { IfOk result (λ zone. (records : List resource.Record)
            × LinesSay (lines text.now) records × (length records ≤ 4096) × Holds zone records) }
        // What lines say is read, unless memory is refused.
        ensures read { (records : List resource.Record) → LinesSay (lines text.now) records
            → length records ≤ 4096
            → MatchResult result (λ zone. Holds zone records)
            (λ refusal. refusal ≡ ZoneRefusal.Memory) }
        ensures too_many { (records : List resource.Record) → LinesSay (lines text.now) records
            → 4096 < length records
            → MatchResult result (λ _. ⊥)
            (λ refusal. (refusal ≡ ZoneRefusal.TooMany) ⊎ (refusal ≡ ZoneRefusal.Memory)) }
        ensures bad { (number : ℕ) → IsFirstBad (lines text.now) number
            → MatchResult result (λ _. ⊥)
            (λ refusal. (refusal ≡ ZoneRefusal.BadLine number) ⊎ (refusal ≡ ZoneRefusal.Memory)) }
        // Each refusal tells what is so of the lines.
        ensures refused { IfErr result (λ refusal. RefusedFor refusal (lines text.now)) }
    {
        let mut builder = ZoneBuilder {
            zone: Zone::new(alloc),
            count: 0,
        };
        for (at, line) in text.lines().enumerate() {
            match line_record(alloc, line) {
                Ok(None) => {}
                Ok(Some(entry)) => builder.add(alloc, entry)?,
                Err(LineRefusal::Bad) => return Err(ZoneRefusal::BadLine(at + 1)),
                Err(LineRefusal::Memory) => return Err(ZoneRefusal::Memory),
            }
        }
        if builder.count > RECORD_LIMIT {
            return Err(ZoneRefusal::TooMany);
        }
        Ok(builder.zone)
    }
}
