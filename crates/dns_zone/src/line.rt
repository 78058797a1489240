//! A line of a zone.
ghost use Rattle.std.specs.Prelude.{◌≡◌, [], Option, IfErr, IfOk, MatchResult};
ghost use Rattle.dns_zone.specs.Lines as spec;
ghost use Rattle.dns_zone.specs.Views.{texts};
ghost use Rattle.dns_message.specs.declared.resource.Record as resource;

use crate::field::{fields_of, number_of_32_bits};
use crate::rdata::rdata;
use crate::refusal::LineRefusal;
use dns_message::Record;
use dns_name::Name;
use std::alloc::Global;

/// The record of an owner, a TTL, a type and data.
fn record_of(alloc: Global, fields: &[&str]) -> Result<Record, LineRefusal>
    ensures memory { IfErr result
        (λ refusal. refusal ≡ LineRefusal.Memory → texts fields.now ≡ [] → ⊥) }
    ensures found { IfOk result (spec.RecordFields (texts fields.now)) }
    ensures read { (entry : resource.Record) → spec.RecordFields (texts fields.now) entry
        → MatchResult result (λ it. it ≡ entry) (λ refusal. refusal ≡ LineRefusal.Memory) }
{
    let [owner, ttl, kind, others @ ..] = fields else {
        return Err(LineRefusal::Bad);
    };
    Ok(Record {
        owner: Name::from_text(alloc, owner)?,
        ttl: number_of_32_bits(ttl)?,
        rdata: rdata(alloc, kind, others)?,
    })
}

/// Whether a line is a comment.
fn is_comment(line: &[u8]) -> bool
    ensures { result ≡ spec.is_comment line.now }
{
    match line {
        [first, ..] => *first == b'#',
        [] => false,
    }
}

/// The record that a line says, if it is not empty and no comment.
pub(crate) fn line_record(alloc: Global, line: &str) -> Result<Option<Record>, LineRefusal>
    ensures memory { IfErr result
        (λ refusal. refusal ≡ LineRefusal.Memory → spec.IsEntryLine line.now) }
    ensures found { IfOk result (spec.LineSays line.now) }
    ensures read { (said : Option resource.Record) → spec.LineSays line.now said
        → MatchResult result (λ it. it ≡ said) (λ refusal. refusal ≡ LineRefusal.Memory) }
{
    if line.is_empty() || is_comment(line.as_bytes()) {
        return Ok(None);
    }
    let Some(fields) = fields_of(line) else {
        return Err(LineRefusal::Bad);
    };
    Ok(Some(record_of(alloc, fields.as_slice())?))
}
