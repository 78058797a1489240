//! SRV records (RFC 2782).
ghost use Rattle.std.specs.Prelude.{◌≡◌, ◌<◌, ◌≤◌, ℕ, [], length, ◌+◌, IfOk, IfErr, MatchOption, MatchResult, ◌++◌, OnOk, OnErr};
ghost use Rattle.dns_name.specs.Landings.{AreLandings};
ghost use Rattle.dns_message.specs.Layouts.{SrvAt};
ghost use Rattle.std.specs.Int.{w16};
ghost use Rattle.dns_message.specs.Offsets.{NumberAt, NamedAt};
ghost use Rattle.dns_message.specs.Written.{srv_octets};
ghost use Rattle.dns_message.specs.Fits.{SrvFits};
ghost use Rattle.dns_message.specs.declared.srv.SrvRecord as srv;

use crate::datagram::{Datagram, TooLong};
use crate::name::push_name;
use crate::number::{push_u16, u16_at};
use crate::refusal::EntryRefusal;
use dns_name::{Landings, Name, law_one_name_at_an_offset, read_name_into_by};
use std::alloc::{AllocError, Global};

/// A server of a service (RFC 2782).
#[derive(Debug, PartialEq, Eq, Drop)]
pub struct SrvRecord {
    /// Priority: servers of the lowest one are tried first.
    pub priority: u16,
    /// Weight: how often a server is to be tried first among those of its priority.
    pub weight: u16,
    /// Port: where the service is on the target.
    pub port: u16,
    /// Target: the name of the server; the root where the service is not offered.
    pub target: Name,
}

impl SrvRecord {
    /// One that is still to be read, or to be made a copy: its numbers are 0, and its target is the
    /// root. Takes no memory.
    #[must_use]
    pub fn unread(alloc: Global) -> SrvRecord
        ensures { result ≡ (record { priority = 0; weight = 0; port = 0; target = [] }) }
    {
        SrvRecord {
            priority: 0,
            weight: 0,
            port: 0,
            target: Name::root(alloc),
        }
    }

    /// Makes this one a copy of another record, where it lies. After an error it is as before.
    ///
    /// # Errors
    /// Where memory is refused. It is asked for where the target has more than 31 octets.
    pub fn copy_from(&mut self, other: &SrvRecord) -> Result<(), AllocError>
        ensures ok { OnOk result (self.new ≡ other.now) }
        ensures err { OnErr result (self.new ≡ self.old) }
    {
        self.target.copy_from(&other.target)?;
        self.priority = other.priority;
        self.weight = other.weight;
        self.port = other.port;
        Ok(())
    }

    /// A copy of the record.
    pub fn try_clone(&self) -> Result<SrvRecord, AllocError>
        ensures { IfOk result (λ copy. copy ≡ self.now) }
    {
        Ok(SrvRecord {
            priority: self.priority,
            weight: self.weight,
            port: self.port,
            target: self.target.try_clone()?,
        })
    }
}

/// The numbers in front of the target of a server.
#[derive(Clone, Copy)]
struct Numbers {
    priority: u16,
    weight: u16,
    port: u16,
}

/// These numbers, in six octets at an offset.
fn numbers_at(bytes: &[u8], offset: usize) -> Option<Numbers>
    requires { offset ≤ length bytes.now }
    ensures { MatchOption result (length bytes.now < offset + 6)
        (λ numbers. NumberAt w16 bytes.now offset numbers.priority
        × NumberAt w16 bytes.now (offset + 2) numbers.weight
        × NumberAt w16 bytes.now (offset + 4) numbers.port) }
{
    let octets = bytes.get(offset..offset + 6)?;
    Some(Numbers {
        priority: u16_at(octets, 0)?,
        weight: u16_at(octets, 2)?,
        port: u16_at(octets, 4)?,
    })
}

/// Reads the record at an offset over another one, and gives the offset after it.
pub(crate) fn read_srv(
    alloc: Global,
    bytes: &[u8],
    landings: &Landings,
    offset: usize,
    server: &mut SrvRecord,
) -> Result<usize, EntryRefusal>
    requires within { offset ≤ length bytes.now }
    requires known { AreLandings bytes.now landings.now }
    ensures found { IfOk result (λ end. SrvAt bytes.now offset server.new end) }
    ensures read { (server' : srv.SrvRecord) (end : ℕ) → SrvAt bytes.now offset server' end
        → MatchResult result (λ found. (server.new ≡ server') × (found ≡ end))
        (λ refusal. refusal ≡ EntryRefusal.Memory) }
    ensures memory { IfErr result (λ refusal. refusal ≡ EntryRefusal.Memory
        → NamedAt bytes.now (offset + 6)) }
{
    law_one_name_at_an_offset();
    let numbers = numbers_at(bytes, offset).ok_or(EntryRefusal::Malformed)?;
    server.priority = numbers.priority;
    server.weight = numbers.weight;
    server.port = numbers.port;
    let end = read_name_into_by(alloc, bytes, landings, offset + 6, &mut server.target)?;
    Ok(end)
}

/// Appends the data of a server.
#[tactic(auto, unfolding(crate::specs::Written::srv_octets))]
pub(crate) fn push_srv(server: &SrvRecord, out: &mut Datagram) -> Result<(), TooLong>
    ensures ok { OnOk result (out.new.items ≡ out.old.items ++ srv_octets server.now) }
    ensures fits { OnOk result (SrvFits server.now) }
    ensures too_long { OnErr result
        (512 < length out.old.items + length (srv_octets server.now)) }
{
    push_u16(server.priority, out)?;
    push_u16(server.weight, out)?;
    push_u16(server.port, out)?;
    push_name(&server.target, out)
}
