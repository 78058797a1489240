//! A query of the caller that is open.
ghost use Rattle.std.specs.Prelude.{◌≡◌, ◌↔◌, ◌+◌, ◌≤◌, IfOk, IsTrue, min};
ghost use Rattle.dns_transport.specs.Attempts.{late_from};
ghost use Rattle.dns_transport.specs.Sends.{asked_by};

use crate::open_chain::OpenChain;
use crate::server_order::server_at;
use crate::wire_try::id_of;
use std::alloc::{AllocError, Global};

/// A query of the caller, under a number of its own: to which server it goes first, how often it
/// was sent, a reply that is handed on where no better one comes, and the chain of CNAME records
/// that is asked on for it.
#[derive(Drop)]
pub(crate) struct Lookup {
    pub(crate) number: u64,
    pub(crate) query: Vec<u8>,
    pub(crate) first: usize,
    pub(crate) sends: usize,
    pub(crate) went_out: bool,
    /// Whether a server changes letters, so that it is asked as it stands from now on.
    pub(crate) is_plain: bool,
    /// Whether the last send of it failed for want of memory or of sockets: a later one may not.
    pub(crate) was_lost: bool,
    /// The millisecond at which its last wait for a reply began.
    pub(crate) asked_at: u64,
    /// How often no reply came in time, up to 255.
    pub(crate) timeouts: u8,
    pub(crate) kept: Option<Vec<u8>>,
    pub(crate) chain: Option<OpenChain>,
}

impl Lookup {
    /// A query that was not sent yet, and goes to this server first. Its wait begins now.
    pub(crate) fn new(
        alloc: Global,
        number: u64,
        query: &[u8],
        first: usize,
        now: u64,
    ) -> Result<Lookup, AllocError>
        ensures number { IfOk result (λ lookup. lookup.number ≡ number) }
        ensures first { IfOk result (λ lookup. lookup.first ≡ first) }
        ensures unsent { IfOk result (λ lookup. lookup.sends ≡ 0) }
        ensures waits { IfOk result (λ lookup. (lookup.asked_at ≡ now) × (lookup.timeouts ≡ 0)) }
    {
        Ok(Lookup {
            number,
            query: Vec::from_slice(alloc, query)?,
            first,
            sends: 0,
            went_out: false,
            is_plain: false,
            was_lost: false,
            asked_at: now,
            timeouts: 0,
            kept: None,
            chain: None,
        })
    }

    /// The octets of what is asked now: what asks its chain on, or the query itself.
    pub(crate) fn asked(&self) -> &[u8]
        ensures { result.now ≡ asked_by self.now }
    {
        match &self.chain {
            Some(chain) => chain.follow_up_octets(),
            None => self.query.as_slice(),
        }
    }

    /// The id of the query.
    pub(crate) fn id(&self) -> u16 {
        id_of(self.query.as_slice())
    }

    /// The one of so many servers that it was sent to last, if it was.
    pub(crate) fn last_server(&self, servers: usize) -> Option<usize> {
        if servers == 0 || self.sends == 0 {
            return None;
        }
        Some(server_at(self.first, self.sends - 1, servers))
    }

    /// The millisecond at which its time is over, where each send is waited for so long.
    pub(crate) fn late_at(&self, time: u64) -> u64
        ensures { result ≡ late_from self.now.asked_at time }
    {
        self.asked_at.saturating_add(time)
    }

    /// Counts that no reply came in time, and begins another wait. It tells whether that was the
    /// last one of so many.
    pub(crate) fn count_timeout(&mut self, now: u64, count: u8) -> bool
        ensures counted { self.new ≡ record self.old {
          asked_at = now;
          timeouts = min (self.old.timeouts + 1) 255;
        } }
        ensures last { IsTrue result ↔ (count ≤ self.old.timeouts + 1) }
    {
        self.asked_at = now;
        self.timeouts = self.timeouts.saturating_add(1);
        count <= self.timeouts
    }

    /// Lets it go, and gives its number.
    pub(crate) fn let_go(self) -> u64 {
        let number = self.number;
        drop(self);
        number
    }

    /// Begins with what asks a chain on, which goes to this server first.
    pub(crate) fn go_on(&mut self, chain: OpenChain, first: usize)
        ensures first { self.new.first ≡ first }
        ensures unsent { self.new.sends ≡ 0 }
    {
        drop(self.chain.replace(chain));
        self.first = first;
        self.sends = 0;
        self.kept = None;
    }
}
