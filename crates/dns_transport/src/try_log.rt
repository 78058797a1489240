//! What goes over a wire, as it is noted.
ghost use Rattle.std.specs.Prelude.{◌≡◌, [], length, IfOk, IfSome, ◌<◌, slice_get};
ghost use Rattle.std.specs.List.{All, HoldsAt};
ghost use Rattle.dns_transport.specs.WireCounts.{none, with_query, with_reply};
ghost use Rattle.dns_transport.specs.WireTries.{Asks, IsTry};
ghost use Rattle.dns_transport.specs.WireTries as spec;

use crate::reply_bits::rcode_of;
use crate::wire_counts::WireCounts;
use crate::wire_try::{TryRoute, WireReply, WireTry, id_of};
use dns_message::{Asked, law_one_message_in_front, message_in};
use std::alloc::{AllocError, Global};
use std::marker::Model;
use std::mem;
use std::net::SocketAddr;
use std::time::Duration;

/// A copy of the first of these questions, if there is one.
fn first_of(questions: &[Asked]) -> Result<Option<Asked>, AllocError>
    ensures { IfOk result (λ first. first ≡ slice_get questions.now 0) }
{
    match questions {
        [asked, ..] => Ok(Some(asked.try_clone()?)),
        [] => Ok(None),
    }
}

/// What a query asks.
fn asked_in(alloc: Global, query: &[u8]) -> Result<Option<Asked>, AllocError>
    ensures { IfOk result (Asks query.now) }
{
    law_one_message_in_front();
    match message_in(alloc, query)? {
        Some(message) => first_of(message.questions.as_slice()),
        None => Ok(None),
    }
}

/// What is kept of a message that came.
fn reply_of(alloc: Global, came_at: Duration, message: &[u8]) -> Result<WireReply, AllocError>
    ensures { IfOk result (spec.IsReplyTo (spec.id_of message.now)) }
{
    let rcode = rcode_of(alloc, message)?;
    let found = message_in(alloc, message)?;
    Ok(WireReply {
        rcode,
        octets: message.len(),
        message: found,
        came_at,
    })
}

/// How much went over a wire, and each try where tries are kept.
#[derive(Drop)]
pub(crate) struct TryLog {
    alloc: Global,
    is_kept: bool,
    tries: Vec<WireTry>,
    counts: WireCounts,
    /// The server from which a message came last.
    last_server: Option<SocketAddr>,
}

impl Model for TryLog {
    ghost use Rattle.std.specs.List.{All};
    ghost use Rattle.dns_transport.specs.WireTries.{IsTry, LogValue};

    ghost Value = { LogValue };

    ghost view = { λ it. record {
      counts = it.counts;
      tries = it.tries.items;
      last_server = it.last_server;
    } };

    ghost invariant = { λ it. All IsTry it.tries.items };
}

impl TryLog {
    /// Nothing went over the wire.
    pub(crate) fn new(alloc: Global, is_kept: bool) -> TryLog
        ensures { (result.counts ≡ none) × (result.tries ≡ []) }
    {
        TryLog {
            alloc,
            is_kept,
            tries: Vec::new(alloc),
            counts: WireCounts::default(),
            last_server: None,
        }
    }

    /// The server from which a message came last, if one came.
    pub(crate) fn last_server(&self) -> Option<SocketAddr>
        ensures { result ≡ self.now.last_server }
    {
        self.last_server
    }

    /// How much went over the wire.
    pub(crate) fn counts(&self) -> WireCounts
        ensures { result ≡ self.now.counts }
    {
        self.counts
    }

    /// Keeps a try.
    fn keep(&mut self, sent_at: Duration, route: TryRoute, query: &[u8]) -> Result<(), AllocError>
        ensures counts { self.new.counts ≡ self.old.counts }
        ensures last { self.new.last_server ≡ self.old.last_server }
    {
        let asked = asked_in(self.alloc, query)?;
        self.tries.push(WireTry {
            asked,
            id: id_of(query),
            route,
            sent_at,
            reply: None,
        })?;
        Ok(())
    }

    /// Notes that a query goes out. One for which memory is refused is counted and not kept.
    pub(crate) fn sent(&mut self, sent_at: Duration, route: TryRoute, query: &[u8], is_first: bool)
        ensures counts { self.new.counts ≡ with_query is_first route.over_tcp self.old.counts }
        ensures last { self.new.last_server ≡ self.old.last_server }
    {
        self.counts = self.counts.with_query(is_first, route.over_tcp);
        if self.is_kept {
            let _ = self.keep(sent_at, route, query);
        }
    }

    /// The last try to which a message of this id may be the reply.
    fn place_awaiting(&self, id: u16, server: SocketAddr, over_tcp: bool) -> Option<usize>
        ensures inside { IfSome result (λ at. at < length self.now.tries) }
        ensures of_id { IfSome result (HoldsAt (λ one. one.id ≡ id) self.now.tries) }
    {
        self.tries
            .iter()
            .rposition(|one| one.awaits(id, server, over_tcp))
    }

    /// Keeps a message as the reply to the try at this place.
    fn keep_reply(&mut self, at: usize, came_at: Duration, message: &[u8]) -> Result<(), AllocError>
        requires inside { at < length self.old.tries }
        requires of_id { HoldsAt (λ one. one.id ≡ spec.id_of message.now) self.old.tries at }
        ensures counts { self.new.counts ≡ self.old.counts }
        ensures last { self.new.last_server ≡ self.old.last_server }
    {
        let reply = reply_of(self.alloc, came_at, message)?;
        self.tries[at].reply = Some(reply);
        Ok(())
    }

    /// Notes that a message came from a server. One for which memory is refused is counted and not
    /// kept.
    pub(crate) fn came(
        &mut self,
        came_at: Duration,
        server: SocketAddr,
        over_tcp: bool,
        message: &[u8],
    )
        ensures counts { self.new.counts ≡ with_reply self.old.counts }
        ensures last { self.new.last_server ≡ Some server }
    {
        self.counts = self.counts.with_reply();
        self.last_server = Some(server);
        if let Some(at) = self.place_awaiting(id_of(message), server, over_tcp) {
            let _ = self.keep_reply(at, came_at, message);
        }
    }

    /// Gives the tries that were kept, and keeps those that follow.
    pub(crate) fn take(&mut self) -> Vec<WireTry>
        ensures counts { self.new.counts ≡ self.old.counts }
        ensures last { self.new.last_server ≡ self.old.last_server }
        ensures taken { result.items ≡ self.old.tries }
        ensures none { self.new.tries ≡ [] }
        ensures tries { All IsTry result.items }
    {
        let none = Vec::new(self.alloc);
        mem::replace(&mut self.tries, none)
    }
}
