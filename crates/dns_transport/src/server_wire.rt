//! A wire to DNS servers over sockets.
ghost use Rattle.std.specs.Prelude.{◌≡◌, ◌↔◌, ◌+◌, ◌%◌, ◌^◌, ◌<◌, ◌≤◌, ℕ, List, None, false, true, IfOk, IfSome, IsFalse, IsSome, IsTrue, OnErr, OnOk, length, slice_get};
ghost use Rattle.std.specs.List.{All};
ghost use Rattle.dns_queries.specs.MessageWires.{IfMessage};
ghost use Rattle.dns_transport.specs.Attempts.{TellsTimeout};
ghost use Rattle.dns_transport.specs.CnameChains.{EndsWith, IsHandedOn, OpenValue};
ghost use Rattle.dns_transport.specs.Deadlines.{IsAfter, time_over};
ghost use Rattle.dns_transport.specs.Ends.{HasIdOver};
ghost use Rattle.dns_transport.specs.Letters.{IsRespelled};
ghost use Rattle.dns_transport.specs.QueryForms.{form_for};
ghost use Rattle.dns_transport.specs.ServerOrders as orders;
ghost use Rattle.dns_transport.specs.Steps.{IfReplied, Steps};
ghost use Rattle.dns_transport.specs.Sends.{HasAsked, asked_by, sent_octets, with_id};
ghost use Rattle.dns_transport.specs.Wires.{HandsOn, IsKnownAfter, Refuses, with_refusal};

use crate::attempts::Attempts;
use crate::letters::respell;
use crate::link::System;
use crate::lookup::Lookup;
use crate::lookups::{LOOKUP_LIMIT, Lookups};
use crate::open_chain::{OpenChain, Step};
use crate::query::{End, Outcome, Query};
use crate::query_form::QueryForm;
use crate::reply_bits::{is_cut, may_have_cname, refuses_edns, tells_failure};
use crate::reply_times::ReplyTimes;
use crate::route::Route;
use crate::server::Server;
use crate::server_order::{server_at, turn_of};
use crate::transport::Transport;
use crate::try_log::TryLog;
use crate::wire_counts::WireCounts;
use crate::wire_try::{Tracer, TryRoute, WireTry, id_of};
use dns_queries::{MessageWire, Received};
use rand_core::Rng;
use std::alloc::{AllocError, Global};
use std::io::ErrorKind;
use std::net::SocketAddr;
use std::time::Duration;

/// How long a receive waits at most, in milliseconds.
const RECEIVE_TIME: u64 = 100;

/// How many queries may end at one receive.
const END_LIMIT: usize = 1_024;

/// The most octets of a reply that asks a chain on, or is put behind others of one.
const CHAIN_REPLY_LIMIT: usize = 4_096;

/// How many ids are drawn at most for a query.
const DRAW_LIMIT: usize = 64;

/// How a wire asks.
#[derive(Clone, Copy, Debug)]
pub struct WireOptions {
    /// Whether all goes over TCP.
    pub over_tcp: bool,
    /// The form in which queries go out.
    pub form: QueryForm,
    /// How often a query is sent, and how long each send is waited for.
    pub attempts: Attempts,
    /// How long replies are waited for.
    pub reply_times: ReplyTimes,
    /// Whether each query of the caller begins with the server after the one that the query before
    /// it began with, round all servers.
    pub rotates: bool,
    /// Whether each query that goes out is kept for `take_tries`.
    pub keeps_tries: bool,
    /// After how long the time of the wire is over.
    pub total: Duration,
}

/// What becomes of a query of the caller.
#[derive(Drop)]
enum Course {
    /// It is open.
    Open,
    /// It is over, and these octets are the reply to it.
    Replied(Vec<u8>),
    /// It is over without a reply.
    Over,
    /// It is over, as no server takes it.
    Closed,
}

/// A wire to DNS servers over sockets.
///
/// A query is sent as often as `WireOptions::attempts` says, until a reply comes: the wire sends it
/// again by itself, each time when the wait for the send before is over, and tells when the last
/// wait is (`Received::TimedOut`). Where the caller sends a query that is open, nothing is done.
///
/// The first send of a query goes to the first server, the second to the second, and so on round. A
/// server that comes first and does not reply in time, or can't be reached, comes last from then
/// on: the queries that follow go round from the one after it. Where servers take turns
/// (`WireOptions::rotates`), each query goes round from the server after the one that the query
/// before it went to first, whatever came of that. Each send in a datagram has a socket
/// and an id of its own (RFC 5452 9.2), and a message counts only where it comes from the server
/// that was asked, over that socket or connection, with the id and the question that went out.
/// What is sent to one server over TCP shares a connection (RFC 7766 6.2.1).
///
/// A reply that was cut is asked for again over TCP, from the same server, and the whole one is
/// given; where that fails the next server is asked, and where none is left the cut one is given.
///
/// Where a send or a receive fails, as at a closed port, or where a reply has the RCODE FORMERR,
/// SERVFAIL, NOTIMP or REFUSED (RFC 1035 4.1.1), the query goes to the next server at once, as long
/// as there is one that was not asked (RFC 1035 7.2). Where there is none, the reply is given; and
/// where none came and no other send is waited for, it is told that no server takes the query.
///
/// In a datagram the letters of the name have cases that are drawn (RFC 5452 9.3, RFC 4343 3).
/// Where a reply has other letters, its server is asked once more, in small letters.
///
/// Where queries have an OPT record and a server refuses that, by FORMERR, NOTIMP or an RCODE
/// greater than 15, it is asked the same once more without one, and from then on so (RFC 6891
/// 6.2.2, 7). Such a reply is never given: where it comes again, it is as if the send had failed.
/// Where memory is refused to look whether a reply is such a one, it is lost, and its server is
/// asked as before.
///
/// Where a reply without a fault has CNAME records that lead from the name that is asked to one
/// about which it says nothing, the server cut a chain short (RFC 1034 5.2.2, RFC 2308 2.2). The
/// same is then asked of that name, of the same servers and by the same rules, and what is given is
/// one reply to the first question, put together from all replies: up to eight CNAME records, and
/// no reply of more than 4,096 octets.
/// Where memory is refused for it, the first reply is given as it came, and a further one is lost.
#[derive(Drop)]
pub struct ServerWire<S: System, G> {
    alloc: Global,
    transport: Transport<S>,
    draws: G,
    servers: Vec<Server>,
    /// The server that a query goes to first, where servers don't take turns.
    first: usize,
    options: WireOptions,
    lookups: Lookups,
    next_number: u64,
    /// The ids of queries that no server takes, which is still to be told.
    closed: Vec<u16>,
    log: TryLog,
    /// The millisecond at which the time of the wire is over.
    until: u64,
}

/// The milliseconds of a time.
fn milliseconds(time: Duration) -> u64 {
    u64::try_from(time.as_millis()).unwrap_or(u64::MAX)
}

/// Gives a message this id.
fn set_id(id: u16, message: &mut [u8])
    ensures { message.new ≡ with_id id message.old }
{
    if message.len() >= 2 {
        let [high, low] = id.to_be_bytes();
        message[0] = high;
        message[1] = low;
    }
}

/// Whether an error of the system says that a server can't be reached: all others are of this host.
fn is_refusal(kind: ErrorKind) -> bool {
    matches!(
        kind,
        ErrorKind::ConnectionRefused
            | ErrorKind::ConnectionReset
            | ErrorKind::ConnectionAborted
            | ErrorKind::HostUnreachable
            | ErrorKind::NetworkUnreachable
            | ErrorKind::NetworkDown
            | ErrorKind::PermissionDenied
    )
}

/// Lets a query of the caller go that no server takes, and tells of it.
fn tell_closed(lookup: Lookup) -> Option<Received>
    ensures no_message { IfSome result (λ it. IfMessage it (λ _. ⊥)) }
    ensures in_time { TellsTimeout result → ⊥ }
{
    let id = lookup.id();
    lookup.let_go();
    Some(Received::Closed(id))
}

/// Whether a query has an additional record: its OPT record.
fn has_opt(query: &[u8]) -> bool {
    query.len() > 11 && query[11] != 0
}

/// The servers of these addresses.
fn servers_at(alloc: Global, addresses: &[SocketAddr]) -> Result<Vec<Server>, AllocError> {
    let mut servers = Vec::with_capacity(alloc, addresses.len())?;
    'addresses: for address in addresses {
        servers.push(Server::new(*address))?;
    }
    Ok(servers)
}

impl<S: System + Drop, G: Rng + Drop> ServerWire<S, G> {
    /// A wire to these servers, with a source of ids.
    pub fn new(
        alloc: Global,
        system: S,
        draws: G,
        addresses: &[SocketAddr],
        options: WireOptions,
    ) -> Result<ServerWire<S, G>, AllocError> {
        let servers = servers_at(alloc, addresses)?;
        let transport = Transport::new(alloc, system);
        let until = transport.now().saturating_add(milliseconds(options.total));
        Ok(ServerWire {
            alloc,
            transport,
            draws,
            servers,
            first: 0,
            options,
            lookups: Lookups::new(alloc),
            next_number: 0,
            closed: Vec::new(alloc),
            log: TryLog::new(alloc, options.keeps_tries),
            until,
        })
    }

    /// How much went over the wire.
    #[must_use]
    pub fn counts(&self) -> WireCounts {
        self.log.counts()
    }

    /// The time since the system was made, where tries are kept with it; else none is looked at.
    fn time_of_try(&self) -> Duration {
        if self.options.keeps_tries {
            Duration::from_millis(self.transport.now())
        } else {
            Duration::ZERO
        }
    }

    /// The form in which a query goes to a server.
    fn form_for(&self, server: usize) -> QueryForm
        ensures { result
            ≡ form_for self.now.options.form (slice_get self.now.servers.items server) }
    {
        match self.servers.get(server) {
            Some(server) if server.refused_edns => self.options.form.without_edns(),
            _ => self.options.form,
        }
    }

    /// Whether a message refuses the EDNS that is asked for.
    fn refuses(&self, message: &[u8]) -> Result<bool, AllocError>
        ensures told { IfOk result
            (λ is. IsTrue is ↔ Refuses self.now.options.form message.now) }
        ensures handed_on { IfOk result
            (λ is. IsFalse is → HandsOn self.now.options.form message.now) }
    {
        if self.options.form.edns.is_none() {
            return Ok(false);
        }
        refuses_edns(self.alloc, message)
    }

    /// Lets a server count as one that refuses EDNS.
    fn note_refusal(&mut self, server: usize)
        ensures noted { self.new.servers.items ≡ with_refusal server self.old.servers.items }
    {
        if server < self.servers.len() {
            self.servers[server].refused_edns = true;
        }
    }

    /// Whether a server's reply refuses the EDNS that is asked for. Then the server counts as one
    /// that does. Where memory is refused to look, nothing is known: the server counts as it did.
    fn hears_refusal(&mut self, server: usize, reply: &[u8]) -> Result<bool, AllocError>
        ensures told { IfOk result (λ is. IsTrue is ↔ Refuses self.old.options.form reply.now) }
        ensures refusing { IfOk result (λ is. IsTrue is
            → self.new.servers.items ≡ with_refusal server self.old.servers.items) }
        ensures taking { IfOk result
            (λ is. IsFalse is → self.new.servers.items ≡ self.old.servers.items) }
        ensures unknown { OnErr result (self.new.servers.items ≡ self.old.servers.items) }
    {
        let refuses = self.refuses(reply)?;
        if refuses {
            self.note_refusal(server);
        }
        Ok(refuses)
    }

    /// An id that no query has which is out over the same route (RFC 7766 6.2.1), if one is drawn.
    fn fresh_id(&mut self, route: Route) -> Option<u16>
        ensures transport { self.new.transport ≡ self.old.transport }
        ensures options { self.new.options ≡ self.old.options }
        ensures servers { self.new.servers ≡ self.old.servers }
        ensures free { IfSome result
            (λ id. All (λ it. HasIdOver route id it → ⊥) self.old.transport.exchanges) }
    {
        'draws: for _draw in 0..DRAW_LIMIT {
            let id = (self.draws.next_u32() % 65_536) as u16;
            if !self.transport.has_id(route, id) {
                return Some(id);
            }
        }
        None
    }

    /// When a query is waited for no more that is sent now.
    fn deadline(&self, over_tcp: bool) -> u64
        ensures { IsAfter S.shows (time_over self.now.options.reply_times over_tcp) result }
    {
        let time = self.options.reply_times.of(over_tcp);
        self.transport.now().saturating_add(time)
    }

    /// The octets that go out for what is asked, in this form and with this id, and in letters that
    /// are drawn, if they are to be.
    fn octets_of(
        &mut self,
        form: QueryForm,
        id: u16,
        asked: &[u8],
        draws_letters: bool,
    ) -> Result<Vec<u8>, AllocError>
        ensures transport { self.new.transport ≡ self.old.transport }
        ensures options { self.new.options ≡ self.old.options }
        ensures servers { self.new.servers ≡ self.old.servers }
        ensures octets { IfOk result (λ octets. IsRespelled (length asked.now)
            (sent_octets form id asked.now) octets.items) }
        ensures plain { IfOk result
            (λ octets. draws_letters ≡ false → octets.items ≡ sent_octets form id asked.now) }
    {
        let mut octets = form.octets(self.alloc, asked)?;
        set_id(id, octets.as_mut_slice());
        if draws_letters {
            respell(&mut self.draws, asked.len(), octets.as_mut_slice());
        }
        Ok(octets)
    }

    /// Notes that a query goes out.
    fn note_sent(&mut self, lookup: &mut Lookup, route: TryRoute, octets: &[u8])
        ensures same { self.new.transport ≡ self.old.transport }
        ensures options { self.new.options ≡ self.old.options }
        ensures servers { self.new.servers ≡ self.old.servers }
        ensures lookup { lookup.new ≡ record lookup.old { went_out = true } }
        ensures asks { asked_by lookup.new ≡ asked_by lookup.old }
    {
        let now = self.time_of_try();
        self.log.sent(now, route, octets, !lookup.went_out);
        lookup.went_out = true;
    }

    /// The server at a place.
    fn server(&self, place: usize) -> Option<Server>
        ensures { result ≡ slice_get self.now.servers.items place }
    {
        self.servers.get(place).copied()
    }

    /// Asks a server, and tells whether its reply may come. What is out over TCP to a server is not
    /// sent there once more.
    fn ask(&mut self, lookup: &mut Lookup, server: usize, over_tcp: bool) -> bool
        ensures servers { self.new.servers ≡ self.old.servers }
        ensures first { lookup.new.first ≡ lookup.old.first }
        ensures asked { IsTrue result → HasAsked S.sends S.shows lookup.old over_tcp
            self.old.options (slice_get self.old.servers.items server)
            self.old.transport self.new.transport }
    {
        let Some(to) = self.server(server) else {
            return false;
        };
        let route = Route {
            server: to.address,
            over_tcp,
        };
        if over_tcp && self.transport.has_number_over(lookup.number, route) {
            return true;
        }
        let form = self.form_for(server);
        let has_drawn_letters = !over_tcp && !lookup.is_plain;
        let Some(id) = self.fresh_id(route) else {
            lookup.was_lost = true;
            return false;
        };
        let Ok(octets) = self.octets_of(form, id, lookup.asked(), has_drawn_letters) else {
            lookup.was_lost = true;
            return false;
        };
        let try_route = TryRoute {
            server: route.server,
            over_tcp,
            has_edns: form.edns.is_some(),
        };
        self.note_sent(lookup, try_route, octets.as_slice());
        let query = Query {
            number: lookup.number,
            route,
            octets,
            front: lookup.asked().len(),
            has_drawn_letters,
            shares: to.shares,
            deadline: self.deadline(over_tcp),
        };
        match self.transport.send(query) {
            Ok(()) => {
                lookup.was_lost = false;
                true
            }
            Err(error) => {
                lookup.was_lost |= !is_refusal(error.kind());
                false
            }
        }
    }

    /// The server that the query of the caller of a number goes to first.
    fn first_for(&self, number: u64) -> usize
        ensures { result ≡ orders.first_for self.now.options.rotates self.now.first number
            (length self.now.servers.items) }
    {
        let servers = self.servers.len();
        if self.options.rotates && servers > 0 {
            turn_of(number, servers)
        } else {
            self.first
        }
    }

    /// Asks the server whose turn it is, and tells whether its reply may come.
    fn ask_in_turn(&mut self, lookup: &mut Lookup) -> bool
        ensures servers { self.new.servers ≡ self.old.servers }
        ensures first { lookup.new.first ≡ lookup.old.first }
        ensures asked { IsTrue result → HasAsked S.sends S.shows lookup.old
            self.old.options.over_tcp self.old.options (slice_get self.old.servers.items
            (orders.server_at lookup.old.first lookup.old.sends (length self.old.servers.items)))
            self.old.transport self.new.transport }
    {
        let servers = self.servers.len();
        if servers == 0 {
            return false;
        }
        let server = server_at(lookup.first, lookup.sends, servers);
        let is_asked = self.ask(lookup, server, self.options.over_tcp);
        lookup.sends = lookup.sends.saturating_add(1);
        if is_asked {
            lookup.asked_at = self.transport.now();
        }
        is_asked
    }

    /// Asks the next server, or one behind it that can be asked, and tells whether one was asked.
    fn ask_next(&mut self, lookup: &mut Lookup) -> bool
        ensures servers { self.new.servers ≡ self.old.servers }
        ensures first { lookup.new.first ≡ lookup.old.first }
    {
        let servers = self.servers.len();
        'servers: for _server in 0..servers {
            if self.ask_in_turn(lookup) {
                return true;
            }
            if lookup.sends >= servers {
                return false;
            }
        }
        false
    }

    /// The server of an address.
    fn server_of(&self, address: SocketAddr) -> Option<usize> {
        self.servers.iter().position(|it| it.address == address)
    }

    /// Lets a server that comes first come last: it did not reply in time, or can't be reached.
    fn put_last(&mut self, server: usize)
        ensures { self.new.first ≡ orders.first_after_silence server self.old.first
            (length self.old.servers.items) }
    {
        let servers = self.servers.len();
        if servers > 0 && server == self.first {
            self.first = server_at(server, 1, servers);
        }
    }

    /// Keeps a query open.
    fn put(&mut self, lookup: Lookup) {
        if let Some(left) = self.lookups.put(lookup) {
            self.transport.leave(left);
        }
    }

    /// What becomes of a query that this server failed to answer, with this reply, if with one: it
    /// is with another server that was asked since, or with the next one, which is asked now, or
    /// none is left.
    fn go_on(&mut self, lookup: &mut Lookup, server: usize, reply: Option<Vec<u8>>) -> Course
        ensures { self.new.servers ≡ self.old.servers }
    {
        let servers = self.servers.len();
        if reply.is_some() {
            lookup.kept = reply;
        }
        if lookup.last_server(servers) != Some(server) && self.transport.has_number(lookup.number) {
            return Course::Open;
        }
        if lookup.sends < servers && self.ask_next(lookup) {
            return Course::Open;
        }
        match lookup.kept.take() {
            Some(reply) => self.hand_on(lookup, reply),
            None => self.wait_on(lookup),
        }
    }

    /// Whether no server takes a query for which nothing more is sent now: no send of it is waited
    /// for, and none was lost here.
    fn is_closed(&self, lookup: &Lookup) -> bool {
        !lookup.was_lost && !self.transport.has_number(lookup.number)
    }

    /// What becomes of a query for which nothing more is sent now.
    fn wait_on(&self, lookup: &Lookup) -> Course
        ensures { IfReplied result (λ _. ⊥) }
    {
        if self.is_closed(lookup) {
            Course::Closed
        } else {
            Course::Open
        }
    }

    /// What becomes of a query that could not be sent to a server, or to which that gave nothing.
    fn fail(&mut self, lookup: &mut Lookup, server: usize) -> Course {
        self.put_last(server);
        self.go_on(lookup, server, None)
    }

    /// What becomes of a query over a connection that was open before and failed: the server may
    /// have closed it, so that from now on each query to it has a connection of its own.
    fn ask_alone(&mut self, lookup: &mut Lookup, server: usize) -> Course {
        if let Some(server) = self.servers.get_mut(server) {
            server.shares = false;
        }
        if self.ask(lookup, server, true) {
            return Course::Open;
        }
        self.fail(lookup, server)
    }

    /// Asks for a reply over TCP that was cut.
    fn ask_whole(&mut self, lookup: &mut Lookup, server: usize, reply: Vec<u8>) -> Course
        ensures { self.new.servers ≡ self.old.servers }
    {
        lookup.kept = Some(reply);
        if self.ask(lookup, server, true) {
            return Course::Open;
        }
        self.go_on(lookup, server, None)
    }

    /// Asks a server that refused EDNS the same without it, where it was asked with it.
    fn ask_plainly(&mut self, lookup: &mut Lookup, server: usize, query: &Query) -> Course
        ensures { self.new.servers ≡ self.old.servers }
    {
        if has_opt(query.octets.as_slice()) && self.ask(lookup, server, query.route.over_tcp) {
            return Course::Open;
        }
        self.go_on(lookup, server, None)
    }

    /// What becomes of a query whose reply is lost: memory was refused to look whether it refuses
    /// EDNS. It may, so it is not handed on, and the next server is asked. But the fault is of this
    /// host, so the server neither counts as one that refuses EDNS nor comes last, and where none
    /// is left the query stays open.
    fn lose_reply(&mut self, lookup: &mut Lookup, server: usize) -> Course
        ensures { self.new.servers ≡ self.old.servers }
    {
        lookup.was_lost = true;
        self.go_on(lookup, server, None)
    }

    /// Asks a server that changes letters the same once more, as it stands.
    fn ask_in_plain(&mut self, lookup: &mut Lookup, server: usize) -> Course {
        lookup.is_plain = true;
        if self.ask(lookup, server, false) {
            return Course::Open;
        }
        self.go_on(lookup, server, None)
    }

    /// Asks the follow-up of a chain.
    fn ask_follow_up(&mut self, lookup: &mut Lookup, chain: OpenChain) -> Course
        ensures servers { self.new.servers ≡ self.old.servers }
        ensures first { lookup.new.first ≡ orders.first_for self.old.options.rotates
            self.old.first lookup.old.number (length self.old.servers.items) }
        ensures open { IfReplied result (λ _. ⊥) }
    {
        self.transport.leave(lookup.number);
        lookup.go_on(chain, self.first_for(lookup.number));
        if self.ask_next(lookup) {
            return Course::Open;
        }
        self.wait_on(lookup)
    }

    /// What becomes of a query without a chain to which this is the reply: nothing is handed on yet
    /// where a chain begins by it.
    fn begin_chain(&mut self, lookup: &mut Lookup, reply: Vec<u8>) -> Course
        ensures servers { self.new.servers ≡ self.old.servers }
        ensures whole { IfReplied result (λ octets. octets ≡ reply.items) }
    {
        if reply.len() > CHAIN_REPLY_LIMIT || !may_have_cname(reply.as_slice()) {
            return Course::Replied(reply);
        }
        match OpenChain::begin(self.alloc, lookup.query.as_slice(), reply.as_slice()) {
            Ok(Some(chain)) => self.ask_follow_up(lookup, chain),
            Ok(None) | Err(_) => Course::Replied(reply),
        }
    }

    /// What becomes of a query by what a message means to its chain.
    fn follow_step(&mut self, lookup: &mut Lookup, step: Step) -> Course
        ensures servers { self.new.servers ≡ self.old.servers }
        ensures ended { (old : OpenValue) (reply : List ℕ) → Steps old reply step
            → IfReplied result (EndsWith old reply) }
    {
        match step {
            Step::Ended(octets) => Course::Replied(octets),
            Step::FollowUp(chain) => self.ask_follow_up(lookup, chain),
            Step::Stray(chain) => {
                drop(chain);
                Course::Over
            }
        }
    }

    /// What becomes of a query along whose chain this is the reply: nothing is handed on yet where
    /// the chain goes further.
    fn step_chain(&mut self, lookup: &mut Lookup, chain: OpenChain, reply: &[u8]) -> Course
        ensures servers { self.new.servers ≡ self.old.servers }
        ensures ended { IfReplied result (EndsWith chain reply.now) }
    {
        if reply.len() > CHAIN_REPLY_LIMIT {
            drop(chain);
            return Course::Over;
        }
        match chain.step(self.alloc, reply) {
            Ok(step) => self.follow_step(lookup, step),
            Err(_) => Course::Over,
        }
    }

    /// What becomes of a query to which this is the reply: nothing is handed on yet where a chain
    /// is asked on.
    fn hand_on(&mut self, lookup: &mut Lookup, reply: Vec<u8>) -> Course
        ensures servers { self.new.servers ≡ self.old.servers }
        ensures handed_on { IfReplied result (IsHandedOn lookup.old.chain reply.items) }
    {
        match lookup.chain.take() {
            Some(chain) => self.step_chain(lookup, chain, reply.as_slice()),
            None => self.begin_chain(lookup, reply),
        }
    }

    /// What becomes of a query to which a server gave this reply.
    fn hear(
        &mut self,
        lookup: &mut Lookup,
        server: usize,
        query: &Query,
        mut reply: Vec<u8>,
    ) -> Course {
        let now = self.time_of_try();
        self.log.came(
            now,
            query.route.server,
            query.route.over_tcp,
            reply.as_slice(),
        );
        set_id(id_of(lookup.asked()), reply.as_mut_slice());
        if is_cut(reply.as_slice()) && !query.route.over_tcp {
            return self.ask_whole(lookup, server, reply);
        }
        self.hear_whole(lookup, server, query, reply)
    }

    /// What becomes of a query to which a server gave this reply, which nothing more is asked for
    /// over TCP.
    fn hear_whole(
        &mut self,
        lookup: &mut Lookup,
        server: usize,
        query: &Query,
        reply: Vec<u8>,
    ) -> Course
        ensures { IsKnownAfter self.old.options.form server reply.items
            self.old.servers.items self.new.servers.items }
    {
        match self.hears_refusal(server, reply.as_slice()) {
            Ok(true) => self.ask_plainly(lookup, server, query),
            Ok(false) if tells_failure(reply.as_slice()) => {
                self.go_on(lookup, server, Some(reply))
            }
            Ok(false) => self.hand_on(lookup, reply),
            Err(_) => self.lose_reply(lookup, server),
        }
    }

    /// What becomes of a query to which nothing came until the deadline of one that was sent for
    /// it. Silence closes none: it is open until its own time is over.
    fn miss(&mut self, lookup: &mut Lookup, server: usize, query: &Query) -> Course {
        if !query.route.over_tcp {
            return Course::Open;
        }
        match self.fail(lookup, server) {
            Course::Closed => Course::Open,
            course => course,
        }
    }

    /// What becomes of a query of the caller by the end of one that was sent for it.
    fn settle(&mut self, lookup: &mut Lookup, end: End) -> Course {
        let End {
            query,
            shared,
            outcome,
        } = end;
        let Some(server) = self.server_of(query.route.server) else {
            return Course::Open;
        };
        match outcome {
            Outcome::Reply(reply) => self.hear(lookup, server, &query, reply),
            Outcome::Failed if shared => self.ask_alone(lookup, server),
            Outcome::Failed => self.fail(lookup, server),
            Outcome::OtherLetters => self.ask_in_plain(lookup, server),
            Outcome::Silent => self.miss(lookup, server, &query),
        }
    }

    /// Lets a query of the caller go that is over.
    fn end(&mut self, lookup: Lookup) {
        self.transport.leave(lookup.let_go());
    }

    /// Lets a query of the caller go to which this is the reply, and gives that, unless it refuses
    /// EDNS or memory is refused to look.
    fn give(&mut self, lookup: Lookup, reply: Vec<u8>) -> Option<Received>
        ensures handed_on { IfSome result (λ it. IfMessage it (HandsOn self.new.options.form)) }
        ensures in_time { TellsTimeout result → ⊥ }
    {
        self.end(lookup);
        match self.refuses(reply.as_slice()) {
            Ok(false) => Some(Received::Message(reply)),
            Ok(true) | Err(_) => None,
        }
    }

    /// Does what becomes of a query of the caller, and gives what is to be handed on.
    fn follow(&mut self, lookup: Lookup, course: Course) -> Option<Received>
        ensures handed_on { IfSome result (λ it. IfMessage it (HandsOn self.new.options.form)) }
        ensures in_time { TellsTimeout result → ⊥ }
    {
        match course {
            Course::Open => self.put(lookup),
            Course::Replied(reply) => return self.give(lookup, reply),
            Course::Over => self.end(lookup),
            Course::Closed => return tell_closed(lookup),
        }
        None
    }

    /// Sends a query once more, to which no reply came in time, and gives what is to be handed on.
    fn ask_again(&mut self, mut lookup: Lookup) -> Option<Received>
        ensures handed_on { IfSome result (λ it. IfMessage it (HandsOn self.new.options.form)) }
        ensures in_time { TellsTimeout result → ⊥ }
    {
        if let Some(server) = lookup.last_server(self.servers.len()) {
            self.put_last(server);
        }
        let course = if self.ask_next(&mut lookup) {
            Course::Open
        } else {
            self.wait_on(&lookup)
        };
        self.follow(lookup, course)
    }

    /// Lets a query go that was sent as often as it was to, and tells of it. Where a reply was kept
    /// for it, that is handed on.
    fn give_up(&mut self, mut lookup: Lookup) -> Option<Received>
        ensures handed_on { IfSome result (λ it. IfMessage it (HandsOn self.new.options.form)) }
        ensures silent { lookup.kept ≡ None → TellsTimeout result }
        ensures kept { IsSome lookup.kept → TellsTimeout result → ⊥ }
    {
        if let Some(reply) = lookup.kept.take() {
            let course = self.hand_on(&mut lookup, reply);
            return self.follow(lookup, course);
        }
        let id = lookup.id();
        self.end(lookup);
        Some(Received::TimedOut(id))
    }

    /// Goes on with a query to which no reply came in time, and gives what is to be handed on.
    fn time_out(&mut self, mut lookup: Lookup, now: u64) -> Option<Received>
        ensures handed_on { IfSome result (λ it. IfMessage it (HandsOn self.new.options.form)) }
        ensures early { lookup.timeouts + 1 < self.old.options.attempts.count
            → TellsTimeout result → ⊥ }
        ensures late { self.old.options.attempts.count ≤ lookup.timeouts + 1
            → lookup.kept ≡ None → TellsTimeout result }
    {
        if lookup.count_timeout(now, self.options.attempts.count) {
            self.give_up(lookup)
        } else {
            self.ask_again(lookup)
        }
    }

    /// Takes the end of a query, and gives what is to be handed on.
    fn take(&mut self, end: End) -> Option<Received>
        ensures { IfSome result (λ it. IfMessage it (HandsOn self.new.options.form)) }
    {
        let mut lookup = self.lookups.take_number(end.query.number)?;
        let course = self.settle(&mut lookup, end);
        self.follow(lookup, course)
    }

    /// Takes the ends that are known, until one gives something to hand on.
    fn take_ends(&mut self) -> Option<Received>
        ensures { IfSome result (λ it. IfMessage it (HandsOn self.new.options.form)) }
    {
        'ends: for _end in 0..END_LIMIT {
            let end = self.transport.poll_end()?;
            if let Some(received) = self.take(end) {
                return Some(received);
            }
        }
        None
    }

    /// Goes on with the queries to which no reply came in time, until there is something to hand
    /// on.
    fn take_late(&mut self) -> Option<Received>
        ensures { IfSome result (λ it. IfMessage it (HandsOn self.new.options.form)) }
    {
        let now = self.transport.now();
        let time = u64::from(self.options.attempts.time);
        'lookups: for _lookup in 0..LOOKUP_LIMIT {
            let lookup = self.lookups.take_late(now, time)?;
            if let Some(received) = self.time_out(lookup, now) {
                return Some(received);
            }
        }
        None
    }

    /// Tells of a query that no server takes, or what came, or of one whose time is over.
    fn take_all(&mut self) -> Option<Received>
        ensures { IfSome result (λ it. IfMessage it (HandsOn self.new.options.form)) }
    {
        if let Some(id) = self.closed.pop() {
            return Some(Received::Closed(id));
        }
        if let Some(received) = self.take_ends() {
            return Some(received);
        }
        self.take_late()
    }

    /// How many milliseconds a receive may wait: until the time of a query is over, at most.
    fn wait_time(&self) -> u64
        ensures { result ≤ RECEIVE_TIME }
    {
        let time = u64::from(self.options.attempts.time);
        match self.lookups.next_late(time) {
            Some(late_at) => late_at
                .saturating_sub(self.transport.now())
                .min(RECEIVE_TIME),
            None => RECEIVE_TIME,
        }
    }

    /// A query of the caller that was not open: the number that is next is its own.
    fn begin_lookup(&mut self, query: &[u8]) -> Result<Lookup, AllocError>
        ensures number { IfOk result (λ lookup. lookup.number ≡ self.old.next_number) }
        ensures first { IfOk result (λ lookup. lookup.first ≡ orders.first_for
            self.old.options.rotates self.old.first self.old.next_number
            (length self.old.servers.items)) }
        ensures unsent { IfOk result (λ lookup. lookup.sends ≡ 0) }
        ensures next { OnOk result
            (self.new.next_number ≡ (self.old.next_number + 1) % 2 ^ 64) }
        ensures refused { OnErr result (self.new.next_number ≡ self.old.next_number) }
    {
        let number = self.next_number;
        let first = self.first_for(number);
        let lookup = Lookup::new(self.alloc, number, query, first, self.transport.now())?;
        self.next_number = number.wrapping_add(1);
        Ok(lookup)
    }
}

impl<S: System + Drop, G: Rng + Drop> ServerWire<S, G> {
    /// Sends a query of the caller for the first time.
    fn send_first(&mut self, query: &[u8]) {
        let Ok(mut lookup) = self.begin_lookup(query) else {
            return;
        };
        if !self.ask_next(&mut lookup) && self.is_closed(&lookup) {
            self.put_closed(lookup);
            return;
        }
        self.put(lookup);
    }

    /// Keeps that no server takes a query. Where memory is refused for that, the query is open,
    /// until its caller waits for it no more.
    fn put_closed(&mut self, lookup: Lookup) {
        match self.closed.push(lookup.id()) {
            Ok(()) => drop(lookup),
            Err(_) => self.put(lookup),
        }
    }
}

impl<S: System + Drop, G: Rng + Drop> Tracer for ServerWire<S, G> {
    fn take_tries(&mut self) -> Vec<WireTry> {
        self.log.take()
    }

    fn last_server(&self) -> Option<SocketAddr> {
        self.log.last_server()
    }
}

impl<S: System + Drop, G: Rng + Drop> MessageWire for ServerWire<S, G> {
    ghost use Rattle.std.specs.Prelude.{⊤};

    // Nothing is known of what servers send.
    ghost gives = { λ _. ⊤ };

    // Nor of time.
    ghost over = { λ _. ⊤ };

    /// Where a query is open already, nothing is done: the wire sends it again by itself.
    fn send(&mut self, query: &[u8]) {
        if !self.lookups.has(query) {
            self.send_first(query);
        }
    }

    fn leave(&mut self, id: u16) {
        self.closed.retain(|it| *it != id);
        if let Some(number) = self.lookups.leave_id(id) {
            self.transport.leave(number);
        }
    }

    fn receive(&mut self) -> Option<Received> {
        if let Some(received) = self.take_all() {
            return Some(received);
        }
        let most = self.wait_time();
        self.transport.wait(most);
        self.take_all()
    }

    fn is_over(&self) -> bool {
        self.until <= self.transport.now()
    }
}
