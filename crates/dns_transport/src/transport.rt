//! The loop.

use crate::exchanges::Exchanges;
use crate::link::{Step, System};
use crate::links::Links;
use crate::query::{End, Query};
use crate::route::Route;
use std::alloc::Global;
use std::io::{self, ErrorKind};
use std::marker::Model;

/// How many queries are out at most.
pub const QUERY_LIMIT: usize = 1_024;

/// How many links are open at most.
pub const LINK_LIMIT: usize = 512;

/// How many queries are out over one connection at most (RFC 7766 6.2.1).
const SHARE_LIMIT: usize = 64;

/// How many messages are taken before deadlines are looked at again.
const MESSAGE_LIMIT: usize = 256;

/// Queries that are out side by side.
#[derive(Drop)]
pub struct Transport<S: System> {
    alloc: Global,
    system: S,
    next_key: usize,
    exchanges: Exchanges,
    links: Links<S::Link>,
    ready: Vec<usize>,
}

impl<S: System> Model for Transport<S> {
    ghost use Rattle.dns_transport.specs.Ends.{TransportView};

    ghost Value = { TransportView S };

    ghost view = { λ it. record { system = it.system; exchanges = it.exchanges } };
}

impl<S: System + Drop> Transport<S> {
    ghost use Rattle.std.specs.Prelude.{◌≡◌, ◌++◌, Bool, ◌∷◌, [], ◌<◌, ◌≤◌, ℕ, MatchOption, OnErr, OnOk, length};
    ghost use Rattle.std.specs.List.{All};
    ghost use Rattle.dns_transport.specs.Ends.{EndsOne, HasIdOver, IsAnyOf, IsOf, without_number};

    /// Nothing is out.
    pub fn new(alloc: Global, system: S) -> Transport<S>
        ensures { result ≡ record { system = system; exchanges = [] } }
    {
        Transport {
            alloc,
            system,
            next_key: 0,
            exchanges: Exchanges::new(alloc),
            links: Links::new(alloc),
            ready: Vec::new(alloc),
        }
    }

    /// The millisecond that the system says it is.
    pub fn now(&self) -> u64
        ensures { S.shows result }
    {
        self.system.now()
    }

    /// Whether a query of this number is out.
    pub fn has_number(&self, number: u64) -> bool
        ensures { IsAnyOf (λ it. it.query.number ≡ number) self.now.exchanges result }
    {
        self.exchanges.has_number(number)
    }

    /// Whether a query of this number is out over this route.
    pub fn has_number_over(&self, number: u64, route: Route) -> bool
        ensures { IsAnyOf (IsOf number route) self.now.exchanges result }
    {
        self.exchanges.has_number_over(number, route)
    }

    /// Whether a query of this id is out over this route.
    pub fn has_id(&self, route: Route, id: u16) -> bool
        ensures { IsAnyOf (HasIdOver route id) self.now.exchanges result }
    {
        self.exchanges.has_id(route, id)
    }

    /// Sends a query: over a link of its own, or over a connection that is open.
    ///
    /// # Errors
    ///
    /// Those of the system, `OutOfMemory`, and `QuotaExceeded` where as many queries are out, or
    /// links open, as can be. Then no query is out that was not before.
    pub fn send(&mut self, query: Query) -> io::Result<()>
        ensures out { OnOk result ((key : ℕ) × (shared : Bool) × (self.new.exchanges
            ≡ self.old.exchanges
            ++ record { key = key; shared = shared; query = query } ∷ [])) }
        ensures sent { OnOk result
            (S.sends self.old.system query.octets.items query.route self.new.system) }
        ensures refused { OnErr result (self.new.exchanges ≡ self.old.exchanges) }
        ensures bound { OnOk result (length self.new.exchanges ≤ 1024) }
    {
        if self.exchanges.len() >= QUERY_LIMIT {
            return Err(io::Error::from(ErrorKind::QuotaExceeded));
        }
        let (key, shared) = self.send_over_link(&query)?;
        self.exchanges.begin(key, shared, query)?;
        Ok(())
    }

    /// Sends a query, and gives the key of the link that it goes over, and whether that was open.
    fn send_over_link(&mut self, query: &Query) -> io::Result<(usize, bool)>
        ensures same { self.new.exchanges ≡ self.old.exchanges }
        ensures sent { OnOk result
            (S.sends self.old.system query.now.octets.items query.now.route self.new.system) }
    {
        if let Some(key) = self.shared_key(query) {
            let octets = query.octets.as_slice();
            self.links
                .send(&mut self.system, self.alloc, key, query.route, octets)?;
            return Ok((key, true));
        }
        let key = self.open(query)?;
        Ok((key, false))
    }

    /// The key of a connection that a query may go over and that has room for it.
    fn shared_key(&self, query: &Query) -> Option<usize> {
        if !query.shares || !query.route.over_tcp {
            return None;
        }
        let key = self.links.key_over(query.route)?;
        if self.exchanges.count_of(key) < SHARE_LIMIT {
            Some(key)
        } else {
            None
        }
    }

    /// Opens a link for a query, begins to send it, and gives the key of the link.
    fn open(&mut self, query: &Query) -> io::Result<usize>
        ensures same { self.new.exchanges ≡ self.old.exchanges }
        ensures sent { OnOk result
            (S.sends self.old.system query.now.octets.items query.now.route self.new.system) }
    {
        if self.links.len() >= LINK_LIMIT {
            return Err(io::Error::from(ErrorKind::QuotaExceeded));
        }
        let key = self.next_key;
        self.next_key = key.wrapping_add(1);
        let link = self
            .system
            .open(self.alloc, query.route, key, query.octets.as_slice())?;
        self.links.open(key, link)?;
        Ok(key)
    }

    /// Lets the queries of a number go: nothing more is told of them. A connection over which one
    /// has no reply takes no other query.
    pub fn leave(&mut self, number: u64)
        ensures { self.new.exchanges ≡ without_number number self.old.exchanges }
    {
        'queries: while let Some(key) = self.exchanges.leave_one(number) {
            self.links.retire(key);
            self.rest(key);
        }
    }

    /// Notes that a query is out no more over the link of a key.
    fn rest(&mut self, key: usize)
        ensures { self.new.exchanges ≡ self.old.exchanges }
    {
        if self.exchanges.count_of(key) == 0 {
            self.links.rest(key, &self.system);
        }
    }

    /// Ends a query whose link failed, if there is one.
    fn take_failed(&mut self) -> Option<End>
        ensures { MatchOption result (self.new.exchanges ≡ self.old.exchanges)
            (EndsOne S.Link.hears S.shows self.old.exchanges self.new.exchanges) }
    {
        'links: for _link in 0..self.links.len() {
            let Some(key) = self.links.failed_key() else {
                return None;
            };
            if let Some(end) = self.exchanges.take_failed(key) {
                return Some(end);
            }
            self.links.close(key);
        }
        None
    }

    /// Ends the query that a message ends which came over the link of a key, from where this route
    /// goes.
    fn take_heard(&mut self, key: usize, route: Route, message: Vec<u8>) -> Option<End>
        requires heard { S.Link.hears route message.items }
        ensures { MatchOption result (self.new.exchanges ≡ self.old.exchanges)
            (EndsOne S.Link.hears S.shows self.old.exchanges self.new.exchanges) }
    {
        let octets = message.as_slice();
        if let Some(end) = self.exchanges.take_in_other_letters(key, route, octets) {
            return Some(end);
        }
        self.exchanges.take_answered(key, route, message)
    }

    /// Takes what came over the link of a key.
    fn take_ready(&mut self, key: usize) -> Option<End>
        ensures { MatchOption result (self.new.exchanges ≡ self.old.exchanges)
            (EndsOne S.Link.hears S.shows self.old.exchanges self.new.exchanges) }
    {
        let Some((route, Step::Message(message))) = self.links.step(self.alloc, key) else {
            return None;
        };
        let Some(end) = self.take_heard(key, route, message) else {
            return None;
        };
        self.rest(key);
        Some(end)
    }

    /// Takes what came over the links that are ready, in turn, until a query ends by it.
    fn take_all_ready(&mut self) -> Option<End>
        ensures { MatchOption result (self.new.exchanges ≡ self.old.exchanges)
            (EndsOne S.Link.hears S.shows self.old.exchanges self.new.exchanges) }
    {
        'messages: for _message in 0..MESSAGE_LIMIT {
            let Some(key) = self.links.next_ready() else {
                return None;
            };
            if let Some(end) = self.take_ready(key) {
                return Some(end);
            }
        }
        None
    }

    /// Ends a query whose deadline has come. A connection that it went over takes no other query.
    fn take_silent(&mut self) -> Option<End>
        ensures { MatchOption result
            ((self.new.exchanges ≡ self.old.exchanges) × (now : ℕ) × S.shows now
            × All (λ it. now < it.query.deadline) self.new.exchanges)
            (EndsOne S.Link.hears S.shows self.old.exchanges self.new.exchanges) }
    {
        let now = self.system.now();
        let Some((key, end)) = self.exchanges.take_over(now) else {
            return None;
        };
        if end.query.route.over_tcp {
            self.links.retire(key);
        }
        self.rest(key);
        Some(end)
    }

    /// The next end that is known without waiting. None: each query that is out has a deadline
    /// that is still to come.
    pub fn poll_end(&mut self) -> Option<End>
        ensures { MatchOption result
            ((self.new.exchanges ≡ self.old.exchanges) × (now : ℕ) × S.shows now
            × All (λ it. now < it.query.deadline) self.new.exchanges)
            (EndsOne S.Link.hears S.shows self.old.exchanges self.new.exchanges) }
    {
        if let Some(end) = self.take_all_ready() {
            return Some(end);
        }
        if let Some(end) = self.take_failed() {
            return Some(end);
        }
        self.take_silent()
    }

    /// Waits until a link is ready, the first deadline comes or so many milliseconds are over.
    pub fn wait(&mut self, most: u64)
        ensures { self.new.exchanges ≡ self.old.exchanges }
    {
        let now = self.system.now();
        self.links.leave_idle(now);
        let most = self.wait_at(now).min(most);
        self.ready.clear();
        drop(self.system.wait(most, &mut self.ready));
        for key in self.ready.iter() {
            self.links.mark_ready(*key);
        }
    }

    /// How long it may wait at most.
    fn wait_at(&self, now: u64) -> u64 {
        if self.links.has_ready() {
            return 0;
        }
        let until = self.exchanges.next_deadline().unwrap_or(u64::MAX);
        until.saturating_sub(now)
    }
}
