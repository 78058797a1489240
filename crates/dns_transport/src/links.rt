//! The links that are open.
ghost use Rattle.std.specs.Prelude.{◌<◌};

use crate::link::{Link, Step, System};
use crate::route::Route;
use std::alloc::{AllocError, Global};
use std::io::{self, ErrorKind};

/// How long a connection is kept over which nothing is out, in milliseconds (RFC 7766 6.2.3).
const IDLE_LIMIT: u64 = 2_000;

/// A link, its key, whether it is ready, whether it failed, whether it takes other queries, and,
/// where nothing is out over it, until when it is kept.
#[derive(Drop)]
struct OpenLink<L> {
    key: usize,
    link: L,
    is_ready: bool,
    has_failed: bool,
    is_retired: bool,
    until: Option<u64>,
}

impl<L: Link> OpenLink<L> {
    ghost use Rattle.std.specs.Prelude.{◌≡◌, ◌↔◌, IsTrue};

    /// Whether nothing is out over it and its time is over.
    fn is_over(&self, now: u64) -> bool {
        self.until.is_some_and(|until| until <= now)
    }

    /// Whether it has this key, and goes over this route.
    fn is(&self, key: usize, route: Route) -> bool
        ensures { IsTrue result ↔ ((self.now.key ≡ key) × (L.goes self.now.link ≡ route)) }
    {
        self.key == key && self.link.route() == route
    }

    /// Whether queries can be sent over it that go over this route.
    fn serves(&self, route: Route) -> bool {
        !self.has_failed && !self.is_retired && self.link.route() == route
    }
}

/// The links that are open, in the order in which they were opened.
#[derive(Drop)]
pub(crate) struct Links<L> {
    items: Vec<OpenLink<L>>,
    /// The place from which the next ready one is looked for.
    next: usize,
}

impl<L: Link + Drop> Links<L> {
    ghost use Rattle.std.specs.Prelude.{◌≡◌, ◌<◌, IfSome, OnOk, length};
    ghost use Rattle.std.specs.List.{HoldsAt};
    ghost use Rattle.dns_transport.specs.Ends.{IfMessage};

    /// None is open.
    pub(crate) fn new(alloc: Global) -> Links<L> {
        Links {
            items: Vec::new(alloc),
            next: 0,
        }
    }

    /// How many are open.
    pub(crate) fn len(&self) -> usize {
        self.items.len()
    }

    /// Keeps a link under a key.
    pub(crate) fn open(&mut self, key: usize, link: L) -> Result<(), AllocError> {
        self.items.push(OpenLink {
            key,
            link,
            is_ready: false,
            has_failed: false,
            is_retired: false,
            until: None,
        })?;
        Ok(())
    }

    /// The place of a key.
    fn place_of_key(&self, key: usize) -> Option<usize>
        ensures { IfSome result (λ at. at < length self.now.items.items) }
    {
        self.items.iter().position(|it| it.key == key)
    }

    /// The place of a key, where its link goes over this route.
    fn place_serving(&self, key: usize, route: Route) -> Option<usize>
        ensures inside { IfSome result (λ at. at < length self.now.items.items) }
        ensures goes { IfSome result
            (HoldsAt (λ it. L.goes it.link ≡ route) self.now.items.items) }
    {
        self.items.iter().position(|it| it.is(key, route))
    }

    /// The key of the last link over which queries can be sent that go over this route.
    pub(crate) fn key_over(&self, route: Route) -> Option<usize> {
        let at = self.items.iter().rposition(|it| it.serves(route))?;
        Some(self.items[at].key)
    }

    /// Begins to send over the link of a key, where that goes over this route.
    pub(crate) fn send<S: System<Link = L>>(
        &mut self,
        system: &mut S,
        alloc: Global,
        key: usize,
        route: Route,
        octets: &[u8],
    ) -> io::Result<()>
        ensures { OnOk result (S.sends system.old octets.now route system.new) }
    {
        let Some(at) = self.place_serving(key, route) else {
            return Err(io::Error::from(ErrorKind::NotConnected));
        };
        let it = &mut self.items[at];
        it.until = None;
        it.is_ready = true;
        system.send(alloc, &mut it.link, octets)
    }

    /// Notes that the link of a key is ready.
    pub(crate) fn mark_ready(&mut self, key: usize) {
        if let Some(at) = self.place_of_key(key) {
            self.items[at].is_ready = true;
        }
    }

    /// Whether one is ready.
    pub(crate) fn has_ready(&self) -> bool {
        self.items.iter().any(|it| it.is_ready)
    }

    /// The place of the next one that is ready, round from the one that was next before.
    fn ready_place(&self) -> Option<usize>
        ensures { IfSome result (λ at. at < length self.now.items.items) }
    {
        let count = self.items.len();
        for turn in 0..count {
            let at = place_in_turn(self.next, turn, count);
            if self.items[at].is_ready {
                return Some(at);
            }
        }
        None
    }

    /// The key of the next one that is ready, which then counts as heard.
    pub(crate) fn next_ready(&mut self) -> Option<usize> {
        let at = self.ready_place()?;
        let it = &mut self.items[at];
        it.is_ready = false;
        let key = it.key;
        self.next = at + 1;
        Some(key)
    }

    /// What comes over the link of a key, and where that goes.
    pub(crate) fn step(&mut self, alloc: Global, key: usize) -> Option<(Route, Step)>
        ensures { IfSome result (λ it. IfMessage it.1 (L.hears it.0)) }
    {
        let at = self.place_of_key(key)?;
        let it = &mut self.items[at];
        let step = it.link.step(alloc);
        match &step {
            Step::Waits => {}
            Step::More | Step::Message(_) => it.is_ready = true,
            Step::Failed => it.has_failed = true,
        }
        Some((it.link.route(), step))
    }

    /// The key of a link that failed.
    pub(crate) fn failed_key(&self) -> Option<usize> {
        let it = self.items.iter().find(|it| it.has_failed)?;
        Some(it.key)
    }

    /// Notes that no other query is to go over the link of a key.
    pub(crate) fn retire(&mut self, key: usize) {
        if let Some(at) = self.place_of_key(key) {
            self.items[at].is_retired = true;
        }
    }

    /// Lets the link of a key go.
    pub(crate) fn close(&mut self, key: usize) {
        if let Some(at) = self.place_of_key(key) {
            let _link = self.items.remove(at);
        }
    }

    /// Notes that nothing is out over the link of a key: a connection is kept for a while.
    pub(crate) fn rest<S: System<Link = L>>(&mut self, key: usize, system: &S) {
        let Some(at) = self.place_of_key(key) else {
            return;
        };
        let it = &self.items[at];
        if it.link.route().over_tcp && !it.is_retired {
            self.items[at].until = Some(system.now().saturating_add(IDLE_LIMIT));
        } else {
            let _link = self.items.remove(at);
        }
    }

    /// Lets the connections go over which nothing is out and whose time is over.
    pub(crate) fn leave_idle(&mut self, now: u64) {
        self.items.retain(|it| !it.is_over(now));
    }
}

/// The place that comes in turn after so many others, round from this one.
fn place_in_turn(next: usize, turn: usize, count: usize) -> usize
    requires { turn < count }
    ensures { result < count }
{
    let start = if next < count { next } else { 0 };
    let behind = count - start;
    if turn < behind {
        start + turn
    } else {
        turn - behind
    }
}
