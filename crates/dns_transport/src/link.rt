//! What stands between the loop and the system.
ghost use Rattle.std.specs.Prelude.{◌≡◌, ℕ, IfOk, List};
ghost use Rattle.dns_transport.specs.Ends.{IfMessage};

use crate::route::Route;
use std::alloc::Global;
use std::io;

/// What came over a link at one step.
#[derive(Debug, Drop)]
pub enum Step {
    /// Nothing more has come yet.
    Waits,
    /// A part of a message. More may have come behind it.
    More,
    /// A whole message. More may have come behind it.
    Message(Vec<u8>),
    /// The system or the server refuses it.
    Failed,
}

/// A socket to one server, and what is half written or half read over it.
pub trait Link {
    ghost use Rattle.dns_transport.specs.declared.route.Route.{Route};

    // Where it goes.
    ghost goes: { Self → Route };

    // What may come over a route.
    ghost hears: { Route → List ℕ → Type 0 };

    /// Where it goes.
    fn route(&self) -> Route
        ensures { result ≡ goes self.now };

    /// Goes on without waiting: writes what it can, and takes one message at most.
    fn step(&mut self, alloc: Global) -> Step
        ensures kept { goes self.new ≡ goes self.old }
        ensures heard { IfMessage result (λ octets. hears (goes self.old) octets) };
}

/// What opens links, sends over them, waits for them and knows the time.
pub trait System {
    ghost use Rattle.dns_transport.specs.declared.route.Route.{Route};

    type Link: Link + Drop;

    // What it may say that the time is.
    ghost shows: { ℕ → Type 0 };

    // What a call sends: what it is before, the octets, the route, and what it is after.
    ghost sends: { Self → List ℕ → Route → Self → Type 0 };

    /// Opens a link over a route, which is reported ready under this key, and begins to send.
    fn open(
        &mut self,
        alloc: Global,
        route: Route,
        key: usize,
        octets: &[u8],
    ) -> io::Result<Self::Link>
        ensures route { IfOk result (λ link. Self.Link.goes link ≡ route) }
        ensures sent { IfOk result (λ link. sends self.old octets.now route self.new) };

    /// Begins to send over a link that is open.
    fn send(&mut self, alloc: Global, link: &mut Self::Link, octets: &[u8]) -> io::Result<()>
        ensures kept { Self.Link.goes link.new ≡ Self.Link.goes link.old }
        ensures sent { IfOk result
            (λ _. sends self.old octets.now (Self.Link.goes link.old) self.new) };

    /// Waits until a link is ready, or so many milliseconds are over, and puts the keys of the
    /// links that are ready behind these.
    fn wait(&mut self, most: u64, ready: &mut Vec<usize>) -> io::Result<()>;

    /// The milliseconds since it was made.
    fn now(&self) -> u64
        ensures { shows result };
}
