//! A wire that notes which names do not exist.
ghost use Rattle.std.specs.Prelude.{◌≡◌, ◌⊎◌, ◌++◌, ◌∷◌, [], IfSome, IsTrue, set};
ghost use Rattle.std.specs.List.{Contains};
ghost use Rattle.sipwhere.specs.Denials.{Denies, IsDenial, IsDenied};

use dns_message::{Message, message_in};
use dns_name::Name;
use dns_queries::{MessageWire, Received};
use dns_transport::{Tracer, WireTry};
use std::alloc::Global;
use std::marker::Model;
use std::net::SocketAddr;

/// The RCODE of a reply that says that a name does not exist (RFC 1035 4.1.1).
const NAME_ERROR: u8 = 3;

/// How many names are kept at most. Those that came last are.
const NAME_LIMIT: usize = 256;

/// A wire that knows which names do not exist.
pub trait NameNotes: MessageWire {
    /// Whether a reply said that this name does not exist, as far as that is kept.
    fn is_denied(&self, name: &Name) -> bool
        ensures { IsTrue result → IsDenied Self.gives name.now };
}

/// Whether octets are long enough for a header, and their RCODE says that a name does not exist.
fn has_name_error(octets: &[u8]) -> bool {
    match octets.get(3) {
        Some(octet) => *octet % 16 == NAME_ERROR,
        None => false,
    }
}

/// The name of which a message says that it does not exist. `None` also where memory is refused.
fn denied_in(message: &Message) -> Option<Name>
    ensures { IfSome result (Denies message.now) }
{
    if message.header.rcode != NAME_ERROR {
        return None;
    }
    match (message.questions.as_slice(), message.answers.as_slice()) {
        ([asked], []) => asked.name.try_clone().ok(),
        _ => None,
    }
}

/// The same of the message in front of these octets.
fn denied_by(alloc: Global, octets: &[u8]) -> Option<Name>
    ensures { IfSome result (IsDenial octets.now) }
{
    if !has_name_error(octets) {
        return None;
    }
    match message_in(alloc, octets) {
        Ok(Some(message)) => denied_in(&message),
        _ => None,
    }
}

/// Adds a name, unless memory is refused.
fn add(names: &mut Vec<Name>, name: Name)
    ensures { (names.new.items ≡ names.old.items)
        ⊎ (names.new.items ≡ names.old.items ++ name ∷ []) }
{
    let _ = names.push(name);
}

/// Puts a name in the place of the one that stands there, if one does.
fn replace(names: &mut Vec<Name>, at: usize, name: Name)
    ensures { names.new.items ≡ set names.old.items at name }
{
    if at < names.len() {
        names[at] = name;
    }
}

/// Whether a name is one of these.
fn is_among(names: &[Name], name: &Name) -> bool
    ensures { IsTrue result → Contains names.now name.now }
{
    for one in names {
        if one.eq(name) {
            return true;
        }
    }
    false
}

/// A wire that notes the names that its replies say do not exist.
#[derive(Drop)]
pub struct NotingWire<W: MessageWire> {
    alloc: Global,
    wire: W,
    denied: Vec<Name>,
    /// Where the next name is kept, once there is no room for one more.
    next: usize,
}

impl<W: MessageWire> Model for NotingWire<W> {
    ghost use Rattle.std.specs.Prelude.{ℕ, List};
    ghost use Rattle.std.specs.List.{All};
    ghost use Rattle.sipwhere.specs.Denials.{IsDenied};

    ghost Value = { List (List (List ℕ)) };

    ghost view = { λ it. it.denied.items };

    ghost invariant = { λ it. All (IsDenied W.gives) it.denied.items };
}

impl<W: MessageWire> NotingWire<W> {
    /// A wire over this one, with no name noted.
    pub fn new(alloc: Global, wire: W) -> NotingWire<W> {
        NotingWire {
            alloc,
            wire,
            denied: Vec::new(alloc),
            next: 0,
        }
    }

    /// The wire below.
    pub fn wire(&self) -> &W {
        &self.wire
    }

    /// Keeps a name, in place of the oldest one where there is no room for one more.
    fn keep(&mut self, name: Name)
        requires { IsDenied W.gives name }
    {
        if self.denied.len() < NAME_LIMIT {
            add(&mut self.denied, name);
        } else {
            replace(&mut self.denied, self.next, name);
            self.next = self.next.wrapping_add(1) % NAME_LIMIT;
        }
    }

    /// Notes the name of which a reply says that it does not exist, if it does.
    fn note(&mut self, octets: &[u8])
        requires { W.gives octets.now }
    {
        if let Some(name) = denied_by(self.alloc, octets) {
            self.keep(name);
        }
    }
}

impl<W: MessageWire> MessageWire for NotingWire<W> {
    ghost use Rattle.std.specs.Prelude.{⊤};

    ghost gives = { W.gives };

    ghost over = { λ _. ⊤ };

    fn send(&mut self, query: &[u8]) {
        self.wire.send(query);
    }

    fn leave(&mut self, id: u16) {
        self.wire.leave(id);
    }

    fn receive(&mut self) -> Option<Received> {
        let received = self.wire.receive()?;
        if let Received::Message(octets) = &received {
            self.note(octets.as_slice());
        }
        Some(received)
    }

    fn is_over(&self) -> bool {
        self.wire.is_over()
    }
}

impl<W: MessageWire> NameNotes for NotingWire<W> {
    fn is_denied(&self, name: &Name) -> bool {
        is_among(self.denied.as_slice(), name)
    }
}

impl<W: MessageWire + Tracer> Tracer for NotingWire<W> {
    fn take_tries(&mut self) -> Vec<WireTry> {
        self.wire.take_tries()
    }

    fn last_server(&self) -> Option<SocketAddr> {
        self.wire.last_server()
    }
}
