//! A query that is out.
ghost use Rattle.std.specs.Prelude.{◌≡◌, ◌↔◌, IsTrue};
ghost use Rattle.dns_transport.specs.Ends.{HasIdOver, IsAnswered, IsAnsweredInOtherLetters, IsOf, front_of};

use crate::query::Query;
use crate::reply::{is_reply_in_other_letters, is_reply_to};
use crate::route::Route;
use crate::wire_try::id_of;

/// A query that is out over the link of a key, which was open already or opened for it.
#[derive(Drop)]
pub struct Exchange {
    pub(crate) key: usize,
    pub(crate) shared: bool,
    pub(crate) query: Query,
}

impl Exchange {
    /// The header and the question of the query.
    fn front(&self) -> &[u8]
        ensures { result.now ≡ front_of self.now.query }
    {
        let octets = self.query.octets.as_slice();
        &octets[..self.query.front.min(octets.len())]
    }

    /// Whether a query of this number goes over this route.
    pub(crate) fn is_of(&self, number: u64, route: Route) -> bool
        ensures { IsTrue result ↔ IsOf number route self.now }
    {
        self.query.number == number && self.query.route == route
    }

    /// Whether it has this id, and goes over this route.
    pub(crate) fn has_id_over(&self, route: Route, id: u16) -> bool
        ensures { IsTrue result ↔ HasIdOver route id self.now }
    {
        id_of(self.query.octets.as_slice()) == id && self.query.route == route
    }

    /// Whether a message that came over the link of this key, from where this route goes, is a
    /// reply to it.
    pub(crate) fn is_answered(&self, key: usize, route: Route, message: &[u8]) -> bool
        ensures { IsTrue result ↔ IsAnswered key route message.now self.now }
    {
        self.key == key && self.query.route == route && is_reply_to(self.front(), message)
    }
    /// Whether a message that came over the link of this key, from where this route goes, would be
    /// a reply to it, but for the letters that were drawn for its name.
    pub(crate) fn is_answered_in_other_letters(
        &self,
        key: usize,
        route: Route,
        message: &[u8],
    ) -> bool
        ensures { IsTrue result ↔ IsAnsweredInOtherLetters key route message.now self.now }
    {
        self.key == key
            && self.query.route == route
            && self.query.has_drawn_letters
            && is_reply_in_other_letters(self.front(), message)
    }
}
