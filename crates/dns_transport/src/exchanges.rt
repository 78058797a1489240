//! The queries that are out.

use crate::exchange::Exchange;
use crate::query::{End, Outcome, Query};
use crate::route::Route;
use std::alloc::{AllocError, Global};
use std::marker::Model;

/// The queries that are out, each over the link of a key, in the order in which they were sent.
#[derive(Drop)]
pub(crate) struct Exchanges {
    items: Vec<Exchange>,
}

impl Model for Exchanges {
    ghost use Rattle.std.specs.Prelude.{List};
    ghost use Rattle.dns_transport.specs.declared.exchange.Exchange.{Exchange as Kept};

    ghost Value = { List Kept };

    ghost view = { λ it. it.items.items };
}

impl Exchanges {
    ghost use Rattle.std.specs.Prelude.{◌≡◌, true, ◌++◌, ◌∷◌, [], ◌<◌, ◌≤◌, ℕ, IfSome, IfNone, MatchOption, OnErr, OnOk, length};
    ghost use Rattle.std.specs.List.{All, HoldsAt, filter, remove};
    ghost use Rattle.dns_transport.specs.declared.query.Outcome.TheVariants.{Failed, OtherLetters, Reply, Silent};
    ghost use Rattle.dns_transport.specs.Ends.{EndsAt, HasIdOver, IsAnswered, IsAnsweredInOtherLetters, IsAnyOf, IsOf, at_key, front_of, without_number};
    ghost use Rattle.dns_transport.specs.Replies.{IsReplyInOtherLetters, IsReplyTo};

    /// None is out.
    pub(crate) fn new(alloc: Global) -> Exchanges
        ensures { result ≡ [] }
    {
        Exchanges {
            items: Vec::new(alloc),
        }
    }

    /// How many are out.
    pub(crate) fn len(&self) -> usize
        ensures { result ≡ length self.now }
    {
        self.items.len()
    }

    /// How many are out over the link of a key.
    pub(crate) fn count_of(&self, key: usize) -> usize
        ensures { result ≡ length (filter (at_key key) self.now) }
    {
        self.items.iter().filter(|it| it.key == key).count()
    }

    /// Keeps a query that is out.
    pub(crate) fn begin(&mut self, key: usize, shared: bool, query: Query) -> Result<(), AllocError>
        ensures kept { OnOk result (self.new
            ≡ self.old ++ record { key = key; shared = shared; query = query } ∷ []) }
        ensures refused { OnErr result (self.new ≡ self.old) }
    {
        self.items.push(Exchange { key, shared, query })?;
        Ok(())
    }

    /// Takes the query at a place out.
    fn take_at(&mut self, at: usize) -> Exchange
        requires inside { at < length self.old }
        ensures gone { self.new ≡ remove self.old at }
        ensures value { HoldsAt (λ it. result ≡ it) self.old at }
    {
        self.items.remove(at)
    }

    /// The place of the query that is answered by a message over the link of a key.
    fn place_answered(&self, key: usize, route: Route, message: &[u8]) -> Option<usize>
        ensures { MatchOption result
            (All (λ it. IsAnswered key route message.now it → ⊥) self.now)
            (λ at. (at < length self.now)
            × HoldsAt (IsAnswered key route message.now) self.now at) }
    {
        self.items
            .iter()
            .position(|it| it.is_answered(key, route, message))
    }

    /// Ends the query that is answered by a message over the link of a key.
    pub(crate) fn take_answered(
        &mut self,
        key: usize,
        route: Route,
        message: Vec<u8>,
    ) -> Option<End>
        ensures ends { MatchOption result (self.new ≡ self.old)
            (λ end. (at : ℕ) × EndsAt self.old self.new end at) }
        ensures none { IfNone result
            (All (λ it. IsAnswered key route message.items it → ⊥) self.old) }
        ensures goes { IfSome result (λ end. end.query.route ≡ route) }
        ensures replies { IfSome result
            (λ end. IsReplyTo (front_of end.query) message.items) }
        ensures reply { IfSome result (λ end. end.outcome ≡ Reply message) }
    {
        let Some(at) = self.place_answered(key, route, message.as_slice()) else {
            return None;
        };
        let Exchange {
            key: _key,
            shared,
            query,
        } = self.take_at(at);
        Some(End {
            query,
            shared,
            outcome: Outcome::Reply(message),
        })
    }

    /// The place of the query that a message over the link of a key answers but for its letters.
    fn place_in_other_letters(&self, key: usize, route: Route, message: &[u8]) -> Option<usize>
        ensures { MatchOption result
            (All (λ it. IsAnsweredInOtherLetters key route message.now it → ⊥) self.now)
            (λ at. (at < length self.now)
            × HoldsAt (IsAnsweredInOtherLetters key route message.now) self.now at) }
    {
        self.items
            .iter()
            .position(|it| it.is_answered_in_other_letters(key, route, message))
    }

    /// Ends the query that a message over the link of a key answers but for its letters.
    pub(crate) fn take_in_other_letters(
        &mut self,
        key: usize,
        route: Route,
        message: &[u8],
    ) -> Option<End>
        ensures ends { MatchOption result (self.new ≡ self.old)
            (λ end. (at : ℕ) × EndsAt self.old self.new end at) }
        ensures none { IfNone result
            (All (λ it. IsAnsweredInOtherLetters key route message.now it → ⊥) self.old) }
        ensures told { IfSome result (λ end. end.outcome ≡ OtherLetters) }
        ensures goes { IfSome result (λ end. end.query.route ≡ route) }
        ensures drawn { IfSome result (λ end. end.query.has_drawn_letters ≡ true) }
        ensures replies { IfSome result
            (λ end. IsReplyInOtherLetters (front_of end.query) message.now) }
    {
        let Some(at) = self.place_in_other_letters(key, route, message) else {
            return None;
        };
        let Exchange {
            key: _key,
            shared,
            query,
        } = self.take_at(at);
        Some(End {
            query,
            shared,
            outcome: Outcome::OtherLetters,
        })
    }

    /// The place of a query that is out over the link of a key.
    fn place_of_link(&self, key: usize) -> Option<usize>
        ensures { MatchOption result (All (λ it. it.key ≡ key → ⊥) self.now)
            (λ at. (at < length self.now) × HoldsAt (λ it. it.key ≡ key) self.now at) }
    {
        self.items.iter().position(|it| it.key == key)
    }

    /// Ends a query that is out over the link of a key, which failed.
    pub(crate) fn take_failed(&mut self, key: usize) -> Option<End>
        ensures ends { MatchOption result (self.new ≡ self.old)
            (λ end. (at : ℕ) × EndsAt self.old self.new end at) }
        ensures none { IfNone result (All (λ it. it.key ≡ key → ⊥) self.old) }
        ensures failed { IfSome result (λ end. end.outcome ≡ Failed) }
    {
        let Some(at) = self.place_of_link(key) else {
            return None;
        };
        let Exchange {
            key: _key,
            shared,
            query,
        } = self.take_at(at);
        Some(End {
            query,
            shared,
            outcome: Outcome::Failed,
        })
    }

    /// The place of a query whose deadline has come.
    fn place_over(&self, now: u64) -> Option<usize>
        ensures { MatchOption result (All (λ it. now < it.query.deadline) self.now)
            (λ at. (at < length self.now)
            × HoldsAt (λ it. it.query.deadline ≤ now) self.now at) }
    {
        self.items.iter().position(|it| it.query.deadline <= now)
    }

    /// Ends a query whose deadline has come, and gives the key of its link.
    pub(crate) fn take_over(&mut self, now: u64) -> Option<(usize, End)>
        ensures ends { MatchOption result (self.new ≡ self.old)
            (λ it. (at : ℕ) × EndsAt self.old self.new it.1 at) }
        ensures none { IfNone result (All (λ it. now < it.query.deadline) self.old) }
        ensures over { IfSome result (λ it. it.1.query.deadline ≤ now) }
        ensures silent { IfSome result (λ it. it.1.outcome ≡ Silent) }
    {
        let Some(at) = self.place_over(now) else {
            return None;
        };
        let Exchange { key, shared, query } = self.take_at(at);
        let end = End {
            query,
            shared,
            outcome: Outcome::Silent,
        };
        Some((key, end))
    }

    /// Whether a query of this number is out.
    pub(crate) fn has_number(&self, number: u64) -> bool
        ensures { IsAnyOf (λ it. it.query.number ≡ number) self.now result }
    {
        match self.place_of_number(number) {
            Some(_) => true,
            None => false,
        }
    }

    /// The place of a query of this number that goes over this route.
    fn place_over_route(&self, number: u64, route: Route) -> Option<usize>
        ensures { MatchOption result (All (λ it. IsOf number route it → ⊥) self.now)
            (λ at. (at < length self.now) × HoldsAt (IsOf number route) self.now at) }
    {
        self.items.iter().position(|it| it.is_of(number, route))
    }

    /// Whether a query of this number is out over this route.
    pub(crate) fn has_number_over(&self, number: u64, route: Route) -> bool
        ensures { IsAnyOf (IsOf number route) self.now result }
    {
        match self.place_over_route(number, route) {
            Some(_) => true,
            None => false,
        }
    }

    /// The place of a query of this id that goes over this route.
    fn place_of_id(&self, route: Route, id: u16) -> Option<usize>
        ensures { MatchOption result (All (λ it. HasIdOver route id it → ⊥) self.now)
            (λ at. (at < length self.now) × HoldsAt (HasIdOver route id) self.now at) }
    {
        self.items.iter().position(|it| it.has_id_over(route, id))
    }

    /// Whether a query of this id is out over this route.
    pub(crate) fn has_id(&self, route: Route, id: u16) -> bool
        ensures { IsAnyOf (HasIdOver route id) self.now result }
    {
        match self.place_of_id(route, id) {
            Some(_) => true,
            None => false,
        }
    }

    /// The first deadline.
    pub(crate) fn next_deadline(&self) -> Option<u64>
        ensures { MatchOption result (self.now ≡ [])
            (λ first. All (λ it. first ≤ it.query.deadline) self.now) }
    {
        self.items.iter().map(|it| it.query.deadline).min()
    }

    /// The place of a query of this number.
    fn place_of_number(&self, number: u64) -> Option<usize>
        ensures { MatchOption result (All (λ it. it.query.number ≡ number → ⊥) self.now)
            (λ at. (at < length self.now)
            × HoldsAt (λ it. it.query.number ≡ number) self.now at) }
    {
        self.items.iter().position(|it| it.query.number == number)
    }

    /// Lets a query of this number go, and gives the key of its link.
    #[tactic(auto, using(crate::proofs::Others::one_leaves, crate::proofs::Others::none_leaves))]
    pub(crate) fn leave_one(&mut self, number: u64) -> Option<usize>
        ensures left { MatchOption result
            ((self.new ≡ self.old) × All (λ it. it.query.number ≡ number → ⊥) self.old)
            (λ key. (at : ℕ) × (at < length self.old) × (self.new ≡ remove self.old at)
            × HoldsAt (λ it. it.query.number ≡ number) self.old at) }
        ensures others { IfSome result
            (λ _. without_number number self.new ≡ without_number number self.old) }
        ensures none { IfNone result (without_number number self.old ≡ self.old) }
        ensures fewer { IfSome result (λ _. length self.new < length self.old) }
    {
        let Some(at) = self.place_of_number(number) else {
            return None;
        };
        let Exchange { key, .. } = self.take_at(at);
        Some(key)
    }
}
