//! A doubly linked list.
ghost use Rattle.std.specs.Prelude.{◌≡◌, ℕ, List, [], ◌∷◌, ◌++◌, None, Some, IsSome};
ghost use Rattle.std.specs.Borrow.{sem};
ghost use Rattle.pending_list.specs.Cells.{cell, value_at, put_after, without, address_of};
ghost use Rattle.pending_list.specs.Links.{IsThere, StandsBefore, StandsBehind, first_after, first_address, last_address, next_set, next_first, prev_set, prev_last};

use crate::node::Node;
use crate::nodes::{Link, Nodes};
use crate::raw_box::RawBox;
use std::alloc::Global;
use std::marker::Model;

/// Entries in an order, each in a node of its own. The contracts see it as the list of its entries,
/// each with the address of its node.
pub struct LinkedList<E> {
    nodes: Nodes<E>,
    first: Option<Link<E>>,
    last: Option<Link<E>>,
}

impl<E> Model for LinkedList<E> {
    ghost use Rattle.std.specs.Prelude.{List};
    ghost use Rattle.pending_list.specs.Cells.{Cell};

    ghost Value = { List (Cell E) };

    ghost use Rattle.pending_list.specs.LinkedListKept.{entries_in, IsKept};

    ghost view = { λ it. entries_in it };

    ghost invariant = { λ it. IsKept it };
}

/// What comes after a node, or what comes first.
fn next_of<E>(nodes: &Nodes<E>, first: Option<Link<E>>, after: Option<Link<E>>) -> Option<Link<E>>
    requires { IsThere after nodes.now.cells }
    ensures { result ≡ first_after after first nodes.now.cells }
{
    match after {
        None => first,
        Some(link) => nodes.get(link).next,
    }
}

/// A node comes after another from now on, or first.
fn set_next<E>(
    nodes: &mut Nodes<E>,
    first: &mut Option<Link<E>>,
    after: Option<Link<E>>,
    next: Option<Link<E>>,
)
    requires { IsThere after nodes.old.cells }
    ensures cells { nodes.new.cells ≡ next_set after next nodes.old.cells }
    ensures first { first.new ≡ next_first after next first.old }
{
    match after {
        None => *first = next,
        Some(link) => {
            let node = nodes.get_mut(link);
            node.next = next;
        }
    }
}

/// A node comes before another from now on, or last.
fn set_prev<E>(
    nodes: &mut Nodes<E>,
    last: &mut Option<Link<E>>,
    behind: Option<Link<E>>,
    prev: Option<Link<E>>,
)
    requires { IsThere behind nodes.old.cells }
    ensures cells { nodes.new.cells ≡ prev_set behind prev nodes.old.cells }
    ensures last { last.new ≡ prev_last behind prev last.old }
{
    match behind {
        None => *last = prev,
        Some(link) => {
            let node = nodes.get_mut(link);
            node.prev = prev;
        }
    }
}

impl<E> LinkedList<E> {
    ghost use Rattle.pending_list.specs.LinkedListLends.{lends_entry};

    /// No entries.
    pub(crate) fn new() -> LinkedList<E>
        ensures { result ≡ [] }
    {
        LinkedList {
            nodes: Nodes::new(),
            first: None,
            last: None,
        }
    }

    /// Where the first entry lies.
    pub(crate) fn first(&self) -> Option<Link<E>>
        ensures { address_of result ≡ first_address self.now }
    {
        self.first
    }

    /// Where the last entry lies.
    pub(crate) fn last(&self) -> Option<Link<E>>
        ensures { address_of result ≡ last_address self.now }
    {
        self.last
    }

    /// What stands before an entry.
    pub(crate) fn before(&self, link: Link<E>) -> Option<Link<E>>
        requires { IsSome (value_at link.at self.now) }
        ensures { StandsBehind link.at (address_of result) self.now }
    {
        self.nodes.get(link).prev
    }

    /// What stands behind an entry.
    pub(crate) fn behind(&self, link: Link<E>) -> Option<Link<E>>
        requires { IsSome (value_at link.at self.now) }
        ensures { StandsBefore link.at (address_of result) self.now }
    {
        self.nodes.get(link).next
    }

    /// The entry there.
    pub(crate) fn entry(&self, link: Link<E>) -> &E
        requires { IsSome (value_at link.at self.now) }
        ensures { value_at link.at self.now ≡ Some result.now }
    {
        &self.nodes.get(link).entry
    }

    /// The entry there, to change it.
    pub(crate) fn entry_mut(&mut self, link: Link<E>) -> &mut E
        requires there { IsSome (value_at link.at self.old) }
        ensures* writes_back { sem 𝓛 (lends_entry E.row self.entry link.at result) }
        ensures value { value_at link.at self.old ≡ Some result.now }
    {
        let node = self.nodes.get_mut(link);
        &mut node.entry
    }
}

impl<E: Drop> LinkedList<E> {
    /// Puts a node after another, or first.
    pub(crate) fn link_after(&mut self, after: Option<Link<E>>, node: Box<Node<E>>) -> Link<E>
        requires there { IsThere after self.old }
        ensures put { self.new
            ≡ put_after (address_of after) (cell result.at node.value.entry) self.old }
        ensures fresh { value_at result.at self.old ≡ None }
    {
        let next = next_of(&self.nodes, self.first, after);
        let mut node = node;
        node.prev = after;
        node.next = next;
        let link = self.nodes.push(after, RawBox::of(node));
        set_next(&mut self.nodes, &mut self.first, after, Some(link));
        set_prev(&mut self.nodes, &mut self.last, next, Some(link));
        link
    }

    /// Takes a node out.
    pub(crate) fn unlink(&mut self, link: Link<E>, alloc: Global) -> Box<Node<E>>
        requires there { IsSome (value_at link.at self.old) }
        ensures value { value_at link.at self.old ≡ Some result.value.entry }
        ensures left { self.new ≡ without link.at self.old }
    {
        let node = self.nodes.take(link, alloc).into_box();
        let prev = node.prev;
        let next = node.next;
        set_next(&mut self.nodes, &mut self.first, prev, next);
        set_prev(&mut self.nodes, &mut self.last, next, prev);
        node
    }

    /// Frees each node.
    pub(crate) fn destroy(mut self, alloc: Global) {
        while let Some(link) = self.first() {
            drop(self.unlink(link, alloc));
        }
        let LinkedList {
            nodes,
            first: _,
            last: _,
        } = self;
        nodes.destroy();
    }
}
