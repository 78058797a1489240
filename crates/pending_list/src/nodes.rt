//! Nodes behind raw pointers, and who owns them.
//!
//! What is `unsafe` in this crate is here and in `raw_box`.
ghost use Rattle.std.specs.Prelude.{◌≡◌, ℕ, ⊤, List, [], ◌∷◌, ◌++◌, None, Some, IsSome};
ghost use Rattle.std.specs.Borrow.{sem};
ghost use Rattle.pending_list.specs.Cells.{Cell, cell, value_at, put_after, without, cells_own, cells_lent, address_of};
ghost use Rattle.pending_list.specs.declared.node.Node.{Node};
ghost use Rattle.pending_list.specs.contracts.node.Node.{the_row as node_row};

use crate::node::Node;
use crate::raw_box::RawBox;
use std::alloc::{AllocError, Global};
use std::marker::{Model, PhantomData, Send};

/// A pointer to a node. It owns nothing.
pub struct Link<E> {
    pub(crate) at: *mut Node<E>,
}

impl<E> Clone for Link<E> {
    ghost is_clone = { λ x y. y ≡ x };

    ghost is_infallible = { λ _. ⊤ };

    fn clone(&self) -> Result<Link<E>, AllocError> {
        Ok(*self)
    }
}

impl<E> Copy for Link<E> {}

unsafe impl<E> Send for Link<E> {}

/// The owner of nodes, each in a box of its own. It takes no space: which nodes it owns, where each
/// lies, and their order are known to the contracts alone.
pub struct Nodes<E> {
    mark: PhantomData<*mut E>,
    ghost cells: { List (Cell (Node E)) },
}

impl<E> Model for Nodes<E> {
    ghost also_owns = { λ n. cells_own (node_row E.row) n.cells };

    ghost also_shares = { λ n _ κ. cells_lent (node_row E.row) n.cells κ };
}

// What it owns goes with it.
unsafe impl<E: Send> Send for Nodes<E> {}

impl<E> Nodes<E> {
    ghost use Rattle.pending_list.specs.NodeLends.{lends_node};

    /// No nodes.
    pub(crate) fn new() -> Nodes<E>
        ensures { result.cells ≡ [] }
    {
        Nodes { mark: PhantomData }
    }

    /// Lets go of the owner of no nodes. No other can be let go, so each node is freed before.
    pub(crate) fn destroy(self)
        requires { self.cells ≡ [] }
    {
        let Nodes { mark: _ } = self;
    }

    /// The node there.
    pub(crate) fn get(&self, link: Link<E>) -> &Node<E>
        requires there { IsSome (value_at link.at self.now.cells) }
        ensures value { value_at link.at self.now.cells ≡ Some result.now }
    {
        unsafe { &*link.at }
    }

    /// The node there, to change it.
    pub(crate) fn get_mut(&mut self, link: Link<E>) -> &mut Node<E>
        requires there { IsSome (value_at link.at self.old.cells) }
        ensures* writes_back { sem 𝓛 (lends_node E.row self.entry link.at result) }
        ensures value { value_at link.at self.old.cells ≡ Some result.now }
    {
        unsafe { &mut *link.at }
    }

    /// Takes a node in. It stands after another one, or first.
    pub(crate) fn push(&mut self, after: Option<Link<E>>, value: RawBox<Node<E>, Global>) -> Link<E>
        ensures put { self.new.cells
            ≡ put_after (address_of after) (cell result.at value.value) self.old.cells }
        ensures fresh { value_at result.at self.old.cells ≡ None }
    {
        let _ = after;
        let RawBox { at, alloc: _ } = value;
        Link { at }
    }

    /// Gives a node back.
    pub(crate) fn take(&mut self, link: Link<E>, alloc: Global) -> RawBox<Node<E>, Global>
        requires there { IsSome (value_at link.at self.old.cells) }
        ensures value { value_at link.at self.old.cells ≡ Some result.value }
        ensures left { self.new.cells ≡ without link.at self.old.cells }
    {
        RawBox { at: link.at, alloc }
    }
}
