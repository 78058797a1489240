//! Queries, and what becomes of them.

use crate::route::Route;

/// A query that is to be sent.
#[derive(Debug, Drop)]
pub struct Query {
    /// The number under which its end is told. Several queries may have one.
    pub number: u64,
    /// Where it goes.
    pub route: Route,
    /// Its octets: a header, one question, and perhaps additional records.
    pub octets: Vec<u8>,
    /// How many octets its header and its question have.
    pub front: usize,
    /// Whether the letters of its name have cases that were drawn.
    pub has_drawn_letters: bool,
    /// Whether it may go over a connection that is open already.
    pub shares: bool,
    /// The millisecond at which nothing more is waited for.
    pub deadline: u64,
}

/// What became of a query.
#[derive(Debug, Drop)]
pub enum Outcome {
    /// The octets of the reply.
    Reply(Vec<u8>),
    /// A reply came that has other letters in its question than were drawn.
    OtherLetters,
    /// Nothing came until its deadline.
    Silent,
    /// The system or the server refused it.
    Failed,
}

/// The end of a query.
#[derive(Debug, Drop)]
pub struct End {
    /// The query.
    pub query: Query,
    /// Whether it went over a connection that was open already.
    pub shared: bool,
    /// What became of it.
    pub outcome: Outcome,
}
