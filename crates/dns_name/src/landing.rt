//! Where pointers lead in a message, past all further pointers (RFC 1035 4.1.4).
ghost use Rattle.std.specs.Prelude.{◌≡◌, ◌<◌, ◌≤◌, ℕ, List, length, IfOk, MatchOption};
ghost use Rattle.dns_name.specs.Landings.{IsLanding, AreLandings, LeadsTo, LeadsNowhere};

use crate::message::{Piece, piece_at};
use std::alloc::{AllocError, Global};
use std::cell::Cell;
use std::marker::Model;

/// The first offset that no pointer can lead to (RFC 1035 4.1.4).
const POINTER_END: usize = 16_384;

/// The most pointers that are followed for a name before it is found out where all lead.
const FOLLOWED_LIMIT: u32 = 8;

/// Where a pointer leads past all further pointers: to a run of labels at an offset, which has to
/// end at the limit or before. A limit of 0 says that there is no such pointer.
#[derive(Clone, Copy)]
pub struct Landing {
    offset: u16,
    limit: u16,
}

/// No pointer.
const NO_LANDING: Landing = Landing {
    offset: 0,
    limit: 0,
};

/// Where the pointers of a message lead, so that none is followed for each name anew. Nothing is
/// kept until a name had more than eight pointers, and then at most 16,384 offsets, in 64 KiB.
#[derive(Drop)]
pub struct Landings {
    landings: Vec<Landing>,
    is_wanted: Cell<bool>,
}

impl Model for Landings {
    ghost use Rattle.std.specs.Prelude.{List};
    ghost use Rattle.dns_name.specs.declared.landing.Landing.{Landing};

    ghost Value = { List Landing };

    ghost view = { λ it. it.landings.items };
}

/// A run of labels that a pointer leads to: where it begins, and the offset that it may not end
/// behind.
#[derive(Clone, Copy)]
pub(crate) struct Run {
    pub start: usize,
    pub limit: usize,
}

/// Where the pointer at an offset leads, if there is one, by where those before it lead.
fn landing_at(bytes: &[u8], before: &[Landing], offset: usize) -> Landing
    requires low { offset < 16384 }
    requires before { length before.now ≡ offset }
    requires known { AreLandings bytes.now before.now }
    ensures { IsLanding bytes.now offset result }
{
    let Some(Piece::Pointer(target)) = piece_at(bytes, offset) else {
        return NO_LANDING;
    };
    if target >= offset || offset - target < 2 {
        return NO_LANDING;
    }
    let next = before[target];
    if next.limit == 0 {
        Landing {
            offset: target as u16,
            limit: offset as u16,
        }
    } else {
        next
    }
}

/// Where the pointers of these octets lead.
fn landings_of(alloc: Global, bytes: &[u8]) -> Result<Vec<Landing>, AllocError>
    ensures { IfOk result (λ it. AreLandings bytes.now it.items) }
{
    let count = bytes.len().min(POINTER_END);
    let mut landings = Vec::with_capacity(alloc, count)?;
    for offset in 0..count {
        let landing = landing_at(bytes, landings.as_slice(), offset);
        landings.push(landing)?;
    }
    Ok(landings)
}

impl Landings {
    /// Those that are kept when nothing was read: none.
    pub fn none(alloc: Global) -> Landings
        ensures { (message : List ℕ) → AreLandings message result }
    {
        Landings {
            landings: Vec::new(alloc),
            is_wanted: Cell::new(false),
        }
    }

    /// Whether a name had so many pointers that it is worth while to find out where all lead.
    pub fn are_wanted(&self) -> bool {
        self.is_wanted.get()
    }

    /// Finds out where all pointers of the message lead, once. Without memory for that they are
    /// followed for each name.
    #[cold]
    #[inline(never)]
    pub fn find(&mut self, alloc: Global, bytes: &[u8])
        requires { AreLandings bytes.now self.old }
        ensures { AreLandings bytes.now self.new }
    {
        self.is_wanted.set(false);
        if self.landings.is_empty()
            && let Ok(landings) = landings_of(alloc, bytes)
        {
            self.landings = landings;
        }
    }

    /// Takes note of how many pointers were followed for a name.
    pub(crate) fn note(&self, followed: u32) {
        if followed > FOLLOWED_LIMIT && self.landings.is_empty() {
            self.is_wanted.set(true);
        }
    }

    /// The run of labels that a pointer to this offset leads to, in a run that began at `start`, if
    /// labels there can be part of a name.
    #[inline]
    pub(crate) fn run_at(&self, bytes: &[u8], target: usize, start: usize) -> Option<Run>
        requires { AreLandings bytes.now self.now }
        ensures { MatchOption result (LeadsNowhere bytes.now target start)
            (λ run. LeadsTo bytes.now target start run.start run.limit) }
    {
        if target >= start {
            return None;
        }
        match self.landings.get(target) {
            Some(landing) if landing.limit != 0 => {
                if start - target < 2 {
                    return None;
                }
                Some(Run {
                    start: usize::from(landing.offset),
                    limit: usize::from(landing.limit),
                })
            }
            _ => Some(Run {
                start: target,
                limit: start,
            }),
        }
    }
}
