//! The random words of one order.
ghost use Rattle.std.specs.Prelude.{◌≡◌, ◌+◌, ◌<◌, ◌≤◌, List, ℕ, length, slice_index};
ghost use Rattle.srv_choice.specs.Draws.{drawn};
ghost use Rattle.srv_choice.specs.Outcomes.{words_from};

use crate::next_index::RECORD_LIMIT;
use crate::words::draw;
use std::marker::Model;

/// The random words of one order: one for each record.
pub(crate) trait OrderWords {
    // The words.
    ghost all: { Self → List ℕ };

    /// The word at an index.
    fn word(&mut self, at: usize) -> u64
        requires { at < length (all self.old) }
        ensures word { result ≡ slice_index (all self.old) at }
        ensures unchanged { all self.new ≡ all self.old };
}

/// Words that were given.
#[derive(Drop)]
pub(crate) struct GivenWords<'a> {
    pub(crate) words: &'a [u64],
}

impl<'a> OrderWords for GivenWords<'a> {
    ghost all = { λ it. it.words.now };

    fn word(&mut self, at: usize) -> u64 {
        self.words[at]
    }
}

/// Words of a draw: so many, from an index on. They are drawn where the first one is needed.
#[derive(Drop)]
pub(crate) struct DrawnWords {
    key: [u8; 32],
    number: u64,
    from: usize,
    count: usize,
    /// The words, once one of them was needed.
    room: Option<[u64; RECORD_LIMIT]>,
}

impl Model for DrawnWords {
    ghost use Rattle.std.specs.Prelude.{◌≡◌, ◌+◌, ◌≤◌, List, ℕ, take, IfSome};
    ghost use Rattle.srv_choice.specs.Draws.{drawn};
    ghost use Rattle.srv_choice.specs.Outcomes.{words_from};

    ghost Value = { List ℕ };

    ghost view = { λ it. words_from (drawn it.key it.number) it.from it.count };

    ghost invariant = { λ it. (it.from + it.count ≤ 256)
        × (it.count ≤ 32)
        × IfSome it.room
        (λ room. take it.count room ≡ words_from (drawn it.key it.number) it.from it.count) };
}

impl DrawnWords {
    /// So many words of the stream of a number, by a key, from an index on.
    pub(crate) fn new(key: [u8; 32], number: u64, from: usize, count: usize) -> DrawnWords
        requires within { from + count ≤ 256 }
        requires few { count ≤ 32 }
        ensures { result ≡ words_from (drawn key number) from count }
    {
        DrawnWords {
            key,
            number,
            from,
            count,
            room: None,
        }
    }
}

impl OrderWords for DrawnWords {
    ghost all = { λ it. it };

    fn word(&mut self, at: usize) -> u64 {
        if let Some(room) = &self.room {
            return room[at];
        }
        let mut room = [0; RECORD_LIMIT];
        draw(self.key, self.number, self.from, &mut room[..self.count]);
        let word = room[at];
        self.room = Some(room);
        word
    }
}
