//! How often a question is asked in one life of its answer.
use crate::proxy::replies::LIFE;
use std::alloc::{AllocError, Global};
use std::sync::atomic::{AtomicU64, Ordering};

/// Whether a life that began at this second is over, or did never begin, where that is 0.
fn is_over(from: u64, now: u64) -> bool {
    from == 0 || now.wrapping_sub(from) >= u64::from(LIFE)
}

/// A word for each of so many questions, which all threads share: the second at which one of them
/// first asked it in the present life of its answer, or 0.
pub(crate) fn new_words(alloc: Global, count: usize) -> Result<Vec<AtomicU64>, AllocError> {
    let mut words = Vec::with_capacity(alloc, count)?;
    for _ in 0..count {
        words.push(AtomicU64::new(0))?;
    }
    Ok(words)
}

/// Whether no thread has asked the question of a word in this life of its answer. Then this one
/// does.
pub(crate) fn is_first(word: &AtomicU64, now: u64) -> bool {
    let from = word.load(Ordering::SeqCst);
    is_over(from, now)
        && word
            .compare_exchange(from, now, Ordering::SeqCst, Ordering::SeqCst)
            .is_ok()
}

/// How often one thread asked a question in the present life of its answer, at its generation.
#[derive(Clone, Copy)]
pub(crate) struct Asked {
    from: u64,
    generation: u64,
    times: u64,
}

impl Asked {
    /// It never did.
    fn never() -> Asked {
        Asked {
            from: 0,
            generation: 0,
            times: 0,
        }
    }

    /// The same of so many questions.
    pub fn none(alloc: Global, count: usize) -> Result<Vec<Asked>, AllocError> {
        let mut asked = Vec::with_capacity(alloc, count)?;
        for _ in 0..count {
            asked.push(Asked::never())?;
        }
        Ok(asked)
    }

    /// It asks the question now, at this generation. Tells whether it had asked it in this life at
    /// another one.
    pub fn ask(&mut self, now: u64, generation: u64) -> bool {
        let is_over = is_over(self.from, now);
        let is_other = self.generation != generation;
        let from = if is_over { now } else { self.from };
        let times = if is_over || is_other { 0 } else { self.times };
        *self = Asked {
            from,
            generation,
            times: times.wrapping_add(1),
        };
        is_other && !is_over
    }

    /// How often it asked the question in this life, at this generation.
    pub fn times(&self) -> u64 {
        self.times
    }
}
