//! What calls of the libraries cost: `benchmarks SUBJECT WORD..` measures one subject, and prints
//! lines of numbers, which `bench/run` reads.
//!
//! | Subject | What it measures |
//! |---|---|
//! | `look_ups` | look-ups of threads over one cache, alone and beside stores |
//! | `lists` | the calls of a `PendingList`, and an asker that hears a reply |
//! | `requests` | requests whose answers are all in a book, misses, and the memory of both |
//! | `workers` | runs of many workers over wires in memory |
//! | `proxy` | a million requests over one rolling cache |
//!
//! Each module says what its words are. Without a subject nothing is done.
#![tactic(auto)]

mod lists;
mod look_ups;
mod proxy;
mod requests;
mod workers;

use std::env;
use std::rt::{Env, Files};
use std::sync::Wait;
use std::thread::Threads;
use std::time::Clock;

/// Measures a subject.
fn measure<R: Files + Threads + Wait + Clock + Print + AllocGlobal + Sync>(
    rt: &R,
    subject: &str,
    words: &[String],
) -> Option<()> {
    match subject {
        "look_ups" => look_ups::print_runs(rt),
        "lists" => lists::print_times(rt),
        "requests" => requests::run_words(rt, words),
        "workers" => workers::run_words(rt, words),
        "proxy" => proxy::run_words(rt, words),
        _ => None,
    }
}

/// Does what the words ask for.
fn run_words<R: Env + Files + Threads + Wait + Clock + Print + AllocGlobal + Sync>(
    rt: &R,
) -> Option<()> {
    let words = env::args(rt).ok()?;
    let words = words.skip(1).collect::<Vec<String>>(rt.alloc()).ok()?;
    let (subject, rest) = words.as_slice().split_first()?;
    measure(rt, subject.as_str(), rest)
}

fn main(rt: HostRuntime) {
    let _ = run_words(&rt);
}
