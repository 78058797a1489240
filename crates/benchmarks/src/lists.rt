//! How long the calls of a `PendingList` of 256 entries take, and an asker to hear a reply.
//!
//! It takes no word, and prints a line for each call: its name, and how many picoseconds one takes,
//! over the fastest round.
mod askers;

use pending_list::{PendingId, PendingList};
use std::time::{Clock, Instant};

/// How many entries the list has.
const ENTRIES: usize = 256;

/// How many rounds are measured.
const ROUNDS: usize = 2_000;

/// How far the next entry is from the last one, so that neighbours are not taken one after another.
const STRIDE: usize = 167;

/// How long all entries of a round took, for each call, in nanoseconds.
#[derive(Clone, Copy)]
struct Times {
    insert: u128,
    move_to: u128,
    remove: u128,
    pop_due: u128,
}

impl Times {
    /// The lesser time of each.
    fn least(self, other: Times) -> Times {
        Times {
            insert: self.insert.min(other.insert),
            move_to: self.move_to.min(other.move_to),
            remove: self.remove.min(other.remove),
            pop_due: self.pop_due.min(other.pop_due),
        }
    }
}

/// Fills an empty list, each entry behind the last one.
fn fill(list: &mut PendingList<u64>, ids: &mut Vec<PendingId>) -> Option<()> {
    ids.clear();
    for at in 0..ENTRIES {
        let id = list.insert(at as u64, at as u64).ok()?;
        ids.push(id).ok()?;
    }
    Some(())
}

/// The entry that is taken at a turn.
fn id_at(ids: &[PendingId], turn: usize) -> Option<PendingId> {
    ids.get(turn.wrapping_mul(STRIDE) % ENTRIES).copied()
}

/// Moves the entry of a turn to the end. Answers whether it was there.
fn move_one(list: &mut PendingList<u64>, ids: &[PendingId], turn: usize) -> bool {
    match id_at(ids, turn) {
        Some(id) => list.move_to(id, ENTRIES.wrapping_add(turn) as u64),
        None => true,
    }
}

/// Moves each entry to the end. Answers whether all were there.
fn move_all(list: &mut PendingList<u64>, ids: &[PendingId]) -> bool {
    let mut all = true;
    for turn in 0..ENTRIES {
        all &= move_one(list, ids, turn);
    }
    all
}

/// Removes the entry of a turn. Answers whether it was there.
fn remove_one(list: &mut PendingList<u64>, ids: &[PendingId], turn: usize) -> bool {
    match id_at(ids, turn) {
        Some(id) => list.remove(id).is_some(),
        None => true,
    }
}

/// Removes each entry. Answers whether all were there.
fn remove_all(list: &mut PendingList<u64>, ids: &[PendingId]) -> bool {
    let mut all = true;
    for turn in 0..ENTRIES {
        all &= remove_one(list, ids, turn);
    }
    all
}

/// Pops each entry. Answers whether all were there.
fn pop_all(list: &mut PendingList<u64>) -> bool {
    let mut all = true;
    for _ in 0..ENTRIES {
        all &= list.pop_due(u64::MAX).is_some();
    }
    all
}

/// Measures each call with an empty list, and leaves it empty.
fn round<R: Clock>(rt: &R, list: &mut PendingList<u64>, ids: &mut Vec<PendingId>) -> Option<Times> {
    let start = Instant::now(rt).ok()?;
    fill(list, ids)?;
    let insert = start.elapsed(rt).ok()?.as_nanos();
    let start = Instant::now(rt).ok()?;
    let moved = move_all(list, ids.as_slice());
    let move_to = start.elapsed(rt).ok()?.as_nanos();
    let start = Instant::now(rt).ok()?;
    let removed = remove_all(list, ids.as_slice());
    let remove = start.elapsed(rt).ok()?.as_nanos();
    fill(list, ids)?;
    let start = Instant::now(rt).ok()?;
    let popped = pop_all(list);
    let pop_due = start.elapsed(rt).ok()?.as_nanos();
    if !moved || !removed || !popped {
        return None;
    }
    Some(Times {
        insert,
        move_to,
        remove,
        pop_due,
    })
}

/// Measures all rounds with an empty list, and gives the times of the fastest.
fn measured_by<R: Clock>(
    rt: &R,
    list: &mut PendingList<u64>,
    ids: &mut Vec<PendingId>,
) -> Option<Times> {
    let mut least = round(rt, list, ids)?;
    for _ in 1..ROUNDS {
        least = least.least(round(rt, list, ids)?);
    }
    Some(least)
}

/// Measures all rounds with a new list, and gives the times of the fastest.
fn measured<R: Clock + AllocGlobal>(rt: &R) -> Option<Times> {
    let mut ids = Vec::with_capacity(rt.alloc(), ENTRIES).ok()?;
    match PendingList::new(rt.alloc(), ENTRIES, 0) {
        Ok(mut list) => measured_by(rt, &mut list, &mut ids),
        Err(_) => None,
    }
}

/// Prints the time of one call.
fn print_time<R: Print>(rt: &R, name: &str, nanoseconds: u128) -> Option<()> {
    let picoseconds = nanoseconds.saturating_mul(1_000) / ENTRIES as u128;
    println!(rt; "{name} {picoseconds}").ok()
}

/// Prints how long an asker takes to hear a reply, with as many questions open as are measured.
fn print_hearing<R: Clock + Print + AllocGlobal>(rt: &R) -> Option<()> {
    for open in askers::OPEN {
        let nanoseconds = askers::measured(rt, open)?;
        let picoseconds = nanoseconds.saturating_mul(1_000) / open.max(1) as u128;
        println!(rt; "hear_{open} {picoseconds}").ok()?;
    }
    Some(())
}

/// Measures, and prints all times.
pub(crate) fn print_times<R: Clock + Print + AllocGlobal>(rt: &R) -> Option<()> {
    let times = measured(rt)?;
    print_time(rt, "insert", times.insert)?;
    print_time(rt, "remove", times.remove)?;
    print_time(rt, "move_to", times.move_to)?;
    print_time(rt, "pop_due", times.pop_due)?;
    print_hearing(rt)
}
