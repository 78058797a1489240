//! The cache that comes after another one.
ghost use Rattle.std.specs.Prelude.{◌≡◌, ◌<◌, ◌≤◌, [], IfErr, IfOk, OnOk, map};
ghost use Rattle.std.specs.List.{All, range_with_len};
ghost use Rattle.answer_log.specs.Handles.{AreHandles, IsHandle};
ghost use Rattle.answer_log.specs.Histories.{mine};
ghost use Rattle.answer_log.specs.Logs.{history};
ghost use Rattle.answer_cache.specs.Carried.{carried_stores, seat_after};
ghost use Rattle.answer_cache.specs.Nodes.{Holds};
ghost use Rattle.answer_cache.specs.Shared.{Belongs, Refuses, cache_view};

use crate::carried::Carried;
use crate::notes::Notes;
use crate::refusal::CacheRefusal;
use crate::rival::NoRival;
use crate::seat::Seat;
use crate::shared_cache::{SharedCache, Wanted, empty_shelves};
use answer_log::{Handle, Handles, Log, MOST_SEATS, hash, law_log_keeps_its_rule};
use std::alloc::{AllocError, Global};
use std::sync::Wait;

impl SharedCache {
    /// Stores what is carried, in its order, through a seat that has stored nothing.
    fn restore<R: Wait>(
        &self,
        rt: &R,
        handle: &mut Handle,
        carried: &Carried,
    ) -> Result<(), AllocError>
        requires handle { IsHandle handle.old }
        requires book { (handle.old.book.book ≡ self.now.book)
            × (handle.old.groups ≡ self.now.groups) }
        requires first { (handle.old.number ≡ 0) × (mine (history handle.old.book.log) 0 ≡ []) }
        requires shelf { 0 < self.now.seats }
        requires groups { carried.now.groups ≡ self.now.groups }
        ensures holds { OnOk result (Holds self.now.book handle.old handle.new) }
        ensures own { OnOk result
            (mine (history handle.new.book.log) 0 ≡ carried_stores carried.now.offers) }
    {
        'entries: for at in 0..carried.entries.len() {
            let entry = &carried.entries[at];
            let wanted = Wanted {
                question: &entry.question,
                hash: hash(&entry.question),
                answer: &entry.answer,
                moment: entry.moment,
            };
            let Ok(()) = self.put(rt, handle, &wanted, &mut NoRival) else {
                return Err(AllocError);
            };
        }
        Ok(())
    }

    /// All seats, which have seen what the first one has: the history has stores of that one alone.
    fn seats_after(
        &self,
        alloc: Global,
        handles: &mut Handles,
        first: Handle,
        seats: usize,
        carried: &Carried,
    ) -> Result<Vec<Seat>, AllocError>
        requires handles { AreHandles handles.old }
        requires next { (handles.old.next ≡ 1) × (handles.old.seats ≡ seats) × (0 < seats) }
        requires here { (handles.old.seen.book ≡ self.now.book)
            × (first.book.book ≡ self.now.book)
            × (first.book.names ≡ handles.old.seen.names) }
        requires groups { (handles.old.groups ≡ self.now.groups)
            × (first.groups ≡ self.now.groups) × (carried.now.groups ≡ self.now.groups) }
        requires first { IsHandle first × (first.number ≡ 0) × (first.seats ≡ seats) }
        requires own { mine (history first.book.log) 0 ≡ carried_stores carried.now.offers }
        ensures seats { IfOk result (λ made. map (λ seat. seat.seat) made.items
            ≡ map (seat_after carried.now) (range_with_len 0 seats)) }
        ensures belong { IfOk result
            (λ made. All (Belongs (cache_view self.now.book seats self.now.groups)) made.items) }
    {
        let told = first.book.again();
        law_log_keeps_its_rule(&told);
        let mut made = Vec::new(alloc);
        made.push(Seat {
            handle: first,
            notes: Notes::none(),
            indexes: Vec::new(alloc),
        })?;
        'seats: for _seat in 1..seats {
            let mut handle = handles.deal();
            self.log.meet(&mut handle, &told);
            made.push(Seat {
                handle,
                notes: Notes::none(),
                indexes: Vec::new(alloc),
            })?;
        }
        Ok(made)
    }

    /// A cache whose history begins with what another one hands on, and its seats, numbered from 0.
    /// What is carried counts as stores of seat 0. The cache has as many groups as that one.
    ///
    /// # Errors
    /// `BadCount` outside 1 to 64 seats, and then `Memory`.
    pub fn successor<R: Wait>(
        rt: &R,
        alloc: Global,
        carried: &Carried,
        seats: usize,
    ) -> Result<(SharedCache, Vec<Seat>), CacheRefusal>
        ensures count { IfOk result (λ made. (0 < seats) × (seats ≤ 64) × (made.0.seats ≡ seats)) }
        ensures groups { IfOk result (λ made. made.0.groups ≡ carried.now.groups) }
        ensures seats { IfOk result
            (λ made. map (λ seat. seat.seat) made.1.items
            ≡ map (seat_after carried.now) (range_with_len 0 seats)) }
        ensures belong { IfOk result (λ made. All (Belongs made.0) made.1.items) }
        ensures refused { IfErr result (Refuses seats) }
    {
        if seats == 0 || seats as u64 > MOST_SEATS {
            return Err(CacheRefusal::BadCount);
        }
        let Ok((log, mut handles)) = Log::open(alloc, seats as u64, carried.groups) else {
            return Err(CacheRefusal::Memory);
        };
        let Ok(shelves) = empty_shelves(alloc, seats, &handles.seen) else {
            return Err(CacheRefusal::Memory);
        };
        let cache = SharedCache { log, shelves };
        let mut first = handles.deal();
        let Ok(()) = cache.restore(rt, &mut first, carried) else {
            return Err(CacheRefusal::Memory);
        };
        let Ok(made) = cache.seats_after(alloc, &mut handles, first, seats, carried) else {
            return Err(CacheRefusal::Memory);
        };
        Ok((cache, made))
    }
}
