//! Each item of a list of deadlines is dropped once.
use pending_list::{PendingId, PendingList};
use std::alloc::AllocError;
use std::sync::atomic::{AtomicUsize, Ordering};
use std::test::Fail;

/// An item whose drops are counted.
struct Counted<'a> {
    drops: &'a AtomicUsize,
}

impl Drop for Counted<'_> {
    fn drop(self) {
        let Self { drops } = self;
        drops.fetch_add(1, Ordering::SeqCst);
    }
}

/// How many of these are this number.
fn count_of(all: &[AtomicUsize], number: usize) -> usize {
    let with = |it: &&AtomicUsize| it.load(Ordering::SeqCst) == number;
    all.iter().filter(with).count()
}

/// Inserts an item, and gives its id.
fn insert<'a>(
    list: &mut PendingList<Counted<'a>>,
    deadline: u64,
    drops: &'a AtomicUsize,
) -> Option<PendingId> {
    match list.insert(deadline, Counted { drops }) {
        Ok(id) => Some(id),
        Err(_) => None,
    }
}

/// Inserts an item for each count, and keeps the ids.
fn insert_all<'a>(
    list: &mut PendingList<Counted<'a>>,
    ids: &mut Vec<PendingId>,
    all: &'a [AtomicUsize],
) -> Result<(), AllocError> {
    for (at, drops) in all.iter().enumerate() {
        if let Some(id) = insert(list, 1 + at as u64 % 7, drops) {
            ids.push(id).map_err(|_| AllocError)?;
        }
    }
    Ok(())
}

/// Takes the items of the first 100 ids out, and says how many were there and not dropped before.
fn take_out(list: &mut PendingList<Counted<'_>>, ids: &[PendingId]) -> usize {
    let mut count = 0usize;
    for id in ids.iter().take(100) {
        if let Some(item) = list.remove(*id) {
            count = count.wrapping_add(usize::from(item.drops.load(Ordering::SeqCst) == 0));
        }
    }
    count
}

#[test]
fn each_item_is_dropped_once(rt: HostRuntime) -> Result<(), Fail> {
    let mut drops = Vec::new(rt.alloc());
    for _ in 0..256 {
        drops.push(AtomicUsize::new(0))?;
    }
    let mut list = PendingList::new(rt.alloc(), 256, 0)?;
    let mut ids = Vec::new(rt.alloc());
    insert_all(&mut list, &mut ids, &drops)?;
    assert_eq!(rt; list.len(), 256);
    assert_eq!(rt; take_out(&mut list, &ids), 100);
    assert_eq!(rt; count_of(&drops, 1), 100);
    drop(list);
    assert_eq!(rt; count_of(&drops, 1), 256);
    Ok(())
}
