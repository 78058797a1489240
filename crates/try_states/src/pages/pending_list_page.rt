//! The example of the page of `pending_list`.
use pending_list::{PendingId, PendingList};
use std::alloc::Global;
use std::test::Fail;

/// The list of the example, with x, y and z in it, and the id of x.
fn list_of_three(alloc: Global) -> Result<(PendingList<char>, PendingId), Fail> {
    let mut list = PendingList::new(alloc, 3, 0)?;
    let x = list.insert(5, 'x')?;
    list.insert(5, 'y')?;
    list.insert(3, 'z')?;
    Ok((list, x))
}

#[test]
fn entries_come_in_order(rt: HostRuntime) -> Result<(), Fail> {
    let (mut list, x) = list_of_three(rt.alloc())?;
    // z, x, y
    list.move_to(x, 9);
    // z, y, x; the deadline of z is over at 4
    assert_eq!(rt; list.pop_due(4).map(|due| due.2), Some('z'));
    assert_eq!(rt; list.remove(x), Some('x'));
    Ok(())
}
