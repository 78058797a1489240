//! The example of the page of `srv_choice`.
use dns_message::SrvRecord;
use dns_name::{Name, NameRefusal};
use srv_choice::{RECORD_LIMIT, SrvOutcome, WORD_COUNT, Words, order};
use std::alloc::{AllocError, Global};
use std::test::Fail;

/// A record of this priority.
fn record_of(alloc: Global, priority: u16) -> Result<SrvRecord, NameRefusal> {
    let target = Name::from_text(alloc, "b.example")?;
    Ok(SrvRecord {
        priority,
        weight: 0,
        port: 5060,
        target,
    })
}

/// Adds a record to others.
fn push(records: &mut Vec<SrvRecord>, record: SrvRecord) -> Result<(), AllocError> {
    records.push(record).map_err(|_| AllocError)
}

/// The records of the example.
fn records_of(alloc: Global) -> Result<Vec<SrvRecord>, Fail> {
    let mut records = Vec::new(alloc);
    push(&mut records, record_of(alloc, 20)?)?;
    push(&mut records, record_of(alloc, 10)?)?;
    Ok(records)
}

#[test]
fn records_are_put_in_order(rt: HostRuntime) -> Result<(), Fail> {
    let alloc = rt.alloc();
    let records = records_of(alloc)?;
    let words = Words([0; WORD_COUNT]);
    assert!(rt; records.len() <= RECORD_LIMIT);
    // records of priority 20 and 10
    match order(records.as_slice(), &words, 0) {
        // the indexes of the records, and how many words are used
        SrvOutcome::Listed(indexes, used) => {
            assert_eq!(rt; (indexes.as_slice(), used), ([1, 0].as_slice(), 2));
        }
        // no records: the addresses of the name itself are tried
        SrvOutcome::Absent => assert!(rt; false),
        // the service is not offered
        SrvOutcome::Denied => assert!(rt; false),
    }
    Ok(())
}
