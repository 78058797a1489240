//! Calls that are made twice, one after the other: copies of the parts of a message (RFC 1035 4.1),
//! a name that is read over another one, and an asker with the usual schedule.
use dns_message::{Asked, Message, Rdata, Record, read_message};
use dns_name::{Name, NameReadRefusal, read_name_into};
use dns_queries::Asker;
use std::alloc::Global;

/// The calls.
#[derive(Clone, Copy, Debug)]
enum Call {
    AskedCopy,
    RecordCopy,
    ReadOver,
    NewAsker,
}

const CALLS: [Call; 4] = [
    Call::AskedCopy,
    Call::RecordCopy,
    Call::ReadOver,
    Call::NewAsker,
];

/// proxy-1.west.voice.example.com., which is too long to lie in the value itself.
const NAME: &[u8] = b"\x07proxy-1\x04west\x05voice\x07example\x03com\x00";

/// A question for texts of that name, and a record of one.
const REPLY: &[u8] = b"\x12\x34\x81\x80\x00\x01\x00\x01\x00\x00\x00\x00\
    \x07proxy-1\x04west\x05voice\x07example\x03com\x00\x00\x10\x00\x01\
    \xc0\x0c\x00\x10\x00\x01\x00\x00\x00\x3c\x00\x04\x03abc";

/// `Asked::try_clone`
fn is_asked_copied(asked: &Asked) -> Option<bool> {
    Some(asked.try_clone().ok()? == *asked)
}

/// Whether data are these octets.
fn are_octets(data: &Rdata, octets: &[u8]) -> bool {
    matches!(data, Rdata::Other(other) if other.octets() == octets)
}

/// `Record::try_clone`, and by it that of the data.
fn is_record_copied(record: &Record) -> Option<bool> {
    let copy = record.try_clone().ok()?;
    Some(copy.owner == record.owner && are_octets(&copy.rdata, b"\x03abc"))
}

/// What a copy of a part of a message says.
fn copied(message: &Message, call: Call) -> Option<bool> {
    match (
        message.questions.as_slice(),
        message.answers.as_slice(),
        call,
    ) {
        ([asked], _, Call::AskedCopy) => is_asked_copied(asked),
        (_, [record], _) => is_record_copied(record),
        _ => Some(false),
    }
}

/// The same of the message, where there is memory for it.
fn copy(alloc: Global, call: Call) -> Option<bool> {
    let message = read_message(alloc, REPLY).ok()?;
    let said = copied(&message, call);
    drop(message);
    said
}

/// `read_name_into` over another name, which is the root where memory is refused.
fn read_over(alloc: Global) -> Option<bool> {
    let mut name = Name::from_text(alloc, "proxy-2.west.voice.example.com").ok()?;
    match read_name_into(alloc, NAME, 0, &mut name) {
        Ok(end) => Some(name.wire() == NAME && end == NAME.len()),
        Err(NameReadRefusal::Memory) if name.is_root() => None,
        Err(_) => Some(false),
    }
}

/// `Asker::new`
fn new_asker(alloc: Global) -> Option<bool> {
    let asker = Asker::new(alloc, 8, 0).ok()?;
    Some(!asker.is_full())
}

/// What a call says: whether its answer is right, and `None` where it wants memory.
fn says(alloc: Global, call: Call) -> Option<bool> {
    match call {
        Call::AskedCopy | Call::RecordCopy => copy(alloc, call),
        Call::ReadOver => read_over(alloc),
        Call::NewAsker => new_asker(alloc),
    }
}

/// Whether two equal calls, one after the other, have the right answer, of which one at most has
/// none for want of memory.
fn are_right(first: Option<bool>, again: Option<bool>) -> bool {
    match first {
        Some(true) => again.unwrap_or(true),
        Some(false) => false,
        None => again.unwrap_or(false),
    }
}

#[test]
fn others(rt: HostRuntime) {
    for call in CALLS {
        let first = says(rt.alloc(), call);
        let again = says(rt.alloc(), call);
        assert!(rt; are_right(first, again), "{call:?} {first:?} {again:?}");
    }
}
