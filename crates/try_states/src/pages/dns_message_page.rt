//! The example of the page of `dns_message`.
use dns_message::{Kind, Message, MessageRefusal, Question, Rdata, read_message, write_query};
use dns_name::{Name, NameRefusal};
use std::alloc::Global;
use std::test::Fail;

/// The octets of the example's query: A of a.example., id 0x1234 (RFC 1035 4.1).
const QUERY: &[u8] =
    b"\x12\x34\x01\x00\x00\x01\x00\x00\x00\x00\x00\x00\x01a\x07example\x00\x00\x01\x00\x01";

/// A reply to it: 192.0.2.7, TTL 300, with a pointer to the question (RFC 1035 4.1.4).
const REPLY: &[u8] =
    b"\x12\x34\x81\x80\x00\x01\x00\x01\x00\x00\x00\x00\x01a\x07example\x00\x00\x01\x00\x01\xc0\x0c\
    \x00\x01\x00\x01\x00\x00\x01\x2c\x00\x04\xc0\x00\x02\x07";

/// The question of the example.
fn question_of(alloc: Global) -> Result<Question, NameRefusal> {
    let name = Name::from_text(alloc, "a.example")?;
    let question = Question {
        name,
        kind: Kind::A,
    };
    Ok(question)
}

#[test]
fn query_is_written(rt: HostRuntime) -> Result<(), Fail> {
    let alloc = rt.alloc();
    let question = question_of(alloc)?;
    let query = write_query(alloc, 0x1234, &question)?;
    assert_eq!(rt; query.as_slice(), QUERY);
    Ok(())
}

/// The message of the example.
fn message_of(alloc: Global, octets: &[u8]) -> Result<Message, MessageRefusal> {
    // the octets that a server gave for these
    let message = read_message(alloc, octets)?;
    Ok(message)
}

#[test]
fn message_is_read(rt: HostRuntime) -> Result<(), Fail> {
    let message = message_of(rt.alloc(), REPLY)?;
    for record in message.answers.as_slice() {
        if let Rdata::Addr4(address) = &record.rdata {
            assert_eq!(rt; (*address, record.ttl), ([192, 0, 2, 7], 300));
        }
    }
    assert_eq!(rt; message.answers.as_slice().len(), 1);
    Ok(())
}
