//! The example of the page of `dns_answers`.
use dns_answers::{Answer, Records, ReplyRefusal, answer_of};
use dns_message::{Kind, Message, MessageRefusal, Question, read_message};
use dns_name::{Name, NameRefusal};
use std::alloc::Global;
use std::test::Fail;

/// A reply to A of a.example.: 192.0.2.7, TTL 300, with a pointer to the question (RFC 1035 4.1.4).
const REPLY: &[u8] =
    b"\x12\x34\x81\x80\x00\x01\x00\x01\x00\x00\x00\x00\x01a\x07example\x00\x00\x01\x00\x01\xc0\x0c\
    \x00\x01\x00\x01\x00\x00\x01\x2c\x00\x04\xc0\x00\x02\x07";

/// The question of the example.
fn question_of(alloc: Global) -> Result<Question, NameRefusal> {
    let name = Name::from_text(alloc, "a.example")?;
    let question = Question {
        name,
        kind: Kind::A,
    };
    Ok(question)
}

/// The message that octets are.
fn message_of(alloc: Global, octets: &[u8]) -> Result<Message, MessageRefusal> {
    let message = read_message(alloc, octets)?;
    Ok(message)
}

/// The answer of a message.
fn answer_in(alloc: Global, question: Question, message: Message) -> Result<Answer, ReplyRefusal> {
    let answer = answer_of(alloc, &question, &message)?;
    Ok(answer)
}

#[test]
fn answer_is_read(rt: HostRuntime) -> Result<(), Fail> {
    let alloc = rt.alloc();
    let message = message_of(alloc, REPLY)?;
    let answer = answer_in(alloc, question_of(alloc)?, message)?;
    if let Records::V4(addresses) = answer.records() {
        assert_eq!(rt; addresses.as_slice(), [[192, 0, 2, 7]].as_slice());
    }
    assert_eq!(rt; answer.life(), 300);
    Ok(())
}
