//! Datagrams that a zone replies to (RFC 1035 4.1, 4.2.1).
ghost use Rattle.std.specs.Prelude.{◌≡◌, ◌⊎◌, IfErr, IfOk, IfSome, IsSomeAnd, MatchOption};
ghost use Rattle.dns_message.specs.Offsets.{NamedAt};
ghost use Rattle.dns_message.specs.declared.message.Message as message;
ghost use Rattle.dns_zone.specs.Replies.{IsQuery, IsReply, IsSilent, Replies};

use crate::reply::reply_to;
use crate::zone::Zone;
use dns_message::{Message, law_one_message_in_front, message_in, write_reply};
use std::alloc::{AllocError, Global};

/// The query in front of octets, if there is one.
fn query_in(alloc: Global, octets: &[u8]) -> Result<Option<Message>, AllocError>
    ensures found { IfOk result (λ it. MatchOption it (IsSilent octets.now) (IsQuery octets.now)) }
    ensures memory { IfErr result (λ _. NamedAt octets.now 12) }
{
    law_one_message_in_front();
    match message_in(alloc, octets)? {
        Some(message) if message.header.reply => Ok(None),
        Some(query) => Ok(Some(query)),
        None => Ok(None),
    }
}

impl Zone {
    /// The octets of the reply to the query in front of these octets, without pointers and for one
    /// datagram of UDP, or None where no query is in front of them: a message with QR clear.
    ///
    /// In the reply QR and AA are set, TC and RA are clear, and ID, OPCODE and RD are those of the
    /// query. A query of another OPCODE than 0, or which has not exactly one question, in class IN,
    /// is refused (RCODE 5), with its question where it has one alone. Else the question is
    /// repeated. From its name the first CNAME record of each name is followed, at most eight of
    /// them, and these records are the first that answer; after them come the records of the asked
    /// type where they lead, in the order of the zone (RFC 1034 3.6.2). RCODE is 3 where that name
    /// has no records in the zone, and else 0. A question for another type than A, SOA, AAAA, SRV
    /// and NAPTR is answered without records. Where that name has no record of the asked type, the
    /// authority section is the SOA record whose owner is the longest suffix of it, or the name
    /// itself, and the first one of that owner (RFC 2308 3); else, and without an SOA record, it is
    /// empty. A reply of more than 512 octets is cut to its question, with TC set (RFC 1035 4.2.1).
    pub fn answer_datagram(
        &self,
        alloc: Global,
        octets: &[u8],
    ) -> Result<Option<Vec<u8>>, AllocError>
        // Nothing is replied exactly where no query is in front, unless memory is refused.
        ensures silent { result ≡ Ok None → IsSilent octets.now }
        ensures quiet { IsSilent octets.now → IfOk result (λ it. it ≡ None) }
        // To a query its reply is given, unless memory is refused, and nothing else.
        ensures replied { (query : message.Message) → IsQuery octets.now query
            → IfOk result (λ it. IsSomeAnd it (λ reply. Replies self.now query reply.items)) }
        ensures found { IfOk result (λ it. IfSome it (λ reply. (query : message.Message)
            × IsQuery octets.now query × Replies self.now query reply.items)) }
        // What is given is a message with QR set and the id of the query.
        ensures reply { IfOk result (λ it. IfSome it (λ reply. (query : message.Message)
            × IsQuery octets.now query × IsReply query reply.items)) }
        // Memory is wanted only where a name stands after the header, or for a reply.
        ensures memory { IfErr result (λ _. NamedAt octets.now 12
            ⊎ ((query : message.Message) × IsQuery octets.now query)) }
    {
        law_one_message_in_front();
        let Some(query) = query_in(alloc, octets)? else {
            return Ok(None);
        };
        let reply = reply_to(self, alloc, query)?;
        Ok(Some(write_reply(alloc, &reply)?))
    }
}
