//! Laws of where a request goes. A call of one does nothing; its contract states the law.
ghost use Rattle.std.specs.Prelude.{◌≡◌, ◌≢◌, ◌<◌, ◌≤◌, ◌∷◌, ℕ, List, [], IsTrue, None, Some};
ghost use Rattle.std.specs.Prelude.{length, map, slice_index_or, take};
ghost use Rattle.std.specs.List.{All, Contains};
ghost use Rattle.dns_answers.specs.Records.{count_of};
ghost use Rattle.dns_answers.specs.Values.{AnswerValue};
ghost use Rattle.dns_message.specs.declared.kind.Kind.TheVariants as kind;
ghost use Rattle.dns_message.specs.declared.question.Question.{Question};
ghost use Rattle.sip_uri.specs.declared.host.Host.TheVariants as host;
ghost use Rattle.ip_text.specs.declared.address.Address.TheVariants as address;
ghost use Rattle.sip_uri.specs.declared.transport.Transport.TheVariants.{Tls};
ghost use Rattle.sip_selection.specs.Callers.{kinds_of, offers};
ghost use Rattle.sip_selection.specs.Choice.{locate, need, targets};
ghost use Rattle.sip_selection.specs.FixedOrders.{AnswersAreTurned};
ghost use Rattle.sip_selection.specs.Known.{Given, addresses_in, find_answer};
ghost use Rattle.sip_selection.specs.Requests.{is_secure, target_of};
ghost use Rattle.sip_selection.specs.declared.caps.Caps.{Caps};
ghost use Rattle.sip_selection.specs.declared.request.Request.{Request};
ghost use Rattle.sip_selection.specs.declared.target.Target.{Target};

use dns_message::{NaptrRecord, SrvRecord};
use record_order::{law_order_is_fixed, law_order_is_sorted, law_orders_are_exact};
use srv_choice::law_order_is_by_priority;

/// Where TARGET is an address, nothing is asked: the request goes to that address alone, or nowhere
/// (RFC 3263 4.2).
pub fn law_numeric_targets_ask_nothing()
    ensures nothing { (request : Request) (caps : Caps) (words : List ℕ) (given : List Given)
        → ((name : List (List ℕ)) → target_of request ≢ host.Domain name)
        → (question : Question) → locate request caps words given ≢ need question }
    ensures v4 { (request : Request) (caps : Caps) (words : List ℕ) (given : List Given)
        → (octets : List ℕ) → target_of request ≡ host.V4 octets
        → (found : List Target) → locate request caps words given ≡ targets found
        → map (λ it. it.address) found ≡ address.V4 octets ∷ [] }
    ensures v6 { (request : Request) (caps : Caps) (words : List ℕ) (given : List Given)
        → (octets : List ℕ) → target_of request ≡ host.V6 octets
        → (found : List Target) → locate request caps words given ≡ targets found
        → map (λ it. it.address) found ≡ address.V6 octets ∷ [] }
{}

/// A request to a SIPS URI goes over TLS alone (RFC 3261 26.2.2).
pub fn law_secure_requests_go_over_tls()
    ensures { (request : Request) (caps : Caps) (words : List ℕ) (given : List Given)
        → IsTrue (is_secure request)
        → (found : List Target) → locate request caps words given ≡ targets found
        → All (λ it. it.transport ≡ Tls) found }
{}

/// Each target's transport is one of the caller's.
pub fn law_targets_are_offered()
    ensures { (request : Request) (caps : Caps) (words : List ℕ) (given : List Given)
        → (found : List Target) → locate request caps words given ≡ targets found
        → All (λ it. IsTrue (offers caps it.transport)) found }
{}

/// Where TARGET is a name, each target's address is in the answer that was given to a question for
/// addresses of one of the caller's families.
pub fn law_targets_are_answered()
    ensures { (request : Request) (caps : Caps) (words : List ℕ) (given : List Given)
        → (name : List (List ℕ)) → target_of request ≡ host.Domain name
        → (found : List Target) → locate request caps words given ≡ targets found
        → All (λ it. (question : Question) × (answer : AnswerValue)
        × Contains (kinds_of caps.families) question.kind
        × (find_answer given question ≡ Some answer)
        × Contains (addresses_in answer.records) it.address) found }
{}

/// A question that is needed has no answer yet. It asks for NAPTR or SRV records, or for addresses
/// of one of the caller's families.
pub fn law_questions_are_missing()
    ensures missing { (request : Request) (caps : Caps) (words : List ℕ) (given : List Given)
        → (question : Question) → locate request caps words given ≡ need question
        → find_answer given question ≡ None }
    ensures kind { (request : Request) (caps : Caps) (words : List ℕ) (given : List Given)
        → (question : Question) → locate request caps words given ≡ need question
        → Contains (kind.Naptr ∷ kind.Srv ∷ kinds_of caps.families) question.kind }
{}

/// There are at most 16,384 targets: of 8 services at most, each of 32 servers with 64 addresses.
/// (`Caps::new` takes at most four transports, and an answer has at most 32 records.)
pub fn law_targets_are_few()
    ensures { (request : Request) (caps : Caps) (words : List ℕ) (given : List Given)
        → length caps.transports ≤ 4
        → All (λ it. count_of it.answer.records ≤ 32) given
        → (found : List Target) → locate request caps words given ≡ targets found
        → length found ≤ 16384 }
{
    law_order_is_by_priority();
}

/// Where each answer is to the question that was needed when it came, there are at most 521: one
/// has NAPTR records, and for each of 8 services one has SRV records, and two have addresses for
/// each of 32 servers. Where the addresses of TARGET itself are needed, no service has servers.
pub fn law_questions_are_few()
    ensures { (request : Request) (caps : Caps) (words : List ℕ) (given : List Given)
        → length caps.transports ≤ 4
        → All (λ it. count_of it.answer.records ≤ 32) given
        → ((k : ℕ) (it : Given) → k < length given
        → locate request caps words (take k given) ≡ need (slice_index_or given k it).question)
        → length given ≤ 521 }
{}

/// In the fixed order a request goes the same way whatever the random words are, and however
/// servers turn the records of their replies round (RFC 3263 4.4).
pub fn law_fixed_order_is_of_records()
    ensures { (request : Request) (caps : Caps) (words other_words : List ℕ)
        → (given turned : List Given) → IsTrue caps.is_fixed → AnswersAreTurned given turned
        → locate request caps other_words turned ≡ locate request caps words given }
{
    law_orders_are_exact();
    law_order_is_fixed::<[u8; 4]>();
    law_order_is_fixed::<SrvRecord>();
    law_order_is_fixed::<NaptrRecord>();
    law_order_is_sorted::<SrvRecord>();
}
