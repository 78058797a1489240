//! Laws of answers. A call of one does nothing; its contract states the law.
ghost use Rattle.std.specs.Prelude.{◌≡◌, ◌≢◌, ◌↔◌, ◌<◌, ◌≤◌, ◌^◌, ◌++◌, ◌∷◌, ℕ, List, [], true, Option, Some, None, map};
ghost use Rattle.std.specs.List.{All};
ghost use Rattle.dns_message.specs.Written.{asked_of};
ghost use Rattle.dns_message.specs.declared.message.Message as message;
ghost use Rattle.dns_message.specs.declared.question.Asked as asked;
ghost use Rattle.dns_message.specs.declared.question.Question as question;
ghost use Rattle.dns_message.specs.declared.resource.Record as resource;
ghost use Rattle.dns_message.specs.declared.soa.SoaRecord as soa;
ghost use Rattle.dns_answers.specs.Chains as chains;
ghost use Rattle.dns_answers.specs.Answers.{answer};
ghost use Rattle.dns_answers.specs.Lives.{IsFirstSoa, IsLeast, IsNoSoa, effective_ttl, life_of, links_of, ttls};
ghost use Rattle.dns_answers.specs.Records.{count_of, kind_of};
ghost use Rattle.dns_answers.specs.Replies.{asks_this_alone};

use dns_name::law_same_names_are_equal;

/// A chain has the first CNAME record of each name on its way, at most eight of them, and ends at a
/// name without one; there is none exactly where nine can be followed.
pub fn law_chain_follows_cnames()
    ensures chain { (section : List resource.Record) (name : List (List ℕ)) (found : chains.Chain)
        → (chains.chain section name ≡ Some found) ↔ chains.IsChain section name found }
    ensures none { (section : List resource.Record) (name : List (List ℕ))
        → (chains.chain section name ≡ None) ↔ chains.IsTooLong section name }
{
    law_same_names_are_equal();
}

/// The questions of a message are this one alone exactly where it has one question, which is this
/// one in class IN.
pub fn law_question_is_repeated()
    ensures { (question : question.Question) (questions : List asked.Asked)
        → (asks_this_alone question questions ≡ true) ↔ (questions ≡ asked_of question ∷ []) }
{
    law_same_names_are_equal();
}

/// An answer with records lives as long as the one that lasts least, of its records and of the
/// CNAME records that led to them.
pub fn law_life_is_the_least()
    ensures { (message : message.Message) (chain : Option chains.Chain)
        (kept : List resource.Record) → kept ≢ []
        → IsLeast (life_of message chain kept) (map effective_ttl (ttls (links_of chain ++ kept))) }
{}

/// An answer without records outlives neither the first SOA record of the authority section, nor
/// its MINIMUM, nor any CNAME record that was followed, and lives as long as the least of these.
/// Without an SOA record there, and where the CNAME records have no end, its life is 0 (RFC 2308 3,
/// 5).
pub fn law_absence_is_limited()
    ensures ttl { (question : question.Question) (message : message.Message)
        (entry : resource.Record) (authority : soa.SoaRecord)
        → count_of (answer question message).records ≡ 0
        → IsFirstSoa message.authority entry authority
        → (answer question message).life ≤ effective_ttl entry.ttl }
    ensures minimum { (question : question.Question) (message : message.Message)
        (entry : resource.Record) (authority : soa.SoaRecord)
        → count_of (answer question message).records ≡ 0
        → IsFirstSoa message.authority entry authority
        → (answer question message).life ≤ authority.minimum }
    ensures cnames { (question : question.Question) (message : message.Message)
        (found : chains.Chain) → count_of (answer question message).records ≡ 0
        → chains.chain message.answers question.name ≡ Some found
        → All (λ ttl. (answer question message).life ≤ effective_ttl ttl) (ttls found.links) }
    ensures least { (question : question.Question) (message : message.Message)
        (found : chains.Chain) (entry : resource.Record) (authority : soa.SoaRecord)
        → count_of (answer question message).records ≡ 0
        → chains.chain message.answers question.name ≡ Some found
        → IsFirstSoa message.authority entry authority
        → IsLeast (answer question message).life
        (authority.minimum ∷ map effective_ttl (entry.ttl ∷ ttls found.links)) }
    ensures without { (question : question.Question) (message : message.Message)
        → count_of (answer question message).records ≡ 0 → All IsNoSoa message.authority
        → (answer question message).life ≡ 0 }
    ensures endless { (question : question.Question) (message : message.Message)
        → chains.chain message.answers question.name ≡ None
        → (answer question message).life ≡ 0 }
{}

/// The answer that a message has for a question is of the question's kind, and has at most 32
/// records and a life below 2^31 seconds.
pub fn law_answers_are_bounded()
    ensures kind { (question : question.Question) (message : message.Message)
        → kind_of (answer question message).records ≡ question.kind }
    ensures few { (question : question.Question) (message : message.Message)
        → count_of (answer question message).records ≤ 32 }
    ensures short { (question : question.Question) (message : message.Message)
        → (answer question message).life < 2 ^ 31 }
{}
