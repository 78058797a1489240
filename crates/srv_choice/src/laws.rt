//! Laws of the order. A call of one does nothing; its contract states the law.
ghost use Rattle.std.specs.Prelude.{◌≡◌, ◌+◌, ◌<◌, ◌∷◌, ℕ, List, All, Contains, IsPermutation};
ghost use Rattle.std.specs.Prelude.{length, nat_eq};
ghost use Rattle.std.specs.List.{IsDistinct, range_with_len};
ghost use Rattle.std.specs.List.Sorted.{IsNonDecreasingBy};
ghost use Rattle.dns_message.specs.declared.srv.SrvRecord as srv;
ghost use Rattle.srv_choice.specs.Chances.{chances};
ghost use Rattle.srv_choice.specs.Outcomes.{order_from};
ghost use Rattle.srv_choice.specs.SrvOrder.{arrangement, priority_at, weight_at};
ghost use Rattle.srv_choice.specs.declared.outcome.SrvOutcome.TheVariants.{Listed};

use crate::next_index::RECORD_LIMIT;
use crate::words::WORD_COUNT;

/// At most 32 records are put in order, and there are 256 words.
pub fn law_limits()
    ensures records { RECORD_LIMIT ≡ 32 }
    ensures words { WORD_COUNT ≡ 256 }
{}

/// What is listed is the index of each record once, and no record before one of a lower priority.
/// The index of the next random word is as many indexes on as there are records.
pub fn law_order_is_by_priority()
    ensures complete { (records : List srv.SrvRecord) (words : List ℕ) (from : ℕ)
        → (indexes : List ℕ) (next : ℕ) → order_from records words from ≡ Listed indexes next
        → IsPermutation (range_with_len 0 (length records)) indexes }
    ensures by_priority { (records : List srv.SrvRecord) (words : List ℕ) (from : ℕ)
        → (indexes : List ℕ) (next : ℕ) → order_from records words from ≡ Listed indexes next
        → IsNonDecreasingBy (priority_at records) indexes }
    ensures within { (records : List srv.SrvRecord) (words : List ℕ) (from : ℕ)
        → (indexes : List ℕ) (next : ℕ) → order_from records words from ≡ Listed indexes next
        → All (λ index. index < length records) indexes }
    ensures count { (records : List srv.SrvRecord) (words : List ℕ) (from : ℕ)
        → (indexes : List ℕ) (next : ℕ) → order_from records words from ≡ Listed indexes next
        → length indexes ≡ length records }
    ensures next { (records : List srv.SrvRecord) (words : List ℕ) (from : ℕ)
        → (indexes : List ℕ) (next : ℕ) → order_from records words from ≡ Listed indexes next
        → next ≡ from + length records }
{}

/// Indexes are arranged each once. Of the numbers from 0 to the sum of the weights of an
/// arrangement, as many pick an index as its weight says, and one more the first (RFC 2782,
/// "Weight").
pub fn law_weights_are_shares()
    ensures arranged { (records : List srv.SrvRecord) (indexes : List ℕ)
        → IsPermutation indexes (arrangement records indexes) }
    ensures first { (records : List srv.SrvRecord) (first : ℕ) (others : List ℕ)
        → IsDistinct nat_eq (first ∷ others)
        → chances records (first ∷ others) first ≡ weight_at records first + 1 }
    ensures others { (records : List srv.SrvRecord) (first : ℕ) (others : List ℕ) (index : ℕ)
        → IsDistinct nat_eq (first ∷ others) → Contains others index
        → chances records (first ∷ others) index ≡ weight_at records index }
{}
