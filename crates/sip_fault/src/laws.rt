//! Laws of faults: a call of one does nothing, and its contract states the law.
ghost use Rattle.std.specs.Prelude.{◌≡◌, ◌≤◌, ℕ, List, length};
ghost use Rattle.sip_fault.specs.Faults.{IsUriFault, IsViaFault};

/// The fault of a text stands in it, or where it ends.
pub fn law_fault_within_text()
    ensures uri { (text : List ℕ) (at : ℕ) → IsUriFault text at → at ≤ length text }
    ensures via { (text : List ℕ) (at : ℕ) → IsViaFault text at → at ≤ length text }
{}

/// A text has its leftmost fault at one place.
pub fn law_one_fault_of_a_text()
    ensures uri { (text : List ℕ) (at at' : ℕ) → IsUriFault text at → IsUriFault text at'
        → at ≡ at' }
    ensures via { (text : List ℕ) (at at' : ℕ) → IsViaFault text at → IsViaFault text at'
        → at ≡ at' }
{}
