//! Laws of names. A call of one does nothing; its contract states the law.
ghost use Rattle.std.specs.Prelude.{◌≡◌, ◌↔◌, IsTrue, ◌+◌, ◌<◌, ◌≤◌, ◌++◌, ℕ, List, length, take};
ghost use Rattle.dns_name.specs.Labels.{IsName, same_name, wire_of};
ghost use Rattle.dns_name.specs.Offsets.{NameAt};
ghost use Rattle.dns_name.specs.Texts.{IsPlain, TextOf, text_of};

/// At most one name is at one offset of a message, with one offset after it.
pub fn law_one_name_at_an_offset()
    ensures { (message : List ℕ) (p s end end' : ℕ) (name name' : List (List ℕ))
        → NameAt message p s name end → NameAt message p s name' end'
        → (name ≡ name') × (end ≡ end') }
{}

/// A name that begins a run of labels rests on the octets before its end, and on no others: each
/// message that has these octets has the name there.
pub fn law_name_rests_before_its_end()
    ensures within { (message : List ℕ) (p end : ℕ) (name : List (List ℕ))
        → NameAt message p p name end → (p < end) × (end ≤ length message) }
    ensures name { (message : List ℕ) (p end : ℕ) (name : List (List ℕ))
        → NameAt message p p name end → IsName name }
    ensures local { (message other : List ℕ) (p end : ℕ) (name : List (List ℕ))
        → NameAt message p p name end → take end message ≡ take end other
        → NameAt other p p name end }
{}

/// A name that is written without pointers is read again, whatever is before and after it.
pub fn law_written_name_is_read()
    ensures { (front back : List ℕ) (name : List (List ℕ)) → IsName name
        → NameAt (front ++ wire_of name ++ back) (length front) (length front) name
        (length front + length (wire_of name)) }
{}

/// Names that have the same octets have the same labels.
pub fn law_octets_determine_name()
    ensures { (name other : List (List ℕ)) → wire_of name ≡ wire_of other → name ≡ other }
{}

/// The text that is written for a name of letters, digits, `_` and `-` is a text of that name: so
/// it is read again.
pub fn law_written_text_is_read()
    ensures { (name : List (List ℕ)) → IsName name → IsPlain name → TextOf name (text_of name) }
{}

/// `==` holds exactly of a name and itself.
pub fn law_same_names_are_equal()
    ensures { (name other : List (List ℕ)) → IsTrue (same_name name other) ↔ (name ≡ other) }
{}
