//! Texts, cut where a repetition of pieces ends.
ghost use Rattle.std.specs.Prelude.{◌≡◌, ◌<◌, ◌≤◌, ◌++◌, ℕ, List, length, take, IfSome, IfNone};
ghost use Rattle.sip_options.specs.Texts.{Many, Ends};

/// A kind of pieces, as a class of octets or quoted strings.
pub(crate) trait Piece: Copy {
    // Whether a text is one piece.
    ghost is_one: { Self → List ℕ → Type 0 };

    /// The number of octets of the piece in front of a text.
    fn length_in_front(self, text: &[u8]) -> Option<usize>
        ensures found { IfSome result (λ count. (0 < count) × (count ≤ length text.now)
            × is_one self (take count text.now)) }
        ensures none { IfNone result (Ends (is_one self) text.now) };
}

/// The pieces in front of a text, as many as there are, and what follows them.
pub(crate) fn cut<P: Piece>(piece: P, text: &[u8]) -> (&[u8], &[u8])
    ensures joined { text.now ≡ result.0.now ++ result.1.now }
    ensures many { Many (P.is_one piece) result.0.now }
    ensures ends { Ends (P.is_one piece) result.1.now }
{
    let mut at = 0;
    while let Some(count) = piece.length_in_front(&text[at..]) {
        at += count;
    }
    (&text[..at], &text[at..])
}
