//! Octets of a class in a row.
ghost use Rattle.std.specs.Prelude.{◌≡◌, ℕ, Bool};
ghost use Rattle.sip_uri.specs.ViaClasses.{row, behind_row};

/// A class of octets.
pub(crate) trait OctetClass: Copy {
    // Whether an octet is of the class.
    ghost octets: { Self → ℕ → Bool };

    /// Whether an octet is of the class.
    fn has(self, octet: u8) -> bool
        ensures { result ≡ octets self octet };
}

/// The octets of a class in front, and what follows them.
pub(crate) fn cut<C: OctetClass>(class: C, text: &[u8]) -> (&[u8], &[u8])
    ensures front { result.0.now ≡ row (C.octets class) text.now }
    ensures back { result.1.now ≡ behind_row (C.octets class) text.now }
{
    for (at, octet) in text.iter().enumerate() {
        if !class.has(*octet) {
            return (&text[..at], &text[at..]);
        }
    }
    (text, &text[text.len()..])
}
