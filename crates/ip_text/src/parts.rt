//! A text, cut at an octet.
ghost use Rattle.std.specs.Prelude.{◌≡◌, ◌+◌, ◌≤◌, length, IsTrue};
ghost use Rattle.std.specs.Option.{option_map};
ghost use Rattle.ip_text.specs.Parts.{before, behind, behind_front, Lacks};

/// Whether two octets from a place on are not of a kind.
#[inline(always)]
fn lacks_two(text: &[u8], at: usize, octet: u8) -> bool
    requires { at + 2 ≤ length text.now }
    ensures { IsTrue result → Lacks octet text.now at 2 }
{
    (text[at] != octet) & (text[at + 1] != octet)
}

/// Whether four octets from a place on are not of a kind.
#[inline(always)]
fn lacks_four(text: &[u8], at: usize, octet: u8) -> bool
    requires { at + 4 ≤ length text.now }
    ensures { IsTrue result → Lacks octet text.now at 4 }
{
    lacks_two(text, at, octet) & lacks_two(text, at + 2, octet)
}

/// Whether eight octets from a place on are not of a kind. They are compared with no branch between
/// them, so that a processor compares them in few steps.
#[inline(always)]
fn lacks_eight(text: &[u8], at: usize, octet: u8) -> bool
    requires { at + 8 ≤ length text.now }
    ensures { IsTrue result → Lacks octet text.now at 8 }
{
    lacks_four(text, at, octet) & lacks_four(text, at + 4, octet)
}

/// What stands before the first octet of a kind, and what stands after it, if there is one.
pub fn next_part(text: &[u8], octet: u8) -> (&[u8], Option<&[u8]>)
    ensures front { result.0.now ≡ before octet text.now }
    ensures back { option_map (λ rest. rest.now) result.1 ≡ behind octet text.now }
{
    let mut at = 0;
    while text.len() - at >= 8 && lacks_eight(text, at, octet) {
        at += 8;
    }
    while at < text.len() {
        if text[at] == octet {
            return (&text[..at], Some(&text[at + 1..]));
        }
        at += 1;
    }
    (text, None)
}

/// What follows an octet, where it stands in front.
#[inline(always)]
pub fn behind_front(text: &[u8], octet: u8) -> Option<&[u8]>
    ensures { option_map (λ rest. rest.now) result ≡ behind_front octet text.now }
{
    match text {
        [first, rest @ ..] if *first == octet => Some(rest),
        _ => None,
    }
}
