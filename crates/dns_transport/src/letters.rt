//! The letters of the name that a query asks for, in cases that are drawn (RFC 5452 9.3, RFC 4343).
ghost use Rattle.std.specs.Prelude.{◌≡◌};
ghost use Rattle.std.specs.Char.{to_ascii_lowercase};
ghost use Rattle.dns_name.specs.Labels.{small_letters};
ghost use Rattle.dns_transport.specs.Letters.{IsRespelled};

use rand_core::Rng;

/// The octets of a header (RFC 1035 4.1.1).
const HEADER_LENGTH: usize = 12;

/// The octets of QTYPE and QCLASS (RFC 1035 4.1.2).
const TYPE_LENGTH: usize = 4;

/// How many letters one draw is for.
const DRAW_BITS: usize = 32;

/// A letter in the other case; any other octet as it is.
fn in_other_case(octet: u8) -> u8
    ensures { to_ascii_lowercase result ≡ to_ascii_lowercase octet }
{
    if octet.is_ascii_lowercase() {
        octet.to_ascii_uppercase()
    } else {
        octet.to_ascii_lowercase()
    }
}

/// Gives each letter a case that is drawn.
fn draw_cases<G: Rng>(draws: &mut G, name: &mut [u8])
    ensures { small_letters name.new ≡ small_letters name.old }
{
    let mut bits = 0;
    'octets: for at in 0..name.len() {
        if at % DRAW_BITS == 0 {
            bits = draws.next_u32();
        }
        if bits % 2 == 1 {
            name[at] = in_other_case(name[at]);
        }
        bits /= 2;
    }
}

/// Gives each letter of the name that a query asks for a case that is drawn, where the header and
/// the question of the query have so many octets. The lengths of labels are no letters.
pub(crate) fn respell<G: Rng>(draws: &mut G, front: usize, query: &mut [u8])
    ensures { IsRespelled front query.old query.new }
{
    if HEADER_LENGTH + TYPE_LENGTH <= front && front <= query.len() {
        draw_cases(draws, &mut query[HEADER_LENGTH..front - TYPE_LENGTH]);
    }
}
