//! Tokens of a request, made of numbers (RFC 3261 8.1.1).
ghost use Rattle.std.specs.Prelude.{◌≡◌, ◌<◌, ◌∷◌, [], slice_index};
ghost use Rattle.std.specs.Char.{digit_char};
ghost use Rattle.sip_options.specs.Requests.{token, branch_text};

/// A hexadecimal digit, as a small letter from ten on.
fn hexadecimal_digit(number: u8) -> u8
    requires { number < 16 }
    ensures { result ≡ digit_char number }
{
    if number < 10 {
        b'0' + number
    } else {
        b'a' + number - 10
    }
}

/// A number as sixteen hexadecimal digits.
#[tactic(auto, unfolding(crate::specs::Requests::token))]
pub(crate) fn token(number: u64) -> [u8; 16]
    ensures { result ≡ token number }
{
    let [a, b, c, d, e, f, g, h] = number.to_be_bytes();
    [
        hexadecimal_digit(a / 16),
        hexadecimal_digit(a % 16),
        hexadecimal_digit(b / 16),
        hexadecimal_digit(b % 16),
        hexadecimal_digit(c / 16),
        hexadecimal_digit(c % 16),
        hexadecimal_digit(d / 16),
        hexadecimal_digit(d % 16),
        hexadecimal_digit(e / 16),
        hexadecimal_digit(e % 16),
        hexadecimal_digit(f / 16),
        hexadecimal_digit(f % 16),
        hexadecimal_digit(g / 16),
        hexadecimal_digit(g % 16),
        hexadecimal_digit(h / 16),
        hexadecimal_digit(h % 16),
    ]
}

/// The branch of a number: the magic cookie, and the number as sixteen hexadecimal digits.
#[tactic(auto, unfolding(crate::specs::Requests::token))]
pub(crate) fn branch(number: u64) -> [u8; 23]
    ensures { result ≡ branch_text number }
{
    let [a, b, c, d, e, f, g, h, i, j, k, l, m, n, o, p] = token(number);
    [
        b'z', b'9', b'h', b'G', b'4', b'b', b'K', a, b, c, d, e, f, g, h, i, j, k, l, m, n, o, p,
    ]
}
