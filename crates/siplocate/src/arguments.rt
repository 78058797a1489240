//! The words after the program's name.
ghost use Rattle.std.specs.Prelude.{◌≡◌, ◌+◌, ◌≤◌, ℕ, IfSome, Some, map};
ghost use Rattle.std.specs.Fmt.{decimal};
ghost use Rattle.std.specs.String.{string_bytes};
ghost use Rattle.siplocate.specs.Commands.{IsCount, Means, families_of};

use sip_selection::Families;

/// What the program is asked to do.
#[derive(Clone, Copy, Debug, PartialEq, Eq)]
pub enum Command {
    /// To locate one request.
    One(Families),
    /// To locate many requests, by this number of workers at once.
    Run(usize),
    /// Nothing that the program knows.
    Usage,
}

/// The families of a word.
fn families_of(word: &str) -> Option<Families>
    ensures { result ≡ families_of word.now }
{
    match word {
        "4" => Some(Families::V4),
        "6" => Some(Families::V6),
        "46" => Some(Families::V4ThenV6),
        "64" => Some(Families::V6ThenV4),
        _ => None,
    }
}

/// The most workers.
const MOST_WORKERS: usize = 64;

/// The number of a decimal digit.
fn digit_of(octet: u8) -> Option<usize>
    ensures found { IfSome result (λ digit. (octet ≡ 48 + digit) × (digit ≤ 9)) }
    ensures all { (digit : ℕ) → digit ≤ 9 → octet ≡ 48 + digit → result ≡ Some digit }
{
    if octet.is_ascii_digit() {
        Some(usize::from(octet - b'0'))
    } else {
        None
    }
}

/// The number below 100 that these octets spell, in decimal digits without a leading zero.
fn number_of(octets: &[u8]) -> Option<usize>
    ensures found { IfSome result (λ number. (number ≤ 99) × (octets.now ≡ decimal number)) }
    ensures all { (number : ℕ) → number ≤ 99 → octets.now ≡ decimal number → result ≡ Some number }
{
    match octets {
        [ones] => digit_of(*ones),
        [tens, ones] if *tens != b'0' => Some(digit_of(*tens)? * 10 + digit_of(*ones)?),
        _ => None,
    }
}

/// The number of workers of a word: 1 to 64, in decimal digits without a leading zero.
fn workers_of(word: &str) -> Option<usize>
    ensures found { IfSome result (IsCount word.now) }
    ensures all { (count : ℕ) → IsCount word.now count → result ≡ Some count }
{
    let count = number_of(word.as_bytes())?;
    if count >= 1 && count <= MOST_WORKERS {
        Some(count)
    } else {
        None
    }
}

/// The command that these words say.
pub fn arguments(words: &[String]) -> Command
    ensures { Means (map string_bytes words.now) result }
{
    match words {
        [one] if one.as_str() == "one" => Command::One(Families::V4),
        [one, families] if one.as_str() == "one" => match families_of(families) {
            Some(families) => Command::One(families),
            None => Command::Usage,
        },
        [run, workers] if run.as_str() == "run" => match workers_of(workers) {
            Some(workers) => Command::Run(workers),
            None => Command::Usage,
        },
        _ => Command::Usage,
    }
}
