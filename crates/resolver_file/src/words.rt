//! The words of a line.
ghost use Rattle.std.specs.Prelude.{◌≡◌, ◌∷◌, ◌<◌, ◌≤◌, [], true, false, length, take, drop, IfSome, MatchOption};
ghost use Rattle.std.specs.List.{All};
ghost use Rattle.resolver_file.specs.ResolverLines as spec;

/// Whether an octet parts words: a space, a tab or a carriage return.
pub(crate) fn is_blank(octet: u8) -> bool
    ensures { result ≡ spec.is_blank octet }
{
    octet == b' ' || octet == b'\t' || octet == b'\r'
}

/// Whether a blank stands in front.
pub(crate) fn is_indented(line: &[u8]) -> bool
    ensures { result ≡ spec.is_indented line.now }
{
    match line {
        [first, ..] => is_blank(*first),
        [] => false,
    }
}

/// How many blanks stand in front.
fn blank_count(text: &[u8]) -> usize
    ensures within { result ≤ length text.now }
    ensures same { spec.words_of (drop result text.now) ≡ spec.words_of text.now }
    ensures plain { spec.is_indented (drop result text.now) ≡ false }
{
    for (at, octet) in text.iter().enumerate() {
        if !is_blank(*octet) {
            return at;
        }
    }
    text.len()
}

/// How many octets stand in front of the first blank.
fn word_length(text: &[u8]) -> usize
    ensures within { result ≤ length text.now }
    ensures word { All (λ octet. spec.is_blank octet ≡ false) (take result text.now) }
    ensures stops { result < length text.now → spec.is_indented (drop result text.now) ≡ true }
{
    for (at, octet) in text.iter().enumerate() {
        if is_blank(*octet) {
            return at;
        }
    }
    text.len()
}

/// The first word of a text, and what stands behind it.
pub(crate) fn next_word(text: &[u8]) -> Option<(&[u8], &[u8])>
    ensures words { MatchOption result (spec.words_of text.now ≡ [])
        (λ it. spec.words_of text.now ≡ it.0.now ∷ spec.words_of it.1.now) }
    ensures shorter { IfSome result (λ it. length it.1.now < length text.now) }
{
    let (_, text) = text.split_at(blank_count(text));
    if text.is_empty() {
        return None;
    }
    Some(text.split_at(word_length(text)))
}
