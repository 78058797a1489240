//! Names as texts (RFC 1035 5.1).
ghost use Rattle.std.specs.Prelude.{◌≡◌, ◌∷◌, ◌++◌, ◌+◌, ◌≤◌, ◌<◌, [], List, ℕ, length, map, take, drop, IfOk, IfErr, OnOk, OnErr, IfSome, IsSomeAnd, Some, None, MatchResult, ◌⊎◌};
ghost use Rattle.std.specs.Result.{result_err};
ghost use Rattle.std.specs.List.{list_all};
ghost use Rattle.std.specs.String.{string_bytes};
ghost use Rattle.dns_name.specs.Labels.{small_letters, wire_of, IsLabel};
ghost use Rattle.dns_name.specs.Octets.{IsPadded};
ghost use Rattle.dns_name.specs.Texts as spec;

use crate::builder::{NAME_LIMIT, NameBuilder};
use crate::name::{Name, first_label};
use crate::octets::{INLINE_LIMIT, Octets};
use crate::refusal::NameRefusal;
use std::alloc::{AllocError, Global};

/// The most octets of a label (RFC 1035 2.3.4).
const LABEL_LIMIT: usize = 63;

/// For each octet whether it is a letter, a digit, `_` or `-`.
const TEXT_OCTETS: [bool; 256] = [
    false, false, false, false, false, false, false, false, false, false, false, false, false,
    false, false, false, false, false, false, false, false, false, false, false, false, false,
    false, false, false, false, false, false, false, false, false, false, false, false, false,
    false, false, false, false, false, false, true, false, false, true, true, true, true, true,
    true, true, true, true, true, false, false, false, false, false, false, false, true, true,
    true, true, true, true, true, true, true, true, true, true, true, true, true, true, true, true,
    true, true, true, true, true, true, true, true, false, false, false, false, true, false, true,
    true, true, true, true, true, true, true, true, true, true, true, true, true, true, true, true,
    true, true, true, true, true, true, true, true, true, false, false, false, false, false, false,
    false, false, false, false, false, false, false, false, false, false, false, false, false,
    false, false, false, false, false, false, false, false, false, false, false, false, false,
    false, false, false, false, false, false, false, false, false, false, false, false, false,
    false, false, false, false, false, false, false, false, false, false, false, false, false,
    false, false, false, false, false, false, false, false, false, false, false, false, false,
    false, false, false, false, false, false, false, false, false, false, false, false, false,
    false, false, false, false, false, false, false, false, false, false, false, false, false,
    false, false, false, false, false, false, false, false, false, false, false, false, false,
    false, false, false, false, false, false, false, false, false, false, false, false, false,
    false, false, false, false, false, false, false, false, false, false,
];

/// Whether an octet may stand in a label of a text.
fn is_text_octet(octet: u8) -> bool
    ensures { result ≡ spec.is_text_octet octet }
{
    TEXT_OCTETS[usize::from(octet)]
}

/// Whether each octet may stand in a label of a text.
fn are_text_octets(octets: &[u8]) -> bool
    ensures { result ≡ list_all spec.is_text_octet octets.now }
{
    octets.iter().all(|octet| is_text_octet(*octet))
}

/// Refuses what is no label of a text.
fn check_label(label: &[u8]) -> Result<(), NameRefusal>
    ensures { result_err result ≡ spec.label_fault label.now }
{
    if label.is_empty() {
        return Err(NameRefusal::EmptyLabel);
    }
    if !are_text_octets(label) {
        return Err(NameRefusal::BadOctet);
    }
    if label.len() > LABEL_LIMIT {
        return Err(NameRefusal::LongLabel);
    }
    Ok(())
}

/// Refuses what is no name of labels with dots between them.
fn check_labels(text: &[u8]) -> Result<(), NameRefusal>
    ensures { result_err result ≡ spec.dotted_fault (spec.parted text.now) }
{
    for label in text.split(|octet| *octet == b'.') {
        check_label(label)?;
    }
    // Each label but one has a dot in front; so their lengths and the closing 0 make two more.
    if text.len() + 2 > NAME_LIMIT {
        return Err(NameRefusal::LongName);
    }
    Ok(())
}

/// The labels with dots between them.
fn builder_of(text: &[u8]) -> NameBuilder
    requires { spec.dotted_fault (spec.parted text.now) ≡ None }
    ensures { result.octets.items ++ 0 ∷ []
        ≡ wire_of (map small_letters (spec.parted text.now)) }
{
    let mut builder = NameBuilder::new();
    for label in text.split(|octet| *octet == b'.') {
        builder.push(label);
    }
    builder
}

/// Writes the labels with dots between them over zeros, from the last octet on, each behind its
/// length: that stands where the dot in front of the label was.
fn put_labels(octets: &mut [u8; INLINE_LIMIT], text: &[u8])
    requires short { length text.now + 2 ≤ 31 }
    requires zeros { IsPadded octets.old 0 }
    ensures padded { IsPadded octets.new (length text.now + 2) }
    ensures spelled { take (length text.now + 2) octets.new
        ≡ wire_of (map small_letters (spec.parted text.now)) }
{
    let mut length = 0;
    let mut at = text.len();
    while at > 0 {
        let octet = text[at - 1];
        if octet == b'.' {
            octets[at] = length;
            length = 0;
        } else {
            octets[at] = octet.to_ascii_lowercase();
            length += 1;
        }
        at -= 1;
    }
    octets[0] = length;
}

/// The name of so many labels that it takes memory. By itself, since room for the longest name is
/// filled with zeros where a function begins.
#[inline(never)]
fn long_name_of(alloc: Global, text: &[u8]) -> Result<Name, AllocError>
    requires { spec.dotted_fault (spec.parted text.now) ≡ None }
    ensures { IfOk result
        (λ name. wire_of name ≡ wire_of (map small_letters (spec.parted text.now))) }
{
    builder_of(text).finish(alloc, &[0])
}

/// The name of the labels with dots between them.
fn name_of(alloc: Global, text: &[u8]) -> Result<Name, AllocError>
    requires { spec.dotted_fault (spec.parted text.now) ≡ None }
    ensures { IfOk result
        (λ name. wire_of name ≡ wire_of (map small_letters (spec.parted text.now))) }
{
    if text.len() + 2 > INLINE_LIMIT {
        return long_name_of(alloc, text);
    }
    let mut octets = [0; INLINE_LIMIT];
    put_labels(&mut octets, text);
    Ok(Name::from_wire(Octets::inline(alloc, octets, text.len() + 2)))
}

/// Puts the octets of the labels with dots between them in place of others.
#[inline(always)]
fn put_name(octets: &mut Octets, text: &[u8])
    requires { length text.now + 2 ≤ 31 }
    ensures { octets.new ≡ wire_of (map small_letters (spec.parted text.now)) }
{
    octets.heap = Vec::new(octets.allocator());
    octets.inline = [0; INLINE_LIMIT];
    put_labels(&mut octets.inline, text);
    octets.length = (text.len() + 2) as u8;
}

/// Makes a name that of the labels with dots between them. After an error it is as before.
#[inline(always)]
fn make_name(name: &mut Name, text: &[u8]) -> Result<(), AllocError>
    requires { spec.dotted_fault (spec.parted text.now) ≡ None }
    ensures ok { OnOk result
        (wire_of name.new ≡ wire_of (map small_letters (spec.parted text.now))) }
    ensures err { OnErr result (name.new ≡ name.old) }
{
    if text.len() + 2 > INLINE_LIMIT {
        *name = long_name_of(name.allocator(), text)?;
        return Ok(());
    }
    put_name(&mut name.octets, text);
    Ok(())
}

/// A text without its closing dot, if it has one.
fn without_closing_dot(text: &[u8]) -> &[u8]
    ensures { result.now ≡ spec.without_closing_dot text.now }
{
    match text {
        [front @ .., b'.'] => front,
        _ => text,
    }
}

/// Adds an octet of a label to a text.
fn push_octet(text: &mut String, octet: u8) -> Result<(), AllocError>
    ensures { OnOk result (string_bytes text.new ≡ string_bytes text.old ++ spec.shown octet) }
{
    if is_text_octet(octet) {
        return text.push(char::from(octet));
    }
    text.push('\\')?;
    text.push(char::from(b'0' + octet / 100))?;
    text.push(char::from(b'0' + octet / 10 % 10))?;
    text.push(char::from(b'0' + octet % 10))
}

/// Adds a label and a dot to a text.
fn push_label(text: &mut String, label: &[u8]) -> Result<(), AllocError>
    ensures { OnOk result
        (string_bytes text.new ≡ string_bytes text.old ++ spec.label_text label.now) }
{
    for octet in label {
        push_octet(text, *octet)?;
    }
    text.push('.')
}

impl Name {
    /// The name of a text: labels of letters, digits, `_` and `-`, parted by dots, with an optional
    /// closing dot. A dot alone is the root.
    ///
    /// Each label is checked from the left, for no octet, then for another octet, then for more
    /// than 63; after all labels the name, for more than 255 octets on the wire. Memory is taken
    /// for a name alone.
    pub fn from_text(alloc: Global, text: &str) -> Result<Name, NameRefusal>
        // What is named is a name of the text.
        ensures found { IfOk result (λ name. spec.TextOf name text.now) }
        // A text of a name is named, unless memory is refused.
        ensures read { (name : List (List ℕ)) → spec.TextOf name text.now
            → MatchResult result (λ found. found ≡ name) (λ refusal. refusal ≡ NameRefusal.Memory) }
        // Each other refusal comes exactly where it is the text's fault.
        ensures fault { IfSome (spec.text_fault text.now) (λ fault. result ≡ Err fault) }
        ensures refused { IfErr result
            (λ refusal. (refusal ≡ NameRefusal.Memory)
            ⊎ (spec.text_fault text.now ≡ Some refusal)) }
    {
        let text = text.as_bytes();
        if text == b".".as_slice() {
            return Ok(Name::root(alloc));
        }
        let dotted = without_closing_dot(text);
        check_labels(dotted)?;
        Ok(name_of(alloc, dotted)?)
    }

    /// The name of octets that were found to be a hostname, or another text of a name. They are
    /// not checked again.
    pub fn of_hostname(alloc: Global, octets: &[u8]) -> Result<Name, AllocError>
        requires { (name : List (List ℕ)) × spec.TextOf name octets.now }
        // What is named is a name of the octets, and they have no other one.
        ensures found { IfOk result (λ name. spec.TextOf name octets.now) }
        ensures read { (name : List (List ℕ)) → spec.TextOf name octets.now
            → IfOk result (λ found. found ≡ name) }
    {
        if octets == b".".as_slice() {
            return Ok(Name::root(alloc));
        }
        name_of(alloc, without_closing_dot(octets))
    }

    /// Makes the name that of octets that were found to be a hostname, or another text of a name.
    /// So the octets of a name within a value are written where they stay: a copy of octets that
    /// were just written one by one has to wait for them. After an error the name is as before.
    #[inline(always)]
    pub fn copy_hostname(&mut self, octets: &[u8]) -> Result<(), AllocError>
        requires { (name : List (List ℕ)) × spec.TextOf name octets.now }
        // It is the name of the octets, which have no other one.
        ensures ok { (name : List (List ℕ)) → spec.TextOf name octets.now
            → OnOk result (self.new ≡ name) }
        ensures err { OnErr result (self.new ≡ self.old) }
    {
        if octets == b".".as_slice() {
            *self = Name::root(self.allocator());
            return Ok(());
        }
        make_name(self, without_closing_dot(octets))
    }

    /// The name with two labels in front, as `_sip` and `_udp` in front of a domain (RFC 2782).
    /// They are checked as those of a text; so a dot in one of them is `BadOctet`.
    pub fn prefixed(&self, service: &str, proto: &str) -> Result<Name, NameRefusal>
        ensures named { IfOk result
            (λ name. name ≡ small_letters service.now ∷ small_letters proto.now ∷ self.now) }
        // Each refusal but that of memory comes exactly where it is a fault of the labels or of
        // their length.
        ensures fault { IfSome (spec.prefix_fault service.now proto.now self.now)
            (λ fault. result ≡ Err fault) }
        ensures refused { IfErr result
            (λ refusal. (refusal ≡ NameRefusal.Memory)
            ⊎ (spec.prefix_fault service.now proto.now self.now ≡ Some refusal)) }
    {
        let service = service.as_bytes();
        let proto = proto.as_bytes();
        check_label(service)?;
        check_label(proto)?;
        let others = self.wire();
        if 2 + service.len() + proto.len() + others.len() > NAME_LIMIT {
            return Err(NameRefusal::LongName);
        }
        let mut builder = NameBuilder::new();
        builder.push(service);
        builder.push(proto);
        Ok(builder.finish(self.allocator(), others)?)
    }

    /// The text of the name: each label with a dot after it; the root is a dot alone. An octet that
    /// is no small letter, digit, `_` or `-` is `\` and three decimal digits (RFC 1035 5.1).
    pub fn text(&self) -> Result<String, AllocError>
        ensures { IfOk result (λ text. string_bytes text ≡ spec.text_of self.now) }
    {
        let mut text = String::new(self.allocator());
        let mut octets = self.wire();
        if self.is_root() {
            text.push('.')?;
        }
        while let Some((label, others)) = first_label(octets) {
            push_label(&mut text, label)?;
            octets = others;
        }
        Ok(text)
    }
}
