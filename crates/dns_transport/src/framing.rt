//! Messages over a stream (RFC 1035 4.2.2, RFC 7766 8).
ghost use Rattle.std.specs.Prelude.{◌≡◌, ◌+◌, ◌≤◌, ◌∷◌, [], ◌++◌, IfOk, MatchOption, OnErr, OnOk, ℕ, List, drop, length, vec_len};
ghost use Rattle.std.specs.Int.{to_be_bytes, w16};
ghost use Rattle.dns_transport.specs.Frames.{BeginsWith, FramingView, IsPart, framed};

use std::alloc::{AllocError, Global};
use std::io::{self, ErrorKind, Read, Write};
use std::marker::Model;

/// How many octets are read at once.
const PART_LIMIT: usize = 2_048;

/// How many parts are written, and how many are read, at one step.
const PARTS_LIMIT: usize = 64;

/// What is half written and half read over a stream.
#[derive(Debug, Drop)]
pub(crate) struct Framing {
    /// The octets that are to be written, of which so many were.
    out: Vec<u8>,
    sent: usize,
    /// The octets that came, of which so many were taken.
    came: Vec<u8>,
    taken: usize,
}

impl Model for Framing {
    ghost use Rattle.std.specs.Prelude.{◌≤◌, drop, length};
    ghost use Rattle.dns_transport.specs.Frames.{FramingView};

    ghost Value = { FramingView };

    ghost view = { λ it. record {
      unwritten = drop it.sent it.out.items;
      untaken = drop it.taken it.came.items;
    } };

    ghost invariant = { λ it. (it.sent ≤ length it.out.items)
        × (it.taken ≤ length it.came.items) };
}

/// What a write or a read came to.
#[derive(Clone, Copy, Debug, PartialEq, Eq)]
pub(crate) enum Part {
    /// Octets went or came, or there are none.
    Moved,
    /// The stream takes or has none now.
    Waits,
    /// The stream failed or ended.
    Failed,
}

/// What came over a stream.
#[derive(Debug, Drop)]
pub enum Heard {
    /// Nothing more has come yet.
    Waits,
    /// A part of a message. More may have come behind it.
    More,
    /// A whole message. More may have come behind it.
    Message(Vec<u8>),
    /// The stream failed or ended, or a message has no octets.
    Failed,
}

/// Whether an error only says that the call would wait.
pub(crate) fn would_wait(error: &io::Error) -> bool {
    error.kind() == ErrorKind::WouldBlock
        || error.kind() == ErrorKind::NotConnected
        || error.kind() == ErrorKind::Interrupted
}

/// The number of two octets, the higher one first.
fn number_of(high: u8, low: u8) -> u16
    ensures { to_be_bytes w16 result ≡ high ∷ low ∷ [] }
{
    u16::from_be_bytes([high, low])
}

/// A message behind the two octets of its length.
fn framed(alloc: Global, message: &[u8]) -> io::Result<Vec<u8>>
    ensures { IfOk result (λ octets. octets.items ≡ framed message.now) }
{
    let Ok(count) = u16::try_from(message.len()) else {
        return Err(io::Error::from(ErrorKind::InvalidInput));
    };
    let mut octets = Vec::from_slice(alloc, &count.to_be_bytes())?;
    octets.extend_from_slice(message)?;
    Ok(octets)
}

/// The message in front of these octets, if it is whole.
///
/// # Errors
///
/// `InvalidData` where it has no octets, and `OutOfMemory`.
fn front_of(alloc: Global, octets: &[u8]) -> io::Result<Option<Vec<u8>>>
    ensures { IfOk result (λ it. MatchOption it (IsPart octets.now)
        (λ message. BeginsWith octets.now message.items
        (drop (length message.items + 2) octets.now))) }
{
    let [high, low, rest @ ..] = octets else {
        return Ok(None);
    };
    let count = usize::from(number_of(*high, *low));
    if count == 0 {
        return Err(io::Error::from(ErrorKind::InvalidData));
    }
    if rest.len() < count {
        return Ok(None);
    }
    Ok(Some(Vec::from_slice(alloc, &rest[..count])?))
}

impl Framing {
    ghost use Rattle.dns_transport.specs.Frames.{Hears, IfStands, Reads, Writes};

    /// Nothing is to be written, and nothing came.
    pub(crate) fn new(alloc: Global) -> Framing
        ensures { result ≡ record { unwritten = []; untaken = [] } }
    {
        Framing {
            out: Vec::new(alloc),
            sent: 0,
            came: Vec::new(alloc),
            taken: 0,
        }
    }

    /// Puts a message behind what is to be written, after the two octets of its length.
    pub(crate) fn push(&mut self, alloc: Global, message: &[u8]) -> io::Result<()>
        ensures pushed { OnOk result (self.new
            ≡ record self.old { unwritten = self.old.unwritten ++ framed message.now }) }
        ensures refused { OnErr result (self.new ≡ self.old) }
    {
        let octets = framed(alloc, message)?;
        self.out.extend_from_slice(octets.as_slice())?;
        Ok(())
    }

    /// What is to be written.
    fn unwritten(&self) -> &[u8]
        ensures { result.now ≡ self.now.unwritten }
    {
        &self.out[self.sent..]
    }

    /// Writes what is left, in one call.
    #[tactic(auto, using(crate::proofs::Flows::writes_nothing, crate::proofs::Flows::writes_part))]
    fn write_part<S: Write>(&mut self, stream: &mut S) -> Part
        ensures untaken { self.new.untaken ≡ self.old.untaken }
        ensures writes { Writes (S.contents stream.old) (S.contents stream.new)
            self.old.unwritten self.new.unwritten }
    {
        match stream.write(self.unwritten()) {
            Ok(0) => Part::Failed,
            Ok(count) => {
                self.sent += count;
                Part::Moved
            }
            Err(error) if would_wait(&error) => Part::Waits,
            Err(_) => Part::Failed,
        }
    }

    /// Lets the octets go that were written, if that is all.
    fn leave_written(&mut self) -> bool
        ensures { self.new ≡ self.old }
    {
        if self.sent < self.out.len() {
            return false;
        }
        self.out.clear();
        self.sent = 0;
        true
    }

    /// Writes what can be written now.
    #[tactic(auto, using(crate::proofs::Flows::writes_same, crate::proofs::Flows::writes_then))]
    pub(crate) fn write<S: Write>(&mut self, stream: &mut S) -> Part
        ensures untaken { self.new.untaken ≡ self.old.untaken }
        ensures writes { Writes (S.contents stream.old) (S.contents stream.new)
            self.old.unwritten self.new.unwritten }
    {
        'parts: for _part in 0..PARTS_LIMIT {
            if self.leave_written() {
                break;
            }
            match self.write_part(stream) {
                Part::Moved => {}
                Part::Waits => return Part::Waits,
                Part::Failed => return Part::Failed,
            }
        }
        Part::Moved
    }

    /// Reads a part.
    #[tactic(auto, using(crate::proofs::Flows::reads_nothing))]
    fn read_part<S: Read>(&mut self, stream: &mut S) -> Part
        ensures unwritten { self.new.unwritten ≡ self.old.unwritten }
        ensures reads { IfStands result (Reads (S.remaining stream.old) (S.remaining stream.new)
            self.old.untaken self.new.untaken) }
    {
        let mut buffer = [0; PART_LIMIT];
        match stream.read(&mut buffer) {
            Ok(0) => Part::Failed,
            Ok(count) => match self.came.extend_from_slice(&buffer[..count]) {
                Ok(()) => Part::Moved,
                Err(_) => Part::Failed,
            },
            Err(error) if would_wait(&error) => Part::Waits,
            Err(_) => Part::Failed,
        }
    }

    /// Lets the octets go that were taken.
    fn leave_taken(&mut self, alloc: Global) -> Result<(), AllocError>
        ensures { self.new ≡ self.old }
    {
        if self.taken > 0 {
            self.came = Vec::from_slice(alloc, &self.came[self.taken..])?;
            self.taken = 0;
        }
        Ok(())
    }

    /// Takes the message that has come whole, if one has.
    fn take(&mut self, alloc: Global) -> io::Result<Option<Vec<u8>>>
        ensures unwritten { self.new.unwritten ≡ self.old.unwritten }
        ensures taken { IfOk result (λ it. MatchOption it
            ((self.new ≡ self.old) × IsPart self.old.untaken)
            (λ message. BeginsWith self.old.untaken message.items self.new.untaken)) }
        ensures unchanged { OnErr result (self.new ≡ self.old) }
    {
        let front = front_of(alloc, &self.came[self.taken..])?;
        match &front {
            Some(message) => self.taken += message.len() + 2,
            None => self.leave_taken(alloc)?,
        }
        Ok(front)
    }

    /// Takes a message that came, without waiting. Where memory is refused, all stays as it is, and
    /// more may come.
    #[tactic(auto, using(crate::proofs::Flows::reads_same, crate::proofs::Flows::reads_then))]
    pub(crate) fn read<S: Read>(&mut self, alloc: Global, stream: &mut S) -> Heard
        ensures unwritten { self.new.unwritten ≡ self.old.unwritten }
        ensures hears { Hears (S.remaining stream.old) (S.remaining stream.new)
            self.old.untaken self.new.untaken result }
    {
        'parts: for _part in 0..PARTS_LIMIT {
            match self.take(alloc) {
                Ok(Some(message)) => return Heard::Message(message),
                Ok(None) => {}
                Err(error) if error.kind() == ErrorKind::OutOfMemory => return Heard::More,
                Err(_) => return Heard::Failed,
            }
            if self.came.reserve(PART_LIMIT).is_err() {
                return Heard::More;
            }
            match self.read_part(stream) {
                Part::Moved => {}
                Part::Waits => return Heard::Waits,
                Part::Failed => return Heard::Failed,
            }
        }
        Heard::More
    }
}
