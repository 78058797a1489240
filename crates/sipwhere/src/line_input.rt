//! Lines of an input, as they come.
ghost use Rattle.std.specs.Prelude.{◌≡◌, ◌<◌, ◌≤◌, ◌++◌, ◌∷◌, [], IfOk, IsFalse, IsTrue, List, OnOk, length, map, take, ℕ};
ghost use Rattle.std.specs.Io.KnownBytes.{Consumes, IsAtEnd};
ghost use Rattle.std.specs.List.{filter};
ghost use Rattle.std.specs.Str.{trim};
ghost use Rattle.std.specs.Str.Lossy.{utf8_lossy};
ghost use Rattle.std.specs.String.{string_bytes};
ghost use Rattle.sipwhere.specs.LineInputs as spec;

use std::alloc::{AllocError, Global};
use std::io::{self, ErrorKind, Read};
use std::marker::Model;

/// How many octets are read at once at most.
const READ_LIMIT: usize = 131_072;

/// How many octets are kept of a line: more than a request has. So an input without line ends takes
/// no more memory than one with them.
const KEPT_LIMIT: usize = 4_096;

/// What stands for the octets of a line that are not kept. No request has it anywhere, and it is no
/// blank at an end: so a line that was cut is none, whatever was dropped.
const CUT_MARK: [u8; 2] = [0, 0];

/// Adds the text of octets, without the blanks at its ends, where it has more than blanks.
fn push_text(alloc: Global, texts: &mut Vec<String>, octets: &[u8]) -> Result<(), AllocError>
    ensures { OnOk result (map string_bytes texts.new.items ≡ map string_bytes texts.old.items
        ++ filter spec.has_some (trim (utf8_lossy octets.now) ∷ [])) }
{
    let whole = String::from_utf8_lossy(alloc, octets)?;
    let text = whole.trim();
    if text.is_empty() {
        return Ok(());
    }
    let text = String::from_str(alloc, text)?;
    texts.push(text)?;
    Ok(())
}

/// A line of which the end is still to come.
#[derive(Drop)]
struct BegunLine {
    alloc: Global,
    /// Its octets, as far as they are kept.
    kept: Vec<u8>,
}

impl BegunLine {
    /// Keeps one octet more, as far as there is room for it, and the mark once where there is not.
    fn keep(&mut self, octet: u8) -> Result<(), AllocError>
        ensures { OnOk result ((line : List ℕ) → self.old.kept.items ≡ spec.kept line
            → self.new.kept.items ≡ spec.kept (line ++ octet ∷ [])) }
    {
        if self.kept.len() < KEPT_LIMIT {
            self.kept.push(octet)?;
        } else if self.kept.len() == KEPT_LIMIT {
            self.kept.extend_from_slice(&CUT_MARK)?;
        }
        Ok(())
    }

    /// Ends the line, and adds its text. Another line begins.
    fn end(&mut self, texts: &mut Vec<String>) -> Result<(), AllocError>
        ensures text { OnOk result (map string_bytes texts.new.items
            ≡ map string_bytes texts.old.items
            ++ filter spec.has_some (trim (utf8_lossy self.old.kept.items) ∷ [])) }
        ensures begun { OnOk result (self.new.kept.items ≡ []) }
    {
        push_text(self.alloc, texts, self.kept.as_slice())?;
        self.kept.clear();
        Ok(())
    }

    /// Takes an octet. The text of a line that ends is added.
    fn take(&mut self, octet: u8, texts: &mut Vec<String>) -> Result<(), AllocError>
        ensures { OnOk result ((read : List ℕ) (before : List (List ℕ))
            → spec.IsReading read (before ++ map string_bytes texts.old.items) self.old.kept.items
            → spec.IsReading (read ++ octet ∷ []) (before ++ map string_bytes texts.new.items)
            self.new.kept.items) }
    {
        if octet == b'\n' {
            return self.end(texts);
        }
        self.keep(octet)
    }

    /// Takes octets in turn. The text of each line that ends is added.
    fn take_all(&mut self, octets: &[u8], texts: &mut Vec<String>) -> Result<(), AllocError>
        ensures { OnOk result ((read : List ℕ) (before : List (List ℕ))
            → spec.IsReading read (before ++ map string_bytes texts.old.items) self.old.kept.items
            → spec.IsReading (read ++ octets.now) (before ++ map string_bytes texts.new.items)
            self.new.kept.items) }
    {
        'octets: for octet in octets {
            self.take(*octet, texts)?;
        }
        Ok(())
    }
}

/// Reads what comes next into a part, and gives how many octets came: none at the end.
fn read_part<R: Read>(input: &mut R, part: &mut Vec<u8>) -> io::Result<usize>
    requires room { 0 < length part.old.items }
    ensures within { IfOk result (λ count. count ≤ length part.new.items) }
    ensures read { IfOk result (λ count. Consumes (R.remaining input.old)
        (R.remaining input.new) (take count part.new.items)) }
    ensures end { IfOk result (λ count. count ≡ 0 → IsAtEnd (R.remaining input.new)) }
    ensures room { 0 < length part.new.items }
{
    input.read(part)
}

/// Lines of an input. What is whole is given, before more is waited for. An octet that is no UTF-8
/// comes as U+FFFD, which no URI has: so it spoils its own line alone.
#[derive(Drop)]
pub struct LineInput<R: Read> {
    alloc: Global,
    input: R,
    part: Vec<u8>,
    line: BegunLine,
    is_over: bool,
}

impl<R: Read> Model for LineInput<R> {
    ghost use Rattle.std.specs.Prelude.{◌<◌, length};
    ghost use Rattle.sipwhere.specs.LineInputs.{InputView};

    ghost Value = { InputView };

    ghost view = { λ it. record {
      left = R.remaining it.input;
      begun = it.line.kept.items;
      is_over = it.is_over;
    } };

    ghost invariant = { λ it. 0 < length it.part.items };
}

impl<R: Read + Drop> LineInput<R> {
    /// The lines of an input of which nothing was read.
    pub fn new(alloc: Global, input: R) -> Result<LineInput<R>, AllocError>
        ensures left { IfOk result (λ it. it.left ≡ R.remaining input) }
        ensures none { IfOk result (spec.HasGiven [] []) }
    {
        Ok(LineInput {
            alloc,
            input,
            part: vec![in alloc; 0; READ_LIMIT]?,
            line: BegunLine {
                alloc,
                kept: Vec::new(alloc),
            },
            is_over: false,
        })
    }

    /// Reads what comes next, and adds the texts of the lines that end.
    fn read_on(&mut self, texts: &mut Vec<String>) -> io::Result<()>
        requires open { IsFalse self.old.is_over }
        ensures { OnOk result ((read : List ℕ) (before : List (List ℕ))
            → spec.HasGiven read (before ++ map string_bytes texts.old.items) self.old
            → (next : List ℕ) × Consumes self.old.left self.new.left next
            × spec.HasGiven (read ++ next) (before ++ map string_bytes texts.new.items) self.new) }
    {
        let count = read_part(&mut self.input, &mut self.part)?;
        self.line.take_all(&self.part[..count], texts)?;
        if count == 0 {
            self.is_over = true;
            self.line.end(texts)?;
        }
        Ok(())
    }

    /// The texts of the next lines: as many as came at once, and one at least. None at the end.
    ///
    /// # Errors
    ///
    /// Those of the input, `OutOfMemory`, and `FileTooLarge` after 2^64 - 1 reads without a line.
    pub fn next_texts(&mut self) -> io::Result<Vec<String>>
        ensures gives { IfOk result
            (λ texts. spec.GivesMore self.old self.new (map string_bytes texts.items)) }
        ensures end { IfOk result (λ texts. texts.items ≡ [] → IsTrue self.new.is_over) }
    {
        let mut texts = Vec::new(self.alloc);
        for _ in 0..u64::MAX {
            if self.is_over || !texts.is_empty() {
                return Ok(texts);
            }
            self.read_on(&mut texts)?;
        }
        Err(ErrorKind::FileTooLarge.into())
    }
}
