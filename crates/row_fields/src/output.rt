//! What a row gives, as text.
use crate::fault::Fault;
use std::alloc::{AllocError, Global};

/// The text that a row gives, up to the first fault.
#[derive(Drop)]
pub struct Output {
    text: String,
    fault: Option<Fault>,
}

impl Output {
    /// No text yet.
    pub fn new(alloc: Global) -> Output {
        Output {
            text: String::new(alloc),
            fault: None,
        }
    }

    /// Where its memory comes from.
    pub fn alloc(&self) -> Global {
        *self.text.allocator()
    }

    /// The text, where there was no fault.
    pub fn finish(self) -> Result<String, Fault> {
        let Output { text, fault } = self;
        match fault {
            Some(fault) => Err(fault),
            None => Ok(text),
        }
    }

    /// Takes what could not be done, if anything.
    pub fn end(&mut self, done: Result<(), Fault>) {
        if let Err(fault) = done {
            self.fail(fault);
        }
    }

    /// Takes a fault, unless there was one before.
    pub fn fail(&mut self, fault: Fault) {
        if self.fault.is_none() {
            self.fault = Some(fault);
        }
    }

    /// Writes a text.
    pub fn push(&mut self, text: &str) {
        if self.text.push_str(text).is_err() {
            self.fail(Fault::Memory);
        }
    }

    /// Writes a text, or takes that there was no memory for it.
    pub fn push_made(&mut self, made: Result<String, AllocError>) {
        match made {
            Ok(text) => self.push(&text),
            Err(_) => self.fail(Fault::Memory),
        }
    }

    /// Writes what another output gave, or takes its fault.
    pub fn push_done(&mut self, done: Result<String, Fault>) {
        match done {
            Ok(text) => self.push(&text),
            Err(fault) => self.fail(fault),
        }
    }

    /// Writes a text and the end of a line.
    pub fn push_line(&mut self, text: &str) {
        self.push(text);
        self.push("\n");
    }

    /// Writes a character.
    pub fn push_char(&mut self, one: char) {
        if self.text.push(one).is_err() {
            self.fail(Fault::Memory);
        }
    }

    /// Writes a number.
    pub fn push_number(&mut self, number: u64) {
        if write!(self.text, "{number}").is_err() {
            self.fail(Fault::Memory);
        }
    }

    /// Writes a length.
    pub fn push_length(&mut self, length: usize) {
        if write!(self.text, "{length}").is_err() {
            self.fail(Fault::Memory);
        }
    }

    /// Writes an octet by two hexadecimal digits.
    pub fn push_hexadecimal(&mut self, octet: u8) {
        if write!(self.text, "{octet:02x}").is_err() {
            self.fail(Fault::Memory);
        }
    }

    /// Writes an octet of a field.
    fn push_octet(&mut self, octet: u8) {
        if octet > b' ' && octet < 127 && octet != b'\\' {
            self.push_char(char::from(octet));
        } else {
            self.push("\\x");
            self.push_hexadecimal(octet);
        }
    }

    /// Writes octets as a field: letters, digits and signs as themselves, but for the backslash,
    /// and others by two hexadecimal digits.
    pub fn push_octets(&mut self, octets: &[u8]) {
        if octets.is_empty() {
            self.push("\"\"");
        }
        for octet in octets {
            self.push_octet(*octet);
        }
    }

    /// Writes octets as a field and the end of a line.
    pub fn push_octets_line(&mut self, octets: &[u8]) {
        self.push_octets(octets);
        self.push("\n");
    }
}
