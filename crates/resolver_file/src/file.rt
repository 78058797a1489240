//! The system's resolver file (resolv.conf(5)).
ghost use Rattle.std.specs.Prelude.{◌≡◌, ◌+◌, [], List, ℕ, IfOk, OnOk, unwrap_or};
ghost use Rattle.std.specs.List.{filter_map};
ghost use Rattle.resolver_file.specs.ResolverFiles.{FileSays, FileValue, value_of};
ghost use Rattle.resolver_file.specs.ResolverLines.{LineSays, option_fact as option_says, words_of};
ghost use Rattle.resolver_file.specs.Views.{with_fact, with_facts};
ghost use Rattle.resolver_file.specs.declared.resolver_fact.Fact.{Fact};

use crate::resolver_fact::{Fact, option_fact, server_fact};
use crate::resolver_line::{LineForm, line_form};
use crate::warning::LineWarning;
use crate::words::next_word;
use sip_uri::Address;
use std::alloc::{AllocError, Global};
use std::marker::Model;

/// How many name servers of a file are taken at most: the first ones.
pub const SERVER_LIMIT: usize = 3;

/// The port of the name servers.
pub const SERVER_PORT: u16 = 53;

/// For how many seconds a reply is waited for where the file doesn't say.
const TIMEOUT: u32 = 5;

/// How often each server is asked where the file doesn't say.
const ATTEMPTS: u32 = 2;

/// The server of the local host.
const LOCAL_HOST: Address = Address::V4([127, 0, 0, 1]);

/// What the system's resolver file says: which servers to ask, how long to wait and how often to
/// ask.
#[derive(Debug, Drop)]
pub struct ResolverFile {
    servers: Vec<Address>,
    timeout: Option<u32>,
    attempts: Option<u32>,
    over_tcp: bool,
    rotates: bool,
    warnings: Vec<LineWarning>,
}

impl Model for ResolverFile {
    ghost use Rattle.resolver_file.specs.ResolverFiles.{FileValue};

    ghost Value = { FileValue };

    ghost view = { λ it. record {
      servers = it.servers.items;
      timeout = it.timeout;
      attempts = it.attempts;
      over_tcp = it.over_tcp;
      rotates = it.rotates;
      warnings = it.warnings.items;
    } };
}

impl ResolverFile {
    /// The name servers, in the order in which they are asked: one to three, each at `SERVER_PORT`.
    #[must_use]
    pub fn servers(&self) -> &[Address]
        ensures { result.now ≡ self.now.servers }
    {
        self.servers.as_slice()
    }

    /// The seconds for which a reply is waited for: 1 to 30.
    #[must_use]
    pub fn timeout(&self) -> u32
        ensures { result ≡ unwrap_or self.now.timeout 5 }
    {
        self.timeout.unwrap_or(TIMEOUT)
    }

    /// The seconds that the file's option says, where it has one.
    #[must_use]
    pub fn timeout_option(&self) -> Option<u32>
        ensures { result ≡ self.now.timeout }
    {
        self.timeout
    }

    /// How often each server is asked: 1 to 5 times.
    #[must_use]
    pub fn attempts(&self) -> u32
        ensures { result ≡ unwrap_or self.now.attempts 2 }
    {
        self.attempts.unwrap_or(ATTEMPTS)
    }

    /// How often each server is asked by the file's option, where it has one.
    #[must_use]
    pub fn attempts_option(&self) -> Option<u32>
        ensures { result ≡ self.now.attempts }
    {
        self.attempts
    }

    /// Whether servers are asked over TCP alone.
    #[must_use]
    pub fn is_over_tcp(&self) -> bool
        ensures { result ≡ self.now.over_tcp }
    {
        self.over_tcp
    }

    /// Whether each question begins with the server after the one that the question before it began
    /// with, which spreads the load among all servers.
    #[must_use]
    pub fn rotates(&self) -> bool
        ensures { result ≡ self.now.rotates }
    {
        self.rotates
    }

    /// The lines that can't be read, in their order, for a caller that reports them.
    #[must_use]
    pub fn warnings(&self) -> &[LineWarning]
        ensures { result.now ≡ self.now.warnings }
    {
        self.warnings.as_slice()
    }

    /// A file that says nothing yet.
    fn new(alloc: Global) -> ResolverFile
        ensures { result ≡ value_of [] }
    {
        ResolverFile {
            servers: Vec::new(alloc),
            timeout: None,
            attempts: None,
            over_tcp: false,
            rotates: false,
            warnings: Vec::new(alloc),
        }
    }

    /// Takes what is said on a line.
    fn take_fact(&mut self, line: usize, fact: Fact) -> Result<(), AllocError>
        ensures { OnOk result (self.new ≡ with_fact line fact self.old) }
    {
        match fact {
            Fact::Server(address) => {
                if self.servers.len() < SERVER_LIMIT {
                    self.servers.push(address)?;
                }
            }
            Fact::Timeout(seconds) => self.timeout = Some(seconds),
            Fact::Attempts(count) => self.attempts = Some(count),
            Fact::OverTcp => self.over_tcp = true,
            Fact::Rotate => self.rotates = true,
            Fact::Fault(fault) => self.warnings.push(LineWarning { line, fault })?,
        }
        Ok(())
    }

    /// Takes what the options on a line say.
    fn take_options(&mut self, line: usize, text: &[u8]) -> Result<(), AllocError>
        ensures { OnOk result
            (self.new ≡ with_facts line (filter_map option_says (words_of text.now)) self.old) }
    {
        let mut rest = text;
        while let Some((word, behind)) = next_word(rest) {
            if let Some(fact) = option_fact(word) {
                self.take_fact(line, fact)?;
            }
            rest = behind;
        }
        Ok(())
    }

    /// Takes what a line says.
    fn take_line(&mut self, number: usize, line: &[u8]) -> Result<(), AllocError>
        ensures said { OnOk result ((facts : List Fact) × LineSays line.now facts) }
        ensures taken { OnOk result ((facts : List Fact) → LineSays line.now facts
            → self.new ≡ with_facts number facts self.old) }
    {
        match line_form(line) {
            LineForm::Nothing => Ok(()),
            LineForm::Server(word) => self.take_fact(number, server_fact(word)),
            LineForm::Options(text) => self.take_options(number, text),
            LineForm::Faulty(fault) => self.take_fact(number, Fact::Fault(fault)),
        }
    }

    /// What the octets of a resolver file say. Without a file there are no octets.
    ///
    /// A line is a keyword, and what it needs after blanks:
    ///
    /// - `nameserver` and an address of IPv4 or IPv6, without a scope: a server. The first three
    ///   count, and where there is none that of the local host, 127.0.0.1.
    /// - `options` and any of `timeout:N` (1 to 30 seconds, else 5), `attempts:N` (1 to 5 times,
    ///   else 2), of which the last one counts, `use-vc` (TCP alone) and `rotate` (each question
    ///   begins with the next server). A number beyond a limit is that limit. Other options say
    ///   nothing.
    /// - `domain`, `search` and `sortlist` say nothing: names are absolute here.
    ///
    /// A line of blanks says nothing, and neither does one with `#` or `;` in its first column. Any
    /// other line can't be read: it is passed over, with a warning.
    pub fn read(alloc: Global, text: &[u8]) -> Result<ResolverFile, AllocError>
        // What is read is what the file says.
        ensures found { IfOk result (λ file. FileSays text.now file) }
        // What the file says is read, and nothing else.
        ensures read { IfOk result
            (λ file. (said : FileValue) → FileSays text.now said → file ≡ said) }
    {
        let mut file = ResolverFile::new(alloc);
        for (at, line) in text.split(|octet| *octet == b'\n').enumerate() {
            file.take_line(at + 1, line)?;
        }
        if file.servers().is_empty() {
            file.servers.push(LOCAL_HOST)?;
        }
        Ok(file)
    }
}
