//! The words after the program's name.
ghost use Rattle.std.specs.Prelude.{◌≡◌, ◌⊎◌, ◌↔◌, List, Some, None, false, map, codes, not, option_map};
ghost use Rattle.std.specs.Prelude.{IfErr, IfOk, IfSome, IsTrue, OnOk};
ghost use Rattle.std.specs.List.{AllZip, Any};
ghost use Rattle.std.specs.Net.Grammar.{IsIpText};
ghost use Rattle.clap.specs.Matches.{found_of, one_text};
ghost use Rattle.sip_selection.specs.Callers.{AreOffered};
ghost use Rattle.sipwhere_options.specs.CommandLine as spec;
ghost use Rattle.sipwhere_options.specs.Flags.{IsFlag, NumberText, SpellsNothing};
ghost use Rattle.sipwhere_options.specs.Servers.{ServerText};
ghost use Rattle.sipwhere_options.specs.declared.options.OptionFault.TheVariants as fault;

use crate::pinging::{Pinging, pinging_of};
use crate::seed::key_from_text;
use crate::server_text::{local_from_text, server_from_text};
use crate::terminals::{Terminals, form_for, shows_progress};
use clap::ArgMatches;
use dns_transport::QueryForm;
use sip_report::{AddressForm, Bounds, CheckLimits, Report, Style};
use sip_selection::{Caps, Families};
use sip_uri::Transport;
use std::alloc::{AllocError, AllocFailed, Global};
use std::net::{IpAddr, SocketAddr};
use thiserror::Error;

/// How long each query is waited for, and how often each question is sent, as far as words say so.
#[derive(Clone, Copy, Debug)]
pub struct Timing {
    /// For how many milliseconds each query is waited for.
    pub timeout: Option<u32>,
    /// How often each question is sent in all.
    pub tries: Option<u32>,
}

/// What is printed beside what became of a text.
#[derive(Clone, Copy, Debug)]
pub struct Detail {
    /// Whether the program prints each query that went out.
    pub traced: bool,
    /// Whether a line has the name that does not exist.
    pub verbose: bool,
    /// Whether the program prints how each target came.
    pub explains: bool,
    /// How many draws of the order of the targets it counts, if any.
    pub draws: Option<u32>,
}

/// The options of a run.
#[derive(Debug, Drop)]
pub struct Options<'a> {
    /// The name servers, where they are named.
    pub servers: Vec<SocketAddr>,
    /// The resolver file that is to be read where no servers are named, if one is named.
    pub resolver_file: Option<&'a str>,
    /// Whether servers are asked over TCP alone.
    pub over_tcp: bool,
    /// The local address to ask from, where it is named.
    pub local: Option<IpAddr>,
    /// The form in which queries go out.
    pub query_form: QueryForm,
    /// What can be sent: transports and families of addresses.
    pub caps: Caps,
    /// Whether a Via is located by its sent-by alone, whatever its parameters say.
    pub by_sent_by: bool,
    /// How long each query is waited for, and how often each question is sent.
    pub timing: Timing,
    /// How long one text may take, in milliseconds.
    pub total: u32,
    /// The key of the random words and ids, where it is named.
    pub seed: Option<[u8; 32]>,
    /// What is printed of a text.
    pub report: Report,
    /// What a check holds targets to.
    pub limits: CheckLimits<'a>,
    /// The form of addresses.
    pub form: AddressForm,
    /// What is printed beside what became of a text.
    pub detail: Detail,
    /// Whether the program reports at the end how much was asked.
    pub stats: bool,
    /// How the targets of URIs are pinged, if they are.
    pub pinging: Option<Pinging>,
    /// Whether the program reports how many texts are done.
    pub shows_progress: bool,
    /// The texts, or `-` for the lines of the standard input.
    pub texts: Vec<&'a str>,
}

/// How long one text may take where the words don't say, in milliseconds.
const TOTAL: u32 = 10_000;

/// What is wrong with the options.
#[derive(Clone, Copy, Debug, PartialEq, Eq, Error)]
pub enum OptionFault {
    /// A server that is no address.
    #[error("a server is ADDRESS, ADDRESS:PORT or [ADDRESS]:PORT")]
    Server,
    /// A local address that is no address.
    #[error("a local address is one of IPv4 or IPv6, without a port")]
    Local,
    /// Families that are none.
    #[error("families of addresses are 4, 6, 46 or 64")]
    Families,
    /// A transport is named twice.
    #[error("transports are different ones of udp, tcp, tls and sctp")]
    Transports,
    /// UDP is the one transport, and requests are too large for it.
    #[error("requests of this length need another transport than udp")]
    Length,
    /// A seed that is no key.
    #[error("a seed has 1 to 64 hexadecimal digits")]
    Seed,
    /// There is more than one URI.
    #[error("--check and --metrics take one URI")]
    OneText,
    /// Memory was refused.
    #[error("out of memory")]
    Memory,
}

impl From<AllocError> for OptionFault {
    ghost use Rattle.sipwhere_options.specs.declared.options.OptionFault.TheVariants.{Memory};

    ghost from_gives = { λ _ fault. fault ≡ Memory };

    fn from(_: AllocError) -> OptionFault {
        OptionFault::Memory
    }
}

impl<T: Drop> From<AllocFailed<T>> for OptionFault {
    ghost use Rattle.sipwhere_options.specs.declared.options.OptionFault.TheVariants.{Memory};

    ghost from_gives = { λ _ fault. fault ≡ Memory };

    fn from(_: AllocFailed<T>) -> OptionFault {
        OptionFault::Memory
    }
}

impl<'a> Options<'a> {
    /// The style in which what became of texts is printed.
    pub fn style(&self, several: bool) -> Style<'a>
        ensures { spec.IsStyle self.now several result }
    {
        Style {
            report: self.report,
            limits: self.limits,
            form: self.form,
            several,
            traced: self.detail.traced,
            verbose: self.detail.verbose,
            explains: self.detail.explains,
        }
    }
}

/// Whether an option without a word of its own is given.
pub(crate) fn is_set(matches: &ArgMatches<'_>, name: &str) -> bool
    ensures { IsFlag matches.now name.now result }
{
    matches.get_flag(name)
}

/// The servers of words.
fn servers_of(alloc: Global, words: &[&str]) -> Result<Vec<SocketAddr>, OptionFault>
    ensures read { IfOk result (λ servers.
        AllZip (λ word server. ServerText word.now server) words.now servers.items) }
    ensures refused { IfErr result (λ it. (it ≡ fault.Memory) ⊎ ((it ≡ fault.Server)
        × Any (λ word. SpellsNothing ServerText word.now) words.now)) }
{
    let mut servers = Vec::new(alloc);
    'words: for word in words {
        match server_from_text(word) {
            Some(server) => servers.push(server)?,
            None => return Err(OptionFault::Server),
        }
    }
    Ok(servers)
}

/// The servers that are named.
fn servers_in(alloc: Global, matches: &ArgMatches<'_>) -> Result<Vec<SocketAddr>, OptionFault>
    ensures read { IfOk result (λ servers.
        AllZip ServerText (spec.words_of matches.now (codes "server")) servers.items) }
    ensures refused { IfErr result (spec.IsFault matches.now) }
{
    servers_of(alloc, matches.get_strs("server").unwrap_or(&[]))
}

/// The local address of a word, where there is one.
fn local_of(word: Option<&str>) -> Result<Option<IpAddr>, OptionFault>
    ensures read { IfOk result (spec.Says IsIpText (option_map (λ word. word.now) word.entry)) }
    ensures refused { IfErr result (λ it. (it ≡ fault.Local)
        × spec.SaysNothing IsIpText (option_map (λ word. word.now) word.entry)) }
{
    match word {
        None => Ok(None),
        Some(word) => match local_from_text(word) {
            Some(local) => Ok(Some(local)),
            None => Err(OptionFault::Local),
        },
    }
}

/// The form in which queries go out.
fn query_form_of(matches: &ArgMatches<'_>) -> QueryForm
    ensures recursion { IsFlag matches.now (codes "norecurse") (not result.recursion) }
    ensures edns { spec.MaySay (NumberText 16)
        (one_text (found_of matches.now) (codes "edns")) result.edns }
{
    QueryForm {
        recursion: !is_set(matches, "norecurse"),
        edns: matches.get_one::<u16>("edns"),
    }
}

/// The families of a word.
fn families_of(word: &str) -> Option<Families>
    ensures { result ≡ spec.families_of word.now }
{
    match word {
        "4" => Some(Families::V4),
        "6" => Some(Families::V6),
        "46" => Some(Families::V4ThenV6),
        "64" => Some(Families::V6ThenV4),
        _ => None,
    }
}

/// The families of a word, where there is one, and else those of both kinds.
fn families_or_both(word: Option<&str>) -> Result<Families, OptionFault>
    ensures read { IfOk result (λ families.
        spec.families_or_both (option_map (λ word. word.now) word.entry) ≡ Some families) }
    ensures refused { IfErr result (λ it. (it ≡ fault.Families)
        × (spec.families_or_both (option_map (λ word. word.now) word.entry) ≡ None)) }
{
    match word {
        None => Ok(Families::V4ThenV6),
        Some(word) => match families_of(word) {
            Some(families) => Ok(families),
            None => Err(OptionFault::Families),
        },
    }
}

/// The transport of a word.
fn transport_of(word: &str) -> Option<Transport>
    ensures { result ≡ spec.transport_of word.now }
{
    match word {
        "udp" => Some(Transport::Udp),
        "tcp" => Some(Transport::Tcp),
        "tls" => Some(Transport::Tls),
        "sctp" => Some(Transport::Sctp),
        _ => None,
    }
}

/// The transports of words.
fn transports_of(alloc: Global, words: &[&str]) -> Result<Vec<Transport>, OptionFault>
    ensures read { IfOk result (λ transports.
        AllZip (λ word transport. spec.IsTransport word.now transport) words.now
        transports.items) }
    ensures refused { IfErr result (λ it. (it ≡ fault.Memory) ⊎ ((it ≡ fault.Transports)
        × Any (λ word. spec.IsNoTransport word.now) words.now)) }
{
    let mut transports = Vec::new(alloc);
    'words: for word in words {
        match transport_of(word) {
            Some(transport) => transports.push(transport)?,
            None => return Err(OptionFault::Transports),
        }
    }
    Ok(transports)
}

/// The transports that are named.
fn transports_in(alloc: Global, matches: &ArgMatches<'_>) -> Result<Vec<Transport>, OptionFault>
    ensures read { IfOk result (λ transports. AllZip spec.IsTransport
        (spec.words_of matches.now (codes "transports")) transports.items) }
    ensures refused { IfErr result (spec.IsFault matches.now) }
{
    transports_of(alloc, matches.get_strs("transports").unwrap_or(&[]))
}

/// What can be sent over these transports, to addresses of these families.
fn caps_of(transports: &[Transport], families: Families) -> Result<Caps, OptionFault>
    ensures made { IfOk result (λ caps. caps ≡ record {
      transports = transports.now;
      families = families;
      is_large = false;
      is_fixed = false;
    }) }
    ensures offered { OnOk result (AreOffered transports.now) }
    ensures refused { IfErr result
        (λ it. (it ≡ fault.Transports) × (AreOffered transports.now → ⊥)) }
{
    match Caps::new(transports, families) {
        Some(caps) => Ok(caps),
        None => Err(OptionFault::Transports),
    }
}

/// The same, with one fixed order of records that tie where it is wanted.
fn in_order(caps: Caps, is_fixed: bool) -> Caps
    requires { caps.is_fixed ≡ false }
    ensures { result ≡ record caps { is_fixed = is_fixed } }
{
    if is_fixed {
        caps.with_fixed_order()
    } else {
        caps
    }
}

/// What can be sent of any request.
fn named_caps(alloc: Global, matches: &ArgMatches<'_>) -> Result<Caps, OptionFault>
    ensures read { IfOk result (spec.AreNamed matches.now) }
    ensures refused { IfErr result (spec.IsFault matches.now) }
{
    let transports = transports_in(alloc, matches)?;
    let families = families_or_both(matches.get_str("families"))?;
    let caps = caps_of(transports.as_slice(), families)?;
    Ok(in_order(caps, is_set(matches, "fixed-order")))
}

/// What can be sent of requests of a length, where it is given.
fn caps_for(caps: &Caps, length: Option<u32>) -> Option<Caps>
    ensures sized { IfSome result (spec.IsSized length caps.now) }
    ensures fixed { IfSome result (λ sized. sized.is_fixed ≡ caps.now.is_fixed) }
    ensures none { result ≡ None → spec.HasNoTransport length caps.now }
{
    match length {
        None => Some(*caps),
        Some(octets) => caps.for_length(octets as usize, None),
    }
}

/// What can be sent.
fn caps_in(alloc: Global, matches: &ArgMatches<'_>) -> Result<Caps, OptionFault>
    ensures read { IfOk result (spec.AreCaps matches.now) }
    ensures refused { IfErr result (spec.IsFault matches.now) }
{
    let named = named_caps(alloc, matches)?;
    match caps_for(&named, matches.get_one::<u32>("length")) {
        Some(caps) => Ok(caps),
        None => Err(OptionFault::Length),
    }
}

/// How long each query is waited for, and how often each question is sent, where words say so.
fn timing_of(matches: &ArgMatches<'_>) -> Timing
    ensures { spec.AreTimings matches.now result }
{
    Timing {
        timeout: matches.get_one::<u32>("timeout"),
        tries: matches.get_one::<u32>("tries"),
    }
}

/// What is printed beside what became of a text.
fn detail_of(matches: &ArgMatches<'_>) -> Detail
    ensures { spec.IsDetail matches.now result }
{
    Detail {
        traced: is_set(matches, "trace"),
        verbose: is_set(matches, "verbose"),
        explains: is_set(matches, "explain"),
        draws: matches.get_one::<u32>("repeat"),
    }
}

/// The milliseconds that one text may take.
fn total_of(matches: &ArgMatches<'_>) -> u32
    ensures { spec.IsTotal (one_text (found_of matches.now) (codes "total")) result }
{
    match matches.get_one::<u32>("total") {
        Some(total) => total,
        None => TOTAL,
    }
}

/// The key of a word, where there is one.
fn seed_of(word: Option<&str>) -> Result<Option<[u8; 32]>, OptionFault>
    ensures read { IfOk result
        (spec.Says spec.SeedText (option_map (λ word. word.now) word.entry)) }
    ensures refused { IfErr result (λ it. (it ≡ fault.Seed)
        × spec.SaysNothing spec.SeedText (option_map (λ word. word.now) word.entry)) }
{
    match word {
        None => Ok(None),
        Some(word) => match key_from_text(word) {
            Some(key) => Ok(Some(key)),
            None => Err(OptionFault::Seed),
        },
    }
}

/// What is printed of a text.
fn report_of(matches: &ArgMatches<'_>) -> Report
    ensures { spec.IsReport matches.now result }
{
    if is_set(matches, "check") {
        return Report::Check;
    }
    if is_set(matches, "metrics") {
        return Report::Metrics;
    }
    if is_set(matches, "json") {
        return Report::Json;
    }
    Report::Lines
}

/// Bounds of a check, as far as they are given.
fn bounds_of(time: Option<u32>, targets: Option<u32>) -> Bounds
    ensures { result ≡ record { time = time; targets = targets } }
{
    Bounds { time, targets }
}

/// What a check holds targets to.
fn limits_of<'a>(matches: &ArgMatches<'a>) -> CheckLimits<'a>
    ensures { spec.AreLimits matches.now result }
{
    CheckLimits {
        warning: bounds_of(
            matches.get_one::<u32>("warning"),
            matches.get_one::<u32>("warning-targets"),
        ),
        critical: bounds_of(
            matches.get_one::<u32>("critical"),
            matches.get_one::<u32>("critical-targets"),
        ),
        expected: matches.get_str("expect"),
    }
}

/// Whether there is one text, and it stands for itself.
fn is_one_text(texts: &[&str]) -> bool
    ensures { IsTrue result ↔ spec.IsOneText (map (λ text. text.now) texts.now) }
{
    match texts {
        ["-"] => false,
        [_] => true,
        _ => false,
    }
}

/// Whether texts can be reported so: a check is of one text, and so are metrics.
fn can_report(report: Report, texts: &[&str]) -> bool
    ensures { IsTrue result ↔ spec.CanReport report (map (λ text. text.now) texts.now) }
{
    match report {
        Report::Lines | Report::Json => true,
        Report::Check | Report::Metrics => is_one_text(texts),
    }
}

/// What is printed of the texts that are given.
fn report_in(matches: &ArgMatches<'_>) -> Result<Report, OptionFault>
    ensures read { IfOk result (spec.IsReport matches.now) }
    ensures can { IfOk result
        (λ report. spec.CanReport report (spec.words_of matches.now (codes "uri"))) }
    ensures refused { IfErr result (spec.IsFault matches.now) }
{
    let report = report_of(matches);
    if can_report(report, matches.get_strs("uri").unwrap_or(&[])) {
        Ok(report)
    } else {
        Err(OptionFault::OneText)
    }
}

/// The texts that are given.
fn texts_in<'a>(alloc: Global, matches: &ArgMatches<'a>) -> Result<Vec<&'a str>, AllocError>
    ensures { IfOk result (λ texts.
        map (λ text. text.now) texts.items ≡ spec.words_of matches.now (codes "uri")) }
{
    Vec::from_slice(alloc, matches.get_strs("uri").unwrap_or(&[]))
}

/// The options that the words of the command line give.
pub fn read_options<'a>(
    alloc: Global,
    matches: &ArgMatches<'a>,
    terminals: Terminals,
) -> Result<Options<'a>, OptionFault>
    ensures read { IfOk result (spec.AreOptions matches.now terminals) }
    ensures refused { IfErr result (spec.IsFault matches.now) }
{
    let report = report_in(matches)?;
    Ok(Options {
        servers: servers_in(alloc, matches)?,
        resolver_file: matches.get_str("resolver-file"),
        over_tcp: is_set(matches, "tcp"),
        local: local_of(matches.get_str("bind"))?,
        query_form: query_form_of(matches),
        caps: caps_in(alloc, matches)?,
        by_sent_by: is_set(matches, "sent-by"),
        timing: timing_of(matches),
        total: total_of(matches),
        seed: seed_of(matches.get_str("seed"))?,
        report,
        limits: limits_of(matches),
        form: form_for(is_set(matches, "short"), report, terminals),
        detail: detail_of(matches),
        stats: is_set(matches, "stats"),
        pinging: pinging_of(matches),
        shows_progress: shows_progress(terminals),
        texts: texts_in(alloc, matches)?,
    })
}
