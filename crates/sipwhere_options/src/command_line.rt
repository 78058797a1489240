//! The command line that the program takes.
use clap::{Arg, ArgAction, Command, value_parser};
use std::alloc::{AllocError, Global};

/// An option with one value.
fn value<'a>(alloc: Global, name: &'a str, word: &'a str, help: &'a str) -> Arg<'a> {
    Arg::new(alloc, name).long(name).value_name(word).help(help)
}

/// An option without a value.
fn flag<'a>(alloc: Global, name: &'a str, help: &'a str) -> Arg<'a> {
    Arg::new(alloc, name)
        .long(name)
        .action(ArgAction::SetTrue)
        .help(help)
}

/// With one option more, unless memory was refused for it.
fn with<'a>(
    command: Command<'a>,
    option: Result<Arg<'a>, AllocError>,
) -> Result<Command<'a>, AllocError> {
    command.arg(option?)
}

/// With the options of whom to ask.
fn with_servers<'a>(alloc: Global, command: Command<'a>) -> Result<Command<'a>, AllocError> {
    command
        .arg(
            value(
                alloc,
                "server",
                "ADDRESS[:PORT]",
                "A name server; may be repeated",
            )
            .short('s')
            .action(ArgAction::Append),
        )?
        .arg(value(
            alloc,
            "resolver-file",
            "FILE",
            "The file that names servers where none is named, /etc/resolv.conf if not given",
        ))?
        .arg(flag(alloc, "tcp", "Ask over TCP alone"))
}

/// The option of the form of queries.
fn edns<'a>(alloc: Global) -> Arg<'a> {
    value(
        alloc,
        "edns",
        "SIZE",
        "Queries with EDNS (RFC 6891) for datagrams of up to SIZE octets",
    )
    .num_args(0..=1)
    .require_equals(true)
    .default_missing_value("1232")
    .value_parser(value_parser!(u16).range(512..=4_096))
}

/// With the options of how to ask.
fn with_asking<'a>(alloc: Global, command: Command<'a>) -> Result<Command<'a>, AllocError> {
    let bind = value(alloc, "bind", "ADDRESS", "The local address to ask from").short('b');
    with(command, bind.conflicts_with("tcp"))?
        .arg(flag(alloc, "norecurse", "Queries without RD"))?
        .arg(edns(alloc))
}

/// The option of the families of addresses.
fn families<'a>(alloc: Global) -> Arg<'a> {
    value(
        alloc,
        "families",
        "FAMILIES",
        "The families of addresses, in their order",
    )
    .value_parser(["4", "6", "46", "64"].as_slice())
    .default_value("46")
}

/// The option of the transports.
fn transports<'a>(alloc: Global) -> Arg<'a> {
    value(
        alloc,
        "transports",
        "LIST",
        "What can be sent, the preferred one first",
    )
    .short('t')
    .value_delimiter(',')
    .value_parser(["udp", "tcp", "tls", "sctp"].as_slice())
    .default_value("udp,tcp,tls,sctp")
}

/// The option of the length of requests.
fn length<'a>(alloc: Global) -> Arg<'a> {
    value(
        alloc,
        "length",
        "OCTETS",
        "The length of the requests: a large one does not go over UDP",
    )
    .value_parser(value_parser!(u32))
}

/// The option of a stateless proxy.
fn fixed_order<'a>(alloc: Global) -> Arg<'a> {
    flag(
        alloc,
        "fixed-order",
        "One order of records that tie, as a stateless proxy needs it (RFC 3263 4.4)",
    )
}

/// The option of responses.
fn sent_by<'a>(alloc: Global) -> Arg<'a> {
    flag(
        alloc,
        "sent-by",
        "Of a Via the host and port in front, whatever received, rport and maddr say",
    )
}

/// With the options of what can be sent.
fn with_sender<'a>(alloc: Global, command: Command<'a>) -> Result<Command<'a>, AllocError> {
    command
        .arg(families(alloc))?
        .arg(transports(alloc))?
        .arg(length(alloc))?
        .arg(fixed_order(alloc))?
        .arg(sent_by(alloc))
}

/// The option of how long a query is waited for.
fn timeout<'a>(alloc: Global) -> Arg<'a> {
    value(
        alloc,
        "timeout",
        "MS",
        "How long each query is waited for (10 to 60000), 1000 if not given",
    )
    .value_parser(value_parser!(u32).range(10..=60_000))
}

/// The option of how often a question is sent.
fn tries<'a>(alloc: Global) -> Arg<'a> {
    value(
        alloc,
        "tries",
        "N",
        "How often each question is sent in all, 3 if not given",
    )
    .value_parser(value_parser!(u32).range(1..=15))
}

/// The option of how long one URI may take.
fn total<'a>(alloc: Global) -> Arg<'a> {
    value(
        alloc,
        "total",
        "MS",
        "How long one URI may take, in milliseconds",
    )
    .value_parser(value_parser!(u32).range(1..=600_000))
    .default_value("10000")
}

/// With the options of how long and how often, and of the random words.
fn with_limits<'a>(alloc: Global, command: Command<'a>) -> Result<Command<'a>, AllocError> {
    let seed = value(alloc, "seed", "HEX", "The key of the random words and ids");
    command
        .arg(timeout(alloc))?
        .arg(tries(alloc))?
        .arg(total(alloc))?
        .arg(seed)
}

/// An option of a check, with a number.
fn bound<'a>(
    alloc: Global,
    name: &'a str,
    word: &'a str,
    help: &'a str,
) -> Result<Arg<'a>, AllocError> {
    value(alloc, name, word, help)
        .value_parser(value_parser!(u32))
        .requires_arg("check")
}

/// An option of a check, with the most milliseconds, and a letter.
fn time_bound<'a>(
    alloc: Global,
    name: &'a str,
    letter: char,
    help: &'a str,
) -> Result<Arg<'a>, AllocError> {
    Ok(bound(alloc, name, "MS", help)?.short(letter))
}

/// The option of the target that is expected.
fn expected<'a>(alloc: Global) -> Result<Arg<'a>, AllocError> {
    value(
        alloc,
        "expect",
        "TARGET",
        "With --check: CRITICAL where this target is missing, as `udp 192.0.2.1 5060`",
    )
    .requires_arg("check")
}

/// With the bounds of a check.
fn with_bounds<'a>(alloc: Global, command: Command<'a>) -> Result<Command<'a>, AllocError> {
    let late = "With --check: WARNING where it takes longer, in milliseconds";
    let too_late = "With --check: CRITICAL where it takes longer, in milliseconds";
    let few = "With --check: WARNING where there are fewer targets";
    let too_few = "With --check: CRITICAL where there are fewer targets";
    let command = with(command, time_bound(alloc, "warning", 'w', late))?;
    let command = with(command, time_bound(alloc, "critical", 'c', too_late))?;
    let command = with(command, bound(alloc, "warning-targets", "N", few))?;
    with(command, bound(alloc, "critical-targets", "N", too_few))
}

/// With the options of what a check holds targets to.
fn with_check<'a>(alloc: Global, command: Command<'a>) -> Result<Command<'a>, AllocError> {
    let check = flag(alloc, "check", "One line for a monitoring system");
    let command = with(command, check.conflicts_with("json"))?;
    with(with_bounds(alloc, command)?, expected(alloc))
}

/// The option of metrics.
fn metrics<'a>(alloc: Global) -> Result<Arg<'a>, AllocError> {
    flag(
        alloc,
        "metrics",
        "Metrics of one URI in the text format of Prometheus",
    )
    .conflicts_with("json")?
    .conflicts_with("check")
}

/// The option of what goes over the wire.
fn trace<'a>(alloc: Global) -> Result<Arg<'a>, AllocError> {
    flag(
        alloc,
        "trace",
        "A line for each query in front of what it led to",
    )
    .conflicts_with("json")?
    .conflicts_with("check")?
    .conflicts_with("metrics")
}

/// The option of how each target came.
fn explain<'a>(alloc: Global) -> Result<Arg<'a>, AllocError> {
    flag(
        alloc,
        "explain",
        "Lines of how each target came, in front of the targets",
    )
    .conflicts_with("json")?
    .conflicts_with("check")?
    .conflicts_with("metrics")
}

/// The option of how often each target comes first.
fn repeat<'a>(alloc: Global) -> Result<Arg<'a>, AllocError> {
    value(
        alloc,
        "repeat",
        "N",
        "Lines of how often each target comes first in N draws, in front of the targets",
    )
    .value_parser(value_parser!(u32).range(1..=100_000))
    .conflicts_with("json")?
    .conflicts_with("check")?
    .conflicts_with("metrics")
}

/// With the options of what is printed.
fn with_output<'a>(alloc: Global, command: Command<'a>) -> Result<Command<'a>, AllocError> {
    let short = "IPv6 addresses in their short form (RFC 5952), as on a terminal";
    let command = command
        .arg(flag(alloc, "short", short))?
        .arg(flag(alloc, "json", "An object of JSON for each URI"))?;
    let command = with(command, metrics(alloc))?;
    let command = with(command, trace(alloc))?;
    let command = with(command, explain(alloc))?;
    let command = with(command, repeat(alloc))?;
    let verbose = "Of a URI without an address also the name that does not exist";
    command.arg(flag(alloc, "verbose", verbose).short('v'))?.arg(flag(
        alloc,
        "stats",
        "How much was asked, on standard error",
    ))
}

/// The option of which servers are pinged.
fn ping<'a>(alloc: Global) -> Result<Arg<'a>, AllocError> {
    flag(
        alloc,
        "ping",
        "Ask the targets of each URI by OPTIONS whether they are there, until one is",
    )
    .conflicts_with("metrics")
}

/// The option of how long a ping is waited for.
fn wait<'a>(alloc: Global) -> Result<Arg<'a>, AllocError> {
    value(
        alloc,
        "wait",
        "MS",
        "With --ping: how long each target may take, in milliseconds, 4000 if not given",
    )
    .value_parser(value_parser!(u32).range(1..=600_000))
    .requires_arg("ping")
}

/// With the options of pings.
fn with_pings<'a>(alloc: Global, command: Command<'a>) -> Result<Command<'a>, AllocError> {
    let all = "With --ping: each target";
    let hop = "With --ping: requests with Max-Forwards 0, which no server sends on";
    let command = with(command, ping(alloc))?;
    let command = with(command, flag(alloc, "all", all).requires_arg("ping"))?;
    let command = with(command, flag(alloc, "hop", hop).requires_arg("ping"))?;
    with(command, wait(alloc))
}

/// The texts.
fn texts<'a>(alloc: Global) -> Arg<'a> {
    Arg::new(alloc, "uri")
        .value_name("URI")
        .required(true)
        .num_args(1..)
        .help("SIP or SIPS URIs, or `Via: ..`; `-` for one on each line of standard input")
}

/// The command, without options.
fn bare<'a>(alloc: Global) -> Result<Command<'a>, AllocError> {
    Ok(
        Command::new(alloc, "sipwhere")
            .bin_name("sipwhere")?
            .version("0.1.0")
            .about("Where SIP requests are sent (RFC 3263), asked of DNS servers")
            .after_help(
                "Exit status: 0 targets for all; 1 no server answered for one; 2 a refusal;\n\
             3 a bad URI; 4 usage; 5 a fault; the gravest of many",
            ),
    )
}

/// The command line that the program takes.
pub fn command<'a>(alloc: Global) -> Result<Command<'a>, AllocError> {
    let command = with_servers(alloc, bare(alloc)?)?;
    let command = with_asking(alloc, command)?;
    let command = with_sender(alloc, command)?;
    let command = with_limits(alloc, command)?;
    let command = with_check(alloc, command)?;
    let command = with_pings(alloc, command)?;
    with_output(alloc, command)?.arg(texts(alloc))
}
