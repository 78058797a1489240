//! The lines of how targets came about.
ghost use Rattle.std.specs.Prelude.{◌≡◌, ◌++◌, IfOk, OnOk};
ghost use Rattle.std.specs.List.{flat_map};
ghost use Rattle.std.specs.String.{string_bytes};
ghost use Rattle.resolution_paths.specs.Paths.{first_to, found_in};
ghost use Rattle.std.specs.Option.{option_map};
ghost use Rattle.sip_report.specs.Explanations as spec;

use crate::account::{Account, FirstCount};
use crate::address::AddressForm;
use crate::line_outcome::LineOutcome;
use crate::output::target_words;
use crate::record_words::{push_name_word, push_naptr, push_number, push_srv};
use crate::rule::place_rule;
use dns_message::NaptrRecord;
use resolution_paths::{PathFound, ResolutionPath, ServiceRecord, path_to};
use sip_resolver::Outcome;
use sip_selection::Target;
use std::alloc::{AllocError, Global};

/// The targets of a request by its outcome, if it has any.
fn targets_of(outcome: &Outcome) -> &[Target]
    ensures { result.now ≡ spec.targets_of outcome.now }
{
    match outcome {
        Outcome::Targets(list) => list.as_slice(),
        _ => &[],
    }
}

/// The targets of a text, if it has any.
pub fn targets_in(line_outcome: &LineOutcome) -> &[Target]
    ensures { result.now ≡ spec.targets_in line_outcome.now }
{
    match line_outcome {
        LineOutcome::Became(outcome) => targets_of(outcome),
        LineOutcome::Tried(tries) => tries.targets.as_slice(),
        _ => &[],
    }
}

/// The rule by which SRV records are found.
fn service_rule(alloc: Global, via: bool, rule: &Option<NaptrRecord>) -> Result<String, AllocError>
    ensures { IfOk result (λ words. string_bytes words ≡ spec.service_rule via rule.now) }
{
    match rule {
        Some(_) => String::from_str(alloc, "services, RFC 3263 4.1"),
        None => place_rule(alloc, via, "servers"),
    }
}

/// The rule by which a path leads to addresses.
fn path_rule(
    alloc: Global,
    via: bool,
    service: &Option<ServiceRecord>,
) -> Result<String, AllocError>
    ensures { IfOk result (λ words. string_bytes words ≡ spec.path_rule via service.now) }
{
    match service {
        Some(found) => service_rule(alloc, via, &found.rule),
        None => place_rule(alloc, via, "addresses"),
    }
}

/// Adds the line of a NAPTR record, if there is one.
fn push_naptr_line(
    alloc: Global,
    rule: &Option<NaptrRecord>,
    lines: &mut String,
) -> Result<(), AllocError>
    ensures { OnOk result
        (string_bytes lines.new ≡ string_bytes lines.old ++ spec.naptr_line rule.now) }
{
    let Some(rule) = rule else {
        return Ok(());
    };
    lines.push_str(";   NAPTR ")?;
    push_naptr(alloc, rule, lines)?;
    lines.push_str("\n")
}

/// Adds the line of an SRV record, behind the name of its service.
fn push_srv_line(
    alloc: Global,
    service: &ServiceRecord,
    lines: &mut String,
) -> Result<(), AllocError>
    ensures { OnOk result
        (string_bytes lines.new ≡ string_bytes lines.old ++ spec.srv_line service.now) }
{
    lines.push_str(";   ")?;
    push_name_word(&service.service, lines)?;
    lines.push_str("SRV ")?;
    push_srv(alloc, &service.server, lines)?;
    lines.push_str("\n")
}

/// Adds the lines of the records of a service, if there is one.
fn push_service(
    alloc: Global,
    service: &Option<ServiceRecord>,
    lines: &mut String,
) -> Result<(), AllocError>
    ensures { OnOk result
        (string_bytes lines.new ≡ string_bytes lines.old ++ spec.service_lines service.now) }
{
    let Some(found) = service else {
        return Ok(());
    };
    push_naptr_line(alloc, &found.rule, lines)?;
    push_srv_line(alloc, found, lines)
}

/// A rule in parentheses.
fn in_parentheses(alloc: Global, rule: &str) -> Result<String, AllocError>
    ensures { IfOk result (λ words. string_bytes words ≡ spec.in_parentheses rule.now) }
{
    let mut words = String::from_str(alloc, " (")?;
    words.push_str(rule)?;
    words.push_str(")")?;
    Ok(words)
}

/// Adds what is said of a target to which a path leads.
fn push_path(
    alloc: Global,
    via: bool,
    paths: &[ResolutionPath],
    found: PathFound<'_>,
    lines: &mut String,
) -> Result<(), AllocError>
    ensures { OnOk result (string_bytes lines.new
        ≡ string_bytes lines.old ++ spec.came_by via paths.now (Some (found_in found.entry))) }
{
    let life = found.life;
    let rule = path_rule(alloc, via, &found.path.service)?;
    lines.push_str(&in_parentheses(alloc, &rule)?)?;
    lines.push_str(", ttl ")?;
    lines.push_str(&format!(in alloc; "{life}\n")?)?;
    push_service(alloc, &found.path.service, lines)
}

/// What is said of a target to which no path leads.
fn unkept(alloc: Global, via: bool, paths: &[ResolutionPath]) -> Result<String, AllocError>
    ensures { IfOk result (λ words. string_bytes words ≡ spec.unkept via paths.now) }
{
    match paths {
        [] => in_parentheses(alloc, &place_rule(alloc, via, "as written")?),
        [_, ..] => String::from_str(alloc, ", ttl 0"),
    }
}

/// Adds what is said of a target to which no path leads.
fn push_unkept(
    alloc: Global,
    via: bool,
    paths: &[ResolutionPath],
    lines: &mut String,
) -> Result<(), AllocError>
    ensures { OnOk result (string_bytes lines.new
        ≡ string_bytes lines.old ++ spec.came_by via paths.now None) }
{
    lines.push_str(&unkept(alloc, via, paths)?)?;
    lines.push_str("\n")
}

/// Adds the lines of how a target came.
fn push_explained(
    alloc: Global,
    form: AddressForm,
    via: bool,
    paths: &[ResolutionPath],
    target: &Target,
    lines: &mut String,
) -> Result<(), AllocError>
    ensures { OnOk result (string_bytes lines.new
        ≡ string_bytes lines.old ++ spec.explained form via paths.now target.now) }
{
    lines.push_str("; ")?;
    lines.push_str(&target_words(alloc, form, target)?)?;
    match path_to(paths, target) {
        Some(found) => push_path(alloc, via, paths, found, lines),
        None => push_unkept(alloc, via, paths, lines),
    }
}

/// Adds the lines of how targets came.
fn push_all_explained(
    alloc: Global,
    form: AddressForm,
    via: bool,
    paths: &[ResolutionPath],
    targets: &[Target],
    lines: &mut String,
) -> Result<(), AllocError>
    ensures { OnOk result (string_bytes lines.new
        ≡ string_bytes lines.old ++ flat_map (spec.explained form via paths.now) targets.now) }
{
    'targets: for target in targets {
        push_explained(alloc, form, via, paths, target, lines)?;
    }
    Ok(())
}

/// What is said of the weight of a target, if a record that has one leads to it.
fn weight_words(alloc: Global, found: Option<PathFound<'_>>) -> Result<String, AllocError>
    ensures { IfOk result (λ words.
        string_bytes words ≡ spec.weight_by (option_map found_in found.entry)) }
{
    let mut words = String::new(alloc);
    if let Some(found) = found {
        if let Some(service) = &found.path.service {
            let priority = service.server.priority;
            let weight = service.server.weight;
            words.push_str(&format!(in alloc; ", priority {priority}")?)?;
            words.push_str(&format!(in alloc; ", weight {weight}")?)?;
        }
    }
    Ok(words)
}

/// In how many of so many draws a target came first.
fn count_words(alloc: Global, times: u32, draws: u32) -> Result<String, AllocError>
    ensures { IfOk result (λ words. string_bytes words ≡ spec.count_words times draws) }
{
    let mut words = format!(in alloc; " first in {times}")?;
    words.push_str(&format!(in alloc; " of {draws} draws")?)?;
    Ok(words)
}

/// Adds the line of a target that came first in some of so many draws.
fn push_drawn(
    alloc: Global,
    form: AddressForm,
    paths: &[ResolutionPath],
    draws: u32,
    first: &FirstCount,
    lines: &mut String,
) -> Result<(), AllocError>
    ensures { OnOk result (string_bytes lines.new
        ≡ string_bytes lines.old ++ spec.drawn_line form paths.now draws first.now) }
{
    lines.push_str("; ")?;
    lines.push_str(&target_words(alloc, form, &first.target)?)?;
    lines.push_str(&count_words(alloc, first.times, draws)?)?;
    lines.push_str(&weight_words(alloc, path_to(paths, &first.target))?)?;
    lines.push_str("\n")
}

/// Adds the lines of which target came first how often.
fn push_all_drawn(
    alloc: Global,
    form: AddressForm,
    account: &Account,
    lines: &mut String,
) -> Result<(), AllocError>
    ensures { OnOk result (string_bytes lines.new ≡ string_bytes lines.old
        ++ flat_map (spec.drawn_line form account.now.paths.items account.now.draws)
        account.now.firsts.items) }
{
    let paths = account.paths.as_slice();
    'firsts: for first in account.firsts.as_slice() {
        push_drawn(alloc, form, paths, account.draws, first, lines)?;
    }
    Ok(())
}

/// The lines of the account of a text: how its targets came, where that is asked for, and which of
/// them came first how often.
pub fn account_lines(
    alloc: Global,
    form: AddressForm,
    via: bool,
    explains: bool,
    account: &Account,
    targets: &[Target],
) -> Result<String, AllocError>
    ensures { IfOk result (λ lines.
        string_bytes lines ≡ spec.account_lines explains form via account.now targets.now) }
{
    let mut lines = String::new(alloc);
    if explains {
        push_all_explained(
            alloc,
            form,
            via,
            account.paths.as_slice(),
            targets,
            &mut lines,
        )?;
    }
    push_all_drawn(alloc, form, account, &mut lines)?;
    Ok(lines)
}

/// The least of two lives, where there are two.
fn least_of(life: Option<u32>, other: Option<u32>) -> Option<u32>
    ensures { result ≡ spec.least_of life other }
{
    match (life, other) {
        (Some(life), Some(other)) => Some(life.min(other)),
        (Some(life), None) => Some(life),
        (None, other) => other,
    }
}

/// For how many seconds a target may be kept.
fn life_in(paths: &[ResolutionPath], found: Option<PathFound<'_>>) -> Option<u32>
    ensures { result ≡ spec.life_in paths.now (option_map found_in found.entry) }
{
    match (paths, found) {
        (_, Some(found)) => Some(found.life),
        ([], None) => None,
        ([_, ..], None) => Some(0),
    }
}

/// For how many seconds the answers may be kept by which targets came. `None` where none did.
pub fn least_life(paths: &[ResolutionPath], targets: &[Target]) -> Option<u32>
    ensures { result ≡ spec.least_life paths.now targets.now }
{
    let mut least = None;
    'targets: for target in targets {
        least = least_of(least, life_in(paths, path_to(paths, target)));
    }
    least
}
